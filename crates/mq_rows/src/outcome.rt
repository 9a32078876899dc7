//! What a numbered request comes to whose number is new, by what was found in the tables.
ghost use Rattle.std.specs.Prelude.{◌≡◌, ◌+◌, ◌<◌, ◌≤◌, ◌&&◌, not, true, false, Some, is_some};
ghost use Rattle.std.specs.Prelude.{IfOk, IfErr};
ghost use Rattle.std.specs.Option.{MatchOption};
ghost use Rattle.mq_request.specs.declared.message.Id.{Id as AnyId};
ghost use Rattle.mq_request.specs.declared.message.Reply.{Reply as AnyReply};
ghost use Rattle.mq_request.specs.Range.{IsId, IsCount, IsRequest, IsReply};
ghost use Rattle.mq_ledger.specs.Answer.{granted_or_full, settled_or_too_many};
ghost use Rattle.mq_ledger.specs.Arrivals.{id_of};
ghost use Rattle.mq_ledger.specs.Outcome.{reply_of};
ghost use Rattle.mq_rows.specs.Plan.{agrees_with, is_closed, held_by, reserved_by, used_by, cap_by};
ghost use Rattle.mq_rows.specs.Plan.{if_row_open};
ghost use Rattle.mq_rows.specs.Plan.{set_or_over_by, decided, moves, fits_held, fits, fits_if_open};
ghost use Rattle.mq_rows.specs.Plan.{is_day_over, may_be_found};

use crate::plan::FoundRows;
use crate::record::UsageRecord;
use mq_ledger::{LedgerFault, Outcome};
use mq_request::bounds::{AMOUNT_LIMIT, LAST_DAY};
use mq_request::{Login, Request};

/// What is reserved and settled together, where that is in range.
fn amount(reserved: u32, settled: u32) -> Option<u32>
    ensures { MatchOption result (1000000 < reserved + settled) (λ n. (n ≡ reserved + settled)
        × (n ≤ 1000000)) }
{
    match reserved.checked_add(settled) {
        Some(sum) if sum <= AMOUNT_LIMIT => Some(sum),
        _ => None,
    }
}

/// What the login has reserved on the day.
fn reserved(usage: &Option<UsageRecord>) -> u32
    ensures { result ≡ reserved_by usage.now }
{
    match usage {
        None => 0,
        Some(row) => row.reserved,
    }
}

/// What the login has used on the day, where that is in range.
fn used(usage: &Option<UsageRecord>) -> Option<u32>
    ensures { MatchOption result (1000000 < used_by usage.now)
        (λ n. (n ≡ used_by usage.now) × (n ≤ 1000000)) }
{
    match usage {
        None => Some(0),
        Some(row) => amount(row.reserved, row.settled),
    }
}

/// What the login has used on the day, where a legal history may have its row and a transaction
/// that holds so many of it.
pub(crate) fn fitting(held: u32, usage: &Option<UsageRecord>) -> Result<u32, LedgerFault>
    ensures ok { IfOk result (λ n. (n ≡ used_by usage.now) × (n ≤ 1000000)
        × (fits_held held usage.now ≡ true)) }
    ensures err { IfErr result (λ _. fits_held held usage.now ≡ false) }
{
    match used(usage) {
        Some(used) if held <= reserved(usage) => Ok(used),
        _ => Err(LedgerFault::Store),
    }
}

impl FoundRows {
    /// Whether the transaction has that moment and login, or no row yet.
    fn agrees(&self, moment: u64, login: &Login) -> bool
        ensures { result ≡ agrees_with moment login.now self.now.transaction }
    {
        match &self.transaction {
            None => true,
            Some(row) => moment == row.moment && *login == row.login,
        }
    }

    fn is_closed(&self) -> bool
        ensures { result ≡ is_closed self.now.transaction }
    {
        match &self.transaction {
            None => false,
            Some(row) => row.closed,
        }
    }

    /// What the transaction holds.
    pub(crate) fn held(&self) -> u32
        ensures { result ≡ held_by self.now.transaction }
    {
        match &self.transaction {
            None => 0,
            Some(row) => row.held,
        }
    }

    /// The limit that governs, or the default.
    fn cap(&self, default: u32) -> u32
        ensures { result ≡ cap_by default self.now.governing }
    {
        match &self.governing {
            None => default,
            Some(row) => row.cap,
        }
    }

    /// What the login has used on the day, where a legal history may have these rows.
    fn fitting(&self) -> Result<u32, LedgerFault>
        ensures ok { IfOk result (λ n. (n ≡ used_by self.now.usage) × (n ≤ 1000000)
            × (fits self.now.transaction self.now.usage ≡ true)) }
        ensures err { IfErr result (λ _. fits self.now.transaction self.now.usage ≡ false) }
    {
        fitting(self.held(), &self.usage)
    }

    /// Whether the transaction is open to a request of that moment and login.
    fn is_open(&self, moment: u64, login: &Login) -> bool
        ensures { result ≡ (agrees_with moment login.now self.now.transaction
            && not (is_closed self.now.transaction)) }
    {
        self.agrees(moment, login) && !self.is_closed()
    }

    /// What a request comes to whose transaction isn't open to it: it has another moment or login,
    /// or is closed.
    fn refusal(&self, moment: u64, login: &Login) -> Outcome
        requires { (agrees_with moment login.now self.now.transaction
            && not (is_closed self.now.transaction)) ≡ false }
        ensures refused { (id : AnyId) (a : AnyReply)
            → reply_of id result ≡ if_row_open id moment login.now self.now.transaction a }
        ensures still { (id : AnyId) → moves (reply_of id result) ≡ false }
        ensures in_range { (id : AnyId) → IsId id → IsReply (reply_of id result) }
    {
        if self.agrees(moment, login) {
            Outcome::Closed
        } else {
            Outcome::Mismatch
        }
    }

    /// What a reserve comes to: what it adds up to, or that it is past the limit that governs.
    ///
    /// Here and in the next three: a reply that changes sums comes only of rows that a legal
    /// history may have (`fits`; `still`: none changes them). Other rows alone are
    /// `LedgerFault::Store`.
    fn reserve_outcome(
        &self,
        default: u32,
        moment: u64,
        login: &Login,
        count: u32,
    ) -> Result<Outcome, LedgerFault>
        requires { IsCount count }
        ensures outcome { IfOk result (λ o. (id : AnyId)
            → reply_of id o ≡ if_row_open id moment login.now
            self.now.transaction (granted_or_full id (used_by self.now.usage)
            (cap_by default self.now.governing) count)) }
        ensures in_range { IfOk result (λ o. (id : AnyId) → IsId id → IsReply (reply_of id o)) }
        ensures fits { IfOk result (λ o. (id : AnyId) → moves (reply_of id o) ≡ true
            → fits self.now.transaction self.now.usage ≡ true) }
        ensures store { IfErr result (λ _. fits_if_open moment login.now
            (cap_by default self.now.governing)
            self.now.transaction self.now.usage ≡ false) }
    {
        if !self.is_open(moment, login) {
            return Ok(self.refusal(moment, login));
        }
        let used = self.fitting()?;
        let cap = self.cap(default);
        if AMOUNT_LIMIT < cap {
            return Err(LedgerFault::Store);
        }
        if cap < used + count {
            Ok(Outcome::Full { used, cap })
        } else {
            Ok(Outcome::Granted { used: used + count })
        }
    }

    /// What a settle comes to: its count, or that the transaction holds fewer.
    fn settle_outcome(&self, moment: u64, login: &Login, count: u32) -> Result<Outcome, LedgerFault>
        requires { IsCount count }
        ensures outcome { IfOk result (λ o. (id : AnyId)
            → reply_of id o ≡ if_row_open id moment login.now
            self.now.transaction (settled_or_too_many id (held_by self.now.transaction) count)) }
        ensures in_range { IfOk result (λ o. (id : AnyId) → IsId id → IsReply (reply_of id o)) }
        ensures fits { IfOk result (λ o. (id : AnyId) → moves (reply_of id o) ≡ true
            → fits self.now.transaction self.now.usage ≡ true) }
        ensures store { IfErr result (λ _.
            fits_if_open moment login.now 0 self.now.transaction self.now.usage ≡ false) }
    {
        if !self.is_open(moment, login) {
            return Ok(self.refusal(moment, login));
        }
        // (what is used isn't asked: rows that no legal history has are `Store` here as at a
        // reserve)
        let _used = self.fitting()?;
        let held = self.held();
        if held < count {
            Ok(Outcome::TooMany { held })
        } else {
            Ok(Outcome::Settled { count })
        }
    }

    /// What a release comes to: what the transaction held.
    fn release_outcome(&self, moment: u64, login: &Login) -> Result<Outcome, LedgerFault>
        ensures outcome { IfOk result (λ o. (id : AnyId)
            → reply_of id o ≡ if_row_open id moment login.now
            self.now.transaction (AnyReply.Released id (held_by self.now.transaction))) }
        ensures in_range { IfOk result (λ o. (id : AnyId) → IsId id → IsReply (reply_of id o)) }
        ensures fits { IfOk result (λ o. (id : AnyId) → moves (reply_of id o) ≡ true
            → fits self.now.transaction self.now.usage ≡ true) }
        ensures store { IfErr result (λ _.
            fits_if_open moment login.now 0 self.now.transaction self.now.usage ≡ false) }
    {
        if !self.is_open(moment, login) {
            return Ok(self.refusal(moment, login));
        }
        // (as at a settle)
        let _used = self.fitting()?;
        Ok(Outcome::Released { held: self.held() })
    }

    /// What a limit comes to: that it is set, or the first day that is past it.
    fn limit_outcome(&self) -> Result<Outcome, LedgerFault>
        ensures outcome { IfOk result (λ o. (id : AnyId)
            → reply_of id o ≡ set_or_over_by id self.now.over) }
        ensures in_range { IfOk result (λ o. (id : AnyId) → IsId id → IsReply (reply_of id o)) }
        ensures still { IfOk result (λ o. (id : AnyId) → moves (reply_of id o) ≡ false) }
        ensures store { IfErr result (λ _. is_day_over self.now.over ≡ false) }
    {
        let Some(row) = &self.over else {
            return Ok(Outcome::LimitSet);
        };
        match amount(row.reserved, row.settled) {
            Some(used) if row.day <= LAST_DAY => Ok(Outcome::Over { day: row.day, used }),
            _ => Err(LedgerFault::Store),
        }
    }

    /// What a numbered request comes to whose number is new. The fault is `Store`, and comes only
    /// where no legal history has these rows.
    pub(crate) fn outcome(&self, default: u32, request: &Request) -> Result<Outcome, LedgerFault>
        requires in_range { IsRequest request.now }
        requires numbered { is_some (id_of request.now) ≡ true }
        ensures outcome { IfOk result (λ o. (id : AnyId) → id_of request.now ≡ Some id
            → reply_of id o ≡ decided default request.now self.now) }
        ensures in_range { IfOk result (λ o. (id : AnyId) → IsId id → IsReply (reply_of id o)) }
        ensures fits { IfOk result (λ o. (id : AnyId) → moves (reply_of id o) ≡ true
            → fits self.now.transaction self.now.usage ≡ true) }
        ensures store { IfErr result (λ _. may_be_found default request.now self.now ≡ false) }
    {
        match request {
            Request::Reserve {
                moment,
                login,
                count,
                ..
            } => self.reserve_outcome(default, *moment, login, *count),
            Request::Settle {
                moment,
                login,
                count,
                ..
            } => self.settle_outcome(*moment, login, *count),
            Request::Release { moment, login, .. } => self.release_outcome(*moment, login),
            Request::Limit { .. } => self.limit_outcome(),
            Request::Retire { .. } => Ok(Outcome::Retired),
            Request::Usage { .. } | Request::List { .. } => unreachable!(),
        }
    }
}
