//! The answers of a plain ledger to requests whose number it doesn't have.
ghost use Rattle.std.specs.Prelude.{◌≡◌, ◌+◌, ◌<◌, ◌^◌, IfOk};
ghost use Rattle.mq_request.specs.declared.message.Id.{Id as AnyId};
ghost use Rattle.mq_request.specs.Range.{IsRequest};
ghost use Rattle.mq_ledger.specs.Answer.{answer, granted_or_full};
ghost use Rattle.mq_ledger.specs.Day.{day_of};
ghost use Rattle.mq_ledger.specs.Outcome.{reply_of};

use crate::outcome::Outcome;
use crate::plain::PlainLedger;
use crate::plain::cap::cap;
use crate::plain::first_over::over;
use crate::plain::listing::{page, row};
use crate::plain::standing::{granted_in, refusal};
use crate::plain::totals::used;
use mq_request::{Id, Login, Reply, Request, UsageRow, UsageRows};
use std::alloc::AllocError;

/// What a reserve comes to where that much is used and may be used.
fn granted_or_full(used: u32, cap: u32, count: u32) -> Outcome
    requires { used + count < 2 ^ 32 }
    ensures { (id : AnyId) → reply_of id result ≡ granted_or_full id used cap count }
{
    if cap < used + count {
        Outcome::Full { used, cap }
    } else {
        Outcome::Granted { used: used + count }
    }
}

impl PlainLedger {
    fn answer_reserve(&self, id: &Id, txn: u32, moment: u64, login: &Login, count: u32) -> Outcome
        requires { IsRequest (Request.Reserve id.now txn moment login.now count) }
        ensures { reply_of id.now result ≡ answer (day_of self.now.zone) self.now.default
            self.now.history
            (Request.Reserve id.now txn moment login.now count) }
    {
        if let Some(refused) = refusal(&self.entries, id, txn, moment, login) {
            return refused;
        }
        let day = self.zone.day_at(moment);
        let used = used(&self.entries, self.zone, login, day);
        let cap = cap(&self.entries, self.default, login, day);
        granted_or_full(used, cap, count)
    }

    fn answer_settle(&self, id: &Id, txn: u32, moment: u64, login: &Login, count: u32) -> Outcome
        ensures { reply_of id.now result ≡ answer (day_of self.now.zone) self.now.default
            self.now.history
            (Request.Settle id.now txn moment login.now count) }
    {
        if let Some(refused) = refusal(&self.entries, id, txn, moment, login) {
            return refused;
        }
        let held = granted_in(&self.entries, id, txn);
        if held < count {
            Outcome::TooMany { held }
        } else {
            Outcome::Settled { count }
        }
    }

    fn answer_release(&self, id: &Id, txn: u32, moment: u64, login: &Login) -> Outcome
        ensures { reply_of id.now result ≡ answer (day_of self.now.zone) self.now.default
            self.now.history
            (Request.Release id.now txn moment login.now) }
    {
        if let Some(refused) = refusal(&self.entries, id, txn, moment, login) {
            return refused;
        }
        Outcome::Released {
            held: granted_in(&self.entries, id, txn),
        }
    }

    fn answer_limit(&self, from_day: u32, asked: u32, login: &Login) -> Outcome
        ensures { (id : AnyId) → reply_of id result ≡ answer
            (day_of self.now.zone) self.now.default self.now.history
            (Request.Limit id from_day asked login.now) }
    {
        match over(&self.entries, self.zone, login, from_day, asked) {
            None => Outcome::LimitSet,
            Some(day) => Outcome::Over {
                day,
                used: used(&self.entries, self.zone, login, day),
            },
        }
    }

    fn answer_usage(&self, login: &Login, day: u32) -> Result<Reply, AllocError>
        ensures { IfOk result (λ a. a ≡ answer (day_of self.now.zone) self.now.default
            self.now.history
            (Request.Usage login.now day)) }
    {
        let UsageRow {
            login,
            settled,
            reserved,
            cap,
        } = row(&self.entries, self.zone, self.default, login, day)?;
        Ok(Reply::Usage {
            login,
            day,
            settled,
            reserved,
            cap,
        })
    }

    fn answer_list(&self, day: u32, after: &Login) -> Result<Reply, AllocError>
        ensures { IfOk result (λ a. a ≡ answer (day_of self.now.zone) self.now.default
            self.now.history
            (Request.List day after.now)) }
    {
        let rows = page(
            self.alloc,
            &self.entries,
            self.zone,
            self.default,
            day,
            after.as_slice(),
        )?;
        Ok(Reply::List {
            day,
            rows: UsageRows::new(rows),
        })
    }

    /// The answer over the history, to a request whose number isn't in it.
    pub(super) fn answer(&self, request: &Request) -> Result<Reply, AllocError>
        requires { IsRequest request.now }
        ensures { IfOk result (λ a. a ≡ answer (day_of self.now.zone) self.now.default
            self.now.history request.now) }
    {
        match request {
            Request::Reserve {
                id,
                txn,
                moment,
                login,
                count,
            } => self
                .answer_reserve(id, *txn, *moment, login, *count)
                .to_reply(id),
            Request::Settle {
                id,
                txn,
                moment,
                login,
                count,
            } => self
                .answer_settle(id, *txn, *moment, login, *count)
                .to_reply(id),
            Request::Release {
                id,
                txn,
                moment,
                login,
            } => self.answer_release(id, *txn, *moment, login).to_reply(id),
            Request::Limit {
                id,
                from_day,
                cap,
                login,
            } => self.answer_limit(*from_day, *cap, login).to_reply(id),
            Request::Usage { login, day } => self.answer_usage(login, *day),
            Request::List { day, after } => self.answer_list(*day, after),
            Request::Retire { id } => Outcome::Retired.to_reply(id),
        }
    }
}
