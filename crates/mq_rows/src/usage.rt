//! What is replied of what logins have used.
ghost use Rattle.std.specs.Prelude.{◌≡◌, false, IfOk, IfErr};
ghost use Rattle.mq_request.specs.Range.{IsLogin, IsDay, IsReply, IsRow};
ghost use Rattle.mq_rows.specs.Plan.{reserved_by, cap_by};
ghost use Rattle.mq_rows.specs.Listing.{settled_by, usage_reply_by, page_row_by, are_amounts};

use crate::record::{LimitRecord, UsageRecord};
use mq_ledger::LedgerFault;
use mq_request::bounds::AMOUNT_LIMIT;
use mq_request::{Login, Reply, UsageRow, is_login};

fn are_amounts(settled: u32, reserved: u32, cap: u32) -> bool
    ensures { result ≡ are_amounts settled reserved cap }
{
    settled <= AMOUNT_LIMIT && reserved <= AMOUNT_LIMIT && cap <= AMOUNT_LIMIT
}

/// The limit that governs, or the default.
fn cap_by(default: u32, governing: &Option<LimitRecord>) -> u32
    ensures { result ≡ cap_by default governing.now }
{
    match governing {
        None => default,
        Some(row) => row.cap,
    }
}

/// The reply to a usage, by the row of its login and day and the row of the limit that governs.
///
/// The fault is `Memory`, or `Store` where the rows are out of range.
pub fn usage_reply(
    default: u32,
    login: &Login,
    day: u32,
    usage: &Option<UsageRecord>,
    governing: &Option<LimitRecord>,
) -> Result<Reply, LedgerFault>
    requires login { IsLogin login.now }
    requires day { IsDay day }
    ensures reply { IfOk result (λ a. a ≡ usage_reply_by default login.now day usage.now
        governing.now) }
    ensures in_range { IfOk result IsReply }
    ensures store { IfErr result (λ fault. fault ≡ LedgerFault.Store
        → are_amounts (settled_by usage.now) (reserved_by usage.now) (cap_by default governing.now)
        ≡ false) }
{
    let (settled, reserved) = match usage {
        None => (0, 0),
        Some(row) => (row.settled, row.reserved),
    };
    let cap = cap_by(default, governing);
    if !are_amounts(settled, reserved, cap) {
        return Err(LedgerFault::Store);
    }
    Ok(Reply::Usage {
        login: login.clone()?,
        day,
        settled,
        reserved,
        cap,
    })
}

/// A row of a page, by the row of a login on its day and the row of the limit that governs.
///
/// The fault is `Store`, where the rows are out of range.
pub fn page_row(
    default: u32,
    usage: UsageRecord,
    governing: &Option<LimitRecord>,
) -> Result<UsageRow, LedgerFault>
    ensures row { IfOk result (λ row. row ≡ page_row_by default usage governing.now) }
    ensures in_range { IfOk result IsRow }
    ensures fault { IfErr result (λ fault. fault ≡ LedgerFault.Store) }
    ensures store { IfErr result (λ _. IsLogin usage.login
        → are_amounts usage.settled usage.reserved (cap_by default governing.now) ≡ false) }
{
    let cap = cap_by(default, governing);
    if !is_login(usage.login.as_slice()) || !are_amounts(usage.settled, usage.reserved, cap) {
        return Err(LedgerFault::Store);
    }
    Ok(UsageRow {
        login: usage.login,
        settled: usage.settled,
        reserved: usage.reserved,
        cap,
    })
}
