//! Whether the fields of a value are in the ranges of the link's format.
ghost use Rattle.std.specs.Prelude.{◌≡◌, ◌↔◌, IsTrue, All};
ghost use Rattle.std.specs.List.{list_all};
ghost use Rattle.mq_request.specs.Range.{is_host_byte, IsHostByte};
ghost use Rattle.mq_request.specs.Range.{IsHost, IsLogin, IsAfter, IsRun, IsOrdinal, IsMoment};
ghost use Rattle.mq_request.specs.Range.{IsDay, IsCount};
ghost use Rattle.mq_request.specs.Range.{IsAmount, IsId, IsRow, IsPage, IsRequest, IsReply};

use crate::bounds::{
    AMOUNT_LIMIT, COUNT_LIMIT, FIRST_MOMENT, HOST_LIMIT, LAST_DAY, LAST_MOMENT, LAST_RUN,
    LOGIN_LIMIT, ROW_LIMIT,
};
use crate::message::{Id, Reply, Request};
use crate::text::Login;
use crate::usage::{UsageRow, UsageRows};

/// Whether each byte may stand in a host's name: an ASCII letter, a digit, `.` or `-`.
pub fn are_host_bytes(bytes: &[u8]) -> bool
    ensures read { result ≡ list_all is_host_byte bytes.now }
    ensures range { IsTrue result ↔ All IsHostByte bytes.now }
{
    bytes.iter().all(|b| matches!(*b, b'0'..=b'9' | b'A'..=b'Z' | b'a'..=b'z' | b'-'..=b'.'))
}

/// Whether the bytes are a host's name: 1 to 64 bytes, each an ASCII letter, a digit, `.` or `-`.
pub fn is_host(bytes: &[u8]) -> bool
    ensures { IsTrue result ↔ IsHost bytes.now }
{
    1 <= bytes.len() && bytes.len() <= HOST_LIMIT as usize && are_host_bytes(bytes)
}

/// Whether the bytes are a login: 1 to 255 bytes of any value.
pub fn is_login(bytes: &[u8]) -> bool
    ensures { IsTrue result ↔ IsLogin bytes.now }
{
    1 <= bytes.len() && bytes.len() <= LOGIN_LIMIT as usize
}

fn is_after(after: &Login) -> bool
    ensures { IsTrue result ↔ IsAfter after.now }
{
    after.as_slice().len() <= LOGIN_LIMIT as usize
}

/// Whether the number can be a run's: of 48 bits, and not 0.
pub fn is_run(run: u64) -> bool
    ensures { IsTrue result ↔ IsRun run }
{
    1 <= run && run <= LAST_RUN
}

fn is_ordinal(number: u32) -> bool
    ensures { IsTrue result ↔ IsOrdinal number }
{
    1 <= number
}

/// Whether a moment, in seconds since 1970-01-01T00:00:00Z, lies from 1970-01-02T00:00:00Z to
/// 3000-01-01T00:00:00Z, both included.
pub fn is_moment(moment: u64) -> bool
    ensures { IsTrue result ↔ IsMoment moment }
{
    FIRST_MOMENT <= moment && moment <= LAST_MOMENT
}

fn is_day(day: u32) -> bool
    ensures { IsTrue result ↔ IsDay day }
{
    day <= LAST_DAY
}

fn is_count(count: u32) -> bool
    ensures { IsTrue result ↔ IsCount count }
{
    1 <= count && count <= COUNT_LIMIT
}

fn is_amount(amount: u32) -> bool
    ensures { IsTrue result ↔ IsAmount amount }
{
    amount <= AMOUNT_LIMIT
}

fn is_id(id: &Id) -> bool
    ensures { IsTrue result ↔ IsId id.now }
{
    is_host(id.host.as_slice()) && is_run(id.run) && is_ordinal(id.number)
}

fn is_row(row: &UsageRow) -> bool
    ensures { IsTrue result ↔ IsRow row.now }
{
    is_login(row.login.as_slice())
        && is_amount(row.settled)
        && is_amount(row.reserved)
        && is_amount(row.cap)
}

fn is_page(rows: &UsageRows) -> bool
    ensures { IsTrue result ↔ IsPage rows.now }
{
    let rows = rows.as_slice();
    rows.len() <= ROW_LIMIT as usize && rows.iter().all(is_row)
}

/// Whether each field of the request is in the range that the link's format gives it.
pub fn is_request(request: &Request) -> bool
    ensures { IsTrue result ↔ IsRequest request.now }
{
    match request {
        Request::Reserve {
            id,
            txn,
            moment,
            login,
            count,
        }
        | Request::Settle {
            id,
            txn,
            moment,
            login,
            count,
        } => {
            is_id(id)
                && is_ordinal(*txn)
                && is_moment(*moment)
                && is_login(login.as_slice())
                && is_count(*count)
        }
        Request::Release {
            id,
            txn,
            moment,
            login,
        } => { is_id(id) && is_ordinal(*txn) && is_moment(*moment) && is_login(login.as_slice()) }
        Request::Limit {
            id,
            from_day,
            cap,
            login,
        } => is_id(id) && is_day(*from_day) && is_amount(*cap) && is_login(login.as_slice()),
        Request::Usage { login, day } => is_login(login.as_slice()) && is_day(*day),
        Request::List { day, after } => is_day(*day) && is_after(after),
        Request::Retire { id } => is_id(id),
    }
}

/// Whether each field of the reply is in the range that the link's format gives it.
pub fn is_reply(reply: &Reply) -> bool
    ensures { IsTrue result ↔ IsReply reply.now }
{
    match reply {
        Reply::Granted { id, used } => is_id(id) && is_amount(*used),
        Reply::Full { id, used, cap } => is_id(id) && is_amount(*used) && is_amount(*cap),
        Reply::Settled { id, count } => is_id(id) && is_count(*count),
        Reply::Released { id, held } => is_id(id) && is_amount(*held),
        Reply::LimitSet { id } => is_id(id),
        Reply::Over { id, day, used } => is_id(id) && is_day(*day) && is_amount(*used),
        Reply::Closed { id } => is_id(id),
        Reply::Mismatch { id } => is_id(id),
        Reply::TooMany { id, held } => is_id(id) && is_amount(*held),
        Reply::Conflict { id } => is_id(id),
        Reply::Usage {
            login,
            day,
            settled,
            reserved,
            cap,
        } => {
            is_login(login.as_slice())
                && is_day(*day)
                && is_amount(*settled)
                && is_amount(*reserved)
                && is_amount(*cap)
        }
        Reply::List { day, rows } => is_day(*day) && is_page(rows),
        Reply::Retry | Reply::Bad => true,
        Reply::Retired { id } => is_id(id),
        Reply::Old { id } => is_id(id),
    }
}
