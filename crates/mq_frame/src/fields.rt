//! The fields of a body, each read from the front.
ghost use Rattle.std.specs.Prelude.{length, ◌==◌, if◌then◌else◌};
ghost use Rattle.std.specs.Int.{w32, w64};
ghost use Rattle.mq_frame.specs.Shown.{shown_id};
ghost use Rattle.mq_frame.specs.Reading.{Reads, number_at, text_at, whole};
ghost use Rattle.mq_frame.specs.Reading.{host, login, after, run, ordinal, moment, day, count};
ghost use Rattle.mq_frame.specs.Reading.{amount, id};

use mq_request::are_host_bytes;
use mq_request::bounds::{
    AMOUNT_LIMIT, COUNT_LIMIT, FIRST_MOMENT, HOST_LIMIT, LAST_DAY, LAST_MOMENT, LAST_ORDINAL,
    LAST_RUN, LOGIN_LIMIT,
};

/// An id in a body.
#[derive(Clone, Copy)]
pub struct IdParts<'a> {
    /// The host that sent the request, 1 to 64 bytes.
    pub host: &'a [u8],
    /// The run of its filter, 1 to 281,474,976,710,655.
    pub run: u64,
    /// The number of the request in the run, 1 to 4,294,967,295.
    pub number: u32,
}

/// A number from `low` to `high` in four bytes, the highest first.
fn u32_at(bytes: &[u8], low: u32, high: u32) -> Option<(u32, &[u8])>
    ensures { Reads (λ x. (x.0, x.1.now)) result (number_at w32 low high bytes.now) }
{
    if bytes.len() < 4 {
        return None;
    }
    let (front, rest) = bytes.split_at(4);
    let number = u32::from_be_bytes([front[0], front[1], front[2], front[3]]);
    if low <= number && number <= high {
        Some((number, rest))
    } else {
        None
    }
}

/// A number from `low` to `high` in eight bytes, the highest first.
fn u64_at(bytes: &[u8], low: u64, high: u64) -> Option<(u64, &[u8])>
    ensures { Reads (λ x. (x.0, x.1.now)) result (number_at w64 low high bytes.now) }
{
    if bytes.len() < 8 {
        return None;
    }
    let (front, rest) = bytes.split_at(8);
    let number = u64::from_be_bytes([
        front[0], front[1], front[2], front[3], front[4], front[5], front[6], front[7],
    ]);
    if low <= number && number <= high {
        Some((number, rest))
    } else {
        None
    }
}

/// A text of `low` to `high` bytes after its length.
fn text_at(bytes: &[u8], low: u8, high: u8) -> Option<(&[u8], &[u8])>
    ensures { Reads (λ x. (x.0.now, x.1.now)) result (text_at low high bytes.now) }
{
    match bytes {
        [] => None,
        [length, rest @ ..] => {
            if low <= *length && *length <= high && *length as usize <= rest.len() {
                Some(rest.split_at(*length as usize))
            } else {
                None
            }
        }
    }
}

/// A host of 1 to 64 bytes, each an ASCII letter, a digit, `.` or `-`.
pub fn host_at(bytes: &[u8]) -> Option<(&[u8], &[u8])>
    ensures { Reads (λ x. (x.0.now, x.1.now)) result (host.read bytes.now) }
{
    let (text, rest) = text_at(bytes, 1, HOST_LIMIT)?;
    if are_host_bytes(text) {
        Some((text, rest))
    } else {
        None
    }
}

/// A login of 1 to 255 bytes of any value.
pub fn login_at(bytes: &[u8]) -> Option<(&[u8], &[u8])>
    ensures { Reads (λ x. (x.0.now, x.1.now)) result (login.read bytes.now) }
{
    text_at(bytes, 1, LOGIN_LIMIT)
}

/// A login, or nothing.
pub fn after_at(bytes: &[u8]) -> Option<(&[u8], &[u8])>
    ensures { Reads (λ x. (x.0.now, x.1.now)) result (after.read bytes.now) }
{
    text_at(bytes, 0, LOGIN_LIMIT)
}

fn run_at(bytes: &[u8]) -> Option<(u64, &[u8])>
    ensures { Reads (λ x. (x.0, x.1.now)) result (run.read bytes.now) }
{
    u64_at(bytes, 1, LAST_RUN)
}

/// The number of a request or of a transaction, 1 to 4,294,967,295.
pub fn ordinal_at(bytes: &[u8]) -> Option<(u32, &[u8])>
    ensures { Reads (λ x. (x.0, x.1.now)) result (ordinal.read bytes.now) }
{
    u32_at(bytes, 1, LAST_ORDINAL)
}

/// A moment, 86,400 to 32,503,680,000 seconds since 1970-01-01T00:00:00Z.
pub fn moment_at(bytes: &[u8]) -> Option<(u64, &[u8])>
    ensures { Reads (λ x. (x.0, x.1.now)) result (moment.read bytes.now) }
{
    u64_at(bytes, FIRST_MOMENT, LAST_MOMENT)
}

/// A day number since 1970-01-01, 0 to 376,200.
pub fn day_at(bytes: &[u8]) -> Option<(u32, &[u8])>
    ensures { Reads (λ x. (x.0, x.1.now)) result (day.read bytes.now) }
{
    u32_at(bytes, 0, LAST_DAY)
}

/// The recipients of one request, 1 to 1,000.
pub fn count_at(bytes: &[u8]) -> Option<(u32, &[u8])>
    ensures { Reads (λ x. (x.0, x.1.now)) result (count.read bytes.now) }
{
    u32_at(bytes, 1, COUNT_LIMIT)
}

/// Recipients that are used, held, settled or reserved, or a limit: 0 to 1,000,000.
pub fn amount_at(bytes: &[u8]) -> Option<(u32, &[u8])>
    ensures { Reads (λ x. (x.0, x.1.now)) result (amount.read bytes.now) }
{
    u32_at(bytes, 0, AMOUNT_LIMIT)
}

/// Host, run and number of a request.
pub fn id_at(bytes: &[u8]) -> Option<(IdParts<'_>, &[u8])>
    ensures { Reads (λ x. (shown_id x.0, x.1.now)) result (id.read bytes.now) }
{
    let (host, rest) = host_at(bytes)?;
    let (run, rest) = run_at(rest)?;
    let (number, rest) = ordinal_at(rest)?;
    Some((IdParts { host, run, number }, rest))
}

/// Whether nothing is left.
pub fn finished(rest: &[u8]) -> Option<()>
    ensures { Reads (λ x. x) result (if length rest.now == 0 then Some tt else None) }
{
    if rest.is_empty() { Some(()) } else { None }
}

/// An id that is all of the bytes.
pub fn id_alone(bytes: &[u8]) -> Option<IdParts<'_>>
    ensures { Reads shown_id result (whole id bytes.now) }
{
    match id_at(bytes) {
        Some((id, [])) => Some(id),
        _ => None,
    }
}
