//! The date of a day, and the day of a date.
ghost use Rattle.std.specs.Prelude.{◌≡◌, IfOk, IfSome, string_bytes};
ghost use Rattle.jiff.specs.Words.{date_text, epoch_day};
ghost use Rattle.mq_request.specs.Range.{IsDay};
ghost use Rattle.mq_dates.specs.Dates.{IsDateOf, IsDateText, IsDated};

use jiff::Timestamp;
use jiff::civil::Date;
use jiff::tz::Offset;
use mq_request::bounds::LAST_DAY;
use std::alloc::{AllocError, Global};

/// The seconds of a day.
const SECONDS: i64 = 86_400;

/// The date of a day, 0 to 376,200.
fn date_of(day: u32) -> Date
    requires { IsDay day }
    ensures { IsDateOf day result }
{
    let midnight = Timestamp::constant(i64::from(day) * SECONDS, 0);
    Offset::UTC.to_datetime(midnight).date()
}

/// The day number of a date, from 1970-01-01 on.
fn day_number(date: Date) -> i64
    ensures { result ≡ epoch_day date }
{
    let first = Offset::UTC.to_datetime(Timestamp::UNIX_EPOCH).date();
    // (between two dates lie whole days)
    let since = date.duration_since(first);
    since.as_hours() / 24
}

/// The day of a date, where it is one of 0 to 376,200.
fn day_of(date: Date) -> Option<u32>
    ensures day { IfSome result (λ day. IsDateOf day date) }
    ensures in_range { IfSome result IsDay }
{
    match u32::try_from(day_number(date)) {
        Ok(day) if day <= LAST_DAY => Some(day),
        _ => None,
    }
}

/// A date as `2026-11-30`.
fn text_of(alloc: Global, date: Date) -> Result<String, AllocError>
    ensures { IfOk result (λ text. string_bytes text ≡ date_text date) }
{
    date.to_string(alloc)
}

/// The date of a day, 0 to 376,200, as `2026-11-30`.
pub fn date_of_day(alloc: Global, day: u32) -> Result<String, AllocError>
    requires { IsDay day }
    ensures { IfOk result (λ text. IsDateText day (string_bytes text)) }
{
    text_of(alloc, date_of(day))
}

/// A day, 0 to 376,200, as people read it: `20787 (2026-11-30)`.
pub fn dated(alloc: Global, day: u32) -> Result<String, AllocError>
    requires { IsDay day }
    ensures { IfOk result (λ text. IsDated day (string_bytes text)) }
{
    let date = date_of_day(alloc, day)?;
    let mut text = day.to_string(alloc)?;
    text.push_str(" (")?;
    text.push_str(date.as_str())?;
    text.push(')')?;
    Ok(text)
}

/// The day whose date a text writes, as `2026-11-30`: one of 0 to 376,200. There is none where the
/// text is another.
pub fn day_of_text(alloc: Global, text: &str) -> Result<Option<u32>, AllocError>
    ensures day { IfOk result (λ found. IfSome found (λ day. IsDateText day text.now)) }
    ensures in_range { IfOk result (λ found. IfSome found IsDay) }
{
    let Ok(date) = text.parse::<Date>() else {
        return Ok(None);
    };
    // (other spellings of a date are taken for none)
    let written = text_of(alloc, date)?;
    if written.as_str() == text {
        Ok(day_of(date))
    } else {
        Ok(None)
    }
}
