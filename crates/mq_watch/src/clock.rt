//! The server's clock.
ghost use Rattle.std.specs.Prelude.{◌≡◌, ◌<◌, ◌/◌, ◌^◌};
ghost use Rattle.std.specs.Option.{SomeIff};
ghost use Rattle.std.specs.Time.{system_time_nanos};
ghost use Rattle.mq_ledger.specs.Day.{day_of};
ghost use Rattle.mq_request.specs.Range.{IsMoment};
ghost use Rattle.mq_request.specs.declared.bounds.TheConstants.{FIRST_MOMENT, LAST_MOMENT};
ghost use Rattle.mq_watch.specs.Hours.{clock_day, nearest_moment, seconds_at};

use mq_ledger::Zone;
use mq_request::bounds::{FIRST_MOMENT, LAST_MOMENT};
use std::rt::Clock;
use std::time::{SystemTime, UNIX_EPOCH};

/// The milliseconds since 1970-01-01T00:00:00Z, where the clock can be read and shows no time
/// before.
pub fn millis_of(clock: &impl Clock) -> Option<u64> {
    millis_at(SystemTime::now(clock).ok()?)
}

/// The whole milliseconds from 1970-01-01T00:00:00Z to this time.
fn millis_at(now: SystemTime) -> Option<u64>
    ensures { SomeIff result (system_time_nanos now / 1_000_000 < 2 ^ 64)
        (system_time_nanos now / 1_000_000) }
{
    let time = now.duration_since(UNIX_EPOCH).ok()?;
    u64::try_from(time.as_millis()).ok()
}

/// The whole seconds since 1970 of so many milliseconds, where the clock can be read.
pub fn seconds_of(now: Option<u64>) -> Option<u64>
    ensures { result ≡ seconds_at now }
{
    match now {
        Some(millis) => Some(millis / 1_000),
        None => None,
    }
}

/// The day of a clock that shows so many milliseconds since 1970, or of the first or last moment
/// there is.
pub fn clock_day(zone: &Zone, millis: u64) -> u32
    ensures { result ≡ clock_day (day_of zone.now) millis }
{
    zone.day_at(moment_of(millis / 1_000))
}

/// The moment of so many seconds since 1970-01-01T00:00:00Z, or the first or last moment there is.
pub fn moment_of(seconds: u64) -> u64
    ensures range { IsMoment result }
    ensures value { IsMoment seconds → result ≡ seconds }
    ensures first { seconds < FIRST_MOMENT → result ≡ FIRST_MOMENT }
    ensures last { LAST_MOMENT < seconds → result ≡ LAST_MOMENT }
    ensures nearest { result ≡ nearest_moment seconds }
{
    seconds.max(FIRST_MOMENT).min(LAST_MOMENT)
}
