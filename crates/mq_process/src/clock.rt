//! The clock, and the number of a run.
ghost use Rattle.std.specs.Prelude.{◌≡◌, ◌/◌, Ok, IfSome, IfOk, IfErr, IsSomeAnd, None};
ghost use Rattle.std.specs.Option.{SomeIff};
ghost use Rattle.std.specs.Duration.{as_nanos};
ghost use Rattle.std.specs.Time.{system_time_nanos};
ghost use Rattle.mq_request.specs.Range.{IsRun};
ghost use Rattle.mq_process.specs.Clocks.{IsRunAt, IsTimeAt};

use crate::fault::ProcessFault;
use mq_request::is_run;
use std::rt::Clock;
use std::time::{Duration, Instant, SystemTime, UNIX_EPOCH};

/// Shows the time of day.
pub trait WallClock {
    ghost use Rattle.std.specs.Prelude.{IfSome};
    ghost use Rattle.std.specs.declared.time.SystemTime.{SystemTime};

    // It showed this time.
    ghost shows: { Self → SystemTime → Type 0 };

    /// The time that it shows now, where it can be read.
    fn time(&self) -> Option<SystemTime>
        ensures { IfSome result (shows self.now) };
}

impl<R: Clock> WallClock for R {
    ghost use Rattle.std.specs.Prelude.{⊤};

    // (nothing is known of what it shows)
    ghost shows = { λ _ _. ⊤ };

    fn time(&self) -> Option<SystemTime> {
        SystemTime::now(self).ok()
    }
}

/// The whole milliseconds of a time, where they can be a run's number.
fn run_of(time: Duration) -> Option<u64>
    ensures { SomeIff result (IsRun (as_nanos time / 1_000_000)) (as_nanos time / 1_000_000) }
{
    match u64::try_from(time.as_millis()) {
        Ok(millis) if is_run(millis) => Some(millis),
        _ => None,
    }
}

/// The time from 1970 to this moment.
fn time_at(now: SystemTime) -> Option<Duration>
    ensures { IsSomeAnd result (λ time. as_nanos time ≡ system_time_nanos now) }
{
    now.duration_since(UNIX_EPOCH).ok()
}

/// The time since 1970 by the clock, where it can be read.
pub fn time_of_clock<R: WallClock>(rt: &R) -> Option<Duration>
    ensures { IfSome result (IsTimeAt (R.shows rt.now)) }
{
    time_at(rt.time()?)
}

/// The clock's milliseconds since 1970, where they can be a run's number.
fn run_of_clock<R: WallClock>(rt: &R) -> Option<u64>
    ensures in_range { IfSome result IsRun }
    ensures clock { IfSome result (IsRunAt (R.shows rt.now)) }
{
    run_of(time_of_clock(rt)?)
}

/// How long it is since then, where the clock can be read.
pub fn elapsed(rt: &impl Clock, since: Option<Instant>) -> Option<Duration> {
    since?.elapsed(rt).ok()
}

/// The given number of a run, 1 to 281,474,976,710,655, or the clock's milliseconds since 1970. It
/// fails with `NoRun` where the clock can't be read, or its milliseconds can't be such a number.
pub fn run_number<R: WallClock>(rt: &R, given: Option<u64>) -> Result<u64, ProcessFault>
    requires { IfSome given IsRun }
    ensures run { IfOk result IsRun }
    ensures clock { given ≡ None → IfOk result (IsRunAt (R.shows rt.now)) }
    ensures given { IfSome given (λ run. result ≡ Ok run) }
    ensures unavailable { IfErr result (λ fault. fault ≡ ProcessFault.NoRun) }
{
    match given {
        Some(run) => Ok(run),
        None => match run_of_clock(rt) {
            Some(run) => Ok(run),
            None => Err(ProcessFault::NoRun),
        },
    }
}
