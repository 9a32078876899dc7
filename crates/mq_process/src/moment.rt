//! The moment that words name.
ghost use Rattle.std.specs.Prelude.{◌≡◌, ◌/◌, Ok, IfSome, IfOk, IfErr};
ghost use Rattle.std.specs.Option.{SomeIff};
ghost use Rattle.std.specs.Duration.{as_nanos};
ghost use Rattle.mq_request.specs.Range.{IsMoment};

use crate::clock::time_of_clock;
use crate::fault::ProcessFault;
use mq_request::is_moment;
use std::rt::Clock;
use std::time::Duration;

/// The whole seconds of a time, where they can be a moment.
fn moment_of(time: Duration) -> Option<u64>
    ensures { SomeIff result (IsMoment (as_nanos time / 1_000_000_000))
        (as_nanos time / 1_000_000_000) }
{
    let seconds = time.as_secs();
    if is_moment(seconds) {
        Some(seconds)
    } else {
        None
    }
}

/// The clock's moment, where it can be one.
fn moment_of_clock(rt: &impl Clock) -> Option<u64>
    ensures { IfSome result IsMoment }
{
    moment_of(time_of_clock(rt)?)
}

/// The given moment, 86,400 to 32,503,680,000 seconds since 1970-01-01T00:00:00Z, or the clock's.
/// It fails with `NoMoment` where the clock can't be read, or what it shows is out of this range.
pub fn moment_or_now(rt: &impl Clock, given: Option<u64>) -> Result<u64, ProcessFault>
    requires { IfSome given IsMoment }
    ensures moment { IfOk result IsMoment }
    ensures given { IfSome given (λ moment. result ≡ Ok moment) }
    ensures unavailable { IfErr result (λ fault. fault ≡ ProcessFault.NoMoment) }
{
    match given {
        Some(moment) => Ok(moment),
        None => match moment_of_clock(rt) {
            Some(moment) => Ok(moment),
            None => Err(ProcessFault::NoMoment),
        },
    }
}
