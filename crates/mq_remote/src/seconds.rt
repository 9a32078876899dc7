//! The seconds of the clock.

use mq_process::WallClock;
use std::time::UNIX_EPOCH;

/// The whole seconds since 1970 by the clock, where it can be read.
pub fn seconds_now<R: WallClock>(rt: &R) -> Option<u64> {
    let time = rt.time()?.duration_since(UNIX_EPOCH).ok()?;
    Some(time.as_secs())
}
