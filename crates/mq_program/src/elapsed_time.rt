//! How long something took, as logs and notes say it.

use std::fmt;
use std::time::Duration;

/// How long something took, where the clock could be read.
#[derive(Clone, Copy)]
pub struct Elapsed(pub Option<Duration>);

impl Elapsed {
    /// Its milliseconds.
    pub fn millis(self) -> Option<u64> {
        u64::try_from(self.0?.as_millis()).ok()
    }
}

impl fmt::Display for Elapsed {
    fn fmt<W: fmt::Write>(&self, f: &mut fmt::Formatter<W>) -> fmt::Result {
        match self.0 {
            Some(time) => write!(f, "{} ms", time.as_millis()),
            None => f.write_str("an unknown time"),
        }
    }
}
