//! Which moment it is.
ghost use Rattle.std.specs.Prelude.{IfSome};

use mq_request::is_moment;
use std::rt::Clock;
use std::time::{SystemTime, UNIX_EPOCH};

/// Says which moment it is.
pub trait Moments {
    ghost use Rattle.std.specs.Prelude.{ℕ, ⊤};
    ghost use Rattle.mq_request.specs.Range.{IsMoment};

    /// What is supposed of a moment that is shown.
    ghost shows: { ℕ → Type 0 } = { λ _. ⊤ };

    /// The moment, in seconds since 1970-01-01T00:00:00Z, where it is known and one of those of a
    /// ledger.
    fn moment(&self) -> Option<u64>
        ensures { IfSome result (λ m. IsMoment m × shows m) };
}

/// A clock shows the moment, where it can be read. Nothing is supposed of what it shows.
impl<C: Clock> Moments for C {
    fn moment(&self) -> Option<u64> {
        let now = SystemTime::now(self).ok()?;
        let moment = now.duration_since(UNIX_EPOCH).ok()?.as_secs();
        if !is_moment(moment) {
            return None;
        }
        Some(moment)
    }
}
