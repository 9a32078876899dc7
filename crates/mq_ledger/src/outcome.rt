//! What a numbered request comes to.
ghost use Rattle.std.specs.Prelude.{◌≡◌, IfOk};
ghost use Rattle.mq_ledger.specs.Outcome.{reply_of};

use mq_request::{Id, Reply};
use std::alloc::AllocError;

/// What a numbered request comes to where its number is new: its reply without the number, so that
/// it is decided with no memory. Counts are recipients, 0 to 1,000,000.
#[derive(Clone, Copy, Debug, PartialEq, Eq)]
pub enum Outcome {
    /// A reserve's recipients may go; so many of the day are used with them.
    Granted { used: u32 },
    /// They would pass the day's limit, of which so many are used.
    Full { used: u32, cap: u32 },
    /// A settle asks for more than its transaction holds.
    TooMany { held: u32 },
    /// A transaction is settled: so many recipients are used for good.
    Settled { count: u32 },
    /// It is released: it held so many.
    Released { held: u32 },
    /// It is closed already.
    Closed,
    /// It has another login or moment.
    Mismatch,
    /// A limit is set.
    LimitSet,
    /// On that day, days since 1970-01-01, more is used than the limit would allow.
    Over { day: u32, used: u32 },
    /// The runs before the request's own are retired.
    Retired,
}

impl Outcome {
    /// The reply to the request of that number.
    pub fn to_reply(self, id: &Id) -> Result<Reply, AllocError>
        ensures { IfOk result (λ reply. reply ≡ reply_of id.now self) }
    {
        let id = id.clone()?;
        Ok(match self {
            Outcome::Granted { used } => Reply::Granted { id, used },
            Outcome::Full { used, cap } => Reply::Full { id, used, cap },
            Outcome::TooMany { held } => Reply::TooMany { id, held },
            Outcome::Settled { count } => Reply::Settled { id, count },
            Outcome::Released { held } => Reply::Released { id, held },
            Outcome::Closed => Reply::Closed { id },
            Outcome::Mismatch => Reply::Mismatch { id },
            Outcome::LimitSet => Reply::LimitSet { id },
            Outcome::Over { day, used } => Reply::Over { id, day, used },
            Outcome::Retired => Reply::Retired { id },
        })
    }
}
