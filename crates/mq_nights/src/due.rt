//! Which days are due to be forgotten.
ghost use Rattle.std.specs.Prelude.{◌≡◌, ◌+◌, ◌<◌, ◌≤◌, ℕ, Some};
ghost use Rattle.mq_request.specs.Range.{IsDay, IsMoment};
ghost use Rattle.mq_store.specs.declared.transaction_days.TransactionDays.{TransactionDays as AnyDays};
ghost use Rattle.mq_nights.specs.Due.{day_ahead, due_by, night_of, what_is_due};

use mq_ledger::Zone;
use mq_request::bounds::FIRST_MOMENT;
use mq_store::{ReservedDays, TransactionDays};

/// The seconds of a night that belong to the day before: until 03:00.
const SMALL_HOURS: u64 = 10_800;

/// What is due of a ledger that keeps so many days.
#[derive(Clone, Copy, Debug, PartialEq, Eq)]
pub enum DueDays {
    /// There is no day to go by, so nothing is to be forgotten.
    Nothing,
    /// This is the first day that is kept, and there is none before it.
    NoneBefore(u32),
    /// The days before this one are to be forgotten.
    Before(u32),
}

/// The day that began last of those whose first three hours have passed: today from 03:00 on, and
/// yesterday until then.
///
/// `moment` is 86,400 to 32,503,680,000 seconds since 1970-01-01T00:00:00Z.
pub fn night_of(zone: &Zone, moment: u64) -> u32
    requires { IsMoment moment }
    ensures value { result ≡ night_of zone.now moment }
    ensures in_range { IsDay result }
{
    zone.day_at(moment.saturating_sub(SMALL_HOURS).max(FIRST_MOMENT))
}

/// What is due of a ledger whose transactions began on these days, from the oldest to the newest.
fn due_by(keep: u32, night: u32, oldest: u32, newest: u32) -> DueDays
    ensures { result ≡ due_by keep night oldest newest }
{
    let first = night.min(newest).saturating_sub(keep);
    if oldest < first {
        DueDays::Before(first)
    } else {
        DueDays::NoneBefore(first)
    }
}

/// What is due, this night, of a ledger that keeps so many days before the one that it goes by: the
/// night's own, or where nothing began on that yet, the newest one before. `days` are those on
/// which transactions began, up to the day after the night's. A later one changes nothing: it is
/// dated wrongly, or the clock is.
pub fn what_is_due(keep: u32, night: u32, days: Option<TransactionDays>) -> DueDays
    ensures value { result ≡ what_is_due keep night days }

    // Whatever the clock shows, what is forgotten lies so many days before the newest day too, and
    // is no empty stretch.
    ensures spares { (first : ℕ) (all : AnyDays) → days ≡ Some all
        → result ≡ DueDays.Before first →
        (first + keep ≤ night) × (first + keep ≤ all.newest) × (all.oldest < first) }
{
    match days {
        Some(days) => due_by(keep, night, days.oldest, days.newest),
        None => DueDays::Nothing,
    }
}

/// The newest day on which something was reserved, where it lies more than a day after this night's.
pub fn day_ahead(night: u32, reserved: Option<ReservedDays>) -> Option<u32>
    requires { IsDay night }
    ensures { result ≡ day_ahead night reserved }
{
    let newest = reserved?.newest;
    if night + 1 < newest {
        Some(newest)
    } else {
        None
    }
}
