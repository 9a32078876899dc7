//! Days as people write them: the civil date of a day's number, and the number of a date's day.
//!
//! [`dated`] gives a day as people read it, and [`day_of_text`] the day whose date a text writes.
//! From `mq_words/src/days.rt`:
//!
//!     Err(_) => day_of_text(alloc, text),
//!
//! It stands on `mq_request` and `mq_ledger`, whose days are those of the dates that a clock in the
//! ledger's zone shows: by the law in `laws.rt` day N is the date N days after 1970-01-01 in every
//! zone. Begin with `specs/Dates.antt`.
#![tactic(auto)]

mod dates;
mod laws;

pub use dates::{date_of_day, dated, day_of_text};
pub use laws::the_day_of_a_date_is_the_zones;
