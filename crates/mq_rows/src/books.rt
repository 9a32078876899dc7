//! What an audit keeps by pair of a login and day.
ghost use Rattle.std.specs.Prelude.{◌≡◌, List, IfSome};
ghost use Rattle.mq_ledger.specs.Day.{day_of};
ghost use Rattle.mq_rows.specs.Audit.{is_moment_of, cap_or, governing};
ghost use Rattle.mq_rows.specs.declared.audited.LimitFigures.{LimitFigures as AnyLimitFigures};
ghost use Rattle.mq_rows.specs.Books.{with_row, HasCaps};

use crate::audited::{Pair, TransactionFigures};
use mq_ledger::Zone;
use mq_request::is_moment;
use std::collections::BTreeMap;

/// What transactions have together.
#[derive(Clone, Copy, Drop)]
pub(crate) struct Sums {
    pub(crate) settled: i128,
    pub(crate) held: i128,
    /// Whether each has a moment of its day.
    pub(crate) are_dated: bool,
}

/// What a row of `usage` has.
#[derive(Clone, Copy, Drop)]
pub(crate) struct Amounts {
    pub(crate) settled: i64,
    pub(crate) reserved: i64,
}

impl Amounts {
    pub(crate) const NOTHING: Amounts = Amounts {
        settled: 0,
        reserved: 0,
    };
}

/// Whether it is a moment in range, of that day.
fn is_moment_of(zone: Zone, day: i64, moment: i64) -> bool
    ensures { result ≡ is_moment_of (day_of zone) day moment }
{
    let Ok(moment) = u64::try_from(moment) else {
        return false;
    };
    is_moment(moment) && i64::from(zone.day_at(moment)) == day
}

impl Sums {
    pub(crate) const NOTHING: Sums = Sums {
        settled: 0,
        held: 0,
        are_dated: true,
    };

    /// The sums with one more transaction; none where they don't fit, which takes 2^64
    /// transactions.
    pub(crate) fn with(self, zone: Zone, row: &TransactionFigures) -> Option<Sums>
        ensures { IfSome result (λ sums. sums ≡ with_row (day_of zone) row.now self) }
    {
        Some(Sums {
            settled: self.settled.checked_add(i128::from(row.settled))?,
            held: self.held.checked_add(i128::from(row.held))?,
            are_dated: self.are_dated && is_moment_of(zone, row.pair.day, row.moment),
        })
    }
}

/// What is kept of a pair.
#[derive(Clone, Copy, Drop)]
pub(crate) struct Day {
    /// What its row of `usage` has; the first, where there are several.
    pub(crate) usage: Option<Amounts>,
    pub(crate) sums: Sums,
}

impl Day {
    pub(crate) const NOTHING: Day = Day {
        usage: None,
        sums: Sums::NOTHING,
    };
}

/// The limit of a pair: that of the login's latest day up to the pair's, or the default.
pub(crate) fn cap_of(caps: &BTreeMap<Pair, i64>, default: u32, pair: &Pair) -> i64
    ensures { (limits : List AnyLimitFigures) → HasCaps limits caps.now
        → result ≡ cap_or default (governing pair.now limits) }
{
    // (pairs go by login and then by day, so the last one up to it is the login's latest, or
    // another login's)
    let Some((from, cap)) = caps.range(..=pair).next_back() else {
        return i64::from(default);
    };
    if from.login == pair.login {
        *cap
    } else {
        i64::from(default)
    }
}
