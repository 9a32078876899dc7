//! The audit of the tables, over rows that are given one by one.
ghost use Rattle.std.specs.Prelude.{◌≡◌, ℕ, None, IfOk, OnOk, OnErr};
ghost use Rattle.std.specs.BTreeMap.{get, keys};
ghost use Rattle.mq_ledger.specs.Day.{day_of};
ghost use Rattle.mq_ledger.specs.declared.zone.Zone.{Zone as AnyZone};
ghost use Rattle.mq_rows.specs.Audit.{Figures, is_right, IsAudited};
ghost use Rattle.mq_rows.specs.Books.{AreBooksOf, day_or, less_wrong, least_wrong, no_rows};
ghost use Rattle.mq_rows.specs.Books.{with_limit, with_transaction, with_usage};
ghost use Rattle.mq_rows.specs.Inside.{are_right};
ghost use Rattle.mq_rows.specs.Pair.{pair_cmp};

use crate::audited::{Audit, LimitFigures, Pair, TransactionFigures, UsageFigures};
use crate::books::{Amounts, Day, Sums, cap_of};
use mq_ledger::Zone;
use std::alloc::{AllocError, Global};
use std::collections::BTreeMap;

/// What an audit keeps of the rows of `usage`, `trans` and `ceiling`, which it is given one by one,
/// each table's in any order: a few numbers by pair of a login and day, and no row.
#[derive(Drop)]
pub struct Books {
    zone: Zone,
    default: u32,
    days: BTreeMap<Pair, Day>,
    caps: BTreeMap<Pair, i64>,
    usage_rows: u64,
    transaction_rows: u64,
}

/// Whether what is settled and reserved is what the transactions settled and hold and is within the
/// limit, and each of them has a moment of its day.
fn are_right(usage: Amounts, sums: Sums, cap: i64) -> bool
    ensures { result ≡ are_right usage sums cap }
{
    let settled = i128::from(usage.settled);
    let reserved = i128::from(usage.reserved);
    if settled != sums.settled {
        return false;
    }
    if reserved != sums.held {
        return false;
    }
    if i128::from(cap) < settled + reserved {
        return false;
    }
    sums.are_dated
}

impl Books {
    /// Those of no row. The default is the limit of a login that has none for a day: recipients.
    pub fn new(alloc: Global, zone: Zone, default: u32) -> Books
        ensures { AreBooksOf zone default no_rows result }
    {
        Books {
            zone,
            default,
            days: BTreeMap::new(alloc),
            caps: BTreeMap::new(alloc),
            usage_rows: 0,
            transaction_rows: 0,
        }
    }

    /// What is kept of the pair.
    fn day(&self, pair: &Pair) -> Day
        ensures { result ≡ day_or (get pair_cmp self.now.days pair.now) }
    {
        self.days.get(pair).copied().unwrap_or(Day::NOTHING)
    }

    /// One row of `usage` more.
    pub fn add_usage(&mut self, row: UsageFigures) -> Result<(), AllocError>
        ensures ok { OnOk result ((zone : AnyZone) (default : ℕ) (f : Figures)
            → AreBooksOf zone default f self.old
            → AreBooksOf zone default (with_usage f row) self.new) }
        ensures err { OnErr result ((zone : AnyZone) (default : ℕ) (f : Figures)
            → AreBooksOf zone default f self.old
            → AreBooksOf zone default f self.new) }
    {
        let rows = self.usage_rows.checked_add(1).ok_or(AllocError)?;
        let amounts = Amounts {
            settled: row.settled,
            reserved: row.reserved,
        };
        let before = self.day(&row.pair);
        let after = Day {
            usage: Some(before.usage.unwrap_or(amounts)),
            sums: before.sums,
        };
        self.days.insert(row.pair, after)?;
        self.usage_rows = rows;
        Ok(())
    }

    /// One row of `trans` more.
    pub fn add_transaction(&mut self, row: TransactionFigures) -> Result<(), AllocError>
        ensures ok { OnOk result ((zone : AnyZone) (default : ℕ) (f : Figures)
            → AreBooksOf zone default f self.old
            → AreBooksOf zone default (with_transaction f row) self.new) }
        ensures err { OnErr result ((zone : AnyZone) (default : ℕ) (f : Figures)
            → AreBooksOf zone default f self.old
            → AreBooksOf zone default f self.new) }
    {
        let rows = self.transaction_rows.checked_add(1).ok_or(AllocError)?;
        let before = self.day(&row.pair);
        let sums = before.sums.with(self.zone, &row).ok_or(AllocError)?;
        let after = Day {
            usage: before.usage,
            sums,
        };
        self.days.insert(row.pair, after)?;
        self.transaction_rows = rows;
        Ok(())
    }

    /// One row of `ceiling` more.
    pub fn add_limit(&mut self, row: LimitFigures) -> Result<(), AllocError>
        ensures ok { OnOk result ((zone : AnyZone) (default : ℕ) (f : Figures)
            → AreBooksOf zone default f self.old
            → AreBooksOf zone default (with_limit f row) self.new) }
        ensures err { OnErr result ((zone : AnyZone) (default : ℕ) (f : Figures)
            → AreBooksOf zone default f self.old
            → AreBooksOf zone default f self.new) }
    {
        let first = self.caps.get(&row.pair).copied().unwrap_or(row.cap);
        self.caps.insert(row.pair, first)?;
        Ok(())
    }

    fn is_right(&self, pair: &Pair, day: Day) -> bool
        ensures { (zone : AnyZone) (default : ℕ) (f : Figures) → AreBooksOf zone default f self.now
            → day ≡ day_or (get pair_cmp self.now.days pair.now)
            → result ≡ is_right (day_of zone) default f pair.now }
    {
        let usage = day.usage.unwrap_or(Amounts::NOTHING);
        are_right(usage, day.sums, cap_of(&self.caps, self.default, pair))
    }

    /// Of the pairs that aren't right so far the least, with one pair more.
    fn or_wrong(
        &self,
        least: Option<Pair>,
        pair: &Pair,
        day: Day,
    ) -> Result<Option<Pair>, AllocError>
        ensures { IfOk result (λ next. (zone : AnyZone) (default : ℕ) (f : Figures)
            → AreBooksOf zone default f self.now
            → day ≡ day_or (get pair_cmp self.now.days pair.now)
            → next ≡ less_wrong (is_right (day_of zone) default f) least pair.now) }
    {
        if self.is_right(pair, day) {
            return Ok(least);
        }
        match least {
            Some(before) if *pair >= before => Ok(Some(before)),
            _ => Ok(Some(pair.clone()?)),
        }
    }

    /// Of the pairs that aren't right the least.
    fn least_wrong(&self) -> Result<Option<Pair>, AllocError>
        ensures { IfOk result (λ least. (zone : AnyZone) (default : ℕ) (f : Figures)
            → AreBooksOf zone default f self.now
            → least ≡ least_wrong (is_right (day_of zone) default f) None (keys self.now.days)) }
    {
        let mut least = None;
        for (pair, day) in self.days.iter() {
            least = self.or_wrong(least, pair, *day)?;
        }
        Ok(least)
    }

    /// Whether each pair of a login and day is right, by all rows that were given; else the least
    /// that isn't.
    pub fn audit(&self) -> Result<Audit, AllocError>
        ensures { IfOk result (λ audit. (zone : AnyZone) (default : ℕ) (f : Figures)
            → AreBooksOf zone default f self.now
            → IsAudited (day_of zone) default f audit) }
    {
        match self.least_wrong()? {
            Some(Pair { login, day }) => Ok(Audit::Wrong { login, day }),
            None => Ok(Audit::Sound {
                days: self.usage_rows,
                transactions: self.transaction_rows,
            }),
        }
    }
}
