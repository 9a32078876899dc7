//! The table `usage`: on which day a login has used more than a limit allows.

ghost use Rattle.std.specs.List.Sorted.{IsPermutation};
ghost use Rattle.std.specs.Prelude.{◌≡◌, map, filter, IfOk};
ghost use Rattle.mq_rows.specs.Found.{IsFirstOver};
ghost use Rattle.mq_tables.specs.Inside.{Reads, OfLedger};
ghost use Rattle.mq_tables.specs.Over.{day_row, is_from, is_past, earlier, IsTotalsShown};
ghost use Rattle.mq_tables.specs.Over.{IsEarliest, IsFirstShown};

use crate::usage::key_params;
use mq_request::Login;
use mq_rows::UsageRecord;
use sqlite::{Alter, Error, Row, Transaction};

/// What a login has on a day.
#[derive(Clone, Copy)]
struct DayTotals {
    day: u32,
    settled: u32,
    reserved: u32,
}

impl DayTotals {
    fn of_row(row: &Row) -> Result<DayTotals, Error>
        ensures { IfOk result (IsTotalsShown row.now) }
    {
        Ok(DayTotals {
            day: row.get(0)?,
            settled: row.get(1)?,
            reserved: row.get(2)?,
        })
    }

    /// Whether more than the cap is used.
    fn is_past(self, cap: u32) -> bool
        ensures { result ≡ is_past cap self }
    {
        u64::from(cap) < u64::from(self.reserved) + u64::from(self.settled)
    }

    /// Of those past the cap the one of the earlier day.
    fn or_earlier(self, first: Option<DayTotals>, cap: u32) -> Option<DayTotals>
        ensures { result ≡ earlier cap self first }
    {
        if !self.is_past(cap) {
            return first;
        }
        match first {
            Some(first) if first.day <= self.day => Some(first),
            _ => Some(self),
        }
    }
}

fn rows_from<S: Alter>(
    tx: &mut Transaction<'_, S>,
    login: &Login,
    from_day: u32,
) -> Result<Vec<Row>, Error>
    ensures { Reads S.Store tx.old tx.new result (OfLedger (λ t rows.
        IsPermutation (map day_row (filter (is_from login.now from_day) t.usage)) rows.items)) }
{
    tx.query_all(
        "SELECT day, settled, reserved FROM usage WHERE login = ?1 AND day >= ?2",
        &key_params(login, from_day),
    )
}

/// Of what the rows show past the cap the earliest.
fn earliest_over(rows: &[Row], cap: u32) -> Result<Option<DayTotals>, Error>
    ensures { IfOk result (IsEarliest cap rows.now) }
{
    let mut first = None;
    for row in rows {
        first = DayTotals::of_row(row)?.or_earlier(first, cap);
    }
    Ok(first)
}

fn first_over(rows: &[Row], login: &Login, cap: u32) -> Result<Option<UsageRecord>, Error>
    ensures { IfOk result (IsFirstShown login.now cap rows.now) }
{
    let Some(totals) = earliest_over(rows, cap)? else {
        return Ok(None);
    };
    Ok(Some(UsageRecord {
        login: login.clone()?,
        day: totals.day,
        settled: totals.settled,
        reserved: totals.reserved,
    }))
}

/// Of the days from `from_day` on on which the login has used more than `cap` recipients, the row
/// of the first; `None` where there is no such day. A value of its rows that is no number of 32
/// bits is an error of the store.
pub fn find_over<S: Alter>(
    tx: &mut Transaction<'_, S>,
    login: &Login,
    from_day: u32,
    cap: u32,
) -> Result<Option<UsageRecord>, Error>
    ensures { Reads S.Store tx.old tx.new result (OfLedger (λ t found.
        IsFirstOver login.now from_day cap t.usage found)) }
{
    let rows = rows_from(tx, login, from_day)?;
    first_over(rows.as_slice(), login, cap)
}
