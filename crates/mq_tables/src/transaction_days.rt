//! The table `trans`: of which days its rows are, up to a day.

ghost use Rattle.std.specs.Prelude.{◌≡◌};
ghost use Rattle.sqlite.specs.Values.{bound};
ghost use Rattle.mq_tables.specs.Days.{IsFirstDay};
ghost use Rattle.mq_tables.specs.Inside.{Reads, OfLedger};
ghost use Rattle.mq_tables.specs.TransactionDays.{day_params, IsDayUntilShown};
ghost use Rattle.mq_tables.specs.TransactionDays.{IsOldestUntil, IsNewestUntil};

use crate::days::first_day;
use sqlite::types::ValueRef;
use sqlite::{Alter, Error, Row, Transaction};

fn day_params(day: u32) -> [ValueRef<'static>; 1]
    ensures { bound result ≡ day_params day }
{
    [ValueRef::Int(i64::from(day))]
}

fn oldest_rows<S: Alter>(tx: &mut Transaction<'_, S>, until: u32) -> Result<Vec<Row>, Error>
    ensures { Reads S.Store tx.old tx.new result (OfLedger
        (λ t rows. IsDayUntilShown (IsOldestUntil until) t.transactions rows.items)) }
{
    tx.query_all(
        "SELECT day FROM trans WHERE day <= ?1 ORDER BY day LIMIT 1",
        &day_params(until),
    )
}

fn newest_rows<S: Alter>(tx: &mut Transaction<'_, S>, until: u32) -> Result<Vec<Row>, Error>
    ensures { Reads S.Store tx.old tx.new result (OfLedger
        (λ t rows. IsDayUntilShown (IsNewestUntil until) t.transactions rows.items)) }
{
    tx.query_all(
        "SELECT day FROM trans WHERE day <= ?1 ORDER BY day DESC LIMIT 1",
        &day_params(until),
    )
}

/// The earliest day of which there is a row, where it isn't after `until`; else `None`.
pub fn oldest_until<S: Alter>(tx: &mut Transaction<'_, S>, until: u32) -> Result<Option<u32>, Error>
    ensures { Reads S.Store tx.old tx.new result (OfLedger
        (λ t found. IsOldestUntil until t.transactions found)) }
{
    let rows = oldest_rows(tx, until)?;
    first_day(rows.as_slice())
}

/// The latest day up to `until` of which there is a row; `None` where there is none.
pub fn newest_until<S: Alter>(tx: &mut Transaction<'_, S>, until: u32) -> Result<Option<u32>, Error>
    ensures { Reads S.Store tx.old tx.new result (OfLedger
        (λ t found. IsNewestUntil until t.transactions found)) }
{
    let rows = newest_rows(tx, until)?;
    first_day(rows.as_slice())
}
