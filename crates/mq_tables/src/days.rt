//! The table `usage`: of which days its rows are.

ghost use Rattle.std.specs.Prelude.{IfOk};
ghost use Rattle.mq_rows.specs.Days.{IsOldest, IsNewest};
ghost use Rattle.mq_tables.specs.Days.{IsDayShown, IsFirstDay};
ghost use Rattle.mq_tables.specs.Inside.{Reads, OfLedger};

use sqlite::{Alter, Error, Row, Transaction};

fn oldest_rows<S: Alter>(tx: &mut Transaction<'_, S>) -> Result<Vec<Row>, Error>
    ensures { Reads S.Store tx.old tx.new result (OfLedger
        (λ t rows. IsDayShown IsOldest t.usage rows.items)) }
{
    tx.query_all("SELECT day FROM usage ORDER BY day LIMIT 1", &[])
}

fn newest_rows<S: Alter>(tx: &mut Transaction<'_, S>) -> Result<Vec<Row>, Error>
    ensures { Reads S.Store tx.old tx.new result (OfLedger
        (λ t rows. IsDayShown IsNewest t.usage rows.items)) }
{
    tx.query_all("SELECT day FROM usage ORDER BY day DESC LIMIT 1", &[])
}

/// What the first row shows, where there is one.
pub(crate) fn first_day(rows: &[Row]) -> Result<Option<u32>, Error>
    ensures { IfOk result (IsFirstDay rows.now) }
{
    let Some(row) = rows.first() else {
        return Ok(None);
    };
    Ok(Some(row.get(0)?))
}

/// The earliest day of which there is a row; `None` where there is no row.
pub fn oldest_day<S: Alter>(tx: &mut Transaction<'_, S>) -> Result<Option<u32>, Error>
    ensures { Reads S.Store tx.old tx.new result (OfLedger (λ t found. IsOldest t.usage found)) }
{
    let rows = oldest_rows(tx)?;
    first_day(rows.as_slice())
}

/// The latest day of which there is a row; `None` where there is no row.
pub fn newest_day<S: Alter>(tx: &mut Transaction<'_, S>) -> Result<Option<u32>, Error>
    ensures { Reads S.Store tx.old tx.new result (OfLedger (λ t found. IsNewest t.usage found)) }
{
    let rows = newest_rows(tx)?;
    first_day(rows.as_slice())
}
