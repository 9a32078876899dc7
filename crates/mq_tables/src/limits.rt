//! All limits that a ledger has, whatever their columns hold.

ghost use Rattle.std.specs.List.Sorted.{IsPermutation};
ghost use Rattle.std.specs.Prelude.{◌≡◌, map, IfOk};
ghost use Rattle.mq_rows.specs.Audit.{Figures};
ghost use Rattle.mq_tables.specs.Figures.{HasFigures, limit_cells, limit_columns};
ghost use Rattle.mq_tables.specs.Inside.{Reads};

use crate::figures::{Table, limit_of};
use mq_rows::LimitFigures;
use sqlite::{Alter, Error, Row, Transaction};
use std::alloc::Global;

fn limits_rows<S: Alter>(tx: &mut Transaction<'_, S>) -> Result<Vec<Row>, Error>
    ensures { Reads S.Store tx.old tx.new result (λ db rows. (f : Figures) → HasFigures db f
        → IsPermutation (map limit_cells f.limits) rows.items) }
{
    tx.query_all(Table::Limits.text(), &[])
}

fn limits_in(alloc: Global, rows: &[Row]) -> Result<Vec<LimitFigures>, Error>
    ensures { IfOk result (λ read. map limit_columns rows.now ≡ map limit_cells read.items) }
{
    let mut read = Vec::new(alloc);
    for row in rows {
        read.push(limit_of(row)?)?;
    }
    Ok(read)
}

/// All rows of `ceiling`, in any order. An error is the store's, also where memory runs out.
pub fn read_limits<S: Alter>(
    alloc: Global,
    tx: &mut Transaction<'_, S>,
) -> Result<Vec<LimitFigures>, Error>
    ensures { Reads S.Store tx.old tx.new result (λ db read. (f : Figures) → HasFigures db f
        → IsPermutation f.limits read.items) }
{
    let rows = limits_rows(tx)?;
    limits_in(alloc, rows.as_slice())
}
