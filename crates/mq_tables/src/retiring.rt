//! What a retire reads of the runs that it gives up: their open transactions, and the places of
//! their answers.

ghost use Rattle.std.specs.List.Sorted.{IsPermutation};
ghost use Rattle.std.specs.Prelude.{◌≡◌, ◌<◌, ◌^◌, map, filter, All, IfOk};
ghost use Rattle.sqlite.specs.Values.{bound};
ghost use Rattle.mq_rows.specs.Plan.{is_among, is_open_in};
ghost use Rattle.mq_rows.specs.Storable.{IsStorable};
ghost use Rattle.mq_tables.specs.Inside.{IsInside, ChangesNothing, Finds, Reads, Becomes};
ghost use Rattle.mq_tables.specs.Inside.{StaysInside, OfLedger};
ghost use Rattle.mq_tables.specs.Inside.{CommitsNothing};
ghost use Rattle.mq_tables.specs.Retiring.{open_params, open_row, open_columns, IsOpenRead};
ghost use Rattle.mq_tables.specs.Retiring.{IsOpenOf};
ghost use Rattle.mq_tables.specs.Retiring.{runs_params, place_row, clear_params, ClearsAt};

use crate::setting::natural_at;
use mq_request::{Host, Login};
use mq_rows::{Runs, TransactionRecord};
use sqlite::types::ValueRef;
use sqlite::{Alter, Error, Row, Transaction};
use std::alloc::Global;

fn open_params(runs: &Runs) -> [ValueRef<'_>; 4]
    requires in_range { (runs.now.from < 2 ^ 63) × (runs.now.to < 2 ^ 63) }
    ensures { bound result ≡ open_params runs.now }
{
    [
        ValueRef::Blob(runs.host.as_slice()),
        ValueRef::Int(runs.from as i64),
        ValueRef::Int(runs.to as i64),
        ValueRef::Int(0),
    ]
}

fn open_rows<S: Alter>(tx: &mut Transaction<'_, S>, runs: &Runs) -> Result<Vec<Row>, Error>
    requires in_range { (runs.now.from < 2 ^ 63) × (runs.now.to < 2 ^ 63) }
    ensures { Reads S.Store tx.old tx.new result (OfLedger (λ t rows.
        IsPermutation (map open_row (filter (is_open_in runs.now) t.transactions)) rows.items)) }
{
    tx.query_all(
        "SELECT run, txn, login, moment, day, held, settled FROM trans \
            WHERE host = ?1 AND run >= ?2 AND run <= ?3 AND closed = ?4",
        &open_params(runs),
    )
}

/// The open transaction of that host that the row shows.
fn open_of(row: &Row, host: &Host) -> Result<TransactionRecord, Error>
    ensures read { IfOk result (IsOpenRead host.now row.now) }
    ensures storable { IfOk result IsStorable }
{
    Ok(TransactionRecord {
        host: host.clone()?,
        run: natural_at(row, 0)?,
        txn: row.get(1)?,
        login: Login::new(row.get(2)?),
        moment: natural_at(row, 3)?,
        day: row.get(4)?,
        held: row.get(5)?,
        settled: row.get(6)?,
        closed: false,
    })
}

fn opens_in(alloc: Global, rows: &[Row], host: &Host) -> Result<Vec<TransactionRecord>, Error>
    ensures read { IfOk result (λ read. map open_columns rows.now ≡ map open_row read.items) }
    ensures open { IfOk result (λ read. All (IsOpenOf host.now) read.items) }
    ensures storable { IfOk result (λ read. All IsStorable read.items) }
{
    let mut read = Vec::new(alloc);
    for row in rows {
        read.push(open_of(row, host)?)?;
    }
    Ok(read)
}

/// The open transactions of these runs, in any order.
///
/// An error is the store's, also where a value of a row is out of its range.
pub fn find_open<S: Alter>(
    alloc: Global,
    tx: &mut Transaction<'_, S>,
    runs: &Runs,
) -> Result<Vec<TransactionRecord>, Error>
    requires in_range { (runs.now.from < 2 ^ 63) × (runs.now.to < 2 ^ 63) }
    ensures same { ChangesNothing S.Store tx.old tx.new result }
    ensures found { Finds S.Store tx.old tx.new result (OfLedger (λ t found.
        IsPermutation found.items (filter (is_open_in runs.now) t.transactions))) }
    ensures storable { IfOk result (λ found. All IsStorable found.items) }
    ensures leaves { CommitsNothing S.Store tx.old tx.new }
{
    let rows = open_rows(tx, runs)?;
    opens_in(alloc, rows.as_slice(), &runs.host)
}

fn runs_params(runs: &Runs) -> [ValueRef<'_>; 3]
    requires in_range { (runs.now.from < 2 ^ 63) × (runs.now.to < 2 ^ 63) }
    ensures { bound result ≡ runs_params runs.now }
{
    [
        ValueRef::Blob(runs.host.as_slice()),
        ValueRef::Int(runs.from as i64),
        ValueRef::Int(runs.to as i64),
    ]
}

/// The places of the answers of these runs, in any order: one number a row.
pub fn answer_places<S: Alter>(tx: &mut Transaction<'_, S>, runs: &Runs) -> Result<Vec<Row>, Error>
    requires in_range { (runs.now.from < 2 ^ 63) × (runs.now.to < 2 ^ 63) }
    ensures { Reads S.Store tx.old tx.new result (OfLedger (λ t rows.
        IsPermutation (map place_row (filter (λ a. is_among runs.now a.id.host a.id.run) t.answers))
        rows.items)) }
{
    tx.query_all(
        "SELECT n FROM answer WHERE host = ?1 AND run >= ?2 AND run <= ?3",
        &runs_params(runs),
    )
}

fn clear_params(n: u64) -> [ValueRef<'static>; 2]
    requires { n < 2 ^ 63 }
    ensures { bound result ≡ clear_params n }
{
    [ValueRef::Blob(b""), ValueRef::Int(n as i64)]
}

/// Clears the reply of the answer at that place, which is below 2 to the 63rd.
pub fn clear_reply<S: Alter>(tx: &mut Transaction<'_, S>, n: u64) -> Result<usize, Error>
    requires in_range { n < 2 ^ 63 }
    requires inside { IsInside S.Store tx.old }
    ensures inside { StaysInside S.Store tx.old tx.new result }
    ensures cleared { Becomes S.Store tx.old tx.new result (ClearsAt n) }
    ensures leaves { CommitsNothing S.Store tx.old tx.new }
{
    tx.execute(
        "UPDATE answer SET reply = ?1 WHERE n = ?2",
        &clear_params(n),
    )
}
