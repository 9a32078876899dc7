//! The table `trans`, which keeps how each transaction stands.

ghost use Rattle.std.specs.List.Sorted.{IsPermutation};
ghost use Rattle.std.specs.Prelude.{◌≡◌, ◌<◌, ◌^◌, map, filter, IfOk};
ghost use Rattle.sqlite.specs.Values.{bound};
ghost use Rattle.mq_rows.specs.Rows.{is_transaction};
ghost use Rattle.mq_rows.specs.Storable.{IsStorable, IsStorableIf, IsStorableWrite};
ghost use Rattle.mq_rows.specs.declared.plan.Write.TheVariants.{Insert, Update};
ghost use Rattle.mq_tables.specs.Inside.{IsInside, ChangesNothing, Finds, Reads, Becomes};
ghost use Rattle.mq_tables.specs.Inside.{StaysInside, Writes};
ghost use Rattle.mq_tables.specs.Inside.{OfLedger, CommitsNothing};
ghost use Rattle.mq_tables.specs.Lent.{standing_params, standing_row, transaction_key};
ghost use Rattle.mq_tables.specs.Lent.{IsFirstTransaction};
ghost use Rattle.mq_tables.specs.Records.{IsOneOf, transaction_fields};
ghost use Rattle.mq_tables.specs.Updates.{WritesTransaction};

use crate::setting::natural_at;
use mq_request::{Host, Login};
use mq_rows::{TransactionRecord, Write};
use sqlite::types::ValueRef;
use sqlite::{Alter, Error, Row, Transaction};

fn key_params(host: &Host, run: u64, txn: u32) -> [ValueRef<'_>; 3]
    requires { run < 2 ^ 63 }
    ensures { bound result ≡ transaction_key host.now run txn }
{
    [
        ValueRef::Blob(host.as_slice()),
        ValueRef::Int(run as i64),
        ValueRef::Int(i64::from(txn)),
    ]
}

fn transaction_rows<S: Alter>(
    tx: &mut Transaction<'_, S>,
    host: &Host,
    run: u64,
    txn: u32,
) -> Result<Vec<Row>, Error>
    requires { run < 2 ^ 63 }
    ensures { Reads S.Store tx.old tx.new result (OfLedger (λ t rows.
        IsPermutation (map standing_row
        (filter (is_transaction (record { host = host.now; run = run; txn = txn })) t.transactions))
        rows.items)) }
{
    tx.query_all(
        "SELECT login, moment, day, held, settled, closed FROM trans WHERE host = ?1 AND run = ?2 AND txn = ?3",
        &key_params(host, run, txn),
    )
}

/// What the first row shows, where there is one.
fn first_transaction(
    rows: &[Row],
    host: &Host,
    run: u64,
    txn: u32,
) -> Result<Option<TransactionRecord>, Error>
    requires { run < 2 ^ 63 }
    ensures shown { IfOk result (IsFirstTransaction host.now run txn rows.now) }
    ensures storable { IfOk result IsStorableIf }
{
    let Some(row) = rows.first() else {
        return Ok(None);
    };
    Ok(Some(TransactionRecord {
        host: host.clone()?,
        run,
        txn,
        login: Login::new(row.get(0)?),
        moment: natural_at(row, 1)?,
        day: row.get(2)?,
        held: row.get(3)?,
        settled: row.get(4)?,
        closed: row.get(5)?,
    }))
}

/// The row of a transaction, where there is one. Its run is below 2 to the 63rd, and so is the
/// moment of a row that is found.
pub fn find_transaction<S: Alter>(
    tx: &mut Transaction<'_, S>,
    host: &Host,
    run: u64,
    txn: u32,
) -> Result<Option<TransactionRecord>, Error>
    requires { run < 2 ^ 63 }
    ensures same { ChangesNothing S.Store tx.old tx.new result }
    ensures found { Finds S.Store tx.old tx.new result (OfLedger (λ t found.
        IsOneOf (is_transaction (record { host = host.now; run = run; txn = txn })) t.transactions
        found)) }
    ensures storable { IfOk result IsStorableIf }
    ensures leaves { CommitsNothing S.Store tx.old tx.new }
{
    let rows = transaction_rows(tx, host, run, txn)?;
    first_transaction(rows.as_slice(), host, run, txn)
}

fn transaction_params(transaction: &TransactionRecord) -> [ValueRef<'_>; 9]
    requires { IsStorable transaction.now }
    ensures { bound result ≡ transaction_fields transaction.now }
{
    [
        ValueRef::Blob(transaction.host.as_slice()),
        ValueRef::Int(transaction.run as i64),
        ValueRef::Int(i64::from(transaction.txn)),
        ValueRef::Blob(transaction.login.as_slice()),
        ValueRef::Int(transaction.moment as i64),
        ValueRef::Int(i64::from(transaction.day)),
        ValueRef::Int(i64::from(transaction.held)),
        ValueRef::Int(i64::from(transaction.settled)),
        ValueRef::Int(i64::from(transaction.closed)),
    ]
}

fn standing_params(transaction: &TransactionRecord) -> [ValueRef<'_>; 6]
    requires { IsStorable transaction.now }
    ensures { bound result ≡ standing_params transaction.now }
{
    [
        ValueRef::Int(i64::from(transaction.held)),
        ValueRef::Int(i64::from(transaction.settled)),
        ValueRef::Int(i64::from(transaction.closed)),
        ValueRef::Blob(transaction.host.as_slice()),
        ValueRef::Int(transaction.run as i64),
        ValueRef::Int(i64::from(transaction.txn)),
    ]
}

fn insert_transaction<S: Alter>(
    tx: &mut Transaction<'_, S>,
    transaction: &TransactionRecord,
) -> Result<usize, Error>
    requires storable { IsStorable transaction.now }
    requires inside { IsInside S.Store tx.old }
    ensures { Writes S.Store tx.old tx.new result (WritesTransaction (Insert transaction.now)) }
{
    tx.execute(
        "INSERT INTO trans (host, run, txn, login, moment, day, held, settled, closed) \
            VALUES (?1, ?2, ?3, ?4, ?5, ?6, ?7, ?8, ?9)",
        &transaction_params(transaction),
    )
}

fn update_transaction<S: Alter>(
    tx: &mut Transaction<'_, S>,
    transaction: &TransactionRecord,
) -> Result<usize, Error>
    requires storable { IsStorable transaction.now }
    requires inside { IsInside S.Store tx.old }
    ensures { Writes S.Store tx.old tx.new result (WritesTransaction (Update transaction.now)) }
{
    tx.execute(
        "UPDATE trans SET held = ?1, settled = ?2, closed = ?3 WHERE host = ?4 AND run = ?5 AND txn = ?6",
        &standing_params(transaction),
    )
}

/// Writes what becomes of the table, and answers how many rows it wrote. The row's run and its
/// moment are below 2 to the 63rd.
pub fn write_transaction<S: Alter>(
    tx: &mut Transaction<'_, S>,
    write: &Write<TransactionRecord>,
) -> Result<usize, Error>
    requires storable { IsStorableWrite write.now }
    requires inside { IsInside S.Store tx.old }
    ensures { Writes S.Store tx.old tx.new result (WritesTransaction write.now) }
{
    match write {
        Write::Keep => Ok(0),
        Write::Insert(transaction) => insert_transaction(tx, transaction),
        Write::Update(transaction) => update_transaction(tx, transaction),
    }
}
