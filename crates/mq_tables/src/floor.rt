//! The table `retired`, which has the floor of each host that has one: the run below which its runs
//! are given up.

ghost use Rattle.std.specs.List.Sorted.{IsPermutation};
ghost use Rattle.std.specs.Prelude.{◌≡◌, ◌<◌, ◌^◌, List, None, false, map, filter, IsTrue, OnOk};
ghost use Rattle.std.specs.Prelude.{IfOk};
ghost use Rattle.sqlite.specs.Held.{state};
ghost use Rattle.sqlite.specs.State.{HasCleanDisk};
ghost use Rattle.sqlite.specs.Values.{bound};
ghost use Rattle.mq_rows.specs.declared.plan.Write.TheVariants.{Insert, Update};
ghost use Rattle.mq_rows.specs.Rows.{is_host};
ghost use Rattle.mq_rows.specs.Storable.{IsStorableFloor, IsStorableFloorWrite};
ghost use Rattle.mq_rows.specs.declared.record.RetiredRecord.{RetiredRecord as AnyRetiredRecord};
ghost use Rattle.mq_tables.specs.Floors.{is_floor, are_floors, AreFloorsOf};
ghost use Rattle.mq_tables.specs.Inside.{IsInside, ChangesNothing, Finds, Reads, Becomes};
ghost use Rattle.mq_tables.specs.Inside.{StaysInside, Writes};
ghost use Rattle.mq_tables.specs.Inside.{OfCurrent, CommitsNothing};
ghost use Rattle.mq_tables.specs.Ledger.{HasFloors};
ghost use Rattle.mq_tables.specs.Lent.{host_params, floor_params, floor_row, IsFirstFloor};
ghost use Rattle.mq_tables.specs.Records.{retired_fields, IsOneOf};
ghost use Rattle.mq_tables.specs.Reading.{AreFloorsRead, Spares};
ghost use Rattle.mq_tables.specs.Updates.{WritesFloor};

use crate::setting::{natural_at, value_at};
use mq_request::Host;
use mq_rows::{RetiredRecord, Write};
use sqlite::types::ValueRef;
use sqlite::{Alter, Connection, Error, Row, Transaction};

/// Reads all floors, as they are.
///
/// It lifts the limit on steps, and writes nothing. An error is the store's: one of SQL where there
/// is no such table.
pub fn read_floors<S: Alter>(connection: &mut Connection<S>) -> Result<Vec<Row>, Error>
    requires autocommit { connection.old.in_transaction ≡ false }
    ensures autocommit { connection.new.in_transaction ≡ false }
    ensures unlimited { connection.new.step_limit ≡ None }

    // Whatever the store holds.
    ensures read { HasCleanDisk (state S.Store connection.new)
        → AreFloorsRead (state S.Store connection.old) (state S.Store connection.new) result }
    ensures spares { HasCleanDisk (state S.Store connection.new)
        → Spares (state S.Store connection.old) (state S.Store connection.new) }
    ensures clean { HasCleanDisk (state S.Store connection.new)
        → HasCleanDisk (state S.Store connection.old) }
    ensures open { HasCleanDisk (state S.Store connection.new)
        → OnOk result (IsTrue (state S.Store connection.new).is_open) }

    // Where our table is there, at any place.
    ensures floors { HasCleanDisk (state S.Store connection.new) → (floors : List AnyRetiredRecord)
        → HasFloors (state S.Store connection.old).now floors → AreFloorsOf result }
{
    connection.set_step_limit(None);
    // (its clause says that outside a transaction the tables are those of the last commit)
    let _settled = connection.is_autocommit();
    connection.query_all("SELECT host, run FROM retired", &[])
}

fn is_floor(row: &Row) -> bool
    ensures { result ≡ is_floor row.now }
{
    matches!(
        (value_at(row, 0), value_at(row, 1)),
        (ValueRef::Blob(_), ValueRef::Int(_))
    )
}

/// Whether a host and a run stand in each row.
pub fn are_floors(rows: &[Row]) -> bool
    ensures { result ≡ are_floors rows.now }
{
    rows.iter().all(is_floor)
}

fn host_params(host: &Host) -> [ValueRef<'_>; 1]
    ensures { bound result ≡ host_params host.now }
{
    [ValueRef::Blob(host.as_slice())]
}

fn floor_rows<S: Alter>(tx: &mut Transaction<'_, S>, host: &Host) -> Result<Vec<Row>, Error>
    ensures { Reads S.Store tx.old tx.new result (OfCurrent (λ t rows.
        IsPermutation (map floor_row (filter (is_host host.now) t.retired)) rows.items)) }
{
    tx.query_all(
        "SELECT run FROM retired WHERE host = ?1",
        &host_params(host),
    )
}

/// What the first row shows, where there is one.
fn first_floor(rows: &[Row], host: &Host) -> Result<Option<RetiredRecord>, Error>
    ensures first { IfOk result (IsFirstFloor host.now rows.now) }
    ensures storable { IfOk result IsStorableFloor }
{
    let Some(row) = rows.first() else {
        return Ok(None);
    };
    Ok(Some(RetiredRecord {
        host: host.clone()?,
        run: natural_at(row, 0)?,
    }))
}

/// The row of a host, where there is one.
pub fn find_floor<S: Alter>(
    tx: &mut Transaction<'_, S>,
    host: &Host,
) -> Result<Option<RetiredRecord>, Error>
    ensures same { ChangesNothing S.Store tx.old tx.new result }
    ensures found { Finds S.Store tx.old tx.new result (OfCurrent (λ t found.
        IsOneOf (is_host host.now) t.retired found)) }
    ensures storable { IfOk result IsStorableFloor }
    ensures leaves { CommitsNothing S.Store tx.old tx.new }
{
    let rows = floor_rows(tx, host)?;
    first_floor(rows.as_slice(), host)
}

fn retired_params(floor: &RetiredRecord) -> [ValueRef<'_>; 2]
    requires { floor.now.run < 2 ^ 63 }
    ensures { bound result ≡ retired_fields floor.now }
{
    [
        ValueRef::Blob(floor.host.as_slice()),
        ValueRef::Int(floor.run as i64),
    ]
}

fn insert_floor<S: Alter>(
    tx: &mut Transaction<'_, S>,
    floor: &RetiredRecord,
) -> Result<usize, Error>
    requires in_range { floor.now.run < 2 ^ 63 }
    requires inside { IsInside S.Store tx.old }
    ensures { Writes S.Store tx.old tx.new result (WritesFloor (Insert floor.now)) }
{
    tx.execute(
        "INSERT INTO retired (host, run) VALUES (?1, ?2)",
        &retired_params(floor),
    )
}

fn floor_params(floor: &RetiredRecord) -> [ValueRef<'_>; 2]
    requires { floor.now.run < 2 ^ 63 }
    ensures { bound result ≡ floor_params floor.now }
{
    [
        ValueRef::Int(floor.run as i64),
        ValueRef::Blob(floor.host.as_slice()),
    ]
}

fn update_floor<S: Alter>(
    tx: &mut Transaction<'_, S>,
    floor: &RetiredRecord,
) -> Result<usize, Error>
    requires in_range { floor.now.run < 2 ^ 63 }
    requires inside { IsInside S.Store tx.old }
    ensures { Writes S.Store tx.old tx.new result (WritesFloor (Update floor.now)) }
{
    tx.execute(
        "UPDATE retired SET run = ?1 WHERE host = ?2",
        &floor_params(floor),
    )
}

/// Writes what becomes of the table, and answers how many rows it wrote.
pub fn write_floor<S: Alter>(
    tx: &mut Transaction<'_, S>,
    write: &Write<RetiredRecord>,
) -> Result<usize, Error>
    requires in_range { IsStorableFloorWrite write.now }
    requires inside { IsInside S.Store tx.old }
    ensures { Writes S.Store tx.old tx.new result (WritesFloor write.now) }
{
    match write {
        Write::Keep => Ok(0),
        Write::Insert(floor) => insert_floor(tx, floor),
        Write::Update(floor) => update_floor(tx, floor),
    }
}
