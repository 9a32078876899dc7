//! The table `setting`, which has one row.

ghost use Rattle.std.specs.Prelude.{◌≡◌, ◌<◌, ◌^◌, pos, None, IsTrue, OnOk, IfOk, [], ◌∷◌, false};
ghost use Rattle.sqlite.specs.Held.{state};
ghost use Rattle.sqlite.specs.Order.{column};
ghost use Rattle.sqlite.specs.State.{HasCleanDisk};
ghost use Rattle.sqlite.specs.Values.{bound};
ghost use Rattle.sqlite.specs.declared.types.Value.TheVariants.{Int};
ghost use Rattle.sqlite_value.specs.Value.{owned};
ghost use Rattle.mq_tables.specs.Inside.{IsInside, ChangesNothing, Finds, Reads, Becomes};
ghost use Rattle.mq_tables.specs.Inside.{StaysInside, OfLedger};
ghost use Rattle.mq_tables.specs.Inside.{CommitsNothing};
ghost use Rattle.mq_tables.specs.Lent.{IsNaturalAt, IsFirstNatural};
ghost use Rattle.mq_tables.specs.Reading.{IsRead, Spares};
ghost use Rattle.mq_tables.specs.Settings.{SettingRow, HasSetting, IsOf, reading, setting_of};
ghost use Rattle.mq_tables.specs.Updates.{CountsArrivals};

use mq_ledger::Zone;
use sqlite::types::ValueRef;
use sqlite::{Alter, Connection, Error, Row, Transaction};

/// What a ledger is made with: the zone that its days go by, and the limit of a login that has
/// none.
#[derive(Clone, Copy, Debug)]
pub struct NewSetting {
    pub zone: Zone,
    /// Recipients a day, 0 to 1,000,000.
    pub cap: u32,
}

/// What the row says of the ledger that it was made for.
#[derive(Clone, Copy, Debug, PartialEq, Eq)]
pub struct Setting {
    /// Which tables these are: 3, or of an older ledger 1 with an offset, and 2 with a zone rule.
    pub version: i64,
    /// Minutes east of UTC, and 0 with a rule.
    pub minutes: i64,
    /// The limit of a login that has none.
    pub cap: i64,
}

/// A value of the row, where it has one there.
pub(crate) fn value_at(row: &Row, at: usize) -> ValueRef<'_>
    ensures { owned result ≡ column row.now at }
{
    match row.get_ref(at) {
        Ok(value) => value,
        Err(_) => ValueRef::Null,
    }
}

fn setting_of(row: &Row) -> Option<Setting>
    ensures { result ≡ setting_of row.now }
{
    match (value_at(row, 0), value_at(row, 1), value_at(row, 2)) {
        (ValueRef::Int(version), ValueRef::Int(minutes), ValueRef::Int(cap)) => Some(Setting {
            version,
            minutes,
            cap,
        }),
        _ => None,
    }
}

/// What is read where the store answers so.
fn reading(answer: Result<Row, Error>) -> Result<Option<Setting>, Error>
    ensures { result ≡ reading answer }
{
    match answer {
        Ok(row) => Ok(setting_of(&row)),
        Err(error) => Err(error),
    }
}

/// Reads the row; `None` where what stands in its place isn't three whole numbers.
///
/// It lifts the limit on steps, and writes nothing. An error is the store's: `QueryReturnedNoRows`
/// where the row is absent, one of SQL where there is no such table.
pub fn read_setting<S: Alter>(connection: &mut Connection<S>) -> Result<Option<Setting>, Error>
    requires autocommit { connection.old.in_transaction ≡ false }
    ensures autocommit { connection.new.in_transaction ≡ false }
    ensures unlimited { connection.new.step_limit ≡ None }

    // Whatever the store holds.
    ensures read { HasCleanDisk (state S.Store connection.new)
        → IsRead (state S.Store connection.old) (state S.Store connection.new) result }
    ensures clean { HasCleanDisk (state S.Store connection.new)
        → HasCleanDisk (state S.Store connection.old) }
    ensures spares { HasCleanDisk (state S.Store connection.new)
        → Spares (state S.Store connection.old) (state S.Store connection.new) }
    ensures open { HasCleanDisk (state S.Store connection.new)
        → OnOk result (IsTrue (state S.Store connection.new).is_open) }

    // Where our table is there, at any place.
    ensures row { HasCleanDisk (state S.Store connection.new) → (s : SettingRow)
        → HasSetting (state S.Store connection.old).now s → IsOf s result }
{
    connection.set_step_limit(None);
    // (its clause says that outside a transaction the tables are those of the last commit)
    let _settled = connection.is_autocommit();
    let answer = connection.query_row(
        "SELECT version, minutes, cap FROM setting WHERE id = 1",
        &[],
    );
    reading(answer)
}

/// A whole number of the row from 0 on, which is below 2 to the 63rd.
pub fn natural_at(row: &Row, at: usize) -> Result<u64, Error>
    ensures { IfOk result (IsNaturalAt row.now at) }
{
    let value: i64 = row.get(at)?;
    u64::try_from(value).map_err(|_| Error::IntegralValueOutOfRange(at))
}

fn arrivals_rows<S: Alter>(tx: &mut Transaction<'_, S>) -> Result<Vec<Row>, Error>
    ensures { Reads S.Store tx.old tx.new result (OfLedger (λ t rows.
        rows.items ≡ (Int (pos t.setting.arrivals) ∷ []) ∷ [])) }
{
    tx.query_all("SELECT arrivals FROM setting WHERE id = 1", &[])
}

fn first_natural(rows: &[Row]) -> Result<u64, Error>
    ensures { IfOk result (IsFirstNatural rows.now) }
{
    let Some(row) = rows.first() else {
        return Err(Error::QueryReturnedNoRows);
    };
    natural_at(row, 0)
}

/// Reads the count of arrivals, which is below 2 to the 63rd.
///
/// An error is the store's: `QueryReturnedNoRows` where the row is absent, `InvalidColumnType`
/// where no whole number stands there, and `IntegralValueOutOfRange` where it is below 0.
pub fn read_arrivals<S: Alter>(tx: &mut Transaction<'_, S>) -> Result<u64, Error>
    ensures same { ChangesNothing S.Store tx.old tx.new result }
    ensures found { Finds S.Store tx.old tx.new result (OfLedger
        (λ t arrivals. arrivals ≡ t.setting.arrivals)) }
    ensures in_range { IfOk result (λ arrivals. arrivals < 2 ^ 63) }
    ensures leaves { CommitsNothing S.Store tx.old tx.new }
{
    let rows = arrivals_rows(tx)?;
    first_natural(rows.as_slice())
}

/// Writes the count of arrivals, which is below 2 to the 63rd.
pub fn set_arrivals<S: Alter>(tx: &mut Transaction<'_, S>, arrivals: u64) -> Result<usize, Error>
    requires in_range { arrivals < 2 ^ 63 }
    requires inside { IsInside S.Store tx.old }
    ensures inside { StaysInside S.Store tx.old tx.new result }
    ensures counted { Becomes S.Store tx.old tx.new result (CountsArrivals arrivals) }
    ensures leaves { CommitsNothing S.Store tx.old tx.new }
{
    tx.execute(
        "UPDATE setting SET arrivals = ?1 WHERE id = 1",
        &arrivals_params(arrivals),
    )
}

fn arrivals_params(arrivals: u64) -> [ValueRef<'static>; 1]
    requires in_range { arrivals < 2 ^ 63 }
    ensures { bound result ≡ Int (pos arrivals) ∷ [] }
{
    [ValueRef::Int(arrivals as i64)]
}
