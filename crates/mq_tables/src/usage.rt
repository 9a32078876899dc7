//! The table `usage`, which keeps what each login has on each day.

ghost use Rattle.std.specs.List.Sorted.{IsPermutation};
ghost use Rattle.std.specs.Prelude.{◌≡◌, map, filter, IfOk};
ghost use Rattle.sqlite.specs.Values.{bound};
ghost use Rattle.mq_rows.specs.Rows.{is_usage};
ghost use Rattle.mq_rows.specs.declared.plan.Write.TheVariants.{Insert, Update};
ghost use Rattle.mq_tables.specs.Inside.{IsInside, Reads, Becomes, StaysInside, Writes, OfLedger};
ghost use Rattle.mq_tables.specs.Inside.{CommitsNothing};
ghost use Rattle.mq_tables.specs.Lent.{key_params, totals_params, totals_row, IsFirst};
ghost use Rattle.mq_tables.specs.Records.{IsOneOf, usage_fields};
ghost use Rattle.mq_tables.specs.Updates.{WritesUsage};

use mq_request::Login;
use mq_rows::{UsageRecord, Write};
use sqlite::types::ValueRef;
use sqlite::{Alter, Error, Row, Transaction};

pub(crate) fn key_params(login: &Login, day: u32) -> [ValueRef<'_>; 2]
    ensures { bound result ≡ key_params login.now day }
{
    [
        ValueRef::Blob(login.as_slice()),
        ValueRef::Int(i64::from(day)),
    ]
}

fn usage_rows<S: Alter>(
    tx: &mut Transaction<'_, S>,
    login: &Login,
    day: u32,
) -> Result<Vec<Row>, Error>
    ensures { Reads S.Store tx.old tx.new result (OfLedger (λ t rows.
        IsPermutation (map totals_row (filter (is_usage login.now day) t.usage)) rows.items)) }
{
    tx.query_all(
        "SELECT settled, reserved FROM usage WHERE login = ?1 AND day = ?2",
        &key_params(login, day),
    )
}

/// What the first row shows, where there is one.
fn first_usage(rows: &[Row], login: &Login, day: u32) -> Result<Option<UsageRecord>, Error>
    ensures { IfOk result (IsFirst login.now day rows.now) }
{
    let Some(row) = rows.first() else {
        return Ok(None);
    };
    Ok(Some(UsageRecord {
        login: login.clone()?,
        day,
        settled: row.get(0)?,
        reserved: row.get(1)?,
    }))
}

/// The row of a login and day, where there is one.
pub fn find_usage<S: Alter>(
    tx: &mut Transaction<'_, S>,
    login: &Login,
    day: u32,
) -> Result<Option<UsageRecord>, Error>
    ensures { Reads S.Store tx.old tx.new result (OfLedger (λ t found.
        IsOneOf (is_usage login.now day) t.usage found)) }
{
    let rows = usage_rows(tx, login, day)?;
    first_usage(rows.as_slice(), login, day)
}

fn usage_params(usage: &UsageRecord) -> [ValueRef<'_>; 4]
    ensures { bound result ≡ usage_fields usage.now }
{
    [
        ValueRef::Blob(usage.login.as_slice()),
        ValueRef::Int(i64::from(usage.day)),
        ValueRef::Int(i64::from(usage.settled)),
        ValueRef::Int(i64::from(usage.reserved)),
    ]
}

fn insert_usage<S: Alter>(tx: &mut Transaction<'_, S>, usage: &UsageRecord) -> Result<usize, Error>
    requires inside { IsInside S.Store tx.old }
    ensures { Writes S.Store tx.old tx.new result (WritesUsage (Insert usage.now)) }
{
    tx.execute(
        "INSERT INTO usage (login, day, settled, reserved) VALUES (?1, ?2, ?3, ?4)",
        &usage_params(usage),
    )
}

fn totals_params(usage: &UsageRecord) -> [ValueRef<'_>; 4]
    ensures { bound result ≡ totals_params usage.now }
{
    [
        ValueRef::Int(i64::from(usage.settled)),
        ValueRef::Int(i64::from(usage.reserved)),
        ValueRef::Blob(usage.login.as_slice()),
        ValueRef::Int(i64::from(usage.day)),
    ]
}

fn update_usage<S: Alter>(tx: &mut Transaction<'_, S>, usage: &UsageRecord) -> Result<usize, Error>
    requires inside { IsInside S.Store tx.old }
    ensures { Writes S.Store tx.old tx.new result (WritesUsage (Update usage.now)) }
{
    tx.execute(
        "UPDATE usage SET settled = ?1, reserved = ?2 WHERE login = ?3 AND day = ?4",
        &totals_params(usage),
    )
}

/// Writes what becomes of the table, and answers how many rows it wrote.
pub fn write_usage<S: Alter>(
    tx: &mut Transaction<'_, S>,
    write: &Write<UsageRecord>,
) -> Result<usize, Error>
    requires inside { IsInside S.Store tx.old }
    ensures { Writes S.Store tx.old tx.new result (WritesUsage write.now) }
{
    match write {
        Write::Keep => Ok(0),
        Write::Insert(usage) => insert_usage(tx, usage),
        Write::Update(usage) => update_usage(tx, usage),
    }
}
