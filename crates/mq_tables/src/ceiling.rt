//! The table `ceiling`, which keeps the limits that were set.

ghost use Rattle.std.specs.List.Sorted.{IsPermutation};
ghost use Rattle.std.specs.Prelude.{◌≡◌, map, filter, IfOk};
ghost use Rattle.sqlite.specs.Values.{bound};
ghost use Rattle.mq_rows.specs.declared.plan.Write.TheVariants.{Insert, Update};
ghost use Rattle.mq_rows.specs.Found.{IsGoverning};
ghost use Rattle.mq_rows.specs.Rows.{is_limit};
ghost use Rattle.mq_tables.specs.Governing.{limit_row, IsGoverningShown, IsFirstLimit};
ghost use Rattle.mq_tables.specs.Inside.{IsInside, Reads, Becomes, StaysInside, Writes, OfLedger};
ghost use Rattle.mq_tables.specs.Inside.{CommitsNothing};
ghost use Rattle.mq_tables.specs.Lent.{cap_params};
ghost use Rattle.mq_tables.specs.Records.{limit_fields, IsOneOf};
ghost use Rattle.mq_tables.specs.Updates.{WritesLimit};

use crate::usage::key_params;
use mq_request::Login;
use mq_rows::{LimitRecord, Write};
use sqlite::types::ValueRef;
use sqlite::{Alter, Error, Row, Transaction};

fn limit_params(limit: &LimitRecord) -> [ValueRef<'_>; 3]
    ensures { bound result ≡ limit_fields limit.now }
{
    [
        ValueRef::Blob(limit.login.as_slice()),
        ValueRef::Int(i64::from(limit.day)),
        ValueRef::Int(i64::from(limit.cap)),
    ]
}

fn cap_params(limit: &LimitRecord) -> [ValueRef<'_>; 3]
    ensures { bound result ≡ cap_params limit.now }
{
    [
        ValueRef::Int(i64::from(limit.cap)),
        ValueRef::Blob(limit.login.as_slice()),
        ValueRef::Int(i64::from(limit.day)),
    ]
}

fn insert_limit<S: Alter>(tx: &mut Transaction<'_, S>, limit: &LimitRecord) -> Result<usize, Error>
    requires inside { IsInside S.Store tx.old }
    ensures { Writes S.Store tx.old tx.new result (WritesLimit (Insert limit.now)) }
{
    tx.execute(
        "INSERT INTO ceiling (login, day, cap) VALUES (?1, ?2, ?3)",
        &limit_params(limit),
    )
}

fn update_limit<S: Alter>(tx: &mut Transaction<'_, S>, limit: &LimitRecord) -> Result<usize, Error>
    requires inside { IsInside S.Store tx.old }
    ensures { Writes S.Store tx.old tx.new result (WritesLimit (Update limit.now)) }
{
    tx.execute(
        "UPDATE ceiling SET cap = ?1 WHERE login = ?2 AND day = ?3",
        &cap_params(limit),
    )
}

/// Writes what becomes of the table, and answers how many rows it wrote.
pub fn write_limit<S: Alter>(
    tx: &mut Transaction<'_, S>,
    write: &Write<LimitRecord>,
) -> Result<usize, Error>
    requires inside { IsInside S.Store tx.old }
    ensures { Writes S.Store tx.old tx.new result (WritesLimit write.now) }
{
    match write {
        Write::Keep => Ok(0),
        Write::Insert(limit) => insert_limit(tx, limit),
        Write::Update(limit) => update_limit(tx, limit),
    }
}

fn limit_rows<S: Alter>(
    tx: &mut Transaction<'_, S>,
    login: &Login,
    day: u32,
) -> Result<Vec<Row>, Error>
    ensures { Reads S.Store tx.old tx.new result (OfLedger (λ t rows.
        IsPermutation (map limit_row (filter (is_limit login.now day) t.limits)) rows.items)) }
{
    tx.query_all(
        "SELECT day, cap FROM ceiling WHERE login = ?1 AND day = ?2",
        &key_params(login, day),
    )
}

fn latest_rows<S: Alter>(
    tx: &mut Transaction<'_, S>,
    login: &Login,
    day: u32,
) -> Result<Vec<Row>, Error>
    ensures { Reads S.Store tx.old tx.new result (OfLedger (λ t rows.
        IsGoverningShown login.now day t.limits rows.items)) }
{
    tx.query_all(
        "SELECT day, cap FROM ceiling WHERE login = ?1 AND day <= ?2 ORDER BY day DESC LIMIT 1",
        &key_params(login, day),
    )
}

/// What the first row shows, where there is one.
fn first_limit(rows: &[Row], login: &Login) -> Result<Option<LimitRecord>, Error>
    ensures { IfOk result (IsFirstLimit login.now rows.now) }
{
    let Some(row) = rows.first() else {
        return Ok(None);
    };
    Ok(Some(LimitRecord {
        login: login.clone()?,
        day: row.get(0)?,
        cap: row.get(1)?,
    }))
}

/// The limit of a login from that very day on, where there is one.
pub fn find_limit<S: Alter>(
    tx: &mut Transaction<'_, S>,
    login: &Login,
    day: u32,
) -> Result<Option<LimitRecord>, Error>
    ensures { Reads S.Store tx.old tx.new result (OfLedger (λ t found.
        IsOneOf (is_limit login.now day) t.limits found)) }
{
    let rows = limit_rows(tx, login, day)?;
    first_limit(rows.as_slice(), login)
}

/// The limit that governs a login's day: of those from no later day the latest. `None` where there
/// is none.
pub fn find_governing<S: Alter>(
    tx: &mut Transaction<'_, S>,
    login: &Login,
    day: u32,
) -> Result<Option<LimitRecord>, Error>
    ensures { Reads S.Store tx.old tx.new result (OfLedger (λ t found.
        IsGoverning login.now day t.limits found)) }
{
    let rows = latest_rows(tx, login, day)?;
    first_limit(rows.as_slice(), login)
}
