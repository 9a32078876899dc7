//! The table `usage`, from row to row of a day.

ghost use Rattle.std.specs.Prelude.{◌≡◌, IfOk};
ghost use Rattle.sqlite.specs.Values.{bound};
ghost use Rattle.mq_rows.specs.Listing.{IsNext};
ghost use Rattle.mq_tables.specs.Inside.{Reads, OfLedger};
ghost use Rattle.mq_tables.specs.Paging.{just_above, from_params, IsNextShown, IsFirstOfDay};

use mq_request::Login;
use mq_rows::UsageRecord;
use sqlite::types::ValueRef;
use sqlite::{Alter, Error, Row, Transaction};
use std::alloc::AllocError;

/// The least text above that one in byte order: no login lies between the two.
fn just_above(after: &Login) -> Result<Vec<u8>, AllocError>
    ensures { IfOk result (λ from. from.items ≡ just_above after.now) }
{
    let mut from = after.clone()?.into_bytes();
    from.push(0)?;
    Ok(from)
}

fn from_params(day: u32, from: &[u8]) -> [ValueRef<'_>; 2]
    ensures { bound result ≡ from_params day from.now }
{
    [ValueRef::Int(i64::from(day)), ValueRef::Blob(from)]
}

fn next_rows<S: Alter>(
    tx: &mut Transaction<'_, S>,
    day: u32,
    after: &Login,
) -> Result<Vec<Row>, Error>
    ensures { Reads S.Store tx.old tx.new result (OfLedger
        (λ t rows. IsNextShown day after.now t.usage rows.items)) }
{
    let from = just_above(after)?;
    tx.query_all(
        "SELECT login, settled, reserved FROM usage WHERE day = ?1 AND login >= ?2 ORDER BY login LIMIT 1",
        &from_params(day, from.as_slice()),
    )
}

/// What the first row shows, where there is one.
fn first_of_day(rows: &[Row], day: u32) -> Result<Option<UsageRecord>, Error>
    ensures { IfOk result (IsFirstOfDay day rows.now) }
{
    let Some(row) = rows.first() else {
        return Ok(None);
    };
    Ok(Some(UsageRecord {
        login: Login::new(row.get(0)?),
        day,
        settled: row.get(1)?,
        reserved: row.get(2)?,
    }))
}

/// Of the rows of a day whose login is above `after` in byte order, the one of the least login;
/// `None` where there is none. `after` may be empty.
///
/// With the index it reads no more than a tree's depth; without it, each row from `after` on up to
/// that one.
pub fn next_usage<S: Alter>(
    tx: &mut Transaction<'_, S>,
    day: u32,
    after: &Login,
) -> Result<Option<UsageRecord>, Error>
    ensures { Reads S.Store tx.old tx.new result (OfLedger
        (λ t found. IsNext day after.now t.usage found)) }
{
    let rows = next_rows(tx, day, after)?;
    first_of_day(rows.as_slice(), day)
}
