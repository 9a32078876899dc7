//! The answers one by one, by their places in the order of arrival.

ghost use Rattle.std.specs.List.Sorted.{IsPermutation};
ghost use Rattle.std.specs.Prelude.{◌≡◌, ◌<◌, ◌^◌, ◌==◌, pos, [], ◌∷◌, map, filter, IfOk};
ghost use Rattle.sqlite.specs.Values.{bound};
ghost use Rattle.sqlite.specs.declared.types.Value.TheVariants.{Int};
ghost use Rattle.mq_tables.specs.Inside.{Reads, OfLedger};
ghost use Rattle.mq_tables.specs.Lent.{bodies_row};
ghost use Rattle.mq_tables.specs.Entries.{IsFirstBodies, IsAnswerAt};

use mq_request::Bytes;
use sqlite::types::ValueRef;
use sqlite::{Alter, Error, Row, Transaction};

/// The bodies of a request and of its reply, which is empty where its run was given up.
#[derive(Drop)]
pub struct Bodies {
    pub request: Bytes,
    pub reply: Bytes,
}

fn place_params(n: u64) -> [ValueRef<'static>; 1]
    requires { n < 2 ^ 63 }
    ensures { bound result ≡ Int (pos n) ∷ [] }
{
    [ValueRef::Int(n as i64)]
}

fn rows_at<S: Alter>(tx: &mut Transaction<'_, S>, n: u64) -> Result<Vec<Row>, Error>
    requires { n < 2 ^ 63 }
    ensures { Reads S.Store tx.old tx.new result (OfLedger (λ t rows.
        IsPermutation (map bodies_row (filter (λ a. n == a.n) t.answers)) rows.items)) }
{
    tx.query_all(
        "SELECT n, request, reply FROM answer WHERE n = ?1",
        &place_params(n),
    )
}

/// What the first row shows, where there is one.
fn first_bodies(rows: &[Row]) -> Result<Option<Bodies>, Error>
    ensures { IfOk result (IsFirstBodies rows.now) }
{
    let Some(row) = rows.first() else {
        return Ok(None);
    };
    Ok(Some(Bodies {
        request: Bytes::new(row.get(1)?),
        reply: Bytes::new(row.get(2)?),
    }))
}

/// The bodies of the n-th answer, where there is one: n counts from 1 to below 2 to the 63rd. An
/// error is the store's, or that of a row whose bodies aren't bytes.
pub fn read_answer<S: Alter>(tx: &mut Transaction<'_, S>, n: u64) -> Result<Option<Bodies>, Error>
    requires { n < 2 ^ 63 }
    ensures { Reads S.Store tx.old tx.new result (OfLedger
        (λ t found. IsAnswerAt n t.answers found)) }
{
    let rows = rows_at(tx, n)?;
    first_bodies(rows.as_slice())
}
