//! The table `answer`, which keeps each numbered request with its reply, in the order of arrival.

ghost use Rattle.std.specs.List.Sorted.{IsPermutation};
ghost use Rattle.std.specs.Prelude.{◌≡◌, ◌<◌, ◌^◌, map, filter, IfOk};
ghost use Rattle.sqlite.specs.Values.{bound};
ghost use Rattle.mq_request.specs.Same.{same_id};
ghost use Rattle.mq_tables.specs.Inside.{IsInside, Reads, Becomes, StaysInside, OfLedger};
ghost use Rattle.mq_tables.specs.Inside.{CommitsNothing};
ghost use Rattle.mq_tables.specs.Lent.{answer_params, bodies_row, id_key, IsFirstAnswer};
ghost use Rattle.mq_tables.specs.Records.{IsOneOf};
ghost use Rattle.mq_tables.specs.Updates.{Appends};

use mq_request::{Bytes, Id};
use mq_rows::AnswerRecord;
use sqlite::types::ValueRef;
use sqlite::{Alter, Error, Row, Transaction};

/// Writes a row after those that are there. Its place and its run are below 2 to the 63rd.
pub fn append_answer<S: Alter>(
    tx: &mut Transaction<'_, S>,
    answer: &AnswerRecord,
) -> Result<usize, Error>
    requires in_range { (answer.now.n < 2 ^ 63) × (answer.now.id.run < 2 ^ 63) }
    requires inside { IsInside S.Store tx.old }
    ensures inside { StaysInside S.Store tx.old tx.new result }
    ensures appended { Becomes S.Store tx.old tx.new result (Appends answer.now) }
    ensures leaves { CommitsNothing S.Store tx.old tx.new }
{
    tx.execute(
        "INSERT INTO answer (n, host, run, seq, request, reply) VALUES (?1, ?2, ?3, ?4, ?5, ?6)",
        &answer_params(answer),
    )
}

fn answer_params(answer: &AnswerRecord) -> [ValueRef<'_>; 6]
    requires in_range { (answer.now.n < 2 ^ 63) × (answer.now.id.run < 2 ^ 63) }
    ensures { bound result ≡ answer_params answer.now }
{
    [
        ValueRef::Int(answer.n as i64),
        ValueRef::Blob(answer.id.host.as_slice()),
        ValueRef::Int(answer.id.run as i64),
        ValueRef::Int(i64::from(answer.id.number)),
        ValueRef::Blob(answer.request.as_slice()),
        ValueRef::Blob(answer.reply.as_slice()),
    ]
}

fn id_params(id: &Id) -> [ValueRef<'_>; 3]
    requires { id.now.run < 2 ^ 63 }
    ensures { bound result ≡ id_key id.now }
{
    [
        ValueRef::Blob(id.host.as_slice()),
        ValueRef::Int(id.run as i64),
        ValueRef::Int(i64::from(id.number)),
    ]
}

fn rows_of_number<S: Alter>(tx: &mut Transaction<'_, S>, id: &Id) -> Result<Vec<Row>, Error>
    requires { id.now.run < 2 ^ 63 }
    ensures { Reads S.Store tx.old tx.new result (OfLedger (λ t rows.
        IsPermutation (map bodies_row (filter (λ a. same_id id.now a.id) t.answers)) rows.items)) }
{
    tx.query_all(
        "SELECT n, request, reply FROM answer WHERE host = ?1 AND run = ?2 AND seq = ?3",
        &id_params(id),
    )
}

/// What the first row shows, where there is one.
fn first_answer(rows: &[Row], id: &Id) -> Result<Option<AnswerRecord>, Error>
    ensures { IfOk result (IsFirstAnswer id.now rows.now) }
{
    let Some(row) = rows.first() else {
        return Ok(None);
    };
    Ok(Some(AnswerRecord {
        n: row.get(0)?,
        id: id.clone()?,
        request: Bytes::new(row.get(1)?),
        reply: Bytes::new(row.get(2)?),
    }))
}

/// The row of a number, where there is one. Its run is below 2 to the 63rd.
pub fn find_answer<S: Alter>(
    tx: &mut Transaction<'_, S>,
    id: &Id,
) -> Result<Option<AnswerRecord>, Error>
    requires { id.now.run < 2 ^ 63 }
    ensures { Reads S.Store tx.old tx.new result (OfLedger (λ t found.
        IsOneOf (λ a. same_id id.now a.id) t.answers found)) }
{
    let rows = rows_of_number(tx, id)?;
    first_answer(rows.as_slice(), id)
}
