//! What a numbered request whose number is new comes to: its reply, and what is written with it.
ghost use Rattle.std.specs.Prelude.{◌≡◌, ℕ, ◌+◌, ◌<◌, ◌≤◌, ◌^◌, true, false, Some, IfOk, IfErr};
ghost use Rattle.mq_rows.specs.declared.plan.FoundRows.{FoundRows as AnyFoundRows};
ghost use Rattle.mq_request.specs.Range.{IsRequest, IsReply};
ghost use Rattle.mq_frame.specs.Spelling.{request_body, reply_body};
ghost use Rattle.mq_ledger.specs.Arrivals.{id_of};
ghost use Rattle.mq_ledger.specs.Day.{day_of};
ghost use Rattle.mq_rows.specs.Rows.{answer_of};
ghost use Rattle.mq_rows.specs.Plan.{moves, moved, fresh, transaction_write};
ghost use Rattle.mq_rows.specs.Plan.{reserved_more, freed, usage_write, limit_write};
ghost use Rattle.mq_rows.specs.Plan.{floor_by, given_up_by, retired_write};
ghost use Rattle.mq_rows.specs.Plan.{held_by, reserved_by, used_by, fits, written, planned};
ghost use Rattle.mq_rows.specs.Plan.{may_be_found};
ghost use Rattle.mq_rows.specs.Storable.{IsStorableIf, IsStorableFloor, IsStorablePlan};

use crate::plan::{FoundRows, Plan, Runs, Write};
use crate::record::{AnswerRecord, LimitRecord, RetiredRecord, TransactionRecord, UsageRecord};
use mq_frame::format::HEAD_BYTES;
use mq_frame::{encode_reply, encode_request};
use mq_ledger::{LedgerFault, Zone};
use mq_request::{Bytes, Id, Login, Reply, Request};
use std::alloc::{AllocError, Global};

/// So many answers are stored at most.
const MOST_ANSWERS: u64 = 4_611_686_018_427_387_904;

/// The row of a transaction before its first request is answered.
fn fresh(
    day: u32,
    id: &Id,
    txn: u32,
    moment: u64,
    login: &Login,
) -> Result<TransactionRecord, AllocError>
    ensures { IfOk result (λ row. row ≡ fresh (λ _. day) id.now txn moment login.now) }
{
    Ok(TransactionRecord {
        host: id.host.clone()?,
        run: id.run,
        txn,
        login: login.clone()?,
        moment,
        day,
        held: 0,
        settled: 0,
        closed: false,
    })
}

fn moves(reply: &Reply) -> bool
    ensures { result ≡ moves reply.now }
{
    matches!(
        reply,
        Reply::Granted { .. } | Reply::Settled { .. } | Reply::Released { .. }
    )
}

/// The row of a transaction after the reply to a request of that count.
fn moved(count: u32, reply: &Reply, mut row: TransactionRecord) -> TransactionRecord
    requires { moves reply.now ≡ true → row.held + count < 2 ^ 32 }
    ensures { result ≡ moved count reply.now row }
{
    match reply {
        Reply::Granted { .. } => row.held += count,
        Reply::Settled { .. } => {
            row.held = 0;
            row.settled = count;
            row.closed = true;
        }
        Reply::Released { .. } => {
            row.held = 0;
            row.closed = true;
        }
        _ => {}
    }
    row
}

/// What becomes of the row of the request's transaction.
fn transaction_write(
    zone: Zone,
    request: &Request,
    reply: &Reply,
    row: Option<TransactionRecord>,
) -> Result<Write<TransactionRecord>, AllocError>
    requires in_range { IsRequest request.now }
    requires room { moves reply.now ≡ true → held_by row ≤ 1000000 }
    ensures { IfOk result (λ write. write ≡ transaction_write
        (day_of zone) request.now reply.now row) }
{
    let (id, txn, moment, login, count) = match request {
        Request::Reserve {
            id,
            txn,
            moment,
            login,
            count,
        }
        | Request::Settle {
            id,
            txn,
            moment,
            login,
            count,
        } => (id, *txn, *moment, login, *count),
        Request::Release {
            id,
            txn,
            moment,
            login,
        } => (id, *txn, *moment, login, 0),
        _ => return Ok(Write::Keep),
    };
    match row {
        None => {
            let row = fresh(zone.day_at(moment), id, txn, moment, login)?;
            Ok(Write::Insert(moved(count, reply, row)))
        }
        Some(row) if moves(reply) => Ok(Write::Update(moved(count, reply, row))),
        Some(_) => Ok(Write::Keep),
    }
}

/// What becomes of a login's row of a day where so many more are reserved.
fn reserved_more(
    login: &Login,
    day: u32,
    count: u32,
    row: Option<UsageRecord>,
) -> Result<Write<UsageRecord>, AllocError>
    requires { reserved_by row + count < 2 ^ 32 }
    ensures { IfOk result (λ write. write ≡ reserved_more login.now day count row) }
{
    match row {
        None => Ok(Write::Insert(UsageRecord {
            login: login.clone()?,
            day,
            settled: 0,
            reserved: count,
        })),
        Some(row) => Ok(Write::Update(UsageRecord {
            reserved: row.reserved + count,
            ..row
        })),
    }
}

/// What becomes of a login's row of a day where a transaction that held so many is closed, with so
/// many settled.
fn freed(count: u32, held: u32, row: Option<UsageRecord>) -> Write<UsageRecord>
    requires held { held ≤ reserved_by row }
    requires room { used_by row + count < 2 ^ 32 }
    ensures { result ≡ freed count held row }
{
    match row {
        Some(row) if held != 0 => Write::Update(UsageRecord {
            settled: row.settled + count,
            reserved: row.reserved - held,
            ..row
        }),
        _ => Write::Keep,
    }
}

/// What becomes of the row of the request's login and day. `held` is what its transaction held.
fn usage_write(
    zone: Zone,
    request: &Request,
    reply: &Reply,
    held: u32,
    row: Option<UsageRecord>,
) -> Result<Write<UsageRecord>, AllocError>
    requires in_range { IsRequest request.now }
    requires used { moves reply.now ≡ true → used_by row ≤ 1000000 }
    requires held { moves reply.now ≡ true → held ≤ reserved_by row }
    ensures { IfOk result (λ write. write ≡ usage_write
        (day_of zone) request.now reply.now held row) }
{
    match (request, reply) {
        (
            Request::Reserve {
                moment,
                login,
                count,
                ..
            },
            Reply::Granted { .. },
        ) => { reserved_more(login, zone.day_at(*moment), *count, row) }
        (Request::Settle { count, .. }, Reply::Settled { .. }) => Ok(freed(*count, held, row)),
        (Request::Release { .. }, Reply::Released { .. }) => Ok(freed(0, held, row)),
        _ => Ok(Write::Keep),
    }
}

/// What becomes of the row of the request's login and day among the limits.
fn limit_write(
    request: &Request,
    reply: &Reply,
    row: Option<LimitRecord>,
) -> Result<Write<LimitRecord>, AllocError>
    ensures { IfOk result (λ write. write ≡ limit_write request.now reply.now row) }
{
    match (request, reply) {
        (
            Request::Limit {
                from_day,
                cap,
                login,
                ..
            },
            Reply::LimitSet { .. },
        ) => match row {
            None => Ok(Write::Insert(LimitRecord {
                login: login.clone()?,
                day: *from_day,
                cap: *cap,
            })),
            Some(row) => Ok(Write::Update(LimitRecord { cap: *cap, ..row })),
        },
        _ => Ok(Write::Keep),
    }
}

/// The floor that was found, and 0 where there is no row.
fn floor(row: &Option<RetiredRecord>) -> u64
    ensures { result ≡ floor_by row.now }
{
    match row {
        None => 0,
        Some(row) => row.run,
    }
}

/// The runs that a retire retires: those of its host from the floor before on, below its own.
fn given_up(request: &Request, row: &Option<RetiredRecord>) -> Result<Option<Runs>, AllocError>
    requires in_range { IsRequest request.now }
    ensures { (f : AnyFoundRows) → f.floor ≡ row.now → IfOk result
        (λ runs. runs ≡ given_up_by request.now f) }
{
    match request {
        Request::Retire { id } => Ok(Some(Runs {
            host: id.host.clone()?,
            from: floor(row),
            to: id.run - 1,
        })),
        _ => Ok(None),
    }
}

/// What becomes of the row of the request's host among the floors.
fn retired_write(
    request: &Request,
    row: Option<RetiredRecord>,
) -> Result<Write<RetiredRecord>, AllocError>
    ensures { IfOk result (λ write. write ≡ retired_write request.now row) }
{
    match (request, row) {
        (Request::Retire { id }, None) => Ok(Write::Insert(RetiredRecord {
            host: id.host.clone()?,
            run: id.run,
        })),
        (Request::Retire { id }, Some(row)) => Ok(Write::Update(RetiredRecord {
            run: id.run,
            ..row
        })),
        _ => Ok(Write::Keep),
    }
}

/// The body of the request's frame.
fn request_body(alloc: Global, request: &Request) -> Result<Bytes, AllocError>
    requires { IsRequest request.now }
    ensures { IfOk result (λ body. body ≡ request_body request.now) }
{
    let mut frame = Vec::new(alloc);
    encode_request(request, &mut frame)?;
    Bytes::from_slice(alloc, &frame[HEAD_BYTES..])
}

/// The body of the reply's frame.
fn reply_body(alloc: Global, reply: &Reply) -> Result<Bytes, AllocError>
    requires { IsReply reply.now }
    ensures { IfOk result (λ body. body ≡ reply_body reply.now) }
{
    let mut frame = Vec::new(alloc);
    encode_reply(reply, &mut frame)?;
    Bytes::from_slice(alloc, &frame[HEAD_BYTES..])
}

/// The row of the n-th answer.
fn new_answer(
    alloc: Global,
    n: u64,
    id: &Id,
    request: &Request,
    reply: &Reply,
) -> Result<AnswerRecord, AllocError>
    requires request { IsRequest request.now }
    requires reply { IsReply reply.now }
    requires number { id_of request.now ≡ Some id.now }
    ensures { IfOk result (λ row. row ≡ answer_of n (record {
      request = request.now;
      reply = reply.now;
    })) }
{
    Ok(AnswerRecord {
        n,
        id: id.clone()?,
        request: request_body(alloc, request)?,
        reply: reply_body(alloc, reply)?,
    })
}

/// What becomes of the rows that were found.
struct RowWrites {
    transaction: Write<TransactionRecord>,
    usage: Write<UsageRecord>,
    limit: Write<LimitRecord>,
    retired: Write<RetiredRecord>,
}

/// What becomes of the rows that were found, which are taken out of `found`.
fn row_writes(
    zone: Zone,
    request: &Request,
    reply: &Reply,
    found: &mut FoundRows,
) -> Result<RowWrites, AllocError>
    requires in_range { IsRequest request.now }
    requires fits { moves reply.now ≡ true → fits found.old.transaction found.old.usage ≡ true }
    ensures transaction { IfOk result (λ writes. writes.transaction
        ≡ transaction_write (day_of zone) request.now reply.now found.old.transaction) }
    ensures usage { IfOk result (λ writes. writes.usage
        ≡ usage_write (day_of zone) request.now reply.now
        (held_by found.old.transaction) found.old.usage) }
    ensures limit { IfOk result (λ writes. writes.limit
        ≡ limit_write request.now reply.now found.old.limit) }
    ensures retired { IfOk result (λ writes. writes.retired
        ≡ retired_write request.now found.old.floor) }
{
    let held = found.held();
    let limit = limit_write(request, reply, found.limit.take())?;
    let usage = usage_write(zone, request, reply, held, found.usage.take())?;
    let transaction = transaction_write(zone, request, reply, found.transaction.take())?;
    let retired = retired_write(request, found.floor.take())?;
    Ok(RowWrites {
        transaction,
        usage,
        limit,
        retired,
    })
}

/// The reply and the row of its answer, with all else that is written.
fn plan(
    zone: Zone,
    request: &Request,
    reply: Reply,
    answer: AnswerRecord,
    found: &mut FoundRows,
) -> Result<Plan, AllocError>
    requires in_range { IsRequest request.now }
    requires fits { moves reply ≡ true → fits found.old.transaction found.old.usage ≡ true }
    ensures { (arrivals : ℕ) → answer ≡ answer_of (arrivals + 1) (record {
      request = request.now;
      reply = reply;
    }) → IfOk result (λ plan. plan ≡ written (day_of zone) arrivals request.now found.old
        reply) }
{
    let given_up = given_up(request, &found.floor)?;
    let RowWrites {
        transaction,
        usage,
        limit,
        retired,
    } = row_writes(zone, request, &reply, found)?;
    Ok(Plan {
        reply,
        // (answers are numbered from 1 on)
        arrivals: answer.n,
        answer,
        given_up,
        transaction,
        usage,
        limit,
        retired,
    })
}

/// The reply to a numbered request, and what is written with it, where no row has its number.
///
/// `arrivals` is how many were answered, and `found` what the tables have about the request. The
/// fault is `Memory`, or `Store` where the tables are the rows of no legal history, or where
/// 4,611,686,018,427,387,904 answers are stored.
pub fn decide(
    alloc: Global,
    zone: Zone,
    default: u32,
    arrivals: u64,
    id: &Id,
    request: &Request,
    mut found: FoundRows,
) -> Result<Plan, LedgerFault>
    requires in_range { IsRequest request.now }
    requires number { id_of request.now ≡ Some id.now }
    ensures plan { IfOk result (λ plan. plan ≡ planned (day_of zone) default arrivals request.now
        found) }
    ensures in_range { IfOk result (λ plan. IsReply plan.reply) }
    ensures room { IfOk result (λ _. arrivals < 4611686018427387904) }
    ensures storable { IfOk result (λ plan. IsStorableIf found.transaction
        → IsStorableFloor found.floor
        → IsStorablePlan plan) }
    ensures store { IfErr result (λ fault. fault ≡ LedgerFault.Store
        → arrivals < 4611686018427387904 → may_be_found default request.now found ≡ false) }
{
    if MOST_ANSWERS <= arrivals {
        return Err(LedgerFault::Store);
    }
    let reply = found.outcome(default, request)?.to_reply(id)?;
    let answer = new_answer(alloc, arrivals + 1, id, request, &reply)?;
    Ok(plan(zone, request, reply, answer, &mut found)?)
}
