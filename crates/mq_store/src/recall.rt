//! What an old store shows of its answers, one by one, and which of them a new store takes over.

ghost use Rattle.std.specs.Prelude.{◌≡◌, ◌<◌, ◌+◌, ◌^◌, List, IfOk};
ghost use Rattle.mq_request.specs.Range.{IsRequest, IsId, IsMoment};
ghost use Rattle.mq_frame.specs.Spelling.{SpellsRequest};
ghost use Rattle.mq_ledger.specs.History.{transaction};
ghost use Rattle.mq_forget.specs.Remembered.{is_set};
ghost use Rattle.mq_tables.specs.Inside.{CommitsNothing, Finds};
ghost use Rattle.mq_store.specs.Inside.{ChangesNothing};
ghost use Rattle.mq_store.specs.Carrying.{Names, SpellsWhereKnown, IsAnsweredAt, TellsStaying};

use crate::fault::{Refusal, StoreCause};
use crate::laws::{answers_are_entries, transactions_have_days};
use mq_frame::{DecodeFault, decode_reply, decode_request};
use mq_ledger::Zone;
use mq_request::{Bytes, Id, Reply, Request};
use mq_tables::entry::read_answer;
use mq_tables::transaction::find_transaction;
use sqlite::{Alter, Transaction};
use std::alloc::Global;

/// An answer as its row shows it: without its reply where its run was given up.
#[derive(Drop)]
pub(crate) struct RecalledAnswer {
    pub request: Request,
    pub reply: Option<Reply>,
}

/// A body that spells nothing is no ledger's.
fn refused(fault: DecodeFault) -> Refusal {
    match fault {
        DecodeFault::Bad => Refusal::Store(StoreCause::Content),
        DecodeFault::Memory => Refusal::Memory,
    }
}

/// The request that the body spells.
fn request_in(alloc: Global, body: &Bytes) -> Result<Request, Refusal>
    ensures { IfOk result (λ request. SpellsRequest body.now request) }
{
    match decode_request(alloc, body.as_slice()) {
        Ok(request) => Ok(request),
        Err(fault) => Err(refused(fault)),
    }
}

/// The reply that the body spells, or none where it is empty.
fn reply_in(alloc: Global, body: &Bytes) -> Result<Option<Reply>, Refusal>
    ensures { IfOk result (SpellsWhereKnown body.now) }
{
    let bytes = body.as_slice();
    if bytes.is_empty() {
        return Ok(None);
    }
    match decode_reply(alloc, bytes) {
        Ok(reply) => Ok(Some(reply)),
        Err(fault) => Err(refused(fault)),
    }
}

/// The answer at a place, counted from 0.
#[tactic(auto, using(crate::proofs::Chain::calls))]
pub(crate) fn answered_at<S: Alter>(
    alloc: Global,
    tx: &mut Transaction<'_, S>,
    place: u64,
) -> Result<RecalledAnswer, Refusal>
    requires { place + 1 < 2 ^ 63 }
    ensures stays { ChangesNothing S.Store tx.old tx.new result }
    ensures read { Finds S.Store tx.old tx.new result (IsAnsweredAt place) }
    ensures in_range { IfOk result (λ answered. IsRequest answered.request) }
    ensures leaves { CommitsNothing S.Store tx.old tx.new }
{
    answers_are_entries();
    let Some(bodies) = read_answer(tx, place + 1)? else {
        return Err(Refusal::Store(StoreCause::Content));
    };
    let request = request_in(alloc, &bodies.request)?;
    let reply = reply_in(alloc, &bodies.reply)?;
    Ok(RecalledAnswer { request, reply })
}

/// The day of the transaction, or of the moment where it has no row.
#[tactic(auto, using(crate::proofs::Chain::calls))]
fn day_named<S: Alter>(
    tx: &mut Transaction<'_, S>,
    zone: Zone,
    id: &Id,
    txn: u32,
    moment: u64,
) -> Result<u32, Refusal>
    requires id { IsId id.now }
    requires moment { IsMoment moment }
    ensures stays { ChangesNothing S.Store tx.old tx.new result }
    ensures named { Finds S.Store tx.old tx.new result (Names zone
        (transaction id.now txn) moment) }
    ensures leaves { CommitsNothing S.Store tx.old tx.new }
{
    transactions_have_days();
    match find_transaction(tx, &id.host, id.run, txn)? {
        Some(row) => Ok(row.day),
        None => Ok(zone.day_at(moment)),
    }
}

/// Whether it is a limit that was set.
pub(crate) fn is_set(request: &Request, reply: &Reply) -> bool
    ensures { result ≡ is_set request.now reply.now }
{
    match (request, reply) {
        (Request::Limit { .. }, Reply::LimitSet { .. }) => true,
        _ => false,
    }
}

/// Whether the answer stays. Of a limit from an earlier day that its reply alone could tell: `None`
/// where it has none.
pub(crate) fn stays<S: Alter>(
    tx: &mut Transaction<'_, S>,
    zone: Zone,
    day: u32,
    answered: &RecalledAnswer,
) -> Result<Option<bool>, Refusal>
    requires { IsRequest answered.now.request }
    ensures stays { ChangesNothing S.Store tx.old tx.new result }
    ensures told { Finds S.Store tx.old tx.new result (TellsStaying zone day answered.now) }
    ensures leaves { CommitsNothing S.Store tx.old tx.new }
{
    let request = &answered.request;
    match request {
        Request::Reserve {
            id,
            txn,
            moment,
            ..
        }
        | Request::Settle {
            id,
            txn,
            moment,
            ..
        }
        | Request::Release {
            id,
            txn,
            moment,
            ..
        } => {
            let named = day_named(tx, zone, id, *txn, *moment)?;
            Ok(Some(day <= named))
        }
        Request::Limit { from_day, .. } => {
            if day <= *from_day {
                return Ok(Some(true));
            }
            match &answered.reply {
                Some(reply) => Ok(Some(is_set(request, reply))),
                None => Ok(None),
            }
        }
        Request::Usage { day: asked, .. } | Request::List { day: asked, .. } => Ok(Some(
            day <= *asked,
        )),
        Request::Retire { .. } => Ok(Some(true)),
    }
}
