//! One request inside a transaction of the store: `take`, at the end, which each function before it
//! is a part of.

ghost use Rattle.std.specs.Prelude.{◌≡◌, ℕ, List, Some, IfOk, IfSome};
ghost use Rattle.mq_request.specs.Range.{IsRequest, IsReply};
ghost use Rattle.mq_ledger.specs.declared.entry.Entry.{Entry as AnyEntry};
ghost use Rattle.mq_ledger.specs.Arrivals.{id_of, is_below};
ghost use Rattle.mq_ledger.specs.History.{requests};
ghost use Rattle.mq_rows.specs.Storable.{IsStorablePlan};
ghost use Rattle.mq_tables.specs.Inside.{IsInside, CommitsNothing, Finds, StaysInside};
ghost use Rattle.mq_store.specs.Inside.{Answers, ChangesNothing, Stops};
ghost use Rattle.mq_store.specs.Causes.{StopsOver, StopsNew};
ghost use Rattle.mq_store.specs.Taking.{HasBook, book_of, IsKnown, IsPlanned, AppliesNew, IsTaken};
ghost use Rattle.mq_store.specs.Taking.{reply_in};

use crate::fault::Refusal;
use crate::laws::{
    arrivals_are_applied, floors_are_known, new_numbers_are_planned, numbers_are_known,
};
use crate::listing::{reply_to_list, reply_to_usage};
use crate::write::write_plan;
use mq_ledger::Zone;
use mq_request::{Id, Reply, Request};
use mq_rows::{Plan, decide, stored_reply};
use mq_tables::answer::find_answer;
use mq_tables::find::find;
use mq_tables::floor::find_floor;
use mq_tables::setting::read_arrivals;
use sqlite::{Alter, Error, Transaction};
use std::alloc::Global;

/// How a request was taken.
pub(crate) enum TakenRequest {
    /// Its reply was known or could be read: nothing is written.
    Read(Reply),
    /// Its number is new: it is written with its reply.
    Written(Reply),
}

/// Whether the run of that number is below the floor of its host.
#[tactic(auto, using(crate::proofs::Chain::calls))]
fn is_retired<S: Alter>(tx: &mut Transaction<'_, S>, id: &Id) -> Result<bool, Error>
    ensures stays { ChangesNothing S.Store tx.old tx.new result }
    ensures below { Finds S.Store tx.old tx.new result (λ db retired. (zone : Zone) (default : ℕ)
        (H : List AnyEntry)
        → HasBook (book_of zone default H) db → retired ≡ is_below (requests H) id.now) }
    ensures leaves { CommitsNothing S.Store tx.old tx.new }
{
    floors_are_known();
    match find_floor(tx, &id.host)? {
        Some(floor) => Ok(id.run < floor.run),
        None => Ok(false),
    }
}

/// The reply to a request whose number is known, if it is: `Old` where its run is below the floor,
/// and else what its row keeps.
#[tactic(auto, using(crate::proofs::Chain::calls))]
fn known_reply<S: Alter>(
    alloc: Global,
    tx: &mut Transaction<'_, S>,
    id: &Id,
    request: &Request,
) -> Result<Option<Reply>, Refusal>
    requires in_range { IsRequest request.now }
    requires number { id_of request.now ≡ Some id.now }
    ensures stays { ChangesNothing S.Store tx.old tx.new result }
    ensures known { Finds S.Store tx.old tx.new result (λ db known. (zone : Zone) (default : ℕ)
        (H : List AnyEntry)
        → HasBook (book_of zone default H) db → IsKnown zone default H request.now id.now known) }
    ensures in_range { IfOk result (λ known. IfSome known IsReply) }
    ensures leaves { CommitsNothing S.Store tx.old tx.new }
    ensures cause { Stops S.Store tx.old tx.new result (λ db refused. (zone : Zone) (default : ℕ)
        → StopsOver zone default db refused) }
{
    numbers_are_known();
    let retired = is_retired(tx, id)?;
    if retired {
        return Ok(Some(Reply::Old { id: id.clone()? }));
    }
    match find_answer(tx, id)? {
        Some(row) => Ok(Some(stored_reply(alloc, &row, id, request)?)),
        None => Ok(None),
    }
}

/// What a request whose number is new comes to.
#[tactic(auto, using(crate::proofs::Chain::calls))]
fn plan<S: Alter>(
    alloc: Global,
    tx: &mut Transaction<'_, S>,
    zone: Zone,
    default: u32,
    id: &Id,
    request: &Request,
) -> Result<Plan, Refusal>
    requires in_range { IsRequest request.now }
    requires number { id_of request.now ≡ Some id.now }
    ensures stays { ChangesNothing S.Store tx.old tx.new result }
    ensures planned { Finds S.Store tx.old tx.new result
        (IsPlanned zone default request.now id.now) }
    ensures storable { IfOk result IsStorablePlan }
    ensures in_range { IfOk result (λ plan. IsReply plan.reply) }
    ensures leaves { CommitsNothing S.Store tx.old tx.new }
    ensures cause { Stops S.Store tx.old tx.new result (StopsNew zone default id.now) }
{
    new_numbers_are_planned();
    let arrivals = read_arrivals(tx)?;
    let found = find(tx, zone, request)?;
    Ok(decide(alloc, zone, default, arrivals, id, request, found)?)
}

/// The reply to a request whose number is new, which is written with it.
#[tactic(auto, using(crate::proofs::Chain::calls))]
fn take_new<S: Alter>(
    alloc: Global,
    tx: &mut Transaction<'_, S>,
    zone: Zone,
    default: u32,
    id: &Id,
    request: &Request,
) -> Result<Reply, Refusal>
    requires in_range { IsRequest request.now }
    requires number { id_of request.now ≡ Some id.now }
    requires inside { IsInside S.Store tx.old }
    ensures inside { StaysInside S.Store tx.old tx.new result }
    ensures applied { Answers S.Store tx.old tx.new result
        (AppliesNew zone default request.now id.now) }
    ensures in_range { IfOk result IsReply }
    ensures leaves { CommitsNothing S.Store tx.old tx.new }
    ensures cause { Stops S.Store tx.old tx.new result (StopsNew zone default id.now) }
{
    // (its clause `new`: rows of the history with the request are those of a legal book)
    arrivals_are_applied();
    let plan = plan(alloc, tx, zone, default, id, request)?;
    write_plan(alloc, tx, &plan)?;
    Ok(plan.reply)
}

/// Takes a numbered request.
#[tactic(auto, using(crate::proofs::Chain::calls))]
fn take_numbered<S: Alter>(
    alloc: Global,
    tx: &mut Transaction<'_, S>,
    zone: Zone,
    default: u32,
    id: &Id,
    request: &Request,
) -> Result<TakenRequest, Refusal>
    requires in_range { IsRequest request.now }
    requires number { id_of request.now ≡ Some id.now }
    requires inside { IsInside S.Store tx.old }
    ensures inside { StaysInside S.Store tx.old tx.new result }
    ensures taken { Answers S.Store tx.old tx.new result
        (λ taken before after. IsTaken zone default request.now before after taken) }
    ensures in_range { IfOk result (λ taken. IsReply (reply_in taken)) }
    ensures leaves { CommitsNothing S.Store tx.old tx.new }
    ensures cause { Stops S.Store tx.old tx.new result (StopsOver zone default) }
{
    // (its clause `known`: a request whose number is known adds nothing)
    arrivals_are_applied();
    match known_reply(alloc, tx, id, request)? {
        Some(known) => Ok(TakenRequest::Read(known)),
        None => {
            let new = take_new(alloc, tx, zone, default, id, request)?;
            Ok(TakenRequest::Written(new))
        }
    }
}

/// Takes a request.
pub(crate) fn take<S: Alter>(
    alloc: Global,
    tx: &mut Transaction<'_, S>,
    zone: Zone,
    default: u32,
    request: &Request,
) -> Result<TakenRequest, Refusal>
    requires in_range { IsRequest request.now }
    requires inside { IsInside S.Store tx.old }
    ensures inside { StaysInside S.Store tx.old tx.new result }
    ensures taken { Answers S.Store tx.old tx.new result
        (λ taken before after. IsTaken zone default request.now before after taken) }
    ensures in_range { IfOk result (λ taken. IsReply (reply_in taken)) }
    ensures leaves { CommitsNothing S.Store tx.old tx.new }
    ensures cause { Stops S.Store tx.old tx.new result (StopsOver zone default) }
{
    // (its clause `unnumbered`: a request without a number adds nothing)
    arrivals_are_applied();
    match request {
        Request::Reserve { id, .. }
        | Request::Settle { id, .. }
        | Request::Release { id, .. }
        | Request::Limit { id, .. }
        | Request::Retire { id } => take_numbered(alloc, tx, zone, default, id, request),
        Request::Usage { login, day } => {
            let reply = reply_to_usage(tx, default, login, *day)?;
            Ok(TakenRequest::Read(reply))
        }
        Request::List { day, after } => {
            let reply = reply_to_list(alloc, tx, default, *day, after)?;
            Ok(TakenRequest::Read(reply))
        }
    }
}
