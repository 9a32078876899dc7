//! What is remembered of an old store, put into a new one step by step, inside a transaction of
//! each.
//!
//! A step looks at one answer of the old store, and the new one takes its request where the answer
//! stays. A limit from an earlier day stays where it was set. Its row says so by the reply, which a
//! retire clears where it gives the run up. Such a reply is found again by a scratch ledger in
//! memory, which applies the requests of the old store up to that one, in their order, one a step.
//! It goes on from where it was, so that it applies each at most once, and none where no such reply
//! is wanted.

ghost use Rattle.std.specs.Prelude.{◌<◌, ◌+◌, ◌^◌, None, IsTrue, IfOk, OnOk};
ghost use Rattle.sqlite.specs.Held.{state};
ghost use Rattle.sqlite.specs.State.{HasCleanDisk};
ghost use Rattle.sqlite.specs.Steps.{over_memory};
ghost use Rattle.mq_request.specs.Range.{IsRequest};
ghost use Rattle.mq_tables.specs.Inside.{IsInside, CommitsNothing, Finds, Turns, StaysInside};
ghost use Rattle.mq_store.specs.Inside.{Answers, ChangesNothing};
ghost use Rattle.mq_store.specs.Carrying.{IsJudgedAt, Follows, SetsAgain, CarriesOne};
ghost use Rattle.mq_store.specs.Renewing.{GoesAtMost, Renews, RenewsBy};
ghost use Rattle.mq_store.specs.Taking.{Applies};

use crate::fault::Refusal;
use crate::laws::{entries_are_carried, entries_are_followed};
use crate::recall::{answered_at, is_set, stays};
use crate::renewal_place::RenewalPlace;
use crate::take::{TakenRequest, take};
use mq_ledger::Zone;
use mq_request::{Reply, Request};
use sqlite::{Alter, MemStore, Transaction};
use std::alloc::Global;

/// The zone and the default of both ledgers, and the first day that is remembered.
#[derive(Drop)]
pub(crate) struct Terms {
    pub zone: Zone,
    /// The limit of a login that has none for a day: recipients, 0 to 1,000,000.
    pub default: u32,
    /// A day number since 1970-01-01.
    pub day: u32,
}

/// The request of an answer, and whether it stays. `None`: only its reply could tell, and that was
/// cleared.
#[derive(Drop)]
pub(crate) struct JudgedAnswer {
    pub request: Request,
    pub is_staying: Option<bool>,
}

/// What the rows tell of the answer at a place.
#[tactic(auto, using(crate::proofs::Chain::calls))]
fn judge<S: Alter>(
    alloc: Global,
    from: &mut Transaction<'_, S>,
    terms: &Terms,
    place: u64,
) -> Result<JudgedAnswer, Refusal>
    requires { place + 1 < 2 ^ 63 }
    ensures stays { ChangesNothing S.Store from.old from.new result }
    ensures judged { Finds S.Store from.old from.new result
        (IsJudgedAt terms.now.zone terms.now.day place) }
    ensures in_range { IfOk result (λ judged. IsRequest judged.request) }
    ensures leaves { CommitsNothing S.Store from.old from.new }
{
    let answered = answered_at(alloc, from, place)?;
    let is_staying = stays(from, terms.zone, terms.day, &answered)?;
    Ok(JudgedAnswer {
        request: answered.request,
        is_staying,
    })
}

/// Takes a request: its reply, whether it was known or is written.
fn take_any<S: Alter>(
    alloc: Global,
    tx: &mut Transaction<'_, S>,
    terms: &Terms,
    request: &Request,
) -> Result<Reply, Refusal>
    requires in_range { IsRequest request.now }
    requires inside { IsInside S.Store tx.old }
    ensures inside { StaysInside S.Store tx.old tx.new result }
    ensures taken { Answers S.Store tx.old tx.new result
        (Applies terms.now.zone terms.now.default request.now) }
    ensures leaves { CommitsNothing S.Store tx.old tx.new }
{
    match take(alloc, tx, terms.zone, terms.default, request)? {
        TakenRequest::Read(reply) => Ok(reply),
        TakenRequest::Written(reply) => Ok(reply),
    }
}

/// Has the scratch ledger apply the request at a place, once it has applied those before it.
#[tactic(auto, using(crate::proofs::Chain::calls))]
fn follow_one<S: Alter>(
    alloc: Global,
    from: &mut Transaction<'_, S>,
    scratch: &mut Transaction<'_, MemStore>,
    terms: &Terms,
    place: u64,
) -> Result<(), Refusal>
    requires place { place + 1 < 2 ^ 63 }
    requires inside { IsTrue (state over_memory scratch.old.conn.now).in_transaction }
    ensures stays { ChangesNothing S.Store from.old from.new result }
    ensures inside { OnOk result (IsTrue (state over_memory scratch.new.conn.now).in_transaction) }
    ensures follows { HasCleanDisk (state S.Store from.new.conn.now)
        → OnOk result (Follows terms.now.zone terms.now.default place
        (state S.Store from.old.conn.now).now
        (state over_memory scratch.old.conn.now).now (state over_memory scratch.new.conn.now).now) }
    ensures from_leaves { CommitsNothing S.Store from.old from.new }
    ensures scratch_leaves { CommitsNothing over_memory scratch.old scratch.new }
{
    entries_are_followed();
    let answered = answered_at(alloc, from, place)?;
    // (the old ledger gave it)
    let _reply = take_any(alloc, scratch, terms, &answered.request)?;
    Ok(())
}

/// Whether a request, the next that the scratch ledger has to apply, is a limit that was set: by
/// the reply that it gets there.
#[tactic(auto, using(crate::proofs::Chain::calls))]
fn set_again(
    alloc: Global,
    scratch: &mut Transaction<'_, MemStore>,
    terms: &Terms,
    request: &Request,
) -> Result<bool, Refusal>
    requires in_range { IsRequest request.now }
    requires inside { IsTrue (state over_memory scratch.old.conn.now).in_transaction }
    ensures inside { OnOk result (IsTrue (state over_memory scratch.new.conn.now).in_transaction) }
    ensures set { IfOk result (SetsAgain terms.now.zone terms.now.default request.now
        (state over_memory scratch.old.conn.now).now (state over_memory scratch.new.conn.now).now) }
    ensures leaves { CommitsNothing over_memory scratch.old scratch.new }
{
    entries_are_followed();
    let reply = take_any(alloc, scratch, terms, request)?;
    Ok(is_set(request, &reply))
}

/// Has the new ledger take the request of an answer, where that stays.
#[tactic(auto, using(crate::proofs::Chain::calls))]
fn carry_one<T: Alter>(
    alloc: Global,
    into: &mut Transaction<'_, T>,
    terms: &Terms,
    request: &Request,
    is_staying: bool,
) -> Result<(), Refusal>
    requires in_range { IsRequest request.now }
    requires inside { IsInside T.Store into.old }
    ensures inside { StaysInside T.Store into.old into.new result }
    ensures carried { Turns T.Store into.old into.new result
        (CarriesOne terms.now.zone terms.now.default terms.now.day request.now is_staying) }
    ensures leaves { CommitsNothing T.Store into.old into.new }
{
    entries_are_carried();
    if !is_staying {
        return Ok(());
    }
    // (the old ledger gave it)
    let _reply = take_any(alloc, into, terms, request)?;
    Ok(())
}

/// A step at an answer of which only the reply could tell. The scratch ledger finds it again, or
/// where it isn't there yet, goes on by one answer.
#[tactic(auto, using(crate::proofs::Chain::calls))]
fn step_apart<S: Alter, T: Alter>(
    alloc: Global,
    from: &mut Transaction<'_, S>,
    into: &mut Transaction<'_, T>,
    scratch: &mut Transaction<'_, MemStore>,
    terms: &Terms,
    at: RenewalPlace,
    request: &Request,
) -> Result<RenewalPlace, Refusal>
    requires place { at.place + 1 < 2 ^ 63 }
    requires in_range { IsRequest request.now }
    requires inside { IsTrue (state over_memory scratch.old.conn.now).in_transaction }
    requires into_inside { IsInside T.Store into.old }
    ensures stays { ChangesNothing S.Store from.old from.new result }
    ensures inside { OnOk result (IsTrue (state over_memory scratch.new.conn.now).in_transaction) }
    ensures into_inside { StaysInside T.Store into.old into.new result }
    ensures more { IfOk result (λ to. at.place + at.followed < to.place + to.followed) }
    ensures most { IfOk result (GoesAtMost 1 at) }
    ensures renews { HasCleanDisk (state S.Store from.new.conn.now)
        → HasCleanDisk (state T.Store into.new.conn.now)
        → IfOk result (λ to. RenewsBy terms.now.zone terms.now.default terms.now.day
        (record { request = request.now; is_staying = None }) at to
        (state S.Store from.old.conn.now).now
        (state T.Store into.old.conn.now).now (state T.Store into.new.conn.now).now
        (state over_memory scratch.old.conn.now).now (state over_memory scratch.new.conn.now).now) }
    ensures from_leaves { CommitsNothing S.Store from.old from.new }
    ensures into_leaves { CommitsNothing T.Store into.old into.new }
    ensures scratch_leaves { CommitsNothing over_memory scratch.old scratch.new }
{
    let RenewalPlace { place, followed } = at;
    if followed < place {
        follow_one(alloc, from, scratch, terms, followed)?;
        return Ok(RenewalPlace {
            place,
            followed: followed + 1,
        });
    }
    let is_staying = set_again(alloc, scratch, terms, request)?;
    carry_one(alloc, into, terms, request, is_staying)?;
    Ok(RenewalPlace {
        place: place + 1,
        followed: place + 1,
    })
}

/// A step at an answer of which that is told.
#[tactic(auto, using(crate::proofs::Chain::calls))]
fn step_by<S: Alter, T: Alter>(
    alloc: Global,
    from: &mut Transaction<'_, S>,
    into: &mut Transaction<'_, T>,
    scratch: &mut Transaction<'_, MemStore>,
    terms: &Terms,
    at: RenewalPlace,
    judged: &JudgedAnswer,
) -> Result<RenewalPlace, Refusal>
    requires place { at.place + 1 < 2 ^ 63 }
    requires in_range { IsRequest judged.now.request }
    requires inside { IsTrue (state over_memory scratch.old.conn.now).in_transaction }
    requires into_inside { IsInside T.Store into.old }
    ensures stays { ChangesNothing S.Store from.old from.new result }
    ensures inside { OnOk result (IsTrue (state over_memory scratch.new.conn.now).in_transaction) }
    ensures into_inside { StaysInside T.Store into.old into.new result }
    ensures more { IfOk result (λ to. at.place + at.followed < to.place + to.followed) }
    ensures most { IfOk result (GoesAtMost 1 at) }
    ensures renews { HasCleanDisk (state S.Store from.new.conn.now)
        → HasCleanDisk (state T.Store into.new.conn.now)
        → IfOk result (λ to. RenewsBy terms.now.zone terms.now.default terms.now.day judged.now at
        to
        (state S.Store from.old.conn.now).now
        (state T.Store into.old.conn.now).now (state T.Store into.new.conn.now).now
        (state over_memory scratch.old.conn.now).now (state over_memory scratch.new.conn.now).now) }
    ensures from_leaves { CommitsNothing S.Store from.old from.new }
    ensures into_leaves { CommitsNothing T.Store into.old into.new }
    ensures scratch_leaves { CommitsNothing over_memory scratch.old scratch.new }
{
    let request = &judged.request;
    match judged.is_staying {
        Some(is_staying) => {
            carry_one(alloc, into, terms, request, is_staying)?;
            Ok(RenewalPlace {
                place: at.place + 1,
                followed: at.followed,
            })
        }
        None => step_apart(alloc, from, into, scratch, terms, at, request),
    }
}

/// Takes over the answer at the place that was reached, where it stays. Where only its reply could
/// tell, and the scratch ledger isn't there yet, that one goes on by one answer instead.
#[tactic(auto, using(crate::proofs::Chain::calls))]
pub(crate) fn step<S: Alter, T: Alter>(
    alloc: Global,
    from: &mut Transaction<'_, S>,
    into: &mut Transaction<'_, T>,
    scratch: &mut Transaction<'_, MemStore>,
    terms: &Terms,
    at: RenewalPlace,
) -> Result<RenewalPlace, Refusal>
    requires place { at.place + 1 < 2 ^ 63 }
    requires inside { IsTrue (state over_memory scratch.old.conn.now).in_transaction }
    requires into_inside { IsInside T.Store into.old }
    ensures stays { ChangesNothing S.Store from.old from.new result }
    ensures inside { OnOk result (IsTrue (state over_memory scratch.new.conn.now).in_transaction) }
    ensures into_inside { StaysInside T.Store into.old into.new result }
    ensures more { IfOk result (λ to. at.place + at.followed < to.place + to.followed) }
    ensures most { IfOk result (GoesAtMost 1 at) }
    ensures renews { HasCleanDisk (state S.Store from.new.conn.now)
        → HasCleanDisk (state T.Store into.new.conn.now)
        → IfOk result (λ to. Renews terms.now.zone terms.now.default terms.now.day at to
        (state S.Store from.old.conn.now).now
        (state T.Store into.old.conn.now).now (state T.Store into.new.conn.now).now
        (state over_memory scratch.old.conn.now).now (state over_memory scratch.new.conn.now).now) }
    ensures from_leaves { CommitsNothing S.Store from.old from.new }
    ensures into_leaves { CommitsNothing T.Store into.old into.new }
    ensures scratch_leaves { CommitsNothing over_memory scratch.old scratch.new }
{
    let judged = judge(alloc, from, terms, at.place)?;
    step_by(alloc, from, into, scratch, terms, at, &judged)
}
