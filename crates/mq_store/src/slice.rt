//! So many steps from an old store to a new one, in one transaction of each.

ghost use Rattle.std.specs.Prelude.{◌≡◌, ◌⊎◌, ◌<◌, ◌≤◌, ◌+◌, ◌^◌, false, IsTrue, IfOk, OnOk};
ghost use Rattle.sqlite.specs.Held.{state};
ghost use Rattle.sqlite.specs.State.{HasCleanDisk};
ghost use Rattle.sqlite.specs.Steps.{over_memory};
ghost use Rattle.sqlite.specs.Tree.{Trees};
ghost use Rattle.mq_tables.specs.Inside.{IsInside, CommitsNothing, Finds, StaysInside};
ghost use Rattle.mq_store.specs.Inside.{ChangesNothing};
ghost use Rattle.mq_store.specs.Renewing.{came_since, GoesAtMost, HasSoMany};
ghost use Rattle.mq_store.specs.Renewing.{Renews, IsThrough, Ends};
ghost use Rattle.mq_store.specs.Soundness.{HasKept};

use crate::carry::{Terms, step};
use crate::fault::Refusal;
use crate::renewal_place::RenewalPlace;
use mq_tables::setting::read_arrivals;
use sqlite::{Alter, Connection, MemStore, Transaction};
use std::alloc::Global;

/// How far a slice came.
#[derive(Clone, Copy)]
pub(crate) struct Slice {
    pub reached: RenewalPlace,
    /// How many answers the old store has.
    pub arrivals: u64,
    /// Whether it has no further one.
    pub is_through: bool,
}

/// How many answers came to the old store since a slice at which it had so many; before the first
/// one none did.
fn came_since(heard: Option<u64>, arrivals: u64) -> u64
    ensures { result ≡ came_since heard arrivals }
{
    match heard {
        Some(before) => arrivals.saturating_sub(before),
        None => 0,
    }
}

/// Makes so many steps, or fewer where `until` answers were looked at before.
fn steps<S: Alter, T: Alter>(
    alloc: Global,
    from: &mut Transaction<'_, S>,
    into: &mut Transaction<'_, T>,
    scratch: &mut Transaction<'_, MemStore>,
    terms: &Terms,
    at: RenewalPlace,
    until: u64,
    count: u64,
) -> Result<RenewalPlace, Refusal>
    requires until { until < 2 ^ 63 }
    requires inside { IsTrue (state over_memory scratch.old.conn.now).in_transaction }
    requires into_inside { IsInside T.Store into.old }
    ensures stays { ChangesNothing S.Store from.old from.new result }
    ensures inside { OnOk result (IsTrue (state over_memory scratch.new.conn.now).in_transaction) }
    ensures into_inside { StaysInside T.Store into.old into.new result }
    ensures more { IfOk result (λ to. until ≤ to.place ⊎ at.place + at.followed + count ≤ to.place +
        to.followed) }
    ensures most { IfOk result (GoesAtMost count at) }
    ensures renews { HasCleanDisk (state S.Store from.new.conn.now)
        → HasCleanDisk (state T.Store into.new.conn.now)
        → IfOk result (λ to. Renews terms.now.zone terms.now.default terms.now.day at to
        (state S.Store from.old.conn.now).now
        (state T.Store into.old.conn.now).now (state T.Store into.new.conn.now).now
        (state over_memory scratch.old.conn.now).now (state over_memory scratch.new.conn.now).now) }
    ensures from_leaves { CommitsNothing S.Store from.old from.new }
    ensures into_leaves { CommitsNothing T.Store into.old into.new }
    ensures scratch_leaves { CommitsNothing over_memory scratch.old scratch.new }
{
    let mut reached = at;
    for _step in 0..count {
        if until <= reached.place {
            return Ok(reached);
        }
        reached = step(alloc, from, into, scratch, terms, reached)?;
    }
    Ok(reached)
}

/// Makes so many steps within a transaction of each store, and one more for each answer that came
/// since the last slice, at which the old store had `heard`. So many as there are numbers always
/// reach the end.
#[tactic(auto, using(crate::proofs::Chain::calls))]
pub(crate) fn go_through<S: Alter, T: Alter>(
    alloc: Global,
    from: &mut Transaction<'_, S>,
    into: &mut Transaction<'_, T>,
    scratch: &mut Transaction<'_, MemStore>,
    terms: &Terms,
    at: RenewalPlace,
    heard: Option<u64>,
    count: u64,
) -> Result<Slice, Refusal>
    requires inside { IsTrue (state over_memory scratch.old.conn.now).in_transaction }
    requires into_inside { IsInside T.Store into.old }
    ensures stays { ChangesNothing S.Store from.old from.new result }
    ensures inside { OnOk result (IsTrue (state over_memory scratch.new.conn.now).in_transaction) }
    ensures into_inside { StaysInside T.Store into.old into.new result }
    ensures more { IfOk result (λ slice. IsTrue slice.is_through
        ⊎ at.place + at.followed + count ≤ slice.reached.place + slice.reached.followed) }
    ensures most { IfOk result (λ slice.
        GoesAtMost (count + came_since heard slice.arrivals) at slice.reached) }
    ensures counts { Finds S.Store from.old from.new result (λ db slice.
        HasSoMany terms.now.zone terms.now.default slice.arrivals db) }
    ensures all { IfOk result (λ slice. 2 ^ 64 ≤ count + 1 → IsTrue slice.is_through) }
    ensures through { Finds S.Store from.old from.new result (λ db slice. IsTrue slice.is_through
        → IsThrough terms.now.zone terms.now.default slice.reached db) }
    ensures renews { HasCleanDisk (state S.Store from.new.conn.now)
        → HasCleanDisk (state T.Store into.new.conn.now)
        → IfOk result (λ slice. Renews terms.now.zone terms.now.default terms.now.day at
        slice.reached
        (state S.Store from.old.conn.now).now
        (state T.Store into.old.conn.now).now (state T.Store into.new.conn.now).now
        (state over_memory scratch.old.conn.now).now (state over_memory scratch.new.conn.now).now) }
    ensures from_leaves { CommitsNothing S.Store from.old from.new }
    ensures into_leaves { CommitsNothing T.Store into.old into.new }
    ensures scratch_leaves { CommitsNothing over_memory scratch.old scratch.new }
{
    let until = read_arrivals(from)?;
    let more = came_since(heard, until);
    let count = count.saturating_add(more);
    let reached = steps(alloc, from, into, scratch, terms, at, until, count)?;
    Ok(Slice {
        reached,
        arrivals: until,
        is_through: until <= reached.place,
    })
}

/// Makes so many steps, and one more for each answer that came since the last slice, in one
/// transaction of the new store. The old store is read in a transaction that writes nothing. After
/// a fault the two others are of no use.
pub(crate) fn renew_store<S: Alter, T: Alter>(
    alloc: Global,
    from: &mut Connection<S>,
    into: &mut Connection<T>,
    scratch: &mut Connection<MemStore>,
    terms: &Terms,
    at: RenewalPlace,
    heard: Option<u64>,
    count: u64,
) -> Result<Slice, Refusal>
    requires from_autocommit { from.old.in_transaction ≡ false }
    requires into_autocommit { into.old.in_transaction ≡ false }
    requires scratch_autocommit { scratch.old.in_transaction ≡ false }
    ensures from_autocommit { from.new.in_transaction ≡ false }
    ensures into_autocommit { into.new.in_transaction ≡ false }
    ensures scratch_autocommit { scratch.new.in_transaction ≡ false }
    ensures from_step_limit { from.new.step_limit ≡ from.old.step_limit }
    ensures into_step_limit { into.new.step_limit ≡ into.old.step_limit }
    ensures scratch_step_limit { scratch.new.step_limit ≡ scratch.old.step_limit }
    ensures from_kept { HasKept (state S.Store from.new) → HasKept (state S.Store from.old) }
    ensures into_kept { HasKept (state T.Store into.new) → HasKept (state T.Store into.old) }
    ensures from_same { HasKept (state S.Store from.new)
        → (state S.Store from.new).now ≡ (state S.Store from.old).now }
    ensures from_crash { HasCleanDisk (state S.Store from.new) → (db : Trees)
        → (state S.Store from.new).may_leave db → (state S.Store from.old).may_leave db }
    ensures more { IfOk result (λ slice. IsTrue slice.is_through
        ⊎ at.place + at.followed + count ≤ slice.reached.place + slice.reached.followed) }
    ensures most { IfOk result (λ slice.
        GoesAtMost (count + came_since heard slice.arrivals) at slice.reached) }
    ensures counts { HasKept (state S.Store from.new) → IfOk result (λ slice.
        HasSoMany terms.now.zone terms.now.default slice.arrivals (state S.Store from.old).now) }
    ensures renews { HasKept (state S.Store from.new) → HasKept (state T.Store into.new)
        → IfOk result (λ slice.
        Renews terms.now.zone terms.now.default terms.now.day at slice.reached
        (state S.Store from.old).now
        (state T.Store into.old).now (state T.Store into.new).now
        (state over_memory scratch.old).now (state over_memory scratch.new).now) }
    ensures ends { HasKept (state S.Store from.new) → HasKept (state T.Store into.new)
        → IfOk result (λ slice.
        IsTrue slice.is_through → Ends terms.now.zone terms.now.default terms.now.day at
        (state S.Store from.old).now
        (state T.Store into.old).now (state T.Store into.new).now
        (state over_memory scratch.old).now) }
    ensures crash_ok { HasCleanDisk (state T.Store into.new) → OnOk result ((db : Trees)
        → (state T.Store into.new).may_leave db → db ≡ (state T.Store into.new).now.trees) }
{
    // (their clauses say that outside a transaction the tables are those of the last commit)
    let _from_settled = from.is_autocommit();
    let _into_settled = into.is_autocommit();
    let _scratch_settled = scratch.is_autocommit();
    let mut reading = from.transaction();
    let mut writing = into.transaction();
    let mut applying = scratch.transaction();
    let slice = go_through(
        alloc,
        &mut reading,
        &mut writing,
        &mut applying,
        terms,
        at,
        heard,
        count,
    )?;
    writing.commit()?;
    applying.commit()?;
    Ok(slice)
}
