//! A new store made a ledger that has what is remembered of an old one, in one transaction.

ghost use Rattle.std.specs.Prelude.{◌≡◌, ◌⊎◌, false, IsTrue, OnOk, OnErr};
ghost use Rattle.sqlite.specs.Held.{state};
ghost use Rattle.sqlite.specs.State.{HasCleanDisk};
ghost use Rattle.sqlite.specs.Tree.{Trees};
ghost use Rattle.mq_request.specs.Range.{IsAmount};
ghost use Rattle.mq_tables.specs.Inside.{IsInside, CommitsNothing, Turns, StaysInside};
ghost use Rattle.mq_store.specs.Inside.{ChangesNothing};
ghost use Rattle.mq_store.specs.Carrying.{Carries};
ghost use Rattle.mq_store.specs.Forgetting.{MakesBlank, Fills, AreFilled};
ghost use Rattle.mq_store.specs.Soundness.{HasKept};

use crate::carry::Terms;
use crate::fault::Refusal;
use crate::ledger::new_setting;
use crate::renewal_place::RenewalPlace;
use crate::slice::go_through;
use mq_tables::create::make_tables;
use mq_tables::names::lacks_index;
use sqlite::{Alter, Connection, Error, Transaction};
use std::alloc::Global;

/// Makes the tables of a ledger with that zone and default, and the index where it is wanted.
fn make<S: Alter>(tx: &mut Transaction<'_, S>, terms: &Terms, indexed: bool) -> Result<(), Error>
    requires in_range { IsAmount terms.now.default }
    requires inside { IsInside S.Store tx.old }
    ensures inside { StaysInside S.Store tx.old tx.new result }
    ensures blank { Turns S.Store tx.old tx.new result (MakesBlank terms.now.zone terms.now.default) }
    ensures leaves { CommitsNothing S.Store tx.old tx.new }
{
    let made_with = new_setting(terms.zone, terms.default);
    make_tables(tx, &made_with, indexed)?;
    Ok(())
}

/// Takes over what stays of all answers, in as many steps as that takes, with a scratch ledger in
/// memory.
fn carry_apart<S: Alter, T: Alter>(
    alloc: Global,
    from: &mut Transaction<'_, S>,
    into: &mut Transaction<'_, T>,
    terms: &Terms,
) -> Result<(), Refusal>
    requires in_range { IsAmount terms.now.default }
    requires into_inside { IsInside T.Store into.old }
    ensures stays { ChangesNothing S.Store from.old from.new result }
    ensures into_inside { StaysInside T.Store into.old into.new result }
    ensures carried { HasCleanDisk (state S.Store from.new.conn.now)
        → HasCleanDisk (state T.Store into.new.conn.now)
        → OnOk result (Carries terms.now.zone terms.now.default terms.now.day
        (state S.Store from.old.conn.now).now
        (state T.Store into.old.conn.now).now (state T.Store into.new.conn.now).now) }
    ensures from_leaves { CommitsNothing S.Store from.old from.new }
    ensures into_leaves { CommitsNothing T.Store into.old into.new }
{
    let mut memory = Connection::open_in_memory(alloc)?;
    // (its clause says so of the tables in memory)
    let _settled = memory.is_autocommit();
    let mut scratch = memory.transaction();
    make(&mut scratch, terms, false)?;
    let nothing = RenewalPlace::nothing();
    // (so many steps reach the end)
    let _all = go_through(
        alloc,
        from,
        into,
        &mut scratch,
        terms,
        nothing,
        None,
        u64::MAX,
    )?;
    Ok(())
}

/// Makes the tables of the new ledger and takes over what stays.
#[tactic(auto, using(crate::proofs::Chain::calls))]
fn fill<S: Alter, T: Alter>(
    alloc: Global,
    from: &mut Transaction<'_, S>,
    into: &mut Transaction<'_, T>,
    terms: &Terms,
    indexed: bool,
) -> Result<(), Refusal>
    requires in_range { IsAmount terms.now.default }
    requires into_inside { IsInside T.Store into.old }
    ensures stays { ChangesNothing S.Store from.old from.new result }
    ensures into_inside { StaysInside T.Store into.old into.new result }
    ensures filled { HasCleanDisk (state S.Store from.new.conn.now)
        → HasCleanDisk (state T.Store into.new.conn.now)
        → OnOk result (Fills terms.now.zone terms.now.default terms.now.day
        (state S.Store from.old.conn.now).now
        (state T.Store into.old.conn.now).now (state T.Store into.new.conn.now).now) }
    ensures from_leaves { CommitsNothing S.Store from.old from.new }
    ensures into_leaves { CommitsNothing T.Store into.old into.new }
{
    make(into, terms, indexed)?;
    carry_apart(alloc, from, into, terms)
}

/// Makes the new store a ledger that has what is remembered of the old one, in one transaction. The
/// old one is read in a transaction that writes nothing.
pub(crate) fn fill_store<S: Alter, T: Alter>(
    alloc: Global,
    from: &mut Connection<S>,
    into: &mut Connection<T>,
    terms: &Terms,
) -> Result<(), Refusal>
    requires in_range { IsAmount terms.now.default }
    requires from_autocommit { from.old.in_transaction ≡ false }
    requires into_autocommit { into.old.in_transaction ≡ false }
    ensures from_autocommit { from.new.in_transaction ≡ false }
    ensures into_autocommit { into.new.in_transaction ≡ false }
    ensures from_step_limit { from.new.step_limit ≡ from.old.step_limit }
    ensures into_step_limit { into.new.step_limit ≡ into.old.step_limit }
    ensures from_kept { HasKept (state S.Store from.new) → HasKept (state S.Store from.old) }
    ensures into_kept { HasKept (state T.Store into.new) → HasKept (state T.Store into.old) }
    ensures from_same { HasKept (state S.Store from.new)
        → (state S.Store from.new).now ≡ (state S.Store from.old).now }
    ensures from_crash { HasCleanDisk (state S.Store from.new) → (db : Trees)
        → (state S.Store from.new).may_leave db → (state S.Store from.old).may_leave db }
    ensures filled { HasCleanDisk (state S.Store from.new) → HasCleanDisk (state T.Store into.new)
        → OnOk result (Fills terms.now.zone terms.now.default terms.now.day
        (state S.Store from.old).now
        (state T.Store into.old).now (state T.Store into.new).now) }
    ensures open { HasCleanDisk (state T.Store into.new)
        → OnOk result (IsTrue (state T.Store into.new).is_open) }
    ensures err { HasCleanDisk (state T.Store into.new) → IsTrue (state T.Store into.new).is_open
        → OnErr result ((state T.Store into.new).now ≡ (state T.Store into.old).now) }
    ensures crash_ok { HasCleanDisk (state T.Store into.new) → OnOk result ((db : Trees)
        → (state T.Store into.new).may_leave db → db ≡ (state T.Store into.new).now.trees) }
    ensures crash_err { HasCleanDisk (state S.Store from.new)
        → HasCleanDisk (state T.Store into.new)
        → OnErr result ((db : Trees) → (state T.Store into.new).may_leave db
        → (state T.Store into.old).may_leave db
        ⊎ AreFilled terms.now.zone terms.now.default terms.now.day (state S.Store from.old).now
        (state T.Store into.old).now db) }
{
    // (their clauses say that outside a transaction the tables are those of the last commit)
    let _from_settled = from.is_autocommit();
    let _into_settled = into.is_autocommit();
    let indexed = lacks_index(into.schema());
    let mut reading = from.transaction();
    let mut writing = into.transaction();
    fill(alloc, &mut reading, &mut writing, terms, indexed)?;
    writing.commit()?;
    Ok(())
}
