//! The tables of an older version become those of the current one.

ghost use Rattle.std.specs.Prelude.{◌≡◌, ◌⊎◌, false, IsTrue, OnOk, OnErr};
ghost use Rattle.sqlite.specs.State.{HasCleanDisk};
ghost use Rattle.sqlite.specs.Held.{state};
ghost use Rattle.sqlite.specs.Tree.{Trees};
ghost use Rattle.sqlite.specs.Values.{bound};
ghost use Rattle.mq_tables.specs.Inside.{IsInside, Becomes, Turns, StaysInside, Writes, CommitsNothing};
ghost use Rattle.mq_tables.specs.Inside.{Lasts};
ghost use Rattle.mq_tables.specs.Migrating.{version_params, AddsRule, SetsVersion, IsMigratedBy};
ghost use Rattle.mq_tables.specs.Migrating.{IsMigrated, AreMigrated};

use crate::create::{create_retired, create_rule};
use crate::index::add_index;
use crate::names::lacks_index;
use mq_rows::VERSION;
use sqlite::types::ValueRef;
use sqlite::{Alter, Connection, Error, Transaction};

fn version_params() -> [ValueRef<'static>; 1]
    ensures { bound result ≡ version_params }
{
    [ValueRef::Int(i64::from(VERSION))]
}

fn set_version<S: Alter>(tx: &mut Transaction<'_, S>) -> Result<usize, Error>
    requires inside { IsInside S.Store tx.old }
    ensures { Writes S.Store tx.old tx.new result (λ before after. SetsVersion before.now after.now) }
{
    tx.execute(
        "UPDATE setting SET version = ?1 WHERE id = 1",
        &version_params(),
    )
}

/// Makes the table of the rule, where it isn't there yet.
fn add_rule<S: Alter>(tx: &mut Transaction<'_, S>, has_rule_table: bool) -> Result<usize, Error>
    requires inside { IsInside S.Store tx.old }
    ensures inside { StaysInside S.Store tx.old tx.new result }
    ensures added { Becomes S.Store tx.old tx.new result (AddsRule has_rule_table) }
    ensures leaves { CommitsNothing S.Store tx.old tx.new }
{
    if has_rule_table {
        Ok(0)
    } else {
        create_rule(tx)
    }
}

/// All three in turn.
#[tactic(auto, using(crate::proofs::Chain::calls))]
fn migrate_tables<S: Alter>(
    tx: &mut Transaction<'_, S>,
    has_rule_table: bool,
) -> Result<usize, Error>
    requires inside { IsInside S.Store tx.old }
    ensures inside { StaysInside S.Store tx.old tx.new result }
    ensures open { Becomes S.Store tx.old tx.new result (λ before _. IsTrue before.is_open) }
    ensures migrated { Turns S.Store tx.old tx.new result (IsMigratedBy false has_rule_table) }
    ensures leaves { CommitsNothing S.Store tx.old tx.new }
{
    add_rule(tx, has_rule_table)?;
    create_retired(tx)?;
    set_version(tx)
}

/// The tables, and then the index where it is wanted.
#[tactic(auto, using(crate::proofs::Chain::calls))]
fn migrate_all<S: Alter>(
    tx: &mut Transaction<'_, S>,
    has_rule_table: bool,
    indexed: bool,
) -> Result<usize, Error>
    requires inside { IsInside S.Store tx.old }
    ensures inside { StaysInside S.Store tx.old tx.new result }
    ensures open { Becomes S.Store tx.old tx.new result (λ before _. IsTrue before.is_open) }
    ensures migrated { Turns S.Store tx.old tx.new result (IsMigratedBy indexed has_rule_table) }
    ensures leaves { CommitsNothing S.Store tx.old tx.new }
{
    migrate_tables(tx, has_rule_table)?;
    add_index(tx, indexed)
}

/// Makes a ledger of an older version one of the current version, in one transaction, or leaves all
/// as it was. `has_rule_table` says whether the table of the rule is there. It gets the index too,
/// where nothing has its name.
///
/// An error is the store's.
pub fn migrate<S: Alter>(conn: &mut Connection<S>, has_rule_table: bool) -> Result<(), Error>
    requires autocommit { conn.old.in_transaction ≡ false }
    ensures autocommit { conn.new.in_transaction ≡ false }
    ensures limit { conn.new.step_limit ≡ conn.old.step_limit }
    ensures lasts { Lasts (state S.Store conn.old) (state S.Store conn.new) }
    ensures migrated { HasCleanDisk (state S.Store conn.new) → OnOk result
        (IsMigrated has_rule_table (state S.Store conn.old).now (state S.Store conn.new).now) }
    ensures open { HasCleanDisk (state S.Store conn.new)
        → OnOk result (IsTrue (state S.Store conn.new).is_open) }
    ensures err { HasCleanDisk (state S.Store conn.new) → IsTrue (state S.Store conn.new).is_open
        → OnErr result ((state S.Store conn.new).now ≡ (state S.Store conn.old).now) }

    // What an open after a crash may find: the new version, or after an error the old one or the
    // new one.
    ensures crash_ok { HasCleanDisk (state S.Store conn.new) → OnOk result ((db : Trees)
        → (state S.Store conn.new).may_leave db → db ≡ (state S.Store conn.new).now.trees) }
    ensures crash_err { HasCleanDisk (state S.Store conn.new) → OnErr result ((db : Trees)
        → (state S.Store conn.new).may_leave db
        → (state S.Store conn.old).may_leave db
        ⊎ (IsTrue (state S.Store conn.old).is_open × AreMigrated has_rule_table
        (state S.Store conn.old).now db)) }
{
    // (its clause says that outside a transaction the tables are those of the last commit)
    let _settled = conn.is_autocommit();
    let indexed = lacks_index(conn.schema());
    let mut tx = conn.transaction();
    migrate_all(&mut tx, has_rule_table, indexed)?;
    tx.commit()
}
