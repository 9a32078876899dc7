//! The tables, made in one transaction over whatever the store holds already.

ghost use Rattle.std.specs.Prelude.{◌≡◌, ◌⊎◌, false, IsTrue, OnOk, OnErr};
ghost use Rattle.sqlite.specs.State.{HasCleanDisk};
ghost use Rattle.sqlite.specs.Held.{state};
ghost use Rattle.sqlite.specs.Tree.{Trees};
ghost use Rattle.sqlite.specs.Values.{bound};
ghost use Rattle.mq_ledger.specs.Day.{rule_in};
ghost use Rattle.mq_tables.specs.Inside.{IsInside, Becomes, Turns, StaysInside, CommitsNothing, Lasts};
ghost use Rattle.mq_tables.specs.Settings.{rule_fields};
ghost use Rattle.mq_tables.specs.Tables.{setting_table, answer_table, trans_table, usage_table};
ghost use Rattle.mq_tables.specs.Tables.{ceiling_table, rule_table};
ghost use Rattle.mq_tables.specs.Tables.{retired_table};
ghost use Rattle.mq_tables.specs.Making.{Makes, Puts, PutsAny, StartsTable, AddsTables, IsMadeOver};
ghost use Rattle.mq_tables.specs.Making.{AreMadeFor, IsMadeOverBy};
ghost use Rattle.mq_tables.specs.Making.{AreMadeOver, four_tables, later_tables, other_tables};
ghost use Rattle.mq_tables.specs.Making.{setting_row, setting_params, rule_params};

use crate::index::add_index;
use crate::names::lacks_index;
use crate::setting::NewSetting;
use mq_rows::VERSION;
use sqlite::types::ValueRef;
use sqlite::{Alter, Connection, Error, Transaction};

fn create_setting<S: Alter>(tx: &mut Transaction<'_, S>) -> Result<usize, Error>
    requires inside { IsInside S.Store tx.old }
    ensures made { Becomes S.Store tx.old tx.new result (Makes setting_table) }
    ensures leaves { CommitsNothing S.Store tx.old tx.new }
{
    tx.execute(
        "CREATE TABLE setting (id INTEGER PRIMARY KEY, version INTEGER NOT NULL, \
            minutes INTEGER NOT NULL, cap INTEGER NOT NULL, arrivals INTEGER NOT NULL) STRICT",
        &[],
    )
}

fn create_answer<S: Alter>(tx: &mut Transaction<'_, S>) -> Result<usize, Error>
    requires inside { IsInside S.Store tx.old }
    ensures made { Becomes S.Store tx.old tx.new result (Makes answer_table) }
    ensures leaves { CommitsNothing S.Store tx.old tx.new }
{
    tx.execute(
        "CREATE TABLE answer (n INTEGER PRIMARY KEY, host BLOB NOT NULL, run INTEGER NOT NULL, \
            seq INTEGER NOT NULL, request BLOB NOT NULL, reply BLOB NOT NULL, UNIQUE (host, run, seq)) STRICT",
        &[],
    )
}

fn create_trans<S: Alter>(tx: &mut Transaction<'_, S>) -> Result<usize, Error>
    requires inside { IsInside S.Store tx.old }
    ensures made { Becomes S.Store tx.old tx.new result (Makes trans_table) }
    ensures leaves { CommitsNothing S.Store tx.old tx.new }
{
    tx.execute(
        "CREATE TABLE trans (host BLOB NOT NULL, run INTEGER NOT NULL, txn INTEGER NOT NULL, \
            login BLOB NOT NULL, moment INTEGER NOT NULL, day INTEGER NOT NULL, \
            held INTEGER NOT NULL, settled INTEGER NOT NULL, closed INTEGER NOT NULL, \
            PRIMARY KEY (host, run, txn)) STRICT",
        &[],
    )
}

fn create_usage<S: Alter>(tx: &mut Transaction<'_, S>) -> Result<usize, Error>
    requires inside { IsInside S.Store tx.old }
    ensures made { Becomes S.Store tx.old tx.new result (Makes usage_table) }
    ensures leaves { CommitsNothing S.Store tx.old tx.new }
{
    tx.execute(
        "CREATE TABLE usage (login BLOB NOT NULL, day INTEGER NOT NULL, \
            settled INTEGER NOT NULL, reserved INTEGER NOT NULL, PRIMARY KEY (login, day)) STRICT",
        &[],
    )
}

fn create_ceiling<S: Alter>(tx: &mut Transaction<'_, S>) -> Result<usize, Error>
    requires inside { IsInside S.Store tx.old }
    ensures made { Becomes S.Store tx.old tx.new result (Makes ceiling_table) }
    ensures leaves { CommitsNothing S.Store tx.old tx.new }
{
    tx.execute(
        "CREATE TABLE ceiling (login BLOB NOT NULL, day INTEGER NOT NULL, cap INTEGER NOT NULL, \
            PRIMARY KEY (login, day)) STRICT",
        &[],
    )
}

pub(crate) fn create_rule<S: Alter>(tx: &mut Transaction<'_, S>) -> Result<usize, Error>
    requires inside { IsInside S.Store tx.old }
    ensures made { Becomes S.Store tx.old tx.new result (Makes rule_table) }
    ensures leaves { CommitsNothing S.Store tx.old tx.new }
{
    tx.execute(
        "CREATE TABLE rule (id INTEGER PRIMARY KEY, bytes BLOB NOT NULL) STRICT",
        &[],
    )
}

pub(crate) fn create_retired<S: Alter>(tx: &mut Transaction<'_, S>) -> Result<usize, Error>
    requires inside { IsInside S.Store tx.old }
    ensures open { Becomes S.Store tx.old tx.new result (λ before _. IsTrue before.is_open) }
    ensures made { Becomes S.Store tx.old tx.new result (Makes retired_table) }
    ensures leaves { CommitsNothing S.Store tx.old tx.new }
{
    tx.execute(
        "CREATE TABLE retired (host BLOB PRIMARY KEY, run INTEGER NOT NULL) STRICT",
        &[],
    )
}

fn rule_params(rule: &[u8]) -> [ValueRef<'_>; 1]
    ensures { bound result ≡ rule_params rule.now }
{
    [ValueRef::Blob(rule)]
}

fn put_rule<S: Alter>(tx: &mut Transaction<'_, S>, rule: &[u8]) -> Result<usize, Error>
    requires inside { IsInside S.Store tx.old }
    ensures put { Becomes S.Store tx.old tx.new result (Puts rule_table (rule_fields rule.now)) }
    ensures leaves { CommitsNothing S.Store tx.old tx.new }
{
    tx.execute(
        "INSERT INTO rule (id, bytes) VALUES (1, ?1)",
        &rule_params(rule),
    )
}

/// Puts the zone's rule into its table, where there is one.
fn put_any_rule<S: Alter>(
    tx: &mut Transaction<'_, S>,
    made_with: &NewSetting,
) -> Result<usize, Error>
    requires inside { IsInside S.Store tx.old }
    ensures put { Becomes S.Store tx.old tx.new result (PutsAny (rule_in made_with.now.zone)) }
    ensures leaves { CommitsNothing S.Store tx.old tx.new }
{
    match made_with.zone.rule() {
        Some(rule) => put_rule(tx, rule),
        None => Ok(0),
    }
}

fn setting_params(made_with: &NewSetting) -> [ValueRef<'static>; 3]
    ensures { bound result ≡ setting_params made_with.now }
{
    [
        ValueRef::Int(i64::from(VERSION)),
        ValueRef::Int(i64::from(made_with.zone.minutes())),
        ValueRef::Int(i64::from(made_with.cap)),
    ]
}

fn put_setting<S: Alter>(
    tx: &mut Transaction<'_, S>,
    made_with: &NewSetting,
) -> Result<usize, Error>
    requires inside { IsInside S.Store tx.old }
    ensures put { Becomes S.Store tx.old tx.new result (Puts setting_table
        (setting_row made_with.now)) }
    ensures leaves { CommitsNothing S.Store tx.old tx.new }
{
    tx.execute(
        "INSERT INTO setting (id, version, minutes, cap, arrivals) VALUES (1, ?1, ?2, ?3, 0)",
        &setting_params(made_with),
    )
}

#[tactic(auto, using(crate::proofs::Chain::calls))]
fn begin_setting<S: Alter>(
    tx: &mut Transaction<'_, S>,
    made_with: &NewSetting,
) -> Result<usize, Error>
    requires inside { IsInside S.Store tx.old }
    ensures inside { StaysInside S.Store tx.old tx.new result }
    ensures started { Becomes S.Store tx.old tx.new result
        (StartsTable setting_table (setting_row made_with.now)) }
    ensures leaves { CommitsNothing S.Store tx.old tx.new }
{
    create_setting(tx)?;
    put_setting(tx, made_with)
}

#[tactic(auto, using(crate::proofs::Chain::calls))]
fn create_four<S: Alter>(tx: &mut Transaction<'_, S>) -> Result<usize, Error>
    requires inside { IsInside S.Store tx.old }
    ensures inside { StaysInside S.Store tx.old tx.new result }
    ensures added { Becomes S.Store tx.old tx.new result (AddsTables four_tables) }
    ensures leaves { CommitsNothing S.Store tx.old tx.new }
{
    create_answer(tx)?;
    create_trans(tx)?;
    create_usage(tx)?;
    create_ceiling(tx)
}

/// The tables of later versions.
#[tactic(auto, using(crate::proofs::Chain::calls))]
fn create_later<S: Alter>(tx: &mut Transaction<'_, S>) -> Result<usize, Error>
    requires inside { IsInside S.Store tx.old }
    ensures inside { StaysInside S.Store tx.old tx.new result }
    ensures added { Becomes S.Store tx.old tx.new result (AddsTables (later_tables false)) }
    ensures leaves { CommitsNothing S.Store tx.old tx.new }
{
    create_rule(tx)?;
    create_retired(tx)
}

#[tactic(auto, using(crate::proofs::Chain::calls))]
fn create_others<S: Alter>(tx: &mut Transaction<'_, S>) -> Result<usize, Error>
    requires inside { IsInside S.Store tx.old }
    ensures inside { StaysInside S.Store tx.old tx.new result }
    ensures added { Becomes S.Store tx.old tx.new result (AddsTables other_tables) }
    ensures leaves { CommitsNothing S.Store tx.old tx.new }
{
    create_four(tx)?;
    create_later(tx)
}

/// Makes the seven tables of a ledger that has applied nothing.
#[tactic(auto, using(crate::proofs::Chain::calls))]
fn make_seven<S: Alter>(tx: &mut Transaction<'_, S>, made_with: &NewSetting) -> Result<usize, Error>
    requires inside { IsInside S.Store tx.old }
    ensures inside { StaysInside S.Store tx.old tx.new result }
    ensures made { Turns S.Store tx.old tx.new result (AreMadeFor made_with.now) }
    ensures leaves { CommitsNothing S.Store tx.old tx.new }
{
    begin_setting(tx, made_with)?;
    create_others(tx)?;
    put_any_rule(tx, made_with)
}

/// Makes the seven tables of a ledger that has applied nothing, and the index where it is wanted,
/// inside a transaction, over whatever the store holds. An error is the store's; what was made
/// before it is then there.
#[tactic(auto, using(crate::proofs::Chain::calls))]
pub fn make_tables<S: Alter>(
    tx: &mut Transaction<'_, S>,
    made_with: &NewSetting,
    indexed: bool,
) -> Result<usize, Error>
    requires inside { IsInside S.Store tx.old }
    ensures inside { StaysInside S.Store tx.old tx.new result }
    ensures made { Turns S.Store tx.old tx.new result (IsMadeOverBy indexed made_with.now) }
    ensures leaves { CommitsNothing S.Store tx.old tx.new }
{
    make_seven(tx, made_with)?;
    add_index(tx, indexed)
}

/// Makes the seven tables of a ledger that has applied nothing, and the index where nothing has its
/// name, in one transaction, or leaves all as it was.
///
/// An error is the store's.
pub fn make_ledger<S: Alter>(conn: &mut Connection<S>, made_with: &NewSetting) -> Result<(), Error>
    requires autocommit { conn.old.in_transaction ≡ false }
    ensures autocommit { conn.new.in_transaction ≡ false }
    ensures limit { conn.new.step_limit ≡ conn.old.step_limit }
    ensures lasts { Lasts (state S.Store conn.old) (state S.Store conn.new) }
    ensures made { HasCleanDisk (state S.Store conn.new) → OnOk result
        (IsMadeOver made_with.now (state S.Store conn.old).now (state S.Store conn.new).now) }
    ensures open { HasCleanDisk (state S.Store conn.new)
        → OnOk result (IsTrue (state S.Store conn.new).is_open) }
    ensures err { HasCleanDisk (state S.Store conn.new) → IsTrue (state S.Store conn.new).is_open
        → OnErr result ((state S.Store conn.new).now ≡ (state S.Store conn.old).now) }

    // What an open after a crash may find: all of the tables, or none of them.
    ensures crash_ok { HasCleanDisk (state S.Store conn.new) → OnOk result ((db : Trees)
        → (state S.Store conn.new).may_leave db → db ≡ (state S.Store conn.new).now.trees) }
    ensures crash_err { HasCleanDisk (state S.Store conn.new) → OnErr result ((db : Trees)
        → (state S.Store conn.new).may_leave db
        → (state S.Store conn.old).may_leave db ⊎ AreMadeOver made_with.now
        (state S.Store conn.old).now db) }
{
    // (its clause says that outside a transaction the tables are those of the last commit)
    let _settled = conn.is_autocommit();
    let indexed = lacks_index(conn.schema());
    let mut tx = conn.transaction();
    make_tables(&mut tx, made_with, indexed)?;
    tx.commit()
}
