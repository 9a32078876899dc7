//! Whether a store is a ledger's, and how one of an older version is given the current one.

ghost use Rattle.std.specs.Prelude.{◌≡◌, ℕ, Option, List, nat_le, false, None, IsTrue, IfOk, OnOk};
ghost use Rattle.std.specs.Prelude.{IfErr};
ghost use Rattle.sqlite.specs.Held.{state};
ghost use Rattle.sqlite.specs.State.{HasCleanDisk};
ghost use Rattle.mq_tables.specs.Indexing.{AreIndexed};
ghost use Rattle.mq_tables.specs.Reading.{Spares};
ghost use Rattle.mq_tables.specs.Settings.{SettingRow, shown_of};
ghost use Rattle.mq_store.specs.Opening.{known_version, IsJudged, IsJudgedAs, IsJudgedBy};
ghost use Rattle.mq_store.specs.Opening.{IsJudgedRuled, IsJudgedCurrent};
ghost use Rattle.mq_store.specs.Opening.{HasSettings, HoldsKnown, HoldsVersion, HasCurrent};
ghost use Rattle.mq_store.specs.Opening.{IsRuled, IsFaultOf, IsOf};
ghost use Rattle.mq_store.specs.Auditing.{AreCounted};
ghost use Rattle.mq_store.specs.Opening.{version_of, IsFound, IsFoundOf, IsKeptUp, IsBroughtUp};
ghost use Rattle.mq_store.specs.Opening.{AreBroughtUp, IsLeftBehind, Opens, Refuses};
ghost use Rattle.mq_store.specs.Soundness.{HasKept};

use crate::auditing::{RowCounts, audit_store};
use crate::fault::{
    OpenFault, create_fault, fault_by_any_rule, fault_by_floors, fault_by_rule, fault_of,
    fault_without_rule, known_version, open_fault,
};
use mq_ledger::Zone;
use mq_rows::{Audit, VERSION};
use mq_tables::floor::read_floors;
use mq_tables::index::index_ledger;
use mq_tables::names::{has_later_table, lacks_index};
use mq_tables::rule::read_rule;
use mq_tables::setting::{Setting, read_setting};
use mq_tables::version::migrate;
use sqlite::{Alter, Connection};
use std::alloc::Global;

/// The first version of tables that have one for the rule.
const RULED: u32 = 2;

/// Why the store isn't opened where its settings are so, of version 2: there is a table for the
/// rule.
fn fault_where_ruled<S: Alter>(
    connection: &mut Connection<S>,
    zone: Zone,
    default: u32,
    setting: &Setting,
) -> Option<OpenFault>
    requires autocommit { connection.old.in_transaction ≡ false }
    ensures autocommit { connection.new.in_transaction ≡ false }
    ensures unlimited { connection.new.step_limit ≡ None }
    ensures judged { HasCleanDisk (state S.Store connection.new)
        → IsJudgedRuled S.Store zone default setting.now connection.old connection.new result }
    ensures exact { HasCleanDisk (state S.Store connection.new)
        → (s : SettingRow) (rule : Option (List ℕ))
        → shown_of s ≡ setting.now → IsRuled (state S.Store connection.old).now rule
        → IsFaultOf zone default s rule result }
    ensures clean { HasCleanDisk (state S.Store connection.new)
        → HasCleanDisk (state S.Store connection.old) }
    ensures spares { HasCleanDisk (state S.Store connection.new)
        → Spares (state S.Store connection.old) (state S.Store connection.new) }
{
    let rule = read_rule(connection);
    fault_by_rule(zone, default, setting, &rule)
}

/// The same of version 3: there is one for the floors too.
#[tactic(auto, using(crate::proofs::Chain::spares_both))]
fn fault_where_current<S: Alter>(
    connection: &mut Connection<S>,
    zone: Zone,
    default: u32,
    setting: &Setting,
) -> Option<OpenFault>
    requires autocommit { connection.old.in_transaction ≡ false }
    ensures autocommit { connection.new.in_transaction ≡ false }
    ensures unlimited { connection.new.step_limit ≡ None }
    ensures judged { HasCleanDisk (state S.Store connection.new)
        → IsJudgedCurrent S.Store zone default setting.now connection.old connection.new result }
    ensures exact { HasCleanDisk (state S.Store connection.new)
        → (s : SettingRow) (rule : Option (List ℕ))
        → shown_of s ≡ setting.now → HasCurrent (state S.Store connection.old).now rule
        → IsFaultOf zone default s rule result }
    ensures clean { HasCleanDisk (state S.Store connection.new)
        → HasCleanDisk (state S.Store connection.old) }
    ensures spares { HasCleanDisk (state S.Store connection.new)
        → Spares (state S.Store connection.old) (state S.Store connection.new) }
{
    let floors = read_floors(connection);
    if let Some(fault) = fault_by_floors(&floors) {
        return Some(fault);
    }
    let rule = read_rule(connection);
    fault_by_any_rule(zone, default, setting, &rule)
}

/// Why the store isn't opened where its settings are so, of this version.
fn fault_by_version<S: Alter>(
    connection: &mut Connection<S>,
    zone: Zone,
    default: u32,
    setting: &Setting,
    version: u32,
) -> Option<OpenFault>
    requires autocommit { connection.old.in_transaction ≡ false }
    requires unlimited { connection.old.step_limit ≡ None }
    ensures autocommit { connection.new.in_transaction ≡ false }
    ensures unlimited { connection.new.step_limit ≡ None }
    ensures judged { HasCleanDisk (state S.Store connection.new)
        → IsJudgedBy S.Store version zone default setting.now connection.old connection.new result }
    ensures exact { HasCleanDisk (state S.Store connection.new)
        → (s : SettingRow) (rule : Option (List ℕ))
        → shown_of s ≡ setting.now → HoldsVersion version (state S.Store connection.old).now rule
        → IsFaultOf zone default s rule result }
    ensures clean { HasCleanDisk (state S.Store connection.new)
        → HasCleanDisk (state S.Store connection.old) }
    ensures spares { HasCleanDisk (state S.Store connection.new)
        → Spares (state S.Store connection.old) (state S.Store connection.new) }
{
    if version >= VERSION {
        fault_where_current(connection, zone, default, setting)
    } else if version >= RULED {
        fault_where_ruled(connection, zone, default, setting)
    } else {
        fault_without_rule(zone, default, setting)
    }
}

/// The version of the tables where their settings are so, or why the store isn't opened.
fn check_setting<S: Alter>(
    connection: &mut Connection<S>,
    zone: Zone,
    default: u32,
    setting: &Setting,
) -> Result<u32, OpenFault>
    requires autocommit { connection.old.in_transaction ≡ false }
    requires unlimited { connection.old.step_limit ≡ None }
    ensures autocommit { connection.new.in_transaction ≡ false }
    ensures unlimited { connection.new.step_limit ≡ None }
    ensures judged { HasCleanDisk (state S.Store connection.new)
        → IsJudgedAs S.Store (known_version setting.now.version) zone default setting.now
        connection.old
        connection.new result }
    ensures exact { HasCleanDisk (state S.Store connection.new)
        → (s : SettingRow) (rule : Option (List ℕ))
        → shown_of s ≡ setting.now → HoldsKnown (known_version s.version)
        (state S.Store connection.old).now rule
        → IsOf zone default (state S.Store connection.old).now.schema s rule result }
    ensures clean { HasCleanDisk (state S.Store connection.new)
        → HasCleanDisk (state S.Store connection.old) }
    ensures spares { HasCleanDisk (state S.Store connection.new)
        → Spares (state S.Store connection.old) (state S.Store connection.new) }
{
    let Some(version) = known_version(setting.version) else {
        return Err(OpenFault::NotOurs);
    };
    if has_later_table(connection.schema(), version) {
        return Err(OpenFault::NotOurs);
    }
    match fault_by_version(connection, zone, default, setting, version) {
        None => Ok(version),
        Some(fault) => Err(fault),
    }
}

/// The version of the tables by their settings, or why the store isn't opened.
#[tactic(auto, using(crate::proofs::Chain::spares_both))]
fn check_store<S: Alter>(
    connection: &mut Connection<S>,
    zone: Zone,
    default: u32,
) -> Result<u32, OpenFault>
    requires autocommit { connection.old.in_transaction ≡ false }
    ensures autocommit { connection.new.in_transaction ≡ false }
    ensures unlimited { connection.new.step_limit ≡ None }
    ensures judged { HasCleanDisk (state S.Store connection.new)
        → IsJudged S.Store zone default connection.old connection.new result }
    ensures exact { HasCleanDisk (state S.Store connection.new)
        → (s : SettingRow) (rule : Option (List ℕ))
        → HasSettings (state S.Store connection.old).now s rule
        → IsOf zone default (state S.Store connection.old).now.schema s rule result }
    ensures clean { HasCleanDisk (state S.Store connection.new)
        → HasCleanDisk (state S.Store connection.old) }
    ensures spares { HasCleanDisk (state S.Store connection.new)
        → Spares (state S.Store connection.old) (state S.Store connection.new) }
{
    match read_setting(connection) {
        Ok(Some(setting)) => check_setting(connection, zone, default, &setting),
        Ok(None) => Err(OpenFault::NotOurs),
        Err(error) => Err(fault_of(&error)),
    }
}

/// The version of a store that is this ledger, and how many rows it has.
#[derive(Drop)]
pub(crate) struct KnownLedger {
    pub version: u32,
    pub found: RowCounts,
}

/// The version of the tables and how many rows there are, or why the store isn't opened: by its
/// settings, and after them by an audit of its rows.
fn check_ledger<S: Alter>(
    alloc: Global,
    connection: &mut Connection<S>,
    zone: Zone,
    default: u32,
) -> Result<KnownLedger, OpenFault>
    requires autocommit { connection.old.in_transaction ≡ false }
    ensures autocommit { connection.new.in_transaction ≡ false }
    ensures unlimited { connection.new.step_limit ≡ None }
    ensures found { HasCleanDisk (state S.Store connection.new)
        → IsFound S.Store zone default connection.old connection.new (version_of result) }
    ensures exact { HasCleanDisk (state S.Store connection.new)
        → (s : SettingRow) (rule : Option (List ℕ))
        → HasSettings (state S.Store connection.old).now s rule
        → IsFoundOf zone default (state S.Store connection.old).now s rule (version_of result) }
    ensures counts { HasCleanDisk (state S.Store connection.new)
        → IfOk result (λ known. AreCounted zone default
        (state S.Store connection.old).now known.found) }
    ensures clean { HasCleanDisk (state S.Store connection.new)
        → HasCleanDisk (state S.Store connection.old) }
    ensures spares { HasCleanDisk (state S.Store connection.new)
        → Spares (state S.Store connection.old) (state S.Store connection.new) }
{
    let version = match check_store(connection, zone, default) {
        Ok(version) => version,
        Err(fault) => return Err(fault),
    };
    match audit_store(alloc, connection, zone, default) {
        Ok(Audit::Sound { days, transactions }) => Ok(KnownLedger {
            version,
            found: RowCounts { days, transactions },
        }),
        Ok(Audit::Wrong { login, day }) => Err(OpenFault::Damaged { login, day }),
        Err(refused) => Err(open_fault(refused)),
    }
}

/// Gives a ledger of the current version the index, in one transaction, where nothing has its name.
#[tactic(auto, using(crate::proofs::OpenChecks::left_alone, crate::proofs::OpenChecks::given_index))]
fn keep_up<S: Alter>(connection: &mut Connection<S>) -> Result<(), OpenFault>
    requires autocommit { connection.old.in_transaction ≡ false }
    ensures autocommit { connection.new.in_transaction ≡ false }
    ensures step_limit { connection.new.step_limit ≡ connection.old.step_limit }
    ensures clean { HasCleanDisk (state S.Store connection.new)
        → HasCleanDisk (state S.Store connection.old) }
    ensures was_open { HasCleanDisk (state S.Store connection.new)
        → IsTrue (state S.Store connection.new).is_open
        → IsTrue (state S.Store connection.old).is_open }
    ensures kept_up { HasCleanDisk (state S.Store connection.new)
        → OnOk result (IsKeptUp (state S.Store connection.old) (state S.Store connection.new)) }
    ensures err { HasCleanDisk (state S.Store connection.new)
        → IfErr result (IsLeftBehind AreIndexed (state S.Store connection.old)
        (state S.Store connection.new)) }
{
    if !lacks_index(connection.schema()) {
        return Ok(());
    }
    match index_ledger(connection) {
        Ok(()) => Ok(()),
        Err(error) => Err(create_fault(&error)),
    }
}

/// Gives a ledger of an older version the current one, in one transaction, and one of the current
/// version the index.
#[tactic(auto, using(crate::proofs::OpenChecks::up_current, crate::proofs::OpenChecks::behind_current, crate::proofs::OpenChecks::behind_older))]
fn bring_up<S: Alter>(connection: &mut Connection<S>, version: u32) -> Result<(), OpenFault>
    requires autocommit { connection.old.in_transaction ≡ false }
    ensures autocommit { connection.new.in_transaction ≡ false }
    ensures step_limit { connection.new.step_limit ≡ connection.old.step_limit }
    ensures clean { HasCleanDisk (state S.Store connection.new)
        → HasCleanDisk (state S.Store connection.old) }
    ensures was_open { HasCleanDisk (state S.Store connection.new)
        → IsTrue (state S.Store connection.new).is_open
        → IsTrue (state S.Store connection.old).is_open }
    ensures open { HasCleanDisk (state S.Store connection.new)
        → OnOk result (nat_le 3 version ≡ false → IsTrue (state S.Store connection.old).is_open) }
    ensures up { HasCleanDisk (state S.Store connection.new)
        → OnOk result (IsBroughtUp version (state S.Store connection.old)
        (state S.Store connection.new)) }
    ensures err { HasCleanDisk (state S.Store connection.new)
        → IfErr result (IsLeftBehind (AreBroughtUp version) (state S.Store connection.old)
        (state S.Store connection.new)) }
{
    if version >= VERSION {
        return keep_up(connection);
    }
    match migrate(connection, version >= RULED) {
        Ok(()) => Ok(()),
        Err(error) => Err(create_fault(&error)),
    }
}

/// Finds whether the store is this ledger, and brings it up to the current version and the index:
/// how many rows there are.
pub(crate) fn open_store<S: Alter>(
    alloc: Global,
    connection: &mut Connection<S>,
    zone: Zone,
    default: u32,
) -> Result<RowCounts, OpenFault>
    requires autocommit { connection.old.in_transaction ≡ false }
    ensures autocommit { connection.new.in_transaction ≡ false }
    ensures unlimited { connection.new.step_limit ≡ None }
    ensures counts { HasCleanDisk (state S.Store connection.new)
        → IfOk result (AreCounted zone default (state S.Store connection.old).now) }
    ensures kept { HasKept (state S.Store connection.new) → HasKept (state S.Store connection.old) }
    ensures opens { HasCleanDisk (state S.Store connection.new)
        → OnOk result (Opens (IsFound S.Store zone default connection.old connection.new)
        (state S.Store connection.old) (state S.Store connection.new)) }
    ensures refuses { HasCleanDisk (state S.Store connection.new)
        → IfErr result (Refuses (IsFound S.Store zone default connection.old connection.new)
        (state S.Store connection.old) (state S.Store connection.new)) }
    ensures exact { HasCleanDisk (state S.Store connection.new)
        → (s : SettingRow) (rule : Option (List ℕ))
        → HasSettings (state S.Store connection.old).now s rule
        → OnOk result (Opens (IsFoundOf zone default (state S.Store connection.old).now s rule)
        (state S.Store connection.old) (state S.Store connection.new)) }
    ensures exact_err { HasCleanDisk (state S.Store connection.new)
        → (s : SettingRow) (rule : Option (List ℕ))
        → HasSettings (state S.Store connection.old).now s rule
        → IfErr result (Refuses (IsFoundOf zone default (state S.Store connection.old).now s rule)
        (state S.Store connection.old) (state S.Store connection.new)) }
{
    let known = match check_ledger(alloc, connection, zone, default) {
        Ok(known) => known,
        Err(fault) => return Err(fault),
    };
    match bring_up(connection, known.version) {
        Ok(()) => Ok(known.found),
        Err(fault) => Err(fault),
    }
}
