//! The store of the server's ledger: opened, or made.
ghost use Rattle.std.specs.Prelude.{◌≡◌, ◌⊎◌, [], false, true, IsTrue, IfOk, IfErr, IsSome};
ghost use Rattle.std.specs.Prelude.{MatchResult, None, Some, Ok, Err};
ghost use Rattle.sqlite.specs.Files.{file_state, IsOpened};
ghost use Rattle.sqlite.specs.FileStore.{view};
ghost use Rattle.sqlite.specs.Held.{state, IsNew as IsUnused};
ghost use Rattle.sqlite.specs.Start.{FindsIn};
ghost use Rattle.sqlite.specs.State.{HasCleanDisk};
ghost use Rattle.sqlite.specs.Steps.{over_memory};
ghost use Rattle.sqlite.specs.WalFiles.{image_at};
ghost use Rattle.mq_request.specs.Range.{IsAmount};
ghost use Rattle.mq_tables.specs.Making.{AreUnnamed, HasCounters, IsMadeOver};
ghost use Rattle.mq_rows.specs.declared.audited.Audit.TheVariants.{Sound};
ghost use Rattle.mq_store.specs.Auditing.{IsAuditIn};
ghost use Rattle.mq_store.specs.Opening.{IsFound, Opens, made_with};
ghost use Rattle.mq_store.specs.Soundness.{HasKept, IsNew, IsOpened as IsFoundSound, MeansBook};
ghost use Rattle.mq_program.specs.Opened.{AreCountsIn, IsMadeIn, MeansFile, path_in};
ghost use Rattle.mq_process.specs.Settings.{AreInRange};

use crate::fault::ProgramFault;
use crate::host::Databases;
use crate::refusal::refused_by;
use crate::switching::{clear_part, repair_switch};
use log::{Log, error};
use mq_ledger::Zone;
use mq_settings::{Place, ServerSettings};
use mq_store::SqlLedger;
use mq_tables::laws::{empty_databases_have_no_table, trees_have_one_schema};
use sqlite::{Alter, Connection, Error, ErrorCode, FileFrom, FileStore, MemStore, Start};
use std::alloc::{AllocError, Global};
use std::fs::{File, OpenOptions};
use std::io::ErrorKind;
use std::os::unix::fs::{MetadataExt, OpenOptionsExt, fchown};
use std::path::Path;
use std::rt::Files;
use std::{fs, io};

/// Who may read and write a file that is made: its owner alone.
pub const MODE: u32 = 0o600;

/// What the log says of a file that another process has open.
const LOCKED: &str =
    "database is locked: a server or another command has it open; mailquota-limits and mailquota-backup read it meanwhile";

/// A new ledger in the memory of the server. `default` is 0 to 1,000,000.
pub fn memory_ledger(
    alloc: Global,
    zone: Zone,
    default: u32,
) -> Result<SqlLedger<MemStore>, ProgramFault>
    requires { IsAmount default }
    ensures lent { IfOk result (λ ledger. (ledger.zone ≡ zone) × (ledger.default ≡ default)) }
    ensures new { IfOk result (λ ledger. IsNew zone default (state over_memory ledger.connection)) }
{
    Ok(SqlLedger::in_memory(alloc, zone, default)?)
}

/// Logs why a file of the ledger can't be opened, made, renamed or closed; the fault is
/// `ProgramFault::Store`.
pub fn unopened<G: Log, C: std::fmt::Display + Drop>(log: &G, path: &str, cause: C) -> ProgramFault
    ensures { result ≡ ProgramFault.Store }
{
    error!(log; "{path}: {cause}");
    ProgramFault::Store
}

/// Makes an empty file with mode 0600. It is an error where one is there.
fn make_empty<R: Files<File = File> + AllocGlobal>(rt: &R, path: &str) -> io::Result<()> {
    let file = OpenOptions::new()
        .write(true)
        .create_new(true)
        .mode(MODE)
        .open(rt, path)?;
    match give_to_owner(rt, &file, path) {
        Ok(()) => Ok(()),
        Err(cause) => {
            // (what is told is why it isn't made, also where it stays)
            let _ = fs::remove_file(rt, path);
            Err(cause)
        }
    }
}

/// Gives a file to the owner and the group of its folder, where this process may: what root makes
/// is then the server's.
pub fn give_to_owner<R: Files + AllocGlobal>(rt: &R, file: &File, path: &str) -> io::Result<()> {
    let folder = fs::metadata(rt, folder_of(rt.alloc(), path)?.as_str())?;
    match fchown(file, Some(folder.uid()), Some(folder.gid())) {
        Err(cause) if cause.kind() == ErrorKind::PermissionDenied => Ok(()),
        given => given,
    }
}

/// The folder in which the file at a path is.
pub fn folder_of(alloc: Global, path: &str) -> Result<String, AllocError> {
    match Path::new(path).parent() {
        Some(folder) if !folder.as_str().is_empty() => String::from_str(alloc, folder.as_str()),
        _ => String::from_str(alloc, "."),
    }
}

/// Makes the file, if it isn't there.
fn make_file<R: Files<File = File> + AllocGlobal>(rt: &R, path: &str) -> io::Result<()> {
    match make_empty(rt, path) {
        Err(error) if error.kind() == ErrorKind::AlreadyExists => Ok(()),
        made => made,
    }
}

/// Looks whether the file is there; where a ledger is made, makes one that isn't.
fn find_or_make_file<R: Files<File = File> + AllocGlobal, G: Log>(
    rt: &R,
    log: &G,
    path: &str,
    create: bool,
) -> Result<(), ProgramFault>
    ensures { IfErr result (λ fault. (fault ≡ ProgramFault.Memory) ⊎ (fault ≡ ProgramFault.Store)) }
{
    let is_there = if create {
        make_file(rt, path)
    } else {
        fs::metadata(rt, path).map(|_| ())
    };
    match is_there {
        Ok(()) => Ok(()),
        Err(cause) if cause.kind() == ErrorKind::OutOfMemory => Err(ProgramFault::Memory),
        Err(cause) => Err(unopened(log, path, cause)),
    }
}

/// A connection to the database file at a path. A file that isn't there is made where a ledger is
/// made, with mode 0600; a file that is empty gets a sum at the end of each page, and one with such
/// sums is refused where one is wrong. The cause of `ProgramFault::Store` is logged.
///
/// `start` stands for what the two files, the database and its log, hold before the call.
fn connect<R: Databases, G: Log, S: Start>(
    rt: &R,
    log: &G,
    path: &str,
    create: bool,
    start: S,
) -> Result<Connection<FileStore<FileFrom<S>>>, ProgramFault>
    ensures opened { IfOk result (λ c. HasCleanDisk (file_state c) → IsOpened c) }
    ensures found { IfOk result (λ c. HasCleanDisk (file_state c)
        → FindsIn (image_at S.Start) (file_state c)) }
    ensures sums { IfOk result (λ c. HasCleanDisk (file_state c) → (image_at S.Start).db ≡ []
        → (view c.store).has_sums ≡ true) }
    ensures unused { IfOk result IsUnused }
    ensures fault { IfErr result (λ fault. (fault ≡ ProgramFault.Memory)
        ⊎ (fault ≡ ProgramFault.Store)) }
{
    find_or_make_file(rt, log, path, create)?;
    match rt.open_database(path, start) {
        Ok(connection) => Ok(connection),
        Err(Error::SqliteFailure(ErrorCode::OutOfMemory)) => Err(ProgramFault::Memory),
        Err(Error::SqliteFailure(ErrorCode::DatabaseBusy)) => Err(unopened(log, path, LOCKED)),
        Err(cause) => Err(unopened(log, path, cause)),
    }
}

/// Makes an empty file at a path, with mode 0600. A file that is there is refused as
/// `ProgramFault::Exists`. The cause of `ProgramFault::Store` is logged.
pub fn make_new_file<R: Files<File = File> + AllocGlobal, G: Log>(
    rt: &R,
    log: &G,
    path: &str,
) -> Result<(), ProgramFault> {
    match make_empty(rt, path) {
        Ok(()) => Ok(()),
        Err(cause) if cause.kind() == ErrorKind::AlreadyExists => Err(ProgramFault::Exists),
        Err(cause) if cause.kind() == ErrorKind::OutOfMemory => Err(ProgramFault::Memory),
        Err(cause) => Err(unopened(log, path, cause)),
    }
}

/// A connection to the empty file that was made at a path. The cause of `ProgramFault::Store` is
/// logged.
///
/// `start` stands for what the file and its log hold.
pub fn connect_new<R: Databases, G: Log, S: Start>(
    rt: &R,
    log: &G,
    path: &str,
    start: S,
) -> Result<Connection<FileStore<FileFrom<S>>>, ProgramFault>
    ensures opened { IfOk result (λ c. HasCleanDisk (file_state c) → IsOpened c) }
    ensures found { IfOk result (λ c. HasCleanDisk (file_state c)
        → FindsIn (image_at S.Start) (file_state c)) }
{
    connect(rt, log, path, false, start)
}

/// Closes the file of a ledger, so that it stands without its log. The cause of
/// `ProgramFault::Store` is logged.
pub fn close_file<G: Log, S: Start>(
    log: &G,
    path: &str,
    connection: Connection<FileStore<FileFrom<S>>>,
) -> Result<(), ProgramFault>
    ensures { IfErr result (λ fault. fault ≡ ProgramFault.Store) }
{
    match connection.close() {
        Ok(()) => Ok(()),
        Err(cause) => Err(unopened(log, path, cause)),
    }
}

/// The path of the file in which settings keep the ledger.
pub fn path_of(settings: &ServerSettings) -> Result<&str, ProgramFault>
    ensures { MatchResult result (λ path. path_in settings.now.store ≡ Some path.now)
        (λ fault. (fault ≡ ProgramFault.MemoryStore) × (path_in settings.now.store ≡ None)) }
{
    match &settings.store {
        Place::Memory => Err(ProgramFault::MemoryStore),
        Place::File(path) => Ok(path.as_str()),
    }
}

/// The ledger in the database of a file at a path; with `create` a new one. Why a database is
/// refused is logged.
fn ledger_over<G: Log, S: Alter + Drop>(
    alloc: Global,
    log: &G,
    path: &str,
    connection: Connection<S>,
    create: bool,
    settings: &ServerSettings,
) -> Result<SqlLedger<S>, ProgramFault>
    requires { AreInRange settings.now }
    ensures lent { IfOk result (λ ledger. (ledger.zone ≡ settings.now.zone)
        × (ledger.default ≡ settings.now.default)) }
    ensures made { IsTrue create → IfOk result (λ ledger. HasCleanDisk
        (state S.Store ledger.connection)
        → IsMadeOver (made_with settings.now.zone settings.now.default)
        (state S.Store connection).now
        (state S.Store ledger.connection).now) }
    ensures new { IsTrue create → IfOk result (λ ledger. HasCleanDisk
        (state S.Store ledger.connection)
        → HasCounters (state S.Store connection) → AreUnnamed (state S.Store connection).now.schema
        → IsNew settings.now.zone settings.now.default (state S.Store ledger.connection)) }
    ensures opened { create ≡ false → IfOk result (λ ledger. HasCleanDisk
        (state S.Store ledger.connection)
        → Opens (IsFound S.Store settings.now.zone settings.now.default connection
        ledger.connection)
        (state S.Store connection) (state S.Store ledger.connection)) }
    ensures rows { create ≡ false → IfOk result (λ ledger. HasKept (state S.Store ledger.connection)
        → MeansBook settings.now.zone settings.now.default (state S.Store connection).now
        (state S.Store ledger.connection)) }
    ensures sound { create ≡ false → IfOk result (λ ledger. HasKept
        (state S.Store ledger.connection)
        → IsFoundSound settings.now.zone settings.now.default (state S.Store connection)
        (state S.Store ledger.connection)) }
    ensures counts { create ≡ false → IfOk result (λ ledger. HasCleanDisk
        (state S.Store ledger.connection)
        → IsAuditIn settings.now.zone settings.now.default (state S.Store connection).now
        (Sound ledger.found.days ledger.found.transactions)) }

    // Kept at the end, it was kept at the entry.
    ensures kept { IfOk result (λ ledger. HasKept (state S.Store ledger.connection)
        → HasKept (state S.Store connection)) }
{
    if create {
        return match SqlLedger::create(alloc, connection, settings.zone, settings.default) {
            Ok(ledger) => Ok(ledger),
            Err(refused) => Err(refused_by(log, path, true, settings, refused)),
        };
    }
    match SqlLedger::open(alloc, connection, settings.zone, settings.default) {
        Ok(ledger) => Ok(ledger),
        Err(refused) => Err(refused_by(log, path, false, settings, refused)),
    }
}

/// The ledger in the file of these settings; with `create` a new one. Why it can't be had is
/// logged.
///
/// A switch to another ledger of this path that was interrupted is finished or undone first, and
/// what a renewal left is removed. `start` stands for what the two files, the database and its log,
/// hold then.
pub fn ledger_of_settings<R: Databases, G: Log, S: Start>(
    rt: &R,
    log: &G,
    settings: &ServerSettings,
    create: bool,
    start: S,
) -> Result<SqlLedger<FileStore<FileFrom<S>>>, ProgramFault>
    requires { AreInRange settings.now }
    ensures lent { IfOk result (λ ledger. (ledger.zone ≡ settings.now.zone)
        × (ledger.default ≡ settings.now.default)) }

    // The ledger that is opened is the one whose rows the files hold.
    ensures rows { create ≡ false → IfOk result (λ ledger. HasKept (file_state ledger.connection)
        → MeansFile settings.now.zone settings.now.default (image_at S.Start)
        (file_state ledger.connection)) }
    ensures made { IsTrue create → IfOk result (λ ledger. HasKept (file_state ledger.connection)
        → IsMadeIn settings.now.zone settings.now.default (image_at S.Start)
        (file_state ledger.connection)) }

    // What it was found to hold as it was opened is what an audit of the files' rows finds.
    ensures counts { create ≡ false → IfOk result (λ ledger. HasKept (file_state ledger.connection)
        → AreCountsIn settings.now.zone settings.now.default (image_at S.Start) ledger.found.days
        ledger.found.transactions) }

    // There is none in memory.
    ensures path { IfOk result (λ _. IsSome (path_in settings.now.store)) }
{
    trees_have_one_schema();
    empty_databases_have_no_table();
    let path = path_of(settings)?;
    repair_switch(rt, log, path)?;
    let connection = connect(rt, log, path, create, start)?;
    let ledger = ledger_over(rt.alloc(), log, path, connection, create, settings)?;
    clear_part(rt, log, path);
    Ok(ledger)
}

/// How a subcommand ends whose ledger came back, which is let go. It stands alone: a proof that
/// lets a ledger go over the file's own store takes far longer than one that hands it on.
pub fn let_go<S: Start>(
    done: Result<SqlLedger<FileStore<FileFrom<S>>>, ProgramFault>,
) -> Result<u8, ProgramFault>
    ensures { MatchResult done (λ _. result ≡ Ok 0) (λ fault. result ≡ Err fault) }
{
    let _ledger = done?;
    Ok(0)
}

/// Logs why the store of a ledger in the file at a path failed, where its last call did.
pub fn log_cause<G: Log, S: Alter>(log: &G, path: &str, ledger: &SqlLedger<S>) {
    if let Some(cause) = ledger.cause() {
        error!(log; "{path}: {cause}");
    }
}
