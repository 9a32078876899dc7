//! The switch to the ledger that a renewal made: which file takes which name, and in which order.
//!
//! A renewal fills `LEDGER.part`, and then that file takes the place of `LEDGER`:
//!
//! 1. `LEDGER` gets the name `LEDGER.old`, while it is open still, and is closed then. A
//!    `LEDGER.old-wal` is removed before. Where that name can't be had, all stays as it was.
//! 2. `LEDGER.part` gets the name `LEDGER.next`: from then on the new ledger is whole by its name.
//! 3. `LEDGER.part-wal` becomes `LEDGER-wal`.
//! 4. `LEDGER.next` becomes `LEDGER`.
//!
//! The folder is synced after each step. So what a kill or a power cut leaves says how far it came,
//! and there is no file `LEDGER` that could be opened beside the log of another one. Whoever opens
//! the ledger next undoes the first step, or does the rest. The process that renews has locked the
//! new file all the time, so nobody else does either before it has ended.
ghost use Rattle.std.specs.Prelude.{◌≡◌, ◌⊎◌, IfErr, IfOk};
ghost use Rattle.sqlite.specs.Files.{file_state};
ghost use Rattle.sqlite.specs.State.{HasCleanDisk};
ghost use Rattle.mq_store.specs.Forgetting.{IsFree};

use crate::fault::ProgramFault;
use crate::host::Databases;
use crate::last_night::drop_note;
use crate::store::{close_file, connect_new, folder_of, make_new_file, unopened};
use log::{Log, info, warn};
use mq_tables::laws::empty_databases_have_no_table;
use os::RangeLock;
use sqlite::{Connection, FileFrom, FileStore, Start, Unknown};
use std::alloc::{AllocError, Global};
use std::fmt::Display;
use std::fs::{File, OpenFile, OpenOptions};
use std::io::ErrorKind;
use std::os::fd::AsRawFd;
use std::rt::Files;
use std::{fs, io};

/// The bytes that SQLite locks of a database file that is open.
const LOCK_START: u64 = 1 << 30;

const LOCK_LENGTH: u64 = 512;

/// The store of a ledger that a renewal makes: its file is empty before.
pub type PartStore = FileStore<FileFrom<Unknown>>;

/// The path of a ledger, the names that a switch gives to files beside it, and the reserve.
#[derive(Drop)]
pub struct Names {
    pub ledger: String,
    /// The ledger's write-ahead log.
    pub wal: String,
    /// The ledger that was served before the last switch, and a write-ahead log that was left
    /// beside it by hand.
    pub old: String,
    pub old_wal: String,
    /// The ledger that a renewal fills, and its write-ahead log.
    pub part: String,
    pub part_wal: String,
    /// The new ledger, which is whole.
    pub next: String,
    /// The reserve of the server.
    pub reserve: String,
}

impl Names {
    /// The names beside the path of a ledger.
    pub fn new(alloc: Global, ledger: &str) -> Result<Names, AllocError> {
        Ok(Names {
            ledger: String::from_str(alloc, ledger)?,
            wal: format!(in alloc; "{ledger}-wal")?,
            old: format!(in alloc; "{ledger}.old")?,
            old_wal: format!(in alloc; "{ledger}.old-wal")?,
            part: format!(in alloc; "{ledger}.part")?,
            part_wal: format!(in alloc; "{ledger}.part-wal")?,
            next: format!(in alloc; "{ledger}.next")?,
            reserve: format!(in alloc; "{ledger}.ballast")?,
        })
    }
}

/// Whether there is something of this name, as far as this process may see.
pub fn is_there(rt: &impl Files, path: &str) -> bool {
    fs::symlink_metadata(rt, path).is_ok()
}

/// Whether there is nothing of this name.
pub fn is_missing(rt: &impl Files, path: &str) -> bool {
    match fs::symlink_metadata(rt, path) {
        Ok(_) => false,
        Err(cause) => cause.kind() == ErrorKind::NotFound,
    }
}

/// Syncs the folder of the file at a path, so that a power cut leaves the names as they are.
fn sync_folder<R: Files + AllocGlobal>(rt: &R, path: &str) -> io::Result<()> {
    let folder = folder_of(rt.alloc(), path)?;
    fs::open(rt, folder.as_str())?.sync_all()
}

/// Gives a file another name in its folder, and syncs that.
fn rename<R: Files + AllocGlobal>(rt: &R, from: &str, to: &str) -> io::Result<()> {
    fs::rename(rt, from, to)?;
    sync_folder(rt, to)
}

/// Gives a file another name in its folder, and syncs that. The cause of `ProgramFault::Store` is
/// logged.
fn move_file<R: Files + AllocGlobal, G: Log>(
    rt: &R,
    log: &G,
    from: &str,
    to: &str,
) -> Result<(), ProgramFault>
    ensures { IfErr result (λ fault. fault ≡ ProgramFault.Store) }
{
    match rename(rt, from, to) {
        Ok(()) => Ok(()),
        Err(cause) => Err(unopened(log, from, cause)),
    }
}

/// Removes a file, if it is there, and syncs its folder.
fn remove<R: Files + AllocGlobal>(rt: &R, path: &str) -> io::Result<()> {
    if is_missing(rt, path) {
        return Ok(());
    }
    fs::remove_file(rt, path)?;
    sync_folder(rt, path)
}

/// Takes the lock that a process has of a database file that it has open, for as long as the file
/// is held. There is none where another process has it.
pub fn hold<R: Files<File = File>>(rt: &R, path: &str) -> io::Result<Option<File>> {
    let file = OpenOptions::new().read(true).write(true).open(rt, path)?;
    let lock = os::try_lock_range(
        file.as_raw_fd(),
        RangeLock::Exclusive,
        LOCK_START,
        LOCK_LENGTH,
    );
    if lock == 0 {
        return Ok(Some(file));
    }
    let cause = io::Error::from_raw_os_error(os::errno());
    match cause.kind() {
        ErrorKind::WouldBlock => Ok(None),
        _ => Err(cause),
    }
}

/// What a switch that was interrupted has left.
#[derive(Clone, Copy, PartialEq, Eq)]
enum SwitchRemains {
    /// There was none.
    Nothing,
    /// The former ledger has lost its name, and the new one isn't whole by its own.
    Part,
    /// The new ledger is whole, and hasn't its name yet.
    Next,
}

/// What was left of a switch.
fn find_left(rt: &impl Files, names: &Names) -> SwitchRemains {
    if !is_missing(rt, names.ledger.as_str()) {
        return SwitchRemains::Nothing;
    }
    if is_there(rt, names.next.as_str()) {
        return SwitchRemains::Next;
    }
    if is_there(rt, names.old.as_str()) && is_there(rt, names.part.as_str()) {
        return SwitchRemains::Part;
    }
    SwitchRemains::Nothing
}

/// Does the rest of a switch from where the new ledger is whole.
fn finish<R: Files + AllocGlobal, G: Log>(
    rt: &R,
    log: &G,
    names: &Names,
) -> Result<(), ProgramFault>
    ensures { IfErr result (λ fault. fault ≡ ProgramFault.Store) }
{
    // (a log that can't be looked at is never left behind: its answers would be lost)
    if !is_missing(rt, names.part_wal.as_str()) {
        move_file(rt, log, names.part_wal.as_str(), names.wal.as_str())?;
    }
    move_file(rt, log, names.next.as_str(), names.ledger.as_str())
}

/// Gives the former ledger its name back. Its log is where it was.
fn undo<R: Files + AllocGlobal, G: Log>(rt: &R, log: &G, names: &Names) -> Result<(), ProgramFault>
    ensures { IfErr result (λ fault. fault ≡ ProgramFault.Store) }
{
    move_file(rt, log, names.old.as_str(), names.ledger.as_str())
}

/// Holds the new file of a switch that was interrupted, which is refused while the process lives
/// that switches. The cause of `ProgramFault::Store` is logged.
fn hold_new<R: Files<File = File>, G: Log>(rt: &R, log: &G, new: &str) -> Result<File, ProgramFault>
    ensures { IfErr result (λ fault. fault ≡ ProgramFault.Store) }
{
    match hold(rt, new) {
        Ok(Some(file)) => Ok(file),
        Ok(None) => Err(unopened(log, new, "database is locked")),
        Err(cause) => Err(unopened(log, new, cause)),
    }
}

/// Finishes or undoes a switch that was interrupted, unless another process was quicker. The cause
/// of `ProgramFault::Store` is logged.
fn repair<R: Files<File = File> + AllocGlobal, G: Log>(
    rt: &R,
    log: &G,
    names: &Names,
) -> Result<(), ProgramFault>
    ensures { IfErr result (λ fault. fault ≡ ProgramFault.Store) }
{
    let ledger = names.ledger.as_str();
    match find_left(rt, names) {
        SwitchRemains::Nothing => {}
        SwitchRemains::Part => {
            let _held = hold_new(rt, log, names.part.as_str())?;
            if find_left(rt, names) == SwitchRemains::Part {
                info!(log; "{ledger}: an interrupted switch to a new file is undone");
                undo(rt, log, names)?;
            }
        }
        SwitchRemains::Next => {
            let _held = hold_new(rt, log, names.next.as_str())?;
            if find_left(rt, names) == SwitchRemains::Next {
                info!(log; "{ledger}: an interrupted switch to a new file is finished");
                drop_note(rt, ledger);
                finish(rt, log, names)?;
            }
        }
    }
    Ok(())
}

/// Finishes or undoes what is left of a switch to another ledger at this path, before that is
/// opened. The cause of `ProgramFault::Store` is logged.
pub fn repair_switch<R: Files<File = File> + AllocGlobal, G: Log>(
    rt: &R,
    log: &G,
    ledger: &str,
) -> Result<(), ProgramFault>
    ensures { IfErr result (λ fault. (fault ≡ ProgramFault.Memory) ⊎ (fault ≡ ProgramFault.Store)) }
{
    if !is_missing(rt, ledger) {
        return Ok(());
    }
    repair(rt, log, &Names::new(rt.alloc(), ledger)?)
}

/// Removes what a renewal has left of its file, the log first, and a name that no switch came to
/// use.
fn remove_part<R: Files + AllocGlobal>(rt: &R, names: &Names) -> io::Result<()> {
    remove(rt, names.part_wal.as_str())?;
    remove(rt, names.part.as_str())?;
    remove(rt, names.next.as_str())
}

/// Whether a rename can replace what has this name: there is nothing, or a plain file.
fn may_replace(rt: &impl Files, path: &str) -> bool {
    match fs::symlink_metadata(rt, path) {
        Ok(found) => found.is_file(),
        Err(cause) => cause.kind() == ErrorKind::NotFound,
    }
}

/// Makes the file of a new ledger, in place of one that was left, and opens it. There is none where
/// a rename couldn't give the names at the end, or would replace a link. The cause of
/// `ProgramFault::Store` is logged.
pub fn make_part<R: Databases, G: Log>(
    rt: &R,
    log: &G,
    names: &Names,
) -> Result<Connection<PartStore>, ProgramFault>
    ensures { IfOk result (λ c. HasCleanDisk (file_state c) → IsFree (file_state c).now) }
{
    empty_databases_have_no_table();
    let part = names.part.as_str();
    for name in [names.ledger.as_str(), names.old.as_str()] {
        if !may_replace(rt, name) {
            return Err(unopened(log, name, "not a plain file"));
        }
    }
    if let Err(cause) = remove_part(rt, names) {
        return Err(unopened(log, part, cause));
    }
    make_new_file(rt, log, part)?;
    if let Err(cause) = sync_folder(rt, part) {
        return Err(unopened(log, part, cause));
    }
    let connection = connect_new(rt, log, part, Unknown)?;
    Ok(connection)
}

/// Removes the file of a renewal that failed. One that can't be removed is logged.
pub fn discard_part<R: Files + AllocGlobal, G: Log>(rt: &R, log: &G, names: &Names) {
    if let Err(cause) = remove_part(rt, names) {
        log_left(log, names, cause);
    }
}

/// Logs that what a renewal left can't be removed.
fn log_left<G: Log>(log: &G, names: &Names, cause: io::Error) {
    let part = names.part.as_str();
    warn!(log; "{part}, which a renewal left: {cause}");
}

/// Removes the file of a renewal that was interrupted, now that this process has the ledger. It
/// stays where another process has it open.
fn clear<R: Files<File = File> + AllocGlobal>(rt: &R, names: &Names) -> io::Result<()> {
    if is_missing(rt, names.part.as_str()) {
        return Ok(());
    }
    match hold(rt, names.part.as_str())? {
        Some(_held) => remove_part(rt, names),
        None => Ok(()),
    }
}

/// Removes the file of a renewal that was interrupted, once the ledger at this path is open. One
/// that can't be removed is logged, and does no harm.
pub fn clear_part<R: Files<File = File> + AllocGlobal, G: Log>(rt: &R, log: &G, ledger: &str) {
    let Ok(names) = Names::new(rt.alloc(), ledger) else {
        return;
    };
    if let Err(cause) = clear(rt, &names) {
        log_left(log, &names, cause);
    }
}

/// Removes a write-ahead log that a `forget` by hand has left: it is of an earlier file than the one
/// that gets the name beside it. One that can't be removed is logged.
fn remove_old_wal<R: Files + AllocGlobal, G: Log>(rt: &R, log: &G, names: &Names) {
    let old_wal = names.old_wal.as_str();
    if let Err(cause) = remove(rt, old_wal) {
        warn!(log; "{old_wal}: {cause}");
    }
}

/// No switch was begun: the former ledger has its name.
#[derive(Clone, Copy, Debug, PartialEq, Eq)]
pub struct NoSwitch;

/// Logs why no switch is begun.
fn stays<G: Log, C: Display + Drop>(log: &G, path: &str, cause: C) -> NoSwitch {
    warn!(log; "{path}: {cause}; the former ledger stays until the next night");
    NoSwitch
}

/// Looks whether the new ledger and its log still have their names, before the former one loses its
/// own.
fn check_part<R: Files, G: Log>(rt: &R, log: &G, names: &Names) -> Result<(), NoSwitch> {
    for name in [names.part.as_str(), names.part_wal.as_str()] {
        if !is_there(rt, name) {
            return Err(stays(log, name, "it was removed"));
        }
    }
    Ok(())
}

/// Begins a switch: the former ledger gets its other name. Why it can't be begun is logged.
pub fn begin_switch<R: Files + AllocGlobal, G: Log>(
    rt: &R,
    log: &G,
    names: &Names,
) -> Result<(), NoSwitch> {
    check_part(rt, log, names)?;
    remove_old_wal(rt, log, names);
    let ledger = names.ledger.as_str();
    match fs::rename(rt, ledger, names.old.as_str()) {
        Ok(()) => Ok(()),
        Err(cause) => Err(stays(log, ledger, cause)),
    }
}

/// Lets the new ledger, which this process has open, take the place of the one that this connection
/// is to, once the switch was begun. The cause of `ProgramFault::Store` is logged; what was done by
/// then, the next start undoes or finishes.
pub fn switch<R: Files + AllocGlobal, G: Log, S: Start>(
    rt: &R,
    log: &G,
    names: &Names,
    old: Connection<FileStore<FileFrom<S>>>,
) -> Result<(), ProgramFault>
    ensures { IfErr result (λ fault. fault ≡ ProgramFault.Store) }
{
    let former = names.old.as_str();
    let synced = sync_folder(rt, former);
    // (closed in any case: the proof of a way out that lets a file's connection go takes long)
    close_file(log, former, old)?;
    if let Err(cause) = synced {
        return Err(unopened(log, former, cause));
    }
    move_file(rt, log, names.part.as_str(), names.next.as_str())?;
    finish(rt, log, names)
}
