//! The room that a start needs on its disk, before it reads the ledger.
ghost use Rattle.std.specs.Prelude.{◌≡◌, ◌⊎◌, IfErr};

use crate::caretaker::give_up_former;
use crate::fault::ProgramFault;
use crate::reserve::{NoReserve, keep_reserve};
use crate::switching::{Names, discard_part, hold, is_there, repair_switch};
use log::{Log, error};
use std::fs;
use std::fs::File;
use std::io::ErrorKind;
use std::rt::Files;

/// Logs why the reserve of a server can't be kept as it starts.
fn no_room<G: Log>(log: &G, names: &Names, lack: &NoReserve) -> ProgramFault
    ensures { (result ≡ ProgramFault.Memory) ⊎ (result ≡ ProgramFault.Store) }
{
    let reserve = names.reserve.as_str();
    let cause = lack.cause();
    if cause.kind() == ErrorKind::OutOfMemory {
        return ProgramFault::Memory;
    }
    if lack.is_for_room() {
        error!(log; "{reserve}: {cause}; a server needs 5 MiB, this file's 4 among them");
    } else {
        error!(log; "{reserve}: {cause}");
    }
    ProgramFault::Store
}

/// Makes the reserve whole. Where the disk is full and no other process has the ledger open, what
/// an interrupted renewal has left goes for it, and then the former ledger, where days leave this
/// one.
fn make_reserve<R: Files<File = File> + AllocGlobal, G: Log>(
    rt: &R,
    log: &G,
    names: &Names,
    has_nights: bool,
) -> Result<(), NoReserve> {
    let reserve = names.reserve.as_str();
    let Err(lack) = keep_reserve(rt, reserve, true) else {
        return Ok(());
    };
    if !lack.is_for_room() {
        return Err(lack);
    }
    let Ok(Some(_held)) = hold(rt, names.ledger.as_str()) else {
        return Err(lack);
    };
    discard_part(rt, log, names);
    let Err(lack) = keep_reserve(rt, reserve, true) else {
        return Ok(());
    };
    if !has_nights || !is_there(rt, names.old.as_str()) {
        return Err(lack);
    }
    give_up_former(rt, log, names, lack.cause());
    keep_reserve(rt, reserve, true)
}

/// Whether a ledger may be in the file of this name, or is to be made there.
fn may_have_ledger<R: Files>(rt: &R, path: &str, create: bool) -> bool {
    match fs::metadata(rt, path) {
        Ok(found) => found.is_file(),
        Err(cause) => create && cause.kind() == ErrorKind::NotFound,
    }
}

/// Makes sure that a server can write beside its ledger, before it reads that: it has its reserve,
/// and there is room above it. What prevents it is logged. `has_nights` says that days leave the
/// ledger.
///
/// Where the reserve's file can't be opened or made, though there is room, the server does without:
/// that the ledger's can't be either is said where it is opened.
pub fn prepare_room<R: Files<File = File> + AllocGlobal, G: Log>(
    rt: &R,
    log: &G,
    names: &Names,
    has_nights: bool,
    create: bool,
) -> Result<(), ProgramFault>
    ensures { IfErr result (λ fault. (fault ≡ ProgramFault.Memory) ⊎ (fault ≡ ProgramFault.Store)) }
{
    let ledger = names.ledger.as_str();
    repair_switch(rt, log, ledger)?;
    if !may_have_ledger(rt, ledger, create) {
        return Ok(());
    }
    match make_reserve(rt, log, names, has_nights) {
        Err(lack) if !lack.is_harmless() => Err(no_room(log, names, &lack)),
        _ => Ok(()),
    }
}
