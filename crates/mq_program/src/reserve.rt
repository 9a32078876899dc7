//! The reserve of a server: `LEDGER.ballast`, a file of bytes beside its ledger, which is there to
//! be given up once the disk is full.
//!
//! A start makes it whole before it reads the ledger, and writes a margin above it, which it takes
//! away again: so a server comes up only where it can write, and not on the room that a server
//! before it gave up. The margin is tried while it serves, too.
ghost use Rattle.std.specs.Prelude.{◌≡◌, ◌↔◌, IsTrue};
ghost use Rattle.mq_program.specs.Room.{IsFull, blocks_up_to};

use crate::store::{MODE, give_to_owner};
use std::fs::{File, OpenOptions};
use std::io;
use std::io::ErrorKind;
use std::os::unix::fs::{FileExt, OpenOptionsExt};
use std::rt::Files;

/// What is written at once.
const BLOCK: u64 = 65_536;

/// The blocks of the reserve: 4 MiB.
const RESERVE: u64 = 64;

/// The blocks of the reserve and of the margin above it, which is 1 MiB.
const TRIED: u64 = 80;

/// Whether a write fails so for want of room.
pub fn is_full(kind: ErrorKind) -> bool
    ensures { IsTrue result ↔ IsFull kind }
{
    matches!(kind, ErrorKind::StorageFull | ErrorKind::QuotaExceeded)
}

/// Why there is no reserve, or no margin above it.
#[derive(Drop)]
pub enum NoReserve {
    /// Its file can't be opened, or made: that says nothing of the ledger's.
    Unopened(io::Error),
    /// It can't be written.
    Unwritten(io::Error),
}

impl NoReserve {
    pub fn cause(&self) -> &io::Error {
        match self {
            NoReserve::Unopened(cause) | NoReserve::Unwritten(cause) => cause,
        }
    }

    /// Whether a server does without, since there may be room.
    pub fn is_harmless(&self) -> bool {
        matches!(self, NoReserve::Unopened(_)) && !self.is_for_room()
    }

    /// Whether it is for want of room.
    pub fn is_for_room(&self) -> bool {
        is_full(self.cause().kind())
    }
}

/// The whole blocks of a reserve of so many bytes, but none of the margin.
fn whole_blocks(bytes: u64) -> u64
    ensures { result ≡ blocks_up_to RESERVE bytes }
{
    (bytes / BLOCK).min(RESERVE)
}

/// Bytes that no file system stores as fewer.
fn filling() -> [u8; 65_536] {
    let mut block = [0; 65_536];
    let mut state = 1u64;
    for byte in block.iter_mut() {
        state = state
            .wrapping_mul(6_364_136_223_846_793_005)
            .wrapping_add(1_442_695_040_888_963_407);
        *byte = state.to_be_bytes()[0];
    }
    block
}

/// Writes these blocks of a file: those from one on, up to another.
fn fill(file: &File, from: u64, to: u64) -> io::Result<()> {
    let block = filling();
    for number in from..to {
        file.write_all_at(&block, number.saturating_mul(BLOCK))?;
    }
    Ok(())
}

/// Makes a reserve whole that has so many blocks, and tries the margin above it.
fn complete(file: &File, blocks: u64, is_synced: bool) -> io::Result<()> {
    fill(file, blocks, TRIED)?;
    if is_synced {
        file.sync_all()?;
    }
    file.set_len(RESERVE * BLOCK)
}

/// Opens the reserve at a path, or makes an empty file for it.
fn open_reserve<R: Files<File = File> + AllocGlobal>(rt: &R, path: &str) -> io::Result<File> {
    let mut options = OpenOptions::new();
    let options = options.write(true).mode(MODE);
    match options.open(rt, path) {
        Err(cause) if cause.kind() == ErrorKind::NotFound => {
            let file = options.create(true).open(rt, path)?;
            give_to_owner(rt, &file, path)?;
            Ok(file)
        }
        opened => opened,
    }
}

/// Makes a reserve whole, if it isn't, and tries the margin above it. Where it can't be, the
/// reserve has what it had before.
fn keep(file: &File, is_synced: bool) -> io::Result<()> {
    let blocks = whole_blocks(file.metadata()?.len());
    let kept = complete(file, blocks, is_synced);
    if kept.is_err() {
        // (what is told is why it isn't whole)
        let _cut = file.set_len(blocks * BLOCK);
    }
    kept
}

/// Makes the reserve at a path whole, if it isn't, and tries whether the disk has a margin above
/// it. Where it can't be, the reserve has what it had before. With `is_synced` the bytes are on the
/// disk before the margin is taken away.
pub fn keep_reserve<R: Files<File = File> + AllocGlobal>(
    rt: &R,
    path: &str,
    is_synced: bool,
) -> Result<(), NoReserve> {
    let file = match open_reserve(rt, path) {
        Ok(file) => file,
        Err(cause) => return Err(NoReserve::Unopened(cause)),
    };
    match keep(&file, is_synced) {
        Ok(()) => Ok(()),
        Err(cause) => Err(NoReserve::Unwritten(cause)),
    }
}
