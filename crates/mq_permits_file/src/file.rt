//! The bytes of the file.
ghost use Rattle.std.specs.Prelude.{◌≤◌, IfOk, vec_len};

use std::fs::File;
use std::io;
use std::io::{ErrorKind, Read};
use std::rt::Files;
use thiserror::Error;

/// The most bytes of the file: 1 MiB.
const LIMIT: u64 = 1_048_576;

/// Why the file isn't read.
#[derive(Debug, Drop, Error)]
pub enum FileFault {
    /// The system refused to open or to read it.
    #[error("{0}")]
    Unreadable(io::Error),
    #[error("more than 1 MiB")]
    TooLarge,
    #[error("out of memory")]
    Memory,
}

fn fault_of(error: io::Error) -> FileFault {
    if error.kind() == ErrorKind::OutOfMemory {
        return FileFault::Memory;
    }
    FileFault::Unreadable(error)
}

/// The bytes of the file at a path, at most 1 MiB: all that it gives.
pub fn read_file<R: Files + AllocGlobal>(rt: &R, path: &str) -> Result<Vec<u8>, FileFault>
    ensures { IfOk result (λ bytes. vec_len bytes ≤ 1048576) }
{
    let file = match File::open(rt, path) {
        Ok(file) => file,
        Err(error) => return Err(fault_of(error)),
    };
    let mut bytes = Vec::new(rt.alloc());
    // One byte more than may be there shows that there is too much.
    match file.take(LIMIT + 1).read_to_end(&mut bytes) {
        Ok(_) if bytes.len() as u64 <= LIMIT => Ok(bytes),
        Ok(_) => Err(FileFault::TooLarge),
        Err(error) => Err(fault_of(error)),
    }
}
