//! The file of settings.
ghost use Rattle.std.specs.Prelude.{◌≡◌, ◌≢◌, ◌≤◌, ◌<◌, Err, IfOk, IfSome, length, vec_len};
ghost use Rattle.mq_settings.specs.Files.{IsText};

use std::alloc::Global;
use std::fs::File;
use std::io;
use std::io::{ErrorKind, Read};
use std::rt::Files;
use thiserror::Error;

/// The most bytes of a settings file.
const LIMIT: u64 = 65_536;

/// Why a settings file isn't read.
#[derive(Debug, Drop, Error)]
pub enum FileFault {
    /// The system refused to open or to read it.
    #[error("settings can't be read")]
    Unreadable(io::Error),
    #[error("settings too large")]
    TooLarge,
    #[error("out of memory")]
    Memory,
}

fn fault_of(error: io::Error) -> FileFault
    ensures { result ≢ FileFault.TooLarge }
{
    if error.kind() == ErrorKind::OutOfMemory {
        return FileFault::Memory;
    }
    FileFault::Unreadable(error)
}

/// All bytes of a source, if they are at most 65,536.
pub fn read_limited<S: Read + Drop>(alloc: Global, source: S) -> Result<Vec<u8>, FileFault>
    ensures whole { IfOk result (λ bytes. IsText (S.remaining source) bytes.items) }
    ensures limit { IfOk result (λ bytes. vec_len bytes ≤ 65536) }
    ensures too_large { result ≡ Err FileFault.TooLarge
        → IfSome (S.remaining source) (λ all. 65536 < length all) }
{
    let mut bytes = Vec::new(alloc);
    // One byte more than may be there shows that there is too much.
    match source.take(LIMIT + 1).read_to_end(&mut bytes) {
        Ok(_) if bytes.len() as u64 <= LIMIT => Ok(bytes),
        Ok(_) => Err(FileFault::TooLarge),
        Err(error) => Err(fault_of(error)),
    }
}

/// The bytes of a settings file, at most 65,536: all that the file gives which is opened.
pub fn read_file<R: Files + AllocGlobal>(rt: &R, path: &str) -> Result<Vec<u8>, FileFault>
    ensures whole { IfOk result (λ bytes. (file : R.File)
        × IsText (R.File.remaining file) bytes.items) }
    ensures limit { IfOk result (λ bytes. vec_len bytes ≤ 65536) }
    ensures too_large { result ≡ Err FileFault.TooLarge → (file : R.File)
        × IfSome (R.File.remaining file) (λ all. 65536 < length all) }
{
    match File::open(rt, path) {
        Ok(file) => read_limited(rt.alloc(), file),
        Err(error) => Err(fault_of(error)),
    }
}
