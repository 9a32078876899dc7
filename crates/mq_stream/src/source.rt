//! Where bytes come from: a source, which fails for good once it has failed.
ghost use Rattle.std.specs.Prelude.{◌≡◌, ◌∷◌, [], ℕ, List, Bool, false, true, Option, None, IsErr};
ghost use Rattle.std.specs.Prelude.{is_err};
ghost use Rattle.std.specs.Io.{ReadsAtMost};
ghost use Rattle.std.specs.Io.KnownBytes.{ReadConsumes};
ghost use Rattle.mq_lemmas.specs.Told.{Tells};
ghost use Rattle.mq_stream.specs.Flow.{read_bytes};

use crate::error::DeviceFault;
use std::io::{ErrorKind, Read};
use std::marker::Model;

/// How often a call that a signal interrupted is made before that counts as a failure.
const TRIES: u32 = 1_000;

/// Where bytes come from.
pub trait Source {
    // The bytes that are still to come, where they are known.
    ghost remaining: { Self → Option (List ℕ) } = { λ _. None };

    // What each read gave so far, the oldest first, where the source reports it.
    ghost reads: { Self → Option (List (List ℕ)) } = { λ _. None };

    // Whether a call has failed.
    ghost has_failed: { Self → Bool };

    /// Reads into the front of `piece` and says how many bytes; 0 of them, where there is room, is
    /// the end of the bytes. Once a call has failed, every later one fails.
    fn read(&mut self, piece: &mut [u8]) -> Result<usize, DeviceFault>
        ensures bound { ReadsAtMost result piece.new }
        ensures bytes { ReadConsumes (remaining self.old) (remaining self.new) result piece.new }
        ensures told { Tells (reads self.old) (reads self.new)
            (read_bytes result piece.new ∷ []) }
        ensures failed { has_failed self.new ≡ is_err result }
        ensures for_good { has_failed self.old ≡ true → IsErr result };
}

/// A reader of std as a source. A read that a signal interrupted is made again.
#[derive(Drop)]
pub struct FromRead<R> {
    reader: R,
    failed: bool,
}

impl<R> Model for FromRead<R> {
    ghost use Rattle.mq_stream.specs.Flow.{Device};

    ghost Value = { Device R };

    ghost view = { λ source. record { inner = source.reader; has_failed = source.failed } };
}

impl<R: Read> FromRead<R> {
    /// A source that hasn't failed.
    pub fn new(reader: R) -> FromRead<R>
        ensures { result ≡ record { inner = reader; has_failed = false } }
    {
        FromRead {
            reader,
            failed: false,
        }
    }

    /// The reader, as the reads left it.
    pub fn into_inner(self) -> R
        ensures { result ≡ self.inner }
    {
        let FromRead { reader, failed: _ } = self;
        reader
    }
}

impl<R: Read> Source for FromRead<R> {
    ghost remaining = { λ source. R.remaining source.inner };

    ghost has_failed = { λ source. source.has_failed };

    fn read(&mut self, piece: &mut [u8]) -> Result<usize, DeviceFault> {
        if self.failed {
            return Err(DeviceFault);
        }
        for attempt in 0..TRIES {
            match self.reader.read(piece) {
                Ok(count) => return Ok(count),
                Err(fault) if fault.kind() == ErrorKind::Interrupted => {}
                Err(_) => break,
            }
        }
        self.failed = true;
        Err(DeviceFault)
    }
}
