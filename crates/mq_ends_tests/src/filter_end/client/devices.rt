//! Devices of a run that fail in its middle, or that know what comes.
use mq_stream::{DeviceFault, Sink, Source};
use std::cell::Cell;

/// A source that gives a byte at a time and fails at its so many-th read.
#[derive(Drop)]
pub struct Dropper<'a> {
    rest: &'a [u8],
    reads: usize,
    failed: bool,
}

impl<'a> Dropper<'a> {
    pub fn new(rest: &'a [u8], reads: usize) -> Dropper<'a> {
        Dropper {
            rest,
            reads,
            failed: false,
        }
    }
}

impl Source for Dropper<'_> {
    ghost has_failed = { λ s. s.failed };

    fn read(&mut self, piece: &mut [u8]) -> Result<usize, DeviceFault> {
        if self.failed || self.reads == 0 {
            self.failed = true;
            return Err(DeviceFault);
        }
        self.reads -= 1;
        match (self.rest.split_first(), piece.split_first_mut()) {
            (Some((byte, rest)), Some((place, _))) => {
                *place = *byte;
                self.rest = rest;
                Ok(1)
            }
            _ => Ok(0),
        }
    }
}

/// A sink that knows what is to be written, and that fails once it took so many bytes, or at a
/// flush.
#[derive(Drop)]
pub struct Taker<'a> {
    /// What is still to be written.
    wanted: &'a [u8],
    pub is_other: bool,
    pub taken: usize,
    /// How many of the bytes were flushed.
    flushed: &'a Cell<usize>,
    /// All that was taken was flushed.
    clean: bool,
    /// It takes a byte at a time.
    is_narrow: bool,
    room: usize,
    /// Whether each flush fails.
    is_stuck: bool,
    failed: bool,
}

impl<'a> Taker<'a> {
    /// Takes a byte at a time, and so many of them.
    pub fn narrow(wanted: &'a [u8], flushed: &'a Cell<usize>, room: usize) -> Taker<'a> {
        Taker {
            wanted,
            is_other: false,
            taken: 0,
            flushed,
            clean: true,
            is_narrow: true,
            room,
            is_stuck: false,
            failed: false,
        }
    }

    /// Takes everything.
    pub fn wide(wanted: &'a [u8], flushed: &'a Cell<usize>, is_stuck: bool) -> Taker<'a> {
        Taker {
            wanted,
            is_other: false,
            taken: 0,
            flushed,
            clean: true,
            is_narrow: false,
            room: usize::MAX,
            is_stuck,
            failed: false,
        }
    }
}

/// Goes on after this piece, and answers whether it stood there.
fn pass(wanted: &mut &[u8], piece: &[u8]) -> bool {
    match wanted.strip_prefix(piece) {
        Some(rest) => {
            *wanted = rest;
            true
        }
        None => false,
    }
}

impl Sink for Taker<'_> {
    ghost use Rattle.std.specs.Prelude.{Some};

    ghost has_flushed = { λ sink. Some sink.clean };

    ghost has_failed = { λ sink. sink.failed };

    fn write(&mut self, piece: &[u8]) -> Result<usize, DeviceFault> {
        let count = if self.is_narrow {
            piece.len().min(1)
        } else {
            piece.len()
        };
        if self.failed || count > self.room {
            self.failed = true;
            return Err(DeviceFault);
        }
        self.room -= count;
        if !pass(&mut self.wanted, &piece[..count]) {
            self.is_other = true;
        }
        self.taken = self.taken.wrapping_add(count);
        self.clean = self.clean && count == 0;
        Ok(count)
    }

    fn flush(&mut self) -> Result<(), DeviceFault> {
        if self.failed || self.is_stuck {
            self.failed = true;
            return Err(DeviceFault);
        }
        self.flushed.set(self.taken);
        self.clean = true;
        Ok(())
    }
}
