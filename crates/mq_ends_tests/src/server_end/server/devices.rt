//! Sources and sinks that fail where a test wants it, and a ledger that reports its calls.
ghost use Rattle.std.specs.Prelude.{◌≡◌, ◌∷◌, ◌++◌, [], IfOk, OnOk, OnErr};

use mq_ledger::{Ledger, LedgerFault, ReportedCall, Zone};
use mq_request::{Reply, Request};
use mq_stream::{DeviceFault, Sink, Source};
use std::alloc::AllocError;
use std::cell::Cell;

/// Gives its bytes in pieces of at most `size`, and fails once `reads` of them were read.
#[derive(Clone, Copy)]
pub struct Pieces<'a> {
    pub rest: &'a [u8],
    pub size: usize,
    pub reads: usize,
    pub failed: bool,
}

impl<'a> Pieces<'a> {
    /// A source that doesn't fail.
    pub fn new(rest: &'a [u8], size: usize) -> Pieces<'a> {
        Pieces {
            rest,
            size,
            reads: usize::MAX,
            failed: false,
        }
    }

    /// A source of single bytes that fails after so many.
    pub fn failing(rest: &'a [u8], reads: usize) -> Pieces<'a> {
        Pieces {
            rest,
            size: 1,
            reads,
            failed: false,
        }
    }
}

impl Source for Pieces<'_> {
    ghost has_failed = { λ source. source.failed };

    fn read(&mut self, piece: &mut [u8]) -> Result<usize, DeviceFault> {
        if self.failed || self.reads == 0 {
            self.failed = true;
            return Err(DeviceFault);
        }
        self.reads -= 1;
        let count = self.rest.len().min(self.size).min(piece.len());
        let (front, rest) = self.rest.split_at(count);
        piece[..count].copy_from_slice(front);
        self.rest = rest;
        Ok(count)
    }
}

/// Takes so many bytes, at most 5 of them at a time, and then fails. It keeps none of them, but
/// what of the wanted ones is still to come, and whether others came.
#[derive(Clone, Copy)]
pub struct Room<'a> {
    pub wanted: &'a [u8],
    pub left: usize,
    pub failed: bool,
    pub strayed: bool,
}

impl<'a> Room<'a> {
    pub fn new(wanted: &'a [u8], left: usize) -> Room<'a> {
        Room {
            wanted,
            left,
            failed: false,
            strayed: false,
        }
    }

    /// Whether just the wanted bytes were written.
    pub fn is_right(&self) -> bool {
        self.wanted.is_empty() && !self.strayed
    }
}

impl Sink for Room<'_> {
    ghost has_failed = { λ sink. sink.failed };

    fn write(&mut self, piece: &[u8]) -> Result<usize, DeviceFault> {
        let count = piece.len().min(self.left).min(5);
        if self.failed || (count == 0 && !piece.is_empty()) {
            self.failed = true;
            return Err(DeviceFault);
        }
        match self.wanted.strip_prefix(&piece[..count]) {
            Some(rest) => self.wanted = rest,
            None => self.strayed = true,
        }
        self.left -= count;
        Ok(count)
    }

    fn flush(&mut self) -> Result<(), DeviceFault> {
        if self.failed {
            return Err(DeviceFault);
        }
        Ok(())
    }
}

/// Gives a byte at a time, and notes whether one was read before all that was written was flushed.
#[derive(Clone, Copy)]
pub struct Watching<'a> {
    pub rest: &'a [u8],
    pub unflushed: &'a Cell<bool>,
    pub early: bool,
}

impl Source for Watching<'_> {
    ghost use Rattle.std.specs.Prelude.{false};

    ghost has_failed = { λ _. false };

    fn read(&mut self, piece: &mut [u8]) -> Result<usize, DeviceFault> {
        if self.unflushed.get() {
            self.early = true;
        }
        match (self.rest, piece) {
            ([byte, rest @ ..], [place, ..]) => {
                *place = *byte;
                self.rest = rest;
                Ok(1)
            }
            _ => Ok(0),
        }
    }
}

/// Takes everything, and keeps nothing.
#[derive(Clone, Copy)]
pub struct Flushing<'a> {
    pub unflushed: &'a Cell<bool>,
}

impl Sink for Flushing<'_> {
    ghost use Rattle.std.specs.Prelude.{false};

    ghost has_failed = { λ _. false };

    fn write(&mut self, piece: &[u8]) -> Result<usize, DeviceFault> {
        self.unflushed.set(true);
        Ok(piece.len())
    }

    fn flush(&mut self) -> Result<(), DeviceFault> {
        self.unflushed.set(false);
        Ok(())
    }
}

/// A copy of an answer.
fn same_answer(
    answer: &Result<Reply, LedgerFault>,
) -> Result<Result<Reply, LedgerFault>, AllocError>
    ensures { IfOk result (λ same. same ≡ answer.now) }
{
    match answer {
        Ok(reply) => {
            let reply = reply.clone()?;
            Ok(Ok(reply))
        }
        Err(fault) => Ok(Err(*fault)),
    }
}

/// Keeps a call. An `Err` keeps nothing.
fn keep(
    calls: &mut Vec<ReportedCall>,
    request: &Request,
    answer: &Result<Reply, LedgerFault>,
) -> Result<(), AllocError>
    ensures kept { OnOk result (calls.new.items
        ≡ calls.old.items ++ record { request = request.now; answer = answer.now } ∷ []) }
    ensures lost { OnErr result (calls.new.items ≡ calls.old.items) }
{
    let answer = same_answer(answer)?;
    let request = request.clone()?;
    calls.push(ReportedCall { request, answer })?;
    Ok(())
}

/// A ledger that keeps its calls, and reports them as long as none was lost as memory ran out.
#[derive(Drop)]
pub struct Telling<L> {
    pub inner: L,
    pub calls: Vec<ReportedCall>,
    pub tells: bool,
}

impl<L: Ledger> Ledger for Telling<L> {
    ghost use Rattle.std.specs.Prelude.{if◌then◌else◌, Some, None};

    ghost told = { λ s. if s.tells then Some s.calls.items else None };

    ghost book = { λ s. L.book s.inner };

    ghost has_kept = { λ s. L.has_kept s.inner };

    ghost is_sound = { λ s. L.is_sound s.inner };

    ghost sound_is_kept = { λ s. L.sound_is_kept s.inner };

    ghost sound_is_legal = { λ s. L.sound_is_legal s.inner };

    fn zone(&self) -> &Zone {
        self.inner.zone()
    }

    fn default_cap(&self) -> u32 {
        self.inner.default_cap()
    }

    fn apply(&mut self, request: &Request) -> Result<Reply, LedgerFault> {
        let answer = self.inner.apply(request);
        if keep(&mut self.calls, request, &answer).is_err() {
            self.tells = false;
        }
        answer
    }
}
