//! Each answer is flushed before the next read.
ghost use Rattle.std.specs.Prelude.{◌≡◌, ◌∷◌, ◌++◌, [], true, false};

use super::devices::Taker;
use super::*;
use mq_stream::DeviceFault;
use std::cell::Cell;

/// Gives its bytes in pieces, reports what each read gave, and notes whether what those before ask
/// for was flushed at each read, no more and no less, and the most bytes that a read asks for.
#[derive(Drop)]
struct Watching<'a> {
    alloc: Global,
    rest: &'a [u8],
    /// How many bytes each read gives, and how many the filter writes for them.
    pieces: &'a [(usize, usize)],
    due: usize,
    flushed: &'a Cell<usize>,
    off: bool,
    most: usize,
    /// What each read gave, the oldest first.
    given: Vec<Bytes>,
    /// Memory was found for all of that.
    tells: bool,
}

/// Keeps what a read gave, and answers whether it could.
fn keep(alloc: Global, given: &mut Vec<Bytes>, piece: &[u8]) -> bool
    ensures kept { result ≡ true → given.new.items ≡ given.old.items ++ piece.now ∷ [] }
    ensures lost { result ≡ false → given.new.items ≡ given.old.items }
{
    let Ok(piece) = Bytes::from_slice(alloc, piece) else {
        return false;
    };
    given.push(piece).is_ok()
}

impl<'a> Watching<'a> {
    fn new(alloc: Global, rest: &'a [u8], flushed: &'a Cell<usize>) -> Watching<'a> {
        Watching {
            alloc,
            rest,
            pieces: PIECES,
            due: 0,
            flushed,
            off: false,
            most: 0,
            given: Vec::new(alloc),
            tells: true,
        }
    }
}

impl Source for Watching<'_> {
    ghost use Rattle.std.specs.Prelude.{false, if◌then◌else◌, Some, None};

    ghost reads = { λ source. if source.tells then Some source.given.items else None };

    ghost has_failed = { λ _. false };

    fn read(&mut self, piece: &mut [u8]) -> Result<usize, DeviceFault> {
        self.off = self.off || self.flushed.get() != self.due;
        self.most = self.most.max(piece.len());
        let (size, asked) = match self.pieces.split_first() {
            Some((first, later)) => {
                self.pieces = later;
                *first
            }
            None => (0, 0),
        };
        let count = self.rest.len().min(size).min(piece.len());
        let (front, rest) = self.rest.split_at(count);
        piece[..count].copy_from_slice(front);
        self.rest = rest;
        self.due = self.due.wrapping_add(asked);
        if !keep(self.alloc, &mut self.given, &piece[..count]) {
            self.tells = false;
        }
        Ok(count)
    }
}

/// The reads: the front, two answers in one read, a line in two pieces.
const PIECES: &[(usize, usize)] = &[
    (CONFIG.len(), REGISTRATION.len()),
    (
        AUTH.len() + BEGIN.len() + 2 * RECIPIENT.len(),
        2 * PROCEED.len(),
    ),
    (40, 0),
    (RECIPIENT.len() - 40, LIMIT.len()),
    (COMMIT.len(), 0),
];

const LINES: &[&str] = &[CONFIG, AUTH, BEGIN, RECIPIENT, RECIPIENT, RECIPIENT, COMMIT];

const REPLIES: &[Reply<'static>] = &[
    GRANTED,
    Reply::Body("81 036d7831 0000000000000001 00000002 00000002"),
    Reply::Body("82 036d7831 0000000000000001 00000003 00000002 00000002"),
    Reply::Body("83 036d7831 0000000000000001 00000004 00000002"),
];

const ANSWERS: &[&str] = &[REGISTRATION, PROCEED, PROCEED, LIMIT];

/// A run whose sink fails at each flush or at none.
#[derive(Clone, Copy)]
struct Case {
    is_stuck: bool,
    ended: End,
    taken: usize,
    reads: usize,
    exchanges: usize,
}

const FLUSHED: Case = Case {
    is_stuck: false,
    ended: THREE_ANSWERS,
    taken: REGISTRATION.len() + 2 * PROCEED.len() + LIMIT.len(),
    // the last read finds the end
    reads: PIECES.len() + 1,
    exchanges: 4,
};

const STUCK: Case = Case {
    is_stuck: true,
    ended: Err(FilterFault::Write),
    taken: REGISTRATION.len(),
    reads: 1,
    exchanges: 0,
};

/// Asserts that each answer of a run is flushed before the next read.
fn assert_flushes(rt: &impl Abort, alloc: Global, case: &Case) {
    let input = joined(rt, alloc, LINES);
    let output = joined(rt, alloc, ANSWERS);
    let mut rig = rig_of(rt, alloc, 3, REPLIES);
    assert_flushed_run(rt, alloc, &mut rig, case, &input, &output);
}

/// The same of a run that reads this and is to write that.
fn assert_flushed_run(
    rt: &impl Abort,
    alloc: Global,
    rig: &mut Rig,
    case: &Case,
    input: &str,
    output: &str,
) {
    let flushed = Cell::new(0);
    let mut source = Watching::new(alloc, input.as_bytes(), &flushed);
    let mut sink = Taker::wide(output.as_bytes(), &flushed, case.is_stuck);
    let ended = run(alloc, rig, &mut source, &mut sink);
    assert_ended(rt, ended, case.ended, "flushes");
    assert_watched(rt, &source, case.reads);
    assert_that(rt, !sink.is_other, "what was written");
    assert_count(rt, sink.taken, case.taken, "bytes");
    assert_count(rt, rig.link.kept().len(), case.exchanges, "exchanges");
}

fn assert_watched(rt: &impl Abort, source: &Watching<'_>, reads: usize) {
    assert_that(rt, !source.off, "what was due was flushed");
    assert_that(
        rt,
        source.most <= 4096,
        "a read asks for 4,096 bytes at most",
    );
    assert_that(rt, source.tells, "the reads were kept");
    assert_count(rt, source.given.len(), reads, "reads");
}

#[test]
fn flushes_before_it_reads(rt: HostRuntime) {
    assert_flushes(&rt, rt.alloc(), &FLUSHED);
    assert_flushes(&rt, rt.alloc(), &STUCK);
}
