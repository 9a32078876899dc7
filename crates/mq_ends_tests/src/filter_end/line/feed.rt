//! Lines of a text, in pieces and cut off.

use crate::filter_end::asserts::{MEMORY, assert_count, assert_that};
use mq_line::{FeedFault, LineFeed, MAX_LINE};
use std::alloc::Global;
use std::process::Abort;

/// A call of a feed, and what it answers.
#[derive(Clone, Copy)]
enum Step<'a> {
    Feed(&'a [u8]),
    /// So many letters.
    Letters(usize),
    /// A piece that is given again where an allocation for it fails.
    Again(&'a [u8]),
    /// Each byte of a line alone, and then its LF.
    ByteByByte(&'a [u8]),
    /// Which line comes next, or that none is whole.
    Next(Option<&'a [u8]>),
    /// The next line is of so many letters.
    NextLetters(usize),
    /// No line can come.
    TooLong,
    Finish(Result<(), FeedFault>),
    Held(usize),
}

fn take(rt: &impl Abort, alloc: Global, feed: &mut LineFeed, step: Step<'_>) {
    match step {
        Step::Feed(piece) => give(rt, feed, piece),
        Step::Letters(count) => give_letters(rt, alloc, feed, count),
        Step::Again(piece) => give_again(rt, feed, piece),
        Step::ByteByByte(line) => give_bytes(rt, feed, line),
        Step::Next(wanted) => assert_next(rt, feed, Ok(wanted)),
        Step::NextLetters(count) => assert_letters(rt, alloc, feed, count),
        Step::TooLong => assert_next(rt, feed, Err(FeedFault::TooLong)),
        Step::Finish(wanted) => assert_that(rt, feed.finish() == wanted, "the end"),
        Step::Held(wanted) => assert_count(rt, feed.held(), wanted, "held"),
    }
}

fn letters(rt: &impl Abort, alloc: Global, count: usize) -> Vec<u8> {
    vec![in alloc; b'a'; count].expect(rt, MEMORY)
}

fn give_letters(rt: &impl Abort, alloc: Global, feed: &mut LineFeed, count: usize) {
    give(rt, feed, &letters(rt, alloc, count));
}

fn assert_letters(rt: &impl Abort, alloc: Global, feed: &mut LineFeed, count: usize) {
    assert_next(rt, feed, Ok(Some(&letters(rt, alloc, count))));
}

fn give(rt: &impl Abort, feed: &mut LineFeed, piece: &[u8]) {
    feed.feed(piece).expect(rt, MEMORY);
}

/// Where an allocation fails, as `rt try --test --fail-alloc N` has it, the piece can be given
/// again.
fn give_again(rt: &impl Abort, feed: &mut LineFeed, piece: &[u8]) {
    let before = feed.held();
    if feed.feed(piece).is_err() {
        assert_that(rt, feed.held() <= before, "no more is held");
        give(rt, feed, piece);
    }
}

/// No byte of a line ends it, but its LF does.
fn give_bytes(rt: &impl Abort, feed: &mut LineFeed, line: &[u8]) {
    for byte in line {
        give(rt, feed, &[*byte]);
        assert_next(rt, feed, Ok(None));
    }
    give(rt, feed, b"\n");
    assert_next(rt, feed, Ok(Some(line)));
}

fn assert_next(rt: &impl Abort, feed: &mut LineFeed, wanted: Result<Option<&[u8]>, FeedFault>) {
    assert_that(rt, feed.next_line() == wanted, "the next line");
}

/// The longest line, whose LF comes by itself.
const LONGEST: &[Step<'static>] = &[
    Step::Letters(MAX_LINE),
    Step::Next(None),
    Step::Feed(b"\n"),
    Step::NextLetters(MAX_LINE),
    Step::Finish(Ok(())),
];

/// One byte more is too long for good.
const TOO_LONG: &[Step<'static>] = &[
    Step::Letters(MAX_LINE),
    Step::Feed(b"a"),
    Step::TooLong,
    Step::Feed(b"\n"),
    Step::TooLong,
    Step::Finish(Err(FeedFault::TooLong)),
];

const ENDS_INSIDE_A_LINE: &[Step<'static>] = &[
    Step::Finish(Ok(())),
    Step::Feed(b"config"),
    Step::Next(None),
    Step::Finish(Err(FeedFault::CutLine)),
];

/// What was taken leaves as the next piece comes.
const HOLDS: &[Step<'static>] = &[
    Step::Held(0),
    Step::Feed(b"ab\ncd"),
    Step::Held(5),
    Step::Next(Some(b"ab")),
    Step::Next(None),
    Step::Feed(b"e"),
    Step::Held(3),
    Step::Feed(b"\n"),
    Step::Next(Some(b"cde")),
    Step::Feed(b""),
    Step::Held(0),
];

const PIECES_OF_ONE_BYTE: &[Step<'static>] = &[
    Step::ByteByByte(b"config|ready"),
    Step::ByteByByte(b""),
    Step::ByteByByte(b"report|0.7|1.0"),
    Step::ByteByByte(b"x"),
    Step::Finish(Ok(())),
];

/// A refused growth loses nothing.
const GIVEN_AGAIN: &[Step<'static>] = &[
    Step::Again(b"ab\nc"),
    Step::Next(Some(b"ab")),
    Step::Next(None),
    Step::Again(b"defghijklmnopqrst\nu"),
    Step::Next(Some(b"cdefghijklmnopqrst")),
    Step::Next(None),
    Step::Again(b"v\n"),
    Step::Next(Some(b"uv")),
    Step::Next(None),
    Step::Finish(Ok(())),
];

const FEEDS: &[&[Step<'static>]] = &[
    GIVEN_AGAIN,
    LONGEST,
    TOO_LONG,
    ENDS_INSIDE_A_LINE,
    HOLDS,
    PIECES_OF_ONE_BYTE,
];

fn play(rt: &impl Abort, alloc: Global, steps: &[Step<'_>]) {
    let mut feed = LineFeed::new(alloc);
    for step in steps {
        take(rt, alloc, &mut feed, *step);
    }
}

#[test]
fn lines_of_a_feed(rt: HostRuntime) {
    for steps in FEEDS {
        play(&rt, rt.alloc(), steps);
    }
}
