//! Frames in a stream, in pieces and cut off.

use crate::server_end::asserts::{MEMORY, assert_that};
use mq_frame::{FrameFault, FrameFeed, REPLY_LIMIT, REQUEST_LIMIT};
use std::alloc::Global;
use std::process::Abort;

/// A call of a feed and what it answers.
#[derive(Clone, Copy)]
enum Call<'a> {
    Feed(&'a [u8]),
    /// So many bytes of the value 7, in pieces of one byte.
    FeedSevens(u16),
    Next(Result<Option<&'a [u8]>, FrameFault>),
    /// The next body is so many bytes of the value 7.
    NextSevens(u16),
    Finish(Result<(), FrameFault>),
    Held(usize),
}

type Calls = &'static [Call<'static>];

/// Feeds a piece. Without clauses, as all that calls a feed, so that its callers stay cheap to
/// prove.
fn feed_piece(rt: &impl Abort, feed: &mut FrameFeed, piece: &[u8]) {
    feed.feed(piece).expect(rt, MEMORY);
}

fn feed_sevens(rt: &impl Abort, feed: &mut FrameFeed, count: u16) {
    for _ in 0..count {
        feed_piece(rt, feed, &[0x07]);
    }
}

fn are_sevens(bytes: &[u8], count: u16) -> bool {
    bytes.len() == count as usize && bytes.iter().all(|byte| *byte == 0x07)
}

/// Makes a call.
fn check_call(rt: &impl Abort, feed: &mut FrameFeed, call: Call<'_>) {
    match call {
        Call::Feed(piece) => feed_piece(rt, feed, piece),
        Call::FeedSevens(count) => feed_sevens(rt, feed, count),
        Call::Next(answer) => assert_that(rt, feed.next_body() == answer, "the next body"),
        Call::NextSevens(count) => {
            let found = matches!(feed.next_body(), Ok(Some(body)) if are_sevens(body, count));
            assert_that(rt, found, "so many sevens");
        }
        Call::Finish(answer) => assert_that(rt, feed.finish() == answer, "the end"),
        Call::Held(count) => assert_that(rt, feed.held() == count, "what is held"),
    }
}

/// Makes the calls of a new feed in turn.
fn check_calls(rt: &impl Abort, alloc: Global, limit: u16, calls: Calls) {
    let mut feed = FrameFeed::new(alloc, limit);
    for call in calls {
        check_call(rt, &mut feed, *call);
    }
}

const TOO_LONG: Calls = &[
    Call::Feed(&[0x02, 0x01]),
    Call::Next(Err(FrameFault::TooLong)),
    Call::Feed(&[0x01, 0x8d]),
    Call::Next(Err(FrameFault::TooLong)),
    Call::Finish(Err(FrameFault::TooLong)),
];

const FAR_TOO_LONG: Calls = &[
    Call::Feed(&[0xff, 0xff, 0x05]),
    Call::Next(Err(FrameFault::TooLong)),
    Call::Feed(&[0x01, 0x8d]),
    Call::Next(Err(FrameFault::TooLong)),
    Call::Finish(Err(FrameFault::TooLong)),
];

const EMPTY: Calls = &[
    Call::Feed(&[0x00, 0x00]),
    Call::Next(Err(FrameFault::Empty)),
    Call::Feed(&[0x01, 0x8d]),
    Call::Next(Err(FrameFault::Empty)),
    Call::Finish(Err(FrameFault::Empty)),
];

const EMPTY_AND_MORE: Calls = &[
    Call::Feed(&[0x00, 0x00, 0x01, 0x8d]),
    Call::Next(Err(FrameFault::Empty)),
    Call::Feed(&[0x01, 0x8d]),
    Call::Next(Err(FrameFault::Empty)),
    Call::Finish(Err(FrameFault::Empty)),
];

const LONGEST_REQUEST: Calls = &[
    Call::Feed(&[0x02, 0x00]),
    Call::FeedSevens(511),
    Call::Next(Ok(None)),
    Call::Finish(Err(FrameFault::CutFrame)),
    Call::Feed(&[0x07, 0x00]),
    Call::Finish(Err(FrameFault::CutFrame)),
    Call::NextSevens(512),
    Call::Finish(Err(FrameFault::CutFrame)),
];

const LONGEST_REPLY: Calls = &[
    Call::Feed(&[0xff, 0xff]),
    Call::FeedSevens(65_534),
    Call::Next(Ok(None)),
    Call::Finish(Err(FrameFault::CutFrame)),
    Call::Feed(&[0x07, 0x00]),
    Call::Finish(Err(FrameFault::CutFrame)),
    Call::NextSevens(65_535),
    Call::Finish(Err(FrameFault::CutFrame)),
];

const PIECES_OF_ONE_BYTE: Calls = &[
    Call::Finish(Ok(())),
    Call::Feed(&[0x00]),
    Call::Next(Ok(None)),
    Call::Feed(&[0x01]),
    Call::Next(Ok(None)),
    Call::Feed(&[0x8d]),
    Call::Next(Ok(Some(&[0x8d]))),
    Call::Feed(&[0x00]),
    Call::Next(Ok(None)),
    Call::Feed(&[0x02]),
    Call::Next(Ok(None)),
    Call::Feed(&[0x8e]),
    Call::Next(Ok(None)),
    Call::Feed(&[0x00]),
    Call::Next(Ok(Some(&[0x8e, 0x00]))),
    Call::Finish(Ok(())),
];

const HELD_BYTES: Calls = &[
    Call::Held(0),
    Call::Feed(&[0x00, 0x01, 0x8e, 0x00]),
    Call::Next(Ok(Some(&[0x8e]))),
    Call::Held(4),
    Call::Feed(&[0x01]),
    Call::Held(2),
    Call::Feed(&[0x8d]),
    Call::Next(Ok(Some(&[0x8d]))),
    Call::Held(3),
];

/// Calls of a feed with this limit.
const FEEDS: &[(u16, Calls)] = &[
    // A body is known to be too long or empty as soon as its head is there, and stays so.
    (REQUEST_LIMIT, TOO_LONG),
    (REQUEST_LIMIT, FAR_TOO_LONG),
    (REQUEST_LIMIT, EMPTY),
    (REPLY_LIMIT, EMPTY_AND_MORE),
    // A body of the greatest length, and a stream that ends before its last byte.
    (REQUEST_LIMIT, LONGEST_REQUEST),
    (REPLY_LIMIT, LONGEST_REPLY),
    // Two frames in pieces of one byte, as they are in one piece.
    (REPLY_LIMIT, PIECES_OF_ONE_BYTE),
    // A frame that was taken is given up with the next piece, and what is left of the bytes is
    // held.
    (REQUEST_LIMIT, HELD_BYTES),
];

#[test]
fn frames_in_pieces(rt: HostRuntime) {
    for (limit, calls) in FEEDS {
        check_calls(&rt, rt.alloc(), *limit, *calls);
    }
}
