//! The frames of a stream, in whatever pieces it comes.
ghost use Rattle.std.specs.Prelude.{◌≡◌, ◌<◌, ◌≤◌, ◌+◌, ◌↔◌, [], ◌++◌, length, OnOk, OnErr, IsOk};
ghost use Rattle.std.specs.Prelude.{Ok, Err, MatchResult};
ghost use Rattle.std.specs.Option.{option_copied};
ghost use Rattle.std.specs.Borrow.{sem};
ghost use Rattle.std.specs.Io.BufRead.{Rests};
ghost use Rattle.mq_frame.specs.Feed.{Takes, front, next_answer, finish_answer};
ghost use Rattle.mq_frame.specs.contracts.feed.FrameFeed.{the_row};

use crate::format::HEAD_BYTES;
use std::alloc::{AllocError, Global};
use std::marker::Model;
use thiserror::Error;

/// The longest body of a request that a server takes.
pub const REQUEST_LIMIT: u16 = 512;

/// The longest body of a reply that a client takes.
pub const REPLY_LIMIT: u16 = 65_535;

/// Why a stream has no further frame.
#[derive(Clone, Copy, Debug, PartialEq, Eq, Error)]
pub enum FrameFault {
    /// A head says a length above the limit.
    #[error("frame too long")]
    TooLong,
    /// A head says the length 0.
    #[error("frame without a body")]
    Empty,
    /// The stream ends inside a frame, or before a whole frame was taken.
    #[error("stream ends inside a frame")]
    CutFrame,
}

/// Takes a stream in pieces, and gives the bodies of its frames.
///
/// A frame is two bytes, the length of its body with the high byte first, and then the body
/// (`docs/FRAMES.md`). How the stream is cut into pieces changes nothing.
///
/// The bytes of a frame that was taken are given up at the next `feed`, which then moves those
/// that are left to the front. So a caller that takes until `None` before it feeds holds at most
/// the piece and one byte more than the limit; each byte is moved at most once. One that
/// leaves frames there has them moved again at each `feed` that comes after a frame was taken.
#[derive(Drop)]
pub struct FrameFeed {
    limit: u16,
    bytes: Vec<u8>,
    // How many of the bytes were taken.
    taken: usize,
}

impl Model for FrameFeed {
    ghost use Rattle.std.specs.Prelude.{drop, ◌≤◌, length, vec_capacity};
    ghost use Rattle.mq_frame.specs.Feed.{Feed};

    ghost Value = { Feed };

    ghost view = { λ feed. record {
      limit = feed.limit;
      rest = drop feed.taken feed.bytes.items;
      held = length feed.bytes.items;
      room = vec_capacity feed.bytes;
    } };

    ghost invariant = { λ feed. feed.taken ≤ length feed.bytes.items };
}

impl FrameFeed {
    /// A feed that was fed nothing. `limit` is the length of the longest body that it gives:
    /// `REQUEST_LIMIT` or `REPLY_LIMIT`.
    pub fn new(alloc: Global, limit: u16) -> FrameFeed
        ensures limit { result.limit ≡ limit }
        ensures rest { result.rest ≡ [] }
        ensures held { result.held ≡ 0 }
    {
        FrameFeed {
            limit,
            bytes: Vec::new(alloc),
            taken: 0,
        }
    }

    /// Adds a piece of the stream, and gives up the bytes that were taken. After an `Err` the
    /// bodies to come are as before.
    pub fn feed(&mut self, piece: &[u8]) -> Result<(), AllocError>
        ensures limit { self.new.limit ≡ self.old.limit }
        ensures ok { OnOk result (self.new.rest ≡ self.old.rest ++ piece.now) }
        ensures err { OnErr result (self.new.rest ≡ self.old.rest) }

        // What is held is what wasn't taken, and after a refused growth no more than before.
        ensures held { OnOk result (self.new.held ≡ length self.new.rest) }
        ensures held_at_err { OnErr result (self.new.held ≤ self.old.held) }

        // Memory is wanted only where there is no room for the rest and the piece, and room never
        // shrinks.
        ensures full { OnErr result (self.old.room < length self.old.rest + length piece.now) }
        ensures room { self.old.room ≤ self.new.room }
    {
        self.give_up_taken();
        self.bytes.extend_from_slice(piece)?;
        Ok(())
    }

    /// Moves what wasn't taken to the front.
    fn give_up_taken(&mut self)
        ensures limit { self.new.limit ≡ self.old.limit }
        ensures rest { self.new.rest ≡ self.old.rest }
        ensures held { self.new.held ≡ length self.new.rest }
        ensures less { self.new.held ≤ self.old.held }
        ensures room { self.new.room ≡ self.old.room }
    {
        if self.taken > 0 {
            let end = self.bytes.len();
            self.bytes.copy_within(self.taken..end, 0);
            self.bytes.truncate(end - self.taken);
            self.taken = 0;
        }
    }

    /// How many bytes the buffer holds: after a `feed` those that were fed and weren't taken before
    /// it. The two bytes of a head belong to what is taken.
    pub fn held(&self) -> usize
        ensures { result ≡ self.now.held }
    {
        self.bytes.len()
    }

    /// The body of the next frame, `None` where no whole frame is there yet. It isn't taken.
    ///
    /// At a head of length 0 it is `Empty`, and at one above the limit `TooLong`, as soon as both
    /// bytes of the head are there.
    pub fn peek_body(&self) -> Result<Option<&[u8]>, FrameFault>
        ensures { MatchResult result
            (λ body. Ok (option_copied body) ≡ next_answer (front self.now.limit self.now.rest))
            (λ fault. Err fault ≡ next_answer (front self.now.limit self.now.rest)) }
    {
        let limit = self.limit as usize;
        match &self.bytes[self.taken..] {
            [high, low, rest @ ..] => {
                let length = 256 * (*high as usize) + *low as usize;
                if length == 0 {
                    return Err(FrameFault::Empty);
                }
                if limit < length {
                    return Err(FrameFault::TooLong);
                }
                if rest.len() < length {
                    return Ok(None);
                }
                Ok(Some(&rest[..length]))
            }
            _ => Ok(None),
        }
    }

    /// Takes the next frame and gives its body, as `peek_body` shows it. Where that is `None` or a
    /// fault, the feed is as before, and answers that again.
    pub fn next_body(&mut self) -> Result<Option<&[u8]>, FrameFault>
        ensures* after { sem 𝓛 (Rests the_row self.entry (Takes self.old)) }
        ensures answer { MatchResult result
            (λ body. Ok (option_copied body) ≡ next_answer (front self.old.limit self.old.rest))
            (λ fault. Err fault ≡ next_answer (front self.old.limit self.old.rest)) }
    {
        let Some(body) = self.peek_body()? else {
            return Ok(None);
        };
        let begin = self.taken + HEAD_BYTES;
        let end = begin + body.len();
        self.taken = end;
        Ok(Some(&self.bytes[begin..end]))
    }

    /// Whether the stream may end here: `Ok` where each byte that was fed was taken with its
    /// frame. `Empty` and `TooLong` come where `next_body` would answer them.
    pub fn finish(&self) -> Result<(), FrameFault>
        ensures answer { result ≡ finish_answer (front self.now.limit self.now.rest) }
        ensures all_taken { IsOk result ↔ (self.now.rest ≡ []) }
    {
        match &self.bytes[self.taken..] {
            [] => Ok(()),
            [0, 0, ..] => Err(FrameFault::Empty),
            [high, low, ..] if self.limit < u16::from_be_bytes([*high, *low]) => {
                Err(FrameFault::TooLong)
            }
            _ => Err(FrameFault::CutFrame),
        }
    }
}
