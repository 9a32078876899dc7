//! A text that comes in pieces, and its lines.
ghost use Rattle.std.specs.Prelude.{◌≡◌, ◌<◌, ◌≤◌, ◌+◌, ◌++◌, ◌∷◌, ◌↔◌, ◌≢◌, [], Err, IsOk, ℕ};
ghost use Rattle.std.specs.Prelude.{List, length};
ghost use Rattle.std.specs.Prelude.{slice_get, OnOk, OnErr, IfOk, IfErr, IfNone, MatchOption};
ghost use Rattle.std.specs.Prelude.{MatchResult};
ghost use Rattle.std.specs.Option.{option_copied};
ghost use Rattle.std.specs.Borrow.{sem};
ghost use Rattle.std.specs.Io.BufRead.{Rests};
ghost use Rattle.mq_line.specs.Text.{IsLine, IsTooLong, Holds, Leaves, HasNoLine, lines};
ghost use Rattle.mq_line.specs.Search.{IsSearched, IsFront};
ghost use Rattle.mq_line.specs.contracts.feed.LineFeed.{the_row};

use crate::fault::FeedFault;
use bstr::ByteSlice;
use std::alloc::{AllocError, Global};
use std::marker::Model;

/// The most bytes that a line has, its LF not counted.
pub const MAX_LINE: usize = 65_536;

/// What stands in front of the bytes that a feed holds.
#[derive(Clone, Copy)]
enum Front {
    /// A line of so many bytes, and its LF.
    Whole(usize),
    /// Bytes that may become a line.
    Open,
    /// More bytes than a line has, without an LF.
    Endless,
}

/// What stands in front of `rest`, of which the first bytes were searched and have no LF.
fn front_of(rest: &[u8], searched: usize) -> Front
    requires { IsSearched rest.now searched }
    ensures { IsFront rest.now result }
{
    // One byte more than a line has: without an LF up to there, none that comes later can end this
    // line.
    let end = rest.len().min(MAX_LINE + 1);
    let unsearched = &rest[searched..end];
    match unsearched.find_byte(b'\n') {
        Some(place) => Front::Whole(searched + place),
        None if end > MAX_LINE => Front::Endless,
        None => Front::Open,
    }
}

/// Takes a text in pieces and gives its lines: the bytes before each LF, at most 65,536 of them.
///
/// A contract sees of a feed `rest`, the bytes that were fed and not taken, `held`, how many bytes
/// it keeps, and `room`, for how many it has memory. However the text is cut into pieces, the lines
/// are the same. What was taken leaves at the next `feed`, and then the rest moves to the front;
/// what was searched for an LF isn't searched again. So a caller that takes lines until `None`
/// before each `feed` pays for a text by its length, however short its pieces are, and the feed
/// keeps at most 65,536 bytes and a piece. One that leaves whole lines there pays once more for
/// them at each `feed` that follows a line.
#[derive(Drop)]
pub struct LineFeed {
    // What was fed, from the first byte that wasn't taken before the last `feed`.
    bytes: Vec<u8>,
    // Where the bytes begin that weren't taken.
    start: usize,
    // How many bytes of the rest have been searched for an LF, in vain.
    searched: usize,
}

impl Model for LineFeed {
    ghost use Rattle.std.specs.Prelude.{drop, length, vec_capacity, ◌≤◌};
    ghost use Rattle.mq_line.specs.Feed.{Feed};
    ghost use Rattle.mq_line.specs.Search.{IsSearched};

    ghost Value = { Feed };

    ghost view = { λ f. record {
      rest = drop f.start f.bytes.items;
      held = length f.bytes.items;
      room = vec_capacity f.bytes;
    } };

    ghost invariant = { λ f. (f.start ≤ length f.bytes.items)
        × IsSearched (drop f.start f.bytes.items) f.searched };
}

impl LineFeed {
    /// A feed of nothing. It takes no memory.
    pub fn new(alloc: Global) -> LineFeed
        ensures empty { result.rest ≡ [] }
        ensures none_left { HasNoLine result.rest }
        ensures held { result.held ≡ 0 }
    {
        LineFeed {
            bytes: Vec::new(alloc),
            start: 0,
            searched: 0,
        }
    }

    /// Adds the next piece of the text. After an `Err` the lines to come are as before.
    pub fn feed(&mut self, piece: &[u8]) -> Result<(), AllocError>
        ensures ok { OnOk result (self.new.rest ≡ self.old.rest ++ piece.now) }
        ensures fed { OnOk result ((text : List ℕ) (taken : List (List ℕ)) →
            Holds text taken self.old.rest → Holds (text ++ piece.now) taken self.new.rest) }
        ensures err { OnErr result (self.new.rest ≡ self.old.rest) }

        // It keeps what wasn't taken, and no more.
        ensures held { OnOk result (self.new.held ≡ length self.new.rest) }
        ensures held_at_err { OnErr result (self.new.held ≤ self.old.held) }

        // Memory is wanted only where there is no room for the rest and the piece, and room never
        // shrinks.
        ensures full { OnErr result (self.old.room < length self.old.rest + length piece.now) }
        ensures room { self.old.room ≤ self.new.room }
    {
        // What was taken leaves first, so that memory is asked for only for the rest and the piece.
        self.bytes.drain(..self.start);
        self.start = 0;
        self.bytes.extend_from_slice(piece)?;
        Ok(())
    }

    /// How many bytes it keeps. After a `feed` that is what was fed and not taken before. It takes
    /// no memory.
    pub fn held(&self) -> usize
        ensures held { result ≡ self.now.held }
        ensures rest { length self.now.rest ≤ result }
    {
        self.bytes.len()
    }

    /// Takes the next whole line with its LF, and gives it without. `None` where none is whole yet.
    ///
    /// `TooLong` where 65,537 bytes stand in front without an LF. The feed is then as before, and
    /// each later call answers the same.
    pub fn next_line(&mut self) -> Result<Option<&[u8]>, FeedFault>
        // Of whatever text was fed: the line after those that were taken, where there is one.
        ensures next { (text : List ℕ) (taken : List (List ℕ)) → Holds text taken self.old.rest →
            IfOk result (λ next. option_copied next ≡ slice_get (lines text) (length taken)) }

        // What is given stands in front, with its LF. Where nothing is given, a line may yet come.
        ensures front { IfOk result (λ next. MatchOption next (IsLine self.old.rest)
            (λ line. IsLine line.now × (rest : List ℕ) × (self.old.rest ≡ line.now ++ 10 ∷ rest))) }

        // Where no line is given, there is none left.
        ensures none_left { MatchResult result (λ next. IfNone next (HasNoLine self.old.rest))
            (λ fault. HasNoLine self.old.rest) }

        // The one fault comes exactly where what stands in front is too long for a line.
        ensures too_long { (result ≡ Err FeedFault.TooLong) ↔ IsTooLong self.old.rest }
        ensures fault { IfErr result (λ fault. fault ≡ FeedFault.TooLong) }

        // What is given is taken, its LF included, and else nothing is.
        ensures* left { sem 𝓛 (Rests the_row self.entry
            (λ feed. Leaves self.old.rest result feed.rest × (feed.held ≡ self.old.held)
            × (feed.room ≡ self.old.room))) }
    {
        let rest = &self.bytes[self.start..];
        match front_of(rest, self.searched) {
            Front::Whole(length) => {
                self.start = self.start + length + 1;
                self.searched = 0;
                Ok(Some(&rest[..length]))
            }
            Front::Open => {
                self.searched = rest.len();
                Ok(None)
            }
            Front::Endless => {
                self.searched = MAX_LINE + 1;
                Err(FeedFault::TooLong)
            }
        }
    }

    /// Ends the text: `Ok` where all bytes were taken. `TooLong` where `next_line` would answer it,
    /// and else `CutLine`.
    pub fn finish(&self) -> Result<(), FeedFault>
        ensures ok { IsOk result ↔ (self.now.rest ≡ []) }
        ensures too_long { (result ≡ Err FeedFault.TooLong) ↔ IsTooLong self.now.rest }
        ensures all_taken { OnOk result (HasNoLine self.now.rest) }
        ensures cut_line { result ≡ Err FeedFault.CutLine → (self.now.rest ≢ [])
            × ¬ IsTooLong self.now.rest }
    {
        let rest = &self.bytes[self.start..];
        if rest.is_empty() {
            return Ok(());
        }
        match front_of(rest, self.searched) {
            Front::Endless => Err(FeedFault::TooLong),
            Front::Whole(_) => Err(FeedFault::CutLine),
            Front::Open => Err(FeedFault::CutLine),
        }
    }
}
