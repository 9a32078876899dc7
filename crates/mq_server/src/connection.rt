//! A connection without its socket: bytes come in as they come, whole frames are answered, and the
//! replies wait until they are taken.
ghost use Rattle.std.specs.Prelude.{◌≡◌, ◌<◌, ◌≤◌, ◌+◌, length, take, drop, true, false, None};
ghost use Rattle.std.specs.Prelude.{Some, Err, List, OnOk, OnErr, ℕ, [], ◌∷◌, ◌≢◌, ◌↔◌, IsTrue, IsSome};
ghost use Rattle.std.specs.Prelude.{IfSome};
ghost use Rattle.mq_request.specs.Range.{IsReply, IsRequest};
ghost use Rattle.mq_request.specs.declared.message.Request.{Request as AnyRequest};
ghost use Rattle.mq_ledger.specs.Leaving.{LeavesLedger};
ghost use Rattle.mq_server.specs.Held.{IsAtRest, fresh, received, with_closed, with_replies, with_room};
ghost use Rattle.mq_server.specs.Life.{AreAnswered, Counts, Exchange, IsOfTransaction, Life, Lives};
ghost use Rattle.mq_server.specs.Life.{MakesCalls};
ghost use Rattle.mq_server.specs.Life.{StandsNext, taken, unborn, with_bytes, with_exchanges};
ghost use Rattle.mq_server.specs.Life.{with_taken};
ghost use Rattle.mq_server.specs.State.{Goes, Steps};
ghost use Rattle.mq_server.specs.Text.{IsPartial, next};
ghost use Rattle.mq_server.specs.declared.connection.Progress.TheVariants.{Ended};

use crate::fault::ServeFault;
use crate::step::{add, step};
use mq_frame::{FrameFeed, REQUEST_LIMIT, decode_request};
use mq_ledger::Ledger;
use mq_request::{Reply, Request};
use std::alloc::{AllocError, Global};
use std::marker::Model;

/// Why a connection ended well.
#[derive(Clone, Copy, Debug, PartialEq, Eq)]
pub enum EndCause {
    /// The input ended after whole frames, or was empty.
    InputEnd,
    /// 10,000 frames were answered; nothing more is read.
    Enough,
    /// What is no request came, and was answered by `Bad`.
    BadFrame,
    /// The input ended inside a frame.
    CutFrame,
}

/// The most frames that are answered on a connection.
pub const ENOUGH: u32 = 10_000;

/// What a connection has come to.
#[derive(Clone, Copy, Debug, PartialEq, Eq)]
pub enum Progress {
    /// As many frames were answered as were asked for; more may be there.
    Answered,
    /// No whole frame is there, and more may come.
    Waits,
    /// It has ended, and answers nothing more. Its last replies may wait still.
    Ended(Result<EndCause, ServeFault>),
}

/// A connection of the quota server, without its socket.
///
/// What came is given to `receive`, and `close` says that nothing more comes. `answer` answers
/// whole frames through a ledger. The replies wait in `replies` until `take_replies` says how many
/// bytes of them went out.
#[derive(Drop)]
pub struct Connection {
    feed: FrameFeed,
    answered: u32,
    replies: Vec<u8>,
    is_closed: bool,
    end: Option<Result<EndCause, ServeFault>>,
}

impl Model for Connection {
    ghost use Rattle.std.specs.Prelude.{◌≡◌};
    ghost use Rattle.mq_frame.specs.declared.feed.TheConstants.{REQUEST_LIMIT as request_limit};
    ghost use Rattle.mq_server.specs.Held.{State};
    ghost use Rattle.mq_server.specs.State.{IsCount};

    ghost Value = { State };

    ghost view = { λ c. record {
      rest = c.feed.rest;
      answered = c.answered;
      replies = c.replies.items;
      is_closed = c.is_closed;
      end = c.end;
      room = c.feed.room;
    } };

    ghost invariant = { λ c. (c.feed.limit ≡ request_limit) × IsCount c.end c.answered };
}

impl Connection {
    /// A connection on which nothing came yet.
    pub fn new(alloc: Global) -> Connection
        ensures fresh { result ≡ fresh result.room }
        ensures lives { Lives unborn result }
    {
        Connection {
            feed: FrameFeed::new(alloc, REQUEST_LIMIT),
            answered: 0,
            replies: Vec::new(alloc),
            is_closed: false,
            end: None,
        }
    }

    /// These bytes came. After an `Err` the connection is as before, but for its room.
    pub fn receive(&mut self, piece: &[u8]) -> Result<(), AllocError>
        ensures ok { OnOk result (self.new ≡ received self.old piece.now self.new.room) }
        ensures err { OnErr result (self.new ≡ with_room self.old self.new.room) }
        // Memory is answered only where there is no room for what wasn't answered yet and the
        // piece, and room never shrinks.
        ensures full { OnErr result (self.old.room < length self.old.rest + length piece.now) }
        ensures room { self.old.room ≤ self.new.room }
        ensures lives { (l : Life) → Lives l self.old → self.old.end ≡ None →
            OnOk result (Lives (with_bytes l piece.now) self.new) }
        ensures still { (l : Life) → Lives l self.old → OnErr result (Lives l self.new) }
    {
        self.feed.feed(piece)
    }

    /// Nothing more comes.
    pub fn close(&mut self)
        ensures closed { self.new ≡ with_closed self.old true }
        ensures lives { (l : Life) → Lives l self.old → Lives l self.new }
    {
        self.is_closed = true;
    }

    /// The replies that weren't taken yet.
    pub fn replies(&self) -> &[u8]
        ensures { result.now ≡ self.now.replies }
    {
        &self.replies
    }

    /// So many bytes of the replies went out.
    pub fn take_replies(&mut self, count: usize)
        requires { count ≤ length self.old.replies }
        ensures taken { self.new ≡ with_replies self.old (drop count self.old.replies) }
        ensures lives { (l : Life) → Lives l self.old → Lives
            (with_taken l (take count self.old.replies)) self.new }
    {
        drop(self.replies.drain(..count));
    }

    /// Whether it can only go on by more bytes: it hasn't ended, may get more, no reply waits, and
    /// no whole frame is there.
    pub fn is_waiting(&self) -> bool
        ensures { IsTrue result → (self.now.end ≡ None) × (self.now.is_closed ≡ false)
            × (self.now.replies ≡ []) × IsPartial (next self.now.rest) }
    {
        if self.end.is_some() || self.is_closed || !self.replies.is_empty() {
            return false;
        }
        match self.feed.peek_body() {
            Ok(None) => true,
            _ => false,
        }
    }

    /// Whether all that came was answered, and all replies were taken; it hasn't ended.
    pub fn is_at_rest(&self) -> bool
        ensures { IsTrue result ↔ IsAtRest self.now }
    {
        self.end.is_none() && self.replies.is_empty() && self.feed.finish().is_ok()
    }

    /// The request that stands next, where it is one of a transaction, no reply waits, and there is
    /// memory for it. It isn't taken.
    pub fn peek_request(&self, alloc: Global) -> Option<Request>
        ensures going { IsSome result → self.now.end ≡ None }
        ensures in_range { IfSome result IsRequest }
        ensures of_transaction { IfSome result IsOfTransaction }
        ensures stands { IfSome result (λ request. StandsNext (Some request) self.now.rest) }
    {
        if self.end.is_some() || !self.replies.is_empty() {
            return None;
        }
        let Ok(Some(body)) = self.feed.peek_body() else {
            return None;
        };
        match decode_request(alloc, body) {
            Ok(request) if is_of_transaction(&request) => Some(request),
            _ => None,
        }
    }

    /// Takes the request that stands next, and holds the ledger's reply to it. No memory for the
    /// reply ends the connection, as the 10,000th reply does. After an end nothing happens.
    pub fn hold_reply(&mut self, reply: &Reply)
        requires { IsReply reply.now }
        ensures closes_nothing { self.new.is_closed ≡ self.old.is_closed }
        ensures works { self.old.end ≡ None → self.new.end ≢ Some (Err ServeFault.Store) }
        ensures lives { self.old.end ≡ None → (request : AnyRequest)
            → StandsNext (Some request) self.old.rest → (l : Life) → Lives l self.old
            → (rest : List ℕ)
            × Lives (with_exchanges l (taken request reply.now ∷ []) rest) self.new }
    {
        if self.end.is_some() {
            return;
        }
        let _ = self.feed.next_body();
        match add(reply, &mut self.replies) {
            Progress::Answered => {
                self.answered += 1;
                if ENOUGH <= self.answered {
                    self.end = Some(Ok(EndCause::Enough));
                }
            }
            Progress::Waits => {}
            Progress::Ended(end) => self.end = Some(end),
        }
    }

    /// Answers the next frame, where a whole one is there. Nothing follows an end.
    pub(crate) fn answer_next<L: Ledger>(&mut self, alloc: Global, ledger: &mut L) -> Progress
        // Of any ledger, sound or not.
        ensures goes { self.old.end ≡ None → Goes self.old result self.new }
        ensures over { (r : _) → self.old.end ≡ Some r →
            (result ≡ Ended r) × (self.new ≡ self.old) × (ledger.new ≡ ledger.old) }
        ensures leaves { LeavesLedger L.book L.has_kept L.is_sound L.has_store ledger.old ledger.new }
        ensures store { self.old.end ≡ None → result ≡ Ended (Err ServeFault.Store)
            → L.has_store ledger.old }

        // Of a sound one that has kept its premise.
        ensures steps { L.has_kept ledger.new → L.is_sound ledger.old → self.old.end ≡ None →
            Steps (L.book ledger.old) (L.told ledger.old) self.old.is_closed self.old.rest
            self.old.replies result
            self.new.rest self.new.replies (L.book ledger.new).history (L.told ledger.new) }
    {
        if let Some(end) = self.end {
            return Progress::Ended(end);
        }
        match step(
            alloc,
            &mut self.feed,
            self.is_closed,
            &mut self.replies,
            ledger,
        ) {
            Progress::Answered => {
                self.answered += 1;
                if self.answered == ENOUGH {
                    self.end = Some(Ok(EndCause::Enough));
                    return Progress::Ended(Ok(EndCause::Enough));
                }
                Progress::Answered
            }
            Progress::Waits => Progress::Waits,
            Progress::Ended(end) => {
                self.end = Some(end);
                Progress::Ended(end)
            }
        }
    }

    /// Answers the next whole frames, at most so many.
    ///
    /// The body of a request goes to the ledger, and the ledger's reply is held; `Retry` where the
    /// ledger had no memory for it. A body that is no request, an empty one and one above 512 bytes
    /// is answered by `Bad`, which ends the connection; so does the 10,000th answer. `Memory` and
    /// `Store` end it too, and the replies to the frames before are held still. Nothing follows an
    /// end.
    pub fn answer<L: Ledger>(&mut self, alloc: Global, most: u32, ledger: &mut L) -> Progress
        // Of any ledger, sound or not. After an end nothing happens.
        ensures over { (r : _) → self.old.end ≡ Some r →
            (result ≡ Ended r) × (self.new ≡ self.old) × (ledger.new ≡ ledger.old) }
        ensures ended { (r : _) → result ≡ Ended r → self.new.end ≡ Some r }
        ensures answered { result ≡ Progress.Answered → self.new.end ≡ None }
        ensures waits { result ≡ Progress.Waits →
            (self.new.end ≡ None) × (self.new.is_closed ≡ false) × IsPartial (next self.new.rest) }
        ensures closes_nothing { self.new.is_closed ≡ self.old.is_closed }
        ensures leaves { LeavesLedger L.book L.has_kept L.is_sound L.has_store ledger.old ledger.new }
        ensures store { self.old.end ≡ None → result ≡ Ended (Err ServeFault.Store)
            → L.has_store ledger.old }

        // Of a sound one that has kept its premise. The request at which the store failed is the
        // one that stands next.
        ensures lives { L.has_kept ledger.new → L.is_sound ledger.old → (xs : List Exchange)
            × Counts result most (length xs)
            × (calls : MakesCalls self.old.end result (L.told ledger.old) (L.told ledger.new) xs)
            × AreAnswered (L.book ledger.old) xs (L.book ledger.new).history
            × ((l : Life) → Lives l self.old → (rest : List ℕ)
            × Lives (with_exchanges l xs rest) self.new
            × StandsNext calls.failed rest) }
    {
        if let Some(end) = self.end {
            return Progress::Ended(end);
        }
        for _frame in 0..most {
            match self.answer_next(alloc, ledger) {
                Progress::Answered => {}
                other => return other,
            }
        }
        Progress::Answered
    }
}

/// Whether it is a request of a transaction: a reserve, a settle or a release.
fn is_of_transaction(request: &Request) -> bool
    ensures { IsTrue result → IsOfTransaction request.now }
{
    match request {
        Request::Reserve { .. } | Request::Settle { .. } | Request::Release { .. } => true,
        _ => false,
    }
}
