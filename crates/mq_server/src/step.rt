//! One step of a connection: what stands at the front of what came is answered.
ghost use Rattle.std.specs.Prelude.{◌≡◌, ◌<◌, OnErr, Ok, Err, vec_capacity};
ghost use Rattle.mq_frame.specs.Feed.{front};
ghost use Rattle.mq_request.specs.Range.{IsReply};
ghost use Rattle.mq_frame.specs.Spelling.{frame, reply_body};
ghost use Rattle.mq_request.specs.declared.message.Reply.TheVariants.{Bad};
ghost use Rattle.mq_frame.specs.declared.feed.TheConstants.{REQUEST_LIMIT as request_limit};
ghost use Rattle.mq_ledger.specs.Leaving.{LeavesLedger};
ghost use Rattle.mq_server.specs.declared.connection.Progress.TheVariants.{Ended};
ghost use Rattle.mq_server.specs.State.{HasNoRoom, IsAdded, IsRefused, LacksMemory, Moves, Steps};
ghost use Rattle.mq_server.specs.Steps.{end_at};
ghost use Rattle.mq_server.specs.Text.{IsBad, next};

use crate::answer::answer_body;
use crate::connection::{EndCause, Progress};
use crate::fault::ServeFault;
use mq_frame::{FrameFeed, encode_reply};
use mq_ledger::Ledger;
use mq_request::Reply;
use std::alloc::Global;

/// How a connection ends whose input ended.
fn input_end(feed: &FrameFeed) -> EndCause
    ensures { result ≡ end_at (front feed.now.limit feed.now.rest) }
{
    match feed.finish() {
        Ok(()) => EndCause::InputEnd,
        Err(_) => EndCause::CutFrame,
    }
}

/// Answers what is no request, which ends the connection.
fn refuse(replies: &mut Vec<u8>) -> Result<EndCause, ServeFault>
    ensures refused { IsRefused replies.old.items result replies.new.items }
    ensures full { OnErr result (HasNoRoom (vec_capacity replies.old) replies.old.items Bad) }
{
    encode_reply(&Reply::Bad, replies)?;
    Ok(EndCause::BadFrame)
}

/// Adds a reply to those that wait.
pub fn add(reply: &Reply, replies: &mut Vec<u8>) -> Progress
    requires { IsReply reply.now }
    ensures added { IsAdded replies.old.items (frame (reply_body reply.now)) result
        replies.new.items }
    ensures full { (end : _) → result ≡ Ended end →
        HasNoRoom (vec_capacity replies.old) replies.old.items reply.now }
{
    match encode_reply(reply, replies) {
        Ok(()) => Progress::Answered,
        Err(_) => Progress::Ended(Err(ServeFault::Memory)),
    }
}

/// Answers the frame at the front of what came, where a whole one is there. `is_closed` says that
/// nothing more comes.
pub fn step<L: Ledger>(
    alloc: Global,
    feed: &mut FrameFeed,
    is_closed: bool,
    replies: &mut Vec<u8>,
    ledger: &mut L,
) -> Progress
    requires { feed.old.limit ≡ request_limit }
    // Of any ledger, sound or not.
    ensures limit { feed.new.limit ≡ request_limit }
    ensures room { feed.new.room ≡ feed.old.room }
    ensures moves { Moves is_closed feed.old.rest replies.old.items result feed.new.rest
        replies.new.items }
    // What is no request ends it for memory only where Bad had no room.
    ensures full { result ≡ Ended (Err ServeFault.Memory) → IsBad (next feed.old.rest) →
        HasNoRoom (vec_capacity replies.old) replies.old.items Bad }
    ensures leaves { LeavesLedger L.book L.has_kept L.is_sound L.has_store ledger.old ledger.new }
    ensures store { result ≡ Ended (Err ServeFault.Store) → L.has_store ledger.old }

    // Of a sound one that has kept its premise.
    ensures steps { L.has_kept ledger.new → L.is_sound ledger.old →
        Steps (L.book ledger.old) (L.told ledger.old) is_closed feed.old.rest replies.old.items
        result
        feed.new.rest replies.new.items (L.book ledger.new).history (L.told ledger.new) }
    ensures lacks { L.has_kept ledger.new → L.is_sound ledger.old
        → result ≡ Ended (Err ServeFault.Memory) →
        LacksMemory (L.book ledger.old) (L.told ledger.old)
        (vec_capacity replies.old) feed.old.rest replies.old.items
        feed.new.rest (L.book ledger.new).history (L.told ledger.new) }
{
    match feed.next_body() {
        Err(_) => Progress::Ended(refuse(replies)),
        Ok(None) if is_closed => Progress::Ended(Ok(input_end(feed))),
        Ok(None) => Progress::Waits,
        Ok(Some(body)) => match answer_body(alloc, body, ledger) {
            Ok(Some(reply)) => add(&reply, replies),
            Ok(None) => Progress::Ended(refuse(replies)),
            Err(fault) => Progress::Ended(Err(fault)),
        },
    }
}
