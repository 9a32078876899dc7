//! Several requests, in one transaction of the store.

ghost use Rattle.std.specs.Prelude.{◌≡◌, ◌⊎◌, [], ◌∷◌, ◌++◌, false, All, IfOk, OnOk, OnErr};
ghost use Rattle.sqlite.specs.Held.{state};
ghost use Rattle.sqlite.specs.State.{HasCleanDisk};
ghost use Rattle.sqlite.specs.Tree.{Trees};
ghost use Rattle.mq_request.specs.Range.{IsRequest, IsReply};
ghost use Rattle.mq_tables.specs.Inside.{IsInside, CommitsNothing, StaysInside};
ghost use Rattle.mq_store.specs.Inside.{Answers};
ghost use Rattle.mq_store.specs.Soundness.{HasKept};
ghost use Rattle.mq_store.specs.Taking.{reply_in};
ghost use Rattle.mq_store.specs.Together.{AppliesAll, AreTaken, AreAllApplied, IsRead, LeavesAll};

use crate::fault::Refusal;
use crate::take::{TakenRequest, take};
use mq_ledger::Zone;
use mq_request::{Reply, Request};
use mq_tables::laws::trees_have_one_schema;
use sqlite::{Alter, Connection, Transaction};
use std::alloc::Global;

/// Adds the reply of a request that was taken to those before it, and says whether it is written.
fn add(taken: TakenRequest, replies: &mut Vec<Reply>) -> Result<bool, Refusal>
    ensures added { OnOk result (replies.new.items ≡ replies.old.items ++ reply_in taken ∷ []) }
    ensures read { IfOk result (λ is_written. is_written ≡ false → IsRead taken) }
{
    match taken {
        TakenRequest::Read(reply) => {
            replies.push(reply)?;
            Ok(false)
        }
        TakenRequest::Written(reply) => {
            replies.push(reply)?;
            Ok(true)
        }
    }
}

/// Takes requests one after another inside a transaction, and says whether anything is written. The
/// replies are those to these requests alone.
fn take_each<S: Alter>(
    alloc: Global,
    tx: &mut Transaction<'_, S>,
    zone: Zone,
    default: u32,
    requests: &[Request],
    replies: &mut Vec<Reply>,
) -> Result<bool, Refusal>
    requires in_range { All IsRequest requests.now }
    requires inside { IsInside S.Store tx.old }
    ensures inside { StaysInside S.Store tx.old tx.new result }
    ensures taken { Answers S.Store tx.old tx.new result (λ is_written before after.
        AreTaken zone default requests.now replies.new.items is_written before after) }
    ensures in_range { OnOk result (All IsReply replies.new.items) }
    ensures leaves { CommitsNothing S.Store tx.old tx.new }
{
    replies.clear();
    let mut is_written = false;
    for request in requests {
        let taken = take(alloc, tx, zone, default, request)?;
        is_written |= add(taken, replies)?;
    }
    Ok(is_written)
}

/// Replies to requests, to each after those before it. What they write is committed, all in one
/// transaction, before any reply is given, or none of it.
pub(crate) fn apply_all<S: Alter>(
    alloc: Global,
    connection: &mut Connection<S>,
    zone: Zone,
    default: u32,
    requests: &[Request],
    replies: &mut Vec<Reply>,
) -> Result<(), Refusal>
    requires in_range { All IsRequest requests.now }
    requires autocommit { connection.old.in_transaction ≡ false }

    // It ends outside a transaction, and every reply is in range.
    ensures autocommit { connection.new.in_transaction ≡ false }
    ensures step_limit { connection.new.step_limit ≡ connection.old.step_limit }
    ensures in_range { OnOk result (All IsReply replies.new.items) }

    // Kept at the end, the store was kept at the entry. The replies and the rows are then those of
    // these further arrivals; after a fault the rows are as they were.
    ensures kept { HasKept (state S.Store connection.new) → HasKept (state S.Store connection.old) }
    ensures applied { HasKept (state S.Store connection.new)
        → OnOk result (AppliesAll zone default requests.now replies.new.items
        (state S.Store connection.old).now (state S.Store connection.new).now) }
    ensures fault { HasKept (state S.Store connection.new)
        → OnErr result ((state S.Store connection.new).now ≡ (state S.Store connection.old).now) }

    // What an open after a crash may find: all that the requests wrote, or nothing of it.
    ensures crash_ok { HasCleanDisk (state S.Store connection.new) → OnOk result
        (LeavesAll zone default requests.now replies.new.items (state S.Store connection.old)
        (state S.Store connection.new)) }
    ensures crash_err { HasCleanDisk (state S.Store connection.new) → OnErr result ((db : Trees)
        → (state S.Store connection.new).may_leave db → (state S.Store connection.old).may_leave db
        ⊎ AreAllApplied zone default requests.now (state S.Store connection.old).now db) }
{
    // (by its clause whoever opens trees that a crash left finds the database that had them)
    trees_have_one_schema();
    // (its clause says that outside a transaction the tables are those of the last commit)
    let _settled = connection.is_autocommit();
    let mut tx = connection.transaction();
    let is_written = take_each(alloc, &mut tx, zone, default, requests, replies)?;
    if !is_written {
        // The transaction ends without a commit.
        return Ok(());
    }
    tx.commit()?;
    Ok(())
}
