//! One request, in one transaction of the store.

ghost use Rattle.std.specs.Prelude.{◌≡◌, ◌⊎◌, false, IfOk, IfErr, OnOk, OnErr};
ghost use Rattle.sqlite.specs.Held.{state};
ghost use Rattle.sqlite.specs.State.{HasCleanDisk};
ghost use Rattle.sqlite.specs.Tree.{Trees};
ghost use Rattle.mq_request.specs.Range.{IsRequest, IsReply};
ghost use Rattle.mq_store.specs.Causes.{StopsOver};
ghost use Rattle.mq_store.specs.Crash.{LeavesNew, LeavesOld, AreApplied};
ghost use Rattle.mq_store.specs.Soundness.{HasKept};
ghost use Rattle.mq_store.specs.Taking.{Applies};

use crate::fault::Refusal;
use crate::take::{TakenRequest, take};
use mq_ledger::Zone;
use mq_request::{Reply, Request};
use mq_tables::laws::trees_have_one_schema;
use sqlite::{Alter, Connection};
use std::alloc::Global;

/// Replies to a request. What it writes is committed before the reply is given, or not at all.
pub(crate) fn apply<S: Alter>(
    alloc: Global,
    connection: &mut Connection<S>,
    zone: Zone,
    default: u32,
    request: &Request,
) -> Result<Reply, Refusal>
    requires in_range { IsRequest request.now }
    requires autocommit { connection.old.in_transaction ≡ false }

    // It ends outside a transaction, and every reply is in range.
    ensures autocommit { connection.new.in_transaction ≡ false }
    ensures step_limit { connection.new.step_limit ≡ connection.old.step_limit }
    ensures in_range { IfOk result IsReply }

    // Kept at the end, the store was kept at the entry. The reply and the rows are then those of
    // one more arrival; after a fault the rows are as they were.
    ensures kept { HasKept (state S.Store connection.new) → HasKept (state S.Store connection.old) }
    ensures applied { HasKept (state S.Store connection.new)
        → IfOk result (λ a. Applies zone default request.now a
        (state S.Store connection.old).now (state S.Store connection.new).now) }
    ensures fault { HasKept (state S.Store connection.new)
        → OnErr result ((state S.Store connection.new).now ≡ (state S.Store connection.old).now) }

    // Why it stopped. Here and below a clean disk is enough: the connection needn't be open still.
    ensures cause { HasCleanDisk (state S.Store connection.new)
        → IfErr result (StopsOver zone default (state S.Store connection.old).now) }

    // What an open after a crash may find.
    ensures crash_new { HasCleanDisk (state S.Store connection.new) → IfOk result
        (λ a. LeavesNew zone default request.now a (state S.Store connection.old)
        (state S.Store connection.new)) }
    ensures crash_old { HasCleanDisk (state S.Store connection.new) → OnOk result
        (LeavesOld zone default request.now (state S.Store connection.old)
        (state S.Store connection.new)) }
    ensures crash_err { HasCleanDisk (state S.Store connection.new) → OnErr result ((db : Trees)
        → (state S.Store connection.new).may_leave db → (state S.Store connection.old).may_leave db
        ⊎ AreApplied zone default request.now (state S.Store connection.old).now db) }
{
    // (by its clause whoever opens trees that a crash left finds the database that had them)
    trees_have_one_schema();
    // (its clause says that outside a transaction the tables are those of the last commit)
    let _settled = connection.is_autocommit();
    let mut tx = connection.transaction();
    let reply = match take(alloc, &mut tx, zone, default, request)? {
        // Nothing was written: the transaction ends without a commit.
        TakenRequest::Read(reply) => return Ok(reply),
        TakenRequest::Written(reply) => reply,
    };
    tx.commit()?;
    Ok(reply)
}
