//! What the log has of settles that are refused since the server's address moved.
use super::*;
use mq_track::{CloseEnd, Closing};

/// Three transactions are open as the address moves, and one more is as it moves again.
const REPLIES: &[Reply<'static>] = &[
    Reply::Transactions(3),
    Reply::Body("89 036d7831 0000000000000001 00000004 00000000"),
    Reply::Body("89 036d7831 0000000000000001 00000005 00000000"),
    Reply::Body("81 036d7831 0000000000000001 00000006 00000001"),
    Reply::Body("89 036d7831 0000000000000001 00000007 00000000"),
    Reply::Body("89 036d7831 0000000000000001 00000008 00000000"),
];

/// Each move has one warning.
const LOG: &[&str] = &[
    "[WARN  mq_client::tries] settle 4 of transaction 1 (host mx1, login u): \
        the transaction holds 0 only, the server's address may have moved",
    "[INFO  mq_client::tries] settle 5 of transaction 2 (host mx1, login u): \
        the transaction holds 0 only, the server's address may have moved",
    "[INFO  mq_client::tries] settle 7 of transaction 3 (host mx1, login u): \
        the transaction holds 0 only, the server's address may have moved",
    "[WARN  mq_client::tries] settle 8 of transaction 4 (host mx1, login u): \
        the transaction holds 0 only, the server's address may have moved",
];

/// Asks for a recipient of a transaction, which is granted.
fn begin(rt: &impl Abort, rig: &mut Rig, txn: u32) {
    if txn == 0 {
        panic!(rt; "no such transaction");
    }
    let asking = rig
        .client
        .reserve(&rig.log, &mut rig.link, txn, 86_400, b"u")
        .expect(rt, MEMORY);
    assert_that(
        rt,
        asking.answer == mq_client::RecipientAnswer::Granted,
        "a grant",
    );
}

fn commit(rt: &impl Abort, rig: &mut Rig, txn: u32) {
    let closing = Closing {
        txn,
        end: CloseEnd::Commit,
    };
    rig.client
        .close(&rig.log, &mut rig.link, closing, false)
        .expect(rt, MEMORY);
}

#[test]
fn one_warning_for_each_move(rt: HostRuntime) {
    let mut rig = rig_of(&rt, rt.alloc(), 1, REPLIES);
    for txn in 1..=3 {
        begin(&rt, &mut rig, txn);
    }
    for txn in 1..=2 {
        commit(&rt, &mut rig, txn);
    }
    begin(&rt, &mut rig, 4);
    for txn in 3..=4 {
        commit(&rt, &mut rig, txn);
    }
    assert_log(&rt, rig, LOG);
}
