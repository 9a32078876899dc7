//! Frames of replies, from the format's worked examples.

use crate::server_end::asserts::{MEMORY, assert_bytes, assert_printed};
use crate::server_end::fixtures::{bytes_of, split};
use mq_frame::{DecodeFault, decode_reply, encode_reply};
use mq_request::{Reply, is_reply};
use std::alloc::Global;
use std::process::Abort;

/// The reply of a body. Without clauses, so that its callers stay cheap to prove.
fn decoded(alloc: Global, body: &[u8]) -> Result<Reply, DecodeFault> {
    decode_reply(alloc, body)
}

/// The frame of a reply that has to be in range. Likewise without clauses.
fn frame_of(rt: &impl Abort, alloc: Global, reply: &Reply) -> Vec<u8> {
    assert!(rt; is_reply(reply));
    let mut out = Vec::new(alloc);
    encode_reply(reply, &mut out).expect(rt, MEMORY);
    out
}

/// The frame is that of the reply that is printed so, both ways.
fn check_reply(rt: &impl Abort, alloc: Global, frame: &[u8], text: &str) {
    let reply = decoded(alloc, split(frame, 2).1).expect(rt, "a reply");
    assert_printed(rt, alloc, &reply, text);
    assert_bytes(rt, &frame_of(rt, alloc, &reply), frame, text);
}

/// Frames with what they say, a name by its bytes: `a` is 97, `b` 98 and `u` 117.
const FRAMES: &[(&str, &str)] = &[
    (
        "0013 81 0161 0000000000000001 00000001 00000001",
        "Granted { id: Id { host: [97], run: 1, number: 1 }, used: 1 }",
    ),
    (
        "0013 81 0161 0000000000000001 00000002 00000003",
        "Granted { id: Id { host: [97], run: 1, number: 2 }, used: 3 }",
    ),
    (
        "0013 81 0161 0000000000000001 00000005 00000001",
        "Granted { id: Id { host: [97], run: 1, number: 5 }, used: 1 }",
    ),
    (
        "0013 81 0162 0000000000000001 00000001 00000002",
        "Granted { id: Id { host: [98], run: 1, number: 1 }, used: 2 }",
    ),
    (
        "0013 81 0161 0000000000000001 00000002 00000002",
        "Granted { id: Id { host: [97], run: 1, number: 2 }, used: 2 }",
    ),
    (
        "0017 82 0161 0000000000000001 00000003 00000003 00000003",
        "Full { id: Id { host: [97], run: 1, number: 3 }, used: 3, cap: 3 }",
    ),
    (
        "000f 88 0161 0000000000000001 00000002",
        "Mismatch { id: Id { host: [97], run: 1, number: 2 } }",
    ),
    (
        "000f 8a 0161 0000000000000001 00000001",
        "Conflict { id: Id { host: [97], run: 1, number: 1 } }",
    ),
    (
        "0013 83 0161 0000000000000001 00000003 00000001",
        "Settled { id: Id { host: [97], run: 1, number: 3 }, count: 1 }",
    ),
    (
        "0013 89 0161 0000000000000001 00000003 00000001",
        "TooMany { id: Id { host: [97], run: 1, number: 3 }, held: 1 }",
    ),
    (
        "0013 84 0161 0000000000000001 00000004 00000003",
        "Released { id: Id { host: [97], run: 1, number: 4 }, held: 3 }",
    ),
    (
        "0013 84 0161 0000000000000001 00000002 00000000",
        "Released { id: Id { host: [97], run: 1, number: 2 }, held: 0 }",
    ),
    (
        "000f 87 0161 0000000000000001 00000001",
        "Closed { id: Id { host: [97], run: 1, number: 1 } }",
    ),
    (
        "000f 87 0161 0000000000000001 00000004",
        "Closed { id: Id { host: [97], run: 1, number: 4 } }",
    ),
    (
        "000f 85 0161 0000000000000001 00000005",
        "LimitSet { id: Id { host: [97], run: 1, number: 5 } }",
    ),
    (
        "0017 86 0161 0000000000000001 00000004 00000001 00000003",
        "Over { id: Id { host: [97], run: 1, number: 4 }, day: 1, used: 3 }",
    ),
    (
        "0017 86 0161 0000000000000001 00000006 00000001 00000003",
        "Over { id: Id { host: [97], run: 1, number: 6 }, day: 1, used: 3 }",
    ),
    (
        "0013 8b 0175 00000001 00000000 00000001 00000003",
        "Usage { login: [117], day: 1, settled: 0, reserved: 1, cap: 3 }",
    ),
    (
        "0013 8b 0175 00000001 00000001 00000000 00000003",
        "Usage { login: [117], day: 1, settled: 1, reserved: 0, cap: 3 }",
    ),
    (
        "0014 8c 00000001 01 0175 00000000 00000001 00000003",
        "List { day: 1, rows: UsageRows { rows: [\
         UsageRow { login: [117], settled: 0, reserved: 1, cap: 3 }] } }",
    ),
    (
        "0006 8c 00000001 00",
        "List { day: 1, rows: UsageRows { rows: [] } }",
    ),
    (
        "000f 8f 0161 0000000000000002 00000001",
        "Retired { id: Id { host: [97], run: 2, number: 1 } }",
    ),
    (
        "000f 90 0161 0000000000000001 00000001",
        "Old { id: Id { host: [97], run: 1, number: 1 } }",
    ),
    ("0001 8d", "Retry"),
    ("0001 8e", "Bad"),
];

#[test]
fn frames_of_replies(rt: HostRuntime) {
    let alloc = rt.alloc();
    for (frame, text) in FRAMES {
        check_reply(&rt, alloc, &bytes_of(&rt, alloc, frame), text);
    }
}
