//! Frames of requests, from the format's worked examples.

use crate::server_end::asserts::{MEMORY, assert_bytes, assert_printed, assert_that};
use crate::server_end::fixtures::{bytes_of, split};
use mq_frame::{DecodeFault, decode_request, encode_request};
use mq_request::{Request, is_request};
use std::alloc::Global;
use std::process::Abort;

/// The request of a body. Without clauses, so that its callers stay cheap to prove.
fn decoded(alloc: Global, body: &[u8]) -> Result<Request, DecodeFault> {
    decode_request(alloc, body)
}

/// The frame of a request that has to be in range. Likewise without clauses.
fn frame_of(rt: &impl Abort, alloc: Global, request: &Request) -> Vec<u8> {
    assert!(rt; is_request(request));
    let mut out = Vec::new(alloc);
    encode_request(request, &mut out).expect(rt, MEMORY);
    out
}

/// The frame is that of the request that is printed so, both ways.
fn check_request(rt: &impl Abort, alloc: Global, frame: &[u8], text: &str) {
    let request = decoded(alloc, split(frame, 2).1).expect(rt, "a request");
    assert_printed(rt, alloc, &request, text);
    assert_bytes(rt, &frame_of(rt, alloc, &request), frame, text);
}

/// Frames with what they say, a name by its bytes: `a` is 97, `b` 98, `u` 117 and `v` 118.
const FRAMES: &[(&str, &str)] = &[
    (
        "0021 01 0161 0000000000000001 00000001 00000001 0000000000015180 0175 00000001",
        "Reserve { id: Id { host: [97], run: 1, number: 1 }, txn: 1, moment: 86400, login: [117], count: 1 }",
    ),
    (
        "0021 01 0161 0000000000000001 00000001 00000001 0000000000015180 0175 00000002",
        "Reserve { id: Id { host: [97], run: 1, number: 1 }, txn: 1, moment: 86400, login: [117], count: 2 }",
    ),
    (
        "0021 01 0161 0000000000000001 00000002 00000001 0000000000015180 0175 00000002",
        "Reserve { id: Id { host: [97], run: 1, number: 2 }, txn: 1, moment: 86400, login: [117], count: 2 }",
    ),
    (
        "0021 01 0161 0000000000000001 00000003 00000001 0000000000015180 0175 00000001",
        "Reserve { id: Id { host: [97], run: 1, number: 3 }, txn: 1, moment: 86400, login: [117], count: 1 }",
    ),
    (
        "0021 01 0161 0000000000000001 00000005 00000002 0000000000015180 0175 00000001",
        "Reserve { id: Id { host: [97], run: 1, number: 5 }, txn: 2, moment: 86400, login: [117], count: 1 }",
    ),
    (
        "0021 01 0162 0000000000000001 00000001 00000001 0000000000015180 0175 00000001",
        "Reserve { id: Id { host: [98], run: 1, number: 1 }, txn: 1, moment: 86400, login: [117], count: 1 }",
    ),
    (
        "0021 01 0161 0000000000000001 00000002 00000001 0000000000015180 0175 00000001",
        "Reserve { id: Id { host: [97], run: 1, number: 2 }, txn: 1, moment: 86400, login: [117], count: 1 }",
    ),
    (
        "0021 01 0161 0000000000000001 00000002 00000001 0000000000015180 0176 00000001",
        "Reserve { id: Id { host: [97], run: 1, number: 2 }, txn: 1, moment: 86400, login: [118], count: 1 }",
    ),
    (
        "0021 02 0161 0000000000000001 00000003 00000001 0000000000015180 0175 00000001",
        "Settle { id: Id { host: [97], run: 1, number: 3 }, txn: 1, moment: 86400, login: [117], count: 1 }",
    ),
    (
        "0021 02 0161 0000000000000001 00000004 00000001 0000000000015180 0175 00000001",
        "Settle { id: Id { host: [97], run: 1, number: 4 }, txn: 1, moment: 86400, login: [117], count: 1 }",
    ),
    (
        "0021 02 0161 0000000000000001 00000003 00000001 0000000000015180 0175 00000002",
        "Settle { id: Id { host: [97], run: 1, number: 3 }, txn: 1, moment: 86400, login: [117], count: 2 }",
    ),
    (
        "001d 03 0161 0000000000000001 00000004 00000001 0000000000015180 0175",
        "Release { id: Id { host: [97], run: 1, number: 4 }, txn: 1, moment: 86400, login: [117] }",
    ),
    (
        "001d 03 0161 0000000000000001 00000002 00000001 0000000000015180 0175",
        "Release { id: Id { host: [97], run: 1, number: 2 }, txn: 1, moment: 86400, login: [117] }",
    ),
    (
        "0019 04 0161 0000000000000001 00000004 00000001 00000002 0175",
        "Limit { id: Id { host: [97], run: 1, number: 4 }, from_day: 1, cap: 2, login: [117] }",
    ),
    (
        "0019 04 0161 0000000000000001 00000005 00000001 00000003 0175",
        "Limit { id: Id { host: [97], run: 1, number: 5 }, from_day: 1, cap: 3, login: [117] }",
    ),
    (
        "0019 04 0161 0000000000000001 00000006 00000000 00000002 0175",
        "Limit { id: Id { host: [97], run: 1, number: 6 }, from_day: 0, cap: 2, login: [117] }",
    ),
    ("0007 05 0175 00000001", "Usage { login: [117], day: 1 }"),
    ("0006 06 00000001 00", "List { day: 1, after: [] }"),
    ("0007 06 00000001 0175", "List { day: 1, after: [117] }"),
    (
        "000f 07 0161 0000000000000002 00000001",
        "Retire { id: Id { host: [97], run: 2, number: 1 } }",
    ),
];

#[test]
fn frames_of_requests(rt: HostRuntime) {
    let alloc = rt.alloc();
    for (frame, text) in FRAMES {
        check_request(&rt, alloc, &bytes_of(&rt, alloc, frame), text);
    }
}

/// The edges of the ranges, from within and from without: what decoding a body refuses.
const BODIES: &[(&str, Option<DecodeFault>)] = &[
    ("05 0175 0005bd88", None),
    (
        "04 0161 0000000000000001 00000001 00000001 000f4240 0175",
        None,
    ),
    (
        "01 0161 0000ffffffffffff 00000001 00000001 00000007915ecc00 0175 000003e8",
        None,
    ),
    ("06 00000000 00", None),
    ("07 0161 0000ffffffffffff ffffffff", None),
    ("05 0175 0005bd89", Some(DecodeFault::Bad)),
    (
        "04 0161 0000000000000001 00000001 00000001 000f4241 0175",
        Some(DecodeFault::Bad),
    ),
    (
        "01 0161 0001000000000000 00000001 00000001 00000007915ecc00 0175 000003e8",
        Some(DecodeFault::Bad),
    ),
    (
        "01 0161 0000ffffffffffff 00000001 00000001 00000007915ecc01 0175 000003e8",
        Some(DecodeFault::Bad),
    ),
    (
        "01 0161 0000ffffffffffff 00000001 00000001 00000007915ecc00 0175 000003e9",
        Some(DecodeFault::Bad),
    ),
    (
        "01 0161 0000ffffffffffff 00000001 00000001 00000007915ecc00 0175 00000000",
        Some(DecodeFault::Bad),
    ),
    ("05 00 00000001", Some(DecodeFault::Bad)),
    (
        "01 015f 0000000000000001 00000001 00000001 0000000000015180 0175 00000001",
        Some(DecodeFault::Bad),
    ),
    ("07", Some(DecodeFault::Bad)),
    ("07 0161 0001000000000000 00000001", Some(DecodeFault::Bad)),
    ("07 0161 0000000000000001 00000000", Some(DecodeFault::Bad)),
    (
        "07 0161 0000000000000001 00000001 00",
        Some(DecodeFault::Bad),
    ),
    ("08", Some(DecodeFault::Bad)),
    ("", Some(DecodeFault::Bad)),
    ("05 0175 00000001 00", Some(DecodeFault::Bad)),
    (
        "01 0161 0000000000000001 00000001 00000001 000000000001517f 0175 00000001",
        Some(DecodeFault::Bad),
    ),
];

#[test]
fn bodies_at_the_edges(rt: HostRuntime) {
    let alloc = rt.alloc();
    for (body, fault) in BODIES {
        let found = decoded(alloc, &bytes_of(&rt, alloc, body)).err();
        assert_that(&rt, found == *fault, body);
    }
}
