//! The values of the link: their parts, their ranges, and how they are printed.

use crate::server_end::asserts::{MEMORY, assert_shown};
use crate::server_end::fixtures::{id, login, page, request_of};
use mq_request::{EscapedText, Host, Login, Reply, Request, Text, is_reply, is_request};
use std::alloc::Global;
use std::process::Abort;

/// The name has these bytes, and gives them back.
fn check_bytes<K: Drop>(rt: &impl Abort, name: Text<K>, bytes: &[u8]) {
    assert!(rt; name.as_slice() == bytes);
    assert!(rt; name.into_bytes().as_slice() == bytes);
}

#[test]
fn names_keep_their_bytes(rt: HostRuntime) {
    let host = Vec::from_slice(rt.alloc(), b"mx1").expect(&rt, MEMORY);
    check_bytes(&rt, Host::new(host), b"mx1");
    let login = Vec::from_slice(rt.alloc(), b"alice").expect(&rt, MEMORY);
    check_bytes(&rt, Login::new(login), b"alice");
}

#[test]
fn pages_keep_their_rows(rt: HostRuntime) {
    let rows = page(&rt, rt.alloc(), 2);
    assert!(rt; rows.as_slice().len() == 2);
    assert!(rt; rows.into_rows().len() == 2);
}

/// Whether the number 4 of a host is that of `mx1`.
fn is_same_number(rt: &impl Abort, alloc: Global, host: &[u8]) -> bool {
    let number = id(rt, alloc, host, 4);
    number.is_same(&id(rt, alloc, b"mx1", 4))
}

#[test]
fn numbers_compare_by_their_parts(rt: HostRuntime) {
    assert!(rt; is_same_number(&rt, rt.alloc(), b"mx1"));
    assert!(rt; !is_same_number(&rt, rt.alloc(), b"mx2"));
}

/// The body of a release of host `mx1` and login `alice`.
const RELEASE: &str =
    "03 036d7831 0000000000000001 00000004 00000001 0000000000015180 05616c696365";

/// The body of a report for login `alice`.
const USAGE: &str = "05 05616c696365 00000001";

/// Whether the request of a body is the release.
fn is_same_request(rt: &impl Abort, alloc: Global, body: &str) -> bool {
    let request = request_of(rt, alloc, body);
    request.is_same(&request_of(rt, alloc, RELEASE))
}

#[test]
fn requests_compare_by_their_parts(rt: HostRuntime) {
    assert!(rt; is_same_request(&rt, rt.alloc(), RELEASE));
    assert!(rt; !is_same_request(&rt, rt.alloc(), USAGE));
}

fn has_reply_frame(reply: Reply) -> bool {
    is_reply(&reply)
}

fn has_request_frame(request: Request) -> bool {
    is_request(&request)
}

/// A page of 101 rows has no frame.
#[test]
fn pages_out_of_range(rt: HostRuntime) {
    for (count, is_in_range) in &[(100, true), (101, false)] {
        let rows = page(&rt, rt.alloc(), *count);
        let found = has_reply_frame(Reply::List { day: 1, rows });
        assert!(rt; found == *is_in_range, "{count} rows");
    }
}

/// A host with an underscore and a login without a byte have no frame.
#[test]
fn names_out_of_range(rt: HostRuntime) {
    let id = id(&rt, rt.alloc(), b"a_b", 1);
    assert!(rt; !has_reply_frame(Reply::LimitSet { id }));
    let login = login(&rt, rt.alloc(), b"");
    assert!(rt; !has_request_frame(Request::Usage { login, day: 1 }));
}

/// Bytes and how they are printed.
const ESCAPED: &[(&[u8], &str)] = &[
    (b"mx1.example-2", "mx1.example-2"),
    (b"a b\\", "a\\x20b\\x5c"),
    (b"\x20\x21\x7e\x7f", "\\x20!~\\x7f"),
    (b"\x00\xff|\n", "\\x00\\xff|\\x0a"),
];

#[test]
fn bytes_that_others_chose(rt: HostRuntime) {
    for (bytes, text) in ESCAPED {
        assert_shown(&rt, rt.alloc(), &EscapedText(bytes), text);
    }
}
