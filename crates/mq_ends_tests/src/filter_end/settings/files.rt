//! The file of settings.

use crate::filter_end::asserts::{MEMORY, assert_bytes, assert_text, printed};
use mq_settings::{FileFault, read_file, read_limited};
use std::alloc::Global;
use std::process::Abort;
use std::rt::Files;

/// Asserts that a file of these bytes was read.
fn assert_read(rt: &impl Abort, got: Result<Vec<u8>, FileFault>, wanted: &[u8]) {
    assert_bytes(rt, &got.expect(rt, "a file of settings"), wanted);
}

/// Asserts how it prints why a file wasn't read.
fn assert_refused(rt: &impl Abort, alloc: Global, got: Result<Vec<u8>, FileFault>, wanted: &str) {
    match got {
        Ok(_) => panic!(rt; "a file was read"),
        Err(fault) => assert_text(rt, &printed(rt, alloc, &fault), wanted, "a file"),
    }
}

fn comment(rt: &impl Abort, alloc: Global, count: usize) -> Vec<u8> {
    vec![in alloc; b'#'; count].expect(rt, MEMORY)
}

fn assert_longest(rt: &impl Abort, alloc: Global) {
    let text = comment(rt, alloc, 65_536);
    assert_read(rt, read_limited(alloc, text.as_slice()), &text);
}

fn assert_too_large(rt: &impl Abort, alloc: Global) {
    let text = comment(rt, alloc, 65_537);
    let refused = read_limited(alloc, text.as_slice());
    assert_refused(rt, alloc, refused, "settings too large");
}

/// A folder, a file that isn't there, and no name.
const UNREADABLE: [&str; 3] = ["/", "/no/such/file", ""];

fn assert_unreadable<R: Abort + Files + AllocGlobal>(rt: &R, path: &str) {
    let refused = read_file(rt, path);
    assert_refused(rt, rt.alloc(), refused, "settings can't be read");
}

#[test]
fn files_of_settings(rt: HostRuntime) {
    assert_longest(&rt, rt.alloc());
    assert_too_large(&rt, rt.alloc());
    for path in UNREADABLE {
        assert_unreadable(&rt, path);
    }
}
