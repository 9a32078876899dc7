//! What tests of several libraries assert.

use std::alloc::Global;
use std::fmt::Display;
use std::process::Abort;

/// Why memory is never lacking where a test asks for it.
pub const MEMORY: &str = "memory is there";

/// How a value prints.
pub fn printed<T: Display>(rt: &impl Abort, alloc: Global, value: &T) -> String {
    format!(in alloc; "{value}").expect(rt, MEMORY)
}

/// Asserts how each of these values prints.
pub fn assert_printed<T: Display>(rt: &impl Abort, alloc: Global, rows: &[(T, &str)]) {
    for (value, text) in rows {
        assert_text(rt, &printed(rt, alloc, value), text, "printed");
    }
}

pub fn assert_that(rt: &impl Abort, holds: bool, what: &str) {
    assert!(rt; holds, "{what}");
}

pub fn assert_text(rt: &impl Abort, got: &str, wanted: &str, what: &str) {
    assert_eq!(rt; got, wanted, "{what}");
}

pub fn assert_bytes(rt: &impl Abort, got: &[u8], wanted: &[u8]) {
    assert_eq!(rt; got, wanted);
}

pub fn assert_count(rt: &impl Abort, got: usize, wanted: usize, what: &str) {
    assert_eq!(rt; got, wanted, "{what}");
}
