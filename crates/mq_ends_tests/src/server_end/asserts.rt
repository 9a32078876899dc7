//! What the tests assert. None of it has a clause, so that a long test stays cheap to prove.

use std::alloc::Global;
use std::fmt::{Debug, Display};
use std::process::Abort;

/// Why memory is never lacking where a test asks for it.
pub const MEMORY: &str = "memory is there";

pub fn assert_that(rt: &impl Abort, holds: bool, what: &str) {
    assert!(rt; holds, "{what}");
}

pub fn assert_text(rt: &impl Abort, found: &str, wanted: &str) {
    assert_eq!(rt; found, wanted);
}

/// The bytes are these, where a test says so.
pub fn assert_bytes(rt: &impl Abort, found: &[u8], wanted: &[u8], place: &str) {
    assert_eq!(rt; found, wanted, "at {place}");
}

/// What `{}` makes of the value is this text.
pub fn assert_shown<T: Display>(rt: &impl Abort, alloc: Global, value: &T, text: &str) {
    let shown = format!(in alloc; "{value}").expect(rt, MEMORY);
    assert_text(rt, &shown, text);
}

/// What `{:?}` makes of the value is this text, where a name of the link is its bytes and no more.
pub fn assert_printed<T: Debug>(rt: &impl Abort, alloc: Global, value: &T, text: &str) {
    let printed = format!(in alloc; "{value:?}").expect(rt, MEMORY);
    assert_text(rt, &short(rt, alloc, &printed), text);
}

/// A name of the link as its bytes alone.
fn short(rt: &impl Abort, alloc: Global, printed: &str) -> String {
    let opened = printed
        .replace(alloc, "Text { bytes: ", "")
        .expect(rt, MEMORY);
    opened
        .replace(alloc, ", kind: PhantomData<_> }", "")
        .expect(rt, MEMORY)
}
