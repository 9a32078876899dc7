//! In which line of a text a word stands.

use crate::fault::Line;
use bstr::ByteSlice;
use std::alloc::Global;

/// The first line of a text, from 1, that has this word in quotes, or else at all, and is no
/// comment.
pub fn line_of(alloc: Global, text: &[u8], word: &str) -> Line {
    match format!(in alloc; "\"{word}\"") {
        Ok(quoted) => {
            let found = first_line(text, quoted.as_bytes());
            Line(found.or(first_line(text, word.as_bytes())))
        }
        Err(_) => Line(first_line(text, word.as_bytes())),
    }
}

/// The first line, from 1, that has these bytes and is no comment.
fn first_line(text: &[u8], word: &[u8]) -> Option<usize> {
    let mut number = 0usize;
    for line in text.split(|byte| *byte == b'\n') {
        number = number.saturating_add(1);
        if !is_comment(line) && line.find(word).is_some() {
            return Some(number);
        }
    }
    None
}

/// Whether a line is a comment.
fn is_comment(line: &[u8]) -> bool {
    line.iter().find(|byte| **byte != b' ' && **byte != b'\t') == Some(&b'#')
}
