//! Where a text is no TOML, and why.
ghost use Rattle.std.specs.Prelude.{◌≡◌, ◌+◌, ◌==◌, count_by};

use std::fmt;

/// Where a text is no TOML, and why.
#[derive(Clone, Copy, Debug)]
pub struct Flaw {
    /// Both from 1. A column counts characters.
    line: usize,
    column: usize,
    cause: toml::de::Error,
}

/// The number of the line, from 1, in which these bytes end.
fn line_behind(before: &[u8]) -> usize
    ensures { result ≡ count_by (λ byte. byte == 10) before.now + 1 }
{
    before.iter().filter(|byte| **byte == b'\n').count() + 1
}

/// The number of the next character in its line, from 1.
fn column_behind(before: &[u8]) -> usize {
    let mut column = 1usize;
    for byte in before {
        if *byte == b'\n' {
            column = 1;
        } else if *byte & 0xc0 != 0x80 {
            column = column.saturating_add(1);
        }
    }
    column
}

impl Flaw {
    /// The flaw that the reader of a text found.
    pub fn new(text: &[u8], cause: toml::de::Error) -> Flaw {
        let at = match cause.span() {
            // (no clause of `toml` says that its spans lie in the text)
            Some(span) => span.start.min(text.len()),
            None => 0,
        };
        let before = &text[..at];
        Flaw {
            line: line_behind(before),
            column: column_behind(before),
            cause,
        }
    }
}

impl fmt::Display for Flaw {
    fn fmt<W: fmt::Write>(&self, f: &mut fmt::Formatter<W>) -> fmt::Result {
        let line = self.line;
        let column = self.column;
        let why = self.cause.message();
        write!(f, "line {line}, column {column}: {why}")
    }
}
