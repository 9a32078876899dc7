//! How far a long command is, for somebody who waits at a terminal.

use crate::host::Terminals;
use mq_process::elapsed;
use std::rt::Clock;
use std::time::Instant;

/// How many answers `forget` looks through in a second at least, where it keeps them all: by the
/// last figures 87 us for one.
const ANSWERS_A_SECOND: u64 = 11_000;

/// Who hears how many answers a command has to look through.
pub trait ProgressListener {
    fn begin(&self, answers: u64);
}

/// Standard error, where it is a terminal; else nobody. A line that can't be written is left out,
/// since the command does its work all the same.
#[derive(Drop)]
pub struct Terminal<'a, R> {
    rt: &'a R,
    since: Option<Instant>,
}

impl<'a, R: Clock + Eprint + Terminals> Terminal<'a, R> {
    /// The time counts from now on.
    pub fn new(rt: &'a R) -> Terminal<'a, R> {
        Terminal {
            rt,
            since: Instant::now(rt).ok(),
        }
    }

    /// Prints how long it took, where that is a second or more.
    pub fn end(&self, kept: u64, answers: u64) {
        let Some(time) = elapsed(self.rt, self.since) else {
            return;
        };
        let seconds = time.as_secs();
        if seconds > 0 && self.rt.has_errors_on_terminal() {
            let _ = eprintln!(self.rt; "{kept} of {answers} answers kept, in {seconds} s");
        }
    }
}

impl<R: Eprint + Terminals> ProgressListener for Terminal<'_, R> {
    /// Prints how many answers there are, and how long that may take, where that is a second or
    /// more.
    fn begin(&self, answers: u64) {
        let seconds = answers / ANSWERS_A_SECOND;
        if seconds > 0 && self.rt.has_errors_on_terminal() {
            let _ = eprintln!(self.rt;
                "{answers} answers to look through, in up to about {seconds} s"
            );
        }
    }
}
