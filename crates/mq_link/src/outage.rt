//! When an outage is logged: its beginning and its end, at most one outage a second, and what the
//! end counts.
ghost use Rattle.std.specs.Prelude.{◌≡◌, ◌<◌, ◌↔◌, false, IsTrue, Some, None, if◌then◌else◌};
ghost use Rattle.mq_link.specs.Outage.{is_due as is_due_spec, is_last_try, missed, is_beginning};
ghost use Rattle.mq_link.specs.Outage.{begun, is_ending, ended, passed};

use std::time::{Duration, Instant};

/// So many seconds after a line the next outage isn't logged.
const QUIET: u64 = 1;

/// What the log has of the requests that got no answer.
#[derive(Drop)]
pub struct Outage {
    /// How many exchanges a request has.
    pub tries: u32,
    /// How many of them are left to the request in hand.
    pub left: u32,
    /// How many requests got no answer, which no line has counted yet.
    pub unanswered: u32,
    /// The beginning was logged.
    pub is_logged: bool,
    /// When the latest line was logged.
    pub line: Option<Instant>,
}

/// Whether a second or more is over since a line.
fn is_due(line: Option<Instant>, now: Option<Instant>) -> bool
    ensures { result ≡ is_due_spec line now }
{
    match (line, now) {
        (Some(line), Some(now)) => now.duration_since(line) >= Duration::from_secs(QUIET),
        _ => true,
    }
}

impl Outage {
    /// None so far, of requests that have so many exchanges.
    pub fn new(tries: u32) -> Outage
        ensures { result ≡ record {
          tries = tries;
          left = tries;
          unanswered = 0;
          is_logged = false;
          line = None;
        } }
    {
        Outage {
            tries,
            left: tries,
            unanswered: 0,
            is_logged: false,
            line: None,
        }
    }

    /// Notes an exchange that brought no answer, and says whether its request is left without one.
    pub fn miss(&mut self) -> bool
        ensures last { result ≡ is_last_try self.old }
        ensures noted { self.new ≡ missed self.old }
    {
        if self.left <= 1 {
            self.left = self.tries;
            // (an outage of many years counts to the last number and stays there)
            self.unanswered = self.unanswered.saturating_add(1);
            return true;
        }
        self.left -= 1;
        false
    }

    /// Whether the beginning is to be logged now. Then it counts as logged.
    pub fn begin(&mut self, now: Option<Instant>) -> bool
        ensures logged { result ≡ is_beginning self.old now }
        ensures noted { self.new ≡ (if is_beginning self.old now then begun self.old now else
            self.old) }
    {
        if self.unanswered == 0 || self.is_logged || !is_due(self.line, now) {
            return false;
        }
        self.is_logged = true;
        self.line = now;
        true
    }

    /// Whether some request got no answer, which no line has counted yet. Without one `end` logs
    /// nothing, whatever the time.
    pub fn counts_any(&self) -> bool
        ensures { IsTrue result ↔ (0 < self.now.unanswered) }
    {
        0 < self.unanswered
    }

    /// Notes an exchange that brought an answer: how many requests got none until then, where that
    /// is to be logged now.
    pub fn end(&mut self, now: Option<Instant>) -> Option<u32>
        ensures logged { result ≡ (if is_ending self.old now then Some self.old.unanswered else
            None) }
        ensures noted { self.new ≡ (if is_ending self.old now then ended self.old now else passed
            self.old) }
    {
        self.left = self.tries;
        if self.unanswered == 0 || !(self.is_logged || is_due(self.line, now)) {
            return None;
        }
        let unanswered = self.unanswered;
        self.unanswered = 0;
        self.is_logged = false;
        self.line = now;
        Some(unanswered)
    }
}
