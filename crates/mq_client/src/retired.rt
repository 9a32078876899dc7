//! What the log says of a run that is retired.
ghost use Rattle.std.specs.Prelude.{◌≡◌, is_some, if◌then◌else◌, None, Some, false};
ghost use Rattle.mq_client.specs.RetiredRuns.{is_due};

use crate::holdup::is_over;
use log::{Log, error, warn};
use mq_request::{EscapedText, Request};
use std::fmt;
use std::marker::Model;

/// After how many seconds of smtpd's lines the log says it again.
const MINUTE: u64 = 60;

/// What the log has of requests that are refused since the filter's run is retired: an error at the
/// first of them, and one each minute as long as they come.
#[derive(Drop)]
pub struct RetiredRun {
    /// The second of smtpd's line at the latest error; none where the run isn't known to be
    /// retired.
    told: Option<u64>,
}

impl Model for RetiredRun {
    ghost use Rattle.std.specs.Prelude.{ℕ, Option};

    ghost Value = { Option ℕ };

    ghost view = { λ run. run.told };
}

impl RetiredRun {
    /// It isn't known to be retired.
    pub fn new() -> RetiredRun
        ensures { result ≡ None }
    {
        RetiredRun { told: None }
    }

    /// Whether an error is due, as a request is refused at a line of this second.
    fn is_due(&mut self, seconds: u64) -> bool
        ensures due { result ≡ is_due self.old seconds }
        ensures told { self.new ≡ (if result then Some seconds else self.old) }
        // The latest error is less than a minute old.
        ensures recent { is_due self.new seconds ≡ false }
    {
        let is_due = match self.told {
            None => true,
            Some(told) => is_over(MINUTE, told, seconds),
        };
        if is_due {
            self.told = Some(seconds);
        }
        is_due
    }

    /// Whether the run was known to be retired. From now on it isn't.
    fn ends(&mut self) -> bool
        ensures ends { result ≡ is_some self.old }
        ensures none { self.new ≡ None }
    {
        let ends = self.told.is_some();
        self.told = None;
        ends
    }

    /// Logs that the server refused a request for its run, at a line of this second, where that is
    /// due.
    pub fn log_refusal<R: Log>(&mut self, rt: &R, request: &Request, seconds: u64) {
        if self.is_due(seconds) {
            let run = NamedRun(request);
            error!(rt; "{run} is retired, recipients are answered 451: restart smtpd, but first see \"A filter that is retired\" in OPERATING.md");
        }
    }

    /// Logs that the server took a request after others were refused: it is another server, at
    /// which the run isn't retired.
    pub fn log_answer<R: Log>(&mut self, rt: &R, request: &Request) {
        if self.ends() {
            let run = NamedRun(request);
            warn!(rt; "{run} isn't retired at the server that answers now");
        }
    }
}

/// The run of a client's request.
#[derive(Clone, Copy)]
struct NamedRun<'a>(&'a Request);

impl fmt::Display for NamedRun<'_> {
    fn fmt<W: fmt::Write>(&self, f: &mut fmt::Formatter<W>) -> fmt::Result {
        match self.0 {
            Request::Reserve { id, .. }
            | Request::Settle { id, .. }
            | Request::Release { id, .. } => {
                let host = EscapedText(id.host.as_slice());
                write!(f, "run {} of host {host}", id.run)
            }
            _ => Ok(()),
        }
    }
}
