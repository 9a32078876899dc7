//! What the log says of a client's requests.

use crate::logged_limits::LoggedLimits;
use crate::moves::Moves;
use crate::observer::{FilterEvent, Observer};
use crate::pauses::Pauses;
use crate::retired::RetiredRun;
use crate::tries::{FramedRequest, log_text};
use crate::verdict::Verdict;
use crate::warnings::{RefusedRequest, UnansweredRequest, is_refusal};
use log::Level;
use mq_request::Request;
use std::alloc::Global;

/// What the log has of a client's requests, so that what lasts or comes again is warned of once.
#[derive(Drop)]
pub struct Journal {
    limits: LoggedLimits,
    moves: Moves,
    pauses: Pauses,
    retired: RetiredRun,
    /// The second of smtpd's line whose requests come next.
    seconds: u64,
}

impl Journal {
    /// The log has nothing so far.
    pub fn new(alloc: Global) -> Journal {
        Journal {
            limits: LoggedLimits::new(alloc),
            moves: Moves::new(),
            pauses: Pauses::new(),
            retired: RetiredRun::new(),
            seconds: 0,
        }
    }

    /// The next requests come of a line of this second.
    pub fn set_seconds(&mut self, seconds: u64) {
        self.seconds = seconds;
    }

    /// Logs what a reply decided about a request, where the log has a line for it.
    pub fn note_decided<R: Observer>(&mut self, rt: &R, framed: &FramedRequest, verdict: Verdict) {
        self.pauses.end(rt);
        self.moves.see(&framed.request);
        self.limits.log_refusal(rt, framed, verdict);
        self.note_run(rt, &framed.request, verdict);
        if is_refusal(verdict) {
            let level = self.moves.level(&framed.request, verdict);
            log_text(rt, level, &RefusedRequest { framed, verdict });
        }
    }

    /// Tells whether the run of a request is retired, and logs it where the log is to have a line.
    fn note_run<R: Observer>(&mut self, rt: &R, request: &Request, verdict: Verdict) {
        let is_retired = verdict == Verdict::Old;
        rt.observe(FilterEvent::Decided { is_retired });
        if is_retired {
            self.retired.log_refusal(rt, request, self.seconds);
        } else {
            self.retired.log_answer(rt, request);
        }
    }

    /// Logs a request that no reply decided in so many tries: by a warning where the server
    /// answered, since the link logs it else. One that was tried no time is held back, and has no
    /// line.
    pub fn note_undecided<R: Observer>(
        &mut self,
        rt: &R,
        framed: &FramedRequest,
        tries: u32,
        has_other_reply: bool,
    ) {
        if tries == 0 {
            return;
        }
        let level = if has_other_reply {
            Level::Warn
        } else {
            Level::Info
        };
        let unanswered = UnansweredRequest {
            framed,
            tries,
            has_other_reply,
        };
        log_text(rt, level, &unanswered);
    }

    /// Tells that a try ran out of time, where one did, and logs that a pause of so many seconds
    /// begins, where there are pauses.
    pub fn note_pause<R: Observer>(&mut self, rt: &R, timed_out: bool, seconds: u64) {
        if !timed_out {
            return;
        }
        rt.observe(FilterEvent::TimedOut);
        if seconds > 0 {
            rt.observe(FilterEvent::Paused);
            self.pauses.begin(rt, seconds);
        }
    }

    /// A recipient was answered 451 in a pause.
    pub fn count_held_back(&mut self) {
        self.pauses.hold_back();
    }
}
