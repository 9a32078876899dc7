//! Who is told what a filter does, as it does it.

use crate::refusal::RefusalCause;
use log::Log;
use log::sink::{Discard, Memory};
use mq_line::Decision;

/// What a request of smtpd came to.
#[derive(Clone, Copy, Debug, PartialEq, Eq)]
pub enum AnswerKind {
    /// It goes on.
    Proceed,
    /// It goes on, since its session has no login.
    NoLogin,
    /// The limit of the login doesn't allow it.
    Limit,
    /// No answer can be had.
    Service,
    /// The same, since the login is empty or longer than 255 bytes.
    Spelling,
}

impl AnswerKind {
    /// What a recipient comes to that is refused for this cause.
    pub fn refused(cause: RefusalCause) -> AnswerKind {
        match cause {
            RefusalCause::Login => AnswerKind::Spelling,
            _ => AnswerKind::Service,
        }
    }

    /// What a decision comes to, about a recipient of a login that can be asked for.
    pub fn of(decision: Decision) -> AnswerKind {
        match decision {
            Decision::Proceed => AnswerKind::Proceed,
            Decision::RejectLimit => AnswerKind::Limit,
            Decision::RejectService => AnswerKind::Service,
        }
    }
}

/// What a filter does.
#[derive(Clone, Copy, Debug, PartialEq, Eq)]
pub enum FilterEvent {
    /// A request of smtpd was answered, and the answer handed on.
    Answered(AnswerKind),
    /// A recipient is answered so without asking, by `pause` or `hold`.
    HeldBack(AnswerKind),
    /// A request has the next number of the run.
    Numbered,
    /// No reply decided a request, and a try of it ran out of time.
    TimedOut,
    /// A pause begins.
    Paused,
    /// A reply decided a request: by it the run is retired, or it isn't.
    Decided { is_retired: bool },
}

/// A log that may count what the filter does, and is told when that is about to wait. What it does
/// then holds no answer up that is due, and changes none.
pub trait Observer: Log {
    /// This happened.
    fn observe(&self, _event: FilterEvent) {}

    /// All that came is handled, and the next read may wait for more: so many transactions are open,
    /// and so many closings wait.
    fn rest(&self, _open: usize, _waiting: usize) {}
}

/// It counts nothing.
impl Observer for Discard {}

/// It keeps what is logged, and counts nothing.
impl Observer for Memory {}
