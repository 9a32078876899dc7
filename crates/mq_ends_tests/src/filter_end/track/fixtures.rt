//! What the tests are made of.

use crate::filter_end::asserts::assert_that;
use mq_line::read_line;
use mq_track::{CloseEnd, Closing, Standing, TrackFault, Tracker};
use std::alloc::Global;
use std::process::Abort;

/// A line of smtpd and what a tracker answers to it, or how a session stands.
#[derive(Clone, Copy)]
pub enum Step<'a> {
    Line(&'a str, Answer),
    /// A line that is given again where an allocation for it fails.
    Again(&'a str, Answer),
    Session(&'a str, Standing<'a>),
}

pub type Answer = Result<Option<Closing>, TrackFault>;

/// The line is accepted and closes nothing.
pub const NOTHING: Answer = Ok(None);

pub const DROPS_1: Answer = Ok(Some(Closing {
    txn: 1,
    end: CloseEnd::Rollback,
}));

pub const DROPS_2: Answer = Ok(Some(Closing {
    txn: 2,
    end: CloseEnd::Rollback,
}));

pub const COMMITS_2: Answer = Ok(Some(Closing {
    txn: 2,
    end: CloseEnd::Commit,
}));

pub const COMMITS_3: Answer = Ok(Some(Closing {
    txn: 3,
    end: CloseEnd::Commit,
}));

/// Gives a new tracker these steps, and asserts what comes of each.
pub fn play(rt: &impl Abort, alloc: Global, steps: &[Step<'_>]) {
    let mut tracker = Tracker::new(alloc);
    for step in steps {
        take_step(rt, &mut tracker, *step);
    }
}

fn take_step(rt: &impl Abort, tracker: &mut Tracker, step: Step<'_>) {
    match step {
        Step::Line(text, wanted) => {
            let answer = take(rt, tracker, text);
            assert_answer(rt, text, answer, wanted);
        }
        Step::Again(text, wanted) => {
            let answer = match take(rt, tracker, text) {
                Err(TrackFault::Memory) => take(rt, tracker, text),
                answer => answer,
            };
            assert_answer(rt, text, answer, wanted);
        }
        Step::Session(session, wanted) => {
            assert_that(rt, tracker.standing(session.as_bytes()) == wanted, session);
        }
    }
}

/// Takes one line of smtpd.
fn take(rt: &impl Abort, tracker: &mut Tracker, text: &str) -> Answer {
    let line = read_line(text.as_bytes()).expect(rt, "a line of smtpd");
    tracker.apply(&line)
}

fn assert_answer(rt: &impl Abort, text: &str, answer: Answer, wanted: Answer) {
    assert_that(rt, answer == wanted, text);
}
