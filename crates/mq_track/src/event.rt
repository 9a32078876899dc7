//! What a line reports of a session, read off its event's name and parameters.
ghost use Rattle.std.specs.Prelude.{◌≡◌, ◌≢◌, List, ℕ, MatchResult, IfErr, Some, None};
ghost use Rattle.mq_line.specs.Grammar.{meaning};
ghost use Rattle.mq_line.specs.Parameters.{message};
ghost use Rattle.mq_track.specs.Events.{event, unreadable, report_event, report_fault, end_event};
ghost use Rattle.mq_track.specs.Told.{told};

use crate::closing::CloseEnd;
use crate::fault::TrackFault;
use mq_line::{AuthResult, Line, auth_of, message_of};

/// What a line reports of a session.
#[derive(Clone, Copy)]
pub(crate) enum Event<'a> {
    /// A login passed.
    Passed {
        session: &'a [u8],
        login: &'a [u8],
    },
    /// A transaction began.
    Began {
        session: &'a [u8],
        message: &'a [u8],
        moment: u64,
    },
    /// The transaction with this message id ended; without one, any that is open.
    Ended {
        session: &'a [u8],
        message: Option<&'a [u8]>,
        end: CloseEnd,
    },
    /// The session left.
    Left {
        session: &'a [u8],
    },
    Nothing,
}

/// What a line reports.
pub(crate) fn event_of<'a>(line: &Line<'a>) -> Result<Event<'a>, TrackFault>
    ensures told { MatchResult result
        (λ e. (unreadable (meaning line.now) ≡ None) × (told e ≡ event (meaning line.now)))
        (λ f. unreadable (meaning line.now) ≡ Some f) }
    ensures no_memory { IfErr result (λ f. f ≢ TrackFault.Memory) }
{
    let Line::Report {
        seconds,
        subsystem,
        event,
        session,
        params,
    } = *line
    else {
        return Ok(Event::Nothing);
    };
    if subsystem != b"smtp-in".as_slice() {
        return Ok(Event::Nothing);
    }
    report_event(seconds, event, session, params)
}

/// What a report of the subsystem smtp-in says, by its event's name.
fn report_event<'a>(
    seconds: u64,
    name: &'a [u8],
    session: &'a [u8],
    params: &'a [u8],
) -> Result<Event<'a>, TrackFault>
    ensures told { MatchResult result
        (λ e. (report_fault name.now params.now ≡ None)
        × (told e ≡ report_event seconds name.now session.now params.now))
        (λ f. report_fault name.now params.now ≡ Some f) }
    ensures no_memory { IfErr result (λ f. f ≢ TrackFault.Memory) }
{
    if name == b"link-auth".as_slice() {
        return match auth_of(params) {
            Some((AuthResult::Pass, login)) => Ok(Event::Passed { session, login }),
            Some(_) => Ok(Event::Nothing),
            None => Err(TrackFault::Auth),
        };
    }
    if name == b"link-disconnect".as_slice() {
        return Ok(Event::Left { session });
    }
    if name == b"tx-begin".as_slice() {
        return match message_of(params) {
            Some(message) => Ok(Event::Began {
                session,
                message,
                moment: seconds,
            }),
            None => Err(TrackFault::Message),
        };
    }
    if name == b"tx-commit".as_slice() {
        return end_event(session, params, CloseEnd::Commit);
    }
    if name == b"tx-rollback".as_slice() {
        return end_event(session, params, CloseEnd::Rollback);
    }
    if name == b"tx-reset".as_slice() {
        return Ok(Event::Ended {
            session,
            message: message_of(params),
            end: CloseEnd::Rollback,
        });
    }
    Ok(Event::Nothing)
}

/// The end of the transaction whose message id stands in the parameters.
fn end_event<'a>(
    session: &'a [u8],
    params: &'a [u8],
    end: CloseEnd,
) -> Result<Event<'a>, TrackFault>
    ensures { MatchResult result
        (λ e. (m : List ℕ) × (message params.now ≡ Some m)
        × (told e ≡ end_event session.now end (Some m)))
        (λ f. (message params.now ≡ None) × (f ≡ TrackFault.Message)) }
{
    match message_of(params) {
        Some(message) => Ok(Event::Ended {
            session,
            message: Some(message),
            end,
        }),
        None => Err(TrackFault::Message),
    }
}
