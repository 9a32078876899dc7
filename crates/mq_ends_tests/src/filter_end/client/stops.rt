//! Inputs that stop a run.
use super::*;
use mq_line::LineFault;
use mq_track::TrackFault;

const NO_RESULT: &str = "report|0.7|1576146008.006099|smtp-in|link-auth|s|alice\n";

const NO_MESSAGE: &str = "report|0.7|1576146008.006099|smtp-in|tx-commit|s|\n";

const SHORT: &str = "report|0.7\n";

/// A run that stops before the registration.
const EARLY: Row<'static> = Row { text: &[], ..PLAIN };

/// A run that stops after it.
const LATE: Row<'static> = Row {
    text: &[REGISTRATION],
    ..PLAIN
};

const SHORT_LINE: FilterFault = FilterFault::Line(LineFault::Short);

const STOPS: &[Row<'static>] = &[
    Row {
        name: "nothing",
        lines: &[],
        ended: Err(FilterFault::EndedEarly),
        ..EARLY
    },
    Row {
        name: "a report too early",
        lines: &[AUTH],
        ended: Err(FilterFault::NotReady),
        ..EARLY
    },
    Row {
        name: "a request too early",
        lines: &[RECIPIENT],
        ended: Err(FilterFault::NotReady),
        ..EARLY
    },
    Row {
        name: "a short line first",
        lines: &[SHORT, CONFIG],
        ended: Err(SHORT_LINE),
        ..EARLY
    },
    Row {
        name: "another line",
        lines: &["other\n"],
        ended: Err(FilterFault::EndedEarly),
        ..EARLY
    },
    Row {
        name: "a cut line",
        lines: &["config|x"],
        ended: Err(FilterFault::CutLine),
        ..EARLY
    },
    Row {
        name: "a short line",
        lines: &[CONFIG, SHORT],
        ended: Err(SHORT_LINE),
        ..LATE
    },
    Row {
        name: "a login without a result",
        lines: &[CONFIG, NO_RESULT],
        ended: Err(FilterFault::Track(TrackFault::Auth)),
        ..LATE
    },
    Row {
        name: "a commit without an id",
        lines: &[CONFIG, NO_MESSAGE],
        ended: Err(FilterFault::Track(TrackFault::Message)),
        ..LATE
    },
    Row {
        name: "a cut line later",
        lines: &[CONFIG, "config|x"],
        ended: Err(FilterFault::CutLine),
        ..LATE
    },
];

#[test]
fn inputs_that_stop_a_run(rt: HostRuntime) {
    assert_rows(&rt, rt.alloc(), STOPS);
}
