//! How the faults of the filter's libraries print.

use crate::filter_end::asserts::assert_printed;
use mq_client::FilterFault;
use mq_line::{FeedFault, LineFault};
use mq_track::TrackFault;

const LINES: &[(LineFault, &str)] = &[
    (LineFault::Short, "line refused: short"),
    (LineFault::Version, "line refused: version"),
    (LineFault::Time, "line refused: time"),
    (LineFault::EmptyField, "line refused: empty field"),
];

const FEEDS: &[(FeedFault, &str)] = &[
    (FeedFault::TooLong, "line too long"),
    (FeedFault::CutLine, "input ends inside a line"),
];

const REPORTS: &[(TrackFault, &str)] = &[
    (TrackFault::Auth, "report refused: auth"),
    (TrackFault::Message, "report refused: message"),
    (TrackFault::Exhausted, "report refused: exhausted"),
    (TrackFault::Memory, "out of memory"),
];

const RUNS: &[(FilterFault, &str)] = &[
    (
        FilterFault::Line(LineFault::EmptyField),
        "line refused: empty field",
    ),
    (
        FilterFault::Track(TrackFault::Exhausted),
        "report refused: exhausted",
    ),
    (FilterFault::NotReady, "line before config ready"),
    (FilterFault::EndedEarly, "input ended before config ready"),
    (FilterFault::CutLine, "input ends inside a line"),
    (FilterFault::TooLong, "line too long"),
    (FilterFault::Read, "read failed"),
    (FilterFault::Write, "write failed"),
    (FilterFault::Memory, "out of memory"),
];

#[test]
fn texts_of_faults(rt: HostRuntime) {
    assert_printed(&rt, rt.alloc(), LINES);
    assert_printed(&rt, rt.alloc(), FEEDS);
    assert_printed(&rt, rt.alloc(), REPORTS);
    assert_printed(&rt, rt.alloc(), RUNS);
}
