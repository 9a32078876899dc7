//! A device that fails in the middle of a run.
use super::devices::{Dropper, Taker};
use super::*;
use std::cell::Cell;

/// How many bytes a filter of one recipient reads and writes.
const INPUT: usize = CONFIG.len() + AUTH.len() + BEGIN.len() + RECIPIENT.len();

const OUTPUT: usize = REGISTRATION.len() + PROCEED.len();

/// More than it reads or writes.
const ENOUGH: usize = 10_000;

/// Where a device fails, and what a run has done until then.
#[derive(Clone, Copy)]
struct Cut {
    name: &'static str,
    reads: usize,
    room: usize,
    ended: End,
    written: usize,
    flushed: usize,
    exchanges: usize,
}

/// The source fails after so many reads.
fn cut_of_reads(reads: usize) -> Cut {
    let written = if reads < CONFIG.len() {
        0
    } else if reads < INPUT {
        REGISTRATION.len()
    } else {
        OUTPUT
    };
    Cut {
        name: "a read fails",
        reads,
        room: ENOUGH,
        ended: Err(FilterFault::Read),
        written,
        // each answer was flushed before the next read
        flushed: written,
        exchanges: if reads < INPUT { 0 } else { 1 },
    }
}

/// The sink fails after so many bytes.
fn cut_of_room(room: usize) -> Cut {
    let registered = room >= REGISTRATION.len();
    let answered = room >= OUTPUT;
    Cut {
        name: "a write fails",
        reads: ENOUGH,
        room,
        ended: if answered {
            ONE_ANSWER
        } else {
            Err(FilterFault::Write)
        },
        written: room,
        flushed: if answered {
            OUTPUT
        } else if registered {
            REGISTRATION.len()
        } else {
            0
        },
        exchanges: if registered { 1 } else { 0 },
    }
}

/// Asserts what a run with one recipient has done where its device failed.
fn assert_cut(rt: &impl Abort, alloc: Global, cut: &Cut) {
    let input = joined(rt, alloc, ONE_RECIPIENT);
    let output = joined(rt, alloc, PROCEEDS);
    let mut rig = rig_of(rt, alloc, 3, &[GRANTED]);
    assert_cut_run(rt, alloc, &mut rig, cut, &input, &output);
}

/// The same of a run that reads this and is to write that.
fn assert_cut_run(
    rt: &impl Abort,
    alloc: Global,
    rig: &mut Rig,
    cut: &Cut,
    input: &str,
    output: &str,
) {
    let flushed = Cell::new(0);
    let mut source = Dropper::new(input.as_bytes(), cut.reads);
    let mut sink = Taker::narrow(output.as_bytes(), &flushed, cut.room);
    let ended = run(alloc, rig, &mut source, &mut sink);
    assert_ended(rt, ended, cut.ended, cut.name);
    assert_that(rt, !sink.is_other, cut.name);
    assert_count(rt, sink.taken, cut.written, "written");
    assert_count(rt, flushed.get(), cut.flushed, "flushed");
    assert_count(rt, rig.link.kept().len(), cut.exchanges, "exchanges");
}

#[test]
fn each_read_and_each_write_fails(rt: HostRuntime) {
    assert_count(&rt, INPUT + 1, 340, "reads");
    for reads in 0..=INPUT {
        assert_cut(&rt, rt.alloc(), &cut_of_reads(reads));
    }
    assert_count(&rt, OUTPUT, 313, "bytes to write");
    for room in 0..=OUTPUT {
        assert_cut(&rt, rt.alloc(), &cut_of_room(room));
    }
}
