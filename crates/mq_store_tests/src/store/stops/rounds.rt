//! A ledger that takes requests together, of whose files one stops at some call, at each in turn:
//! the files then have the rows before a round, or those of the whole round.

use super::{
    BY_RULE, CALLS, Fused, Played, Stop, Stopping, connect, enter, fused_files, rows_in_turn,
    rows_of, synced, written,
};
use crate::asks::{Verdict, put_together, reply_of, wanted};
use mq_store::SqlLedger;
use sqlite::{Alter, Connection, Files};
use std::alloc::Global;
use std::test::*;

/// How many requests are put together.
const TOGETHER: usize = 2;

/// Puts the requests in rounds, up to the first that isn't taken.
fn ask_in_rounds<S: Alter>(alloc: Global, ledger: &mut SqlLedger<S>, played: &Played) -> Stop {
    let mut first = 0;
    for round in played.asked.chunks(TOGETHER) {
        match put_together(alloc, ledger, round) {
            Some(true) => first += round.len(),
            Some(false) => return Stop::Differing,
            None => return after_a_stop(alloc, ledger, played, first),
        }
    }
    Stop::Nowhere
}

/// The round from this request on wasn't taken. Where a request of it isn't taken alone either, the
/// cause of that is the round's: not that the store is closed since.
fn after_a_stop<S: Alter>(
    alloc: Global,
    ledger: &mut SqlLedger<S>,
    played: &Played,
    first: usize,
) -> Stop {
    let cause = ledger.cause();
    let Some((request, _)) = played.asked.get(first) else {
        return Stop::Differing;
    };
    if reply_of(alloc, ledger, request).is_none() && ledger.cause() == cause {
        Stop::At(first)
    } else {
        Stop::Differing
    }
}

/// Makes a ledger in a store and asks it so.
fn run<S: Alter + Drop>(
    alloc: Global,
    played: &Played,
    store: Connection<S>,
    stop: &mut Stop,
) -> Connection<S> {
    match enter(alloc, played, store) {
        Ok(ledger) => {
            let mut ledger = ledger;
            *stop = ask_in_rounds(alloc, &mut ledger, played);
            ledger.into_connection()
        }
        Err(refused) => refused.connection,
    }
}

/// Whether these rows may be found after the stop.
fn may_be_found(rows: &[String], stop: Stop, found: &str) -> bool {
    let (before, after) = match stop {
        Stop::Making => (0, 1),
        Stop::At(first) => (first + 1, rows.len().min(first + 1 + TOGETHER)),
        Stop::Differing => return false,
        Stop::Nowhere => (rows.len() - 1, rows.len() - 1),
    };
    [before, after.min(rows.len() - 1)]
        .iter()
        .any(|place| rows[*place].as_str() == found)
}

/// Checks that files have rows as they may be after the stop.
fn check_rows(alloc: Global, rows: &[String], stop: Stop, files: Files<Fused>) -> Verdict {
    let Ok(store) = connect(alloc, files) else {
        return Err("the files don't open");
    };
    let mut store = store;
    match rows_of(alloc, &mut store) {
        Some(found) => wanted(may_be_found(rows, stop, found.as_str()), "other rows"),
        None => Err("no rows"),
    }
}

/// Lets a file stop at this call, and answers whether all requests were taken all the same.
fn stop_at(
    alloc: Global,
    rows: &[String],
    stopping: Stopping,
    calls: u64,
) -> Result<bool, &'static str> {
    let Some(before) = fused_files(alloc, &BY_RULE, stopping, calls) else {
        return Err("no files");
    };
    let mut stop = Stop::Making;
    let files = match connect(alloc, before) {
        Ok(store) => run(alloc, &BY_RULE, store, &mut stop).into_store().close(),
        Err(files) => files,
    };
    let Some(all) = written(alloc, &files) else {
        return Err("no memory");
    };
    check_rows(alloc, rows, stop, all)?;
    check_rows(alloc, rows, stop, synced(files))?;
    Ok(stop == Stop::Nowhere)
}

/// Goes through all calls of a file.
fn sweep(rt: HostRuntime, stopping: Stopping) -> Result<(), Fail> {
    let alloc = rt.alloc();
    let rows = rows_in_turn(alloc, &BY_RULE)?;
    for calls in 0..CALLS {
        if stop_at(alloc, &rows, stopping, calls)? {
            println!(rt; "{calls} stops")?;
            return Ok(wanted(calls > 0, "no call stopped it")?);
        }
    }
    Err("no run came to its end".into())
}

#[test]
fn the_database_of_rounds_stops_at_each_call(rt: HostRuntime) -> Result<(), Fail> {
    sweep(rt, Stopping::Database)
}

#[test]
fn the_log_of_rounds_stops_at_each_call(rt: HostRuntime) -> Result<(), Fail> {
    sweep(rt, Stopping::Log)
}
