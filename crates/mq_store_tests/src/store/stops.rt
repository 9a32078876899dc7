//! A ledger by a zone rule, one with a retire, and one that is made of a file of an earlier
//! version: a file of theirs stops at some call, at each in turn, and they are opened again over
//! what is left of the files.

mod rounds;

use super::older::FIRST_VERSION;
use super::steps::{Outcome, audit, is_refused, make, open};
use super::worked::{RESERVED_TWICE_SETTLED_ONCE, RETIRED};
use crate::asks::{Asked, Verdict, ask_in_turn, replies, wanted, zone_by};
use mq_ledger::{Ledger, Zone};
use mq_store::{Audit, OpenRefused, SqlLedger};
use sqlite::{Alter, Connection, FileStore, Files, MemStore, Options, Row};
use sqlite_disk::{Crash, Disk, Fuse, Memory};
use std::alloc::Global;
use std::test::*;

/// A file that passes so many calls on, and fails each one after.
type Fused = Fuse<Memory>;

/// What is played over files that stop.
struct Played {
    /// What the ledger goes by: the moment of the requests is of the same day by each. An empty
    /// text is no rule, so UTC.
    rule: &'static str,
    /// What the store holds before, and the ledger is opened over; where there is nothing a new one
    /// is made.
    before: &'static str,
    /// What is asked of the ledger.
    asked: Asked,
    /// Whether each request has its reply again, whatever came after it.
    repeats: bool,
}

/// A new ledger by the rule of Central Europe.
const BY_RULE: Played = Played {
    rule: "CET-1CEST,M3.5.0,M10.5.0/3",
    before: "",
    asked: RESERVED_TWICE_SETTLED_ONCE,
    repeats: true,
};

/// A new ledger that is told of retired runs.
const WITH_A_RETIRE: Played = Played {
    rule: "",
    before: "",
    asked: RETIRED,
    repeats: false,
};

/// A ledger of the first version, opened.
const OF_THE_FIRST_VERSION: Played = Played {
    rule: "",
    before: FIRST_VERSION,
    asked: RESERVED_TWICE_SETTLED_ONCE,
    repeats: true,
};

/// The rows of the tables, by their keys.
const ROWS: &[&str] = &[
    "SELECT * FROM setting",
    "SELECT * FROM rule",
    "SELECT * FROM retired ORDER BY host",
    "SELECT * FROM answer ORDER BY n",
    "SELECT * FROM trans ORDER BY host, run, txn",
    "SELECT * FROM usage ORDER BY login, day",
    "SELECT * FROM ceiling ORDER BY login, day",
];

/// More calls than a whole run makes of a file.
const CALLS: u64 = 2000;

/// Which of the two files stops.
#[derive(Clone, Copy)]
enum Stopping {
    Log,
    Database,
}

/// Where a run ended.
#[derive(Clone, Copy, PartialEq)]
enum Stop {
    /// Before the ledger was made or opened.
    Making,
    /// At the request of this place.
    At(usize),
    /// At a reply that differs.
    Differing,
    /// After the last request.
    Nowhere,
}

/// The rows that a query answers.
fn all_of<S: Alter>(connection: &mut Connection<S>, sql: &str) -> Option<Vec<Row>> {
    connection.query_all(sql, &[]).ok()
}

fn push_row(alloc: Global, text: &mut String, row: &Row) -> Option<()> {
    let line = format!(in alloc; "{row:?}\n").ok()?;
    text.push_str(line.as_str()).ok()
}

/// Puts the rows that a query answers after a text; a table that isn't there has none.
fn push_rows<S: Alter>(
    alloc: Global,
    text: &mut String,
    connection: &mut Connection<S>,
    sql: &str,
) -> Option<()> {
    let Some(rows) = all_of(connection, sql) else {
        return text.push_str("no table\n").ok();
    };
    for row in rows.as_slice() {
        push_row(alloc, text, row)?;
    }
    Some(())
}

/// The rows of the tables as text.
fn rows_of<S: Alter>(alloc: Global, connection: &mut Connection<S>) -> Option<String> {
    let mut text = String::new(alloc);
    for sql in ROWS {
        push_rows(alloc, &mut text, connection, sql)?;
    }
    Some(text)
}

/// What the ledger goes by.
fn zone_of(played: &Played) -> Zone {
    zone_by(played.rule)
}

/// The ledger that is made or opened over a store.
fn enter<S: Alter + Drop>(
    alloc: Global,
    played: &Played,
    store: Connection<S>,
) -> Result<SqlLedger<S>, OpenRefused<S>> {
    if played.before.is_empty() {
        make(alloc, store, zone_of(played))
    } else {
        open(alloc, store, zone_of(played), 3)
    }
}

/// A store in memory with what there is before.
fn store_before(alloc: Global, played: &Played) -> Option<Connection<MemStore>> {
    let mut store = Connection::open_in_memory(alloc).ok()?;
    store.execute_batch(played.before).ok()?;
    Some(store)
}

/// The rows of an open ledger after so many of the requests.
fn rows_after<S: Alter + Drop>(
    alloc: Global,
    played: &Played,
    entered: SqlLedger<S>,
    count: usize,
) -> Option<String> {
    let mut ledger = entered;
    ask_in_turn(alloc, &mut ledger, played.asked.get(..count)?)?;
    rows_of(alloc, &mut ledger.into_connection())
}

/// The rows before the ledger is made or opened.
fn rows_before(alloc: Global, played: &Played) -> Option<String> {
    let mut store = store_before(alloc, played)?;
    rows_of(alloc, &mut store)
}

/// The rows of a ledger that was made or opened, after so many of the requests.
fn rows_entered(alloc: Global, played: &Played, count: usize) -> Option<String> {
    match enter(alloc, played, store_before(alloc, played)?) {
        Ok(ledger) => rows_after(alloc, played, ledger, count),
        Err(_) => None,
    }
}

/// Puts rows at the end of a list.
fn put_rows(rows: &mut Vec<String>, found: Option<String>) -> Verdict {
    match found {
        Some(text) => rows.push(text).or(Err("no memory")),
        None => Err("no rows"),
    }
}

/// The rows before the ledger is made or opened, and then after each count of requests, from 0 on.
fn rows_in_turn(alloc: Global, played: &Played) -> Result<Vec<String>, &'static str> {
    let mut rows = Vec::new(alloc);
    put_rows(&mut rows, rows_before(alloc, played))?;
    for count in 0..=played.asked.len() {
        put_rows(&mut rows, rows_entered(alloc, played, count))?;
    }
    Ok(rows)
}

/// A file with these bytes that stops after so many calls.
fn fused(alloc: Global, bytes: &[u8], calls: u64) -> Option<Fused> {
    let mut file = Memory::new(alloc);
    file.write_at(0, bytes).ok()?;
    file.sync().ok()?;
    Some(Fuse::new(file, calls))
}

/// Writes what there is before over files, and closes them.
fn files_before(alloc: Global, played: &Played) -> Option<Files<Memory>> {
    let files = Files {
        log: Memory::new(alloc),
        db: Memory::new(alloc),
    };
    if played.before.is_empty() {
        return Some(files);
    }
    let mut store = connect(alloc, files).ok()?;
    store.execute_batch(played.before).ok()?;
    Some(store.into_store().close())
}

/// Files with what there is before, of which one stops after so many calls.
fn fused_files(
    alloc: Global,
    played: &Played,
    stopping: Stopping,
    calls: u64,
) -> Option<Files<Fused>> {
    let (log, db) = match stopping {
        Stopping::Log => (calls, u64::MAX),
        Stopping::Database => (u64::MAX, calls),
    };
    let before = files_before(alloc, played)?;
    Some(Files {
        log: fused(alloc, before.log.bytes(), log)?,
        db: fused(alloc, before.db.bytes(), db)?,
    })
}

/// A connection over the files, or what is left of them.
fn connect<D: Disk + Drop>(
    alloc: Global,
    files: Files<D>,
) -> Result<Connection<FileStore<D>>, Files<D>> {
    if !files.may_be_used() {
        return Err(files);
    }
    match Connection::open_files(alloc, files, Options::new(7)) {
        Ok(connection) => Ok(connection),
        Err((_error, left)) => Err(left.into_files()),
    }
}

/// Asks the ledger from the request of a place on, up to the first that it doesn't reply to.
fn ask_from<L: Ledger>(alloc: Global, ledger: &mut L, asked: Asked, first: usize) -> Stop {
    for (place, (request, reply)) in asked.iter().enumerate() {
        if place >= first {
            match replies(alloc, ledger, request, reply) {
                Some(true) => {}
                Some(false) => return Stop::Differing,
                None => return Stop::At(place),
            }
        }
    }
    Stop::Nowhere
}

/// Makes or opens a ledger in a store and asks it, up to where the store fails.
fn run<S: Alter + Drop>(
    alloc: Global,
    played: &Played,
    store: Connection<S>,
    stop: &mut Stop,
) -> Connection<S> {
    match enter(alloc, played, store) {
        Ok(ledger) => {
            let mut ledger = ledger;
            *stop = ask_from(alloc, &mut ledger, played.asked, 0);
            ledger.into_connection()
        }
        Err(refused) => {
            *stop = Stop::Making;
            refused.connection
        }
    }
}

/// The same over files, which are closed without a further call of them.
fn run_over<D: Disk + Drop>(
    alloc: Global,
    played: &Played,
    files: Files<D>,
    stop: &mut Stop,
) -> Files<D> {
    match connect(alloc, files) {
        Ok(store) => run(alloc, played, store, stop).into_store().close(),
        Err(files) => {
            *stop = Stop::Making;
            files
        }
    }
}

/// Whether these rows may be found after the stop: those before or after the call that was stopped.
fn may_be_found(rows: &[String], stop: Stop, found: &str) -> bool {
    let (first, last) = match stop {
        Stop::Making => (0, 1),
        Stop::At(place) => (place.saturating_add(1), place.saturating_add(2)),
        Stop::Differing => return false,
        Stop::Nowhere => (rows.len().saturating_sub(1), rows.len()),
    };
    for (count, known) in rows.iter().enumerate() {
        if first <= count && count <= last && known.as_str() == found {
            return true;
        }
    }
    false
}

/// Checks that a store has rows as they may be after the stop.
fn check_rows<S: Alter>(
    alloc: Global,
    rows: &[String],
    stop: Stop,
    store: &mut Connection<S>,
) -> Verdict {
    match rows_of(alloc, store) {
        Some(found) => wanted(may_be_found(rows, stop, found.as_str()), "other rows"),
        None => Err("no rows"),
    }
}

/// The first request that is asked after a stop: one that got its reply is asked again where it has
/// the same one still.
fn first_again(played: &Played, stop: Stop) -> usize {
    match stop {
        Stop::At(place) if !played.repeats => place,
        Stop::Nowhere if !played.repeats => played.asked.len(),
        _ => 0,
    }
}

/// Checks that a ledger replies as ever to the requests, those before the stop among them where
/// they repeat, and has the rows of them all.
fn check_again<S: Alter + Drop>(
    alloc: Global,
    played: &Played,
    rows: &[String],
    stop: Stop,
    store: Connection<S>,
) -> Verdict {
    match open(alloc, store, zone_of(played), 3) {
        Ok(ledger) => {
            let mut ledger = ledger;
            let end = ask_from(alloc, &mut ledger, played.asked, first_again(played, stop));
            check_end(alloc, rows, end, ledger.into_connection())
        }
        Err(_) => Err("not opened again"),
    }
}

/// Checks that all requests have their replies, and a store the rows of them all.
fn check_end<S: Alter + Drop>(
    alloc: Global,
    rows: &[String],
    stop: Stop,
    store: Connection<S>,
) -> Verdict {
    let mut store = store;
    match stop {
        Stop::Nowhere => check_rows(alloc, rows, stop, &mut store),
        _ => Err("a request without its reply"),
    }
}

/// Whether a ledger may be refused so after the stop: none was made, and the store has no table.
fn may_be_refused<S: Alter + Drop>(played: &Played, stop: Stop, refused: &OpenRefused<S>) -> bool {
    stop == Stop::Making
        && played.before.is_empty()
        && is_refused(&refused.fault, &Outcome::NotOurs)
        && refused.connection.schema().tables.is_empty()
}

/// Checks that an audit finds each pair right.
fn check_audit<S: Alter>(ledger: &mut SqlLedger<S>) -> Verdict {
    wanted(
        matches!(audit(ledger), Ok(Audit::Sound { .. })),
        "not sound",
    )
}

/// Checks that a ledger is sound, and goes on where that is asked for.
fn check_ledger<S: Alter + Drop>(
    alloc: Global,
    played: &Played,
    rows: &[String],
    stop: Stop,
    ledger: SqlLedger<S>,
    goes_on: bool,
) -> Verdict {
    let mut ledger = ledger;
    let found = check_audit(&mut ledger);
    match found {
        Ok(()) if goes_on => check_again(alloc, played, rows, stop, ledger.into_connection()),
        _ => found,
    }
}

/// Checks what a store holds after a stop: rows as they may be, and such a ledger, or no table.
fn check_store<S: Alter + Drop>(
    alloc: Global,
    played: &Played,
    rows: &[String],
    stop: Stop,
    store: Connection<S>,
    goes_on: bool,
) -> Verdict {
    let mut store = store;
    check_rows(alloc, rows, stop, &mut store)?;
    match open(alloc, store, zone_of(played), 3) {
        Ok(ledger) => check_ledger(alloc, played, rows, stop, ledger, goes_on),
        Err(refused) => wanted(may_be_refused(played, stop, &refused), "refused"),
    }
}

/// The same of what files hold.
fn check_files<D: Disk + Drop>(
    alloc: Global,
    played: &Played,
    rows: &[String],
    stop: Stop,
    files: Files<D>,
    goes_on: bool,
) -> Verdict {
    match connect(alloc, files) {
        Ok(store) => check_store(alloc, played, rows, stop, store, goes_on),
        Err(_) => Err("the files don't open"),
    }
}

/// Files with all that was written to these.
fn written(alloc: Global, files: &Files<Fused>) -> Option<Files<Fused>> {
    Some(Files {
        log: fused(alloc, files.log.inner().bytes(), u64::MAX)?,
        db: fused(alloc, files.db.inner().bytes(), u64::MAX)?,
    })
}

/// Checks what files hold that have all that was written.
fn check_written(
    alloc: Global,
    played: &Played,
    rows: &[String],
    stop: Stop,
    files: &Files<Fused>,
) -> Verdict {
    match written(alloc, files) {
        Some(files) => check_files(alloc, played, rows, stop, files, false),
        None => Err("no memory"),
    }
}

/// The files, with no more than what was synced.
fn synced(files: Files<Fused>) -> Files<Fused> {
    let mut files = files;
    files.log.crash();
    files.db.crash();
    files
}

/// Checks what the files hold after a stop: they are opened with all that was written, and with no
/// more than what was synced.
fn check_both(
    alloc: Global,
    played: &Played,
    rows: &[String],
    stop: Stop,
    files: Files<Fused>,
) -> Verdict {
    let verdict = check_written(alloc, played, rows, stop, &files);
    verdict.and(check_files(alloc, played, rows, stop, synced(files), true))
}

/// Lets a file stop at this call, and answers whether the run came to its end all the same.
fn stop_at(
    alloc: Global,
    played: &Played,
    rows: &[String],
    stopping: Stopping,
    calls: u64,
) -> Result<bool, &'static str> {
    let Some(before) = fused_files(alloc, played, stopping, calls) else {
        return Err("no files");
    };
    let mut stop = Stop::Making;
    let files = run_over(alloc, played, before, &mut stop);
    match check_both(alloc, played, rows, stop, files) {
        Ok(()) => Ok(stop == Stop::Nowhere),
        Err(why) => Err(why),
    }
}

/// What becomes of the calls at which a file stops in turn: how many calls the first run made that
/// came to its end, if one did.
type Swept = Result<Option<u64>, &'static str>;

/// Lets a file stop at each of these calls in turn, until a run comes to its end.
fn sweep_over(
    alloc: Global,
    played: &Played,
    rows: &[String],
    stopping: Stopping,
    first: u64,
    last: u64,
) -> Swept {
    for calls in first..last {
        if stop_at(alloc, played, rows, stopping, calls)? {
            return Ok(Some(calls));
        }
    }
    Ok(None)
}

/// The same, with the rows that may be found.
fn sweep(alloc: Global, played: &Played, stopping: Stopping, first: u64, last: u64) -> Swept {
    match rows_in_turn(alloc, played) {
        Ok(rows) => sweep_over(alloc, played, rows.as_slice(), stopping, first, last),
        Err(why) => Err(why),
    }
}

/// Goes through all calls of the database file from the first on.
fn database_of(rt: HostRuntime, played: &Played) -> Result<(), Fail> {
    let Some(stops) = sweep(rt.alloc(), played, Stopping::Database, 0, CALLS)? else {
        return Err("no run came to its end".into());
    };
    println!(rt; "the database file: {stops} stops")?;
    Ok(wanted(stops > 0, "no call stopped it")?)
}

/// Goes through so many calls of the log, after which a run has more.
fn log_of(rt: HostRuntime, played: &Played, first: u64, last: u64) -> Result<(), Fail> {
    let ended = sweep(rt.alloc(), played, Stopping::Log, first, last)?;
    Ok(wanted(ended.is_none(), "a run came to its end")?)
}

/// Goes through the calls of the log from this one to the last of a run.
fn end_of_log(rt: HostRuntime, played: &Played, first: u64) -> Result<(), Fail> {
    let Some(stops) = sweep(rt.alloc(), played, Stopping::Log, first, CALLS)? else {
        return Err("no run came to its end".into());
    };
    println!(rt; "the log: {stops} stops")?;
    Ok(())
}

#[test]
fn the_database_stops_at_each_call(rt: HostRuntime) -> Result<(), Fail> {
    database_of(rt, &BY_RULE)
}

#[test]
fn the_log_stops_at_its_first_calls(rt: HostRuntime) -> Result<(), Fail> {
    log_of(rt, &BY_RULE, 0, 12)
}

#[test]
fn the_log_stops_at_further_calls(rt: HostRuntime) -> Result<(), Fail> {
    log_of(rt, &BY_RULE, 12, 24)
}

#[test]
fn the_log_stops_at_later_calls(rt: HostRuntime) -> Result<(), Fail> {
    log_of(rt, &BY_RULE, 24, 34)
}

#[test]
fn the_log_stops_at_its_last_calls(rt: HostRuntime) -> Result<(), Fail> {
    end_of_log(rt, &BY_RULE, 34)
}

#[test]
fn the_database_of_a_retire_stops_at_each_call(rt: HostRuntime) -> Result<(), Fail> {
    database_of(rt, &WITH_A_RETIRE)
}

#[test]
fn the_log_of_a_retire_stops_at_its_first_calls(rt: HostRuntime) -> Result<(), Fail> {
    log_of(rt, &WITH_A_RETIRE, 0, 10)
}

#[test]
fn the_log_of_a_retire_stops_at_further_calls(rt: HostRuntime) -> Result<(), Fail> {
    log_of(rt, &WITH_A_RETIRE, 10, 20)
}

#[test]
fn the_log_of_a_retire_stops_at_later_calls(rt: HostRuntime) -> Result<(), Fail> {
    log_of(rt, &WITH_A_RETIRE, 20, 30)
}

#[test]
fn the_log_of_a_retire_stops_at_calls_after_these(rt: HostRuntime) -> Result<(), Fail> {
    log_of(rt, &WITH_A_RETIRE, 30, 40)
}

#[test]
fn the_log_of_a_retire_stops_at_its_last_calls(rt: HostRuntime) -> Result<(), Fail> {
    end_of_log(rt, &WITH_A_RETIRE, 40)
}

#[test]
fn the_database_of_the_first_version_stops_at_each_call(rt: HostRuntime) -> Result<(), Fail> {
    database_of(rt, &OF_THE_FIRST_VERSION)
}

#[test]
fn the_log_of_the_first_version_stops_at_its_first_calls(rt: HostRuntime) -> Result<(), Fail> {
    log_of(rt, &OF_THE_FIRST_VERSION, 0, 10)
}

#[test]
fn the_log_of_the_first_version_stops_at_its_last_calls(rt: HostRuntime) -> Result<(), Fail> {
    end_of_log(rt, &OF_THE_FIRST_VERSION, 10)
}
