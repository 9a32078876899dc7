//! A ledger that is renewed over some nights while it is asked, alongside a list that forgets at
//! once: random histories from fixed seeds, with slices of random sizes and requests between them.
//!
//! At each switch all rows of the new tables are those that carrying over at once makes of the old
//! ones.

use crate::asker::{Asker, Asking, Kind, LAST_DAY, login_of, request_of, stays};
use crate::asks::{Verdict, ask, check_audit, plain, tables, told, wanted, zone};
use crate::forgetting::reply_alike;
use mq_ledger::PlainLedger;
use mq_request::{Login, Request};
use mq_store::{Renewal, SqlLedger};
use sqlite::{Connection, MemStore, Row};
use std::alloc::Global;
use std::test::*;

/// How many histories each test goes through: together they are 1,000.
const HISTORIES: u64 = 200;

/// How many nights a history has at most.
const NIGHTS: u32 = 4;

/// How many requests come on a day at most.
const DAY: u32 = 30;

/// How many steps a slice has at most.
const SLICE: u32 = 6;

/// How many slices a night has at most, far more than it needs.
const SLICES: u32 = 1_000;

const DEFAULT: u32 = 6;

/// The tables, each with an order of its rows.
const TABLES: [&str; 7] = [
    "SELECT * FROM setting ORDER BY id",
    "SELECT * FROM answer ORDER BY n",
    "SELECT * FROM trans ORDER BY host, run, txn",
    "SELECT * FROM usage ORDER BY login, day",
    "SELECT * FROM ceiling ORDER BY login, day",
    "SELECT * FROM rule ORDER BY id",
    "SELECT * FROM retired ORDER BY host",
];

/// How many limits from earlier days lost their replies: before the renewal that took them over,
/// and during it, before it came to them.
#[derive(Clone, Copy)]
struct Cleared {
    before: u32,
    during: u32,
}

/// A ledger in tables that is renewed, a list that forgets at once, and who asks both.
#[derive(Drop)]
struct Pair {
    served: SqlLedger<MemStore>,
    list: PlainLedger,
    asker: Asker,
    forgotten: Vec<Asking>,
}

fn store(alloc: Global) -> Result<Connection<MemStore>, &'static str> {
    Connection::open_in_memory(alloc).or(Err("no store"))
}

/// A place of so many; `None` of none.
fn place_of(asker: &mut Asker, count: usize) -> Option<usize> {
    let sides = u32::try_from(count).unwrap_or(0);
    if sides == 0 {
        return None;
    }
    Some(asker.below(sides) as usize)
}

/// Something that was asked before, whether it stayed or was forgotten.
fn repeat(pair: &mut Pair) -> Option<Asking> {
    if pair.asker.below(2) == 0 {
        let count = pair.forgotten.len();
        let place = place_of(&mut pair.asker, count)?;
        return Some(pair.forgotten[place]);
    }
    let count = pair.asker.answered.len();
    let place = place_of(&mut pair.asker, count)?;
    Some(pair.asker.answered[place].asking)
}

/// What is asked next: now and then something that was asked before.
fn next(pair: &mut Pair) -> Asking {
    if pair.asker.below(6) == 0 {
        if let Some(asking) = repeat(pair) {
            return asking;
        }
    }
    pair.asker.next()
}

/// Asks both, which reply alike.
fn ask_both(alloc: Global, pair: &mut Pair, asking: Asking) -> Verdict {
    let request = request_of(alloc, &asking).ok_or("no memory")?;
    let is_known = pair.asker.is_known(&asking);
    let reply = reply_alike(&mut pair.served, &mut pair.list, &request)?;
    if is_known {
        return Ok(());
    }
    pair.asker.keep(asking, &reply).ok_or("no memory")
}

/// So many requests at most.
fn ask_some(alloc: Global, pair: &mut Pair, most: u32) -> Verdict {
    for _ in 0..pair.asker.below(most + 1) {
        let asking = next(pair);
        ask_both(alloc, pair, asking)?;
    }
    Ok(())
}

/// How many limits from days before that one have no reply any more, of those from that place on.
fn cleared(pair: &Pair, from: u32, place: u64) -> u32 {
    let mut count = 0u32;
    for (at, one) in pair.asker.answered.iter().enumerate() {
        let asking = &one.asking;
        let is_earlier = asking.kind == Kind::Limit && asking.day < from;
        if place <= at as u64 && is_earlier && pair.asker.is_retired(asking) {
            count = count.saturating_add(1);
        }
    }
    count
}

/// So many requests at most, during a renewal that looked at no more than so many answers.
fn ask_meanwhile(
    alloc: Global,
    pair: &mut Pair,
    from: u32,
    steps: u64,
    count: &mut Cleared,
) -> Verdict {
    let before = cleared(pair, from, steps);
    ask_some(alloc, pair, 3)?;
    let more = cleared(pair, from, steps).saturating_sub(before);
    count.during = count.during.saturating_add(more);
    Ok(())
}

fn begin(alloc: Global, from: u32) -> Result<Renewal<MemStore>, &'static str> {
    match Renewal::begin(alloc, store(alloc)?, zone(0), DEFAULT, from) {
        Ok(renewal) => Ok(renewal),
        Err(_) => Err("not begun"),
    }
}

/// Renews the ledger, which is asked meanwhile. Some renewals are given up, and others begun.
fn renew(
    alloc: Global,
    pair: &mut Pair,
    from: u32,
    count: &mut Cleared,
) -> Result<SqlLedger<MemStore>, &'static str> {
    let mut renewal = begin(alloc, from)?;
    count.before = count.before.saturating_add(cleared(pair, from, 0));
    let again = pair.asker.below(20);
    let mut steps = 0u64;
    for turn in 0..SLICES {
        let slice = u64::from(pair.asker.below(SLICE + 1));
        steps = steps.saturating_add(slice);
        match renewal.go_on(&mut pair.served, slice) {
            Ok(true) => return Ok(renewal.into_ledger()),
            Ok(false) => {}
            Err(_) => return Err("a renewal fails"),
        }
        if turn == again {
            renewal = begin(alloc, from)?;
            steps = 0;
        }
        ask_meanwhile(alloc, pair, from, steps, count)?;
    }
    Err("a renewal without end")
}

/// All rows of a table.
fn rows_of(store: &mut Connection<MemStore>, query: &str) -> Result<Vec<Row>, &'static str> {
    store.query_all(query, &[]).or(Err("no rows"))
}

fn is_alike(alloc: Global, one: &Row, other: &Row) -> Result<bool, &'static str> {
    let one = format!(in alloc; "{one:?}").or(Err("no memory"))?;
    let other = format!(in alloc; "{other:?}").or(Err("no memory"))?;
    Ok(one == other)
}

/// Both stores have the same rows of a ledger.
fn check_rows(
    alloc: Global,
    one: &mut Connection<MemStore>,
    other: &mut Connection<MemStore>,
) -> Verdict {
    for query in TABLES {
        let rows = rows_of(one, query)?;
        let others = rows_of(other, query)?;
        wanted(rows.len() == others.len(), "another count of rows")?;
        for (row, like) in rows.iter().zip(&others) {
            wanted(is_alike(alloc, row, like)?, "another row")?;
        }
    }
    Ok(())
}

/// The ledger that was renewed, opened anew, which has the rows of one that was carried over at
/// once.
fn opened(
    alloc: Global,
    old: &mut SqlLedger<MemStore>,
    renewed: SqlLedger<MemStore>,
    from: u32,
) -> Result<SqlLedger<MemStore>, &'static str> {
    let Ok(at_once) = SqlLedger::carry_over(alloc, old, store(alloc)?, from) else {
        return Err("not carried over");
    };
    let mut renewed = renewed.into_connection();
    check_rows(alloc, &mut renewed, &mut at_once.into_connection())?;
    match SqlLedger::open(alloc, renewed, zone(0), DEFAULT) {
        Ok(ledger) => Ok(ledger),
        Err(_) => Err("not opened"),
    }
}

/// A list that is asked again what stays, by what was asked; and what is forgotten.
fn forget(alloc: Global, pair: &mut Pair, from: u32) -> Verdict {
    let mut list = plain(alloc, DEFAULT);
    let mut kept = Vec::new(alloc);
    for one in &pair.asker.answered {
        if stays(pair.asker.answered.as_slice(), one, from) {
            let request = request_of(alloc, &one.asking).ok_or("no memory")?;
            let _reply = ask(&mut list, &request).or(Err("no reply"))?;
            kept.push(*one).or(Err("no memory"))?;
        } else {
            pair.forgotten.push(one.asking).or(Err("no memory"))?;
        }
    }
    pair.list = list;
    pair.asker.answered = kept;
    Ok(())
}

/// What both tell of all days, of each login and in pages.
fn check_days(alloc: Global, pair: &mut Pair) -> Verdict {
    for day in 0..LAST_DAY + 2 {
        for login in 0..2 {
            let login = login_of(alloc, login).ok_or("no memory")?;
            let usage = Request::Usage { login, day };
            let _reply = reply_alike(&mut pair.served, &mut pair.list, &usage)?;
        }
        let after = Login::from_slice(alloc, b"").or(Err("no memory"))?;
        let page = Request::List { day, after };
        let _reply = reply_alike(&mut pair.served, &mut pair.list, &page)?;
    }
    Ok(())
}

/// A night, from which on the days before that one are forgotten.
fn night(alloc: Global, pair: &mut Pair, from: u32, count: &mut Cleared) -> Verdict {
    let renewed = renew(alloc, pair, from, count)?;
    let Ok(answers) = pair.served.count_answers() else {
        return Err("no count");
    };
    wanted(answers == pair.asker.answered.len() as u64, "another count")?;
    pair.served = opened(alloc, &mut pair.served, renewed, from)?;
    forget(alloc, pair, from)?;
    check_days(alloc, pair)
}

/// A history with some nights, each of which forgets more days than the one before or as many.
fn check_history(alloc: Global, seed: u64, count: &mut Cleared) -> Verdict {
    let mut pair = Pair {
        served: tables(alloc, DEFAULT)?,
        list: plain(alloc, DEFAULT),
        asker: Asker::new(alloc, seed),
        forgotten: Vec::new(alloc),
    };
    let mut from = 0;
    for _ in 0..pair.asker.below(NIGHTS) + 1 {
        ask_some(alloc, &mut pair, DAY)?;
        from = pair.asker.below(3).saturating_add(from).min(LAST_DAY);
        night(alloc, &mut pair, from, count)?;
    }
    ask_some(alloc, &mut pair, DAY)?;
    check_days(alloc, &mut pair)?;
    check_audit(&mut pair.served)
}

/// The histories of so many seeds from that one on.
fn check_histories(alloc: Global, first: u64, count: u64) -> Result<(), Fail> {
    let mut cleared = Cleared {
        before: 0,
        during: 0,
    };
    for seed in first..first.saturating_add(count) {
        let verdict = check_history(alloc, seed, &mut cleared);
        told(alloc, seed, verdict)?;
    }
    let enough = wanted(
        100 <= cleared.before && 20 <= cleared.during,
        "few limits without a reply",
    );
    told(alloc, first, enough)
}

#[test]
fn nights_from_0(rt: HostRuntime) -> Result<(), Fail> {
    check_histories(rt.alloc(), 0, HISTORIES)
}

#[test]
fn nights_from_200(rt: HostRuntime) -> Result<(), Fail> {
    check_histories(rt.alloc(), 200, HISTORIES)
}

#[test]
fn nights_from_400(rt: HostRuntime) -> Result<(), Fail> {
    check_histories(rt.alloc(), 400, HISTORIES)
}

#[test]
fn nights_from_600(rt: HostRuntime) -> Result<(), Fail> {
    check_histories(rt.alloc(), 600, HISTORIES)
}

#[test]
fn nights_from_800(rt: HostRuntime) -> Result<(), Fail> {
    check_histories(rt.alloc(), 800, HISTORIES)
}
