//! A ledger that forgot the days that are over, alongside the one that it was made from: random
//! histories over tables, from fixed seeds. What stays is told by a list of what was asked.

use crate::asker::{Answered, Asker, Kind, LAST_DAY, is_about, login_of, request_of, stays};
use crate::asks::{Verdict, ask, check_audit, tables, told, wanted};
use mq_ledger::Ledger;
use mq_request::{Login, Reply, Request};
use mq_store::SqlLedger;
use sqlite::{Connection, MemStore, Row};
use std::alloc::Global;
use std::test::*;

/// How many histories each test goes through: together they are 2,500.
const HISTORIES: u64 = 500;

/// How many requests come before the forgetting, at the least.
const FEWEST: u32 = 8;

/// How many more these are at most.
const MORE: u32 = 40;

/// How many come after it.
const AFTER: u32 = 10;

/// Both ledgers reply alike.
pub fn reply_alike<A: Ledger, B: Ledger>(
    old: &mut A,
    new: &mut B,
    request: &Request,
) -> Result<Reply, &'static str> {
    let (Ok(one), Ok(other)) = (ask(old, request), ask(new, request)) else {
        return Err("no reply");
    };
    wanted(one == other, "another reply")?;
    Ok(one)
}

/// The limit of a login on a day that is over, by both ledgers.
fn check_limit(
    old: &mut SqlLedger<MemStore>,
    new: &mut SqlLedger<MemStore>,
    request: &Request,
) -> Verdict {
    let (
        Ok(Reply::Usage { cap: one, .. }),
        Ok(
            Reply::Usage {
                settled,
                reserved,
                cap: other,
                ..
            },
        ),
    ) = (ask(old, request), ask(new, request))
    else {
        return Err("no usage");
    };
    wanted(one == other, "another limit")?;
    wanted(settled == 0 && reserved == 0, "used on a day that is over")
}

/// What both tell of a login on a day.
fn check_usage(
    alloc: Global,
    old: &mut SqlLedger<MemStore>,
    new: &mut SqlLedger<MemStore>,
    from: u32,
    (login, day): (u32, u32),
) -> Verdict {
    let Some(login) = login_of(alloc, login) else {
        return Err("no memory");
    };
    let request = Request::Usage { login, day };
    if day < from {
        return check_limit(old, new, &request);
    }
    let _reply = reply_alike(old, new, &request)?;
    Ok(())
}

/// What both list of a day that is kept.
fn check_list(
    alloc: Global,
    old: &mut SqlLedger<MemStore>,
    new: &mut SqlLedger<MemStore>,
    day: u32,
) -> Verdict {
    let page = Request::List {
        day,
        after: Login::from_slice(alloc, b"").or(Err("no memory"))?,
    };
    let _reply = reply_alike(old, new, &page)?;
    Ok(())
}

/// What both tell of all logins and days.
fn check_days(
    alloc: Global,
    old: &mut SqlLedger<MemStore>,
    new: &mut SqlLedger<MemStore>,
    from: u32,
) -> Verdict {
    for day in 0..LAST_DAY + 2 {
        for login in 0..2 {
            check_usage(alloc, old, new, from, (login, day))?;
        }
        if day >= from {
            check_list(alloc, old, new, day)?;
        }
    }
    Ok(())
}

/// The repeats of what stays get the same reply from both.
fn check_repeats(
    alloc: Global,
    old: &mut SqlLedger<MemStore>,
    new: &mut SqlLedger<MemStore>,
    from: u32,
    answered: &[Answered],
) -> Verdict {
    for one in answered {
        if stays(answered, one, from) {
            let Some(request) = request_of(alloc, &one.asking) else {
                return Err("no memory");
            };
            let _reply = reply_alike(old, new, &request)?;
        }
    }
    Ok(())
}

/// Further requests about the days from that one on, to both.
fn check_more(
    alloc: Global,
    old: &mut SqlLedger<MemStore>,
    new: &mut SqlLedger<MemStore>,
    from: u32,
    asker: &mut Asker,
) -> Verdict {
    for _ in 0..AFTER {
        let asking = asker.next();
        if asker.is_retired(&asking) || is_about(asker.answered.as_slice(), &asking, from) {
            let Some(request) = request_of(alloc, &asking) else {
                return Err("no memory");
            };
            let reply = reply_alike(old, new, &request)?;
            asker.keep(asking, &reply).ok_or("no memory")?;
        }
    }
    Ok(())
}

/// The bodies of all answers, in their order.
fn answers_of(store: &mut Connection<MemStore>) -> Result<Vec<Row>, &'static str> {
    store
        .query_all("SELECT request, reply FROM answer ORDER BY n", &[])
        .or(Err("no answers"))
}

/// The bodies that a row shows.
fn bodies_of(row: &Row) -> Result<(Vec<u8>, Vec<u8>), &'static str> {
    let (Ok(request), Ok(reply)) = (row.get(0), row.get(1)) else {
        return Err("no bodies");
    };
    Ok((request, reply))
}

/// The new answers are those of the old ones that stay, in their order.
fn check_answers(old: &[Row], new: &[Row], answered: &[Answered], from: u32) -> Verdict {
    let mut left = new.iter();
    for (row, one) in old.iter().zip(answered) {
        if stays(answered, one, from) {
            let Some(kept) = left.next() else {
                return Err("an answer too few");
            };
            wanted(bodies_of(row)? == bodies_of(kept)?, "another answer")?;
        }
    }
    wanted(left.next().is_none(), "an answer too many")?;
    wanted(old.len() == answered.len(), "another count of answers")
}

/// How many limits from earlier days have lost their replies: those that were set, and those that
/// weren't.
#[derive(Clone, Copy)]
struct Cleared {
    set: u32,
    refused: u32,
}

/// The same with those of a history.
fn cleared_with(before: Cleared, asker: &Asker, from: u32) -> Cleared {
    let mut count = before;
    for one in &asker.answered {
        let asking = &one.asking;
        if asking.kind == Kind::Limit && asking.day < from && asker.is_retired(asking) {
            if one.is_set {
                count.set = count.set.saturating_add(1);
            } else {
                count.refused = count.refused.saturating_add(1);
            }
        }
    }
    count
}

/// Has a new ledger, over a store in memory, what that one remembers.
fn forget(
    alloc: Global,
    old: &mut SqlLedger<MemStore>,
    from: u32,
) -> Result<SqlLedger<MemStore>, &'static str> {
    let Ok(store) = Connection::open_in_memory(alloc) else {
        return Err("no store");
    };
    match SqlLedger::carry_over(alloc, old, store, from) {
        Ok(new) => Ok(new),
        Err(_) => Err("not carried over"),
    }
}

/// All of both ledgers, which are then asked the same.
fn check_both(
    alloc: Global,
    mut old: SqlLedger<MemStore>,
    mut new: SqlLedger<MemStore>,
    from: u32,
    asker: &mut Asker,
) -> Verdict {
    check_days(alloc, &mut old, &mut new, from)?;
    check_repeats(alloc, &mut old, &mut new, from, asker.answered.as_slice())?;
    check_more(alloc, &mut old, &mut new, from, asker)?;
    check_days(alloc, &mut old, &mut new, from)?;
    check_audit(&mut old)?;
    check_audit(&mut new)?;
    let old = answers_of(&mut old.into_connection())?;
    let new = answers_of(&mut new.into_connection())?;
    check_answers(
        old.as_slice(),
        new.as_slice(),
        asker.answered.as_slice(),
        from,
    )
}

/// A history, from which a day's forgetting begins.
fn check_history(alloc: Global, seed: u64, cleared: &mut Cleared) -> Verdict {
    let mut old = tables(alloc, 6)?;
    let mut asker = Asker::new(alloc, seed);
    for _ in 0..asker.below(MORE + 1).saturating_add(FEWEST) {
        asker.ask_next(alloc, &mut old).ok_or("no reply")?;
    }
    let from = asker.below(LAST_DAY + 1);
    *cleared = cleared_with(*cleared, &asker, from);
    let new = forget(alloc, &mut old, from)?;
    check_both(alloc, old, new, from, &mut asker)
}

/// The histories of so many seeds from that one on.
fn check_histories(alloc: Global, first: u64, count: u64) -> Result<(), Fail> {
    let mut cleared = Cleared { set: 0, refused: 0 };
    for seed in first..first.saturating_add(count) {
        let verdict = check_history(alloc, seed, &mut cleared);
        told(alloc, seed, verdict)?;
    }
    let enough = wanted(
        200 <= cleared.set && 60 <= cleared.refused,
        "few limits without a reply",
    );
    told(alloc, first, enough)
}

#[test]
fn histories_from_0(rt: HostRuntime) -> Result<(), Fail> {
    check_histories(rt.alloc(), 0, HISTORIES)
}

#[test]
fn histories_from_500(rt: HostRuntime) -> Result<(), Fail> {
    check_histories(rt.alloc(), 500, HISTORIES)
}

#[test]
fn histories_from_1000(rt: HostRuntime) -> Result<(), Fail> {
    check_histories(rt.alloc(), 1_000, HISTORIES)
}

#[test]
fn histories_from_1500(rt: HostRuntime) -> Result<(), Fail> {
    check_histories(rt.alloc(), 1_500, HISTORIES)
}

#[test]
fn histories_from_2000(rt: HostRuntime) -> Result<(), Fail> {
    check_histories(rt.alloc(), 2_000, HISTORIES)
}
