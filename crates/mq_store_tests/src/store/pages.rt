//! Pages of days on which many logins reserved, over tables and over the plain ledger: in tables
//! with their index, and in a store where something else has its name.

use super::steps::make;
use crate::asks::{Verdict, ask, plain, tables, told, wanted, zone};
use mq_ledger::Ledger;
use mq_request::{Host, Id, Login, Request};
use sqlite::Connection;
use std::alloc::Global;
use std::test::*;

/// More logins than a page has rows.
const LOGINS: u32 = 180;

/// Logins after which pages begin: none, some of those that are there, and the last in byte order.
const AFTER: &[&str] = &["", "login1", "login10", "login137", "login9", "login99"];

fn login_of(alloc: Global, text: &str) -> Option<Login> {
    Login::from_slice(alloc, text.as_bytes()).ok()
}

/// A reserve of one recipient of that login on that day. No two of them have one number.
fn reserve(alloc: Global, login: u32, day: u32) -> Option<Request> {
    let number = login.saturating_mul(8).saturating_add(day);
    let text = format!(in alloc; "login{login}").ok()?;
    Some(Request::Reserve {
        id: Id {
            host: Host::from_slice(alloc, b"a").ok()?,
            run: 1,
            number,
        },
        txn: number,
        moment: u64::from(day).saturating_mul(86_400),
        login: login_of(alloc, text.as_str())?,
        count: 1,
    })
}

fn page(alloc: Global, day: u32, after: &str) -> Option<Request> {
    let after = login_of(alloc, after)?;
    Some(Request::List { day, after })
}

/// Whether both ledgers reply to a request, and the same.
fn agree<A: Ledger, B: Ledger>(one: &mut A, other: &mut B, request: Option<Request>) -> bool {
    let Some(request) = request else {
        return false;
    };
    match (ask(one, &request), ask(other, &request)) {
        (Ok(reply), Ok(wanted)) => reply == wanted,
        _ => false,
    }
}

/// Has both ledgers take reserves on three days, a third of the logins on none of two of them, and
/// not in the order of the logins.
fn fill<A: Ledger, B: Ledger>(alloc: Global, one: &mut A, other: &mut B) -> Verdict {
    for place in 0..LOGINS {
        let login = place.saturating_mul(37) % LOGINS;
        for day in 1..4u32 {
            if login.saturating_add(day) % 3 != 0 {
                let request = reserve(alloc, login, day);
                wanted(agree(one, other, request), "another reply to a reserve")?;
            }
        }
    }
    Ok(())
}

/// Whether both ledgers give the same pages, of these days and of one on which nobody reserved.
fn same_pages<A: Ledger, B: Ledger>(alloc: Global, one: &mut A, other: &mut B) -> Verdict {
    for day in 1..5u32 {
        for after in AFTER {
            let request = page(alloc, day, *after);
            wanted(agree(one, other, request), "another page")?;
        }
    }
    Ok(())
}

fn check<A: Ledger>(alloc: Global, ledger: &mut A) -> Verdict {
    let mut over_list = plain(alloc, 3);
    fill(alloc, ledger, &mut over_list)?;
    same_pages(alloc, ledger, &mut over_list)
}

/// Over a store in which a table has the index's name.
fn check_without(alloc: Global) -> Verdict {
    let mut store = Connection::open_in_memory(alloc).or(Err("no memory"))?;
    if store
        .execute("CREATE TABLE usage_by_day (a TEXT)", &[])
        .is_err()
    {
        return Err("no table");
    }
    match make(alloc, store, zone(0)) {
        Ok(ledger) => {
            let mut ledger = ledger;
            check(alloc, &mut ledger)
        }
        Err(_) => Err("no ledger"),
    }
}

#[test]
fn pages_of_many_logins(rt: HostRuntime) -> Result<(), Fail> {
    let alloc = rt.alloc();
    let verdict = match tables(alloc, 3) {
        Ok(ledger) => {
            let mut ledger = ledger;
            check(alloc, &mut ledger)
        }
        Err(why) => Err(why),
    };
    told(alloc, "with the index", verdict)
}

#[test]
fn pages_without_the_index(rt: HostRuntime) -> Result<(), Fail> {
    let alloc = rt.alloc();
    told(alloc, "without it", check_without(alloc))
}
