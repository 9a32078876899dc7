//! Requests that are put together, over tables, against the same one by one over the plain ledger.

use super::lists::REQUESTS;
use crate::asker::{Asker, request_of};
use crate::asks::{Verdict, ask, body_of, check_audit, plain, tables, told, wanted};
use mq_ledger::{Ledger, PlainLedger};
use mq_request::{Reply, Request};
use mq_store::SqlLedger;
use sqlite::MemStore;
use std::alloc::Global;
use std::test::*;

/// The most that a server puts together.
const MOST: usize = 64;

/// Whether these replies are those of the plain ledger to these requests, one by one.
fn are_its(
    alloc: Global,
    ledger: &mut PlainLedger,
    requests: &[Request],
    replies: &[Reply],
) -> bool {
    for (request, reply) in requests.iter().zip(replies) {
        match ask(ledger, request) {
            Ok(wanted) if body_of(alloc, &wanted) == body_of(alloc, reply) => {}
            _ => return false,
        }
    }
    requests.len() == replies.len()
}

/// Puts requests together to the one, and one by one to the other.
fn check_round(
    alloc: Global,
    together: &mut SqlLedger<MemStore>,
    one_by_one: &mut PlainLedger,
    requests: &[Request],
) -> Verdict {
    let mut replies = Vec::new(alloc);
    // (they are given up: the replies of a round are its own alone)
    replies.push(Reply::Retry).or(Err("no memory"))?;
    let taken = together.apply_all(requests, &mut replies);
    wanted(taken.is_ok(), "not taken together")?;
    let same = are_its(alloc, one_by_one, requests, &replies);
    wanted(same, "another reply")?;
    wanted(together.cause().is_none(), "a cause")
}

/// The requests of these places, in turn.
fn listed(alloc: Global, places: &[usize]) -> Option<Vec<Request>> {
    let mut requests = Vec::new(alloc);
    for place in places {
        let request = crate::asks::request_of(alloc, REQUESTS.get(*place)?)?;
        requests.push(request).ok()?;
    }
    Some(requests)
}

/// Puts the requests of these places together to a new ledger.
fn check_list(alloc: Global, places: &[usize]) -> Verdict {
    let Some(requests) = listed(alloc, places) else {
        return Err("no memory");
    };
    let mut together = tables(alloc, 3)?;
    check_round(alloc, &mut together, &mut plain(alloc, 3), &requests)?;
    check_audit(&mut together)
}

/// All lists of one to three of the nine requests.
#[test]
fn lists_at_once(rt: HostRuntime) -> Result<(), Fail> {
    let alloc = rt.alloc();
    for first in 0..REQUESTS.len() {
        told(alloc, [first], check_list(alloc, &[first]))?;
        for second in 0..REQUESTS.len() {
            told(alloc, [first, second], check_list(alloc, &[first, second]))?;
            for third in 0..REQUESTS.len() {
                let places = [first, second, third];
                told(alloc, places, check_list(alloc, &places))?;
            }
        }
    }
    Ok(())
}

/// So many random requests.
fn asked(alloc: Global, asker: &mut Asker, count: usize) -> Option<Vec<Request>> {
    let mut requests = Vec::new(alloc);
    for _request in 0..count {
        requests.push(request_of(alloc, &asker.next())?).ok()?;
    }
    Some(requests)
}

/// Rounds of 1 to 64 random requests of a seed, over one ledger.
fn check_rounds(alloc: Global, seed: u64) -> Verdict {
    let mut asker = Asker::new(alloc, seed);
    let mut together = tables(alloc, 4)?;
    let mut one_by_one = plain(alloc, 4);
    for count in 1..=MOST {
        let Some(requests) = asked(alloc, &mut asker, count) else {
            return Err("no memory");
        };
        check_round(alloc, &mut together, &mut one_by_one, &requests)?;
        // a round that comes again is answered as before
        if count % 8 == 0 {
            check_round(alloc, &mut together, &mut one_by_one, &requests)?;
        }
    }
    check_audit(&mut together)
}

#[test]
fn random_rounds(rt: HostRuntime) -> Result<(), Fail> {
    for seed in 1..=4 {
        told(rt.alloc(), seed, check_rounds(rt.alloc(), seed))?;
    }
    Ok(())
}
