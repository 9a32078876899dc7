//! All lists of one to three of nine requests, over tables and over the plain ledger.

use crate::asks::{Verdict, plain, reply_of, tables, told, wanted};
use mq_ledger::Ledger;
use std::alloc::Global;
use std::test::*;

pub const REQUESTS: &[&str] = &[
    "01 0161 0000000000000001 00000001 00000001 0000000000015180 0175 00000001",
    "01 0161 0000000000000001 00000002 00000001 0000000000015180 0175 00000002",
    "01 0161 0000000000000001 00000003 00000001 0000000000015180 0175 00000001",
    "03 0161 0000000000000001 00000004 00000001 0000000000015180 0175",
    "02 0161 0000000000000001 00000003 00000001 0000000000015180 0175 00000001",
    "04 0161 0000000000000001 00000004 00000001 00000002 0175",
    "04 0161 0000000000000001 00000005 00000001 00000003 0175",
    "05 0175 00000001",
    "06 00000001 00",
];

/// Whether both ledgers reply to a request, and the same.
fn agree<A: Ledger, B: Ledger>(alloc: Global, one: &mut A, other: &mut B, request: &str) -> bool {
    let Some(wanted) = reply_of(alloc, one, request) else {
        return false;
    };
    reply_of(alloc, other, request) == Some(wanted)
}

/// Whether both reply the same to the requests of these places, in turn.
fn agree_in_turn<A: Ledger, B: Ledger>(
    alloc: Global,
    one: &mut A,
    other: &mut B,
    places: &[usize],
) -> bool {
    for place in places {
        match REQUESTS.get(*place) {
            Some(request) if agree(alloc, one, other, request) => {}
            _ => return false,
        }
    }
    true
}

/// Checks that both ledgers, new, reply the same to the requests of these places, in turn.
fn check(alloc: Global, places: &[usize]) -> Verdict {
    let mut over_tables = tables(alloc, 3)?;
    let mut over_list = plain(alloc, 3);
    let is_same = agree_in_turn(alloc, &mut over_list, &mut over_tables, places);
    wanted(is_same, "another reply")
}

/// A failure names the places.
fn check_list(alloc: Global, places: &[usize]) -> Result<(), Fail> {
    told(alloc, places, check(alloc, places))
}

/// Checks the lists of one to three requests that begin with one of those at these places.
fn check_from(alloc: Global, places: &[usize]) -> Result<(), Fail> {
    for first in places {
        check_list(alloc, &[*first])?;
        for second in 0..REQUESTS.len() {
            check_list(alloc, &[*first, second])?;
            for third in 0..REQUESTS.len() {
                check_list(alloc, &[*first, second, third])?;
            }
        }
    }
    Ok(())
}

#[test]
fn lists_from_reserves(rt: HostRuntime) -> Result<(), Fail> {
    check_from(rt.alloc(), &[0, 1, 2])
}

#[test]
fn lists_from_a_release_and_a_settle(rt: HostRuntime) -> Result<(), Fail> {
    check_from(rt.alloc(), &[3, 4])
}

#[test]
fn lists_from_limits(rt: HostRuntime) -> Result<(), Fail> {
    check_from(rt.alloc(), &[5, 6])
}

#[test]
fn lists_from_usage_and_a_list(rt: HostRuntime) -> Result<(), Fail> {
    check_from(rt.alloc(), &[7, 8])
}
