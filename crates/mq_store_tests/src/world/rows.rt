//! Worked schedules: what smtpd is told, what is sent, and what stands in the ledger at the end.

use super::scripted::{Script, Scripted, run};
use super::usage::{Used, usage_of};
use crate::asks::{Verdict, is_body, plain, tables, told, wanted};
use mq_ledger::Ledger;
use std::alloc::Global;
use std::test::*;

/// Up to the recipient.
const SESSION: &[u8] = b"config|smtpd-version|6.6.1
config|smtp-session-timeout|300
config|subsystem|smtp-in
config|ready
report|0.7|1576146008.006099|smtp-in|link-auth|7641df9771b4ed00|pass|alice
report|0.7|1576146009.006099|smtp-in|tx-begin|7641df9771b4ed00|4c56d3a1
filter|0.7|1576146010.006099|smtp-in|rcpt-to|7641df9771b4ed00|1ef1c203cc576e5d|bob@example.org
";

/// The same, and its transaction is committed.
pub const COMMITTED: &[u8] = b"config|smtpd-version|6.6.1
config|smtp-session-timeout|300
config|subsystem|smtp-in
config|ready
report|0.7|1576146008.006099|smtp-in|link-auth|7641df9771b4ed00|pass|alice
report|0.7|1576146009.006099|smtp-in|tx-begin|7641df9771b4ed00|4c56d3a1
filter|0.7|1576146010.006099|smtp-in|rcpt-to|7641df9771b4ed00|1ef1c203cc576e5d|bob@example.org
report|0.7|1576146011.006099|smtp-in|tx-commit|7641df9771b4ed00|4c56d3a1|1200
";

pub const ALICE: &[u8] = b"alice";

/// The ledger's day of the session.
pub const DAY: u32 = 18_242;

const PROCEED: &[u8] = b"filter-result|7641df9771b4ed00|1ef1c203cc576e5d|proceed
";

const LIMIT: &[u8] =
    b"filter-result|7641df9771b4ed00|1ef1c203cc576e5d|reject|550 daily recipient limit reached
";

const SERVICE: &[u8] =
    b"filter-result|7641df9771b4ed00|1ef1c203cc576e5d|reject|451 quota service unavailable
";

/// A schedule of one recipient whose transaction is committed.
struct Row {
    name: &'static str,
    script: Script,
    /// The last line that smtpd is told.
    answer: &'static [u8],
    exchanges: usize,
    /// The replies of the ledger's entries, in order.
    entries: &'static [&'static str],
    /// What stands in the ledger at the end.
    used: Used,
}

const ROWS: &[Row] = &[
    Row {
        name: "a lost reply",
        script: *b"BDDDD",
        answer: PROCEED,
        exchanges: 3,
        entries: &[
            "81 036d7831 0000000000000001 00000001 00000001",
            "83 036d7831 0000000000000001 00000002 00000001",
        ],
        used: Used {
            settled: 1,
            reserved: 0,
            cap: 3,
        },
    },
    Row {
        name: "the frame comes late",
        script: *b"HHHDD",
        answer: SERVICE,
        exchanges: 4,
        entries: &[
            "84 036d7831 0000000000000001 00000002 00000000",
            "87 036d7831 0000000000000001 00000001",
        ],
        used: Used {
            settled: 0,
            reserved: 0,
            cap: 3,
        },
    },
    Row {
        name: "every reply to the reserve lost",
        script: *b"BBBDD",
        answer: SERVICE,
        exchanges: 4,
        entries: &[
            "81 036d7831 0000000000000001 00000001 00000001",
            "84 036d7831 0000000000000001 00000002 00000001",
        ],
        used: Used {
            settled: 0,
            reserved: 0,
            cap: 3,
        },
    },
];

/// Whether these are the bodies of these digits, in order.
fn are_bodies(alloc: Global, bodies: &[Vec<u8>], wanted: &[&str]) -> bool {
    for (place, digits) in wanted.iter().enumerate() {
        match bodies.get(place) {
            Some(body) if is_body(alloc, body.as_slice(), digits) => {}
            _ => return false,
        }
    }
    bodies.len() == wanted.len()
}

/// Checks that what the filter of a host writes for these lines ends so.
fn check_answer<L: Ledger + Drop>(
    alloc: Global,
    link: &mut Scripted<L>,
    host: &[u8],
    lines: &[u8],
    answer: &[u8],
) -> Verdict {
    match run(alloc, link, host, 1, lines) {
        Some(text) => wanted(text.as_slice().ends_with(answer), "another answer"),
        None => Err("no answer"),
    }
}

/// Checks what stands in the ledger of a link.
fn check_used<L: Ledger + Drop>(alloc: Global, link: &mut Scripted<L>, used: Used) -> Verdict {
    let found = usage_of(alloc, &mut link.ledger, ALICE, DAY);
    wanted(found == Some(used), "another usage")
}

/// Checks that the schedule comes out over a link as it was worked.
fn check_link<L: Ledger + Drop>(alloc: Global, link: &mut Scripted<L>, row: &Row) -> Verdict {
    check_answer(alloc, link, b"mx1", COMMITTED, row.answer)?;
    link.deliver_late();
    wanted(link.exchanges == row.exchanges, "other exchanges")?;
    let is_so = are_bodies(alloc, link.replies.as_slice(), row.entries);
    wanted(is_so, "other replies")?;
    check_used(alloc, link, row.used)
}

/// The same over a ledger of default 3.
fn check_row<L: Ledger + Drop>(alloc: Global, ledger: L, row: &Row) -> Verdict {
    let mut link = Scripted::new(alloc, ledger, row.script);
    check_link(alloc, &mut link, row)
}

/// The same over a list and over tables.
fn check_both(alloc: Global, row: &Row) -> Verdict {
    check_row(alloc, plain(alloc, 3), row)?;
    check_row(alloc, tables(alloc, 3)?, row)
}

#[test]
fn one_recipient_by_a_script(rt: HostRuntime) -> Result<(), Fail> {
    for row in ROWS {
        told(rt.alloc(), row.name, check_both(rt.alloc(), row))?;
    }
    Ok(())
}

/// What stands where one recipient of a cap of 1 was let through, and isn't sent yet.
const ONE_RESERVED: Used = Used {
    settled: 0,
    reserved: 1,
    cap: 1,
};

/// Checks that of two hosts the first lets its recipient through, and the second refuses its own.
fn check_hosts<L: Ledger + Drop>(alloc: Global, link: &mut Scripted<L>) -> Verdict {
    check_answer(alloc, link, b"mx1", SESSION, PROCEED)?;
    check_answer(alloc, link, b"mx2", SESSION, LIMIT)?;
    check_used(alloc, link, ONE_RESERVED)
}

/// The same over a ledger of default 1.
fn check_shared<L: Ledger + Drop>(alloc: Global, ledger: L) -> Verdict {
    let mut link = Scripted::new(alloc, ledger, *b"DDDDD");
    check_hosts(alloc, &mut link)
}

#[test]
fn two_hosts_share_one_recipient(rt: HostRuntime) -> Result<(), Fail> {
    let listed = check_shared(rt.alloc(), plain(rt.alloc(), 1));
    told(rt.alloc(), "over a list", listed)?;
    let tabled = check_shared(rt.alloc(), tables(rt.alloc(), 1)?);
    told(rt.alloc(), "over tables", tabled)
}
