//! All scripts of up to five letters.

use super::rows::{ALICE, COMMITTED, DAY};
use super::scripted::{Script, Scripted, run};
use super::usage::is_covered;
use crate::asks::{Verdict, plain, tables, told, wanted};
use mq_ledger::Ledger;
use mq_link::Link;
use std::alloc::Global;
use std::test::*;

/// A run that a clock gives.
const CLOCKS_RUN: u64 = 1_795_674_158_000;

/// The last run.
const LAST_RUN: u64 = 281_474_976_710_655;

/// The end of a line that lets a recipient through.
const PROCEED: &[u8] = b"|proceed\n";

/// How many of the lines that the filter wrote let a recipient through.
fn proceeds(text: &[u8]) -> u32 {
    let mut count = 0u32;
    for end in text.windows(9) {
        if end == PROCEED {
            count = count.saturating_add(1);
        }
    }
    count
}

/// How many recipients the filter of this run lets through over a link.
fn let_through<K: Link>(alloc: Global, link: &mut K, of_run: u64) -> Option<u32> {
    match run(alloc, link, b"mx1", of_run, COMMITTED) {
        Some(text) => Some(proceeds(text.as_slice())),
        None => None,
    }
}

/// Checks that so many are settled or reserved, and that this is within the limit.
fn check_covered<L: Ledger + Drop>(
    alloc: Global,
    link: &mut Scripted<L>,
    let_through: u32,
) -> Verdict {
    let holds = is_covered(alloc, &mut link.ledger, ALICE, DAY, let_through);
    wanted(
        holds,
        "more let through than is counted, or above the limit",
    )
}

/// Runs a committed recipient over a link: what was let through is settled or reserved, and that is
/// within the limit, before the late frames come and after it.
fn check_link<L: Ledger + Drop>(alloc: Global, link: &mut Scripted<L>, run: u64) -> Verdict {
    let Some(count) = let_through(alloc, link, run) else {
        return Err("no answer");
    };
    check_covered(alloc, link, count)?;
    link.deliver_late();
    check_covered(alloc, link, count)
}

/// The same by a script.
fn check_script<L: Ledger + Drop>(alloc: Global, ledger: L, script: Script, run: u64) -> Verdict {
    let mut link = Scripted::new(alloc, ledger, script);
    check_link(alloc, &mut link, run)
}

/// The same over tables, of the last run.
fn check_over_tables(alloc: Global, script: Script) -> Verdict {
    check_script(alloc, tables(alloc, 3)?, script, LAST_RUN)
}

/// The script of so many letters with that number: its letters in base 4.
fn script_of(length: usize, number: u32) -> Script {
    let mut script = [b'D'; 5];
    let mut rest = number;
    for letter in script.iter_mut().take(length) {
        *letter = match rest % 4 {
            0 => b'D',
            1 => b'L',
            2 => b'B',
            _ => b'H',
        };
        rest /= 4;
    }
    script
}

/// How many scripts there are of each length.
const COUNTS: &[(usize, u32)] = &[(0, 1), (1, 4), (2, 16), (3, 64), (4, 256), (5, 1024)];

#[test]
fn scripts_over_a_list(rt: HostRuntime) -> Result<(), Fail> {
    for (length, count) in COUNTS {
        for number in 0..*count {
            let script = script_of(*length, number);
            let verdict = check_script(rt.alloc(), plain(rt.alloc(), 3), script, CLOCKS_RUN);
            told(rt.alloc(), number, verdict)?;
        }
    }
    Ok(())
}

#[test]
fn scripts_over_tables(rt: HostRuntime) -> Result<(), Fail> {
    for (length, count) in COUNTS {
        for number in 0..*count {
            let script = script_of(*length, number);
            told(rt.alloc(), number, check_over_tables(rt.alloc(), script))?;
        }
    }
    Ok(())
}
