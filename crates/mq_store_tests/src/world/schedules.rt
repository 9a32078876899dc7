//! Random schedules of several hosts over one ledger, or over two between which the address moves,
//! from fixed seeds.

use super::lossy::Lossy;
use super::senders::{Sender, senders_of, step};
use crate::asks::{Verdict, check_audit, plain, tables, told, wanted};
use mq_ledger::{Ledger, PlainLedger};
use mq_store::SqlLedger;
use sqlite::MemStore;
use std::alloc::Global;
use std::test::*;

/// How many steps a schedule has.
const STEPS: u32 = 60;

/// The default of a ledger.
const DEFAULT: u32 = 4;

/// The default of a second server's ledger.
const LOWER: u32 = 2;

/// What came of some schedules.
#[derive(Clone, Copy, Debug, PartialEq)]
struct Tally {
    steps: u64,
    arrivals: u64,
    retired: u64,
    let_through: u64,
    moves: u64,
    together: u64,
}

/// Takes the steps of a schedule. After each what was let through is settled or reserved for each
/// login and day, and no ledger is above its limit.
fn check_steps<L: Ledger + Drop>(
    alloc: Global,
    link: &mut Lossy<L>,
    senders: &mut [Sender],
) -> Verdict {
    for _ in 0..STEPS {
        let taken = step(alloc, link, senders);
        wanted(taken.is_some(), "a step without memory")?;
        wanted(
            link.is_well(),
            "more let through than is counted, or above the limit",
        )?;
    }
    Ok(())
}

/// A schedule of the hosts of a seed over a link.
fn check_schedule<L: Ledger + Drop>(
    alloc: Global,
    link: &mut Lossy<L>,
    seed: u64,
    tally: &mut Tally,
) -> Verdict {
    let Some(senders) = senders_of(alloc, seed) else {
        return Err("no memory");
    };
    let mut senders = senders;
    let verdict = check_steps(alloc, link, senders.as_mut_slice());
    tally.add(link);
    verdict
}

/// How many servers there are.
#[derive(Clone, Copy, PartialEq)]
enum Servers {
    One,
    Two,
}

/// A schedule over new ledgers in lists.
fn check_lists(alloc: Global, servers: Servers, seed: u64, tally: &mut Tally) -> Verdict {
    let mut link = Lossy::new(
        alloc,
        plain(alloc, DEFAULT),
        second_list(alloc, servers),
        seed,
    );
    check_schedule(alloc, &mut link, seed, tally)
}

/// The ledger of the second server in a list, where there is one.
fn second_list(alloc: Global, servers: Servers) -> Option<PlainLedger> {
    match servers {
        Servers::One => None,
        Servers::Two => Some(plain(alloc, LOWER)),
    }
}

/// The ledger of the second server in tables, where there is one.
fn second_tables(
    alloc: Global,
    servers: Servers,
) -> Result<Option<SqlLedger<MemStore>>, &'static str> {
    match servers {
        Servers::One => Ok(None),
        Servers::Two => match tables(alloc, LOWER) {
            Ok(ledger) => Ok(Some(ledger)),
            Err(why) => Err(why),
        },
    }
}

/// Each audit is right.
fn check_audits(link: &mut Lossy<SqlLedger<MemStore>>) -> Verdict {
    check_audit(&mut link.ledger)?;
    match &mut link.standby {
        Some(ledger) => check_audit(ledger),
        None => Ok(()),
    }
}

/// A schedule over new tables, which goes as over lists.
fn check_tables(
    alloc: Global,
    servers: Servers,
    seed: u64,
    listed: &mut Tally,
    tabled: &mut Tally,
) -> Verdict {
    check_lists(alloc, servers, seed, listed)?;
    let second = second_tables(alloc, servers)?;
    let mut link = Lossy::new(alloc, tables(alloc, DEFAULT)?, second, seed);
    check_schedule(alloc, &mut link, seed, tabled)?;
    check_audits(&mut link)?;
    wanted(*tabled == *listed, "over tables it goes otherwise")
}

impl Tally {
    fn new() -> Tally {
        Tally {
            steps: 0,
            arrivals: 0,
            retired: 0,
            let_through: 0,
            moves: 0,
            together: 0,
        }
    }

    /// One more schedule has ended.
    fn add<L: Ledger + Drop>(&mut self, link: &Lossy<L>) {
        self.steps = self.steps.saturating_add(STEPS as u64);
        self.arrivals = self.arrivals.saturating_add(link.arrivals);
        self.retired = self.retired.saturating_add(link.retired);
        self.moves = self.moves.saturating_add(link.moves);
        self.together = self.together.saturating_add(link.together);
        for count in link.let_through {
            self.let_through = self.let_through.saturating_add(count as u64);
        }
    }

    /// Whether runs were retired, recipients let through, and where there are two servers, more of
    /// a login on a day than either ledger has.
    fn check(&self, servers: Servers) -> Verdict {
        wanted(self.retired > 0, "no run was retired")?;
        wanted(self.let_through > 0, "nobody was let through")?;
        let is_together = self.moves > 0 && self.together > 0;
        wanted(
            is_together == (servers == Servers::Two),
            "by one ledger alone",
        )
    }
}

#[test]
fn schedules_over_a_list(rt: HostRuntime) -> Result<(), Fail> {
    let mut tally = Tally::new();
    for seed in 0..20_000u64 {
        let verdict = check_lists(rt.alloc(), Servers::One, seed, &mut tally);
        told(rt.alloc(), seed, verdict)?;
    }
    println!(rt; "20,000 schedules over a list: {tally:?}")?;
    Ok(tally.check(Servers::One)?)
}

#[test]
fn schedules_over_two_lists(rt: HostRuntime) -> Result<(), Fail> {
    let mut tally = Tally::new();
    for seed in 200_000..210_000u64 {
        let verdict = check_lists(rt.alloc(), Servers::Two, seed, &mut tally);
        told(rt.alloc(), seed, verdict)?;
    }
    println!(rt; "10,000 schedules over two lists: {tally:?}")?;
    Ok(tally.check(Servers::Two)?)
}

/// Over tables each schedule goes as it goes over a list.
#[test]
fn schedules_over_tables(rt: HostRuntime) -> Result<(), Fail> {
    let mut listed = Tally::new();
    let mut tabled = Tally::new();
    for seed in 100_000..102_000u64 {
        let verdict = check_tables(rt.alloc(), Servers::One, seed, &mut listed, &mut tabled);
        told(rt.alloc(), seed, verdict)?;
    }
    println!(rt; "2,000 schedules over tables: {tabled:?}")?;
    Ok(tabled.check(Servers::One)?)
}

/// Over the tables of two servers each schedule goes as it goes over their lists.
#[test]
fn schedules_over_tables_of_two(rt: HostRuntime) -> Result<(), Fail> {
    let mut listed = Tally::new();
    let mut tabled = Tally::new();
    for seed in 300_000..301_000u64 {
        let verdict = check_tables(rt.alloc(), Servers::Two, seed, &mut listed, &mut tabled);
        told(rt.alloc(), seed, verdict)?;
    }
    println!(rt; "1,000 schedules over the tables of two servers: {tabled:?}")?;
    Ok(tabled.check(Servers::Two)?)
}
