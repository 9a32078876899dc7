//! What several hosts with a filter, and others without one, do over a link, by a pseudo-random
//! generator.

use super::lossy::{Dice, LOGINS, Lossy};
use super::scripted::client_of;
use log::sink::Discard;
use mq_client::{Client, RecipientAnswer};
use mq_ledger::Ledger;
use mq_request::{Host, Id, Login, Request, is_login, is_moment};
use mq_track::{CloseEnd, Closing};
use std::alloc::Global;

/// The hosts with a filter.
const HOSTS: [&[u8]; 4] = [b"mx1", b"mx2", b"mx3", b"mx4"];

/// The first and the last second of two days.
const MOMENTS: [u64; 4] = [86_400, 172_799, 172_800, 259_199];

/// The runs that the hosts begin at: an early one, one that a clock gives, and the last ones. The
/// runs of a host are odd, so that an even one is that of someone else.
const RUNS: [u64; 4] = [3, 1_795_674_158_001, LAST_RUN - 2, LAST_RUN];

/// The last run.
const LAST_RUN: u64 = 281_474_976_710_655;

/// A transaction of a run that isn't closed.
#[derive(Clone, Copy)]
struct Open {
    txn: u32,
    login: u32,
    moment: u32,
    let_through: u32,
}

impl Open {
    /// The place of its login and day among the sums.
    fn place(&self) -> usize {
        (self.login % 2 * 2 + self.moment / 2 % 2) as usize
    }
}

/// A host with a run of its filter.
#[derive(Drop)]
pub struct Sender {
    name: &'static [u8],
    run: u64,
    client: Client,
    begun: u32,
    open: Vec<Open>,
}

/// One more of a login and day was let through.
fn add(sums: &mut [u32; 4], place: usize) {
    if let Some(count) = sums.get_mut(place) {
        *count = count.saturating_add(1);
    }
}

/// So many of them were dropped.
fn subtract(sums: &mut [u32; 4], place: usize, dropped: u32) {
    if let Some(count) = sums.get_mut(place) {
        *count = count.saturating_sub(dropped);
    }
}

/// Whether a recipient of the transaction is let through, where it is in range; nothing where there
/// is no memory.
fn reserve<L: Ledger + Drop>(
    link: &mut Lossy<L>,
    client: &mut Client,
    open: &Open,
) -> Option<bool> {
    let login = LOGINS[(open.login % 2) as usize];
    let moment = MOMENTS[(open.moment % 4) as usize];
    if open.txn < 1 || !is_login(login) || !is_moment(moment) {
        return Some(false);
    }
    match client.reserve(&Discard, link, open.txn, moment, login) {
        Ok(asking) => Some(asking.answer == RecipientAnswer::Granted),
        Err(_) => None,
    }
}

/// Closes a transaction. Without clauses, so that its callers stay cheap to prove.
fn close<L: Ledger + Drop>(
    link: &mut Lossy<L>,
    client: &mut Client,
    closing: Closing,
) -> Option<()> {
    match client.close(&Discard, link, closing, false) {
        Ok(_) => Some(()),
        Err(_) => None,
    }
}

/// Sends what waits. Without clauses, as `close`.
fn drain<L: Ledger + Drop>(link: &mut Lossy<L>, client: &mut Client) {
    let _ = client.drain(&Discard, link);
}

/// A recipient of an open transaction is asked for.
fn ask_of<L: Ledger + Drop>(
    link: &mut Lossy<L>,
    client: &mut Client,
    open: &mut Open,
) -> Option<()> {
    if reserve(link, client, open)? {
        open.let_through = open.let_through.saturating_add(1);
        add(&mut link.let_through, open.place());
    }
    Some(())
}

impl Sender {
    fn new(alloc: Global, name: &'static [u8], run: u64) -> Option<Sender> {
        Some(Sender {
            name,
            run,
            client: client_of(alloc, name, run, 2)?,
            begun: 0,
            open: Vec::new(alloc),
        })
    }

    /// A transaction begins.
    fn begin(&mut self, dice: &mut Dice) -> Option<()> {
        self.begun = self.begun.saturating_add(1);
        let login = dice.below(2);
        let moment = dice.below(4);
        let open = Open {
            txn: self.begun,
            login,
            moment,
            let_through: 0,
        };
        self.open.push(open).ok()
    }

    /// A recipient of an open transaction is asked for. Where none is open, one begins.
    fn ask<L: Ledger + Drop>(&mut self, link: &mut Lossy<L>) -> Option<()> {
        if self.open.is_empty() {
            self.begin(&mut link.dice)?;
        }
        let place = link.dice.place(self.open.len());
        match self.open.get_mut(place) {
            Some(open) => ask_of(link, &mut self.client, open),
            None => Some(()),
        }
    }

    /// An open transaction ends.
    fn close<L: Ledger + Drop>(&mut self, link: &mut Lossy<L>) -> Option<()> {
        let place = link.dice.place(self.open.len());
        if self.open.len() <= place {
            return Some(());
        }
        let open = self.open.swap_remove(place);
        let end = if link.dice.below(3) == 0 {
            subtract(&mut link.let_through, open.place(), open.let_through);
            CloseEnd::Rollback
        } else {
            CloseEnd::Commit
        };
        close(link, &mut self.client, Closing { txn: open.txn, end })
    }

    /// The run stops, and another begins; after the last one there is none.
    fn restart(&mut self, alloc: Global, tries: u32) -> Option<()> {
        if LAST_RUN <= self.run {
            return Some(());
        }
        self.run = self.run.saturating_add(2);
        self.client = client_of(alloc, self.name, self.run, tries)?;
        self.begun = 0;
        self.open.clear();
        Some(())
    }
}

/// A host without a filter.
const OTHER: &[u8] = b"other";

/// The number of a request of someone who isn't a filter, over few.
fn id_of_others(alloc: Global, dice: &mut Dice) -> Option<Id> {
    match Host::from_slice(alloc, OTHER) {
        Ok(host) => Some(Id {
            host,
            run: 1,
            number: dice.from_one(30),
        }),
        Err(_) => None,
    }
}

/// One of the logins.
fn login_of_others(alloc: Global, dice: &mut Dice) -> Option<Login> {
    let place = dice.below(2) % 2;
    Login::from_slice(alloc, LOGINS[place as usize]).ok()
}

/// A request of someone who isn't a filter, over few numbers and transactions.
fn request_of_others(alloc: Global, dice: &mut Dice) -> Option<Request> {
    let id = id_of_others(alloc, dice)?;
    match login_of_others(alloc, dice) {
        Some(login) => Some(any_request(dice, id, login)),
        None => None,
    }
}

/// A request of any kind that has a number.
fn any_request(dice: &mut Dice, id: Id, login: Login) -> Request {
    let moment = MOMENTS[(dice.below(4) % 4) as usize];
    let txn = dice.from_one(5);
    let count = dice.from_one(2);
    match dice.below(6) {
        0 => Request::Limit {
            id,
            from_day: dice.from_one(2),
            cap: dice.below(9),
            login,
        },
        1 => Request::Release {
            id,
            txn,
            moment,
            login,
        },
        2 => Request::Settle {
            id,
            txn,
            moment,
            login,
            count,
        },
        _ => Request::Reserve {
            id,
            txn,
            moment,
            login,
            count,
        },
    }
}

/// Someone who isn't a filter sends a request.
fn send_of_others<L: Ledger + Drop>(alloc: Global, link: &mut Lossy<L>) -> Option<()> {
    let request = request_of_others(alloc, &mut link.dice)?;
    link.send_request(&request);
    Some(())
}

/// A number of someone else on the host of a filter, whose run is before the filter's or after it.
fn id_beside(alloc: Global, dice: &mut Dice, sender: &Sender) -> Option<Id> {
    let run = if dice.below(2) == 0 || LAST_RUN <= sender.run {
        sender.run.saturating_sub(1)
    } else {
        sender.run.saturating_add(1)
    };
    match Host::from_slice(alloc, sender.name) {
        Ok(host) => Some(Id {
            host,
            run,
            number: dice.from_one(3),
        }),
        Err(_) => None,
    }
}

/// Someone who isn't a filter retires the earlier runs of a host, or also the one that goes on.
fn retire_of_others<L: Ledger + Drop>(
    alloc: Global,
    link: &mut Lossy<L>,
    sender: &Sender,
) -> Option<()> {
    let id = id_beside(alloc, &mut link.dice, sender)?;
    link.send_request(&Request::Retire { id });
    Some(())
}

/// Two to four hosts, from one of the runs on.
pub fn senders_of(alloc: Global, seed: u64) -> Option<Vec<Sender>> {
    let run = RUNS[(seed / 3 % 4) as usize];
    let mut senders = Vec::new(alloc);
    for name in HOSTS.iter().take(2 + (seed % 3) as usize) {
        senders.push(Sender::new(alloc, name, run)?).ok()?;
    }
    Some(senders)
}

/// One step of a schedule; nothing where there is no memory.
pub fn step<L: Ledger + Drop>(
    alloc: Global,
    link: &mut Lossy<L>,
    senders: &mut [Sender],
) -> Option<()> {
    let place = link.dice.place(senders.len());
    let sender = senders.get_mut(place)?;
    match link.dice.below(41) {
        0..=5 => sender.begin(&mut link.dice),
        6..=23 => sender.ask(link),
        24..=30 => sender.close(link),
        31 => {
            drain(link, &mut sender.client);
            Some(())
        }
        32 => {
            let tries = link.dice.from_one(3);
            sender.restart(alloc, tries)
        }
        33..=36 => {
            link.take_one();
            Some(())
        }
        37 => retire_of_others(alloc, link, sender),
        _ => send_of_others(alloc, link),
    }
}
