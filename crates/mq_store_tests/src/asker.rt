//! Random requests to a ledger, from fixed seeds, and what of them stays where days are forgotten:
//! told by a list of what was asked.

use crate::asks::ask;
use mq_ledger::Ledger;
use mq_request::{Host, Id, Login, Reply, Request};
use rand_core::utils::NextWord;
use rand_pcg::Pcg32;
use std::alloc::Global;

/// The hosts, and the logins.
const HOSTS: [&[u8]; 2] = [b"mx1", b"admin"];

const LOGINS: [&[u8]; 2] = [b"alice", b"bob"];

/// The last day that is asked for.
pub const LAST_DAY: u32 = 5;

#[derive(Clone, Copy, PartialEq)]
pub enum Kind {
    Reserve,
    Settle,
    Release,
    Limit,
    Retire,
}

/// A numbered request.
#[derive(Clone, Copy)]
pub struct Asking {
    pub kind: Kind,
    pub host: u32,
    pub run: u32,
    pub number: u32,
    pub txn: u32,
    pub day: u32,
    pub login: u32,
    pub count: u32,
}

impl Asking {
    /// Whether it is a reserve, a settle or a release.
    fn is_of_a_transaction(&self) -> bool {
        self.kind != Kind::Limit && self.kind != Kind::Retire
    }

    /// Whether both are of one transaction.
    fn is_with(&self, other: &Asking) -> bool {
        let same = self.host == other.host && self.run == other.run && self.txn == other.txn;
        same && self.is_of_a_transaction() && other.is_of_a_transaction()
    }
}

/// A request that was heard for the first time and answered, and whether it is a limit that was
/// set.
#[derive(Clone, Copy)]
pub struct Answered {
    pub asking: Asking,
    pub is_set: bool,
}

pub fn login_of(alloc: Global, login: u32) -> Option<Login> {
    Login::from_slice(alloc, LOGINS[(login % 2) as usize]).ok()
}

/// The request, where there is memory.
pub fn request_of(alloc: Global, asking: &Asking) -> Option<Request> {
    let host = Host::from_slice(alloc, HOSTS[(asking.host % 2) as usize]).ok()?;
    let id = Id {
        host,
        run: u64::from(asking.run),
        number: asking.number,
    };
    let login = login_of(alloc, asking.login)?;
    let (txn, count) = (asking.txn, asking.count);
    let moment = u64::from(asking.day)
        .saturating_mul(86_400)
        .saturating_add(5);
    Some(match asking.kind {
        Kind::Reserve => Request::Reserve {
            id,
            txn,
            moment,
            login,
            count,
        },
        Kind::Settle => Request::Settle {
            id,
            txn,
            moment,
            login,
            count,
        },
        Kind::Release => Request::Release {
            id,
            txn,
            moment,
            login,
        },
        Kind::Limit => Request::Limit {
            id,
            from_day: asking.day,
            cap: count,
            login,
        },
        Kind::Retire => Request::Retire { id },
    })
}

/// The day of the transaction of a request, or its own where it is the first of it.
fn day_of(answered: &[Answered], asking: &Asking) -> u32 {
    match answered.iter().find(|one| one.asking.is_with(asking)) {
        Some(first) => first.asking.day,
        None => asking.day,
    }
}

/// Whether the request is about that day or a later one.
pub fn is_about(answered: &[Answered], asking: &Asking, day: u32) -> bool {
    match asking.kind {
        Kind::Retire => true,
        Kind::Limit => day <= asking.day,
        Kind::Reserve | Kind::Settle | Kind::Release => day <= day_of(answered, asking),
    }
}

/// Whether it stays where the days before that one are forgotten.
pub fn stays(answered: &[Answered], one: &Answered, day: u32) -> bool {
    one.is_set || is_about(answered, &one.asking, day)
}

/// Who asks, by pseudo-random numbers: a seed gives the same ones each time.
#[derive(Drop)]
pub struct Asker {
    dice: Pcg32,
    /// The run of each host.
    runs: [u32; 2],
    number: u32,
    /// What was answered, oldest first.
    pub answered: Vec<Answered>,
}

impl Asker {
    pub fn new(alloc: Global, seed: u64) -> Asker {
        Asker {
            dice: Pcg32::new(seed, 54),
            runs: [1, 1],
            number: 0,
            answered: Vec::new(alloc),
        }
    }

    /// A number below that one, or 0.
    pub fn below(&mut self, sides: u32) -> u32 {
        self.dice.next_word().checked_rem(sides).unwrap_or(0)
    }

    /// A number from 1 to that one.
    fn from_one(&mut self, most: u32) -> u32 {
        self.below(most).saturating_add(1)
    }

    /// The run of the host, now and then an earlier one.
    fn run_of(&mut self, host: u32) -> u32 {
        let run = self.runs[(host % 2) as usize];
        if self.below(8) == 0 {
            run.saturating_sub(1).max(1)
        } else {
            run
        }
    }

    /// A retire of the host's runs, which begins a later one.
    fn retire(&mut self, host: u32) -> u32 {
        let place = (host % 2) as usize;
        self.runs[place] = self.runs[place].saturating_add(1);
        self.runs[place]
    }

    /// The next request, whose number is new. A transaction's day and login are told by its name,
    /// but now and then.
    pub fn next(&mut self) -> Asking {
        let kind = match self.below(12) {
            0..=4 => Kind::Reserve,
            5..=6 => Kind::Settle,
            7 => Kind::Release,
            8..=10 => Kind::Limit,
            _ => Kind::Retire,
        };
        self.number = self.number.saturating_add(1);
        let number = self.number;
        let host = self.below(2);
        let run = if kind == Kind::Retire {
            self.retire(host)
        } else {
            self.run_of(host)
        };
        let txn = self.from_one(6);
        let day = if kind == Kind::Limit || self.below(8) == 0 {
            self.from_one(LAST_DAY)
        } else {
            txn.saturating_add(run) % 4 + 1
        };
        let count = if kind == Kind::Limit {
            self.below(8)
        } else {
            self.from_one(3)
        };
        Asking {
            kind,
            host,
            run,
            number,
            txn,
            day,
            login: txn % 2,
            count,
        }
    }

    /// Keeps what was answered for the first time.
    pub fn keep(&mut self, asking: Asking, reply: &Reply) -> Option<()> {
        match reply {
            Reply::Old { .. } => Some(()),
            _ => {
                let is_set = matches!(reply, Reply::LimitSet { .. });
                self.answered.push(Answered { asking, is_set }).ok()
            }
        }
    }

    /// Asks for the next; nothing where there is no reply.
    pub fn ask_next<L: Ledger>(&mut self, alloc: Global, ledger: &mut L) -> Option<()> {
        let asking = self.next();
        let request = request_of(alloc, &asking)?;
        let reply = ask(ledger, &request).ok()?;
        self.keep(asking, &reply)
    }

    /// Whether that number was heard, and isn't forgotten.
    pub fn is_known(&self, asking: &Asking) -> bool {
        let mut kept = self.answered.iter();
        kept.any(|one| one.asking.number == asking.number)
    }

    /// Whether the run of the request was given up.
    pub fn is_retired(&self, asking: &Asking) -> bool {
        let kept = self.answered.iter();
        let mut retires = kept.filter(|one| one.asking.kind == Kind::Retire);
        retires.any(|one| one.asking.host == asking.host && asking.run < one.asking.run)
    }
}
