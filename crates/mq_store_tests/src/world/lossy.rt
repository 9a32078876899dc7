//! A link that loses, repeats, delays and mixes up, and whose address may move, by a pseudo-random
//! generator.

use super::scripted::{answer, copied, keep};
use super::usage::{deliver_frame, taken_of};
use mq_frame::encode_request;
use mq_ledger::Ledger;
use mq_link::{Link, LinkFault};
use mq_request::{Request, is_request};
use rand_core::utils::NextWord;
use rand_pcg::Pcg32;
use std::alloc::Global;

/// Pseudo-random numbers: a seed gives the same ones each time.
#[derive(Drop)]
pub struct Dice {
    words: Pcg32,
}

impl Dice {
    pub fn new(seed: u64) -> Dice {
        Dice {
            words: Pcg32::new(seed, 54),
        }
    }

    /// A number below that one, or 0.
    pub fn below(&mut self, sides: u32) -> u32 {
        self.words.next_word().checked_rem(sides).unwrap_or(0)
    }

    /// A number from 1 to that one.
    pub fn from_one(&mut self, most: u32) -> u32 {
        self.below(most).saturating_add(1)
    }

    /// A place in a list of that length, or 0.
    pub fn place(&mut self, length: usize) -> usize {
        let word = self.words.next_word() as usize;
        word.checked_rem(length).unwrap_or(0)
    }

    /// The same, mostly one of its last eight.
    fn late_place(&mut self, length: usize) -> usize {
        let reach = if self.below(3) == 0 {
            length
        } else {
            length.min(8)
        };
        let back = self.place(reach);
        length.saturating_sub(1).saturating_sub(back)
    }
}

/// The logins that recipients are asked for.
pub const LOGINS: [&[u8]; 2] = [b"alice", b"bob"];

/// The days of their transactions.
pub const DAYS: [u32; 2] = [1, 2];

/// How the body of the reply to a request of a retired run begins.
const OLD: u8 = 0x90;

/// How what was let through of a login on a day is settled or reserved, if no ledger is above its
/// limit.
#[derive(Clone, Copy, PartialEq)]
enum Cover {
    /// One ledger has all of it.
    ByOne,
    /// Two ledgers have it together, and neither has all of it.
    Together,
    /// It isn't, or a ledger is above its limit, or there is a fault.
    Missing,
}

/// A link to the ledger of the server that has an address, with every frame that was ever sent and
/// every reply body that was ever written.
#[derive(Drop)]
pub struct Lossy<L> {
    alloc: Global,
    /// The ledger at the address.
    pub ledger: L,
    /// The ledger of a second server, if there is one: the address moves between them.
    pub standby: Option<L>,
    pub dice: Dice,
    sent: Vec<Vec<u8>>,
    written: Vec<Vec<u8>>,
    /// How many recipients of live and committed transactions were let through, for each login and
    /// day.
    pub let_through: [u32; 4],
    /// How many frames came to a ledger.
    pub arrivals: u64,
    /// How many of them were of a retired run.
    pub retired: u64,
    /// How many times the address moved.
    pub moves: u64,
    /// How often what was let through of a login on a day was found in both ledgers together alone.
    pub together: u64,
    /// At some moment more was let through than was settled and reserved, or this was above a
    /// limit.
    passed: bool,
    /// A frame had no reply, a request was out of range, or there was no memory.
    failed: bool,
}

impl<L: Ledger + Drop> Lossy<L> {
    pub fn new(alloc: Global, ledger: L, standby: Option<L>, seed: u64) -> Lossy<L> {
        Lossy {
            alloc,
            ledger,
            standby,
            dice: Dice::new(seed),
            sent: Vec::new(alloc),
            written: Vec::new(alloc),
            let_through: [0; 4],
            arrivals: 0,
            retired: 0,
            moves: 0,
            together: 0,
            passed: false,
            failed: false,
        }
    }

    /// What the second server's ledger has settled or reserved, as `taken_of`.
    fn taken_there(&mut self, login: &[u8], day: u32) -> Option<u64> {
        match &mut self.standby {
            Some(ledger) => taken_of(self.alloc, ledger, login, day),
            None => Some(0),
        }
    }

    /// How what was let through of a login on a day is settled or reserved.
    fn cover_of(&mut self, login: &[u8], day: u32, let_through: u32) -> Cover {
        let here = taken_of(self.alloc, &mut self.ledger, login, day);
        match (here, self.taken_there(login, day)) {
            (Some(here), Some(there)) => cover_by(here, there, let_through as u64),
            _ => Cover::Missing,
        }
    }

    /// Whether what was let through is settled or reserved, and each ledger is within its limit,
    /// for each login and day.
    fn is_covered(&mut self) -> bool {
        for place in 0..4usize {
            let let_through = self.let_through.get(place).copied().unwrap_or(0);
            match self.cover_of(LOGINS[place / 2 % 2], DAYS[place % 2], let_through) {
                Cover::ByOne => {}
                Cover::Together => self.together = self.together.saturating_add(1),
                Cover::Missing => return false,
            }
        }
        true
    }

    /// Whether this is so, was so after each arrival, and nothing failed.
    pub fn is_well(&mut self) -> bool {
        self.is_covered() && !self.passed && !self.failed
    }

    /// Looks at the ledger after an arrival, and keeps what it replied.
    fn note(&mut self, body: &[u8]) {
        self.passed |= !self.is_covered();
        if body.first() == Some(&OLD) {
            self.retired = self.retired.saturating_add(1);
        }
        self.failed |= keep(self.alloc, &mut self.written, body).is_none();
    }

    /// The address moves to the second server, if there is one, once in six times.
    fn move_address(&mut self) {
        let Some(other) = &mut self.standby else {
            return;
        };
        if self.dice.below(6) == 0 {
            std::mem::swap(&mut self.ledger, other);
            self.moves = self.moves.saturating_add(1);
        }
    }

    /// A frame comes to the ledger that has the address by then, and its reply is written.
    fn take(&mut self, frame: &[u8]) -> Result<Vec<u8>, LinkFault> {
        self.move_address();
        self.arrivals = self.arrivals.saturating_add(1);
        match deliver_frame(self.alloc, &mut self.ledger, frame) {
            Some(body) => {
                self.note(body.as_slice());
                Ok(body)
            }
            None => {
                self.failed = true;
                Err(LinkFault::Down)
            }
        }
    }

    /// A frame is on its way from now on.
    fn send(&mut self, frame: &[u8]) {
        self.failed |= keep(self.alloc, &mut self.sent, frame).is_none();
    }

    /// Anyone else sends a request.
    pub fn send_request(&mut self, request: &Request) {
        let mut frame = Vec::new(self.alloc);
        if put_request(request, &mut frame) {
            self.send(frame.as_slice());
        } else {
            self.failed = true;
        }
    }

    /// A copy of a frame that was sent some time.
    fn old_frame(&mut self) -> Option<Vec<u8>> {
        let place = self.dice.late_place(self.sent.len());
        match self.sent.get(place) {
            Some(frame) => copied(self.alloc, frame.as_slice()).ok(),
            None => None,
        }
    }

    /// A frame that was sent some time comes to a ledger.
    pub fn take_one(&mut self) {
        if let Some(frame) = self.old_frame() {
            let _ = self.take(frame.as_slice());
        }
    }

    /// A reply that was written some time, to anyone.
    fn old_reply(&mut self) -> Result<Vec<u8>, LinkFault> {
        let place = self.dice.late_place(self.written.len());
        match self.written.get(place) {
            Some(body) => copied(self.alloc, body.as_slice()),
            None => Err(LinkFault::Down),
        }
    }

    /// What an exchange brings: the frame, or its reply, may be lost, and frames of others come.
    fn bring(&mut self, frame: &[u8]) -> Result<Vec<u8>, LinkFault> {
        self.send(frame);
        for _ in 0..self.dice.below(3) {
            self.take_one();
        }
        match self.dice.below(20) {
            // The frame is lost for now, and then its reply.
            0..=2 => Err(LinkFault::TimedOut),
            3..=6 => {
                let _ = self.take(frame);
                Err(LinkFault::Down)
            }
            // Retry, Bad, and a reply to anyone.
            7 => copied(self.alloc, &[0x8d]),
            8 => copied(self.alloc, &[0x8e]),
            9..=11 => self.old_reply(),
            _ => self.take(frame),
        }
    }
}

/// How so many are settled or reserved by two ledgers that have so many.
fn cover_by(here: u64, there: u64, let_through: u64) -> Cover {
    if let_through <= here || let_through <= there {
        Cover::ByOne
    } else if let_through <= here.saturating_add(there) {
        Cover::Together
    } else {
        Cover::Missing
    }
}

/// Puts the frame of a request in range after the bytes, if there is memory.
fn put_request(request: &Request, bytes: &mut Vec<u8>) -> bool {
    is_request(request) && encode_request(request, bytes).is_ok()
}

impl<L: Ledger + Drop> Link for Lossy<L> {
    fn exchange(&mut self, frame: &[u8], reply: &mut Vec<u8>) -> Result<(), LinkFault> {
        answer(self.bring(frame), reply)
    }
}
