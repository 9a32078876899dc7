//! Requests that came on several connections, and are taken together.
ghost use Rattle.std.specs.Prelude.{◌≡◌, ◌≢◌, [], ◌∷◌, ◌++◌, ℕ, All, None, OnOk};
ghost use Rattle.mq_request.specs.Range.{IsReply};
ghost use Rattle.mq_ledger.specs.Leaving.{LeavesLedger};
ghost use Rattle.mq_ledger.specs.Legal.{Book};
ghost use Rattle.mq_server.specs.Delivery.{HasGrown};
ghost use Rattle.mq_connections.specs.Asking.{AreAsked, ArePeers, Gives, KeepsServing, Left, out};
ghost use Rattle.mq_connections.specs.Gained.{Callers, callers};
ghost use Rattle.mq_connections.specs.Sessions.{GoesOn, Outside, held};
ghost use Rattle.mq_connections.specs.Wires.{Wire};

use crate::network::Network;
use crate::room::{Room, count_end, end_of};
use crate::stay::Times;
use log::Log;
use mq_permits::{Peer, Permits};
use mq_request::{Reply, Request};
use mq_server::Progress;
use mq_server::laws::{more_deliveries, more_exchanges};
use mq_watch::Hear;
use std::alloc::{AllocError, Global};
use std::rt::Clock;

/// The most requests that are put together: their replies are held until the last of them is taken.
const TOGETHER: usize = 64;

/// Requests that stand next on connections, each with its connection's number and peer, in one
/// order.
#[derive(Drop)]
struct Asked {
    numbers: Vec<usize>,
    peers: Vec<Peer>,
    requests: Vec<Request>,
}

impl Asked {
    /// None yet.
    fn new(alloc: Global) -> Asked
        ensures numbers { result.numbers.items ≡ [] }
        ensures peers { result.peers.items ≡ [] }
        ensures requests { result.requests.items ≡ [] }
    {
        Asked {
            numbers: Vec::new(alloc),
            peers: Vec::new(alloc),
            requests: Vec::new(alloc),
        }
    }

    /// Adds one. After an `Err` they are no longer in one order.
    fn push(&mut self, number: usize, peer: Peer, request: Request) -> Result<(), AllocError>
        ensures numbers { OnOk result (self.new.numbers.items ≡ self.old.numbers.items ++ number ∷ []) }
        ensures peers { OnOk result (self.new.peers.items ≡ self.old.peers.items ++ peer ∷ []) }
        ensures requests { OnOk result (self.new.requests.items ≡ self.old.requests.items ++ request ∷ []) }
    {
        self.numbers.push(number)?;
        self.peers.push(peer)?;
        self.requests.push(request)?;
        Ok(())
    }
}

impl Room {
    /// Where something came on several connections, reads it, and has the requests that stand next
    /// on them taken together. Where that can't be, each stands next still.
    pub(crate) fn serve_together<N: Network, C: Clock, G: Log, L: Hear>(
        &mut self,
        clock: &C,
        log: &G,
        network: &mut N,
        ready: &[usize],
        times: Times,
        permits: Option<&Permits>,
        ledger: &mut L,
    )
        ensures leaves { LeavesLedger L.book L.has_kept L.is_sound L.has_store ledger.old ledger.new }
        ensures grows { L.has_kept ledger.new → L.is_sound ledger.old
            → HasGrown (L.book ledger.old) (L.book ledger.new) }
        // What it gains came on these connections from peers that may ask for it.
        ensures goes { L.has_kept ledger.new → L.is_sound ledger.old → (old : Outside) →
            let who = callers permits.entry N.peers in
            GoesOn who old (record {
              book = L.book ledger.old;
              told = L.told ledger.old;
              wires = N.wire network.old;
            }) self.old.last (held self.old.opened) None →
            GoesOn who old (record {
              book = L.book ledger.new;
              told = L.told ledger.new;
              wires = N.wire network.new;
            }) self.new.last (held self.new.opened) None }
    {
        more_deliveries();
        if ready.len() < 2 {
            return;
        }
        self.read_all(clock, log, network, ready, times);
        let mut asked = Asked::new(self.alloc);
        match self.ask_all(network, ready, &mut asked) {
            Ok(()) => self.take_together::<N, L>(asked, permits, ledger),
            // There is no memory for them together.
            Err(_) => {}
        }
    }

    /// Reads what came on these connections.
    fn read_all<N: Network, C: Clock, G: Log>(
        &mut self,
        clock: &C,
        log: &G,
        network: &mut N,
        ready: &[usize],
        times: Times,
    )
        ensures goes { KeepsServing (held self.old.opened) (N.wire network.old) self.old.last
            (held self.new.opened) (N.wire network.new) self.new.last }
    {
        for number in ready {
            self.read_one(clock, log, network, *number, times);
        }
    }

    /// Reads what came on a connection where it waits for that, and closes it where that failed.
    fn read_one<N: Network, C: Clock, G: Log>(
        &mut self,
        clock: &C,
        log: &G,
        network: &mut N,
        number: usize,
        times: Times,
    )
        ensures goes { KeepsServing (held self.old.opened) (N.wire network.old) self.old.last
            (held self.new.opened) (N.wire network.new) self.new.last }
    {
        more_exchanges();
        let Some(open) = self.opened.get_mut(&number) else {
            return;
        };
        let peer = open.peer;
        if let Progress::Ended(end) = open.read_turn(clock, network, number, times) {
            let _ = self.close(network, number);
            count_end(network, end);
            let _ = end_of(log, &peer, end);
        }
    }

    /// Adds the requests that stand next on these connections and may be taken together.
    fn ask_all<N: Network>(
        &self,
        network: &N,
        ready: &[usize],
        asked: &mut Asked,
    ) -> Result<(), AllocError>
        ensures asked { AreAsked (held self.now.opened) asked.old.numbers.items asked.old.requests.items →
            OnOk result (AreAsked (held self.now.opened) asked.new.numbers.items
            asked.new.requests.items) }
        ensures peers { ArePeers N.peers asked.old.numbers.items asked.old.peers.items →
            OnOk result (ArePeers N.peers asked.new.numbers.items asked.new.peers.items) }
    {
        for number in ready {
            self.ask(network, *number, asked)?;
        }
        Ok(())
    }

    /// Adds the request that stands next on a connection, where it may be taken with others.
    fn ask<N: Network>(
        &self,
        network: &N,
        number: usize,
        asked: &mut Asked,
    ) -> Result<(), AllocError>
        ensures asked { AreAsked (held self.now.opened) asked.old.numbers.items asked.old.requests.items →
            OnOk result (AreAsked (held self.now.opened) asked.new.numbers.items
            asked.new.requests.items) }
        ensures peers { ArePeers N.peers asked.old.numbers.items asked.old.peers.items →
            OnOk result (ArePeers N.peers asked.new.numbers.items asked.new.peers.items) }
    {
        if TOGETHER <= asked.numbers.len() || asked.numbers.contains(&number) {
            return Ok(());
        }
        let Some(peer) = network.peer(number) else {
            return Ok(());
        };
        let Some(open) = self.opened.get(&number) else {
            return Ok(());
        };
        let Some(request) = open.connection.peek_request(self.alloc) else {
            return Ok(());
        };
        asked.push(number, peer, request)?;
        Ok(())
    }

    /// Has these requests taken together, and their replies held. Where they can't be, or there is
    /// one alone, each stands next still.
    fn take_together<N: Network, L: Hear>(
        &mut self,
        asked: Asked,
        permits: Option<&Permits>,
        ledger: &mut L,
    )
        requires asked { AreAsked (held self.old.opened) asked.numbers.items asked.requests.items }
        requires peers { ArePeers N.peers asked.numbers.items asked.peers.items }
        ensures leaves { LeavesLedger L.book L.has_kept L.is_sound L.has_store ledger.old ledger.new }
        ensures grows { L.has_kept ledger.new → L.is_sound ledger.old
            → HasGrown (L.book ledger.old) (L.book ledger.new) }
        ensures goes { L.has_kept ledger.new → L.is_sound ledger.old → (old : Outside)
            (wires : ℕ → Wire) →
            let who = callers permits.entry N.peers in
            GoesOn who old (record {
              book = L.book ledger.old;
              told = L.told ledger.old;
              wires = wires;
            }) self.old.last (held self.old.opened) None →
            GoesOn who old (record {
              book = L.book ledger.new;
              told = L.told ledger.new;
              wires = wires;
            }) self.new.last (held self.new.opened) None }
    {
        more_deliveries();
        more_exchanges();
        let Asked {
            numbers,
            peers,
            requests,
        } = asked;
        if requests.len() < 2 {
            return;
        }
        let mut replies = Vec::new(self.alloc);
        match ledger.apply_all_of(permits, peers, &requests, &mut replies) {
            Ok(()) => self.give_all(&numbers, &replies),
            // None was taken.
            Err(_) => {}
        }
    }

    /// Has each of these connections hold its reply.
    fn give_all(&mut self, numbers: &[usize], replies: &[Reply])
        requires { All IsReply replies.now }
        ensures last { self.new.last ≡ self.old.last }
        ensures goes { (who : Callers) (old : Outside) (wires : ℕ → Wire) (end : Book) →
            Left who old wires self.old.last (held self.old.opened) numbers.now replies.now end →
            GoesOn who old (out end wires) self.new.last (held self.new.opened) None }
    {
        more_exchanges();
        for at in 0..numbers.len() {
            let Some(reply) = replies.get(at) else {
                return;
            };
            self.give(numbers[at], reply);
        }
    }

    /// Has a connection hold the reply to the request that stands next on it.
    fn give(&mut self, number: usize, reply: &Reply)
        requires { IsReply reply.now }
        ensures last { self.new.last ≡ self.old.last }
        ensures others { (n : ℕ) → n ≢ number → held self.new.opened n ≡ held self.old.opened n }
        ensures gives { Gives (held self.old.opened number) (held self.new.opened number)
            reply.now }
    {
        if let Some(open) = self.opened.get_mut(&number) {
            open.connection.hold_reply(reply);
        }
    }
}
