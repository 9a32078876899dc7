//! The connections that are open.
ghost use Rattle.std.specs.Prelude.{◌≡◌, ◌≢◌, ◌+◌, ℕ, List, Option, None, Err, IfErr, OnOk};
ghost use Rattle.mq_ledger.specs.Leaving.{LeavesLedger};
ghost use Rattle.mq_ledger.specs.declared.ledger.ReportedCall.{ReportedCall};
ghost use Rattle.mq_ledger.specs.Legal.{Book};
ghost use Rattle.mq_server.specs.Delivery.{HasGrown};
ghost use Rattle.mq_connections.specs.Gained.{Callers, callers};
ghost use Rattle.mq_connections.specs.Sessions.{GoesOn, GoesOnOrStops, KeepsGoing, Outside, held};
ghost use Rattle.mq_connections.specs.Turns.{Closes};

use crate::fault::RoomFault;
use crate::given_up::{cause_of_end, cause_of_late};
use crate::network::Network;
use crate::opened::{OpenConnection, give_turns};
use crate::stay::Times;
use log::{Log, error, warn};
use mq_metrics::GivenUp;
use mq_permits::{Peer, Permits};
use mq_server::laws::{a_life_is_served, more_deliveries, more_exchanges};
use mq_server::{EndCause, PIECE, Progress, ServeFault};
use mq_watch::Hear;
use std::alloc::Global;
use std::collections::BTreeMap;
use std::rt::Clock;
use std::time::{Duration, Instant};

/// The most connections that are open at once: a process may commonly have 1,024 files.
const PLACES: usize = 900;

/// The most of these places that idle connections have, once all are taken: so the others, which
/// just came or are answered, have some always.
const IDLE_PLACES: usize = 600;

/// The most connections that are accepted before others have their turns.
const ACCEPTED: usize = 64;

/// The connections that are open, each under its number: they are counted as they come.
#[derive(Drop)]
pub struct Room {
    pub(crate) opened: BTreeMap<usize, OpenConnection>,
    pub(crate) alloc: Global,
    /// The number of the connection that was accepted last.
    pub(crate) last: usize,
}

impl Room {
    /// None is open yet. They are counted on from the last number that a connection had.
    pub fn new(alloc: Global, last: usize) -> Room
        ensures last { result.last ≡ last }
        ensures none { (n : ℕ) → held result.opened n ≡ None }
    {
        Room {
            opened: BTreeMap::new(alloc),
            alloc,
            last,
        }
    }

    /// Whether all connections have ended.
    pub fn is_empty(&self) -> bool {
        self.opened.is_empty()
    }

    /// How long it is until the first connection is late.
    pub fn late_in(&self, now: Instant) -> Option<Duration> {
        self.first_late()
            .map(|(_, until)| until.duration_since(now))
    }

    /// Accepts the connections that have come. Where no place is left, one is closed for each.
    pub fn accept<N: Network, C: Clock, G: Log>(
        &mut self,
        clock: &C,
        log: &G,
        network: &mut N,
        times: Times,
    ) -> Result<(), RoomFault>
        ensures fault { IfErr result (λ fault. fault ≡ RoomFault.Accept) }
        ensures goes { (who : Callers) (old : Outside) (book : Book)
            (told : Option (List ReportedCall)) →
            GoesOn who old (record { book = book; told = told; wires = N.wire network.old })
            self.old.last (held self.old.opened) None →
            GoesOn who old (record { book = book; told = told; wires = N.wire network.new })
            self.new.last (held self.new.opened) None }
    {
        for _connection in 0..ACCEPTED {
            let Some(number) = self.last.checked_add(1) else {
                return Err(RoomFault::Accept);
            };
            let Some(peer) = network.accept(number)? else {
                return Ok(());
            };
            self.last = number;
            self.add(clock, log, network, peer, times);
        }
        Ok(())
    }

    /// Gives the connection that was accepted last a place. One that can't have it is closed.
    fn add<N: Network, C: Clock, G: Log>(
        &mut self,
        clock: &C,
        log: &G,
        network: &mut N,
        peer: Peer,
        times: Times,
    )
        ensures last { self.new.last ≡ self.old.last }
        ensures goes { (who : Callers) (old : Outside) (book : Book)
            (told : Option (List ReportedCall)) (before : ℕ) → self.old.last ≡ before + 1 →
            GoesOn who old (record { book = book; told = told; wires = N.wire network.old }) before
            (held self.old.opened) None →
            GoesOn who old (record { book = book; told = told; wires = N.wire network.new })
            self.old.last (held self.new.opened) None }
    {
        a_life_is_served();
        let open = match OpenConnection::new(clock, self.alloc, peer, times) {
            Ok(open) => open,
            Err(cause) => {
                warn!(log; "connection of {peer}: {cause}");
                network.count_given_up(GivenUp::System);
                network.close(self.last);
                return;
            }
        };
        self.make_place(log, network);
        match self.opened.insert(self.last, open) {
            Ok(_) => return,
            Err(_) => warn!(log; "connection of {peer}: {}", ServeFault::Memory),
        }
        network.count_given_up(GivenUp::Memory);
        network.close(self.last);
    }

    /// Closes a connection where no place is left.
    fn make_place<N: Network, G: Log>(&mut self, log: &G, network: &mut N)
        ensures last { self.new.last ≡ self.old.last }
        ensures goes { KeepsGoing (held self.old.opened) (N.wire network.old) (held self.new.opened)
            (N.wire network.new) }
    {
        if self.opened.len() < PLACES {
            return;
        }
        let Some(number) = self.first_to_go() else {
            return;
        };
        let Some(open) = self.close(network, number) else {
            return;
        };
        let peer = open.peer;
        warn!(log; "connection of {peer}: too many connections");
        network.count_given_up(GivenUp::TooMany);
    }

    /// Gives each connection of which something came its turns.
    pub fn serve<N: Network, C: Clock, G: Log, L: Hear>(
        &mut self,
        clock: &C,
        log: &G,
        network: &mut N,
        ready: &[usize],
        times: Times,
        permits: Option<&Permits>,
        ledger: &mut L,
    ) -> Result<(), RoomFault>
        ensures leaves { LeavesLedger L.book L.has_kept L.is_sound L.has_store ledger.old ledger.new }
        ensures grows { L.has_kept ledger.new → L.is_sound ledger.old
            → HasGrown (L.book ledger.old) (L.book ledger.new) }
        ensures fault { IfErr result (λ fault. fault ≡ RoomFault.Store) }
        ensures goes { L.has_kept ledger.new → L.is_sound ledger.old → (old : Outside) →
            (let before : Outside = record {
              book = L.book ledger.old;
              told = L.told ledger.old;
              wires = N.wire network.old;
            } in
            let after : Outside = record {
              book = L.book ledger.new;
              told = L.told ledger.new;
              wires = N.wire network.new;
            } in
            let who = callers permits.entry N.peers in
            GoesOn who old before self.old.last (held self.old.opened) None →
            GoesOnOrStops who old after self.new.last (held self.new.opened) RoomFault.Store
            result) }
    {
        more_deliveries();
        self.serve_together(clock, log, network, ready, times, permits, ledger);
        let is_alone = self.opened.len() < 2;
        for number in ready {
            self.serve_one(
                clock, log, network, *number, times, is_alone, permits, ledger,
            )?;
        }
        Ok(())
    }

    /// Gives a connection its turns, alone or as one of several, and closes it where it ended.
    fn serve_one<N: Network, C: Clock, G: Log, L: Hear>(
        &mut self,
        clock: &C,
        log: &G,
        network: &mut N,
        number: usize,
        times: Times,
        is_alone: bool,
        permits: Option<&Permits>,
        ledger: &mut L,
    ) -> Result<(), RoomFault>
        ensures leaves { LeavesLedger L.book L.has_kept L.is_sound L.has_store ledger.old ledger.new }
        ensures grows { L.has_kept ledger.new → L.is_sound ledger.old
            → HasGrown (L.book ledger.old) (L.book ledger.new) }
        ensures fault { IfErr result (λ fault. fault ≡ RoomFault.Store) }
        ensures goes { L.has_kept ledger.new → L.is_sound ledger.old → (old : Outside) →
            (let before : Outside = record {
              book = L.book ledger.old;
              told = L.told ledger.old;
              wires = N.wire network.old;
            } in
            let after : Outside = record {
              book = L.book ledger.new;
              told = L.told ledger.new;
              wires = N.wire network.new;
            } in
            let who = callers permits.entry N.peers in
            GoesOn who old before self.old.last (held self.old.opened) None →
            GoesOnOrStops who old after self.new.last (held self.new.opened) RoomFault.Store
            result) }
    {
        more_exchanges();
        let Some(peer) = network.peer(number) else {
            return Ok(());
        };
        let Some(open) = self.opened.get_mut(&number) else {
            return Ok(());
        };
        match give_turns(
            clock, self.alloc, network, number, peer, open, times, is_alone, permits, ledger,
        ) {
            Progress::Waits => Ok(()),
            Progress::Answered => {
                self.watch_again(log, network, number, &peer);
                Ok(())
            }
            Progress::Ended(end) => {
                let _ = self.close(network, number);
                count_end(network, end);
                end_of(log, &peer, end)
            }
        }
    }

    /// Has a connection reported again that may have more. One that can't be is closed.
    fn watch_again<N: Network, G: Log>(
        &mut self,
        log: &G,
        network: &mut N,
        number: usize,
        peer: &Peer,
    )
        ensures last { self.new.last ≡ self.old.last }
        ensures goes { KeepsGoing (held self.old.opened) (N.wire network.old) (held self.new.opened)
            (N.wire network.new) }
    {
        let Err(cause) = network.watch_again(number) else {
            return;
        };
        warn!(log; "connection of {peer}: {cause}");
        network.count_given_up(GivenUp::System);
        let _ = self.close(network, number);
    }

    /// Closes the connections that were late at that moment.
    pub fn expire<N: Network, G: Log>(&mut self, log: &G, network: &mut N, now: Instant)
        ensures last { self.new.last ≡ self.old.last }
        ensures goes { KeepsGoing (held self.old.opened) (N.wire network.old) (held self.new.opened)
            (N.wire network.new) }
    {
        for _late in 0..self.opened.len() {
            match self.first_late() {
                Some((number, until)) if until.duration_since(now).is_zero() => {
                    self.give_up(log, network, number);
                }
                _ => return,
            }
        }
    }

    /// Closes a connection that is late, after its peer was offered the replies that wait. What
    /// came and is of no use is read, so that the peer's reading ends in order and not by a reset.
    fn give_up<N: Network, G: Log>(&mut self, log: &G, network: &mut N, number: usize)
        ensures last { self.new.last ≡ self.old.last }
        ensures goes { KeepsGoing (held self.old.opened) (N.wire network.old) (held self.new.opened)
            (N.wire network.new) }
    {
        let Some(mut late) = self.opened.remove(&number) else {
            return;
        };
        let fault = late.late_fault();
        late.offer(network, number);
        let mut piece = [0u8; PIECE];
        let _ = network.read(number, &mut piece);
        // The peer sees the end once the log has it.
        if let Some(fault) = fault {
            let peer = late.peer;
            warn!(log; "connection of {peer}: {fault}");
            network.count_given_up(cause_of_late(fault));
        }
        network.close(number);
    }

    /// Closes a connection, after its peer was offered the replies that wait.
    pub(crate) fn close<N: Network>(
        &mut self,
        network: &mut N,
        number: usize,
    ) -> Option<OpenConnection>
        ensures last { self.new.last ≡ self.old.last }
        ensures closes { Closes (held self.old.opened) (held self.new.opened) (N.wire network.old)
            (N.wire network.new) number }
    {
        let Some(mut closed) = self.opened.remove(&number) else {
            return None;
        };
        closed.offer(network, number);
        network.close(number);
        Some(closed)
    }

    /// Closes all connections, each after its peer was offered the replies that wait.
    pub fn close_all<N: Network>(&mut self, network: &mut N)
        ensures last { self.new.last ≡ self.old.last }
        ensures over { N.is_over network.old → N.is_over network.new }
        ensures none { (n : ℕ) → held self.new.opened n ≡ None }
        ensures goes { KeepsGoing (held self.old.opened) (N.wire network.old) (held self.new.opened)
            (N.wire network.new) }
    {
        while let Some((number, mut left)) = self.opened.pop_first() {
            left.offer(network, number);
            network.close(number);
        }
    }

    /// The connection that is late first, and when.
    fn first_late(&self) -> Option<(usize, Instant)> {
        let mut first: Option<(usize, Instant)> = None;
        for (number, open) in &self.opened {
            first = earlier(first, *number, open.stay.until());
        }
        first
    }

    /// The connection that goes first where no place is left: the one that would be late first of
    /// those that aren't idle, so that peers which send or take nothing go before hosts that have
    /// asked; or of the idle ones, where these have more than their places.
    fn first_to_go(&self) -> Option<usize> {
        let is_idle = IDLE_PLACES < self.idle_count();
        let mut first: Option<(usize, Instant)> = None;
        for (number, open) in &self.opened {
            if open.stay.is_idle() == is_idle {
                first = earlier(first, *number, open.stay.until());
            }
        }
        first.map(|(number, _)| number)
    }

    /// How many connections are idle.
    fn idle_count(&self) -> usize {
        let idle = self.opened.values().filter(|open| open.stay.is_idle());
        idle.count()
    }
}

/// The earlier of two ends, the first of which may not be there.
fn earlier(
    first: Option<(usize, Instant)>,
    number: usize,
    until: Instant,
) -> Option<(usize, Instant)> {
    match first {
        Some((_, before)) if before <= until => first,
        _ => Some((number, until)),
    }
}

/// Counts a connection that ended so, where that means that it was given up.
pub fn count_end<N: Network>(network: &N, end: Result<EndCause, ServeFault>) {
    if let Some(cause) = cause_of_end(end) {
        network.count_given_up(cause);
    }
}

/// Warns of a connection that didn't end after whole frames. A store that failed ends the serving.
pub fn end_of<G: Log>(
    log: &G,
    peer: &Peer,
    end: Result<EndCause, ServeFault>,
) -> Result<(), RoomFault>
    ensures ok { OnOk result (end ≢ Err ServeFault.Store) }
    ensures store { IfErr result (λ fault. (fault ≡ RoomFault.Store)
        × (end ≡ Err ServeFault.Store)) }
{
    match end {
        Ok(served) => warn_of(log, peer, served),
        Err(ServeFault::Store) => {
            error!(log; "connection of {peer}: {}", ServeFault::Store);
            return Err(RoomFault::Store);
        }
        Err(fault) => warn!(log; "connection of {peer}: {fault}"),
    }
    Ok(())
}

/// Warns of a connection that ended before its peer's end, or within a frame.
fn warn_of<G: Log>(log: &G, peer: &Peer, served: EndCause) {
    let how = match served {
        EndCause::InputEnd => return,
        EndCause::Enough => "enough",
        EndCause::BadFrame => "bad frame",
        EndCause::CutFrame => "cut frame",
    };
    warn!(log; "connection of {peer}: {how}");
}
