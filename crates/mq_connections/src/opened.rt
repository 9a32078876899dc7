//! A connection that is open, and its turns: none waits for the peer, so none holds back another
//! connection.
ghost use Rattle.std.specs.Prelude.{◌≡◌, ◌≢◌, ◌⊎◌, ◌<◌, ◌≤◌, ◌+◌, [], List, ℕ, ◌++◌, length, Err};
ghost use Rattle.std.specs.Prelude.{None, Some, IfOk, Option, IsTrue};
ghost use Rattle.mq_request.specs.declared.message.Request.{Request};
ghost use Rattle.mq_permits.specs.Permits.{may_ask};
ghost use Rattle.mq_connections.specs.Gained.{Gains, MayAsk};
ghost use Rattle.std.specs.Time.{instant_nanos};
ghost use Rattle.std.specs.Io.KnownBytes.{Appends, Consumes, Keeps};
ghost use Rattle.mq_ledger.specs.Leaving.{LeavesLedger};
ghost use Rattle.mq_ledger.specs.Legal.{Book, IsLegalBook};
ghost use Rattle.mq_ledger.specs.declared.ledger.ReportedCall.{ReportedCall};
ghost use Rattle.mq_server.specs.declared.connection.Progress.TheVariants.{Ended};
ghost use Rattle.mq_server.specs.declared.input.TheConstants.{PIECE as piece_limit};
ghost use Rattle.mq_server.specs.Held.{IsAtRest, fresh};
ghost use Rattle.mq_server.specs.Life.{Life, Lives, with_bytes, with_taken};
ghost use Rattle.mq_connections.specs.Stays.{IsIdle, IsPutOff, late_fault};
ghost use Rattle.mq_connections.specs.Turns.{ClosesAtEnd, Offers, Turns};

use crate::lent::{Lending, Lent, PeerLedger};
use crate::network::Network;
use crate::stay::{Stay, Times};
use mq_ledger::Ledger;
use mq_permits::{Peer, Permits};
use mq_server::laws::more_exchanges;
use mq_server::{Connection, EndCause, PIECE, Progress, ServeFault};
use mq_watch::Hear;
use std::alloc::Global;
use std::io;
use std::io::ErrorKind;
use std::marker::{Brand, PhantomData};
use std::rt::Clock;
use std::time::Instant;

/// The most frames that are answered in one turn: their replies are held until the peer takes them,
/// and a page of a list has up to 27 kilobytes.
const FRAMES: u32 = 8;

/// The most turns of a connection before the others have theirs. In each it reads, answers or
/// writes.
const TURNS: u32 = 32;

/// After so many turns at least a connection has answered what came first.
const FIRST_TURNS: u32 = 2;

/// A connection that is open.
#[derive(Drop)]
pub struct OpenConnection {
    /// Who it is, as the log names it.
    pub peer: Peer,
    pub connection: Connection,
    pub stay: Stay,
}

impl OpenConnection {
    /// A connection that was accepted now.
    pub fn new(
        clock: &impl Clock,
        alloc: Global,
        peer: Peer,
        times: Times,
    ) -> io::Result<OpenConnection>
        ensures fresh { IfOk result (λ made. made.connection ≡ fresh made.connection.room) }
        ensures peer { IfOk result (λ made. made.peer ≡ peer) }
    {
        let stay = Stay::begin(Instant::now(clock)?, times)?;
        Ok(OpenConnection {
            peer,
            connection: Connection::new(alloc),
            stay,
        })
    }

    /// Why a connection is given up whose time is over. An idle one ends as it should.
    pub fn late_fault(&self) -> Option<ServeFault>
        ensures { result ≡ late_fault self.now.stay self.now.connection.replies }
    {
        if self.stay.is_idle() {
            None
        } else if self.connection.replies().is_empty() {
            Some(ServeFault::Read)
        } else {
            Some(ServeFault::Write)
        }
    }

    /// Writes of the replies that wait what the peer takes now. Where none wait, answers the next
    /// whole frames and, where none is there, reads. `Waits` where the peer has to send or to take
    /// something first, and an end once the replies before it are taken; where the store failed,
    /// nothing more is waited for.
    pub fn take_turn<N: Network, C: Clock, L: Ledger>(
        &mut self,
        clock: &C,
        alloc: Global,
        network: &mut N,
        number: usize,
        times: Times,
        ledger: &mut L,
    ) -> Progress
        // Of any ledger, sound or not.
        ensures others { (n : ℕ) → n ≢ number → N.wire network.new n ≡ N.wire network.old n }
        ensures store { result ≡ Ended (Err ServeFault.Store)
            → self.new.connection.end ≡ Some (Err ServeFault.Store) }
        ensures works { self.old.connection.end ≢ Some (Err ServeFault.Store) →
            result ≢ Ended (Err ServeFault.Store) → self.new.connection.end ≢ Some
            (Err ServeFault.Store) }
        ensures leaves { LeavesLedger L.book L.has_kept L.is_sound L.has_store ledger.old ledger.new }

        // Of a sound one that has kept its premise.
        ensures turns { L.has_kept ledger.new → L.is_sound ledger.old →
            Turns (L.book ledger.old) (L.book ledger.new).history (L.told ledger.old)
            (L.told ledger.new) result
            (N.wire network.old number) (N.wire network.new number) self.old.connection
            self.new.connection }
    {
        more_exchanges();
        if !self.connection.replies().is_empty() {
            return self.write_replies(clock, network, number, times);
        }
        match self.connection.answer(alloc, FRAMES, ledger) {
            Progress::Answered => Progress::Answered,
            Progress::Waits if !self.connection.replies().is_empty() => Progress::Answered,
            Progress::Waits => self.read_more(clock, network, number, times),
            Progress::Ended(end) => self.end_turn(end),
        }
    }

    /// The turn of a connection that has ended so: its replies go out before its end is reported.
    /// Where the store failed, nothing is waited for.
    fn end_turn(&self, end: Result<EndCause, ServeFault>) -> Progress
        ensures store { end ≡ Err ServeFault.Store → result ≡ Ended (Err ServeFault.Store) }
        ensures other { result ≡ Ended (Err ServeFault.Store) → end ≡ Err ServeFault.Store }
    {
        match end {
            Err(ServeFault::Store) => Progress::Ended(Err(ServeFault::Store)),
            _ if self.connection.replies().is_empty() => Progress::Ended(end),
            _ => Progress::Answered,
        }
    }

    /// Offers the peer the replies that it hasn't taken, once.
    pub fn offer<N: Network>(&mut self, network: &mut N, number: usize)
        ensures over { N.is_over network.old → N.is_over network.new }
        ensures others { (n : ℕ) → n ≢ number → N.wire network.new n ≡ N.wire network.old n }
        ensures offers { Offers self.old.connection (N.wire network.old number)
            (N.wire network.new number) }
    {
        if self.connection.replies().is_empty() {
            return;
        }
        if let Ok(taken) = network.write(number, self.connection.replies()) {
            self.connection.take_replies(taken);
        }
    }

    /// Writes of the replies what the peer takes now.
    fn write_replies<N: Network>(
        &mut self,
        clock: &impl Clock,
        network: &mut N,
        number: usize,
        times: Times,
    ) -> Progress
        ensures others { (n : ℕ) → n ≢ number → N.wire network.new n ≡ N.wire network.old n }
        ensures end { self.new.connection.end ≡ self.old.connection.end }
        ensures closed { self.new.connection.is_closed ≡ self.old.connection.is_closed }
        ensures other { result ≢ Ended (Err ServeFault.Store) }
        ensures remaining { (N.wire network.new number).remaining
            ≡ (N.wire network.old number).remaining }
        ensures writes { (written : List ℕ)
            × Appends (N.wire network.old number).contents
            (N.wire network.new number).contents written
            × ((l : Life) → Lives l self.old.connection
            → Lives (with_taken l written) self.new.connection) }
    {
        match network.write(number, self.connection.replies()) {
            Ok(0) => Progress::Ended(Err(ServeFault::Write)),
            Ok(count) => {
                self.connection.take_replies(count);
                self.note_activity(clock, times);
                Progress::Answered
            }
            Err(error) if error.kind() == ErrorKind::WouldBlock => Progress::Waits,
            Err(_) => Progress::Ended(Err(ServeFault::Write)),
        }
    }

    /// Reads what came where only that lets the connection go on; elsewhere it leaves all as it is.
    pub fn read_turn<N: Network>(
        &mut self,
        clock: &impl Clock,
        network: &mut N,
        number: usize,
        times: Times,
    ) -> Progress
        ensures others { (n : ℕ) → n ≢ number → N.wire network.new n ≡ N.wire network.old n }
        ensures works { result ≢ Ended (Err ServeFault.Store) }
        ensures stays { self.old.connection.end ≢ Some (Err ServeFault.Store)
            → self.new.connection.end ≢ Some (Err ServeFault.Store) }
        ensures turns { (b : Book) (told : Option (List ReportedCall)) → IsLegalBook b →
            Turns b b.history told told result (N.wire network.old number)
            (N.wire network.new number) self.old.connection self.new.connection }
    {
        more_exchanges();
        if self.connection.is_waiting() {
            self.read_more(clock, network, number, times)
        } else {
            Progress::Waits
        }
    }

    /// Reads what came. At the peer's end the connection is closed.
    fn read_more<N: Network>(
        &mut self,
        clock: &impl Clock,
        network: &mut N,
        number: usize,
        times: Times,
    ) -> Progress
        requires { self.old.connection.end ≡ None }
        ensures others { (n : ℕ) → n ≢ number → N.wire network.new n ≡ N.wire network.old n }
        ensures end { self.new.connection.end ≡ None }
        ensures other { result ≢ Ended (Err ServeFault.Store) }
        ensures contents { (N.wire network.new number).contents
            ≡ (N.wire network.old number).contents }
        ensures reads { (read : List ℕ) × (lost : List ℕ) × (length lost ≤ piece_limit)
            × (result ≢ Ended (Err ServeFault.Memory) → lost ≡ [])
            × Consumes (N.wire network.old number).remaining (N.wire network.new number).remaining
            (read ++ lost)
            × ClosesAtEnd self.old.connection self.new.connection
            (N.wire network.old number).remaining read
            × ((l : Life) → Lives l self.old.connection
            → Lives (with_bytes l read) self.new.connection) }
        // Memory is lacking where the system says so, and nothing was read, or where what was read
        // had no room.
        ensures full { result ≡ Ended (Err ServeFault.Memory) →
            Keeps (N.wire network.old number).remaining (N.wire network.new number).remaining
            ⊎ ((lost : List ℕ) × Consumes (N.wire network.old number).remaining
            (N.wire network.new number).remaining lost
            × (self.old.connection.room < length self.old.connection.rest + length lost)) }
    {
        let mut piece = [0u8; PIECE];
        match network.read(number, &mut piece) {
            Ok(0) => {
                self.connection.close();
                Progress::Answered
            }
            Ok(count) => match self.connection.receive(&piece[..count]) {
                Ok(()) => {
                    self.note_activity(clock, times);
                    Progress::Answered
                }
                Err(_) => Progress::Ended(Err(ServeFault::Memory)),
            },
            Err(error) => read_stop(&error),
        }
    }

    /// The peer sent or took something: its time begins again. (A clock that can't be read ends the
    /// serving at its next wait.)
    fn note_activity(&mut self, clock: &impl Clock, times: Times)
        ensures { self.new.connection ≡ self.old.connection }
    {
        let Ok(now) = Instant::now(clock) else {
            return;
        };
        if let Ok(stay) = self.stay_from(now, times) {
            self.stay = stay;
        }
    }

    /// Until when it stays open, as its peer has just sent or taken something: it is idle once all
    /// that came was answered, and the replies were taken.
    fn stay_from(&self, now: Instant, times: Times) -> io::Result<Stay>
        ensures idle { IsAtRest self.now.connection → IfOk result
            (IsIdle (instant_nanos now) times) }
        ensures busy { ¬ IsAtRest self.now.connection → IfOk result
            (IsPutOff (instant_nanos now) times self.now.stay) }
    {
        if self.connection.is_at_rest() {
            Stay::idle(now, times)
        } else {
            self.stay.put_off(now, times)
        }
    }
}

/// What a failed read leaves of a connection.
fn read_stop(error: &io::Error) -> Progress
    ensures { result ≢ Ended (Err ServeFault.Store) }
{
    match error.kind() {
        ErrorKind::WouldBlock => Progress::Waits,
        ErrorKind::OutOfMemory => Progress::Ended(Err(ServeFault::Memory)),
        _ => Progress::Ended(Err(ServeFault::Read)),
    }
}

/// Gives a connection turns, as long as it has something to do and no other has waited for long. Of
/// several, each has its first request answered; the next one is left for the next round, where it
/// may be taken with those of the others.
fn take_turns<N: Network, C: Clock, L: Ledger>(
    clock: &C,
    alloc: Global,
    network: &mut N,
    number: usize,
    opened: &mut OpenConnection,
    times: Times,
    alone: bool,
    ledger: &mut L,
) -> Progress
    ensures others { (n : ℕ) → n ≢ number → N.wire network.new n ≡ N.wire network.old n }
    ensures store { result ≡ Ended (Err ServeFault.Store)
        → opened.new.connection.end ≡ Some (Err ServeFault.Store) }
    ensures works { opened.old.connection.end ≢ Some (Err ServeFault.Store) →
        result ≢ Ended (Err ServeFault.Store) → opened.new.connection.end ≢ Some
        (Err ServeFault.Store) }
    ensures leaves { LeavesLedger L.book L.has_kept L.is_sound L.has_store ledger.old ledger.new }
    ensures turns { L.has_kept ledger.new → L.is_sound ledger.old →
        Turns (L.book ledger.old) (L.book ledger.new).history (L.told ledger.old)
        (L.told ledger.new) result
        (N.wire network.old number) (N.wire network.new number) opened.old.connection
        opened.new.connection }
{
    more_exchanges();
    for turn in 0..TURNS {
        if !alone && FIRST_TURNS <= turn && opened.connection.peek_request(alloc).is_some() {
            return Progress::Answered;
        }
        match opened.take_turn(clock, alloc, network, number, times, ledger) {
            Progress::Answered => {}
            turn => return turn,
        }
    }
    Progress::Answered
}

/// A ledger that comes back after turns of a connection, and what these came to.
#[derive(Drop)]
struct Turned<'l, 'p, L> {
    lent: Lent<'l, 'p, L>,
    progress: Progress,
}

impl<L> Turned<'_, '_, L> {
    /// The ledger is no longer lent.
    fn end(self) -> Progress
        ensures ledger { self.exit.0.0.now ≡ self.entry.lent.ledger.now }
        ensures progress { result ≡ self.entry.progress }
    {
        let Turned { lent: _, progress } = self;
        progress
    }
}

/// Gives a connection turns, over a ledger that is lent for the requests of its peer.
fn take_lent_turns<'l, 'p, N: Network, C: Clock, L: Hear, K: Lending>(
    clock: &C,
    alloc: Global,
    network: &mut N,
    number: usize,
    opened: &mut OpenConnection,
    times: Times,
    alone: bool,
    lent: Lent<'l, 'p, L>,
) -> Turned<'l, 'p, L>
    requires reference { lent.ledger.ghost_name ≡ K.reference }
    requires may { (request : Request) → may_ask lent.permits lent.peer request ≡ K.may request }
    requires start { (L.book lent.ledger.now).history ≡ K.start }
    ensures reference { result.lent.ledger.ghost_name ≡ lent.entry.ledger.ghost_name }
    ensures others { (n : ℕ) → n ≢ number → N.wire network.new n ≡ N.wire network.old n }
    ensures store { result.progress ≡ Ended (Err ServeFault.Store)
        → opened.new.connection.end ≡ Some (Err ServeFault.Store) }
    ensures works { opened.old.connection.end ≢ Some (Err ServeFault.Store) →
        result.progress ≢ Ended (Err ServeFault.Store) → opened.new.connection.end ≢ Some
        (Err ServeFault.Store) }
    ensures leaves { LeavesLedger L.book L.has_kept L.is_sound L.has_store lent.entry.ledger.now
        result.lent.ledger.now }
    ensures turns { L.has_kept result.lent.ledger.now → L.is_sound lent.entry.ledger.now →
        Turns (L.book lent.entry.ledger.now) (L.book result.lent.ledger.now).history
        (L.told lent.entry.ledger.now) (L.told result.lent.ledger.now) result.progress
        (N.wire network.old number) (N.wire network.new number) opened.old.connection
        opened.new.connection }
    ensures gains { L.has_kept result.lent.ledger.now → L.is_sound lent.entry.ledger.now →
        Gains (λ request. IsTrue (K.may request)) K.start (L.book result.lent.ledger.now).history }
{
    let mut asked: PeerLedger<'l, 'p, L, K> = PeerLedger {
        lent,
        of: PhantomData,
    };
    let progress = take_turns(
        clock, alloc, network, number, opened, times, alone, &mut asked,
    );
    let PeerLedger { lent, of: _ } = asked;
    Turned { lent, progress }
}

/// Gives a connection turns, alone or as one of several. What the ledger gains by it is what the
/// permits allow this peer.
pub fn give_turns<N: Network, C: Clock, L: Hear>(
    clock: &C,
    alloc: Global,
    network: &mut N,
    number: usize,
    peer: Peer,
    opened: &mut OpenConnection,
    times: Times,
    alone: bool,
    permits: Option<&Permits>,
    ledger: &mut L,
) -> Progress
    ensures others { (n : ℕ) → n ≢ number → N.wire network.new n ≡ N.wire network.old n }
    ensures store { result ≡ Ended (Err ServeFault.Store)
        → opened.new.connection.end ≡ Some (Err ServeFault.Store) }
    ensures works { opened.old.connection.end ≢ Some (Err ServeFault.Store) →
        result ≢ Ended (Err ServeFault.Store) → opened.new.connection.end ≢ Some
        (Err ServeFault.Store) }
    ensures leaves { LeavesLedger L.book L.has_kept L.is_sound L.has_store ledger.old ledger.new }
    ensures turns { L.has_kept ledger.new → L.is_sound ledger.old →
        Turns (L.book ledger.old) (L.book ledger.new).history (L.told ledger.old)
        (L.told ledger.new) result
        (N.wire network.old number) (N.wire network.new number) opened.old.connection
        opened.new.connection }
    ensures gains { L.has_kept ledger.new → L.is_sound ledger.old →
        Gains (MayAsk permits.entry peer) (L.book ledger.old).history
        (L.book ledger.new).history }
{
    let lent = Lent {
        ledger,
        permits,
        peer,
    };
    let turned = take_lent_turns::<N, C, L, Brand>(
        clock, alloc, network, number, opened, times, alone, lent,
    );
    turned.end()
}
