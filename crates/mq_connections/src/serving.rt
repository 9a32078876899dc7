//! Serving connections until so many were accepted, and have ended.
ghost use Rattle.std.specs.Prelude.{◌≡◌, ℕ, None, Ok, option_map};
ghost use Rattle.std.specs.Duration.{as_nanos};
ghost use Rattle.mq_chore.specs.Choring.{Fitted};
ghost use Rattle.mq_ledger.specs.Leaving.{LeavesLedger};
ghost use Rattle.mq_server.specs.Delivery.{HasGrown};
ghost use Rattle.mq_connections.specs.Gained.{Gains, callers};
ghost use Rattle.mq_connections.specs.Places.{CameFromItsPlace};
ghost use Rattle.mq_connections.specs.Sessions.{EndsServing, GoesOn, GoesOnOrStops, Outside, held};
ghost use Rattle.mq_connections.specs.Waits.{idle_time, shorter};

use crate::accept::Connections;
use crate::fault::RoomFault;
use crate::network::{Network, Port};
use crate::room::Room;
use crate::sockets::EVENTS;
use crate::stay::Times;
use log::{Log, error};
use mq_chore::{Chore, Piece};
use mq_permits::Permits;
use mq_server::laws::{a_life_is_served, more_deliveries, more_exchanges};
use mq_watch::Hear;
use std::alloc::Global;
use std::io;
use std::rt::Clock;
use std::time::{Duration, Instant};

/// How a serving ended well.
#[derive(Clone, Copy, Debug, PartialEq, Eq)]
pub enum ServingEnd {
    /// All connections were accepted, and have ended.
    Over,
    /// The chore is done.
    Chore,
}

/// Accepts so many connections of a network, and serves whichever has whole frames there, a few at a
/// time; so no peer holds back the others by what it doesn't send, or doesn't take of its replies.
/// Each end but that of whole frames is logged with the peer's address. A store that failed stops
/// the serving, and so does a listener that accepts no more.
///
/// What the permits don't allow a peer isn't put to the ledger. Without permits everybody may ask
/// everything.
///
/// Between the rounds over all that is open it goes on with the chore, first before anything has
/// come. Once that is done the connections that are open are closed; those that came meanwhile wait
/// at the listener, and `connections` says how many are to be accepted still.
pub fn serve_connections<N: Port, C: Clock, G: Log, L: Hear, K: Chore<L>>(
    clock: &C,
    log: &G,
    alloc: Global,
    network: &mut N,
    times: Times,
    permits: Option<&Permits>,
    ledger: &mut L,
    chore: &mut K,
    connections: &mut Connections,
) -> Result<ServingEnd, RoomFault>
    // Of any ledger, sound or not.
    ensures leaves { LeavesLedger L.book L.has_kept L.is_sound L.has_store ledger.old ledger.new }
    ensures over { result ≡ Ok ServingEnd.Over → connections.new ≡ Connections.Count 0 }

    // Of a sound one that has kept its premise: it gained what these peers may ask by the permits.
    ensures serves { L.has_kept ledger.new → L.is_sound ledger.old → EndsServing
        (callers permits.entry N.peers)
        (record { book = L.book ledger.old; told = L.told ledger.old; wires = N.wire network.old })
        (record { book = L.book ledger.new; told = L.told ledger.new; wires = N.wire network.new })
        RoomFault.Store result }
    ensures history { L.has_kept ledger.new → L.is_sound ledger.old →
        HasGrown (L.book ledger.old) (L.book ledger.new) }
    // Each request that it gained came from an address of its host, or of an administrator.
    ensures gains { L.has_kept ledger.new → L.is_sound ledger.old →
        Gains (CameFromItsPlace permits.entry N.peers) (L.book ledger.old).history
        (L.book ledger.new).history }

    // What the chore did fits the ledger with all that came.
    ensures fits { L.has_kept ledger.new → L.is_sound ledger.old →
        Fitted (K.fits chore.old) (L.book ledger.old) → Fitted (K.fits chore.new)
        (L.book ledger.new) }
    ensures done { L.has_kept ledger.new → L.is_sound ledger.old
        → Fitted (K.fits chore.old) (L.book ledger.old) →
        result ≡ Ok ServingEnd.Chore → K.is_done chore.new (L.book ledger.new) }
{
    a_life_is_served();
    more_exchanges();
    network.begin(*connections)?;
    let outcome = serve_network(clock, log, alloc, network, times, permits, ledger, chore);
    *connections = network.left();
    outcome
}

/// Serves the connections of a network until all were accepted and have ended, or the chore is
/// done, or it has to stop. A connection is closed only after its peer was offered the replies that
/// wait.
pub fn serve_network<N: Network, C: Clock, G: Log, L: Hear, K: Chore<L>>(
    clock: &C,
    log: &G,
    alloc: Global,
    network: &mut N,
    times: Times,
    permits: Option<&Permits>,
    ledger: &mut L,
    chore: &mut K,
) -> Result<ServingEnd, RoomFault>
    // Of any ledger, sound or not.
    ensures leaves { LeavesLedger L.book L.has_kept L.is_sound L.has_store ledger.old ledger.new }
    ensures over { result ≡ Ok ServingEnd.Over → N.is_over network.new }

    // Of a sound one that has kept its premise.
    ensures serves { L.has_kept ledger.new → L.is_sound ledger.old → EndsServing
        (callers permits.entry N.peers)
        (record { book = L.book ledger.old; told = L.told ledger.old; wires = N.wire network.old })
        (record { book = L.book ledger.new; told = L.told ledger.new; wires = N.wire network.new })
        RoomFault.Store result }
    ensures fits { L.has_kept ledger.new → L.is_sound ledger.old →
        Fitted (K.fits chore.old) (L.book ledger.old) → Fitted (K.fits chore.new)
        (L.book ledger.new) }
    ensures done { L.has_kept ledger.new → L.is_sound ledger.old
        → Fitted (K.fits chore.old) (L.book ledger.old) →
        result ≡ Ok ServingEnd.Chore → K.is_done chore.new (L.book ledger.new) }
{
    a_life_is_served();
    more_exchanges();
    let mut ready = Vec::with_capacity(alloc, EVENTS)?;
    let mut room = Room::new(alloc, network.last());
    let ended = serve_rounds(
        clock, log, network, &mut room, &mut ready, times, permits, ledger, chore,
    );
    room.close_all(network);
    ended
}

/// Serves the connections of a network, round by round. Where it has to stop, some may be open
/// still.
fn serve_rounds<N: Network, C: Clock, G: Log, L: Hear, K: Chore<L>>(
    clock: &C,
    log: &G,
    network: &mut N,
    room: &mut Room,
    ready: &mut Vec<usize>,
    times: Times,
    permits: Option<&Permits>,
    ledger: &mut L,
    chore: &mut K,
) -> Result<ServingEnd, RoomFault>
    ensures leaves { LeavesLedger L.book L.has_kept L.is_sound L.has_store ledger.old ledger.new }
    ensures over { result ≡ Ok ServingEnd.Over → N.is_over network.new }
    ensures goes { L.has_kept ledger.new → L.is_sound ledger.old → (old : Outside) →
        (let before : Outside = record {
          book = L.book ledger.old;
          told = L.told ledger.old;
          wires = N.wire network.old;
        } in
        let after : Outside = record {
          book = L.book ledger.new;
          told = L.told ledger.new;
          wires = N.wire network.new;
        } in
        let who = callers permits.entry N.peers in
        GoesOn who old before room.old.last (held room.old.opened) None →
        GoesOnOrStops who old after room.new.last (held room.new.opened) RoomFault.Store result) }
    ensures fits { L.has_kept ledger.new → L.is_sound ledger.old →
        Fitted (K.fits chore.old) (L.book ledger.old) → Fitted (K.fits chore.new)
        (L.book ledger.new) }
    ensures done { L.has_kept ledger.new → L.is_sound ledger.old
        → Fitted (K.fits chore.old) (L.book ledger.old) →
        result ≡ Ok ServingEnd.Chore → K.is_done chore.new (L.book ledger.new) }
{
    more_deliveries();
    // (the chore may have something to do before anything comes)
    let mut piece = Piece::More;
    for _round in 0..u64::MAX {
        room.accept(clock, log, network, times)?;
        // The last connection may just have been given up as memory ran out: then nothing more
        // comes.
        if network.is_done() && room.is_empty() {
            return Ok(ServingEnd::Over);
        }
        let now = match wait(clock, room, network, ready, piece) {
            Ok(now) => now,
            Err(error) => return Err(no_wait(log, &error)),
        };
        room.serve(clock, log, network, ready, times, permits, ledger)?;
        room.expire(log, network, now);
        match chore.go_on(ledger) {
            Piece::Done => return Ok(ServingEnd::Chore),
            wanted => piece = wanted,
        }
    }
    // (there are fewer rounds than that)
    Err(RoomFault::Accept)
}

/// Waits until something comes, or until a connection is late, or a pause is over, or the chore has
/// something to do after this piece, and says when that was.
fn wait<N: Network>(
    clock: &impl Clock,
    room: &Room,
    network: &mut N,
    ready: &mut Vec<usize>,
    piece: Piece,
) -> io::Result<Instant>
    ensures { (n : ℕ) → N.wire network.new n ≡ N.wire network.old n }
{
    let now = Instant::now(clock)?;
    let wait = first_of(network.accepts_in(now), room.late_in(now));
    ready.clear();
    network.wait(first_of(wait, idle_after(piece)), ready)?;
    Instant::now(clock)
}

/// How long a chore has nothing to do after a piece, where that has an end.
fn idle_after(piece: Piece) -> Option<Duration>
    ensures { option_map as_nanos result ≡ idle_time piece }
{
    match piece {
        Piece::More | Piece::Done => Some(Duration::ZERO),
        Piece::Later(time) => Some(time),
        Piece::Nothing => None,
    }
}

/// The shorter of two times, where there are such.
fn first_of(one: Option<Duration>, other: Option<Duration>) -> Option<Duration>
    ensures { option_map as_nanos result ≡ shorter (option_map as_nanos one)
        (option_map as_nanos other) }
{
    match (one, other) {
        (Some(one), Some(other)) => Some(if one <= other { one } else { other }),
        (one, other) => one.or(other),
    }
}

/// Logs why the system doesn't report connections.
pub(crate) fn no_wait<G: Log>(log: &G, error: &io::Error) -> RoomFault
    ensures { result ≡ RoomFault.Accept }
{
    error!(log; "waiting for connections: {error}");
    RoomFault::Accept
}
