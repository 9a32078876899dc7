//! Serving until a new ledger has what the old one remembers.
ghost use Rattle.std.specs.Prelude.{◌≡◌, ◌↔◌, None, Some, Ok, Err, IfOk, IfSome};
ghost use Rattle.sqlite.specs.Held.{state};
ghost use Rattle.sqlite.specs.State.{HasCleanDisk};
ghost use Rattle.sqlite.specs.Tree.{Trees};
ghost use Rattle.mq_server.specs.Delivery.{HasGrown};
ghost use Rattle.mq_store.specs.Forgetting.{IsRemembered};
ghost use Rattle.mq_store.specs.Soundness.{book_in, HasKept, IsSound};
ghost use Rattle.mq_connections.specs.Gained.{callers};
ghost use Rattle.mq_connections.specs.Sessions.{EndsServing};
ghost use Rattle.mq_nights.specs.Nights.{EndsNight, WasDue};

use crate::evening::{Evening, RenewedLedger};
use crate::lookout::Seen;
use crate::moments::Moments;
use crate::parts::Parts;
use crate::tended::TendedEvening;
use crate::terms::NightTerms;
use log::Log;
use mq_connections::{Connections, Port, RoomFault, ServingEnd, Times, serve_connections};
use mq_permits::Permits;
use mq_server::laws::more_deliveries;
use mq_store::SqlLedger;
use mq_watch::{InnerChore, WatchedLedger};
use sqlite::Alter;
use std::alloc::Global;
use std::marker::Brand;
use std::rt::Clock;

/// A serving with a renewal beside it that has ended.
#[derive(Drop)]
struct EndedEvening<N: Alter> {
    ended: Result<ServingEnd, RoomFault>,
    /// The new ledger, where a renewal has begun.
    renewed: Option<RenewedLedger<N>>,
}

/// Serves connections over a ledger, and renews it meanwhile. These are the terms of the night.
fn serve_evening<K: NightTerms, R, G: Log, W: Port, S: Alter, N: Alter + Drop, P: Parts<N> + Drop>(
    rt: &R,
    log: &G,
    alloc: Global,
    network: &mut W,
    times: Times,
    permits: Option<&Permits>,
    evening: Evening<'_, R, G, N, P, K>,
    ledger: &mut WatchedLedger<'_, SqlLedger<S>, R, G>,
    connections: &mut Connections,
) -> EndedEvening<N>
where
    R: Clock + Moments,
    requires nothing { evening.renewal ≡ None }
    requires keep { evening.lookout.keep ≡ K.keep }
    requires begun { K.begun ≡ book_in ledger.old.zone ledger.old.default
        (state S.Store ledger.old.connection).now }
    ensures lent { (ledger.new.zone ≡ ledger.old.zone) × (ledger.new.default ≡ ledger.old.default) }
    ensures kept { HasKept (state S.Store ledger.new.connection)
        → HasKept (state S.Store ledger.old.connection) }
    ensures over { result.ended ≡ Ok ServingEnd.Over → connections.new ≡ Connections.Count 0 }
    ensures sound { HasKept (state S.Store ledger.new.connection)
        → IsSound ledger.old.zone ledger.old.default (state S.Store ledger.old.connection)
        → IsSound ledger.new.zone ledger.new.default (state S.Store ledger.new.connection) }
    ensures grown { HasKept (state S.Store ledger.new.connection)
        → IsSound ledger.old.zone ledger.old.default (state S.Store ledger.old.connection)
        → HasGrown (book_in ledger.old.zone ledger.old.default
        (state S.Store ledger.old.connection).now)
        (book_in ledger.new.zone ledger.new.default (state S.Store ledger.new.connection).now) }
    ensures serves { HasKept (state S.Store ledger.new.connection)
        → IsSound ledger.old.zone ledger.old.default (state S.Store ledger.old.connection)
        → EndsServing (callers permits.entry W.peers)
        (record {
          book = book_in ledger.old.zone ledger.old.default
              (state S.Store ledger.old.connection).now;
          told = None;
          wires = W.wire network.old;
        })
        (record {
          book = book_in ledger.new.zone ledger.new.default
              (state S.Store ledger.new.connection).now;
          told = None;
          wires = W.wire network.new;
        }) RoomFault.Store result.ended }
    ensures done { HasKept (state S.Store ledger.new.connection)
        → IsSound ledger.old.zone ledger.old.default (state S.Store ledger.old.connection)
        → result.ended ≡ Ok ServingEnd.Chore
        → IfSome result.renewed (λ n. EndsNight P.is_fresh R.shows K.keep K.begun
        (book_in ledger.new.zone ledger.new.default (state S.Store ledger.new.connection).now)
        n.ledger.zone n.ledger.default n.day (state N.Store n.ledger.connection)) }
{
    more_deliveries();
    let mut chore = InnerChore {
        chore: TendedEvening { evening },
    };
    let ended = serve_connections(
        rt,
        log,
        alloc,
        network,
        times,
        permits,
        ledger,
        &mut chore,
        connections,
    );
    let InnerChore { chore: tended } = chore;
    EndedEvening {
        ended,
        renewed: tended.evening.into_renewed(),
    }
}

/// What a serving that ended so came to, with the new ledger where a renewal has begun.
fn outcome_of<N: Alter + Drop>(
    ended: Result<ServingEnd, RoomFault>,
    renewed: Option<RenewedLedger<N>>,
) -> Result<Option<RenewedLedger<N>>, RoomFault>
    ensures over { result ≡ Ok None → ended ≡ Ok ServingEnd.Over }
    ensures renewed { IfOk result (λ night. IfSome night (λ n. (ended ≡ Ok ServingEnd.Chore)
        × (renewed ≡ Some n))) }
    ensures store { (result ≡ Err RoomFault.Store) ↔ (ended ≡ Err RoomFault.Store) }
{
    match ended {
        Ok(ServingEnd::Over) => Ok(None),
        Ok(ServingEnd::Chore) => match renewed {
            Some(renewed) => Ok(Some(renewed)),
            // A chore is done only with a renewal, so this never comes. Of the faults this one says
            // what would be so: connections may be left that nobody accepts.
            None => Err(RoomFault::Accept),
        },
        Err(fault) => Err(fault),
    }
}

/// Serves connections over a ledger until days were due to be forgotten and a new ledger has
/// exactly what stays, which it gives; or until all connections were accepted and have ended, which
/// gives `None`. So many days are kept, 1 to 366, before the one that it goes by.
///
/// That is today from 03:00 on by the ledger's zone, and yesterday until then. Where no transaction
/// began on it yet, it is the newest day before it on which one did; and days after the next one
/// change nothing, but for a warning once a night. What was due before is forgotten at once, but
/// not the days before the same first one twice, whatever comes to them.
///
/// The new ledger takes over a few answers after each round over the connections. Where its store
/// fails, or `parts` finds too little room on the disk, that is logged, and an hour later it is
/// tried again. Once it has all, the connections that are open are closed; those that came
/// meanwhile wait at the listener.
pub fn pass_night<R, G: Log, W: Port, S: Alter, N: Alter + Drop, P: Parts<N> + Drop>(
    rt: &R,
    log: &G,
    alloc: Global,
    network: &mut W,
    times: Times,
    permits: Option<&Permits>,
    keep: u32,
    seen: Seen,
    parts: P,
    ledger: &mut WatchedLedger<'_, SqlLedger<S>, R, G>,
    connections: &mut Connections,
) -> Result<Option<RenewedLedger<N>>, RoomFault>
where
    R: Clock + Moments,
    // Of any ledger, sound or not.
    ensures lent { (ledger.new.zone ≡ ledger.old.zone) × (ledger.new.default ≡ ledger.old.default) }
    ensures kept { HasKept (state S.Store ledger.new.connection)
        → HasKept (state S.Store ledger.old.connection) }
    ensures over { result ≡ Ok None → connections.new ≡ Connections.Count 0 }

    // Of a sound one that has kept its premise: it gained what was served over these wires, and
    // which these peers may ask by the permits, and nothing else.
    ensures sound { HasKept (state S.Store ledger.new.connection)
        → IsSound ledger.old.zone ledger.old.default (state S.Store ledger.old.connection)
        → IsSound ledger.new.zone ledger.new.default (state S.Store ledger.new.connection) }
    ensures grown { HasKept (state S.Store ledger.new.connection)
        → IsSound ledger.old.zone ledger.old.default (state S.Store ledger.old.connection)
        → HasGrown (book_in ledger.old.zone ledger.old.default
        (state S.Store ledger.old.connection).now)
        (book_in ledger.new.zone ledger.new.default (state S.Store ledger.new.connection).now) }
    ensures serves { HasKept (state S.Store ledger.new.connection)
        → IsSound ledger.old.zone ledger.old.default (state S.Store ledger.old.connection)
        → EndsServing (callers permits.entry W.peers)
        (record {
          book = book_in ledger.old.zone ledger.old.default
              (state S.Store ledger.old.connection).now;
          told = None;
          wires = W.wire network.old;
        })
        (record {
          book = book_in ledger.new.zone ledger.new.default
              (state S.Store ledger.new.connection).now;
          told = None;
          wires = W.wire network.new;
        }) RoomFault.Store result }

    // What it forgets was due by then, at a moment that was shown.
    ensures due { HasKept (state S.Store ledger.new.connection)
        → IsSound ledger.old.zone ledger.old.default (state S.Store ledger.old.connection)
        → IfOk result (λ night. IfSome night (λ n. WasDue R.shows keep n.day
        (book_in ledger.old.zone ledger.old.default (state S.Store ledger.old.connection).now)
        (book_in ledger.new.zone ledger.new.default (state S.Store ledger.new.connection).now))) }

    // The new one has the terms of the old one, and exactly what is remembered of it; a crash
    // leaves the whole of it.
    ensures renewed_lent { HasKept (state S.Store ledger.new.connection)
        → IsSound ledger.old.zone ledger.old.default (state S.Store ledger.old.connection)
        → IfOk result (λ night. IfSome night (λ n. (n.ledger.zone ≡ ledger.old.zone)
        × (n.ledger.default ≡ ledger.old.default))) }
    ensures remembered { HasKept (state S.Store ledger.new.connection)
        → IsSound ledger.old.zone ledger.old.default (state S.Store ledger.old.connection)
        → IfOk result (λ night. IfSome night (λ n. P.is_fresh
        → HasKept (state N.Store n.ledger.connection)
        → IsRemembered ledger.old.zone ledger.old.default n.day
        (state S.Store ledger.new.connection).now
        (state N.Store n.ledger.connection))) }
    ensures crash { HasKept (state S.Store ledger.new.connection)
        → IsSound ledger.old.zone ledger.old.default (state S.Store ledger.old.connection)
        → IfOk result (λ night. IfSome night (λ n. P.is_fresh
        → HasCleanDisk (state N.Store n.ledger.connection)
        → (db : Trees) → (state N.Store n.ledger.connection).may_leave db
        → db ≡ (state N.Store n.ledger.connection).now.trees)) }
{
    let evening = Evening::new(rt, log, alloc, keep, seen, parts);
    let EndedEvening { ended, renewed } = serve_evening::<Brand, R, G, W, S, N, P>(
        rt,
        log,
        alloc,
        network,
        times,
        permits,
        evening,
        ledger,
        connections,
    );
    outcome_of(ended, renewed)
}
