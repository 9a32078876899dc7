//! `server` with `keep`: a ledger is served night after night, and days leave it meanwhile.
ghost use Rattle.std.specs.Prelude.{◌≡◌, ◌≢◌, IfErr, IfOk, IfSome, IsOk, IsSomeAnd, MatchResult};
ghost use Rattle.sqlite.specs.Held.{state};
ghost use Rattle.mq_process.specs.Settings.{AreInRange};
ghost use Rattle.mq_server.specs.Delivery.{HasGrown};
ghost use Rattle.mq_store.specs.Forgetting.{IsRemembered};
ghost use Rattle.mq_store.specs.Soundness.{book_in, HasKept, IsSound};
ghost use Rattle.mq_connections.specs.Asking.{out};
ghost use Rattle.mq_connections.specs.Gained.{callers};
ghost use Rattle.mq_connections.specs.declared.fault.RoomFault.TheVariants.{Store as store_failed};
ghost use Rattle.mq_nights.specs.Nights.{WasDue};
ghost use Rattle.mq_program.specs.Nights.{AreKept, HasDawned, HasPassed, IsAsBefore};
ghost use Rattle.mq_program.specs.Serving.{Serves};

use crate::caretaker::Caretaker;
use crate::elapsed_time::Elapsed;
use crate::fault::ProgramFault;
use crate::host::Databases;
use crate::last_night::{NightReport, last_night, last_report, note_night};
use crate::metrics::{MetricsWriter, set_night};
use crate::serving::{
    EndedServing, bind, counted, days_of, log_begin, log_end, log_ledger, outcome_of, times_of,
};
use crate::store::{ledger_of_settings, log_cause};
use crate::switching::{Names, NoSwitch, PartStore, begin_switch, discard_part, make_part, switch};
use log::{Log, info};
use mq_connections::laws::nothing_is_served;
use mq_connections::{Connections, Port};
use mq_ledger::{Ledger, LedgerFault, Zone};
use mq_metrics::ServerMetrics;
use mq_nights::{Look, Moments, NoPart, Parts, RenewedLedger, Seen, pass_night};
use mq_permits::Permits;
use mq_process::elapsed;
use mq_settings::ServerSettings;
use mq_store::SqlLedger;
use mq_watch::{LedgerDays, WatchedLedger, millis_of};
use sqlite::{Alter, Connection, Unknown};
use std::alloc::AllocError;
use std::rt::{Clock, Files};
use std::time::Instant;

/// A ledger with the log of what comes to it.
type Serving<'a, S, R, G> = WatchedLedger<'a, SqlLedger<S>, R, G>;

/// What all nights of a server have in common.
#[derive(Drop)]
struct Nights<'a, R, G> {
    rt: &'a R,
    log: &'a G,
    /// What counts what is served, where figures are wanted.
    figures: Option<&'a ServerMetrics>,
    settings: &'a ServerSettings,
    /// Who may ask what.
    permits: Option<&'a Permits>,
    /// How many days before today are kept.
    keep: u32,
    /// The ledger's path.
    path: &'a str,
    /// How many connections are served in all.
    connections: Connections,
}

/// Lets ledgers that renewals made take the place of former ones, to which there are connections
/// `C`.
trait Switch<C> {
    ghost use Rattle.std.specs.Prelude.{◌≡◌, List, Option, None, ⊤, IfErr, OnOk};
    ghost use Rattle.mq_program.specs.Nights.{Closes};
    ghost use Rattle.mq_program.specs.declared.fault.ProgramFault.TheVariants.{Store};

    /// The connections that it has closed, where it can tell: of a file that is closed nothing is
    /// known any more.
    ghost closed: { Self → Option (List C) } = { λ _. None };

    /// A switch has begun, which took no place yet.
    ghost has_begun: { Self → Type 0 } = { λ _. ⊤ };

    /// Gives the former ledger's file its other name. Why it stays as it was is logged.
    fn begin(&mut self) -> Result<(), NoSwitch>
        ensures same { closed self.new ≡ closed self.old }
        ensures begun { OnOk result (has_begun self.new) };

    /// Removes the new ledger's file, which takes no place: its connection is gone.
    fn stay(&mut self)
        ensures { closed self.new ≡ closed self.old };

    /// Closes the former ledger's file, which has its other name, gives that of it to the new one,
    /// and logs and notes which days were forgotten. The switch has begun. `zone` is the ledger's.
    fn take_place(&mut self, former: C, zone: Zone, night: NightNote) -> Result<(), ProgramFault>
        requires { has_begun self.old }
        ensures closes { Closes (closed self.old) former (closed self.new) }
        ensures fault { IfErr result (λ fault. fault ≡ Store) };
}

/// The ledger's file, and those beside it that renewals fill.
struct NightFiles<'a, R, G> {
    rt: &'a R,
    log: &'a G,
    names: &'a Names,
    caretaker: Caretaker<'a, R, G>,
}

impl<R, G> Clone for NightFiles<'_, R, G> {
    fn clone(&self) -> Result<Self, AllocError> {
        Ok(*self)
    }
}

impl<R, G> Copy for NightFiles<'_, R, G> {}

impl<R: Databases + Clock, G: Log> Parts<PartStore> for NightFiles<'_, R, G> {
    fn part(&mut self) -> Result<Connection<PartStore>, NoPart> {
        match make_part(self.rt, self.log, self.names) {
            Ok(connection) => Ok(connection),
            Err(_) => {
                // (what was made of it takes room that requests may need)
                self.discard();
                Err(NoPart)
            }
        }
    }

    fn discard(&mut self) {
        // (what is removed gives room back)
        let want = self.caretaker.want_of_room();
        discard_part(self.rt, self.log, self.names);
        if let Some(lack) = want {
            self.caretaker.let_former_go(&lack);
        }
    }

    fn look(&mut self, renews: bool) -> Look {
        let look = self.caretaker.look(renews);
        self.caretaker.metrics.look();
        look
    }
}

impl<R, G: Log> Switch<Connection<PartStore>> for NightFiles<'_, R, G>
where
    R: Files + Clock + AllocGlobal,
{
    fn begin(&mut self) -> Result<(), NoSwitch> {
        begin_switch(self.rt, self.log, self.names)
    }

    fn stay(&mut self) {
        discard_part(self.rt, self.log, self.names);
    }

    fn take_place(
        &mut self,
        former: Connection<PartStore>,
        zone: Zone,
        night: NightNote,
    ) -> Result<(), ProgramFault> {
        let day = night.day;
        let since = Instant::now(self.rt).ok();
        switch(self.rt, self.log, self.names, former)?;
        let ledger = self.names.ledger.as_str();
        let took = Elapsed(elapsed(self.rt, night.began));
        let switched = Elapsed(elapsed(self.rt, since));
        info!(
            self.log;
            "ledger {ledger}: the days before {day} are forgotten, in {took}, the last {switched} without an answer"
        );
        let report = NightReport {
            day,
            took,
            over: millis_of(self.rt),
            answers: night.answers,
        };
        note_night(self.rt, self.log, ledger, zone, &report);
        self.caretaker.metrics.note_night(&report);
        Ok(())
    }
}

/// What is noted of a night.
#[derive(Clone, Copy)]
struct NightNote {
    /// The first day that the new ledger has.
    day: u32,
    /// When the renewal began.
    began: Option<Instant>,
    /// How many answers the new ledger has, where they could be counted.
    answers: Option<u64>,
}

/// A ledger that a renewal made.
#[derive(Drop)]
struct Dawn<'a, N: Alter, R, G> {
    serving: Serving<'a, N, R, G>,
    note: NightNote,
    /// What was seen to.
    seen: Seen,
}

/// A night that is over: the ledger that it began with, and the one that is served from then on, if
/// there is one.
#[derive(Drop)]
struct PassedNight<'a, S: Alter, N: Alter, R, G> {
    ledger: SqlLedger<S>,
    outcome: Result<Option<Dawn<'a, N, R, G>>, ProgramFault>,
}

/// How many answers a ledger has that a renewal made, where they can be counted.
fn count_kept<S: Alter>(ledger: &mut SqlLedger<S>) -> Option<u64>
    ensures lent { (ledger.new.zone ≡ ledger.old.zone) × (ledger.new.default ≡ ledger.old.default) }
    ensures same { IsAsBefore ledger.old.zone ledger.old.default
        (state S.Store ledger.old.connection) (state S.Store ledger.new.connection) }
{
    ledger.count_answers().ok()
}

/// The end of a night without a fault: a renewed ledger is served from then on, by who served the
/// former one.
fn end_night<'a, R: Clock, G: Log, S: Alter + Drop, N: Alter + Drop>(
    nights: &Nights<'a, R, G>,
    serving: Serving<'a, S, R, G>,
    night: Option<RenewedLedger<N>>,
) -> PassedNight<'a, S, N, R, G>
    ensures former { result.ledger ≡ serving.entry }
    ensures good { IsOk result.outcome }
    ensures next { IfOk result.outcome (λ dawn. IfSome dawn (λ d.
        IsSomeAnd night (λ n. (d.serving.zone ≡ n.ledger.zone)
        × (d.serving.default ≡ n.ledger.default)
        × IsAsBefore n.ledger.zone n.ledger.default (state N.Store n.ledger.connection)
        (state N.Store d.serving.connection)
        × (d.note.day ≡ n.day)))) }
{
    match night {
        Some(renewed) => {
            let RenewedLedger {
                ledger,
                day,
                began,
                seen,
            } = renewed;
            let mut kept = ledger;
            let answers = count_kept(&mut kept);
            let (ledger, serving) = serving.take_over(kept);
            let note = NightNote {
                day,
                began,
                answers,
            };
            let dawn = Dawn {
                serving,
                note,
                seen,
            };
            PassedNight {
                ledger,
                outcome: Ok(Some(dawn)),
            }
        }
        None => {
            log_end(nights.log, nights.connections);
            PassedNight {
                ledger: serving.into_inner(),
                outcome: Ok(None),
            }
        }
    }
}

/// Serves a ledger until a renewal of it is through, or the serving is over. It goes over any
/// stores, since a proof over the file's own takes far longer.
fn pass<'a, R, G: Log, W: Port, S: Alter + Drop, N: Alter + Drop, P: Parts<N> + Drop>(
    nights: &Nights<'a, R, G>,
    network: &mut W,
    seen: Seen,
    parts: P,
    serving: Serving<'a, S, R, G>,
    left: &mut Connections,
) -> PassedNight<'a, S, N, R, G>
where
    R: Clock + Moments + AllocGlobal,
    ensures lent { (result.ledger.zone ≡ serving.entry.zone)
        × (result.ledger.default ≡ serving.entry.default) }
    ensures kept { HasKept (state S.Store result.ledger.connection)
        → HasKept (state S.Store serving.entry.connection) }

    // The ledger gained what was served over these wires, and which these peers may ask by the
    // permits, and nothing else.
    ensures sound { HasKept (state S.Store result.ledger.connection)
        → IsSound serving.entry.zone serving.entry.default (state S.Store serving.entry.connection)
        → IsSound result.ledger.zone result.ledger.default
        (state S.Store result.ledger.connection) }
    ensures grown { HasKept (state S.Store result.ledger.connection)
        → IsSound serving.entry.zone serving.entry.default (state S.Store serving.entry.connection)
        → HasGrown (book_in serving.entry.zone serving.entry.default
        (state S.Store serving.entry.connection).now)
        (book_in result.ledger.zone result.ledger.default
        (state S.Store result.ledger.connection).now) }
    ensures serves { HasKept (state S.Store result.ledger.connection)
        → IsSound serving.entry.zone serving.entry.default (state S.Store serving.entry.connection)
        → Serves (callers nights.now.permits W.peers)
        (out (book_in serving.entry.zone serving.entry.default
        (state S.Store serving.entry.connection).now) (W.wire network.old))
        (out (book_in result.ledger.zone result.ledger.default
        (state S.Store result.ledger.connection).now) (W.wire network.new)) result.outcome }

    // What the next one has forgotten was due meanwhile, at a moment that was shown.
    ensures due { HasKept (state S.Store result.ledger.connection)
        → IsSound serving.entry.zone serving.entry.default (state S.Store serving.entry.connection)
        → IfOk result.outcome (λ dawn. IfSome dawn (λ d. WasDue R.shows nights.now.keep d.note.day
        (book_in serving.entry.zone serving.entry.default
        (state S.Store serving.entry.connection).now)
        (book_in result.ledger.zone result.ledger.default
        (state S.Store result.ledger.connection).now))) }

    // The next one has exactly what is remembered of it.
    ensures next_lent { HasKept (state S.Store result.ledger.connection)
        → IsSound serving.entry.zone serving.entry.default (state S.Store serving.entry.connection)
        → IfOk result.outcome (λ dawn. IfSome dawn (λ d. (d.serving.zone ≡ serving.entry.zone)
        × (d.serving.default ≡ serving.entry.default))) }
    ensures remembered { HasKept (state S.Store result.ledger.connection)
        → IsSound serving.entry.zone serving.entry.default (state S.Store serving.entry.connection)
        → IfOk result.outcome (λ dawn. IfSome dawn (λ d. P.is_fresh
        → HasKept (state N.Store d.serving.connection)
        → IsRemembered serving.entry.zone serving.entry.default d.note.day
        (state S.Store result.ledger.connection).now
        (state N.Store d.serving.connection))) }
{
    let mut serving = serving;
    let (rt, log) = (nights.rt, nights.log);
    let times = times_of(nights.settings);
    match pass_night(
        rt,
        log,
        rt.alloc(),
        network,
        times,
        nights.permits,
        nights.keep,
        seen,
        parts,
        &mut serving,
        left,
    ) {
        Ok(night) => end_night(nights, serving, night),
        Err(fault) => {
            let ledger = serving.into_inner();
            log_cause(log, nights.path, &ledger);
            PassedNight {
                ledger,
                outcome: Err(ProgramFault::Serve(fault)),
            }
        }
    }
}

/// The former ledger is served on, in place of the one that a renewal made, whose store is closed.
/// The night has nothing left to do.
fn stay_with<'a, R: Clock, G: Log, N: Alter + Drop>(
    dawn: Dawn<'a, N, R, G>,
    former: SqlLedger<N>,
) -> Dawn<'a, N, R, G>
    ensures serving { result.serving ≡ former }
    ensures seen { result.seen ≡ dawn.entry.seen }
{
    let Dawn {
        serving,
        note,
        seen,
    } = dawn;
    let (_renewed, serving) = serving.take_over(former);
    Dawn {
        serving,
        note,
        seen,
    }
}

/// Serves a ledger until a renewal of it is through, and the new one has taken its place, or can't
/// be given it. Where the server ends before, it gives the ledger that was served last.
fn serve_to_dawn<'a, R, G: Log, W: Port, N: Alter + Drop, F>(
    nights: &Nights<'a, R, G>,
    network: &mut W,
    seen: Seen,
    files: &mut F,
    serving: Serving<'a, N, R, G>,
    left: &mut Connections,
) -> Result<Dawn<'a, N, R, G>, EndedServing<N>>
where
    R: Clock + Moments + AllocGlobal,
    F: Parts<N> + Switch<Connection<N>> + Copy + Drop,
    ensures closed { AreKept (λ c. HasKept (state N.Store c)) (F.closed files.new)
        → AreKept (λ c. HasKept (state N.Store c)) (F.closed files.old) }
    ensures kept { AreKept (λ c. HasKept (state N.Store c)) (F.closed files.new)
        → MatchResult result (λ d. HasKept (state N.Store d.serving.connection))
        (λ s. HasKept (state N.Store s.ledger.connection))
        → HasKept (state N.Store serving.entry.connection) }
    ensures dawn { AreKept (λ c. HasKept (state N.Store c)) (F.closed files.new) → F.is_fresh
        → IsSound serving.entry.zone serving.entry.default (state N.Store serving.entry.connection)
        → IfOk result (λ d. HasKept (state N.Store d.serving.connection)
        → (d.serving.zone ≡ serving.entry.zone) × (d.serving.default ≡ serving.entry.default)
        × HasDawned (callers nights.now.permits W.peers) R.shows nights.now.keep
        serving.entry.zone serving.entry.default
        (out (book_in serving.entry.zone serving.entry.default
        (state N.Store serving.entry.connection).now) (W.wire network.old))
        (state N.Store d.serving.connection) (W.wire network.new)) }
    ensures end { AreKept (λ c. HasKept (state N.Store c)) (F.closed files.new) → F.is_fresh
        → IsSound serving.entry.zone serving.entry.default (state N.Store serving.entry.connection)
        → IfErr result (λ s. HasKept (state N.Store s.ledger.connection)
        → HasPassed (callers nights.now.permits W.peers) R.shows nights.now.keep
        serving.entry.zone serving.entry.default
        (out (book_in serving.entry.zone serving.entry.default
        (state N.Store serving.entry.connection).now) (W.wire network.old))
        (state N.Store s.ledger.connection) (W.wire network.new) s.outcome) }
{
    nothing_is_served();
    let PassedNight { ledger, outcome } = pass(nights, network, seen, *files, serving, left);
    match outcome {
        Ok(Some(dawn)) => {
            if files.begin().is_err() {
                let dawn = stay_with(dawn, ledger);
                files.stay();
                return Ok(dawn);
            }
            let zone = *ledger.zone();
            match files.take_place(ledger.into_connection(), zone, dawn.note) {
                Ok(()) => Ok(dawn),
                Err(fault) => Err(EndedServing {
                    ledger: dawn.serving.into_inner(),
                    outcome: Err(fault),
                }),
            }
        }
        Ok(None) => Err(EndedServing {
            ledger,
            outcome: Ok(0),
        }),
        Err(fault) => Err(EndedServing {
            ledger,
            outcome: Err(fault),
        }),
    }
}

/// Serves a ledger, and each that a renewal makes of the one before.
fn pass_nights<R, G: Log, W: Port, N: Alter + Drop, F>(
    nights: &Nights<'_, R, G>,
    network: &mut W,
    files: &mut F,
    ledger: SqlLedger<N>,
    days: Option<LedgerDays>,
) -> EndedServing<N>
where
    R: Clock + Moments + AllocGlobal,
    F: Parts<N> + Switch<Connection<N>> + Copy + Drop,
    ensures kept { AreKept (λ c. HasKept (state N.Store c)) (F.closed files.new)
        → HasKept (state N.Store result.ledger.connection)
        → HasKept (state N.Store ledger.connection) }

    // Where each ledger that was closed had kept its premise, and so has the last one: night after
    // night connections were served over these wires, and what isn't remembered was forgotten, once
    // it was due, or nothing was, and nothing else came to what the ledger means.
    ensures nights { AreKept (λ c. HasKept (state N.Store c)) (F.closed files.new) → F.is_fresh
        → IsSound ledger.zone ledger.default (state N.Store ledger.connection)
        → HasKept (state N.Store result.ledger.connection)
        → HasPassed (callers nights.now.permits W.peers) R.shows nights.now.keep
        ledger.zone ledger.default
        (out (book_in ledger.zone ledger.default (state N.Store ledger.connection).now)
        (W.wire network.old))
        (state N.Store result.ledger.connection) (W.wire network.new) result.outcome }
{
    nothing_is_served();
    let rt = nights.rt;
    let mut left = nights.connections;
    let mut serving = WatchedLedger::new(rt, nights.log, rt.alloc(), ledger, days);
    serving = counted(serving, nights.figures);
    let mut seen = Seen::nothing();
    // (there are fewer nights than that)
    for _night in 0..u64::MAX {
        match serve_to_dawn(nights, network, seen, files, serving, &mut left) {
            Ok(dawn) => {
                seen = dawn.seen;
                serving = dawn.serving;
            }
            Err(served) => return served,
        }
    }
    EndedServing {
        ledger: serving.into_inner(),
        outcome: Ok(0),
    }
}

/// Logs from which day on a ledger has reserves, and how many before today are kept. It gives the
/// days on which something was reserved.
fn log_keep<G: Log, S: Alter>(
    log: &G,
    path: &str,
    ledger: &mut SqlLedger<S>,
    keep: u32,
) -> Result<Option<LedgerDays>, LedgerFault>
    ensures lent { (ledger.new.zone ≡ ledger.old.zone) × (ledger.new.default ≡ ledger.old.default) }
    ensures kept { HasKept (state S.Store ledger.new.connection)
        → HasKept (state S.Store ledger.old.connection) }
    ensures sound { HasKept (state S.Store ledger.new.connection)
        → IsSound ledger.old.zone ledger.old.default (state S.Store ledger.old.connection)
        → IsSound ledger.new.zone ledger.new.default (state S.Store ledger.new.connection) }
    ensures same { HasKept (state S.Store ledger.new.connection)
        → (state S.Store ledger.new.connection).now ≡ (state S.Store ledger.old.connection).now }
{
    let days = days_of(ledger)?;
    match days {
        Some(days) => {
            let oldest = days.oldest;
            info!(log; "ledger {path}: has days from {oldest} on, keeps {keep} before today");
        }
        None => info!(log; "ledger {path}: keeps {keep} days before today"),
    }
    Ok(days)
}

/// Logs what a ledger holds as a server begins with it, and what is kept of it. It gives the days
/// on which something was reserved.
fn log_start<R, G: Log, S: Alter>(
    nights: &Nights<'_, R, G>,
    ledger: &mut SqlLedger<S>,
    took: Elapsed,
) -> Result<Option<LedgerDays>, LedgerFault>
    ensures lent { (ledger.new.zone ≡ ledger.old.zone) × (ledger.new.default ≡ ledger.old.default) }
    ensures kept { HasKept (state S.Store ledger.new.connection)
        → HasKept (state S.Store ledger.old.connection) }
    ensures sound { HasKept (state S.Store ledger.new.connection)
        → IsSound ledger.old.zone ledger.old.default (state S.Store ledger.old.connection)
        → IsSound ledger.new.zone ledger.new.default (state S.Store ledger.new.connection) }
    ensures same { HasKept (state S.Store ledger.new.connection)
        → (state S.Store ledger.new.connection).now ≡ (state S.Store ledger.old.connection).now }
{
    log_ledger(nights.log, nights.figures, nights.settings, ledger, took)?;
    log_keep(nights.log, nights.path, ledger, nights.keep)
}

/// Tells the log and the figures what the last night did, where that is noted.
fn tell_last_night<R: Files + AllocGlobal, G: Log>(nights: &Nights<'_, R, G>) {
    let path = nights.path;
    if let Some(night) = last_night(nights.rt, path) {
        info!(nights.log; "ledger {path}: {night}");
    }
    if let (Some(figures), Some(night)) = (nights.figures, last_report(nights.rt, path)) {
        set_night(&figures.night, &night);
    }
}

/// Logs the start over a ledger, with what its last night did, and listens at the address of the
/// settings. It gives the days on which something was reserved.
fn prepare<R, G: Log, W: Port, S: Alter>(
    nights: &Nights<'_, R, G>,
    network: &mut W,
    ledger: &mut SqlLedger<S>,
    took: Elapsed,
) -> Result<Option<LedgerDays>, ProgramFault>
where
    R: Files + AllocGlobal,
    ensures wires { W.wire network.new ≡ W.wire network.old }
    ensures fault { IfErr result (λ fault. fault ≢ ProgramFault.Serve store_failed) }
    ensures lent { (ledger.new.zone ≡ ledger.old.zone) × (ledger.new.default ≡ ledger.old.default) }
    ensures kept { HasKept (state S.Store ledger.new.connection)
        → HasKept (state S.Store ledger.old.connection) }
    ensures sound { HasKept (state S.Store ledger.new.connection)
        → IsSound ledger.old.zone ledger.old.default (state S.Store ledger.old.connection)
        → IsSound ledger.new.zone ledger.new.default (state S.Store ledger.new.connection) }
    ensures same { HasKept (state S.Store ledger.new.connection)
        → (state S.Store ledger.new.connection).now ≡ (state S.Store ledger.old.connection).now }
{
    let (log, path) = (nights.log, nights.path);
    let days = match log_start(nights, ledger, took) {
        Ok(days) => days,
        Err(fault) => {
            log_cause(log, path, ledger);
            return Err(ProgramFault::Audit(fault));
        }
    };
    tell_last_night(nights);
    bind(log, network, nights.settings.listen)?;
    Ok(days)
}

/// Serves a ledger, and each that a renewal makes of it. The start, the end and what prevents it
/// are logged. It goes over any store, as all above does: each way out of a function that owns a
/// ledger over the file's own store takes long to prove.
fn begin_nights<R, G: Log, W: Port, N: Alter + Drop, F>(
    nights: &Nights<'_, R, G>,
    network: &mut W,
    files: &mut F,
    ledger: SqlLedger<N>,
    took: Elapsed,
) -> EndedServing<N>
where
    R: Files + Clock + Moments + AllocGlobal,
    F: Parts<N> + Switch<Connection<N>> + Copy + Drop,
    ensures { AreKept (λ c. HasKept (state N.Store c)) (F.closed files.new) → F.is_fresh
        → IsSound ledger.zone ledger.default (state N.Store ledger.connection)
        → HasKept (state N.Store result.ledger.connection)
        → HasPassed (callers nights.now.permits W.peers) R.shows nights.now.keep
        ledger.zone ledger.default
        (out (book_in ledger.zone ledger.default (state N.Store ledger.connection).now)
        (W.wire network.old))
        (state N.Store result.ledger.connection) (W.wire network.new) result.outcome }
{
    nothing_is_served();
    let mut ledger = ledger;
    match prepare(nights, network, &mut ledger, took) {
        Ok(days) => {
            log_begin(nights.log, nights.settings.listen, nights.connections);
            pass_nights(nights, network, files, ledger, days)
        }
        Err(fault) => EndedServing {
            ledger,
            outcome: Err(fault),
        },
    }
}

/// How serving a ledger in a file ended, and each that a renewal made of it. It goes over any files
/// of nights, and says no more: a proof over these, and what [`begin_nights`] says, takes far longer.
fn serve_nights<R, G: Log, W: Port, F>(
    nights: &Nights<'_, R, G>,
    network: &mut W,
    files: &mut F,
    ledger: SqlLedger<PartStore>,
    took: Elapsed,
) -> Result<u8, ProgramFault>
where
    R: Files + Clock + AllocGlobal,
    F: Parts<PartStore> + Switch<Connection<PartStore>> + Copy + Drop,
{
    outcome_of(begin_nights(nights, network, files, ledger, took))
}

/// Serves so many connections over the ledger in the file of the settings, with `create` over a new
/// one. Meanwhile days leave it, but today and so many before. The permits say who may ask what.
pub fn listen_by_night<R, G: Log, W: Port>(
    rt: &R,
    log: &G,
    metrics: &MetricsWriter<'_, R, G>,
    network: &mut W,
    settings: &ServerSettings,
    permits: Option<&Permits>,
    names: &Names,
    keep: u32,
    create: bool,
    connections: Connections,
) -> Result<u8, ProgramFault>
where
    R: Databases + Clock,
    requires { AreInRange settings.now }
{
    let since = Instant::now(rt).ok();
    let nights = Nights {
        rt,
        log,
        figures: metrics.counted(),
        settings,
        permits,
        keep,
        path: names.ledger.as_str(),
        connections,
    };
    let mut files = NightFiles {
        rt,
        log,
        names,
        caretaker: Caretaker::new(rt, log, names, metrics, true),
    };
    // (the files of nights have one type, and of one that a renewal makes nothing is known before)
    let ledger = ledger_of_settings(rt, log, settings, create, Unknown)?;
    let took = Elapsed(elapsed(rt, since));
    serve_nights(&nights, network, &mut files, ledger, took)
}
