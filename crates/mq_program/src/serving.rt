//! `server`: serves a ledger to filters.
ghost use Rattle.std.specs.Prelude.{◌≡◌, ◌*◌, [], false, IfErr, IfOk, IsTrue};
ghost use Rattle.std.specs.Duration.{as_nanos};
ghost use Rattle.sqlite.specs.Files.{file_state};
ghost use Rattle.sqlite.specs.Held.{state};
ghost use Rattle.sqlite.specs.Steps.{over_memory};
ghost use Rattle.sqlite.specs.WalFiles.{image_at};
ghost use Rattle.mq_server.specs.Delivery.{HasGrown};
ghost use Rattle.mq_store.specs.Soundness.{book_in, HasKept, IsSound};
ghost use Rattle.mq_store.specs.Taking.{book_of};
ghost use Rattle.mq_program.specs.AfterForgetting.{ServesRemembered};
ghost use Rattle.mq_program.specs.Serving.{connections_of, HasServed, Serves};
ghost use Rattle.mq_program.specs.Opened.{ServesFrom, ServesFromNothing};
ghost use Rattle.mq_connections.specs.declared.fault.RoomFault.TheVariants.{Store as store_failed};
ghost use Rattle.mq_connections.specs.Asking.{out};
ghost use Rattle.mq_connections.specs.Gained.{callers};
ghost use Rattle.mq_connections.specs.Sessions.{EndsServing};
ghost use Rattle.mq_program.specs.declared.fault.ProgramFault.TheVariants.{Serve};
ghost use Rattle.mq_process.specs.Settings.{AreInRange};

use crate::caretaker::Caretaker;
use crate::elapsed_time::Elapsed;
use crate::fault::ProgramFault;
use crate::host::Databases;
use crate::memory::warn_of_memory;
use crate::metrics::{MetricsChore, MetricsWriter, figures_of};
use crate::nights::listen_by_night;
use crate::permits::permits_of_settings;
use crate::refusal::days_by;
use crate::room::prepare_room;
use crate::store::{ledger_of_settings, log_cause, memory_ledger};
use crate::switching::Names;
use log::{Log, Logged, error, info, warn};
use mq_chore::Chore;
use mq_connections::laws::nothing_is_served;
use mq_connections::{Connections, Port, Sockets, Times, serve_connections};
use mq_forget::laws::late_requests_touch_no_later_day;
use mq_ledger::laws::{built_is_legal, one_more_arrival};
use mq_ledger::{Ledger, LedgerFault};
use mq_metrics::{CountedLog, ServerMetrics};
use mq_permits::Permits;
use mq_process::{ConnectionsArgument, Console, ServerArguments, elapsed, server_settings};
use mq_rows::VERSION;
use mq_settings::{Place, ServerSettings};
use mq_store::SqlLedger;
use mq_watch::{Hear, InnerChore, LedgerDays, WatchedLedger};
use sqlite::{Alter, FileFrom, FileStore, MemStore, Start};
use std::alloc::Global;
use std::fmt;
use std::fs::File;
use std::net::{Net, SocketAddr, TcpListener, TcpStream};
use std::rt::{Clock, Files};
use std::time::{Duration, Instant};

/// Serves so many connections: the settings first, then the ledger, then the port. `start` stands
/// for what the ledger's file and its log hold before the call.
/// `version` is the program's.
pub fn server<R, S: Start>(
    rt: &R,
    given: ServerArguments<'_>,
    version: &str,
    start: S,
) -> Result<u8, ProgramFault>
where
    R: Databases + Clock + Eprint + Net<Listener = TcpListener, Stream = TcpStream>,
{
    let settings = server_settings(rt, given.config)?;
    serve(
        rt,
        &settings,
        version,
        given.create,
        connections_of(given.connections),
        start,
    )
}

/// The connections that the words ask for.
fn connections_of(asked: ConnectionsArgument) -> Connections
    ensures { result ≡ connections_of asked }
{
    match asked {
        ConnectionsArgument::Count(count) => Connections::Count(count),
        ConnectionsArgument::Endless => Connections::Endless,
    }
}

/// How many connections are served, as the log says it.
#[derive(Clone, Copy)]
struct Crowd(Connections);

impl fmt::Display for Crowd {
    fn fmt<W: fmt::Write>(&self, f: &mut fmt::Formatter<W>) -> fmt::Result {
        match self.0 {
            Connections::Count(count) => write!(f, "{count} connections"),
            Connections::Endless => f.write_str("any number of connections"),
        }
    }
}

/// Logs where a server listens, and how many connections it serves.
pub fn log_begin<G: Log>(log: &G, address: SocketAddr, connections: Connections) {
    let crowd = Crowd(connections);
    info!(log; "listening on {address} for {crowd}");
}

/// Logs that a server has served so many connections.
pub fn log_end<G: Log>(log: &G, connections: Connections) {
    let crowd = Crowd(connections);
    info!(log; "ending after {crowd}");
}

/// Serves so many connections by these settings.
fn serve<'a, R, S: Start>(
    rt: &'a R,
    settings: &'a ServerSettings,
    version: &str,
    create: bool,
    connections: Connections,
    start: S,
) -> Result<u8, ProgramFault>
where
    R: Databases + Clock + Eprint + Net<Listener = TcpListener, Stream = TcpStream>,
    requires { AreInRange settings.now }
{
    let logged = Logged::new(rt, settings.log, Console(rt));
    let figures = figures_of(rt, settings, version)?;
    let log = CountedLog::new(&logged, &figures.warnings);
    let metrics = MetricsWriter::new(rt, &log, &figures, settings)?;
    let permits = permits_of_settings(rt, &log, settings)?;
    let mut sockets = Sockets::new(rt, &log, rt.alloc());
    if let Some(figures) = metrics.counted() {
        sockets.count_in(figures);
    }
    let ended = serve_permitted(
        rt,
        &log,
        &metrics,
        &mut sockets,
        settings,
        permits.as_ref(),
        create,
        connections,
        start,
    );
    metrics.write();
    ended
}

/// Serves so many connections of a network by these settings, to whom these permits allow it.
fn serve_permitted<R, G: Log, W: Port, S: Start>(
    rt: &R,
    log: &G,
    metrics: &MetricsWriter<'_, R, G>,
    network: &mut W,
    settings: &ServerSettings,
    permits: Option<&Permits>,
    create: bool,
    connections: Connections,
    start: S,
) -> Result<u8, ProgramFault>
where
    R: Databases + Clock,
    requires { AreInRange settings.now }
{
    match &settings.store {
        Place::Memory => {
            if settings.keep.is_some() {
                warn!(log; "a ledger in memory forgets nothing, whatever `keep` says");
            }
            outcome_of(listen_in_memory(rt, log, metrics, network, settings, permits, connections)?)
        }
        Place::File(path) => {
            warn_of_memory(rt, log, path.as_str());
            let names = Names::new(rt.alloc(), path.as_str())?;
            prepare_room(rt, log, &names, settings.keep.is_some(), create)?;
            if let Some(keep) = settings.keep {
                return listen_by_night(
                    rt,
                    log,
                    metrics,
                    network,
                    settings,
                    permits,
                    &names,
                    keep,
                    create,
                    connections,
                );
            }
            let served = listen_over_file(
                rt,
                log,
                metrics,
                network,
                settings,
                permits,
                &names,
                create,
                connections,
                start,
            )?;
            outcome_of(served)
        }
    }
}

/// A server that has ended: its ledger, and how it ended.
#[derive(Drop)]
pub struct EndedServing<S: Alter> {
    pub ledger: SqlLedger<S>,
    pub outcome: Result<u8, ProgramFault>,
}

/// How a server ended, whose ledger is let go. It goes over any store, since a proof that lets a
/// ledger go over the file's own takes far longer.
pub fn outcome_of<S: Alter + Drop>(served: EndedServing<S>) -> Result<u8, ProgramFault>
    ensures { result ≡ served.outcome }
{
    let EndedServing { ledger: _, outcome } = served;
    outcome
}

/// Serves so many connections over a new ledger in memory.
fn listen_in_memory<R, G: Log, W: Port>(
    rt: &R,
    log: &G,
    metrics: &MetricsWriter<'_, R, G>,
    network: &mut W,
    settings: &ServerSettings,
    permits: Option<&Permits>,
    connections: Connections,
) -> Result<EndedServing<MemStore>, ProgramFault>
where
    R: Files<File = File> + Clock + AllocGlobal,
    requires { AreInRange settings.now }

    // It begins with no history, and gains what is served over these wires, and which these peers
    // may ask by the permits, and nothing else.
    ensures { IfOk result (λ served. HasServed (callers permits.entry W.peers)
        settings.now.zone settings.now.default
        (out (book_of settings.now.zone settings.now.default []) (W.wire network.old))
        (state over_memory served.ledger.connection) (W.wire network.new)
        served.outcome) }
{
    let since = Instant::now(rt).ok();
    let ledger = memory_ledger(rt.alloc(), settings.zone, settings.default)?;
    let took = Elapsed(elapsed(rt, since));
    Ok(listen_over(
        rt,
        log,
        metrics.counted(),
        network,
        settings,
        permits,
        ledger,
        took,
        MetricsChore { metrics },
        connections,
    ))
}

/// Serves so many connections over the ledger in the file of the settings; with `create` over a new
/// one.
fn listen_over_file<R, G: Log, W: Port, S: Start>(
    rt: &R,
    log: &G,
    metrics: &MetricsWriter<'_, R, G>,
    network: &mut W,
    settings: &ServerSettings,
    permits: Option<&Permits>,
    names: &Names,
    create: bool,
    connections: Connections,
    start: S,
) -> Result<EndedServing<FileStore<FileFrom<S>>>, ProgramFault>
where
    R: Databases + Clock,
    requires { AreInRange settings.now }

    // A server begins with the history whose rows the files hold, and gains what is served over
    // these wires, and which these peers may ask by the permits, and nothing else; so does one that
    // makes its ledger, with no history.
    ensures begun { create ≡ false → IfOk result (λ served. HasKept
        (file_state served.ledger.connection)
        → ServesFrom (callers permits.entry W.peers)
        settings.now.zone settings.now.default (image_at S.Start)
        (W.wire network.old) (file_state served.ledger.connection) (W.wire network.new)
        served.outcome) }
    ensures made { IsTrue create → IfOk result (λ served. HasKept
        (file_state served.ledger.connection)
        → ServesFromNothing (callers permits.entry W.peers)
        settings.now.zone settings.now.default (image_at S.Start)
        (W.wire network.old) (file_state served.ledger.connection) (W.wire network.new)
        served.outcome) }

    // Over what a forgetting left, and what came since, who asks about the kept days under no
    // forgotten number is answered as if nothing had been forgotten, as long as what came is about
    // kept days, or late.
    ensures remembered { create ≡ false → IfOk result (λ served. HasKept
        (file_state served.ledger.connection)
        → ServesRemembered (callers permits.entry W.peers)
        settings.now.zone settings.now.default (image_at S.Start)
        (W.wire network.old) (file_state served.ledger.connection) (W.wire network.new)
        served.outcome) }
{
    late_requests_touch_no_later_day();
    one_more_arrival();
    built_is_legal();
    let since = Instant::now(rt).ok();
    let ledger = ledger_of_settings(rt, log, settings, create, start)?;
    let took = Elapsed(elapsed(rt, since));
    Ok(listen_and_tend(
        rt,
        log,
        metrics,
        network,
        settings,
        permits,
        names,
        ledger,
        took,
        connections,
    ))
}

/// Serves so many connections over a ledger, and looks after its files meanwhile. It goes over any
/// store, since a proof over the file's own takes far longer.
fn listen_and_tend<R, G: Log, W: Port, S: Alter + Drop>(
    rt: &R,
    log: &G,
    metrics: &MetricsWriter<'_, R, G>,
    network: &mut W,
    settings: &ServerSettings,
    permits: Option<&Permits>,
    names: &Names,
    ledger: SqlLedger<S>,
    took: Elapsed,
    connections: Connections,
) -> EndedServing<S>
where
    R: Files<File = File> + Clock + AllocGlobal,
    ensures same { (result.ledger.zone ≡ ledger.zone) × (result.ledger.default ≡ ledger.default) }
    ensures kept { HasKept (state S.Store result.ledger.connection)
        → HasKept (state S.Store ledger.connection) }
    ensures sound { HasKept (state S.Store result.ledger.connection)
        → IsSound ledger.zone ledger.default (state S.Store ledger.connection)
        → IsSound ledger.zone ledger.default (state S.Store result.ledger.connection) }
    ensures serves { HasKept (state S.Store result.ledger.connection)
        → IsSound ledger.zone ledger.default (state S.Store ledger.connection)
        → Serves (callers permits.entry W.peers)
        (out (book_in ledger.zone ledger.default (state S.Store ledger.connection).now)
        (W.wire network.old))
        (out (book_in ledger.zone ledger.default (state S.Store result.ledger.connection).now)
        (W.wire network.new)) result.outcome }
{
    let caretaker = Caretaker::new(rt, log, names, metrics, false);
    listen_over(
        rt,
        log,
        metrics.counted(),
        network,
        settings,
        permits,
        ledger,
        took,
        caretaker,
        connections,
    )
}

/// Serves so many connections over a ledger, with this chore between the requests. It goes over any
/// store, since a proof over the file's own takes far longer.
fn listen_over<R, G: Log, W: Port, S: Alter + Drop, K: Chore<SqlLedger<S>> + Drop>(
    rt: &R,
    log: &G,
    figures: Option<&ServerMetrics>,
    network: &mut W,
    settings: &ServerSettings,
    permits: Option<&Permits>,
    ledger: SqlLedger<S>,
    took: Elapsed,
    chore: K,
    connections: Connections,
) -> EndedServing<S>
where
    R: Clock + AllocGlobal,
    ensures same { (result.ledger.zone ≡ ledger.zone) × (result.ledger.default ≡ ledger.default) }
    ensures kept { HasKept (state S.Store result.ledger.connection)
        → HasKept (state S.Store ledger.connection) }
    ensures sound { HasKept (state S.Store result.ledger.connection)
        → IsSound ledger.zone ledger.default (state S.Store ledger.connection)
        → IsSound ledger.zone ledger.default (state S.Store result.ledger.connection) }
    ensures serves { HasKept (state S.Store result.ledger.connection)
        → IsSound ledger.zone ledger.default (state S.Store ledger.connection)
        → Serves (callers permits.entry W.peers)
        (out (book_in ledger.zone ledger.default (state S.Store ledger.connection).now)
        (W.wire network.old))
        (out (book_in ledger.zone ledger.default (state S.Store result.ledger.connection).now)
        (W.wire network.new)) result.outcome }
{
    nothing_is_served();
    let mut ledger = ledger;
    match days_at_start(log, figures, settings, &mut ledger, took) {
        Ok(days) => begin(
            rt,
            log,
            figures,
            network,
            settings,
            permits,
            ledger,
            days,
            chore,
            connections,
        ),
        Err(fault) => {
            log_cause(log, place_name(&settings.store), &ledger);
            EndedServing {
                ledger,
                outcome: Err(ProgramFault::Audit(fault)),
            }
        }
    }
}

/// Logs what a ledger holds as a server begins with it, and gives the days on which something was
/// reserved.
fn days_at_start<G: Log, S: Alter>(
    log: &G,
    figures: Option<&ServerMetrics>,
    settings: &ServerSettings,
    ledger: &mut SqlLedger<S>,
    took: Elapsed,
) -> Result<Option<LedgerDays>, LedgerFault>
    ensures lent { (ledger.new.zone ≡ ledger.old.zone) × (ledger.new.default ≡ ledger.old.default) }
    ensures kept { HasKept (state S.Store ledger.new.connection)
        → HasKept (state S.Store ledger.old.connection) }
    ensures sound { HasKept (state S.Store ledger.new.connection)
        → IsSound ledger.old.zone ledger.old.default (state S.Store ledger.old.connection)
        → IsSound ledger.new.zone ledger.new.default (state S.Store ledger.new.connection) }
    ensures same { HasKept (state S.Store ledger.new.connection)
        → (state S.Store ledger.new.connection).now ≡ (state S.Store ledger.old.connection).now }
{
    log_ledger(log, figures, settings, ledger, took)?;
    days_of(ledger)
}

/// The first day on which something was reserved in a ledger, and the last, as the log of its
/// requests wants them.
pub fn days_of<S: Alter>(ledger: &mut SqlLedger<S>) -> Result<Option<LedgerDays>, LedgerFault>
    ensures lent { (ledger.new.zone ≡ ledger.old.zone) × (ledger.new.default ≡ ledger.old.default) }
    ensures kept { HasKept (state S.Store ledger.new.connection)
        → HasKept (state S.Store ledger.old.connection) }
    ensures sound { HasKept (state S.Store ledger.new.connection)
        → IsSound ledger.old.zone ledger.old.default (state S.Store ledger.old.connection)
        → IsSound ledger.new.zone ledger.new.default (state S.Store ledger.new.connection) }
    ensures same { HasKept (state S.Store ledger.new.connection)
        → (state S.Store ledger.new.connection).now ≡ (state S.Store ledger.old.connection).now }
{
    match ledger.days()? {
        Some(days) => Ok(Some(LedgerDays {
            oldest: days.oldest,
            newest: days.newest,
        })),
        None => Ok(None),
    }
}

/// Serves so many connections over a ledger, and logs what an administrator has to see of their
/// requests.
fn begin<R, G: Log, W: Port, S: Alter + Drop, K: Chore<SqlLedger<S>> + Drop>(
    rt: &R,
    log: &G,
    figures: Option<&ServerMetrics>,
    network: &mut W,
    settings: &ServerSettings,
    permits: Option<&Permits>,
    ledger: SqlLedger<S>,
    days: Option<LedgerDays>,
    chore: K,
    connections: Connections,
) -> EndedServing<S>
where
    R: Clock + AllocGlobal,
    ensures same { (result.ledger.zone ≡ ledger.zone) × (result.ledger.default ≡ ledger.default) }
    ensures kept { HasKept (state S.Store result.ledger.connection)
        → HasKept (state S.Store ledger.connection) }
    ensures sound { HasKept (state S.Store result.ledger.connection)
        → IsSound ledger.zone ledger.default (state S.Store ledger.connection)
        → IsSound ledger.zone ledger.default (state S.Store result.ledger.connection) }
    ensures serves { HasKept (state S.Store result.ledger.connection)
        → IsSound ledger.zone ledger.default (state S.Store ledger.connection)
        → Serves (callers permits.entry W.peers)
        (out (book_in ledger.zone ledger.default (state S.Store ledger.connection).now)
        (W.wire network.old))
        (out (book_in ledger.zone ledger.default (state S.Store result.ledger.connection).now)
        (W.wire network.new)) result.outcome }
{
    let mut watched = WatchedLedger::new(rt, log, rt.alloc(), ledger, days);
    let mut chore = InnerChore { chore };
    watched = counted(watched, figures);
    let outcome = listen(
        rt,
        log,
        rt.alloc(),
        network,
        settings,
        permits,
        &mut watched,
        &mut chore,
        connections,
    );
    let ledger = watched.into_inner();
    log_cause(log, place_name(&settings.store), &ledger);
    EndedServing { ledger, outcome }
}

/// The same ledger, which counts what comes to it where figures are wanted.
pub fn counted<'a, R: Clock, G: Log, S: Alter>(
    watched: WatchedLedger<'a, SqlLedger<S>, R, G>,
    figures: Option<&'a ServerMetrics>,
) -> WatchedLedger<'a, SqlLedger<S>, R, G>
    ensures { result ≡ watched.entry }
{
    match figures {
        Some(figures) => watched.with_metrics(figures),
        None => watched,
    }
}

/// Where a ledger is kept, as the settings name it.
fn place_name(place: &Place) -> &str {
    match place {
        Place::Memory => "memory",
        Place::File(path) => path.as_str(),
    }
}

/// Logs what a ledger holds as a server begins with it, and how long it took to open it.
pub fn log_ledger<G: Log, S: Alter>(
    log: &G,
    figures: Option<&ServerMetrics>,
    settings: &ServerSettings,
    ledger: &mut SqlLedger<S>,
    took: Elapsed,
) -> Result<(), LedgerFault>
    ensures lent { (ledger.new.zone ≡ ledger.old.zone) × (ledger.new.default ≡ ledger.old.default) }
    ensures kept { HasKept (state S.Store ledger.new.connection)
        → HasKept (state S.Store ledger.old.connection) }
    ensures sound { HasKept (state S.Store ledger.new.connection)
        → IsSound ledger.old.zone ledger.old.default (state S.Store ledger.old.connection)
        → IsSound ledger.new.zone ledger.new.default (state S.Store ledger.new.connection) }
    ensures same { HasKept (state S.Store ledger.new.connection)
        → (state S.Store ledger.new.connection).now ≡ (state S.Store ledger.old.connection).now }
{
    let answers = ledger.count_answers()?;
    if let Some(figures) = figures {
        figures.answers.set(answers);
    }
    let limits = ledger.limits()?.len();
    let days = ledger.found().days;
    let name = place_name(&settings.store);
    let default = settings.default;
    let terms = days_by(&settings.zone);
    info!(
        log;
        "ledger {name}: version {VERSION}, default {default}, {terms}, answers={answers} days={days} limits={limits}, opened in {took}"
    );
    Ok(())
}

/// Has a network listen at an address. What prevents it is logged.
pub fn bind<W: Port, G: Log>(
    log: &G,
    network: &mut W,
    address: SocketAddr,
) -> Result<(), ProgramFault>
    ensures fault { IfErr result (λ fault. fault ≡ ProgramFault.Listen) }
    ensures same { W.wire network.new ≡ W.wire network.old }
{
    match network.listen(address) {
        Ok(()) => Ok(()),
        Err(error) => {
            error!(log; "listening on {address}: {error}");
            Err(ProgramFault::Listen)
        }
    }
}

/// How long the settings let connections stay as they are.
pub fn times_of(settings: &ServerSettings) -> Times
    ensures timeout { as_nanos result.timeout ≡ settings.now.timeout * 1_000_000 }
    ensures idle { as_nanos result.idle ≡ settings.now.idle * 1_000_000_000 }
{
    Times {
        timeout: Duration::from_millis(u64::from(settings.timeout)),
        idle: Duration::from_secs(u64::from(settings.idle)),
    }
}

/// Listens at the address of the settings, and serves so many connections over the ledger, with
/// this chore between the requests, which is to have no end. The start, the end and what prevents
/// it are logged.
pub fn listen<R: Clock, G: Log, W: Port, L: Ledger + Hear, K: Chore<L>>(
    rt: &R,
    log: &G,
    alloc: Global,
    network: &mut W,
    settings: &ServerSettings,
    permits: Option<&Permits>,
    ledger: &mut L,
    chore: &mut K,
    connections: Connections,
) -> Result<u8, ProgramFault>
    ensures same_zone { (L.book ledger.new).zone ≡ (L.book ledger.old).zone }
    ensures same_default { (L.book ledger.new).default ≡ (L.book ledger.old).default }
    ensures kept { L.has_kept ledger.new → L.has_kept ledger.old }
    ensures sound { L.has_kept ledger.new → L.is_sound ledger.old → L.is_sound ledger.new }
    ensures history { L.has_kept ledger.new → L.is_sound ledger.old →
        HasGrown (L.book ledger.old) (L.book ledger.new) }
    ensures serves { L.has_kept ledger.new → L.is_sound ledger.old → EndsServing
        (callers permits.entry W.peers)
        (record { book = L.book ledger.old; told = L.told ledger.old; wires = W.wire network.old })
        (record { book = L.book ledger.new; told = L.told ledger.new; wires = W.wire network.new })
        (Serve store_failed) result }
{
    nothing_is_served();
    let address = settings.listen;
    if let Err(fault) = bind(log, network, address) {
        return Err(fault);
    }
    log_begin(log, address, connections);
    let times = times_of(settings);
    let mut left = connections;
    // (it is `ServingEnd::Over`: the chore is never done)
    let _ended = serve_connections(
        rt, log, alloc, network, times, permits, ledger, chore, &mut left,
    )?;
    log_end(log, connections);
    Ok(0)
}
