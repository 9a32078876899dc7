//! A login is stopped at several servers, of which some may give no answer.
ghost use Rattle.std.specs.Prelude.{◌≡◌, [], ℕ, false, map, true};
ghost use Rattle.mq_request.specs.Range.{IsWithin};
ghost use Rattle.mq_command.specs.Allowing.{IsSetter};
ghost use Rattle.mq_command.specs.Stopping.{RunsStop};
ghost use Rattle.mq_process.specs.Arguments.{last_stop_day};
ghost use Rattle.mq_process.specs.Links.{AsksOver};
ghost use Rattle.mq_process.specs.Refusals.{HasNoAddress};
ghost use Rattle.mq_process.specs.declared.asking.TheConstants.{TIMEOUT};
ghost use Rattle.mq_remote.specs.Stops.{Adds, EndsAs, EndsWith, StopsAll, StopsAt, StopsEach};
ghost use Rattle.mq_remote.specs.Stops.{StopsIn, StopsOn, StopsRest, UseAt};

use log::{LevelFilter, Logged};
use mq_command::{
    SentLately, ServerErrors, Setter, StopEnd, StopOrder, has_sent, run_stop, say_undone,
};
use mq_process::{Console, Dial, TIMEOUT, address_of, elapsed, link_to, tell_server};
use std::io::Write;
use std::net::SocketAddr;
use std::rt::Clock;
use std::time::{Duration, Instant};
use std::{io, thread};

/// How long each step may take of what servers are asked before one is to stop a login, in
/// milliseconds: it is only whether it is misspelled.
pub const SHORT: u64 = 1_000;

/// How long it is between two rounds, in seconds.
const PAUSE: u64 = 5;

/// After how many seconds no further round begins.
const LONGEST: u64 = 3_600;

/// How many rounds begin in that time at most.
const ROUNDS: u64 = LONGEST / PAUSE;

/// Which login each server is asked to stop, and how.
#[derive(Clone, Copy)]
struct StopTask<'a> {
    setter: &'a Setter,
    order: StopOrder,
    /// Whether one server is asked alone, so that no line says which one it is.
    is_alone: bool,
}

/// How far servers were asked.
#[derive(Drop)]
struct Round<'a> {
    /// The exit status by those that answered, 0 or 1.
    status: u8,
    /// Those that gave no answer, in order.
    left: Vec<&'a str>,
}

/// Asks the server at this address whether a login sent something lately, in so many milliseconds
/// for each step. Nothing is logged: it is where it is asked to stop it.
pub fn ask_use<R: AllocGlobal, D: Dial>(
    rt: &R,
    dial: &D,
    address: SocketAddr,
    setter: &Setter,
    day: u32,
    timeout: u64,
) -> SentLately
    requires setter { IsSetter setter.now }
    requires day { IsWithin 0 last_stop_day day }
    ensures { UseAt D.leads D.Link.told setter.now.login day timeout address result }
{
    let mut link = dial.link(address, timeout, true);
    has_sent(rt.alloc(), &mut link, &setter.login, day)
}

/// Asks the server at this address to stop a login, and prints what comes of it. Where it is
/// stopped, limits of later days are looked for.
fn ask_stop<R: Print + Eprint + AllocGlobal, D: Dial, E: Write>(
    rt: &R,
    dial: &D,
    address: SocketAddr,
    setter: &Setter,
    order: StopOrder,
    errors: &mut E,
) -> StopEnd
    requires setter { IsSetter setter.now }
    requires day { IsWithin 0 last_stop_day order.day }
    ensures { AsksOver D.leads D.Link.told address TIMEOUT (RunsStop setter.now order result) }
{
    let logged = Logged::new(rt, LevelFilter::Error, Console(rt));
    let mut link = link_to(dial, address, &logged);
    let mut output = io::writer(rt);
    let mut told = ServerErrors::new(errors, address);
    run_stop(rt.alloc(), &mut link, setter, order, &mut output, &mut told)
}

/// How it ended at a server, where the line above was printed with this status.
fn ended_below(told: u8, said: StopEnd) -> StopEnd
    ensures alone { told ≡ 0 → result ≡ said }
    ensures among { EndsAs false said result }
{
    match said {
        StopEnd::Stopped if told != 0 => StopEnd::Failed,
        _ => said,
    }
}

/// Asks the server at this address to stop the login, and prints what comes of it; where it isn't
/// the only one, below a line with its address, which is said again where it didn't do it.
fn stop_at<R: Print + Eprint + AllocGlobal, D: Dial, E: Write>(
    rt: &R,
    dial: &D,
    server: &str,
    address: SocketAddr,
    task: StopTask<'_>,
    errors: &mut E,
) -> StopEnd
    requires setter { IsSetter task.setter.now }
    requires day { IsWithin 0 last_stop_day task.order.day }
    ensures { StopsAt D.leads D.Link.told task.entry.setter.now task.entry.order
        task.entry.is_alone address result }
{
    if task.is_alone {
        return ask_stop(rt, dial, address, task.setter, task.order, errors);
    }
    let told = tell_server(rt, server, errors);
    let said = ask_stop(rt, dial, address, task.setter, task.order, errors);
    let end = ended_below(told, said);
    say_undone(server, end.status(), errors);
    end
}

/// The same in a first round, or in a later one, where the server gave no answer before: where it
/// gives none to a question either, or doesn't take that, nothing is logged or printed.
fn stop_in<R: Print + Eprint + AllocGlobal, D: Dial, E: Write>(
    rt: &R,
    dial: &D,
    server: &str,
    address: SocketAddr,
    task: StopTask<'_>,
    is_later: bool,
    errors: &mut E,
) -> StopEnd
    requires setter { IsSetter task.setter.now }
    requires day { IsWithin 0 last_stop_day task.order.day }
    ensures { StopsIn D.leads D.Link.told task.entry.setter.now task.entry.order
        task.entry.is_alone is_later address result }
{
    if is_later {
        match ask_use(rt, dial, address, task.setter, task.order.day, TIMEOUT) {
            SentLately::Yes | SentLately::No => {}
            SentLately::NotTaken | SentLately::Unanswered => return StopEnd::Unanswered,
        }
    }
    stop_at(rt, dial, server, address, task, errors)
}

impl<'a> Round<'a> {
    /// A server was asked, and it ended so.
    fn add(&mut self, server: &'a str, end: StopEnd)
        ensures { Adds server.now end self.old.status (map (λ s. s.now) self.old.left.items)
            self.new.status (map (λ s. s.now) self.new.left.items) }
    {
        match end {
            StopEnd::Stopped => {}
            StopEnd::Failed => self.status = 1,
            StopEnd::Unanswered => {
                if self.left.push(server).is_err() {
                    self.status = 1;
                }
            }
        }
    }
}

/// Asks each of these servers in turn to stop the login, in a first round or in a later one. The
/// exit status so far is 0 or 1.
fn stop_each<'a, R: Print + Eprint + AllocGlobal, D: Dial, E: Write>(
    rt: &R,
    dial: &D,
    servers: &[&'a str],
    task: StopTask<'_>,
    is_later: bool,
    so_far: u8,
    errors: &mut E,
) -> Round<'a>
    requires servers { ¬ HasNoAddress (map (λ s. s.now) servers.now) }
    requires setter { IsSetter task.setter.now }
    requires day { IsWithin 0 last_stop_day task.order.day }
    ensures each { StopsEach (StopsIn D.leads D.Link.told task.entry.setter.now task.entry.order
        task.entry.is_alone is_later) result.status (map (λ s. s.now) result.left.items)
        (map (λ s. s.now) servers.now) so_far [] }
    ensures left { ¬ HasNoAddress (map (λ s. s.now) result.left.items) }
{
    let mut round = Round {
        status: so_far,
        left: Vec::new(rt.alloc()),
    };
    for server in servers {
        let Ok(address) = address_of(rt, server) else {
            unreachable!();
        };
        let end = stop_in(rt, dial, server, address, task, is_later, errors);
        round.add(server, end);
    }
    round
}

/// Waits for some seconds. The result is whether another round begins: it doesn't once there were
/// rounds for an hour, nor where the clock can't be read.
fn pause(rt: &impl Clock, since: Option<Instant>) -> bool {
    match elapsed(rt, since) {
        Some(gone) if gone.as_secs() < LONGEST - PAUSE => {
            thread::sleep(rt, Duration::from_secs(PAUSE));
            true
        }
        _ => false,
    }
}

/// Says on `errors` which servers are asked again.
fn say_waiting<E: Write>(left: &[&str], errors: &mut E) {
    for server in left {
        let _ = writeln!(
            errors,
            "mailquota: note: server {server} is asked again until it answers, for up to an hour"
        );
    }
}

/// Asks those that gave no answer in later rounds, some seconds after each other, until none is
/// left or an hour is over.
fn stop_rest<'a, R: Clock + Print + Eprint + AllocGlobal, D: Dial, E: Write>(
    rt: &R,
    dial: &D,
    first: Round<'a>,
    task: StopTask<'_>,
    errors: &mut E,
) -> Round<'a>
    requires servers { ¬ HasNoAddress (map (λ s. s.now) first.left.items) }
    requires setter { IsSetter task.setter.now }
    requires day { IsWithin 0 last_stop_day task.order.day }
    ensures { (status : ℕ)
        → EndsWith result.status (map (λ s. s.now) result.left.items) status
        → StopsRest (StopsIn D.leads D.Link.told task.entry.setter.now task.entry.order
        task.entry.is_alone true) status (map (λ s. s.now) first.entry.left.items)
        first.entry.status }
{
    let since = Instant::now(rt).ok();
    say_waiting(first.left.as_slice(), errors);
    let mut round = first;
    for _round in 0..ROUNDS {
        if round.left.is_empty() || !pause(rt, since) {
            return round;
        }
        let servers = round.left.as_slice();
        let next = stop_each(rt, dial, servers, task, true, round.status, errors);
        round = next;
    }
    round
}

/// Says on `errors` at which servers the login isn't known to be stopped, since they gave no
/// answer, or that they don't take this.
fn say_left<E: Write>(left: &[&str], errors: &mut E) {
    for server in left {
        let _ = writeln!(
            errors,
            "mailquota: not known to be stopped at server {server}, which gave no answer or didn't take this"
        );
    }
}

/// The exit status after the last round. Which of several servers gave no answer is said on
/// `errors`.
fn end_with<E: Write>(round: &Round<'_>, is_alone: bool, errors: &mut E) -> u8
    ensures { EndsWith round.now.status (map (λ s. s.now) round.now.left.items) result }
{
    if !is_alone {
        say_left(round.left.as_slice(), errors);
    }
    if round.left.is_empty() {
        round.status
    } else {
        1
    }
}

/// What is asked after the first round, where that is waited for. The result is the exit status.
fn stop_on<R: Clock + Print + Eprint + AllocGlobal, D: Dial, E: Write>(
    rt: &R,
    dial: &D,
    first: Round<'_>,
    task: StopTask<'_>,
    is_waiting: bool,
    errors: &mut E,
) -> u8
    requires servers { ¬ HasNoAddress (map (λ s. s.now) first.left.items) }
    requires setter { IsSetter task.setter.now }
    requires day { IsWithin 0 last_stop_day task.order.day }
    ensures { StopsOn is_waiting (StopsIn D.leads D.Link.told task.entry.setter.now
        task.entry.order task.entry.is_alone true) result
        (map (λ s. s.now) first.entry.left.items) first.entry.status }
{
    if is_waiting {
        let last = stop_rest(rt, dial, first, task, errors);
        return end_with(&last, task.is_alone, errors);
    }
    end_with(&first, task.is_alone, errors)
}

/// Asks each of these servers in turn to stop a login, whatever came of those before, and prints
/// what comes of it. Those that give no answer are asked again until they do, for an hour, where
/// that is waited for. The last lines on `errors` say which of several never did. The result is the
/// exit status, 0 where the login is stopped at each.
pub fn stop_everywhere<R: Clock + Print + Eprint + AllocGlobal, D: Dial, E: Write>(
    rt: &R,
    dial: &D,
    servers: &[&str],
    setter: &Setter,
    order: StopOrder,
    is_waiting: bool,
    errors: &mut E,
) -> u8
    requires servers { ¬ HasNoAddress (map (λ s. s.now) servers.now) }
    requires setter { IsSetter setter.now }
    requires day { IsWithin 0 last_stop_day order.day }
    ensures { StopsAll D.leads D.Link.told setter.now order is_waiting
        (map (λ s. s.now) servers.now) result }
{
    let task = StopTask {
        setter,
        order,
        is_alone: servers.len() == 1,
    };
    let first = stop_each(rt, dial, servers, task, false, 0, errors);
    stop_on(rt, dial, first, task, is_waiting, errors)
}
