//! `stop` and `resume`: how many recipients more a login may have.
ghost use Rattle.std.specs.Prelude.{◌≡◌, Err, IfOk, IfSome, None, false, map};
ghost use Rattle.mq_request.specs.Range.{IsAmount, IsHost, IsRun, IsWithin};
ghost use Rattle.mq_command.specs.Allowing.{IsSetter};
ghost use Rattle.mq_process.specs.Arguments.{IsResumeArguments, IsStopArguments, last_stop_day};
ghost use Rattle.mq_process.specs.Refusals.{HasNoAddress, NamesLogin, OrderRefuses};
ghost use Rattle.mq_remote.specs.Asked.{AsksAt, AsksEachOf, AsksResume, AsksStop, IsMeant};
ghost use Rattle.mq_remote.specs.Asked.{IsRunBy, IsSetterBy, ResumesBy, ResumesThere};
ghost use Rattle.mq_remote.specs.Stops.{AsksUse, UseAt};
ghost use Rattle.mq_remote.specs.declared.subcommands.stopping.TheConstants.{SHORT};

use crate::subcommands::shares::{ShareOrder, ShareTask, are_several, check_few, share_number};
use crate::subcommands::stopping::{SHORT, ask_use, stop_everywhere};
use log::{LevelFilter, Logged};
use mq_command::{SentLately, ServerErrors, Setter, StopOrder, run_restore, run_resume};
use mq_process::{
    Console, Dial, LoginArgument, ProcessFault, ResumeArguments, StopArguments, WallClock,
    address_of, ask_each, checked, day_named, day_to_stop, found_servers, link_to, login_of,
    run_number, servers_or, tell_note,
};
use mq_request::Host;
use mq_request::bounds::LAST_DAY;
use std::alloc::Global;
use std::io;
use std::io::Write;
use std::net::SocketAddr;
use std::rt::{Clock, Files};

/// The login whose limits are set, and the run of the host that sets them.
pub fn setter_of(
    alloc: Global,
    host: &str,
    run: u64,
    login: LoginArgument<'_>,
) -> Result<Setter, ProcessFault>
    requires host { IsHost host.now }
    requires run { IsRun run }
    requires login { NamesLogin login }
    ensures setter { IfOk result (IsSetterBy host.now login.entry) }
    ensures run { IfOk result (λ setter. setter.run ≡ run) }
    ensures in_range { IfOk result IsSetter }
{
    Ok(Setter {
        host: Host::from_slice(alloc, host.as_bytes())?,
        run,
        login: login_of(alloc, login)?,
    })
}

/// The login whose limits are set, and a run of the clock's.
fn setter_by_clock<R: WallClock + AllocGlobal>(
    rt: &R,
    host: &str,
    login: LoginArgument<'_>,
) -> Result<Setter, ProcessFault>
    requires host { IsHost host.now }
    requires login { NamesLogin login }
    ensures setter { IfOk result (IsSetterBy host.now login.entry) }
    ensures run { IfOk result (λ setter. IsRunBy (R.shows rt.now) None setter.run) }
    ensures in_range { IfOk result IsSetter }
{
    let run = run_number(rt, None)?;
    setter_of(rt.alloc(), host, run, login)
}

/// `stop`: lets a login have nothing more. Where one of several servers knows that it sent
/// something lately, or gives no answer, it is meant at each.
pub fn stop<R: Files + Clock + WallClock + Print + Eprint + AllocGlobal, D: Dial, E: Write>(
    rt: &R,
    dial: &D,
    given: StopArguments<'_>,
    errors: &mut E,
) -> Result<u8, ProcessFault>
    requires { IsStopArguments given }
    ensures refuses { OrderRefuses given.entry.host.now given.entry.login given.entry.servers
        (λ fault. result ≡ Err fault) }
    ensures asks { IfOk result (AsksStop D.leads D.Link.told R.File.remaining (R.shows rt.now)
        given.entry) }
{
    let words = given.servers.as_slice();
    checked(rt, given.host, given.login, words)?;
    let found = found_servers(rt, words, given.config)?;
    let chosen = servers_or(rt.alloc(), words, found.as_slice())?;
    let servers = chosen.as_slice();
    let day = day_to_stop(rt, given.day, given.config, given.is_forced)?;
    let setter = setter_by_clock(rt, given.host, given.login)?;
    tell_note(rt.alloc(), &login_of(rt.alloc(), given.login)?, errors)?;
    let is_meant = is_meant_at_one(rt, dial, servers, &setter, day, given.is_forced, errors);
    let order = StopOrder {
        day,
        is_meant,
        is_all: given.is_all,
    };
    Ok(stop_everywhere(rt, dial, servers, &setter, order, given.is_waiting, errors))
}

/// Whether a login is meant: it is said so, or one of several servers answers that it sent
/// something lately, or doesn't say. A server that is asked alone finds that out itself.
fn is_meant_at_one<R: Eprint + AllocGlobal, D: Dial, E: Write>(
    rt: &R,
    dial: &D,
    servers: &[&str],
    setter: &Setter,
    day: u32,
    is_forced: bool,
    errors: &mut E,
) -> bool
    requires servers { ¬ HasNoAddress (map (λ s. s.now) servers.now) }
    requires setter { IsSetter setter.now }
    requires day { IsWithin 0 last_stop_day day }
    ensures { IsMeant D.leads D.Link.told setter.now.login day is_forced
        (map (λ s. s.now) servers.now) result }
{
    if is_forced {
        return true;
    }
    if servers.len() < 2 {
        return false;
    }
    has_sent_at_one(rt, dial, servers, setter, day, errors)
}

/// A server that doesn't say whether it knows a login.
#[derive(Clone, Copy)]
struct Unheard<'a> {
    server: &'a str,
    /// Whether it gives an answer all the same: that it doesn't take the question.
    is_refusing: bool,
}

/// This server, which doesn't say.
fn not_saying(server: &str, is_refusing: bool) -> Unheard<'_> {
    Unheard {
        server,
        is_refusing,
    }
}

/// Notes on `errors` that a server doesn't say whether it knows the login, and why.
fn note_unheard<E: Write>(unheard: Unheard<'_>, errors: &mut E) {
    let server = unheard.server;
    let _ = if unheard.is_refusing {
        writeln!(
            errors,
            "mailquota: note: server {server} didn't take the question whether the login is misspelled, and it is stopped all the same: the server's log says why; if it has permits, add this machine there"
        )
    } else {
        writeln!(
            errors,
            "mailquota: note: server {server} gives no answer: the login is stopped without asking whether it is misspelled"
        )
    };
}

/// Whether one of these servers answers that a login sent something lately, or else one doesn't
/// say, which is noted. One that is away costs a second.
fn has_sent_at_one<R: Eprint + AllocGlobal, D: Dial, E: Write>(
    rt: &R,
    dial: &D,
    servers: &[&str],
    setter: &Setter,
    day: u32,
    errors: &mut E,
) -> bool
    requires servers { ¬ HasNoAddress (map (λ s. s.now) servers.now) }
    requires setter { IsSetter setter.now }
    requires day { IsWithin 0 last_stop_day day }
    ensures { AsksUse (UseAt D.leads D.Link.told setter.now.login day SHORT)
        (map (λ s. s.now) servers.now) false result }
{
    let mut silent = None;
    for server in servers {
        let Ok(address) = address_of(rt, server) else {
            unreachable!();
        };
        match ask_use(rt, dial, address, setter, day, SHORT) {
            SentLately::Yes => return true,
            SentLately::No => {}
            SentLately::NotTaken => silent = Some(not_saying(server, true)),
            SentLately::Unanswered => silent = Some(not_saying(server, false)),
        }
    }
    match silent {
        Some(unheard) => {
            note_unheard(unheard, errors);
            true
        }
        None => false,
    }
}

/// `resume`: lets a login have more again: a number of the words, which of several servers of
/// settings is the first one's, or at each the limit that it had.
pub fn resume<R: Files + Clock + WallClock + Print + Eprint + AllocGlobal, D: Dial, E: Write>(
    rt: &R,
    dial: &D,
    given: ResumeArguments<'_>,
    errors: &mut E,
) -> Result<u8, ProcessFault>
    requires { IsResumeArguments given }
    ensures refuses { OrderRefuses given.entry.host.now given.entry.login given.entry.servers
        (λ fault. result ≡ Err fault) }
    ensures asks { IfOk result (AsksResume D.leads D.Link.told R.File.remaining (R.shows rt.now)
        given.entry) }
{
    let words = given.servers.as_slice();
    checked(rt, given.host, given.login, words)?;
    let found = found_servers(rt, words, given.config)?;
    let chosen = servers_or(rt.alloc(), words, found.as_slice())?;
    let servers = chosen.as_slice();
    let day = day_named(rt, given.day, given.config, LAST_DAY - 1)?;
    let setter = setter_by_clock(rt, given.host, given.login)?;
    tell_note(rt.alloc(), &login_of(rt.alloc(), given.login)?, errors)?;
    resume_by(rt, dial, words, servers, &setter, day, given.cap, errors)
}

/// Lets a login have more again at these servers: of several of settings each gets its share of the
/// number.
fn resume_by<R: Print + Eprint + AllocGlobal, D: Dial, E: Write>(
    rt: &R,
    dial: &D,
    words: &[&str],
    servers: &[&str],
    setter: &Setter,
    day: u32,
    more: Option<u32>,
    errors: &mut E,
) -> Result<u8, ProcessFault>
    requires servers { ¬ HasNoAddress (map (λ s. s.now) servers.now) }
    requires setter { IsSetter setter.now }
    requires day { IsWithin 0 last_stop_day day }
    requires more { IfSome more IsAmount }
    ensures { IfOk result (ResumesBy D.leads D.Link.told setter.now day more
        (map (λ s. s.now) words.now) (map (λ s. s.now) servers.now)) }
{
    match more {
        Some(number) => {
            if are_several(words, servers) {
                check_few(servers)?;
                let order = ShareOrder::More;
                let task = ShareTask { setter, day, order };
                return Ok(share_number(rt, dial, servers, task, number, errors));
            }
            Ok(resume_at_each(rt, dial, servers, setter, day, more, errors))
        }
        None => Ok(resume_at_each(rt, dial, servers, setter, day, more, errors)),
    }
}

/// Lets a login have more again at each of these servers, or the limit that it had.
fn resume_at_each<R: Print + Eprint + AllocGlobal, D: Dial, E: Write>(
    rt: &R,
    dial: &D,
    servers: &[&str],
    setter: &Setter,
    day: u32,
    more: Option<u32>,
    errors: &mut E,
) -> u8
    requires servers { ¬ HasNoAddress (map (λ s. s.now) servers.now) }
    requires setter { IsSetter setter.now }
    requires day { IsWithin 0 last_stop_day day }
    requires more { IfSome more IsAmount }
    ensures { AsksEachOf D.leads D.Link.told (ResumesThere setter.now day more)
        (map (λ s. s.now) servers.now) result }
{
    ask_each(
        rt,
        servers,
        errors,
        |address, errors| ask_resume(rt, dial, address, setter, day, more, errors),
    )
}

/// Asks the server at this address to let a login have more again, or the limit that it had, and
/// prints what comes of it.
fn ask_resume<R: Print + Eprint + AllocGlobal, D: Dial, E: Write>(
    rt: &R,
    dial: &D,
    address: SocketAddr,
    setter: &Setter,
    day: u32,
    more: Option<u32>,
    errors: &mut E,
) -> u8
    requires setter { IsSetter setter.now }
    requires day { IsWithin 0 last_stop_day day }
    requires more { IfSome more IsAmount }
    ensures { AsksAt D.leads D.Link.told (ResumesThere setter.now day more) address result }
{
    let logged = Logged::new(rt, LevelFilter::Error, Console(rt));
    let mut link = link_to(dial, address, &logged);
    let mut output = io::writer(rt);
    let mut told = ServerErrors::new(errors, address);
    match more {
        Some(more) => run_resume(
            rt.alloc(),
            &mut link,
            setter,
            day,
            more,
            &mut output,
            &mut told,
        ),
        None => run_restore(rt.alloc(), &mut link, setter, day, &mut output, &mut told),
    }
}
