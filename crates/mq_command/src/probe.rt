//! `status` and `filter --check`: whether the quota server answers, and whether it takes a host's
//! requests.
ghost use Rattle.std.specs.Prelude.{◌≡◌, IfOk, Result as AnyResult, string_bytes};
ghost use Rattle.mq_request.specs.Range.{IsHost, IsMoment, IsRequest, IsRun};
ghost use Rattle.mq_command.specs.Orders.{Prints};
ghost use Rattle.mq_command.specs.Probing.{AsksHost, AsksOnce, Checks, EndsProbe, Probes};
ghost use Rattle.mq_command.specs.Probing.{answers_line, moment_of_run, next_run, probe_fault, probe_status};
ghost use Rattle.mq_command.specs.Probing.{host_question, host_verdict, taken_lines};
ghost use Rattle.mq_command.specs.declared.probe.HostFault.{HostFault as AnyHostFault};
ghost use Rattle.mq_command.specs.declared.probe.ProbeEnd.TheVariants.{Answered};

use crate::ask::{AskFault, Attempt, NoAnswer, try_once};
use crate::printed::login_text;
use crate::telling::{say, say_not_taken, tell_line, tell_text};
use mq_frame::encode_request;
use mq_link::Link;
use mq_request::bounds::{FIRST_MOMENT, LAST_MOMENT, LAST_ORDINAL, LAST_RUN};
use mq_request::{EscapedText, Host, Id, Login, Reply, Request};
use std::alloc::{AllocError, Global};
use std::io::Write;
use thiserror::Error;

/// How far apart the runs are under which a host is asked about: ten minutes, in milliseconds.
const STEP: u64 = 600_000;

/// Why it isn't known that a server takes a host's requests.
#[derive(Clone, Copy, Debug, PartialEq, Error)]
pub enum HostFault {
    /// This run of the host is retired, and so is each earlier one.
    #[error("requests of this host are refused, run {0} is retired: correct its clock, or give it a new name")]
    Retired(u64),
    #[error("{0}")]
    Unanswered(NoAnswer),
}

/// What comes of asking once whether a server answers.
#[derive(Clone, Copy, Debug, PartialEq)]
pub enum ProbeEnd {
    /// It answers. The exit status is 0 where that was printed, else 1.
    Answered(u8),
    /// It isn't known to answer. Why was said; the exit status is 1.
    Unanswered(AskFault),
}

impl ProbeEnd {
    /// The exit status, 0 or 1.
    pub fn status(self) -> u8
        ensures { result ≡ probe_status self }
    {
        match self {
            ProbeEnd::Answered(status) => status,
            ProbeEnd::Unanswered(_fault) => 1,
        }
    }
}

/// Sends a request once, and gives the reply that answers it.
fn ask_once<L: Link>(alloc: Global, link: &mut L, request: &Request) -> Result<Reply, NoAnswer>
    requires { IsRequest request.now }
    ensures { AsksOnce request.now (L.told link.old) (L.told link.new) result }
{
    let mut frame = Vec::new(alloc);
    encode_request(request, &mut frame)?;
    let mut body = Vec::new(alloc);
    match try_once(alloc, link, request, frame.as_slice(), &mut body)? {
        Attempt::Answered(reply) => Ok(reply),
        Attempt::NotTaken => Err(NoAnswer::NotTaken),
        Attempt::Missed => Err(NoAnswer::Unavailable),
    }
}

/// Asks the server once what login `-` used on day 0. It is a few rows to look for, and changes
/// nothing.
pub(crate) fn probe<L: Link>(alloc: Global, link: &mut L) -> Result<(), NoAnswer>
    ensures { Probes (L.told link.old) (L.told link.new) result }
{
    let login = match Login::from_slice(alloc, b"-") {
        Ok(login) => login,
        Err(_) => return Err(NoAnswer::Memory),
    };
    let request = Request::Usage { login, day: 0 };
    match ask_once(alloc, link, &request) {
        Ok(_reply) => Ok(()),
        Err(fault) => Err(fault),
    }
}

/// The run of the next full ten minutes, or the last one. Both are milliseconds since 1970.
fn next_run(now: u64) -> u64
    requires { IsRun now }
    ensures run { result ≡ next_run now }
    ensures in_range { IsRun result }
{
    ((now + (STEP - 1)) / STEP * STEP).min(LAST_RUN)
}

/// The moment of a run, in seconds since 1970, or the nearest one that a request may have.
fn moment_of_run(run: u64) -> u64
    ensures moment { result ≡ moment_of_run run }
    ensures in_range { IsMoment result }
{
    (run / 1_000).min(LAST_MOMENT).max(FIRST_MOMENT)
}

/// What a host is asked about at a time: to give back what its last transaction holds, which no
/// filter comes to, and so is nothing. A run that began before it is retired if this one is. Asked
/// again within ten minutes it is the same request, so the ledger keeps one answer, which is
/// forgotten with those of that day.
fn host_question(alloc: Global, host: &Host, now: u64) -> Result<Request, AllocError>
    requires host { IsHost host.now }
    requires now { IsRun now }
    ensures question { IfOk result (λ request. request ≡ host_question host.now now) }
    ensures in_range { IfOk result IsRequest }
{
    let run = next_run(now);
    Ok(Request::Release {
        id: Id {
            host: host.clone()?,
            run,
            number: LAST_ORDINAL,
        },
        txn: LAST_ORDINAL,
        moment: moment_of_run(run),
        login: Login::from_slice(alloc, b"-")?,
    })
}

/// What a reply says of a host: its requests are taken, unless the run is retired.
fn host_verdict(reply: &Reply) -> Result<(), HostFault>
    ensures { result ≡ host_verdict reply.now }
{
    match reply {
        Reply::Old { id } => Err(HostFault::Retired(id.run)),
        _ => Ok(()),
    }
}

/// Asks the server once whether it takes a host's requests.
fn ask_host<L: Link>(alloc: Global, link: &mut L, host: &Host, now: u64) -> Result<(), HostFault>
    requires host { IsHost host.now }
    requires now { IsRun now }
    ensures { AsksHost host.now now (L.told link.old) (L.told link.new) result }
{
    let request = match host_question(alloc, host, now) {
        Ok(request) => request,
        Err(_) => return Err(HostFault::Unanswered(NoAnswer::Memory)),
    };
    match ask_once(alloc, link, &request) {
        Ok(reply) => host_verdict(&reply),
        Err(fault) => Err(HostFault::Unanswered(fault)),
    }
}

/// The line of a server that answers.
fn answers_line(alloc: Global, server: &str) -> Result<String, AllocError>
    ensures { IfOk result (λ line. string_bytes line ≡ answers_line server.now) }
{
    let mut line = String::from_str(alloc, "quota server ")?;
    line.push_str(server)?;
    line.push_str(" answers\n")?;
    Ok(line)
}

/// The lines of a server that takes a host's requests.
fn taken_lines(alloc: Global, server: &str, host: &Host) -> Result<String, AllocError>
    ensures { IfOk result (λ lines. string_bytes lines ≡ taken_lines server.now host.now) }
{
    let mut lines = answers_line(alloc, server)?;
    lines.push_str("requests of host ")?;
    lines.push_str(login_text(alloc, host.as_slice())?.as_str())?;
    lines.push_str(" are taken\n")?;
    Ok(lines)
}

/// Why it isn't known whether a server answers that gave no answer.
fn probe_fault(fault: NoAnswer) -> AskFault
    ensures { result ≡ probe_fault fault }
{
    match fault {
        NoAnswer::NotTaken | NoAnswer::Unavailable => AskFault::Unavailable,
        NoAnswer::Memory => AskFault::Memory,
    }
}

/// Says on `errors` why a server gave no answer. The result is the exit status.
fn say_unanswered<E: Write>(fault: NoAnswer, server: &str, errors: &mut E) -> u8
    ensures { result ≡ 1 }
{
    match fault {
        NoAnswer::NotTaken => say_not_taken(errors, &server),
        _ => say(errors, &fault),
    }
}

/// Says on `errors` why it isn't known that a server takes a host's requests. Where it took none,
/// this may be since it has no address of the host. The result is the exit status.
fn say_untaken<E: Write>(fault: HostFault, server: &str, host: &Host, errors: &mut E) -> u8
    ensures { result ≡ 1 }
{
    match fault {
        HostFault::Unanswered(NoAnswer::NotTaken) => say_line_to_add(server, host, errors),
        _ => say(errors, &fault),
    }
}

/// Says on `errors` that a server didn't take what it was asked about a host, and the line that its
/// permits need. The result is the exit status.
fn say_line_to_add<E: Write>(server: &str, host: &Host, errors: &mut E) -> u8
    ensures { result ≡ 1 }
{
    let shown = EscapedText(host.as_slice());
    let status = say_not_taken(errors, &server);
    let _ = writeln!(
        errors,
        "mailquota: note: if it has /etc/mailquota/permits.toml, that needs, under [hosts], with this machine's address: \"{shown}\" = [\"ADDRESS\"]"
    );
    status
}

/// Asks the server once, and prints on `output` that it answers, or says on `errors` why it
/// doesn't, or why that can't be printed. `server` is how it is named there.
pub fn run_probe<L: Link, W: Write, E: Write>(
    alloc: Global,
    link: &mut L,
    server: &str,
    output: &mut W,
    errors: &mut E,
) -> ProbeEnd
    ensures probes { EndsProbe server.now result (L.told link.old) (L.told link.new)
        (W.contents output.old)
        (W.contents output.new) }
    ensures quiet { result ≡ Answered 0 → errors.new ≡ errors.old }
{
    match probe(alloc, link) {
        Ok(()) => ProbeEnd::Answered(tell_line(answers_line(alloc, server), output, errors)),
        Err(fault) => {
            let _status = say_unanswered(fault, server, errors);
            ProbeEnd::Unanswered(probe_fault(fault))
        }
    }
}

/// Asks the server once whether it takes the requests of a host's filter that starts now, and
/// prints on `output` that it answers and takes them, or says on `errors` why that isn't known or
/// that the host's runs are retired. `server` is how it is named there. The result is the exit
/// status, 0 or 1.
///
/// The server's ledger keeps one answer for each ten minutes in which a host is asked about, and is
/// the same otherwise. `host` has 1 to 64 bytes, and `now` is milliseconds since 1970, 1 to
/// 281,474,976,710,655.
pub fn run_host_probe<L: Link, W: Write, E: Write>(
    alloc: Global,
    link: &mut L,
    server: &str,
    host: &Host,
    now: u64,
    output: &mut W,
    errors: &mut E,
) -> u8
    requires host { IsHost host.now }
    requires now { IsRun now }
    ensures probes { (ended : AnyResult (Unit {0}) AnyHostFault)
        × AsksHost host.now now (L.told link.old) (L.told link.new) ended
        × Prints (λ _. taken_lines server.now host.now) (W.contents output.old)
        (W.contents output.new) ended result }
    ensures quiet { result ≡ 0 → errors.new ≡ errors.old }
{
    match ask_host(alloc, link, host, now) {
        Ok(()) => tell_line(taken_lines(alloc, server, host), output, errors),
        Err(fault) => say_untaken(fault, server, host, errors),
    }
}

/// Prints on `output` that settings are right, and whether the server that they name takes the
/// requests of their host's filter if it starts now, as [`run_host_probe`] does. The result is the
/// exit status, 0 or 1.
pub fn run_check<L: Link, W: Write, E: Write>(
    alloc: Global,
    link: &mut L,
    server: &str,
    host: &Host,
    now: u64,
    output: &mut W,
    errors: &mut E,
) -> u8
    requires host { IsHost host.now }
    requires now { IsRun now }
    ensures checks { Checks server.now host.now now (L.told link.old) (L.told link.new)
        (W.contents output.old)
        (W.contents output.new) result }
    ensures quiet { result ≡ 0 → errors.new ≡ errors.old }
{
    let printed = tell_text("settings are right\n", output, errors);
    if printed != 0 {
        return printed;
    }
    run_host_probe(alloc, link, server, host, now, output, errors)
}
