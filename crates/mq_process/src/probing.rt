//! Whether a quota server answers, and whether it takes a host's requests.
ghost use Rattle.std.specs.Prelude.{◌≡◌, ℕ, List, Option, IfErr, IfOk};
ghost use Rattle.std.specs.Net.Text.{socket_text};
ghost use Rattle.mq_command.specs.Probing.{EndsProbe};
ghost use Rattle.mq_process.specs.Links.{AsksOver};
ghost use Rattle.mq_request.specs.Range.{IsHost, IsRun};
ghost use Rattle.mq_process.specs.Questions.{IsQuestion, Puts, PutsHost, PutsInJson, PutsStatus};
ghost use Rattle.mq_process.specs.Questions.{has_answered};

use crate::asking::TIMEOUT;
use crate::console::Console;
use crate::dialing::Dial;
use crate::fault::ProcessFault;
use log::{LevelFilter, Log, Logged};
use mq_command::{ProbeEnd, print_status, print_taken, run_check, run_host_probe, run_probe};
use mq_link::{Link, LoggedLink};
use mq_request::Host;
use std::io;
use std::io::Write;
use std::net::SocketAddr;

/// Why a server doesn't answer is logged at this level.
const LEVEL: LevelFilter = LevelFilter::Error;

/// What is asked for. A time is the clock's, in milliseconds since 1970, 1 to 281,474,976,710,655.
#[derive(Clone, Copy)]
pub enum Question<'a> {
    /// Whether the server answers.
    Status,
    /// Whether it takes a host's requests at this time, too.
    Host(&'a Host, u64),
    /// The same of the host and the server that a filter's settings name, which are right.
    Check(&'a Host, u64),
}

/// A link for one try to the server at this address, with a log of its troubles.
fn link_once<'a, D: Dial, G: Log>(
    dial: &D,
    address: SocketAddr,
    timeout: u64,
    log: &'a G,
) -> LoggedLink<'a, D::Link, G>
    ensures { D.leads result address timeout }
{
    LoggedLink::new(dial.link(address, timeout, false), log, 1)
}

/// Asks the server at this address once whether it answers, and prints that it does, or says on
/// `errors` why it doesn't, or why that can't be printed. It fails with `Memory` before it asks.
pub fn ask_status<R: Print + Eprint + AllocGlobal, D: Dial, E: Write>(
    rt: &R,
    dial: &D,
    address: SocketAddr,
    errors: &mut E,
) -> Result<ProbeEnd, ProcessFault>
    ensures asks { IfOk result (λ end. AsksOver D.leads D.Link.told address TIMEOUT
        (EndsProbe (socket_text address) end)) }
    ensures memory { IfErr result (λ fault. fault ≡ ProcessFault.Memory) }
{
    let name = address.to_string(rt.alloc())?;
    let logged = Logged::new(rt, LEVEL, Console(rt));
    let mut link = link_once(dial, address, TIMEOUT, &logged);
    let mut output = io::writer(rt);
    Ok(run_probe(rt.alloc(), &mut link, name.as_str(), &mut output, errors))
}

/// Asks the server at this address once, and prints what it answers. The status is 1 where it
/// doesn't answer, or doesn't take the requests of the host that is asked about. It fails with
/// `Memory` before it asks.
pub fn probe<R: Print + Eprint + AllocGlobal, D: Dial, E: Write>(
    rt: &R,
    dial: &D,
    address: SocketAddr,
    question: Question<'_>,
    errors: &mut E,
) -> Result<u8, ProcessFault>
    requires { IsQuestion question }
    ensures asks { IfOk result (λ status. AsksOver D.leads D.Link.told address TIMEOUT
        (Puts (socket_text address) question.entry status)) }
    ensures memory { IfErr result (λ fault. fault ≡ ProcessFault.Memory) }
{
    ask_once(rt, dial, address, TIMEOUT, question, errors)
}

/// Asks the server at this address once, with so many milliseconds to connect, to write and to
/// read, and prints what it answers. Why it doesn't is logged. It fails with `Memory` before it
/// asks.
pub fn ask_once<R: Print + Eprint + AllocGlobal, D: Dial, E: Write>(
    rt: &R,
    dial: &D,
    address: SocketAddr,
    timeout: u64,
    question: Question<'_>,
    errors: &mut E,
) -> Result<u8, ProcessFault>
    requires { IsQuestion question }
    ensures asks { IfOk result (λ status. AsksOver D.leads D.Link.told address timeout
        (Puts (socket_text address) question.entry status)) }
    ensures memory { IfErr result (λ fault. fault ≡ ProcessFault.Memory) }
{
    let server = address.to_string(rt.alloc())?;
    let logged = Logged::new(rt, LEVEL, Console(rt));
    let mut link = link_once(dial, address, timeout, &logged);
    Ok(put(rt, &mut link, server.as_str(), question, errors))
}

/// Asks the server at this address once, and prints what comes of it as a JSON object. The status is
/// as that of [`probe`]. It fails with `Memory` before it asks.
pub fn probe_in_json<R: Print + Eprint + AllocGlobal, D: Dial, E: Write>(
    rt: &R,
    dial: &D,
    address: SocketAddr,
    question: Question<'_>,
    errors: &mut E,
) -> Result<u8, ProcessFault>
    requires { IsQuestion question }
    ensures asks { IfOk result (λ status. AsksOver D.leads D.Link.told address TIMEOUT
        (PutsInJson (socket_text address) question.entry status)) }
    ensures memory { IfErr result (λ fault. fault ≡ ProcessFault.Memory) }
{
    let named = address.to_string(rt.alloc())?;
    let logged = Logged::new(rt, LEVEL, Console(rt));
    let link = &mut link_once(dial, address, TIMEOUT, &logged);
    Ok(put_in_json(rt, link, named.as_str(), question, errors))
}

/// Puts a question once over a link, and prints what comes of it as a JSON object.
fn put_in_json<R: Print + AllocGlobal, K: Link, E: Write>(
    rt: &R,
    link: &mut K,
    server: &str,
    question: Question<'_>,
    errors: &mut E,
) -> u8
    requires { IsQuestion question }
    ensures { (before after : Option (List ℕ)) × PutsInJson server.now question.entry result
        (K.told link.old) (K.told link.new) before after }
{
    match question {
        Question::Status => put_status(rt, link, server, errors),
        Question::Host(host, now) => put_host(rt, link, server, host, now, errors),
        Question::Check(host, now) => put_host(rt, link, server, host, now, errors),
    }
}

/// Asks once over a link whether the server answers, and prints it as a JSON object.
fn put_status<R: Print + AllocGlobal, K: Link, E: Write>(
    rt: &R,
    link: &mut K,
    server: &str,
    errors: &mut E,
) -> u8
    ensures { (before after : Option (List ℕ)) × PutsStatus server.now result (K.told link.old)
        (K.told link.new) before after }
{
    let end = run_probe(rt.alloc(), link, server, &mut io::sink(), errors);
    let printed = print_status(
        rt.alloc(),
        server,
        has_answered(end),
        &mut io::writer(rt),
        errors,
    );
    end.status().max(printed)
}

/// Whether a server answered.
fn has_answered(end: ProbeEnd) -> bool
    ensures { result ≡ has_answered end }
{
    matches!(end, ProbeEnd::Answered(_))
}

/// Asks once over a link whether the server takes a host's requests, and prints it as a JSON
/// object.
fn put_host<R: Print + AllocGlobal, K: Link, E: Write>(
    rt: &R,
    link: &mut K,
    server: &str,
    host: &Host,
    now: u64,
    errors: &mut E,
) -> u8
    requires host { IsHost host.now }
    requires now { IsRun now }
    ensures { (before after : Option (List ℕ)) × PutsHost server.now host.now now result
        (K.told link.old)
        (K.told link.new) before after }
{
    let alloc = rt.alloc();
    let said = run_host_probe(alloc, link, server, host, now, &mut io::sink(), errors);
    let output = &mut io::writer(rt);
    let printed = print_taken(alloc, server, host.as_slice(), said == 0, output, errors);
    said.max(printed)
}

/// Puts a question once over a link, and prints what comes of it. `server` is how the server is
/// named there.
fn put<R: Print + AllocGlobal, K: Link, E: Write>(
    rt: &R,
    link: &mut K,
    server: &str,
    question: Question<'_>,
    errors: &mut E,
) -> u8
    requires { IsQuestion question }
    ensures { (before after : Option (List ℕ))
        × Puts server.now question.entry result (K.told link.old) (K.told link.new) before after }
{
    let alloc = rt.alloc();
    let mut output = io::writer(rt);
    match question {
        Question::Status => run_probe(alloc, link, server, &mut output, errors).status(),
        Question::Host(host, now) => {
            run_host_probe(alloc, link, server, host, now, &mut output, errors)
        }
        Question::Check(host, now) => {
            run_check(alloc, link, server, host, now, &mut output, errors)
        }
    }
}
