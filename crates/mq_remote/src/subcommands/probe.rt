//! `status --server`: whether quota servers answer, and whether they take a host's requests.
ghost use Rattle.std.specs.Prelude.{◌≡◌, Err, IfErr, IfOk, IfSome, option_map};
ghost use Rattle.std.specs.Net.Text.{socket_text};
ghost use Rattle.mq_request.specs.Range.{IsHost};
ghost use Rattle.mq_process.specs.Links.{AsksOver};
ghost use Rattle.mq_process.specs.Questions.{IsQuestion};
ghost use Rattle.mq_process.specs.Refusals.{ProbeRefuses};
ghost use Rattle.mq_process.specs.declared.asking.TheConstants.{TIMEOUT};
ghost use Rattle.mq_remote.specs.Asked.{AsksAbout, AsksAt, AsksProbe, PutsAs, is_bare};

use mq_process::{
    Dial, OutputArgument, ProbeArguments, ProcessFault, Question, WallClock, ask_in_turn,
    check_addresses, end_process, found_servers, probe, probe_in_json, run_number, servers_or,
};
use mq_request::{Host, is_host};
use std::alloc::{AllocError, Global};
use std::io::Write;
use std::net::SocketAddr;
use std::rt::Files;

/// The host that is asked about, where one is given.
fn host_of(alloc: Global, given: Option<&str>) -> Result<Option<Host>, AllocError>
    requires { IfSome given (λ text. IsHost text.now) }
    ensures named { IfOk result (λ host. host ≡ option_map (λ text. text.now) given.entry) }
    ensures in_range { IfOk result (λ host. IfSome host IsHost) }
{
    match given {
        Some(text) => Ok(Some(Host::from_slice(alloc, text.as_bytes())?)),
        None => Ok(None),
    }
}

/// What each server is asked: whether it answers, and whether it takes the requests of this host
/// now, where one is given.
fn question_of<'a, R: WallClock>(
    rt: &R,
    host: Option<&'a Host>,
) -> Result<Question<'a>, ProcessFault>
    requires { IfSome host (λ host. IsHost host.now) }
    ensures about { IfOk result (AsksAbout (R.shows rt.now)
        (option_map (λ host. host.now) host.entry)) }
    ensures in_range { IfOk result IsQuestion }
{
    match host {
        Some(host) => Ok(Question::Host(host, run_number(rt, None)?)),
        None => Ok(Question::Status),
    }
}

/// `status` of addresses: asks the server at each once, and prints that it answers, and that it
/// takes the requests of the host that is given. The status is 1 where one doesn't.
pub fn probe_servers<R: Files + WallClock + Print + Eprint + AllocGlobal, D: Dial, E: Write>(
    rt: &R,
    dial: &D,
    given: ProbeArguments<'_>,
    errors: &mut E,
) -> Result<u8, ProcessFault>
    ensures refuses { ProbeRefuses given.entry (λ fault. result ≡ Err fault) }
    ensures asks { IfOk result (AsksProbe D.leads D.Link.told R.File.remaining (R.shows rt.now)
        given.entry) }
{
    if !given.host.is_none_or(|host| is_host(host.as_bytes())) {
        return Err(ProcessFault::Host);
    }
    let words = given.servers.as_slice();
    check_addresses(rt, words)?;
    let found = found_servers(rt, words, None)?;
    let chosen = servers_or(rt.alloc(), words, found.as_slice())?;
    let servers = chosen.as_slice();
    let host = host_of(rt.alloc(), given.host)?;
    let question = question_of(rt, host.as_ref())?;
    let output = given.output;
    Ok(ask_in_turn(
        rt,
        servers,
        is_bare(output, servers.len()),
        errors,
        |address, errors| probe_at(rt, dial, address, question, output, errors),
    ))
}

/// Puts the question to the server at this address, and prints what comes of it. Where memory runs
/// out it isn't asked.
fn probe_at<R: Print + Eprint + AllocGlobal, D: Dial, E: Write>(
    rt: &R,
    dial: &D,
    address: SocketAddr,
    question: Question<'_>,
    output: OutputArgument,
    errors: &mut E,
) -> u8
    requires { IsQuestion question }
    ensures { AsksAt D.leads D.Link.told (PutsAs output (socket_text address) question.entry)
        address result }
{
    end_process(put_at(rt, dial, address, question, output, errors), errors)
}

/// The same, where memory doesn't run out before it asks.
fn put_at<R: Print + Eprint + AllocGlobal, D: Dial, E: Write>(
    rt: &R,
    dial: &D,
    address: SocketAddr,
    question: Question<'_>,
    output: OutputArgument,
    errors: &mut E,
) -> Result<u8, ProcessFault>
    requires { IsQuestion question }
    ensures asks { IfOk result (λ status. AsksOver D.leads D.Link.told address TIMEOUT
        (PutsAs output (socket_text address) question.entry status)) }
    ensures memory { IfErr result (λ fault. fault ≡ ProcessFault.Memory) }
{
    match output {
        OutputArgument::Text => probe(rt, dial, address, question, errors),
        OutputArgument::Json => probe_in_json(rt, dial, address, question, errors),
    }
}

/// Whether no line stands above what each of so many servers answers.
fn is_bare(output: OutputArgument, count: usize) -> bool
    ensures { result ≡ is_bare output count }
{
    match output {
        OutputArgument::Text => count == 1,
        OutputArgument::Json => true,
    }
}
