//! `retire`: gives up the earlier runs of a host.
ghost use Rattle.std.specs.Prelude.{◌≡◌, [], Err, IfOk, IfSome, map, option_map, string_bytes};
ghost use Rattle.mq_request.specs.Range.{IsHost, IsRun};
ghost use Rattle.mq_command.specs.Orders.{IsRetire};
ghost use Rattle.mq_process.specs.Links.{AsksOver};
ghost use Rattle.mq_process.specs.Refusals.{HasNoAddress, RetireRefuses};
ghost use Rattle.mq_remote.specs.Asked.{AsksRetire, FindsByFilter, IsTarget, IsTargetOfFilter};
ghost use Rattle.mq_remote.specs.Asked.{SendsOrder};

use log::{LevelFilter, Logged};
use mq_command::{ServerErrors, run_retire};
use mq_process::{
    Console, Dial, ProcessFault, RetireArguments, TIMEOUT, WallClock, ask_each, check_addresses,
    filter_settings_in_place, found_servers, link_to, run_number, servers_in_place, servers_or,
    texts_of,
};
use mq_request::{Host, Id, Request, is_host};
use std::io;
use std::io::Write;
use std::net::SocketAddr;
use std::rt::Files;

/// Whose runs are given up, and where the words don't say so.
#[derive(Drop)]
pub struct Target {
    /// The host, 1 to 64 bytes.
    pub host: Host,
    /// The servers that settings name, where the words name none.
    pub found: Vec<String>,
}

/// The servers of a command that a filter's settings name, where its words name none: those that
/// the file in its place lists, if it is there, or else the one that the filter asks.
fn found_by_filter<R: Files + Eprint + AllocGlobal>(
    rt: &R,
    words: &[&str],
    server: SocketAddr,
) -> Result<Vec<String>, ProcessFault>
    ensures found { IfOk result (λ texts. map (λ s. s.now) words.now ≡ []
        → FindsByFilter R.File.remaining server (map string_bytes texts.items)) }
    ensures addresses { IfOk result (λ texts. ¬ HasNoAddress (map string_bytes texts.items)) }
{
    if !words.is_empty() {
        return Ok(Vec::new(rt.alloc()));
    }
    match servers_in_place(rt) {
        Ok(Some(servers)) => texts_of(rt, servers.as_slice()),
        Ok(None) => texts_of(rt, &[server]),
        Err(fault) => Err(fault),
    }
}

/// The host of the filter's settings in their place, and the servers that settings name.
fn target_of_filter<R: Files + Eprint + AllocGlobal>(
    rt: &R,
    words: &[&str],
) -> Result<Target, ProcessFault>
    ensures target { IfOk result (IsTargetOfFilter R.File.remaining (map (λ s. s.now) words.now)) }
    ensures in_range { IfOk result (λ target. IsHost target.host) }
    ensures addresses { IfOk result (λ target. ¬ HasNoAddress (map string_bytes target.found.items)) }
{
    match filter_settings_in_place(rt) {
        Ok(Some(settings)) => Ok(Target {
            host: settings.host.clone()?,
            found: found_by_filter(rt, words, settings.server)?,
        }),
        Ok(None) => Err(ProcessFault::NoHost),
        Err(fault) => Err(fault),
    }
}

/// Whose runs are given up, and where: the host of the words, or else that of the filter's
/// settings, and the servers that settings name where these words name none.
fn target_of<R: Files + Eprint + AllocGlobal>(
    rt: &R,
    host: Option<&str>,
    words: &[&str],
    config: Option<&str>,
) -> Result<Target, ProcessFault>
    requires { IfSome host (λ host. IsHost host.now) }
    ensures target { IfOk result (IsTarget R.File.remaining config.entry
        (option_map (λ host. host.now) host.entry) (map (λ s. s.now) words.now)) }
    ensures in_range { IfOk result (λ target. IsHost target.host) }
    ensures addresses { IfOk result (λ target. ¬ HasNoAddress (map string_bytes target.found.items)) }
{
    match host {
        Some(host) => Ok(Target {
            host: Host::from_slice(rt.alloc(), host.as_bytes())?,
            found: found_servers(rt, words, config)?,
        }),
        None => target_of_filter(rt, words),
    }
}

/// `retire`: gives up the runs of a host below a number, at each server.
pub fn retire<R: Files + WallClock + Print + Eprint + AllocGlobal, D: Dial, E: Write>(
    rt: &R,
    dial: &D,
    given: RetireArguments<'_>,
    errors: &mut E,
) -> Result<u8, ProcessFault>
    requires { IfSome given.run IsRun }
    ensures refuses { RetireRefuses given.entry (λ fault. result ≡ Err fault) }
    ensures asks { IfOk result (AsksRetire D.leads D.Link.told R.File.remaining (R.shows rt.now)
        given.entry) }
{
    if !given.host.is_none_or(|host| is_host(host.as_bytes())) {
        return Err(ProcessFault::Host);
    }
    let words = given.server.as_slice();
    check_addresses(rt, words)?;
    let target = target_of(rt, given.host, words, given.config)?;
    let run = run_number(rt, given.run)?;
    let Target { host, found } = target;
    let chosen = servers_or(rt.alloc(), words, found.as_slice())?;
    let request = Request::Retire {
        id: Id {
            host,
            run,
            number: 1,
        },
    };
    let servers = chosen.as_slice();
    let order = &request;
    Ok(ask_each(
        rt,
        servers,
        errors,
        |address, errors| ask_retire(rt, dial, address, order, errors),
    ))
}

/// Asks the server at this address to give up runs, and prints what comes of it. Also a number that
/// is the clock's is kept where it is used already: a later run would give up the filters that
/// start until then.
fn ask_retire<R: Print + Eprint + AllocGlobal, D: Dial, E: Write>(
    rt: &R,
    dial: &D,
    address: SocketAddr,
    request: &Request,
    errors: &mut E,
) -> u8
    requires { IsRetire request.now }
    ensures { AsksOver D.leads D.Link.told address TIMEOUT (SendsOrder request.now result) }
{
    let logged = Logged::new(rt, LevelFilter::Error, Console(rt));
    let mut link = link_to(dial, address, &logged);
    let mut output = io::writer(rt);
    let mut told = ServerErrors::new(errors, address);
    run_retire(rt.alloc(), &mut link, request, &mut output, &mut told)
}
