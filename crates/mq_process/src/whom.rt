//! Whom a command asks: the servers of its words, or else those of settings.
ghost use Rattle.std.specs.Prelude.{◌≡◌, ◌⊎◌, [], IfErr, IfOk, IfSome, IsSome, MatchResult, Ok};
ghost use Rattle.std.specs.Prelude.{Err, List, map, string_bytes};
ghost use Rattle.std.specs.Net.Text.{socket_text};
ghost use Rattle.std.specs.declared.net.SocketAddr.{SocketAddr as AnyAddress};
ghost use Rattle.mq_process.specs.Refusals.{HasNoAddress, IsNoAddress};
ghost use Rattle.mq_process.specs.Settings.{CanAsk, ReadsFilter, ReadsServer, ReadsServers};
ghost use Rattle.mq_process.specs.Whom.{AsksAsFilter, FindsAddress, FindsNone, FindsOne, FindsServers};
ghost use Rattle.mq_process.specs.Whom.{IsAskedAt, IsEveryAddress, IsHere, servers_or};

use crate::arguments::{FILTER_SETTINGS, SERVER_SETTINGS, SERVERS_FILE};
use crate::asking::address_of;
use crate::fault::ProcessFault;
use crate::settings::{
    can_run_here, filter_settings_if_there, server_settings, server_settings_if_there,
    servers_if_there,
};
use mq_settings::{FilterSettings, ServerSettings};
use std::alloc::{AllocError, Global};
use std::net::{IpAddr, Ipv4Addr, Ipv6Addr, SocketAddr};
use std::rt::Files;

/// The server's settings in the file that the words name, or those in their place, if they are
/// there. Why they can't be used is logged.
pub fn named_settings<R: Files + Eprint + AllocGlobal>(
    rt: &R,
    config: Option<&str>,
) -> Result<Option<ServerSettings>, ProcessFault>
    ensures reads { IfOk result (λ found. IfSome found (λ settings. ReadsServer R.File.remaining
        (Ok settings))) }
    ensures named { IfSome config.entry (λ _. IfOk result IsSome) }
    ensures fault { IfErr result (λ fault. ReadsServer R.File.remaining (Err fault)) }
{
    match config {
        Some(file) => match server_settings(rt, file) {
            Ok(settings) => Ok(Some(settings)),
            Err(fault) => Err(fault),
        },
        None => server_settings_if_there(rt, SERVER_SETTINGS),
    }
}

/// The filter's settings in their place, if they are there. Why they can't be used is logged.
pub fn filter_settings_in_place<R: Files + Eprint + AllocGlobal>(
    rt: &R,
) -> Result<Option<FilterSettings>, ProcessFault>
    ensures reads { IfOk result (λ found. IfSome found (λ settings. ReadsFilter R.File.remaining
        (Ok settings))) }
    ensures in_range { IfOk result (λ found. IfSome found CanAsk) }
    ensures fault { IfErr result (λ fault. ReadsFilter R.File.remaining (Err fault)) }
{
    filter_settings_if_there(rt, FILTER_SETTINGS)
}

/// The address that the filter's settings in their place have, if these are there.
fn address_of_filter<R: Files + Eprint + AllocGlobal>(rt: &R) -> Result<SocketAddr, ProcessFault>
    ensures { MatchResult result (AsksAsFilter R.File.remaining)
        (λ fault. (fault ≡ ProcessFault.NoServer) ⊎ ReadsFilter R.File.remaining (Err fault)) }
{
    match filter_settings_in_place(rt) {
        Ok(Some(settings)) => Ok(settings.server),
        Ok(None) => Err(ProcessFault::NoServer),
        Err(fault) => Err(fault),
    }
}

/// The servers that the file in its place lists, if it is there. Why they can't be used is logged.
pub fn servers_in_place<R: Files + Eprint + AllocGlobal>(
    rt: &R,
) -> Result<Option<Vec<SocketAddr>>, ProcessFault>
    ensures reads { IfOk result (λ found. IfSome found (λ servers. ReadsServers R.File.remaining
        (Ok servers.items))) }
    ensures fault { IfErr result (λ fault. ReadsServers R.File.remaining (Err fault)) }
{
    servers_if_there(rt, SERVERS_FILE)
}

/// This machine itself, at the port of an address and by its family.
fn here_at(listen: SocketAddr) -> SocketAddr
    ensures { IsHere listen result }
{
    let ip = match listen {
        SocketAddr::V4(_) => IpAddr::V4(Ipv4Addr::new(127, 0, 0, 1)),
        SocketAddr::V6(_) => IpAddr::V6(Ipv6Addr::new(0, 0, 0, 0, 0, 0, 0, 1)),
    };
    SocketAddr::new(ip, listen.port())
}

/// Where the server of settings is asked: where it listens. One that listens at all addresses is
/// asked on this machine, where it can run here, and else it fails with `EveryAddress`.
fn address_to_ask<R: Files>(rt: &R, settings: &ServerSettings) -> Result<SocketAddr, ProcessFault>
    ensures { MatchResult result (IsAskedAt settings.now.listen)
        (λ fault. (fault ≡ ProcessFault.EveryAddress) × IsEveryAddress settings.now.listen) }
{
    if !settings.listen.ip().is_unspecified() {
        return Ok(settings.listen);
    }
    if can_run_here(rt, settings) {
        Ok(here_at(settings.listen))
    } else {
        Err(ProcessFault::EveryAddress)
    }
}

/// The address that settings have: of the server's that the words name, else of those in their
/// place, else of the filter's in theirs. It fails with `NoServer` where neither are there.
fn address_found<R: Files + Eprint + AllocGlobal>(
    rt: &R,
    config: Option<&str>,
) -> Result<SocketAddr, ProcessFault>
    ensures { FindsAddress R.File.remaining config.entry result }
{
    match named_settings(rt, config) {
        Ok(Some(settings)) => address_to_ask(rt, &settings),
        Ok(None) => address_of_filter(rt),
        Err(fault) => Err(fault),
    }
}

/// The one server whose address settings have.
fn server_found<R: Files + Eprint + AllocGlobal>(
    rt: &R,
    config: Option<&str>,
) -> Result<Vec<SocketAddr>, ProcessFault>
    ensures { MatchResult result (λ found. FindsOne R.File.remaining config.entry found.items)
        (FindsNone R.File.remaining config.entry) }
{
    match address_found(rt, config) {
        Ok(address) => match vec![in rt.alloc(); address] {
            Ok(servers) => Ok(servers),
            Err(_) => Err(ProcessFault::Memory),
        },
        Err(fault) => Err(fault),
    }
}

/// The servers of settings: the one of those that the words name; else those that the file of
/// servers lists, where it is in its place; else the one of the server's settings in theirs, or of
/// the filter's.
fn servers_found<R: Files + Eprint + AllocGlobal>(
    rt: &R,
    config: Option<&str>,
) -> Result<Vec<SocketAddr>, ProcessFault>
    ensures { MatchResult result
        (λ found. FindsServers R.File.remaining config.entry (Ok found.items))
        (λ fault. FindsServers R.File.remaining config.entry (Err fault)) }
{
    match config {
        Some(file) => server_found(rt, Some(file)),
        None => match servers_in_place(rt) {
            Ok(Some(servers)) => Ok(servers),
            Ok(None) => server_found(rt, None),
            Err(fault) => Err(fault),
        },
    }
}

/// An address as text.
fn text_of_address<R: Eprint + AllocGlobal>(
    rt: &R,
    address: SocketAddr,
) -> Result<String, ProcessFault>
    ensures text { IfOk result (λ text. string_bytes text ≡ socket_text address) }
    ensures address { IfOk result (λ text. ¬ IsNoAddress (string_bytes text)) }
{
    let text = address.to_string(rt.alloc())?;
    // (as what is printed of an address is one)
    address_of(rt, text.as_str())?;
    Ok(text)
}

/// Addresses as texts.
pub fn texts_of<R: Eprint + AllocGlobal>(
    rt: &R,
    servers: &[SocketAddr],
) -> Result<Vec<String>, ProcessFault>
    ensures texts { IfOk result (λ texts. map string_bytes texts.items
        ≡ map socket_text servers.now) }
    ensures addresses { IfOk result (λ texts. ¬ HasNoAddress (map string_bytes texts.items)) }
{
    let mut texts = Vec::new(rt.alloc());
    for server in servers {
        texts.push(text_of_address(rt, *server)?)?;
    }
    Ok(texts)
}

/// The addresses of the servers that a command asks whose words name none, as texts: those of the
/// settings that the words name, or of those in their place. Where the words name servers, nothing
/// is read, and there are no texts.
pub fn found_servers<R: Files + Eprint + AllocGlobal>(
    rt: &R,
    given: &[&str],
    config: Option<&str>,
) -> Result<Vec<String>, ProcessFault>
    ensures found { IfOk result (λ texts. map (λ s. s.now) given.now ≡ []
        → (servers : List AnyAddress) × FindsServers R.File.remaining config.entry (Ok servers)
        × (map string_bytes texts.items ≡ map socket_text servers)) }
    ensures addresses { IfOk result (λ texts. ¬ HasNoAddress (map string_bytes texts.items)) }
{
    if !given.is_empty() {
        return Ok(Vec::new(rt.alloc()));
    }
    match servers_found(rt, config) {
        Ok(servers) => texts_of(rt, servers.as_slice()),
        Err(fault) => Err(fault),
    }
}

/// Texts that are lent.
fn lent<'a>(alloc: Global, texts: &'a [String]) -> Result<Vec<&'a str>, AllocError>
    ensures { IfOk result (λ lent. map (λ s. s.now) lent.items ≡ map string_bytes texts.now) }
{
    let mut lent = Vec::new(alloc);
    for text in texts {
        lent.push(text.as_str())?;
    }
    Ok(lent)
}

/// The servers of the words, or these where the words name none.
pub fn servers_or<'a>(
    alloc: Global,
    given: &'a [&'a str],
    found: &'a [String],
) -> Result<Vec<&'a str>, AllocError>
    requires given { ¬ HasNoAddress (map (λ s. s.now) given.now) }
    requires found { ¬ HasNoAddress (map string_bytes found.now) }
    ensures servers { IfOk result (λ servers. map (λ s. s.now) servers.items
        ≡ servers_or (map string_bytes found.now) (map (λ s. s.now) given.now)) }
    ensures addresses { IfOk result (λ servers. ¬ HasNoAddress (map (λ s. s.now) servers.items)) }
{
    if given.is_empty() {
        return lent(alloc, found);
    }
    Vec::from_slice(alloc, given)
}
