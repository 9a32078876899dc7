//! What the subcommands that ask a server have in common: their words checked, the link, and the
//! first number of a run.
ghost use Rattle.std.specs.Prelude.{◌≡◌, Err, IfErr, IfOk, MatchBool, MatchResult, None, map};
ghost use Rattle.mq_command.specs.Vis.{note_of};
ghost use Rattle.std.specs.Net.Grammar.{IsSocketText};
ghost use Rattle.mq_request.specs.Range.{IsHost, IsLogin};
ghost use Rattle.mq_process.specs.Refusals.{HasNoAddress, IsNoAddress, Names, NamesLogin};
ghost use Rattle.mq_process.specs.Refusals.{OrderRefuses};

use crate::arguments::LoginArgument;
use crate::console::Console;
use crate::dialing::Dial;
use crate::fault::ProcessFault;
use crate::servers::check_addresses;
use log::{LevelFilter, Log, Logged, error};
use mq_command::{TRIES, is_login_text, login_of_text, note_of};
use mq_link::LoggedLink;
use mq_request::{EscapedText, Host, Id, Login, is_host, is_login};
use mq_settings::address_flaw;
use std::alloc::{AllocError, Global};
use std::io::Write;
use std::net::SocketAddr;

/// How long it may take to connect, to write a request and to read its reply, in milliseconds.
pub const TIMEOUT: u64 = 2_000;

/// Logs what a text lacks that is no numeric address with a port.
fn refused_address<R: Eprint>(rt: &R, text: &str) -> ProcessFault
    ensures { result ≡ ProcessFault.Address }
{
    let logged = Logged::new(rt, LevelFilter::Error, Console(rt));
    let shown = EscapedText(text.as_bytes());
    let flaw = address_flaw(text);
    error!(logged; "address {shown}: {flaw}");
    ProcessFault::Address
}

/// The numeric address and port that a text spells. What another text lacks is logged.
pub fn address_of<R: Eprint>(rt: &R, text: &str) -> Result<SocketAddr, ProcessFault>
    ensures { MatchResult result (IsSocketText text.now) (λ fault. (fault ≡ ProcessFault.Address)
        × IsNoAddress text.now) }
{
    match text.parse::<SocketAddr>() {
        Ok(address) => Ok(address),
        Err(_) => Err(refused_address(rt, text)),
    }
}

/// Whether words name a login.
pub fn names_login(given: LoginArgument<'_>) -> bool
    ensures { MatchBool result (NamesLogin given.entry) (¬ NamesLogin given.entry) }
{
    match given {
        LoginArgument::Reported(text) => is_login(text.as_bytes()),
        LoginArgument::Printed(text) => is_login_text(text),
    }
}

/// Logs why words name no login, and gives the fault.
pub fn refused_login<R: Eprint>(rt: &R, given: LoginArgument<'_>) -> ProcessFault
    ensures { result ≡ ProcessFault.Login }
{
    let logged = Logged::new(rt, LevelFilter::Error, Console(rt));
    let (text, is_printed) = match given {
        LoginArgument::Reported(text) => (text, false),
        LoginArgument::Printed(text) => (text, true),
    };
    let named = EscapedText(text.as_bytes());
    if is_printed && is_login(text.as_bytes()) {
        error!(logged; "login {named}: so spaces, backslashes and what isn't printable ASCII are written, or use --login");
    } else {
        error!(logged; "login {named}: it has to have 1 to 255 bytes");
    }
    ProcessFault::Login
}

/// The login that words name.
pub fn login_of(alloc: Global, given: LoginArgument<'_>) -> Result<Login, ProcessFault>
    requires { NamesLogin given }
    ensures named { IfOk result (Names given.entry) }
    ensures in_range { IfOk result IsLogin }
    ensures memory { IfErr result (λ fault. fault ≡ ProcessFault.Memory) }
{
    match given {
        LoginArgument::Reported(text) => Ok(Login::from_slice(alloc, text.as_bytes())?),
        LoginArgument::Printed(text) => match login_of_text(alloc, text)? {
            Some(login) => Ok(login),
            None => unreachable!(),
        },
    }
}

/// Refuses a host, a login and addresses of servers that aren't what they should be.
pub fn checked<R: Eprint>(
    rt: &R,
    host: &str,
    login: LoginArgument<'_>,
    servers: &[&str],
) -> Result<(), ProcessFault>
    ensures refuses { OrderRefuses host.now login.entry (map (λ s. s.now) servers.now)
        (λ fault. result ≡ Err fault) }
    ensures host { IfOk result (λ _. IsHost host.now) }
    ensures login { IfOk result (λ _. NamesLogin login.entry) }
    ensures addresses { IfOk result (λ _. ¬ HasNoAddress (map (λ s. s.now) servers.now)) }
{
    if !is_host(host.as_bytes()) {
        return Err(ProcessFault::Host);
    }
    if !names_login(login) {
        return Err(refused_login(rt, login));
    }
    check_addresses(rt, servers)
}

/// Says on `errors` what is to be noted of a login that smtpd doesn't report so, if anything is.
pub fn tell_note<E: Write>(alloc: Global, login: &Login, errors: &mut E) -> Result<(), ProcessFault>
    ensures { note_of login.now ≡ None → errors.new ≡ errors.old }
{
    if let Some(note) = note_of(alloc, login.as_slice())? {
        let _ = writeln!(errors, "mailquota: note: {note}");
    }
    Ok(())
}

/// A link to the server at this address, with a log of its troubles: one connection for all that a
/// command asks.
pub fn link_to<'a, D: Dial, G: Log>(
    dial: &D,
    address: SocketAddr,
    log: &'a G,
) -> LoggedLink<'a, D::Link, G>
    ensures { D.leads result address TIMEOUT }
{
    LoggedLink::new(dial.link(address, TIMEOUT, true), log, TRIES)
}

/// The first number of a run.
pub fn first_id(alloc: Global, host: &str, run: u64) -> Result<Id, AllocError>
    ensures { IfOk result (λ id. id ≡ record { host = host.now; run = run; number = 1 }) }
{
    Ok(Id {
        host: Host::from_slice(alloc, host.as_bytes())?,
        run,
        number: 1,
    })
}
