//! The sums of what logins used at several servers.
ghost use Rattle.std.specs.Prelude.{◌≤◌, IfOk, length, map};
ghost use Rattle.std.specs.Net.Grammar.{IsSocketText};
ghost use Rattle.mq_request.specs.Range.{IsDay};
ghost use Rattle.mq_command.specs.Totals.{IsMeant};
ghost use Rattle.mq_process.specs.declared.asking.TheConstants.{TIMEOUT};
ghost use Rattle.mq_remote.specs.Totals.{AsksTogether, InStep};

use log::{LevelFilter, Log, Logged};
use mq_command::{ReportOrder, run_totals};
use mq_dates::date_of_day;
use mq_link::LoggedLink;
use mq_process::{Console, Dial, ProcessFault, address_of, link_to};
use std::alloc::{AllocError, Global};
use std::io;
use std::io::{BufWriter, Write};
use std::net::SocketAddr;

/// The addresses that these texts spell.
fn addresses_of<R: Eprint + AllocGlobal>(
    rt: &R,
    servers: &[&str],
) -> Result<Vec<SocketAddr>, ProcessFault>
    ensures { IfOk result (λ addresses. InStep IsSocketText (map (λ s. s.now) servers.now)
        addresses.items) }
{
    let mut addresses = Vec::new(rt.alloc());
    for server in servers {
        addresses.push(address_of(rt, server)?)?;
    }
    Ok(addresses)
}

/// A link to the server at each of these addresses, with one log of their troubles.
fn links_to<'a, D: Dial, G: Log>(
    alloc: Global,
    dial: &D,
    addresses: &[SocketAddr],
    log: &'a G,
) -> Result<Vec<LoggedLink<'a, D::Link, G>>, AllocError>
    ensures { IfOk result (λ links. InStep (λ address link. D.leads link address TIMEOUT)
        addresses.now links.items) }
{
    let mut links = Vec::new(alloc);
    for address in addresses {
        links.push(link_to(dial, *address, log))?;
    }
    Ok(links)
}

/// Asks all these servers what logins used on a day, and prints the sums of it together. It fails
/// before it asks the first.
pub fn report_together<R: Print + Eprint + AllocGlobal, D: Dial, E: Write>(
    rt: &R,
    dial: &D,
    servers: &[&str],
    order: &ReportOrder,
    errors: &mut E,
) -> Result<u8, ProcessFault>
    requires few { length servers.now ≤ 4000 }
    requires day { IsDay order.now.day }
    requires logins { IsMeant order.now.logins }
    ensures { IfOk result (AsksTogether D.leads D.Link.told order.now (map (λ s. s.now) servers.now)) }
{
    let mut output = BufWriter::new(rt.alloc(), io::writer(rt)).map_err(|_| ProcessFault::Memory)?;
    report_sums(rt, dial, servers, order, &mut output, errors)
}

/// Asks all these servers what logins used on a day, and prints the sums of it on `output`.
fn report_sums<R: Eprint + AllocGlobal, D: Dial, W: Write, E: Write>(
    rt: &R,
    dial: &D,
    servers: &[&str],
    order: &ReportOrder,
    output: &mut W,
    errors: &mut E,
) -> Result<u8, ProcessFault>
    requires few { length servers.now ≤ 4000 }
    requires day { IsDay order.now.day }
    requires logins { IsMeant order.now.logins }
    ensures { IfOk result (AsksTogether D.leads D.Link.told order.now (map (λ s. s.now) servers.now)) }
{
    let date = date_of_day(rt.alloc(), order.day)?;
    let spelled = addresses_of(rt, servers)?;
    let addresses = spelled.as_slice();
    let logged = Logged::new(rt, LevelFilter::Error, Console(rt));
    let mut links = links_to(rt.alloc(), dial, addresses, &logged)?;
    Ok(run_totals(
        rt.alloc(),
        links.as_mut_slice(),
        addresses,
        order,
        date.as_str(),
        output,
        errors,
    ))
}
