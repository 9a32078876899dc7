//! `report` of several servers: what logins used at all of them together.
ghost use Rattle.std.specs.Prelude.{◌≡◌, ◌≤◌, ◌∷◌, [], true, IfOk, IfSome, MatchResult, Some, length};
ghost use Rattle.std.specs.Prelude.{map, replicate};
ghost use Rattle.std.specs.List.{All as Each, list_all, list_any};
ghost use Rattle.mq_request.specs.Range.{IsDay, IsLogin, IsRow};
ghost use Rattle.mq_command.specs.Forms.{report_text};
ghost use Rattle.mq_command.specs.Totals.{AreAsked, CompletesAll, Gathers, HasListed, IsListing};
ghost use Rattle.mq_command.specs.Totals.{IsMeant, Lists, ListsAll, ListsPart, Picks, PrintsTotals};
ghost use Rattle.mq_command.specs.Totals.{ReportsTotals, is_there, totals};

mod login;
mod part;
mod sum;

use crate::form::{Form, print_report};
use crate::output::OutputFault;
use crate::report::top::top_of;
use crate::telling::say;
use crate::totals::login::logins_of;
use crate::totals::part::{complete_part, list_part};
use crate::totals::sum::totals;
use mq_link::Link;
use mq_request::{Login, UsageRow, UsageRows};
use std::alloc::{AllocError, Global};
use std::io::Write;
use std::net::SocketAddr;

/// Which logins are reported.
#[derive(Debug, Drop)]
pub enum ReportedLogins {
    /// This one, of 1 to 255 bytes.
    One(Login),
    /// So many of those that used most.
    Top(usize),
    /// All.
    All,
}

/// A report of a day.
#[derive(Debug, Drop)]
pub struct ReportOrder {
    /// 0 to 376,200.
    pub day: u32,
    pub logins: ReportedLogins,
    pub form: Form,
}

/// Asks each server in turn for the rows of all logins. Room for the parts is made first: where that
/// growth is refused, none was asked.
fn list_each<L: Link, E: Write>(
    alloc: Global,
    links: &mut [L],
    servers: &[SocketAddr],
    day: u32,
    errors: &mut E,
) -> Result<Vec<Option<UsageRows>>, AllocError>
    requires day { IsDay day }
    requires servers { length servers.now ≡ length links.old }
    ensures asked { MatchResult result (λ parts. AreAsked (λ place. ListsPart day)
        (map L.told links.old)
        (map L.told links.new) parts.items) (λ _. links.new ≡ links.old) }
    ensures listing { IfOk result (λ parts. Each (λ part. IfSome part IsListing) parts.items) }
    ensures quiet { IfOk result (λ parts. list_all is_there parts.items ≡ true
        → errors.new ≡ errors.old) }
{
    let mut parts = Vec::with_capacity(alloc, links.len())?;
    for i in 0..links.len() {
        let part = list_part(alloc, &mut links[i], &servers[i], day, errors);
        // (there is room)
        parts.push(part).unwrap();
    }
    Ok(parts)
}

/// Completes the rows of each server in turn. Room for the parts is made first: where that growth is
/// refused, none was asked.
fn complete_each<L: Link, E: Write>(
    alloc: Global,
    links: &mut [L],
    servers: &[SocketAddr],
    day: u32,
    listed: &[Option<UsageRows>],
    logins: &[Login],
    errors: &mut E,
) -> Result<Vec<Option<UsageRows>>, AllocError>
    requires day { IsDay day }
    requires servers { length servers.now ≡ length links.old }
    requires counted { length listed.now ≡ length links.old }
    requires listing { Each (λ part. IfSome part IsListing) listed.now }
    requires logins { Each IsLogin logins.now }
    ensures asked { MatchResult result (λ parts. CompletesAll day logins.now listed.now
        (map L.told links.old)
        (map L.told links.new) parts.items) (λ _. links.new ≡ links.old) }
    ensures in_range { IfOk result (λ parts. Each (λ part. IfSome part (Each IsRow)) parts.items) }
    ensures counted { IfOk result (λ parts. Each (λ part. IfSome part
        (λ rows. length rows ≡ length logins.now)) parts.items) }
    ensures quiet { IfOk result (λ parts. list_all is_there parts.items ≡ true
        → errors.new ≡ errors.old) }
{
    let mut parts = Vec::with_capacity(alloc, links.len())?;
    for i in 0..links.len() {
        let part = complete_part(
            alloc,
            &mut links[i],
            &servers[i],
            day,
            &listed[i],
            logins,
            errors,
        );
        // (there is room)
        parts.push(part).unwrap();
    }
    Ok(parts)
}

/// What the servers list, and the logins that are meant.
#[derive(Drop)]
struct ListedLogins {
    /// A server's rows, where it isn't left out.
    parts: Vec<Option<UsageRows>>,
    logins: Vec<Login>,
}

/// So many servers that list nothing, and the one login that is meant.
fn list_one(alloc: Global, login: &Login, count: usize) -> Result<ListedLogins, AllocError>
    ensures { IfOk result (λ listed. (listed.parts.items ≡ replicate count (Some []))
        × (listed.logins.items ≡ login.now ∷ [])) }
{
    let mut parts = Vec::new(alloc);
    for _server in 0..count {
        parts.push(Some(UsageRows::new(Vec::new(alloc))))?;
    }
    let mut logins = Vec::new(alloc);
    logins.push(login.clone()?)?;
    Ok(ListedLogins { parts, logins })
}

/// Asks each server in turn for the rows of all logins, which are those that are meant.
fn list_all<L: Link, E: Write>(
    alloc: Global,
    links: &mut [L],
    servers: &[SocketAddr],
    day: u32,
    errors: &mut E,
) -> Result<ListedLogins, AllocError>
    requires day { IsDay day }
    requires servers { length servers.now ≡ length links.old }
    ensures lists { MatchResult result (λ listed. ListsAll day (map L.told links.old)
        (map L.told links.new) listed.parts.items listed.logins.items)
        (λ _. HasListed day (map L.told links.old) (map L.told links.new)) }
    ensures listing { IfOk result (λ listed. Each (λ part. IfSome part IsListing)
        listed.parts.items) }
    ensures in_range { IfOk result (λ listed. Each IsLogin listed.logins.items) }
    ensures quiet { IfOk result (λ listed. list_all is_there listed.parts.items ≡ true
        → errors.new ≡ errors.old) }
{
    let parts = list_each(alloc, links, servers, day, errors)?;
    let logins = logins_of(alloc, parts.as_slice())?;
    Ok(ListedLogins { parts, logins })
}

/// Finds the logins that are meant, and asks for what the servers list where they are to say that.
fn list<L: Link, E: Write>(
    alloc: Global,
    links: &mut [L],
    servers: &[SocketAddr],
    order: &ReportOrder,
    errors: &mut E,
) -> Result<ListedLogins, AllocError>
    requires day { IsDay order.now.day }
    requires logins { IsMeant order.now.logins }
    requires servers { length servers.now ≡ length links.old }
    ensures lists { MatchResult result (λ listed. Lists order.now.logins order.now.day
        (map L.told links.old) (map L.told links.new) listed.parts.items listed.logins.items)
        (λ _. HasListed order.now.day (map L.told links.old) (map L.told links.new)) }
    ensures listing { IfOk result (λ listed. Each (λ part. IfSome part IsListing)
        listed.parts.items) }
    ensures in_range { IfOk result (λ listed. Each IsLogin listed.logins.items) }
    ensures quiet { IfOk result (λ listed. list_all is_there listed.parts.items ≡ true
        → errors.new ≡ errors.old) }
{
    match &order.logins {
        ReportedLogins::One(login) => list_one(alloc, login, links.len()),
        ReportedLogins::Top(_) | ReportedLogins::All => {
            list_all(alloc, links, servers, order.day, errors)
        }
    }
}

/// What the servers have of the logins that are meant.
#[derive(Drop)]
struct GatheredRows {
    logins: Vec<Login>,
    /// A server's row of each login, where it isn't left out.
    parts: Vec<Option<UsageRows>>,
}

/// Gathers the rows of the logins that are meant.
fn gather<L: Link, E: Write>(
    alloc: Global,
    links: &mut [L],
    servers: &[SocketAddr],
    order: &ReportOrder,
    errors: &mut E,
) -> Result<GatheredRows, AllocError>
    requires day { IsDay order.now.day }
    requires logins { IsMeant order.now.logins }
    requires servers { length servers.now ≡ length links.old }
    ensures gathers { MatchResult result (λ gathered. Gathers order.now.logins order.now.day
        (map L.told links.old)
        (map L.told links.new) gathered.logins.items gathered.parts.items)
        (λ _. HasListed order.now.day (map L.told links.old) (map L.told links.new)) }
    ensures in_range { IfOk result (λ gathered. Each (λ part. IfSome part (Each IsRow))
        gathered.parts.items) }
    ensures counted { IfOk result (λ gathered. Each (λ part. IfSome part
        (λ rows. length rows ≡ length gathered.logins.items)) gathered.parts.items) }
    ensures quiet { IfOk result (λ gathered. list_all is_there gathered.parts.items ≡ true
        → errors.new ≡ errors.old) }
{
    let listed = list(alloc, links, servers, order, errors)?;
    let parts = complete_each(
        alloc,
        links,
        servers,
        order.day,
        listed.parts.as_slice(),
        listed.logins.as_slice(),
        errors,
    )?;
    Ok(GatheredRows {
        logins: listed.logins,
        parts,
    })
}

/// The rows that are reported: those of the logins that used most, or all.
fn pick(logins: &ReportedLogins, rows: Vec<UsageRow>) -> Result<Vec<UsageRow>, AllocError>
    ensures { IfOk result (λ picked. Picks logins.now rows.items picked.items) }
{
    match logins {
        ReportedLogins::Top(count) => top_of(rows, *count),
        ReportedLogins::One(_) | ReportedLogins::All => Ok(rows),
    }
}

/// The rows that are reported of what the servers have.
fn sum_up(
    alloc: Global,
    gathered: &GatheredRows,
    logins: &ReportedLogins,
) -> Result<Vec<UsageRow>, AllocError>
    requires few { length gathered.now.parts.items ≤ 4000 }
    requires in_range { Each (λ part. IfSome part (Each IsRow)) gathered.now.parts.items }
    requires counted { Each (λ part. IfSome part
        (λ rows. length rows ≡ length gathered.now.logins.items)) gathered.now.parts.items }
    ensures { IfOk result (λ rows. Picks logins.now
        (totals gathered.now.parts.items 0 gathered.now.logins.items) rows.items) }
{
    let rows = totals(alloc, gathered.logins.as_slice(), gathered.parts.as_slice())?;
    pick(logins, rows)
}

/// Whether some server isn't left out.
fn has_part(parts: &[Option<UsageRows>]) -> bool
    ensures { result ≡ list_any is_there parts.now }
{
    parts.iter().any(|part| part.is_some())
}

/// Whether no server is left out.
fn is_whole(parts: &[Option<UsageRows>]) -> bool
    ensures { result ≡ list_all is_there parts.now }
{
    parts.iter().all(|part| part.is_some())
}

/// Prints the rows that are reported, where some server isn't left out. The result is the exit
/// status, 0 or 1: 1 where one is.
fn print_totals<W: Write, E: Write>(
    alloc: Global,
    order: &ReportOrder,
    date: &str,
    parts: &[Option<UsageRows>],
    rows: &[UsageRow],
    output: &mut W,
    errors: &mut E,
) -> u8
    ensures prints { PrintsTotals parts.now
        (report_text order.now.form order.now.day date.now rows.now)
        (W.contents output.old)
        (W.contents output.new) result }
    ensures whole { result ≡ 0 → list_all is_there parts.now ≡ true }
    ensures quiet { result ≡ 0 → errors.new ≡ errors.old }
{
    if !has_part(parts) {
        return 1;
    }
    let printed = print_report(alloc, order.form, order.day, date, rows, output, errors);
    if is_whole(parts) { printed } else { 1 }
}

/// Prints on `output` what logins used on a day at several servers together, and the sums of their
/// limits there: of one login, of all, or of those that used most in all. A server that doesn't
/// answer is left out of the sums, which is said on `errors`. The result is the exit status, 0 or 1:
/// 1 where a server is left out, and then nothing is printed where each is.
///
/// A list of a server has the logins that sent there. So it is asked for its rows page by page, as
/// by `run_report`, and then about each login that it doesn't list and another server does. `links`
/// are those to `servers`, in their order, 4,000 at most. `date` is that of the day, `YYYY-MM-DD`.
pub fn run_totals<L: Link, W: Write, E: Write>(
    alloc: Global,
    links: &mut [L],
    servers: &[SocketAddr],
    order: &ReportOrder,
    date: &str,
    output: &mut W,
    errors: &mut E,
) -> u8
    requires day { IsDay order.now.day }
    requires logins { IsMeant order.now.logins }
    requires servers { length servers.now ≡ length links.old }
    requires few { length links.old ≤ 4000 }
    ensures reports { ReportsTotals order.now date.now (map L.told links.old)
        (map L.told links.new)
        (W.contents output.old)
        (W.contents output.new) result }
    ensures quiet { result ≡ 0 → errors.new ≡ errors.old }
{
    let gathered = match gather(alloc, links, servers, order, errors) {
        Ok(gathered) => gathered,
        Err(_) => return say(errors, &OutputFault::Memory),
    };
    let rows = match sum_up(alloc, &gathered, &order.logins) {
        Ok(rows) => rows,
        Err(_) => return say(errors, &OutputFault::Memory),
    };
    print_totals(
        alloc,
        order,
        date,
        gathered.parts.as_slice(),
        rows.as_slice(),
        output,
        errors,
    )
}
