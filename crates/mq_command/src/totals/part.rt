//! One server's part of a report of several.
ghost use Rattle.std.specs.Prelude.{◌≡◌, [], IfOk, IfSome, MatchResult, Ok, Err, length};
ghost use Rattle.std.specs.Option.{MatchOption};
ghost use Rattle.std.specs.List.{All, Contains};
ghost use Rattle.mq_request.specs.Range.{IsDay, IsLogin, IsRow};
ghost use Rattle.mq_command.specs.Report.{IsAscendingAbove};
ghost use Rattle.mq_command.specs.Totals.{Completes, CompletesPart, FindsRow, IsListing};
ghost use Rattle.mq_command.specs.Totals.{IsUnlisted, ListsPart};

use crate::report::{ReportFault, all_rows, ask_usage};
use mq_link::Link;
use mq_request::{Login, UsageRow, UsageRows};
use std::alloc::Global;
use std::io::Write;
use std::net::SocketAddr;

/// Says on `errors` that a server is left out, and why.
fn say_left_out<E: Write>(server: &SocketAddr, fault: ReportFault, errors: &mut E) {
    let _ = writeln!(errors, "mailquota: server {server} is left out: {fault}");
}

/// Asks a server for the rows of all logins. Where not all come it is left out, which is said on
/// `errors`.
pub fn list_part<L: Link, E: Write>(
    alloc: Global,
    link: &mut L,
    server: &SocketAddr,
    day: u32,
    errors: &mut E,
) -> Option<UsageRows>
    requires { IsDay day }
    ensures part { ListsPart day (L.told link.old) (L.told link.new) result }
    ensures listing { IfSome result IsListing }
    ensures quiet { IfSome result (λ _. errors.new ≡ errors.old) }
{
    match all_rows(alloc, link, day) {
        Ok(rows) => Some(UsageRows::new(rows)),
        Err(fault) => {
            say_left_out(server, fault, errors);
            None
        }
    }
}

/// The row of a login, if one of these is.
fn find<'a>(rows: &'a [UsageRow], login: &[u8]) -> Option<&'a UsageRow>
    requires { IsAscendingAbove [] rows.now }
    ensures { MatchOption result (IsUnlisted rows.now login.now)
        (λ row. Contains rows.now row.now × (row.now.login ≡ login.now)) }
{
    match rows.binary_search_by(|row| row.login.as_slice().cmp(login)) {
        Ok(place) => Some(&rows[place]),
        Err(_) => None,
    }
}

/// A server's row of a login: that of its list or, where it lists none, what it answers of the
/// login.
fn row_of_login<L: Link>(
    alloc: Global,
    link: &mut L,
    day: u32,
    listed: &[UsageRow],
    login: &Login,
) -> Result<UsageRow, ReportFault>
    requires day { IsDay day }
    requires listed { IsListing listed.now }
    requires login { IsLogin login.now }
    ensures row { FindsRow day listed.now login.now (L.told link.old) (L.told link.new) result }
    ensures in_range { IfOk result IsRow }
{
    match find(listed, login.as_slice()) {
        Some(row) => Ok(row.clone()?),
        None => ask_usage(alloc, link, day, login),
    }
}

/// A server's row of each login.
fn complete<L: Link>(
    alloc: Global,
    link: &mut L,
    day: u32,
    listed: &[UsageRow],
    logins: &[Login],
) -> Result<Vec<UsageRow>, ReportFault>
    requires day { IsDay day }
    requires listed { IsListing listed.now }
    requires logins { All IsLogin logins.now }
    ensures rows { MatchResult result
        (λ rows. Completes day listed.now logins.now (L.told link.old) (L.told link.new)
        (Ok rows.items))
        (λ fault. Completes day listed.now logins.now (L.told link.old) (L.told link.new)
        (Err fault)) }
    ensures in_range { IfOk result (λ rows. All IsRow rows.items) }
    ensures counted { IfOk result (λ rows. length rows.items ≡ length logins.now) }
{
    let mut rows = Vec::new(alloc);
    for login in logins {
        let row = match row_of_login(alloc, link, day, listed, login) {
            Ok(row) => row,
            Err(fault) => return Err(fault),
        };
        match rows.push(row) {
            Ok(()) => {}
            Err(_) => return Err(ReportFault::Memory),
        }
    }
    Ok(rows)
}

/// Completes the rows of a server that isn't left out. Where it doesn't answer it is left out, which
/// is said on `errors`.
pub fn complete_part<L: Link, E: Write>(
    alloc: Global,
    link: &mut L,
    server: &SocketAddr,
    day: u32,
    listed: &Option<UsageRows>,
    logins: &[Login],
    errors: &mut E,
) -> Option<UsageRows>
    requires day { IsDay day }
    requires listed { IfSome listed.now IsListing }
    requires logins { All IsLogin logins.now }
    ensures part { CompletesPart day logins.now listed.now
        (L.told link.old)
        (L.told link.new) result }
    ensures in_range { IfSome result (All IsRow) }
    ensures counted { IfSome result (λ rows. length rows ≡ length logins.now) }
    ensures quiet { IfSome result (λ _. errors.new ≡ errors.old) }
{
    let Some(rows) = listed else {
        return None;
    };
    match complete(alloc, link, day, rows.as_slice(), logins) {
        Ok(rows) => Some(UsageRows::new(rows)),
        Err(fault) => {
            say_left_out(server, fault, errors);
            None
        }
    }
}
