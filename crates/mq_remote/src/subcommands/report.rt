//! `report`: prints what logins used on a day.
ghost use Rattle.std.specs.Prelude.{◌≡◌, Err, IfErr, IfOk, IfSome, MatchBool, map};
ghost use Rattle.mq_request.specs.Range.{IsDay};
ghost use Rattle.mq_command.specs.Totals.{IsMeant};
ghost use Rattle.mq_process.specs.Arguments.{IsReportArguments};
ghost use Rattle.mq_process.specs.Links.{AsksOver};
ghost use Rattle.mq_process.specs.Refusals.{HasNoAddress, NamesLogin, ReportRefuses};
ghost use Rattle.mq_remote.specs.Asked.{AreSummed, AsksAt, AsksEachOf, AsksReport, NamesReported};
ghost use Rattle.mq_remote.specs.Asked.{ReportsBy, ReportsRows, ReportsThere, is_headed};

use crate::subcommands::shares::{are_several, check_few};
use crate::subcommands::sums::report_together;
use log::{LevelFilter, Logged};
use mq_command::{
    Errors, Form, ReportOrder, ReportedLogins, ServerErrors, print_columns, run_report, run_top,
};
use mq_link::Link;
use mq_process::{
    Console, Dial, LoginArgument, ProcessFault, ReportArguments, TIMEOUT, ask_each,
    check_addresses, day_named, end_process, form_of, found_servers, link_to, login_of,
    names_login, refused_login, servers_or, tell_note,
};
use mq_request::bounds::LAST_DAY;
use std::alloc::Global;
use std::io;
use std::io::{BufWriter, Write};
use std::net::SocketAddr;
use std::rt::{Clock, Files};

/// The logins that the words name.
fn reported_of(
    alloc: Global,
    given: Option<LoginArgument<'_>>,
    top: Option<u32>,
) -> Result<ReportedLogins, ProcessFault>
    requires { IfSome given NamesLogin }
    ensures named { IfOk result (NamesReported given.entry top) }
    ensures in_range { IfOk result IsMeant }
{
    match (given, top) {
        (Some(login), _) => Ok(ReportedLogins::One(login_of(alloc, login)?)),
        (None, Some(count)) => Ok(ReportedLogins::Top(count as usize)),
        (None, None) => Ok(ReportedLogins::All),
    }
}

/// Logs why the words name no login, and gives the fault.
fn no_login<R: Eprint>(rt: &R, given: Option<LoginArgument<'_>>) -> ProcessFault
    ensures { result ≡ ProcessFault.Login }
{
    match given {
        Some(login) => refused_login(rt, login),
        None => ProcessFault::Login,
    }
}

/// Says on `errors` what is to be noted of the one login that is reported.
fn tell_note_of<E: Write>(
    alloc: Global,
    reported: &ReportedLogins,
    errors: &mut E,
) -> Result<(), ProcessFault> {
    match reported {
        ReportedLogins::One(login) => tell_note(alloc, login, errors),
        ReportedLogins::Top(_) | ReportedLogins::All => Ok(()),
    }
}

/// `report`: prints what one login, or all, or those that used most, used on a day; on a terminal
/// below a line that says what the columns are. Of several servers that settings name it prints the
/// sums, in one table, unless each is to be shown, and as JSON always the sums.
pub fn report<R: Files + Clock + Print + Eprint + AllocGlobal, D: Dial, E: Write>(
    rt: &R,
    dial: &D,
    given: ReportArguments<'_>,
    is_on_terminal: bool,
    errors: &mut E,
) -> Result<u8, ProcessFault>
    requires { IsReportArguments given }
    ensures refuses { ReportRefuses given.entry (λ fault. result ≡ Err fault) }
    ensures asks { IfOk result (AsksReport D.leads D.Link.told R.File.remaining given.entry
        is_on_terminal) }
{
    if !given.login.is_none_or(|login| names_login(login)) {
        return Err(no_login(rt, given.login));
    }
    let words = given.servers.as_slice();
    check_addresses(rt, words)?;
    let found = found_servers(rt, words, given.config)?;
    let chosen = servers_or(rt.alloc(), words, found.as_slice())?;
    let servers = chosen.as_slice();
    let day = day_named(rt, given.day, given.config, LAST_DAY)?;
    let logins = reported_of(rt.alloc(), given.login, given.top)?;
    tell_note_of(rt.alloc(), &logins, errors)?;
    let form = form_of(given.output, is_on_terminal);
    let order = ReportOrder { day, logins, form };
    report_by(rt, dial, words, servers, &order, given.is_each, errors)
}

/// Whether the sums of servers are reported: as JSON, or of several where the words name none, unless
/// they are to be shown apart.
fn are_summed(form: Form, is_each: bool, words: &[&str], servers: &[&str]) -> bool
    ensures { MatchBool result (AreSummed form is_each (map (λ s. s.now) words.now)
        (map (λ s. s.now) servers.now)) (¬ AreSummed form is_each (map (λ s. s.now) words.now)
        (map (λ s. s.now) servers.now)) }
{
    match form {
        Form::Json => true,
        Form::Plain | Form::Shown => !is_each && are_several(words, servers),
    }
}

/// Whether what a server has stands below a line of columns.
fn is_headed(form: Form) -> bool
    ensures { result ≡ is_headed form }
{
    matches!(form, Form::Shown)
}

/// Asks these servers what logins used on a day, and prints it: the sums of it, or what each has.
fn report_by<R: Print + Eprint + AllocGlobal, D: Dial, E: Write>(
    rt: &R,
    dial: &D,
    words: &[&str],
    servers: &[&str],
    order: &ReportOrder,
    is_each: bool,
    errors: &mut E,
) -> Result<u8, ProcessFault>
    requires servers { ¬ HasNoAddress (map (λ s. s.now) servers.now) }
    requires day { IsDay order.now.day }
    requires logins { IsMeant order.now.logins }
    ensures { IfOk result (ReportsBy D.leads D.Link.told order.now is_each
        (map (λ s. s.now) words.now) (map (λ s. s.now) servers.now)) }
{
    if are_summed(order.form, is_each, words, servers) {
        check_few(servers)?;
        return report_together(rt, dial, servers, order, errors);
    }
    Ok(report_apart(rt, dial, servers, order, errors))
}

/// Asks these servers what logins used on a day, and prints what each has.
fn report_apart<R: Print + Eprint + AllocGlobal, D: Dial, E: Write>(
    rt: &R,
    dial: &D,
    servers: &[&str],
    order: &ReportOrder,
    errors: &mut E,
) -> u8
    requires servers { ¬ HasNoAddress (map (λ s. s.now) servers.now) }
    requires day { IsDay order.now.day }
    requires logins { IsMeant order.now.logins }
    ensures { AsksEachOf D.leads D.Link.told (ReportsThere order.now.day order.now.logins
        (is_headed order.now.form)) (map (λ s. s.now) servers.now) result }
{
    let (day, reported) = (order.day, &order.logins);
    let has_columns = is_headed(order.form);
    ask_each(
        rt,
        servers,
        errors,
        |address, errors| report_at(rt, dial, address, day, reported, has_columns, errors),
    )
}

/// Asks the server at this address what these logins used on a day, and prints it. Where memory
/// runs out it isn't asked.
fn report_at<R: Print + Eprint + AllocGlobal, D: Dial, E: Write>(
    rt: &R,
    dial: &D,
    address: SocketAddr,
    day: u32,
    reported: &ReportedLogins,
    has_columns: bool,
    errors: &mut E,
) -> u8
    requires day { IsDay day }
    requires reported { IsMeant reported.now }
    ensures { AsksAt D.leads D.Link.told (ReportsThere day reported.now has_columns) address result }
{
    end_process(
        ask_report(rt, dial, address, day, reported, has_columns, errors),
        errors,
    )
}

/// Asks the server at this address what these logins used on a day, and prints it.
fn ask_report<R: Print + Eprint + AllocGlobal, D: Dial, E: Write>(
    rt: &R,
    dial: &D,
    address: SocketAddr,
    day: u32,
    reported: &ReportedLogins,
    has_columns: bool,
    errors: &mut E,
) -> Result<u8, ProcessFault>
    requires day { IsDay day }
    requires reported { IsMeant reported.now }
    ensures asks { IfOk result (λ status. AsksOver D.leads D.Link.told address TIMEOUT
        (ReportsThere day reported.now has_columns status)) }
    ensures memory { IfErr result (λ fault. fault ≡ ProcessFault.Memory) }
{
    let mut output = BufWriter::new(rt.alloc(), io::writer(rt)).map_err(|_| ProcessFault::Memory)?;
    let logged = Logged::new(rt, LevelFilter::Error, Console(rt));
    let mut link = link_to(dial, address, &logged);
    Ok(report_over(
        rt.alloc(),
        &mut link,
        day,
        reported,
        has_columns,
        &mut output,
        &mut ServerErrors::new(errors, address),
    ))
}

/// Asks over a link what these logins used on a day, and prints it, below a line that says what the
/// columns are, where that is wanted.
fn report_over<L: Link, W: Write, E: Errors>(
    alloc: Global,
    link: &mut L,
    day: u32,
    reported: &ReportedLogins,
    has_columns: bool,
    output: &mut W,
    errors: &mut E,
) -> u8
    requires day { IsDay day }
    requires reported { IsMeant reported.now }
    ensures { ReportsThere day reported.now has_columns result (L.told link.old) (L.told link.new)
        (W.contents output.old)
        (W.contents output.new) }
{
    if has_columns {
        let printed = print_columns(output, errors);
        if printed != 0 {
            return printed;
        }
    }
    report_rows(alloc, link, day, reported, output, errors)
}

/// Asks over a link what these logins used on a day, and prints it.
fn report_rows<L: Link, W: Write, E: Errors>(
    alloc: Global,
    link: &mut L,
    day: u32,
    reported: &ReportedLogins,
    output: &mut W,
    errors: &mut E,
) -> u8
    requires day { IsDay day }
    requires reported { IsMeant reported.now }
    ensures { ReportsRows day reported.now result (L.told link.old) (L.told link.new)
        (W.contents output.old)
        (W.contents output.new) }
{
    match reported {
        ReportedLogins::One(login) => run_report(alloc, link, day, Some(login), output, errors),
        ReportedLogins::Top(count) => run_top(alloc, link, day, *count, output, errors),
        ReportedLogins::All => run_report(alloc, link, day, None, output, errors),
    }
}
