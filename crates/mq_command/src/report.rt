//! `report`: prints what logins used on a day.
ghost use Rattle.std.specs.Prelude.{◌≡◌, ◌++◌, IfOk, IfSome, OnOk, option_map, MatchResult, Ok};
ghost use Rattle.std.specs.Prelude.{Err, Result as AnyResult};
ghost use Rattle.mq_request.specs.Range.{IsDay, IsAfter, IsLogin, IsPage as IsPageInRange, IsReply, IsRow};
ghost use Rattle.mq_command.specs.Asking.{status_of};
ghost use Rattle.mq_command.specs.Report.{AnswersList, AnswersUsage, AsksPage, AsksUsage, HasRow};
ghost use Rattle.mq_command.specs.Report.{output_fault};
ghost use Rattle.mq_command.specs.Report.{PrintsRow, Reports, ReportsAll, ReportsOne, TakesPage};
ghost use Rattle.mq_command.specs.Orders.{PrintsLine};
ghost use Rattle.mq_command.specs.Top.{CollectsAll, PrintsTop, ReportsTop, columns_line};
ghost use Rattle.mq_command.specs.declared.report.ReportFault.{ReportFault as AnyReportFault};
ghost use Rattle.mq_command.specs.declared.report.ReportFault.TheVariants.{Memory as NoMemory};

mod page;
pub mod row;
pub mod table;
pub mod top;

use crate::ask::{NoAnswer, ask};
use crate::errors::Errors;
use crate::output::OutputFault;
use crate::report::page::is_ascending;
use crate::report::row::{write_row, write_rows};
use crate::report::top::top_of;
use crate::telling::{say_of_server, tell_text};
use mq_link::Link;
use mq_request::bounds::ROW_LIMIT;
use mq_request::{Login, Reply, Request, UsageRow, UsageRows};
use std::alloc::{AllocError, Global};
use std::io::Write;
use thiserror::Error;

/// The rows of a full page.
const PAGE: usize = ROW_LIMIT as usize;

/// The line above the columns of a report.
pub(crate) const COLUMNS: &str = "settled reserved  limit login\n";

/// The most pages of a report, the last of which may not be full.
const MOST_PAGES: u32 = 100_000;

/// Why a report isn't done; what was printed is a prefix of it.
#[derive(Clone, Copy, Debug, PartialEq, Error)]
pub enum ReportFault {
    #[error("{0}")]
    Unanswered(NoAnswer),
    /// A page isn't of that day, ascending and above the one before.
    #[error("bad page")]
    BadPage,
    /// 100,000 full pages came.
    #[error("too many pages")]
    TooManyPages,
    #[error("write failed")]
    Write,
    #[error("out of memory")]
    Memory,
}

impl ReportFault {
    /// Whether the server took none of the tries of a request.
    fn is_not_taken(&self) -> bool {
        matches!(self, ReportFault::Unanswered(NoAnswer::NotTaken))
    }
}

impl From<AllocError> for ReportFault {
    ghost from_gives = { λ _ fault. fault ≡ NoMemory };

    fn from(_error: AllocError) -> ReportFault {
        ReportFault::Memory
    }
}

impl From<OutputFault> for ReportFault {
    ghost from_gives = { λ fault given. given ≡ output_fault fault };

    fn from(fault: OutputFault) -> ReportFault {
        match fault {
            OutputFault::Write => ReportFault::Write,
            OutputFault::Memory => ReportFault::Memory,
        }
    }
}

/// Asks for what a login used on that day.
pub(crate) fn ask_usage<L: Link>(
    alloc: Global,
    link: &mut L,
    day: u32,
    login: &Login,
) -> Result<UsageRow, ReportFault>
    requires day { IsDay day }
    requires login { IsLogin login.now }
    ensures usage { AsksUsage day login.now (L.told link.old) (L.told link.new) result }
    ensures in_range { IfOk result IsRow }
{
    let request = Request::Usage {
        login: login.clone()?,
        day,
    };
    match ask(alloc, link, &request) {
        Ok(reply) => Ok(row_of(reply)),
        Err(fault) => Err(ReportFault::Unanswered(fault)),
    }
}

/// The row of a login, as a reply says it.
fn row_of(reply: Reply) -> UsageRow
    requires answers { AnswersUsage reply }
    requires in_range { IsReply reply }
    ensures row { HasRow reply result }
    ensures in_range { IsRow result }
{
    match reply {
        Reply::Usage {
            login,
            settled,
            reserved,
            cap,
            ..
        } => UsageRow {
            login,
            settled,
            reserved,
            cap,
        },
        _ => unreachable!(),
    }
}

/// Asks for the page of that day after a login.
fn ask_page<L: Link>(
    alloc: Global,
    link: &mut L,
    day: u32,
    after: &Login,
) -> Result<UsageRows, ReportFault>
    requires day { IsDay day }
    requires after { IsAfter after.now }
    ensures page { AsksPage day after.now (L.told link.old) (L.told link.new) result }
    ensures in_range { IfOk result IsPageInRange }
{
    let request = Request::List {
        day,
        after: after.clone()?,
    };
    match ask(alloc, link, &request) {
        Ok(reply) => rows_of(reply, day, after),
        Err(fault) => Err(ReportFault::Unanswered(fault)),
    }
}

/// The rows of a reply's page, where they are of that day and ascend from after a login.
fn rows_of(reply: Reply, day: u32, after: &Login) -> Result<UsageRows, ReportFault>
    requires answers { AnswersList reply }
    requires in_range { IsReply reply }
    ensures page { TakesPage day after.now reply result }
    ensures in_range { IfOk result IsPageInRange }
{
    match reply {
        Reply::List {
            day: answered,
            rows,
        } => {
            if answered != day || !is_ascending(after.as_slice(), rows.as_slice()) {
                return Err(ReportFault::BadPage);
            }
            Ok(rows)
        }
        _ => unreachable!(),
    }
}

/// Prints the line of one login.
fn report_one<L: Link, W: Write>(
    alloc: Global,
    link: &mut L,
    day: u32,
    login: &Login,
    output: &mut W,
) -> Result<(), ReportFault>
    requires day { IsDay day }
    requires login { IsLogin login.now }
    ensures { ReportsOne day login.now (L.told link.old) (L.told link.new) (W.contents output.old)
        (W.contents output.new) result }
{
    let row = ask_usage(alloc, link, day, login)?;
    print_row(alloc, output, &row)
}

/// Prints the line of a row, and flushes the output.
fn print_row<W: Write>(alloc: Global, output: &mut W, row: &UsageRow) -> Result<(), ReportFault>
    ensures { PrintsRow row.now (W.contents output.old) (W.contents output.new) result }
{
    write_row(alloc, output, row)?;
    if output.flush().is_err() {
        return Err(ReportFault::Write);
    }
    Ok(())
}

/// Prints the lines of all logins of the day, page by page until one isn't full.
fn report_all<L: Link, W: Write>(
    alloc: Global,
    link: &mut L,
    day: u32,
    output: &mut W,
) -> Result<(), ReportFault>
    requires { IsDay day }
    ensures { ReportsAll day (L.told link.old) (L.told link.new) (W.contents output.old)
        (W.contents output.new) result }
{
    let mut after = Login::new(Vec::new(alloc));
    for _page in 0..MOST_PAGES {
        let rows = ask_page(alloc, link, day, &after)?;
        let page = rows.as_slice();
        write_rows(alloc, output, page)?;
        if page.len() < PAGE {
            if output.flush().is_err() {
                return Err(ReportFault::Write);
            }
            return Ok(());
        }
        after = page[page.len() - 1].login.clone()?;
    }
    Err(ReportFault::TooManyPages)
}

/// Prints the line of one login, or those of all.
fn report<L: Link, W: Write>(
    alloc: Global,
    link: &mut L,
    day: u32,
    login: Option<&Login>,
    output: &mut W,
) -> Result<(), ReportFault>
    requires day { IsDay day }
    requires login { IfSome login (λ l. IsLogin l.now) }
    ensures { Reports day (option_map (λ l. l.now) login.entry) (L.told link.old) (L.told link.new)
        (W.contents output.old) (W.contents output.new) result }
{
    match login {
        Some(login) => report_one(alloc, link, day, login, output),
        None => report_all(alloc, link, day, output),
    }
}

/// Prints on `output` what a login used on a day, or without a login what each did, and says on
/// `errors` why the report isn't done. The result is the exit status, 0 or 1.
///
/// `day` is a day number, 0 to 376,200, and the login has 1 to 255 bytes. Each request is sent up
/// to three times. The logins are asked for page by page, in ascending order; a page is one
/// moment, and two pages may be two.
pub fn run_report<L: Link, W: Write, E: Errors>(
    alloc: Global,
    link: &mut L,
    day: u32,
    login: Option<&Login>,
    output: &mut W,
    errors: &mut E,
) -> u8
    requires day { IsDay day }
    requires login { IfSome login (λ l. IsLogin l.now) }
    ensures reports { (outcome : AnyResult (Unit {0}) AnyReportFault) × (result ≡ status_of outcome)
        × Reports day (option_map (λ l. l.now) login.entry) (L.told link.old) (L.told link.new)
        (W.contents output.old)
        (W.contents output.new) outcome }
    ensures quiet { result ≡ 0 → errors.new ≡ errors.old }
{
    tell_report(report(alloc, link, day, login, output), errors)
}

/// Says on `errors` why a report isn't done, if it isn't. The result is the exit status, 0 or 1.
fn tell_report<E: Errors>(outcome: Result<(), ReportFault>, errors: &mut E) -> u8
    ensures status { result ≡ status_of outcome }
    ensures quiet { result ≡ 0 → errors.new ≡ errors.old }
{
    match outcome {
        Ok(()) => 0,
        Err(fault) => say_of_server(errors, &fault, fault.is_not_taken()),
    }
}

/// Appends the rows of a page.
fn append(all: &mut Vec<UsageRow>, rows: UsageRows) -> Result<(), AllocError>
    ensures { OnOk result (all.new.items ≡ all.old.items ++ rows) }
{
    all.extend(rows.into_rows().into_iter())
}

/// The rows of all logins of the day, page by page until one isn't full.
pub(crate) fn all_rows<L: Link>(
    alloc: Global,
    link: &mut L,
    day: u32,
) -> Result<Vec<UsageRow>, ReportFault>
    requires { IsDay day }
    ensures { MatchResult result (λ rows. CollectsAll day (L.told link.old) (L.told link.new)
        (Ok rows.items))
        (λ fault. CollectsAll day (L.told link.old) (L.told link.new) (Err fault)) }
{
    let mut all = Vec::new(alloc);
    let mut after = Login::new(Vec::new(alloc));
    for _page in 0..MOST_PAGES {
        let rows = match ask_page(alloc, link, day, &after) {
            Ok(rows) => rows,
            Err(fault) => return Err(fault),
        };
        let page = rows.as_slice();
        if page.len() < PAGE {
            append(&mut all, rows)?;
            return Ok(all);
        }
        after = page[page.len() - 1].login.clone()?;
        append(&mut all, rows)?;
    }
    Err(ReportFault::TooManyPages)
}

/// Prints the lines of those that used most, so many at most.
fn print_top<W: Write>(
    alloc: Global,
    rows: Vec<UsageRow>,
    count: usize,
    output: &mut W,
) -> Result<(), ReportFault>
    ensures { PrintsTop count rows.items (W.contents output.old) (W.contents output.new) result }
{
    let top = top_of(rows, count)?;
    write_rows(alloc, output, top.as_slice())?;
    if output.flush().is_err() {
        return Err(ReportFault::Write);
    }
    Ok(())
}

/// Asks for the rows of all logins of the day, and prints the lines of those that used most.
fn report_top<L: Link, W: Write>(
    alloc: Global,
    link: &mut L,
    day: u32,
    count: usize,
    output: &mut W,
) -> Result<(), ReportFault>
    requires { IsDay day }
    ensures { ReportsTop day count (L.told link.old) (L.told link.new) (W.contents output.old)
        (W.contents output.new) result }
{
    let rows = all_rows(alloc, link, day)?;
    print_top(alloc, rows, count, output)
}

/// Prints on `output` the lines of the logins that used most on a day, most first and of equal ones
/// the lower login, so many at most, and says on `errors` why not. The result is the exit status, 0
/// or 1.
///
/// `day` is a day number, 0 to 376,200. All logins are asked for, page by page, as [`run_report`]
/// does, and nothing is printed where not all pages come.
pub fn run_top<L: Link, W: Write, E: Errors>(
    alloc: Global,
    link: &mut L,
    day: u32,
    count: usize,
    output: &mut W,
    errors: &mut E,
) -> u8
    requires { IsDay day }
    ensures reports { (outcome : AnyResult (Unit {0}) AnyReportFault) × (result ≡ status_of outcome)
        × ReportsTop day count (L.told link.old) (L.told link.new) (W.contents output.old)
        (W.contents output.new) outcome }
    ensures quiet { result ≡ 0 → errors.new ≡ errors.old }
{
    tell_report(report_top(alloc, link, day, count, output), errors)
}

/// Prints on `output` the line above the columns of a report, or says on `errors` why it can't be
/// printed. The result is the exit status, 0 or 1.
pub fn print_columns<W: Write, E: Write>(output: &mut W, errors: &mut E) -> u8
    ensures prints { PrintsLine columns_line (W.contents output.old)
        (W.contents output.new) result }
    ensures quiet { result ≡ 0 → errors.new ≡ errors.old }
{
    tell_text(COLUMNS, output, errors)
}
