//! Limits that each server gets by its own default: its share of a number, or the default itself.
ghost use Rattle.std.specs.Prelude.{◌≡◌, ◌≤◌, ◌+◌, IfOk, IfSome, MatchBool, length, map};
ghost use Rattle.mq_request.specs.Range.{IsAmount, IsDay};
ghost use Rattle.mq_command.specs.Allowing.{IsSetter, limit_of};
ghost use Rattle.mq_command.specs.Orders.{IsLimit};
ghost use Rattle.mq_command.specs.Shares.{printed_end};
ghost use Rattle.mq_process.specs.Links.{AsksOver};
ghost use Rattle.mq_process.specs.Refusals.{HasNoAddress};
ghost use Rattle.mq_process.specs.declared.asking.TheConstants.{TIMEOUT};
ghost use Rattle.mq_remote.specs.Shares.{AreSeveral, DefaultAt, EndsShares, GivesMoreAt};
ghost use Rattle.mq_remote.specs.Shares.{GivesShare, SharesAfterFirst, IsGiven, IsRule, SetsShare, SharesAmong};
ghost use Rattle.mq_remote.specs.Shares.{SharesAt, SharesEach, SharesFrom, SharesNumber};
ghost use Rattle.mq_remote.specs.Shares.{SharesOthers, SharesThere};
ghost use Rattle.mq_remote.specs.Shares.{after_of, share_by, share_end, status_with, sum_with};
ghost use Rattle.mq_remote.specs.declared.subcommands.shares.ShareOrder.TheVariants.{More};

use log::{LevelFilter, Logged};
use mq_command::{
    Errors, NoAnswer, ServerErrors, SetEnd, Setter, ask_default, print_heading, print_sum,
    run_fresh_at, run_limit_at, run_resume, say_undone, share_of,
};
use mq_link::Link;
use mq_process::{Console, Dial, ProcessFault, address_of, link_to, refuse};
use mq_request::{Id, Request};
use std::alloc::{AllocError, Global};
use std::io;
use std::io::Write;
use std::net::SocketAddr;

/// How many servers are asked together at most: sums of their limits, as a report has them, are
/// numbers of 32 bits.
const MOST: usize = 4_000;

/// What is asked of each server with its share.
#[derive(Clone, Copy)]
pub enum ShareOrder {
    /// The share is the login's limit, under the first number of the run alone.
    Numbered,
    /// It is the limit, under the first number that isn't used.
    Fresh,
    /// The login may have so many more.
    More,
}

/// How a server's share is told by its default. Each number is 0 to 1,000,000.
#[derive(Clone, Copy)]
pub enum ShareRule {
    /// It is a part of the first server's number, as large as its default beside the first's.
    Part {
        /// The first server's number.
        number: u32,
        /// The first server's default.
        first: u32,
    },
    /// It is the default.
    Default,
}

/// What each of several servers is asked about a login.
#[derive(Clone, Copy)]
pub struct ShareTask<'a> {
    /// The login, and under which run it is asked.
    pub setter: &'a Setter,
    /// The day from which on it holds.
    pub day: u32,
    /// What is asked.
    pub order: ShareOrder,
}

/// What came of asking a server for what a login is to have there.
#[derive(Clone, Copy)]
enum ShareEnd {
    /// It gave this share, and that is printed.
    Given(u32),
    /// It answers why it doesn't take the share.
    Refused,
    /// It isn't known to have given one.
    Missing,
}

/// What came of asking servers.
#[derive(Clone, Copy)]
struct ShareTotal {
    /// The exit status, 0 or 1.
    status: u8,
    /// The sum of the shares that were given.
    sum: u64,
}

/// Whether there are several servers, and the words name none.
pub fn are_several(words: &[&str], servers: &[&str]) -> bool
    ensures { MatchBool result (AreSeveral (map (λ s. s.now) words.now) (map (λ s. s.now) servers.now))
        (¬ AreSeveral (map (λ s. s.now) words.now) (map (λ s. s.now) servers.now)) }
{
    words.is_empty() && servers.len() > 1
}

/// Refuses more servers than are asked together.
pub fn check_few(servers: &[&str]) -> Result<(), ProcessFault>
    ensures { IfOk result (λ _. length servers.now ≤ 4000) }
{
    if servers.len() > MOST {
        return Err(ProcessFault::ManyServers);
    }
    Ok(())
}

/// The request that sets a login's limit, the first of its run.
pub fn limit_request(
    alloc: Global,
    setter: &Setter,
    day: u32,
    cap: u32,
) -> Result<Request, AllocError>
    requires setter { IsSetter setter.now }
    requires day { IsDay day }
    requires cap { IsAmount cap }
    ensures request { IfOk result (λ request. request ≡ limit_of setter.now 1 day cap) }
    ensures in_range { IfOk result IsLimit }
{
    Ok(Request::Limit {
        id: Id {
            host: setter.host.clone()?,
            run: setter.run,
            number: 1,
        },
        from_day: day,
        cap,
        login: setter.login.clone()?,
    })
}

/// A server's share by its default.
fn share_by(rule: ShareRule, default: u32) -> u32
    requires rule { IsRule rule }
    requires default { IsAmount default }
    ensures is { result ≡ share_by rule default }
    ensures in_range { IsAmount result }
{
    match rule {
        ShareRule::Part { number, first } => share_of(number, default, first),
        ShareRule::Default => default,
    }
}

/// Asks over a link to set a login's limit to the server's share, and prints what comes of it.
fn set_share<L: Link, W: Write, E: Errors>(
    alloc: Global,
    link: &mut L,
    server: &str,
    task: ShareTask<'_>,
    share: u32,
    is_numbered: bool,
    output: &mut W,
    errors: &mut E,
) -> SetEnd
    requires setter { IsSetter task.setter.now }
    requires day { IsDay task.day }
    requires share { IsAmount share }
    ensures { SetsShare is_numbered (limit_of task.entry.setter.now 1 task.entry.day share) server.now result
        (L.told link.old)
        (L.told link.new)
        (W.contents output.old)
        (W.contents output.new) }
{
    let Ok(request) = limit_request(alloc, task.setter, task.day, share) else {
        refuse(&NoAnswer::Memory, 1, errors);
        return SetEnd::Unknown;
    };
    if is_numbered {
        run_limit_at(alloc, link, &request, server, output, errors)
    } else {
        run_fresh_at(alloc, link, request, server, output, errors)
    }
}

/// Asks over a link to let a login have so many more, and prints what comes of it below a line that
/// says which server that is.
fn give_more<L: Link, W: Write, E: Errors>(
    alloc: Global,
    link: &mut L,
    server: &str,
    task: ShareTask<'_>,
    share: u32,
    output: &mut W,
    errors: &mut E,
) -> u8
    requires setter { IsSetter task.setter.now }
    requires day { IsDay (task.day + 1) }
    requires share { IsAmount share }
    ensures { GivesMoreAt task.entry.setter.now task.entry.day server.now share result (L.told link.old)
        (L.told link.new)
        (W.contents output.old)
        (W.contents output.new) }
{
    let told = print_heading(alloc, server, output, errors);
    let said = run_resume(alloc, link, task.setter, task.day, share, output, errors);
    told.max(said)
}

/// How it ends where a login has more, and printing that came to this status, or where it hasn't.
fn more_end(status: u8) -> SetEnd
    ensures { result ≡ printed_end status }
{
    if status == 0 {
        SetEnd::Set
    } else {
        SetEnd::Unknown
    }
}

/// Asks over a link for what a login is to have there, and prints what comes of it.
fn give_share<L: Link, W: Write, E: Errors>(
    alloc: Global,
    link: &mut L,
    server: &str,
    task: ShareTask<'_>,
    share: u32,
    output: &mut W,
    errors: &mut E,
) -> SetEnd
    requires setter { IsSetter task.setter.now }
    requires day { IsDay task.day }
    requires next { task.order ≡ More → IsDay (task.day + 1) }
    requires share { IsAmount share }
    ensures { GivesShare task.entry.order task.entry.setter.now task.entry.day server.now share result
        (L.told link.old)
        (L.told link.new)
        (W.contents output.old)
        (W.contents output.new) }
{
    match task.order {
        ShareOrder::Numbered => {
            set_share(alloc, link, server, task, share, true, output, errors)
        }
        ShareOrder::Fresh => set_share(alloc, link, server, task, share, false, output, errors),
        ShareOrder::More => {
            more_end(give_more(alloc, link, server, task, share, output, errors))
        }
    }
}

/// What asking for a share came to, by how that ended.
fn share_end(end: SetEnd, share: u32) -> ShareEnd
    requires { IsAmount share }
    ensures is { result ≡ share_end end share }
    ensures in_range { IsGiven result }
{
    match end {
        SetEnd::Set => ShareEnd::Given(share),
        SetEnd::Refused => ShareEnd::Refused,
        SetEnd::Unknown => ShareEnd::Missing,
    }
}

/// Asks over a link for the server's default, and then for what a login is to have there by it, and
/// prints what comes of it.
fn share_over<L: Link, W: Write, E: Errors>(
    alloc: Global,
    link: &mut L,
    server: &str,
    task: ShareTask<'_>,
    rule: ShareRule,
    output: &mut W,
    errors: &mut E,
) -> ShareEnd
    requires setter { IsSetter task.setter.now }
    requires day { IsDay task.day }
    requires next { task.order ≡ More → IsDay (task.day + 1) }
    requires rule { IsRule rule }
    ensures shares { SharesThere task.entry.order task.entry.setter.now task.entry.day rule
        server.now result
        (L.told link.old)
        (L.told link.new)
        (W.contents output.old)
        (W.contents output.new) }
    ensures in_range { IsGiven result }
{
    let default = match ask_default(alloc, link, task.day) {
        Ok(default) => default,
        Err(fault) => {
            refuse(&fault, 1, errors);
            return ShareEnd::Missing;
        }
    };
    let share = share_by(rule, default);
    let end = give_share(alloc, link, server, task, share, output, errors);
    share_end(end, share)
}

/// Asks the server at this address for what a login is to have there by its default, and prints
/// what comes of it.
fn share_at<R: Print + Eprint + AllocGlobal, D: Dial, E: Write>(
    rt: &R,
    dial: &D,
    server: &str,
    address: SocketAddr,
    task: ShareTask<'_>,
    rule: ShareRule,
    errors: &mut E,
) -> ShareEnd
    requires setter { IsSetter task.setter.now }
    requires day { IsDay task.day }
    requires next { task.order ≡ More → IsDay (task.day + 1) }
    requires rule { IsRule rule }
    ensures shares { SharesAt D.leads D.Link.told task.entry.order task.entry.setter.now
        task.entry.day rule server.now address result }
    ensures in_range { IsGiven result }
{
    let logged = Logged::new(rt, LevelFilter::Error, Console(rt));
    let mut link = link_to(dial, address, &logged);
    let mut output = io::writer(rt);
    let mut told = ServerErrors::new(errors, address);
    share_over(
        rt.alloc(),
        &mut link,
        server,
        task,
        rule,
        &mut output,
        &mut told,
    )
}

impl ShareTotal {
    /// A server gave this share, or none.
    fn add(&mut self, end: ShareEnd)
        requires room { self.old.sum + 1000000 ≤ 18446744073709551615 }
        requires in_range { IsGiven end }
        ensures status { self.new.status ≡ status_with end self.old.status }
        ensures sum { self.new.sum ≡ sum_with end self.old.sum }
    {
        match end {
            ShareEnd::Given(share) => self.sum += u64::from(share),
            ShareEnd::Refused | ShareEnd::Missing => self.status = 1,
        }
    }
}

/// Says on `errors` that a server gave nothing, where it did.
fn say_ungiven<E: Write>(server: &str, end: ShareEnd, errors: &mut E) {
    if !matches!(end, ShareEnd::Given(_)) {
        say_undone(server, 1, errors);
    }
}

/// Asks each of these servers in turn for what a login is to have there, whatever came of those
/// before.
fn share_each<R: Print + Eprint + AllocGlobal, D: Dial, E: Write>(
    rt: &R,
    dial: &D,
    servers: &[&str],
    task: ShareTask<'_>,
    rule: ShareRule,
    so_far: ShareTotal,
    errors: &mut E,
) -> ShareTotal
    requires servers { ¬ HasNoAddress (map (λ s. s.now) servers.now) }
    requires few { length servers.now ≤ 4000 }
    requires setter { IsSetter task.setter.now }
    requires day { IsDay task.day }
    requires next { task.order ≡ More → IsDay (task.day + 1) }
    requires rule { IsRule rule }
    requires room { so_far.sum ≤ 1000000 }
    ensures { SharesEach (SharesAt D.leads D.Link.told task.entry.order task.entry.setter.now
        task.entry.day rule) result.status result.sum (map (λ s. s.now) servers.now) so_far.status
        so_far.sum }
{
    let mut total = so_far;
    for server in servers {
        let Ok(address) = address_of(rt, server) else {
            unreachable!();
        };
        let end = share_at(rt, dial, server, address, task, rule, errors);
        say_ungiven(server, end, errors);
        total.add(end);
    }
    total
}

/// Asks each of these servers for what a login is to have there by its own default, and prints what
/// comes of it; of several that all gave it the sum. The result is the exit status, 0 where each
/// gave it.
pub fn share_among<R: Print + Eprint + AllocGlobal, D: Dial, E: Write>(
    rt: &R,
    dial: &D,
    servers: &[&str],
    task: ShareTask<'_>,
    rule: ShareRule,
    errors: &mut E,
) -> u8
    requires servers { ¬ HasNoAddress (map (λ s. s.now) servers.now) }
    requires few { length servers.now ≤ 4000 }
    requires setter { IsSetter task.setter.now }
    requires day { IsDay task.day }
    requires next { task.order ≡ More → IsDay (task.day + 1) }
    requires rule { IsRule rule }
    ensures { SharesAmong D.leads D.Link.told task.entry.order task.entry.setter.now
        task.entry.day rule (map (λ s. s.now) servers.now) result }
{
    let none = ShareTotal { status: 0, sum: 0 };
    let total = share_each(rt, dial, servers, task, rule, none, errors);
    end_shares(rt, servers.len() == 1, task, total, errors)
}

/// After which day the sum of shares holds: `resume` gives a login what it used on its own day
/// besides.
fn after_of(order: ShareOrder, day: u32) -> Option<u32>
    ensures { result ≡ after_of order day }
{
    match order {
        ShareOrder::More => Some(day),
        _ => None,
    }
}

/// Prints the sum of shares, where several servers gave them all. The result is the exit status.
fn end_shares<R: Print + AllocGlobal, E: Write>(
    rt: &R,
    is_alone: bool,
    task: ShareTask<'_>,
    total: ShareTotal,
    errors: &mut E,
) -> u8
    ensures { EndsShares is_alone (after_of task.entry.order task.entry.day) total.status total.sum
        result }
{
    if is_alone || total.status != 0 {
        return total.status;
    }
    let after = after_of(task.order, task.day);
    print_sum(rt.alloc(), total.sum, after, &mut io::writer(rt), errors)
}

/// The default of the server at this address, where it answers. Why it doesn't is said on `errors`.
fn default_at<R: Eprint + AllocGlobal, D: Dial, E: Write>(
    rt: &R,
    dial: &D,
    address: SocketAddr,
    day: u32,
    errors: &mut E,
) -> Option<u32>
    requires { IsDay day }
    ensures default { AsksOver D.leads D.Link.told address TIMEOUT (DefaultAt day result) }
    ensures in_range { IfSome result IsAmount }
{
    let logged = Logged::new(rt, LevelFilter::Error, Console(rt));
    let mut link = link_to(dial, address, &logged);
    match ask_default(rt.alloc(), &mut link, day) {
        Ok(default) => Some(default),
        Err(fault) => {
            refuse(&fault, 1, errors);
            None
        }
    }
}

/// Says on `errors` that nothing was asked for, since the first server gives no answer. The result
/// is the exit status.
fn say_unshared<E: Write>(server: &str, errors: &mut E) -> u8
    ensures { result ≡ 1 }
{
    let _ = writeln!(
        errors,
        "mailquota: not done by any server: shares go by the default of {server}; use --server"
    );
    1
}

/// Says on `errors` that nothing was set, since the first server refuses the number. The result is
/// the exit status.
fn say_refused<E: Write>(server: &str, errors: &mut E) -> u8
    ensures { result ≡ 1 }
{
    let _ = writeln!(
        errors,
        "mailquota: not done by any server: {server}, the first, refuses this"
    );
    1
}

/// Asks the others of several servers for their shares, after the first, and prints the sum where
/// each gave it. The result is the exit status.
fn share_others<R: Print + Eprint + AllocGlobal, D: Dial, E: Write>(
    rt: &R,
    dial: &D,
    others: &[&str],
    task: ShareTask<'_>,
    rule: ShareRule,
    first: ShareEnd,
    errors: &mut E,
) -> u8
    requires servers { ¬ HasNoAddress (map (λ s. s.now) others.now) }
    requires few { length others.now ≤ 4000 }
    requires setter { IsSetter task.setter.now }
    requires day { IsDay task.day }
    requires next { task.order ≡ More → IsDay (task.day + 1) }
    requires rule { IsRule rule }
    requires first { IsGiven first }
    ensures { SharesOthers D.leads D.Link.told task.entry.order task.entry.setter.now
        task.entry.day rule (map (λ s. s.now) others.now) first result }
{
    let mut so_far = ShareTotal { status: 0, sum: 0 };
    so_far.add(first);
    let total = share_each(rt, dial, others, task, rule, so_far, errors);
    end_shares(rt, others.is_empty(), task, total, errors)
}

/// Asks the others of several servers for their shares as well, unless the first refuses its own.
/// The result is the exit status.
fn go_on<R: Print + Eprint + AllocGlobal, D: Dial, E: Write>(
    rt: &R,
    dial: &D,
    server: &str,
    others: &[&str],
    task: ShareTask<'_>,
    rule: ShareRule,
    first: ShareEnd,
    errors: &mut E,
) -> u8
    requires servers { ¬ HasNoAddress (map (λ s. s.now) others.now) }
    requires few { length others.now ≤ 4000 }
    requires setter { IsSetter task.setter.now }
    requires day { IsDay task.day }
    requires next { task.order ≡ More → IsDay (task.day + 1) }
    requires rule { IsRule rule }
    requires first { IsGiven first }
    ensures { SharesAfterFirst D.leads D.Link.told task.entry.order task.entry.setter.now task.entry.day rule
        (map (λ s. s.now) others.now) first result }
{
    match first {
        ShareEnd::Refused => say_refused(server, errors),
        _ => {
            say_ungiven(server, first, errors);
            share_others(rt, dial, others, task, rule, first, errors)
        }
    }
}

/// Asks the first of several servers for its share, and then the others for theirs, unless it
/// refuses it. The result is the exit status.
fn share_from<R: Print + Eprint + AllocGlobal, D: Dial, E: Write>(
    rt: &R,
    dial: &D,
    server: &str,
    address: SocketAddr,
    others: &[&str],
    task: ShareTask<'_>,
    rule: ShareRule,
    errors: &mut E,
) -> u8
    requires servers { ¬ HasNoAddress (map (λ s. s.now) others.now) }
    requires few { length others.now ≤ 4000 }
    requires setter { IsSetter task.setter.now }
    requires day { IsDay task.day }
    requires next { task.order ≡ More → IsDay (task.day + 1) }
    requires rule { IsRule rule }
    ensures { SharesFrom D.leads D.Link.told task.entry.order task.entry.setter.now task.entry.day
        rule server.now address (map (λ s. s.now) others.now) result }
{
    let first = share_at(rt, dial, server, address, task, rule, errors);
    go_on(rt, dial, server, others, task, rule, first, errors)
}

/// Asks each of these servers for its share of a number, which is the first one's, and prints what
/// comes of it, and the sum. The result is the exit status, 0 where each gave it. Where the first
/// gives no answer to what its default is, or refuses the number, no other is asked.
pub fn share_number<R: Print + Eprint + AllocGlobal, D: Dial, E: Write>(
    rt: &R,
    dial: &D,
    servers: &[&str],
    task: ShareTask<'_>,
    number: u32,
    errors: &mut E,
) -> u8
    requires servers { ¬ HasNoAddress (map (λ s. s.now) servers.now) }
    requires few { length servers.now ≤ 4000 }
    requires setter { IsSetter task.setter.now }
    requires day { IsDay task.day }
    requires next { task.order ≡ More → IsDay (task.day + 1) }
    requires number { IsAmount number }
    ensures { SharesNumber D.leads D.Link.told task.entry.order task.entry.setter.now
        task.entry.day number (map (λ s. s.now) servers.now) result }
{
    let Some(server) = servers.first() else {
        return 1;
    };
    let Ok(address) = address_of(rt, server) else {
        unreachable!();
    };
    match default_at(rt, dial, address, task.day, errors) {
        Some(first) => {
            let rule = ShareRule::Part { number, first };
            share_from(rt, dial, server, address, &servers[1..], task, rule, errors)
        }
        None => say_unshared(server, errors),
    }
}
