//! `stop`: a login has nothing more from a day on.
ghost use Rattle.std.specs.Prelude.{◌≡◌, ◌+◌, IfOk, string_bytes};
ghost use Rattle.mq_request.specs.Range.{IsAmount, IsDay, IsLogin};
ghost use Rattle.mq_command.specs.Allowing.{IsSetter};
ghost use Rattle.mq_command.specs.Stopping.{ChecksUse, HasSent, HoldsAll, RunsStop, Stops};
ghost use Rattle.mq_command.specs.Stopping.{former_lines, later_line, stop_status};
ghost use Rattle.mq_command.specs.Stopping.{stopped_lines, unsaid, verb};

use crate::allow::{AllowFault, Setter, line_of};
use crate::ask::NoAnswer;
use crate::errors::Errors;
use crate::hold::{HeldLimit, LaterUse, hold, hold_later};
use crate::later::clear_and_say;
use crate::look_back::{SoughtDay, look_back};
use crate::order::OrderFault;
use crate::probe::probe;
use crate::stop_end::{StopEnd, leave_unstopped};
use crate::telling::tell_line;
use crate::usage::{DayUsage, ask_used};
use mq_link::Link;
use mq_request::Login;
use std::alloc::{AllocError, Global};
use std::io::Write;

/// On how many days, that of a `stop` and those before, a login used nothing that isn't stopped
/// unless it is meant.
const IDLE_DAYS: u32 = 3;

/// What a server says of whether a login sent something lately.
#[derive(Clone, Copy, Debug, PartialEq, Eq)]
pub enum SentLately {
    /// It used something on the day or on one of the two before.
    Yes,
    /// It used nothing on these days.
    No,
    /// The server took none of the questions, as where it lets no such be asked from here.
    NotTaken,
    /// The server gave no answer.
    Unanswered,
}

/// How a login is stopped.
#[derive(Clone, Copy)]
pub struct StopOrder {
    /// The day from which on it has nothing more, 0 to 376,199.
    pub day: u32,
    /// Whether it is known to be meant.
    pub is_meant: bool,
    /// Whether limits that were set from later days are lowered, too.
    pub is_all: bool,
}

/// What stopping a login came to.
#[derive(Clone, Copy, Debug)]
struct StoppedLogin {
    /// The limit of the day.
    held: HeldLimit,
    /// The limit of the day before it was stopped.
    former: u32,
    /// What it may have on later days.
    later: LaterUse,
}

/// What a server says that brought no answer.
fn unsaid(fault: NoAnswer) -> SentLately
    ensures { result ≡ unsaid fault }
{
    match fault {
        NoAnswer::NotTaken => SentLately::NotTaken,
        NoAnswer::Unavailable | NoAnswer::Memory => SentLately::Unanswered,
    }
}

/// Whether a login used something on a day or on one of the two before. Of several servers one that
/// says so is enough for `run_stop` at each: the login is meant. One that gives no answer can't say
/// that it is misspelled. Whether it answers at all is asked once, so that it costs one try where
/// it is away. `day` is a day number, 0 to 376,200.
pub fn has_sent<L: Link>(alloc: Global, link: &mut L, login: &Login, day: u32) -> SentLately
    requires login { IsLogin login.now }
    requires day { IsDay day }
    ensures { HasSent login.now day (L.told link.old) (L.told link.new) result }
{
    if let Err(fault) = probe(alloc, link) {
        return unsaid(fault);
    }
    match look_back(alloc, link, SoughtDay::Use, login, day, IDLE_DAYS) {
        Ok(Some(_day)) => SentLately::Yes,
        Ok(None) => SentLately::No,
        Err(fault) => unsaid(fault),
    }
}

/// Refuses to stop a login that used nothing on a day, nor on the two before, unless it is clear
/// that it is meant: its name may be misspelled.
fn check_use<L: Link>(
    alloc: Global,
    link: &mut L,
    login: &Login,
    day: u32,
    is_clear: bool,
) -> Result<(), AllowFault>
    requires login { IsLogin login.now }
    requires day { IsDay day }
    ensures { ChecksUse login.now day is_clear (L.told link.old) (L.told link.new) result }
{
    if is_clear {
        return Ok(());
    }
    match look_back(alloc, link, SoughtDay::Use, login, day, IDLE_DAYS) {
        Ok(Some(_day)) => Ok(()),
        Ok(None) => Err(AllowFault::Idle(day)),
        Err(fault) => Err(AllowFault::Order(OrderFault::Unanswered(fault))),
    }
}

/// Lets a login that used so much on a day have nothing more there, and then nothing more on each
/// later day.
fn hold_all<L: Link>(
    alloc: Global,
    link: &mut L,
    setter: &Setter,
    day: u32,
    usage: DayUsage,
) -> Result<StoppedLogin, OrderFault>
    requires setter { IsSetter setter.now }
    requires day { IsDay (day + 1) }
    requires most { IsAmount usage.cap }
    ensures holds { HoldsAll setter.now day usage (L.told link.old) (L.told link.new) result }
    ensures in_range { IfOk result (λ stopped. IsAmount stopped.later.most) }
{
    let held = match hold(alloc, link, setter, 1, day, usage) {
        Ok(held) => held,
        Err(fault) => return Err(fault),
    };
    match hold_later(alloc, link, setter, day) {
        Ok(later) => Ok(StoppedLogin {
            held,
            former: usage.cap,
            later,
        }),
        Err(fault) => Err(fault),
    }
}

/// Lets a login have nothing more on a day and on each later day, where it sent something lately or
/// is meant. The limit of the day is never above the one that it had.
fn stop<L: Link>(
    alloc: Global,
    link: &mut L,
    setter: &Setter,
    day: u32,
    is_meant: bool,
) -> Result<StoppedLogin, AllowFault>
    requires setter { IsSetter setter.now }
    requires day { IsDay (day + 1) }
    ensures stops { Stops setter.now day is_meant (L.told link.old) (L.told link.new) result }
    ensures in_range { IfOk result (λ stopped. IsAmount stopped.later.most) }
{
    let usage = match ask_used(alloc, link, &setter.login, day) {
        Ok(usage) => usage,
        Err(fault) => return Err(AllowFault::Order(OrderFault::Unanswered(fault))),
    };
    let is_clear = is_meant || usage.used != 0;
    match check_use(alloc, link, &setter.login, day, is_clear) {
        Ok(()) => {}
        Err(fault) => return Err(fault),
    }
    match hold_all(alloc, link, setter, day, usage) {
        Ok(stopped) => Ok(stopped),
        Err(fault) => Err(AllowFault::Order(fault)),
    }
}

/// What a login did on a day up to its limit, or may do.
fn verb(is_more: bool) -> &'static str
    ensures { result.now ≡ verb is_more }
{
    if is_more { " may use " } else { " used " }
}

/// The line that says how much a login may have on later days, up to the last on which it used
/// something; none where it used nothing later.
fn later_text(alloc: Global, day: u32, later: LaterUse) -> Result<String, AllocError>
    ensures { IfOk result (λ line. string_bytes line ≡ later_line day later) }
{
    let mut line = String::new(alloc);
    if later.last == day {
        return Ok(line);
    }
    line.push_str("limit after: ")?;
    line.push_str(later.most.to_string(alloc)?.as_str())?;
    line.push_str(" up to day ")?;
    line.push_str(later.last.to_string(alloc)?.as_str())?;
    line.push('\n')?;
    Ok(line)
}

/// The lines that say which limit a login had on the day, and how much it may have on later days.
fn former_text(alloc: Global, stopped: StoppedLogin, day: u32) -> Result<String, AllocError>
    ensures { IfOk result (λ lines. string_bytes lines ≡ former_lines stopped day) }
{
    let mut lines = String::from_str(alloc, "limit before: ")?;
    lines.push_str(stopped.former.to_string(alloc)?.as_str())?;
    lines.push('\n')?;
    lines.push_str(later_text(alloc, day, stopped.later)?.as_str())?;
    Ok(lines)
}

/// The lines that say that a login is stopped: how much it used on the day, or may use, which limit
/// it had there, and how much it may have on later days.
fn stopped_text(
    alloc: Global,
    login: &Login,
    stopped: StoppedLogin,
    day: u32,
) -> Result<String, AllocError>
    ensures { IfOk result (λ lines. string_bytes lines ≡ stopped_lines login.now stopped day) }
{
    let held = stopped.held;
    let mut lines = line_of(alloc, "stopped: ", login, verb(held.is_more), held.cap, day)?;
    lines.push_str(former_text(alloc, stopped, day)?.as_str())?;
    Ok(lines)
}

/// Lets a login have nothing more on a day and on each later day, and prints on `output` the day's
/// limit and the one that it had there, or says on `errors` why not each limit is set.
///
/// A login that sent nothing on that day and the two before isn't stopped, unless it is known to be
/// meant. No limit that it sets is above the one that the login had on the limit's own first day.
/// The server takes none below what is used on a later day: where the login used something later,
/// that is its limit up to then, and `output` says so; after that day it is 0.
///
/// Limits that were set from a day after the next stay in force from that day on. Where the login
/// is stopped they are looked for, a day at a time, on up to 399 days and on the last day of all.
/// They are lowered, if all are to be, else the first is said on `errors`, and the `stop` fails.
pub fn run_stop<L: Link, W: Write, E: Errors>(
    alloc: Global,
    link: &mut L,
    setter: &Setter,
    order: StopOrder,
    output: &mut W,
    errors: &mut E,
) -> StopEnd
    requires setter { IsSetter setter.now }
    requires day { IsDay (order.day + 1) }
    ensures stops { RunsStop setter.now order result (L.told link.old) (L.told link.new)
        (W.contents output.old)
        (W.contents output.new) }
    ensures quiet { stop_status result ≡ 0 → errors.new ≡ errors.old }
{
    let stopped = match stop(alloc, link, setter, order.day, order.is_meant) {
        Ok(stopped) => stopped,
        Err(fault) => return leave_unstopped(fault, errors),
    };
    let lines = stopped_text(alloc, &setter.login, stopped, order.day);
    let status = tell_line(lines, output, errors);
    if status != 0 {
        return StopEnd::Failed;
    }
    clear_and_say(
        alloc,
        link,
        setter,
        order.day,
        stopped.later,
        order.is_all,
        errors,
    )
}
