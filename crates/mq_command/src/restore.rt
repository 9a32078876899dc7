//! `resume` without a number: a login gets the limit back that it had before it was stopped.
ghost use Rattle.std.specs.Prelude.{◌≡◌, ◌+◌, IfOk, None, Ok, string_bytes};
ghost use Rattle.mq_request.specs.Range.{IsAmount, IsDay, IsLogin};
ghost use Rattle.mq_command.specs.Allowing.{IsSetter};
ghost use Rattle.mq_command.specs.Lower.{FoundLower};
ghost use Rattle.mq_command.specs.Resuming.{FindsFormer, GivesBack, GivesLimit, LeavesIt, Restores};
ghost use Rattle.mq_command.specs.Resuming.{RunsRestore, begin_of, limits_of, restored_lines};

use crate::allow::{AllowFault, Setter, line_of, set_both};
use crate::errors::Errors;
use crate::look_back::{SoughtDay, look_back};
use crate::lower::note_lower;
use crate::order::OrderFault;
use crate::telling::{say_of_server, tell_line};
use crate::usage::ask_used;
use mq_link::Link;
use mq_request::Login;
use mq_request::bounds::AMOUNT_LIMIT;
use std::alloc::{AllocError, Global};
use std::io::Write;

/// How many days back a limit is sought that the login had before it was stopped.
const FORMER_DAYS: u32 = 400;

/// The limits of a login from a day on.
#[derive(Clone, Copy, Debug)]
struct RestoredLimit {
    /// The limit of the day.
    cap: u32,
    /// The limit of each later day.
    limit: u32,
}

/// What giving a login its limit back came to.
#[derive(Clone, Copy, Debug)]
enum Restored {
    /// It has it.
    Given(RestoredLimit),
    /// It isn't stopped, and keeps these limits.
    NotStopped(RestoredLimit),
}

/// The limits that the login has then.
fn limits_of(restored: Restored) -> RestoredLimit
    ensures { result ≡ limits_of restored }
{
    match restored {
        Restored::Given(limits) => limits,
        Restored::NotStopped(limits) => limits,
    }
}

/// How the line begins that is printed of it.
fn begin_of(restored: Restored) -> &'static str
    ensures { result.now ≡ begin_of restored }
{
    match restored {
        Restored::Given(_) => "resumed: ",
        Restored::NotStopped(_) => "not stopped: ",
    }
}

/// The limit that a stopped login had before: that of the day before the latest one, from this day
/// back, whose limit isn't 0.
fn former<L: Link>(alloc: Global, link: &mut L, login: &Login, day: u32) -> Result<u32, AllowFault>
    requires login { IsLogin login.now }
    requires day { IsDay day }
    ensures former { FindsFormer login.now day (L.told link.old) (L.told link.new) result }
    ensures in_range { IfOk result IsAmount }
{
    let latest = match look_back(alloc, link, SoughtDay::Limit, login, day, FORMER_DAYS) {
        Ok(Some(latest)) => latest,
        Ok(None) => return Err(AllowFault::NoFormer),
        Err(fault) => return Err(AllowFault::Order(OrderFault::Unanswered(fault))),
    };
    if latest == 0 {
        return Err(AllowFault::NoFormer);
    }
    match ask_used(alloc, link, login, latest - 1) {
        Ok(before) => {
            if before.cap == 0 {
                return Err(AllowFault::NoFormer);
            }
            Ok(before.cap)
        }
        Err(fault) => Err(AllowFault::Order(OrderFault::Unanswered(fault))),
    }
}

/// Gives a login a limit on a day and on each later day, and on the day at least what it used. The
/// result is the day's limit.
fn give_limit<L: Link>(
    alloc: Global,
    link: &mut L,
    setter: &Setter,
    day: u32,
    limit: u32,
) -> Result<u32, OrderFault>
    requires setter { IsSetter setter.now }
    requires day { IsDay (day + 1) }
    requires limit { IsAmount limit }
    ensures { GivesLimit setter.now day limit (L.told link.old) (L.told link.new) result }
{
    match ask_used(alloc, link, &setter.login, day) {
        Ok(usage) => {
            let most = limit.max(usage.used).min(AMOUNT_LIMIT);
            set_both(alloc, link, setter, day, most, limit, usage.used)
        }
        Err(fault) => Err(OrderFault::Unanswered(fault)),
    }
}

/// Gives a stopped login the limit back that it had before.
fn give_back<L: Link>(
    alloc: Global,
    link: &mut L,
    setter: &Setter,
    day: u32,
) -> Result<RestoredLimit, AllowFault>
    requires setter { IsSetter setter.now }
    requires day { IsDay (day + 1) }
    ensures { GivesBack setter.now day (L.told link.old) (L.told link.new) result }
{
    let limit = match former(alloc, link, &setter.login, day) {
        Ok(limit) => limit,
        Err(fault) => return Err(fault),
    };
    match give_limit(alloc, link, setter, day, limit) {
        Ok(cap) => Ok(RestoredLimit { cap, limit }),
        Err(fault) => Err(AllowFault::Order(fault)),
    }
}

/// Leaves a login its limits that may send on the day after this one, up to this limit, unless that
/// of this day is lower, as where a `stop` ended half done.
fn leave_it<L: Link>(
    alloc: Global,
    link: &mut L,
    login: &Login,
    day: u32,
    limit: u32,
) -> Result<RestoredLimit, AllowFault>
    requires login { IsLogin login.now }
    requires day { IsDay day }
    ensures { LeavesIt login.now day limit (L.told link.old) (L.told link.new) result }
{
    match ask_used(alloc, link, login, day) {
        Ok(usage) => {
            if usage.cap < limit {
                return Err(AllowFault::NotStopped(day));
            }
            Ok(RestoredLimit {
                cap: usage.cap,
                limit,
            })
        }
        Err(fault) => Err(AllowFault::Order(OrderFault::Unanswered(fault))),
    }
}

/// Gives a login the limit back that it had before it was stopped, or leaves it those that it has
/// where it isn't: a login is stopped where the limit of the next day is 0.
fn restore<L: Link>(
    alloc: Global,
    link: &mut L,
    setter: &Setter,
    day: u32,
) -> Result<Restored, AllowFault>
    requires setter { IsSetter setter.now }
    requires day { IsDay (day + 1) }
    ensures { Restores setter.now day (L.told link.old) (L.told link.new) result }
{
    let next = match ask_used(alloc, link, &setter.login, day + 1) {
        Ok(next) => next,
        Err(fault) => return Err(AllowFault::Order(OrderFault::Unanswered(fault))),
    };
    if next.cap != 0 {
        return match leave_it(alloc, link, &setter.login, day, next.cap) {
            Ok(limits) => Ok(Restored::NotStopped(limits)),
            Err(fault) => Err(fault),
        };
    }
    match give_back(alloc, link, setter, day) {
        Ok(limits) => Ok(Restored::Given(limits)),
        Err(fault) => Err(fault),
    }
}

/// The lines that say that a login has its limit back, or isn't stopped: how much it may use on the
/// day, and its limit from then on.
fn restored_text(
    alloc: Global,
    login: &Login,
    restored: Restored,
    day: u32,
) -> Result<String, AllocError>
    ensures { IfOk result (λ lines. string_bytes lines ≡ restored_lines login.now restored day) }
{
    let limits = limits_of(restored);
    let begin = begin_of(restored);
    let mut lines = line_of(alloc, begin, login, " may use ", limits.cap, day)?;
    lines.push_str("limit after: ")?;
    lines.push_str(limits.limit.to_string(alloc)?.as_str())?;
    lines.push('\n')?;
    Ok(lines)
}

/// Gives a login the limit back, on a day and each later day, that it had before it was stopped,
/// and prints on `output` how many recipients it may have on that day and which limit it has then,
/// or says on `errors` why not both limits are set. Where it isn't stopped it has the same lines,
/// but for their beginning. A lower limit of a later day, which stays in force, is noted on
/// `errors`. The result is the exit status, 0 or 1.
///
/// The limit is that of the day before the latest one, of the given day and the 399 before, whose
/// limit isn't 0. `day` is a day number, 0 to 376,199.
pub fn run_restore<L: Link, W: Write, E: Errors>(
    alloc: Global,
    link: &mut L,
    setter: &Setter,
    day: u32,
    output: &mut W,
    errors: &mut E,
) -> u8
    requires setter { IsSetter setter.now }
    requires day { IsDay (day + 1) }
    ensures { (found : FoundLower)
        × RunsRestore setter.now day found result (L.told link.old) (L.told link.new)
        (W.contents output.old)
        (W.contents output.new)
        × (result ≡ 0 → found ≡ Ok None → errors.new ≡ errors.old) }
{
    match restore(alloc, link, setter, day) {
        Ok(restored) => {
            let lines = restored_text(alloc, &setter.login, restored, day);
            let status = tell_line(lines, output, errors);
            let least = limits_of(restored).limit;
            note_lower(alloc, link, &setter.login, day, least, errors);
            status
        }
        Err(fault) => say_of_server(errors, &fault, fault.is_not_taken()),
    }
}
