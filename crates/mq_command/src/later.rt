//! Limits of a login from days after the next one, which outlast a `stop`.
ghost use Rattle.std.specs.Prelude.{◌≡◌, ◌+◌, Result as AnyResult, Option as AnyOption};
ghost use Rattle.mq_request.specs.Range.{IsAmount, IsDay, IsWithin};
ghost use Rattle.mq_command.specs.Allowing.{IsSetter};
ghost use Rattle.mq_command.specs.Later.{ClearsDay, ClearsLater, most_on};
ghost use Rattle.mq_command.specs.Stopping.{later_end, stop_status};
ghost use Rattle.mq_command.specs.declared.later.LaterLimit.{LaterLimit as AnyLaterLimit};
ghost use Rattle.mq_command.specs.declared.order.OrderFault.{OrderFault as AnyOrderFault};
ghost use Rattle.mq_command.specs.declared.stop_end.StopEnd.TheVariants.{Failed};

use crate::allow::{Setter, set_limit};
use crate::errors::Errors;
use crate::hold::{LATER_DAYS, LaterUse, NUMBERS_OF_DAY};
use crate::order::OrderFault;
use crate::stop_end::{StopEnd, fail};
use crate::usage::ask_used;
use mq_link::Link;
use mq_request::bounds::LAST_DAY;
use std::alloc::Global;
use std::fmt;
use std::io::Write;

/// How many requests a look at later days takes, those that set a limit not counted.
pub(crate) const LOOKS: u32 = 400;

/// The number of the first limit that is set so; those of a `stop` are below it.
const FIRST_NUMBER: u32 = NUMBERS_OF_DAY * (LATER_DAYS + 1);

/// A limit of a later day that stays in force, above what the login may have there.
#[derive(Clone, Copy, Debug, PartialEq)]
pub struct LaterLimit {
    /// The first day on which it is found, which may be later than the one from which it was set.
    pub day: u32,
    /// Recipients a day.
    pub cap: u32,
}

impl fmt::Display for LaterLimit {
    fn fmt<W: fmt::Write>(&self, f: &mut fmt::Formatter<W>) -> fmt::Result {
        let LaterLimit { day, cap } = *self;
        write!(f, "a limit of {cap} stays in force on day {day}")
    }
}

/// What a stopped login may have on a day.
fn most_on(later: LaterUse, day: u32) -> u32
    requires { IsAmount later.most }
    ensures is { result ≡ most_on later day }
    ensures in_range { IsAmount result }
{
    if day <= later.last { later.most } else { 0 }
}

/// Looks at the limit of a later day. Where it is above what a stopped login may have there, and
/// all are to be lowered, it sets it to that under this number.
fn clear_day<L: Link>(
    alloc: Global,
    link: &mut L,
    setter: &Setter,
    number: u32,
    day: u32,
    most: u32,
    is_all: bool,
) -> Result<Option<LaterLimit>, OrderFault>
    requires setter { IsSetter setter.now }
    requires number { IsWithin 1 3000 number }
    requires day { IsDay day }
    requires most { IsAmount most }
    ensures { ClearsDay setter.now number day most is_all (L.told link.old)
        (L.told link.new) result }
{
    let usage = match ask_used(alloc, link, &setter.login, day) {
        Ok(usage) => usage,
        Err(fault) => return Err(OrderFault::Unanswered(fault)),
    };
    if usage.cap <= most {
        return Ok(None);
    }
    if !is_all {
        return Ok(Some(LaterLimit {
            day,
            cap: usage.cap,
        }));
    }
    match set_limit(alloc, link, setter, number, day, most) {
        Ok(()) => Ok(None),
        Err(fault) => Err(fault),
    }
}

/// Looks at the days after the next one, and at the last day of all, for limits above what a
/// stopped login may have, and lowers those of the days, if all are to be. The result is the first
/// that stays in force.
fn clear_later<L: Link>(
    alloc: Global,
    link: &mut L,
    setter: &Setter,
    day: u32,
    later: LaterUse,
    is_all: bool,
) -> Result<Option<LaterLimit>, OrderFault>
    requires setter { IsSetter setter.now }
    requires day { IsDay (day + 1) }
    requires most { IsAmount later.most }
    ensures { ClearsLater setter.now day later is_all (L.told link.old) (L.told link.new) result }
{
    let first = day + 2;
    for count in 0..LOOKS - 1 {
        let on = first + count;
        if LAST_DAY < on {
            return Ok(None);
        }
        match clear_day(
            alloc,
            link,
            setter,
            FIRST_NUMBER + count,
            on,
            most_on(later, on),
            is_all,
        ) {
            Ok(None) => {}
            ended => return ended,
        }
    }
    let most = most_on(later, LAST_DAY);
    clear_day(
        alloc,
        link,
        setter,
        FIRST_NUMBER + (LOOKS - 1),
        LAST_DAY,
        most,
        false,
    )
}

/// Looks, after a login was stopped on a day, for limits that were set from a day after the next
/// one: each governs from its day on. It lowers them to what the login may have, if all are to be,
/// and says on `errors` which is the first that stays in force. It asks for what the login used on
/// up to 399 days after the next one and on the last day of all. The result is how the `stop` ends:
/// it is done where none stays.
pub(crate) fn clear_and_say<L: Link, E: Errors>(
    alloc: Global,
    link: &mut L,
    setter: &Setter,
    day: u32,
    later: LaterUse,
    is_all: bool,
    errors: &mut E,
) -> StopEnd
    requires setter { IsSetter setter.now }
    requires day { IsDay (day + 1) }
    requires most { IsAmount later.most }
    ensures looks { (ended : AnyResult (AnyOption AnyLaterLimit) AnyOrderFault)
        × (result ≡ later_end ended)
        × ClearsLater setter.now day later is_all (L.told link.old) (L.told link.new) ended }
    ensures quiet { stop_status result ≡ 0 → errors.new ≡ errors.old }
{
    match clear_later(alloc, link, setter, day, later, is_all) {
        Ok(None) => StopEnd::Stopped,
        Ok(Some(later)) => tell_later(later, is_all, errors),
        Err(fault) => fail(fault, errors),
    }
}

/// Says on `errors` which limit stays in force, so that the `stop` fails.
fn tell_later<E: Write>(later: LaterLimit, is_all: bool, errors: &mut E) -> StopEnd
    ensures { result ≡ Failed }
{
    let _ = if is_all {
        writeln!(
            errors,
            "mailquota: {later}, and from which day on isn't found"
        )
    } else {
        writeln!(errors, "mailquota: {later}; use --all")
    };
    StopEnd::Failed
}
