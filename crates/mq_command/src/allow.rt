//! The limits that `stop` and `resume` set: how many recipients a login may have on a day, and on each
//! later one.
ghost use Rattle.std.specs.Prelude.{◌≡◌, ◌+◌, IfOk, string_bytes};
ghost use Rattle.mq_request.specs.Range.{IsAmount, IsDay, IsWithin};
ghost use Rattle.mq_command.specs.Allowing.{IsSetter, SetsAbove, SetsBoth, allowed, day_line};
ghost use Rattle.mq_command.specs.Allowing.{limit_of};
ghost use Rattle.mq_command.specs.Orders.{OrdersFresh};

use crate::ask::NoAnswer;
use crate::order::{OrderFault, order_fresh};
use crate::printed::login_text;
use mq_link::Link;
use mq_request::bounds::AMOUNT_LIMIT;
use mq_request::{Host, Id, Login, Request};
use std::alloc::{AllocError, Global};
use thiserror::Error;

/// How often the limit of a day is sent where the login uses more meanwhile. The last is the most
/// that a limit may be, or the one that the login had, if it is to have nothing more; no login uses
/// more than its limit.
pub(crate) const LIMITS: u32 = 18;

/// Why a login isn't known to be stopped, or to have more again.
#[derive(Clone, Copy, Debug, PartialEq, Error)]
pub enum AllowFault {
    #[error("{0}")]
    Order(OrderFault),
    /// It sent nothing on this day, nor on the two before.
    #[error("nothing sent on day {0} or the two before; check the login, or use --force")]
    Idle(u32),
    /// The limit of the day after this one isn't 0, but above that of this day.
    #[error("not stopped after day {0}, whose own limit is lower; use --cap")]
    NotStopped(u32),
    /// No limit is found that it had before it was stopped.
    #[error("no earlier limit found; use --cap")]
    NoFormer,
}

impl AllowFault {
    /// Whether the server took none of the tries of a request.
    pub(crate) fn is_not_taken(&self) -> bool {
        match self {
            AllowFault::Order(fault) => fault.is_not_taken(),
            _ => false,
        }
    }
}

/// A login whose limits are set, and the run of the host that sets them.
#[derive(Debug, Drop, PartialEq)]
pub struct Setter {
    /// 1 to 64 bytes.
    pub host: Host,
    /// 1 to 281,474,976,710,655.
    pub run: u64,
    /// 1 to 255 bytes.
    pub login: Login,
}

/// A limit, under a number of the run.
fn limit_of(
    alloc: Global,
    setter: &Setter,
    number: u32,
    day: u32,
    cap: u32,
) -> Result<Request, AllocError>
    ensures { IfOk result (λ request. request ≡ limit_of setter.now number day cap) }
{
    Ok(Request::Limit {
        id: Id {
            host: setter.host.clone()?,
            run: setter.run,
            number,
        },
        from_day: day,
        cap,
        login: setter.login.clone()?,
    })
}

/// Sets a limit under the first number of its place that isn't used.
pub(crate) fn set_limit<L: Link>(
    alloc: Global,
    link: &mut L,
    setter: &Setter,
    number: u32,
    day: u32,
    cap: u32,
) -> Result<(), OrderFault>
    requires setter { IsSetter setter.now }
    requires number { IsWithin 1 3000 number }
    requires day { IsDay day }
    requires cap { IsAmount cap }
    ensures { OrdersFresh (limit_of setter.now number day cap) (L.told link.old)
        (L.told link.new) result }
{
    match limit_of(alloc, setter, number, day, cap) {
        Ok(mut request) => order_fresh(alloc, link, &mut request),
        Err(_) => Err(OrderFault::Unanswered(NoAnswer::Memory)),
    }
}

/// The limit of a day on which so much is used: so many more, and room for what is used meanwhile,
/// but never above the most.
pub(crate) fn allowed(most: u32, used: u32, more: u32, room: u32) -> u32
    requires { IsAmount most }
    ensures { result ≡ allowed most used more room }
{
    used.saturating_add(more).saturating_add(room).min(most)
}

/// Sets the limit of a day to what is used and so many more, but never above the most. Where more
/// is used on that day meanwhile it is sent again with what is used then, and with room for what is
/// used meanwhile, which grows to twice as much each time. More that is used on a later day is no
/// reason to add room on this one: then it ends, as a limit does.
fn set_above<L: Link>(
    alloc: Global,
    link: &mut L,
    setter: &Setter,
    day: u32,
    most: u32,
    more: u32,
    mut used: u32,
) -> Result<u32, OrderFault>
    requires setter { IsSetter setter.now }
    requires day { IsDay day }
    requires most { IsAmount most }
    ensures { SetsAbove setter.now day most more used (L.told link.old) (L.told link.new) result }
{
    let mut room = 0;
    for refused in 0..LIMITS - 1 {
        let cap = allowed(most, used, more, room);
        match set_limit(alloc, link, setter, refused + 1, day, cap) {
            Ok(()) => return Ok(cap),
            Err(OrderFault::Over(over, now)) => {
                if over != day {
                    return Err(OrderFault::Over(over, now));
                }
                used = now;
            }
            Err(fault) => return Err(fault),
        }
        room = (room * 2 + 8).min(AMOUNT_LIMIT);
    }
    let cap = allowed(most, used, more, room);
    match set_limit(alloc, link, setter, LIMITS, day, cap) {
        Ok(()) => Ok(cap),
        Err(fault) => Err(fault),
    }
}

/// Sets the limit of a day to what is used and so many more, but never above the most, and then
/// that of each later day to so many. The result is the day's limit.
pub(crate) fn set_both<L: Link>(
    alloc: Global,
    link: &mut L,
    setter: &Setter,
    day: u32,
    most: u32,
    more: u32,
    used: u32,
) -> Result<u32, OrderFault>
    requires setter { IsSetter setter.now }
    requires day { IsDay (day + 1) }
    requires most { IsAmount most }
    requires more { IsAmount more }
    ensures { SetsBoth setter.now day most more used (L.told link.old) (L.told link.new) result }
{
    let cap = match set_above(alloc, link, setter, day, most, more, used) {
        Ok(cap) => cap,
        Err(fault) => return Err(fault),
    };
    match set_limit(alloc, link, setter, LIMITS + 1, day + 1, more) {
        Ok(()) => Ok(cap),
        Err(fault) => Err(fault),
    }
}

/// The line that says how much a login used, or may use, on a day.
pub(crate) fn line_of(
    alloc: Global,
    begin: &str,
    login: &Login,
    middle: &str,
    cap: u32,
    day: u32,
) -> Result<String, AllocError>
    ensures { IfOk result (λ line. string_bytes line ≡ day_line begin.now login.now middle.now cap
        day) }
{
    let mut line = String::from_str(alloc, begin)?;
    line.push_str(login_text(alloc, login.as_slice())?.as_str())?;
    line.push_str(middle)?;
    line.push_str(cap.to_string(alloc)?.as_str())?;
    line.push_str(" on day ")?;
    line.push_str(day.to_string(alloc)?.as_str())?;
    line.push('\n')?;
    Ok(line)
}
