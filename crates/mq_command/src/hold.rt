//! The limits of a login that is stopped: on each day what it used there or later, and 0 from then
//! on.
ghost use Rattle.std.specs.Prelude.{◌≡◌, ◌≤◌, ◌<◌, ◌+◌, IfOk, IfSome};
ghost use Rattle.mq_request.specs.Range.{IsAmount, IsDay, IsWithin};
ghost use Rattle.mq_request.specs.declared.bounds.TheConstants.{LAST_DAY};
ghost use Rattle.mq_command.specs.Allowing.{IsSetter};
ghost use Rattle.mq_command.specs.Holding.{Holds, HoldsDay, HoldsLater, HoldsNext, after_refusal};
ghost use Rattle.mq_command.specs.Holding.{held_cap, outcome};
ghost use Rattle.mq_command.specs.declared.hold.AfterRefusal.TheVariants.{Again, Stays};
ghost use Rattle.mq_command.specs.declared.hold.HeldLimit.{HeldLimit as AnyHeldLimit};
ghost use Rattle.mq_command.specs.declared.hold.KnownUse.{KnownUse as AnyKnownUse};

use crate::allow::{LIMITS, Setter, allowed, set_limit};
use crate::order::OrderFault;
use crate::usage::{DayUsage, ask_used};
use mq_link::Link;
use mq_request::bounds::{AMOUNT_LIMIT, LAST_DAY};
use std::alloc::Global;

/// On how many days after the one on which it is stopped a login may have used something.
pub(crate) const LATER_DAYS: u32 = 100;

/// How many numbers of the run belong to each day on which a login used something: `LIMITS` for its
/// limit, and the one after them for that of the next day.
pub(crate) const NUMBERS_OF_DAY: u32 = 20;

/// What is known of a day whose limit is sent.
#[derive(Clone, Copy, Debug)]
struct KnownUse {
    /// Recipients that are used on the day, or on a later one.
    used: u32,
    /// Recipients that may be used meanwhile.
    room: u32,
    /// The day itself, or the later one on which so many are used.
    last: u32,
}

/// The limit of a day of a login that is stopped.
#[derive(Clone, Copy, Debug)]
pub(crate) struct HeldLimit {
    /// Recipients a day.
    pub(crate) cap: u32,
    /// The last day that it is right for.
    pub(crate) last: u32,
    /// Whether it is one that was used on a later day, or one that is below that.
    pub(crate) is_more: bool,
}

/// What follows where a limit is refused.
#[derive(Clone, Copy, Debug)]
enum AfterRefusal {
    /// Another limit is sent.
    Again(KnownUse),
    /// The limit stays that the login has.
    Stays(HeldLimit),
    /// The refusal makes no sense.
    Fails,
}

/// What a stopped login may have on days after the one on which it is stopped.
#[derive(Clone, Copy, Debug)]
pub(crate) struct LaterUse {
    /// The greatest limit of a later day.
    pub(crate) most: u32,
    /// The last day on which it may have something.
    pub(crate) last: u32,
}

/// The limit that is sent for a day.
fn held_cap(usage: DayUsage, known: KnownUse) -> u32
    requires { IsAmount usage.cap }
    ensures is { result ≡ held_cap usage known }
    ensures in_range { IsAmount result }
{
    allowed(usage.cap, known.used, 0, known.room)
}

/// What follows where a limit of a day is refused since so much is used on some day. More that is
/// used on a later day is no reason to add room. The limit is never above the one that the login
/// has: where that is below what is used later, it stays.
fn after_refusal(day: u32, usage: DayUsage, known: KnownUse, over: u32, now: u32) -> AfterRefusal
    requires room { known.room ≤ 1000000 }
    requires most { IsAmount usage.cap }
    ensures is { result ≡ after_refusal day usage known over now }
    ensures in_range { (stays : AnyHeldLimit) → result ≡ Stays stays → IsAmount stays.cap }
    ensures room { (next : AnyKnownUse) → result ≡ Again next → next.room ≤ 1000000 }
{
    if over == day {
        AfterRefusal::Again(KnownUse {
            used: now,
            room: (known.room * 2 + 8).min(AMOUNT_LIMIT),
            last: known.last,
        })
    } else if over < day {
        AfterRefusal::Fails
    } else if usage.cap < now {
        AfterRefusal::Stays(HeldLimit {
            cap: usage.cap,
            last: over - 1,
            is_more: true,
        })
    } else {
        AfterRefusal::Again(KnownUse {
            used: now,
            room: known.room,
            last: over,
        })
    }
}

/// The limit of a day that is set.
fn outcome(day: u32, usage: DayUsage, known: KnownUse) -> HeldLimit
    requires { IsAmount usage.cap }
    ensures is { result ≡ outcome day usage known }
    ensures in_range { IsAmount result.cap }
{
    HeldLimit {
        cap: held_cap(usage, known),
        last: known.last,
        is_more: known.last != day,
    }
}

/// Sets the limit of a day to what is used there. Where more is used on that day meanwhile it is
/// sent again with what is used then, and with room for what is used meanwhile, which grows to
/// twice as much each time. Where more is used on a later day, it is sent again with that: the
/// server takes no limit below it. The numbers begin with `first`.
pub(crate) fn hold<L: Link>(
    alloc: Global,
    link: &mut L,
    setter: &Setter,
    first: u32,
    day: u32,
    usage: DayUsage,
) -> Result<HeldLimit, OrderFault>
    requires setter { IsSetter setter.now }
    requires first { IsWithin 1 2001 first }
    requires day { IsDay day }
    requires most { IsAmount usage.cap }
    ensures holds { Holds setter.now first day usage (L.told link.old) (L.told link.new) result }
    ensures in_range { IfOk result (λ held. IsAmount held.cap) }
{
    let mut known = KnownUse {
        used: usage.used,
        room: 0,
        last: day,
    };
    for refused in 0..LIMITS - 1 {
        let cap = held_cap(usage, known);
        match set_limit(alloc, link, setter, first + refused, day, cap) {
            Ok(()) => return Ok(outcome(day, usage, known)),
            Err(OrderFault::Over(over, now)) => {
                match after_refusal(day, usage, known, over, now) {
                    AfterRefusal::Again(next) => known = next,
                    AfterRefusal::Stays(stays) => return Ok(stays),
                    AfterRefusal::Fails => return Err(OrderFault::Over(over, now)),
                }
            }
            Err(fault) => return Err(fault),
        }
    }
    let cap = held_cap(usage, known);
    match set_limit(alloc, link, setter, first + (LIMITS - 1), day, cap) {
        Ok(()) => Ok(outcome(day, usage, known)),
        Err(fault) => Err(fault),
    }
}

/// Asks what a login used on a day, and sets its limit to that.
fn hold_day<L: Link>(
    alloc: Global,
    link: &mut L,
    setter: &Setter,
    first: u32,
    day: u32,
) -> Result<HeldLimit, OrderFault>
    requires setter { IsSetter setter.now }
    requires first { IsWithin 1 2001 first }
    requires day { IsDay day }
    ensures holds { HoldsDay setter.now first day (L.told link.old) (L.told link.new) result }
    ensures in_range { IfOk result (λ held. IsAmount held.cap) }
{
    match ask_used(alloc, link, &setter.login, day) {
        Ok(usage) => hold(alloc, link, setter, first, day, usage),
        Err(fault) => Err(OrderFault::Unanswered(fault)),
    }
}

/// Sets the limit to 0 from the day on that follows the last one on which a login may have
/// something. Where more is used then or later, that day's limit is set to what is used. The result
/// is none where 0 is set.
fn hold_next<L: Link>(
    alloc: Global,
    link: &mut L,
    setter: &Setter,
    place: u32,
    later: LaterUse,
) -> Result<Option<LaterUse>, OrderFault>
    requires setter { IsSetter setter.now }
    requires place { place < 100 }
    requires day { later.last < LAST_DAY }
    requires most { IsAmount later.most }
    ensures holds { HoldsNext setter.now place later (L.told link.old) (L.told link.new) result }
    ensures in_range { IfOk result (λ next. IfSome next (λ next. IsAmount next.most)) }
{
    let day = later.last + 1;
    match set_limit(
        alloc,
        link,
        setter,
        NUMBERS_OF_DAY * place + (LIMITS + 1),
        day,
        0,
    ) {
        Ok(()) => return Ok(None),
        Err(OrderFault::Over(_day, _used)) => {}
        Err(fault) => return Err(fault),
    }
    match hold_day(
        alloc,
        link,
        setter,
        NUMBERS_OF_DAY * place + (NUMBERS_OF_DAY + 1),
        day,
    ) {
        Ok(held) => Ok(Some(LaterUse {
            most: later.most.max(held.cap),
            last: held.last,
        })),
        Err(fault) => Err(fault),
    }
}

/// Lets a login have nothing more on each day after this one: 0, or what it used on such a day,
/// where the server takes nothing below that.
pub(crate) fn hold_later<L: Link>(
    alloc: Global,
    link: &mut L,
    setter: &Setter,
    day: u32,
) -> Result<LaterUse, OrderFault>
    requires setter { IsSetter setter.now }
    requires day { IsDay (day + 1) }
    ensures holds { HoldsLater setter.now day (L.told link.old) (L.told link.new) result }
    ensures in_range { IfOk result (λ later. IsAmount later.most) }
{
    let mut later = LaterUse { most: 0, last: day };
    for place in 0..LATER_DAYS {
        match hold_next(alloc, link, setter, place, later) {
            Ok(None) => return Ok(later),
            Ok(Some(next)) => later = next,
            Err(fault) => return Err(fault),
        }
        if LAST_DAY <= later.last {
            return Ok(later);
        }
    }
    match set_limit(
        alloc,
        link,
        setter,
        NUMBERS_OF_DAY * LATER_DAYS + (LIMITS + 1),
        later.last + 1,
        0,
    ) {
        Ok(()) => Ok(later),
        Err(fault) => Err(fault),
    }
}
