//! Limits of a login from later days that are below the one which it was just given.
ghost use Rattle.std.specs.Prelude.{◌≡◌, ◌+◌, None, Ok};
ghost use Rattle.mq_request.specs.Range.{IsDay, IsLogin};
ghost use Rattle.mq_command.specs.Lower.{FindsLower, FoundLower, LooksAt};

use crate::ask::NoAnswer;
use crate::later::{LOOKS, LaterLimit};
use crate::usage::ask_used;
use mq_link::Link;
use mq_request::Login;
use mq_request::bounds::LAST_DAY;
use std::alloc::Global;
use std::io::Write;

/// Looks at the limit of a later day: the result is that one, where it is below the least that the
/// login is to have.
fn look_at<L: Link>(
    alloc: Global,
    link: &mut L,
    login: &Login,
    day: u32,
    least: u32,
) -> Result<Option<LaterLimit>, NoAnswer>
    requires login { IsLogin login.now }
    requires day { IsDay day }
    ensures { LooksAt login.now day least (L.told link.old) (L.told link.new) result }
{
    match ask_used(alloc, link, login, day) {
        Ok(usage) => {
            if usage.cap < least {
                return Ok(Some(LaterLimit {
                    day,
                    cap: usage.cap,
                }));
            }
            Ok(None)
        }
        Err(fault) => Err(fault),
    }
}

/// Looks at the days after the next one, and at the last day of all, for a limit below the least
/// that the login is to have. The result is the first.
fn find_lower<L: Link>(
    alloc: Global,
    link: &mut L,
    login: &Login,
    day: u32,
    least: u32,
) -> Result<Option<LaterLimit>, NoAnswer>
    requires login { IsLogin login.now }
    requires day { IsDay (day + 1) }
    ensures { FindsLower login.now day least (L.told link.old) (L.told link.new) result }
{
    let first = day + 2;
    for count in 0..LOOKS - 1 {
        let on = first + count;
        if LAST_DAY < on {
            return Ok(None);
        }
        match look_at(alloc, link, login, on, least) {
            Ok(None) => {}
            ended => return ended,
        }
    }
    look_at(alloc, link, login, LAST_DAY, least)
}

/// Says on `errors` which lower limit stays in force, from which day on where that is known, and
/// what to type.
fn tell_lower<E: Write>(lower: LaterLimit, errors: &mut E) {
    let LaterLimit { day, cap } = lower;
    let _ = if day == LAST_DAY {
        writeln!(
            errors,
            "mailquota: note: {lower}, and from which day on isn't found"
        )
    } else if cap == 0 {
        writeln!(
            errors,
            "mailquota: note: a limit of {cap} stays in force from day {day} on; use resume --day {day}"
        )
    } else {
        writeln!(
            errors,
            "mailquota: note: a limit of {cap} stays in force from day {day} on; use limit --from {day}"
        )
    };
}

/// Notes on `errors`, after a login was given a limit from a day on, that a lower one from a day
/// after the next one stays in force, or that this isn't known. It asks for what the login used on
/// up to 399 days after the next one and on the last day of all.
pub(crate) fn note_lower<L: Link, E: Write>(
    alloc: Global,
    link: &mut L,
    login: &Login,
    day: u32,
    least: u32,
    errors: &mut E,
)
    requires login { IsLogin login.now }
    requires day { IsDay (day + 1) }
    ensures { (found : FoundLower)
        × FindsLower login.now day least (L.told link.old) (L.told link.new) found
        × (found ≡ Ok None → errors.new ≡ errors.old) }
{
    match find_lower(alloc, link, login, day, least) {
        Ok(None) => {}
        Ok(Some(lower)) => tell_lower(lower, errors),
        Err(fault) => {
            let _ = writeln!(
                errors,
                "mailquota: note: whether a lower limit of a later day stays in force isn't known: {fault}"
            );
        }
    }
}
