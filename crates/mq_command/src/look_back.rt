//! Looks for a day of a login from a day back.
ghost use Rattle.std.specs.Prelude.{◌≡◌, ◌≤◌, IfOk, IfSome};
ghost use Rattle.mq_request.specs.Range.{IsDay, IsLogin};
ghost use Rattle.mq_command.specs.Usage.{LooksBack, is_sought};

use crate::ask::NoAnswer;
use crate::usage::{DayUsage, ask_used};
use mq_link::Link;
use mq_request::Login;
use std::alloc::Global;

/// Which day is sought.
#[derive(Clone, Copy, Debug, PartialEq)]
pub enum SoughtDay {
    /// One on which the login used something.
    Use,
    /// One on which its limit isn't 0.
    Limit,
}

/// Whether a day is one that is sought.
fn is_sought(sought: SoughtDay, usage: DayUsage) -> bool
    ensures { result ≡ is_sought sought usage }
{
    match sought {
        SoughtDay::Use => usage.used != 0,
        SoughtDay::Limit => usage.cap != 0,
    }
}

/// Asks for what a login used on a day and then for the days before it, so many days in all, until
/// one is sought, and gives that day.
pub fn look_back<L: Link>(
    alloc: Global,
    link: &mut L,
    sought: SoughtDay,
    login: &Login,
    day: u32,
    days: u32,
) -> Result<Option<u32>, NoAnswer>
    requires login { IsLogin login.now }
    requires day { IsDay day }
    ensures looks { LooksBack sought login.now day days (L.told link.old) (L.told link.new) result }
    ensures earlier { IfOk result (λ found. IfSome found (λ found. found ≤ day)) }
{
    for count in 0..days.min(day + 1) {
        match ask_used(alloc, link, login, day - count) {
            Ok(usage) => {
                if is_sought(sought, usage) {
                    return Ok(Some(day - count));
                }
            }
            Err(fault) => return Err(fault),
        }
    }
    Ok(None)
}
