//! `resume` with a number: how many recipients more a login may have, today and on each later day.
ghost use Rattle.std.specs.Prelude.{◌≡◌, ◌+◌, None, Ok};
ghost use Rattle.mq_request.specs.Range.{IsAmount, IsDay};
ghost use Rattle.mq_command.specs.Allowing.{IsSetter};
ghost use Rattle.mq_command.specs.Lower.{FoundLower};
ghost use Rattle.mq_command.specs.Resuming.{GivesMore, RunsResume};

use crate::allow::{Setter, line_of, set_both};
use crate::errors::Errors;
use crate::lower::note_lower;
use crate::order::OrderFault;
use crate::telling::{say_of_server, tell_line};
use crate::usage::ask_used;
use mq_link::Link;
use mq_request::bounds::AMOUNT_LIMIT;
use std::alloc::Global;
use std::io::Write;

/// Lets a login have so many recipients more on a day, and so many on each later day. The result is
/// the day's limit.
fn give_more<L: Link>(
    alloc: Global,
    link: &mut L,
    setter: &Setter,
    day: u32,
    more: u32,
) -> Result<u32, OrderFault>
    requires setter { IsSetter setter.now }
    requires day { IsDay (day + 1) }
    requires more { IsAmount more }
    ensures { GivesMore setter.now day more (L.told link.old) (L.told link.new) result }
{
    match ask_used(alloc, link, &setter.login, day) {
        Ok(usage) => set_both(alloc, link, setter, day, AMOUNT_LIMIT, more, usage.used),
        Err(fault) => Err(OrderFault::Unanswered(fault)),
    }
}

/// Lets a login have so many recipients more on a day, and so many on each later day, and prints on
/// `output` how many it may have on that day, or says on `errors` why not both limits are set. A
/// lower limit of a later day, which stays in force, is noted on `errors`. The result is the exit
/// status, 0 or 1.
///
/// `day` is a day number, 0 to 376,199, and `more` is 0 to 1,000,000.
pub fn run_resume<L: Link, W: Write, E: Errors>(
    alloc: Global,
    link: &mut L,
    setter: &Setter,
    day: u32,
    more: u32,
    output: &mut W,
    errors: &mut E,
) -> u8
    requires setter { IsSetter setter.now }
    requires day { IsDay (day + 1) }
    requires more { IsAmount more }
    ensures { (found : FoundLower)
        × RunsResume setter.now day more found result (L.told link.old) (L.told link.new)
        (W.contents output.old)
        (W.contents output.new)
        × (result ≡ 0 → found ≡ Ok None → errors.new ≡ errors.old) }
{
    match give_more(alloc, link, setter, day, more) {
        Ok(cap) => {
            let line = line_of(alloc, "resumed: ", &setter.login, " may use ", cap, day);
            let status = tell_line(line, output, errors);
            note_lower(alloc, link, &setter.login, day, more, errors);
            status
        }
        Err(fault) => say_of_server(errors, &fault, fault.is_not_taken()),
    }
}
