//! `day`: prints a day, in any form.
ghost use Rattle.std.specs.Prelude.{IfOk, IfSome, MatchResult};
ghost use Rattle.mq_request.specs.Range.{IsDay, IsMoment};
ghost use Rattle.mq_process.specs.Arguments.{IsDayArguments};
ghost use Rattle.mq_process.specs.Days.{IsAskedDay, PrintsDay};
ghost use Rattle.mq_process.specs.Today.{IsNoDay};

use crate::arguments::DayArguments;
use crate::fault::ProcessFault;
use crate::form::form_of;
use crate::moment::moment_or_now;
use crate::settings::server_settings;
use crate::today::day_named;
use mq_command::print_day;
use mq_dates::date_of_day;
use mq_request::bounds::LAST_DAY;
use std::io::Write;
use std::rt::{Clock, Files};

/// The day of a moment, or of now, in the zone of a server's settings.
fn day_at<R: Files + Clock + Eprint + AllocGlobal>(
    rt: &R,
    config: &str,
    moment: Option<u64>,
) -> Result<u32, ProcessFault>
    requires { IfSome moment IsMoment }
    ensures day { MatchResult result (IsAskedDay R.File.remaining None moment)
        (IsNoDay R.File.remaining) }
    ensures in_range { IfOk result IsDay }
{
    match server_settings(rt, config) {
        Ok(settings) => match moment_or_now(rt, moment) {
            Ok(moment) => Ok(settings.zone.day_at(moment)),
            Err(fault) => Err(fault),
        },
        Err(fault) => Err(fault),
    }
}

/// The day that is asked for: the one that is named, or that of a moment.
fn asked_day<R: Files + Clock + Eprint + AllocGlobal>(
    rt: &R,
    given: DayArguments<'_>,
) -> Result<u32, ProcessFault>
    requires { IsDayArguments given }
    ensures day { MatchResult result
        (IsAskedDay R.File.remaining given.entry.named given.entry.moment)
        (IsNoDay R.File.remaining) }
    ensures in_range { IfOk result IsDay }
{
    match given.named {
        Some(named) => day_named(rt, named, Some(given.config), LAST_DAY),
        None => day_at(rt, given.config, given.moment),
    }
}

/// `day`: prints the number of the day that is named, or of a moment, or of now, in the zone of a
/// server's settings; on a terminal and as JSON with its date.
pub fn day<R: Files + Clock + Eprint + AllocGlobal, W: Write, E: Write>(
    rt: &R,
    given: DayArguments<'_>,
    is_on_terminal: bool,
    output: &mut W,
    errors: &mut E,
) -> Result<u8, ProcessFault>
    requires { IsDayArguments given }
    ensures { PrintsDay R.File.remaining given.entry is_on_terminal (W.contents output.old)
        (W.contents output.new) result }
{
    match asked_day(rt, given) {
        Ok(day) => match date_of_day(rt.alloc(), day) {
            Ok(date) => {
                let form = form_of(given.output, is_on_terminal);
                Ok(print_day(rt.alloc(), form, day, date.as_str(), output, errors))
            }
            Err(_) => Err(ProcessFault::Memory),
        },
        Err(fault) => Err(fault),
    }
}
