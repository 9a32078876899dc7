//! The day that an option's text names.
ghost use Rattle.std.specs.Prelude.{◌≡◌, IfOk, IfSome};
ghost use Rattle.mq_request.specs.Range.{IsDay};
ghost use Rattle.mq_process.specs.Arguments.{IsDayUpTo};
ghost use Rattle.mq_words.specs.Days.{WritesDay, WritesNumber};

use crate::fault::{TextFault, fault_of};
use crate::subcommands::Range;
use mq_dates::day_of_text;
use mq_process::DayArgument;
use mq_request::EscapedText;
use std::alloc::{AllocError, Global};

/// The number of a day that a text writes: digits, or a date.
fn number_in(alloc: Global, text: &str) -> Result<Option<u32>, AllocError>
    ensures { IfOk result (λ found. IfSome found (WritesNumber text.now)) }
{
    match text.parse::<u32>() {
        Ok(number) => Ok(Some(number)),
        Err(_) => day_of_text(alloc, text),
    }
}

/// The day that an option's text names: by one of three words, a number or a date, from day 0 to
/// the last one of the option. `option` is how the fault of another text names it.
pub fn read_day(
    alloc: Global,
    option: &str,
    text: &str,
    range: Range<u32>,
) -> Result<DayArgument, TextFault>
    requires { range.least ≡ 0 }
    ensures in_range { IfOk result (IsDayUpTo range.most) }
    ensures written { IfOk result (WritesDay range.most text.now) }
{
    match text {
        "today" => Ok(DayArgument::Today),
        "yesterday" => Ok(DayArgument::Ago(1)),
        "tomorrow" => Ok(DayArgument::Tomorrow),
        _ => match number_in(alloc, text)? {
            Some(number) if number <= range.most => Ok(DayArgument::Given(number)),
            Some(number) => Err(out_of_range(alloc, option, number, range)),
            None => Err(no_day(alloc, option, text)),
        },
    }
}

/// The fault of a day that isn't one of the option's.
fn out_of_range(alloc: Global, option: &str, number: u32, range: Range<u32>) -> TextFault {
    let Range { least, most } = range;
    fault_of(format!(in alloc;
        "error: invalid value '{number}' for '{option}': {number} is not in {least}..={most}"
    ))
}

/// The fault of a text that names no day.
fn no_day(alloc: Global, option: &str, text: &str) -> TextFault {
    let shown = EscapedText(text.as_bytes());
    fault_of(format!(in alloc;
        "error: invalid value '{shown}' for '{option}': no day number, no date as 2026-11-30, and none of yesterday, today and tomorrow"
    ))
}
