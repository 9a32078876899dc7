//! The limit that a text names.
ghost use Rattle.std.specs.Prelude.{IfOk};
ghost use Rattle.mq_process.specs.Arguments.{IsLimitArgument};
ghost use Rattle.mq_words.specs.Limits.{WritesLimit};

use crate::fault::{TextFault, fault_of};
use crate::subcommands::{AMOUNTS, Range};
use mq_process::LimitArgument;
use mq_request::EscapedText;
use std::alloc::Global;

/// The limit that a text names: `default`, or a number of recipients a day. `option` is how the
/// fault of another text names it.
pub fn read_limit(alloc: Global, option: &str, text: &str) -> Result<LimitArgument, TextFault>
    ensures in_range { IfOk result IsLimitArgument }
    ensures written { IfOk result (WritesLimit text.now) }
{
    match text {
        "default" => Ok(LimitArgument::Default),
        _ => match text.parse::<u32>() {
            Ok(number) if number <= AMOUNTS.most => Ok(LimitArgument::Recipients(number)),
            Ok(number) => Err(out_of_range(alloc, option, number)),
            Err(_) => Err(no_limit(alloc, option, text)),
        },
    }
}

/// The fault of a number that is no limit's.
fn out_of_range(alloc: Global, option: &str, number: u32) -> TextFault {
    let Range { least, most } = AMOUNTS;
    fault_of(format!(in alloc;
        "error: invalid value '{number}' for '{option}': {number} is not in {least}..={most}"
    ))
}

/// The fault of a text that names no limit.
fn no_limit(alloc: Global, option: &str, text: &str) -> TextFault {
    let shown = EscapedText(text.as_bytes());
    fault_of(format!(in alloc;
        "error: invalid value '{shown}' for '{option}': no number of recipients, and not default"
    ))
}
