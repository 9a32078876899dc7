//! `day`: prints the day number of a moment.
ghost use Rattle.std.specs.Prelude.{◌≡◌, ◌++◌, ◌∷◌, [], IfOk, string_bytes};
ghost use Rattle.std.specs.Fmt.{decimal};
ghost use Rattle.mq_request.specs.Range.{IsMoment};
ghost use Rattle.mq_ledger.specs.Day.{day_of};
ghost use Rattle.mq_command.specs.Orders.{PrintsLine};

use crate::telling::tell_line;
use mq_ledger::Zone;
use std::alloc::{AllocError, Global};
use std::io::Write;

/// The line of a day number.
fn day_text(alloc: Global, day: u32) -> Result<String, AllocError>
    ensures { IfOk result (λ line. string_bytes line ≡ decimal day ++ 10 ∷ []) }
{
    let mut line = day.to_string(alloc)?;
    line.push('\n')?;
    Ok(line)
}

/// Prints the ledger day of a moment on `output`, or says on `errors` why it can't. The result is
/// the exit status, 0 or 1. `moment` is 86,400 to 32,503,680,000 seconds since
/// 1970-01-01T00:00:00Z.
pub fn run_day<W: Write, E: Write>(
    alloc: Global,
    zone: &Zone,
    moment: u64,
    output: &mut W,
    errors: &mut E,
) -> u8
    requires { IsMoment moment }
    ensures prints { PrintsLine (decimal (day_of zone.now moment) ++ 10 ∷ [])
        (W.contents output.old)
        (W.contents output.new) result }
    ensures quiet { result ≡ 0 → errors.new ≡ errors.old }
{
    tell_line(day_text(alloc, zone.day_at(moment)), output, errors)
}
