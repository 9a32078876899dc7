//! The line of one login in a report.
ghost use Rattle.std.specs.Prelude.{◌≡◌, ◌++◌, OnOk, IfOk, string_bytes, replicate};
ghost use Rattle.std.specs.Io.KnownBytes.{Appends};
ghost use Rattle.mq_stream.specs.Flow.{AppendsFront};
ghost use Rattle.mq_command.specs.Report.{column, report_lines, right, row_line, row_line_in};

use crate::output::{OutputFault, write_whole};
use crate::printed::login_text;
use mq_request::UsageRow;
use std::alloc::{AllocError, Global};
use std::io::Write;

/// How many places a number takes that has no more digits.
pub const PLACES: usize = 7;

fn push_spaces(line: &mut String, count: usize) -> Result<(), AllocError>
    ensures { OnOk result (string_bytes line.new ≡ string_bytes line.old ++ replicate count 32) }
{
    for _space in 0..count {
        line.push(' ')?;
    }
    Ok(())
}

/// A word, right in so many places.
pub fn push_right(line: &mut String, places: usize, word: &str) -> Result<(), AllocError>
    ensures { OnOk result (string_bytes line.new ≡ string_bytes line.old ++ right places word.now) }
{
    push_spaces(line, places.saturating_sub(word.len()))?;
    line.push_str(word)
}

/// A number, right in so many places, and a space.
fn push_column(
    alloc: Global,
    line: &mut String,
    places: usize,
    number: u32,
) -> Result<(), AllocError>
    ensures { OnOk result (string_bytes line.new ≡ string_bytes line.old ++ column places number) }
{
    let digits = number.to_string(alloc)?;
    push_right(line, places, digits.as_str())?;
    line.push(' ')
}

/// The line of a login: what is settled and reserved and the limit, each right in so many places and
/// a space, and the login's text.
pub fn row_text(alloc: Global, places: usize, row: &UsageRow) -> Result<String, AllocError>
    ensures { IfOk result (λ line. string_bytes line ≡ row_line_in places row.now) }
{
    let mut line = String::new(alloc);
    push_column(alloc, &mut line, places, row.settled)?;
    push_column(alloc, &mut line, places, row.reserved)?;
    push_column(alloc, &mut line, places, row.cap)?;
    line.push_str(login_text(alloc, row.login.as_slice())?.as_str())?;
    line.push('\n')?;
    Ok(line)
}

/// Writes the line of a login.
pub fn write_row<W: Write>(alloc: Global, output: &mut W, row: &UsageRow) -> Result<(), OutputFault>
    ensures whole { OnOk result (Appends (W.contents output.old) (W.contents output.new)
        (row_line row.now)) }
    ensures front { AppendsFront (W.contents output.old) (W.contents output.new)
        (row_line row.now) }
{
    let line = row_text(alloc, PLACES, row)?;
    write_whole(output, line.as_bytes())
}

/// Writes the line of each row, in order.
pub fn write_rows<W: Write>(
    alloc: Global,
    output: &mut W,
    rows: &[UsageRow],
) -> Result<(), OutputFault>
    ensures whole { OnOk result (Appends (W.contents output.old) (W.contents output.new)
        (report_lines rows.now)) }
    ensures front { AppendsFront (W.contents output.old) (W.contents output.new)
        (report_lines rows.now) }
{
    for row in rows {
        write_row(alloc, output, row)?;
    }
    Ok(())
}
