//! The forms of what is printed: for a pipe, for a terminal, and JSON.
ghost use Rattle.std.specs.Prelude.{◌≡◌, ◌++◌, IfOk, OnOk, codes};
ghost use Rattle.std.specs.List.{flat_map};
ghost use Rattle.std.specs.Fmt.{decimal};
ghost use Rattle.mq_command.specs.Report.{report_lines};
ghost use Rattle.mq_command.specs.Orders.{PrintsLine};
ghost use Rattle.mq_command.specs.Forms.{day_text, json_byte, json_day, json_login, json_row, json_rows};
ghost use Rattle.mq_command.specs.Forms.{json_status, json_string, json_taken, json_truth};
ghost use Rattle.mq_command.specs.Forms.{next_row, report_text};

use crate::printed::login_text;
use crate::report::row::{PLACES, row_text};
use crate::report::table::table_text;
use crate::telling::tell_bytes;
use mq_request::{Login, UsageRow};
use std::alloc::{AllocError, Global};
use std::io::Write;

/// The form of what is printed. Each has its text in `push_report` and `push_day`.
#[derive(Clone, Copy, Debug, PartialEq)]
pub enum Form {
    /// For a pipe: numbers and logins alone.
    Plain,
    /// For a terminal: a line above columns, and its date after a day's number.
    Shown,
    /// One JSON object, in one line.
    Json,
}

/// Appends the digits of a number.
fn push_number(alloc: Global, text: &mut Vec<u8>, number: u32) -> Result<(), AllocError>
    ensures { OnOk result (text.new.items ≡ text.old.items ++ decimal number) }
{
    text.extend_from_slice(number.to_string(alloc)?.as_bytes())
}

/// Appends a byte of a JSON string, of visible ASCII or a space.
fn push_json_byte(text: &mut Vec<u8>, byte: u8) -> Result<(), AllocError>
    ensures { OnOk result (text.new.items ≡ text.old.items ++ json_byte byte) }
{
    if byte == b'"' || byte == b'\\' {
        return text.extend_from_slice(&[b'\\', byte]);
    }
    text.extend_from_slice(&[byte])
}

/// Appends a JSON string, of visible ASCII and spaces.
pub(crate) fn push_json_string(text: &mut Vec<u8>, bytes: &[u8]) -> Result<(), AllocError>
    ensures { OnOk result (text.new.items ≡ text.old.items ++ json_string bytes.now) }
{
    text.extend_from_slice(b"\"")?;
    for byte in bytes {
        push_json_byte(text, *byte)?;
    }
    text.extend_from_slice(b"\"")
}

/// Appends a key, with what stands around it, and its number.
fn push_member(alloc: Global, text: &mut Vec<u8>, key: &[u8], number: u32) -> Result<(), AllocError>
    ensures { OnOk result (text.new.items ≡ text.old.items ++ (key.now ++ decimal number)) }
{
    text.extend_from_slice(key)?;
    push_number(alloc, text, number)?;
    Ok(())
}

/// Appends the beginning of a JSON object: a login.
fn push_json_login(alloc: Global, text: &mut Vec<u8>, login: &Login) -> Result<(), AllocError>
    ensures { OnOk result (text.new.items ≡ text.old.items
        ++ (codes "{\"login\":" ++ json_login login.now)) }
{
    text.extend_from_slice(b"{\"login\":")?;
    push_json_string(text, login_text(alloc, login.as_slice())?.as_bytes())?;
    Ok(())
}

/// Appends the JSON object of a login's row.
fn push_json_row(alloc: Global, text: &mut Vec<u8>, row: &UsageRow) -> Result<(), AllocError>
    ensures { OnOk result (text.new.items ≡ text.old.items ++ json_row row.now) }
{
    push_json_login(alloc, text, &row.login)?;
    push_member(alloc, text, b",\"settled\":", row.settled)?;
    push_member(alloc, text, b",\"reserved\":", row.reserved)?;
    push_member(alloc, text, b",\"limit\":", row.cap)?;
    text.extend_from_slice(b"}")?;
    Ok(())
}

/// Appends a comma and the JSON object of a login's row.
fn push_next_row(alloc: Global, text: &mut Vec<u8>, row: &UsageRow) -> Result<(), AllocError>
    ensures { OnOk result (text.new.items ≡ text.old.items ++ next_row row.now) }
{
    text.extend_from_slice(b",")?;
    push_json_row(alloc, text, row)?;
    Ok(())
}

/// Appends the JSON objects of rows, with a comma before each.
fn push_more_rows(alloc: Global, text: &mut Vec<u8>, rows: &[UsageRow]) -> Result<(), AllocError>
    ensures { OnOk result (text.new.items ≡ text.old.items ++ flat_map next_row rows.now) }
{
    for row in rows {
        push_next_row(alloc, text, row)?;
    }
    Ok(())
}

/// Appends the JSON objects of rows, with a comma between two.
fn push_json_rows(alloc: Global, text: &mut Vec<u8>, rows: &[UsageRow]) -> Result<(), AllocError>
    ensures { OnOk result (text.new.items ≡ text.old.items ++ json_rows rows.now) }
{
    match rows {
        [] => Ok(()),
        [first, rest @ ..] => {
            push_json_row(alloc, text, first)?;
            push_more_rows(alloc, text, rest)
        }
    }
}

/// Appends the beginning of a JSON object: a day and its date.
fn push_json_day(alloc: Global, text: &mut Vec<u8>, day: u32, date: &str) -> Result<(), AllocError>
    ensures { OnOk result (text.new.items ≡ text.old.items ++ json_day day date.now) }
{
    text.extend_from_slice(b"{\"day\":")?;
    push_number(alloc, text, day)?;
    text.extend_from_slice(b",\"date\":")?;
    push_json_string(text, date.as_bytes())
}

/// Appends the lines of rows.
fn push_lines(alloc: Global, text: &mut Vec<u8>, rows: &[UsageRow]) -> Result<(), AllocError>
    ensures { OnOk result (text.new.items ≡ text.old.items ++ report_lines rows.now) }
{
    for row in rows {
        text.extend_from_slice(row_text(alloc, PLACES, row)?.as_bytes())?;
    }
    Ok(())
}

/// Appends what is printed of the rows of a day.
fn push_report(
    alloc: Global,
    text: &mut Vec<u8>,
    form: Form,
    day: u32,
    date: &str,
    rows: &[UsageRow],
) -> Result<(), AllocError>
    ensures { OnOk result (text.new.items ≡ text.old.items
        ++ report_text form day date.now rows.now) }
{
    match form {
        Form::Plain => push_lines(alloc, text, rows),
        Form::Shown => text.extend_from_slice(table_text(alloc, rows)?.as_bytes()),
        Form::Json => {
            push_json_day(alloc, text, day, date)?;
            text.extend_from_slice(b",\"logins\":[")?;
            push_json_rows(alloc, text, rows)?;
            text.extend_from_slice(b"]}\n")
        }
    }
}

/// What is printed of the rows of a day, whose date this is.
fn report_text(
    alloc: Global,
    form: Form,
    day: u32,
    date: &str,
    rows: &[UsageRow],
) -> Result<Vec<u8>, AllocError>
    ensures { IfOk result (λ text. text.items ≡ report_text form day date.now rows.now) }
{
    let mut text = Vec::new(alloc);
    push_report(alloc, &mut text, form, day, date, rows)?;
    Ok(text)
}

/// Prints the rows of a day in this form, or says on `errors` why they can't be printed. The result
/// is the exit status, 0 or 1.
pub(crate) fn print_report<W: Write, E: Write>(
    alloc: Global,
    form: Form,
    day: u32,
    date: &str,
    rows: &[UsageRow],
    output: &mut W,
    errors: &mut E,
) -> u8
    ensures prints { PrintsLine (report_text form day date.now rows.now) (W.contents output.old)
        (W.contents output.new) result }
    ensures quiet { result ≡ 0 → errors.new ≡ errors.old }
{
    tell_bytes(report_text(alloc, form, day, date, rows), output, errors)
}

/// Appends what is printed of a day.
fn push_day(
    alloc: Global,
    text: &mut Vec<u8>,
    form: Form,
    day: u32,
    date: &str,
) -> Result<(), AllocError>
    ensures { OnOk result (text.new.items ≡ text.old.items ++ day_text form day date.now) }
{
    match form {
        Form::Plain => {
            push_number(alloc, text, day)?;
            text.extend_from_slice(b"\n")
        }
        Form::Shown => {
            push_number(alloc, text, day)?;
            text.extend_from_slice(b" ")?;
            text.extend_from_slice(date.as_bytes())?;
            text.extend_from_slice(b"\n")
        }
        Form::Json => {
            push_json_day(alloc, text, day, date)?;
            text.extend_from_slice(b"}\n")
        }
    }
}

/// What is printed of a day, whose date this is.
fn day_text(alloc: Global, form: Form, day: u32, date: &str) -> Result<Vec<u8>, AllocError>
    ensures { IfOk result (λ text. text.items ≡ day_text form day date.now) }
{
    let mut text = Vec::new(alloc);
    push_day(alloc, &mut text, form, day, date)?;
    Ok(text)
}

/// Prints a day in this form, with its date where the form has one, or says on `errors` why it can't
/// be printed. The result is the exit status, 0 or 1.
///
/// `date` is `YYYY-MM-DD`: any text without control characters is right for JSON.
pub fn print_day<W: Write, E: Write>(
    alloc: Global,
    form: Form,
    day: u32,
    date: &str,
    output: &mut W,
    errors: &mut E,
) -> u8
    ensures prints { PrintsLine (day_text form day date.now) (W.contents output.old)
        (W.contents output.new) result }
    ensures quiet { result ≡ 0 → errors.new ≡ errors.old }
{
    tell_bytes(day_text(alloc, form, day, date), output, errors)
}

/// Appends a key, with what stands around it, and its truth value.
fn push_truth(text: &mut Vec<u8>, key: &[u8], is_true: bool) -> Result<(), AllocError>
    ensures { OnOk result (text.new.items ≡ text.old.items ++ (key.now ++ json_truth is_true)) }
{
    text.extend_from_slice(key)?;
    let word: &[u8] = if is_true { b"true" } else { b"false" };
    text.extend_from_slice(word)?;
    Ok(())
}

/// Appends a key, with what stands around it, and its string.
fn push_text(text: &mut Vec<u8>, key: &[u8], bytes: &[u8]) -> Result<(), AllocError>
    ensures { OnOk result (text.new.items ≡ text.old.items ++ (key.now ++ json_string bytes.now)) }
{
    text.extend_from_slice(key)?;
    push_json_string(text, bytes)?;
    Ok(())
}

/// What is printed of a server, by whether it answers.
fn status_text(alloc: Global, server: &str, answers: bool) -> Result<Vec<u8>, AllocError>
    ensures { IfOk result (λ text. text.items ≡ json_status server.now answers) }
{
    let mut text = Vec::new(alloc);
    push_text(&mut text, b"{\"server\":", server.as_bytes())?;
    push_truth(&mut text, b",\"answers\":", answers)?;
    text.extend_from_slice(b"}\n")?;
    Ok(text)
}

/// What is printed of a server and a host.
fn taken_text(alloc: Global, server: &str, host: &[u8], taken: bool) -> Result<Vec<u8>, AllocError>
    ensures { IfOk result (λ text. text.items ≡ json_taken server.now host.now taken) }
{
    let shown = login_text(alloc, host)?;
    let mut text = Vec::new(alloc);
    push_text(&mut text, b"{\"server\":", server.as_bytes())?;
    push_text(&mut text, b",\"host\":", shown.as_bytes())?;
    push_truth(&mut text, b",\"taken\":", taken)?;
    text.extend_from_slice(b"}\n")?;
    Ok(text)
}

/// Prints the JSON object of a server, by whether it answers, or says on `errors` why it can't be
/// printed. The result is the exit status, 0 or 1, of the printing alone. `server` is its address.
pub fn print_status<W: Write, E: Write>(
    alloc: Global,
    server: &str,
    answers: bool,
    output: &mut W,
    errors: &mut E,
) -> u8
    ensures prints { PrintsLine (json_status server.now answers) (W.contents output.old)
        (W.contents output.new) result }
    ensures quiet { result ≡ 0 → errors.new ≡ errors.old }
{
    tell_bytes(status_text(alloc, server, answers), output, errors)
}

/// Prints the JSON object of a server and a host, by whether it is known that the server takes the
/// host's requests, or says on `errors` why it can't be printed. The result is the exit status, 0 or
/// 1, of the printing alone. `server` is its address.
pub fn print_taken<W: Write, E: Write>(
    alloc: Global,
    server: &str,
    host: &[u8],
    taken: bool,
    output: &mut W,
    errors: &mut E,
) -> u8
    ensures prints { PrintsLine (json_taken server.now host.now taken) (W.contents output.old)
        (W.contents output.new) result }
    ensures quiet { result ≡ 0 → errors.new ≡ errors.old }
{
    tell_bytes(taken_text(alloc, server, host, taken), output, errors)
}
