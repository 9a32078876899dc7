//! What is printed of something that is done, and what is said where it isn't.
ghost use Rattle.std.specs.Prelude.{◌≡◌, MatchResult, string_bytes};
ghost use Rattle.std.specs.Io.KnownBytes.{Keeps};
ghost use Rattle.mq_command.specs.Orders.{Prints, PrintsLine};

use crate::errors::Errors;
use crate::order::OrderFault;
use crate::output::{OutputFault, write_whole};
use std::alloc::AllocError;
use std::fmt;
use std::io::Write;

/// Says on `errors` why something isn't done. The result is the exit status.
pub fn say<E: Write, F: fmt::Display>(errors: &mut E, fault: &F) -> u8
    ensures { result ≡ 1 }
{
    let _ = writeln!(errors, "mailquota: {fault}");
    1
}

/// Says on `errors` why something isn't done; where the server took none of the tries of a request,
/// which one that is. The result is the exit status.
pub fn say_of_server<E: Errors, F: fmt::Display>(
    errors: &mut E,
    fault: &F,
    is_not_taken: bool,
) -> u8
    ensures { result ≡ 1 }
{
    match errors.server() {
        Some(server) if is_not_taken => say_not_taken(errors, &server),
        _ => say(errors, fault),
    }
}

/// Says on `errors` that this server took none of the tries of a request. The result is the exit
/// status.
pub fn say_not_taken<E: Write, S: fmt::Display>(errors: &mut E, server: &S) -> u8
    ensures { result ≡ 1 }
{
    let _ = writeln!(
        errors,
        "mailquota: {server} didn't take this: its log says why"
    );
    1
}

/// Prints bytes, or says on `errors` why they can't be printed. The result is the exit status, 0 or
/// 1.
pub fn tell_bytes<W: Write, E: Write>(
    bytes: Result<Vec<u8>, AllocError>,
    output: &mut W,
    errors: &mut E,
) -> u8
    ensures prints { MatchResult bytes (λ bytes. PrintsLine bytes.items (W.contents output.old)
        (W.contents output.new) result) (λ _. (result ≡ 1)
        × Keeps (W.contents output.old) (W.contents output.new)) }
    ensures quiet { result ≡ 0 → errors.new ≡ errors.old }
{
    match bytes {
        Ok(bytes) => tell_slice(bytes.as_slice(), output, errors),
        Err(_) => say(errors, &OutputFault::Memory),
    }
}

/// Prints these bytes, or says on `errors` that they can't be printed. The result is the exit
/// status, 0 or 1.
fn tell_slice<W: Write, E: Write>(bytes: &[u8], output: &mut W, errors: &mut E) -> u8
    ensures prints { PrintsLine bytes.now (W.contents output.old) (W.contents output.new) result }
    ensures quiet { result ≡ 0 → errors.new ≡ errors.old }
{
    if write_whole(output, bytes).is_err() || output.flush().is_err() {
        return say(errors, &OutputFault::Write);
    }
    0
}

/// Prints a text, or says on `errors` that it can't be printed. The result is the exit status, 0 or
/// 1.
pub fn tell_text<W: Write, E: Write>(text: &str, output: &mut W, errors: &mut E) -> u8
    ensures prints { PrintsLine text.now (W.contents output.old) (W.contents output.new) result }
    ensures quiet { result ≡ 0 → errors.new ≡ errors.old }
{
    tell_slice(text.as_bytes(), output, errors)
}

/// Prints the word of an order that was carried out, or says on `errors` why it wasn't. The result
/// is the exit status, 0 or 1.
pub fn tell<W: Write, E: Errors>(
    sent: Result<(), OrderFault>,
    word: &str,
    output: &mut W,
    errors: &mut E,
) -> u8
    ensures prints { Prints (λ _. word.now) (W.contents output.old)
        (W.contents output.new) sent result }
    ensures quiet { result ≡ 0 → errors.new ≡ errors.old }
{
    match sent {
        Ok(()) => tell_text(word, output, errors),
        Err(fault) => say_of_server(errors, &fault, fault.is_not_taken()),
    }
}

/// Prints a line, or says on `errors` why it can't be printed. The result is the exit status.
pub fn tell_line<W: Write, E: Write>(
    line: Result<String, AllocError>,
    output: &mut W,
    errors: &mut E,
) -> u8
    ensures prints { MatchResult line (λ line. PrintsLine (string_bytes line)
        (W.contents output.old)
        (W.contents output.new) result) (λ _. (result ≡ 1)
        × Keeps (W.contents output.old) (W.contents output.new)) }
    ensures quiet { result ≡ 0 → errors.new ≡ errors.old }
{
    match line {
        Ok(line) => tell_text(line.as_str(), output, errors),
        Err(_) => say(errors, &OutputFault::Memory),
    }
}
