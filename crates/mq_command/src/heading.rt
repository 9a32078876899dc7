//! What is printed of each server where a command asks more than one.
ghost use Rattle.std.specs.Prelude.{◌≡◌, IfOk, string_bytes};
ghost use Rattle.mq_command.specs.Orders.{PrintsLine};
ghost use Rattle.mq_command.specs.Printed.{heading_line};

use crate::telling::tell_line;
use std::alloc::{AllocError, Global};
use std::io::Write;

/// The line above what is printed of a server.
fn heading_text(alloc: Global, server: &str) -> Result<String, AllocError>
    ensures { IfOk result (λ line. string_bytes line ≡ heading_line server.now) }
{
    let mut line = String::from_str(alloc, "server ")?;
    line.push_str(server)?;
    line.push_str(":\n")?;
    Ok(line)
}

/// Prints on `output` the line above what is printed of a server, or says on `errors` why it can't
/// be printed. `server` is its address. The result is the exit status, 0 or 1.
pub fn print_heading<W: Write, E: Write>(
    alloc: Global,
    server: &str,
    output: &mut W,
    errors: &mut E,
) -> u8
    ensures prints { PrintsLine (heading_line server.now) (W.contents output.old)
        (W.contents output.new) result }
    ensures quiet { result ≡ 0 → errors.new ≡ errors.old }
{
    tell_line(heading_text(alloc, server), output, errors)
}

/// Says on `errors` that the server at this address didn't do what was asked, or that what came
/// wasn't all printed; why was said before. It says nothing where the status is 0. The result is
/// the status.
pub fn say_undone<E: Write>(server: &str, status: u8, errors: &mut E) -> u8
    ensures same { result ≡ status }
    ensures quiet { status ≡ 0 → errors.new ≡ errors.old }
{
    if status != 0 {
        let _ = writeln!(errors, "mailquota: not done by server {server}");
    }
    status
}
