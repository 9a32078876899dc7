//! `limit` at one of several servers: what is printed of each, and of all together.
ghost use Rattle.std.specs.Prelude.{◌≡◌, ℕ, IfOk, Result as AnyResult, string_bytes};
ghost use Rattle.mq_command.specs.Orders.{IsLimit, Orders, OrdersFresh, Prints, PrintsLine};
ghost use Rattle.mq_command.specs.Shares.{after_text, cap_of, failed_end, printed_end, set_end};
ghost use Rattle.mq_command.specs.Shares.{set_line, sum_line};
ghost use Rattle.mq_command.specs.declared.order.OrderFault.{OrderFault as AnyOrderFault};
ghost use Rattle.mq_command.specs.declared.outcome.SetEnd.TheVariants.{Set};

use crate::errors::Errors;
use crate::order::{OrderFault, order, order_fresh};
use crate::telling::{say_of_server, tell_line};
use mq_link::Link;
use mq_request::Request;
use std::alloc::{AllocError, Global};
use std::io::Write;

/// How sending a limit ends at one of several servers.
#[derive(Clone, Copy, Debug, PartialEq, Eq)]
pub enum SetEnd {
    /// It is set, and that is printed.
    Set,
    /// The server answers why it doesn't set it.
    Refused,
    /// The server gave no answer, so that it may be set or not, or what came of it isn't printed.
    Unknown,
}

/// The number of a limit.
fn cap_of(request: &Request) -> u32
    ensures { result ≡ cap_of request.now }
{
    match request {
        Request::Limit { cap, .. } => *cap,
        _ => 0,
    }
}

/// The line of a limit that is set at a server.
fn set_text(alloc: Global, cap: u32, server: &str) -> Result<String, AllocError>
    ensures { IfOk result (λ line. string_bytes line ≡ set_line cap server.now) }
{
    let mut line = String::from_str(alloc, "set ")?;
    line.push_str(cap.to_string(alloc)?.as_str())?;
    line.push_str(" at ")?;
    line.push_str(server)?;
    line.push('\n')?;
    Ok(line)
}

/// After which day it holds what is printed of limits, if not of each day.
fn after_text(alloc: Global, after: Option<u32>) -> Result<String, AllocError>
    ensures { IfOk result (λ text. string_bytes text ≡ after_text after) }
{
    let mut text = String::new(alloc);
    if let Some(day) = after {
        text.push_str(" after day ")?;
        text.push_str(day.to_string(alloc)?.as_str())?;
    }
    Ok(text)
}

/// The line of the limits of several servers together.
fn sum_text(alloc: Global, sum: u64, after: Option<u32>) -> Result<String, AllocError>
    ensures { IfOk result (λ line. string_bytes line ≡ sum_line sum after) }
{
    let mut line = String::from_str(alloc, "in all at most ")?;
    line.push_str(sum.to_string(alloc)?.as_str())?;
    line.push_str(" a day")?;
    line.push_str(after_text(alloc, after)?.as_str())?;
    line.push('\n')?;
    Ok(line)
}

/// How it ends where a limit is set, and printing that came to this status.
fn printed_end(status: u8) -> SetEnd
    ensures { result ≡ printed_end status }
{
    if status == 0 {
        SetEnd::Set
    } else {
        SetEnd::Unknown
    }
}

/// How it ends where a limit isn't known to be set.
fn failed_end(fault: OrderFault) -> SetEnd
    ensures { result ≡ failed_end fault }
{
    match fault {
        OrderFault::Unanswered(_) => SetEnd::Unknown,
        _ => SetEnd::Refused,
    }
}

/// Prints where a limit was set, or says on `errors` why it wasn't, and gives how that ends.
fn tell_set<W: Write, E: Errors>(
    alloc: Global,
    sent: Result<(), OrderFault>,
    cap: u32,
    server: &str,
    output: &mut W,
    errors: &mut E,
) -> SetEnd
    ensures prints { (status : ℕ) × (result ≡ set_end sent status)
        × Prints (λ _. set_line cap server.now) (W.contents output.old)
        (W.contents output.new) sent status }
    ensures quiet { result ≡ Set → errors.new ≡ errors.old }
{
    match sent {
        Ok(()) => {
            let line = set_text(alloc, cap, server);
            printed_end(tell_line(line, output, errors))
        }
        Err(fault) => {
            say_of_server(errors, &fault, fault.is_not_taken());
            failed_end(fault)
        }
    }
}

/// Does as `run_limit`, at one of several servers: `set`, the number and the server are printed
/// where it is set. `server` is how it is named there. The result is how it ends.
pub fn run_limit_at<L: Link, W: Write, E: Errors>(
    alloc: Global,
    link: &mut L,
    request: &Request,
    server: &str,
    output: &mut W,
    errors: &mut E,
) -> SetEnd
    requires { IsLimit request.now }
    ensures limits { (sent : AnyResult (Unit {0}) AnyOrderFault) × (status : ℕ)
        × (result ≡ set_end sent status)
        × Orders request.now (L.told link.old) (L.told link.new) sent
        × Prints (λ _. set_line (cap_of request.now) server.now) (W.contents output.old)
        (W.contents output.new) sent status }
    ensures quiet { result ≡ Set → errors.new ≡ errors.old }
{
    let sent = order(alloc, link, request);
    tell_set(alloc, sent, cap_of(request), server, output, errors)
}

/// Does as `run_fresh`, at one of several servers: `set`, the number and the server are printed
/// where it is set. `server` is how it is named there. The result is how it ends.
pub fn run_fresh_at<L: Link, W: Write, E: Errors>(
    alloc: Global,
    link: &mut L,
    mut request: Request,
    server: &str,
    output: &mut W,
    errors: &mut E,
) -> SetEnd
    requires { IsLimit request }
    ensures limits { (sent : AnyResult (Unit {0}) AnyOrderFault) × (status : ℕ)
        × (result ≡ set_end sent status)
        × OrdersFresh request (L.told link.old) (L.told link.new) sent
        × Prints (λ _. set_line (cap_of request) server.now) (W.contents output.old)
        (W.contents output.new) sent status }
    ensures quiet { result ≡ Set → errors.new ≡ errors.old }
{
    let cap = cap_of(&request);
    let sent = order_fresh(alloc, link, &mut request);
    tell_set(alloc, sent, cap, server, output, errors)
}

/// Prints the sum of the limits that a login has at several servers, which bounds it on each day,
/// or on those after this one, or says on `errors` why it can't be printed. The result is the exit
/// status, 0 or 1.
pub fn print_sum<W: Write, E: Write>(
    alloc: Global,
    sum: u64,
    after: Option<u32>,
    output: &mut W,
    errors: &mut E,
) -> u8
    ensures prints { PrintsLine (sum_line sum after) (W.contents output.old)
        (W.contents output.new) result }
    ensures quiet { result ≡ 0 → errors.new ≡ errors.old }
{
    tell_line(sum_text(alloc, sum, after), output, errors)
}
