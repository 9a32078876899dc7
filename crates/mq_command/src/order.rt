//! `limit` and `retire`: what an administrator orders, a limit of a login or that a host's runs are
//! given up.
ghost use Rattle.std.specs.Prelude.{◌≡◌, ◌<◌, ◌+◌, true, false, Result as AnyResult};
ghost use Rattle.mq_request.specs.declared.bounds.TheConstants.{LAST_RUN};
ghost use Rattle.mq_command.specs.Orders.{AnswersOrder, IsLimit, IsOrder, IsRetire, Orders};
ghost use Rattle.mq_command.specs.Orders.{OrdersFresh, Prints, Says, conflict};
ghost use Rattle.mq_command.specs.Orders.{is_taken, later, run_of, word};
ghost use Rattle.mq_command.specs.declared.order.OrderFault.{OrderFault as AnyOrderFault};

use crate::ask::{NoAnswer, ask};
use crate::errors::Errors;
use crate::telling::tell;
use mq_link::Link;
use mq_request::bounds::LAST_RUN;
use mq_request::{Reply, Request};
use std::alloc::Global;
use std::io::Write;
use thiserror::Error;

/// How many numbers a limit is sent under, where those of its runs may be used already.
pub const NUMBERS: u32 = 16;

/// Why an order isn't known to be carried out.
#[derive(Clone, Copy, Debug, PartialEq, Error)]
pub enum OrderFault {
    /// More is used on this day than the limit would allow.
    #[error("over day {0} used {1}")]
    Over(u32, u32),
    /// The number of a limit was used with another request.
    #[error("number used with another limit")]
    OtherLimit,
    /// The number of a retire was used with another request.
    #[error("number used with another request")]
    OtherRequest,
    /// The run of the number was given up.
    #[error("run is retired")]
    Retired,
    #[error("{0}")]
    Unanswered(NoAnswer),
}

impl OrderFault {
    /// Whether the server took none of the tries of a request.
    pub(crate) fn is_not_taken(&self) -> bool {
        matches!(self, OrderFault::Unanswered(NoAnswer::NotTaken))
    }
}

/// What is printed of an order that is carried out.
fn word(request: &Request) -> &'static str
    ensures { result.now ≡ word request.now }
{
    match request {
        Request::Retire { .. } => "retired\n",
        _ => "set\n",
    }
}

/// The fault where the number of an order was used with another request.
fn conflict(request: &Request) -> OrderFault
    ensures { result ≡ conflict request.now }
{
    match request {
        Request::Retire { .. } => OrderFault::OtherRequest,
        _ => OrderFault::OtherLimit,
    }
}

/// What a reply says of an order: that it is carried out, or why it isn't.
fn verdict(request: &Request, reply: &Reply) -> Result<(), OrderFault>
    requires { AnswersOrder request.now reply.now }
    ensures { Says request.now reply.now result }
{
    match reply {
        Reply::LimitSet { .. } | Reply::Retired { .. } => Ok(()),
        Reply::Over { day, used, .. } => Err(OrderFault::Over(*day, *used)),
        Reply::Conflict { .. } => Err(conflict(request)),
        Reply::Old { .. } => Err(OrderFault::Retired),
        _ => unreachable!(),
    }
}

/// Sends an order up to three times. `Ok` says that the server carried it out.
pub fn order<L: Link>(alloc: Global, link: &mut L, request: &Request) -> Result<(), OrderFault>
    requires { IsOrder request.now }
    ensures { Orders request.now (L.told link.old) (L.told link.new) result }
{
    match ask(alloc, link, request) {
        Ok(reply) => verdict(request, &reply),
        Err(fault) => Err(OrderFault::Unanswered(fault)),
    }
}

/// Whether the number of a limit was used with another request.
fn is_taken(sent: Result<(), OrderFault>) -> bool
    ensures { result ≡ is_taken sent }
{
    matches!(sent, Err(OrderFault::OtherLimit))
}

/// Puts a limit under the number of the run that many later, where there is one.
fn renumber(request: &mut Request, runs: u64) -> bool
    requires { IsLimit request.old }
    ensures next { result ≡ true → IsLimit request.new × (request.new ≡ later runs request.old) }
    ensures last { result ≡ false → LAST_RUN < run_of request.old + runs }
{
    let Request::Limit { id, .. } = request else {
        unreachable!();
    };
    if LAST_RUN - id.run < runs {
        return false;
    }
    id.run += runs;
    true
}

/// Sends a limit under its number and, where that is used with another request, under those of the
/// runs 1, 3, 7 and so on after it, up to `NUMBERS` in all. So a number is found soon that isn't
/// used, however many limits a millisecond others send. A retire is never sent so: under a later
/// run it would give up other runs.
pub fn order_fresh<L: Link>(
    alloc: Global,
    link: &mut L,
    request: &mut Request,
) -> Result<(), OrderFault>
    requires { IsLimit request.old }
    ensures { OrdersFresh request.old (L.told link.old) (L.told link.new) result }
{
    let mut ahead = 0;
    for _taken in 0..NUMBERS - 1 {
        let sent = order(alloc, link, request);
        if !is_taken(sent) || !renumber(request, ahead + 1) {
            return sent;
        }
        ahead = ahead * 2 + 1;
    }
    order(alloc, link, request)
}

/// Sends an order up to three times, and prints what came of it. The result is the exit status, 0
/// or 1. Others call it by `run_limit` or `run_retire`, so that none sends a retire, which nothing
/// undoes, where it means a limit.
fn run_order<L: Link, W: Write, E: Errors>(
    alloc: Global,
    link: &mut L,
    request: &Request,
    output: &mut W,
    errors: &mut E,
) -> u8
    requires { IsOrder request.now }
    ensures orders { (sent : AnyResult (Unit {0}) AnyOrderFault)
        × Orders request.now (L.told link.old) (L.told link.new) sent
        × Prints (λ _. word request.now) (W.contents output.old)
        (W.contents output.new) sent result }
    ensures quiet { result ≡ 0 → errors.new ≡ errors.old }
{
    let sent = order(alloc, link, request);
    tell(sent, word(request), output, errors)
}

/// Sends a limit up to three times and prints `set` on `output` where it is set, or says on
/// `errors` why it isn't. The result is the exit status, 0 or 1.
///
/// The request is a limit whose fields are in range.
pub fn run_limit<L: Link, W: Write, E: Errors>(
    alloc: Global,
    link: &mut L,
    request: &Request,
    output: &mut W,
    errors: &mut E,
) -> u8
    requires { IsLimit request.now }
    ensures limits { (sent : AnyResult (Unit {0}) AnyOrderFault)
        × Orders request.now (L.told link.old) (L.told link.new) sent
        × Prints (λ _. word request.now) (W.contents output.old)
        (W.contents output.new) sent result }
    ensures quiet { result ≡ 0 → errors.new ≡ errors.old }
{
    run_order(alloc, link, request, output, errors)
}

/// Sends a retire up to three times and prints `retired` on `output` where the runs of its host
/// below its own are given up, or says on `errors` why they aren't. The result is the exit status,
/// 0 or 1.
///
/// The request is a retire whose fields are in range.
pub fn run_retire<L: Link, W: Write, E: Errors>(
    alloc: Global,
    link: &mut L,
    request: &Request,
    output: &mut W,
    errors: &mut E,
) -> u8
    requires { IsRetire request.now }
    ensures retires { (sent : AnyResult (Unit {0}) AnyOrderFault)
        × Orders request.now (L.told link.old) (L.told link.new) sent
        × Prints (λ _. word request.now) (W.contents output.old)
        (W.contents output.new) sent result }
    ensures quiet { result ≡ 0 → errors.new ≡ errors.old }
{
    run_order(alloc, link, request, output, errors)
}

/// Sends a limit up to three times under its number and, where that is used with another request,
/// under those of the runs 1, 3, 7 and so on after it, up to `NUMBERS` in all. It prints `set` on
/// `output` where it is set, or says on `errors` why it isn't. The result is the exit status, 0 or
/// 1.
///
/// The request is a limit whose fields are in range.
pub fn run_fresh<L: Link, W: Write, E: Errors>(
    alloc: Global,
    link: &mut L,
    mut request: Request,
    output: &mut W,
    errors: &mut E,
) -> u8
    requires { IsLimit request }
    ensures limits { (sent : AnyResult (Unit {0}) AnyOrderFault)
        × OrdersFresh request (L.told link.old) (L.told link.new) sent
        × Prints (λ _. word request) (W.contents output.old) (W.contents output.new) sent result }
    ensures quiet { result ≡ 0 → errors.new ≡ errors.old }
{
    let word = word(&request);
    let sent = order_fresh(alloc, link, &mut request);
    tell(sent, word, output, errors)
}
