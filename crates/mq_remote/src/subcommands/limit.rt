//! `limit`: sets the limit of a login.
ghost use Rattle.std.specs.Prelude.{◌≡◌, Err, IfOk, map};
ghost use Rattle.mq_request.specs.Range.{IsAmount, IsDay};
ghost use Rattle.mq_command.specs.Allowing.{IsSetter, limit_of};
ghost use Rattle.mq_process.specs.Arguments.{IsLimitArgument, IsLimitArguments};
ghost use Rattle.mq_process.specs.Refusals.{HasNoAddress, OrderRefuses};
ghost use Rattle.mq_remote.specs.Asked.{AsksAt, AsksEachOf, AsksLimit, LimitsBy, SendsLimit};
ghost use Rattle.mq_remote.specs.Asked.{order_of};

use crate::subcommands::shares::{
    ShareOrder, ShareRule, ShareTask, are_several, check_few, limit_request, share_among,
    share_number,
};
use crate::subcommands::stop::setter_of;
use log::{LevelFilter, Logged};
use mq_command::{ServerErrors, Setter, run_fresh, run_limit};
use mq_process::{
    Console, Dial, LimitArgument, LimitArguments, ProcessFault, WallClock, ask_each, checked,
    day_named, found_servers, link_to, refuse, run_number, servers_or, tell_note,
};
use mq_request::bounds::LAST_DAY;
use std::io;
use std::io::Write;
use std::net::SocketAddr;
use std::rt::{Clock, Files};

/// A limit of a login, and under which run it is asked for.
#[derive(Clone, Copy)]
struct LimitTask<'a> {
    setter: &'a Setter,
    /// The day from which on it governs.
    day: u32,
    /// Whether only a number that the words give is used, also where that is used already.
    is_given: bool,
}

/// Under which numbers shares are sent.
fn order_of(is_given: bool) -> ShareOrder
    ensures { result ≡ order_of is_given }
{
    if is_given {
        ShareOrder::Numbered
    } else {
        ShareOrder::Fresh
    }
}

/// `limit`: sets the limit of a login from a day on, at each server under the same number: a number
/// of the words, which of several servers of settings is the first one's, or each server's default.
pub fn limit<R: Files + Clock + WallClock + Print + Eprint + AllocGlobal, D: Dial, E: Write>(
    rt: &R,
    dial: &D,
    given: LimitArguments<'_>,
    errors: &mut E,
) -> Result<u8, ProcessFault>
    requires { IsLimitArguments given }
    ensures refuses { OrderRefuses given.entry.host.now given.entry.login given.entry.servers
        (λ fault. result ≡ Err fault) }
    ensures asks { IfOk result (AsksLimit D.leads D.Link.told R.File.remaining (R.shows rt.now)
        given.entry) }
{
    let words = given.servers.as_slice();
    checked(rt, given.host, given.login, words)?;
    let found = found_servers(rt, words, given.config)?;
    let chosen = servers_or(rt.alloc(), words, found.as_slice())?;
    let servers = chosen.as_slice();
    let day = day_named(rt, given.from, given.config, LAST_DAY)?;
    let run = run_number(rt, given.run)?;
    let setter = setter_of(rt.alloc(), given.host, run, given.login)?;
    tell_note(rt.alloc(), &setter.login, errors)?;
    let task = LimitTask {
        setter: &setter,
        day,
        is_given: given.run.is_some(),
    };
    limit_by(rt, dial, words, servers, task, given.cap, errors)
}

/// Sets a login's limit at these servers.
fn limit_by<R: Print + Eprint + AllocGlobal, D: Dial, E: Write>(
    rt: &R,
    dial: &D,
    words: &[&str],
    servers: &[&str],
    task: LimitTask<'_>,
    cap: LimitArgument,
    errors: &mut E,
) -> Result<u8, ProcessFault>
    requires servers { ¬ HasNoAddress (map (λ s. s.now) servers.now) }
    requires setter { IsSetter task.setter.now }
    requires day { IsDay task.day }
    requires cap { IsLimitArgument cap }
    ensures { IfOk result (LimitsBy D.leads D.Link.told task.entry.is_given
        task.entry.setter.now task.entry.day cap (map (λ s. s.now) words.now)
        (map (λ s. s.now) servers.now)) }
{
    match cap {
        LimitArgument::Default => {
            check_few(servers)?;
            let shared = shared_of(task);
            Ok(share_among(rt, dial, servers, shared, ShareRule::Default, errors))
        }
        LimitArgument::Recipients(number) => {
            if are_several(words, servers) {
                check_few(servers)?;
                return Ok(share_number(rt, dial, servers, shared_of(task), number, errors));
            }
            Ok(limit_each(rt, dial, servers, task, number, errors))
        }
    }
}

/// The same task as one of shares.
fn shared_of(task: LimitTask<'_>) -> ShareTask<'_>
    ensures setter { result.setter.now ≡ task.entry.setter.now }
    ensures day { result.day ≡ task.entry.day }
    ensures order { result.order ≡ order_of task.entry.is_given }
{
    ShareTask {
        setter: task.setter,
        day: task.day,
        order: order_of(task.is_given),
    }
}

/// Sets a login's limit to this number at each of these servers.
fn limit_each<R: Print + Eprint + AllocGlobal, D: Dial, E: Write>(
    rt: &R,
    dial: &D,
    servers: &[&str],
    task: LimitTask<'_>,
    number: u32,
    errors: &mut E,
) -> u8
    requires servers { ¬ HasNoAddress (map (λ s. s.now) servers.now) }
    requires setter { IsSetter task.setter.now }
    requires day { IsDay task.day }
    requires number { IsAmount number }
    ensures { AsksEachOf D.leads D.Link.told (SendsLimit task.entry.is_given
        (limit_of task.entry.setter.now 1 task.entry.day number))
        (map (λ s. s.now) servers.now) result }
{
    ask_each(
        rt,
        servers,
        errors,
        |address, errors| send_limit(rt, dial, address, task, number, errors),
    )
}

/// Asks the server at this address to set a limit, under the first number of its run, and prints
/// what comes of it. Only a number that the words give is kept where it is used already. Where
/// memory runs out it isn't asked.
fn send_limit<R: Print + Eprint + AllocGlobal, D: Dial, E: Write>(
    rt: &R,
    dial: &D,
    address: SocketAddr,
    task: LimitTask<'_>,
    number: u32,
    errors: &mut E,
) -> u8
    requires setter { IsSetter task.setter.now }
    requires day { IsDay task.day }
    requires number { IsAmount number }
    ensures { AsksAt D.leads D.Link.told (SendsLimit task.entry.is_given
        (limit_of task.entry.setter.now 1 task.entry.day number)) address result }
{
    let Ok(request) = limit_request(rt.alloc(), task.setter, task.day, number) else {
        return refuse(&ProcessFault::Memory, 1, errors);
    };
    let logged = Logged::new(rt, LevelFilter::Error, Console(rt));
    let mut link = link_to(dial, address, &logged);
    let mut output = io::writer(rt);
    let mut told = ServerErrors::new(errors, address);
    if task.is_given {
        run_limit(rt.alloc(), &mut link, &request, &mut output, &mut told)
    } else {
        run_fresh(rt.alloc(), &mut link, request, &mut output, &mut told)
    }
}
