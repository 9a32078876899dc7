//! What a login used on a day, and its limit.
ghost use Rattle.std.specs.Prelude.{IfOk};
ghost use Rattle.mq_request.specs.Range.{IsAmount, IsDay, IsLogin, IsReply};
ghost use Rattle.mq_command.specs.Usage.{AsksUsed, IsUsed};
ghost use Rattle.mq_command.specs.Report.{AnswersUsage};

use crate::ask::{NoAnswer, ask};
use mq_link::Link;
use mq_request::{Login, Reply, Request};
use std::alloc::Global;

/// What a login used on a day, settled and reserved, and its limit.
#[derive(Clone, Copy, Debug)]
pub struct DayUsage {
    /// Recipients, settled and reserved.
    pub used: u32,
    /// Recipients a day.
    pub cap: u32,
}

/// What a reply says that a login used on a day.
fn usage_of(reply: &Reply) -> DayUsage
    requires answers { AnswersUsage reply.now }
    requires in_range { IsReply reply.now }
    ensures used { IsUsed reply.now result }
    ensures in_range { IsAmount result.cap }
{
    match reply {
        Reply::Usage {
            settled,
            reserved,
            cap,
            ..
        } => DayUsage {
            used: *settled + *reserved,
            cap: *cap,
        },
        _ => unreachable!(),
    }
}

/// Asks what a login used on a day.
pub fn ask_used<L: Link>(
    alloc: Global,
    link: &mut L,
    login: &Login,
    day: u32,
) -> Result<DayUsage, NoAnswer>
    requires login { IsLogin login.now }
    requires day { IsDay day }
    ensures asked { AsksUsed login.now day (L.told link.old) (L.told link.new) result }
    ensures in_range { IfOk result (λ usage. IsAmount usage.cap) }
{
    let login = match login.clone() {
        Ok(login) => login,
        Err(_) => return Err(NoAnswer::Memory),
    };
    match ask(alloc, link, &Request::Usage { login, day }) {
        Ok(reply) => Ok(usage_of(&reply)),
        Err(fault) => Err(fault),
    }
}
