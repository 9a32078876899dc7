//! What of a limit each of several servers gets: a share by its default.
ghost use Rattle.std.specs.Prelude.{◌≡◌, IfOk};
ghost use Rattle.mq_request.specs.Range.{IsAmount, IsDay};
ghost use Rattle.mq_command.specs.Shares.{AsksDefault, share_of};

use crate::ask::NoAnswer;
use crate::usage::ask_used;
use mq_link::Link;
use mq_request::Login;
use mq_request::bounds::AMOUNT_LIMIT;
use std::alloc::Global;

/// A server's share of a number that is the first server's: by its default beside the first's,
/// rounded up, and 1,000,000 at most. Where the first's default is 0 it is the number itself.
///
/// All three are 0 to 1,000,000.
pub fn share_of(number: u32, default: u32, first: u32) -> u32
    requires number { IsAmount number }
    requires default { IsAmount default }
    requires first { IsAmount first }
    ensures share { result ≡ share_of number default first }
    ensures in_range { IsAmount result }
{
    if first == 0 {
        return number;
    }
    let product = u64::from(number) * u64::from(default);
    let share = (product + (u64::from(first) - 1)) / u64::from(first);
    share.min(u64::from(AMOUNT_LIMIT)) as u32
}

/// Asks a server for its default limit, as of a day: that of the login of one byte 0, which smtpd
/// reports of nobody. A limit of its own it has only where somebody sets one for this very byte.
///
/// `day` is a day number, 0 to 376,200.
pub fn ask_default<L: Link>(alloc: Global, link: &mut L, day: u32) -> Result<u32, NoAnswer>
    requires { IsDay day }
    ensures default { AsksDefault day (L.told link.old) (L.told link.new) result }
    ensures in_range { IfOk result IsAmount }
{
    let login = match Login::from_slice(alloc, &[0]) {
        Ok(login) => login,
        Err(_) => return Err(NoAnswer::Memory),
    };
    match ask_used(alloc, link, &login, day) {
        Ok(usage) => Ok(usage.cap),
        Err(fault) => Err(fault),
    }
}
