//! What a ledger is asked for the log.
ghost use Rattle.std.specs.Prelude.{◌≡◌, [], ◌∷◌, Err, None, Some, IfOk, IfErr, IfNone, IfSome};
ghost use Rattle.std.specs.Prelude.{OnErr};
ghost use Rattle.mq_request.specs.Range.{IsAmount, IsDay, IsLogin, IsReply};
ghost use Rattle.mq_ledger.specs.Day.{day_of};
ghost use Rattle.mq_ledger.specs.History.{used};
ghost use Rattle.mq_ledger.specs.Limits.{cap};
ghost use Rattle.mq_lemmas.specs.Told.{Tells};
ghost use Rattle.mq_watch.specs.Asked.{IsAnswered, IsAsked, LacksMemory, question, usage_in};

use crate::nearing::Usage;
use mq_ledger::laws::one_more_arrival;
use mq_ledger::{Ledger, LedgerFault};
use mq_request::{Login, Reply, Request};

/// Asks a ledger what a login has used on a day, and its limit. There is no answer where memory
/// runs out; the fault is that of a store that failed. The login has 1 to 255 bytes, and `day` is a
/// day number, 0 to 376,200.
pub fn ask_usage<L: Ledger>(
    ledger: &mut L,
    login: &Login,
    day: u32,
) -> Result<Option<Usage>, LedgerFault>
    requires login { IsLogin login.now }
    requires day { IsDay day }
    ensures asked { IsAsked L.told L.book L.has_kept L.is_sound L.has_store ledger.old ledger.new }
    ensures usage { L.has_kept ledger.new → L.is_sound ledger.old → (let b = L.book ledger.old in
        IfOk result (λ found. IfSome found (λ usage.
        (usage.used ≡ used (day_of b.zone) b.history login.now day)
        × (usage.cap ≡ cap b.default b.history login.now day)))) }
    ensures in_range { IfOk result (λ found. IfSome found (λ usage. IsAmount usage.cap)) }
    ensures fault { IfErr result (λ fault. fault ≡ LedgerFault.Store) }
    ensures store { OnErr result (L.has_store ledger.old) }
    ensures failed { OnErr result
        (Tells (L.told ledger.old) (L.told ledger.new) (question login.now day
        (Err LedgerFault.Store) ∷ [])) }
    ensures none { L.has_kept ledger.new → L.is_sound ledger.old
        → IfOk result (λ found. IfNone found
        (LacksMemory login.now day (L.told ledger.old) (L.told ledger.new))) }
    ensures answered { IsAnswered login.now day (L.told ledger.old) (L.told ledger.new) result }
{
    one_more_arrival();
    let Ok(login) = login.clone() else {
        return Ok(None);
    };
    usage_in(&ledger.apply(&usage_request(login, day)))
}

/// The question what a login has used on a day.
fn usage_request(login: Login, day: u32) -> Request
    ensures { result ≡ Request.Usage login day }
{
    Request::Usage { login, day }
}

/// What an answer to the question says: nothing where memory ran out.
fn usage_in(answer: &Result<Reply, LedgerFault>) -> Result<Option<Usage>, LedgerFault>
    requires { IfOk answer.now IsReply }
    ensures { result ≡ usage_in answer.now }
{
    match answer {
        Ok(
            Reply::Usage {
                settled,
                reserved,
                cap,
                ..
            },
        ) => Ok(Some(Usage {
            used: *settled + *reserved,
            cap: *cap,
        })),
        Ok(_) | Err(LedgerFault::Memory) => Ok(None),
        Err(LedgerFault::Store) => Err(LedgerFault::Store),
    }
}

/// The limit beside what a login has used, where that is known.
pub(crate) fn cap_of(usage: Option<Usage>) -> Option<u32>
    ensures some { IfSome usage (λ usage. result ≡ Some usage.cap) }
    ensures none { IfNone usage (result ≡ None) }
{
    usage.map(|usage| usage.cap)
}
