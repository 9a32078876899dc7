//! Putting a request to a ledger.
ghost use Rattle.std.specs.Prelude.{◌≡◌, ◌⊎◌, ℕ, List, Err, IfOk, IfErr, IfSome, IsSome};
ghost use Rattle.std.specs.Prelude.{MatchOption, MatchResult};
ghost use Rattle.mq_request.specs.Range.{IsRequest, IsReply};
ghost use Rattle.mq_frame.specs.Spelling.{SpellsRequest};
ghost use Rattle.mq_ledger.specs.Leaving.{LeavesLedger};
ghost use Rattle.mq_server.specs.Steps.{AnswersBody};
ghost use Rattle.mq_server.specs.Text.{NeedsMemory, SpellsNone, SpellsOne};

use crate::fault::ServeFault;
use mq_frame::{DecodeFault, decode_request};
use mq_ledger::{Ledger, LedgerFault};
use mq_request::{Reply, Request};
use std::alloc::Global;

/// The answer to a frame's body: the ledger's reply to the request that it spells, `Retry` where
/// the ledger had no memory for it, and none where it spells no request.
///
/// `Memory` where there was none for what the request holds, before it came to the ledger; `Store`
/// where the ledger's store failed. After either the ledger means what it meant before.
pub fn answer_body<L: Ledger>(
    alloc: Global,
    body: &[u8],
    ledger: &mut L,
) -> Result<Option<Reply>, ServeFault>
    // Of any ledger, sound or not.
    ensures in_range { IfOk result (λ answer. IfSome answer IsReply) }
    ensures faults { IfErr result (λ fault. (fault ≡ ServeFault.Memory)
        ⊎ (fault ≡ ServeFault.Store)) }
    ensures asks { MatchResult result (λ answer. MatchOption answer (SpellsNone body.now)
        (λ _. SpellsOne body.now))
        (λ _. SpellsOne body.now) }
    // Memory is asked for only where the request holds bytes of its own.
    ensures full { result ≡ Err ServeFault.Memory → NeedsMemory body.now }
    ensures leaves { LeavesLedger L.book L.has_kept L.is_sound L.has_store ledger.old ledger.new }
    ensures store { result ≡ Err ServeFault.Store → L.has_store ledger.old }

    // Of a sound one that has kept its premise.
    ensures answers { L.has_kept ledger.new → L.is_sound ledger.old →
        AnswersBody (L.book ledger.old) (L.told ledger.old) body.now result
        (L.book ledger.new).history (L.told ledger.new) }
{
    match decode_request(alloc, body) {
        Ok(request) => apply(&request, ledger),
        Err(DecodeFault::Bad) => Ok(None),
        Err(DecodeFault::Memory) => Err(ServeFault::Memory),
    }
}

/// The ledger's reply to the request, or `Retry` where it had no memory for it.
fn apply<L: Ledger>(request: &Request, ledger: &mut L) -> Result<Option<Reply>, ServeFault>
    requires { IsRequest request.now }
    ensures some { IfOk result IsSome }
    ensures in_range { IfOk result (λ answer. IfSome answer IsReply) }
    ensures faults { IfErr result (λ fault. fault ≡ ServeFault.Store) }
    ensures leaves { LeavesLedger L.book L.has_kept L.is_sound L.has_store ledger.old ledger.new }
    ensures store { result ≡ Err ServeFault.Store → L.has_store ledger.old }
    ensures answers { L.has_kept ledger.new → L.is_sound ledger.old →
        (body : List ℕ) → SpellsRequest body request.now →
        AnswersBody (L.book ledger.old) (L.told ledger.old) body result
        (L.book ledger.new).history (L.told ledger.new) }
{
    match ledger.apply(request) {
        Ok(reply) => Ok(Some(reply)),
        // The peer sends it again, and may find memory then; with a store that failed nothing more
        // can be served.
        Err(LedgerFault::Memory) => Ok(Some(Reply::Retry)),
        Err(LedgerFault::Store) => Err(ServeFault::Store),
    }
}
