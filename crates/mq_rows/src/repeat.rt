//! The reply to a request whose number has a row.
ghost use Rattle.std.specs.Prelude.{◌≡◌, Some, IfOk, IfErr};
ghost use Rattle.mq_request.specs.declared.message.Request.{Request as AnyRequest};
ghost use Rattle.mq_request.specs.declared.message.Reply.{Reply as AnyReply};
ghost use Rattle.mq_request.specs.Range.{IsRequest, IsReply};
ghost use Rattle.mq_request.specs.Same.{same_request};
ghost use Rattle.mq_frame.specs.Spelling.{SpellsRequest, SpellsReply};
ghost use Rattle.mq_ledger.specs.Arrivals.{id_of};
ghost use Rattle.mq_rows.specs.Repeat.{IsRepeatOf};

use crate::record::AnswerRecord;
use mq_frame::{DecodeFault, decode_reply, decode_request};
use mq_ledger::LedgerFault;
use mq_request::{Id, Reply, Request};
use std::alloc::Global;

/// A body that spells nothing is no ledger's.
fn fault_of(fault: DecodeFault) -> LedgerFault
    ensures { result ≡ LedgerFault.Store → fault ≡ DecodeFault.Bad }
{
    match fault {
        DecodeFault::Bad => LedgerFault::Store,
        DecodeFault::Memory => LedgerFault::Memory,
    }
}

/// Whether the row spells that request. The fault is `Memory`, or `Store` where it spells none.
fn is_same(alloc: Global, row: &AnswerRecord, request: &Request) -> Result<bool, LedgerFault>
    ensures same { IfOk result (λ same. (q : AnyRequest) → SpellsRequest row.now.request q
        → same ≡ same_request request.now q) }
    ensures store { IfErr result (λ fault. fault ≡ LedgerFault.Store
        → (q : AnyRequest) → SpellsRequest row.now.request q → ⊥) }
{
    match decode_request(alloc, row.request.as_slice()) {
        Ok(stored) => Ok(request.is_same(&stored)),
        Err(fault) => Err(fault_of(fault)),
    }
}

/// The reply to a request whose number has this row: the stored one where the request is the same,
/// `Conflict` where it differs. The fault is `Memory`, or `Store` where the row spells no request
/// and reply.
pub fn stored_reply(
    alloc: Global,
    row: &AnswerRecord,
    id: &Id,
    request: &Request,
) -> Result<Reply, LedgerFault>
    requires in_range { IsRequest request.now }
    requires number { id_of request.now ≡ Some id.now }
    ensures reply { IfOk result (IsRepeatOf row.now id.now request.now) }
    ensures in_range { IfOk result IsReply }
    ensures store { IfErr result (λ fault. fault ≡ LedgerFault.Store
        → (q : AnyRequest) (a : AnyReply) → SpellsRequest row.now.request q
        → SpellsReply row.now.reply a → ⊥) }
{
    let same = is_same(alloc, row, request)?;
    if !same {
        return Ok(Reply::Conflict { id: id.clone()? });
    }
    match decode_reply(alloc, row.reply.as_slice()) {
        Ok(reply) => Ok(reply),
        Err(fault) => Err(fault_of(fault)),
    }
}
