//! A reply that is read without asking for memory.
ghost use Rattle.std.specs.Prelude.{◌≡◌, None, IfSome};
ghost use Rattle.mq_frame.specs.Parts.{shown_reply};
ghost use Rattle.mq_frame.specs.Spelling.{SpellsReply};
ghost use Rattle.mq_request.specs.declared.message.Reply.{Reply};

use crate::reply_parts::{ReplyParts, reply_parts};

/// The reply that the body spells, in parts that borrow from it, so that no memory is asked for. It
/// is none where the body spells no reply.
pub fn read_reply(body: &[u8]) -> Option<ReplyParts<'_>>
    ensures found { IfSome result (λ parts. SpellsReply body.now (shown_reply parts)) }
    ensures only { IfSome result (λ parts. (reply : Reply) → SpellsReply body.now reply
        → shown_reply parts ≡ reply) }
    ensures none { result ≡ None → (reply : Reply) → SpellsReply body.now reply → ⊥ }
{
    reply_parts(body)
}
