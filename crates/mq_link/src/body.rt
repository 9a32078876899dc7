//! The one reader of a reply's body.
ghost use Rattle.std.specs.Prelude.{◌≡◌, ◌≤◌, ◌∷◌, [], Err, OnOk, OnErr};
ghost use Rattle.mq_frame.specs.Spelling.{in_2_bytes};
ghost use Rattle.mq_link.specs.Body.{IsReceived, IsHeadOnly, IsEmptyHead};

use std::io;
use std::io::Read;

/// Why no body was read.
#[derive(Debug, Drop)]
pub enum BodyFault {
    /// A read failed, or the input ended before the body did.
    Read(io::Error),
    /// The head announces no bytes.
    Empty,
    /// The body found no memory.
    Memory,
}

/// The length of the body that the two bytes of a head announce.
fn length_of(high: u8, low: u8) -> usize
    ensures spelled { in_2_bytes result ≡ high ∷ low ∷ [] }
    ensures fits { result ≤ 65535 }
{
    usize::from(u16::from_be_bytes([high, low]))
}

/// Reads one frame, and leaves its body of 1 to 65,535 bytes in `reply`. On a fault `reply` is
/// empty. Where memory runs out, the head was read and no byte of the body, and `Empty` is a head
/// that announces none.
pub fn read_body<S: Read>(stream: &mut S, reply: &mut Vec<u8>) -> Result<(), BodyFault>
    ensures body { OnOk result (IsReceived (S.remaining stream.old)
        (S.remaining stream.new) reply.new.items) }
    ensures empty { OnErr result (reply.new.items ≡ []) }
    ensures memory { result ≡ Err BodyFault.Memory → IsHeadOnly (S.remaining stream.old)
        (S.remaining stream.new) }
    ensures no_bytes { result ≡ Err BodyFault.Empty → IsEmptyHead (S.remaining stream.old)
        (S.remaining stream.new) }
{
    reply.clear();
    let mut head = [0u8; 2];
    if let Err(error) = stream.read_exact(&mut head) {
        return Err(BodyFault::Read(error));
    }
    let length = length_of(head[0], head[1]);
    if length == 0 {
        return Err(BodyFault::Empty);
    }
    if reply.resize(length, 0).is_err() {
        reply.clear();
        return Err(BodyFault::Memory);
    }
    match stream.read_exact(reply.as_mut_slice()) {
        Ok(()) => Ok(()),
        Err(error) => {
            reply.clear();
            Err(BodyFault::Read(error))
        }
    }
}
