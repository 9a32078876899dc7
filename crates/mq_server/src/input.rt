//! Reading from a source.
ghost use Rattle.std.specs.Prelude.{◌≡◌, ◌≢◌, ◌≤◌, ◌∷◌, [], true, false, ℕ, List, length, Err};
ghost use Rattle.std.specs.Io.KnownBytes.{Consumes};
ghost use Rattle.mq_lemmas.specs.Told.{Tells};
ghost use Rattle.mq_server.specs.Steps.{Refills};

use crate::connection::Connection;
use crate::fault::ServeFault;
use mq_stream::{DeviceFault, Source};

/// The most bytes that one read takes.
pub const PIECE: usize = 4_096;

/// Gives a connection what one read gave, or closes it where that was nothing: at the input's end.
///
/// `Memory` where the connection had no room for what was read; after an `Err` it is as before, but
/// for its room.
pub fn refill<S: Source>(input: &mut S, connection: &mut Connection) -> Result<(), ServeFault>
    ensures reads { (piece : List ℕ) × (length piece ≤ PIECE)
        × Consumes (S.remaining input.old) (S.remaining input.new) piece
        × Refills connection.old connection.new piece (S.remaining input.new) result }
    // What came is answered before more is read.
    ensures once { (piece : List ℕ) × Tells (S.reads input.old) (S.reads input.new)
        (piece ∷ []) }
    ensures failed { result ≡ Err ServeFault.Read → S.has_failed input.new ≡ true }
    ensures works { result ≢ Err ServeFault.Read → S.has_failed input.new ≡ false }
{
    let mut piece = [0u8; PIECE];
    let count = match input.read(&mut piece) {
        Ok(count) => count,
        Err(DeviceFault) => return Err(ServeFault::Read),
    };
    if count == 0 {
        connection.close();
        return Ok(());
    }
    connection.receive(&piece[..count])?;
    Ok(())
}
