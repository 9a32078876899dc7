//! Writing to a sink.
ghost use Rattle.std.specs.Prelude.{◌≡◌, ◌≢◌, ◌<◌, [], length, true, false, OnOk, IfErr, Err};
ghost use Rattle.std.specs.Io.KnownBytes.{Appends};
ghost use Rattle.mq_stream.specs.Flow.{AppendsFront, IsFlushed};
ghost use Rattle.mq_server.specs.Held.{with_replies};

use crate::connection::Connection;
use crate::fault::ServeFault;
use mq_stream::{DeviceFault, Sink, write_and_flush};

/// Writes and flushes the replies that wait, where there are any.
///
/// After a `Write` a prefix of them went out.
pub fn hand_on<W: Sink>(connection: &mut Connection, output: &mut W) -> Result<(), ServeFault>
    ensures ok { OnOk result (Appends (W.contents output.old)
        (W.contents output.new) connection.old.replies
        × (connection.new ≡ with_replies connection.old [])) }
    ensures err { IfErr result (λ fault. (fault ≡ ServeFault.Write)
        × (0 < length connection.old.replies)
        × AppendsFront (W.contents output.old) (W.contents output.new) connection.old.replies) }
    ensures failed { result ≡ Err ServeFault.Write → W.has_failed output.new ≡ true }
    ensures works { W.has_failed output.old ≡ false → result ≢ Err ServeFault.Write
        → W.has_failed output.new ≡ false }
    ensures flushed { IsFlushed (W.has_flushed output.old) →
        result ≢ Err ServeFault.Write → IsFlushed (W.has_flushed output.new) }
{
    let waiting = connection.replies();
    let count = waiting.len();
    if count == 0 {
        return Ok(());
    }
    match write_and_flush(output, waiting) {
        Ok(()) => {
            connection.take_replies(count);
            Ok(())
        }
        Err(DeviceFault) => Err(ServeFault::Write),
    }
}
