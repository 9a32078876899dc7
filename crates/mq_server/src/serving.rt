//! Serving one connection over a source and a sink.
ghost use Rattle.std.specs.Prelude.{◌≡◌, ◌≢◌, true, false, List, Err};
ghost use Rattle.mq_ledger.specs.Leaving.{LeavesLedger};
ghost use Rattle.mq_lemmas.specs.Told.{Tells};
ghost use Rattle.mq_server.specs.Connection.{Serves, calls_of};
ghost use Rattle.mq_server.specs.Delivery.{Delivery, history_after, answer_to};
ghost use Rattle.mq_stream.specs.Flow.{IsFlushed};

use crate::connection::{Connection, EndCause, Progress};
use crate::fault::ServeFault;
use crate::input::refill;
use crate::output::hand_on;
use mq_ledger::Ledger;
use mq_stream::{Sink, Source};
use std::alloc::Global;

/// Serves one connection to its end.
///
/// Each whole frame is answered, and its answer flushed, before the next read. The body of a
/// request goes to the ledger, and the ledger's reply is written; `Retry` where the ledger had no
/// memory for it. A body that is no request, an empty one and one above 512 bytes is answered by
/// `Bad`, which ends the connection; so does the 10,000th answer.
///
/// After `Read`, `Memory` and `Store` the answers to all frames before went out, and nothing else;
/// after `Write` a part of the next answer too. The ledger has each request that it answered: where
/// an answer had no room, or could not be written, the request is in the ledger all the same.
pub fn serve<S: Source, W: Sink, L: Ledger>(
    alloc: Global,
    input: &mut S,
    output: &mut W,
    ledger: &mut L,
) -> Result<EndCause, ServeFault>
    // Of any ledger, sound or not.
    ensures read { result ≡ Err ServeFault.Read → S.has_failed input.new ≡ true }
    ensures source_works { S.has_failed input.old ≡ false →
        result ≢ Err ServeFault.Read → S.has_failed input.new ≡ false }
    ensures write { result ≡ Err ServeFault.Write → W.has_failed output.new ≡ true }
    ensures sink_works { W.has_failed output.old ≡ false →
        result ≢ Err ServeFault.Write → W.has_failed output.new ≡ false }
    // What was written is handed on at every end but a failed write, and so wherever a read fails.
    ensures flushed { IsFlushed (W.has_flushed output.old) →
        result ≢ Err ServeFault.Write → IsFlushed (W.has_flushed output.new) }
    ensures leaves { LeavesLedger L.book L.has_kept L.is_sound L.has_store ledger.old ledger.new }
    ensures store { result ≡ Err ServeFault.Store → L.has_store ledger.old }

    // Of a sound one that has kept its premise.
    ensures serves { L.has_kept ledger.new → L.is_sound ledger.old → (came : List Delivery)
        × (s : Serves (answer_to (L.book ledger.old)) came
        (record { remaining = S.remaining input.old; contents = W.contents output.old })
        (record { remaining = S.remaining input.new; contents = W.contents output.new }) result)
        × ((L.book ledger.new).history ≡ history_after (L.book ledger.old) came)
        × Tells (L.told ledger.old) (L.told ledger.new) (calls_of s) }
{
    let mut connection = Connection::new(alloc);
    // (the label is the loop's name in its proof)
    'frames: loop {
        let progress = connection.answer_next(alloc, ledger);
        // A reply goes out before the next read, which may wait for a peer that waits for it.
        hand_on(&mut connection, output)?;
        match progress {
            Progress::Answered => {}
            Progress::Waits => refill(input, &mut connection)?,
            Progress::Ended(end) => return end,
        }
    }
}
