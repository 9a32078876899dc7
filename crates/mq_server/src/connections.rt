//! Several connections, one after another.
ghost use Rattle.std.specs.Prelude.{◌≡◌, ◌≢◌, ◌⊎◌, [], ◌∷◌, ◌++◌, true, false, length, map, List};
ghost use Rattle.std.specs.Prelude.{All, Err, IfOk};
ghost use Rattle.std.specs.Prelude.{IfErr};
ghost use Rattle.std.specs.List.{AllZip};
ghost use Rattle.mq_stream.specs.Flow.{IsFlushed};
ghost use Rattle.mq_ledger.specs.Leaving.{LeavesLedger};
ghost use Rattle.mq_lemmas.specs.Told.{Tells};
ghost use Rattle.mq_server.specs.declared.connections.ConnectionEnd.{ConnectionEnd as AnyConnectionEnd};
ghost use Rattle.mq_server.specs.Connections.{wires, result_of, AreServed, AreStopped, calls_until};
ghost use Rattle.mq_server.specs.Connections.{DevicesAgree};
ghost use Rattle.mq_server.specs.Delivery.{Delivery, answer_to, history_after, calls};

use crate::connection::EndCause;
use crate::fault::ServeFault;
use crate::serving::serve;
use mq_ledger::Ledger;
use mq_stream::{Sink, Source};
use std::alloc::Global;

/// How one of several connections ended.
#[derive(Clone, Copy, Debug, PartialEq, Eq)]
pub enum ConnectionEnd {
    /// It was served.
    Served(EndCause),
    /// A read failed.
    Read,
    /// A write or a flush failed.
    Write,
    /// A growth was refused.
    Memory,
}

/// The end of a connection, or `Store` where no further one can be served.
fn end_of(serving: Result<EndCause, ServeFault>) -> Result<ConnectionEnd, ServeFault>
    ensures ok { IfOk result (λ end. result_of end ≡ serving) }
    ensures store { IfErr result (λ fault. (fault ≡ ServeFault.Store)
        × (serving ≡ Err ServeFault.Store)) }
{
    match serving {
        Ok(served) => Ok(ConnectionEnd::Served(served)),
        Err(ServeFault::Read) => Ok(ConnectionEnd::Read),
        Err(ServeFault::Write) => Ok(ConnectionEnd::Write),
        Err(ServeFault::Memory) => Ok(ConnectionEnd::Memory),
        Err(ServeFault::Store) => Err(ServeFault::Store),
    }
}

/// Serves each input with its output in turn, and says how each ended.
///
/// The next pair is served after any end but `Store`, which ends the whole call. Room for the ends
/// is made first: where that growth is refused it is `Memory`, and nothing was served.
pub fn serve_all<S: Source, W: Sink, L: Ledger>(
    alloc: Global,
    inputs: &mut [S],
    outputs: &mut [W],
    ledger: &mut L,
) -> Result<Vec<ConnectionEnd>, ServeFault>
    requires { length inputs.old ≡ length outputs.old }

    // Of any ledger, sound or not.
    ensures faults { IfErr result (λ fault. (fault ≡ ServeFault.Memory)
        ⊎ (fault ≡ ServeFault.Store)) }
    ensures all { IfOk result (λ ends. length ends.items ≡ length inputs.old) }
    ensures memory { result ≡ Err ServeFault.Memory →
        (inputs.new ≡ inputs.old) × (outputs.new ≡ outputs.old) × (ledger.new ≡ ledger.old) }
    ensures read { IfOk result (λ ends. AllZip (λ end input.
        end ≡ ConnectionEnd.Read → S.has_failed input ≡ true) ends.items inputs.new) }
    ensures write { IfOk result (λ ends. AllZip (λ end output.
        end ≡ ConnectionEnd.Write → W.has_failed output ≡ true) ends.items outputs.new) }
    // Where all devices work at the start, those of a connection still do after each end but a
    // failed read or write, and what was written is handed on at each end but a failed write.
    ensures source_works { All (λ input. S.has_failed input ≡ false) inputs.old
        → IfOk result (λ ends.
        AllZip (λ end input. end ≢ ConnectionEnd.Read → S.has_failed input
        ≡ false) ends.items inputs.new) }
    ensures sink_works { All (λ output. W.has_failed output ≡ false) outputs.old
        → IfOk result (λ ends.
        AllZip (λ end output. end ≢ ConnectionEnd.Write
        → W.has_failed output ≡ false) ends.items outputs.new) }
    ensures flushed { All (λ output. IsFlushed (W.has_flushed output)) outputs.old
        → IfOk result (λ ends.
        AllZip (λ end output. end ≢ ConnectionEnd.Write
        → IsFlushed (W.has_flushed output)) ends.items outputs.new) }
    ensures leaves { LeavesLedger L.book L.has_kept L.is_sound L.has_store ledger.old ledger.new }
    ensures cause { result ≡ Err ServeFault.Store → L.has_store ledger.old }

    // Of a sound one that has kept its premise.
    ensures served { L.has_kept ledger.new → L.is_sound ledger.old
        → IfOk result (λ ends. (seen : List Delivery)
        × AreServed (L.book ledger.old) []
        (wires (map S.remaining inputs.old) (map W.contents outputs.old))
        (wires (map S.remaining inputs.new) (map W.contents outputs.new))
        (map result_of ends.items) seen
        × ((L.book ledger.new).history ≡ history_after (L.book ledger.old) seen)
        × Tells (L.told ledger.old) (L.told ledger.new)
        (calls (answer_to (L.book ledger.old)) seen)) }

    // Where the store failed: how the connections before ended, and after them the one at which it
    // did.
    ensures store { result ≡ Err ServeFault.Store → (ends : List AnyConnectionEnd)
        × DevicesAgree S.has_failed W.has_failed W.has_flushed inputs.old inputs.new outputs.old
        outputs.new
        (map result_of ends ++ Err ServeFault.Store ∷ [])
        × (L.has_kept ledger.new → L.is_sound ledger.old → (seen : List Delivery)
        × (s : AreStopped (L.book ledger.old)
        (wires (map S.remaining inputs.old) (map W.contents outputs.old))
        (wires (map S.remaining inputs.new) (map W.contents outputs.new)) ends seen)
        × ((L.book ledger.new).history ≡ history_after (L.book ledger.old) seen)
        × Tells (L.told ledger.old) (L.told ledger.new) (calls_until s)) }
{
    let mut ends = Vec::with_capacity(alloc, inputs.len())?;
    for i in 0..inputs.len() {
        let end = end_of(serve(alloc, &mut inputs[i], &mut outputs[i], ledger))?;
        // (there is room, so nothing that was served is left out)
        ends.push(end).unwrap();
    }
    Ok(ends)
}
