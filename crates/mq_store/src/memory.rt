//! A ledger in tables of a store in memory.

ghost use Rattle.std.specs.Prelude.{◌≡◌, false, None, IfOk, IfErr};
ghost use Rattle.sqlite.specs.Held.{state};
ghost use Rattle.sqlite.specs.Steps.{over_memory};
ghost use Rattle.mq_request.specs.Range.{IsAmount};
ghost use Rattle.mq_store.specs.Opening.{IsStop};
ghost use Rattle.mq_store.specs.Soundness.{IsNew};

use crate::fault::OpenFault;
use crate::ledger::SqlLedger;
use mq_ledger::Zone;
use sqlite::{Connection, MemStore};
use std::alloc::Global;

impl SqlLedger<MemStore> {
    /// A ledger that has applied nothing, in a store in memory that holds nothing else. It ends
    /// with the value. The default is the limit of a login that has none for a day: 0 to 1,000,000.
    pub fn in_memory(
        alloc: Global,
        zone: Zone,
        default: u32,
    ) -> Result<SqlLedger<MemStore>, OpenFault>
        requires in_range { IsAmount default }
        ensures lent { IfOk result (λ l. (l.zone ≡ zone) × (l.default ≡ default)) }
        ensures counts { IfOk result (λ l. (l.found.days ≡ 0) × (l.found.transactions ≡ 0)) }
        ensures uncaused { IfOk result (λ l. l.cause ≡ None) }
        ensures fault { IfErr result IsStop }
        ensures autocommit { IfOk result (λ l. l.connection.in_transaction ≡ false) }
        ensures new { IfOk result (λ l. IsNew zone default (state over_memory l.connection)) }
    {
        let Ok(connection) = Connection::open_in_memory(alloc) else {
            return Err(OpenFault::Memory);
        };
        match SqlLedger::create(alloc, connection, zone, default) {
            Ok(ledger) => Ok(ledger),
            Err(refused) => Err(refused.fault),
        }
    }
}
