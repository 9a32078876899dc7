//! The limits that a ledger has.

ghost use Rattle.std.specs.Prelude.{◌≡◌, ◌↔◌, false, Err, is_some, IsTrue, IfOk};
ghost use Rattle.sqlite.specs.Held.{state};
ghost use Rattle.sqlite.specs.State.{HasCleanDisk};
ghost use Rattle.sqlite.specs.Tree.{Trees};
ghost use Rattle.mq_tables.specs.Reading.{Spares};
ghost use Rattle.mq_store.specs.Limits.{AreLimitsIn, AreSet};
ghost use Rattle.mq_store.specs.Soundness.{book_in, HasKept, IsSound};

use crate::fault::{Refusal, noted};
use crate::ledger::SqlLedger;
use mq_ledger::LedgerFault;
use mq_rows::LimitFigures;
use mq_tables::limits::read_limits;
use sqlite::{Alter, Connection};
use std::alloc::Global;

/// All rows of the table of limits. Nothing is written.
fn limits_in_store<S: Alter>(
    alloc: Global,
    connection: &mut Connection<S>,
) -> Result<Vec<LimitFigures>, Refusal>
    requires autocommit { connection.old.in_transaction ≡ false }
    ensures autocommit { connection.new.in_transaction ≡ false }
    ensures step_limit { connection.new.step_limit ≡ connection.old.step_limit }
    ensures clean { HasCleanDisk (state S.Store connection.new)
        → HasCleanDisk (state S.Store connection.old) }
    ensures found { HasCleanDisk (state S.Store connection.new)
        → IfOk result (λ limits. AreLimitsIn (state S.Store connection.old).now limits.items) }
    ensures spares { HasCleanDisk (state S.Store connection.new)
        → Spares (state S.Store connection.old) (state S.Store connection.new) }
{
    // (its clause says that outside a transaction the tables are those of the last commit)
    let _settled = connection.is_autocommit();
    let mut tx = connection.transaction();
    Ok(read_limits(alloc, &mut tx)?)
}

impl<S: Alter> SqlLedger<S> {
    /// All limits that the ledger has, in any order: of each login and day from which one was set
    /// the last cap. They are read into memory. Nothing is written.
    ///
    /// The fault is `Memory`, or `Store` where the statement was refused for another cause. A crash
    /// after it, whatever it answered, leaves what a crash before it could leave.
    pub fn limits(&mut self) -> Result<Vec<LimitFigures>, LedgerFault>
        ensures lent { (self.new.zone ≡ self.old.zone) × (self.new.default ≡ self.old.default) }
        ensures counts { self.new.found ≡ self.old.found }
        ensures noted { (result ≡ Err LedgerFault.Store) ↔ IsTrue (is_some self.new.cause) }

        // They are all rows of the table, whatever these hold; over a sound store those of its
        // history.
        ensures found { HasKept (state S.Store self.new.connection)
            → IfOk result (λ limits. AreLimitsIn (state S.Store self.old.connection).now
            limits.items) }
        ensures set { HasKept (state S.Store self.new.connection)
            → IsSound self.old.zone self.old.default (state S.Store self.old.connection)
            → IfOk result (λ limits. AreSet (book_in self.old.zone self.old.default
            (state S.Store self.old.connection).now).history limits.items) }
        ensures sound { HasKept (state S.Store self.new.connection)
            → IsSound self.old.zone self.old.default (state S.Store self.old.connection)
            → IsSound self.new.zone self.new.default (state S.Store self.new.connection) }
        ensures same { HasKept (state S.Store self.new.connection)
            → (state S.Store self.new.connection).now ≡ (state S.Store self.old.connection).now }
        ensures kept { HasKept (state S.Store self.new.connection)
            → HasKept (state S.Store self.old.connection) }
        ensures autocommit { self.new.connection.in_transaction ≡ false }

        // What an open after a crash may find.
        ensures crash { HasCleanDisk (state S.Store self.new.connection) → (db : Trees)
            → (state S.Store self.new.connection).may_leave db
            → (state S.Store self.old.connection).may_leave db }
    {
        self.cause = None;
        match limits_in_store(self.alloc, &mut self.connection) {
            Ok(limits) => Ok(limits),
            Err(refused) => Err(noted(&mut self.cause, refused)),
        }
    }
}
