//! A new ledger that has what an old one remembers.

ghost use Rattle.std.specs.Prelude.{◌≡◌, ◌⊎◌, false, None, IsTrue, IfOk, IfErr};
ghost use Rattle.sqlite.specs.Held.{state};
ghost use Rattle.sqlite.specs.State.{HasCleanDisk};
ghost use Rattle.sqlite.specs.Tree.{Trees};
ghost use Rattle.mq_tables.specs.Making.{has_ledger_table};
ghost use Rattle.mq_store.specs.Forgetting.{IsFree, AreFilled, IsRemembered, FindsFilled};
ghost use Rattle.mq_store.specs.Forgetting.{FindsFilledOr};
ghost use Rattle.mq_store.specs.Opening.{within_transaction, IsStop};
ghost use Rattle.mq_store.specs.Soundness.{HasKept, IsSound};
ghost use Rattle.mq_store.specs.declared.fault.OpenFault.TheVariants.{NotOurs};

use crate::auditing::RowCounts;
use crate::carry::Terms;
use crate::fault::{OpenFault, OpenRefused, open_fault, within_transaction};
use crate::fill::fill_store;
use crate::laws::tables_mean_their_book;
use crate::ledger::SqlLedger;
use mq_tables::laws::trees_have_one_schema;
use mq_tables::names::has_ledger_table;
use sqlite::{Alter, Connection};
use std::alloc::Global;

impl<S: Alter> SqlLedger<S> {
    /// Makes a new ledger that has what an old one remembers from a day on: the limits that were
    /// set, the retires, and each answer about that day or a later one, in their order and with
    /// their replies. It has the zone and the default of the old one. Tables and answers are
    /// written in one transaction, over whatever the new store holds. `day` is a day number since
    /// 1970-01-01.
    ///
    /// The old ledger is read only. It isn't asked anything else meanwhile, and each answer costs a
    /// few statements; a retire that cleared the reply of a limit from an earlier day makes the
    /// first such limit cost as much as applying all answers before it in memory.
    ///
    /// Refused, the new store has the tables that it had. `NotOurs` comes exactly where a table of
    /// one of the seven names is there; its other faults are `Memory` and `Store`, of either store.
    /// A connection within a transaction is `Store`.
    pub fn carry_over<T: Alter>(
        alloc: Global,
        old: &mut SqlLedger<T>,
        connection: Connection<S>,
        day: u32,
    ) -> Result<SqlLedger<S>, OpenRefused<S>>
        ensures lent { IfOk result (λ l. (l.zone ≡ old.old.zone) × (l.default ≡ old.old.default)) }
        ensures counts { IfOk result (λ l. (l.found.days ≡ 0) × (l.found.transactions ≡ 0)) }
        ensures uncaused { IfOk result (λ l. l.cause ≡ None) }
        ensures open { IfOk result (λ l. HasCleanDisk (state S.Store l.connection)
            → IsTrue (state S.Store l.connection).is_open) }

        // It is a sound ledger whose history is exactly what is remembered of the old one's, where
        // the old one is sound and no foreign key that was there names a table of ours.
        ensures remembered { IfOk result (λ l. HasCleanDisk (state T.Store old.new.connection)
            → HasCleanDisk (state S.Store l.connection)
            → IsSound old.old.zone old.old.default (state T.Store old.old.connection)
            → IsFree (state S.Store connection).now
            → IsRemembered old.old.zone old.old.default day (state T.Store old.old.connection).now
            (state S.Store l.connection)) }

        // Refused, the new store is as it was.
        ensures not_ours { IfErr result (λ e. e.fault ≡ NotOurs
            → IsTrue (has_ledger_table (state S.Store connection).now.schema)) }
        ensures not_ours_same { IfErr result (λ e. e.fault ≡ NotOurs → e.connection ≡ connection) }
        ensures ours_ok { IfOk result (λ _. has_ledger_table (state S.Store connection).now.schema
            ≡ false) }
        ensures ours_err { IfErr result (λ e. connection.in_transaction ≡ false
            → IsTrue (has_ledger_table (state S.Store connection).now.schema) → e.fault ≡ NotOurs) }
        ensures err { IfErr result (λ e. HasCleanDisk (state S.Store e.connection)
            → IsTrue (state S.Store e.connection).is_open
            → (state S.Store e.connection).now ≡ (state S.Store connection).now) }
        ensures fault { IfErr result (λ e. (e.fault ≡ NotOurs) ⊎ IsStop e.fault) }

        // Kept at the end, it was kept at the entry.
        ensures kept_ok { IfOk result (λ l. HasKept (state S.Store l.connection)
            → HasKept (state S.Store connection)) }
        ensures kept_err { IfErr result (λ e. HasKept (state S.Store e.connection)
            → HasKept (state S.Store connection)) }

        // The connection is outside a transaction where it was lent so, and a ledger's always is.
        ensures autocommit_ok { IfOk result (λ l. (connection.in_transaction ≡ false)
            × (l.connection.in_transaction ≡ false)) }
        ensures autocommit_err { IfErr result (λ e. e.connection.in_transaction
            ≡ connection.in_transaction) }
        ensures within { IfErr result (λ e. IsTrue connection.in_transaction
            → (e.fault ≡ within_transaction) × (e.connection ≡ connection)) }

        // The old one is as it was, and a crash leaves of it what a crash before could leave.
        ensures old_lent { (old.new.zone ≡ old.old.zone) × (old.new.default ≡ old.old.default)
            × (old.new.found ≡ old.old.found) × (old.new.cause ≡ old.old.cause) }
        ensures old_kept { HasKept (state T.Store old.new.connection)
            → HasKept (state T.Store old.old.connection) }
        ensures old_same { HasKept (state T.Store old.new.connection)
            → (state T.Store old.new.connection).now ≡ (state T.Store old.old.connection).now }
        ensures old_crash { HasCleanDisk (state T.Store old.new.connection) → (db : Trees)
            → (state T.Store old.new.connection).may_leave db
            → (state T.Store old.old.connection).may_leave db }

        // What an open of the new store after a crash may find: all of the new ledger, or none of
        // it.
        ensures crash_ok { IfOk result (λ l. HasCleanDisk (state S.Store l.connection)
            → (db : Trees)
            → (state S.Store l.connection).may_leave db
            → db ≡ (state S.Store l.connection).now.trees) }
        ensures crash_err { IfErr result (λ e. HasCleanDisk (state T.Store old.new.connection)
            → HasCleanDisk (state S.Store e.connection) → (db : Trees)
            → (state S.Store e.connection).may_leave db → (state S.Store connection).may_leave db
            ⊎ AreFilled old.old.zone old.old.default day (state T.Store old.old.connection).now
            (state S.Store connection).now db) }

        // What it does find, as a sound database.
        ensures found_ok { IfOk result (λ l. HasCleanDisk (state T.Store old.new.connection)
            → HasCleanDisk (state S.Store l.connection)
            → FindsFilled old.old.zone old.old.default day (state T.Store old.old.connection).now
            (state S.Store connection).now (state S.Store l.connection)) }
        ensures found_err { IfErr result (λ e. HasCleanDisk (state T.Store old.new.connection)
            → HasCleanDisk (state S.Store e.connection)
            → FindsFilledOr old.old.zone old.old.default day (state T.Store old.old.connection).now
            (state S.Store connection) (state S.Store e.connection)) }
    {
        trees_have_one_schema();
        tables_mean_their_book();
        let mut connection = connection;
        if !connection.is_autocommit() {
            let fault = within_transaction();
            return Err(OpenRefused { fault, connection });
        }
        if has_ledger_table(connection.schema()) {
            let fault = OpenFault::NotOurs;
            return Err(OpenRefused { fault, connection });
        }
        connection.set_step_limit(None);
        let terms = Terms {
            zone: old.zone,
            default: old.default,
            day,
        };
        match fill_store(alloc, &mut old.connection, &mut connection, &terms) {
            Ok(()) => {}
            Err(refused) => {
                let fault = open_fault(refused);
                return Err(OpenRefused { fault, connection });
            }
        }
        Ok(SqlLedger {
            alloc,
            connection,
            zone: terms.zone,
            default: terms.default,
            found: RowCounts {
                days: 0,
                transactions: 0,
            },
            cause: None,
        })
    }
}
