//! The days on which transactions began, up to a day.

ghost use Rattle.std.specs.Prelude.{◌≡◌, ◌↔◌, false, Err, is_some, IsTrue, IfOk};
ghost use Rattle.sqlite.specs.Held.{state};
ghost use Rattle.sqlite.specs.State.{HasCleanDisk};
ghost use Rattle.sqlite.specs.Tree.{Trees};
ghost use Rattle.mq_ledger.specs.Day.{day_of};
ghost use Rattle.mq_rows.specs.Tables.{Tables};
ghost use Rattle.mq_tables.specs.Inside.{CommitsNothing, Finds};
ghost use Rattle.mq_tables.specs.Ledger.{HasLedger};
ghost use Rattle.mq_tables.specs.Reading.{Spares};
ghost use Rattle.mq_store.specs.TransactionDays.{AreDaysUntil, AreTransactionDays};
ghost use Rattle.mq_store.specs.Soundness.{book_in, HasKept, IsSound};

use crate::fault::{Refusal, noted};
use crate::ledger::SqlLedger;
use mq_ledger::LedgerFault;
use mq_tables::transaction_days::{newest_until, oldest_until};
use sqlite::{Alter, Connection, Error, Transaction};

/// Of the days up to one, the first on which a transaction began and the last. A transaction begins
/// with the first request about it that has an answer, whatever that is.
#[derive(Clone, Copy, Debug, PartialEq, Eq)]
pub struct TransactionDays {
    /// Days since 1970-01-01, by the ledger's zone.
    pub oldest: u32,
    /// The same day, or a later one.
    pub newest: u32,
}

/// Of the days of the rows of `trans`, up to that one, the earliest and the latest, inside a
/// transaction of the store.
#[tactic(auto, using(crate::proofs::Chain::calls))]
fn days_until<S: Alter>(
    tx: &mut Transaction<'_, S>,
    until: u32,
) -> Result<Option<TransactionDays>, Error>
    ensures found { Finds S.Store tx.old tx.new result (λ db days. (t : Tables) → HasLedger db t
        → AreDaysUntil until t.transactions days) }
    ensures leaves { CommitsNothing S.Store tx.old tx.new }
{
    let Some(oldest) = oldest_until(tx, until)? else {
        return Ok(None);
    };
    let Some(newest) = newest_until(tx, until)? else {
        return Ok(None);
    };
    Ok(Some(TransactionDays { oldest, newest }))
}

/// The same in a transaction of its own. Nothing is written.
fn days_until_in_store<S: Alter>(
    connection: &mut Connection<S>,
    until: u32,
) -> Result<Option<TransactionDays>, Refusal>
    requires autocommit { connection.old.in_transaction ≡ false }
    ensures autocommit { connection.new.in_transaction ≡ false }
    ensures step_limit { connection.new.step_limit ≡ connection.old.step_limit }
    ensures clean { HasCleanDisk (state S.Store connection.new)
        → HasCleanDisk (state S.Store connection.old) }
    ensures found { HasCleanDisk (state S.Store connection.new) → IfOk result (λ days. (t : Tables)
        → HasLedger (state S.Store connection.old).now t → AreDaysUntil until t.transactions days) }
    ensures spares { HasCleanDisk (state S.Store connection.new)
        → Spares (state S.Store connection.old) (state S.Store connection.new) }
{
    // (its clause says that outside a transaction the tables are those of the last commit)
    let _settled = connection.is_autocommit();
    let mut tx = connection.transaction();
    Ok(days_until(&mut tx, until)?)
}

impl<S: Alter> SqlLedger<S> {
    /// Of the days up to that one, the first on which a transaction began and the last; `None`
    /// where none did. Nothing is written. Meanwhile the days of all rows of `trans` are in memory.
    ///
    /// The fault is `Memory`, or `Store` where a statement was refused for another cause. A crash
    /// after it, whatever it answered, leaves what a crash before it could leave.
    pub fn transaction_days(&mut self, until: u32) -> Result<Option<TransactionDays>, LedgerFault>
        ensures lent { (self.new.zone ≡ self.old.zone) × (self.new.default ≡ self.old.default) }
        ensures counts { self.new.found ≡ self.old.found }
        ensures noted { (result ≡ Err LedgerFault.Store) ↔ IsTrue (is_some self.new.cause) }
        ensures days { HasKept (state S.Store self.new.connection)
            → IsSound self.old.zone self.old.default (state S.Store self.old.connection)
            → IfOk result (AreTransactionDays (day_of self.old.zone) until
            (book_in self.old.zone self.old.default
            (state S.Store self.old.connection).now).history) }
        ensures sound { HasKept (state S.Store self.new.connection)
            → IsSound self.old.zone self.old.default (state S.Store self.old.connection)
            → IsSound self.new.zone self.new.default (state S.Store self.new.connection) }
        ensures same { HasKept (state S.Store self.new.connection)
            → (state S.Store self.new.connection).now ≡ (state S.Store self.old.connection).now }
        ensures kept { HasKept (state S.Store self.new.connection)
            → HasKept (state S.Store self.old.connection) }
        ensures autocommit { self.new.connection.in_transaction ≡ false }

        // What an open after a crash may find.
        ensures crash { HasCleanDisk (state S.Store self.new.connection) → (db : Trees)
            → (state S.Store self.new.connection).may_leave db
            → (state S.Store self.old.connection).may_leave db }
    {
        self.cause = None;
        match days_until_in_store(&mut self.connection, until) {
            Ok(days) => Ok(days),
            Err(refused) => Err(noted(&mut self.cause, refused)),
        }
    }
}
