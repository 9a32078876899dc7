//! The audit of a store: it reads all rows of three tables, one by one, and writes nothing.

ghost use Rattle.std.specs.Prelude.{◌≡◌, ℕ, false, IsTrue, IfOk, OnOk};
ghost use Rattle.sqlite.specs.Held.{state};
ghost use Rattle.sqlite.specs.State.{HasCleanDisk};
ghost use Rattle.mq_ledger.specs.declared.zone.Zone.{Zone as AnyZone};
ghost use Rattle.mq_rows.specs.Books.{AreBooksOf, no_rows};
ghost use Rattle.mq_tables.specs.Reading.{Spares};
ghost use Rattle.mq_store.specs.Auditing.{IsAuditOfAll, IsAuditIn};

use crate::fault::Refusal;
use mq_ledger::Zone;
use mq_rows::{Audit, Books};
use mq_tables::figures::{read_figures, rows_have_figures};
use sqlite::{Alter, Connection};
use std::alloc::Global;

/// How many rows an audit read.
#[derive(Clone, Copy, Debug, PartialEq, Eq)]
pub struct RowCounts {
    /// The rows of `usage`: a login and a day each.
    pub days: u64,
    /// The rows of `trans`.
    pub transactions: u64,
}

/// What an audit answers by books that have no row yet.
fn audit_by<S: Alter>(connection: &mut Connection<S>, books: &mut Books) -> Result<Audit, Refusal>
    requires autocommit { connection.old.in_transaction ≡ false }
    ensures autocommit { connection.new.in_transaction ≡ false }
    ensures step_limit { connection.new.step_limit ≡ connection.old.step_limit }
    ensures clean { HasCleanDisk (state S.Store connection.new)
        → HasCleanDisk (state S.Store connection.old) }
    ensures open { HasCleanDisk (state S.Store connection.new)
        → OnOk result (IsTrue (state S.Store connection.old).is_open) }
    ensures audited { HasCleanDisk (state S.Store connection.new)
        → IfOk result (λ audit. (zone : AnyZone) (default : ℕ)
        → AreBooksOf zone default no_rows books.old
        → IsAuditOfAll zone default (state S.Store connection.old).now audit) }
    ensures spares { HasCleanDisk (state S.Store connection.new)
        → Spares (state S.Store connection.old) (state S.Store connection.new) }
{
    read_figures(connection, books)?;
    Ok(books.audit()?)
}

/// What an audit of the store answers. Nothing is written.
pub(crate) fn audit_store<S: Alter>(
    alloc: Global,
    connection: &mut Connection<S>,
    zone: Zone,
    default: u32,
) -> Result<Audit, Refusal>
    requires autocommit { connection.old.in_transaction ≡ false }
    ensures autocommit { connection.new.in_transaction ≡ false }
    ensures step_limit { connection.new.step_limit ≡ connection.old.step_limit }
    ensures clean { HasCleanDisk (state S.Store connection.new)
        → HasCleanDisk (state S.Store connection.old) }
    ensures open { HasCleanDisk (state S.Store connection.new)
        → OnOk result (IsTrue (state S.Store connection.old).is_open) }
    ensures audited { HasCleanDisk (state S.Store connection.new)
        → IfOk result (IsAuditIn zone default (state S.Store connection.old).now) }
    ensures spares { HasCleanDisk (state S.Store connection.new)
        → Spares (state S.Store connection.old) (state S.Store connection.new) }
{
    // (its clause says that what an open connection has is a sound database)
    let _sound = connection.schema();
    rows_have_figures();
    let mut books = Books::new(alloc, zone, default);
    audit_by(connection, &mut books)
}
