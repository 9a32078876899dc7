//! The tables that an audit reads, row by row, whatever their columns hold.

ghost use Rattle.std.specs.Prelude.{◌≡◌, ◌⊎◌, ◌++◌, ◌∷◌, List, [], false, OnOk, OnErr, IfOk};
ghost use Rattle.sqlite.specs.Effect.{Database, IsDatabase};
ghost use Rattle.sqlite.specs.Held.{state};
ghost use Rattle.sqlite.specs.Order.{Row as Cells};
ghost use Rattle.sqlite.specs.State.{HasCleanDisk, IsRolledBack, IsUnchanged, Shown, Survives};
ghost use Rattle.mq_rows.specs.declared.auditing.Books.{Books as AnyBooks};
ghost use Rattle.mq_rows.specs.Audit.{Figures};
ghost use Rattle.mq_tables.specs.Figures.{HasAuditTables, HasFigures, AreGiven};
ghost use Rattle.mq_tables.specs.Figures.{IsUsageRead, IsTransactionRead, IsLimitRead, Took};
ghost use Rattle.mq_tables.specs.Figures.{text_of};
ghost use Rattle.mq_tables.specs.Reading.{Spares};

use mq_request::Login;
use mq_rows::{Books, LimitFigures, Pair, TransactionFigures, UsageFigures};
use sqlite::{Alter, Connection, Error, ErrorCode, Row};

/// A table that an audit reads.
#[derive(Clone, Copy, Drop)]
pub(crate) enum Table {
    Usage,
    Transactions,
    Limits,
}

impl Table {
    /// The query for all its rows, in any order.
    pub(crate) fn text(self) -> &'static str
        ensures { result.now ≡ text_of self }
    {
        match self {
            Table::Usage => "SELECT login, day, settled, reserved FROM usage",
            Table::Transactions => "SELECT login, day, moment, held, settled FROM trans",
            Table::Limits => "SELECT login, day, cap FROM ceiling",
        }
    }
}

fn usage_of(row: &Row) -> Result<UsageFigures, Error>
    ensures { IfOk result (IsUsageRead row.now) }
{
    Ok(UsageFigures {
        pair: Pair {
            login: Login::new(row.get(0)?),
            day: row.get(1)?,
        },
        settled: row.get(2)?,
        reserved: row.get(3)?,
    })
}

fn transaction_of(row: &Row) -> Result<TransactionFigures, Error>
    ensures { IfOk result (IsTransactionRead row.now) }
{
    Ok(TransactionFigures {
        pair: Pair {
            login: Login::new(row.get(0)?),
            day: row.get(1)?,
        },
        moment: row.get(2)?,
        held: row.get(3)?,
        settled: row.get(4)?,
    })
}

pub(crate) fn limit_of(row: &Row) -> Result<LimitFigures, Error>
    ensures { IfOk result (IsLimitRead row.now) }
{
    Ok(LimitFigures {
        pair: Pair {
            login: Login::new(row.get(0)?),
            day: row.get(1)?,
        },
        cap: row.get(2)?,
    })
}

/// Gives one row of the table to the books.
fn take(table: Table, row: &Row, books: &mut Books) -> Result<(), Error>
    ensures { OnOk result ((rows : List Cells) (first : AnyBooks) → Took table rows first books.old
        → Took table (rows ++ row.now ∷ []) first books.new) }
{
    match table {
        Table::Usage => books.add_usage(usage_of(row)?)?,
        Table::Transactions => books.add_transaction(transaction_of(row)?)?,
        Table::Limits => books.add_limit(limit_of(row)?)?,
    }
    Ok(())
}

/// Gives all rows of the table to the books, one by one.
fn read_rows<S: Alter>(
    connection: &mut Connection<S>,
    table: Table,
    books: &mut Books,
) -> Result<(), Error>
    requires autocommit { connection.old.in_transaction ≡ false }
    ensures autocommit { connection.new.in_transaction ≡ false }
    ensures took { HasCleanDisk (state S.Store connection.new)
        → OnOk result ((rows : List Cells)
        × Shown (text_of table) [] (state S.Store connection.old)
        (state S.Store connection.new) rows
        × Took table rows books.old books.new) }
    ensures left { HasCleanDisk (state S.Store connection.new)
        → OnErr result (IsUnchanged (state S.Store connection.old) (state S.Store connection.new)
        ⊎ IsRolledBack (state S.Store connection.old) (state S.Store connection.new)) }
    ensures survives { Survives (state S.Store connection.old) (state S.Store connection.new)
        (λ _. ⊥) }
{
    let mut rows = connection.query(table.text(), &[])?;
    'rows: for _ in 0..u64::MAX {
        let Some(row) = rows.next()? else {
            return Ok(());
        };
        take(table, row, books)?;
    }
    Err(Error::SqliteFailure(ErrorCode::TooBig))
}

/// Gives all rows of the three tables to the books.
#[tactic(auto, using(crate::proofs::audits::Rows::calls))]
fn give_rows<S: Alter>(connection: &mut Connection<S>, books: &mut Books) -> Result<(), Error>
    requires autocommit { connection.old.in_transaction ≡ false }
    ensures autocommit { connection.new.in_transaction ≡ false }
    ensures given { HasCleanDisk (state S.Store connection.new)
        → OnOk result (IsUnchanged (state S.Store connection.old) (state S.Store connection.new)
        × AreGiven (state S.Store connection.old).now books.old books.new) }
    ensures left { HasCleanDisk (state S.Store connection.new)
        → OnErr result (IsUnchanged (state S.Store connection.old) (state S.Store connection.new)
        ⊎ IsRolledBack (state S.Store connection.old) (state S.Store connection.new)) }
    ensures survives { Survives (state S.Store connection.old) (state S.Store connection.new)
        (λ _. ⊥) }
{
    read_rows(connection, Table::Usage, books)?;
    read_rows(connection, Table::Transactions, books)?;
    read_rows(connection, Table::Limits, books)?;
    Ok(())
}

/// Gives all rows of `usage`, `trans` and `ceiling` to the books, each table's in any order. Few
/// rows are in memory at once.
///
/// It writes nothing. An error is the store's, also where memory runs out.
pub fn read_figures<S: Alter>(
    connection: &mut Connection<S>,
    books: &mut Books,
) -> Result<(), Error>
    requires autocommit { connection.old.in_transaction ≡ false }
    ensures autocommit { connection.new.in_transaction ≡ false }
    ensures limit { connection.new.step_limit ≡ connection.old.step_limit }
    ensures clean { HasCleanDisk (state S.Store connection.new)
        → HasCleanDisk (state S.Store connection.old) }
    ensures same { HasCleanDisk (state S.Store connection.new)
        → OnOk result (IsUnchanged (state S.Store connection.old) (state S.Store connection.new)) }
    ensures spares { HasCleanDisk (state S.Store connection.new)
        → Spares (state S.Store connection.old) (state S.Store connection.new) }
    ensures given { HasCleanDisk (state S.Store connection.new)
        → OnOk result (AreGiven (state S.Store connection.old).now books.old books.new) }
{
    // (its clause says that outside a transaction the tables are those of the last commit)
    let _settled = connection.is_autocommit();
    give_rows(connection, books)
}

/// Each sound store that has the three tables has figures, whatever wrote its rows: their columns
/// are strict, and none may be NULL. It does nothing: its contract is the law.
pub fn rows_have_figures()
    ensures { (db : Database) → IsDatabase db → HasAuditTables db.schema → (f : Figures)
        × HasFigures db f }
{}
