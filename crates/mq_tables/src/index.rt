//! The index by which the rows of a day are found, in the order of their logins.
//!
//! Without it a list of one day reads the rows of all, and so does the question for the oldest day
//! and the newest. No answer rests on it: where something else has its name, the ledger does
//! without.

ghost use Rattle.std.specs.Prelude.{◌≡◌, ◌⊎◌, false, IsTrue, OnOk, OnErr};
ghost use Rattle.sqlite.specs.Held.{state};
ghost use Rattle.sqlite.specs.State.{HasCleanDisk};
ghost use Rattle.sqlite.specs.Tree.{Trees};
ghost use Rattle.mq_tables.specs.Indexing.{Indexes, IndexesIf, IsIndexed, AreIndexed};
ghost use Rattle.mq_tables.specs.Inside.{IsInside, Becomes, Turns, StaysInside, CommitsNothing, Lasts};

use sqlite::{Alter, Connection, Error, Transaction};

fn create_index<S: Alter>(tx: &mut Transaction<'_, S>) -> Result<usize, Error>
    requires inside { IsInside S.Store tx.old }
    ensures open { Becomes S.Store tx.old tx.new result (λ before _. IsTrue before.is_open) }
    ensures inside { StaysInside S.Store tx.old tx.new result }
    ensures indexed { Turns S.Store tx.old tx.new result IsIndexed }
    ensures made { Becomes S.Store tx.old tx.new result Indexes }
    ensures leaves { CommitsNothing S.Store tx.old tx.new }
{
    tx.execute("CREATE INDEX usage_by_day ON usage (day, login)", &[])
}

/// Makes the index, where it is wanted.
pub(crate) fn add_index<S: Alter>(
    tx: &mut Transaction<'_, S>,
    is_wanted: bool,
) -> Result<usize, Error>
    requires inside { IsInside S.Store tx.old }
    ensures made { Becomes S.Store tx.old tx.new result (IndexesIf is_wanted) }
    ensures leaves { CommitsNothing S.Store tx.old tx.new }
{
    if is_wanted { create_index(tx) } else { Ok(0) }
}

/// Makes the index of a ledger that lacks it, in one transaction, or leaves all as it was.
///
/// An error is the store's.
pub fn index_ledger<S: Alter>(conn: &mut Connection<S>) -> Result<(), Error>
    requires autocommit { conn.old.in_transaction ≡ false }
    ensures autocommit { conn.new.in_transaction ≡ false }
    ensures limit { conn.new.step_limit ≡ conn.old.step_limit }
    ensures lasts { Lasts (state S.Store conn.old) (state S.Store conn.new) }
    ensures indexed { HasCleanDisk (state S.Store conn.new)
        → OnOk result (IsIndexed (state S.Store conn.old).now (state S.Store conn.new).now) }
    ensures open { HasCleanDisk (state S.Store conn.new)
        → OnOk result (IsTrue (state S.Store conn.new).is_open) }
    ensures err { HasCleanDisk (state S.Store conn.new) → IsTrue (state S.Store conn.new).is_open
        → OnErr result ((state S.Store conn.new).now ≡ (state S.Store conn.old).now) }

    // What an open after a crash may find: the ledger with the index, or after an error without it
    // or with it.
    ensures crash_ok { HasCleanDisk (state S.Store conn.new) → OnOk result ((db : Trees)
        → (state S.Store conn.new).may_leave db → db ≡ (state S.Store conn.new).now.trees) }
    ensures crash_err { HasCleanDisk (state S.Store conn.new) → OnErr result ((db : Trees)
        → (state S.Store conn.new).may_leave db
        → (state S.Store conn.old).may_leave db
        ⊎ (IsTrue (state S.Store conn.old).is_open × AreIndexed (state S.Store conn.old).now db)) }
{
    // (its clause says that outside a transaction the tables are those of the last commit)
    let _settled = conn.is_autocommit();
    let mut tx = conn.transaction();
    create_index(&mut tx)?;
    tx.commit()
}
