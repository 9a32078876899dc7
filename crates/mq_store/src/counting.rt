//! How many answers a store has.

ghost use Rattle.std.specs.Prelude.{◌≡◌, false, IfOk};
ghost use Rattle.sqlite.specs.Held.{state};
ghost use Rattle.sqlite.specs.State.{HasCleanDisk};
ghost use Rattle.mq_rows.specs.Tables.{Tables};
ghost use Rattle.mq_tables.specs.Ledger.{HasLedger};
ghost use Rattle.mq_tables.specs.Reading.{Spares};

use crate::fault::Refusal;
use mq_tables::setting::read_arrivals;
use sqlite::{Alter, Connection};

/// The count in the row of settings. Nothing is written.
pub(crate) fn count_store<S: Alter>(connection: &mut Connection<S>) -> Result<u64, Refusal>
    requires autocommit { connection.old.in_transaction ≡ false }
    ensures autocommit { connection.new.in_transaction ≡ false }
    ensures step_limit { connection.new.step_limit ≡ connection.old.step_limit }
    ensures clean { HasCleanDisk (state S.Store connection.new)
        → HasCleanDisk (state S.Store connection.old) }
    ensures counted { HasCleanDisk (state S.Store connection.new) → IfOk result (λ n. (t : Tables)
        → HasLedger (state S.Store connection.old).now t → n ≡ t.setting.arrivals) }
    ensures spares { HasCleanDisk (state S.Store connection.new)
        → Spares (state S.Store connection.old) (state S.Store connection.new) }
{
    // (its clause says that outside a transaction the tables are those of the last commit)
    let _settled = connection.is_autocommit();
    let mut tx = connection.transaction();
    Ok(read_arrivals(&mut tx)?)
}
