//! The table `rule`, which has one row where the ledger goes by a zone rule: its text.

ghost use Rattle.std.specs.Prelude.{◌≡◌, None, Option, List, ℕ, false, option_map};
ghost use Rattle.sqlite.specs.Held.{state};
ghost use Rattle.sqlite.specs.State.{HasCleanDisk};
ghost use Rattle.mq_tables.specs.Ledger.{HasRule};
ghost use Rattle.mq_tables.specs.Reading.{IsRuleRead, Spares};
ghost use Rattle.mq_tables.specs.Settings.{IsRuleOf, rule_text_of};

use crate::setting::value_at;
use sqlite::types::ValueRef;
use sqlite::{Alter, Connection, Error, Row};

/// Reads the row of the rule, as it is.
///
/// It lifts the limit on steps, and writes nothing. An error is the store's: `QueryReturnedNoRows`
/// where the row is absent, one of SQL where there is no such table.
pub fn read_rule<S: Alter>(connection: &mut Connection<S>) -> Result<Row, Error>
    requires autocommit { connection.old.in_transaction ≡ false }
    ensures autocommit { connection.new.in_transaction ≡ false }
    ensures unlimited { connection.new.step_limit ≡ None }

    // Whatever the store holds.
    ensures read { HasCleanDisk (state S.Store connection.new)
        → IsRuleRead (state S.Store connection.old) (state S.Store connection.new) result }
    ensures spares { HasCleanDisk (state S.Store connection.new)
        → Spares (state S.Store connection.old) (state S.Store connection.new) }
    ensures clean { HasCleanDisk (state S.Store connection.new)
        → HasCleanDisk (state S.Store connection.old) }

    // Where our table is there, at any place.
    ensures row { HasCleanDisk (state S.Store connection.new) → (rule : Option (List ℕ))
        → HasRule (state S.Store connection.old).now rule → IsRuleOf rule result }
{
    connection.set_step_limit(None);
    // (its clause says that outside a transaction the tables are those of the last commit)
    let _settled = connection.is_autocommit();
    connection.query_row("SELECT bytes FROM rule WHERE id = 1", &[])
}

/// The text of the rule in the row; `None` where no bytes stand there.
pub fn rule_of(row: &Row) -> Option<&[u8]>
    ensures { option_map (λ text. text.now) result ≡ rule_text_of row.now }
{
    match value_at(row, 0) {
        ValueRef::Blob(text) => Some(text),
        _ => None,
    }
}
