//! The versions of the tables.
ghost use Rattle.std.specs.Prelude.{◌≡◌};
ghost use Rattle.mq_rows.specs.Rows.{older_version};

use mq_ledger::Zone;

/// The version of the tables that a ledger is made with, and that one of an older version is given
/// when it is opened.
pub const VERSION: u32 = 3;

/// The version of the tables that a ledger of this zone was made with before there were floors of
/// runs: 1 with an offset, and 2 with a rule, which has a table of its own.
pub fn older_version(zone: &Zone) -> u32
    ensures { result ≡ older_version zone.now }
{
    match zone.rule() {
        None => 1,
        Some(_) => 2,
    }
}
