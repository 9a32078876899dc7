//! One page of a report.
ghost use Rattle.std.specs.Prelude.{◌↔◌, IsTrue};
ghost use Rattle.mq_command.specs.Report.{IsAscendingAbove};

use mq_request::UsageRow;
use std::cmp::Ordering;

/// Whether the logins of a page ascend, byte for byte, and are all above `after`.
pub fn is_ascending(after: &[u8], rows: &[UsageRow]) -> bool
    ensures { IsTrue result ↔ IsAscendingAbove after.now rows.now }
{
    let mut last = after;
    for row in rows {
        let login = row.login.as_slice();
        if !matches!(last.cmp(login), Ordering::Less) {
            return false;
        }
        last = login;
    }
    true
}
