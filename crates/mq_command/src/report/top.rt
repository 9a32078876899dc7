//! The logins that used most.
ghost use Rattle.std.specs.Prelude.{◌≡◌, IfOk};
ghost use Rattle.mq_command.specs.Top.{IsTop, used_of};

use mq_request::UsageRow;
use std::alloc::AllocError;

/// How much a login used, settled and reserved.
fn used_of(row: &UsageRow) -> u64
    ensures { result ≡ used_of row.now }
{
    u64::from(row.settled) + u64::from(row.reserved)
}

/// So many of the rows at most: those that used most, most first. Of those that used the same the
/// one that stands first goes first.
pub fn top_of(rows: Vec<UsageRow>, count: usize) -> Result<Vec<UsageRow>, AllocError>
    ensures { IfOk result (λ top. IsTop count rows.items top.items) }
{
    let mut rows = rows;
    rows.sort_by(|one, other| used_of(other).cmp(&used_of(one)))?;
    rows.truncate(count);
    Ok(rows)
}
