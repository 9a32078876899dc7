//! The sums of the rows of several servers.
ghost use Rattle.std.specs.Prelude.{◌≡◌, ◌≤◌, ◌<◌, IfOk, IfSome, length};
ghost use Rattle.std.specs.List.{All};
ghost use Rattle.mq_request.specs.Range.{IsRow};
ghost use Rattle.mq_command.specs.Totals.{total, totals};

use mq_request::{Login, UsageRow, UsageRows};
use std::alloc::{AllocError, Global};

/// The sum of the rows in this place of all parts, as a row of this login.
fn total(login: &Login, parts: &[Option<UsageRows>], place: usize) -> Result<UsageRow, AllocError>
    requires few { length parts.now ≤ 4000 }
    requires in_range { All (λ part. IfSome part (All IsRow)) parts.now }
    requires place { All (λ part. IfSome part (λ rows. place < length rows)) parts.now }
    ensures { IfOk result (λ row. row ≡ total parts.now place login.now) }
{
    let mut sum = UsageRow {
        login: login.clone()?,
        settled: 0,
        reserved: 0,
        cap: 0,
    };
    for part in parts {
        if let Some(rows) = part {
            let row = &rows.as_slice()[place];
            sum.settled += row.settled;
            sum.reserved += row.reserved;
            sum.cap += row.cap;
        }
    }
    Ok(sum)
}

/// A row for each login, which has the sum of the rows in its place of all parts. There are 4,000
/// parts at most, so that each sum has a place.
pub fn totals(
    alloc: Global,
    logins: &[Login],
    parts: &[Option<UsageRows>],
) -> Result<Vec<UsageRow>, AllocError>
    requires few { length parts.now ≤ 4000 }
    requires in_range { All (λ part. IfSome part (All IsRow)) parts.now }
    requires counted { All (λ part. IfSome part (λ rows. length rows ≡ length logins.now)) parts.now }
    ensures { IfOk result (λ rows. rows.items ≡ totals parts.now 0 logins.now) }
{
    let mut rows = Vec::new(alloc);
    for (place, login) in logins.iter().enumerate() {
        rows.push(total(login, parts, place)?)?;
    }
    Ok(rows)
}
