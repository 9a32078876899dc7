//! Which logins the lists of several servers have.
ghost use Rattle.std.specs.Prelude.{◌≡◌, ◌++◌, IfOk, IfSome, OnOk, List};
ghost use Rattle.std.specs.List.{All, flat_map};
ghost use Rattle.mq_request.specs.Range.{IsLogin, IsRow};
ghost use Rattle.mq_command.specs.Totals.{AreLogins, names, rows_of};

use mq_request::{Login, UsageRow, UsageRows};
use std::alloc::{AllocError, Global};

/// Appends the logins of rows.
fn push_logins(logins: &mut Vec<Login>, rows: &[UsageRow]) -> Result<(), AllocError>
    ensures { OnOk result (logins.new.items ≡ logins.old.items ++ names rows.now) }
{
    for row in rows {
        logins.push(row.login.clone()?)?;
    }
    Ok(())
}

/// The logins of all rows of the parts, in their order.
fn all_logins(alloc: Global, parts: &[Option<UsageRows>]) -> Result<Vec<Login>, AllocError>
    ensures { IfOk result (λ logins. logins.items ≡ names (flat_map rows_of parts.now)) }
{
    let mut logins = Vec::new(alloc);
    for part in parts {
        if let Some(rows) = part {
            push_logins(&mut logins, rows.as_slice())?;
        }
    }
    Ok(logins)
}

/// The logins of all rows of the parts, each once and ascending.
pub fn logins_of(alloc: Global, parts: &[Option<UsageRows>]) -> Result<Vec<Login>, AllocError>
    requires { All (λ part. IfSome part (All IsRow)) parts.now }
    ensures logins { IfOk result (λ logins. AreLogins (flat_map rows_of parts.now) logins.items) }
    ensures in_range { IfOk result (λ logins. All IsLogin logins.items) }
{
    let mut logins = all_logins(alloc, parts)?;
    logins.sort_by(|one, other| one.as_slice().cmp(other.as_slice()))?;
    logins.dedup();
    Ok(logins)
}
