//! The table of a report on a terminal, whose columns are as wide as its figures.
ghost use Rattle.std.specs.Prelude.{◌≡◌, IfOk, string_bytes};
ghost use Rattle.mq_command.specs.Top.{greatest, heading, places_of, table};

use crate::report::COLUMNS;
use crate::report::row::{PLACES, push_right, row_text};
use mq_request::UsageRow;
use std::alloc::{AllocError, Global};

/// The greatest figure of rows.
fn greatest(rows: &[UsageRow]) -> u32
    ensures { result ≡ greatest 0 rows.now }
{
    let mut most = 0;
    for row in rows {
        most = most.max(row.settled).max(row.reserved).max(row.cap);
    }
    most
}

/// How many places each figure of these rows takes: sums of several servers may have more digits
/// than the limit of one.
fn places_of(alloc: Global, rows: &[UsageRow]) -> Result<usize, AllocError>
    ensures { IfOk result (λ places. places ≡ places_of rows.now) }
{
    Ok(greatest(rows).to_string(alloc)?.len().max(PLACES))
}

/// The line above columns of so many places.
fn heading_text(alloc: Global, places: usize) -> Result<String, AllocError>
    ensures { IfOk result (λ line. string_bytes line ≡ heading places) }
{
    if places <= PLACES {
        return String::from_str(alloc, COLUMNS);
    }
    let mut line = String::new(alloc);
    push_right(&mut line, places, "settled")?;
    line.push(' ')?;
    push_right(&mut line, places, "reserved")?;
    line.push(' ')?;
    push_right(&mut line, places, "limit")?;
    line.push_str(" login\n")?;
    Ok(line)
}

/// The table of these rows: a line that says what the columns are, and the line of each row.
pub fn table_text(alloc: Global, rows: &[UsageRow]) -> Result<String, AllocError>
    ensures { IfOk result (λ text. string_bytes text ≡ table rows.now) }
{
    let places = places_of(alloc, rows)?;
    let mut text = heading_text(alloc, places)?;
    for row in rows {
        text.push_str(row_text(alloc, places, row)?.as_str())?;
    }
    Ok(text)
}
