//! The rows of a page in a body.
ghost use Rattle.mq_frame.specs.Reading.{Reads, row, page};
ghost use Rattle.mq_frame.specs.Shown.{shown_row};
ghost use Rattle.mq_frame.specs.Parts.{shown_page};

use crate::fields::{amount_at, login_at};
use mq_request::bounds::ROW_LIMIT;

/// A row of a page in a body.
#[derive(Clone, Copy)]
pub struct RowParts<'a> {
    /// 1 to 255 bytes.
    pub login: &'a [u8],
    /// Recipients of closed transactions, 0 to 1,000,000.
    pub settled: u32,
    /// Recipients of open transactions, 0 to 1,000,000.
    pub reserved: u32,
    /// The login's limit on that day, 0 to 1,000,000.
    pub cap: u32,
}

/// The rows of a page in a body, read once and found whole.
#[derive(Clone, Copy)]
pub struct PageParts<'a> {
    /// How many rows there are, 0 to 100.
    pub count: u8,
    /// The rows, one after another, and what follows them.
    pub bytes: &'a [u8],
}

/// Login, settled, reserved and cap of a row.
pub fn row_at(bytes: &[u8]) -> Option<(RowParts<'_>, &[u8])>
    ensures { Reads (λ x. (shown_row x.0, x.1.now)) result (row.read bytes.now) }
{
    let (login, rest) = login_at(bytes)?;
    let (settled, rest) = amount_at(rest)?;
    let (reserved, rest) = amount_at(rest)?;
    let (cap, rest) = amount_at(rest)?;
    Some((
        RowParts {
            login,
            settled,
            reserved,
            cap,
        },
        rest,
    ))
}

/// Reads each row, so that a page with a bad one is refused before any of them is copied.
pub fn page_at(bytes: &[u8]) -> Option<(PageParts<'_>, &[u8])>
    ensures { Reads (λ x. (shown_page x.0, x.1.now)) result (page.read bytes.now) }
{
    let (count, rows) = bytes.split_first()?;
    if *count > ROW_LIMIT {
        return None;
    }
    let mut rest = rows;
    for done in 0..*count {
        let (_, after) = row_at(rest)?;
        rest = after;
    }
    Some((
        PageParts {
            count: *count,
            bytes: rows,
        },
        rest,
    ))
}
