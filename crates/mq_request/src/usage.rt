//! The rows of a list's page: what a login has used on a day.
ghost use Rattle.std.specs.Prelude.{◌≡◌};

use crate::text::Login;
use std::alloc::AllocError;
use std::marker::Model;

/// What a login has used on a day, and its limit.
#[derive(Clone, Debug, Drop)]
pub struct UsageRow {
    /// 1 to 255 bytes.
    pub login: Login,
    /// Recipients of committed transactions, 0 to 1,000,000.
    pub settled: u32,
    /// Recipients of open transactions, 0 to 1,000,000.
    pub reserved: u32,
    /// The login's limit on that day, 0 to 1,000,000.
    pub cap: u32,
}

impl PartialEq for UsageRow {
    ghost use Rattle.mq_request.specs.Row.{same_row, same_row_laws};

    ghost eq = { same_row };

    ghost laws = { same_row_laws };

    fn eq(&self, other: &UsageRow) -> bool {
        self.login == other.login
            && self.settled == other.settled
            && self.reserved == other.reserved
            && self.cap == other.cap
    }
}

/// The rows of one page of a list.
#[derive(Debug, Drop)]
pub struct UsageRows {
    rows: Vec<UsageRow>,
}

impl Model for UsageRows {
    ghost use Rattle.std.specs.Prelude.{List};
    ghost use Rattle.mq_request.specs.declared.usage.UsageRow.{UsageRow};

    ghost Value = { List UsageRow };

    ghost view = { λ page. page.rows.items };
}

impl UsageRows {
    /// A page of these rows. One of at most 100 has a place in a frame.
    pub fn new(rows: Vec<UsageRow>) -> UsageRows
        ensures { result ≡ rows.items }
    {
        UsageRows { rows }
    }

    /// The rows, out of the page.
    pub fn into_rows(self) -> Vec<UsageRow>
        ensures { result.items ≡ self }
    {
        let UsageRows { rows } = self;
        rows
    }

    /// The rows, in their order.
    pub fn as_slice(&self) -> &[UsageRow]
        ensures { result.now ≡ self.now }
    {
        self.rows.as_slice()
    }
}

impl Clone for UsageRows {
    ghost is_clone = { λ a b. b ≡ a };

    fn clone(&self) -> Result<UsageRows, AllocError> {
        Ok(UsageRows {
            rows: self.rows.clone()?,
        })
    }
}

impl PartialEq for UsageRows {
    ghost use Rattle.mq_request.specs.Row.{same_rows, same_rows_laws};

    ghost eq = { same_rows };

    ghost laws = { same_rows_laws };

    fn eq(&self, other: &UsageRows) -> bool {
        self.rows == other.rows
    }
}
