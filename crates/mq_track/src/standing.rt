//! How a session stands: with a login or without, with a transaction or without.

/// How a session stands.
#[derive(Clone, Copy, Debug, PartialEq, Eq)]
pub enum Standing<'a> {
    /// It has no login. An open transaction of such a session isn't shown.
    Anonymous,
    /// It has a login and no open transaction.
    Login {
        login: &'a [u8],
    },
    /// It has both. `txn` counts the transactions of all sessions, and `moment` is the moment
    /// at which this one began, in whole seconds since 1970-01-01T00:00:00Z.
    Open {
        login: &'a [u8],
        txn: u32,
        moment: u64,
    },
}
