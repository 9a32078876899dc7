//! The end of a transaction: which one, and whether smtpd took its message.

/// How a transaction ended.
#[derive(Clone, Copy, Debug, PartialEq, Eq)]
pub enum CloseEnd {
    /// smtpd took the message.
    Commit,
    /// It was rolled back or reset, its session left, or another began in its place.
    Rollback,
}

/// The end of a transaction that was open.
#[derive(Clone, Copy, Debug, PartialEq, Eq)]
pub struct Closing {
    /// The transaction's number, from 1 on.
    pub txn: u32,
    /// Whether smtpd took its message.
    pub end: CloseEnd,
}
