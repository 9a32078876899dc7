//! What can go wrong.
use thiserror::Error;

/// Why a line can't be read: the first of these that applies, in this order.
#[derive(Clone, Copy, Debug, PartialEq, Eq, Error)]
pub enum LineFault {
    /// It has fewer fields than a config, report or filter line.
    #[error("line refused: short")]
    Short,
    /// Its protocol version isn't `0.7`.
    #[error("line refused: version")]
    Version,
    /// Its time isn't 1 to 18 decimal digits, a point and 1 to 9 decimal digits.
    #[error("line refused: time")]
    Time,
    /// Its subsystem, its event or phase, its session or its token is empty.
    #[error("line refused: empty field")]
    EmptyField,
}

/// Why a feed can't go on, or can't end.
#[derive(Clone, Copy, Debug, PartialEq, Eq, Error)]
pub enum FeedFault {
    /// More than 65,536 bytes stand without an LF.
    #[error("line too long")]
    TooLong,
    /// Bytes are left over at the end of the text.
    #[error("input ends inside a line")]
    CutLine,
}
