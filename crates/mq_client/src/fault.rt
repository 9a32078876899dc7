//! What can go wrong.
use mq_line::LineFault;
use mq_track::TrackFault;
use thiserror::Error;

/// Why the filter stopped.
#[derive(Clone, Copy, Debug, PartialEq, Eq, Error)]
pub enum FilterFault {
    /// A line that can't be read.
    #[error("{0}")]
    Line(LineFault),
    /// A report that can't be accepted; where memory ran out it is `Memory`.
    #[error("{0}")]
    Track(TrackFault),
    /// A report or a request before `config|ready`.
    #[error("line before config ready")]
    NotReady,
    /// The input ended before `config|ready`.
    #[error("input ended before config ready")]
    EndedEarly,
    /// The input ended inside a line.
    #[error("input ends inside a line")]
    CutLine,
    /// More than 65,536 bytes without an LF.
    #[error("line too long")]
    TooLong,
    /// The input failed, or 1,099,511,627,776 reads were made.
    #[error("read failed")]
    Read,
    /// The output failed.
    #[error("write failed")]
    Write,
    #[error("out of memory")]
    Memory,
}
