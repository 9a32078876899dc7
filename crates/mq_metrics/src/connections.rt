//! The connections that came, and those that were given up.

use crate::counts::{Counter, Gauge};
use crate::text::{FigureKind, Label, write_head, write_value};
use std::fmt;

/// Why a connection was given up, which ended neither by its peer nor after a time without
/// requests.
#[derive(Clone, Copy, Debug, PartialEq, Eq)]
pub enum GivenUp {
    /// There were too many connections.
    TooMany,
    /// Its peer sent nothing, or not all of a request, for too long.
    Silent,
    /// Its peer took no replies for too long.
    Untaken,
    /// It was answered as often as a connection is.
    Enough,
    /// What came on it is no request.
    BadFrame,
    /// It ended inside a request.
    CutFrame,
    /// A read failed.
    Read,
    /// A write failed.
    Write,
    /// There was no memory for it.
    Memory,
    /// The ledger's store failed.
    Store,
    /// The system refused what it needs.
    System,
}

impl GivenUp {
    /// Each cause, in the order in which they are told.
    const ALL: [GivenUp; 11] = [
        GivenUp::TooMany,
        GivenUp::Silent,
        GivenUp::Untaken,
        GivenUp::Enough,
        GivenUp::BadFrame,
        GivenUp::CutFrame,
        GivenUp::Read,
        GivenUp::Write,
        GivenUp::Memory,
        GivenUp::Store,
        GivenUp::System,
    ];

    fn as_str(self) -> &'static str {
        match self {
            GivenUp::TooMany => "too_many",
            GivenUp::Silent => "silent",
            GivenUp::Untaken => "untaken",
            GivenUp::Enough => "enough",
            GivenUp::BadFrame => "bad_frame",
            GivenUp::CutFrame => "cut_frame",
            GivenUp::Read => "read",
            GivenUp::Write => "write",
            GivenUp::Memory => "memory",
            GivenUp::Store => "store",
            GivenUp::System => "system",
        }
    }
}

/// How many connections came, how many are open, and how many were given up.
#[derive(Default, Drop)]
pub struct ConnectionCounts {
    pub open: Gauge,
    pub accepted: Counter,
    too_many: Counter,
    silent: Counter,
    untaken: Counter,
    enough: Counter,
    bad_frame: Counter,
    cut_frame: Counter,
    read: Counter,
    write: Counter,
    memory: Counter,
    store: Counter,
    system: Counter,
}

impl ConnectionCounts {
    /// None came yet.
    pub fn new() -> ConnectionCounts {
        ConnectionCounts::default()
    }

    /// How many were given up for this cause.
    pub fn given_up(&self, cause: GivenUp) -> &Counter {
        match cause {
            GivenUp::TooMany => &self.too_many,
            GivenUp::Silent => &self.silent,
            GivenUp::Untaken => &self.untaken,
            GivenUp::Enough => &self.enough,
            GivenUp::BadFrame => &self.bad_frame,
            GivenUp::CutFrame => &self.cut_frame,
            GivenUp::Read => &self.read,
            GivenUp::Write => &self.write,
            GivenUp::Memory => &self.memory,
            GivenUp::Store => &self.store,
            GivenUp::System => &self.system,
        }
    }

    /// Those that were given up, as the figure of this name in the text format.
    pub fn write_given_up<W: fmt::Write>(
        &self,
        f: &mut fmt::Formatter<W>,
        name: &str,
        help: &str,
    ) -> fmt::Result {
        write_head(f, name, FigureKind::Counter, help)?;
        for cause in &GivenUp::ALL {
            let label = Label {
                name: "cause",
                value: cause.as_str(),
            };
            write_value(f, name, &[label], &self.given_up(*cause).get())?;
        }
        Ok(())
    }
}
