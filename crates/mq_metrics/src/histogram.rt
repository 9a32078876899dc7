//! How long something took, by bounds.

use crate::counts::Counter;
use crate::text::{FigureKind, Label, Seconds, write_head, write_suffixed};
use std::fmt;
use std::time::Duration;

/// An upper bound of times.
struct Bound {
    millis: u64,
    /// The same in seconds, as a label says it.
    seconds: &'static str,
}

/// The bounds, from the least on.
static BOUNDS: [Bound; 6] = [
    Bound {
        millis: 1,
        seconds: "0.001",
    },
    Bound {
        millis: 5,
        seconds: "0.005",
    },
    Bound {
        millis: 20,
        seconds: "0.02",
    },
    Bound {
        millis: 100,
        seconds: "0.1",
    },
    Bound {
        millis: 500,
        seconds: "0.5",
    },
    Bound {
        millis: 2_000,
        seconds: "2",
    },
];

/// How often something took how long, by the bounds 1, 5, 20, 100 and 500 milliseconds and 2
/// seconds.
#[derive(Default, Drop)]
pub struct Histogram {
    /// How many were within the bound at their place, and above the one before.
    within: [Counter; 6],
    /// How many there were.
    count: Counter,
    /// What they took together, in nanoseconds.
    nanos: Counter,
}

impl Histogram {
    /// Nothing was timed yet.
    pub fn new() -> Histogram {
        Histogram::default()
    }

    /// Something took so long.
    pub fn observe(&self, time: Duration) {
        self.count.increment();
        self.nanos
            .add(u64::try_from(time.as_nanos()).unwrap_or(u64::MAX));
        for (within, bound) in self.within.iter().zip(&BOUNDS) {
            if time <= Duration::from_millis(bound.millis) {
                within.increment();
                return;
            }
        }
    }

    /// How many were timed.
    pub fn count(&self) -> u64 {
        self.count.get()
    }

    /// The figure of this name in the text format: for each bound how many were within it.
    pub fn write<W: fmt::Write>(
        &self,
        f: &mut fmt::Formatter<W>,
        name: &str,
        help: &str,
    ) -> fmt::Result {
        write_head(f, name, FigureKind::Histogram, help)?;
        let mut within = 0u64;
        for (more, bound) in self.within.iter().zip(&BOUNDS) {
            within = within.saturating_add(more.get());
            write_suffixed(f, name, "_bucket", &[up_to(bound.seconds)], &within)?;
        }
        let count = self.count.get();
        write_suffixed(f, name, "_bucket", &[up_to("+Inf")], &count)?;
        let sum = Seconds(Duration::from_nanos(self.nanos.get()));
        write_suffixed(f, name, "_sum", &[], &sum)?;
        write_suffixed(f, name, "_count", &[], &count)
    }
}

/// The label of what took so many seconds at most.
fn up_to(seconds: &str) -> Label<'_> {
    Label {
        name: "le",
        value: seconds,
    }
}
