//! Counters and gauges.

use crate::text::{FigureKind, Seconds, write_figure};
use std::cell::Cell;
use std::fmt;
use std::time::Duration;

/// How often something happened: it only grows, and stays at its greatest value.
#[derive(Default, Drop)]
pub struct Counter {
    count: Cell<u64>,
}

impl Counter {
    /// Nothing happened yet.
    pub fn new() -> Counter {
        Counter {
            count: Cell::new(0),
        }
    }

    /// It happened once more.
    pub fn increment(&self) {
        self.add(1);
    }

    /// It happened so many times more.
    pub fn add(&self, times: u64) {
        self.count.set(self.count.get().saturating_add(times));
    }

    pub fn get(&self) -> u64 {
        self.count.get()
    }

    /// The figure of this name in the text format.
    pub fn write<W: fmt::Write>(
        &self,
        f: &mut fmt::Formatter<W>,
        name: &str,
        help: &str,
    ) -> fmt::Result {
        write_figure(f, name, FigureKind::Counter, help, &self.get())
    }
}

/// A figure that goes up and down, once it is known.
#[derive(Default, Drop)]
pub struct Gauge {
    figure: Cell<Option<u64>>,
}

impl Gauge {
    /// It isn't known yet.
    pub fn new() -> Gauge {
        Gauge {
            figure: Cell::new(None),
        }
    }

    /// It is this one now.
    pub fn set(&self, figure: u64) {
        self.figure.set(Some(figure));
    }

    /// It isn't known any more.
    pub fn clear(&self) {
        self.figure.set(None);
    }

    pub fn get(&self) -> Option<u64> {
        self.figure.get()
    }

    /// The figure of this name in the text format, where it is known.
    pub fn write<W: fmt::Write>(
        &self,
        f: &mut fmt::Formatter<W>,
        name: &str,
        help: &str,
    ) -> fmt::Result {
        match self.get() {
            Some(figure) => write_figure(f, name, FigureKind::Gauge, help, &figure),
            None => Ok(()),
        }
    }

    /// The same of one that counts milliseconds, in seconds.
    pub fn write_millis<W: fmt::Write>(
        &self,
        f: &mut fmt::Formatter<W>,
        name: &str,
        help: &str,
    ) -> fmt::Result {
        match self.get() {
            Some(millis) => {
                let seconds = Seconds(Duration::from_millis(millis));
                write_figure(f, name, FigureKind::Gauge, help, &seconds)
            }
            None => Ok(()),
        }
    }
}
