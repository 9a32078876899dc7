//! A log whose warnings are counted.

use crate::warnings::WarningCounts;
use log::kv::Source;
use log::span::Spans;
use log::{Level, Log, Metadata, Record};
use std::fmt::Display;

/// A log that counts the warnings and errors that come to it, and hands each record on. They are
/// counted whatever the other log drops for its level.
#[derive(Drop)]
pub struct CountedLog<'a, G> {
    log: &'a G,
    counts: &'a WarningCounts,
}

impl<'a, G> CountedLog<'a, G> {
    /// The log, with what counts its warnings.
    pub fn new(log: &'a G, counts: &'a WarningCounts) -> CountedLog<'a, G> {
        CountedLog { log, counts }
    }
}

impl<G: Log> Log for CountedLog<'_, G> {
    fn enabled(&self, metadata: &Metadata<'_>) -> bool {
        matches!(metadata.level(), Level::Error | Level::Warn) || self.log.enabled(metadata)
    }

    fn log<D: Display, K: Source, S: Spans>(&self, record: &Record<'_, D, K, S>) {
        let metadata = record.metadata();
        self.counts.count(metadata.level(), metadata.target());
        self.log.log(record);
    }

    fn flush(&self) {
        self.log.flush();
    }

    fn target(&self) -> &str {
        self.log.target()
    }
}
