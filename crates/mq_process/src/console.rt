//! Where log lines go.

use log::kv::Source;
use log::span::Spans;
use log::{Line, Log, Metadata, Record};
use mq_metrics::ProgramPart;
use std::fmt::Display;

/// Writes each record to the standard error of `R`, under the part of the program that it is of in
/// place of its module: whoever reads a log knows the one, and modules may be renamed.
#[derive(Clone, Copy, Debug, Drop)]
pub struct Console<R>(pub R);

impl<R: Eprint> Log for Console<R> {
    fn enabled(&self, _metadata: &Metadata<'_>) -> bool {
        true
    }

    fn log<D: Display, K: Source, S: Spans>(&self, record: &Record<'_, D, K, S>) {
        let part = ProgramPart::of_target(record.target());
        let metadata = Metadata::new(record.level(), part.as_str());
        let named = Record::new(metadata, record.args(), record.key_values(), record.spans());
        // (there is nowhere to say that standard error takes nothing)
        let _ = self.0.eprintln(Line::new(&named));
    }

    fn flush(&self) {}

    fn target(&self) -> &str {
        ""
    }
}
