//! The log of a filter that counts what it does, and has the figures written.

use crate::seconds::seconds_now;
use log::kv::Source;
use log::span::Spans;
use log::{Log, Metadata, Record, warn};
use mq_client::{AnswerKind, Client, FilterEvent, Observer};
use mq_metrics::{FilterFigures, FilterMetrics, MetricsFile};
use mq_process::WallClock;
use mq_settings::FilterSettings;
use std::fmt::Display;
use std::rt::Files;

/// The log of a filter that counts what it does. Where its settings name a file of figures, they are
/// written as it begins, once it has handled the first lines of a minute, and at its end.
#[derive(Drop)]
pub struct MeasuredLog<'a, R, G> {
    rt: &'a R,
    log: &'a G,
    metrics: &'a FilterMetrics,
    version: &'a str,
    host: &'a str,
    file: Option<MetricsFile<'a>>,
    /// The second since 1970 at which the filter began, where the clock can be read.
    start: Option<u64>,
}

impl<'a, R: Files + WallClock + AllocGlobal, G: Log> MeasuredLog<'a, R, G> {
    /// The log, of a filter of this version that begins now.
    pub fn new(
        rt: &'a R,
        log: &'a G,
        metrics: &'a FilterMetrics,
        version: &'a str,
        settings: &'a FilterSettings,
    ) -> MeasuredLog<'a, R, G> {
        MeasuredLog {
            rt,
            log,
            metrics,
            version,
            // (a text of settings is UTF-8)
            host: str::from_utf8(settings.host.as_slice()).unwrap_or_default(),
            file: settings.metrics.as_deref().map(MetricsFile::new),
            start: seconds_now(rt),
        }
    }

    /// The filter ends, with what the client leaves.
    pub fn end(&self, client: &Client) {
        self.note(client.held_count(), client.outbox_count());
        if let (Some(file), Some(now)) = (&self.file, seconds_now(self.rt)) {
            self.write(file, now, false);
        }
    }

    /// Writes the figures at this second into their file. A file that can't be written has a warning
    /// an hour, and the filter goes on.
    fn write(&self, file: &MetricsFile<'_>, now: u64, runs: bool) {
        if let Some(unwritten) = file.write(self.rt, now, &self.figures(now, runs)) {
            warn!(self.log; "{unwritten}");
        }
    }

    /// Notes how many transactions are open, and how many closings wait.
    fn note(&self, open: usize, waiting: usize) {
        self.metrics.open_transactions.set(open as u64);
        self.metrics.waiting_closings.set(waiting as u64);
    }

    fn figures(&self, now: u64, runs: bool) -> FilterFigures<'_> {
        FilterFigures {
            metrics: self.metrics,
            version: self.version,
            host: self.host,
            start: self.start,
            now,
            runs,
        }
    }

    /// Counts a request of smtpd.
    fn count_answer(&self, kind: AnswerKind) {
        let answers = &self.metrics.answers;
        match kind {
            AnswerKind::Proceed => answers.proceed.increment(),
            AnswerKind::NoLogin => answers.no_login.increment(),
            AnswerKind::Limit => answers.limit.increment(),
            AnswerKind::Service => answers.service.increment(),
            AnswerKind::Spelling => answers.spelling.increment(),
        }
    }

    /// Counts a recipient that is held back.
    fn count_held_back(&self, kind: AnswerKind) {
        let held_back = &self.metrics.held_back;
        match kind {
            AnswerKind::Limit => held_back.limit.increment(),
            _ => held_back.service.increment(),
        }
    }
}

impl<R: Files + WallClock + AllocGlobal, G: Log> Log for MeasuredLog<'_, R, G> {
    fn enabled(&self, metadata: &Metadata<'_>) -> bool {
        self.log.enabled(metadata)
    }

    fn log<D: Display, K: Source, S: Spans>(&self, record: &Record<'_, D, K, S>) {
        self.log.log(record);
    }

    fn flush(&self) {
        self.log.flush();
    }

    fn target(&self) -> &str {
        self.log.target()
    }
}

impl<R: Files + WallClock + AllocGlobal, G: Log> Observer for MeasuredLog<'_, R, G> {
    fn observe(&self, event: FilterEvent) {
        match event {
            FilterEvent::Answered(kind) => self.count_answer(kind),
            FilterEvent::HeldBack(kind) => self.count_held_back(kind),
            FilterEvent::Numbered => self.metrics.requests.increment(),
            FilterEvent::TimedOut => self.metrics.timeouts.increment(),
            FilterEvent::Paused => self.metrics.pauses.increment(),
            FilterEvent::Decided { is_retired } => {
                self.metrics.run_retired.set(u64::from(is_retired));
            }
        }
    }

    fn rest(&self, open: usize, waiting: usize) {
        self.note(open, waiting);
        if let Some(file) = &self.file {
            match seconds_now(self.rt) {
                Some(now) if file.is_due(now) => self.write(file, now, true),
                _ => {}
            }
        }
    }
}
