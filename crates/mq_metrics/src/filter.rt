//! The filter's figures.

use crate::counts::{Counter, Gauge};
use crate::text::{FigureKind, Label, Seconds, write_figure, write_head, write_value};
use std::fmt;
use std::time::Duration;

/// How many requests of smtpd were answered, by what they came to.
#[derive(Default, Drop)]
pub struct AnswerCounts {
    pub proceed: Counter,
    pub no_login: Counter,
    pub limit: Counter,
    pub service: Counter,
    pub spelling: Counter,
}

/// How many recipients were answered without asking the server, by what they were answered.
#[derive(Default, Drop)]
pub struct HeldBackCounts {
    pub limit: Counter,
    pub service: Counter,
}

/// How many frames were sent, by how their exchange ended.
#[derive(Default, Drop)]
pub struct ExchangeCounts {
    pub answer: Counter,
    pub no_answer: Counter,
    pub timed_out: Counter,
    pub down: Counter,
    pub memory: Counter,
}

/// What a filter counts. Each method and field counts through a `&`.
#[derive(Default, Drop)]
pub struct FilterMetrics {
    pub answers: AnswerCounts,
    pub held_back: HeldBackCounts,
    pub requests: Counter,
    pub timeouts: Counter,
    pub pauses: Counter,
    pub exchanges: ExchangeCounts,
    /// What the exchanges took together, in nanoseconds.
    pub waited: Counter,
    /// The second since 1970 in which the server answered last.
    pub last_answer: Gauge,
    pub open_transactions: Gauge,
    pub waiting_closings: Gauge,
    /// 1 or 0: a server refused the latest request that was decided, since the run is retired.
    pub run_retired: Gauge,
}

impl FilterMetrics {
    /// Nothing is counted yet, and no run is known to be retired.
    pub fn new() -> FilterMetrics {
        let metrics = FilterMetrics::default();
        metrics.run_retired.set(0);
        metrics
    }
}

/// The figures of a filter at a moment, which are displayed in the text format.
#[derive(Clone, Copy)]
pub struct FilterFigures<'a> {
    pub metrics: &'a FilterMetrics,
    /// The program's version.
    pub version: &'a str,
    /// The name under which the host asks.
    pub host: &'a str,
    /// The second since 1970 at which the filter began, where the clock could be read.
    pub start: Option<u64>,
    /// The second of the moment.
    pub now: u64,
    /// The filter goes on: it hasn't come to its end.
    pub runs: bool,
}

impl fmt::Display for FilterFigures<'_> {
    fn fmt<W: fmt::Write>(&self, f: &mut fmt::Formatter<W>) -> fmt::Result {
        self.write_program(f)?;
        let metrics = self.metrics;
        write_answers(f, &metrics.answers)?;
        write_held_back(f, &metrics.held_back)?;
        write_requests(f, metrics)?;
        write_exchanges(f, metrics)?;
        write_state(f, metrics)
    }
}

impl FilterFigures<'_> {
    /// What runs, and since when.
    fn write_program<W: fmt::Write>(&self, f: &mut fmt::Formatter<W>) -> fmt::Result {
        let labels = [label("version", self.version), label("host", self.host)];
        let name = "mailquota_filter_info";
        write_head(
            f,
            name,
            FigureKind::Gauge,
            "The filter's version, and its host.",
        )?;
        write_value(f, name, &labels, &1)?;
        write_gauge(
            f,
            "mailquota_filter_running",
            "Whether the filter runs: 0 since its end.",
            Some(u64::from(self.runs)),
        )?;
        write_gauge(
            f,
            "mailquota_filter_start_time_seconds",
            "When the filter began.",
            self.start,
        )?;
        write_gauge(
            f,
            "mailquota_filter_written_time_seconds",
            "When this was written.",
            Some(self.now),
        )
    }
}

/// How requests of smtpd were answered.
fn write_answers<W: fmt::Write>(f: &mut fmt::Formatter<W>, answers: &AnswerCounts) -> fmt::Result {
    let name = "mailquota_filter_answers_total";
    let help = "Requests of smtpd that were answered: proceed; no_login, the same without a login; \
        550; 451; spelling, 451 as nothing can be asked of such a login.";
    write_head(f, name, FigureKind::Counter, help)?;
    for (answer, count) in [
        ("proceed", &answers.proceed),
        ("no_login", &answers.no_login),
        ("550", &answers.limit),
        ("451", &answers.service),
        ("spelling", &answers.spelling),
    ] {
        write_value(f, name, &[label("answer", answer)], &count.get())?;
    }
    Ok(())
}

/// How many recipients were held back.
fn write_held_back<W: fmt::Write>(
    f: &mut fmt::Formatter<W>,
    counts: &HeldBackCounts,
) -> fmt::Result {
    let name = "mailquota_filter_held_back_total";
    let help = "Recipients that were answered without asking: 451 in a pause, 550 by hold.";
    write_head(f, name, FigureKind::Counter, help)?;
    write_value(f, name, &[label("answer", "451")], &counts.service.get())?;
    write_value(f, name, &[label("answer", "550")], &counts.limit.get())
}

/// How many requests were made, and what came of those that got no answer.
fn write_requests<W: fmt::Write>(
    f: &mut fmt::Formatter<W>,
    metrics: &FilterMetrics,
) -> fmt::Result {
    write_counter(
        f,
        "mailquota_filter_requests_total",
        "Numbered requests to the server, each sent in one or several exchanges.",
        &metrics.requests,
    )?;
    write_counter(
        f,
        "mailquota_filter_timeouts_total",
        "Requests of which no try was answered, and one ran out of time.",
        &metrics.timeouts,
    )?;
    write_counter(
        f,
        "mailquota_filter_pauses_total",
        "Pauses that began.",
        &metrics.pauses,
    )
}

/// What the exchanges with the server came to, and how long they took.
fn write_exchanges<W: fmt::Write>(
    f: &mut fmt::Formatter<W>,
    metrics: &FilterMetrics,
) -> fmt::Result {
    let counts = &metrics.exchanges;
    let name = "mailquota_filter_exchanges_total";
    let help = "Frames that were sent: answer; no_answer, a reply that answers nothing; timeout; \
        down; memory, no room for the reply.";
    write_head(f, name, FigureKind::Counter, help)?;
    for (outcome, count) in [
        ("answer", &counts.answer),
        ("no_answer", &counts.no_answer),
        ("timeout", &counts.timed_out),
        ("down", &counts.down),
        ("memory", &counts.memory),
    ] {
        write_value(f, name, &[label("outcome", outcome)], &count.get())?;
    }
    write_figure(
        f,
        "mailquota_filter_waited_seconds_total",
        FigureKind::Counter,
        "How long the exchanges took.",
        &Seconds(Duration::from_nanos(metrics.waited.get())),
    )
}

/// Where the filter stands.
fn write_state<W: fmt::Write>(f: &mut fmt::Formatter<W>, metrics: &FilterMetrics) -> fmt::Result {
    write_gauge(
        f,
        "mailquota_filter_last_answer_time_seconds",
        "When the server answered last.",
        metrics.last_answer.get(),
    )?;
    write_gauge(
        f,
        "mailquota_filter_open_transactions",
        "Transactions with a recipient that was asked for, and without an end yet.",
        metrics.open_transactions.get(),
    )?;
    write_gauge(
        f,
        "mailquota_filter_waiting_closings",
        "Ends of transactions that the server doesn't know yet.",
        metrics.waiting_closings.get(),
    )?;
    write_gauge(
        f,
        "mailquota_filter_run_retired",
        "Whether the server refuses the run as retired.",
        metrics.run_retired.get(),
    )
}

/// A figure that only grows.
fn write_counter<W: fmt::Write>(
    f: &mut fmt::Formatter<W>,
    name: &str,
    help: &str,
    counter: &Counter,
) -> fmt::Result {
    write_figure(f, name, FigureKind::Counter, help, &counter.get())
}

/// A figure that goes up and down, where it is known.
fn write_gauge<W: fmt::Write>(
    f: &mut fmt::Formatter<W>,
    name: &str,
    help: &str,
    figure: Option<u64>,
) -> fmt::Result {
    match figure {
        Some(figure) => write_figure(f, name, FigureKind::Gauge, help, &figure),
        None => Ok(()),
    }
}

fn label<'a>(name: &'a str, value: &'a str) -> Label<'a> {
    Label { name, value }
}
