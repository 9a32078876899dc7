//! The text of figures. Label values, heads and histograms are those of the examples in Prometheus'
//! description of its text format.

use crate::server_end::asserts::{assert_shown, assert_text, assert_that};
use log::sink::Memory as Kept;
use log::{Level, Logged, debug, error, warn};
use mq_metrics::text::{FigureKind, Label, Seconds, write_head, write_value};
use mq_metrics::{
    CountedLog, Counter, Gauge, GivenUp, Histogram, RequestKind, RequestResult, ServerBuild,
    ServerMetrics, WarningCounts,
};
use std::alloc::{AllocError, Global};
use std::fmt;
use std::test::Fail;
use std::time::Duration;

/// A value of a figure, with labels.
struct Escaped;

impl fmt::Display for Escaped {
    fn fmt<W: fmt::Write>(&self, f: &mut fmt::Formatter<W>) -> fmt::Result {
        let labels = [
            Label {
                name: "path",
                value: "C:\\DIR\\FILE.TXT",
            },
            Label {
                name: "error",
                value: "Cannot find file:\n\"FILE.TXT\"",
            },
        ];
        write_value(
            f,
            "msdos_file_access_time_seconds",
            &labels,
            &1_458_255_915u64,
        )
    }
}

/// The head of a figure.
#[derive(Drop)]
struct Head(&'static str);

impl fmt::Display for Head {
    fn fmt<W: fmt::Write>(&self, f: &mut fmt::Formatter<W>) -> fmt::Result {
        write_head(f, "http_requests_total", FigureKind::Counter, self.0)
    }
}

/// Times of requests.
#[derive(Drop)]
struct Times(Histogram);

impl fmt::Display for Times {
    fn fmt<W: fmt::Write>(&self, f: &mut fmt::Formatter<W>) -> fmt::Result {
        let name = "http_request_duration_seconds";
        self.0
            .write(f, name, "A histogram of the request duration.")
    }
}

/// A gauge of milliseconds, and one that may be unknown.
#[derive(Drop)]
struct Gauges(Gauge, Gauge);

impl fmt::Display for Gauges {
    fn fmt<W: fmt::Write>(&self, f: &mut fmt::Formatter<W>) -> fmt::Result {
        self.0.write_millis(f, "since_seconds", "Since when.")?;
        self.1.write(f, "answers", "How many.")
    }
}

#[test]
fn labels_are_escaped(rt: HostRuntime) {
    let line =
        "msdos_file_access_time_seconds{path=\"C:\\\\DIR\\\\FILE.TXT\",error=\"Cannot find file:\\n\\\"FILE.TXT\\\"\"} 1458255915\n";
    assert_shown(&rt, rt.alloc(), &Escaped, line);
}

#[test]
fn a_head_says_what_a_figure_is(rt: HostRuntime) {
    let alloc = rt.alloc();
    let head =
        "# HELP http_requests_total The total number of HTTP requests.\n# TYPE http_requests_total counter\n";
    let help = Head("The total number of HTTP requests.");
    assert_shown(&rt, alloc, &help, head);
    // Quotes stay as they are.
    let head =
        "# HELP http_requests_total a \\\\ and a\\nsecond \"line\"\n# TYPE http_requests_total counter\n";
    assert_shown(&rt, alloc, &Head("a \\ and a\nsecond \"line\""), head);
}

#[test]
fn a_histogram_counts_what_was_within_each_bound(rt: HostRuntime) {
    let times = Histogram::new();
    for micros in [0, 1_000, 1_001, 5_000, 20_001, 99_999, 500_000, 2_000_001] {
        times.observe(Duration::from_micros(micros));
    }
    assert_that(&rt, times.count() == 8, "all are counted");
    let text = "\
# HELP http_request_duration_seconds A histogram of the request duration.
# TYPE http_request_duration_seconds histogram
http_request_duration_seconds_bucket{le=\"0.001\"} 2
http_request_duration_seconds_bucket{le=\"0.005\"} 4
http_request_duration_seconds_bucket{le=\"0.02\"} 4
http_request_duration_seconds_bucket{le=\"0.1\"} 6
http_request_duration_seconds_bucket{le=\"0.5\"} 7
http_request_duration_seconds_bucket{le=\"2\"} 7
http_request_duration_seconds_bucket{le=\"+Inf\"} 8
http_request_duration_seconds_sum 2.627002000
http_request_duration_seconds_count 8
";
    assert_shown(&rt, rt.alloc(), &Times(times), text);
}

#[test]
fn seconds_have_nine_places(rt: HostRuntime) {
    let time = Seconds(Duration::from_nanos(61_000_000_007));
    assert_shown(&rt, rt.alloc(), &time, "61.000000007");
}

#[test]
fn a_counter_stays_at_its_end(rt: HostRuntime) {
    let counter = Counter::new();
    counter.add(u64::MAX);
    counter.increment();
    assert_that(&rt, counter.get() == u64::MAX, "it doesn't begin again");
}

#[test]
fn what_isnt_known_has_no_line(rt: HostRuntime) {
    let alloc = rt.alloc();
    let gauges = Gauges(Gauge::new(), Gauge::new());
    assert_shown(&rt, alloc, &gauges, "");
    gauges.0.set(1_576_105_200_250);
    gauges.1.set(7);
    let text = "\
# HELP since_seconds Since when.
# TYPE since_seconds gauge
since_seconds 1576105200.250000000
# HELP answers How many.
# TYPE answers gauge
answers 7
";
    assert_shown(&rt, alloc, &gauges, text);
    gauges.0.clear();
    gauges.1.set(0);
    let text = "# HELP answers How many.\n# TYPE answers gauge\nanswers 0\n";
    assert_shown(&rt, alloc, &gauges, text);
}

/// What counts for a server of this zone.
fn metrics_of(alloc: Global, zone: &str) -> Result<ServerMetrics, AllocError> {
    Ok(ServerMetrics::new(ServerBuild {
        version: String::from_str(alloc, "1.1.0")?,
        zone: String::from_str(alloc, zone)?,
    }))
}

#[test]
fn a_server_tells_its_figures(rt: HostRuntime) -> Result<(), Fail> {
    let alloc = rt.alloc();
    let metrics = metrics_of(alloc, "CET-1CEST,M3.5.0,M10.5.0/3")?;
    metrics
        .requests
        .of(RequestKind::Reserve, RequestResult::Full)
        .add(3);
    metrics.granted.add(12);
    metrics.connections.given_up(GivenUp::CutFrame).increment();
    metrics.log_bytes.set(32_768);
    metrics.warnings.count(Level::Warn, "mq_watch::watched");
    metrics.night.day.set(18_242);
    let text = format!(in alloc; "{metrics}")?;
    for line in [
        "mailquota_server_info{version=\"1.1.0\",zone=\"CET-1CEST,M3.5.0,M10.5.0/3\"} 1",
        "mailquota_server_requests_total{kind=\"reserve\",result=\"full\"} 3",
        "mailquota_server_requests_total{kind=\"reserve\",result=\"granted\"} 0",
        "mailquota_server_requests_total{kind=\"list\",result=\"failed\"} 0",
        "mailquota_server_recipients_granted_total 12",
        "mailquota_server_recipients_released_total 0",
        "mailquota_server_connections_given_up_total{cause=\"cut_frame\"} 1",
        "mailquota_server_connections_given_up_total{cause=\"silent\"} 0",
        "mailquota_server_commit_seconds_count 0",
        "mailquota_server_file_bytes{file=\"log\"} 32768",
        "mailquota_server_warnings_total{level=\"warn\",part=\"requests\"} 1",
        "mailquota_server_warnings_total{level=\"error\",part=\"requests\"} 0",
        "mailquota_server_last_night_day 18242",
    ] {
        let found = text.as_str().lines().filter(|it| *it == line);
        assert_that(&rt, found.count() == 1, line);
    }
    for name in [
        "file=\"ledger\"",
        "last_night_seconds",
        "result=\"ahead\",kind",
    ] {
        assert_that(&rt, !text.as_str().contains(name), name);
    }
    assert_that(
        &rt,
        text.as_str().ends_with('\n'),
        "the last line has an end",
    );
    Ok(())
}

/// Warnings are counted also where the log drops them, and what is no warning isn't.
#[test]
fn warnings_are_counted_by_part(rt: HostRuntime) -> Result<(), Fail> {
    let alloc = rt.alloc();
    let counts = WarningCounts::new();
    let kept = Kept::new(alloc);
    let errors = Logged::new(&rt, Level::Error, &kept);
    let log = CountedLog::new(&errors, &counts);
    warn!(log; target: "mq_program::caretaker", "a disk");
    warn!(log; target: "mq_program::caretaker", "a disk");
    error!(log; target: "mq_connections::room", "a connection");
    warn!(log; target: "mq_permits_file", "a host");
    warn!(log; target: "mq_program::serving", "a listener");
    debug!(log; target: "mq_watch::watched", "a limit");
    let lines = kept.into_lines();
    assert_that(&rt, lines.len() == 1, "the level of the log holds");
    assert_text(
        &rt,
        lines.as_slice()[0].as_str(),
        "[ERROR mq_connections::room] a connection",
    );
    let text = format!(in alloc; "{}", Warnings(&counts))?;
    for line in text.as_str().lines() {
        let wanted = match line {
            "w{level=\"warn\",part=\"disk\"} 2" => true,
            "w{level=\"error\",part=\"connections\"} 1" => true,
            "w{level=\"warn\",part=\"settings\"} 1" => true,
            "w{level=\"warn\",part=\"server\"} 1" => true,
            other => other.starts_with('#') || other.ends_with("} 0"),
        };
        assert_that(&rt, wanted, line);
    }
    Ok(())
}

/// The warnings that were counted.
#[derive(Drop)]
struct Warnings<'a>(&'a WarningCounts);

impl fmt::Display for Warnings<'_> {
    fn fmt<W: fmt::Write>(&self, f: &mut fmt::Formatter<W>) -> fmt::Result {
        self.0.write(f, "w", "Warnings.")
    }
}
