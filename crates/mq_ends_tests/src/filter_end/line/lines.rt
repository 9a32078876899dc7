//! Lines taken apart, and the parameters of reports.

use crate::filter_end::asserts::assert_that;
use mq_line::{AuthResult, Line, LineFault, auth_of, message_of, read_line};
use std::process::Abort;

/// What a line says, or why it can't be read.
type Read = Result<Line<'static>, LineFault>;

fn assert_reads(rt: &impl Abort, line: &str, wanted: Read) {
    assert_that(rt, read_line(line.as_bytes()) == wanted, line);
}

fn assert_lines(rt: &impl Abort, rows: &[(&str, Read)]) {
    for (line, wanted) in rows {
        assert_reads(rt, line, *wanted);
    }
}

/// Asserts the result and the name in the parameters of a link-auth.
fn assert_auth(rt: &impl Abort, params: &str, wanted: Option<(AuthResult, &[u8])>) {
    assert_that(rt, auth_of(params.as_bytes()) == wanted, params);
}

/// Asserts the message id that parameters begin with.
fn assert_message(rt: &impl Abort, params: &str, wanted: Option<&[u8]>) {
    assert_that(rt, message_of(params.as_bytes()) == wanted, params);
}

/// Edges of the grammar of lines.
const EDGES: &[(&str, Read)] = &[
    ("config|x", Err(LineFault::Short)),
    ("report|0.7|1.0|smtp-in|tx-begin", Err(LineFault::Short)),
    ("report|0.7|1|smtp-in|tx-begin|s", Err(LineFault::Time)),
    (
        "report|0.7|1.0|smtp-in|tx-begin|",
        Err(LineFault::EmptyField),
    ),
    ("report|0.6|x|||", Err(LineFault::Version)),
    (
        "config|ready|x",
        Ok(Line::Config {
            key: b"ready",
            value: b"x",
        }),
    ),
    ("", Ok(Line::Other)),
    (
        "filter|0.7|1.0|smtp-in|rcpt-to|s|t",
        Ok(Line::Filter {
            seconds: 1,
            subsystem: b"smtp-in",
            phase: b"rcpt-to",
            session: b"s",
            token: b"t",
            rest: b"",
        }),
    ),
];

/// Parameters of a link-auth: result and name in either order.
const LOGINS: &[(&str, Option<(AuthResult, &[u8])>)] = &[
    ("pass|a|b", Some((AuthResult::Pass, b"a|b"))),
    ("a|b|pass", Some((AuthResult::Pass, b"a|b"))),
    ("pass|fail", Some((AuthResult::Pass, b"fail"))),
    ("pass", Some((AuthResult::Pass, b""))),
    ("pass|u01", Some((AuthResult::Pass, b"u01"))),
    ("a|b", None),
    ("", None),
];

/// Parameters and the message id that they begin with.
const MESSAGES: &[(&str, Option<&[u8]>)] = &[("5040c0c1|510", Some(b"5040c0c1")), ("", None)];

const SECONDS: u64 = 1_795_329_220;

const SESSION: &[u8] = b"8830003b8d1c8ffe";

/// What OpenSMTPD 7.6.0p1 wrote to a filter, but for the last line: an address with a bar in it.
const SMTPD_LINES: &[(&str, Read)] = &[
    (
        "config|smtpd-version|7.6.0-portable",
        Ok(Line::Config {
            key: b"smtpd-version",
            value: b"7.6.0-portable",
        }),
    ),
    (
        "config|protocol|0.7",
        Ok(Line::Config {
            key: b"protocol",
            value: b"0.7",
        }),
    ),
    (
        "config|admd|vm",
        Ok(Line::Config {
            key: b"admd",
            value: b"vm",
        }),
    ),
    ("config|ready", Ok(Line::Ready)),
    (
        "report|0.7|1795329220.402849|smtp-in|link-auth|8830003b8d1c8ffe|pass|u01",
        Ok(Line::Report {
            seconds: SECONDS,
            subsystem: b"smtp-in",
            event: b"link-auth",
            session: SESSION,
            params: b"pass|u01",
        }),
    ),
    (
        "report|0.7|1795329220.403778|smtp-in|tx-begin|8830003b8d1c8ffe|5040c0c1",
        Ok(Line::Report {
            seconds: SECONDS,
            subsystem: b"smtp-in",
            event: b"tx-begin",
            session: SESSION,
            params: b"5040c0c1",
        }),
    ),
    (
        "report|0.7|1795329220.452388|smtp-in|tx-commit|8830003b8d1c8ffe|5040c0c1|510",
        Ok(Line::Report {
            seconds: SECONDS,
            subsystem: b"smtp-in",
            event: b"tx-commit",
            session: SESSION,
            params: b"5040c0c1|510",
        }),
    ),
    (
        "report|0.7|1795329220.452389|smtp-in|tx-reset|8830003b8d1c8ffe|5040c0c1",
        Ok(Line::Report {
            seconds: SECONDS,
            subsystem: b"smtp-in",
            event: b"tx-reset",
            session: SESSION,
            params: b"5040c0c1",
        }),
    ),
    (
        "report|0.7|1795329220.502808|smtp-in|link-disconnect|8830003b8d1c8ffe",
        Ok(Line::Report {
            seconds: SECONDS,
            subsystem: b"smtp-in",
            event: b"link-disconnect",
            session: SESSION,
            params: b"",
        }),
    ),
    (
        "filter|0.7|1795329220.403977|smtp-in|rcpt-to|8830003b8d1c8ffe|4d35946cb887bc94|\"a|b\"@example.test",
        Ok(Line::Filter {
            seconds: SECONDS,
            subsystem: b"smtp-in",
            phase: b"rcpt-to",
            session: SESSION,
            token: b"4d35946cb887bc94",
            rest: b"\"a|b\"@example.test",
        }),
    ),
];

#[test]
fn edges_of_lines(rt: HostRuntime) {
    assert_lines(&rt, EDGES);
}

#[test]
fn lines_of_smtpd(rt: HostRuntime) {
    assert_lines(&rt, SMTPD_LINES);
}

#[test]
fn parameters_of_reports(rt: HostRuntime) {
    for (params, wanted) in LOGINS {
        assert_auth(&rt, params, *wanted);
    }
    for (params, wanted) in MESSAGES {
        assert_message(&rt, params, *wanted);
    }
}
