//! Worked rows of the filter.
use super::*;
use mq_line::LineFault;

const MAIL_FROM: &str =
    "filter|0.7|1576146010.006099|smtp-in|mail-from|7641df9771b4ed00|1ef1c203cc576e5d|alice@example.org
";

const OUTGOING: &str =
    "filter|0.7|1576146010.006099|smtp-out|rcpt-to|7641df9771b4ed00|1ef1c203cc576e5d|bob@example.org
";

const OLD_VERSION: &str =
    "filter|0.6|1576146010.006099|smtp-in|mail-from|7641df9771b4ed00|1ef1c203cc576e5d|alice@example.org
";

/// A login without a name.
const NAMELESS: &str = "report|0.7|1576146008.006099|smtp-in|link-auth|7641df9771b4ed00|pass
";

const EARLY: &str = "report|0.7|86399.006099|smtp-in|tx-begin|7641df9771b4ed00|4c56d3a1
";

const LATE: &str = "report|0.7|32503680001.0|smtp-in|tx-begin|7641df9771b4ed00|4c56d3a1
";

/// A recipient is let through by the first reply.
const LET_THROUGH: Row<'static> = Row {
    replies: &[GRANTED],
    lines: ONE_RECIPIENT,
    sent: Sent::Frames(&[RESERVE]),
    held: 1,
    ..PLAIN
};

/// A recipient is refused, since the reply decides nothing.
const UNDECIDED: Row<'static> = Row {
    text: REFUSES,
    sent: Sent::Frames(&[RESERVE, RESERVE, RESERVE]),
    ..LET_THROUGH
};

/// A recipient is refused, since the reply is none to a reserve that goes on.
const NO_GRANT: Row<'static> = Row {
    text: REFUSES,
    ..LET_THROUGH
};

/// Replies to the first reserve that grant it, or that say that the login is full.
const REPLIES: &[Row<'static>] = &[
    Row {
        name: "a grant",
        ..LET_THROUGH
    },
    Row {
        name: "a full login",
        replies: &[Reply::Body("82 036d7831 0000000000000001 00000001 00000003 00000003")],
        text: &[REGISTRATION, LIMIT],
        ..LET_THROUGH
    },
    Row {
        name: "a grant of another number",
        replies: &[Reply::Body("81 036d7831 0000000000000001 00000002 00000001")],
        ..UNDECIDED
    },
    Row {
        name: "a grant of another run",
        replies: &[Reply::Body("81 036d7831 0000000000000002 00000001 00000001")],
        ..UNDECIDED
    },
    Row {
        name: "a grant of another host",
        replies: &[Reply::Body("81 036d7832 0000000000000001 00000001 00000001")],
        ..UNDECIDED
    },
];

#[test]
fn replies_to_a_client(rt: HostRuntime) {
    assert_rows(&rt, rt.alloc(), REPLIES);
}

/// Other replies to it, none, and what follows a grant.
const OTHER_REPLIES: &[Row<'static>] = &[
    Row {
        name: "closed",
        replies: &[Reply::Body("87 036d7831 0000000000000001 00000001")],
        ..NO_GRANT
    },
    Row {
        name: "mismatch",
        replies: &[Reply::Body("88 036d7831 0000000000000001 00000001")],
        ..NO_GRANT
    },
    Row {
        name: "conflict",
        replies: &[Reply::Body("8a 036d7831 0000000000000001 00000001")],
        ..NO_GRANT
    },
    Row {
        name: "a retired run",
        replies: &[
            Reply::Body("90 036d7831 0000000000000001 00000001"),
            Reply::Body("90 036d7831 0000000000000001 00000002"),
        ],
        lines: &[CONFIG, AUTH, BEGIN, RECIPIENT, COMMIT],
        text: REFUSES,
        sent: Sent::Frames(&[RESERVE, RELEASE]),
        held: 0,
        log: Some(&[
            "run 1 of host mx1 is retired, recipients are answered 451: restart smtpd, but first see \"A filter that is retired\" in OPERATING.md",
            "reserve 1 of transaction 1 (host mx1, session 7641df9771b4ed00, login alice): the run is retired",
            "release 2 of transaction 1 (host mx1, session 7641df9771b4ed00, login alice): the run is retired",
        ]),
        ..PLAIN
    },
    Row {
        name: "another run is retired",
        replies: &[Reply::Body("90 036d7831 0000000000000002 00000001")],
        ..UNDECIDED
    },
    Row {
        name: "a reply to a retire",
        replies: &[Reply::Body("8f 036d7831 0000000000000001 00000001")],
        ..UNDECIDED
    },
    Row {
        name: "the server is down",
        replies: &[],
        lines: &[CONFIG, AUTH, BEGIN, RECIPIENT, COMMIT],
        ended: Ok(RunEnd {
            answers: 1,
            left: 1,
        }),
        text: REFUSES,
        sent: Sent::Frames(&[
            RESERVE, RESERVE, RESERVE, RELEASE, RELEASE, RELEASE, RELEASE, RELEASE, RELEASE,
        ]),
        held: 0,
        waiting: 1,
        ..PLAIN
    },
    Row {
        name: "a commit settles and a reset does nothing",
        replies: &[
            GRANTED,
            Reply::Body("83 036d7831 0000000000000001 00000002 00000001"),
        ],
        lines: &[CONFIG, AUTH, BEGIN, RECIPIENT, COMMIT, RESET],
        sent: Sent::Frames(&[RESERVE, SETTLE]),
        ..PLAIN
    },
];

#[test]
fn other_replies_to_a_client(rt: HostRuntime) {
    assert_rows(&rt, rt.alloc(), OTHER_REPLIES);
}

/// Nothing is asked, and the recipient is refused.
const REFUSED: Row<'static> = Row {
    text: REFUSES,
    ..PLAIN
};

/// Runs in which nothing is asked.
const UNASKED: &[Row<'static>] = &[
    Row {
        name: "no login",
        lines: &[CONFIG, BEGIN, RECIPIENT],
        ..PLAIN
    },
    Row {
        name: "another phase",
        lines: &[CONFIG, AUTH, BEGIN, MAIL_FROM],
        ..PLAIN
    },
    Row {
        name: "another subsystem",
        lines: &[CONFIG, AUTH, BEGIN, OUTGOING],
        ..PLAIN
    },
    Row {
        name: "another version",
        lines: &[CONFIG, AUTH, BEGIN, OLD_VERSION],
        ended: Err(FilterFault::Line(LineFault::Version)),
        text: &[REGISTRATION],
        ..PLAIN
    },
    Row {
        name: "a login without a name",
        lines: &[CONFIG, NAMELESS, BEGIN, RECIPIENT],
        ..REFUSED
    },
    Row {
        name: "a moment too early",
        lines: &[CONFIG, AUTH, EARLY, RECIPIENT],
        ..REFUSED
    },
    Row {
        name: "a moment too late",
        lines: &[CONFIG, AUTH, LATE, RECIPIENT],
        ..REFUSED
    },
    Row {
        name: "no transaction",
        lines: &[CONFIG, AUTH, RECIPIENT],
        ..REFUSED
    },
];

#[test]
fn nothing_is_asked(rt: HostRuntime) {
    assert_rows(&rt, rt.alloc(), UNASKED);
}
