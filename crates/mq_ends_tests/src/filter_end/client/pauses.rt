//! What is held back: in a pause, and of a login whose limit is reached.
use super::*;

/// The same recipient again, in seconds around the one in which it was first asked for.
const EARLIER: &str =
    "filter|0.7|1576146009.9|smtp-in|rcpt-to|7641df9771b4ed00|1ef1c203cc576e5d|bob@example.org
";

const IN_4_SECONDS: &str =
    "filter|0.7|1576146014.9|smtp-in|rcpt-to|7641df9771b4ed00|1ef1c203cc576e5d|bob@example.org
";

const IN_5_SECONDS: &str =
    "filter|0.7|1576146015.0|smtp-in|rcpt-to|7641df9771b4ed00|1ef1c203cc576e5d|bob@example.org
";

/// Another login in another session.
const BOB: &str = "report|0.7|1576146008.006099|smtp-in|link-auth|7641df9771b4ed01|pass|bob
report|0.7|1576146009.006099|smtp-in|tx-begin|7641df9771b4ed01|4c56d3a2
";

/// A recipient of it in the second in which that of the first one was asked for, and one a second
/// later.
const BOB_ASKS: &str =
    "filter|0.7|1576146010.006099|smtp-in|rcpt-to|7641df9771b4ed01|1ef1c203cc576e5d|eve@example.org
";

const BOB_ASKS_LATER: &str =
    "filter|0.7|1576146011.0|smtp-in|rcpt-to|7641df9771b4ed01|1ef1c203cc576e5d|eve@example.org
";

const BOB_PROCEEDS: &str = "filter-result|7641df9771b4ed01|1ef1c203cc576e5d|proceed
";

const BOB_SERVICE: &str =
    "filter-result|7641df9771b4ed01|1ef1c203cc576e5d|reject|451 quota service unavailable
";

const GRANTED_2: Reply<'static> = Reply::Body("81 036d7831 0000000000000001 00000002 00000001");

const SETTLED_2: Reply<'static> = Reply::Body("83 036d7831 0000000000000001 00000002 00000001");

const FULL_1: Reply<'static> = Reply::Body(
    "82 036d7831 0000000000000001 00000001 00000003 00000003",
);

const FULL_2: Reply<'static> = Reply::Body(
    "82 036d7831 0000000000000001 00000002 00000003 00000003",
);

const GRANTED_4: Reply<'static> = Reply::Body("81 036d7831 0000000000000001 00000004 00000001");

/// One recipient is given back, or none.
const RELEASED_3: Reply<'static> = Reply::Body("84 036d7831 0000000000000001 00000003 00000001");

const RELEASED_3_NONE: Reply<'static> = Reply::Body(
    "84 036d7831 0000000000000001 00000003 00000000",
);

const SETTLED_3: Reply<'static> = Reply::Body("83 036d7831 0000000000000001 00000003 00000001");

/// The login of the first session in another one, with messages that begin in the same minute, in
/// its last second and in the next one.
const SECOND_AUTH: &str =
    "report|0.7|1576146009.006099|smtp-in|link-auth|7641df9771b4ed02|pass|alice
";

const SECOND_BEGIN: &str = "report|0.7|1576146009.006099|smtp-in|tx-begin|7641df9771b4ed02|4c56d3a4
";

const LAST_SECOND: &str = "report|0.7|1576146059.999999|smtp-in|tx-begin|7641df9771b4ed02|4c56d3a4
";

const NEXT_MINUTE: &str = "report|0.7|1576146060.000000|smtp-in|tx-begin|7641df9771b4ed02|4c56d3a4
";

/// A recipient of it, and one a minute after the first one's message.
const SECOND_ASKS: &str =
    "filter|0.7|1576146010.5|smtp-in|rcpt-to|7641df9771b4ed02|1ef1c203cc576e5d|eve@example.org
";

const SECOND_ASKS_SOON: &str =
    "filter|0.7|1576146011.5|smtp-in|rcpt-to|7641df9771b4ed02|1ef1c203cc576e5d|eve@example.org
";

const SECOND_ASKS_THEN: &str =
    "filter|0.7|1576146060.5|smtp-in|rcpt-to|7641df9771b4ed02|1ef1c203cc576e5d|eve@example.org
";

const ASKS_THEN: &str =
    "filter|0.7|1576146060.5|smtp-in|rcpt-to|7641df9771b4ed00|1ef1c203cc576e5d|bob@example.org
";

const SECOND_PROCEEDS: &str = "filter-result|7641df9771b4ed02|1ef1c203cc576e5d|proceed
";

const SECOND_LIMIT: &str =
    "filter-result|7641df9771b4ed02|1ef1c203cc576e5d|reject|550 daily recipient limit reached
";

/// The first session's message is rolled back, and that of the second login's.
const ROLLBACK: &str = "report|0.7|1576146010.9|smtp-in|tx-rollback|7641df9771b4ed00|4c56d3a1
";

const BOB_ROLLS_BACK: &str = "report|0.7|1576146010.9|smtp-in|tx-rollback|7641df9771b4ed01|4c56d3a2
";

const TIMED_OUT: Reply<'static> = Reply::Fault(LinkFault::TimedOut);

const DOWN: Reply<'static> = Reply::Fault(LinkFault::Down);

/// A pause of five seconds.
const PAUSES: Row<'static> = Row {
    tries: 1,
    spans: Spans { pause: 5, hold: 0 },
    ended: TWO_ANSWERS,
    ..PLAIN
};

/// A login whose limit is reached isn't asked for in five seconds.
const HOLDS: Row<'static> = Row {
    spans: Spans { pause: 0, hold: 5 },
    ..PAUSES
};

const FOUR_ANSWERS: End = Ok(RunEnd {
    answers: 4,
    left: 0,
});

/// When nothing is asked.
const IN_A_PAUSE: &[Row<'static>] = &[
    Row {
        name: "a pause, and its end",
        tries: 2,
        replies: &[TIMED_OUT, DOWN, GRANTED_2],
        lines: &[
            CONFIG,
            AUTH,
            BEGIN,
            RECIPIENT,
            RECIPIENT,
            IN_4_SECONDS,
            IN_5_SECONDS,
        ],
        ended: FOUR_ANSWERS,
        text: &[REGISTRATION, SERVICE, SERVICE, SERVICE, PROCEED],
        sent: Sent::Count(3),
        held: 1,
        log: Some(&[
            "[INFO  mq_client::tries] reserve 1 of transaction 1 \
                (host mx1, session 7641df9771b4ed00, login alice): no answer in 2 tries",
            "[WARN  mq_client::pauses] no answer in time: \
                nothing is asked for 5 seconds, recipients are answered 451",
            "[WARN  mq_client::pauses] asks again, recipients answered 451 without asking: 2",
        ]),
        ..PAUSES
    },
    Row {
        name: "pauses one after another",
        replies: &[TIMED_OUT, TIMED_OUT],
        lines: &[CONFIG, AUTH, BEGIN, RECIPIENT, IN_5_SECONDS],
        text: &[REGISTRATION, SERVICE, SERVICE],
        sent: Sent::Count(2),
        held: 1,
        log: Some(&[
            "[INFO  mq_client::tries] reserve 1 of transaction 1 \
                (host mx1, session 7641df9771b4ed00, login alice): no answer in 1 tries",
            "[WARN  mq_client::pauses] no answer in time: \
                nothing is asked for 5 seconds, recipients are answered 451",
            "[INFO  mq_client::tries] reserve 2 of transaction 1 \
                (host mx1, session 7641df9771b4ed00, login alice): no answer in 1 tries",
            "[INFO  mq_client::pauses] no answer in time: nothing is asked for 5 seconds",
        ]),
        ..PAUSES
    },
    Row {
        name: "a refused connection begins none",
        tries: 2,
        replies: &[DOWN, DOWN, GRANTED_2],
        lines: &[CONFIG, AUTH, BEGIN, RECIPIENT, RECIPIENT],
        text: &[REGISTRATION, SERVICE, PROCEED],
        sent: Sent::Count(3),
        held: 1,
        log: Some(&[
            "[INFO  mq_client::tries] reserve 1 of transaction 1 \
                (host mx1, session 7641df9771b4ed00, login alice): no answer in 2 tries",
        ]),
        ..PAUSES
    },
    Row {
        name: "nor does a try that is followed by one that decides",
        tries: 2,
        replies: &[TIMED_OUT, GRANTED, GRANTED_2],
        lines: &[CONFIG, AUTH, BEGIN, RECIPIENT, RECIPIENT],
        text: &[REGISTRATION, PROCEED, PROCEED],
        sent: Sent::Count(3),
        held: 1,
        log: Some(&[]),
        ..PAUSES
    },
    Row {
        name: "a line of an earlier second ends it",
        replies: &[TIMED_OUT, GRANTED_2],
        lines: &[CONFIG, AUTH, BEGIN, RECIPIENT, EARLIER],
        text: &[REGISTRATION, SERVICE, PROCEED],
        sent: Sent::Count(2),
        held: 1,
        ..PAUSES
    },
    Row {
        name: "without a setting there is none",
        spans: Spans { pause: 0, hold: 0 },
        replies: &[TIMED_OUT, GRANTED_2],
        lines: &[CONFIG, AUTH, BEGIN, RECIPIENT, RECIPIENT],
        text: &[REGISTRATION, SERVICE, PROCEED],
        sent: Sent::Count(2),
        held: 1,
        ..PAUSES
    },
];

#[test]
fn nothing_is_asked_in_a_pause(rt: HostRuntime) {
    assert_rows(&rt, rt.alloc(), IN_A_PAUSE);
}

/// Closings before and in a pause.
const CLOSINGS: &[Row<'static>] = &[
    Row {
        name: "a closing waits in a pause, and is sent at the end",
        replies: &[
            GRANTED,
            TIMED_OUT,
            Reply::Body("83 036d7831 0000000000000001 00000003 00000001"),
        ],
        lines: &[CONFIG, AUTH, BEGIN, BOB, RECIPIENT, BOB_ASKS, COMMIT],
        text: &[REGISTRATION, PROCEED, BOB_SERVICE],
        sent: Sent::Count(3),
        held: 1,
        ..PAUSES
    },
    Row {
        name: "a closing whose try ran out of time begins one",
        replies: &[GRANTED, TIMED_OUT, SETTLED_2],
        lines: &[CONFIG, AUTH, BEGIN, BOB, RECIPIENT, COMMIT, BOB_ASKS_LATER],
        text: &[REGISTRATION, PROCEED, BOB_SERVICE],
        sent: Sent::Count(3),
        ..PAUSES
    },
    Row {
        name: "a closing over a refused connection begins none",
        replies: &[
            GRANTED,
            DOWN,
            Reply::Body("81 036d7831 0000000000000001 00000003 00000001"),
            SETTLED_2,
        ],
        lines: &[CONFIG, AUTH, BEGIN, BOB, RECIPIENT, COMMIT, BOB_ASKS_LATER],
        text: &[REGISTRATION, PROCEED, BOB_PROCEEDS],
        sent: Sent::Count(4),
        held: 1,
        ..PAUSES
    },
];

#[test]
fn closings_wait_in_a_pause(rt: HostRuntime) {
    assert_rows(&rt, rt.alloc(), CLOSINGS);
}

/// A login whose limit is reached.
const HELD: &[Row<'static>] = &[
    Row {
        name: "a full login is asked for again after five seconds",
        replies: &[FULL_1, FULL_2],
        lines: &[
            CONFIG,
            AUTH,
            BEGIN,
            RECIPIENT,
            RECIPIENT,
            IN_4_SECONDS,
            IN_5_SECONDS,
        ],
        ended: FOUR_ANSWERS,
        text: &[REGISTRATION, LIMIT, LIMIT, LIMIT, LIMIT],
        sent: Sent::Count(2),
        held: 1,
        ..HOLDS
    },
    Row {
        name: "others are asked for",
        replies: &[FULL_1, GRANTED_2],
        lines: &[CONFIG, AUTH, BEGIN, BOB, RECIPIENT, BOB_ASKS],
        text: &[REGISTRATION, LIMIT, BOB_PROCEEDS],
        sent: Sent::Count(2),
        held: 2,
        ..HOLDS
    },
    Row {
        name: "550 also in a pause",
        spans: Spans { pause: 5, hold: 5 },
        replies: &[FULL_1, TIMED_OUT],
        lines: &[
            CONFIG, AUTH, BEGIN, BOB, RECIPIENT, BOB_ASKS, RECIPIENT, BOB_ASKS,
        ],
        ended: FOUR_ANSWERS,
        text: &[REGISTRATION, LIMIT, BOB_SERVICE, LIMIT, BOB_SERVICE],
        sent: Sent::Count(2),
        held: 2,
        ..HOLDS
    },
    Row {
        name: "in a message of the next minute it is asked for, and in the former one it isn't",
        spans: Spans { pause: 0, hold: 60 },
        replies: &[FULL_1, GRANTED_2],
        lines: &[
            CONFIG,
            AUTH,
            BEGIN,
            SECOND_AUTH,
            RECIPIENT,
            NEXT_MINUTE,
            SECOND_ASKS_THEN,
            ASKS_THEN,
        ],
        ended: THREE_ANSWERS,
        text: &[REGISTRATION, LIMIT, SECOND_PROCEEDS, LIMIT],
        sent: Sent::Count(2),
        held: 2,
        ..HOLDS
    },
    Row {
        name: "in one of the minute's last second it isn't",
        spans: Spans { pause: 0, hold: 60 },
        replies: &[FULL_1],
        lines: &[
            CONFIG,
            AUTH,
            BEGIN,
            SECOND_AUTH,
            RECIPIENT,
            LAST_SECOND,
            SECOND_ASKS_THEN,
        ],
        text: &[REGISTRATION, LIMIT, SECOND_LIMIT],
        sent: Sent::Count(1),
        held: 1,
        ..HOLDS
    },
    Row {
        name: "without a setting each is asked for",
        spans: Spans { pause: 0, hold: 0 },
        replies: &[FULL_1, FULL_2],
        lines: &[CONFIG, AUTH, BEGIN, RECIPIENT, RECIPIENT],
        text: &[REGISTRATION, LIMIT, LIMIT],
        sent: Sent::Count(2),
        held: 1,
        ..HOLDS
    },
];

#[test]
fn a_full_login_is_held_back(rt: HostRuntime) {
    assert_rows(&rt, rt.alloc(), HELD);
}

/// What ends it before its time.
const GIVEN_BACK: &[Row<'static>] = &[
    Row {
        name: "its recipients that are given back",
        replies: &[GRANTED, FULL_2, RELEASED_3, GRANTED_4],
        lines: &[
            CONFIG,
            AUTH,
            BEGIN,
            SECOND_AUTH,
            SECOND_BEGIN,
            RECIPIENT,
            SECOND_ASKS,
            SECOND_ASKS,
            ROLLBACK,
            SECOND_ASKS,
        ],
        ended: FOUR_ANSWERS,
        text: &[
            REGISTRATION,
            PROCEED,
            SECOND_LIMIT,
            SECOND_LIMIT,
            SECOND_PROCEEDS,
        ],
        sent: Sent::Count(4),
        held: 1,
        ..HOLDS
    },
    Row {
        name: "but not a release that gives back none",
        replies: &[GRANTED, FULL_2, RELEASED_3_NONE],
        lines: &[
            CONFIG,
            AUTH,
            BEGIN,
            SECOND_AUTH,
            SECOND_BEGIN,
            RECIPIENT,
            SECOND_ASKS,
            ROLLBACK,
            SECOND_ASKS,
        ],
        ended: THREE_ANSWERS,
        text: &[REGISTRATION, PROCEED, SECOND_LIMIT, SECOND_LIMIT],
        sent: Sent::Count(3),
        held: 1,
        ..HOLDS
    },
    Row {
        name: "nor those of another login",
        replies: &[
            GRANTED,
            FULL_2,
            RELEASED_3,
            Reply::Body("82 036d7831 0000000000000001 00000004 00000003 00000003"),
        ],
        lines: &[
            CONFIG,
            AUTH,
            BEGIN,
            BOB,
            BOB_ASKS,
            RECIPIENT,
            BOB_ROLLS_BACK,
            RECIPIENT,
            IN_5_SECONDS,
        ],
        ended: FOUR_ANSWERS,
        text: &[REGISTRATION, BOB_PROCEEDS, LIMIT, LIMIT, LIMIT],
        sent: Sent::Count(4),
        held: 1,
        ..HOLDS
    },
    Row {
        name: "nor a message that is taken",
        replies: &[GRANTED, FULL_2, SETTLED_3],
        lines: &[
            CONFIG,
            AUTH,
            BEGIN,
            SECOND_AUTH,
            SECOND_BEGIN,
            RECIPIENT,
            SECOND_ASKS,
            COMMIT,
            SECOND_ASKS_SOON,
        ],
        ended: THREE_ANSWERS,
        text: &[REGISTRATION, PROCEED, SECOND_LIMIT, SECOND_LIMIT],
        sent: Sent::Count(3),
        held: 1,
        ..HOLDS
    },
    Row {
        name: "those of a release that waited",
        replies: &[
            GRANTED,
            Reply::Body("81 036d7831 0000000000000001 00000002 00000001"),
            DOWN,
            Reply::Body("82 036d7831 0000000000000001 00000004 00000003 00000003"),
            RELEASED_3,
            Reply::Body("84 036d7831 0000000000000001 00000005 00000001"),
            Reply::Body("81 036d7831 0000000000000001 00000006 00000001"),
        ],
        lines: &[
            CONFIG,
            AUTH,
            BEGIN,
            BOB,
            SECOND_AUTH,
            SECOND_BEGIN,
            RECIPIENT,
            BOB_ASKS,
            ROLLBACK,
            SECOND_ASKS,
            BOB_ROLLS_BACK,
            SECOND_ASKS,
        ],
        ended: FOUR_ANSWERS,
        text: &[
            REGISTRATION,
            PROCEED,
            BOB_PROCEEDS,
            SECOND_LIMIT,
            SECOND_PROCEEDS,
        ],
        sent: Sent::Count(7),
        held: 1,
        ..HOLDS
    },
];

#[test]
fn what_is_given_back_ends_it(rt: HostRuntime) {
    assert_rows(&rt, rt.alloc(), GIVEN_BACK);
}
