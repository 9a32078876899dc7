//! What the log has of recipients that were asked for, and its levels.
use super::*;

const FULL_1: Reply<'static> = Reply::Body(
    "82 036d7831 0000000000000001 00000001 00000003 00000003",
);

const FULL_2: Reply<'static> = Reply::Body(
    "82 036d7831 0000000000000001 00000002 00000003 00000003",
);

const FULL_3: Reply<'static> = Reply::Body(
    "82 036d7831 0000000000000001 00000003 00000007 00000005",
);

const FULL_4: Reply<'static> = Reply::Body(
    "82 036d7831 0000000000000001 00000004 00000003 00000003",
);

const FULL_5: Reply<'static> = Reply::Body(
    "82 036d7831 0000000000000001 00000005 00000003 00000003",
);

/// Another login in another session.
const BOB: &str = "report|0.7|1576146008.006099|smtp-in|link-auth|7641df9771b4ed01|pass|bob
report|0.7|1576146009.006099|smtp-in|tx-begin|7641df9771b4ed01|4c56d3a2
filter|0.7|1576146010.006099|smtp-in|rcpt-to|7641df9771b4ed01|1ef1c203cc576e5d|bob@example.org
";

const BOB_LIMIT: &str =
    "filter-result|7641df9771b4ed01|1ef1c203cc576e5d|reject|550 daily recipient limit reached
";

/// The first login in the last second of that day.
const SAME_DAY: &str = "report|0.7|1576195199.9|smtp-in|link-auth|7641df9771b4ed02|pass|alice
report|0.7|1576195199.9|smtp-in|tx-begin|7641df9771b4ed02|4c56d3a3
filter|0.7|1576195200.0|smtp-in|rcpt-to|7641df9771b4ed02|1ef1c203cc576e5d|bob@example.org
";

const SAME_DAY_LIMIT: &str =
    "filter-result|7641df9771b4ed02|1ef1c203cc576e5d|reject|550 daily recipient limit reached
";

/// The first login on the next day, in a session of which the first 16 bytes are logged.
const NEXT_DAY: &str = "report|0.7|1576195200.0|smtp-in|link-auth|0123456789abcdefg|pass|alice
report|0.7|1576195200.0|smtp-in|tx-begin|0123456789abcdefg|4c56d3a4
filter|0.7|1576195200.0|smtp-in|rcpt-to|0123456789abcdefg|1ef1c203cc576e5d|bob@example.org
";

const NEXT_DAY_LIMIT: &str =
    "filter-result|0123456789abcdefg|1ef1c203cc576e5d|reject|550 daily recipient limit reached
";

/// The first of a login on a day by a warning.
const FULL: Row<'static> = Row {
    name: "full logins",
    replies: &[FULL_1, FULL_2, FULL_3, FULL_4, FULL_5],
    lines: &[
        CONFIG, AUTH, BEGIN, RECIPIENT, RECIPIENT, BOB, SAME_DAY, NEXT_DAY,
    ],
    ended: Ok(RunEnd {
        answers: 5,
        left: 0,
    }),
    text: &[
        REGISTRATION,
        LIMIT,
        LIMIT,
        BOB_LIMIT,
        SAME_DAY_LIMIT,
        NEXT_DAY_LIMIT,
    ],
    sent: Sent::Count(5),
    held: 4,
    log: Some(&[
        "[WARN  mq_client::tries] reserve 1 of transaction 1 \
            (host mx1, session 7641df9771b4ed00, login alice): refused by the limit, 3 used of 3",
        "[INFO  mq_client::tries] reserve 2 of transaction 1 \
            (host mx1, session 7641df9771b4ed00, login alice): refused by the limit, 3 used of 3",
        "[WARN  mq_client::tries] reserve 3 of transaction 2 \
            (host mx1, session 7641df9771b4ed01, login bob): refused by the limit, 7 used of 5",
        "[INFO  mq_client::tries] reserve 4 of transaction 3 \
            (host mx1, session 7641df9771b4ed02, login alice): refused by the limit, 3 used of 3",
        "[WARN  mq_client::tries] reserve 5 of transaction 4 \
            (host mx1, session 0123456789abcdef, login alice): refused by the limit, 3 used of 3",
    ]),
    ..PLAIN
};

/// What no reply decides: a warning where some reply came, and a warning at the end of what waits.
const UNDECIDED: Row<'static> = Row {
    name: "undecided",
    tries: 2,
    replies: &[
        Reply::Body("81 036d7831 0000000000000001 00000002 00000001"),
        Reply::Fault(LinkFault::Down),
        Reply::Body("8d"),
        Reply::Body("8e"),
    ],
    lines: &[CONFIG, AUTH, BEGIN, RECIPIENT, RECIPIENT, COMMIT],
    ended: Ok(RunEnd {
        answers: 2,
        left: 1,
    }),
    text: &[REGISTRATION, SERVICE, SERVICE],
    sent: Sent::Count(8),
    waiting: 1,
    log: Some(&[
        "[WARN  mq_client::tries] reserve 1 of transaction 1 (host mx1, session 7641df9771b4ed00, login alice): \
            no answer in 2 tries, but a reply of another kind or number",
        "[INFO  mq_client::tries] reserve 2 of transaction 1 (host mx1, session 7641df9771b4ed00, login alice): \
            no answer in 2 tries",
        "[INFO  mq_client::tries] release 3 of transaction 1 (host mx1, session 7641df9771b4ed00, login alice): \
            no answer in 2 tries, it waits",
        "[INFO  mq_client::tries] release 3 of transaction 1 (host mx1, session 7641df9771b4ed00, login alice): \
            no answer in 2 tries, it waits",
        "[WARN  mq_client::filter] the input ends, closings without an answer: 1",
    ]),
    ..PLAIN
};

#[test]
fn levels_and_sessions_of_the_log(rt: HostRuntime) {
    assert_rows(&rt, rt.alloc(), &[FULL, UNDECIDED]);
}

/// How many logins are noted at most.
const NOTED: u32 = 2000;

/// Asks for a recipient of a login of four bytes in a transaction of its own.
fn ask(rt: &impl Abort, rig: &mut Rig, login: u32, txn: u32) {
    if txn == 0 {
        panic!(rt; "no such transaction");
    }
    let name = login.to_be_bytes();
    let asked = rig
        .client
        .reserve(&rig.log, &mut rig.link, txn, 86_400, name.as_slice())
        .expect(rt, MEMORY)
        .answer;
    assert_that(
        rt,
        asked == mq_client::RecipientAnswer::Full,
        "a full login",
    );
}

/// The levels of the last lines: whether each is a warning.
fn assert_warnings(rt: &impl Abort, rig: Rig, wanted: &[bool]) {
    let Rig { log, .. } = rig;
    let lines = log.into_lines();
    let first = lines.as_slice().len().saturating_sub(wanted.len());
    for (line, warns) in lines.as_slice().iter().skip(first).zip(wanted) {
        assert_that(
            rt,
            line.as_str().starts_with("[WARN ") == *warns,
            line.as_str(),
        );
    }
}

/// 2,000 logins are noted; the next one has them forgotten.
#[test]
fn many_full_logins(rt: HostRuntime) {
    let alloc = rt.alloc();
    let mut rig = rig_of(&rt, alloc, 1, &[Reply::Full(NOTED + 5)]);
    for login in 1..=NOTED {
        ask(&rt, &mut rig, login, login);
    }
    for (login, txn) in [
        (1, 2001),
        (NOTED, 2002),
        (NOTED + 1, 2003),
        (1, 2004),
        (NOTED + 1, 2005),
    ] {
        ask(&rt, &mut rig, login, txn);
    }
    assert_warnings(&rt, rig, &[true, false, false, true, true, false]);
}
