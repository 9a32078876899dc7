//! The calls of a client.
use super::*;
use mq_client::RecipientAnswer;
use mq_request::{is_login, is_moment};
use mq_track::{CloseEnd, Closing};

/// How many transactions a client holds.
const ROOM: u32 = 4096;

/// A call of the client with what it answers, or what one of its counts is.
#[derive(Clone, Copy)]
enum Step<'a> {
    /// Asks for a recipient of a transaction, at its moment and for its login.
    Reserve(u32, u64, &'a [u8], RecipientAnswer),
    /// Asks for a recipient of each transaction from 1 to this one, which is granted.
    Begin(u32),
    Close(u32, CloseEnd),
    /// Asks in a session for a recipient of a transaction, which is refused.
    Refused(&'a [u8], u32),
    /// Asks so often in the session s for a recipient of transaction 1, which is granted.
    Granted(u32),
    /// Drains, with so many closings left.
    Drain(usize),
    Held(usize),
    Waiting(usize),
    Exchanges(usize),
}

/// Takes a step, and asserts what comes of it.
fn take(rt: &impl Abort, rig: &mut Rig, step: Step<'_>) {
    match step {
        Step::Reserve(txn, moment, login, wanted) => assert_asked(
            rt, rig, txn, moment, login, wanted,
        ),
        Step::Begin(last) => begin(rt, rig, last),
        Step::Close(txn, end) => close(rt, rig, txn, end),
        Step::Refused(session, txn) => assert_refused(rt, rig, session, txn),
        Step::Granted(count) => assert_granted(rt, rig, count),
        Step::Drain(wanted) => assert_count(rt, drain(rig), wanted, "left"),
        Step::Held(wanted) => assert_count(rt, rig.client.held_count(), wanted, "held"),
        Step::Waiting(wanted) => assert_count(rt, rig.client.outbox_count(), wanted, "waiting"),
        Step::Exchanges(wanted) => assert_count(rt, rig.link.kept().len(), wanted, "exchanges"),
    }
}

fn reserve(rt: &impl Abort, rig: &mut Rig, txn: u32, moment: u64, login: &[u8]) -> RecipientAnswer {
    if txn == 0 || !is_moment(moment) || !is_login(login) {
        panic!(rt; "no such transaction");
    }
    rig.client
        .reserve(&rig.log, &mut rig.link, txn, moment, login)
        .expect(rt, MEMORY)
        .answer
}

/// Asserts what comes of asking for a recipient.
fn assert_asked(
    rt: &impl Abort,
    rig: &mut Rig,
    txn: u32,
    moment: u64,
    login: &[u8],
    wanted: RecipientAnswer,
) {
    assert_eq!(rt;
        reserve(rt, rig, txn, moment, login),
        wanted,
        "transaction {txn}"
    );
}

fn begin(rt: &impl Abort, rig: &mut Rig, last: u32) {
    for txn in 1..=last {
        assert_asked(rt, rig, txn, 86_400, b"u", RecipientAnswer::Granted);
    }
}

fn close(rt: &impl Abort, rig: &mut Rig, txn: u32, end: CloseEnd) {
    let closing = Closing { txn, end };
    rig.client
        .close(&rig.log, &mut rig.link, closing, false)
        .expect(rt, MEMORY);
}

fn assert_refused(rt: &impl Abort, rig: &mut Rig, session: &[u8], txn: u32) {
    rig.client.set_line(session, None);
    assert_asked(rt, rig, txn, 86_400, b"u", RecipientAnswer::Unavailable);
}

fn assert_granted(rt: &impl Abort, rig: &mut Rig, count: u32) {
    rig.client.set_line(b"s", None);
    for _ in 0..count {
        assert_asked(rt, rig, 1, 86_400, b"u", RecipientAnswer::Granted);
    }
}

fn drain(rig: &mut Rig) -> usize {
    rig.client.drain(&rig.log, &mut rig.link) as usize
}

/// Takes these steps, in order.
fn play(rt: &impl Abort, rig: &mut Rig, steps: &[Step<'_>]) {
    for step in steps {
        take(rt, rig, *step);
    }
}

/// Calls that were worked out by hand.
#[derive(Clone, Copy)]
struct Case<'a> {
    tries: u32,
    /// What the server answers; it is down afterwards.
    replies: &'a [Reply<'a>],
    steps: &'a [Step<'a>],
    sent: Sent<'a>,
    /// How the lines of the log end, where that is looked at.
    log: Option<&'a [&'a str]>,
}

fn assert_case(rt: &impl Abort, alloc: Global, case: &Case<'_>) {
    let mut rig = rig_of(rt, alloc, case.tries, case.replies);
    play(rt, &mut rig, case.steps);
    assert_sent(rt, alloc, rig.link.kept(), case.sent);
    if let Some(lines) = case.log {
        assert_log(rt, rig, lines);
    }
}

/// A client that holds 4,096 transactions.
const FULL: Case<'static> = Case {
    tries: 3,
    replies: &[
        Reply::Transactions(ROOM),
        Reply::Fault(LinkFault::Down),
        Reply::Fault(LinkFault::Down),
        Reply::Fault(LinkFault::Down),
        Reply::Body("84 036d7831 0000000000000001 00001001 00000001"),
        Reply::Body("81 036d7831 0000000000000001 00001002 00000001"),
    ],
    steps: &[
        Step::Begin(ROOM),
        Step::Exchanges(4096),
        Step::Reserve(4097, 86_400, b"u", RecipientAnswer::Unavailable),
        Step::Exchanges(4096),
        Step::Held(4096),
        // a closing that waits takes its place
        Step::Close(1, CloseEnd::Rollback),
        Step::Waiting(1),
        Step::Held(4095),
        Step::Exchanges(4099),
        Step::Reserve(4097, 86_400, b"u", RecipientAnswer::Unavailable),
        Step::Exchanges(4099),
        // and gives it free
        Step::Drain(0),
        Step::Waiting(0),
        Step::Exchanges(4100),
        Step::Reserve(4097, 86_400, b"u", RecipientAnswer::Granted),
        // another login and another moment
        Step::Reserve(2, 86_400, b"v", RecipientAnswer::Unavailable),
        Step::Reserve(2, 86_401, b"u", RecipientAnswer::Unavailable),
        Step::Held(4096),
        Step::Exchanges(4101),
    ],
    sent: Sent::Count(4101),
    log: None,
};

/// The frames of the reserves of transactions 1 and 2.
const RESERVE_1: &str =
    "0023 01 036d7831 0000000000000001 00000001 00000001 0000000000015180 0175 00000001";

const RESERVE_2: &str =
    "0023 01 036d7831 0000000000000001 00000002 00000002 0000000000015180 0175 00000001";

const SETTLE_1: &str =
    "0023 02 036d7831 0000000000000001 00000003 00000001 0000000000015180 0175 00000001";

const SETTLE_2: &str =
    "0023 02 036d7831 0000000000000001 00000004 00000002 0000000000015180 0175 00000001";

const RELEASE_2: &str = "001f 03 036d7831 0000000000000001 00000004 00000002 0000000000015180 0175";

const SETTLE_WAITS: &str =
    "settle 3 of transaction 1 (host mx1, login u): no answer in 1 tries, it waits";

/// Closings are sent in order.
const SENT_IN_ORDER: Case<'static> = Case {
    tries: 3,
    replies: &[
        Reply::Body("81 036d7831 0000000000000001 00000001 00000001"),
        Reply::Body("81 036d7831 0000000000000001 00000002 00000001"),
        // the first closing finds no answer: a body outside the grammar, a retry, another kind
        Reply::Body("00"),
        Reply::Body("8d"),
        Reply::Body("81 036d7831 0000000000000001 00000003 00000001"),
        // at the second both are sent, and the first is found closed
        Reply::Fault(LinkFault::TimedOut),
        Reply::Body("87 036d7831 0000000000000001 00000003"),
        Reply::Body("89 036d7831 0000000000000001 00000004 00000000"),
    ],
    steps: &[
        Step::Begin(2),
        Step::Close(1, CloseEnd::Commit),
        Step::Close(2, CloseEnd::Commit),
        Step::Waiting(0),
        // a transaction that isn't held
        Step::Close(9, CloseEnd::Commit),
        Step::Drain(0),
    ],
    sent: Sent::Frames(&[
        RESERVE_1, RESERVE_2, SETTLE_1, SETTLE_1, SETTLE_1, SETTLE_1, SETTLE_1, SETTLE_2,
    ]),
    log: Some(&[
        "settle 3 of transaction 1 (host mx1, login u): \
            no answer in 3 tries, but a reply of another kind or number, it waits",
        "settle 3 of transaction 1 (host mx1, login u): the transaction was closed before",
        "settle 4 of transaction 2 (host mx1, login u): \
            the transaction holds 0 only, the server's address may have moved",
    ]),
};

const TWO_WAIT: Case<'static> = Case {
    tries: 1,
    replies: &[
        Reply::Body("81 036d7831 0000000000000001 00000001 00000001"),
        Reply::Body("81 036d7831 0000000000000001 00000002 00000001"),
        Reply::Fault(LinkFault::Down),
        Reply::Fault(LinkFault::Down),
        // the link is up again
        Reply::Body("83 036d7831 0000000000000001 00000003 00000001"),
        Reply::Body("84 036d7831 0000000000000001 00000004 00000001"),
    ],
    steps: &[
        Step::Begin(2),
        Step::Close(1, CloseEnd::Commit),
        Step::Close(2, CloseEnd::Rollback),
        Step::Waiting(2),
        Step::Drain(0),
        Step::Waiting(0),
    ],
    sent: Sent::Frames(&[
        RESERVE_1, RESERVE_2, SETTLE_1, SETTLE_1, SETTLE_1, RELEASE_2,
    ]),
    log: Some(&[SETTLE_WAITS, SETTLE_WAITS]),
};

/// Requests without an answer.
const UNANSWERED: Case<'static> = Case {
    tries: 1,
    replies: &[],
    steps: &[
        Step::Reserve(7, 86_400, b"u", RecipientAnswer::Unavailable),
        Step::Close(7, CloseEnd::Rollback),
    ],
    sent: Sent::Frames(&[
        "0023 01 036d7831 0000000000000001 00000001 00000007 0000000000015180 0175 00000001",
        "001f 03 036d7831 0000000000000001 00000002 00000007 0000000000015180 0175",
    ]),
    log: Some(&[
        "reserve 1 of transaction 7 (host mx1, login u): no answer in 1 tries",
        "release 2 of transaction 7 (host mx1, login u): no answer in 1 tries, it waits",
    ]),
};

/// A reply decides a settle.
const DECIDED: Case<'static> = Case {
    tries: 3,
    replies: &[],
    steps: &[
        Step::Reserve(7, 86_400, b"u", RecipientAnswer::Granted),
        Step::Close(7, CloseEnd::Commit),
        Step::Waiting(0),
    ],
    sent: Sent::Count(2),
    log: Some(&[]),
};

/// The replies that decide it, and what is warned of then.
const DECIDING: &[Case<'static>] = &[
    Case {
        replies: &[
            GRANTED,
            Reply::Body("83 036d7831 0000000000000001 00000002 00000001"),
        ],
        ..DECIDED
    },
    Case {
        replies: &[
            GRANTED,
            Reply::Body("84 036d7831 0000000000000001 00000002 00000001"),
        ],
        ..DECIDED
    },
    Case {
        replies: &[
            GRANTED,
            Reply::Body("87 036d7831 0000000000000001 00000002"),
        ],
        log: Some(&[
            "settle 2 of transaction 7 (host mx1, login u): the transaction was closed before",
        ]),
        ..DECIDED
    },
    Case {
        replies: &[
            GRANTED,
            Reply::Body("88 036d7831 0000000000000001 00000002"),
        ],
        log: Some(&[
            "settle 2 of transaction 7 (host mx1, login u): the transaction has another login or moment",
        ]),
        ..DECIDED
    },
    Case {
        replies: &[
            GRANTED,
            Reply::Body("89 036d7831 0000000000000001 00000002 00000003"),
        ],
        log: Some(&[
            "settle 2 of transaction 7 (host mx1, login u): \
                the transaction holds 3 only, the server's address may have moved",
        ]),
        ..DECIDED
    },
    Case {
        replies: &[
            GRANTED,
            Reply::Body("8a 036d7831 0000000000000001 00000002"),
        ],
        log: Some(&[
            "settle 2 of transaction 7 (host mx1, login u): the number was used by another request",
        ]),
        ..DECIDED
    },
    Case {
        replies: &[
            GRANTED,
            Reply::Body("90 036d7831 0000000000000001 00000002"),
        ],
        log: Some(&[
            "run 1 of host mx1 is retired, recipients are answered 451: restart smtpd, but first see \"A filter that is retired\" in OPERATING.md",
            "settle 2 of transaction 7 (host mx1, login u): the run is retired",
        ]),
        ..DECIDED
    },
];

/// A full client is told once in a session.
const FULL_IS_TOLD: Case<'static> = Case {
    tries: 1,
    replies: &[
        Reply::Transactions(ROOM),
        Reply::Body("81 036d7831 0000000000000001 00001001 00001001"),
    ],
    steps: &[
        Step::Begin(ROOM),
        // a transaction that is held has its place
        Step::Granted(1),
        Step::Refused(b"s", 4097),
        Step::Refused(b"s", 4097),
        Step::Refused(b"t", 4097),
        Step::Refused(b"s", 4097),
    ],
    sent: Sent::Count(4097),
    log: Some(&[
        "session s (login u): recipients are refused, 4,096 transactions are open or wait for the server",
        "session t (login u): recipients are refused, 4,096 transactions are open or wait for the server",
    ]),
};

/// A transaction with a thousand recipients is told.
const THOUSAND_ARE_TOLD: Case<'static> = Case {
    tries: 1,
    replies: &[Reply::Recipients(1000)],
    steps: &[Step::Granted(1000), Step::Refused(b"s", 1)],
    sent: Sent::Count(1000),
    log: Some(&[
        "session s (login u): recipients are refused, the transaction has 1,000 recipients already",
    ]),
};

fn assert_cases(rt: &impl Abort, alloc: Global, cases: &[Case<'_>]) {
    for case in cases {
        assert_case(rt, alloc, case);
    }
}

#[test]
fn calls_of_a_full_client(rt: HostRuntime) {
    assert_cases(&rt, rt.alloc(), &[FULL, FULL_IS_TOLD, THOUSAND_ARE_TOLD]);
}

#[test]
fn closings_in_order(rt: HostRuntime) {
    assert_cases(&rt, rt.alloc(), &[SENT_IN_ORDER, TWO_WAIT, UNANSWERED]);
}

#[test]
fn each_reply_that_decides_a_closing(rt: HostRuntime) {
    assert_cases(&rt, rt.alloc(), DECIDING);
}

/// A closing that waits, and the number of its request.
#[derive(Clone, Copy)]
struct Waiting {
    number: u32,
    txn: u32,
    end: CloseEnd,
}

/// The closings of 4,096 transactions, numbered from 4,097 on, the newest transaction first: this
/// is the one at a place from 1 on. Every third transaction is dropped.
fn closing_at(place: u32) -> Waiting {
    let txn = (ROOM + 1).wrapping_sub(place);
    Waiting {
        number: ROOM.wrapping_add(place),
        txn,
        end: if txn % 3 == 0 {
            CloseEnd::Rollback
        } else {
            CloseEnd::Commit
        },
    }
}

/// Its frame: a commit of one recipient or a drop.
fn frame_of(rt: &impl Abort, alloc: Global, waiting: Waiting) -> Vec<u8> {
    let (front, back) = match waiting.end {
        CloseEnd::Commit => (
            "0023 02 036d7831 0000000000000001",
            "0000000000015180 0175 00000001",
        ),
        CloseEnd::Rollback => ("001f 03 036d7831 0000000000000001", "0000000000015180 0175"),
    };
    let mut frame = bytes_of(rt, alloc, front);
    append(rt, &mut frame, &waiting.number.to_be_bytes());
    append(rt, &mut frame, &waiting.txn.to_be_bytes());
    append(rt, &mut frame, &bytes_of(rt, alloc, back));
    frame
}

/// A link that decides each of these closings.
fn deciding(rt: &impl Abort, alloc: Global) -> ScriptLink {
    let mut script = VecDeque::new(alloc);
    for place in 1..=ROOM {
        let Waiting { number, end, .. } = closing_at(place);
        let front = match end {
            CloseEnd::Commit => "83 036d7831 0000000000000001",
            CloseEnd::Rollback => "84 036d7831 0000000000000001",
        };
        add_numbered(rt, alloc, &mut script, front, number, 1);
    }
    ScriptLink::new(alloc, script)
}

fn close_all(rt: &impl Abort, rig: &mut Rig) {
    for place in 1..=ROOM {
        let Waiting { txn, end, .. } = closing_at(place);
        close(rt, rig, txn, end);
    }
}

/// Asserts that the exchanges sent these closings.
fn assert_closings(rt: &impl Abort, alloc: Global, kept: &[ReportedExchange]) {
    for (place, told) in (1..=ROOM).zip(kept) {
        let frame = frame_of(rt, alloc, closing_at(place));
        assert_bytes(rt, told.frame.as_slice(), &frame);
    }
}

const IN_VAIN: &[Step<'static>] = &[
    Step::Held(0),
    Step::Waiting(4096),
    Step::Drain(4096),
    Step::Exchanges(4096 + 2 * 4097),
];

const ALL_SENT: &[Step<'static>] = &[Step::Drain(0), Step::Waiting(0), Step::Exchanges(4096)];

/// The link is down after the grants, each request has two tries, and then there is another link.
#[test]
fn a_full_outbox(rt: HostRuntime) {
    let alloc = rt.alloc();
    let mut rig = rig_of(&rt, alloc, 2, &[Reply::Transactions(ROOM)]);
    begin(&rt, &mut rig, ROOM);
    close_all(&rt, &mut rig);
    play(&rt, &mut rig, IN_VAIN);
    rig.link = deciding(&rt, alloc);
    play(&rt, &mut rig, ALL_SENT);
    assert_closings(&rt, alloc, rig.link.kept());
}
