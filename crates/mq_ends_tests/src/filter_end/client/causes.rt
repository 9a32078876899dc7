//! Why recipients are refused without asking, as the log says.
use super::*;

const NAMELESS: &str = "report|0.7|1576146008.006099|smtp-in|link-auth|7641df9771b4ed00|pass|
";

const BOB: &str = "report|0.7|1576146010.006099|smtp-in|link-auth|7641df9771b4ed00|pass|bob
";

const EARLY: &str = "report|0.7|0000086399.000000|smtp-in|tx-begin|7641df9771b4ed00|4c56d3a1
";

const NO_TRANSACTION: &str = "session 7641df9771b4ed00 (login alice): recipients are refused, \
    smtpd reported no transaction";

const NO_LOGIN: &str = "session 7641df9771b4ed00 (login ): recipients are refused, \
    the login is empty or longer than 255 bytes";

const NO_DAY: &str = "session 7641df9771b4ed00 (login alice): recipients are refused, \
    the transaction's second is out of range";

const ANOTHER: &str = "session 7641df9771b4ed00 (login bob): recipients are refused, \
    the transaction began with another login or at another second";

const UNANSWERED: &str =
    "reserve 1 of transaction 1 (host mx1, session 7641df9771b4ed00, login alice): \
    no answer in 1 tries";

const REFUSES_TWO: &[&str] = &[REGISTRATION, SERVICE, SERVICE];

/// Each cause is told once in a session.
const CAUSES: &[Row<'static>] = &[
    Row {
        name: "no transaction, told once",
        lines: &[CONFIG, AUTH, RECIPIENT, RECIPIENT],
        ended: TWO_ANSWERS,
        text: REFUSES_TWO,
        log: Some(&[NO_TRANSACTION]),
        ..PLAIN
    },
    Row {
        name: "no login, told once",
        lines: &[CONFIG, NAMELESS, BEGIN, RECIPIENT, RECIPIENT],
        ended: TWO_ANSWERS,
        text: REFUSES_TWO,
        log: Some(&[NO_LOGIN]),
        ..PLAIN
    },
    Row {
        name: "no day",
        lines: &[CONFIG, AUTH, EARLY, RECIPIENT],
        text: REFUSES,
        log: Some(&[NO_DAY]),
        ..PLAIN
    },
    Row {
        name: "two causes",
        lines: &[CONFIG, AUTH, RECIPIENT, EARLY, RECIPIENT, RECIPIENT],
        ended: THREE_ANSWERS,
        text: &[REGISTRATION, SERVICE, SERVICE, SERVICE],
        log: Some(&[NO_TRANSACTION, NO_DAY]),
        ..PLAIN
    },
    // the server is down, and the transaction is held
    Row {
        name: "another login",
        tries: 1,
        lines: &[CONFIG, AUTH, BEGIN, RECIPIENT, BOB, RECIPIENT],
        ended: TWO_ANSWERS,
        text: REFUSES_TWO,
        sent: Sent::Frames(&[RESERVE]),
        held: 1,
        log: Some(&[UNANSWERED, ANOTHER]),
        ..PLAIN
    },
];

#[test]
fn each_cause_is_told_once_in_a_session(rt: HostRuntime) {
    assert_rows(&rt, rt.alloc(), CAUSES);
}
