//! Logins, transactions and their closings.

use super::fixtures::{Answer, COMMITS_3, DROPS_1, DROPS_2, NOTHING, Step};
use mq_track::{Standing, TrackFault};

const LOGIN_A: Standing<'static> = Standing::Login { login: b"a" };

const FIRST: Standing<'static> = Standing::Open {
    login: b"a",
    txn: 1,
    moment: 12,
};

const THIRD: Standing<'static> = Standing::Open {
    login: b"a",
    txn: 3,
    moment: 15,
};

const TWO_SESSIONS: &[Step<'static>] = &[
    Step::Line("report|0.7|10.0|smtp-in|link-auth|s1|pass|a", NOTHING),
    Step::Line("report|0.7|11.0|smtp-in|link-auth|s2|pass|b", NOTHING),
    Step::Line("report|0.7|12.0|smtp-in|tx-begin|s1|m1", NOTHING),
    Step::Line("report|0.7|13.0|smtp-in|tx-begin|s2|m2", NOTHING),
    Step::Line("report|0.7|14.0|smtp-in|link-disconnect|s2", DROPS_2),
    Step::Session("s2", Standing::Anonymous),
    Step::Session("s1", FIRST),
    Step::Line("report|0.7|15.0|smtp-in|tx-begin|s1|m3", DROPS_1),
    Step::Session("s1", THIRD),
];

const NO_RESULT: Answer = Err(TrackFault::Auth);

/// Result and name of a login in either order.
const EITHER_ORDER: &[Step<'static>] = &[
    Step::Line("report|0.7|10.0|smtp-in|link-auth|s1|pass|a|b", NOTHING),
    Step::Session("s1", Standing::Login { login: b"a|b" }),
    Step::Line("report|0.7|10.0|smtp-in|link-auth|s2|a|b|pass", NOTHING),
    Step::Session("s2", Standing::Login { login: b"a|b" }),
    Step::Line("report|0.7|10.0|smtp-in|link-auth|s3|pass|fail", NOTHING),
    Step::Session("s3", Standing::Login { login: b"fail" }),
    Step::Line("report|0.7|10.0|smtp-in|link-auth|s4|pass", NOTHING),
    Step::Session("s4", Standing::Login { login: b"" }),
    Step::Line("report|0.7|10.0|smtp-in|link-auth|s5|a|b", NO_RESULT),
    Step::Session("s5", Standing::Anonymous),
    Step::Line("report|0.7|10.0|smtp-in|link-auth|s6|", NO_RESULT),
    Step::Session("s6", Standing::Anonymous),
    Step::Line("report|0.7|10.0|smtp-in|link-auth|s7", NO_RESULT),
    Step::Session("s7", Standing::Anonymous),
];

/// Only a login that passed counts.
const ONLY_ONE_PASSED: &[Step<'static>] = &[
    Step::Line("report|0.7|10.0|smtp-in|link-auth|s|fail|a", NOTHING),
    Step::Session("s", Standing::Anonymous),
    Step::Line("report|0.7|10.0|smtp-in|link-auth|s|error|a", NOTHING),
    Step::Session("s", Standing::Anonymous),
    Step::Line("report|0.7|10.0|smtp-out|link-auth|s|pass|a", NOTHING),
    Step::Session("s", Standing::Anonymous),
    Step::Line("report|0.7|10.0|smtp-out|link-auth|s|a|b", NOTHING),
    Step::Session("s", Standing::Anonymous),
    Step::Line("report|0.7|10.0|smtp-in|tx-mail|s|pass|a", NOTHING),
    Step::Session("s", Standing::Anonymous),
    Step::Line("filter|0.7|10.0|smtp-in|link-auth|s|token|pass|a", NOTHING),
    Step::Session("s", Standing::Anonymous),
    Step::Line("report|0.7|10.0|smtp-in|link-auth|s|pass|a", NOTHING),
    Step::Line("report|0.7|11.0|smtp-in|link-auth|s|fail|b", NOTHING),
    Step::Session("s", LOGIN_A),
    Step::Session("S", Standing::Anonymous),
];

const OPEN: Standing<'static> = Standing::Open {
    login: b"a",
    txn: 1,
    moment: 10,
};

const NO_MESSAGE: Answer = Err(TrackFault::Message);

/// Endings look at the message id.
const ENDINGS: &[Step<'static>] = &[
    Step::Line("report|0.7|10.0|smtp-in|tx-begin|s|m1", NOTHING),
    Step::Session("s", Standing::Anonymous),
    Step::Line("report|0.7|11.0|smtp-in|link-auth|s|pass|a", NOTHING),
    // the end of another transaction
    Step::Line("report|0.7|12.0|smtp-in|tx-commit|s|m2|1200", NOTHING),
    Step::Session("s", OPEN),
    Step::Line("report|0.7|12.0|smtp-in|tx-rollback|s|m2", NOTHING),
    Step::Session("s", OPEN),
    Step::Line("report|0.7|12.0|smtp-in|tx-reset|s|m2", NOTHING),
    Step::Session("s", OPEN),
    Step::Line("report|0.7|12.0|smtp-in|tx-commit|t|m1|1200", NOTHING),
    Step::Session("s", OPEN),
    Step::Line("report|0.7|12.0|smtp-in|tx-begin|s|", NO_MESSAGE),
    Step::Session("s", OPEN),
    Step::Line("report|0.7|12.0|smtp-in|tx-commit|s", NO_MESSAGE),
    Step::Session("s", OPEN),
    Step::Line("report|0.7|12.0|smtp-in|tx-rollback|s||x", NO_MESSAGE),
    Step::Session("s", OPEN),
    Step::Line("report|0.7|13.0|smtp-in|tx-reset|s", DROPS_1),
    Step::Session("s", LOGIN_A),
];

/// Where an allocation fails, as `rt try --test --fail-alloc N` has it, the line can be given
/// again.
const GIVEN_AGAIN: &[Step<'static>] = &[
    Step::Again("report|0.7|10.0|smtp-in|link-auth|s|pass|a", NOTHING),
    Step::Again("report|0.7|11.0|smtp-in|tx-begin|s|m1", NOTHING),
    Step::Again("report|0.7|12.0|smtp-in|tx-begin|t|m2", NOTHING),
    Step::Again("report|0.7|13.0|smtp-in|tx-begin|s|m3", DROPS_1),
    Step::Again("report|0.7|14.0|smtp-in|link-auth|s|pass|b", NOTHING),
    Step::Again("report|0.7|15.0|smtp-in|tx-commit|s|m3|1", COMMITS_3),
    Step::Again("report|0.7|16.0|smtp-in|link-disconnect|t", DROPS_2),
    Step::Session("s", Standing::Login { login: b"b" }),
    Step::Session("t", Standing::Anonymous),
];

pub const LOGINS: &[&[Step<'static>]] = &[EITHER_ORDER, ONLY_ONE_PASSED];

pub const TRANSACTIONS: &[&[Step<'static>]] = &[GIVEN_AGAIN, TWO_SESSIONS, ENDINGS];
