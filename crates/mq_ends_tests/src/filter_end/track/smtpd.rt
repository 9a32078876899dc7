//! Reports as a real smtpd writes them.

use super::fixtures::{COMMITS_2, DROPS_1, DROPS_2, NOTHING, Step};
use mq_track::Standing;

// A client that logs in, takes back its first message by RSET, sends a second and quits: the
// reports and requests in the order in which OpenSMTPD 7.6.0p1 writes them.
const A_SITTING: &[Step<'static>] = &[
    Step::Line(
        "report|0.7|1795329219.245094|smtp-in|link-auth|37ab31835d776ace|pass|u01",
        NOTHING,
    ),
    Step::Line(
        "report|0.7|1795329219.246102|smtp-in|tx-begin|37ab31835d776ace|3621dc70",
        NOTHING,
    ),
    Step::Line(
        "filter|0.7|1795329219.246450|smtp-in|rcpt-to|37ab31835d776ace|6e5fd6102582181a|r1@example.test",
        NOTHING,
    ),
    Step::Line(
        "report|0.7|1795329219.248142|smtp-in|tx-rollback|37ab31835d776ace|3621dc70",
        DROPS_1,
    ),
    Step::Line(
        "report|0.7|1795329219.248144|smtp-in|tx-reset|37ab31835d776ace|3621dc70",
        NOTHING,
    ),
    Step::Line(
        "report|0.7|1795329219.453155|smtp-in|tx-begin|37ab31835d776ace|4495a441",
        NOTHING,
    ),
    Step::Line(
        "filter|0.7|1795329219.453482|smtp-in|rcpt-to|37ab31835d776ace|6e5fd6102582181a|r2@example.test",
        NOTHING,
    ),
    Step::Line(
        "report|0.7|1795329219.502282|smtp-in|tx-commit|37ab31835d776ace|4495a441|510",
        COMMITS_2,
    ),
    Step::Line(
        "report|0.7|1795329219.502284|smtp-in|tx-reset|37ab31835d776ace|4495a441",
        NOTHING,
    ),
    Step::Line(
        "report|0.7|1795329219.502808|smtp-in|link-disconnect|37ab31835d776ace",
        NOTHING,
    ),
    Step::Session("37ab31835d776ace", Standing::Anonymous),
];

const FIRST: Standing<'static> = Standing::Open {
    login: b"u01",
    txn: 1,
    moment: 1_795_329_227,
};

const SECOND: Standing<'static> = Standing::Open {
    login: b"u02",
    txn: 2,
    moment: 1_795_329_227,
};

const CLOSED: Standing<'static> = Standing::Login { login: b"u01" };

// Two clients at once, as OpenSMTPD 7.6.0p1 wrote their reports: one commits, the other resets.
const TWO_SITTINGS: &[Step<'static>] = &[
    Step::Line("config|smtpd-version|7.6.0-portable", NOTHING),
    Step::Line("config|ready", NOTHING),
    Step::Line(
        "report|0.7|1795329227.087003|smtp-in|link-auth|d1214ca5ddd8451a|pass|u01",
        NOTHING,
    ),
    Step::Line(
        "report|0.7|1795329227.307022|smtp-in|link-auth|d1214ca6b2f3c582|pass|u02",
        NOTHING,
    ),
    Step::Line(
        "report|0.7|1795329227.308202|smtp-in|tx-begin|d1214ca5ddd8451a|8e076780",
        NOTHING,
    ),
    Step::Line(
        "report|0.7|1795329227.308784|smtp-in|tx-begin|d1214ca6b2f3c582|aa55d61d",
        NOTHING,
    ),
    Step::Session("d1214ca5ddd8451a", FIRST),
    Step::Session("d1214ca6b2f3c582", SECOND),
    Step::Line(
        "report|0.7|1795329227.360418|smtp-in|tx-commit|d1214ca6b2f3c582|aa55d61d|510",
        COMMITS_2,
    ),
    Step::Line(
        "report|0.7|1795329227.360420|smtp-in|tx-reset|d1214ca6b2f3c582|aa55d61d",
        NOTHING,
    ),
    Step::Line(
        "report|0.7|1795329227.361090|smtp-in|tx-rollback|d1214ca5ddd8451a|8e076780",
        DROPS_1,
    ),
    Step::Line(
        "report|0.7|1795329227.361091|smtp-in|tx-reset|d1214ca5ddd8451a|8e076780",
        NOTHING,
    ),
    Step::Session("d1214ca5ddd8451a", CLOSED),
    Step::Line(
        "report|0.7|1795329227.361306|smtp-in|link-disconnect|d1214ca6b2f3c582",
        NOTHING,
    ),
    Step::Session("d1214ca6b2f3c582", Standing::Anonymous),
    Step::Session("d1214ca5ddd8451a", CLOSED),
];

pub const SITTINGS: &[&[Step<'static>]] = &[A_SITTING, TWO_SITTINGS];
