//! What a real smtpd, OpenSMTPD 7.6.0p1, wrote to a filter.
use super::*;

const FRONT: &str = "config|smtpd-version|7.6.0-portable
config|protocol|0.7
config|smtp-session-timeout|300
config|subsystem|smtp-in
config|admd|vm
config|ready
";

const A_RESET: &str = "report|0.7|1795329219.245094|smtp-in|link-auth|37ab31835d776ace|pass|u01
report|0.7|1795329219.246102|smtp-in|tx-begin|37ab31835d776ace|3621dc70
filter|0.7|1795329219.246450|smtp-in|rcpt-to|37ab31835d776ace|6e5fd6102582181a|r1@example.test
filter|0.7|1795329219.247445|smtp-in|rcpt-to|37ab31835d776ace|6e5fd6102582181a|r2@example.test
report|0.7|1795329219.248142|smtp-in|tx-rollback|37ab31835d776ace|3621dc70
report|0.7|1795329219.248144|smtp-in|tx-reset|37ab31835d776ace|3621dc70
report|0.7|1795329219.248587|smtp-in|link-disconnect|37ab31835d776ace
";

const A_SECOND_MAIL: &str =
    "report|0.7|1795329220.402849|smtp-in|link-auth|8830003b8d1c8ffe|pass|u01
report|0.7|1795329220.403778|smtp-in|tx-begin|8830003b8d1c8ffe|5040c0c1
filter|0.7|1795329220.403977|smtp-in|rcpt-to|8830003b8d1c8ffe|4d35946cb887bc94|r1@example.test
report|0.7|1795329220.452388|smtp-in|tx-commit|8830003b8d1c8ffe|5040c0c1|510
report|0.7|1795329220.452389|smtp-in|tx-reset|8830003b8d1c8ffe|5040c0c1
report|0.7|1795329220.453155|smtp-in|tx-begin|8830003b8d1c8ffe|4495a441
filter|0.7|1795329220.453482|smtp-in|rcpt-to|8830003b8d1c8ffe|4d35946cb887bc94|r2@example.test
report|0.7|1795329220.502282|smtp-in|tx-commit|8830003b8d1c8ffe|4495a441|510
report|0.7|1795329220.502284|smtp-in|tx-reset|8830003b8d1c8ffe|4495a441
report|0.7|1795329220.502808|smtp-in|link-disconnect|8830003b8d1c8ffe
";

const TWO_SESSIONS: &str = "report|0.7|1795329227.087003|smtp-in|link-auth|d1214ca5ddd8451a|pass|u01
report|0.7|1795329227.307022|smtp-in|link-auth|d1214ca6b2f3c582|pass|u02
report|0.7|1795329227.308202|smtp-in|tx-begin|d1214ca5ddd8451a|8e076780
report|0.7|1795329227.308784|smtp-in|tx-begin|d1214ca6b2f3c582|aa55d61d
filter|0.7|1795329227.308921|smtp-in|rcpt-to|d1214ca5ddd8451a|a90d6ef2fbf8626f|r1@example.test
filter|0.7|1795329227.309904|smtp-in|rcpt-to|d1214ca6b2f3c582|a90d6ef2fbf8626f|r2@example.test
filter|0.7|1795329227.310926|smtp-in|rcpt-to|d1214ca5ddd8451a|a90d6ef2fbf8626f|r3@example.test
report|0.7|1795329227.360418|smtp-in|tx-commit|d1214ca6b2f3c582|aa55d61d|510
report|0.7|1795329227.360420|smtp-in|tx-reset|d1214ca6b2f3c582|aa55d61d
report|0.7|1795329227.361090|smtp-in|tx-rollback|d1214ca5ddd8451a|8e076780
report|0.7|1795329227.361091|smtp-in|tx-reset|d1214ca5ddd8451a|8e076780
report|0.7|1795329227.361306|smtp-in|link-disconnect|d1214ca6b2f3c582
report|0.7|1795329227.361774|smtp-in|link-disconnect|d1214ca5ddd8451a
";

const RESET: Row<'static> = Row {
    name: "a reset",
    replies: &[
        Reply::Body("81 036d7831 0000000000000001 00000001 00000001"),
        Reply::Body("81 036d7831 0000000000000001 00000002 00000002"),
        Reply::Body("84 036d7831 0000000000000001 00000003 00000002"),
    ],
    lines: &[FRONT, A_RESET],
    ended: TWO_ANSWERS,
    text: &[
        REGISTRATION,
        "filter-result|37ab31835d776ace|6e5fd6102582181a|proceed\n",
        "filter-result|37ab31835d776ace|6e5fd6102582181a|proceed\n",
    ],
    sent: Sent::Frames(&[
        "002501036d783100000000000000010000000100000001000000006b028cc30375303100000001",
        "002501036d783100000000000000010000000200000001000000006b028cc30375303100000001",
        "002103036d783100000000000000010000000300000001000000006b028cc303753031",
    ]),
    ..PLAIN
};

#[test]
fn a_real_reset(rt: HostRuntime) {
    assert_row(&rt, rt.alloc(), &RESET);
}

const SECOND_MAIL: Row<'static> = Row {
    name: "a second mail",
    replies: &[
        Reply::Body("81 036d7831 0000000000000001 00000001 00000001"),
        Reply::Body("83 036d7831 0000000000000001 00000002 00000001"),
        Reply::Body("82 036d7831 0000000000000001 00000003 00000001 00000001"),
        Reply::Body("84 036d7831 0000000000000001 00000004 00000000"),
    ],
    lines: &[FRONT, A_SECOND_MAIL],
    ended: TWO_ANSWERS,
    text: &[
        REGISTRATION,
        "filter-result|8830003b8d1c8ffe|4d35946cb887bc94|proceed\n",
        "filter-result|8830003b8d1c8ffe|4d35946cb887bc94|reject|550 daily recipient limit reached\n",
    ],
    sent: Sent::Frames(&[
        "002501036d783100000000000000010000000100000001000000006b028cc40375303100000001",
        "002502036d783100000000000000010000000200000001000000006b028cc40375303100000001",
        "002501036d783100000000000000010000000300000002000000006b028cc40375303100000001",
        "002103036d783100000000000000010000000400000002000000006b028cc403753031",
    ]),
    ..PLAIN
};

#[test]
fn a_real_second_mail(rt: HostRuntime) {
    assert_row(&rt, rt.alloc(), &SECOND_MAIL);
}

const SESSIONS: Row<'static> = Row {
    name: "two sessions",
    replies: &[
        Reply::Body("81 036d7831 0000000000000001 00000001 00000001"),
        Reply::Body("81 036d7831 0000000000000001 00000002 00000001"),
        Reply::Body("81 036d7831 0000000000000001 00000003 00000002"),
        Reply::Body("83 036d7831 0000000000000001 00000004 00000001"),
        Reply::Body("84 036d7831 0000000000000001 00000005 00000002"),
    ],
    lines: &[FRONT, TWO_SESSIONS],
    ended: THREE_ANSWERS,
    text: &[
        REGISTRATION,
        "filter-result|d1214ca5ddd8451a|a90d6ef2fbf8626f|proceed\n",
        "filter-result|d1214ca6b2f3c582|a90d6ef2fbf8626f|proceed\n",
        "filter-result|d1214ca5ddd8451a|a90d6ef2fbf8626f|proceed\n",
    ],
    sent: Sent::Frames(&[
        "002501036d783100000000000000010000000100000001000000006b028ccb0375303100000001",
        "002501036d783100000000000000010000000200000002000000006b028ccb0375303200000001",
        "002501036d783100000000000000010000000300000001000000006b028ccb0375303100000001",
        "002502036d783100000000000000010000000400000002000000006b028ccb0375303200000001",
        "002103036d783100000000000000010000000500000001000000006b028ccb03753031",
    ]),
    ..PLAIN
};

#[test]
fn two_real_sessions(rt: HostRuntime) {
    assert_row(&rt, rt.alloc(), &SESSIONS);
}
