//! What a filter writes.

use crate::filter_end::asserts::{MEMORY, assert_bytes};
use mq_line::{Decision, write_registration, write_result};
use std::process::Abort;

const WRITTEN: &[u8] = b"register|report|smtp-in|link-auth
register|report|smtp-in|link-disconnect
register|report|smtp-in|tx-begin
register|report|smtp-in|tx-commit
register|report|smtp-in|tx-rollback
register|report|smtp-in|tx-reset
register|filter|smtp-in|rcpt-to
register|ready
filter-result|7641df9771b4ed00|1ef1c203cc576e5d|proceed
filter-result|7641df9771b4ed00|1ef1c203cc576e5d|reject|550 daily recipient limit reached
filter-result|7641df9771b4ed00|1ef1c203cc576e5d|reject|451 quota service unavailable
";

const DECISIONS: &[Decision] = &[
    Decision::Proceed,
    Decision::RejectLimit,
    Decision::RejectService,
];

fn write_decision(rt: &impl Abort, decision: Decision, out: &mut Vec<u8>) {
    let session = b"7641df9771b4ed00";
    let token = b"1ef1c203cc576e5d";
    write_result(session, token, decision, out).expect(rt, MEMORY);
}

fn write_all(rt: &impl Abort, out: &mut Vec<u8>) {
    write_registration(out).expect(rt, MEMORY);
    for decision in DECISIONS {
        write_decision(rt, *decision, out);
    }
}

#[test]
fn what_a_filter_writes(rt: HostRuntime) {
    let mut out = Vec::new(rt.alloc());
    write_all(&rt, &mut out);
    assert_bytes(&rt, &out, WRITTEN);
}
