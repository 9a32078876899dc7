//! A caller and a ledger that know nothing but the trait.
ghost use Rattle.std.specs.Prelude.{◌≡◌, ◌++◌, All, IfOk, OnOk};
ghost use Rattle.mq_request.specs.Range.{IsRequest};
ghost use Rattle.mq_ledger.specs.Answer.{history_of, replies_after};
ghost use Rattle.mq_ledger.specs.Day.{day_of};
ghost use Rattle.mq_ledger.specs.History.{requests as requests_of};

use crate::server_end::asserts::{MEMORY, assert_printed};
use crate::server_end::fails_once::FailsOnce;
use crate::server_end::fixtures::request_of;
use crate::server_end::serving::ledger;
use mq_ledger::laws::one_more_arrival;
use mq_ledger::{Ledger, LedgerFault};
use mq_request::{Reply, Request, is_request};
use std::alloc::Global;
use std::process::Abort;

/// Applies requests in order, and gives their replies.
fn apply_all<L: Ledger>(
    alloc: Global,
    ledger: &mut L,
    requests: &[Request],
) -> Result<Vec<Reply>, LedgerFault>
    requires { All IsRequest requests.now }
    ensures kept { L.has_kept ledger.new → L.has_kept ledger.old }
    ensures sound { L.has_kept ledger.new → L.is_sound ledger.old → L.is_sound ledger.new }
    ensures history { L.has_kept ledger.new → L.is_sound ledger.old → (let b = L.book ledger.old in
        OnOk result ((L.book ledger.new).history
        ≡ history_of (day_of b.zone) b.default (requests_of b.history ++ requests.now))) }
    ensures replies { L.has_kept ledger.new → L.is_sound ledger.old → (let b = L.book ledger.old in
        IfOk result (λ replies. replies.items
        ≡ replies_after (day_of b.zone) b.default (requests_of b.history) requests.now)) }
{
    one_more_arrival();
    let mut replies = Vec::new(alloc);
    for request in requests {
        let reply = ledger.apply(request)?;
        replies.push(reply).map_err(|_| LedgerFault::Memory)?;
    }
    Ok(replies)
}

/// The bodies of a reserve, and of what was used then.
const BODIES: &[&str] = &[
    "01 0161 0000000000000001 00000001 00000001 0000000000015180 0175 00000001",
    "05 0175 00000001",
];

/// The requests of the bodies.
fn requests(rt: &impl Abort, alloc: Global) -> Vec<Request> {
    let mut requests = Vec::new(alloc);
    for body in BODIES {
        requests
            .push(request_of(rt, alloc, body))
            .expect(rt, MEMORY);
    }
    requests
}

/// The replies to two requests. Without clauses, so that its callers stay cheap to prove.
fn replies_to<L: Ledger>(
    rt: &impl Abort,
    alloc: Global,
    ledger: &mut L,
    requests: &[Request],
) -> Result<Vec<Reply>, LedgerFault> {
    let [first, second] = requests else {
        return Ok(Vec::new(alloc));
    };
    assert!(rt; is_request(first));
    assert!(rt; is_request(second));
    apply_all(alloc, ledger, requests)
}

/// What a ledger replies to the requests is printed so.
fn check_replies<L: Ledger>(rt: &impl Abort, alloc: Global, ledger: &mut L, text: &str) {
    let replies = replies_to(rt, alloc, ledger, &requests(rt, alloc));
    assert_printed(rt, alloc, &replies, text);
}

/// The host is `a`, and the login `u`.
const REPLIES: &str = "Ok([Granted { id: Id { host: [97], run: 1, number: 1 }, used: 1 }, \
                       Usage { login: [117], day: 1, settled: 0, reserved: 1, cap: 3 }])";

#[test]
fn over_any_ledger(rt: HostRuntime) {
    let alloc = rt.alloc();
    check_replies(&rt, alloc, &mut ledger(&rt, alloc, 3), REPLIES);
}

#[test]
fn over_a_ledger_that_fails_once(rt: HostRuntime) {
    let alloc = rt.alloc();
    let mut failing = FailsOnce {
        ledger: ledger(&rt, alloc, 3),
        calls_before: 1,
        fault: LedgerFault::Store,
    };
    for replies in &["Err(Store)", REPLIES] {
        check_replies(&rt, alloc, &mut failing, replies);
    }
    assert!(rt; failing.default_cap() == 3);
    assert!(rt; failing.zone().minutes() == 0);
}
