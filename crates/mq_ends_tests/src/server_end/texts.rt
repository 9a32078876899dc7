//! What is printed where a program ends by a fault.

use crate::server_end::asserts::assert_shown;
use mq_frame::DecodeFault;
use mq_ledger::LedgerFault;
use mq_server::ServeFault;

#[test]
fn texts_of_faults(rt: HostRuntime) {
    let alloc = rt.alloc();
    assert_shown(&rt, alloc, &DecodeFault::Memory, "out of memory");
    assert_shown(&rt, alloc, &LedgerFault::Memory, "out of memory");
    assert_shown(&rt, alloc, &LedgerFault::Store, "store failed");
    assert_shown(&rt, alloc, &ServeFault::Read, "read failed");
    assert_shown(&rt, alloc, &ServeFault::Write, "write failed");
    assert_shown(&rt, alloc, &ServeFault::Memory, "out of memory");
    assert_shown(&rt, alloc, &ServeFault::Store, "store failed");
}
