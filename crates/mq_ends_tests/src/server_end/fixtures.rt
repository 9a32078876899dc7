//! What the tests are made of. None of it has a clause, so that a long test stays cheap to prove.

use crate::server_end::asserts::MEMORY;
use mq_frame::decode_request;
use mq_permits::Peer;
use mq_request::{Host, Id, Login, Request, UsageRow, UsageRows};
use std::alloc::Global;
use std::net::SocketAddr;
use std::process::Abort;

/// The bytes of a text of hexadecimal digits, with spaces between whole bytes.
pub fn bytes_of(rt: &impl Abort, alloc: Global, text: &str) -> Vec<u8> {
    let digits = text.replace(alloc, " ", "").expect(rt, MEMORY);
    hex::decode(alloc, digits.as_bytes()).expect(rt, "hexadecimal digits")
}

/// The request of a body.
pub fn request_of(rt: &impl Abort, alloc: Global, body: &str) -> Request {
    decode_request(alloc, &bytes_of(rt, alloc, body)).expect(rt, "the body of a request")
}

/// The number of a request of the host's first run.
pub fn id(rt: &impl Abort, alloc: Global, host: &[u8], number: u32) -> Id {
    Id {
        host: Host::from_slice(alloc, host).expect(rt, MEMORY),
        run: 1,
        number,
    }
}

pub fn login(rt: &impl Abort, alloc: Global, name: &[u8]) -> Login {
    Login::from_slice(alloc, name).expect(rt, MEMORY)
}

/// A peer at this address, of another machine than the server's.
pub fn stranger(address: SocketAddr) -> Peer {
    Peer {
        address,
        here: None,
    }
}

/// So many rows of the login `u`.
pub fn page(rt: &impl Abort, alloc: Global, count: usize) -> UsageRows {
    let row = UsageRow {
        login: login(rt, alloc, b"u"),
        settled: 0,
        reserved: 1,
        cap: 3,
    };
    UsageRows::new(vec![in alloc; row; count].expect(rt, MEMORY))
}

/// So many bytes, and those after them.
pub fn split(bytes: &[u8], count: usize) -> (&[u8], &[u8]) {
    bytes.split_at(count.min(bytes.len()))
}
