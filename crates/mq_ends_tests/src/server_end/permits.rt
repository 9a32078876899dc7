//! Many hosts' permits: what they allow, and that a question of them costs little.

use crate::server_end::asserts::{MEMORY, assert_that};
use crate::server_end::fixtures::{request_of, stranger};
use mq_permits::{AddressNumber, Family, Hosts, Network, Origin, Peer, Permits};
use mq_request::{Host, Request};
use std::alloc::Global;
use std::process::Abort;
use std::rt::Clock;
use std::test::Fail;
use std::time::Instant;

/// The hosts of the table, and the addresses of each.
const HOSTS: u32 = 1_000;

const ORIGINS: u32 = 16;

/// 10.0.0.0, as a number.
const FIRST: u32 = 0x0a00_0000;

/// The host of this number.
fn host_of(rt: &impl Abort, alloc: Global, number: u32) -> Host {
    let name = format!(in alloc; "mx{number}.example.org").expect(rt, MEMORY);
    Host::from_slice(alloc, name.as_bytes()).expect(rt, MEMORY)
}

/// The addresses of the host of this number.
fn origins_of(rt: &impl Abort, alloc: Global, number: u32) -> Vec<Origin> {
    let mut origins = Vec::new(alloc);
    for place in 0..ORIGINS {
        let start = AddressNumber {
            family: Family::Four,
            value: u128::from(FIRST + number * ORIGINS + place),
        };
        origins
            .push(Origin::Network(Network { start, prefix: 32 }))
            .expect(rt, MEMORY);
    }
    origins
}

/// A table of the hosts from this number on. This machine itself sets limits.
fn table_from(rt: &impl Abort, alloc: Global, first: u32) -> Permits {
    let mut hosts = Hosts::new(alloc);
    for number in first..HOSTS {
        hosts
            .put(host_of(rt, alloc, number), origins_of(rt, alloc, number))
            .expect(rt, MEMORY);
    }
    Permits {
        hosts,
        admin: vec![in alloc; Origin::ThisMachine].expect(rt, MEMORY),
        report: Vec::new(alloc),
    }
}

/// How many microseconds a thousand of these questions take. Each is allowed.
fn measure<R: Abort + Clock>(
    rt: &R,
    permits: &Permits,
    peer: &Peer,
    request: &Request,
) -> Result<u128, Fail> {
    let begin = Instant::now(rt)?;
    let mut allowed = 0u32;
    for _question in 0..1_000 {
        if permits.allows(peer, request) {
            allowed += 1;
        }
    }
    assert_that(rt, allowed == 1_000, "each is allowed");
    Ok(Instant::now(rt)?.duration_since(begin).as_micros())
}

/// A reserve of the last host: it may ask from its last address, and from no other's. Among 1,000
/// hosts a question takes little longer than with that one alone.
#[test]
fn a_thousand_hosts(rt: HostRuntime) -> Result<(), Fail> {
    let alloc = rt.alloc();
    let many = table_from(&rt, alloc, 0);
    let one = table_from(&rt, alloc, HOSTS - 1);
    // mx999.example.org
    let reserve = request_of(
        &rt,
        alloc,
        "01 11 6d783939392e6578616d706c652e6f7267 0000000000000001 00000001 00000001 0000000000015180 0175 00000001",
    );
    let own = stranger("10.0.62.127:25".parse()?);
    let other = stranger("10.0.62.111:25".parse()?);
    assert_that(&rt, many.hosts.len() == 1_000, "so many hosts");
    assert_that(&rt, many.allows(&own, &reserve), "its last address");
    assert_that(&rt, !many.allows(&other, &reserve), "another host's");
    let alone = measure(&rt, &one, &own, &reserve)?;
    let among = measure(&rt, &many, &own, &reserve)?;
    assert_that(&rt, among <= 20 * alone + 1_000, "a question among many");
    Ok(())
}
