//! The link and the server over the loopback, both ends in one process, one after the other.
//!
//! The helpers have no clauses, so that a test stays cheap to prove.

use crate::server_end::asserts::assert_text;
use crate::server_end::fixtures::bytes_of;
use crate::server_end::server::RESERVE;
use crate::server_end::serving::{ledger, run};
use mq_link::{Connector, Link, LinkFault, TcpLink};
use mq_server::EndCause;
use mq_stream::{FromRead, WriterSink};
use std::alloc::{AllocError, Global};
use std::net::{Net, TcpListener, TcpStream};
use std::process::Abort;
use std::test::Fail;
use std::time::Duration;

/// Any free port.
const LOOPBACK: &str = "127.0.0.1:0";

/// Milliseconds that are enough for what is to come.
const LONG: u64 = 10_000;

/// The body of the reply to `RESERVE`, which is granted, with 1 recipient used.
const GRANTED_BODY: &str = "81016100000000000000010000000100000001";

/// A link over the loopback.
type Linked<'a> = TcpLink<'a, HostRuntime, Connector<'a, HostRuntime>>;

/// A listener at a free port.
fn listener(rt: &HostRuntime) -> Result<TcpListener, Fail> {
    let listener: TcpListener = TcpListener::bind(rt, LOOPBACK)?;
    Ok(listener)
}

/// A link to a listener.
fn link_to<'a>(rt: &'a HostRuntime, listener: &TcpListener) -> Result<Linked<'a>, Fail> {
    let address = listener.local_addr()?;
    Ok(TcpLink::new(rt, address, Duration::from_millis(LONG)))
}

/// What stands in place of an older reply: its digits, or the fault before them.
fn text_of(
    alloc: Global,
    ended: Result<(), LinkFault>,
    reply: &[u8],
) -> Result<String, AllocError> {
    let digits = hex::encode(alloc, reply)?;
    match ended {
        Ok(()) => Ok(digits),
        Err(fault) => format!(in alloc; "{fault:?}{digits}"),
    }
}

/// What is received in place of an older reply.
fn received(alloc: Global, link: &mut Linked<'_>, stream: TcpStream) -> Result<String, AllocError> {
    let mut reply = Vec::from_slice(alloc, b"old")?;
    let ended = link.receive(stream, &mut reply);
    text_of(alloc, ended, reply.as_slice())
}

/// What the exchange of a frame brings in place of an older reply.
fn exchanged(alloc: Global, link: &mut Linked<'_>, frame: &[u8]) -> Result<String, AllocError> {
    let mut reply = Vec::from_slice(alloc, b"old")?;
    let ended = link.exchange(frame, &mut reply);
    text_of(alloc, ended, reply.as_slice())
}

/// Serves the next connection over a new ledger whose logins may write to 3 recipients, to the end
/// of its input.
fn serve_next(rt: &impl Abort, alloc: Global, listener: &TcpListener) -> Result<(), Fail> {
    let (stream, _) = listener.accept()?;
    let mut ledger = ledger(rt, alloc, 3);
    let mut input = FromRead::new(&stream);
    let mut output = WriterSink::new(&stream);
    match run(alloc, &mut input, &mut output, &mut ledger)? {
        EndCause::InputEnd => Ok(()),
        _ => Err("not served".into()),
    }
}

#[test]
fn one_reserve(rt: HostRuntime) -> Result<(), Fail> {
    let listener = listener(&rt)?;
    let mut link = link_to(&rt, &listener)?;
    let stream = link.send(&bytes_of(&rt, rt.alloc(), RESERVE))?;
    serve_next(&rt, rt.alloc(), &listener)?;
    let reply = received(rt.alloc(), &mut link, stream)?;
    assert_text(&rt, reply.as_str(), GRANTED_BODY);
    Ok(())
}

#[test]
fn nobody_listens(rt: HostRuntime) -> Result<(), Fail> {
    let listener = listener(&rt)?;
    let mut link = link_to(&rt, &listener)?;
    drop(listener);
    let frame = bytes_of(&rt, rt.alloc(), RESERVE);
    let found = exchanged(rt.alloc(), &mut link, &frame)?;
    assert_text(&rt, found.as_str(), "Down");
    Ok(())
}
