//! What a link over connections of the test's own takes and logs, whatever came before.

use crate::server_end::asserts::{assert_bytes, assert_text, assert_that};
use crate::server_end::wires::{Wires, brought};
use log::sink::Memory as Kept;
use mq_link::{Link, LoggedLink, TcpLink};
use std::alloc::Global;
use std::process::Abort;
use std::rt::Clock;
use std::test::Fail;
use std::time::Duration;

/// A request whose first exchange finds no connection, and whose second one is answered that there
/// is no memory: the log says the latter.
#[test]
fn the_last_trouble_is_logged(rt: HostRuntime) -> Result<(), Fail> {
    let alloc = rt.alloc();
    let log = Kept::new(alloc);
    let wires = Wires {
        alloc,
        failures: 1,
        awaited: b"frame",
        reply: b"\x00\x01\x8d",
        address: "127.0.0.1:7025".parse()?,
    };
    let mut link = LoggedLink::new(
        TcpLink::over(wires, &rt, Duration::from_millis(10_000)),
        &log,
        2,
    );
    assert_text(&rt, brought(alloc, &mut link, b"frame")?.as_str(), "down");
    assert_text(&rt, brought(alloc, &mut link, b"frame")?.as_str(), "8d");
    drop(link);
    let lines = log.into_lines();
    let mut lines = lines.as_slice().iter();
    let line = lines.next().expect(&rt, "a line");
    let wanted =
        "[ERROR mq_link::logged] quota server 127.0.0.1:7025: it can't take the request now";
    assert_text(&rt, line.as_str(), wanted);
    assert_that(&rt, lines.next().is_none(), "no further line");
    Ok(())
}

/// A frame of so many bytes is sent whole, and the body of so many comes back.
fn check_lengths<R: Abort + Clock>(
    rt: &R,
    alloc: Global,
    frame: usize,
    body: u16,
) -> Result<(), Fail> {
    let frame = vec![in alloc; 7u8; frame]?;
    let wanted = vec![in alloc; 9u8; usize::from(body)]?;
    let mut reply = Vec::from_slice(alloc, &body.to_be_bytes())?;
    reply.extend_from_slice(&wanted)?;
    let wires = Wires {
        alloc,
        failures: 0,
        awaited: &frame,
        reply: &reply,
        address: "127.0.0.1:7025".parse()?,
    };
    let mut link = TcpLink::over(wires, rt, Duration::from_millis(10_000));
    let mut found = Vec::new(alloc);
    let ended = link.exchange(&frame, &mut found);
    assert_that(rt, ended.is_ok(), "a reply");
    assert_bytes(rt, &found, &wanted, "the body of a reply");
    Ok(())
}

#[test]
fn frames_of_all_lengths(rt: HostRuntime) -> Result<(), Fail> {
    for frame in [
        1, 2, 33, 64, 100, 128, 200, 255, 256, 257, 300, 352, 512, 1_024,
    ] {
        check_lengths(&rt, rt.alloc(), frame, 17)?;
    }
    Ok(())
}

#[test]
fn replies_of_all_lengths(rt: HostRuntime) -> Result<(), Fail> {
    for body in [
        1, 2, 255, 256, 257, 1_000, 4_096, 8_192, 10_001, 20_001, 26_807, 65_535,
    ] {
        check_lengths(&rt, rt.alloc(), 33, body)?;
    }
    Ok(())
}
