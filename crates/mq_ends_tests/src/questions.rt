//! `limit` and `report` over a link and an output that no run of the program has: an exchange
//! without memory, and a flush that fails. The rest is asked of the built program.
//!
//! The helpers have no clauses, so that a test stays cheap to prove.

use mq_command::{ReportFault, run_limit, run_report};
use mq_link::{Link, LinkFault};
use mq_request::{Host, Id, Login, Request, is_request};
use std::alloc::Global;
use std::io::{ErrorKind, Write};
use std::process::Abort;
use std::test::Fail;
use std::{io, str};

/// How an exchange ends.
#[derive(Clone, Copy)]
enum End {
    Body(&'static [u8]),
    Fault(LinkFault),
}

/// A link whose exchanges end so, in order, and that is down then.
#[derive(Drop)]
struct Scripted<'a> {
    ends: &'a [End],
}

impl Scripted<'_> {
    fn next_end(&mut self) -> End {
        match self.ends.split_first() {
            Some((first, rest)) => {
                self.ends = rest;
                *first
            }
            None => End::Fault(LinkFault::Down),
        }
    }
}

impl Link for Scripted<'_> {
    fn exchange(&mut self, _frame: &[u8], reply: &mut Vec<u8>) -> Result<(), LinkFault> {
        reply.clear();
        match self.next_end() {
            End::Body(body) => reply.extend_from_slice(body).or(Err(LinkFault::Memory)),
            End::Fault(fault) => Err(fault),
        }
    }
}

/// An output that keeps what it takes, and whose flush fails.
#[derive(Drop)]
struct Unflushed {
    taken: Vec<u8>,
}

impl Write for Unflushed {
    fn write(&mut self, buf: &[u8]) -> io::Result<usize> {
        match self.taken.extend_from_slice(buf) {
            Ok(()) => Ok(buf.len()),
            Err(_) => Err(io::Error::from(ErrorKind::OutOfMemory)),
        }
    }

    fn flush(&mut self) -> io::Result<()> {
        Err(io::Error::from(ErrorKind::BrokenPipe))
    }
}

/// What is asked.
#[derive(Clone, Copy)]
enum Ask {
    /// The limit of 2 of login `u` from day 1 on, under number 4.
    Limit,
    /// The report of login `u` on day 1.
    Login,
    /// The report of all logins on day 1.
    All,
}

/// Asserts what is printed, said and ended with, with a `|` between, where this is asked over such
/// a link.
fn assert_told(
    rt: &(impl Abort + AllocGlobal),
    ask: Ask,
    ends: &[End],
    wanted: &str,
) -> Result<(), Fail> {
    let alloc = rt.alloc();
    let mut link = Scripted { ends };
    let mut output = Unflushed {
        taken: Vec::new(alloc),
    };
    let mut errors = Vec::new(alloc);
    let status = asked(alloc, &mut link, ask, &mut output, &mut errors)?;
    let printed = str::from_utf8(output.taken.as_slice())?;
    let said = str::from_utf8(errors.as_slice())?;
    let found = format!(in alloc; "{printed}|{said}|{status}")?;
    assert_eq!(rt; found.as_str(), wanted);
    Ok(())
}

/// The status of what is asked.
fn asked(
    alloc: Global,
    link: &mut Scripted<'_>,
    ask: Ask,
    output: &mut Unflushed,
    errors: &mut Vec<u8>,
) -> Result<u8, Fail> {
    let login = Login::from_slice(alloc, b"u")?;
    match ask {
        Ask::Limit => limited(alloc, link, login, output, errors),
        Ask::Login => Ok(run_report(alloc, link, 1, Some(&login), output, errors)),
        Ask::All => Ok(run_report(alloc, link, 1, None, output, errors)),
    }
}

/// The status of the limit.
fn limited(
    alloc: Global,
    link: &mut Scripted<'_>,
    login: Login,
    output: &mut Unflushed,
    errors: &mut Vec<u8>,
) -> Result<u8, Fail> {
    let request = Request::Limit {
        id: Id {
            host: Host::from_slice(alloc, b"a")?,
            run: 1,
            number: 4,
        },
        from_day: 1,
        cap: 2,
        login,
    };
    if !is_request(&request) {
        return Err("no request".into());
    }
    Ok(run_limit(alloc, link, &request, output, errors))
}

/// That the limit is set; what login `u` used, and the same as a page.
const SET: End = End::Body(b"\x85\x01a\0\0\0\0\0\0\0\x01\0\0\0\x04");

const USED: End = End::Body(b"\x8b\x01u\0\0\0\x01\0\0\0\x01\0\0\0\0\0\0\0\x03");

const PAGE: End = End::Body(b"\x8c\0\0\0\x01\x01\x01u\0\0\0\x01\0\0\0\0\0\0\0\x03");

/// A body of no bytes.
const NOTHING: End = End::Body(b"");

const UNAVAILABLE: &str = "|mailquota: quota service unavailable\n|1";

/// What is asked, how the exchanges end, and what is told of it.
const TOLD: [(Ask, &[End], &str); 5] = [
    (
        Ask::Limit,
        &[
            End::Fault(LinkFault::Down),
            End::Fault(LinkFault::TimedOut),
            End::Fault(LinkFault::Memory),
            SET,
        ],
        UNAVAILABLE,
    ),
    (Ask::Limit, &[NOTHING, NOTHING, NOTHING, SET], UNAVAILABLE),
    (Ask::Limit, &[SET], "set\n|mailquota: write failed\n|1"),
    (
        Ask::Login,
        &[USED],
        "      1       0       3 u\n|mailquota: write failed\n|1",
    ),
    (
        Ask::All,
        &[PAGE],
        "      1       0       3 u\n|mailquota: write failed\n|1",
    ),
];

#[test]
fn questions(rt: HostRuntime) -> Result<(), Fail> {
    for (ask, ends, wanted) in TOLD {
        assert_told(&rt, ask, ends, wanted)?;
    }
    // It takes 100,000 full pages.
    let text = ReportFault::TooManyPages.to_string(rt.alloc())?;
    assert_eq!(rt; text.as_str(), "too many pages");
    Ok(())
}
