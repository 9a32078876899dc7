//! What the log has of a server that gives no answer.
//!
//! The helpers have no clauses, so that a test stays cheap to prove.

use crate::server_end::asserts::assert_text;
use log::sink::Memory as Kept;
use mq_link::{Explain, Link, LinkFault, LoggedLink, Trouble};
use std::alloc::Global;
use std::cell::Cell;
use std::io;
use std::net::SocketAddr;
use std::process::Abort;
use std::rt::Clock;
use std::test::Fail;
use std::time::{Duration, Instant};

/// A clock that shows so many milliseconds.
#[derive(Clone, Copy)]
struct At(u64);

impl Clock for At {
    fn monotonic(&self) -> io::Result<Duration> {
        Ok(Duration::from_millis(self.0))
    }

    fn since_1970(&self) -> io::Result<Duration> {
        self.monotonic()
    }
}

/// What an exchange brings.
#[derive(Clone, Copy, PartialEq, Eq)]
enum Brings {
    Nothing,
    /// A reply to some request, by which its transaction is closed.
    Closed,
    Retry,
    Bad,
    NoReply,
}

/// Its body, which is empty where nothing comes.
fn body_of(brings: Brings) -> &'static [u8] {
    match brings {
        Brings::Nothing => b"",
        Brings::Closed => { b"\x87\x01a\x00\x00\x00\x00\x00\x00\x00\x01\x00\x00\x00\x01" }
        Brings::Retry => b"\x8d",
        Brings::Bad => b"\x8e",
        Brings::NoReply => b"\x00",
    }
}

/// What the next exchanges bring, and when.
#[derive(Drop)]
struct Stage {
    millis: Cell<u64>,
    brings: Cell<Brings>,
}

/// A link whose exchanges bring what stands there.
#[derive(Drop)]
struct Staged<'a> {
    stage: &'a Stage,
    address: SocketAddr,
    trouble: Trouble,
}

impl Explain for Staged<'_> {
    fn address(&self) -> SocketAddr {
        self.address
    }

    /// There is one where nothing came.
    fn trouble(&self) -> Option<&Trouble> {
        if self.stage.brings.get() == Brings::Nothing {
            Some(&self.trouble)
        } else {
            None
        }
    }

    fn now(&self) -> Option<Instant> {
        Instant::now(&At(self.stage.millis.get())).ok()
    }
}

impl Link for Staged<'_> {
    fn exchange(&mut self, _frame: &[u8], reply: &mut Vec<u8>) -> Result<(), LinkFault> {
        reply.clear();
        let body = body_of(self.stage.brings.get());
        if body.is_empty() {
            return Err(LinkFault::Down);
        }
        reply.extend_from_slice(body).or(Err(LinkFault::Memory))
    }
}

/// So many exchanges at a millisecond, each of which brings this.
type Row = (u64, u32, Brings);

/// Exchanges of a link, and the lines of its log.
#[derive(Clone, Copy)]
struct Case<'a> {
    rows: &'a [Row],
    log: &'a [&'a str],
}

const REFUSED: &str = "[ERROR mq_link::logged] quota server 127.0.0.1:7025: a reply of no bytes";

const AFTER_1: &str =
    "[WARN  mq_link::logged] quota server 127.0.0.1:7025: answers again, requests without an answer: 1";

const AFTER_2: &str =
    "[WARN  mq_link::logged] quota server 127.0.0.1:7025: answers again, requests without an answer: 2";

const AFTER_4: &str =
    "[WARN  mq_link::logged] quota server 127.0.0.1:7025: answers again, requests without an answer: 4";

/// One line at the beginning and one at the end, however long it lasts.
const ONE_OUTAGE: &[Case<'static>] = &[
    Case {
        rows: &[
            (0, 3, Brings::Closed),
            (1, 2, Brings::Nothing),
            (2, 1, Brings::Closed),
            (3, 2, Brings::Nothing),
            (4, 1, Brings::Closed),
        ],
        log: &[],
    },
    Case {
        rows: &[(5, 3, Brings::Nothing)],
        log: &[REFUSED],
    },
    Case {
        rows: &[
            (5, 3, Brings::Nothing),
            (60_000, 9, Brings::Nothing),
            (60_001, 2, Brings::Closed),
        ],
        log: &[REFUSED, AFTER_4],
    },
    // the next request is answered at its third try
    Case {
        rows: &[(5, 5, Brings::Nothing), (6, 1, Brings::Closed)],
        log: &[REFUSED, AFTER_1],
    },
    Case {
        rows: &[
            (5, 3, Brings::Retry),
            (6, 1, Brings::Closed),
            (2_000, 1, Brings::Bad),
            (2_000, 2, Brings::NoReply),
            (2_001, 1, Brings::Closed),
        ],
        log: &[
            "[ERROR mq_link::logged] quota server 127.0.0.1:7025: it can't take the request now",
            AFTER_1,
            "[ERROR mq_link::logged] quota server 127.0.0.1:7025: 1 bytes that are no reply",
            AFTER_1,
        ],
    },
    Case {
        rows: &[(5, 3, Brings::Bad)],
        log: &[
            "[ERROR mq_link::logged] quota server 127.0.0.1:7025: it takes the request for none",
        ],
    },
];

/// Of outages less than a second after a line only the first is logged, and the next line counts
/// the others.
const MANY_OUTAGES: &[Case<'static>] = &[
    Case {
        rows: &[
            (0, 3, Brings::Nothing),
            (1, 1, Brings::Closed),
            (1_000, 3, Brings::Nothing),
            (1_000, 1, Brings::Closed),
        ],
        log: &[REFUSED, AFTER_1],
    },
    Case {
        rows: &[
            (0, 3, Brings::Nothing),
            (1, 1, Brings::Closed),
            (1_001, 3, Brings::Nothing),
            (1_001, 1, Brings::Closed),
        ],
        log: &[REFUSED, AFTER_1, REFUSED, AFTER_1],
    },
    // it goes on until a line is due
    Case {
        rows: &[
            (0, 3, Brings::Nothing),
            (1, 1, Brings::Closed),
            (1_000, 3, Brings::Nothing),
            (1_001, 3, Brings::Nothing),
            (1_001, 1, Brings::Closed),
        ],
        log: &[REFUSED, AFTER_1, REFUSED, AFTER_2],
    },
    // it ends before, and an answer after that counts it
    Case {
        rows: &[
            (0, 3, Brings::Nothing),
            (1, 1, Brings::Closed),
            (2, 6, Brings::Nothing),
            (1_000, 1, Brings::Closed),
            (1_001, 3, Brings::Closed),
        ],
        log: &[REFUSED, AFTER_1, AFTER_2],
    },
    Case {
        rows: &[
            (0, 3, Brings::Nothing),
            (1, 1, Brings::Closed),
            (2, 3, Brings::Nothing),
            (3, 1, Brings::Closed),
            (4, 6, Brings::Nothing),
            (5, 1, Brings::Closed),
            (2_000, 3, Brings::Nothing),
            (2_001, 1, Brings::Closed),
        ],
        log: &[REFUSED, AFTER_1, REFUSED, AFTER_4],
    },
];

/// Makes these exchanges.
fn play<L: Link>(alloc: Global, stage: &Stage, link: &mut L, rows: &[Row]) -> Result<(), Fail> {
    let mut reply = Vec::new(alloc);
    for (millis, exchanges, brings) in rows {
        stage.millis.set(*millis);
        stage.brings.set(*brings);
        for _exchange in 0..*exchanges {
            let ended = link.exchange(b"frame", &mut reply);
            if ended.is_ok() == (*brings == Brings::Nothing) {
                return Err("another end of an exchange".into());
            }
        }
    }
    Ok(())
}

/// Asserts what is logged of requests that are sent three times.
fn assert_case(rt: &impl Abort, alloc: Global, case: &Case<'_>) -> Result<(), Fail> {
    let log = Kept::new(alloc);
    let stage = Stage {
        millis: Cell::new(0),
        brings: Cell::new(Brings::Nothing),
    };
    let staged = Staged {
        stage: &stage,
        address: "127.0.0.1:7025".parse::<SocketAddr>()?,
        trouble: Trouble::Empty,
    };
    let mut link = LoggedLink::new(staged, &log, 3);
    play(alloc, &stage, &mut link, case.rows)?;
    drop(link);
    assert_lines(rt, log.into_lines().as_slice(), case.log);
    Ok(())
}

fn assert_lines(rt: &impl Abort, lines: &[String], wanted: &[&str]) {
    for (line, text) in lines.iter().zip(wanted) {
        assert_text(rt, line.as_str(), text);
    }
    assert_eq!(rt; lines.len(), wanted.len(), "lines of the log");
}

fn assert_cases(rt: &impl Abort, alloc: Global, cases: &[Case<'_>]) -> Result<(), Fail> {
    for case in cases {
        assert_case(rt, alloc, case)?;
    }
    Ok(())
}

#[test]
fn an_outage_has_two_lines(rt: HostRuntime) -> Result<(), Fail> {
    assert_cases(&rt, rt.alloc(), ONE_OUTAGE)
}

#[test]
fn outages_less_than_a_second_apart(rt: HostRuntime) -> Result<(), Fail> {
    assert_cases(&rt, rt.alloc(), MANY_OUTAGES)
}
