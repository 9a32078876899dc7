//! A link that logs why no reply comes.

use crate::link::{Link, LinkFault};
use crate::outage::Outage;
use crate::trouble::Trouble;
use log::{Level, Log, log};
use mq_frame::{ReplyParts, read_reply};
use std::fmt;
use std::marker::Model;
use std::net::SocketAddr;
use std::time::Instant;

/// A link that says why its last exchange brought no reply.
pub trait Explain {
    /// Where the server is.
    fn address(&self) -> SocketAddr;

    /// Why the last exchange brought no reply, if it brought none.
    fn trouble(&self) -> Option<&Trouble>;

    /// The time by its clock, if that can be read.
    fn now(&self) -> Option<Instant>;
}

/// A link with a log of its outages: an error line once all exchanges of a request brought no
/// answer, with what the last one met, and a warning where an answer comes again, with how many
/// requests got none. So a server that is away costs two lines, however often it is asked, and at
/// most one outage is logged in a second (`outage.rt`). Each of its exchanges is one of the link's,
/// with the same frame and the same end; contracts see the link.
#[derive(Drop)]
pub struct LoggedLink<'a, L, G> {
    link: L,
    log: &'a G,
    outage: Outage,
}

impl<'a, L, G> Model for LoggedLink<'a, L, G> {
    ghost Value = { L };

    ghost view = { λ logged. logged.link };
}

/// Why an exchange brought no answer: what went wrong, or what came in its place.
#[derive(Clone, Copy)]
struct UnansweredExchange<'a> {
    trouble: Option<&'a Trouble>,
    body: &'a [u8],
}

impl fmt::Display for UnansweredExchange<'_> {
    fn fmt<W: fmt::Write>(&self, f: &mut fmt::Formatter<W>) -> fmt::Result {
        if let Some(trouble) = self.trouble {
            return trouble.fmt(f);
        }
        match read_reply(self.body) {
            Some(ReplyParts::Retry) => f.write_str("it can't take the request now"),
            Some(_) => f.write_str("it takes the request for none"),
            None => write!(f, "{} bytes that are no reply", self.body.len()),
        }
    }
}

/// An answer that came after so many requests that got none.
#[derive(Clone, Copy)]
struct Answers {
    requests: u32,
}

impl fmt::Display for Answers {
    fn fmt<W: fmt::Write>(&self, f: &mut fmt::Formatter<W>) -> fmt::Result {
        let requests = self.requests;
        write!(f, "answers again, requests without an answer: {requests}")
    }
}

impl<'a, L: Link + Explain, G: Log> LoggedLink<'a, L, G> {
    ghost use Rattle.std.specs.Prelude.{◌≡◌};

    /// The link with a log of its outages. `tries` is how often a request is sent that gets no
    /// answer.
    pub fn new(link: L, log: &'a G, tries: u32) -> LoggedLink<'a, L, G>
        ensures { result ≡ link }
    {
        LoggedLink {
            link,
            log,
            outage: Outage::new(tries),
        }
    }

    /// Notes what an exchange brought.
    fn note(&mut self, body: &[u8])
        ensures { self.new ≡ self.old }
    {
        match read_reply(body) {
            None | Some(ReplyParts::Retry | ReplyParts::Bad) => self.note_none(body),
            Some(_) => self.note_answer(),
        }
    }

    /// Notes that an exchange brought no answer.
    fn note_none(&mut self, body: &[u8])
        ensures { self.new ≡ self.old }
    {
        if self.outage.miss() && self.outage.begin(self.link.now()) {
            self.log_trouble(body);
        }
    }

    /// Notes that an exchange brought an answer.
    fn note_answer(&mut self)
        ensures { self.new ≡ self.old }
    {
        // Mostly no request went without one, and the clock isn't read.
        let now = if self.outage.counts_any() {
            self.link.now()
        } else {
            None
        };
        if let Some(requests) = self.outage.end(now) {
            self.report(Level::Warn, &Answers { requests });
        }
    }

    /// Logs why the last exchange brought no answer.
    fn log_trouble(&self, body: &[u8]) {
        let unanswered = UnansweredExchange {
            trouble: self.link.trouble(),
            body,
        };
        self.report(Level::Error, &unanswered);
    }

    /// Logs a text about the quota server.
    fn report<T: fmt::Display>(&self, level: Level, text: &T) {
        let address = self.link.address();
        log!(self.log; level, "quota server {address}: {text}");
    }
}

impl<L: Link + Explain, G: Log> Link for LoggedLink<'_, L, G> {
    // The exchanges of its link.
    ghost told = { λ logged. L.told logged };

    fn exchange(&mut self, frame: &[u8], reply: &mut Vec<u8>) -> Result<(), LinkFault> {
        let ended = self.link.exchange(frame, reply);
        self.note(reply.as_slice());
        ended
    }
}
