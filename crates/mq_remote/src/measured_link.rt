//! A link whose exchanges are counted.

use crate::seconds::seconds_now;
use mq_frame::{ReplyParts, read_reply};
use mq_link::{Explain, Link, LinkFault, Trouble};
use mq_metrics::FilterMetrics;
use mq_process::WallClock;
use std::marker::Model;
use std::net::SocketAddr;
use std::time::Instant;

/// A link whose exchanges are counted, by how each ended and how long they took. Each of them is
/// one of the link's, with the same frame and the same end; contracts see the link.
#[derive(Drop)]
pub struct MeasuredLink<'a, R, L> {
    link: L,
    rt: &'a R,
    metrics: &'a FilterMetrics,
}

impl<'a, R, L> Model for MeasuredLink<'a, R, L> {
    ghost Value = { L };

    ghost view = { λ measured. measured.link };
}

impl<'a, R: WallClock, L: Link + Explain> MeasuredLink<'a, R, L> {
    ghost use Rattle.std.specs.Prelude.{◌≡◌};

    /// The link, whose exchanges are counted from here on.
    pub fn new(link: L, rt: &'a R, metrics: &'a FilterMetrics) -> MeasuredLink<'a, R, L>
        ensures { result ≡ link }
    {
        MeasuredLink { link, rt, metrics }
    }

    /// Counts an exchange that ended so, with this body of a reply.
    fn count(&self, ended: Result<(), LinkFault>, body: &[u8]) {
        let counts = &self.metrics.exchanges;
        match ended {
            Ok(()) if is_answer(body) => {
                counts.answer.increment();
                self.note_answer();
            }
            Ok(()) => counts.no_answer.increment(),
            Err(LinkFault::TimedOut) => counts.timed_out.increment(),
            Err(LinkFault::Down) => counts.down.increment(),
            Err(LinkFault::Memory) => counts.memory.increment(),
        }
    }

    /// Notes when the server answered last.
    fn note_answer(&self) {
        if let Some(seconds) = seconds_now(self.rt) {
            self.metrics.last_answer.set(seconds);
        }
    }

    /// Adds how long an exchange took that began then.
    fn add_time(&self, begun: Option<Instant>) {
        if let (Some(begun), Some(ended)) = (begun, self.link.now()) {
            let nanos = ended.duration_since(begun).as_nanos();
            self.metrics
                .waited
                .add(u64::try_from(nanos).unwrap_or(u64::MAX));
        }
    }
}

/// Whether the body of a reply is an answer, to whichever request.
fn is_answer(body: &[u8]) -> bool {
    !matches!(
        read_reply(body),
        None | Some(ReplyParts::Retry | ReplyParts::Bad)
    )
}

impl<R: WallClock, L: Link + Explain> Explain for MeasuredLink<'_, R, L> {
    fn address(&self) -> SocketAddr {
        self.link.address()
    }

    fn trouble(&self) -> Option<&Trouble> {
        self.link.trouble()
    }

    fn now(&self) -> Option<Instant> {
        self.link.now()
    }
}

impl<R: WallClock, L: Link + Explain> Link for MeasuredLink<'_, R, L> {
    // The exchanges of its link.
    ghost told = { λ measured. L.told measured };

    fn exchange(&mut self, frame: &[u8], reply: &mut Vec<u8>) -> Result<(), LinkFault> {
        let begun = self.link.now();
        let ended = self.link.exchange(frame, reply);
        self.add_time(begun);
        self.count(ended, reply.as_slice());
        ended
    }
}
