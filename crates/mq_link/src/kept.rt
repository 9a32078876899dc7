//! A connection that is kept for many exchanges.
ghost use Rattle.std.specs.Prelude.{◌≡◌, [], IfOk, OnErr};
ghost use Rattle.mq_link.specs.Keeping.{Carries, kept_after};

use crate::body::read_body;
use crate::timed::TimedStream;
use crate::trouble::Trouble;
use std::io::{Read, Write};
use std::net::OpenStream;
use std::rt::Clock;
use std::time::{Duration, Instant};

/// A connection that carried so many exchanges carries one more, and no further one: the server
/// takes 10,000 frames, and warns then.
const LAST: u32 = 9_998;

/// A connection that is kept.
#[derive(Drop)]
pub struct KeptStream<S> {
    pub stream: S,
    /// How many exchanges went over it.
    pub exchanges: u32,
}

/// A connection after one more exchange, where it may carry a further one.
fn kept_after<S: Drop>(stream: S, exchanges: u32) -> Option<KeptStream<S>>
    ensures { result ≡ kept_after stream exchanges }
{
    if exchanges >= LAST {
        return None;
    }
    Some(KeptStream {
        stream,
        exchanges: exchanges + 1,
    })
}

impl<S: Read + Write + OpenStream + Drop> KeptStream<S> {
    /// A connection over which nothing went yet.
    pub fn new(stream: S) -> KeptStream<S>
        ensures { result ≡ record { stream = stream; exchanges = 0 } }
    {
        KeptStream {
            stream,
            exchanges: 0,
        }
    }

    /// Writes a whole frame and reads the body of one reply, with a timeout for each call and a
    /// deadline for all of them. The connection is left where it may carry a further exchange.
    pub fn exchange<K: Clock>(
        self,
        clock: &K,
        timeout: Duration,
        deadline: Instant,
        frame: &[u8],
        reply: &mut Vec<u8>,
    ) -> Result<Option<KeptStream<S>>, Trouble>
        ensures carried { IfOk result (λ now. (after : S)
            × Carries S.contents S.remaining frame.now reply.new.items self.stream after
            × (now ≡ kept_after after self.exchanges)) }
        ensures empty { OnErr result (reply.new.items ≡ []) }
    {
        reply.clear();
        let mut stream = TimedStream::new(self.stream, clock, timeout, deadline);
        stream.write_all(frame)?;
        read_body(&mut stream, reply)?;
        Ok(kept_after(stream.into_inner(), self.exchanges))
    }
}
