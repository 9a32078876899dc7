//! The link to the quota server, by the exchanges that were made over it.

use mq_request::Bytes;

/// Why an exchange brought no reply.
#[derive(Clone, Copy, Debug, PartialEq, Eq)]
pub enum LinkFault {
    /// The server couldn't be reached, or its reply was cut off.
    Down,
    /// Connecting, writing or reading took too long.
    TimedOut,
    /// The reply found no memory.
    Memory,
}

/// How an exchange ended.
#[derive(Debug, Drop)]
pub enum ExchangeOutcome {
    /// A body came, whatever it spells.
    Answered(Bytes),
    Faulted(LinkFault),
}

/// One exchange, as a link reports it: the frame that was sent, and how it ended.
#[derive(Debug, Drop)]
pub struct ReportedExchange {
    /// With the length of its body.
    pub frame: Bytes,
    pub outcome: ExchangeOutcome,
}

/// A link to the quota server.
pub trait Link {
    ghost use Rattle.std.specs.Prelude.{◌≡◌, ◌∷◌, [], List, Option, None, OnErr};
    ghost use Rattle.mq_lemmas.specs.Told.{Tells};
    ghost use Rattle.mq_link.specs.Link.{outcome_of};
    ghost use Rattle.mq_link.specs.declared.link.ReportedExchange.{ReportedExchange};

    // The exchanges so far, the oldest first, where the link reports them.
    ghost told: { Self → Option (List ReportedExchange) } = { λ _. None };

    /// Sends a frame, length included, and waits for the body of one reply. On a fault `reply` is
    /// empty.
    fn exchange(&mut self, frame: &[u8], reply: &mut Vec<u8>) -> Result<(), LinkFault>
        ensures told { Tells (told self.old) (told self.new)
            (record { frame = frame.now; outcome = outcome_of result reply.new.items } ∷ []) }
        ensures empty { OnErr result (reply.new.items ≡ []) };
}
