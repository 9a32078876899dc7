//! Which refused settles may come of a move of the server's address, so that the log has one
//! warning for each move.

use crate::verdict::Verdict;
use log::Level;
use mq_request::Request;

/// A server that the address moved to doesn't know the transactions that were open, and refuses to
/// settle them. smtpd's transactions are numbered as they begin: once one is warned of, those begun
/// before that warning are of the same move.
#[derive(Drop)]
pub struct Moves {
    /// The newest transaction that was asked for.
    newest: u32,
    /// The newest one at the last warning.
    warned: u32,
}

impl Moves {
    /// None so far.
    pub fn new() -> Moves {
        Moves {
            newest: 0,
            warned: 0,
        }
    }

    /// A request was decided.
    pub fn see(&mut self, request: &Request) {
        if let Request::Reserve { txn, .. } = request {
            self.newest = self.newest.max(*txn);
        }
    }

    /// At which level the refusal of this request is logged.
    pub fn level(&mut self, request: &Request, verdict: Verdict) -> Level {
        match (request, verdict) {
            (Request::Settle { txn, .. }, Verdict::TooMany(_)) => self.level_of(*txn),
            _ => Level::Warn,
        }
    }

    /// The same of a settle of this transaction, which holds fewer than are settled.
    fn level_of(&mut self, txn: u32) -> Level {
        if txn <= self.warned {
            return Level::Info;
        }
        self.warned = self.newest;
        Level::Warn
    }
}
