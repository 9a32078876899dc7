//! A chore of the ledger that a watched one stands around.
use crate::watched::WatchedLedger;
use log::Log;
use mq_chore::{Chore, Piece};
use mq_ledger::Ledger;
use std::rt::Clock;

/// A chore of the ledger that a watched one stands around: it asks that one, so no line is logged
/// of its questions.
#[derive(Drop)]
pub struct InnerChore<K> {
    pub chore: K,
}

impl<L: Ledger, C: Clock, G: Log, K: Chore<L>> Chore<WatchedLedger<'_, L, C, G>> for InnerChore<K> {
    ghost fits = { λ inner book. K.fits inner.chore book };

    ghost is_done = { λ inner book. K.is_done inner.chore book };

    fn go_on(&mut self, ledger: &mut WatchedLedger<'_, L, C, G>) -> Piece {
        self.chore.go_on(&mut ledger.watch.ledger)
    }
}
