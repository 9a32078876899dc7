//! A ledger that fails where a test wants it.

use mq_ledger::{Ledger, LedgerFault, Zone};
use mq_request::{Reply, Request};

/// A ledger that answers a fault at one call, `calls_before` calls after the start.
#[derive(Drop)]
pub struct FailsOnce<L> {
    pub ledger: L,
    pub calls_before: u32,
    pub fault: LedgerFault,
}

impl<L: Ledger> Ledger for FailsOnce<L> {
    ghost book = { λ s. L.book s.ledger };

    ghost has_kept = { λ s. L.has_kept s.ledger };

    ghost is_sound = { λ s. L.is_sound s.ledger };

    ghost sound_is_kept = { λ s. L.sound_is_kept s.ledger };

    ghost sound_is_legal = { λ s. L.sound_is_legal s.ledger };

    fn zone(&self) -> &Zone {
        self.ledger.zone()
    }

    fn default_cap(&self) -> u32 {
        self.ledger.default_cap()
    }

    fn apply(&mut self, request: &Request) -> Result<Reply, LedgerFault> {
        if self.calls_before == 0 {
            self.calls_before = u32::MAX;
            return Err(self.fault);
        }
        self.calls_before -= 1;
        self.ledger.apply(request)
    }
}
