//! Why a request gets no reply of the ledger's.
ghost use Rattle.std.specs.Prelude.{◌≡◌};
ghost use Rattle.mq_watch.specs.Unanswered.{fault_of};

use mq_ledger::LedgerFault;

/// Why a request gets no reply of the ledger's.
#[derive(Clone, Copy, Debug, PartialEq, Eq)]
pub enum Unanswered {
    /// Its peer may not ask it, by the permits: it isn't put to the ledger.
    Forbidden,
    /// It is ahead of the server's time: it isn't put to the ledger.
    Ahead,
    /// The ledger couldn't take it.
    Fault(LedgerFault),
}

impl Unanswered {
    /// How a server answers it. What wasn't put to the ledger is answered as where memory runs out:
    /// it is as if it had been lost, and may be sent again.
    pub fn fault(self) -> LedgerFault
        ensures { result ≡ fault_of self }
    {
        match self {
            Unanswered::Forbidden | Unanswered::Ahead => LedgerFault::Memory,
            Unanswered::Fault(fault) => fault,
        }
    }
}
