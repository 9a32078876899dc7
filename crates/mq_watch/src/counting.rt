//! The figures of what comes to a ledger.

use crate::holdings::Holdings;
use crate::unanswered::Unanswered;
use mq_ledger::LedgerFault;
use mq_metrics::{RequestKind, RequestResult, ServerMetrics};
use mq_request::{Reply, Request};
use std::alloc::Global;
use std::time::Duration;

/// What counts the requests that come to a ledger.
#[derive(Drop)]
pub struct Counting<'a> {
    metrics: &'a ServerMetrics,
    holdings: Holdings,
}

impl<'a> Counting<'a> {
    /// No request came yet.
    pub fn new(alloc: Global, metrics: &'a ServerMetrics) -> Counting<'a> {
        Counting {
            metrics,
            holdings: Holdings::new(alloc),
        }
    }

    /// A request came to this.
    pub fn count(&mut self, request: &Request, answer: Result<&Reply, Unanswered>) {
        let outcome = match answer {
            Ok(reply) => self.count_reply(request, reply),
            Err(cause) => result_of(cause),
        };
        let kind = RequestKind::of(request);
        self.metrics.requests.of(kind, outcome).increment();
    }

    /// The ledger took so long for one request, or for several together.
    pub fn count_time(&self, took: Duration) {
        self.metrics.commits.observe(took);
    }

    /// Counts the recipients that a reply grants or gives back. What the request came to by it.
    fn count_reply(&mut self, request: &Request, reply: &Reply) -> RequestResult {
        match (request, reply) {
            (Request::Reserve { id, txn, count, .. }, Reply::Granted { .. }) => {
                if !self.holdings.grant(id, *txn, *count) {
                    return RequestResult::Repeated;
                }
                self.metrics.granted.add(u64::from(*count));
            }
            (Request::Settle { id, txn, .. }, Reply::Settled { count, .. }) => {
                if let Some(held) = self.holdings.close(id, *txn) {
                    let left = held.saturating_sub(u64::from(*count));
                    self.metrics.released.add(left);
                }
            }
            (Request::Release { id, txn, .. }, Reply::Released { held, .. }) => {
                if self.holdings.close(id, *txn).is_some() {
                    self.metrics.released.add(u64::from(*held));
                }
            }
            (Request::Retire { id }, Reply::Retired { .. }) => self.holdings.retire(id),
            _ => {}
        }
        let open = u64::try_from(self.holdings.count()).unwrap_or(u64::MAX);
        self.metrics.transactions.set(open);
        RequestResult::of_reply(reply)
    }
}

/// What a request came to that got no reply of the ledger's.
fn result_of(cause: Unanswered) -> RequestResult {
    match cause {
        Unanswered::Forbidden => RequestResult::Forbidden,
        Unanswered::Ahead => RequestResult::Ahead,
        Unanswered::Fault(LedgerFault::Memory) => RequestResult::Retry,
        Unanswered::Fault(LedgerFault::Store) => RequestResult::Failed,
    }
}
