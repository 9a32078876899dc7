//! Why the filter ends.
ghost use Rattle.std.specs.Prelude.{◌≡◌, MatchResult};

use mq_client::FilterFault;
use mq_process::{ProcessFault, refuse};
use std::io::Write;
use thiserror::Error;

/// Why the filter ends, or why it doesn't begin. Its text is printed after `mailquota: `, and the
/// exit status is 1.
#[derive(Debug, Drop, Error)]
pub enum FilterEnd {
    #[error("{0}")]
    Process(ProcessFault),
    #[error("{0}")]
    Filter(FilterFault),
}

impl From<ProcessFault> for FilterEnd {
    ghost use Rattle.mq_remote.specs.declared.fault.FilterEnd.TheVariants.{Process};

    ghost from_gives = { λ cause fault. fault ≡ Process cause };

    fn from(cause: ProcessFault) -> FilterEnd {
        FilterEnd::Process(cause)
    }
}

/// Prints why the filter ends, if for a fault, and gives the exit status.
pub fn end_filter<E: Write>(outcome: Result<u8, FilterEnd>, errors: &mut E) -> u8
    ensures { MatchResult outcome (λ status. result ≡ status) (λ _. result ≡ 1) }
{
    match outcome {
        Ok(status) => status,
        Err(fault) => refuse(&fault, 1, errors),
    }
}
