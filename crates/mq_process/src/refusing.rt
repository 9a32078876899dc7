//! What is printed where a subcommand isn't done.
ghost use Rattle.std.specs.Prelude.{◌≡◌, MatchResult};
ghost use Rattle.mq_process.specs.Faults.{process_status};

use crate::fault::ProcessFault;
use std::fmt::Display;
use std::io::Write;

/// Prints why a subcommand isn't done, and gives the exit status, which stays as it is.
pub fn refuse<F: Display, E: Write>(fault: &F, status: u8, errors: &mut E) -> u8
    ensures { result ≡ status }
{
    let _ = writeln!(errors, "mailquota: {fault}");
    status
}

/// Prints why a subcommand that opens no ledger isn't done, if it isn't, and gives the exit status.
pub fn end_process<E: Write>(outcome: Result<u8, ProcessFault>, errors: &mut E) -> u8
    ensures { MatchResult outcome (λ status. result ≡ status)
        (λ fault. result ≡ process_status fault) }
{
    match outcome {
        Ok(status) => status,
        Err(fault) => refuse(&fault, fault.status(), errors),
    }
}
