//! Why a subcommand isn't done.
ghost use Rattle.std.specs.Prelude.{◌≡◌, MatchResult};
ghost use Rattle.std.specs.IoError.{error_kind};
ghost use Rattle.mq_program.specs.Faults.{fault_status, or_memory_of};

use mq_connections::RoomFault;
use mq_ledger::LedgerFault;
use mq_process::{ProcessFault, refuse};
use mq_store::{OpenFault, OpenRefused};
use sqlite::Alter;
use std::alloc::{AllocError, AllocFailed};
use std::io;
use std::io::{ErrorKind, Write};
use thiserror::Error;

/// Why a subcommand isn't done. Its text is printed after `mailquota: `.
#[derive(Debug, Drop, Error)]
pub enum ProgramFault {
    /// A word of the command line is no UTF-8.
    #[error("arguments are not text")]
    Words,
    /// No zone rule of 1 to 64 bytes, or minutes east or west along with it.
    #[error("bad rule")]
    Rule,
    #[error("read failed")]
    Read,
    #[error("write failed")]
    Write,
    #[error("out of memory")]
    Memory,
    /// It isn't done before a ledger is opened.
    #[error("{0}")]
    Process(ProcessFault),
    /// A file of the ledger can't be opened, made, looked at, locked, removed, renamed or closed. For
    /// the last four want of memory counts as this too; for the others it is `Memory`.
    #[error("store can't be opened")]
    Store,
    #[error("{0}")]
    Open(OpenFault),
    /// The settings keep the ledger in memory, and the subcommand needs its file.
    #[error("store is memory")]
    MemoryStore,
    /// The file of the ledger that is to be made is there.
    #[error("file exists")]
    Exists,
    /// The first day that is to be kept is after today.
    #[error("day is after today")]
    Later,
    /// The rows of an open ledger weren't read to their end.
    #[error("{0}")]
    Audit(LedgerFault),
    #[error("listen failed")]
    Listen,
    /// The file that lists who may ask what can't be used.
    #[error("permits can't be used")]
    Permits,
    #[error("{0}")]
    Serve(RoomFault),
}

impl ProgramFault {
    /// The exit status: 2 where the words are at fault, else 1.
    pub fn status(&self) -> u8
        ensures { result ≡ fault_status self.now }
    {
        match self {
            ProgramFault::Words | ProgramFault::Rule => 2,
            ProgramFault::Process(fault) => fault.status(),
            _ => 1,
        }
    }
}

impl From<AllocError> for ProgramFault {
    ghost use Rattle.mq_program.specs.declared.fault.ProgramFault.TheVariants.{Memory};

    ghost from_gives = { λ _ fault. fault ≡ Memory };

    fn from(_error: AllocError) -> ProgramFault {
        ProgramFault::Memory
    }
}

impl<T: Drop> From<AllocFailed<T>> for ProgramFault {
    ghost use Rattle.mq_program.specs.declared.fault.ProgramFault.TheVariants.{Memory};

    ghost from_gives = { λ _ fault. fault ≡ Memory };

    fn from(_error: AllocFailed<T>) -> ProgramFault {
        ProgramFault::Memory
    }
}

impl From<ProcessFault> for ProgramFault {
    ghost use Rattle.mq_program.specs.declared.fault.ProgramFault.TheVariants.{Process};

    ghost from_gives = { λ cause fault. fault ≡ Process cause };

    fn from(cause: ProcessFault) -> ProgramFault {
        ProgramFault::Process(cause)
    }
}

impl From<OpenFault> for ProgramFault {
    ghost use Rattle.mq_program.specs.declared.fault.ProgramFault.TheVariants.{Open};

    ghost from_gives = { λ cause fault. fault ≡ Open cause };

    fn from(cause: OpenFault) -> ProgramFault {
        ProgramFault::Open(cause)
    }
}

impl<S: Alter + Drop> From<OpenRefused<S>> for ProgramFault {
    ghost use Rattle.mq_program.specs.declared.fault.ProgramFault.TheVariants.{Open};

    ghost from_gives = { λ refused fault. fault ≡ Open refused.fault };

    fn from(refused: OpenRefused<S>) -> ProgramFault {
        ProgramFault::Open(refused.fault)
    }
}

impl From<LedgerFault> for ProgramFault {
    ghost use Rattle.mq_program.specs.declared.fault.ProgramFault.TheVariants.{Audit};

    ghost from_gives = { λ cause fault. fault ≡ Audit cause };

    fn from(cause: LedgerFault) -> ProgramFault {
        ProgramFault::Audit(cause)
    }
}

impl From<RoomFault> for ProgramFault {
    ghost use Rattle.mq_program.specs.declared.fault.ProgramFault.TheVariants.{Serve};

    ghost from_gives = { λ cause fault. fault ≡ Serve cause };

    fn from(cause: RoomFault) -> ProgramFault {
        ProgramFault::Serve(cause)
    }
}

/// That memory runs out, or else this fault.
pub fn or_memory(error: &io::Error, fault: ProgramFault) -> ProgramFault
    ensures { result ≡ or_memory_of (error_kind error.now) fault }
{
    match error.kind() {
        ErrorKind::OutOfMemory => ProgramFault::Memory,
        _ => fault,
    }
}

/// Prints why a subcommand over a ledger isn't done, if it isn't, and gives the exit status.
pub fn end_program<E: Write>(outcome: Result<u8, ProgramFault>, errors: &mut E) -> u8
    ensures { MatchResult outcome (λ status. result ≡ status)
        (λ fault. result ≡ fault_status fault) }
{
    match outcome {
        Ok(status) => status,
        Err(fault) => refuse(&fault, fault.status(), errors),
    }
}
