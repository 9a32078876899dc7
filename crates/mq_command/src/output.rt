//! Writing to standard output.
ghost use Rattle.std.specs.Prelude.{◌≡◌, OnOk};
ghost use Rattle.std.specs.Io.KnownBytes.{Appends};
ghost use Rattle.mq_stream.specs.Flow.{AppendsFront};

use std::alloc::AllocError;
use std::io::Write;
use thiserror::Error;

/// Why not everything was written; what was written is the front of it.
#[derive(Clone, Copy, Debug, PartialEq, Error)]
pub enum OutputFault {
    /// A write failed, or took nothing.
    #[error("write failed")]
    Write,
    #[error("out of memory")]
    Memory,
}

impl From<AllocError> for OutputFault {
    ghost use Rattle.mq_command.specs.declared.output.OutputFault.TheVariants.{Memory};

    ghost from_gives = { λ _ fault. fault ≡ Memory };

    fn from(_error: AllocError) -> OutputFault {
        OutputFault::Memory
    }
}

/// Writes all bytes, or a prefix of them before a write fails.
pub fn write_whole<W: Write>(output: &mut W, bytes: &[u8]) -> Result<(), OutputFault>
    ensures whole { OnOk result (Appends (W.contents output.old)
        (W.contents output.new) bytes.now) }
    ensures front { AppendsFront (W.contents output.old) (W.contents output.new) bytes.now }
{
    let mut rest = bytes;
    while !rest.is_empty() {
        match output.write(rest) {
            Ok(0) | Err(_) => return Err(OutputFault::Write),
            Ok(count) => rest = &rest[count..],
        }
    }
    Ok(())
}
