//! Where bytes go: a sink, which fails for good once it has failed.
ghost use Rattle.std.specs.Prelude.{◌≡◌, ◌≢◌, ℕ, ◌<◌, List, Bool, false, true, Option, None, Some};
ghost use Rattle.std.specs.Prelude.{IfOk, OnOk, OnErr};
ghost use Rattle.std.specs.Prelude.{IsErr, is_err, length};
ghost use Rattle.std.specs.Io.{WritesAtMost};
ghost use Rattle.std.specs.Io.KnownBytes.{WriteAppends, Appends, Keeps};
ghost use Rattle.mq_stream.specs.Flow.{IsFlushed, AppendsFront};

use crate::error::DeviceFault;
use std::io::Write;
use std::marker::Model;

/// Where bytes go.
pub trait Sink {
    // The bytes that it holds, where they are known.
    ghost contents: { Self → Option (List ℕ) } = { λ _. None };

    // Whether all that it took was handed on, where it reports that.
    ghost has_flushed: { Self → Option Bool } = { λ _. None };

    // Whether a call has failed.
    ghost has_failed: { Self → Bool };

    /// Takes a prefix of `piece` and says how many bytes; at least one where there is one. Once a
    /// call has failed, every later one fails.
    fn write(&mut self, piece: &[u8]) -> Result<usize, DeviceFault>
        ensures bound { WritesAtMost result piece.now }
        ensures some { IfOk result (λ count. 0 < length piece.now → 0 < count) }
        ensures bytes { WriteAppends (contents self.old) (contents self.new) result piece.now }
        ensures unflushed { IfOk result (λ count. 0 < count → has_flushed self.new ≢ Some true) }
        ensures failed { has_failed self.new ≡ is_err result }
        ensures for_good { has_failed self.old ≡ true → IsErr result };

    /// Hands on what was taken.
    fn flush(&mut self) -> Result<(), DeviceFault>
        ensures bytes { Keeps (contents self.old) (contents self.new) }
        ensures flushed { OnOk result (IsFlushed (has_flushed self.new)) }
        ensures failed { has_failed self.new ≡ is_err result }
        ensures for_good { has_failed self.old ≡ true → IsErr result };
}

/// Writes all of the bytes and hands them on, or writes a prefix of them before the sink fails.
pub fn write_and_flush<S: Sink>(sink: &mut S, bytes: &[u8]) -> Result<(), DeviceFault>
    ensures ok { OnOk result (Appends (S.contents sink.old) (S.contents sink.new) bytes.now) }
    ensures err { OnErr result (AppendsFront (S.contents sink.old)
        (S.contents sink.new) bytes.now) }
    ensures flushed { OnOk result (IsFlushed (S.has_flushed sink.new)) }
    ensures failed { S.has_failed sink.new ≡ is_err result }
    ensures for_good { S.has_failed sink.old ≡ true → IsErr result }
{
    let mut rest = bytes;
    while !rest.is_empty() {
        let count = sink.write(rest)?;
        rest = &rest[count..];
    }
    sink.flush()
}

/// A writer of std as a sink. A write of nothing out of something is a failure.
#[derive(Drop)]
pub struct WriterSink<W> {
    writer: W,
    failed: bool,
}

impl<W> Model for WriterSink<W> {
    ghost use Rattle.mq_stream.specs.Flow.{Device};

    ghost Value = { Device W };

    ghost view = { λ sink. record { inner = sink.writer; has_failed = sink.failed } };
}

impl<W: Write> WriterSink<W> {
    /// A sink that hasn't failed.
    pub fn new(writer: W) -> WriterSink<W>
        ensures { result ≡ record { inner = writer; has_failed = false } }
    {
        WriterSink {
            writer,
            failed: false,
        }
    }

    /// The writer, as the writes left it.
    pub fn into_inner(self) -> W
        ensures { result ≡ self.inner }
    {
        let WriterSink { writer, failed: _ } = self;
        writer
    }
}

impl<W: Write> Sink for WriterSink<W> {
    ghost contents = { λ sink. W.contents sink.inner };

    ghost has_failed = { λ sink. sink.has_failed };

    fn write(&mut self, piece: &[u8]) -> Result<usize, DeviceFault> {
        if self.failed {
            return Err(DeviceFault);
        }
        match self.writer.write(piece) {
            // (a writer that takes nothing would be asked without end)
            Ok(count) if count > 0 || piece.is_empty() => Ok(count),
            _ => {
                self.failed = true;
                Err(DeviceFault)
            }
        }
    }

    fn flush(&mut self) -> Result<(), DeviceFault> {
        if self.failed {
            return Err(DeviceFault);
        }
        match self.writer.flush() {
            Ok(()) => Ok(()),
            Err(_) => {
                self.failed = true;
                Err(DeviceFault)
            }
        }
    }
}
