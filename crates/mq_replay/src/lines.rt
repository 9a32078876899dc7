//! Lines of hexadecimal.
ghost use Rattle.std.specs.Prelude.{map, OnOk};
ghost use Rattle.std.specs.Io.KnownBytes.{Appends};
ghost use Rattle.mq_stream.specs.Flow.{AppendsFront};
ghost use Rattle.mq_replay.specs.Lines.{hex_line, hex_lines};

use mq_command::{OutputFault, write_whole};
use mq_stream::WriterSink;
use std::alloc::Global;
use std::io::Write;

/// Writes the bytes as one line of hexadecimal in lower case.
pub fn write_hex_line<W: Write>(
    alloc: Global,
    output: &mut W,
    bytes: &[u8],
) -> Result<(), OutputFault>
    ensures whole { OnOk result (Appends (W.contents output.old) (W.contents output.new)
        (hex_line bytes.now)) }
    ensures front { AppendsFront (W.contents output.old) (W.contents output.new)
        (hex_line bytes.now) }
{
    let digits = hex::encode(alloc, bytes)?;
    write_whole(output, digits.as_bytes())?;
    write_whole(output, b"\n")
}

/// Writes a line of hexadecimal for each connection, in order.
pub fn write_hex_lines<W: Write>(
    alloc: Global,
    output: &mut W,
    written: Vec<WriterSink<Vec<u8>>>,
) -> Result<(), OutputFault>
    ensures whole { OnOk result (Appends (W.contents output.old) (W.contents output.new)
        (hex_lines (map (λ s. s.inner.items) written.items))) }
    ensures front { AppendsFront (W.contents output.old) (W.contents output.new)
        (hex_lines (map (λ s. s.inner.items) written.items)) }
{
    for sink in written {
        write_hex_line(alloc, output, sink.into_inner().as_slice())?;
    }
    Ok(())
}
