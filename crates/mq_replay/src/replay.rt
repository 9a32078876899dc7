//! Connections answered over a ledger, and printed.
ghost use Rattle.std.specs.Prelude.{◌≡◌, ◌⊎◌, ℕ, [], map, IfOk, IfErr};
ghost use Rattle.std.specs.List.{slice_get};
ghost use Rattle.mq_ledger.specs.declared.zone.Zone.{Zone as AnyZone};
ghost use Rattle.mq_replay.specs.Replay.{empty_book, ending_of, faults_of, IsForCause, IsReplay};
ghost use Rattle.mq_replay.specs.Replay.{Prints, ReplaysOver};

use crate::connections::TextFault;
use crate::lines::write_hex_lines;
use mq_command::OutputFault;
use mq_ledger::Ledger;
use mq_server::{ConnectionEnd, EndCause, ServeFault, serve_all};
use mq_stream::{FromRead, WriterSink};
use std::alloc::{AllocError, Global};
use std::io::Write;
use thiserror::Error;

/// An end of a connection that isn't the end of its input after a whole frame.
#[derive(Clone, Copy, Debug, PartialEq, Error)]
pub enum Ending {
    #[error("bad frame")]
    BadFrame,
    #[error("cut frame")]
    CutFrame,
    #[error("enough")]
    Enough,
    #[error("out of memory")]
    Memory,
}

/// Why `replay` isn't done.
#[derive(Debug, Drop, Error)]
pub enum ReplayFault {
    #[error("{0}")]
    Text(TextFault),
    #[error("{0}")]
    Serve(ServeFault),
    /// The first connection, counted from 1, that didn't end as it should.
    #[error("connection {0}: {1}")]
    Connection(usize, Ending),
    #[error("{0}")]
    Output(OutputFault),
}

/// What was written on each connection, and how each ended.
#[derive(Drop)]
struct Transcript {
    written: Vec<WriterSink<Vec<u8>>>,
    ends: Vec<ConnectionEnd>,
}

/// What is wrong with the end of a connection over memory, if anything: there a read or a write
/// fails only where memory runs out.
fn ending_of(end: ConnectionEnd) -> Option<Ending>
    ensures { result ≡ ending_of end }
{
    match end {
        ConnectionEnd::Served(EndCause::InputEnd) => None,
        ConnectionEnd::Served(EndCause::Enough) => Some(Ending::Enough),
        ConnectionEnd::Served(EndCause::BadFrame) => Some(Ending::BadFrame),
        ConnectionEnd::Served(EndCause::CutFrame) => Some(Ending::CutFrame),
        ConnectionEnd::Read | ConnectionEnd::Write | ConnectionEnd::Memory => Some(Ending::Memory),
    }
}

/// The first connection that didn't end as it should, counted from 1.
fn first_fault(ends: &[ConnectionEnd]) -> Option<(usize, Ending)>
    ensures { result ≡ slice_get (faults_of ends.now) 0 }
{
    for (index, end) in ends.iter().enumerate() {
        if let Some(ending) = ending_of(*end) {
            return Some((index + 1, ending));
        }
    }
    None
}

/// What each connection sends.
fn inputs_of<'a>(
    alloc: Global,
    connections: &'a [Vec<u8>],
) -> Result<Vec<FromRead<&'a [u8]>>, AllocError>
    ensures { IfOk result (λ inputs. map (λ s. s.inner.now) inputs.items
        ≡ map (λ c. c.items) connections.now) }
{
    let mut inputs = Vec::with_capacity(alloc, connections.len())?;
    for connection in connections {
        inputs.push(FromRead::new(connection.as_slice()))?;
    }
    Ok(inputs)
}

/// An output for each connection, with nothing written.
fn outputs_for(
    alloc: Global,
    connections: &[Vec<u8>],
) -> Result<Vec<WriterSink<Vec<u8>>>, AllocError>
    ensures { IfOk result (λ outputs. map (λ s. s.inner.items) outputs.items
        ≡ map (λ _. []) connections.now) }
{
    let mut outputs = Vec::with_capacity(alloc, connections.len())?;
    for _connection in connections {
        outputs.push(WriterSink::new(Vec::new(alloc)))?;
    }
    Ok(outputs)
}

/// Serves the connections in turn over a ledger.
fn serve_over<L: Ledger>(
    alloc: Global,
    connections: &[Vec<u8>],
    ledger: &mut L,
) -> Result<Transcript, ServeFault>
    ensures faults { IfErr result (λ fault. (fault ≡ ServeFault.Memory)
        ⊎ ((fault ≡ ServeFault.Store) × L.has_store ledger.old)) }
    ensures answered { L.has_kept ledger.new → L.is_sound ledger.old
        → (zone : AnyZone) (default : ℕ)
        → L.book ledger.old ≡ empty_book zone default
        → IfOk result (λ answered. IsReplay zone default (map (λ c. c.items) connections.now)
        (map (λ s. s.inner.items) answered.written.items) answered.ends.items) }
{
    let mut inputs = inputs_of(alloc, connections)?;
    let mut written = outputs_for(alloc, connections)?;
    let ends = serve_all(alloc, inputs.as_mut_slice(), written.as_mut_slice(), ledger)?;
    Ok(Transcript { written, ends })
}

/// Prints what was written on each connection, a line of hexadecimal for each, and gives the first
/// that didn't end as it should.
fn print_answers<W: Write>(
    alloc: Global,
    answered: Transcript,
    output: &mut W,
) -> Result<(), ReplayFault>
    ensures { Prints (map (λ s. s.inner.items) answered.written.items) answered.ends.items
        (W.contents output.old)
        (W.contents output.new) result }
{
    if let Err(fault) = write_hex_lines(alloc, output, answered.written) {
        return Err(ReplayFault::Output(fault));
    }
    if output.flush().is_err() {
        return Err(ReplayFault::Output(OutputFault::Write));
    }
    match first_fault(answered.ends.as_slice()) {
        None => Ok(()),
        Some((number, ending)) => Err(ReplayFault::Connection(number, ending)),
    }
}

/// Answers connections in turn over a ledger, a line of hexadecimal for each.
///
/// No connection is served only where a growth was refused, or where the ledger has a store and it
/// failed. What is printed is told of a sound ledger that keeps its premise and has applied
/// nothing.
pub fn replay_over<L: Ledger, W: Write>(
    alloc: Global,
    connections: &[Vec<u8>],
    ledger: &mut L,
    output: &mut W,
) -> Result<(), ReplayFault>
    ensures cause { IsForCause (L.has_store ledger.old) result }
    ensures replays { L.has_kept ledger.new → L.is_sound ledger.old → (zone : AnyZone) (default : ℕ)
        → L.book ledger.old ≡ empty_book zone default
        → ReplaysOver zone default (map (λ c. c.items) connections.now) (W.contents output.old)
        (W.contents output.new) result }
{
    match serve_over(alloc, connections, ledger) {
        Ok(answered) => print_answers(alloc, answered, output),
        Err(fault) => Err(ReplayFault::Serve(fault)),
    }
}
