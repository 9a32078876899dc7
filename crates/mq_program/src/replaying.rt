//! `replay`: answers frames from standard input over a new ledger.
ghost use Rattle.std.specs.Prelude.{◌≡◌, ⊤, true, Err, Result as AnyResult, map};
ghost use Rattle.mq_process.specs.Arguments.{IsReplayArguments};
ghost use Rattle.mq_request.specs.Range.{IsAmount};
ghost use Rattle.mq_replay.specs.Replay.{IsForCause, Replays, ReplaysOver, status_of};
ghost use Rattle.mq_replay.specs.declared.replay.ReplayFault.{ReplayFault as AnyReplayFault};
ghost use Rattle.mq_program.specs.Refusals.{IsZoneByRule, IsZoneOf, ReplayRefuses};

use crate::fault::{ProgramFault, or_memory};
use mq_ledger::{PlainLedger, RuleFault, Zone};
use mq_process::ReplayArguments;
use mq_replay::{ReplayFault, TEXT_LIMIT, read_connections, replay_over};
use mq_server::ServeFault;
use mq_store::{OpenFault, SqlLedger};
use std::alloc::Global;
use std::io;
use std::io::{BufWriter, Read, Write};

/// Answers connections over a new list.
fn replay_over_list<W: Write>(
    alloc: Global,
    connections: &[Vec<u8>],
    default: u32,
    zone: Zone,
    output: &mut W,
) -> Result<(), ReplayFault>
    requires { IsAmount default }
    ensures cause { IsForCause ⊥ result }
    ensures replays { ReplaysOver zone default (map (λ c. c.items) connections.now)
        (W.contents output.old)
        (W.contents output.new) result }
{
    let mut ledger = PlainLedger::new(alloc, zone, default);
    replay_over(alloc, connections, &mut ledger, output)
}

/// Answers connections over new tables in a store in memory.
fn replay_over_tables<W: Write>(
    alloc: Global,
    connections: &[Vec<u8>],
    default: u32,
    zone: Zone,
    output: &mut W,
) -> Result<(), ReplayFault>
    requires { IsAmount default }
    ensures cause { IsForCause ⊤ result }
    ensures replays { ReplaysOver zone default (map (λ c. c.items) connections.now)
        (W.contents output.old)
        (W.contents output.new) result }
{
    match SqlLedger::in_memory(alloc, zone, default) {
        Ok(mut ledger) => replay_over(alloc, connections, &mut ledger, output),
        Err(OpenFault::Memory) => Err(ReplayFault::Serve(ServeFault::Memory)),
        Err(_) => Err(ReplayFault::Serve(ServeFault::Store)),
    }
}

/// Answers connections over a new ledger: a list, or with `sql` tables in memory.
fn replay_over_new<W: Write>(
    alloc: Global,
    connections: &[Vec<u8>],
    default: u32,
    zone: Zone,
    sql: bool,
    output: &mut W,
) -> Result<(), ReplayFault>
    requires { IsAmount default }
    ensures cause { IsForCause (sql ≡ true) result }
    ensures replays { ReplaysOver zone default (map (λ c. c.items) connections.now)
        (W.contents output.old)
        (W.contents output.new) result }
{
    if sql {
        return replay_over_tables(alloc, connections, default, zone, output);
    }
    replay_over_list(alloc, connections, default, zone, output)
}

/// Answers the connections of a text over a new ledger, which is made once the text is read.
fn replay_text<W: Write>(
    alloc: Global,
    text: &[u8],
    default: u32,
    zone: Zone,
    sql: bool,
    output: &mut W,
) -> Result<(), ReplayFault>
    requires { IsAmount default }
    ensures cause { IsForCause (sql ≡ true) result }
    ensures replays { Replays zone default text.now (W.contents output.old)
        (W.contents output.new) result }
{
    let connections = match read_connections(alloc, text) {
        Ok(connections) => connections,
        Err(fault) => return Err(ReplayFault::Text(fault)),
    };
    replay_over_new(alloc, connections.as_slice(), default, zone, sql, output)
}

/// Answers the connections of a text over a new ledger, a line of hexadecimal for each, and says
/// on `errors` why it isn't done.
///
/// `default` is the limit of a login that has none of its own, 0 to 1,000,000 recipients a day. The
/// ledger is a list, or with `sql` tables in a store in memory.
/// The result is the exit status: 0, or 1 where the text is refused, a connection doesn't end as
/// it should, or the output fails.
pub fn run_replay<W: Write, E: Write>(
    alloc: Global,
    text: &[u8],
    default: u32,
    zone: Zone,
    sql: bool,
    output: &mut W,
    errors: &mut E,
) -> u8
    requires { IsAmount default }
    // Without `sql` there is no store that could fail.
    ensures replays { (outcome : AnyResult (Unit {0}) AnyReplayFault) × (result ≡ status_of outcome)
        × IsForCause (sql ≡ true) outcome × Replays zone default text.now (W.contents output.old)
        (W.contents output.new) outcome }
    ensures quiet { result ≡ 0 → errors.new ≡ errors.old }
{
    match replay_text(alloc, text, default, zone, sql, output) {
        Ok(()) => 0,
        Err(fault) => {
            let _ = writeln!(errors, "mailquota: {fault}");
            1
        }
    }
}

/// The zone of a rule that stands alone.
fn zone_by_rule(text: &str, east: u32, west: u32) -> Result<Zone, ProgramFault>
    ensures { IsZoneByRule east west text.now result }
{
    if east != 0 || west != 0 {
        return Err(ProgramFault::Rule);
    }
    match Zone::of_rule(text) {
        Ok(zone) => Ok(zone),
        Err(RuleFault::Rule) => Err(ProgramFault::Rule),
        Err(RuleFault::Memory) => Err(ProgramFault::Memory),
    }
}

/// The zone that the words name: a rule, or the minutes east less those west.
fn zone_of(given: ReplayArguments<'_>) -> Result<Zone, ProgramFault>
    requires { IsReplayArguments given }
    ensures { IsZoneOf given.entry.east given.entry.west given.entry.rule result }
{
    match given.rule {
        Some(text) => zone_by_rule(text, given.east, given.west),
        None => Ok(Zone::of_offset(given.east as i32 - given.west as i32).unwrap()),
    }
}

/// `replay`: from standard input to standard output. A rule that is at fault is refused before any
/// input is read.
pub fn replay<R: Input + Print + AllocGlobal, E: Write>(
    rt: &R,
    given: ReplayArguments<'_>,
    errors: &mut E,
) -> Result<u8, ProgramFault>
    requires { IsReplayArguments given }
    ensures { ReplayRefuses given.entry (λ fault. result ≡ Err fault) }
{
    match zone_of(given) {
        Ok(zone) => replay_input(rt, given, zone, errors),
        Err(fault) => Err(fault),
    }
}

/// Answers what is on standard input.
fn replay_input<R: Input + Print + AllocGlobal, E: Write>(
    rt: &R,
    given: ReplayArguments<'_>,
    zone: Zone,
    errors: &mut E,
) -> Result<u8, ProgramFault>
    requires { IsReplayArguments given }
{
    let text = read_text(rt)?;
    print_replay(rt, text.as_slice(), given, zone, errors)
}

/// The text on standard input, or a prefix of it that is too large.
fn read_text<R: Input + AllocGlobal>(rt: &R) -> Result<Vec<u8>, ProgramFault> {
    let mut text = Vec::new(rt.alloc());
    match rt
        .reader()
        .take(TEXT_LIMIT as u64 + 1)
        .read_to_end(&mut text)
    {
        Ok(_) => Ok(text),
        Err(cause) => Err(or_memory(&cause, ProgramFault::Read)),
    }
}

/// Answers a text on standard output.
fn print_replay<R: Print + AllocGlobal, E: Write>(
    rt: &R,
    text: &[u8],
    given: ReplayArguments<'_>,
    zone: Zone,
    errors: &mut E,
) -> Result<u8, ProgramFault>
    requires { IsReplayArguments given }
{
    let mut output = BufWriter::new(rt.alloc(), io::writer(rt)).map_err(|_| ProgramFault::Memory)?;
    Ok(run_replay(
        rt.alloc(),
        text,
        given.default,
        zone,
        given.sql,
        &mut output,
        errors,
    ))
}
