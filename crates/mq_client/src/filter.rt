//! The filter: what smtpd writes is read, and each of its requests is answered.
ghost use Rattle.std.specs.Prelude.{◌≡◌, ◌≢◌, ◌≤◌, ◌<◌, ◌+◌, ◌*◌, ◌^◌, ◌++◌, ◌∷◌, [], ℕ, List};
ghost use Rattle.std.specs.Prelude.{Option, Bool, None};
ghost use Rattle.std.specs.Prelude.{Some, true, false, length, is_some, IfOk, OnOk, OnErr, IfErr};
ghost use Rattle.std.specs.List.{concat};
ghost use Rattle.std.specs.Io.KnownBytes.{Appends, IsAtEnd};
ghost use Rattle.mq_stream.specs.Flow.{IsFlushed};
ghost use Rattle.mq_line.specs.Grammar.{Meaning, meaning};
ghost use Rattle.mq_line.specs.Results.{registration};
ghost use Rattle.mq_line.specs.Text.{IsLine};
ghost use Rattle.mq_track.specs.Sessions.{closing, fault};
ghost use Rattle.mq_track.specs.State.{TracksAt};
ghost use Rattle.mq_lemmas.specs.Told.{Tells};
ghost use Rattle.mq_client.specs.Past.{Step, State};
ghost use Rattle.mq_client.specs.Filter.{Closes, after_line};
ghost use Rattle.mq_client.specs.Holding.{nothing_held, seconds_in, times_out, full_in, freed_in};
ghost use Rattle.mq_link.specs.declared.link.ReportedExchange.{ReportedExchange};
ghost use Rattle.mq_client.specs.Run.{Outside, around, supply, Supplies, EndsWith, StopsAt};
ghost use Rattle.mq_client.specs.Loop.{MakesOne, told_one, IsCut, IsSorted, IsRefused};
ghost use Rattle.mq_client.specs.Loop.{filter_fault, Carries, Halts};
ghost use Rattle.mq_client.specs.Loop.{CarriesHeld, HaltsHeld, SinkWorks, SoFar};

use crate::answer::{Inquiry, answer};
use crate::client::Client;
use crate::fault::FilterFault;
use crate::holdup::Holdup;
use crate::observer::Observer;
use crate::session::LineSession;
use log::{Log, warn};
use mq_line::{Line, LineFeed, read_line, write_registration};
use mq_link::Link;
use mq_stream::{DeviceFault, Sink, Source, write_and_flush};
use mq_track::{Closing, TrackFault, Tracker};
use std::alloc::{AllocError, Global};

/// The most bytes of one read.
const PIECE: usize = 4096;

/// The most reads of one run.
const READS: u64 = 1_099_511_627_776;

/// How a run of the filter ended.
#[derive(Clone, Copy, Debug, PartialEq, Eq)]
pub struct RunEnd {
    /// How many requests of smtpd were answered.
    pub answers: u64,
    /// How many closings wait still.
    pub left: u32,
}

/// Where the loop over lines stands.
#[derive(Drop)]
struct Filter {
    tracker: Tracker,
    /// `config|ready` came.
    is_ready: bool,
    answers: u64,
    /// What is held back.
    holdup: Holdup,
}

/// The text of the registration.
fn registration(alloc: Global) -> Result<Vec<u8>, AllocError>
    ensures { IfOk result (λ text. text.items ≡ registration) }
{
    let mut text = Vec::new(alloc);
    write_registration(&mut text)?;
    Ok(text)
}

/// Writes the registration.
fn register<W: Sink>(alloc: Global, output: &mut W) -> Result<(), FilterFault>
    ensures ok { OnOk result (Appends (W.contents output.old)
        (W.contents output.new) registration) }
    ensures written { OnOk result (W.has_failed output.new ≡ false) }
    ensures fault { IfErr result (λ f. IsCut f (W.has_failed output.new)) }
    ensures works { W.has_failed output.old ≡ false → result ≢ Err FilterFault.Write
        → W.has_failed output.new ≡ false }
    ensures flushed { IsFlushed (W.has_flushed output.old) → result ≢ Err FilterFault.Write →
        IsFlushed (W.has_flushed output.new) }
    ensures cut { OnErr result ((front : List ℕ) × (rest : List ℕ)
        × (registration ≡ front ++ rest)
        × Appends (W.contents output.old) (W.contents output.new) front) }
{
    let Ok(text) = registration(alloc) else {
        return Err(FilterFault::Memory);
    };
    match write_and_flush(output, text.as_slice()) {
        Ok(()) => Ok(()),
        Err(DeviceFault) => Err(FilterFault::Write),
    }
}

/// What a line before `config|ready` is.
enum EarlyLine {
    /// It is passed over.
    Passed,
    Ready,
    /// A report or a request.
    TooEarly,
}

fn early_of(line: &Line<'_>) -> EarlyLine
    ensures { IsSorted (meaning line.now) result }
{
    match line {
        Line::Config { .. } | Line::Other => EarlyLine::Passed,
        Line::Ready => EarlyLine::Ready,
        Line::Report { .. } | Line::Filter { .. } => EarlyLine::TooEarly,
    }
}

fn fault_of(fault: TrackFault) -> FilterFault
    ensures { result ≡ filter_fault fault }
{
    match fault {
        TrackFault::Memory => FilterFault::Memory,
        _ => FilterFault::Track(fault),
    }
}

/// The session of a report or a request.
fn session_of<'a>(line: &Line<'a>) -> LineSession<'a> {
    let name = match line {
        Line::Report { session, .. } | Line::Filter { session, .. } => session,
        _ => b"".as_slice(),
    };
    LineSession {
        name,
        seconds: seconds_of(line),
    }
}

/// The second of a line that has one.
fn seconds_of(line: &Line<'_>) -> Option<u64>
    ensures { result ≡ seconds_in (meaning line.now) }
{
    match line {
        Line::Report { seconds, .. } | Line::Filter { seconds, .. } => Some(*seconds),
        _ => None,
    }
}

/// Passes a closing on that a line of this session brings, and answers whether a request
/// was left undecided of which a try ran out of time.
fn close<R: Observer, K: Link>(
    rt: &R,
    session: LineSession<'_>,
    closing: Option<Closing>,
    paused: bool,
    holdup: &mut Holdup,
    link: &mut K,
    client: &mut Client,
) -> Result<bool, FilterFault>
    ensures ok { IfOk result (λ timed_out. (step : Option Step)
        × Tells (K.told link.old) (K.told link.new) (told_one step)
        × MakesOne client.old client.new step × Closes paused closing step
        × (timed_out ≡ times_out step)
        × (full_in step ≡ None)
        × (holdup.new ≡ (holdup.old.0, freed_in step holdup.old.1))) }
    ensures memory { OnErr result ((result ≡ Err FilterFault.Memory) × (is_some closing ≡ true)) }
    ensures client { OnErr result (client.new ≡ client.old) }
    ensures link { OnErr result (link.new ≡ link.old) }
{
    match closing {
        None => Ok(false),
        Some(closing) => {
            client.set_line(session.name, session.seconds);
            match client.close_and_free(rt, link, closing, paused, holdup) {
                Ok(timed_out) => Ok(timed_out),
                Err(_) => Err(FilterFault::Memory),
            }
        }
    }
}

/// Notes what a line reports of its session, and passes on the closing that it brings.
fn note<R: Observer, K: Link>(
    rt: &R,
    tracker: &mut Tracker,
    line: &Line<'_>,
    holdup: &mut Holdup,
    link: &mut K,
    client: &mut Client,
) -> Result<(), FilterFault>
    ensures ok { OnOk result ((step : Option Step) × Tells (K.told link.old) (K.told link.new)
        (told_one step)
        × MakesOne client.old client.new step
        × ((L : List Meaning) → TracksAt tracker.old L → (fault L (meaning line.now) ≡ None)
        × Closes (is_some holdup.old.1.paused) (closing L (meaning line.now)) step
        × TracksAt tracker.new (meaning line.now ∷ L))
        × (holdup.new ≡ (
          holdup.old.0,
          after_line holdup.old.0
              (meaning line.now) step holdup.old.1,
        ))) }
    ensures fault { IfErr result (λ f. (L : List Meaning) → TracksAt tracker.old L
        → IsRefused f L (meaning line.now)) }
    ensures client { OnErr result (client.new ≡ client.old) }
    ensures link { OnErr result (link.new ≡ link.old) }
{
    match tracker.apply(line) {
        Ok(closing) => {
            let paused = holdup.is_paused();
            match close(rt, session_of(line), closing, paused, holdup, link, client) {
                Ok(timed_out) => {
                    holdup.note(seconds_of(line), timed_out);
                    Ok(())
                }
                Err(fault) => Err(fault),
            }
        }
        Err(fault) => Err(fault_of(fault)),
    }
}

/// Handles a line before `config|ready`.
fn before_ready<W: Sink>(
    alloc: Global,
    filter: &mut Filter,
    line: &Line<'_>,
    output: &mut W,
) -> Result<(), FilterFault>
    requires { filter.old.is_ready ≡ false }
    ensures ok { OnOk result ((told : Option (List ReportedExchange)) (client : State) →
        Carries (meaning line.now) filter.old filter.new
        (around (W.contents output.old) told client)
        (around (W.contents output.new) told client)) }
    ensures count { OnOk result (filter.new.answers ≡ filter.old.answers) }
    ensures written { OnOk result (SinkWorks filter.new (W.has_failed output.new)) }
    ensures works { W.has_failed output.old ≡ false → result ≢ Err FilterFault.Write
        → W.has_failed output.new ≡ false }
    ensures flushed { IsFlushed (W.has_flushed output.old) → result ≢ Err FilterFault.Write →
        IsFlushed (W.has_flushed output.new) }
    ensures fault { IfErr result (λ f. (told : Option (List ReportedExchange)) (client : State) →
        Halts (meaning line.now) f filter.old (around (W.contents output.old) told client)
        (around (W.contents output.new) told client) (W.has_failed output.new)) }
{
    match early_of(line) {
        EarlyLine::Passed => Ok(()),
        EarlyLine::TooEarly => Err(FilterFault::NotReady),
        EarlyLine::Ready => match register(alloc, output) {
            Ok(()) => {
                filter.is_ready = true;
                Ok(())
            }
            Err(fault) => Err(fault),
        },
    }
}

/// Handles a line after `config|ready`.
fn after_ready<R: Observer, W: Sink, K: Link>(
    rt: &R,
    alloc: Global,
    filter: &mut Filter,
    line: &Line<'_>,
    output: &mut W,
    link: &mut K,
    client: &mut Client,
) -> Result<(), FilterFault>
    requires ready { filter.old.is_ready ≡ true }
    requires count { filter.old.answers < 2 ^ 63 }
    ensures ok { OnOk result (Carries (meaning line.now) filter.old filter.new
        (around (W.contents output.old) (K.told link.old) client.old)
        (around (W.contents output.new) (K.told link.new) client.new)) }
    ensures count { OnOk result (filter.new.answers ≤ filter.old.answers + 1) }
    ensures works { W.has_failed output.old ≡ false → result ≢ Err FilterFault.Write
        → W.has_failed output.new ≡ false }
    ensures flushed { IsFlushed (W.has_flushed output.old) → result ≢ Err FilterFault.Write →
        IsFlushed (W.has_flushed output.new) }
    ensures fault { IfErr result (λ f. Halts (meaning line.now) f filter.old
        (around (W.contents output.old) (K.told link.old) client.old)
        (around (W.contents output.new) (K.told link.new) client.new) (W.has_failed output.new)) }
{
    filter.holdup.pass(seconds_of(line));
    if let Line::Filter {
        seconds,
        subsystem,
        phase,
        session,
        token,
        ..
    } = *line
    {
        let inquiry = Inquiry {
            seconds,
            subsystem,
            phase,
            session,
            token,
        };
        let holdup = &mut filter.holdup;
        return match answer(
            rt,
            alloc,
            &filter.tracker,
            inquiry,
            holdup,
            output,
            link,
            client,
        ) {
            Ok(()) => {
                filter.answers += 1;
                Ok(())
            }
            Err(fault) => Err(fault),
        };
    }
    let holdup = &mut filter.holdup;
    note(rt, &mut filter.tracker, line, holdup, link, client)
}

/// Handles one line, which stands without its LF.
fn handle<R: Observer, W: Sink, K: Link>(
    rt: &R,
    alloc: Global,
    filter: &mut Filter,
    bytes: &[u8],
    output: &mut W,
    link: &mut K,
    client: &mut Client,
) -> Result<(), FilterFault>
    requires line { IsLine bytes.now }
    requires count { filter.old.answers < 2 ^ 63 }
    ensures ok { OnOk result ((rest : List ℕ) →
        CarriesHeld (bytes.now ++ 10 ∷ rest) rest filter.old filter.new
        (around (W.contents output.old) (K.told link.old) client.old)
        (around (W.contents output.new) (K.told link.new) client.new)) }
    ensures count { OnOk result (filter.new.answers ≤ filter.old.answers + 1) }
    ensures written { OnOk result (SinkWorks filter.old (W.has_failed output.old) →
        SinkWorks filter.new (W.has_failed output.new)) }
    ensures works { W.has_failed output.old ≡ false → result ≢ Err FilterFault.Write
        → W.has_failed output.new ≡ false }
    ensures flushed { IsFlushed (W.has_flushed output.old) → result ≢ Err FilterFault.Write →
        IsFlushed (W.has_flushed output.new) }
    ensures fault { IfErr result (λ f. (rest : List ℕ) →
        HaltsHeld (bytes.now ++ 10 ∷ rest) f filter.old
        (around (W.contents output.old) (K.told link.old) client.old)
        (around (W.contents output.new) (K.told link.new) client.new) (W.has_failed output.new)) }
{
    let line = match read_line(bytes) {
        Ok(line) => line,
        Err(fault) => return Err(FilterFault::Line(fault)),
    };
    // (these matches give the proof each way out by itself)
    if filter.is_ready {
        match after_ready(rt, alloc, filter, &line, output, link, client) {
            Ok(()) => Ok(()),
            Err(fault) => Err(fault),
        }
    } else {
        match before_ready(alloc, filter, &line, output) {
            Ok(()) => Ok(()),
            Err(fault) => Err(fault),
        }
    }
}

/// Handles each whole line that the feed holds.
fn take_lines<R: Observer, W: Sink, K: Link>(
    rt: &R,
    alloc: Global,
    feed: &mut LineFeed,
    filter: &mut Filter,
    output: &mut W,
    link: &mut K,
    client: &mut Client,
) -> Result<(), FilterFault>
    requires { filter.old.answers + length feed.old.rest < 2 ^ 63 }
    ensures ok { OnOk result (CarriesHeld feed.old.rest feed.new.rest filter.old filter.new
        (around (W.contents output.old) (K.told link.old) client.old)
        (around (W.contents output.new) (K.told link.new) client.new)) }
    ensures left { OnOk result (IsLine feed.new.rest) }
    ensures count { OnOk result
        (filter.new.answers + length feed.new.rest ≤ filter.old.answers + length feed.old.rest) }
    ensures written { OnOk result (SinkWorks filter.old (W.has_failed output.old) →
        SinkWorks filter.new (W.has_failed output.new)) }
    ensures works { W.has_failed output.old ≡ false → result ≢ Err FilterFault.Write
        → W.has_failed output.new ≡ false }
    ensures flushed { IsFlushed (W.has_flushed output.old) → result ≢ Err FilterFault.Write →
        IsFlushed (W.has_flushed output.new) }
    ensures fault { IfErr result (λ f. HaltsHeld feed.old.rest f filter.old
        (around (W.contents output.old) (K.told link.old) client.old)
        (around (W.contents output.new) (K.told link.new) client.new) (W.has_failed output.new)) }
{
    // (the label is the loop's name in its proof)
    'lines: loop {
        match feed.next_line() {
            Ok(Some(line)) => match handle(rt, alloc, filter, line, output, link, client) {
                Ok(()) => {}
                Err(fault) => return Err(fault),
            },
            Ok(None) => return Ok(()),
            Err(_) => return Err(FilterFault::TooLong),
        }
    }
}

/// Warns of closings that got no answer until the end: what their transactions hold stays reserved.
fn warn_left<R: Log>(rt: &R, left: u32) {
    if left > 0 {
        warn!(rt; "the input ends, closings without an answer: {left}");
    }
}

/// Ends a run at the end of its input: what waits is sent once more.
fn finish<R: Observer, K: Link>(
    rt: &R,
    feed: &LineFeed,
    filter: &Filter,
    link: &mut K,
    client: &mut Client,
) -> Result<RunEnd, FilterFault>
    requires { IsLine feed.now.rest }
    ensures ok { IfOk result (λ e. (o : Outside) (bytes : List ℕ) (sink : Option (List ℕ)) →
        SoFar o bytes feed.now.rest filter.now (around sink (K.told link.old) client.old) →
        EndsWith o bytes (around sink (K.told link.new) client.new) e) }
    ensures ready { OnOk result (filter.now.is_ready ≡ true) }
    ensures fault { IfErr result (λ f. (o : Outside) (pieces : List (List ℕ))
        (source sink : Option (List ℕ))
        (read_failed write_failed : Bool) →
        IsAtEnd source → SoFar o (concat pieces) feed.now.rest filter.now
        (around sink (K.told link.old) client.old) →
        StopsAt o pieces source (around sink (K.told link.new) client.new) read_failed write_failed
        f) }
{
    match feed.finish() {
        Ok(()) => {}
        Err(_) => return Err(FilterFault::CutLine),
    }
    if !filter.is_ready {
        return Err(FilterFault::EndedEarly);
    }
    // The last chance of what waits: no run after this one knows of it.
    let left = client.drain(rt, link);
    warn_left(rt, left);
    Ok(RunEnd {
        answers: filter.answers,
        left,
    })
}

/// Tells that the next read may wait, and how much the client has in hand.
fn rest<R: Observer>(rt: &R, client: &Client) {
    rt.rest(client.held_count(), client.outbox_count());
}

/// Handles what smtpd writes until its end, or until `READS` reads were made.
fn read_all<R: Observer, S: Source, W: Sink, K: Link>(
    rt: &R,
    alloc: Global,
    input: &mut S,
    feed: &mut LineFeed,
    filter: &mut Filter,
    output: &mut W,
    link: &mut K,
    client: &mut Client,
) -> Result<RunEnd, FilterFault>
    requires empty { feed.old.rest ≡ [] }
    requires tracker { TracksAt filter.old.tracker [] }
    requires ready { filter.old.is_ready ≡ false }
    requires count { filter.old.answers ≡ 0 }
    requires holdup { filter.old.holdup ≡ (client.old.spans, nothing_held) }
    ensures ok { IfOk result (λ e. (pieces : List (List ℕ))
        × Supplies (supply (S.remaining input.old) (S.reads input.old))
        (supply (S.remaining input.new) (S.reads input.new)) pieces
        × IsAtEnd (S.remaining input.new)
        × EndsWith (around (W.contents output.old) (K.told link.old) client.old) (concat pieces)
        (around (W.contents output.new) (K.told link.new) client.new) e) }
    ensures fault { IfErr result (λ f. (pieces : List (List ℕ))
        × Supplies (supply (S.remaining input.old) (S.reads input.old))
        (supply (S.remaining input.new) (S.reads input.new)) pieces
        × StopsAt (around (W.contents output.old) (K.told link.old) client.old) pieces
        (S.remaining input.new)
        (around (W.contents output.new) (K.told link.new) client.new) (S.has_failed input.new)
        (W.has_failed output.new) f) }
    // A device that failed is always told.
    ensures written { OnOk result (W.has_failed output.new ≡ false) }
    ensures sink_works { W.has_failed output.old ≡ false → result ≢ Err FilterFault.Write →
        W.has_failed output.new ≡ false }
    // What was written is handed on at every end but a failed write, and so wherever a read fails.
    ensures flushed { IsFlushed (W.has_flushed output.old) → result ≢ Err FilterFault.Write →
        IsFlushed (W.has_flushed output.new) }
    ensures source_works { S.has_failed input.old ≡ false → result ≢ Err FilterFault.Read →
        S.has_failed input.new ≡ false }
{
    let mut piece = [0u8; PIECE];
    for _read in 0..READS {
        rest(rt, client);
        let count = match input.read(&mut piece) {
            Ok(count) => count,
            Err(DeviceFault) => return Err(FilterFault::Read),
        };
        if count == 0 {
            return finish(rt, feed, filter, link, client);
        }
        match feed.feed(&piece[..count]) {
            Ok(()) => {}
            Err(_) => return Err(FilterFault::Memory),
        }
        match take_lines(rt, alloc, feed, filter, output, link, client) {
            Ok(()) => {}
            Err(fault) => return Err(fault),
        }
    }
    Err(FilterFault::Read)
}

/// Reads what smtpd writes, answers each of its requests, and asks the quota server through
/// `client` before a recipient is let through.
///
/// Lines are those of smtpd-filters(7), protocol 0.7. At `config|ready` the registration is
/// written. Reads take at most 4,096 bytes, and every whole line is handled, its answer written and
/// flushed, before the next read. At the end of the input what waits is sent once more. After
/// 1,099,511,627,776 reads it answers `Read`. `Memory` comes where a read's bytes found no room, or
/// at a line that asks for memory: `config|ready`, a request, a closing, or a report of a login or
/// of a transaction that begins.
pub fn run_filter<R: Observer, S: Source, W: Sink, K: Link>(
    rt: &R,
    alloc: Global,
    input: &mut S,
    output: &mut W,
    link: &mut K,
    client: &mut Client,
) -> Result<RunEnd, FilterFault>
    ensures ok { IfOk result (λ e. (pieces : List (List ℕ))
        × Supplies (supply (S.remaining input.old) (S.reads input.old))
        (supply (S.remaining input.new) (S.reads input.new)) pieces
        × IsAtEnd (S.remaining input.new)
        × EndsWith (around (W.contents output.old) (K.told link.old) client.old) (concat pieces)
        (around (W.contents output.new) (K.told link.new) client.new) e) }
    ensures fault { IfErr result (λ f. (pieces : List (List ℕ))
        × Supplies (supply (S.remaining input.old) (S.reads input.old))
        (supply (S.remaining input.new) (S.reads input.new)) pieces
        × StopsAt (around (W.contents output.old) (K.told link.old) client.old) pieces
        (S.remaining input.new)
        (around (W.contents output.new) (K.told link.new) client.new) (S.has_failed input.new)
        (W.has_failed output.new) f) }
    // A device that failed is always told.
    ensures written { OnOk result (W.has_failed output.new ≡ false) }
    ensures sink_works { W.has_failed output.old ≡ false → result ≢ Err FilterFault.Write →
        W.has_failed output.new ≡ false }
    // What was written is handed on at every end but a failed write, and so wherever a read fails.
    ensures flushed { IsFlushed (W.has_flushed output.old) → result ≢ Err FilterFault.Write →
        IsFlushed (W.has_flushed output.new) }
    ensures source_works { S.has_failed input.old ≡ false → result ≢ Err FilterFault.Read →
        S.has_failed input.new ≡ false }
{
    let mut feed = LineFeed::new(alloc);
    let mut filter = Filter {
        tracker: Tracker::new(alloc),
        is_ready: false,
        answers: 0,
        holdup: Holdup::new(alloc, client.spans()),
    };
    read_all(
        rt,
        alloc,
        input,
        &mut feed,
        &mut filter,
        output,
        link,
        client,
    )
}
