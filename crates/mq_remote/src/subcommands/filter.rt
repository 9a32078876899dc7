//! `filter`: answers smtpd on standard input and output.
ghost use Rattle.std.specs.Prelude.{◌↔◌, ◌<◌, ◌*◌, IfOk, IfSome, IsTrue};
ghost use Rattle.mq_request.specs.Range.{IsRun};
ghost use Rattle.mq_process.specs.Links.{AsksOver};
ghost use Rattle.mq_process.specs.Settings.{CanAsk};
ghost use Rattle.mq_remote.specs.Filters.{AnswersLines, Begins, ChecksServer};
ghost use Rattle.mq_remote.specs.Filters.{FiltersFile, FiltersNumbered, FiltersRun, streams};

use crate::fault::FilterEnd;
use crate::measured_link::MeasuredLink;
use crate::measured_log::MeasuredLog;
use log::{LevelFilter, Log, Logged, error, info, warn};
use mq_client::{Client, Observer, Spans, run_filter};
use mq_link::{Link, LoggedLink};
use mq_metrics::FilterMetrics;
use mq_process::{
    Console, Dial, FilterArguments, ProcessFault, Question, WallClock, ask_once, filter_settings,
    run_number,
};
use mq_request::EscapedText;
use mq_settings::FilterSettings;
use mq_stream::{Sink, Source};
use std::alloc::{AllocError, Global};
use std::io::Write;
use std::rt::Files;

/// Runs the filter until its input ends: the settings first, then the clock. What smtpd writes comes
/// from `input`, and `output` takes what it is answered. With `check` it uses neither, and only asks
/// whether the server of its settings takes the requests of its host. Its figures name `version`.
pub fn filter<
    R: Files + WallClock + Print + Eprint + AllocGlobal,
    D: Dial,
    S: Source,
    W: Sink,
    E: Write,
>(
    rt: &R,
    dial: &D,
    given: FilterArguments<'_>,
    version: &str,
    input: &mut S,
    output: &mut W,
    errors: &mut E,
) -> Result<u8, FilterEnd>
    requires { IfSome given.run IsRun }
    ensures { FiltersFile D.leads D.keeps D.Link.told R.File.remaining (R.shows rt.now) given.entry
        (streams (S.remaining input.old) (S.reads input.old) (S.has_failed input.old)
        (W.contents output.old) (W.has_failed output.old))
        (streams (S.remaining input.new) (S.reads input.new) (S.has_failed input.new)
        (W.contents output.new) (W.has_failed output.new)) result }
{
    match filter_settings(rt, given.config) {
        Ok(settings) if given.check => check_server(rt, dial, &settings, errors),
        Ok(settings) => run_numbered(rt, dial, &settings, given.run, version, input, output),
        Err(fault) => Err(FilterEnd::Process(fault)),
    }
}

/// Runs the filter under the run number that is given, or under the clock's.
fn run_numbered<R: Files + WallClock + Eprint + AllocGlobal, D: Dial, S: Source, W: Sink>(
    rt: &R,
    dial: &D,
    settings: &FilterSettings,
    given: Option<u64>,
    version: &str,
    input: &mut S,
    output: &mut W,
) -> Result<u8, FilterEnd>
    requires settings { CanAsk settings.now }
    requires given { IfSome given IsRun }
    ensures { FiltersNumbered D.leads D.keeps D.Link.told (R.shows rt.now) given settings.now
        (streams (S.remaining input.old) (S.reads input.old) (S.has_failed input.old)
        (W.contents output.old) (W.has_failed output.old))
        (streams (S.remaining input.new) (S.reads input.new) (S.has_failed input.new)
        (W.contents output.new) (W.has_failed output.new)) result }
{
    match run_number(rt, given) {
        Ok(run) => run_client(rt, dial, settings, run, version, input, output),
        Err(fault) => Err(FilterEnd::Process(fault)),
    }
}

/// Asks once whether the server of the settings takes the requests of their host, and prints how
/// long the filter holds back.
fn check_server<R: WallClock + Print + Eprint + AllocGlobal, D: Dial, E: Write>(
    rt: &R,
    dial: &D,
    settings: &FilterSettings,
    errors: &mut E,
) -> Result<u8, FilterEnd>
    requires { CanAsk settings.now }
    ensures { ChecksServer D.leads D.Link.told (R.shows rt.now) settings.now result }
{
    let timeout = u64::from(settings.timeout);
    let question = Question::Check(&settings.host, run_number(rt, None)?);
    let status = ask_once(rt, dial, settings.server, timeout, question, errors)?;
    tell_spans(rt, settings);
    Ok(status)
}

/// Whether there is a pause, and one that is shorter than the tries of one request take at least
/// where each runs out of time. A try does so once its connecting, its writing or its reading takes
/// the timeout, each of which may take as long.
fn is_short(settings: &FilterSettings) -> bool
    ensures { IsTrue result ↔ ((0 < settings.now.pause)
        × (settings.now.pause * 1000 < settings.now.tries * settings.now.timeout)) }
{
    let pause = u64::from(settings.pause) * 1_000;
    let tries = u64::from(settings.tries);
    0 < pause && pause < tries.saturating_mul(u64::from(settings.timeout))
}

/// Prints for how long the filter holds back, where it does, and warns of a pause that is too
/// short.
fn tell_spans<R: Print + Eprint>(rt: &R, settings: &FilterSettings) {
    let (pause, hold) = (settings.pause, settings.hold);
    if pause > 0 || hold > 0 {
        // (what this line is about isn't what the status says)
        let _ = println!(rt; "pause {pause} s, hold {hold} s");
    }
    if is_short(settings) {
        let (tries, timeout) = (settings.tries, settings.timeout);
        let logged = Logged::new(rt, LevelFilter::Warn, Console(rt));
        warn!(logged; "a pause of {pause} s hardly helps: {tries} tries that time out take {timeout} ms each or more");
    }
}

/// The client of a run, as the settings say.
fn client_of(alloc: Global, settings: &FilterSettings, run: u64) -> Result<Client, AllocError>
    requires settings { CanAsk settings.now }
    requires run { IsRun run }
    ensures { IfOk result (Begins settings.now run) }
{
    let client = Client::new(alloc, &settings.host, run, settings.tries)?;
    Ok(client.with_spans(Spans {
        pause: u64::from(settings.pause),
        hold: u64::from(settings.hold),
    }))
}

/// Runs the filter under this run number, over a link to the server of the settings.
fn run_client<R: Files + WallClock + Eprint + AllocGlobal, D: Dial, S: Source, W: Sink>(
    rt: &R,
    dial: &D,
    settings: &FilterSettings,
    run: u64,
    version: &str,
    input: &mut S,
    output: &mut W,
) -> Result<u8, FilterEnd>
    requires settings { CanAsk settings.now }
    requires run { IsRun run }
    ensures { FiltersRun D.leads D.keeps D.Link.told settings.now run
        (streams (S.remaining input.old) (S.reads input.old) (S.has_failed input.old)
        (W.contents output.old) (W.has_failed output.old))
        (streams (S.remaining input.new) (S.reads input.new) (S.has_failed input.new)
        (W.contents output.new) (W.has_failed output.new)) result }
{
    let Ok(mut client) = client_of(rt.alloc(), settings, run) else {
        return Err(FilterEnd::Process(ProcessFault::Memory));
    };
    let logged = Logged::new(rt, settings.log, Console(rt));
    let host = EscapedText(settings.host.as_slice());
    let server = settings.server;
    info!(logged; "the filter of host {host} begins its run {run}, with the server {server}");
    count_lines(
        rt,
        dial,
        settings,
        version,
        &logged,
        input,
        output,
        &mut client,
    )
}

/// Answers the lines of the input over a link to the server of the settings. What is done is
/// counted, and written as the settings say.
fn count_lines<R: Files + WallClock + AllocGlobal, D: Dial, G: Log, S: Source, W: Sink>(
    rt: &R,
    dial: &D,
    settings: &FilterSettings,
    version: &str,
    log: &G,
    input: &mut S,
    output: &mut W,
    client: &mut Client,
) -> Result<u8, FilterEnd>
    ensures { AsksOver (λ link address timeout. D.leads link address timeout
        × D.keeps link settings.now.keep_connection) D.Link.told
        settings.now.server settings.now.timeout (λ old new _ _. AnswersLines client.old client.new
        result old new (streams (S.remaining input.old) (S.reads input.old) (S.has_failed input.old)
        (W.contents output.old) (W.has_failed output.old))
        (streams (S.remaining input.new) (S.reads input.new) (S.has_failed input.new)
        (W.contents output.new) (W.has_failed output.new))) }
{
    let metrics = FilterMetrics::new();
    let measured = MeasuredLog::new(rt, log, &metrics, version, settings);
    let timeout = u64::from(settings.timeout);
    let link = dial.link(settings.server, timeout, settings.keep_connection);
    let mut link = LoggedLink::new(MeasuredLink::new(link, rt, &metrics), log, settings.tries);
    let ended = answer_lines(&measured, rt.alloc(), input, output, &mut link, client);
    measured.end(client);
    ended
}

/// Answers the lines of the input. Why that ends before their end is logged.
fn answer_lines<G: Observer, S: Source, W: Sink, K: Link>(
    log: &G,
    alloc: Global,
    input: &mut S,
    output: &mut W,
    link: &mut K,
    client: &mut Client,
) -> Result<u8, FilterEnd>
    ensures { AnswersLines client.old client.new result (K.told link.old) (K.told link.new)
        (streams (S.remaining input.old) (S.reads input.old) (S.has_failed input.old)
        (W.contents output.old) (W.has_failed output.old))
        (streams (S.remaining input.new) (S.reads input.new) (S.has_failed input.new)
        (W.contents output.new) (W.has_failed output.new)) }
{
    match run_filter(log, alloc, input, output, link, client) {
        Ok(_) => Ok(0),
        Err(fault) => {
            error!(log; "the filter ends: {fault}");
            warn_left(log, client);
            Err(FilterEnd::Filter(fault))
        }
    }
}

/// Warns of what a filter leaves that ends by a fault: what these transactions hold stays reserved.
fn warn_left<G: Log>(log: &G, client: &Client) {
    let closings = client.outbox_count();
    let open = client.held_count();
    if closings > 0 || open > 0 {
        warn!(log; "closings without an answer: {closings}, open transactions: {open}");
    }
}
