//! The exit status of a subcommand that answers smtpd, or has to do with this machine alone.
ghost use Rattle.std.specs.Prelude.{◌≡◌, ℕ, IfOk, IfSome, Ok};
ghost use Rattle.mq_request.specs.Range.{IsDay, IsRun};
ghost use Rattle.mq_process.specs.Arguments.{IsDayArguments, IsDayUpTo, IsReplayArguments};
ghost use Rattle.mq_process.specs.Days.{PrintsDay};
ghost use Rattle.mq_process.specs.Today.{NamesDay};
ghost use Rattle.mq_remote.specs.Filters.{FiltersFile, streams};
ghost use Rattle.mq_program.specs.Auditing.{PrintsSound};
ghost use Rattle.mq_program.specs.Faults.{fault_status};
ghost use Rattle.mq_program.specs.Forgetting.{PrintsKept};
ghost use Rattle.mq_program.specs.Listing.{PrintsSome};
ghost use Rattle.mq_program.specs.Making.{PrintsMade};
ghost use Rattle.mq_program.specs.Refusals.{ReplayRefuses};
ghost use Rattle.mailquota.specs.Done.{told_of_file};

use crate::version::VERSION;
use mq_process::{
    AuditArguments, DayArguments, Dial, FilterArguments, ForgetArguments, ForgetWords,
    InitArguments, LimitsArguments, ProcessFault, ReplayArguments, WallClock, day, day_named,
    end_process,
};
use mq_program::{Databases, Terminals, audit, end_program, forget, init, limits, replay};
use mq_remote::{end_filter, filter};
use mq_request::bounds::LAST_DAY;
use mq_stream::{Sink, Source};
use sqlite::Start;
use std::io::Write;
use std::rt::{Clock, Files};

/// Answers smtpd on these streams.
pub fn end_filtering<
    R: Files + WallClock + Print + Eprint + AllocGlobal,
    D: Dial,
    S: Source,
    W: Sink,
    E: Write,
>(rt: &R, dial: &D, given: FilterArguments<'_>, input: &mut S, output: &mut W, errors: &mut E) -> u8
    requires { IfSome given.run IsRun }
    ensures { result ≡ 0
        → FiltersFile D.leads D.keeps D.Link.told R.File.remaining (R.shows rt.now) given.entry
        (streams (S.remaining input.old) (S.reads input.old) (S.has_failed input.old)
        (W.contents output.old) (W.has_failed output.old))
        (streams (S.remaining input.new) (S.reads input.new) (S.has_failed input.new)
        (W.contents output.new) (W.has_failed output.new)) (Ok 0) }
{
    end_filter(
        filter(rt, dial, given, VERSION, input, output, errors),
        errors,
    )
}

/// Answers the frames on standard input.
pub fn end_replay<R: Input + Print + AllocGlobal, E: Write>(
    rt: &R,
    given: ReplayArguments<'_>,
    errors: &mut E,
) -> u8
    requires { IsReplayArguments given }
    ensures { ReplayRefuses given.entry (λ fault. result ≡ fault_status fault) }
{
    end_program(replay(rt, given, errors), errors)
}

/// Prints a day.
pub fn end_day<R: Files + Clock + Eprint + AllocGlobal, W: Write, E: Write>(
    rt: &R,
    given: DayArguments<'_>,
    is_on_terminal: bool,
    output: &mut W,
    errors: &mut E,
) -> u8
    requires { IsDayArguments given }
    ensures { result ≡ 0 → PrintsDay R.File.remaining given.entry is_on_terminal
        (W.contents output.old) (W.contents output.new) (Ok 0) }
{
    end_process(day(rt, given, is_on_terminal, output, errors), errors)
}

/// Makes the ledger in a file.
pub fn end_init<R: Databases + Eprint, S: Start, W: Write, E: Write>(
    rt: &R,
    given: InitArguments<'_>,
    start: S,
    output: &mut W,
    errors: &mut E,
) -> u8
    ensures { result ≡ 0 → PrintsMade (W.contents output.old) (W.contents output.new) }
{
    end_program(init(rt, given, start, output), errors)
}

/// Prints the limits that are set in a ledger's file.
pub fn end_limits<R: Databases + Eprint, S: Start, W: Write, E: Write>(
    rt: &R,
    given: LimitsArguments<'_>,
    start: S,
    output: &mut W,
    errors: &mut E,
) -> u8
    ensures { result ≡ 0 → PrintsSome given.entry.output (W.contents output.old)
        (W.contents output.new) }
{
    end_program(limits(rt, given, start, output), errors)
}

/// Checks the books in a ledger's file.
pub fn end_audit<R: Databases + Eprint, S: Start, W: Write, E: Write>(
    rt: &R,
    given: AuditArguments<'_>,
    start: S,
    output: &mut W,
    errors: &mut E,
) -> u8
    ensures { result ≡ 0 → PrintsSound given.entry.output (W.contents output.old)
        (W.contents output.new) }
{
    end_program(audit(rt, given, start, output), errors)
}

/// Makes a new ledger file without the days before the one that is named.
pub fn end_forget<R, S: Start, N: Start, W: Write, E: Write>(
    rt: &R,
    given: ForgetWords<'_>,
    start: S,
    new: N,
    output: &mut W,
    errors: &mut E,
) -> u8
where
    R: Databases + Clock + Eprint + Terminals,
    requires { IsDayUpTo 376200 given.before }
    ensures { result ≡ 0 → (day : ℕ) × NamesDay told_of_file given.entry.before day
        × PrintsKept (W.contents output.old) (W.contents output.new) }
{
    match with_number(rt, given) {
        Ok(given) => end_program(forget(rt, given, start, new, output), errors),
        Err(fault) => end_process(Err(fault), errors),
    }
}

/// What `forget` is given, with the number of its day.
fn with_number<'a, R: Files + Clock + Eprint + AllocGlobal>(
    rt: &R,
    given: ForgetWords<'a>,
) -> Result<ForgetArguments<'a>, ProcessFault>
    requires { IsDayUpTo 376200 given.before }
    ensures in_range { IfOk result (λ forgets. IsDay forgets.before) }
    ensures day { IfOk result (λ forgets.
        NamesDay R.File.remaining given.entry.before forgets.before) }
    ensures files { IfOk result (λ forgets. (forgets.config ≡ given.entry.config)
        × (forgets.into ≡ given.entry.into)) }
{
    let before = day_named(rt, given.before, Some(given.config), LAST_DAY)?;
    Ok(ForgetArguments {
        config: given.config,
        before,
        into: given.into,
    })
}
