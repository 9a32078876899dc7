//! `limits`: prints the limits that are set in the ledger of the server's file.
ghost use Rattle.std.specs.Prelude.{◌≡◌, ◌⊎◌, ◌++◌, ◌∷◌, IfOk, IfErr, OnOk, string_bytes};
ghost use Rattle.std.specs.Fmt.{signed_decimal};
ghost use Rattle.std.specs.Io.KnownBytes.{Keeps};
ghost use Rattle.std.specs.List.Sorted.{IsPermutation, IsSortedByKey};
ghost use Rattle.sqlite.specs.Files.{file_state};
ghost use Rattle.sqlite.specs.Held.{state};
ghost use Rattle.sqlite.specs.WalFiles.{image_at};
ghost use Rattle.mq_command.specs.Listed.{Adds};
ghost use Rattle.mq_rows.specs.Pair.{pair_cmp};
ghost use Rattle.mq_store.specs.Soundness.{HasKept, IsSound, book_in};
ghost use Rattle.mq_program.specs.Listing.{AreMoreObjects, AreObjects, IsLimitsText, IsObject};
ghost use Rattle.mq_program.specs.Listing.{PrintsFrontOfLimits, PrintsLimits, PrintsLimitsOf};
ghost use Rattle.mq_program.specs.Listing.{PrintsSome, limit_line, limit_lines, limit_text};
ghost use Rattle.mq_program.specs.Opened.{MeansFile};
ghost use Rattle.mq_process.specs.Settings.{AreInRange};

use crate::auditing::print;
use crate::fault::ProgramFault;
use crate::host::Databases;
use crate::store::{ledger_of_settings, let_go, log_cause, path_of};
use log::{Log, Logged};
use mq_command::{login_text, push_json_limit};
use mq_process::{Console, LimitsArguments, OutputArgument, server_settings};
use mq_rows::LimitFigures;
use mq_settings::ServerSettings;
use mq_store::SqlLedger;
use sqlite::{Alter, FileFrom, FileStore, Start};
use std::alloc::{AllocError, Global};
use std::cmp::Ordering;
use std::io::Write;

/// Opens the ledger in the file of the settings, and prints each limit that is set: a line for
/// each, or a JSON list of them. Nothing is written to it, but that one of an older version is given
/// the current one. `start` stands for what the file and its log hold before the call.
pub fn limits<R: Databases + Eprint, W: Write, S: Start>(
    rt: &R,
    given: LimitsArguments<'_>,
    start: S,
    output: &mut W,
) -> Result<u8, ProgramFault>
    ensures status { IfOk result (λ status. status ≡ 0) }
    ensures printed { IfOk result (λ _. PrintsSome given.entry.output (W.contents output.old)
        (W.contents output.new)) }
{
    let settings = server_settings(rt, given.config)?;
    let_go(limits_file(rt, &settings, given.output, start, output))
}

/// Prints the limits of the ledger in the file of these settings, which comes back.
fn limits_file<R: Databases + Eprint, W: Write, S: Start>(
    rt: &R,
    settings: &ServerSettings,
    form: OutputArgument,
    start: S,
    output: &mut W,
) -> Result<SqlLedger<FileStore<FileFrom<S>>>, ProgramFault>
    requires { AreInRange settings.now }
    ensures printed { IfOk result (λ _. PrintsSome form (W.contents output.old)
        (W.contents output.new)) }

    // It is the ledger whose rows the files hold, and the lines are those of its limits.
    ensures rows { IfOk result (λ ledger. HasKept (file_state ledger.connection)
        → MeansFile settings.now.zone settings.now.default (image_at S.Start)
        (file_state ledger.connection)) }
    ensures listed { IfOk result (λ ledger. HasKept (file_state ledger.connection)
        → PrintsLimits form (file_state ledger.connection).now (W.contents output.old)
        (W.contents output.new)) }
{
    let path = path_of(settings)?;
    let logged = Logged::new(rt, settings.log, Console(rt));
    let ledger = ledger_of_settings(rt, &logged, settings, false, start)?;
    let ledger = list_whole(rt.alloc(), &logged, path, form, ledger, output)?;
    Ok(ledger)
}

/// Prints the limits of a ledger, which comes back as it was. It goes over any store, since a proof
/// over the file's own takes far longer.
fn list_whole<G: Log, S: Alter + Drop, W: Write>(
    alloc: Global,
    log: &G,
    path: &str,
    form: OutputArgument,
    ledger: SqlLedger<S>,
    output: &mut W,
) -> Result<SqlLedger<S>, ProgramFault>
    ensures printed { IfOk result (λ _. PrintsSome form (W.contents output.old)
        (W.contents output.new)) }
    ensures listed { IfOk result (λ back. HasKept (state S.Store back.connection)
        → PrintsLimits form (state S.Store ledger.connection).now (W.contents output.old)
        (W.contents output.new)) }
    ensures same { IfOk result (λ back. HasKept (state S.Store back.connection)
        → (state S.Store back.connection).now ≡ (state S.Store ledger.connection).now) }
    ensures kept { IfOk result (λ back. HasKept (state S.Store back.connection)
        → HasKept (state S.Store ledger.connection)) }
{
    let mut ledger = ledger;
    match list_limits(alloc, form, &mut ledger, output) {
        Ok(()) => Ok(ledger),
        Err(fault) => {
            log_cause(log, path, &ledger);
            Err(fault)
        }
    }
}

/// Prints the limits of a ledger in this form, by the bytes of the logins, then by the days. They
/// are all limits that its tables have; over a sound store those of its history. Nothing is printed
/// where it fails before the output does.
#[tactic(auto, using(crate::proofs::ListingSteps::nothing_written))]
pub fn list_limits<S: Alter, W: Write>(
    alloc: Global,
    form: OutputArgument,
    ledger: &mut SqlLedger<S>,
    output: &mut W,
) -> Result<(), ProgramFault>
    ensures printed { IfOk result (λ _. PrintsSome form (W.contents output.old)
        (W.contents output.new)) }
    ensures listed { HasKept (state S.Store ledger.new.connection)
        → IfOk result (λ _. PrintsLimits form (state S.Store ledger.old.connection).now
        (W.contents output.old)
        (W.contents output.new)) }
    ensures set { HasKept (state S.Store ledger.new.connection)
        → IsSound ledger.old.zone ledger.old.default (state S.Store ledger.old.connection)
        → IfOk result (λ _. PrintsLimitsOf form (book_in ledger.old.zone ledger.old.default
        (state S.Store ledger.old.connection).now).history (W.contents output.old)
        (W.contents output.new)) }
    ensures unprinted { IfErr result (λ fault. (fault ≡ ProgramFault.Write)
        ⊎ Keeps (W.contents output.old) (W.contents output.new)) }
    ensures front { HasKept (state S.Store ledger.new.connection)
        → IfErr result (λ fault. fault ≡ ProgramFault.Write
        → PrintsFrontOfLimits form (state S.Store ledger.old.connection).now (W.contents output.old)
        (W.contents output.new)) }
    ensures same { HasKept (state S.Store ledger.new.connection)
        → (state S.Store ledger.new.connection).now ≡ (state S.Store ledger.old.connection).now }
    ensures kept { HasKept (state S.Store ledger.new.connection)
        → HasKept (state S.Store ledger.old.connection) }
{
    let mut limits = ledger.limits()?;
    put_in_order(&mut limits);
    let text = limits_text(alloc, form, limits.as_slice())?;
    print(output, text.as_slice())
}

/// Puts limits in the order of their logins and days.
fn put_in_order(limits: &mut Vec<LimitFigures>)
    ensures same { IsPermutation limits.old.items limits.new.items }
    ensures sorted { IsSortedByKey (λ limit. limit.pair) pair_cmp limits.new.items }
{
    limits.sort_unstable_by(
        |a: &LimitFigures, b: &LimitFigures| -> Ordering
            ensures { result ≡ pair_cmp a.now.pair b.now.pair }
        { a.pair.cmp(&b.pair) },
    );
}

/// What is printed of limits in this form.
fn limits_text(
    alloc: Global,
    form: OutputArgument,
    limits: &[LimitFigures],
) -> Result<Vec<u8>, AllocError>
    ensures { IfOk result (λ text. IsLimitsText form limits.now text.items) }
{
    match form {
        OutputArgument::Text => Ok(lines_of(alloc, limits)?.into_bytes()),
        OutputArgument::Json => list_of(alloc, limits),
    }
}

/// The JSON list of limits, and a line's end.
fn list_of(alloc: Global, limits: &[LimitFigures]) -> Result<Vec<u8>, AllocError>
    ensures { IfOk result (λ text. IsLimitsText OutputArgument.Json limits.now text.items) }
{
    let mut text = Vec::new(alloc);
    text.extend_from_slice(b"[")?;
    push_objects(alloc, &mut text, limits)?;
    text.extend_from_slice(b"]\n")?;
    Ok(text)
}

/// Appends the JSON objects of limits, with a comma between two.
fn push_objects(
    alloc: Global,
    text: &mut Vec<u8>,
    limits: &[LimitFigures],
) -> Result<(), AllocError>
    ensures { OnOk result (Adds (AreObjects limits.now) text.old.items text.new.items) }
{
    match limits {
        [] => Ok(()),
        [first, rest @ ..] => {
            push_object(alloc, text, first)?;
            push_more_objects(alloc, text, rest)
        }
    }
}

/// Appends the JSON objects of limits, with a comma before each.
fn push_more_objects(
    alloc: Global,
    text: &mut Vec<u8>,
    limits: &[LimitFigures],
) -> Result<(), AllocError>
    ensures { OnOk result (Adds (AreMoreObjects limits.now) text.old.items text.new.items) }
{
    for limit in limits {
        text.extend_from_slice(b",")?;
        push_object(alloc, text, limit)?;
    }
    Ok(())
}

/// Appends the JSON object of a limit.
fn push_object(alloc: Global, text: &mut Vec<u8>, limit: &LimitFigures) -> Result<(), AllocError>
    ensures { OnOk result (Adds (IsObject limit.now) text.old.items text.new.items) }
{
    push_json_limit(
        alloc,
        text,
        limit.pair.login.as_slice(),
        limit.pair.day,
        limit.cap,
    )
}

/// The lines of limits.
fn lines_of(alloc: Global, limits: &[LimitFigures]) -> Result<String, AllocError>
    ensures { IfOk result (λ text. string_bytes text ≡ limit_lines limits.now) }
{
    let mut text = String::new(alloc);
    for limit in limits {
        push_limit(alloc, &mut text, limit)?;
    }
    Ok(text)
}

/// Puts the line of a limit at the end of a text.
fn push_limit(alloc: Global, text: &mut String, limit: &LimitFigures) -> Result<(), AllocError>
    ensures { OnOk result (string_bytes text.new ≡ string_bytes text.old ++ limit_line limit.now) }
{
    text.push_str(limit_line(alloc, limit)?.as_str())
}

/// The line of a limit: the day from which it governs, recipients a day, and the login's text.
fn limit_line(alloc: Global, limit: &LimitFigures) -> Result<String, AllocError>
    ensures { IfOk result (λ line. string_bytes line ≡ limit_line limit.now) }
{
    let day = number_text(alloc, limit.pair.day)?;
    let cap = number_text(alloc, limit.cap)?;
    let login = login_text(alloc, limit.pair.login.as_slice())?;
    limit_text(alloc, day.as_str(), cap.as_str(), login.as_str())
}

/// The digits of a number, with its sign where it is below 0.
fn number_text(alloc: Global, number: i64) -> Result<String, AllocError>
    ensures { IfOk result (λ text. string_bytes text ≡ signed_decimal number) }
{
    number.to_string(alloc)
}

/// A day, a limit and a login in a line.
fn limit_text(alloc: Global, day: &str, cap: &str, login: &str) -> Result<String, AllocError>
    ensures { IfOk result (λ line. string_bytes line ≡ limit_text day.now cap.now login.now) }
{
    format!(in alloc; "{day} {cap} {login}\n")
}
