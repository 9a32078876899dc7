//! `status`: whether the quota server answers, and what its ledger holds where it doesn't.
ghost use Rattle.std.specs.Prelude.{◌≡◌, ℕ, IfOk, None};
ghost use Rattle.sqlite.specs.Files.{file_state};
ghost use Rattle.sqlite.specs.Held.{state};
ghost use Rattle.sqlite.specs.WalFiles.{image_at};
ghost use Rattle.mq_store.specs.Soundness.{HasKept, IsSound};
ghost use Rattle.mq_program.specs.Describing.{Describes, DescribesFile};
ghost use Rattle.mq_program.specs.Opened.{MeansFile, path_in};
ghost use Rattle.mq_process.specs.Settings.{AreInRange};
ghost use Rattle.mq_command.specs.declared.ask.AskFault.TheVariants.{Memory, Unavailable};
ghost use Rattle.mq_command.specs.declared.probe.ProbeEnd.TheVariants.{Answered, Unanswered};

use crate::auditing::print;
use crate::describing::describe_ledger;
use crate::fault::ProgramFault;
use crate::host::Databases;
use crate::last_night::last_night;
use crate::store::{ledger_of_settings, let_go, log_cause, path_of, unopened};
use log::{Log, Logged};
use mq_command::{AskFault, ProbeEnd};
use mq_process::{Console, Dialer, StatusArguments, ask_status, server_settings};
use mq_settings::{Place, ServerSettings};
use mq_store::SqlLedger;
use sqlite::{Alter, FileFrom, FileStore, Start};
use std::io::{ErrorKind, Write};
use std::net::Net;
use std::rt::{Clock, Files};
use std::{fs, io};

/// The exit status where no server answers and none has the ledger's file open.
const NOT_RUNNING: u8 = 3;

/// `status` of settings: asks their quota server once, and prints that it answers. Where it
/// doesn't, and no server has the file of its ledger open, prints what that holds; the status is 3
/// then. Last it prints which days the server forgot last. The file isn't looked at where the
/// server answers, also if that can't be printed, or where memory runs out; the status is 1 then.
///
/// `start` stands for what the file of the settings and its log hold before the call.
pub fn status<R: Databases + Clock + Net + Print + Eprint, E: Write, S: Start>(
    rt: &R,
    given: StatusArguments<'_>,
    start: S,
    errors: &mut E,
) -> Result<u8, ProgramFault> {
    let settings = server_settings(rt, given.config)?;
    let end = ask_status(rt, &Dialer::new(rt), settings.listen, errors)?;
    let output = &mut io::writer(rt);
    if let Some(status) = status_after(end) {
        if status == 0 {
            print_last_night(rt, &settings.store, output)?;
        }
        return Ok(status);
    }
    let_go(describe_file(rt, &settings, start, output))?;
    print_last_night(rt, &settings.store, output)?;
    Ok(NOT_RUNNING)
}

/// The exit status where the ledger's file isn't looked at: where the server answers, or where
/// memory ran out, so that it may have answered.
fn status_after(end: ProbeEnd) -> Option<u8>
    ensures answered { (status : ℕ) → end ≡ Answered status → result ≡ Some status }
    ensures memory { end ≡ Unanswered Memory → result ≡ Some 1 }
    ensures unavailable { end ≡ Unanswered Unavailable → result ≡ None }
{
    match end {
        ProbeEnd::Answered(status) => Some(status),
        ProbeEnd::Unanswered(AskFault::Memory) => Some(1),
        ProbeEnd::Unanswered(AskFault::Unavailable) => None,
    }
}

/// Prints what the last night of the ledger in this place did, where that is noted.
fn print_last_night<R: Files + AllocGlobal, W: Write>(
    rt: &R,
    store: &Place,
    output: &mut W,
) -> Result<(), ProgramFault> {
    let Place::File(path) = store else {
        return Ok(());
    };
    let Some(night) = last_night(rt, path.as_str()) else {
        return Ok(());
    };
    let line = format!(in rt.alloc(); "ledger {path}: {night}\n")?;
    print(output, line.as_bytes())
}

/// Prints what the ledger in the file of these settings holds, which it opens as a server does, and
/// which comes back.
fn describe_file<R: Databases + Eprint, W: Write, S: Start>(
    rt: &R,
    settings: &ServerSettings,
    start: S,
    output: &mut W,
) -> Result<SqlLedger<FileStore<FileFrom<S>>>, ProgramFault>
    requires { AreInRange settings.now }

    // It is the ledger whose rows the files hold, and where these are the rows of a history, the
    // lines are those of its ledger.
    ensures rows { IfOk result (λ ledger. HasKept (file_state ledger.connection)
        → MeansFile settings.now.zone settings.now.default (image_at S.Start)
        (file_state ledger.connection)) }
    ensures described { IfOk result (λ ledger. HasKept (file_state ledger.connection)
        → DescribesFile settings.now.zone settings.now.default (image_at S.Start)
        (path_in settings.now.store)
        (file_state ledger.connection).now (W.contents output.old) (W.contents output.new)) }
{
    let path = path_of(settings)?;
    let logged = Logged::new(rt, settings.log, Console(rt));
    let ledger = ledger_of_settings(rt, &logged, settings, false, start)?;
    let ledger = describe_whole(rt, &logged, ledger, path, output)?;
    Ok(ledger)
}

/// Prints what a ledger holds that is in the file at a path, and comes back as it was. It goes over
/// any store, since a proof over the file's own takes far longer.
fn describe_whole<R: Files + AllocGlobal, G: Log, S: Alter + Drop, W: Write>(
    rt: &R,
    log: &G,
    ledger: SqlLedger<S>,
    path: &str,
    output: &mut W,
) -> Result<SqlLedger<S>, ProgramFault>
    ensures described { IfOk result (λ back. HasKept (state S.Store back.connection)
        → IsSound ledger.zone ledger.default (state S.Store ledger.connection)
        → (bytes : ℕ) × Describes path.now bytes ledger.zone ledger.default
        (state S.Store ledger.connection).now
        ledger.found (W.contents output.old) (W.contents output.new)) }
    ensures same { IfOk result (λ back. HasKept (state S.Store back.connection)
        → (state S.Store back.connection).now ≡ (state S.Store ledger.connection).now) }
    ensures kept { IfOk result (λ back. HasKept (state S.Store back.connection)
        → HasKept (state S.Store ledger.connection)) }
{
    let mut ledger = ledger;
    let bytes = bytes_of(rt, log, path)?;
    match describe_ledger(rt.alloc(), &mut ledger, path, bytes, output) {
        Ok(()) => Ok(ledger),
        Err(fault) => {
            log_cause(log, path, &ledger);
            Err(fault)
        }
    }
}

/// How many bytes the file at a path has. The cause of `ProgramFault::Store` is logged.
fn bytes_of<G: Log>(rt: &impl Files, log: &G, path: &str) -> Result<u64, ProgramFault> {
    match fs::metadata(rt, path) {
        Ok(found) => Ok(found.len()),
        Err(cause) if cause.kind() == ErrorKind::OutOfMemory => Err(ProgramFault::Memory),
        Err(cause) => Err(unopened(log, path, cause)),
    }
}
