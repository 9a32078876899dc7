//! `audit`: checks the books of the ledger in the server's file.
ghost use Rattle.std.specs.Prelude.{◌≡◌, ◌≢◌, ◌⊎◌, IfOk, IfErr, IsOk, OnOk, string_bytes};
ghost use Rattle.std.specs.Io.KnownBytes.{Appends, Keeps};
ghost use Rattle.sqlite.specs.Files.{file_state};
ghost use Rattle.sqlite.specs.WalFiles.{image_at};
ghost use Rattle.mq_stream.specs.Flow.{AppendsFront};
ghost use Rattle.mq_store.specs.Soundness.{HasKept};
ghost use Rattle.mq_program.specs.Auditing.{FailsAfter, PrintsAudit, PrintsSound, SaysFault};
ghost use Rattle.mq_program.specs.Auditing.{sound_line, sound_text};
ghost use Rattle.mq_program.specs.Opened.{MeansFile};
ghost use Rattle.mq_process.specs.Settings.{AreInRange};

use crate::fault::ProgramFault;
use crate::host::Databases;
use crate::store::{ledger_of_settings, let_go};
use log::Logged;
use mq_command::{json_of_sound, json_of_wrong, write_whole};
use mq_process::{AuditArguments, Console, OutputArgument, server_settings};
use mq_settings::ServerSettings;
use mq_store::{OpenFault, SqlLedger};
use sqlite::{Alter, FileFrom, FileStore, Start};
use std::alloc::{AllocError, Global};
use std::io::Write;

/// Opens the ledger in the file of the settings, which checks its books, and prints how much they
/// hold. Books that are wrong are the fault, with the least login and day that are. `start` stands
/// for what the file and its log hold before the call.
pub fn audit<R: Databases + Eprint, W: Write, S: Start>(
    rt: &R,
    given: AuditArguments<'_>,
    start: S,
    output: &mut W,
) -> Result<u8, ProgramFault>
    ensures status { IfOk result (λ status. status ≡ 0) }
    ensures printed { IfOk result (λ _. PrintsSound given.entry.output (W.contents output.old)
        (W.contents output.new)) }
    // Of books that are wrong, and of a ledger that can't be opened, nothing is printed; as JSON of
    // the first what is wrong.
    ensures silent { IfErr result (λ fault. fault ≢ ProgramFault.Write
        → SaysFault given.entry.output fault (W.contents output.old) (W.contents output.new)) }
{
    let settings = server_settings(rt, given.config)?;
    match let_go(audit_file(rt, &settings, given.output, start, output)) {
        Ok(status) => Ok(status),
        Err(fault) => Err(say_fault(rt.alloc(), given.output, fault, output)),
    }
}

/// Prints, as JSON, what is wrong with books where this is the fault. What isn't done then is told,
/// that or why it can't be printed.
fn say_fault<W: Write>(
    alloc: Global,
    form: OutputArgument,
    fault: ProgramFault,
    output: &mut W,
) -> ProgramFault
    ensures told { result ≢ ProgramFault.Write
        → SaysFault form result (W.contents output.old) (W.contents output.new) }
    ensures write { fault ≡ ProgramFault.Write → result ≡ ProgramFault.Write }
{
    match say_wrong(alloc, form, &fault, output) {
        Ok(()) => fault,
        Err(other) => other,
    }
}

/// Prints, as JSON, what is wrong with books where this is the fault.
fn say_wrong<W: Write>(
    alloc: Global,
    form: OutputArgument,
    fault: &ProgramFault,
    output: &mut W,
) -> Result<(), ProgramFault>
    ensures told { OnOk result (SaysFault form fault.now (W.contents output.old)
        (W.contents output.new)) }
    ensures fault { IfErr result (λ other. (other ≡ ProgramFault.Write)
        ⊎ ((other ≡ ProgramFault.Memory) × Keeps (W.contents output.old) (W.contents output.new))) }
    ensures write { fault.now ≡ ProgramFault.Write → IsOk result }
{
    match (form, fault) {
        (OutputArgument::Json, ProgramFault::Open(OpenFault::Damaged { login, day })) => {
            let text = json_of_wrong(alloc, login.as_slice(), *day)?;
            print(output, text.as_slice())
        }
        _ => Ok(()),
    }
}

/// Audits the ledger in the file of these settings, which comes back.
fn audit_file<R: Databases + Eprint, W: Write, S: Start>(
    rt: &R,
    settings: &ServerSettings,
    form: OutputArgument,
    start: S,
    output: &mut W,
) -> Result<SqlLedger<FileStore<FileFrom<S>>>, ProgramFault>
    requires { AreInRange settings.now }
    ensures printed { IfOk result (λ _. PrintsSound form (W.contents output.old)
        (W.contents output.new)) }

    // It is the ledger whose rows the files hold, and the counts are those of an audit of these
    // rows.
    ensures rows { IfOk result (λ ledger. HasKept (file_state ledger.connection)
        → MeansFile settings.now.zone settings.now.default (image_at S.Start)
        (file_state ledger.connection)) }
    ensures audited { IfOk result (λ ledger. HasKept (file_state ledger.connection)
        → PrintsAudit form settings.now.zone settings.now.default (image_at S.Start)
        (W.contents output.old)
        (W.contents output.new)) }
    ensures silent { IfErr result (λ fault. fault ≢ ProgramFault.Write
        → Keeps (W.contents output.old) (W.contents output.new)) }
{
    let logged = Logged::new(rt, settings.log, Console(rt));
    let ledger = ledger_of_settings(rt, &logged, settings, false, start)?;
    let ledger = audit_whole(rt.alloc(), form, ledger, output)?;
    Ok(ledger)
}

/// Audits a ledger, which comes back. It goes over any store, since a proof over the file's own
/// takes far longer.
fn audit_whole<S: Alter + Drop, W: Write>(
    alloc: Global,
    form: OutputArgument,
    ledger: SqlLedger<S>,
    output: &mut W,
) -> Result<SqlLedger<S>, ProgramFault>
    ensures same { IfOk result (λ back. back ≡ ledger) }
    ensures printed { OnOk result (Appends (W.contents output.old) (W.contents output.new)
        (sound_text form ledger.found.days ledger.found.transactions)) }
    ensures unprinted { IfErr result (FailsAfter (sound_text form ledger.found.days
        ledger.found.transactions)
        (W.contents output.old) (W.contents output.new)) }
{
    audit_ledger(alloc, form, &ledger, output)?;
    Ok(ledger)
}

/// Prints in this form that the books of a ledger are right, and how many days of logins and how
/// many transactions they were found to have as it was opened, which checked them.
#[tactic(auto, using(crate::proofs::ListingSteps::nothing_written))]
pub fn audit_ledger<S: Alter, W: Write>(
    alloc: Global,
    form: OutputArgument,
    ledger: &SqlLedger<S>,
    output: &mut W,
) -> Result<(), ProgramFault>
    ensures printed { OnOk result (Appends (W.contents output.old) (W.contents output.new)
        (sound_text form ledger.now.found.days ledger.now.found.transactions)) }
    ensures unprinted { IfErr result (FailsAfter (sound_text form ledger.now.found.days
        ledger.now.found.transactions)
        (W.contents output.old) (W.contents output.new)) }
{
    let found = ledger.found();
    let text = sound_text(alloc, form, found.days, found.transactions)?;
    print(output, text.as_bytes())
}

/// Writes all bytes, or a prefix of them before a write fails, and flushes the output. A write or a
/// flush that fails is `ProgramFault::Write`.
pub(crate) fn print<W: Write>(output: &mut W, bytes: &[u8]) -> Result<(), ProgramFault>
    ensures whole { OnOk result (Appends (W.contents output.old)
        (W.contents output.new) bytes.now) }
    ensures front { AppendsFront (W.contents output.old) (W.contents output.new) bytes.now }
    ensures fault { IfErr result (λ fault. fault ≡ ProgramFault.Write) }
{
    if write_whole(output, bytes).is_err() || output.flush().is_err() {
        return Err(ProgramFault::Write);
    }
    Ok(())
}

/// What is printed, in this form, of books that are right.
fn sound_text(
    alloc: Global,
    form: OutputArgument,
    days: u64,
    transactions: u64,
) -> Result<String, AllocError>
    ensures { IfOk result (λ text. string_bytes text ≡ sound_text form days transactions) }
{
    match form {
        OutputArgument::Text => sound_line(alloc, days, transactions),
        OutputArgument::Json => json_of_sound(alloc, days, transactions),
    }
}

/// The line of books that are right.
fn sound_line(alloc: Global, days: u64, transactions: u64) -> Result<String, AllocError>
    ensures { IfOk result (λ line. string_bytes line ≡ sound_line days transactions) }
{
    format!(in alloc; "sound days={days} transactions={transactions}\n")
}
