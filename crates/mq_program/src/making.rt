//! `init`: makes the ledger in the server's file.
ghost use Rattle.std.specs.Prelude.{◌≡◌, IfErr, IfOk, Some, string_bytes};
ghost use Rattle.sqlite.specs.Files.{file_state};
ghost use Rattle.sqlite.specs.WalFiles.{image_at};
ghost use Rattle.mq_store.specs.Soundness.{HasKept};
ghost use Rattle.mq_program.specs.Making.{MadeFails, PrintsMade, PrintsMadeIn, made_line};
ghost use Rattle.mq_program.specs.Opened.{IsMadeIn, path_in};
ghost use Rattle.mq_process.specs.Settings.{AreInRange};

use crate::auditing::print;
use crate::fault::ProgramFault;
use crate::host::Databases;
use crate::store::{ledger_of_settings, let_go, path_of};
use log::Logged;
use mq_process::{Console, InitArguments, server_settings};
use mq_settings::ServerSettings;
use mq_store::SqlLedger;
use sqlite::{Alter, FileFrom, FileStore, Start};
use std::alloc::{AllocError, Global};
use std::io::Write;

/// Makes the ledger in the file of the settings, prints the file's path, and lets the ledger go. A
/// file that has a ledger already is refused and stays as it is. `start` stands for what the file
/// and its log hold before the call.
#[tactic(auto, using(crate::proofs::MakingSteps::some_path))]
pub fn init<R: Databases + Eprint, W: Write, S: Start>(
    rt: &R,
    given: InitArguments<'_>,
    start: S,
    output: &mut W,
) -> Result<u8, ProgramFault>
    ensures status { IfOk result (λ status. status ≡ 0) }
    ensures printed { IfOk result (λ _. PrintsMade (W.contents output.old)
        (W.contents output.new)) }
{
    let settings = server_settings(rt, given.config)?;
    let_go(init_file(rt, &settings, start, output))
}

/// Makes the ledger in the file of these settings, which comes back, and prints the file's path.
#[tactic(auto, using(crate::proofs::ListingSteps::nothing_written))]
fn init_file<R: Databases + Eprint, W: Write, S: Start>(
    rt: &R,
    settings: &ServerSettings,
    start: S,
    output: &mut W,
) -> Result<SqlLedger<FileStore<FileFrom<S>>>, ProgramFault>
    requires { AreInRange settings.now }
    ensures printed { IfOk result (λ _. PrintsMadeIn (path_in settings.now.store)
        (W.contents output.old)
        (W.contents output.new)) }
    ensures made { IfOk result (λ ledger. HasKept (file_state ledger.connection)
        → IsMadeIn settings.now.zone settings.now.default (image_at S.Start)
        (file_state ledger.connection)) }

    // Nothing else is printed: a part of this line where the output fails, and nothing before any
    // other fault.
    ensures unprinted { IfErr result (λ fault. MadeFails (path_in settings.now.store)
        (W.contents output.old)
        (W.contents output.new) fault) }
{
    let path = path_of(settings)?;
    let logged = Logged::new(rt, settings.log, Console(rt));
    let ledger = ledger_of_settings(rt, &logged, settings, true, start)?;
    let ledger = print_made(rt.alloc(), ledger, path, output)?;
    Ok(ledger)
}

/// Prints the path of a ledger that was made, and which comes back. It goes over any store, since a
/// proof over the file's own takes far longer.
#[tactic(auto, using(crate::proofs::ListingSteps::nothing_written))]
fn print_made<S: Alter + Drop, W: Write>(
    alloc: Global,
    ledger: SqlLedger<S>,
    path: &str,
    output: &mut W,
) -> Result<SqlLedger<S>, ProgramFault>
    ensures same { IfOk result (λ back. back ≡ ledger) }
    ensures printed { IfOk result (λ _. PrintsMadeIn (Some path.now) (W.contents output.old)
        (W.contents output.new)) }
    ensures unprinted { IfErr result (λ fault. MadeFails (Some path.now) (W.contents output.old)
        (W.contents output.new) fault) }
{
    let line = made_line(alloc, path)?;
    print(output, line.as_bytes())?;
    Ok(ledger)
}

/// The line of a ledger that was made.
fn made_line(alloc: Global, path: &str) -> Result<String, AllocError>
    ensures { IfOk result (λ line. string_bytes line ≡ made_line path.now) }
{
    format!(in alloc; "made {path}\n")
}
