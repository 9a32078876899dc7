//! `forget`: makes a new ledger file that has what the server's remembers from a day on.
ghost use Rattle.std.specs.Prelude.{◌≡◌, IfOk, OnOk, length, string_bytes};
ghost use Rattle.std.specs.Io.KnownBytes.{Appends};
ghost use Rattle.sqlite.specs.Files.{file_state};
ghost use Rattle.sqlite.specs.Held.{state};
ghost use Rattle.sqlite.specs.WalFiles.{image_at};
ghost use Rattle.mq_program.specs.Forgetting.{Counts, CountsLimits, PrintsKept, PrintsKeptOf};
ghost use Rattle.mq_program.specs.Forgetting.{PrintsKeptOfFile, kept_line};
ghost use Rattle.mq_program.specs.Opened.{MeansFile};
ghost use Rattle.mq_process.specs.Settings.{AreInRange};
ghost use Rattle.mq_store.specs.Forgetting.{IsFree, IsRemembered};
ghost use Rattle.mq_store.specs.Soundness.{HasKept, IsSound, book_in};

use crate::auditing::print;
use crate::fault::ProgramFault;
use crate::host::{Databases, Terminals};
use crate::progress::{ProgressListener, Terminal};
use crate::store::{close_file, connect_new, ledger_of_settings, let_go, make_new_file, path_of};
use log::{Log, Logged, error, info};
use mq_ledger::Zone;
use mq_process::{Console, ForgetArguments, moment_or_now, server_settings};
use mq_settings::ServerSettings;
use mq_store::{OpenFault, SqlLedger};
use sqlite::{Alter, Connection, FileFrom, FileStore, Start};
use std::alloc::{AllocError, Global};
use std::io::Write;
use std::rt::Clock;

/// How many answers a new ledger has, of all that the old one has, and how many limits.
#[derive(Clone, Copy)]
pub struct KeptCounts {
    /// The answers of the new ledger.
    pub answers: u64,
    /// The answers of the old one.
    pub all: u64,
    /// One for each login and day from which a limit was set.
    pub limits: u64,
}

/// The line that says how many answers and limits are kept.
fn kept_line(alloc: Global, answers: u64, all: u64, limits: u64) -> Result<String, AllocError>
    ensures { IfOk result (λ line. string_bytes line ≡ kept_line answers all limits) }
{
    format!(in alloc; "kept answers={answers} of {all}, limits={limits}\n")
}

/// Counts the answers and the limits of a new ledger that was made of one with so many answers.
/// Nothing is written.
fn count_kept<S: Alter>(new: &mut SqlLedger<S>, all: u64) -> Result<KeptCounts, ProgramFault>
    ensures lent { (new.new.zone ≡ new.old.zone) × (new.new.default ≡ new.old.default) }
    ensures same { HasKept (state S.Store new.new.connection)
        → (state S.Store new.new.connection).now ≡ (state S.Store new.old.connection).now }
    ensures kept { HasKept (state S.Store new.new.connection)
        → HasKept (state S.Store new.old.connection) }
    ensures sound { HasKept (state S.Store new.new.connection)
        → IsSound new.old.zone new.old.default (state S.Store new.old.connection)
        → IsSound new.new.zone new.new.default (state S.Store new.new.connection) }
    ensures all { IfOk result (λ kept. kept.all ≡ all) }
    ensures answers { HasKept (state S.Store new.new.connection)
        → IsSound new.old.zone new.old.default (state S.Store new.old.connection)
        → IfOk result (λ kept. kept.answers
        ≡ length (book_in new.old.zone new.old.default (state S.Store
        new.old.connection).now).history) }
    ensures limits { HasKept (state S.Store new.new.connection)
        → IfOk result (λ kept. CountsLimits (state S.Store new.old.connection).now kept.limits) }
{
    let answers = new.count_answers()?;
    let limits = new.limits()?;
    Ok(KeptCounts {
        answers,
        all,
        limits: limits.len() as u64,
    })
}

/// Makes, over a connection, a new ledger that has what the old one remembers from a day on, and
/// counts the answers of both and the limits. The old one isn't written. `progress` hears how many
/// answers there are to look through.
pub fn carry_over<S: Alter + Drop, T: Alter, P: ProgressListener>(
    alloc: Global,
    old: &mut SqlLedger<T>,
    into: Connection<S>,
    day: u32,
    progress: &P,
) -> Result<(SqlLedger<S>, KeptCounts), ProgramFault>
    ensures old_lent { (old.new.zone ≡ old.old.zone) × (old.new.default ≡ old.old.default) }
    ensures old_kept { HasKept (state T.Store old.new.connection)
        → HasKept (state T.Store old.old.connection) }
    ensures old_same { HasKept (state T.Store old.new.connection)
        → (state T.Store old.new.connection).now ≡ (state T.Store old.old.connection).now }
    ensures remembered { IfOk result (λ made. HasKept (state T.Store old.new.connection)
        → HasKept (state S.Store made.0.connection)
        → IsSound old.old.zone old.old.default (state T.Store old.old.connection)
        → IsFree (state S.Store into).now
        → IsRemembered old.old.zone old.old.default day (state T.Store old.old.connection).now
        (state S.Store made.0.connection)) }
    ensures counted { IfOk result (λ made. HasKept (state T.Store old.new.connection)
        → HasKept (state S.Store made.0.connection)
        → IsSound old.old.zone old.old.default (state T.Store old.old.connection)
        → IsFree (state S.Store into).now
        → Counts (book_in old.old.zone old.old.default (state T.Store old.old.connection).now)
        (book_in old.old.zone old.old.default (state S.Store made.0.connection).now)
        (state S.Store made.0.connection).now made.1) }

    // How many answers the old one has doesn't depend on the new store.
    ensures all { IfOk result (λ made. HasKept (state T.Store old.new.connection)
        → IsSound old.old.zone old.old.default (state T.Store old.old.connection)
        → made.1.all ≡ length (book_in old.old.zone old.old.default
        (state T.Store old.old.connection).now).history) }
{
    let all = old.count_answers()?;
    progress.begin(all);
    let mut new = SqlLedger::carry_over(alloc, old, into, day)?;
    match count_kept(&mut new, all) {
        Ok(kept) => Ok((new, kept)),
        Err(fault) => Err(with_cause(&new, fault)),
    }
}

/// Refuses a day after the one that the clock shows.
fn check_day(rt: &impl Clock, zone: &Zone, day: u32) -> Result<(), ProgramFault> {
    let now = moment_or_now(rt, None)?;
    if zone.day_at(now) < day {
        return Err(ProgramFault::Later);
    }
    Ok(())
}

/// A fault, with its cause where that is the store of this ledger.
fn with_cause<S: Alter>(ledger: &SqlLedger<S>, fault: ProgramFault) -> ProgramFault {
    match ledger.cause() {
        Some(cause) => ProgramFault::Open(OpenFault::Store(cause)),
        None => fault,
    }
}

/// A database that was filled with what a ledger remembers, the ledger, and how much that is.
#[derive(Drop)]
struct FilledFile<S: Alter, T: Alter> {
    old: SqlLedger<T>,
    into: Connection<S>,
    kept: KeptCounts,
}

/// Puts what a ledger remembers into the database of another connection; both come back. It goes
/// over any store, since a proof over the file's own takes far longer.
fn fill<S: Alter + Drop, T: Alter + Drop, P: ProgressListener>(
    alloc: Global,
    old: SqlLedger<T>,
    into: Connection<S>,
    day: u32,
    progress: &P,
) -> Result<FilledFile<S, T>, ProgramFault>
    ensures old_lent { IfOk result (λ f. (f.old.zone ≡ old.zone) × (f.old.default ≡ old.default)) }
    ensures old_kept { IfOk result (λ f. HasKept (state T.Store f.old.connection)
        → HasKept (state T.Store old.connection)) }
    ensures old_same { IfOk result (λ f. HasKept (state T.Store f.old.connection)
        → (state T.Store f.old.connection).now ≡ (state T.Store old.connection).now) }
    ensures remembered { IfOk result (λ f. HasKept (state T.Store f.old.connection)
        → HasKept (state S.Store f.into)
        → IsSound old.zone old.default (state T.Store old.connection)
        → IsFree (state S.Store into).now
        → IsRemembered old.zone old.default day (state T.Store old.connection).now
        (state S.Store f.into)) }
    ensures counted { IfOk result (λ f. HasKept (state T.Store f.old.connection)
        → HasKept (state S.Store f.into)
        → IsSound old.zone old.default (state T.Store old.connection)
        → IsFree (state S.Store into).now
        → Counts (book_in old.zone old.default (state T.Store old.connection).now)
        (book_in old.zone old.default (state S.Store f.into).now)
        (state S.Store f.into).now f.kept) }
    ensures all { IfOk result (λ f. HasKept (state T.Store f.old.connection)
        → IsSound old.zone old.default (state T.Store old.connection)
        → f.kept.all ≡ length (book_in old.zone old.default
        (state T.Store old.connection).now).history) }
{
    let mut old = old;
    match carry_over(alloc, &mut old, into, day, progress) {
        Ok((new, kept)) => Ok(FilledFile {
            old,
            into: new.into_connection(),
            kept,
        }),
        Err(fault) => Err(with_cause(&old, fault)),
    }
}

/// A ledger of which a new file was made, and how much that has.
#[derive(Drop)]
struct SupersededLedger<T: Alter> {
    old: SqlLedger<T>,
    kept: KeptCounts,
}

/// Puts what a ledger remembers into an empty file, which is then closed. The ledger comes back as
/// it was.
///
/// `start` stands for what the empty file and its log hold.
fn fill_file<R, G: Log, T: Alter + Drop, S: Start>(
    rt: &R,
    log: &G,
    old: SqlLedger<T>,
    name: &str,
    start: S,
    day: u32,
) -> Result<SupersededLedger<T>, ProgramFault>
where
    R: Databases + Clock + Eprint + Terminals,
    ensures lent { IfOk result (λ f. (f.old.zone ≡ old.zone) × (f.old.default ≡ old.default)) }
    ensures kept { IfOk result (λ f. HasKept (state T.Store f.old.connection)
        → HasKept (state T.Store old.connection)) }
    ensures same { IfOk result (λ f. HasKept (state T.Store f.old.connection)
        → (state T.Store f.old.connection).now ≡ (state T.Store old.connection).now) }
    ensures all { IfOk result (λ f. HasKept (state T.Store f.old.connection)
        → IsSound old.zone old.default (state T.Store old.connection)
        → f.kept.all ≡ length (book_in old.zone old.default
        (state T.Store old.connection).now).history) }
{
    let into = connect_new(rt, log, name, start)?;
    let progress = Terminal::new(rt);
    let FilledFile { old, into, kept } = fill(rt.alloc(), old, into, day, &progress)?;
    close_file(log, name, into)?;
    progress.end(kept.answers, kept.all);
    Ok(SupersededLedger { old, kept })
}

/// Makes a new file, puts what a ledger remembers into it, and prints how much that is. The ledger
/// comes back as it was. After a fault the new file is of no use, which is logged. `start` stands
/// for what a file that is just made and its log hold.
fn forget_into<R, G: Log, T: Alter + Drop, S: Start, W: Write>(
    rt: &R,
    log: &G,
    path: &str,
    old: SqlLedger<T>,
    name: &str,
    start: S,
    day: u32,
    output: &mut W,
) -> Result<SqlLedger<T>, ProgramFault>
where
    R: Databases + Clock + Eprint + Terminals,
    ensures lent { IfOk result (λ back. (back.zone ≡ old.zone) × (back.default ≡ old.default)) }
    ensures kept { IfOk result (λ back. HasKept (state T.Store back.connection)
        → HasKept (state T.Store old.connection)) }
    ensures same { IfOk result (λ back. HasKept (state T.Store back.connection)
        → (state T.Store back.connection).now ≡ (state T.Store old.connection).now) }
    ensures printed { IfOk result (λ _. PrintsKept (W.contents output.old)
        (W.contents output.new)) }
    ensures counted { IfOk result (λ back. HasKept (state T.Store back.connection)
        → IsSound old.zone old.default (state T.Store old.connection)
        → PrintsKeptOf (length (book_in old.zone old.default
        (state T.Store old.connection).now).history)
        (W.contents output.old) (W.contents output.new)) }
{
    make_new_file(rt, log, name)?;
    info!(log; "{name} takes over what {path} has from day {day} on");
    match fill_file(rt, log, old, name, start, day) {
        Ok(SupersededLedger { old, kept }) => match print_kept(rt.alloc(), kept, output) {
            Ok(()) => Ok(old),
            Err(fault) => {
                // (nobody else knows of the new file)
                log_files_to_remove(log, name);
                Err(fault)
            }
        },
        Err(fault) => {
            if let ProgramFault::Open(OpenFault::Store(cause)) = &fault {
                error!(log; "{name}, made of {path}: {cause}");
            }
            log_files_to_remove(log, name);
            Err(fault)
        }
    }
}

/// Logs which files of a `forget` that failed have to be removed.
fn log_files_to_remove<G: Log>(log: &G, name: &str) {
    error!(log; "remove {name} and {name}-wal");
}

/// Prints how many answers and limits are kept.
fn print_kept<W: Write>(alloc: Global, kept: KeptCounts, output: &mut W) -> Result<(), ProgramFault>
    ensures { OnOk result (Appends (W.contents output.old) (W.contents output.new)
        (kept_line kept.answers kept.all kept.limits)) }
{
    let line = kept_line(alloc, kept.answers, kept.all, kept.limits)?;
    print(output, line.as_bytes())
}

/// Puts what the ledger of the settings remembers into the new file of the words, and prints how
/// much that is. The ledger comes back as it was.
fn forget_file<R, W: Write, S: Start, N: Start>(
    rt: &R,
    settings: &ServerSettings,
    given: ForgetArguments<'_>,
    start: S,
    new: N,
    output: &mut W,
) -> Result<SqlLedger<FileStore<FileFrom<S>>>, ProgramFault>
where
    R: Databases + Clock + Eprint + Terminals,
    requires { AreInRange settings.now }
    ensures printed { IfOk result (λ _. PrintsKept (W.contents output.old)
        (W.contents output.new)) }

    // It is the ledger whose rows the files hold, and where these are the rows of a history, so
    // many answers it has.
    ensures rows { IfOk result (λ ledger. HasKept (file_state ledger.connection)
        → MeansFile settings.now.zone settings.now.default (image_at S.Start)
        (file_state ledger.connection)) }
    ensures counted { IfOk result (λ ledger. HasKept (file_state ledger.connection)
        → PrintsKeptOfFile (image_at S.Start) (W.contents output.old) (W.contents output.new)) }
{
    let path = path_of(settings)?;
    let logged = Logged::new(rt, settings.log, Console(rt));
    let old = ledger_of_settings(rt, &logged, settings, false, start)?;
    let old = forget_into(
        rt,
        &logged,
        path,
        old,
        given.into,
        new,
        given.before,
        output,
    )?;
    Ok(old)
}

/// Makes a new ledger file that has what the ledger of the settings remembers from a day on, and
/// prints how many answers that is. The ledger of the settings stays as it is. A day after today is
/// refused, and a file that is there.
///
/// `start` stands for what the file of the settings and its log hold before the call, and `new` for
/// what a file that is just made and its log hold.
pub fn forget<R, W: Write, S: Start, N: Start>(
    rt: &R,
    given: ForgetArguments<'_>,
    start: S,
    new: N,
    output: &mut W,
) -> Result<u8, ProgramFault>
where
    R: Databases + Clock + Eprint + Terminals,
    ensures status { IfOk result (λ status. status ≡ 0) }
    ensures printed { IfOk result (λ _. PrintsKept (W.contents output.old)
        (W.contents output.new)) }
{
    let settings = server_settings(rt, given.config)?;
    check_day(rt, &settings.zone, given.before)?;
    let_go(forget_file(rt, &settings, given, start, new, output))
}
