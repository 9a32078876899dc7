//! What `status` prints of a ledger that no server has open.
ghost use Rattle.std.specs.Prelude.{◌≡◌, ◌≢◌, ◌⊎◌, IfErr, IfOk, string_bytes};
ghost use Rattle.std.specs.Io.KnownBytes.{Keeps};
ghost use Rattle.sqlite.specs.Held.{state};
ghost use Rattle.mq_store.specs.Soundness.{HasKept, IsSound};
ghost use Rattle.mq_program.specs.Describing.{AreCounts, Describes, DescribesFront, counts_line};
ghost use Rattle.mq_program.specs.Describing.{file_line, ledger_text};
ghost use Rattle.mq_program.specs.Describing.{offset_line, start_line};
ghost use Rattle.mq_program.specs.Describing.{start_seconds, terms_line};
ghost use Rattle.mq_program.specs.Memory.{megabytes_over};

use crate::auditing::print;
use crate::fault::ProgramFault;
use crate::memory::megabytes_over;
use mq_ledger::{Ledger, Zone};
use mq_request::EscapedText;
use mq_rows::VERSION;
use mq_store::SqlLedger;
use sqlite::Alter;
use std::alloc::{AllocError, Global};
use std::io::Write;

/// How many rows of each kind a ledger has.
#[derive(Clone, Copy)]
pub struct LedgerCounts {
    /// One for each number under which it took a request.
    pub answers: u64,
    /// One for each login and day on which it used something.
    pub days: u64,
    /// One for each transaction that a request named.
    pub transactions: u64,
    /// One for each login and day from which a limit was set.
    pub limits: u64,
}

/// The seconds that a start takes at most over so many answers, by the last figures: 37 us an
/// answer.
fn start_seconds(answers: u64) -> u64
    ensures { result ≡ start_seconds answers }
{
    answers / 27_000 + 1
}

/// Counts what a ledger has. Nothing is written.
fn count_ledger<S: Alter>(ledger: &mut SqlLedger<S>) -> Result<LedgerCounts, ProgramFault>
    ensures same { HasKept (state S.Store ledger.new.connection)
        → (state S.Store ledger.new.connection).now ≡ (state S.Store ledger.old.connection).now }
    ensures kept { HasKept (state S.Store ledger.new.connection)
        → HasKept (state S.Store ledger.old.connection) }
    ensures counted { HasKept (state S.Store ledger.new.connection)
        → IsSound ledger.old.zone ledger.old.default (state S.Store ledger.old.connection)
        → IfOk result (λ counts. AreCounts ledger.old.zone ledger.old.default
        (state S.Store ledger.old.connection).now ledger.old.found counts) }
    ensures unprinted { IfErr result (λ fault. fault ≢ ProgramFault.Write) }
{
    let answers = ledger.count_answers()?;
    let limits = ledger.limits()?;
    let found = ledger.found();
    Ok(LedgerCounts {
        answers,
        days: found.days,
        transactions: found.transactions,
        limits: limits.len() as u64,
    })
}

/// The line that says which file it is.
fn file_line(alloc: Global, path: &str, bytes: u64) -> Result<String, AllocError>
    ensures { IfOk result (λ line. string_bytes line ≡ file_line path.now bytes) }
{
    let version = VERSION;
    format!(in alloc; "ledger {path}: version {version}, {bytes} bytes\n")
}

/// The line of a default and an offset.
fn offset_line(alloc: Global, default: u32, minutes: i32) -> Result<String, AllocError>
    ensures { IfOk result (λ line. string_bytes line ≡ offset_line default minutes) }
{
    let mut line = String::from_str(alloc, "default ")?;
    line.push_str(default.to_string(alloc)?.as_str())?;
    line.push_str(", offset ")?;
    line.push_str(minutes.to_string(alloc)?.as_str())?;
    line.push('\n')?;
    Ok(line)
}

/// The line of its zone and its default.
fn terms_line(alloc: Global, zone: &Zone, default: u32) -> Result<String, AllocError>
    ensures { IfOk result (λ line. string_bytes line ≡ terms_line zone.now default) }
{
    match zone.rule() {
        Some(rule) => {
            let rule = EscapedText(rule);
            format!(in alloc; "default {default}, rule {rule}\n")
        }
        None => offset_line(alloc, default, zone.minutes()),
    }
}

/// The line of its counts.
fn counts_line(
    alloc: Global,
    answers: u64,
    days: u64,
    transactions: u64,
    limits: u64,
) -> Result<String, AllocError>
    ensures { IfOk result (λ line. string_bytes line ≡ counts_line answers days transactions limits) }
{
    format!(in alloc; "answers={answers} days={days} transactions={transactions} limits={limits}\n")
}

/// The line that says what a start takes.
fn start_line(alloc: Global, seconds: u64, megabytes: u64) -> Result<String, AllocError>
    ensures { IfOk result (λ line. string_bytes line ≡ start_line seconds megabytes) }
{
    format!(in alloc; "a start takes up to about {seconds} s and {megabytes} MB\n")
}

/// The line that says what a start over so many answers in a file of so many bytes takes at most.
fn start_over(alloc: Global, answers: u64, bytes: u64) -> Result<String, AllocError>
    ensures { IfOk result (λ line. string_bytes line ≡ start_line (start_seconds answers)
        (megabytes_over bytes)) }
{
    start_line(alloc, start_seconds(answers), megabytes_over(bytes))
}

/// The lines of a ledger in the file at a path, of so many bytes.
fn ledger_text(
    alloc: Global,
    path: &str,
    bytes: u64,
    zone: &Zone,
    default: u32,
    counts: LedgerCounts,
) -> Result<String, AllocError>
    ensures { IfOk result (λ text. string_bytes text ≡ ledger_text path.now bytes zone.now default
        counts) }
{
    let LedgerCounts {
        answers,
        days,
        transactions,
        limits,
    } = counts;
    let mut text = file_line(alloc, path, bytes)?;
    text.push_str(terms_line(alloc, zone, default)?.as_str())?;
    text.push_str(counts_line(alloc, answers, days, transactions, limits)?.as_str())?;
    text.push_str(start_over(alloc, answers, bytes)?.as_str())?;
    Ok(text)
}

/// Prints what a ledger holds that is in the file at a path, of so many bytes, and what a start
/// over it takes. Nothing is written to it, and nothing is printed where it fails before the output
/// does.
#[tactic(auto, using(crate::proofs::ListingSteps::nothing_written))]
pub fn describe_ledger<S: Alter, W: Write>(
    alloc: Global,
    ledger: &mut SqlLedger<S>,
    path: &str,
    bytes: u64,
    output: &mut W,
) -> Result<(), ProgramFault>
    ensures describes { HasKept (state S.Store ledger.new.connection)
        → IsSound ledger.old.zone ledger.old.default (state S.Store ledger.old.connection)
        → IfOk result (λ _. Describes path.now bytes ledger.old.zone ledger.old.default
        (state S.Store ledger.old.connection).now ledger.old.found (W.contents output.old)
        (W.contents output.new)) }
    ensures unprinted { IfErr result (λ fault. (fault ≡ ProgramFault.Write)
        ⊎ Keeps (W.contents output.old) (W.contents output.new)) }
    ensures front { HasKept (state S.Store ledger.new.connection)
        → IsSound ledger.old.zone ledger.old.default (state S.Store ledger.old.connection)
        → IfErr result (λ fault. fault ≡ ProgramFault.Write
        → DescribesFront path.now bytes ledger.old.zone ledger.old.default
        (state S.Store ledger.old.connection).now ledger.old.found (W.contents output.old)
        (W.contents output.new)) }
    ensures same { HasKept (state S.Store ledger.new.connection)
        → (state S.Store ledger.new.connection).now ≡ (state S.Store ledger.old.connection).now }
    ensures kept { HasKept (state S.Store ledger.new.connection)
        → HasKept (state S.Store ledger.old.connection) }
{
    let zone = *ledger.zone();
    let default = ledger.default_cap();
    let counts = count_ledger(ledger)?;
    let text = ledger_text(alloc, path, bytes, &zone, default, counts)?;
    print(output, text.as_bytes())
}
