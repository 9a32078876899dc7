//! The program by the words of its command line.
ghost use Rattle.std.specs.Prelude.{◌≡◌, ℕ, List, map, string_bytes};
ghost use Rattle.mq_words.specs.CommandLine.{AsksHelp, HelpsAsked};
ghost use Rattle.mailquota.specs.Done.{EndsByWords, told_of_file};

use crate::subcommand::run_subcommand;
use crate::version::VERSION;
use mq_process::{Dial, WallClock};
use mq_program::{Databases, ProgramFault, Terminals, end_program, or_memory};
use mq_words::{PrintFault, WordsFault, print_fault, read_arguments};
use sqlite::Start;
use std::env;
use std::io::Write;
use std::net::{Net, TcpListener, TcpStream};
use std::rt::{Clock, Env};

/// Runs the program by the words of the process and gives its exit status: 0 done, 1 fault, 2
/// usage, and 3, of `status` by settings alone, where no server runs.
///
/// `start` stands for what the file of a server's ledger and its log hold before the call, and
/// `new` for what a file that is just made and its log hold.
pub fn run<R, D: Dial, S: Start, N: Start, W: Write, E: Write>(
    rt: &R,
    dial: &D,
    start: S,
    new: N,
    output: &mut W,
    errors: &mut E,
) -> u8
where
    R: Databases
        + Clock
        + WallClock
        + Env
        + Input
        + Print
        + Eprint
        + Terminals
        + Net<Listener = TcpListener, Stream = TcpStream>,
{
    match words_of(rt) {
        Ok(words) => run_words(rt, dial, words.as_slice(), start, new, output, errors),
        Err(fault) => end_program(Err(fault), errors),
    }
}

/// The words of the command line, the program's name first.
fn words_of<R: Env + AllocGlobal>(rt: &R) -> Result<Vec<String>, ProgramFault> {
    let mut words = Vec::new(rt.alloc());
    for word in env::args(rt).map_err(|e| or_memory(&e, ProgramFault::Words))? {
        words.push(word)?;
    }
    Ok(words)
}

/// Runs the program by these words, the program's name first, and gives its exit status.
fn run_words<R, D: Dial, S: Start, N: Start, W: Write, E: Write>(
    rt: &R,
    dial: &D,
    words: &[String],
    start: S,
    new: N,
    output: &mut W,
    errors: &mut E,
) -> u8
where
    R: Databases
        + Clock
        + WallClock
        + Input
        + Print
        + Eprint
        + Terminals
        + Net<Listener = TcpListener, Stream = TcpStream>,
    ensures { EndsByWords D.leads D.keeps D.Link.told told_of_file (R.shows rt.now)
        (W.contents output.old) (W.contents output.new) (map string_bytes words.now) result }
{
    match read_arguments(rt.alloc(), words, VERSION) {
        Ok(given) => run_subcommand(rt, dial, given, start, new, output, errors),
        Err(fault) => end_words(rt, fault, errors),
    }
}

/// Prints the help that words ask for, or why they ask for nothing that can be done.
fn end_words<R: Print + Eprint, E: Write>(rt: &R, fault: WordsFault, errors: &mut E) -> u8
    ensures { (words : List (List ℕ)) → HelpsAsked words fault → result ≡ 0
        → AsksHelp words }
{
    match print_fault(rt, fault) {
        Ok(status) => status,
        Err(PrintFault::Memory) => end_program(Err(ProgramFault::Memory), errors),
        Err(PrintFault::Write) => end_program(Err(ProgramFault::Write), errors),
    }
}
