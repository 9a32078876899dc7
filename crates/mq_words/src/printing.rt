//! What is printed where the words ask for nothing that can be done.
ghost use Rattle.std.specs.Prelude.{◌≡◌, ◌≢◌, Ok, Err, MatchResult};
ghost use Rattle.clap.specs.Values.{kind_of};
ghost use Rattle.clap.specs.declared.error.kind.ErrorKind.TheVariants.{DisplayHelp, DisplayVersion};
ghost use Rattle.mq_words.specs.CommandLine.{IsHelp};
ghost use Rattle.mq_words.specs.Printing.{EndsPrinted};

use crate::fault::WordsFault;
use clap::Error;

/// Why nothing was printed of words that ask for nothing that can be done.
#[derive(Clone, Copy)]
pub enum PrintFault {
    Memory,
    Write,
}

/// Prints the help that the words ask for on standard output, or what is wrong with them on
/// standard error, and gives the exit status: 0 for help that was printed, 2 for a mistake, printed
/// or not.
pub fn print_fault<R: Print + Eprint>(rt: &R, fault: WordsFault) -> Result<u8, PrintFault>
    ensures { EndsPrinted fault result }
{
    match fault {
        WordsFault::Memory => Err(PrintFault::Memory),
        WordsFault::Text(text) => {
            let _ = eprintln!(rt; "{text}\n\nFor more information, try '--help'.");
            Ok(2)
        }
        WordsFault::Words(error) => print_error(rt, &error),
    }
}

fn print_error<R: Print + Eprint>(rt: &R, error: &Error) -> Result<u8, PrintFault>
    ensures mistake { kind_of error.now ≢ DisplayHelp → kind_of error.now ≢ DisplayVersion
        → result ≡ Ok 2 }
    ensures help { IsHelp error.now
        → MatchResult result (λ status. status ≡ 0) (λ why. why ≡ PrintFault.Write) }
    ensures zero { result ≡ Ok 0 → IsHelp error.now }
{
    let printed = error.print(rt);
    if error.use_stderr() {
        return Ok(2);
    }
    match printed {
        Ok(()) => Ok(0),
        Err(_) => Err(PrintFault::Write),
    }
}
