//! Why words ask for nothing that can be done.
ghost use Rattle.std.specs.Prelude.{◌≡◌, ℕ, List, true};
ghost use Rattle.mq_words.specs.CommandLine.{AsksHelp, HelpsAsked};

use clap::Error;
use clap::error::ErrorKind;
use std::alloc::AllocError;

/// Why the words ask for nothing that can be done.
#[derive(Drop)]
pub enum WordsFault {
    /// They ask for help, or are no usage of the program.
    Words(Error),
    /// The text of an option or a word names no day or limit that it takes: what is printed of it.
    Text(String),
    Memory,
}

impl From<AllocError> for WordsFault {
    ghost use Rattle.mq_words.specs.declared.fault.WordsFault.TheVariants.{Memory};

    ghost from_gives = { λ _ fault. fault ≡ Memory };

    fn from(_error: AllocError) -> WordsFault {
        WordsFault::Memory
    }
}

impl From<Error> for WordsFault {
    ghost use Rattle.std.specs.Prelude.{◌⊎◌};
    ghost use Rattle.mq_words.specs.declared.fault.WordsFault.TheVariants.{Memory, Words};

    ghost from_gives = { λ error fault. (fault ≡ Memory) ⊎ (fault ≡ Words error) };

    fn from(error: Error) -> WordsFault {
        match error.kind() {
            ErrorKind::OutOfMemory => WordsFault::Memory,
            _ => WordsFault::Words(error),
        }
    }
}

/// Why an option or a word of a usage of the program says nothing that can be done.
#[derive(Drop)]
pub enum TextFault {
    /// Its text names no day or limit that it takes: what is printed of it.
    Text(String),
    Memory,
}

impl From<AllocError> for TextFault {
    ghost use Rattle.mq_words.specs.declared.fault.TextFault.TheVariants.{Memory};

    ghost from_gives = { λ _ fault. fault ≡ Memory };

    fn from(_error: AllocError) -> TextFault {
        TextFault::Memory
    }
}

/// The fault of a text, as one of words.
pub fn text_refusal(fault: TextFault) -> WordsFault
    ensures { (words : List (List ℕ)) → HelpsAsked words result }
{
    match fault {
        TextFault::Text(text) => WordsFault::Text(text),
        TextFault::Memory => WordsFault::Memory,
    }
}

/// The fault of words that were refused with this error. It is help only if they ask for that, which
/// is not known where memory runs out.
pub fn refusal(error: Error, is_help_asked: bool) -> WordsFault
    ensures { (words : List (List ℕ)) → (is_help_asked ≡ true → AsksHelp words)
        → HelpsAsked words result }
{
    if is_help_asked || error.use_stderr() {
        WordsFault::from(error)
    } else {
        WordsFault::Memory
    }
}

/// The fault with this text.
pub fn fault_of(text: Result<String, AllocError>) -> TextFault {
    match text {
        Ok(text) => TextFault::Text(text),
        Err(_) => TextFault::Memory,
    }
}
