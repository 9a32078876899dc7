//! The words of mailquota's command line: its subcommands with their options and help, and what
//! given words ask for.
//!
//! [`read_arguments`] gives the arguments that the words ask for, or the help or usage fault that
//! [`print_fault`] prints. From `mailquota/src/program.rt`:
//!
//!     match read_arguments(rt.alloc(), words, VERSION) {
//!         Ok(given) => run_subcommand(rt, dial, given, start, new, output, errors),
//!
//! It stands on `mq_process`, for the arguments as types, `mq_request`, and `mq_dates`, for days as
//! people write them, and is the one crate that gives options to `clap`; it doesn't know what a
//! subcommand does. Begin with `subcommands.rt`, the options as a table, `matching.rt`, which words
//! go to which of them, and `meaning.rt`, what they ask for; `mailquota(8)` has them in words.
#![tactic(auto)]

mod days;
mod fault;
mod limits;
mod matching;
mod meaning;
mod printing;
mod subcommands;
mod words;

pub use fault::WordsFault;
pub use printing::{PrintFault, print_fault};
pub use words::read_arguments;
