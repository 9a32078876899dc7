//! The form in which a subcommand prints what is asked for.
ghost use Rattle.std.specs.Prelude.{◌≡◌};
ghost use Rattle.mq_process.specs.Outputs.{form_of};

use crate::arguments::OutputArgument;
use mq_command::Form;

/// The form in which what is asked for is printed: by the words, and text by whether it goes to a
/// terminal.
pub fn form_of(asked: OutputArgument, is_on_terminal: bool) -> Form
    ensures { result ≡ form_of asked is_on_terminal }
{
    match asked {
        OutputArgument::Json => Form::Json,
        OutputArgument::Text => {
            if is_on_terminal {
                Form::Shown
            } else {
                Form::Plain
            }
        }
    }
}
