//! How a `stop` ends at a server.
ghost use Rattle.std.specs.Prelude.{◌≡◌};
ghost use Rattle.mq_command.specs.Stopping.{end_by, stop_status, unstopped};

use crate::allow::AllowFault;
use crate::errors::Errors;
use crate::order::OrderFault;
use crate::telling::say_of_server;

/// What came of asking a server to stop a login.
#[derive(Clone, Copy, Debug, PartialEq, Eq)]
pub enum StopEnd {
    /// It is stopped, and that is printed.
    Stopped,
    /// It isn't, or a limit of a later day stays in force, or what came of it isn't printed.
    Failed,
    /// The server gave no answer: it may be stopped or not.
    Unanswered,
}

impl StopEnd {
    /// The exit status, 0 or 1.
    pub fn status(self) -> u8
        ensures { result ≡ stop_status self }
    {
        match self {
            StopEnd::Stopped => 0,
            StopEnd::Failed | StopEnd::Unanswered => 1,
        }
    }
}

/// How a limit or a question that fails ends a `stop`.
fn end_by(fault: OrderFault) -> StopEnd
    ensures { result ≡ end_by fault }
{
    match fault {
        OrderFault::Unanswered(_) => StopEnd::Unanswered,
        _ => StopEnd::Failed,
    }
}

/// Says on `errors` why a limit or a question failed, and how that ends a `stop`.
pub fn fail<E: Errors>(fault: OrderFault, errors: &mut E) -> StopEnd
    ensures { result ≡ end_by fault }
{
    say_of_server(errors, &fault, fault.is_not_taken());
    end_by(fault)
}

/// Says on `errors` why a login isn't known to be stopped, and how that ends a `stop`.
pub fn leave_unstopped<E: Errors>(fault: AllowFault, errors: &mut E) -> StopEnd
    ensures { result ≡ unstopped fault }
{
    say_of_server(errors, &fault, fault.is_not_taken());
    match fault {
        AllowFault::Order(fault) => end_by(fault),
        _ => StopEnd::Failed,
    }
}
