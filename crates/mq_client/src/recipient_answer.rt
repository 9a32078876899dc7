//! What is answered of a recipient.
ghost use Rattle.std.specs.Prelude.{◌≡◌, Option};
ghost use Rattle.mq_request.specs.declared.message.Reply.{Reply};
ghost use Rattle.mq_client.specs.Past.{answer_by};
ghost use Rattle.mq_client.specs.Verdict.{IsVerdict};

use crate::verdict::Verdict;

/// What is answered of a recipient.
#[derive(Clone, Copy, Debug, PartialEq, Eq)]
pub enum RecipientAnswer {
    /// It may go through.
    Granted,
    /// The login's limit of the day is reached.
    Full,
    /// No answer can be had.
    Unavailable,
}

/// What is answered of a recipient, and whether asking took too long.
#[derive(Clone, Copy, Debug, PartialEq, Eq)]
pub struct TimedAnswer {
    pub answer: RecipientAnswer,
    /// The server was asked, no try decided, and one of them ran out of time.
    pub timed_out: bool,
}

/// The answer to an ask, by what was decided about it.
pub fn answer_to(verdict: Option<Verdict>) -> RecipientAnswer
    ensures { (decided : Option Reply) → IsVerdict decided verdict → result ≡ answer_by decided }
{
    match verdict {
        Some(Verdict::Granted) => RecipientAnswer::Granted,
        Some(Verdict::Full { .. }) => RecipientAnswer::Full,
        _ => RecipientAnswer::Unavailable,
    }
}
