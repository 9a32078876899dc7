//! A link that ends each exchange as it was told to, and reports its exchanges.
ghost use Rattle.std.specs.Prelude.{◌≡◌, ◌∷◌, ◌++◌, [], true, false, OnErr};
ghost use Rattle.mq_link.specs.Link.{outcome_of};

use mq_link::{ExchangeOutcome, Link, LinkFault, ReportedExchange};
use mq_request::Bytes;
use std::alloc::Global;
use std::collections::VecDeque;

/// Ends each exchange by the next given outcome, and is down after the last. A body that finds no
/// memory ends its exchange by `Memory`. It keeps the exchanges and reports them, as long as memory
/// was left for each: so what contracts say of a link's exchanges is said of a link that there is.
#[derive(Drop)]
pub struct ScriptLink {
    alloc: Global,
    script: VecDeque<ExchangeOutcome>,
    kept: Vec<ReportedExchange>,
    tells: bool,
}

impl ScriptLink {
    pub fn new(alloc: Global, script: VecDeque<ExchangeOutcome>) -> ScriptLink
        ensures kept { result.kept.items ≡ [] }
        ensures tells { result.tells ≡ true }
    {
        ScriptLink {
            alloc,
            script,
            kept: Vec::new(alloc),
            tells: true,
        }
    }

    /// The exchanges so far, the oldest first.
    pub fn kept(&self) -> &[ReportedExchange] {
        self.kept.as_slice()
    }
}

/// Keeps an exchange, and answers whether memory was left for it.
fn keep(
    alloc: Global,
    kept: &mut Vec<ReportedExchange>,
    frame: &[u8],
    outcome: ExchangeOutcome,
) -> bool
    ensures kept { result ≡ true → kept.new.items ≡ kept.old.items ++ record {
      frame = frame.now;
      outcome = outcome;
    } ∷ [] }
    ensures lost { result ≡ false → kept.new.items ≡ kept.old.items }
{
    let Ok(frame) = Bytes::from_slice(alloc, frame) else {
        return false;
    };
    kept.push(ReportedExchange { frame, outcome }).is_ok()
}

/// The next outcome, with its body in `reply`.
fn play(
    script: &mut VecDeque<ExchangeOutcome>,
    reply: &mut Vec<u8>,
) -> (ExchangeOutcome, Result<(), LinkFault>)
    ensures outcome { result.0 ≡ outcome_of result.1 reply.new.items }
    ensures empty { OnErr result.1 (reply.new.items ≡ []) }
{
    reply.clear();
    match script.pop_front() {
        Some(ExchangeOutcome::Answered(body)) => match reply.extend_from_slice(body.as_slice()) {
            Ok(()) => (ExchangeOutcome::Answered(body), Ok(())),
            Err(_) => (
                ExchangeOutcome::Faulted(LinkFault::Memory),
                Err(LinkFault::Memory),
            ),
        },
        Some(ExchangeOutcome::Faulted(fault)) => (ExchangeOutcome::Faulted(fault), Err(fault)),
        None => (
            ExchangeOutcome::Faulted(LinkFault::Down),
            Err(LinkFault::Down),
        ),
    }
}

impl Link for ScriptLink {
    ghost use Rattle.std.specs.Prelude.{if◌then◌else◌, None, Some};

    ghost told = { λ link. if link.tells then Some link.kept.items else None };

    fn exchange(&mut self, frame: &[u8], reply: &mut Vec<u8>) -> Result<(), LinkFault> {
        let (outcome, answer) = play(&mut self.script, reply);
        if !keep(self.alloc, &mut self.kept, frame, outcome) {
            self.tells = false;
        }
        answer
    }
}
