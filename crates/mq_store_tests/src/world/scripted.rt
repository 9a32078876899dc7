//! A link that goes by a script, and runs of the filter over it.

ghost use Rattle.std.specs.Prelude.{◌≡◌, [], OnErr};

use super::usage::deliver_frame;
use log::sink::Discard;
use mq_client::{Client, FilterFault, RunEnd, run_filter};
use mq_ledger::Ledger;
use mq_link::{Link, LinkFault};
use mq_request::{Host, is_host, is_run};
use mq_stream::{FromRead, Sink, Source, WriterSink};
use std::alloc::Global;

/// The letters of five exchanges: with `L` the frame is lost, with `B` it is delivered and the
/// reply is lost, with `H` it is delivered once the runs have ended; with any other letter, and
/// after the last one, it is delivered and the reply comes.
pub type Script = [u8; 5];

/// A link to a ledger whose exchanges go by a script.
#[derive(Drop)]
pub struct Scripted<L> {
    alloc: Global,
    pub ledger: L,
    script: Script,
    pub exchanges: usize,
    late: Vec<Vec<u8>>,
    /// The bodies of the replies, each once, in the order in which they were first written.
    pub replies: Vec<Vec<u8>>,
}

impl<L: Ledger + Drop> Scripted<L> {
    pub fn new(alloc: Global, ledger: L, script: Script) -> Scripted<L> {
        Scripted {
            alloc,
            ledger,
            script,
            exchanges: 0,
            late: Vec::new(alloc),
            replies: Vec::new(alloc),
        }
    }

    /// Keeps the body of a reply that wasn't written before. One that isn't kept where memory runs
    /// out is missed by who looks at the replies.
    fn note(&mut self, body: &[u8]) {
        if !has(self.replies.as_slice(), body) {
            let _ = keep(self.alloc, &mut self.replies, body);
        }
    }

    /// The frame comes to the ledger.
    fn deliver(&mut self, frame: &[u8]) -> Result<Vec<u8>, LinkFault> {
        match deliver_frame(self.alloc, &mut self.ledger, frame) {
            Some(body) => {
                self.note(body.as_slice());
                Ok(body)
            }
            None => Err(LinkFault::Down),
        }
    }

    /// The frames that were held back come to the ledger.
    pub fn deliver_late(&mut self) {
        let late = std::mem::replace(&mut self.late, Vec::new(self.alloc));
        for frame in late.as_slice() {
            let _ = self.deliver(frame.as_slice());
        }
    }

    /// The letter of the next exchange.
    fn next_letter(&mut self) -> u8 {
        let letter = self.script.get(self.exchanges).copied();
        self.exchanges = self.exchanges.saturating_add(1);
        letter.unwrap_or(b'D')
    }

    /// What the next exchange brings.
    fn bring(&mut self, frame: &[u8]) -> Result<Vec<u8>, LinkFault> {
        match self.next_letter() {
            b'L' => {}
            b'B' => {
                let _ = self.deliver(frame);
            }
            b'H' => {
                let _ = keep(self.alloc, &mut self.late, frame);
            }
            _ => return self.deliver(frame),
        }
        Err(LinkFault::TimedOut)
    }
}

/// Whether bytes are among these.
fn has(list: &[Vec<u8>], bytes: &[u8]) -> bool {
    for known in list {
        if known.as_slice() == bytes {
            return true;
        }
    }
    false
}

/// A copy of bytes.
pub fn copied(alloc: Global, bytes: &[u8]) -> Result<Vec<u8>, LinkFault> {
    Vec::from_slice(alloc, bytes).or(Err(LinkFault::Memory))
}

/// Puts bytes at the end of a list.
pub fn keep(alloc: Global, list: &mut Vec<Vec<u8>>, bytes: &[u8]) -> Option<()> {
    list.push(copied(alloc, bytes).ok()?).ok()
}

/// Puts a body into the reply, where one came.
pub fn answer(body: Result<Vec<u8>, LinkFault>, reply: &mut Vec<u8>) -> Result<(), LinkFault>
    ensures { OnErr result (reply.new.items ≡ []) }
{
    reply.clear();
    match body {
        Ok(body) => {
            *reply = body;
            Ok(())
        }
        Err(fault) => Err(fault),
    }
}

impl<L: Ledger + Drop> Link for Scripted<L> {
    fn exchange(&mut self, frame: &[u8], reply: &mut Vec<u8>) -> Result<(), LinkFault> {
        answer(self.bring(frame), reply)
    }
}

/// A client of a host's run, with so many tries.
fn new_client(alloc: Global, host: &Host, run: u64, tries: u32) -> Option<Client> {
    if !is_host(host.as_slice()) || !is_run(run) || tries < 1 || 10 < tries {
        return None;
    }
    Client::new(alloc, host, run, tries).ok()
}

/// A client of a host's run, with so many tries.
pub fn client_of(alloc: Global, name: &[u8], run: u64, tries: u32) -> Option<Client> {
    match Host::from_slice(alloc, name) {
        Ok(host) => new_client(alloc, &host, run, tries),
        Err(_) => None,
    }
}

/// Runs the filter. Without clauses, so that its callers stay cheap to prove.
fn filter<S: Source, W: Sink, K: Link>(
    alloc: Global,
    input: &mut S,
    output: &mut W,
    link: &mut K,
    client: &mut Client,
) -> Result<RunEnd, FilterFault> {
    run_filter(&Discard, alloc, input, output, link, client)
}

/// What the filter of a client writes for these lines; nothing where it doesn't come to its end.
fn written_for<K: Link>(
    alloc: Global,
    link: &mut K,
    client: &mut Client,
    lines: &[u8],
) -> Option<Vec<u8>> {
    let mut input = FromRead::new(lines);
    let mut output = WriterSink::new(Vec::new(alloc));
    match filter(alloc, &mut input, &mut output, link, client) {
        Ok(_) => Some(output.into_inner()),
        Err(_) => None,
    }
}

/// What the filter of a host's run writes for these lines, as `written_for`.
pub fn run<K: Link>(
    alloc: Global,
    link: &mut K,
    name: &[u8],
    run: u64,
    lines: &[u8],
) -> Option<Vec<u8>> {
    match client_of(alloc, name, run, 3) {
        Some(client) => {
            let mut client = client;
            written_for(alloc, link, &mut client, lines)
        }
        None => None,
    }
}
