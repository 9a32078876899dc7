//! Which subcommand is run.
ghost use Rattle.std.specs.Prelude.{◌≡◌};
ghost use Rattle.mq_process.specs.Arguments.{IsArguments};
ghost use Rattle.mailquota.specs.Done.{DoesAsAsked, told_of_file};
ghost use Rattle.mailquota.specs.Refusals.{Refuses};

use crate::asking::{end_limit, end_probe, end_report, end_resume, end_retire, end_stop};
use crate::ledgers::{
    end_audit, end_day, end_filtering, end_forget, end_init, end_limits, end_replay,
};
use crate::version::VERSION;
use mq_process::{Arguments, Dial, WallClock};
use mq_program::{Databases, Terminals, end_program, server, status};
use mq_stream::{FromRead, WriterSink};
use sqlite::Start;
use std::io;
use std::io::Write;
use std::net::{Net, TcpListener, TcpStream};
use std::rt::Clock;

/// Runs a subcommand, prints on `errors` why it isn't done, and gives the exit status: 0 done, 1
/// fault, 2 usage, and 3, of `status` by settings alone, where no server runs. `output` is standard
/// output, for what has no other way to it.
///
/// `start` stands for what the file of a server's ledger and its log hold before the call, and
/// `new` for what a file that is just made and its log hold.
pub fn run_subcommand<R, D: Dial, S: Start, N: Start, W: Write, E: Write>(
    rt: &R,
    dial: &D,
    given: Arguments<'_>,
    start: S,
    new: N,
    output: &mut W,
    errors: &mut E,
) -> u8
where
    R: Databases
        + Clock
        + WallClock
        + Input
        + Print
        + Eprint
        + Terminals
        + Net<Listener = TcpListener, Stream = TcpStream>,
    requires { IsArguments given }
    ensures refuses { Refuses given.entry result }
    ensures done { result ≡ 0 → DoesAsAsked D.leads D.keeps D.Link.told told_of_file (R.shows rt.now)
        (W.contents output.old) (W.contents output.new) given.entry }
{
    match given {
        Arguments::Replay(given) => end_replay(rt, given, errors),
        Arguments::Init(given) => end_init(rt, given, start, output, errors),
        Arguments::Filter(given) => {
            let input = &mut FromRead::new(rt.reader());
            let answers = &mut WriterSink::new(io::writer(rt));
            end_filtering(rt, dial, given, input, answers, errors)
        }
        Arguments::Status(given) => end_program(status(rt, given, start, errors), errors),
        Arguments::Probe(given) => end_probe(rt, dial, given, errors),
        Arguments::Server(given) => end_program(server(rt, given, VERSION, start), errors),
        Arguments::Limit(given) => end_limit(rt, dial, given, errors),
        Arguments::Stop(given) => end_stop(rt, dial, given, errors),
        Arguments::Resume(given) => end_resume(rt, dial, given, errors),
        Arguments::Day(given) => { end_day(rt, given, rt.has_output_on_terminal(), output, errors) }
        Arguments::Retire(given) => end_retire(rt, dial, given, errors),
        Arguments::Report(given) => {
            end_report(rt, dial, given, rt.has_output_on_terminal(), errors)
        }
        Arguments::Limits(given) => end_limits(rt, given, start, output, errors),
        Arguments::Audit(given) => end_audit(rt, given, start, output, errors),
        Arguments::Forget(given) => end_forget(rt, given, start, new, output, errors),
    }
}
