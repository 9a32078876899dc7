//! What the options of a subcommand ask for.
ghost use Rattle.std.specs.Prelude.{◌≡◌, ◌≤◌, ℕ, IfOk, IfSome, None, codes};
ghost use Rattle.clap.specs.Matches.{found_of};
ghost use Rattle.mq_request.specs.Range.{IsAmount, IsRun, IsWithin};
ghost use Rattle.mq_process.specs.Arguments.{IsArguments, IsConnections, IsDayArguments};
ghost use Rattle.mq_process.specs.Arguments.{IsDayUpTo};
ghost use Rattle.mq_process.specs.Arguments.{IsLimitArgument, IsLimitArguments};
ghost use Rattle.mq_process.specs.Arguments.{IsReplayArguments};
ghost use Rattle.mq_process.specs.Arguments.{IsReportArguments, IsResumeArguments, IsStopArguments};
ghost use Rattle.mq_words.specs.Meaning.{HasCap, HasConnections, HasDay, HasDayAgo, HasDayWord};
ghost use Rattle.mq_words.specs.Meaning.{HasLogin, HasLoginOrNone, HasOutput};
ghost use Rattle.mq_words.specs.Meaning.{HasNumber, HasNumberOrNone, HasText, IsUnknown};
ghost use Rattle.mq_words.specs.Meaning.{Means, MeansAudit, MeansDay, MeansFilter, MeansForget};
ghost use Rattle.mq_words.specs.Meaning.{MeansLimit, MeansLimits};
ghost use Rattle.mq_words.specs.Meaning.{MeansReplay, MeansReport, MeansResume};
ghost use Rattle.mq_words.specs.Meaning.{MeansRetire, MeansServer, MeansStatus, MeansStop};
ghost use Rattle.mq_words.specs.Meaning.{texts_of};

use crate::days::read_day;
use crate::fault::TextFault;
use crate::limits::read_limit;
use crate::subcommands::{
    AMOUNTS, CROWDS, DAYS, EARLIER_DAYS, MINUTES, MOMENTS, RUNS, Range, TOPS,
};
use clap::ArgMatches;
use mq_process::{
    Arguments, AuditArguments, ConnectionsArgument, DayArgument, DayArguments, FilterArguments,
    ForgetWords, InitArguments, LimitArgument, LimitArguments, LimitsArguments, LoginArgument,
    OutputArgument, ProbeArguments, ReplayArguments, ReportArguments, ResumeArguments,
    RetireArguments, ServerArguments, Servers, StatusArguments, StopArguments,
};
use std::alloc::{AllocError, Global};

/// What the subcommand of this name asks for by the options that were found. There is none where
/// none has this name.
pub fn arguments_of<'a>(
    alloc: Global,
    name: &str,
    found: &ArgMatches<'a>,
) -> Result<Option<Arguments<'a>>, TextFault>
    ensures in_range { IfOk result (λ given. IfSome given IsArguments) }
    ensures meant { IfOk result (λ given. IfSome given (Means name.now (found_of found.now))) }
    ensures unknown { IfOk result (λ given. given ≡ None → IsUnknown name.now) }
{
    Ok(Some(match name {
        "filter" => Arguments::Filter(filter_of(found)),
        "init" => Arguments::Init(InitArguments {
            config: text_of(found, "config"),
        }),
        "status" => status_of(alloc, found)?,
        "server" => Arguments::Server(server_of(found)),
        "limit" => Arguments::Limit(limit_of(alloc, found)?),
        "stop" => Arguments::Stop(stop_of(alloc, found)?),
        "resume" => Arguments::Resume(resume_of(alloc, found)?),
        "day" => Arguments::Day(asked_day_of(alloc, found)?),
        "retire" => Arguments::Retire(retire_of(found)),
        "report" => Arguments::Report(report_of(alloc, found)?),
        "limits" => Arguments::Limits(limits_of(found)),
        "audit" => Arguments::Audit(audit_of(found)),
        "forget" => Arguments::Forget(forget_of(alloc, found)?),
        "replay" => Arguments::Replay(replay_of(found)),
        _ => return Ok(None),
    }))
}

/// The text of an option that has to be given or has a default.
fn text_of<'a>(found: &ArgMatches<'a>, name: &str) -> &'a str
    ensures { HasText (found_of found.now) name.now result.now }
{
    found.get_str(name).unwrap_or("")
}

/// The number of an option, if it is given. clap refused one out of its range.
fn number_if_given(found: &ArgMatches<'_>, name: &str, range: Range<u32>) -> Option<u32>
    requires { range.least ≤ range.most }
    ensures in_range { IfSome result (IsWithin range.least range.most) }
    ensures number { HasNumberOrNone (found_of found.now) name.now range.least range.most result }
{
    match found.get_one::<u32>(name) {
        Some(short) => Some(short.clamp(range.least, range.most)),
        None => None,
    }
}

/// The number of an option, if it is given. clap refused one out of its range.
fn long_number_if_given(found: &ArgMatches<'_>, name: &str, range: Range<u64>) -> Option<u64>
    requires { range.least ≤ range.most }
    ensures in_range { IfSome result (IsWithin range.least range.most) }
    ensures number { HasNumberOrNone (found_of found.now) name.now range.least range.most result }
{
    match found.get_one::<u64>(name) {
        Some(number) => Some(number.clamp(range.least, range.most)),
        None => None,
    }
}

/// The number of an option that has to be given or has a default.
fn number_of(found: &ArgMatches<'_>, name: &str, range: Range<u32>) -> u32
    requires { range.least ≤ range.most }
    ensures in_range { IsWithin range.least range.most result }
    ensures number { HasNumber (found_of found.now) name.now range.least range.most result }
{
    number_if_given(found, name, range).unwrap_or(range.least)
}

/// The number of the run, if it is given.
fn run_of(found: &ArgMatches<'_>) -> Option<u64>
    ensures in_range { IfSome result IsRun }
    ensures number { HasNumberOrNone (found_of found.now) (codes "run") 1 281474976710655 result }
{
    long_number_if_given(found, "run", RUNS)
}

/// How many connections are served.
fn connections_of(found: &ArgMatches<'_>) -> ConnectionsArgument
    ensures in_range { IsConnections result }
    ensures meant { HasConnections (found_of found.now) result }
{
    if found.get_flag("endless") {
        ConnectionsArgument::Endless
    } else {
        ConnectionsArgument::Count(number_of(found, "connections", CROWDS))
    }
}

/// The limit: the word, or the option.
fn cap_of(alloc: Global, found: &ArgMatches<'_>) -> Result<LimitArgument, TextFault>
    ensures in_range { IfOk result IsLimitArgument }
    ensures meant { IfOk result (HasCap (found_of found.now)) }
{
    match found.get_str("CAP") {
        Some(text) => read_limit(alloc, "[CAP]", text),
        None => read_limit(alloc, "--cap <N>", text_of(found, "cap")),
    }
}

/// How what is asked for is printed.
fn output_of(found: &ArgMatches<'_>) -> OutputArgument
    ensures { HasOutput (found_of found.now) result }
{
    if found.get_flag("json") {
        OutputArgument::Json
    } else {
        OutputArgument::Text
    }
}

/// The day, by the option of this name, which faults show so, or by how long ago it is.
fn day_of(
    alloc: Global,
    found: &ArgMatches<'_>,
    name: &str,
    shown: &str,
    range: Range<u32>,
) -> Result<DayArgument, TextFault>
    requires { range.least ≡ 0 }
    ensures in_range { IfOk result (IsDayUpTo range.most) }
    ensures meant { IfOk result (HasDay (found_of found.now) name.now range.most) }
{
    match found.get_str(name) {
        Some(text) => read_day(alloc, shown, text, range),
        None => Ok(day_ago(found)),
    }
}

/// The day, by how long ago it is, or today.
fn day_ago(found: &ArgMatches<'_>) -> DayArgument
    ensures in_range { (last : ℕ) → IsDayUpTo last result }
    ensures meant { HasDayAgo (found_of found.now) result }
{
    match number_if_given(found, "ago", DAYS) {
        Some(days) => DayArgument::Ago(days),
        None => DayArgument::Today,
    }
}

/// The day that the word of `day` names, if it is given.
fn day_word_of(alloc: Global, found: &ArgMatches<'_>) -> Result<Option<DayArgument>, TextFault>
    ensures in_range { IfOk result (λ day. IfSome day (IsDayUpTo 376200)) }
    ensures meant { IfOk result (HasDayWord (found_of found.now)) }
{
    match found.get_str("DAY") {
        Some(text) => Ok(Some(read_day(alloc, "[DAY]", text, DAYS)?)),
        None => Ok(None),
    }
}

/// The login, if it is given: the word without a name is one as a report prints it.
fn one_login_of<'a>(found: &ArgMatches<'a>) -> Option<LoginArgument<'a>>
    ensures { HasLoginOrNone (found_of found.now) result }
{
    if let Some(login) = found.get_str("login") {
        return Some(LoginArgument::Reported(login));
    }
    match found.get_str("LOGIN") {
        Some(text) => Some(LoginArgument::Printed(text)),
        None => Some(LoginArgument::Printed(found.get_str("login-text")?)),
    }
}

/// The login, which has to be given.
fn login_of<'a>(found: &ArgMatches<'a>) -> LoginArgument<'a>
    ensures { HasLogin (found_of found.now) result }
{
    one_login_of(found).unwrap_or(LoginArgument::Reported(""))
}

/// The servers that are named.
fn servers_of<'a>(alloc: Global, found: &ArgMatches<'a>) -> Result<Servers<'a>, AllocError>
    ensures { IfOk result (λ servers. servers ≡ texts_of (found_of found.now) (codes "server")) }
{
    let addresses = match found.get_strs("server") {
        Some(addresses) => Vec::from_slice(alloc, addresses)?,
        None => Vec::new(alloc),
    };
    Ok(Servers::new(addresses))
}

fn filter_of<'a>(found: &ArgMatches<'a>) -> FilterArguments<'a>
    ensures in_range { IfSome result.run IsRun }
    ensures meant { MeansFilter (found_of found.now) result }
{
    FilterArguments {
        config: text_of(found, "config"),
        run: run_of(found),
        check: found.get_flag("check"),
    }
}

fn server_of<'a>(found: &ArgMatches<'a>) -> ServerArguments<'a>
    ensures in_range { IsConnections result.connections }
    ensures meant { MeansServer (found_of found.now) result }
{
    ServerArguments {
        config: text_of(found, "config"),
        create: found.get_flag("create"),
        connections: connections_of(found),
    }
}

/// What `status` is asked: the server of these settings, or the servers at these addresses.
fn status_of<'a>(alloc: Global, found: &ArgMatches<'a>) -> Result<Arguments<'a>, AllocError>
    ensures in_range { IfOk result IsArguments }
    ensures meant { IfOk result (MeansStatus (found_of found.now)) }
{
    Ok(match found.get_str("config") {
        Some(file) => Arguments::Status(StatusArguments { config: file }),
        None => Arguments::Probe(ProbeArguments {
            servers: servers_of(alloc, found)?,
            host: found.get_str("host"),
            output: output_of(found),
        }),
    })
}

fn limit_of<'a>(alloc: Global, found: &ArgMatches<'a>) -> Result<LimitArguments<'a>, TextFault>
    ensures in_range { IfOk result IsLimitArguments }
    ensures meant { IfOk result (MeansLimit (found_of found.now)) }
{
    Ok(LimitArguments {
        servers: servers_of(alloc, found)?,
        config: found.get_str("config"),
        host: text_of(found, "host"),
        login: login_of(found),
        from: day_of(alloc, found, "from", "--from <DAY>", DAYS)?,
        cap: cap_of(alloc, found)?,
        run: run_of(found),
    })
}

fn stop_of<'a>(alloc: Global, found: &ArgMatches<'a>) -> Result<StopArguments<'a>, TextFault>
    ensures in_range { IfOk result IsStopArguments }
    ensures meant { IfOk result (MeansStop (found_of found.now)) }
{
    Ok(StopArguments {
        servers: servers_of(alloc, found)?,
        config: found.get_str("config"),
        host: text_of(found, "host"),
        login: login_of(found),
        day: day_of(alloc, found, "day", "--day <DAY>", EARLIER_DAYS)?,
        is_forced: found.get_flag("force"),
        is_all: found.get_flag("all"),
        is_waiting: found.get_flag("wait"),
    })
}

fn resume_of<'a>(alloc: Global, found: &ArgMatches<'a>) -> Result<ResumeArguments<'a>, TextFault>
    ensures in_range { IfOk result IsResumeArguments }
    ensures meant { IfOk result (MeansResume (found_of found.now)) }
{
    Ok(ResumeArguments {
        servers: servers_of(alloc, found)?,
        config: found.get_str("config"),
        host: text_of(found, "host"),
        login: login_of(found),
        day: day_of(alloc, found, "day", "--day <DAY>", EARLIER_DAYS)?,
        cap: number_if_given(found, "cap", AMOUNTS),
    })
}

fn asked_day_of<'a>(alloc: Global, found: &ArgMatches<'a>) -> Result<DayArguments<'a>, TextFault>
    ensures in_range { IfOk result IsDayArguments }
    ensures meant { IfOk result (MeansDay (found_of found.now)) }
{
    Ok(DayArguments {
        config: text_of(found, "config"),
        named: day_word_of(alloc, found)?,
        moment: long_number_if_given(found, "at", MOMENTS),
        output: output_of(found),
    })
}

fn retire_of<'a>(found: &ArgMatches<'a>) -> RetireArguments<'a>
    ensures in_range { IfSome result.run IsRun }
    ensures meant { MeansRetire (found_of found.now) result }
{
    RetireArguments {
        server: found.get_str("server"),
        config: found.get_str("config"),
        host: found.get_str("host"),
        run: run_of(found),
    }
}

fn report_of<'a>(alloc: Global, found: &ArgMatches<'a>) -> Result<ReportArguments<'a>, TextFault>
    ensures in_range { IfOk result IsReportArguments }
    ensures meant { IfOk result (MeansReport (found_of found.now)) }
{
    Ok(ReportArguments {
        servers: servers_of(alloc, found)?,
        config: found.get_str("config"),
        day: day_of(alloc, found, "day", "--day <DAY>", DAYS)?,
        login: one_login_of(found),
        top: number_if_given(found, "top", TOPS),
        is_each: found.get_flag("each"),
        output: output_of(found),
    })
}

fn limits_of<'a>(found: &ArgMatches<'a>) -> LimitsArguments<'a>
    ensures { MeansLimits (found_of found.now) result }
{
    LimitsArguments {
        config: text_of(found, "config"),
        output: output_of(found),
    }
}

fn audit_of<'a>(found: &ArgMatches<'a>) -> AuditArguments<'a>
    ensures { MeansAudit (found_of found.now) result }
{
    AuditArguments {
        config: text_of(found, "config"),
        output: output_of(found),
    }
}

fn forget_of<'a>(alloc: Global, found: &ArgMatches<'a>) -> Result<ForgetWords<'a>, TextFault>
    ensures in_range { IfOk result (λ given. IsDayUpTo 376200 given.before) }
    ensures meant { IfOk result (MeansForget (found_of found.now)) }
{
    Ok(ForgetWords {
        config: text_of(found, "config"),
        before: read_day(alloc, "--before <DAY>", text_of(found, "before"), DAYS)?,
        into: text_of(found, "into"),
    })
}

fn replay_of<'a>(found: &ArgMatches<'a>) -> ReplayArguments<'a>
    ensures in_range { IsReplayArguments result }
    ensures meant { MeansReplay (found_of found.now) result }
{
    ReplayArguments {
        default: number_of(found, "default", AMOUNTS),
        east: number_of(found, "east", MINUTES),
        west: number_of(found, "west", MINUTES),
        rule: found.get_str("rule"),
        sql: found.get_flag("sql"),
    }
}
