//! The exit status of a subcommand that asks quota servers.
ghost use Rattle.std.specs.Prelude.{◌≡◌, IfSome};
ghost use Rattle.mq_request.specs.Range.{IsRun};
ghost use Rattle.mq_process.specs.Arguments.{IsLimitArguments, IsReportArguments};
ghost use Rattle.mq_process.specs.Arguments.{IsResumeArguments, IsStopArguments};
ghost use Rattle.mq_process.specs.Faults.{process_status};
ghost use Rattle.mq_process.specs.Refusals.{OrderRefuses, ProbeRefuses, ReportRefuses};
ghost use Rattle.mq_process.specs.Refusals.{RetireRefuses};
ghost use Rattle.mq_remote.specs.Asked.{AsksLimit, AsksProbe, AsksReport, AsksResume};
ghost use Rattle.mq_remote.specs.Asked.{AsksRetire, AsksStop};

use mq_process::{
    Dial, LimitArguments, ProbeArguments, ReportArguments, ResumeArguments, RetireArguments,
    StopArguments, WallClock, end_process,
};
use mq_remote::{limit, probe_servers, report, resume, retire, stop};
use std::io::Write;
use std::rt::{Clock, Files};

/// Asks servers to set a limit.
pub fn end_limit<R: Files + Clock + WallClock + Print + Eprint + AllocGlobal, D: Dial, E: Write>(
    rt: &R,
    dial: &D,
    given: LimitArguments<'_>,
    errors: &mut E,
) -> u8
    requires { IsLimitArguments given }
    ensures refuses { OrderRefuses given.entry.host.now given.entry.login given.entry.servers
        (λ fault. result ≡ process_status fault) }
    ensures done { result ≡ 0
        → AsksLimit D.leads D.Link.told R.File.remaining (R.shows rt.now) given.entry 0 }
{
    end_process(limit(rt, dial, given, errors), errors)
}

/// Asks servers to stop a login.
pub fn end_stop<R: Files + Clock + WallClock + Print + Eprint + AllocGlobal, D: Dial, E: Write>(
    rt: &R,
    dial: &D,
    given: StopArguments<'_>,
    errors: &mut E,
) -> u8
    requires { IsStopArguments given }
    ensures refuses { OrderRefuses given.entry.host.now given.entry.login given.entry.servers
        (λ fault. result ≡ process_status fault) }
    ensures done { result ≡ 0
        → AsksStop D.leads D.Link.told R.File.remaining (R.shows rt.now) given.entry 0 }
{
    end_process(stop(rt, dial, given, errors), errors)
}

/// Asks servers to let a login have more again.
pub fn end_resume<R: Files + Clock + WallClock + Print + Eprint + AllocGlobal, D: Dial, E: Write>(
    rt: &R,
    dial: &D,
    given: ResumeArguments<'_>,
    errors: &mut E,
) -> u8
    requires { IsResumeArguments given }
    ensures refuses { OrderRefuses given.entry.host.now given.entry.login given.entry.servers
        (λ fault. result ≡ process_status fault) }
    ensures done { result ≡ 0
        → AsksResume D.leads D.Link.told R.File.remaining (R.shows rt.now) given.entry 0 }
{
    end_process(resume(rt, dial, given, errors), errors)
}

/// Asks servers to retire a host's earlier runs.
pub fn end_retire<R: Files + WallClock + Print + Eprint + AllocGlobal, D: Dial, E: Write>(
    rt: &R,
    dial: &D,
    given: RetireArguments<'_>,
    errors: &mut E,
) -> u8
    requires { IfSome given.run IsRun }
    ensures refuses { RetireRefuses given.entry (λ fault. result ≡ process_status fault) }
    ensures done { result ≡ 0
        → AsksRetire D.leads D.Link.told R.File.remaining (R.shows rt.now) given.entry 0 }
{
    end_process(retire(rt, dial, given, errors), errors)
}

/// Asks servers what logins used.
pub fn end_report<R: Files + Clock + Print + Eprint + AllocGlobal, D: Dial, E: Write>(
    rt: &R,
    dial: &D,
    given: ReportArguments<'_>,
    is_on_terminal: bool,
    errors: &mut E,
) -> u8
    requires { IsReportArguments given }
    ensures refuses { ReportRefuses given.entry (λ fault. result ≡ process_status fault) }
    ensures done { result ≡ 0 → AsksReport D.leads D.Link.told R.File.remaining given.entry
        is_on_terminal 0 }
{
    end_process(report(rt, dial, given, is_on_terminal, errors), errors)
}

/// Asks servers whether they answer.
pub fn end_probe<R: Files + WallClock + Print + Eprint + AllocGlobal, D: Dial, E: Write>(
    rt: &R,
    dial: &D,
    given: ProbeArguments<'_>,
    errors: &mut E,
) -> u8
    ensures refuses { ProbeRefuses given.entry (λ fault. result ≡ process_status fault) }
    ensures done { result ≡ 0
        → AsksProbe D.leads D.Link.told R.File.remaining (R.shows rt.now) given.entry 0 }
{
    end_process(probe_servers(rt, dial, given, errors), errors)
}
