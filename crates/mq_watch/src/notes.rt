//! What was noted for the log, and what is seen by it.
ghost use Rattle.std.specs.Prelude.{◌≡◌, ◌<◌, None, Some, Ok, IfSome};
ghost use Rattle.mq_request.specs.Range.{IsDay, IsLogin, IsMoment};
ghost use Rattle.mq_ledger.specs.Day.{day_of};
ghost use Rattle.mq_watch.specs.Asked.{IsAsked};
ghost use Rattle.mq_watch.specs.Notices.{answered, verdict};
ghost use Rattle.mq_watch.specs.Seen.{IsUseOf, SeesAddress, SeesAgain, SeesAheadDay, SeesDay};
ghost use Rattle.mq_watch.specs.Seen.{SeesForbidden, SeesGranted, SeesLimit, SeesLowering, SeesRefusal, SeesRefusals};
ghost use Rattle.mq_watch.specs.Seen.{SeesReserve, SeesRun, SeesSet, SeesStranger, TellsBefore};

use crate::askers::Askers;
use crate::asking::ask_usage;
use crate::calendar::ServerTime;
use crate::clock::moment_of;
use crate::hours::{NamedHosts, far_days};
use crate::nearing::Nearing;
use crate::notice::{Notice, OrderVerdict, RequestNotices, verdict_of};
use crate::refusals::Refusals;
use crate::strangers::Strangers;
use mq_ledger::{Ledger, LedgerFault, Zone};
use mq_permits::Peer;
use mq_request::{Host, Id, Login, Reply, Request};
use std::alloc::Global;
use std::net::{IpAddr, SocketAddr};

/// What was noted of hosts and logins, so that a line is told once.
#[derive(Drop)]
pub struct Notes {
    /// The hosts of whose clocks a line was logged.
    pub hosts: NamedHosts,
    /// The hosts of whose retired runs a line was logged.
    pub retired: NamedHosts,
    /// From where hosts ask.
    pub askers: Askers,
    /// How often logins are refused.
    pub refusals: Refusals,
    /// The logins that near their limits.
    pub nearing: Nearing,
    /// The addresses from which something was asked that isn't allowed.
    pub strangers: Strangers,
}

impl Notes {
    /// Nothing is noted yet.
    pub fn new(alloc: Global) -> Notes {
        Notes {
            hosts: NamedHosts::new(alloc),
            retired: NamedHosts::new(alloc),
            askers: Askers::new(alloc),
            refusals: Refusals::new(alloc),
            nearing: Nearing::new(alloc),
            strangers: Strangers::new(alloc),
        }
    }

    /// What is to be seen of a reserve, its host and its peer, at this moment of the server's
    /// clock, in seconds.
    pub fn see_reserve<'r>(
        &mut self,
        zone: &Zone,
        peer: SocketAddr,
        id: &'r Id,
        moment: u64,
        login: &'r Login,
        answer: Result<&Reply, LedgerFault>,
        now: Option<u64>,
    ) -> RequestNotices<'r>
        requires { IsMoment moment }
        ensures sees { SeesReserve (day_of zone.now) peer id.now moment login.now (answered answer.entry) now
            self.old self.new result }
        ensures peer { result.peer ≡ peer }
        ensures others { (result.question ≡ None) × (result.main ≡ None) }
        ensures nearing { self.new.nearing ≡ self.old.nearing }
    {
        let Some(seconds) = now else {
            return RequestNotices::nothing(peer);
        };
        RequestNotices {
            day: see_day(&mut self.hosts, zone, &id.host, moment, seconds),
            address: see_address(&mut self.askers, &id.host, peer.ip(), seconds),
            refusal: self.see_refusal(id, login, answer, seconds),
            ..RequestNotices::nothing(peer)
        }
    }

    /// What is to be seen of a reserve's answer: that the login is refused all the time, or that
    /// the run is retired.
    fn see_refusal<'r>(
        &mut self,
        id: &'r Id,
        login: &'r Login,
        answer: Result<&Reply, LedgerFault>,
        seconds: u64,
    ) -> Option<Notice<'r>>
        ensures sees { SeesRefusal id.now login.now (answered answer.entry) seconds self.old self.new result }
        ensures hosts { self.new.hosts ≡ self.old.hosts }
        ensures askers { self.new.askers ≡ self.old.askers }
        ensures nearing { self.new.nearing ≡ self.old.nearing }
    {
        match answer {
            Ok(Reply::Full { .. }) => see_refusals(&mut self.refusals, login, &id.host, seconds),
            _ => see_run(&mut self.retired, id, answer, Some(seconds)),
        }
    }
}

/// That a host reserves for a day that is far from the server's, once an hour.
fn see_day<'r>(
    hosts: &mut NamedHosts,
    zone: &Zone,
    host: &'r Host,
    moment: u64,
    seconds: u64,
) -> Option<Notice<'r>>
    requires { IsMoment moment }
    ensures { SeesDay (day_of zone.now) host.now moment seconds hosts.old hosts.new result }
{
    let (day, today) = far_days(zone, moment, moment_of(seconds))?;
    if hosts.is_due(host, seconds) {
        Some(Notice::FarDay { host, day, today })
    } else {
        None
    }
}

/// That a host's reserve isn't taken, since its day is ahead of today. Once an hour, as of other far
/// days.
pub fn see_ahead_day<'r>(
    hosts: &mut NamedHosts,
    host: &'r Host,
    day: u32,
    now: ServerTime,
) -> Option<Notice<'r>>
    ensures { SeesAheadDay host.now day now hosts.old hosts.new result }
{
    if hosts.is_due(host, now.millis / 1_000) {
        Some(Notice::AheadDay {
            host,
            day,
            today: now.today,
        })
    } else {
        None
    }
}

/// That a request isn't taken, since its peer may not ask it: once an hour and address, where the
/// clock can be read. In seconds.
pub fn see_forbidden<'r>(
    strangers: &mut Strangers,
    peer: &Peer,
    request: &'r Request,
    seconds: Option<u64>,
) -> RequestNotices<'r>
    ensures { SeesForbidden peer.now seconds strangers.old strangers.new result request.now }
{
    match seconds {
        Some(seconds) => RequestNotices {
            main: see_stranger(strangers, peer.address.ip(), request, seconds),
            ..RequestNotices::nothing(peer.address)
        },
        None => RequestNotices::nothing(peer.address),
    }
}

/// That something was asked from an address that isn't allowed, once an hour.
fn see_stranger<'r>(
    strangers: &mut Strangers,
    address: IpAddr,
    request: &'r Request,
    seconds: u64,
) -> Option<Notice<'r>>
    ensures { SeesStranger address seconds strangers.old strangers.new result request.now }
{
    if strangers.is_due(address, seconds) {
        Some(Notice::Forbidden { request })
    } else {
        None
    }
}

/// That a host asks from two addresses, once an hour.
fn see_address<'r>(
    askers: &mut Askers,
    host: &'r Host,
    address: IpAddr,
    seconds: u64,
) -> Option<Notice<'r>>
    ensures { SeesAddress host.now address seconds askers.old askers.new result }
{
    match askers.other(host, address, seconds) {
        Some(other) => Some(Notice::OtherAddress { host, other }),
        None => None,
    }
}

/// That a login is refused all the time, once an hour.
fn see_refusals<'r>(
    refusals: &mut Refusals,
    login: &'r Login,
    host: &'r Host,
    seconds: u64,
) -> Option<Notice<'r>>
    ensures { SeesRefusals login.now host.now seconds refusals.old refusals.new result }
{
    if refusals.is_due(login, seconds) {
        Some(Notice::Refusals { login, host })
    } else {
        None
    }
}

/// That a request of a retired run came, once an hour and host, where the clock can be read.
pub fn see_run<'r>(
    retired: &mut NamedHosts,
    id: &'r Id,
    answer: Result<&Reply, LedgerFault>,
    now: Option<u64>,
) -> Option<Notice<'r>>
    ensures { SeesRun id.now (answered answer.entry) now retired.old retired.new result }
{
    let (Ok(Reply::Old { .. }), Some(seconds)) = (answer, now) else {
        return None;
    };
    if retired.is_due(&id.host, seconds) {
        Some(Notice::OldRun { id })
    } else {
        None
    }
}

/// That a login nears its limit, of which it was granted so much on a day. The recipients are
/// granted, whatever comes of the question.
pub fn see_granted<'r, L: Ledger>(
    ledger: &mut L,
    nearing: &mut Nearing,
    login: &'r Login,
    day: u32,
    used: u32,
) -> Option<Notice<'r>>
    requires login { IsLogin login.now }
    requires day { IsDay day }
    ensures asked { IsAsked L.told L.book L.has_kept L.is_sound L.has_store ledger.old ledger.new }
    ensures sees { SeesGranted login.now day used (L.told ledger.old)
        (L.told ledger.new) nearing.old nearing.new result }
    ensures usage { L.has_kept ledger.new → L.is_sound ledger.old
        → IfSome result (IsUseOf (L.book ledger.old)) }
{
    if !nearing.is_open(login, day, used) {
        return None;
    }
    match ask_usage(ledger, login, day) {
        Ok(Some(usage)) => {
            if nearing.is_due(login, day, usage) {
                Some(Notice::NearLimit { login, day, usage })
            } else {
                None
            }
        }
        Ok(None) => None,
        Err(_) => Some(Notice::FailedQuestion),
    }
}

/// A limit, and that it lowered another. `before` is the cap that a question before it said.
pub fn see_limit<'r, L: Ledger>(
    ledger: &mut L,
    nearing: &mut Nearing,
    peer: SocketAddr,
    login: &'r Login,
    from_day: u32,
    cap: u32,
    before: Result<Option<u32>, LedgerFault>,
    answer: Result<&Reply, LedgerFault>,
) -> RequestNotices<'r>
    requires login { IsLogin login.now }
    requires day { IsDay from_day }
    ensures asked { IsAsked L.told L.book L.has_kept L.is_sound L.has_store ledger.old ledger.new }
    ensures sees { SeesLimit peer login.now from_day cap before (verdict (answered answer.entry))
        (L.told ledger.old) (L.told ledger.new)
        nearing.old nearing.new result }
    ensures from { IfSome result.main (TellsBefore before) }
{
    let verdict = verdict_of(answer);
    let CapChange { from, question } = see_lowering(
        ledger, nearing, login, from_day, cap, before, verdict,
    );
    RequestNotices {
        question,
        main: Some(Notice::Limit {
            login,
            from_day,
            cap,
            lowered_from: from,
            verdict,
        }),
        ..RequestNotices::nothing(peer)
    }
}

/// How a limit changed its login's cap, by what questions said.
#[derive(Clone, Copy)]
struct CapChange<'a> {
    /// The cap that the login had on that day before, where it is lower now.
    from: Option<u32>,
    /// That the ledger's store failed at the question.
    question: Option<Notice<'a>>,
}

/// Whether a limit lowered another, by what it was answered.
fn see_lowering<'r, L: Ledger>(
    ledger: &mut L,
    nearing: &mut Nearing,
    login: &Login,
    from_day: u32,
    cap: u32,
    before: Result<Option<u32>, LedgerFault>,
    verdict: OrderVerdict,
) -> CapChange<'r>
    requires login { IsLogin login.now }
    requires day { IsDay from_day }
    ensures asked { IsAsked L.told L.book L.has_kept L.is_sound L.has_store ledger.old ledger.new }
    ensures sees { SeesLowering before verdict cap login.now from_day (L.told ledger.old)
        (L.told ledger.new)
        nearing.old nearing.new result.from result.question }
    ensures from { IfSome result.from (λ was. before ≡ Ok (Some was)) }
{
    match (before, verdict) {
        (Err(_), _) => CapChange {
            from: None,
            question: Some(Notice::FailedQuestion),
        },
        (Ok(before), OrderVerdict::Set) => note_set(ledger, nearing, login, from_day, cap, before),
        (Ok(_), _) => CapChange {
            from: None,
            question: None,
        },
    }
}

/// Notes that a limit is set: the cap before, where it is lower now. One that came again changed
/// nothing.
fn note_set<'r, L: Ledger>(
    ledger: &mut L,
    nearing: &mut Nearing,
    login: &Login,
    from_day: u32,
    cap: u32,
    before: Option<u32>,
) -> CapChange<'r>
    requires login { IsLogin login.now }
    requires day { IsDay from_day }
    ensures asked { IsAsked L.told L.book L.has_kept L.is_sound L.has_store ledger.old ledger.new }
    ensures lowered { IfSome result.from (λ was. (before ≡ Some was) × (cap < was)) }
    ensures sees { SeesSet before cap login.now from_day (L.told ledger.old) (L.told ledger.new)
        nearing.old nearing.new result.from result.question }
{
    nearing.forget(login);
    match before {
        Some(was) if cap < was => ask_again(ledger, login, from_day, was),
        _ => CapChange {
            from: None,
            question: None,
        },
    }
}

/// Whether the cap is another now than it was, by a question. Where there is no answer, it counts
/// as another.
fn ask_again<'r, L: Ledger>(ledger: &mut L, login: &Login, from_day: u32, was: u32) -> CapChange<'r>
    requires login { IsLogin login.now }
    requires day { IsDay from_day }
    ensures asked { IsAsked L.told L.book L.has_kept L.is_sound L.has_store ledger.old ledger.new }
    ensures same { IfSome result.from (λ before. before ≡ was) }
    ensures again { SeesAgain login.now from_day (L.told ledger.old)
        (L.told ledger.new) was result.from result.question }
{
    match ask_usage(ledger, login, from_day) {
        Ok(Some(usage)) if was <= usage.cap => CapChange {
            from: None,
            question: None,
        },
        Ok(_) => CapChange {
            from: Some(was),
            question: None,
        },
        Err(_) => CapChange {
            from: Some(was),
            question: Some(Notice::FailedQuestion),
        },
    }
}
