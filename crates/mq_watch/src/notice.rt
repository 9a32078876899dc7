//! What is to be logged of a request, as a value, and its line.
ghost use Rattle.std.specs.Prelude.{◌≡◌};
ghost use Rattle.mq_watch.specs.Notices.{answered, in_order, level_of, nothing, verdict};

use crate::nearing::Usage;
use log::Level;
use mq_ledger::LedgerFault;
use mq_request::{EscapedText, Host, Id, Login, Reply, Request};
use std::fmt;
use std::net::{IpAddr, SocketAddr};

/// What a limit or a retire was answered. One that comes again is answered as it was the first
/// time.
#[derive(Clone, Copy, Debug, PartialEq, Eq)]
pub enum OrderVerdict {
    Set,
    Retired,
    /// So many recipients are used on that day already.
    Over { day: u32, used: u32 },
    /// Another request has its number.
    Conflict,
    /// Its run is retired.
    Old,
    /// A reply to another kind of request.
    Other,
    Fault(LedgerFault),
}

/// What an answer says of a limit or a retire.
pub fn verdict_of(answer: Result<&Reply, LedgerFault>) -> OrderVerdict
    ensures { result ≡ verdict (answered answer.entry) }
{
    match answer {
        Ok(Reply::LimitSet { .. }) => OrderVerdict::Set,
        Ok(Reply::Retired { .. }) => OrderVerdict::Retired,
        Ok(Reply::Over { day, used, .. }) => OrderVerdict::Over {
            day: *day,
            used: *used,
        },
        Ok(Reply::Conflict { .. }) => OrderVerdict::Conflict,
        Ok(Reply::Old { .. }) => OrderVerdict::Old,
        Ok(_) => OrderVerdict::Other,
        Err(fault) => OrderVerdict::Fault(fault),
    }
}

impl fmt::Display for OrderVerdict {
    fn fmt<W: fmt::Write>(&self, f: &mut fmt::Formatter<W>) -> fmt::Result {
        match self {
            OrderVerdict::Set => f.write_str("set"),
            OrderVerdict::Retired => f.write_str("retired"),
            OrderVerdict::Over { day, used } => write!(f, "refused, {used} used on day {day}"),
            OrderVerdict::Conflict => f.write_str("refused, another request has its number"),
            OrderVerdict::Old => f.write_str("refused, its run is retired"),
            OrderVerdict::Other => f.write_str("answered"),
            OrderVerdict::Fault(fault) => write!(f, "{fault}"),
        }
    }
}

/// What an administrator has to see of a request. Days are day numbers, 0 to 376,200.
#[derive(Clone, Copy)]
pub enum Notice<'a> {
    /// A limit came, of so many recipients a day, 0 to 1,000,000.
    Limit {
        login: &'a Login,
        from_day: u32,
        cap: u32,
        /// The cap that the login had on that day before, where it is lower now.
        lowered_from: Option<u32>,
        verdict: OrderVerdict,
    },
    /// A retire came. Each start of a mail host's smtpd may send one.
    Retire {
        id: &'a Id,
        verdict: OrderVerdict,
    },
    /// A retire is ahead of the server's clock, in milliseconds since 1970, and wasn't taken.
    Ahead {
        id: &'a Id,
        now: u64,
    },
    /// A host reserves for another day than today by the server's clock.
    FarDay {
        host: &'a Host,
        day: u32,
        today: u32,
    },
    /// A host reserves for a day that is ahead of today, and that wasn't taken.
    AheadDay {
        host: &'a Host,
        day: u32,
        today: u64,
    },
    /// A host asks that asked from this other address before.
    OtherAddress {
        host: &'a Host,
        other: IpAddr,
    },
    /// A host asks under a retired run.
    OldRun {
        id: &'a Id,
    },
    /// A login is refused all the time, last for this host.
    Refusals {
        login: &'a Login,
        host: &'a Host,
    },
    /// A login nears its limit.
    NearLimit {
        login: &'a Login,
        day: u32,
        usage: Usage,
    },
    /// The ledger's store failed at a question of the log.
    FailedQuestion,
    /// A peer may not ask this, and it wasn't taken.
    Forbidden {
        request: &'a Request,
    },
}

impl Notice<'_> {
    /// How much it matters. A limit that lowers another is a warning: it may stop a login.
    pub fn level(&self) -> Level
        ensures { result ≡ level_of self.now }
    {
        match self {
            Notice::Limit {
                lowered_from: None,
                ..
            }
            | Notice::Retire { .. } => Level::Info,
            Notice::Ahead { .. } | Notice::FailedQuestion => Level::Error,
            _ => Level::Warn,
        }
    }
}

impl fmt::Display for Notice<'_> {
    fn fmt<W: fmt::Write>(&self, f: &mut fmt::Formatter<W>) -> fmt::Result {
        match self {
            Notice::Limit {
                login,
                from_day,
                cap,
                lowered_from,
                verdict,
            } => {
                let login = EscapedText(login.as_slice());
                write!(
                    f,
                    "limit {cap} of login {login} from day {from_day}: {verdict}"
                )?;
                write_lowered(f, *lowered_from)
            }
            Notice::Retire { id, verdict } => {
                let host = EscapedText(id.host.as_slice());
                let run = id.run;
                write!(f, "runs of host {host} below {run}: {verdict}")
            }
            Notice::Ahead { id, now } => write_ahead(f, *id, *now),
            Notice::FarDay { host, day, today } => {
                let host = EscapedText(host.as_slice());
                write!(
                    f,
                    "host {host} reserves for day {day}, and today is day {today}: its clock or the server's is wrong"
                )
            }
            Notice::AheadDay { host, day, today } => {
                let host = EscapedText(host.as_slice());
                write!(
                    f,
                    "host {host} reserves for day {day}, and today is day {today}: its clock or the server's is wrong, and its recipients get 451"
                )
            }
            Notice::OtherAddress { host, other } => {
                let host = EscapedText(host.as_slice());
                write!(
                    f,
                    "host {host} has asked from {other} too within an hour: two machines may have its name"
                )
            }
            Notice::OldRun { id } => {
                let host = EscapedText(id.host.as_slice());
                let run = id.run;
                write!(
                    f,
                    "host {host} asks under run {run}, which is retired: its recipients get 451"
                )
            }
            Notice::Refusals { login, host } => {
                let login = EscapedText(login.as_slice());
                let host = EscapedText(host.as_slice());
                write!(
                    f,
                    "login {login} was refused more than 1,000 times within an hour, last for host {host}"
                )
            }
            Notice::NearLimit { login, day, usage } => {
                let login = EscapedText(login.as_slice());
                let used = usage.used;
                let cap = usage.cap;
                write!(
                    f,
                    "login {login} has used {used} of its limit of {cap} on day {day}"
                )
            }
            Notice::FailedQuestion => {
                f.write_str("the ledger's store failed at a question of the log")
            }
            Notice::Forbidden { request } => write_forbidden(f, request),
        }
    }
}

/// What a peer may not ask.
fn write_forbidden<W: fmt::Write>(f: &mut fmt::Formatter<W>, request: &Request) -> fmt::Result {
    match request {
        Request::Limit { .. } => f.write_str("may not set limits"),
        Request::Usage { .. } | Request::List { .. } => {
            f.write_str("may not ask what logins have used")
        }
        Request::Retire { id } => {
            let host = EscapedText(id.host.as_slice());
            write!(f, "may not retire runs of host {host}")
        }
        Request::Reserve { id, .. } | Request::Settle { id, .. } | Request::Release { id, .. } => {
            let host = EscapedText(id.host.as_slice());
            write!(f, "may not ask for host {host}")
        }
    }
}

/// From which cap a limit was lowered, if it was.
fn write_lowered<W: fmt::Write>(
    f: &mut fmt::Formatter<W>,
    lowered_from: Option<u32>,
) -> fmt::Result {
    match lowered_from {
        Some(was) => write!(f, ", lowered from {was}"),
        None => Ok(()),
    }
}

/// How far a retire is ahead of the server's clock, in milliseconds since 1970.
fn write_ahead<W: fmt::Write>(f: &mut fmt::Formatter<W>, id: &Id, now: u64) -> fmt::Result {
    let host = EscapedText(id.host.as_slice());
    let run = id.run;
    let seconds = run.saturating_sub(now) / 1_000;
    write!(
        f,
        "runs of host {host} below {run}: not taken, since that is {seconds} s after this server's clock, {now}: its clock or the server's is wrong"
    )
}

/// What is to be logged of a request, in this order, and whose request it is.
#[derive(Clone, Copy)]
pub struct RequestNotices<'a> {
    pub peer: SocketAddr,
    /// Of a reserve's day.
    pub day: Option<Notice<'a>>,
    /// From where its host asks.
    pub address: Option<Notice<'a>>,
    /// That it was refused once too often, or its run is retired.
    pub refusal: Option<Notice<'a>>,
    /// That a question before a limit failed, or one after it.
    pub question: Option<Notice<'a>>,
    /// The limit or the retire itself, or what a login has used then.
    pub main: Option<Notice<'a>>,
}

impl<'a> RequestNotices<'a> {
    /// Nothing is to be logged of a request of this peer.
    pub fn nothing(peer: SocketAddr) -> RequestNotices<'a>
        ensures { result ≡ nothing peer }
    {
        RequestNotices {
            peer,
            day: None,
            address: None,
            refusal: None,
            question: None,
            main: None,
        }
    }

    /// What is to be logged, in order.
    pub fn in_order(&self) -> [Option<Notice<'a>>; 5]
        ensures { result ≡ in_order self.now }
    {
        [
            self.day,
            self.address,
            self.refusal,
            self.question,
            self.main,
        ]
    }
}
