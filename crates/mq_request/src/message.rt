//! Requests and replies as values, and the id of a request.
ghost use Rattle.std.specs.Prelude.{◌≡◌, IfOk};
ghost use Rattle.mq_request.specs.Same.{same_id, same_request};

use crate::text::{Host, Login};
use crate::usage::UsageRows;
use std::alloc::AllocError;

/// The id of a request: which host sent it, in which run of its filter, and the request's number in
/// that run. A frame that is sent again carries the same id.
#[derive(Clone, Debug, Drop, PartialEq)]
pub struct Id {
    /// The host that sent it, 1 to 64 bytes.
    pub host: Host,
    /// The run of the host's filter, 1 to 281,474,976,710,655.
    pub run: u64,
    /// The number of the request in the run, 1 to 4,294,967,295.
    pub number: u32,
}

/// What a host or an administrator asks of the quota server.
///
/// `txn` names a transaction within the run of a host, 1 to 4,294,967,295; `moment` is the moment
/// of its beginning, 86,400 to 32,503,680,000 seconds since 1970-01-01T00:00:00Z; `count` is a
/// number of recipients, 1 to 1,000; a day is a day number since 1970-01-01, 0 to 376,200.
#[derive(Debug, Drop, PartialEq)]
pub enum Request {
    /// Reserve this many recipients for an open transaction.
    Reserve {
        id: Id,
        txn: u32,
        moment: u64,
        login: Login,
        count: u32,
    },
    /// The transaction was committed with this many recipients.
    Settle {
        id: Id,
        txn: u32,
        moment: u64,
        login: Login,
        count: u32,
    },
    /// The transaction was dropped: give back what it holds.
    Release {
        id: Id,
        txn: u32,
        moment: u64,
        login: Login,
    },
    /// Set the login's limit, 0 to 1,000,000 recipients, from a day on.
    Limit {
        id: Id,
        from_day: u32,
        cap: u32,
        login: Login,
    },
    /// What has the login used on that day?
    Usage {
        login: Login,
        day: u32,
    },
    /// Which logins have a granted reserve on that day? `after` is the login after which the page
    /// begins, 0 to 255 bytes; the empty one asks for the first page.
    List {
        day: u32,
        after: Login,
    },
    /// Give up the runs of the number's host below its own run: what their transactions hold is
    /// settled, and no reply of theirs is kept.
    Retire {
        id: Id,
    },
}

/// What the quota server answers. Counts are recipients, 0 to 1,000,000.
#[derive(Debug, Drop, PartialEq)]
pub enum Reply {
    /// The recipients are reserved; `used` is what the login has used that day, these included.
    Granted {
        id: Id,
        used: u32,
    },
    /// They would pass the limit; nothing was reserved.
    Full {
        id: Id,
        used: u32,
        cap: u32,
    },
    /// The transaction is closed with this many recipients, 1 to 1,000.
    Settled {
        id: Id,
        count: u32,
    },
    /// The transaction is closed; `held` is what it gave back.
    Released {
        id: Id,
        held: u32,
    },
    /// The limit is set.
    LimitSet {
        id: Id,
    },
    /// The limit isn't set, since more is used on this day already.
    Over {
        id: Id,
        day: u32,
        used: u32,
    },
    /// The transaction is closed already.
    Closed {
        id: Id,
    },
    /// The transaction has another login or moment.
    Mismatch {
        id: Id,
    },
    /// The transaction holds only this many.
    TooMany {
        id: Id,
        held: u32,
    },
    /// The number was used by another request.
    Conflict {
        id: Id,
    },
    /// What the login has used on that day, and its limit.
    Usage {
        login: Login,
        day: u32,
        settled: u32,
        reserved: u32,
        cap: u32,
    },
    /// At most 100 rows of that day.
    List {
        day: u32,
        rows: UsageRows,
    },
    /// The server couldn't take the request now: send it again.
    Retry,
    /// What was sent is no request.
    Bad,
    /// The runs of the host below that of the number are given up.
    Retired {
        id: Id,
    },
    /// The run of the number was given up.
    Old {
        id: Id,
    },
}

impl Id {
    /// Whether host, run and number are the same.
    pub fn is_same(&self, other: &Id) -> bool
        ensures { result ≡ same_id self.now other.now }
    {
        self.host == other.host && self.run == other.run && self.number == other.number
    }
}

impl Request {
    /// Whether kind and all fields are the same.
    pub fn is_same(&self, other: &Request) -> bool
        ensures { result ≡ same_request self.now other.now }
    {
        *self == *other
    }
}

/// Copies of an id and a login.
fn clone_names(id: &Id, login: &Login) -> Result<(Id, Login), AllocError>
    ensures { IfOk result (λ names. names ≡ (id.now, login.now)) }
{
    let id = id.clone()?;
    let login = login.clone()?;
    Ok((id, login))
}

// The copies of requests and replies are written out, since a derived one takes a minute to prove:
// at each name that it copies there is a way out, on which all that was copied before is dropped.
impl Clone for Request {
    ghost is_clone = { λ a b. b ≡ a };

    fn clone(&self) -> Result<Request, AllocError> {
        Ok(match self {
            Request::Reserve {
                id,
                txn,
                moment,
                login,
                count,
            } => {
                let (id, login) = clone_names(id, login)?;
                Request::Reserve {
                    id,
                    txn: *txn,
                    moment: *moment,
                    login,
                    count: *count,
                }
            }
            Request::Settle {
                id,
                txn,
                moment,
                login,
                count,
            } => {
                let (id, login) = clone_names(id, login)?;
                Request::Settle {
                    id,
                    txn: *txn,
                    moment: *moment,
                    login,
                    count: *count,
                }
            }
            Request::Release {
                id,
                txn,
                moment,
                login,
            } => {
                let (id, login) = clone_names(id, login)?;
                Request::Release {
                    id,
                    txn: *txn,
                    moment: *moment,
                    login,
                }
            }
            Request::Limit {
                id,
                from_day,
                cap,
                login,
            } => {
                let (id, login) = clone_names(id, login)?;
                Request::Limit {
                    id,
                    from_day: *from_day,
                    cap: *cap,
                    login,
                }
            }
            Request::Usage { login, day } => Request::Usage {
                login: login.clone()?,
                day: *day,
            },
            Request::List { day, after } => Request::List {
                day: *day,
                after: after.clone()?,
            },
            Request::Retire { id } => Request::Retire { id: id.clone()? },
        })
    }
}

impl Clone for Reply {
    ghost is_clone = { λ a b. b ≡ a };

    fn clone(&self) -> Result<Reply, AllocError> {
        Ok(match self {
            Reply::Granted { id, used } => Reply::Granted {
                id: id.clone()?,
                used: *used,
            },
            Reply::Full { id, used, cap } => Reply::Full {
                id: id.clone()?,
                used: *used,
                cap: *cap,
            },
            Reply::Settled { id, count } => Reply::Settled {
                id: id.clone()?,
                count: *count,
            },
            Reply::Released { id, held } => Reply::Released {
                id: id.clone()?,
                held: *held,
            },
            Reply::LimitSet { id } => Reply::LimitSet { id: id.clone()? },
            Reply::Over { id, day, used } => Reply::Over {
                id: id.clone()?,
                day: *day,
                used: *used,
            },
            Reply::Closed { id } => Reply::Closed { id: id.clone()? },
            Reply::Mismatch { id } => Reply::Mismatch { id: id.clone()? },
            Reply::TooMany { id, held } => Reply::TooMany {
                id: id.clone()?,
                held: *held,
            },
            Reply::Conflict { id } => Reply::Conflict { id: id.clone()? },
            Reply::Usage {
                login,
                day,
                settled,
                reserved,
                cap,
            } => Reply::Usage {
                login: login.clone()?,
                day: *day,
                settled: *settled,
                reserved: *reserved,
                cap: *cap,
            },
            Reply::List { day, rows } => Reply::List {
                day: *day,
                rows: rows.clone()?,
            },
            Reply::Retry => Reply::Retry,
            Reply::Bad => Reply::Bad,
            Reply::Retired { id } => Reply::Retired { id: id.clone()? },
            Reply::Old { id } => Reply::Old { id: id.clone()? },
        })
    }
}
