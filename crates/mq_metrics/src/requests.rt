//! What was asked, and what it came to.

use crate::counts::Counter;
use crate::text::{FigureKind, Label, write_head, write_value};
use mq_request::{Reply, Request};
use std::fmt;

/// A kind of request.
#[derive(Clone, Copy, Debug, PartialEq, Eq)]
pub enum RequestKind {
    Reserve,
    Settle,
    Release,
    Retire,
    Limit,
    Usage,
    List,
}

impl RequestKind {
    /// Each kind, in the order in which they are told.
    const ALL: [RequestKind; 7] = [
        RequestKind::Reserve,
        RequestKind::Settle,
        RequestKind::Release,
        RequestKind::Retire,
        RequestKind::Limit,
        RequestKind::Usage,
        RequestKind::List,
    ];

    pub fn of(request: &Request) -> RequestKind {
        match request {
            Request::Reserve { .. } => RequestKind::Reserve,
            Request::Settle { .. } => RequestKind::Settle,
            Request::Release { .. } => RequestKind::Release,
            Request::Retire { .. } => RequestKind::Retire,
            Request::Limit { .. } => RequestKind::Limit,
            Request::Usage { .. } => RequestKind::Usage,
            Request::List { .. } => RequestKind::List,
        }
    }

    fn as_str(self) -> &'static str {
        match self {
            RequestKind::Reserve => "reserve",
            RequestKind::Settle => "settle",
            RequestKind::Release => "release",
            RequestKind::Retire => "retire",
            RequestKind::Limit => "limit",
            RequestKind::Usage => "usage",
            RequestKind::List => "list",
        }
    }

    /// What a request of this kind may come to.
    fn results(self) -> &'static [RequestResult] {
        match self {
            RequestKind::Reserve => &OF_RESERVES,
            RequestKind::Settle => &OF_SETTLES,
            RequestKind::Release => &OF_RELEASES,
            RequestKind::Retire => &OF_RETIRES,
            RequestKind::Limit => &OF_LIMITS,
            RequestKind::Usage | RequestKind::List => &OF_QUESTIONS,
        }
    }
}

/// What a request came to.
#[derive(Clone, Copy, Debug, PartialEq, Eq)]
pub enum RequestResult {
    /// Its recipients are reserved.
    Granted,
    /// They were reserved since it is counted, and this is the reply of then.
    Repeated,
    /// They would pass the limit.
    Full,
    /// What it asks was done, or is told.
    Done,
    /// Its transaction is closed already.
    Closed,
    /// Its transaction has another login or moment.
    Mismatch,
    /// Its transaction holds fewer recipients.
    TooMany,
    /// More is used already than the limit that it sets.
    Over,
    /// Its run is retired.
    Old,
    /// Another request has its number.
    Conflict,
    /// It is ahead of the server's time.
    Ahead,
    /// Its peer may not ask it.
    Forbidden,
    /// There was no memory for it.
    Retry,
    /// The ledger's store failed.
    Failed,
}

static OF_RESERVES: [RequestResult; 11] = [
    RequestResult::Granted,
    RequestResult::Repeated,
    RequestResult::Full,
    RequestResult::Closed,
    RequestResult::Mismatch,
    RequestResult::Old,
    RequestResult::Conflict,
    RequestResult::Ahead,
    RequestResult::Forbidden,
    RequestResult::Retry,
    RequestResult::Failed,
];

static OF_SETTLES: [RequestResult; 9] = [
    RequestResult::Done,
    RequestResult::Closed,
    RequestResult::Mismatch,
    RequestResult::TooMany,
    RequestResult::Old,
    RequestResult::Conflict,
    RequestResult::Forbidden,
    RequestResult::Retry,
    RequestResult::Failed,
];

static OF_RELEASES: [RequestResult; 8] = [
    RequestResult::Done,
    RequestResult::Closed,
    RequestResult::Mismatch,
    RequestResult::Old,
    RequestResult::Conflict,
    RequestResult::Forbidden,
    RequestResult::Retry,
    RequestResult::Failed,
];

static OF_RETIRES: [RequestResult; 7] = [
    RequestResult::Done,
    RequestResult::Old,
    RequestResult::Conflict,
    RequestResult::Ahead,
    RequestResult::Forbidden,
    RequestResult::Retry,
    RequestResult::Failed,
];

static OF_LIMITS: [RequestResult; 7] = [
    RequestResult::Done,
    RequestResult::Over,
    RequestResult::Old,
    RequestResult::Conflict,
    RequestResult::Forbidden,
    RequestResult::Retry,
    RequestResult::Failed,
];

static OF_QUESTIONS: [RequestResult; 4] = [
    RequestResult::Done,
    RequestResult::Forbidden,
    RequestResult::Retry,
    RequestResult::Failed,
];

impl RequestResult {
    /// What a ledger's reply says. One that a ledger doesn't give, as to what is no request, says
    /// that the request may come again.
    pub fn of_reply(reply: &Reply) -> RequestResult {
        match reply {
            Reply::Granted { .. } => RequestResult::Granted,
            Reply::Full { .. } => RequestResult::Full,
            Reply::Settled { .. }
            | Reply::Released { .. }
            | Reply::LimitSet { .. }
            | Reply::Usage { .. }
            | Reply::List { .. }
            | Reply::Retired { .. } => RequestResult::Done,
            Reply::Over { .. } => RequestResult::Over,
            Reply::Closed { .. } => RequestResult::Closed,
            Reply::Mismatch { .. } => RequestResult::Mismatch,
            Reply::TooMany { .. } => RequestResult::TooMany,
            Reply::Conflict { .. } => RequestResult::Conflict,
            Reply::Old { .. } => RequestResult::Old,
            Reply::Retry | Reply::Bad => RequestResult::Retry,
        }
    }

    fn as_str(self) -> &'static str {
        match self {
            RequestResult::Granted => "granted",
            RequestResult::Repeated => "repeated",
            RequestResult::Full => "full",
            RequestResult::Done => "done",
            RequestResult::Closed => "closed",
            RequestResult::Mismatch => "mismatch",
            RequestResult::TooMany => "too_many",
            RequestResult::Over => "over",
            RequestResult::Old => "old",
            RequestResult::Conflict => "conflict",
            RequestResult::Ahead => "ahead",
            RequestResult::Forbidden => "forbidden",
            RequestResult::Retry => "retry",
            RequestResult::Failed => "failed",
        }
    }
}

/// What the requests of a kind came to.
#[derive(Default, Drop)]
struct ResultCounts {
    granted: Counter,
    repeated: Counter,
    full: Counter,
    done: Counter,
    closed: Counter,
    mismatch: Counter,
    too_many: Counter,
    over: Counter,
    old: Counter,
    conflict: Counter,
    ahead: Counter,
    forbidden: Counter,
    retry: Counter,
    failed: Counter,
}

impl ResultCounts {
    fn of(&self, outcome: RequestResult) -> &Counter {
        match outcome {
            RequestResult::Granted => &self.granted,
            RequestResult::Repeated => &self.repeated,
            RequestResult::Full => &self.full,
            RequestResult::Done => &self.done,
            RequestResult::Closed => &self.closed,
            RequestResult::Mismatch => &self.mismatch,
            RequestResult::TooMany => &self.too_many,
            RequestResult::Over => &self.over,
            RequestResult::Old => &self.old,
            RequestResult::Conflict => &self.conflict,
            RequestResult::Ahead => &self.ahead,
            RequestResult::Forbidden => &self.forbidden,
            RequestResult::Retry => &self.retry,
            RequestResult::Failed => &self.failed,
        }
    }
}

/// The requests that came, by their kinds and by what they came to.
#[derive(Default, Drop)]
pub struct RequestCounts {
    reserve: ResultCounts,
    settle: ResultCounts,
    release: ResultCounts,
    retire: ResultCounts,
    limit: ResultCounts,
    usage: ResultCounts,
    list: ResultCounts,
}

impl RequestCounts {
    /// None came yet.
    pub fn new() -> RequestCounts {
        RequestCounts::default()
    }

    /// How many requests of this kind came to this.
    pub fn of(&self, kind: RequestKind, outcome: RequestResult) -> &Counter {
        let counts = match kind {
            RequestKind::Reserve => &self.reserve,
            RequestKind::Settle => &self.settle,
            RequestKind::Release => &self.release,
            RequestKind::Retire => &self.retire,
            RequestKind::Limit => &self.limit,
            RequestKind::Usage => &self.usage,
            RequestKind::List => &self.list,
        };
        counts.of(outcome)
    }

    /// The figure of this name in the text format.
    pub fn write<W: fmt::Write>(
        &self,
        f: &mut fmt::Formatter<W>,
        name: &str,
        help: &str,
    ) -> fmt::Result {
        write_head(f, name, FigureKind::Counter, help)?;
        for kind in &RequestKind::ALL {
            self.write_kind(f, name, *kind)?;
        }
        Ok(())
    }

    /// What the requests of a kind came to.
    fn write_kind<W: fmt::Write>(
        &self,
        f: &mut fmt::Formatter<W>,
        name: &str,
        kind: RequestKind,
    ) -> fmt::Result {
        for outcome in kind.results() {
            let labels = [
                Label {
                    name: "kind",
                    value: kind.as_str(),
                },
                Label {
                    name: "result",
                    value: outcome.as_str(),
                },
            ];
            write_value(f, name, &labels, &self.of(kind, *outcome).get())?;
        }
        Ok(())
    }
}
