//! What is done to a ledger and to its store, as lists of steps.

use crate::asks::{Asked, Verdict, ask, replies, request_of, tables, told, wanted, zone, zone_by};
use mq_ledger::{Ledger, LedgerFault, Zone};
use mq_request::Reply;
use mq_store::{Audit, OpenFault, OpenRefused, SqlLedger};
use sqlite::{Alter, Connection};
use std::alloc::Global;
use std::test::*;

/// What comes of making or opening a ledger.
#[derive(Drop)]
pub enum Outcome {
    Ready,
    NotOurs,
    ZoneDiffers,
    DefaultDiffers,
    Damaged(&'static str, i64),
    Memory,
    Store,
}

/// One step. The store of a ledger is taken from it where the step is one of the store.
#[derive(Drop)]
pub enum Step {
    /// The store runs this text.
    Run(&'static str),
    /// A ledger of 60 minutes and default 3 is made over the store.
    Make(Outcome),
    /// One of this zone rule and default 3 is made.
    MakeBy(&'static str, Outcome),
    /// One of so many minutes and that default is opened.
    Open(i32, u32, Outcome),
    /// One of this zone rule and that default is opened.
    OpenBy(&'static str, u32, Outcome),
    /// The store answers this query by that number.
    Counts(&'static str, i64),
    /// The ledger goes by so many minutes and that default.
    GoesBy(i32, u32),
    /// The ledger goes by this zone rule.
    GoesByRule(&'static str),
    /// The ledger replies so to this request.
    Reply(&'static str, &'static str),
    /// The ledger replies so to these requests.
    Replies(Asked),
    /// It answers this request by the store's fault.
    Fails(&'static str),
    /// An audit finds each pair right, over so many rows of `usage` and `trans`.
    Sound(u64, u64),
    /// An audit finds this pair.
    Wrong(&'static str, i64),
    /// Something was reserved on these days, the first and the last; or on none.
    Days(Option<(u32, u32)>),
    /// Up to that day transactions began on these, the first and the last; or on none.
    Until(u32, Option<(u32, u32)>),
}

/// A list of steps, with its name.
pub type Case = (&'static str, &'static [Step]);

/// What comes of making or opening, with the store.
type Entered<S> = Result<SqlLedger<S>, OpenRefused<S>>;

/// A ledger, the store of one that isn't open, or why a step came out otherwise.
#[derive(Drop)]
pub enum Held<S: Alter> {
    Ledger(SqlLedger<S>),
    Store(Connection<S>),
    Otherwise(&'static str),
}

/// Makes a ledger. Without clauses, as `ask`.
pub fn make<S: Alter + Drop>(alloc: Global, store: Connection<S>, zone: Zone) -> Entered<S> {
    SqlLedger::create(alloc, store, zone, 3)
}

/// Opens a ledger. Without clauses, as `ask`. A default is at most 1,000,000.
pub fn open<S: Alter + Drop>(
    alloc: Global,
    store: Connection<S>,
    zone: Zone,
    default: u32,
) -> Entered<S> {
    SqlLedger::open(alloc, store, zone, default.min(1_000_000))
}

/// Whether a refusal has this cause.
pub fn is_refused(fault: &OpenFault, wanted: &Outcome) -> bool {
    match (fault, wanted) {
        (OpenFault::NotOurs, Outcome::NotOurs)
        | (OpenFault::ZoneDiffers, Outcome::ZoneDiffers)
        | (OpenFault::DefaultDiffers, Outcome::DefaultDiffers)
        | (OpenFault::Memory, Outcome::Memory)
        | (OpenFault::Store(_), Outcome::Store) => true,
        (OpenFault::Damaged { login, day }, Outcome::Damaged(least, of)) => {
            login.as_slice() == least.as_bytes() && *day == *of
        }
        _ => false,
    }
}

/// What is held after a making or an opening that is to come out so.
fn judged<S: Alter + Drop>(entered: Entered<S>, wanted: &Outcome) -> Held<S> {
    match entered {
        Ok(ledger) => match wanted {
            Outcome::Ready => Held::Ledger(ledger),
            _ => Held::Otherwise("not refused"),
        },
        Err(refused) => {
            if is_refused(&refused.fault, wanted) {
                Held::Store(refused.connection)
            } else {
                Held::Otherwise("another fault")
            }
        }
    }
}

/// Whether a text runs. Without clauses, as `ask`.
fn runs<S: Alter>(store: &mut Connection<S>, text: &str) -> bool {
    store.execute_batch(text).is_ok()
}

/// The number that a query answers.
fn count<S: Alter>(store: &mut Connection<S>, query: &str) -> Option<i64> {
    match store.query_row(query, &[]) {
        Ok(row) => row.get(0).ok(),
        Err(_) => None,
    }
}

/// What an audit finds. Without clauses, as `ask`.
pub fn audit<S: Alter>(ledger: &mut SqlLedger<S>) -> Result<Audit, LedgerFault> {
    ledger.audit()
}

fn is_sound(found: &Audit, rows: (u64, u64)) -> bool {
    matches!(found, Audit::Sound { days, transactions } if (*days, *transactions) == rows)
}

fn is_wrong(found: &Audit, least: &str, of: i64) -> bool {
    matches!(found, Audit::Wrong { login, day } if login.as_slice() == least.as_bytes() && *day == of)
}

/// Whether an audit finds what the step says.
fn finds<S: Alter>(ledger: &mut SqlLedger<S>, step: &Step) -> bool {
    let Ok(found) = audit(ledger) else {
        return false;
    };
    match step {
        Step::Sound(usage, trans) => is_sound(&found, (*usage, *trans)),
        Step::Wrong(least, of) => is_wrong(&found, least, *of),
        _ => false,
    }
}

/// On which days something was reserved. Without clauses, as `ask`.
fn days_of<S: Alter>(ledger: &mut SqlLedger<S>) -> Result<Option<(u32, u32)>, LedgerFault> {
    match ledger.days() {
        Ok(days) => Ok(days.map(|days| (days.oldest, days.newest))),
        Err(fault) => Err(fault),
    }
}

/// On which days transactions began. Without clauses, as `ask`.
fn days_until<S: Alter>(
    ledger: &mut SqlLedger<S>,
    until: u32,
) -> Result<Option<(u32, u32)>, LedgerFault> {
    match ledger.transaction_days(until) {
        Ok(days) => Ok(days.map(|days| (days.oldest, days.newest))),
        Err(fault) => Err(fault),
    }
}

fn is_fault(answer: Result<Reply, LedgerFault>) -> bool {
    matches!(answer, Err(LedgerFault::Store))
}

/// Whether a ledger answers a request by the store's fault.
fn fails<S: Alter>(alloc: Global, ledger: &mut SqlLedger<S>, request: &str) -> Option<bool> {
    match request_of(alloc, request) {
        Some(request) => Some(is_fault(ask(ledger, &request))),
        None => None,
    }
}

/// Takes requests in turn; the first that isn't replied to so is told.
fn take_all<L: Ledger>(alloc: Global, ledger: &mut L, asked: Asked) -> Verdict {
    for (request, reply) in asked {
        wanted(
            replies(alloc, ledger, request, reply) == Some(true),
            request,
        )?;
    }
    Ok(())
}

/// Takes a step of a ledger that is open.
fn take_inside<S: Alter>(alloc: Global, ledger: &mut SqlLedger<S>, step: &Step) -> Verdict {
    match step {
        Step::Reply(request, reply) => {
            wanted(
                replies(alloc, ledger, request, reply) == Some(true),
                request,
            )
        }
        Step::Replies(asked) => take_all(alloc, ledger, asked),
        Step::Fails(request) => wanted(fails(alloc, ledger, request) == Some(true), request),
        Step::Sound(..) | Step::Wrong(..) => wanted(finds(ledger, step), "an audit"),
        Step::Days(days) => {
            let is_so = matches!(days_of(ledger), Ok(found) if found == *days);
            wanted(is_so, "other days")
        }
        Step::Until(until, days) => {
            let is_so = matches!(days_until(ledger, *until), Ok(found) if found == *days);
            wanted(is_so, "other days of transactions")
        }
        Step::GoesBy(minutes, default) => {
            let is_so = *ledger.zone() == zone(*minutes) && ledger.default_cap() == *default;
            wanted(is_so, "another zone or default")
        }
        Step::GoesByRule(rule) => wanted(*ledger.zone() == zone_by(rule), "another zone"),
        _ => Err("a step of the store"),
    }
}

/// Takes a step of a store that stays one.
fn take_at<S: Alter>(store: &mut Connection<S>, step: &Step) -> Verdict {
    match step {
        Step::Run(text) => wanted(runs(store, text), text),
        Step::Counts(query, number) => wanted(count(store, query) == Some(*number), query),
        _ => Err("no ledger is open"),
    }
}

/// A store after a step that came out so.
fn left<S: Alter + Drop>(store: Connection<S>, verdict: Verdict) -> Held<S> {
    match verdict {
        Ok(()) => Held::Store(store),
        Err(why) => Held::Otherwise(why),
    }
}

/// Takes a step of a store.
fn take_outside<S: Alter + Drop>(alloc: Global, store: Connection<S>, step: &Step) -> Held<S> {
    match step {
        Step::Make(outcome) => judged(make(alloc, store, zone(60)), outcome),
        Step::MakeBy(rule, outcome) => judged(make(alloc, store, zone_by(rule)), outcome),
        Step::Open(minutes, default, outcome) => {
            judged(open(alloc, store, zone(*minutes), *default), outcome)
        }
        Step::OpenBy(rule, default, outcome) => {
            judged(open(alloc, store, zone_by(rule), *default), outcome)
        }
        _ => {
            let mut store = store;
            let verdict = take_at(&mut store, step);
            left(store, verdict)
        }
    }
}

/// Whether a step is one of the store.
fn is_outside(step: &Step) -> bool {
    matches!(
        step,
        Step::Run(_)
            | Step::Counts(..)
            | Step::Make(_)
            | Step::MakeBy(..)
            | Step::Open(..)
            | Step::OpenBy(..)
    )
}

/// Takes one step of a ledger.
fn take_of_ledger<S: Alter + Drop>(alloc: Global, before: SqlLedger<S>, step: &Step) -> Held<S> {
    if is_outside(step) {
        return take_outside(alloc, before.into_connection(), step);
    }
    let mut ledger = before;
    match take_inside(alloc, &mut ledger, step) {
        Ok(()) => Held::Ledger(ledger),
        Err(why) => Held::Otherwise(why),
    }
}

/// Takes one step. After one that came out otherwise none is taken.
fn take_step<S: Alter + Drop>(alloc: Global, before: Held<S>, step: &Step) -> Held<S> {
    match before {
        Held::Ledger(ledger) => take_of_ledger(alloc, ledger, step),
        Held::Store(store) => take_outside(alloc, store, step),
        Held::Otherwise(why) => Held::Otherwise(why),
    }
}

fn verdict_of<S: Alter>(held: &Held<S>) -> Verdict {
    match held {
        Held::Ledger(_) | Held::Store(_) => Ok(()),
        Held::Otherwise(why) => Err(*why),
    }
}

/// Takes steps in turn.
fn play<S: Alter + Drop>(alloc: Global, before: Held<S>, steps: &[Step]) -> Verdict {
    let mut held = before;
    for step in steps {
        held = take_step(alloc, held, step);
    }
    verdict_of(&held)
}

/// Takes requests in turn, where the ledger is taken apart before each, and opened with this
/// default.
pub fn play_opened<S: Alter + Drop>(
    alloc: Global,
    new: SqlLedger<S>,
    default: u32,
    asked: Asked,
) -> Verdict {
    let mut held = Held::Ledger(new);
    for (request, reply) in asked {
        held = take_step(alloc, held, &Step::Open(0, default, Outcome::Ready));
        held = take_step(alloc, held, &Step::Reply(request, reply));
    }
    verdict_of(&held)
}

/// Takes each of these lists of steps from a new store in memory.
pub fn from_store(alloc: Global, cases: &[Case]) -> Result<(), Fail> {
    for (name, steps) in cases {
        let store = Connection::open_in_memory(alloc)?;
        told(alloc, *name, play(alloc, Held::Store(store), steps))?;
    }
    Ok(())
}

/// Takes these steps from a new ledger of that default in memory.
pub fn from_ledger_of(alloc: Global, default: u32, name: &str, steps: &[Step]) -> Result<(), Fail> {
    let ledger = tables(alloc, default)?;
    told(alloc, name, play(alloc, Held::Ledger(ledger), steps))
}

/// Takes each of these lists of steps from a new ledger of default 3 in memory.
pub fn from_ledger(alloc: Global, cases: &[Case]) -> Result<(), Fail> {
    for (name, steps) in cases {
        from_ledger_of(alloc, 3, name, steps)?;
    }
    Ok(())
}
