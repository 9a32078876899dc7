//! Looking out for days that are due to be forgotten.
ghost use Rattle.std.specs.Prelude.{◌≡◌, ◌-◌, ◌*◌, ◌%◌, Some, None, IfOk, IfSome};
ghost use Rattle.std.specs.Duration.{as_nanos};
ghost use Rattle.sqlite.specs.Held.{state};
ghost use Rattle.mq_request.specs.Range.{IsMoment};
ghost use Rattle.mq_store.specs.Soundness.{book_in, HasKept, IsSound};
ghost use Rattle.mq_nights.specs.Due.{IsAhead, IsDue};
ghost use Rattle.mq_nights.specs.Nights.{FindsDue, Looks, Sees};

use crate::due::{DueDays, day_ahead, night_of, what_is_due};
use crate::moments::Moments;
use log::{Log, warn};
use mq_ledger::{Ledger, LedgerFault};
use mq_link::deadline_after;
use mq_store::SqlLedger;
use sqlite::Alter;
use std::fmt::Display;
use std::rt::Clock;
use std::time::{Duration, Instant};

/// The seconds until another attempt, after a fault.
const HOUR: u64 = 3_600;

/// How often it is looked whether it is night, in seconds: at the quarters of an hour of UTC. Most
/// zones are so many of them from it; by an offset of other minutes a night is seen up to a quarter
/// of an hour late.
const QUARTER: u64 = 900;

/// What a lookout sees.
#[derive(Clone, Copy, Debug, PartialEq, Eq)]
pub enum Sight {
    /// There is nothing to do for so long.
    Nothing(Duration),
    /// The days before this one are to be forgotten.
    Before(u32),
}

/// The time until the next quarter of an hour.
fn time_to_quarter(moment: u64) -> Duration
    ensures { as_nanos result ≡ (900 - moment % 900) * 1_000_000_000 }
{
    Duration::from_secs(QUARTER - moment % QUARTER)
}

/// What is due of a ledger that keeps so many days before the one that it goes by, at a moment.
/// Nothing is written.
pub fn due_at<S: Alter>(
    ledger: &mut SqlLedger<S>,
    keep: u32,
    moment: u64,
) -> Result<DueDays, LedgerFault>
    requires { IsMoment moment }
    ensures lent { (ledger.new.zone ≡ ledger.old.zone) × (ledger.new.default ≡ ledger.old.default) }
    ensures kept { HasKept (state S.Store ledger.new.connection)
        → HasKept (state S.Store ledger.old.connection) }
    ensures same { HasKept (state S.Store ledger.new.connection)
        → (state S.Store ledger.new.connection).now ≡ (state S.Store ledger.old.connection).now }
    ensures sound { HasKept (state S.Store ledger.new.connection)
        → IsSound ledger.old.zone ledger.old.default (state S.Store ledger.old.connection)
        → IsSound ledger.new.zone ledger.new.default (state S.Store ledger.new.connection) }
    ensures due { HasKept (state S.Store ledger.new.connection)
        → IsSound ledger.old.zone ledger.old.default (state S.Store ledger.old.connection)
        → IfOk result (IsDue keep moment (book_in ledger.old.zone ledger.old.default
        (state S.Store ledger.old.connection).now)) }
{
    let night = night_of(ledger.zone(), moment);
    let days = ledger.transaction_days(night + 1)?;
    Ok(what_is_due(keep, night, days))
}

/// The newest day on which something was reserved, where it lies more than a day after this
/// moment's. Nothing is written.
fn ahead_at<S: Alter>(ledger: &mut SqlLedger<S>, moment: u64) -> Result<Option<u32>, LedgerFault>
    requires { IsMoment moment }
    ensures lent { (ledger.new.zone ≡ ledger.old.zone) × (ledger.new.default ≡ ledger.old.default) }
    ensures kept { HasKept (state S.Store ledger.new.connection)
        → HasKept (state S.Store ledger.old.connection) }
    ensures same { HasKept (state S.Store ledger.new.connection)
        → (state S.Store ledger.new.connection).now ≡ (state S.Store ledger.old.connection).now }
    ensures sound { HasKept (state S.Store ledger.new.connection)
        → IsSound ledger.old.zone ledger.old.default (state S.Store ledger.old.connection)
        → IsSound ledger.new.zone ledger.new.default (state S.Store ledger.new.connection) }
    ensures ahead { HasKept (state S.Store ledger.new.connection)
        → IsSound ledger.old.zone ledger.old.default (state S.Store ledger.old.connection)
        → IfOk result (IsAhead moment (book_in ledger.old.zone ledger.old.default
        (state S.Store ledger.old.connection).now)) }
{
    let night = night_of(ledger.zone(), moment);
    let reserved = ledger.days()?;
    Ok(day_ahead(night, reserved))
}

/// Logs that something was reserved on a day ahead, and whether days are forgotten nevertheless.
fn log_ahead<G: Log>(log: &G, today: u32, newest: u32, due: DueDays) {
    match due {
        DueDays::Nothing => warn!(
            log;
            "nothing is forgotten: it is day {today}, and something was reserved on day {newest} last"
        ),
        DueDays::NoneBefore(_) | DueDays::Before(_) => warn!(
            log;
            "it is day {today}, and something was reserved on day {newest} last"
        ),
    }
}

/// Logs why it isn't known which days are due.
fn log_fault<S: Alter, G: Log>(log: &G, ledger: &SqlLedger<S>, fault: LedgerFault) {
    match ledger.cause() {
        Some(cause) => log_failed_look(log, &cause),
        None => log_failed_look(log, &fault),
    }
}

/// Logs why it wasn't looked.
fn log_failed_look<G: Log, T: Display>(log: &G, why: &T) {
    warn!(log; "days to be forgotten: {why}; next attempt in an hour");
}

/// What was seen to, for the lookout that comes after a night.
#[derive(Clone, Copy, Debug, PartialEq, Eq)]
pub struct Seen {
    /// The days before this one were forgotten last, or there were none.
    pub first: Option<u32>,
    /// The night in which it was looked last for days ahead.
    pub ahead: Option<u32>,
}

impl Seen {
    /// Nothing was yet.
    pub fn nothing() -> Seen
        ensures { result.first ≡ None }
    {
        Seen {
            first: None,
            ahead: None,
        }
    }
}

/// Looks whether days of a ledger are due to be forgotten: at once, and then at each quarter of an
/// hour, until the days before the first that is kept this night were seen to.
#[derive(Drop)]
pub struct Lookout<'a, C, G> {
    clock: &'a C,
    log: &'a G,
    /// The days that are kept before the one that it goes by.
    keep: u32,
    pub seen: Seen,
    /// When it looks again.
    next: Option<Instant>,
}

impl<'a, C: Clock + Moments, G: Log> Lookout<'a, C, G> {
    /// So many days are kept before the one that it goes by, and these were seen to.
    pub fn new(clock: &'a C, log: &'a G, keep: u32, seen: Seen) -> Lookout<'a, C, G>
        ensures keep { result.keep ≡ keep }
        ensures seen { result.seen ≡ seen }
    {
        Lookout {
            clock,
            log,
            keep,
            seen,
            next: None,
        }
    }

    /// How long it doesn't look yet, where it doesn't.
    fn time_left(&self) -> Option<Duration> {
        let left = self.next?.duration_since(Instant::now(self.clock).ok()?);
        if left.is_zero() { None } else { Some(left) }
    }

    /// It doesn't look for so long.
    pub fn rest(&mut self, time: Duration)
        ensures keep { self.new.keep ≡ self.old.keep }
        ensures seen { self.new.seen ≡ self.old.seen }
    {
        self.next = deadline_after(self.clock, time).ok();
    }

    /// It looks again in an hour, whatever was seen to.
    pub fn rest_an_hour(&mut self) -> Duration
        ensures keep { self.new.keep ≡ self.old.keep }
        ensures again { self.new.seen.first ≡ None }
        ensures hour { as_nanos result ≡ 3_600 * 1_000_000_000 }
    {
        self.seen.first = None;
        let time = Duration::from_secs(HOUR);
        self.rest(time);
        time
    }

    /// There is nothing to do now. It looks again at the next quarter of an hour.
    fn rest_to_quarter(&mut self, moment: u64) -> Duration
        ensures keep { self.new.keep ≡ self.old.keep }
        ensures seen { self.new.seen ≡ self.old.seen }
        ensures quarter { as_nanos result ≡ (900 - moment % 900) * 1_000_000_000 }
    {
        let time = time_to_quarter(moment);
        self.rest(time);
        time
    }

    /// Warns once a night of the newest day with a reserve, where that is ahead.
    fn warn_of_days_ahead<S: Alter>(
        &mut self,
        ledger: &mut SqlLedger<S>,
        moment: u64,
        due: DueDays,
    ) -> Result<(), LedgerFault>
        requires { IsMoment moment }
        ensures keep { self.new.keep ≡ self.old.keep }
        ensures first { self.new.seen.first ≡ self.old.seen.first }
        ensures lent { (ledger.new.zone ≡ ledger.old.zone)
            × (ledger.new.default ≡ ledger.old.default) }
        ensures kept { HasKept (state S.Store ledger.new.connection)
            → HasKept (state S.Store ledger.old.connection) }
        ensures same { HasKept (state S.Store ledger.new.connection)
            → (state S.Store ledger.new.connection).now
            ≡ (state S.Store ledger.old.connection).now }
        ensures sound { HasKept (state S.Store ledger.new.connection)
            → IsSound ledger.old.zone ledger.old.default (state S.Store ledger.old.connection)
            → IsSound ledger.new.zone ledger.new.default (state S.Store ledger.new.connection) }
    {
        let night = night_of(ledger.zone(), moment);
        if self.seen.ahead == Some(night) {
            return Ok(());
        }
        if let Some(newest) = ahead_at(ledger, moment)? {
            log_ahead(self.log, ledger.zone().day_at(moment), newest, due);
        }
        self.seen.ahead = Some(night);
        Ok(())
    }

    /// What is due at this moment. Days ahead are warned of.
    fn find_due<S: Alter>(
        &mut self,
        ledger: &mut SqlLedger<S>,
        moment: u64,
    ) -> Result<DueDays, LedgerFault>
        requires { IsMoment moment }
        ensures keep { self.new.keep ≡ self.old.keep }
        ensures first { self.new.seen.first ≡ self.old.seen.first }
        ensures lent { (ledger.new.zone ≡ ledger.old.zone)
            × (ledger.new.default ≡ ledger.old.default) }
        ensures kept { HasKept (state S.Store ledger.new.connection)
            → HasKept (state S.Store ledger.old.connection) }
        ensures same { HasKept (state S.Store ledger.new.connection)
            → (state S.Store ledger.new.connection).now
            ≡ (state S.Store ledger.old.connection).now }
        ensures sound { HasKept (state S.Store ledger.new.connection)
            → IsSound ledger.old.zone ledger.old.default (state S.Store ledger.old.connection)
            → IsSound ledger.new.zone ledger.new.default (state S.Store ledger.new.connection) }
        ensures due { HasKept (state S.Store ledger.new.connection)
            → IsSound ledger.old.zone ledger.old.default (state S.Store ledger.old.connection)
            → IfOk result (IsDue self.old.keep moment (book_in ledger.old.zone ledger.old.default
            (state S.Store ledger.old.connection).now)) }
    {
        let due = due_at(ledger, self.keep, moment)?;
        self.warn_of_days_ahead(ledger, moment, due)?;
        Ok(due)
    }

    /// Looks at this moment.
    fn look_at<S: Alter>(&mut self, ledger: &mut SqlLedger<S>, moment: u64) -> Sight
        requires { IsMoment moment }
        ensures keep { self.new.keep ≡ self.old.keep }
        ensures lent { (ledger.new.zone ≡ ledger.old.zone)
            × (ledger.new.default ≡ ledger.old.default) }
        ensures kept { HasKept (state S.Store ledger.new.connection)
            → HasKept (state S.Store ledger.old.connection) }
        ensures same { HasKept (state S.Store ledger.new.connection)
            → (state S.Store ledger.new.connection).now
            ≡ (state S.Store ledger.old.connection).now }
        ensures sound { HasKept (state S.Store ledger.new.connection)
            → IsSound ledger.old.zone ledger.old.default (state S.Store ledger.old.connection)
            → IsSound ledger.new.zone ledger.new.default (state S.Store ledger.new.connection) }
        ensures looks { HasKept (state S.Store ledger.new.connection)
            → IsSound ledger.old.zone ledger.old.default (state S.Store ledger.old.connection)
            → Looks self.old.keep moment (book_in ledger.old.zone ledger.old.default
            (state S.Store ledger.old.connection).now)
            self.old.seen.first self.new.seen.first result }
    {
        let night = night_of(ledger.zone(), moment);
        if self.seen.first == Some(night.saturating_sub(self.keep)) {
            return Sight::Nothing(self.rest_to_quarter(moment));
        }
        let due = self.find_due(ledger, moment);
        if let Err(fault) = due {
            log_fault(self.log, ledger, fault);
        }
        self.see(moment, due)
    }

    /// What is seen where this is due. The days before the first that is kept are seen to then, and
    /// not again, whatever comes to them later; but after a fault it looks again in an hour.
    fn see(&mut self, moment: u64, due: Result<DueDays, LedgerFault>) -> Sight
        ensures keep { self.new.keep ≡ self.old.keep }
        ensures sees { Sees moment due self.old.seen.first self.new.seen.first result }
    {
        match due {
            Ok(DueDays::Before(day)) if self.seen.first != Some(day) => {
                self.seen.first = Some(day);
                Sight::Before(day)
            }
            Ok(DueDays::Before(day) | DueDays::NoneBefore(day)) => {
                self.seen.first = Some(day);
                Sight::Nothing(self.rest_to_quarter(moment))
            }
            Ok(DueDays::Nothing) => Sight::Nothing(self.rest_to_quarter(moment)),
            Err(_) => Sight::Nothing(self.rest_an_hour()),
        }
    }

    /// Looks whether days of a ledger are due, unless it is to rest still. Nothing is written.
    ///
    /// Days are due at once, or as a night begins, at 03:00, or with the first transaction of the
    /// day after it: up to a quarter of an hour later. What comes to earlier days after that, from a
    /// host whose clock is slow, stays for another day. After a fault it rests for an hour. A day
    /// ahead is logged, once a night.
    pub fn look<S: Alter>(&mut self, ledger: &mut SqlLedger<S>) -> Sight
        ensures keep { self.new.keep ≡ self.old.keep }
        ensures lent { (ledger.new.zone ≡ ledger.old.zone)
            × (ledger.new.default ≡ ledger.old.default) }
        ensures kept { HasKept (state S.Store ledger.new.connection)
            → HasKept (state S.Store ledger.old.connection) }
        ensures same { HasKept (state S.Store ledger.new.connection)
            → (state S.Store ledger.new.connection).now
            ≡ (state S.Store ledger.old.connection).now }
        ensures sound { HasKept (state S.Store ledger.new.connection)
            → IsSound ledger.old.zone ledger.old.default (state S.Store ledger.old.connection)
            → IsSound ledger.new.zone ledger.new.default (state S.Store ledger.new.connection) }
        ensures due { HasKept (state S.Store ledger.new.connection)
            → IsSound ledger.old.zone ledger.old.default (state S.Store ledger.old.connection)
            → FindsDue C.shows self.old.keep (book_in ledger.old.zone ledger.old.default
            (state S.Store ledger.old.connection).now) result }
    {
        if let Some(left) = self.time_left() {
            return Sight::Nothing(left);
        }
        match self.clock.moment() {
            Some(moment) => self.look_at(ledger, moment),
            None => {
                log_failed_look(self.log, &"no clock");
                Sight::Nothing(self.rest_an_hour())
            }
        }
    }
}
