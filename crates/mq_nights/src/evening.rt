//! A renewal that begins once days are due, beside the requests to the old ledger.
ghost use Rattle.std.specs.Prelude.{◌≡◌, ◌⊎◌, ◌+◌, length, List, None, Some, option_map};
ghost use Rattle.std.specs.Prelude.{IfOk, IfSome, IsTrue, MatchOption, OnOk};
ghost use Rattle.std.specs.Duration.{as_nanos};
ghost use Rattle.sqlite.specs.Held.{state};
ghost use Rattle.sqlite.specs.Steps.{over_memory};
ghost use Rattle.mq_request.specs.Range.{IsAmount};
ghost use Rattle.mq_ledger.specs.declared.entry.Entry.{Entry as AnyEntry};
ghost use Rattle.mq_store.specs.Renewing.{came_since, GoesAtMost};
ghost use Rattle.mq_store.specs.Soundness.{book_in, HasKept, IsSound};
ghost use Rattle.mq_store.specs.Taking.{book_of};
ghost use Rattle.mq_connections.specs.Waits.{idle_time, shorter};
ghost use Rattle.mq_nights.specs.Nights.{EndsNight, FindsDue, FitsNight, HasRenewed, IsUnderWay};
ghost use Rattle.mq_nights.specs.Nights.{Rests, RestsAnHour};
ghost use Rattle.mq_chore.specs.Choring.{Fitted, HasCome};

use crate::lookout::{Lookout, Seen, Sight};
use crate::moments::Moments;
use crate::parts::Parts;
use crate::terms::NightTerms;
use log::{Log, info, warn};
use mq_chore::Piece;
use mq_ledger::{Ledger, LedgerFault, Zone};
use mq_server::laws::more_deliveries;
use mq_store::{OpenFault, OpenRefused, Renewal, SqlLedger, arrivals_leave_what_was_taken_over};
use sqlite::Alter;
use std::alloc::Global;
use std::fmt::Display;
use std::marker::PhantomData;
use std::rt::Clock;
use std::time::{Duration, Instant};

/// How many steps a piece has, beside one for each answer that the old ledger got since the last
/// piece. Between few requests a piece costs one that comes meanwhile at most 10 ms; after many of
/// them it takes about as long again as they did.
const STEPS: u64 = 32;

/// Begins to take over what a ledger of this zone and default remembers from a day on, into a new
/// store. Why it doesn't is logged.
fn begin_renewal<N: Alter + Drop, P: Parts<N>, G: Log>(
    alloc: Global,
    log: &G,
    parts: &mut P,
    zone: Zone,
    default: u32,
    day: u32,
) -> Option<Renewal<N>>
    requires { IsAmount default }
    ensures lent { IfSome result (λ r. (r.made.zone ≡ zone) × (r.made.default ≡ default)
        × (r.day ≡ day)) }
    ensures begun { IfSome result (λ r. P.is_fresh → (H : List AnyEntry) →
        IsUnderWay (book_of zone default H) day r.reached (state N.Store r.made.connection)
        (state over_memory r.scratch.connection)) }
{
    let connection = match parts.part() {
        Ok(connection) => connection,
        Err(fault) => {
            log_stay(log, day, &fault);
            return None;
        }
    };
    match Renewal::begin(alloc, connection, zone, default, day) {
        Ok(renewal) => Some(renewal),
        Err(refused) => {
            log_refused(log, &fault_of(refused), day);
            parts.discard();
            None
        }
    }
}

/// Why a store was refused, whose connection is let go.
fn fault_of<N: Alter + Drop>(refused: OpenRefused<N>) -> OpenFault
    ensures { result ≡ refused.fault }
{
    refused.fault
}

/// Logs why a renewal can't begin: of a store that failed, the cause.
fn log_refused<G: Log>(log: &G, fault: &OpenFault, day: u32) {
    match fault {
        OpenFault::Store(cause) => log_stay(log, day, cause),
        fault => log_stay(log, day, fault),
    }
}

/// Logs why the days before one stay for another hour.
fn log_stay<G: Log, T: Display>(log: &G, day: u32, why: &T) {
    warn!(log; "days before {day} stay: {why}; next attempt in an hour");
}

/// Goes on with a renewal: whether it is through. Why it can't go on is logged.
fn renew<N: Alter, S: Alter, G: Log>(
    log: &G,
    renewal: &mut Renewal<N>,
    ledger: &mut SqlLedger<S>,
) -> Result<bool, LedgerFault>
    ensures lent { (renewal.new.made.zone ≡ renewal.old.made.zone)
        × (renewal.new.made.default ≡ renewal.old.made.default)
        × (renewal.new.day ≡ renewal.old.day) }
    ensures old_lent { (ledger.new.zone ≡ ledger.old.zone)
        × (ledger.new.default ≡ ledger.old.default) }
    ensures old_kept { HasKept (state S.Store ledger.new.connection)
        → HasKept (state S.Store ledger.old.connection) }
    ensures old_same { HasKept (state S.Store ledger.new.connection)
        → (state S.Store ledger.new.connection).now ≡ (state S.Store ledger.old.connection).now }
    ensures old_sound { HasKept (state S.Store ledger.new.connection)
        → IsSound ledger.old.zone ledger.old.default (state S.Store ledger.old.connection)
        → IsSound ledger.new.zone ledger.new.default (state S.Store ledger.new.connection) }
    ensures under_way { HasKept (state S.Store ledger.new.connection)
        → IsSound ledger.old.zone ledger.old.default (state S.Store ledger.old.connection)
        → OnOk result (IsUnderWay (book_in ledger.old.zone ledger.old.default
        (state S.Store ledger.old.connection).now)
        renewal.old.day renewal.old.reached (state N.Store renewal.old.made.connection)
        (state over_memory renewal.old.scratch.connection)
        → IsUnderWay (book_in ledger.new.zone ledger.new.default
        (state S.Store ledger.new.connection).now)
        renewal.new.day renewal.new.reached (state N.Store renewal.new.made.connection)
        (state over_memory renewal.new.scratch.connection)) }
    ensures slice { IfOk result (λ _. IfSome renewal.new.heard (λ arrivals.
        GoesAtMost (32 + came_since renewal.old.heard arrivals)
        renewal.old.reached renewal.new.reached)) }
    ensures heard { HasKept (state S.Store ledger.new.connection)
        → IsSound ledger.old.zone ledger.old.default (state S.Store ledger.old.connection)
        → IfOk result (λ _. renewal.new.heard ≡ Some (length (book_in ledger.old.zone
        ledger.old.default (state S.Store ledger.old.connection).now).history)) }
    ensures through { HasKept (state S.Store ledger.new.connection)
        → IsSound ledger.old.zone ledger.old.default (state S.Store ledger.old.connection)
        → IfOk result (λ is_through. IsTrue is_through
        → IsUnderWay (book_in ledger.old.zone ledger.old.default
        (state S.Store ledger.old.connection).now)
        renewal.old.day renewal.old.reached (state N.Store renewal.old.made.connection)
        (state over_memory renewal.old.scratch.connection)
        → HasRenewed (book_in ledger.new.zone ledger.new.default
        (state S.Store ledger.new.connection).now)
        renewal.new.day (state N.Store renewal.new.made.connection)) }
{
    match renewal.go_on(ledger, STEPS) {
        Ok(is_through) => Ok(is_through),
        Err(fault) => {
            log_fault(log, renewal, fault);
            Err(fault)
        }
    }
}

/// Logs why a renewal can't go on.
fn log_fault<N: Alter, G: Log>(log: &G, renewal: &Renewal<N>, fault: LedgerFault) {
    let day = renewal.day();
    match renewal.cause() {
        Some(cause) => log_stay(log, day, &cause),
        None => log_stay(log, day, &fault),
    }
}

/// A renewal beside the requests to the old ledger, which begins once days are due to be forgotten.
/// Where a store fails the renewal ends, not the serving, and another one begins an hour later.
#[derive(Drop)]
pub struct Evening<'a, C, G, N: Alter, P, K> {
    clock: &'a C,
    log: &'a G,
    alloc: Global,
    lookout: Lookout<'a, C, G>,
    parts: P,
    renewal: Option<Renewal<N>>,
    /// When that began.
    began: Option<Instant>,
    terms: PhantomData<K>,
}

/// A new ledger, which takes over what the old one remembers from a day on: exactly that, once its
/// chore is done.
#[derive(Drop)]
pub struct RenewedLedger<N: Alter> {
    pub ledger: SqlLedger<N>,
    /// That day: days since 1970-01-01, by the ledger's zone.
    pub day: u32,
    /// When its renewal began, where the clock could be read.
    pub began: Option<Instant>,
    /// What was seen to: that day among it.
    pub seen: Seen,
}

impl<'a, C, G: Log, N: Alter + Drop, P: Parts<N> + Drop, K: NightTerms> Evening<'a, C, G, N, P, K>
where
    C: Clock + Moments,
{
    /// Nothing is renewed yet. So many days before the one that it goes by are kept, 1 to 366, and
    /// these were seen to.
    pub fn new(
        clock: &'a C,
        log: &'a G,
        alloc: Global,
        keep: u32,
        seen: Seen,
        parts: P,
    ) -> Evening<'a, C, G, N, P, K>
        ensures nothing { result.renewal ≡ None }
        ensures keep { result.lookout.keep ≡ keep }
    {
        Evening {
            clock,
            log,
            alloc,
            lookout: Lookout::new(clock, log, keep, seen),
            parts,
            renewal: None,
            began: None,
            terms: PhantomData,
        }
    }

    /// The new ledger, where a renewal has begun, whether it is through or not.
    pub fn into_renewed(self) -> Option<RenewedLedger<N>>
        ensures made { MatchOption self.entry.renewal (result ≡ None)
            (λ r. IfSome result (λ n. (n.ledger ≡ r.made) × (n.day ≡ r.day))) }
        ensures seen { IfSome result (λ n. n.seen ≡ self.entry.lookout.seen) }
    {
        let Evening {
            clock: _,
            log: _,
            alloc: _,
            lookout,
            parts: _,
            renewal,
            began,
            terms: _,
        } = self;
        let renewal = renewal?;
        let day = renewal.day();
        let ledger = renewal.into_ledger();
        Some(RenewedLedger {
            ledger,
            day,
            began,
            seen: lookout.seen,
        })
    }

    /// It looks again in an hour, whatever was seen to.
    fn rest_an_hour(&mut self) -> Piece
        ensures rests { RestsAnHour self.new.lookout.seen.first result }
        ensures keep { self.new.lookout.keep ≡ self.old.lookout.keep }
        ensures renewal { self.new.renewal ≡ self.old.renewal }
    {
        Piece::Later(self.lookout.rest_an_hour())
    }

    /// Gives a renewal up that failed. Another one may begin in an hour.
    fn give_up(&mut self) -> Piece
        ensures gone { self.new.renewal ≡ None }
        ensures rests { RestsAnHour self.new.lookout.seen.first result }
        ensures keep { self.new.lookout.keep ≡ self.old.lookout.keep }
    {
        self.renewal = None;
        self.parts.discard();
        self.rest_an_hour()
    }

    /// Looks after the disk, once a piece was done, and gives a renewal up for which there is too
    /// little room: another one may begin in an hour. Says what is wanted next.
    pub(crate) fn look_after_disk(&mut self, piece: Piece) -> Piece
        ensures done { result ≡ Piece.Done → piece ≡ Piece.Done }
        ensures renewal { (self.new.renewal ≡ None) ⊎ (self.new.renewal ≡ self.old.renewal) }
        ensures keep { self.new.lookout.keep ≡ self.old.lookout.keep }
    {
        let look = self.parts.look(self.renewal.is_some());
        match &self.renewal {
            Some(renewal) if look.is_scarce => {
                log_stay(self.log, renewal.day(), &"too little room on the disk");
            }
            _ => return within(look.next, piece),
        }
        within(look.next, self.give_up())
    }

    /// Begins a renewal of a ledger of this zone and default.
    fn begin(&mut self, zone: Zone, default: u32, day: u32) -> Piece
        requires { IsAmount default }
        ensures more { result ≡ Piece.Done → ⊥ }
        ensures rests { self.new.renewal ≡ None → RestsAnHour self.new.lookout.seen.first result }
        ensures keep { self.new.lookout.keep ≡ self.old.lookout.keep }
        ensures lent { IfSome self.new.renewal (λ r. (r.made.zone ≡ zone)
            × (r.made.default ≡ default) × (r.day ≡ day)) }
        ensures begun { IfSome self.new.renewal (λ r. P.is_fresh → (H : List AnyEntry) →
            IsUnderWay (book_of zone default H) r.day r.reached (state N.Store r.made.connection)
            (state over_memory r.scratch.connection)) }
    {
        self.renewal = begin_renewal(self.alloc, self.log, &mut self.parts, zone, default, day);
        if self.renewal.is_none() {
            return self.rest_an_hour();
        }
        info!(self.log; "forgetting the days before {day}");
        self.began = Instant::now(self.clock).ok();
        Piece::More
    }

    /// Looks whether days are due, and begins a renewal where they are.
    fn look<S: Alter>(&mut self, ledger: &mut SqlLedger<S>) -> Piece
        requires { self.old.renewal ≡ None }
        ensures more { result ≡ Piece.Done → ⊥ }
        ensures rests { self.new.renewal ≡ None → Rests result }
        ensures keep { self.new.lookout.keep ≡ self.old.lookout.keep }
        ensures old_lent { (ledger.new.zone ≡ ledger.old.zone)
            × (ledger.new.default ≡ ledger.old.default) }
        ensures old_kept { HasKept (state S.Store ledger.new.connection)
            → HasKept (state S.Store ledger.old.connection) }
        ensures old_same { HasKept (state S.Store ledger.new.connection)
            → (state S.Store ledger.new.connection).now
            ≡ (state S.Store ledger.old.connection).now }
        ensures old_sound { HasKept (state S.Store ledger.new.connection)
            → IsSound ledger.old.zone ledger.old.default (state S.Store ledger.old.connection)
            → IsSound ledger.new.zone ledger.new.default (state S.Store ledger.new.connection) }
        ensures due { HasKept (state S.Store ledger.new.connection)
            → IsSound ledger.old.zone ledger.old.default (state S.Store ledger.old.connection)
            → IfSome self.new.renewal (λ r. FindsDue C.shows self.old.lookout.keep
            (book_in ledger.old.zone ledger.old.default
            (state S.Store ledger.old.connection).now) (Sight.Before r.day)) }
        ensures lent { IfSome self.new.renewal (λ r. (r.made.zone ≡ ledger.new.zone)
            × (r.made.default ≡ ledger.new.default)) }
        ensures begun { IfSome self.new.renewal (λ r. P.is_fresh → (H : List AnyEntry) →
            IsUnderWay (book_of ledger.new.zone ledger.new.default H) r.day r.reached
            (state N.Store r.made.connection) (state over_memory r.scratch.connection)) }
    {
        match self.lookout.look(ledger) {
            Sight::Nothing(time) => Piece::Later(time),
            Sight::Before(day) => self.begin(*ledger.zone(), ledger.default_cap(), day),
        }
    }

    /// Looks whether days are due, or goes on with the renewal. Where one failed, or couldn't begin,
    /// another one may begin in an hour.
    pub(crate) fn go_on<S: Alter>(&mut self, ledger: &mut SqlLedger<S>) -> Piece
        ensures old_lent { (ledger.new.zone ≡ ledger.old.zone)
            × (ledger.new.default ≡ ledger.old.default) }
        ensures old_kept { HasKept (state S.Store ledger.new.connection)
            → HasKept (state S.Store ledger.old.connection) }
        ensures old_same { HasKept (state S.Store ledger.new.connection)
            → (state S.Store ledger.new.connection).now
            ≡ (state S.Store ledger.old.connection).now }
        ensures old_sound { HasKept (state S.Store ledger.new.connection)
            → IsSound ledger.old.zone ledger.old.default (state S.Store ledger.old.connection)
            → IsSound ledger.new.zone ledger.new.default (state S.Store ledger.new.connection) }
        ensures rests { self.new.renewal ≡ None
            → MatchOption self.old.renewal (Rests result)
            (λ _. RestsAnHour self.new.lookout.seen.first result) }

        // What was done so far fits what the ledger means, whatever came to it since.
        ensures fits { HasKept (state S.Store ledger.new.connection)
            → IsSound ledger.old.zone ledger.old.default (state S.Store ledger.old.connection)
            → Fitted (λ b. (self.old.lookout.keep ≡ K.keep) × HasCome K.begun b
            × IfSome self.old.renewal (λ r. FitsNight P.is_fresh C.shows K.keep K.begun b
            r.made.zone r.made.default r.day r.reached (state N.Store r.made.connection)
            (state over_memory r.scratch.connection)))
            (book_in ledger.old.zone ledger.old.default (state S.Store ledger.old.connection).now)
            → (let b = book_in ledger.new.zone ledger.new.default
            (state S.Store ledger.new.connection).now in
            (self.new.lookout.keep ≡ K.keep) × HasCome K.begun b
            × IfSome self.new.renewal (λ r. FitsNight P.is_fresh C.shows K.keep K.begun b
            r.made.zone r.made.default r.day r.reached (state N.Store r.made.connection)
            (state over_memory r.scratch.connection))) }
        ensures done { HasKept (state S.Store ledger.new.connection)
            → IsSound ledger.old.zone ledger.old.default (state S.Store ledger.old.connection)
            → Fitted (λ b. (self.old.lookout.keep ≡ K.keep) × HasCome K.begun b
            × IfSome self.old.renewal (λ r. FitsNight P.is_fresh C.shows K.keep K.begun b
            r.made.zone r.made.default r.day r.reached (state N.Store r.made.connection)
            (state over_memory r.scratch.connection)))
            (book_in ledger.old.zone ledger.old.default (state S.Store ledger.old.connection).now)
            → result ≡ Piece.Done
            → MatchOption self.new.renewal ⊥ (λ r. EndsNight P.is_fresh C.shows K.keep K.begun
            (book_in ledger.new.zone ledger.new.default (state S.Store ledger.new.connection).now)
            r.made.zone r.made.default r.day (state N.Store r.made.connection)) }
    {
        arrivals_leave_what_was_taken_over();
        more_deliveries();
        let Some(renewal) = &mut self.renewal else {
            return self.look(ledger);
        };
        match renew(self.log, renewal, ledger) {
            Ok(is_through) => piece_of(is_through),
            Err(_) => self.give_up(),
        }
    }
}

/// What a renewal wants next.
fn piece_of(is_through: bool) -> Piece
    ensures { result ≡ Piece.Done → IsTrue is_through }
{
    if is_through { Piece::Done } else { Piece::More }
}

/// What is wanted after a piece, and at the latest after so long.
fn within(time: Duration, piece: Piece) -> Piece
    ensures done { result ≡ Piece.Done → piece ≡ Piece.Done }
    ensures time { idle_time result ≡ shorter (idle_time piece) (option_map as_nanos (Some time)) }
{
    match piece {
        Piece::Later(other) if other <= time => Piece::Later(other),
        Piece::Later(_) | Piece::Nothing => Piece::Later(time),
        Piece::More | Piece::Done => piece,
    }
}
