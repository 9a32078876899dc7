//! A new ledger that takes over what an old one remembers from a day on, while requests come to the
//! old one.

ghost use Rattle.std.specs.Prelude.{◌≡◌, ◌⊎◌, ◌↔◌, ◌+◌, ◌≤◌, length, List, Err, is_some};
ghost use Rattle.std.specs.Prelude.{None, Some, false};
ghost use Rattle.std.specs.Prelude.{IsTrue, IfOk, IfErr, IfSome, OnOk};
ghost use Rattle.sqlite.specs.Held.{state};
ghost use Rattle.sqlite.specs.State.{HasCleanDisk};
ghost use Rattle.sqlite.specs.Steps.{over_memory};
ghost use Rattle.sqlite.specs.Tree.{Trees};
ghost use Rattle.mq_request.specs.Range.{IsAmount};
ghost use Rattle.mq_ledger.specs.declared.entry.Entry.{Entry as AnyEntry};
ghost use Rattle.mq_tables.specs.Making.{has_ledger_table};
ghost use Rattle.mq_store.specs.declared.fault.OpenFault.TheVariants.{NotOurs};
ghost use Rattle.mq_store.specs.Forgetting.{IsFree, IsRemembered};
ghost use Rattle.mq_store.specs.Opening.{IsStop};
ghost use Rattle.mq_store.specs.Renewing.{came_since, GoesAtMost, HasCarried};
ghost use Rattle.mq_store.specs.Soundness.{HasKept, IsSound, book_in};
ghost use Rattle.mq_store.specs.Taking.{HasBook, book_of};

use crate::carry::Terms;
use crate::fault::{OpenRefused, StoreCause, noted};
use crate::laws::tables_mean_their_book;
use crate::ledger::SqlLedger;
use crate::renewal_place::RenewalPlace;
use crate::slice::renew_store;
use mq_ledger::{LedgerFault, Zone};
use sqlite::{Alter, Connection, MemStore};
use std::alloc::Global;

/// A new ledger that takes over what an old one remembers from a day on, some answers at a time,
/// while requests come to the old one.
///
/// What was taken over is never looked at again: requests only add to a history. Once it has all,
/// the new ledger is the one that [`SqlLedger::carry_over`] makes.
#[derive(Drop)]
pub struct Renewal<S: Alter> {
    pub(crate) made: SqlLedger<S>,
    /// It finds the replies again that the old ledger has cleared.
    pub(crate) scratch: SqlLedger<MemStore>,
    /// A day number since 1970-01-01.
    pub(crate) day: u32,
    pub(crate) reached: RenewalPlace,
    /// How many answers the old ledger had when it last went on.
    pub(crate) heard: Option<u64>,
}

impl<S: Alter> Renewal<S> {
    /// Makes the tables of the new ledger, which has taken over nothing yet, in one transaction.
    /// Zone and default are to be those of the old ledger. `day` is a day number since 1970-01-01.
    ///
    /// Refused, the new store has the tables that it had. `NotOurs` comes only where a table of one
    /// of the seven names is there; its other faults are `Memory` and `Store`. A connection within
    /// a transaction is `Store`.
    pub fn begin(
        alloc: Global,
        connection: Connection<S>,
        zone: Zone,
        default: u32,
        day: u32,
    ) -> Result<Renewal<S>, OpenRefused<S>>
        requires in_range { IsAmount default }
        ensures lent { IfOk result (λ r. (r.made.zone ≡ zone) × (r.made.default ≡ default)
            × (r.day ≡ day)) }
        ensures unheard { IfOk result (λ r. r.heard ≡ None) }
        ensures begun { IfOk result (λ r. HasCleanDisk (state S.Store r.made.connection)
            → IsFree (state S.Store connection).now → (H : List AnyEntry)
            → HasCarried zone default day H r.reached (state S.Store r.made.connection).now
            (state over_memory r.scratch.connection).now) }
        ensures ours_ok { IfOk result (λ _. has_ledger_table (state S.Store connection).now.schema
            ≡ false) }
        ensures not_ours { IfErr result (λ e. e.fault ≡ NotOurs
            → IsTrue (has_ledger_table (state S.Store connection).now.schema)) }
        ensures fault { IfErr result (λ e. (e.fault ≡ NotOurs) ⊎ IsStop e.fault) }
        ensures err { IfErr result (λ e. HasCleanDisk (state S.Store e.connection)
            → IsTrue (state S.Store e.connection).is_open
            → (state S.Store e.connection).now ≡ (state S.Store connection).now) }
        ensures kept_ok { IfOk result (λ r. HasKept (state S.Store r.made.connection)
            → HasKept (state S.Store connection)) }
        ensures kept_err { IfErr result (λ e. HasKept (state S.Store e.connection)
            → HasKept (state S.Store connection)) }
    {
        match SqlLedger::in_memory(alloc, zone, default) {
            Ok(scratch) => match SqlLedger::create(alloc, connection, zone, default) {
                Ok(made) => Ok(Renewal {
                    made,
                    scratch,
                    day,
                    reached: RenewalPlace::nothing(),
                    heard: None,
                }),
                Err(refused) => Err(refused),
            },
            Err(fault) => Err(OpenRefused { fault, connection }),
        }
    }

    /// Goes on by so many steps, and one more for each answer that the old ledger got since it last
    /// went on, or to the end where that comes first, in one transaction of the new store: whether
    /// it has then all that the old ledger remembers. A step looks at one answer, which costs about
    /// as much as its request did. The old ledger is read only.
    ///
    /// Before a limit from an earlier day whose reply a retire has cleared, each answer that the
    /// old ledger got before it is a step more, once in all, and needs the memory of a ledger in
    /// memory.
    ///
    /// The fault is `Memory` or `Store`, of either store, and [`Renewal::cause`] says why. The new
    /// ledger is then of no use, and the old one goes on.
    pub fn go_on<T: Alter>(
        &mut self,
        old: &mut SqlLedger<T>,
        count: u64,
    ) -> Result<bool, LedgerFault>
        ensures lent { (self.new.made.zone ≡ self.old.made.zone)
            × (self.new.made.default ≡ self.old.made.default)
            × (self.new.day ≡ self.old.day) }
        ensures noted { (result ≡ Err LedgerFault.Store) ↔ IsTrue (is_some self.new.made.cause) }
        ensures more { IfOk result (λ is_through. IsTrue is_through
            ⊎ self.old.reached.place + self.old.reached.followed + count
            ≤ self.new.reached.place + self.new.reached.followed) }
        ensures most { IfOk result (λ _. IfSome self.new.heard (λ arrivals.
            GoesAtMost (count + came_since self.old.heard arrivals)
            self.old.reached self.new.reached)) }
        ensures heard { HasKept (state T.Store old.new.connection)
            → IfOk result (λ _. (H : List AnyEntry)
            → HasBook (book_of old.old.zone old.old.default H)
            (state T.Store old.old.connection).now
            → self.new.heard ≡ Some (length H)) }
        ensures kept { HasKept (state S.Store self.new.made.connection)
            → HasKept (state S.Store self.old.made.connection) }

        // What was taken over of the old history goes on.
        ensures renews { HasKept (state T.Store old.new.connection)
            → HasKept (state S.Store self.new.made.connection)
            → OnOk result ((H : List AnyEntry)
            → HasBook (book_of old.old.zone old.old.default H)
            (state T.Store old.old.connection).now
            → HasCarried old.old.zone old.old.default self.old.day H self.old.reached
            (state S.Store self.old.made.connection).now
            (state over_memory self.old.scratch.connection).now
            → HasCarried old.old.zone old.old.default self.old.day H self.new.reached
            (state S.Store self.new.made.connection).now
            (state over_memory self.new.scratch.connection).now) }

        // At the end it is a sound ledger whose history is exactly what is remembered of the old
        // one's, and a crash leaves the whole of it.
        ensures remembered { IfOk result (λ is_through. IsTrue is_through
            → HasKept (state T.Store old.new.connection)
            → HasKept (state S.Store self.new.made.connection)
            → IsSound old.old.zone old.old.default (state T.Store old.old.connection)
            → HasCarried old.old.zone old.old.default self.old.day
            (book_in old.old.zone old.old.default (state T.Store old.old.connection).now).history
            self.old.reached
            (state S.Store self.old.made.connection).now
            (state over_memory self.old.scratch.connection).now
            → IsRemembered old.old.zone old.old.default self.old.day
            (state T.Store old.old.connection).now
            (state S.Store self.new.made.connection)) }
        ensures crash_ok { HasCleanDisk (state S.Store self.new.made.connection)
            → OnOk result ((db : Trees)
            → (state S.Store self.new.made.connection).may_leave db
            → db ≡ (state S.Store self.new.made.connection).now.trees) }

        // The old one is as it was, and a crash leaves of it what a crash before could leave.
        ensures old_lent { (old.new.zone ≡ old.old.zone) × (old.new.default ≡ old.old.default)
            × (old.new.found ≡ old.old.found) × (old.new.cause ≡ old.old.cause) }
        ensures old_kept { HasKept (state T.Store old.new.connection)
            → HasKept (state T.Store old.old.connection) }
        ensures old_same { HasKept (state T.Store old.new.connection)
            → (state T.Store old.new.connection).now ≡ (state T.Store old.old.connection).now }
        ensures old_sound { HasKept (state T.Store old.new.connection)
            → IsSound old.old.zone old.old.default (state T.Store old.old.connection)
            → IsSound old.new.zone old.new.default (state T.Store old.new.connection) }
        ensures old_crash { HasCleanDisk (state T.Store old.new.connection) → (db : Trees)
            → (state T.Store old.new.connection).may_leave db
            → (state T.Store old.old.connection).may_leave db }
    {
        tables_mean_their_book();
        let terms = Terms {
            zone: old.zone,
            default: old.default,
            day: self.day,
        };
        self.made.cause = None;
        let slice = match renew_store(
            self.made.alloc,
            &mut old.connection,
            &mut self.made.connection,
            &mut self.scratch.connection,
            &terms,
            self.reached,
            self.heard,
            count,
        ) {
            Ok(slice) => slice,
            Err(refused) => return Err(noted(&mut self.made.cause, refused)),
        };
        self.reached = slice.reached;
        self.heard = Some(slice.arrivals);
        Ok(slice.is_through)
    }

    /// Why a store failed, where the last `go_on` answered `LedgerFault::Store`; else `None`.
    pub fn cause(&self) -> Option<StoreCause>
        ensures { result ≡ self.now.made.cause }
    {
        self.made.cause()
    }

    /// The day from which on it takes over what the old ledger remembers: a day number since
    /// 1970-01-01.
    pub fn day(&self) -> u32
        ensures { result ≡ self.now.day }
    {
        self.day
    }

    /// The new ledger, with what it has taken over.
    pub fn into_ledger(self) -> SqlLedger<S>
        ensures { result ≡ self.made }
    {
        let Renewal { made, .. } = self;
        made
    }
}
