//! The ledger in tables of a store: how it is made and opened, and what it answers.

ghost use Rattle.std.specs.Prelude.{◌≡◌, ◌⊎◌, ◌↔◌, ℕ, Option, None, Err, is_some, List, [], ◌∷◌};
ghost use Rattle.std.specs.Prelude.{◌++◌, length, All, false, IsTrue, IfOk, IfErr, OnOk, OnErr};
ghost use Rattle.sqlite.specs.Held.{state};
ghost use Rattle.sqlite.specs.State.{HasCleanDisk};
ghost use Rattle.sqlite.specs.Tree.{Trees};
ghost use Rattle.mq_request.specs.Range.{IsAmount, IsRequest, IsReply};
ghost use Rattle.mq_ledger.specs.Answer.{build, history_of, replies_after, reply};
ghost use Rattle.mq_ledger.specs.Arrivals.{first};
ghost use Rattle.mq_ledger.specs.Day.{IsZone, day_of};
ghost use Rattle.mq_ledger.specs.History.{requests};
ghost use Rattle.mq_ledger.specs.Legal.{Book};
ghost use Rattle.mq_ledger.specs.declared.entry.Entry.{Entry as AnyEntry};
ghost use Rattle.mq_tables.specs.Making.{has_ledger_table, AreUnnamed, HasCounters, IsMadeOver};
ghost use Rattle.mq_tables.specs.Making.{AreMadeOver};
ghost use Rattle.mq_tables.specs.Reading.{Spares};
ghost use Rattle.mq_tables.specs.Settings.{SettingRow};
ghost use Rattle.mq_store.specs.Auditing.{AreCounted, IsAuditIn, IsRightAnswer};
ghost use Rattle.mq_store.specs.Causes.{IsCauseOver};
ghost use Rattle.mq_store.specs.Crash.{LeavesNew, LeavesOld, LeavesBy, AreApplied, FindsOnly};
ghost use Rattle.mq_store.specs.Crash.{FindsNew, FindsEither, FindsOpened};
ghost use Rattle.mq_store.specs.Opening.{made_with, known_version, within_transaction};
ghost use Rattle.mq_store.specs.Opening.{HasSettings, IsFound, IsFoundOf, IsStop, Opens, Refuses};
ghost use Rattle.mq_store.specs.Soundness.{book_in, HasKept, HasStored, IsSound, IsNew, MeansBook};
ghost use Rattle.mq_store.specs.Soundness.{IsOpened};
ghost use Rattle.mq_store.specs.Taking.{HasBook, book_of};
ghost use Rattle.mq_store.specs.Together.{AreAllApplied, FindsAll, FindsAllOrNone, LeavesAll};
ghost use Rattle.mq_store.specs.declared.fault.OpenFault.TheVariants.{NotOurs};

use crate::apply::apply;
use crate::auditing::{RowCounts, audit_store};
use crate::counting::count_store;
use crate::fault::{
    OpenFault, OpenRefused, StoreCause, create_fault, noted, noted_first, within_transaction,
};
use crate::laws::{books_are_right, later_arrivals_add_nothing, tables_mean_their_book};
use crate::opening::open_store;
use crate::together::apply_all;
use mq_ledger::{Ledger, LedgerFault, Zone};
use mq_request::{Reply, Request};
use mq_rows::Audit;
use mq_tables::create::make_ledger;
use mq_tables::laws::trees_have_one_schema;
use mq_tables::names::has_ledger_table;
use mq_tables::setting::NewSetting;
use sqlite::{Alter, Connection};
use std::alloc::Global;
use std::marker::Model;

/// A ledger in seven tables of a store, which may hold others too.
#[derive(Drop)]
pub struct SqlLedger<S: Alter> {
    pub(crate) alloc: Global,
    pub(crate) connection: Connection<S>,
    pub(crate) zone: Zone,
    /// The limit of a login that has none for a day: 0 to 1,000,000.
    pub(crate) default: u32,
    /// The rows that were counted as it was opened.
    pub(crate) found: RowCounts,
    /// Why the last call answered that the store failed, if it did.
    pub(crate) cause: Option<StoreCause>,
}

impl<S: Alter> Model for SqlLedger<S> {
    ghost use Rattle.mq_store.specs.View.{LedgerView, view_code, IsReady};

    ghost Value = { LedgerView S };

    ghost coded = { view_code S.code };

    ghost view = { λ l. record {
      connection = l.connection;
      zone = l.zone;
      default = l.default;
      found = l.found;
      cause = l.cause;
    } };

    ghost invariant = { λ l. IsReady (record {
      connection = l.connection;
      zone = l.zone;
      default = l.default;
      found = l.found;
      cause = l.cause;
    }) };
}

/// What the tables are made with.
pub(crate) fn new_setting(zone: Zone, default: u32) -> NewSetting
    ensures value { result ≡ made_with zone default }
    ensures in_range { IsZone zone }
{
    // (its clause says that a zone is in range)
    let _minutes = zone.minutes();
    NewSetting { zone, cap: default }
}

impl<S: Alter> SqlLedger<S> {
    /// Makes the tables of a ledger that has applied nothing, and its index where nothing has that
    /// name, in one transaction, over whatever the store holds. The default is the limit of a login
    /// that has none for a day: 0 to 1,000,000.
    ///
    /// Refused, the store has the tables that it had. `NotOurs` comes exactly where a table of one
    /// of the seven names is there; its other faults are `Memory` and `Store`. A connection within
    /// a transaction is `Store`.
    pub fn create(
        alloc: Global,
        connection: Connection<S>,
        zone: Zone,
        default: u32,
    ) -> Result<SqlLedger<S>, OpenRefused<S>>
        requires in_range { IsAmount default }
        ensures lent { IfOk result (λ l. (l.zone ≡ zone) × (l.default ≡ default)) }
        ensures counts { IfOk result (λ l. (l.found.days ≡ 0) × (l.found.transactions ≡ 0)) }
        ensures uncaused { IfOk result (λ l. l.cause ≡ None) }
        ensures made { IfOk result (λ l. HasCleanDisk (state S.Store l.connection)
            → IsMadeOver (made_with zone default) (state S.Store connection).now
            (state S.Store l.connection).now) }
        ensures open { IfOk result (λ l. HasCleanDisk (state S.Store l.connection)
            → IsTrue (state S.Store l.connection).is_open) }

        // It is a sound ledger of the empty history, where no foreign key that was there names a
        // table of ours.
        ensures sound { IfOk result (λ l. HasCleanDisk (state S.Store l.connection)
            → HasCounters (state S.Store connection) → AreUnnamed
            (state S.Store connection).now.schema
            → IsNew zone default (state S.Store l.connection)) }
        ensures not_ours { IfErr result (λ e. e.fault ≡ NotOurs
            → IsTrue (has_ledger_table (state S.Store connection).now.schema)) }
        ensures not_ours_same { IfErr result (λ e. e.fault ≡ NotOurs → e.connection ≡ connection) }
        ensures ours_ok { IfOk result (λ _. has_ledger_table (state S.Store connection).now.schema
            ≡ false) }
        ensures ours_err { IfErr result (λ e. connection.in_transaction ≡ false
            → IsTrue (has_ledger_table (state S.Store connection).now.schema) → e.fault ≡ NotOurs) }
        ensures err { IfErr result (λ e. HasCleanDisk (state S.Store e.connection)
            → IsTrue (state S.Store e.connection).is_open
            → (state S.Store e.connection).now ≡ (state S.Store connection).now) }

        ensures fault { IfErr result (λ e. (e.fault ≡ NotOurs) ⊎ IsStop e.fault) }

        // Kept at the end, it was kept at the entry.
        ensures kept_ok { IfOk result (λ l. HasKept (state S.Store l.connection)
            → HasKept (state S.Store connection)) }
        ensures kept_err { IfErr result (λ e. HasKept (state S.Store e.connection)
            → HasKept (state S.Store connection)) }

        // The connection is outside a transaction where it was lent so, and a ledger's always is.
        ensures autocommit_ok { IfOk result (λ l. (connection.in_transaction ≡ false)
            × (l.connection.in_transaction ≡ false)) }
        ensures autocommit_err { IfErr result (λ e. e.connection.in_transaction
            ≡ connection.in_transaction) }
        ensures within { IfErr result (λ e. IsTrue connection.in_transaction
            → (e.fault ≡ within_transaction) × (e.connection ≡ connection)) }

        // What an open after a crash may find: all tables of the ledger, or none of them.
        ensures crash_ok { IfOk result (λ l. HasCleanDisk (state S.Store l.connection)
            → (db : Trees)
            → (state S.Store l.connection).may_leave db
            → db ≡ (state S.Store l.connection).now.trees) }
        ensures crash_err { IfErr result (λ e. HasCleanDisk (state S.Store e.connection)
            → (db : Trees)
            → (state S.Store e.connection).may_leave db → (state S.Store connection).may_leave db
            ⊎ AreMadeOver (made_with zone default) (state S.Store connection).now db) }

        // What it does find, as a sound database: the rows of the empty history; after a fault all
        // tables of the ledger, or trees that could be found before.
        ensures found_ok { IfOk result (λ l. HasCleanDisk (state S.Store l.connection)
            → HasCounters (state S.Store connection) → AreUnnamed
            (state S.Store connection).now.schema
            → FindsOnly (state S.Store l.connection) (HasBook (book_of zone default []))) }
        ensures found_err { IfErr result (λ e. HasCleanDisk (state S.Store e.connection)
            → FindsOnly (state S.Store e.connection) (λ db.
            (state S.Store connection).may_leave db.trees
            ⊎ IsMadeOver (made_with zone default) (state S.Store connection).now db)) }
    {
        trees_have_one_schema();
        let mut connection = connection;
        if !connection.is_autocommit() {
            let fault = within_transaction();
            return Err(OpenRefused { fault, connection });
        }
        if has_ledger_table(connection.schema()) {
            let fault = OpenFault::NotOurs;
            return Err(OpenRefused { fault, connection });
        }
        connection.set_step_limit(None);
        let made_with = new_setting(zone, default);
        match make_ledger(&mut connection, &made_with) {
            Ok(()) => Ok(SqlLedger {
                alloc,
                connection,
                zone,
                default,
                found: RowCounts {
                    days: 0,
                    transactions: 0,
                },
                cause: None,
            }),
            Err(error) => Err(OpenRefused {
                fault: create_fault(&error),
                connection,
            }),
        }
    }

    /// Opens the ledger that a store holds, of any version. One of an older version is given the
    /// current one, and each is given the index where nothing has its name, in one transaction;
    /// else nothing is written. The default is 0 to 1,000,000.
    ///
    /// The faults for content come in this order: `NotOurs`, `ZoneDiffers`, `DefaultDiffers`, and
    /// after these the tables are audited as by [`SqlLedger::audit`], which reads all rows of three
    /// of them, one by one: `Damaged` with the least pair that isn't right. `Memory` and `Store`
    /// come wherever they stop the reading, or the writing. A connection within a transaction is
    /// `Store`. Refused, the store has the rows that it had.
    ///
    /// So where zone and default agree, a store that a ledger left is refused by `Memory` and
    /// `Store` alone.
    pub fn open(
        alloc: Global,
        connection: Connection<S>,
        zone: Zone,
        default: u32,
    ) -> Result<SqlLedger<S>, OpenRefused<S>>
        requires in_range { IsAmount default }
        ensures lent { IfOk result (λ l. (l.zone ≡ zone) × (l.default ≡ default)) }
        ensures uncaused { IfOk result (λ l. l.cause ≡ None) }

        // What the audit of the store's rows counted, as the ledger was opened.
        ensures counts { IfOk result (λ l. HasCleanDisk (state S.Store l.connection)
            → AreCounted zone default (state S.Store connection).now l.found) }

        // Over any store: what the store answers to the queries for settings, floors and rule
        // decides, and after them the audit. Then a ledger of an older version is given the current
        // one, and one without the index gets that.
        ensures ok { IfOk result (λ l. HasCleanDisk (state S.Store l.connection)
            → Opens (IsFound S.Store zone default connection l.connection)
            (state S.Store connection) (state S.Store l.connection)) }
        ensures err { IfErr result (λ e. HasCleanDisk (state S.Store e.connection)
            → connection.in_transaction ≡ false
            → Refuses (IsFound S.Store zone default connection e.connection)
            (state S.Store connection) (state S.Store e.connection) e.fault) }

        // Over a store with our table of settings and, in a version that has them, those of floors
        // and rule, wherever they stand: their rows decide, and after them the audit.
        ensures exact_ok { IfOk result (λ l. HasCleanDisk (state S.Store l.connection)
            → (s : SettingRow) (rule : Option (List ℕ))
            → HasSettings (state S.Store connection).now s rule
            → Opens (IsFoundOf zone default (state S.Store connection).now s rule)
            (state S.Store connection) (state S.Store l.connection)) }
        ensures exact_err { IfErr result (λ e. HasCleanDisk (state S.Store e.connection)
            → connection.in_transaction ≡ false
            → (s : SettingRow) (rule : Option (List ℕ))
            → HasSettings (state S.Store connection).now s rule
            → Refuses (IsFoundOf zone default (state S.Store connection).now s rule)
            (state S.Store connection) (state S.Store e.connection) e.fault) }

        // Over the rows of a legal history, in whatever version, whatever the store did before: it
        // is of this zone and default, and the ledger is sound and means it. Where a legal history
        // of this zone and default has these rows, only memory and the store stand in the way.
        ensures rows { IfOk result (λ l. HasKept (state S.Store l.connection)
            → MeansBook zone default (state S.Store connection).now (state S.Store l.connection)) }
        ensures rows_err { IfErr result (λ e. HasCleanDisk (state S.Store e.connection)
            → (H : List AnyEntry)
            → HasStored (book_of zone default H) (state S.Store connection).now → IsStop e.fault) }
        ensures sound { IfOk result (λ l. HasKept (state S.Store l.connection)
            → IsOpened zone default (state S.Store connection) (state S.Store l.connection)) }

        // Kept at the end, it was kept at the entry.
        ensures kept_ok { IfOk result (λ l. HasKept (state S.Store l.connection)
            → HasKept (state S.Store connection)) }
        ensures kept_err { IfErr result (λ e. HasKept (state S.Store e.connection)
            → HasKept (state S.Store connection)) }

        // The connection is outside a transaction where it was lent so, and a ledger's always is.
        ensures autocommit_ok { IfOk result (λ l. (connection.in_transaction ≡ false)
            × (l.connection.in_transaction ≡ false)) }
        ensures autocommit_err { IfErr result (λ e. e.connection.in_transaction
            ≡ connection.in_transaction) }
        ensures within { IfErr result (λ e. IsTrue connection.in_transaction
            → (e.fault ≡ within_transaction) × (e.connection ≡ connection)) }

        // Refused, it leaves the rows as they are; where the fault is of content, it has written
        // nothing.
        ensures same_err { IfErr result (λ e. HasCleanDisk (state S.Store e.connection)
            → IsTrue (state S.Store e.connection).is_open
            → (state S.Store e.connection).now ≡ (state S.Store connection).now) }
        ensures spares_err { IfErr result (λ e. HasCleanDisk (state S.Store e.connection)
            → Spares (state S.Store connection) (state S.Store e.connection) ⊎ IsStop e.fault) }

        // What an open after a crash may find: after a refusal what could be found before, or that
        // ledger in the current version and with its index; of an older ledger that is opened, that
        // one alone.
        ensures crash_err { IfErr result (λ e. HasCleanDisk (state S.Store e.connection)
            → (s : SettingRow) (rule : Option (List ℕ))
            → HasSettings (state S.Store connection).now s rule
            → LeavesBy (known_version s.version) (state S.Store connection)
            (state S.Store e.connection)) }
        ensures found_ok { IfOk result (λ l. HasKept (state S.Store l.connection)
            → FindsOpened (state S.Store connection) (state S.Store l.connection)) }
        ensures found_err { IfErr result (λ e. HasCleanDisk (state S.Store e.connection)
            → (b : Book)
            → HasStored b (state S.Store connection).now
            → FindsOnly (state S.Store e.connection)
            (λ db. (state S.Store connection).may_leave db.trees ⊎ HasBook b db)) }
    {
        let mut connection = connection;
        if !connection.is_autocommit() {
            let fault = within_transaction();
            return Err(OpenRefused { fault, connection });
        }
        books_are_right();
        tables_mean_their_book();
        trees_have_one_schema();
        match open_store(alloc, &mut connection, zone, default) {
            Ok(found) => Ok(SqlLedger {
                alloc,
                connection,
                zone,
                default,
                found,
                cause: None,
            }),
            Err(fault) => Err(OpenRefused { fault, connection }),
        }
    }

    /// Whether each pair of a login and day is right by all rows of `usage`, `trans` and `ceiling`,
    /// whatever they hold; else the least pair that isn't. Nothing is written.
    ///
    /// A pair is right where what its row of `usage` has settled and reserved is what its
    /// transactions settled and hold, exactly, where both together are within its limit, and where
    /// each of its transactions has a moment of its day. It reads all these rows, one by one. The
    /// fault is `Memory`, or `Store` where a statement was refused for another cause, and says
    /// nothing of the pairs.
    ///
    /// A crash after it, whatever it answered, leaves what a crash before it could leave.
    pub fn audit(&mut self) -> Result<Audit, LedgerFault>
        ensures lent { (self.new.zone ≡ self.old.zone) × (self.new.default ≡ self.old.default) }
        ensures counts { self.new.found ≡ self.old.found }
        ensures noted { (result ≡ Err LedgerFault.Store) ↔ IsTrue (is_some self.new.cause) }

        // It is that of all rows of the three tables, which have figures wherever the store has
        // these tables.
        ensures audited { HasCleanDisk (state S.Store self.new.connection)
            → IfOk result (IsAuditIn self.old.zone self.old.default
            (state S.Store self.old.connection).now) }

        // Over a sound store it is never wrong.
        ensures sound { HasKept (state S.Store self.new.connection)
            → IsSound self.old.zone self.old.default (state S.Store self.old.connection)
            → IfOk result IsRightAnswer }
        ensures same { HasKept (state S.Store self.new.connection)
            → (state S.Store self.new.connection).now ≡ (state S.Store self.old.connection).now }
        ensures kept { HasKept (state S.Store self.new.connection)
            → HasKept (state S.Store self.old.connection) }
        ensures autocommit { self.new.connection.in_transaction ≡ false }

        // What an open after a crash may find.
        ensures crash { HasCleanDisk (state S.Store self.new.connection) → (db : Trees)
            → (state S.Store self.new.connection).may_leave db
            → (state S.Store self.old.connection).may_leave db }
    {
        books_are_right();
        self.cause = None;
        match audit_store(self.alloc, &mut self.connection, self.zone, self.default) {
            Ok(audit) => Ok(audit),
            Err(refused) => Err(noted(&mut self.cause, refused)),
        }
    }

    /// How many answers the ledger has: one for each number under which it took a request. Nothing
    /// is written.
    ///
    /// The fault is `Memory`, or `Store` where the statement was refused for another cause. A crash
    /// after it, whatever it answered, leaves what a crash before it could leave.
    pub fn count_answers(&mut self) -> Result<u64, LedgerFault>
        ensures lent { (self.new.zone ≡ self.old.zone) × (self.new.default ≡ self.old.default) }
        ensures counts { self.new.found ≡ self.old.found }
        ensures noted { (result ≡ Err LedgerFault.Store) ↔ IsTrue (is_some self.new.cause) }
        ensures counted { HasKept (state S.Store self.new.connection)
            → IsSound self.old.zone self.old.default (state S.Store self.old.connection)
            → IfOk result (λ n. n ≡ length (book_in self.old.zone self.old.default
            (state S.Store self.old.connection).now).history) }
        ensures sound { HasKept (state S.Store self.new.connection)
            → IsSound self.old.zone self.old.default (state S.Store self.old.connection)
            → IsSound self.new.zone self.new.default (state S.Store self.new.connection) }
        ensures same { HasKept (state S.Store self.new.connection)
            → (state S.Store self.new.connection).now ≡ (state S.Store self.old.connection).now }
        ensures kept { HasKept (state S.Store self.new.connection)
            → HasKept (state S.Store self.old.connection) }
        ensures autocommit { self.new.connection.in_transaction ≡ false }

        // What an open after a crash may find.
        ensures crash { HasCleanDisk (state S.Store self.new.connection) → (db : Trees)
            → (state S.Store self.new.connection).may_leave db
            → (state S.Store self.old.connection).may_leave db }
    {
        self.cause = None;
        match count_store(&mut self.connection) {
            Ok(count) => Ok(count),
            Err(refused) => Err(noted(&mut self.cause, refused)),
        }
    }

    /// The connection, with the tables as they are. It is outside a transaction.
    pub fn into_connection(self) -> Connection<S>
        ensures same { result ≡ self.connection }
        ensures autocommit { result.in_transaction ≡ false }
    {
        let SqlLedger { connection, .. } = self;
        connection
    }

    /// How many rows the audit read by which the ledger was opened; zeros of one that was made.
    /// What is applied afterwards isn't counted.
    pub fn found(&self) -> RowCounts
        ensures { result ≡ self.now.found }
    {
        self.found
    }

    /// Why the store failed, where the last call of `apply`, `apply_all`, `audit`, `count_answers`,
    /// `days` or `limits` answered `LedgerFault::Store`; `None` where it answered otherwise, or none
    /// was made. Where an `apply` found the store closed by the failure of the call before it, it is
    /// that one's cause.
    pub fn cause(&self) -> Option<StoreCause>
        ensures { result ≡ self.now.cause }
    {
        self.cause
    }
}

impl<S: Alter> Ledger for SqlLedger<S> {
    ghost use Rattle.sqlite.specs.Held.{state};
    ghost use Rattle.mq_store.specs.Soundness.{book_in, HasKept, IsSound};

    ghost book = { λ l. book_in l.zone l.default (state S.Store l.connection).now };

    ghost has_kept = { λ l. HasKept (state S.Store l.connection) };

    ghost is_sound = { λ l. IsSound l.zone l.default (state S.Store l.connection) };

    ghost sound_is_kept = { λ _ sound. sound.kept };

    ghost sound_is_legal = { λ _ sound. sound.legal };

    fn zone(&self) -> &Zone
        ensures { result.now ≡ self.now.zone }
    {
        &self.zone
    }

    fn default_cap(&self) -> u32
        ensures value { result ≡ self.now.default }
        ensures in_range { IsAmount result }
    {
        self.default
    }

    /// Replies to a request. What it writes is committed before the reply is given: each numbered
    /// request that is new is one transaction of the store, and any other writes no row: one whose
    /// run was given up is answered `Old`. A retire settles what the open transactions of the runs
    /// that it gives up hold, and clears the replies of these runs, in its transaction. It has the
    /// places of these answers and the rows of these transactions in memory.
    ///
    /// The fault is `Memory`, or `Store` where a statement was refused for another cause, where the
    /// tables are the rows of no legal history, or where 4,611,686,018,427,387,904 answers are
    /// stored. The tables are then as they were; a crash after a fault leaves them so, or with this
    /// request applied. Over rows of no legal history it may also reply: what it says is then in
    /// range, and no more is known of it.
    fn apply(&mut self, request: &Request) -> Result<Reply, LedgerFault>
        requires { IsRequest request.now }
        ensures in_range { IfOk result IsReply }
        ensures same_zone { self.new.zone ≡ self.old.zone }
        ensures same_default { self.new.default ≡ self.old.default }
        ensures counts { self.new.found ≡ self.old.found }
        ensures kept { HasKept (state S.Store self.new.connection)
            → HasKept (state S.Store self.old.connection) }
        ensures reply { HasKept (state S.Store self.new.connection)
            → IsSound self.old.zone self.old.default (state S.Store self.old.connection)
            → (let b = book_in self.old.zone self.old.default
            (state S.Store self.old.connection).now in
            IfOk result (λ r. r ≡ reply (day_of b.zone) b.default b.history request.now)) }
        ensures history { HasKept (state S.Store self.new.connection)
            → IsSound self.old.zone self.old.default (state S.Store self.old.connection)
            → (let b = book_in self.old.zone self.old.default
            (state S.Store self.old.connection).now in
            OnOk result ((book_in self.new.zone self.new.default
            (state S.Store self.new.connection).now).history
            ≡ build (day_of b.zone) b.default (first (requests b.history ++ request.now ∷ [])))) }
        ensures fault { HasKept (state S.Store self.new.connection)
            → OnErr result ((state S.Store self.new.connection).now
            ≡ (state S.Store self.old.connection).now) }
        ensures sound { HasKept (state S.Store self.new.connection)
            → IsSound self.old.zone self.old.default (state S.Store self.old.connection)
            → IsSound self.new.zone self.new.default (state S.Store self.new.connection) }

        // Why the store failed is noted exactly where it did. Over a sound ledger it is what the
        // store's library refused: its rows decide each request, while there are fewer answers than
        // there may be.
        ensures noted { (result ≡ Err LedgerFault.Store) ↔ IsTrue (is_some self.new.cause) }
        ensures cause { HasCleanDisk (state S.Store self.new.connection)
            → IsSound self.old.zone self.old.default (state S.Store self.old.connection)
            → IsCauseOver (book_in self.old.zone self.old.default
            (state S.Store self.old.connection).now).history
            self.new.cause }

        // What an open after a crash may find.
        ensures crash_new { HasCleanDisk (state S.Store self.new.connection) → IfOk result
            (λ a. LeavesNew self.old.zone self.old.default request.now a
            (state S.Store self.old.connection) (state S.Store self.new.connection)) }
        ensures crash_old { HasCleanDisk (state S.Store self.new.connection) → OnOk result
            (LeavesOld self.old.zone self.old.default request.now
            (state S.Store self.old.connection) (state S.Store self.new.connection)) }
        ensures crash_err { HasCleanDisk (state S.Store self.new.connection)
            → OnErr result ((db : Trees)
            → (state S.Store self.new.connection).may_leave db
            → (state S.Store self.old.connection).may_leave db
            ⊎ AreApplied self.old.zone self.old.default request.now
            (state S.Store self.old.connection).now db) }

        // What it does find, as a sound database.
        ensures found_ok { HasCleanDisk (state S.Store self.new.connection) → OnOk result
            (FindsNew self.old.zone self.old.default request.now
            (state S.Store self.old.connection) (state S.Store self.new.connection)) }
        ensures found_err { HasCleanDisk (state S.Store self.new.connection) → OnErr result
            (FindsEither self.old.zone self.old.default request.now
            (state S.Store self.old.connection) (state S.Store self.new.connection)) }
    {
        tables_mean_their_book();
        later_arrivals_add_nothing();
        match apply(
            self.alloc,
            &mut self.connection,
            self.zone,
            self.default,
            request,
        ) {
            Ok(reply) => {
                self.cause = None;
                Ok(reply)
            }
            Err(refused) => Err(noted_first(&mut self.cause, refused)),
        }
    }

    /// Replies to several requests, to each as `apply` does after those before it: to all of them,
    /// or to none. What they write is committed, all in one transaction of the store, before any
    /// reply is given. `replies` then has these replies alone, in the order of the requests.
    ///
    /// The fault is one of `apply`, at any of the requests or at the commit. The tables are then as
    /// they were, and each request may be put by `apply`; a crash after a fault leaves them so, or
    /// with all of these requests applied. An `apply` after it that finds the store closed says why
    /// it was.
    fn apply_all(
        &mut self,
        arrivals: &[Request],
        replies: &mut Vec<Reply>,
    ) -> Result<(), LedgerFault>
        requires { All IsRequest arrivals.now }
        ensures in_range { OnOk result (All IsReply replies.new.items) }
        ensures same_zone { self.new.zone ≡ self.old.zone }
        ensures same_default { self.new.default ≡ self.old.default }
        ensures counts { self.new.found ≡ self.old.found }
        ensures kept { HasKept (state S.Store self.new.connection)
            → HasKept (state S.Store self.old.connection) }
        ensures replies { HasKept (state S.Store self.new.connection)
            → IsSound self.old.zone self.old.default (state S.Store self.old.connection)
            → (let b = book_in self.old.zone self.old.default
            (state S.Store self.old.connection).now in
            OnOk result (replies.new.items
            ≡ replies_after (day_of b.zone) b.default (requests b.history) arrivals.now)) }
        ensures history { HasKept (state S.Store self.new.connection)
            → IsSound self.old.zone self.old.default (state S.Store self.old.connection)
            → (let b = book_in self.old.zone self.old.default
            (state S.Store self.old.connection).now in
            OnOk result ((book_in self.new.zone self.new.default
            (state S.Store self.new.connection).now).history
            ≡ history_of (day_of b.zone) b.default (requests b.history ++ arrivals.now))) }
        ensures fault { HasKept (state S.Store self.new.connection)
            → OnErr result ((state S.Store self.new.connection).now
            ≡ (state S.Store self.old.connection).now) }
        ensures sound { HasKept (state S.Store self.new.connection)
            → IsSound self.old.zone self.old.default (state S.Store self.old.connection)
            → IsSound self.new.zone self.new.default (state S.Store self.new.connection) }
        ensures noted { (result ≡ Err LedgerFault.Store) ↔ IsTrue (is_some self.new.cause) }

        // What an open after a crash may find: all that the requests wrote, or nothing of it.
        ensures crash_ok { HasCleanDisk (state S.Store self.new.connection) → OnOk result
            (LeavesAll self.old.zone self.old.default arrivals.now replies.new.items
            (state S.Store self.old.connection) (state S.Store self.new.connection)) }
        ensures crash_err { HasCleanDisk (state S.Store self.new.connection)
            → OnErr result ((db : Trees)
            → (state S.Store self.new.connection).may_leave db
            → (state S.Store self.old.connection).may_leave db
            ⊎ AreAllApplied self.old.zone self.old.default arrivals.now
            (state S.Store self.old.connection).now db) }

        // What it does find, as a sound database.
        ensures found_ok { HasCleanDisk (state S.Store self.new.connection) → OnOk result
            (FindsAll self.old.zone self.old.default arrivals.now
            (state S.Store self.old.connection) (state S.Store self.new.connection)) }
        ensures found_err { HasCleanDisk (state S.Store self.new.connection) → OnErr result
            (FindsAllOrNone self.old.zone self.old.default arrivals.now
            (state S.Store self.old.connection) (state S.Store self.new.connection)) }
    {
        tables_mean_their_book();
        let default = self.default;
        self.cause = None;
        match apply_all(
            self.alloc,
            &mut self.connection,
            self.zone,
            default,
            arrivals,
            replies,
        ) {
            Ok(()) => Ok(()),
            Err(refused) => Err(noted(&mut self.cause, refused)),
        }
    }
}
