//! Laws that lead from what was read and written to the ledger's history. Each function does
//! nothing: its contract is the law.
ghost use Rattle.std.specs.Prelude.{◌≡◌, ◌≤◌, ◌⊎◌, ◌+◌, ℕ, List, [], ◌∷◌, ◌++◌, true, false};
ghost use Rattle.std.specs.Prelude.{Option, Some, None, take};
ghost use Rattle.sqlite.specs.Effect.{Database};
ghost use Rattle.mq_request.specs.declared.message.Id.{Id};
ghost use Rattle.mq_request.specs.declared.message.Request.{Request as AnyRequest};
ghost use Rattle.mq_request.specs.declared.message.Reply.{Reply as AnyReply};
ghost use Rattle.mq_request.specs.declared.message.Reply.TheVariants.{Old};
ghost use Rattle.mq_request.specs.declared.usage.UsageRow.{UsageRow as AnyUsageRow};
ghost use Rattle.mq_forget.specs.Carried.{IsAt};
ghost use Rattle.mq_forget.specs.Remembered.{day_named, stays, remembered};
ghost use Rattle.mq_request.specs.Range.{IsLogin, IsRequest};
ghost use Rattle.mq_request.specs.Same.{same_id};
ghost use Rattle.mq_frame.specs.Spelling.{SpellsRequest, SpellsReply};
ghost use Rattle.mq_ledger.specs.declared.entry.Entry.{Entry as AnyEntry};
ghost use Rattle.mq_ledger.specs.declared.zone.Zone.{Zone as AnyZone};
ghost use Rattle.mq_ledger.specs.Answer.{appended, history_of, known_by, reply};
ghost use Rattle.mq_ledger.specs.Arrivals.{id_of, floor, is_below, is_first};
ghost use Rattle.mq_ledger.specs.Day.{day_of};
ghost use Rattle.mq_ledger.specs.History.{requests, Transaction, named};
ghost use Rattle.mq_ledger.specs.Page.{row};
ghost use Rattle.mq_ledger.specs.Legal.{Book, IsLegal, IsLegalBook};
ghost use Rattle.mq_rows.specs.declared.audited.Audit.{Audit as AnyAudit};
ghost use Rattle.mq_rows.specs.declared.record.AnswerRecord.{AnswerRecord};
ghost use Rattle.mq_rows.specs.declared.record.UsageRecord.{UsageRecord};
ghost use Rattle.mq_rows.specs.declared.record.LimitRecord.{LimitRecord};
ghost use Rattle.mq_rows.specs.declared.record.RetiredRecord.{RetiredRecord};
ghost use Rattle.mq_rows.specs.declared.record.TransactionRecord.{TransactionRecord};
ghost use Rattle.mq_rows.specs.declared.plan.FoundRows.{FoundRows};
ghost use Rattle.mq_rows.specs.Found.{IsFound, IsGoverning};
ghost use Rattle.mq_rows.specs.Plan.{cap_by, floor_by, may_be_found, planned, reserved_by};
ghost use Rattle.mq_rows.specs.Listing.{IsNext, are_amounts, page_row_by, settled_by};
ghost use Rattle.mq_rows.specs.Listing.{usage_reply_by};
ghost use Rattle.mq_rows.specs.Rows.{is_usage, is_host, is_transaction};
ghost use Rattle.mq_rows.specs.Repeat.{IsRepeatOf};
ghost use Rattle.mq_rows.specs.Tables.{Tables, AreRows, AreTransactions};
ghost use Rattle.mq_tables.specs.declared.entry.Bodies.{Bodies};
ghost use Rattle.mq_tables.specs.Entries.{IsAnswerAt};
ghost use Rattle.mq_tables.specs.Finding.{AreKeyed};
ghost use Rattle.mq_tables.specs.Ledger.{HasLedger};
ghost use Rattle.mq_tables.specs.Records.{IsOneOf};
ghost use Rattle.mq_store.specs.Paging.{IsNextRow, IsPageOf, IsBegunIn};
ghost use Rattle.mq_store.specs.Auditing.{IsAuditIn, IsRightAnswer};
ghost use Rattle.mq_store.specs.Carrying.{day_by, SpellsWhereKnown, IsAnswered};
ghost use Rattle.mq_store.specs.Renewing.{HasCarried};
ghost use Rattle.mq_store.specs.Soundness.{book_in};
ghost use Rattle.mq_store.specs.declared.renewal_place.RenewalPlace.{RenewalPlace as AnyPlace};
ghost use Rattle.mq_store.specs.Taking.{HasRows, HasBook, book_of, book_after, IsKnown};
ghost use Rattle.mq_store.specs.Taking.{IsPlannedOver};

use mq_forget::laws::{fronts_are_legal, next_place_is_carried_over};
use mq_frame::laws::one_spelling;
use mq_ledger::laws::{amounts_in_range, one_more_arrival, replies_in_range};
use mq_rows::laws::{
    floors_are_found, histories_are_right, nothing_is_added, one_more_answer, pages_go_by_login,
    repeats_are_answered, rows_by_key, rows_mean_their_history, usage_is_answered,
};

/// The row of a host has its floor, which is 0 where it has none.
pub(crate) fn floors_are_known()
    ensures { (zone : AnyZone) (default : ℕ) (H : List AnyEntry) (db : Database)
        (b : HasBook (book_of zone default H) db) (h : List ℕ) (found : Option RetiredRecord) →
        IsOneOf (is_host h) b.has.tables.retired found → floor_by found ≡ floor (requests H) h }
{
    rows_by_key();
    floors_are_found();
}

/// A number whose run is below the floor is old. Any other number is new where it has no row; where
/// it has one, the reply made from it is the ledger's.
pub(crate) fn numbers_are_known()
    ensures old { (zone : AnyZone) (default : ℕ) (H : List AnyEntry) (r : AnyRequest) (id : Id) →
        id_of r ≡ Some id → is_below (requests H) id ≡ true →
        IsKnown zone default H r id (Some (Old id)) }
    ensures new { (zone : AnyZone) (default : ℕ) (H : List AnyEntry) (r : AnyRequest) (id : Id)
        (db : Database) (b : HasBook (book_of zone default H) db) → IsRequest r
        → id_of r ≡ Some id →
        is_below (requests H) id ≡ false →
        IsOneOf (λ a. same_id id a.id) b.has.tables.answers None →
        IsKnown zone default H r id None }
    ensures known { (zone : AnyZone) (default : ℕ) (H : List AnyEntry) (r : AnyRequest) (id : Id)
        (db : Database) (b : HasBook (book_of zone default H) db) (row : AnswerRecord)
        (a : AnyReply) →
        IsRequest r → id_of r ≡ Some id → is_below (requests H) id ≡ false →
        IsOneOf (λ a. same_id id a.id) b.has.tables.answers (Some row) →
        IsRepeatOf row id r a → IsKnown zone default H r id (Some a) }
    ensures spelled { (zone : AnyZone) (default : ℕ) (H : List AnyEntry) (r : AnyRequest) (id : Id)
        (db : Database) (b : HasBook (book_of zone default H) db) (row : AnswerRecord) →
        IsRequest r → id_of r ≡ Some id → is_below (requests H) id ≡ false →
        IsOneOf (λ a. same_id id a.id) b.has.tables.answers (Some row) →
        (q : AnyRequest) × (a : AnyReply) × SpellsRequest row.request q × SpellsReply row.reply a }
{
    floors_are_found();
    repeats_are_answered();
    replies_in_range();
}

/// What is decided of a new number is the ledger's reply, and leads to the history with it.
pub(crate) fn new_numbers_are_planned()
    ensures planned { (zone : AnyZone) (default : ℕ) (H : List AnyEntry) (r : AnyRequest) (id : Id)
        (t : Tables) (f : FoundRows) → IsLegalBook (book_of zone default H) →
        AreRows (book_of zone default H) t → IsRequest r → id_of r ≡ Some id →
        known_by H (Some id) ≡ false → (AreKeyed t → IsFound (day_of zone) t r f) →
        IsPlannedOver zone default H r t (planned (day_of zone) default t.setting.arrivals r f) }
    ensures found { (zone : AnyZone) (default : ℕ) (H : List AnyEntry) (r : AnyRequest) (id : Id)
        (t : Tables) (f : FoundRows) → IsLegalBook (book_of zone default H) →
        AreRows (book_of zone default H) t → IsRequest r → id_of r ≡ Some id →
        known_by H (Some id) ≡ false → (AreKeyed t → IsFound (day_of zone) t r f) →
        may_be_found default r f ≡ true }
{
    one_more_answer();
}

/// A new number is applied where the tables are the rows of the history with it; any other request
/// leaves them as they were.
pub(crate) fn arrivals_are_applied()
    ensures new { (zone : AnyZone) (default : ℕ) (H : List AnyEntry) (r : AnyRequest) (id : Id)
        (db : Database) → IsLegalBook (book_of zone default H) → IsRequest r → id_of r ≡ Some id →
        known_by H (Some id) ≡ false → HasRows (book_of zone default
        (appended (day_of zone) default H r)) db →
        HasBook (book_after zone default H r) db }
    ensures known { (zone : AnyZone) (default : ℕ) (H : List AnyEntry) (r : AnyRequest) (id : Id)
        (db : Database) → known_by H (id_of r) ≡ true →
        HasBook (book_of zone default H) db →
        HasBook (book_after zone default H r) db }
    ensures unnumbered { (zone : AnyZone) (default : ℕ) (H : List AnyEntry) (r : AnyRequest)
        (db : Database) → id_of r ≡ None → HasBook (book_of zone default H) db →
        HasBook (book_after zone default H r) db }
{
    one_more_answer();
    nothing_is_added();
}

/// A request that isn't the first of its number, or whose run is below the floor, leaves the
/// history as it is.
pub(crate) fn later_arrivals_add_nothing()
    ensures { (zone : AnyZone) (default : ℕ) (H : List AnyEntry) (r : AnyRequest) (db : Database) →
        is_first (requests H) r ≡ false → HasBook (book_of zone default H) db →
        HasBook (book_after zone default H r) db }
{
    arrivals_are_applied();
}

/// What is read of a login's rows is the ledger's, and the rows of a day, gone through from login
/// to login, are its page.
pub(crate) fn reads_are_answered()
    ensures usage { (zone : AnyZone) (default : ℕ) (H : List AnyEntry) (db : Database)
        (b : HasBook (book_of zone default H) db) (l : List ℕ) (d : ℕ) (u : Option UsageRecord)
        (g : Option LimitRecord) → IsOneOf (is_usage l d) b.has.tables.usage u →
        IsGoverning l d b.has.tables.limits g →
        usage_reply_by default l d u g ≡ reply (day_of zone) default H (AnyRequest.Usage l d) }
    ensures row { (zone : AnyZone) (default : ℕ) (H : List AnyEntry) (db : Database)
        (b : HasBook (book_of zone default H) db) (d : ℕ) (after : List ℕ) (u : UsageRecord)
        (g : Option LimitRecord) → IsNext d after b.has.tables.usage (Some u) →
        IsGoverning u.login d b.has.tables.limits g →
        page_row_by default u g ≡ row (day_of zone) default H d u.login }
    ensures begun { (default : ℕ) (d : ℕ) (after : List ℕ) (db : Database) →
        IsBegunIn default d after db 0 [] after }
    ensures more { (default : ℕ) (d : ℕ) (after : List ℕ) (db : Database) (n : ℕ)
        (shown : List AnyUsageRow) (last : List ℕ) (r : AnyUsageRow) →
        IsBegunIn default d after db n shown last → IsNextRow default d last db (Some r) →
        IsBegunIn default d after db (n + 1) (shown ++ r ∷ []) r.login }
    ensures ended { (default : ℕ) (d : ℕ) (after : List ℕ) (db : Database) (n : ℕ)
        (shown : List AnyUsageRow) (last : List ℕ) → n ≤ 100 →
        IsBegunIn default d after db n shown last →
        (n ≡ 100) ⊎ IsNextRow default d last db None → IsPageOf default d after db shown }
{
    usage_is_answered();
    rows_by_key();
    pages_go_by_login();
}

/// What is read of a login's rows is in range.
pub(crate) fn reads_are_in_range()
    ensures usage { (zone : AnyZone) (default : ℕ) (H : List AnyEntry) (db : Database)
        (b : HasBook (book_of zone default H) db) (l : List ℕ) (d : ℕ) (u : Option UsageRecord)
        (g : Option LimitRecord) → IsOneOf (is_usage l d) b.has.tables.usage u →
        IsGoverning l d b.has.tables.limits g →
        are_amounts (settled_by u) (reserved_by u) (cap_by default g) ≡ true }
    ensures row { (zone : AnyZone) (default : ℕ) (H : List AnyEntry) (db : Database)
        (b : HasBook (book_of zone default H) db) (d : ℕ) (after : List ℕ) (u : UsageRecord)
        (g : Option LimitRecord) → IsNext d after b.has.tables.usage (Some u) →
        IsGoverning u.login d b.has.tables.limits g →
        are_amounts u.settled u.reserved (cap_by default g) ≡ true }
    ensures login { (zone : AnyZone) (default : ℕ) (H : List AnyEntry) (db : Database)
        (b : HasBook (book_of zone default H) db) (d : ℕ) (after : List ℕ) (u : UsageRecord) →
        IsNext d after b.has.tables.usage (Some u) → IsLogin u.login }
{
    reads_are_answered();
    rows_by_key();
    replies_in_range();
    amounts_in_range();
}

/// A book whose rows the tables are, in whatever version, is what they mean.
pub(crate) fn tables_mean_their_book()
    ensures { (b : Book) (t : Tables) (db : Database) → IsLegalBook b → HasLedger db t
        → AreRows b t →
        book_in b.zone b.default db ≡ b }
{
    rows_mean_their_history();
}

/// An audit of the rows of a legal history finds each pair right.
pub(crate) fn books_are_right()
    ensures { (b : Book) (t : Tables) (db : Database) (a : AnyAudit) → IsLegalBook b
        → HasLedger db t →
        AreRows b t → IsAuditIn b.zone b.default db a → IsRightAnswer a }
{
    histories_are_right();
}

/// What is read of an answer by its place is the entry at that place.
pub(crate) fn answers_are_entries()
    ensures { (zone : AnyZone) (default : ℕ) (H : List AnyEntry) (t : Tables) (place : ℕ)
        (b : Bodies)
        (r : AnyRequest) (a : Option AnyReply) → IsLegalBook (book_of zone default H) →
        AreRows (book_of zone default H) t → IsAnswerAt (place + 1) t.answers (Some b) →
        SpellsRequest b.request r → SpellsWhereKnown b.reply a →
        IsAnswered H place (record { request = r; reply = a }) }
{
    one_spelling();
    replies_in_range();
}

/// A transaction has the day of its row, and without a row it has no entry.
pub(crate) fn transactions_have_days()
    ensures { (day : ℕ → ℕ) (H : List AnyEntry) (rows : List TransactionRecord) (t : Transaction)
        (moment : ℕ)
        (found : Option TransactionRecord) → AreTransactions day H rows →
        IsOneOf (is_transaction t) rows found →
        day_by day moment found ≡ day_named day moment (named H t) }
{}

/// Over a prefix of a history the next request gets the reply of its entry, and leads to the prefix
/// with it.
pub(crate) fn entries_are_followed()
    ensures reply { (zone : AnyZone) (default : ℕ) (H : List AnyEntry) (place : ℕ) (e : AnyEntry) →
        IsLegalBook (book_of zone default H) → IsAt H place e →
        reply (day_of zone) default (take place H) e.request ≡ e.reply }
    ensures follows { (zone : AnyZone) (default : ℕ) (H : List AnyEntry) (place : ℕ) (e : AnyEntry)
        (db : Database) → IsLegalBook (book_of zone default H) → IsAt H place e →
        HasBook (book_after zone default (take place H) e.request) db →
        HasBook (book_of zone default (take (place + 1) H)) db }
{
    one_more_arrival();
    fronts_are_legal();
}

/// With the next entry the new tables are the rows of what is remembered of a front with it.
pub(crate) fn entries_are_carried()
    ensures stays { (zone : AnyZone) (default D : ℕ) (H : List AnyEntry) (place : ℕ) (e : AnyEntry)
        (db : Database) → IsLegalBook (book_of zone default H) → IsAt H place e →
        stays (day_of zone) D H e ≡ true →
        HasBook (book_after zone default (remembered (day_of zone) D (take place H)) e.request) db →
        HasBook (book_of zone default (remembered (day_of zone) D (take (place + 1) H))) db }
    ensures goes { (zone : AnyZone) (default D : ℕ) (H : List AnyEntry) (place : ℕ) (e : AnyEntry)
        (db : Database) → IsLegalBook (book_of zone default H) → IsAt H place e →
        stays (day_of zone) D H e ≡ false →
        HasBook (book_of zone default (remembered (day_of zone) D (take place H))) db →
        HasBook (book_of zone default (remembered (day_of zone) D (take (place + 1) H))) db }
{
    next_place_is_carried_over();
}

/// What was taken over of an old ledger is so of it with further entries, and so after any requests
/// that come to it.
pub fn arrivals_leave_what_was_taken_over()
    ensures entries { (zone : AnyZone) (default D : ℕ) (H S : List AnyEntry) (at : AnyPlace)
        (new scratch : Database) →
        HasCarried zone default D H at new scratch → HasCarried zone default D
        (H ++ S) at new scratch }
    ensures arrivals { (zone : AnyZone) (default D : ℕ) (H : List AnyEntry) (came : List AnyRequest)
        (at : AnyPlace)
        (new scratch : Database) → IsLegal (day_of zone) default H
        → HasCarried zone default D H at new scratch →
        HasCarried zone default D (history_of (day_of zone) default (requests H ++ came)) at new scratch }
{
    one_more_arrival();
}
