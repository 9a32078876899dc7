//! Laws of the rows of a history, for a ledger that keeps them in a store. Each function does
//! nothing: its contract is the law.
ghost use Rattle.std.specs.Prelude.{◌≡◌, ◌≤◌, ◌⊎◌, ℕ, ◌+◌, List, [], ◌∷◌, ◌++◌, length, map};
ghost use Rattle.std.specs.Prelude.{filter, find, true, Option};
ghost use Rattle.std.specs.Prelude.{false, Some, None, is_some, Contains};
ghost use Rattle.std.specs.List.{AllByRecursion};
ghost use Rattle.std.specs.List.Sorted.{IsPermutation};
ghost use Rattle.mq_request.specs.declared.message.Id.{Id};
ghost use Rattle.mq_request.specs.declared.message.Request.{Request as AnyRequest};
ghost use Rattle.mq_request.specs.declared.message.Reply.{Reply as AnyReply};
ghost use Rattle.mq_request.specs.declared.message.Reply.TheVariants.{Old};
ghost use Rattle.mq_request.specs.Range.{IsRequest, IsAmount};
ghost use Rattle.mq_request.specs.Same.{same_id};
ghost use Rattle.mq_frame.specs.Spelling.{SpellsRequest, SpellsReply};
ghost use Rattle.mq_ledger.specs.declared.entry.Entry.{Entry as AnyEntry};
ghost use Rattle.mq_ledger.specs.Answer.{answer, appended, build, known_by, reply, stored};
ghost use Rattle.mq_ledger.specs.Arrivals.{id_of, first, floor, is_below};
ghost use Rattle.mq_ledger.specs.Day.{IsZone, IsDayRule, day_of};
ghost use Rattle.mq_ledger.specs.declared.zone.Zone.{Zone as AnyZone};
ghost use Rattle.mq_ledger.specs.History.{Transaction, requests};
ghost use Rattle.mq_ledger.specs.Legal.{Book, IsLegal, IsLegalBook};
ghost use Rattle.mq_ledger.specs.Page.{row, page};
ghost use Rattle.mq_rows.specs.declared.record.AnswerRecord.{AnswerRecord};
ghost use Rattle.mq_rows.specs.declared.record.TransactionRecord.{TransactionRecord};
ghost use Rattle.mq_rows.specs.declared.record.UsageRecord.{UsageRecord};
ghost use Rattle.mq_rows.specs.declared.record.LimitRecord.{LimitRecord};
ghost use Rattle.mq_rows.specs.declared.record.RetiredRecord.{RetiredRecord};
ghost use Rattle.mq_rows.specs.declared.setting.TheConstants.{VERSION};
ghost use Rattle.mq_rows.specs.declared.plan.FoundRows.{FoundRows};
ghost use Rattle.mq_rows.specs.Rows.{setting_row, is_version, answer_of, answer_rows};
ghost use Rattle.mq_rows.specs.Rows.{transaction_row, usage_row, limit_row};
ghost use Rattle.mq_rows.specs.Rows.{retired_row, is_transaction, is_usage, is_limit, is_host};
ghost use Rattle.mq_rows.specs.Tables.{Tables, AreTransactions, AreUsage, AreLimits, AreRetired};
ghost use Rattle.mq_rows.specs.Tables.{AreRows};
ghost use Rattle.mq_rows.specs.Meaning.{meaning, AreSound};
ghost use Rattle.mq_rows.specs.Found.{IsFound, IsGoverning};
ghost use Rattle.mq_rows.specs.Repeat.{IsRepeatOf};
ghost use Rattle.mq_rows.specs.Days.{IsOldest, IsNewest, IsFirstReserved, IsLastReserved};
ghost use Rattle.mq_rows.specs.Listing.{usage_reply_by, page_row_by, IsNext, IsNextLogin, AreNext};
ghost use Rattle.mq_rows.specs.Listing.{behind};
ghost use Rattle.mq_rows.specs.Plan.{held_by, decided, transaction_write, usage_write, limit_write};
ghost use Rattle.mq_rows.specs.Plan.{planned};
ghost use Rattle.mq_rows.specs.Plan.{may_be_found, Leads, same_key, set_transaction, same_day};
ghost use Rattle.mq_rows.specs.Plan.{set_usage, same_from};
ghost use Rattle.mq_rows.specs.Plan.{set_limit, same_host, set_run, retired_write, is_open_in};
ghost use Rattle.mq_rows.specs.Plan.{AreToClose, LeadsAll};
ghost use Rattle.mq_rows.specs.Plan.{cleared, given_up_by, floor_by};
ghost use Rattle.mq_rows.specs.Retiring.{is_retire, retire_entry, IsUnretired, runs_below};
ghost use Rattle.mq_rows.specs.Retiring.{AreMovesOf, CanBeClosed};
ghost use Rattle.mq_rows.specs.Written.{LeadTo};
ghost use Rattle.mq_rows.specs.Audit.{Figures, is_right, pairs};
ghost use Rattle.mq_rows.specs.Figured.{figures};

use mq_frame::laws::{bodies_are_read_back, one_spelling};
use mq_ledger::laws::{
    amounts_in_range, built_is_legal, latest_limit_governs, one_more_arrival, one_more_floor,
    one_more_limit, one_more_of_a_transaction, one_more_on_a_day, open_transactions, over_is_least,
    page_is_first, replies_in_range, replies_suit, sums_over_transactions, used_where_reserved,
    within_limits,
};

/// The rows of a history are its rows in any order.
pub fn any_order()
    ensures transactions { (day : ℕ → ℕ) (H : List AnyEntry)
        (rows others : List TransactionRecord) →
        IsPermutation rows others → AreTransactions day H rows → AreTransactions day H others }
    ensures usage { (day : ℕ → ℕ) (H : List AnyEntry) (rows others : List UsageRecord) →
        IsPermutation rows others → AreUsage day H rows → AreUsage day H others }
    ensures limits { (H : List AnyEntry) (rows others : List LimitRecord) →
        IsPermutation rows others → AreLimits H rows → AreLimits H others }
    ensures retired { (H : List AnyEntry) (rows others : List RetiredRecord) →
        IsPermutation rows others → AreRetired H rows → AreRetired H others }
{}

/// The row that a table has under a key is the history's.
pub fn rows_by_key()
    ensures transaction { (day : ℕ → ℕ) (H : List AnyEntry) (rows : List TransactionRecord)
        (t : Transaction) →
        AreTransactions day H rows → find (is_transaction t) rows ≡ transaction_row day H t }
    ensures usage { (day : ℕ → ℕ) (H : List AnyEntry) (rows : List UsageRecord) (l : List ℕ)
        (d : ℕ) →
        AreUsage day H rows → find (is_usage l d) rows ≡ usage_row day H l d }
    ensures limit { (H : List AnyEntry) (rows : List LimitRecord) (l : List ℕ) (d : ℕ) →
        AreLimits H rows → find (is_limit l d) rows ≡ limit_row H l d }
    ensures retired { (H : List AnyEntry) (rows : List RetiredRecord) (h : List ℕ) →
        AreRetired H rows → find (is_host h) rows ≡ retired_row H h }
    ensures only_usage { (day : ℕ → ℕ) (H : List AnyEntry) (rows : List UsageRecord) (l : List ℕ)
        (d : ℕ) →
        AreUsage day H rows →
        AllByRecursion (λ u. is_usage l d u ≡ true → Some u ≡ find (is_usage l d) rows) rows }
{}

/// What is written of transactions leads to their rows with one more answer but to a retire. At
/// most one row changes.
pub fn transactions_follow()
    ensures { (day : ℕ → ℕ) (default : ℕ) (H : List AnyEntry) (t : Tables) (r : AnyRequest)
        (f : FoundRows) →
        is_retire r ≡ false → IsUnretired H r → AreTransactions day H t.transactions
        → IsFound day t r f →
        Leads same_key set_transaction (transaction_write day r
        (answer day default H r) f.transaction)
        t.transactions (AreTransactions day (appended day default H r)) }
{
    // What one entry more does to its transaction, by the replies that its kind can get.
    one_more_of_a_transaction();
    open_transactions();
    replies_suit();
}

/// What is written of a login and day leads to the rows of what logins have used with one more
/// answer but to a retire. At most one row changes.
pub fn usage_follows()
    ensures { (day : ℕ → ℕ) (default : ℕ) (H : List AnyEntry) (t : Tables) (r : AnyRequest)
        (f : FoundRows) →
        is_retire r ≡ false → IsUnretired H r → IsLegal day default H
        → AreTransactions day H t.transactions → AreUsage day H t.usage →
        IsFound day t r f →
        Leads same_day set_usage (usage_write day r (answer day default H r) (held_by f.transaction) f.usage)
        t.usage (AreUsage day (appended day default H r)) }
{
    // What one entry more does to its transaction and to the sums of its day, by the replies that
    // its kind can get.
    one_more_of_a_transaction();
    open_transactions();
    one_more_on_a_day();
    used_where_reserved();
    replies_suit();
}

/// What is written of a limit leads to the rows of limits with one more answer. At most one row
/// changes.
pub fn limits_follow()
    ensures { (day : ℕ → ℕ) (default : ℕ) (H : List AnyEntry) (t : Tables) (r : AnyRequest)
        (f : FoundRows) →
        AreLimits H t.limits → IsFound day t r f →
        Leads same_from set_limit (limit_write r (answer day default H r) f.limit)
        t.limits (AreLimits (appended day default H r)) }
{
    // (which limit one entry more sets)
    one_more_limit();
}

/// What is written of floors leads to their rows with one more answer. At most one row changes.
pub fn floors_follow()
    ensures { (day : ℕ → ℕ) (default : ℕ) (H : List AnyEntry) (t : Tables) (r : AnyRequest)
        (f : FoundRows) →
        IsRequest r → IsUnretired H r → AreRetired H t.retired → IsFound day t r f →
        Leads same_host set_run (retired_write r f.floor) t.retired
        (AreRetired (appended day default H r)) }
{
    // (which floor one entry more raises)
    one_more_floor();
}

/// The rows of answers with one more entry: with a retire those of the runs that it gives up keep
/// no reply, and with any other they stay.
pub fn answers_follow()
    ensures row { (H : List AnyEntry) (e : AnyEntry) →
        is_retire e.request ≡ false → IsUnretired H e.request → is_some (id_of e.request) ≡ true →
        answer_rows (H ++ e ∷ []) ≡ answer_rows H ++ answer_of (length H + 1) e ∷ [] }
    ensures retired { (H : List AnyEntry) (id : Id) → 1 ≤ id.run
        → is_below (requests H) id ≡ false →
        answer_rows (H ++ retire_entry id ∷ [])
        ≡ cleared (Some (runs_below H id)) (answer_rows H)
        ++ answer_of (length H + 1) (retire_entry id) ∷ [] }
    ensures count { (H : List AnyEntry) → length (answer_rows H) ≡ length H }
{
    // (whose replies the new floor clears)
    one_more_floor();
}

/// The open transactions of the runs that a retire retires, closed one after another in any order,
/// lead to the rows of the history with it; and each of them can be closed once those before it
/// are.
pub fn retired_runs_follow()
    ensures rows { (day : ℕ → ℕ) (default : ℕ) (H : List AnyEntry) (id : Id)
        (rows : List TransactionRecord)
        (usage : List UsageRecord) (these : List TransactionRecord) → 1 ≤ id.run
        → IsLegal day default H →
        IsLegal day default (H ++ retire_entry id ∷ []) → AreTransactions day H rows
        → AreUsage day H usage →
        IsPermutation these (filter (is_open_in (runs_below H id)) rows) →
        LeadsAll these rows usage (AreMovesOf day (H ++ retire_entry id ∷ [])) }
    ensures fits { (day : ℕ → ℕ) (default : ℕ) (H : List AnyEntry) (id : Id)
        (rows : List TransactionRecord)
        (usage : List UsageRecord) (done rest : List TransactionRecord) (was : TransactionRecord) →
        IsAmount default → IsDayRule day → 1 ≤ id.run → IsLegal day default H →
        AreTransactions day H rows → AreUsage day H usage →
        IsPermutation (done ++ was ∷ rest) (filter (is_open_in (runs_below H id)) rows) →
        LeadsAll done rows usage (CanBeClosed was) }
{
    // The sums of a day are those of its transactions, so each closing moves in both what the
    // transaction held; and all numbers stay in range.
    sums_over_transactions();
    used_where_reserved();
    open_transactions();
    one_more_of_a_transaction();
    one_more_on_a_day();
    amounts_in_range();
}

/// The reply that is decided from the rows of a legal history is the answer over it.
pub fn reply_follows()
    ensures { (day : ℕ → ℕ) (default : ℕ) (H : List AnyEntry) (t : Tables) (r : AnyRequest)
        (f : FoundRows) →
        IsUnretired H r → IsLegal day default H → AreTransactions day H t.transactions
        → AreUsage day H t.usage →
        AreLimits H t.limits → IsFound day t r f → is_some (id_of r) ≡ true →
        decided default r f ≡ answer day default H r }
{
    // The rows have what the answer is read off: the transaction, the day's sums, the first day
    // over, the limit.
    one_more_of_a_transaction();
    open_transactions();
    one_more_on_a_day();
    used_where_reserved();
    over_is_least();
    latest_limit_governs();
}

/// One more numbered request, over tables that are the rows of a legal history without its number,
/// which isn't retired: its reply is the ledger's, and the planned writes lead to the rows of the
/// history with it. Each transaction that it closes can be closed once those before it are.
pub fn one_more_answer()
    ensures reply { (b : Book) (t : Tables) (r : AnyRequest) (id : Id) (f : FoundRows) →
        IsLegalBook b → AreRows b t → id_of r ≡ Some id → is_below (requests b.history) id ≡ false →
        stored b.history id ≡ None → IsFound (day_of b.zone) t r f →
        (planned (day_of b.zone) b.default t.setting.arrivals r f).reply
        ≡ reply (day_of b.zone) b.default b.history r }
    ensures rows { (b : Book) (t : Tables) (r : AnyRequest) (id : Id) (f : FoundRows) →
        IsLegalBook b → AreRows b t → IsRequest r → id_of r ≡ Some id →
        is_below (requests b.history) id ≡ false → stored b.history id ≡ None →
        IsFound (day_of b.zone) t r f →
        LeadTo (record b { history = appended (day_of b.zone) b.default b.history r }) t
        (planned (day_of b.zone) b.default t.setting.arrivals r f) }
    ensures history { (day : ℕ → ℕ) (default : ℕ) (H : List AnyEntry) (r : AnyRequest) (id : Id) →
        IsLegal day default H → id_of r ≡ Some id → is_below (requests H) id ≡ false →
        stored H id ≡ None →
        build day default (first (requests H ++ r ∷ [])) ≡ appended day default H r }
    ensures found { (b : Book) (t : Tables) (r : AnyRequest) (id : Id) (f : FoundRows) →
        IsLegalBook b → AreRows b t → IsRequest r → id_of r ≡ Some id →
        is_below (requests b.history) id ≡ false → stored b.history id ≡ None →
        IsFound (day_of b.zone) t r f → may_be_found b.default r f ≡ true }
    ensures fits { (b : Book) (t : Tables) (r : AnyRequest) (f : FoundRows)
        (done rest : List TransactionRecord) (was : TransactionRecord) →
        IsLegalBook b → AreRows b t → IsRequest r → IsFound (day_of b.zone) t r f →
        AreToClose (given_up_by r f) t.transactions (done ++ was ∷ rest) →
        LeadsAll done t.transactions t.usage (CanBeClosed was) }
    ensures legal { (day : ℕ → ℕ) (default : ℕ) (H : List AnyEntry) (r : AnyRequest) (id : Id) →
        IsLegal day default H → IsRequest r → id_of r ≡ Some id → is_below (requests H) id ≡ false →
        stored H id ≡ None → IsLegal day default (appended day default H r) }
{
    // Table by table, with what a retire closes and clears before.
    transactions_follow();
    usage_follows();
    limits_follow();
    floors_follow();
    answers_follow();
    retired_runs_follow();
    // The reply is the ledger's, and the history grows by this one entry.
    floors_are_found();
    reply_follows();
    one_more_arrival();
    // What is found is in range, as the sums of a legal history are.
    open_transactions();
    one_more_of_a_transaction();
    one_more_on_a_day();
    used_where_reserved();
    latest_limit_governs();
    amounts_in_range();
    // And the history with the entry is legal.
    replies_in_range();
    built_is_legal();
}

/// A request that has no number, one whose number is stored, and one whose run is retired adds no
/// entry.
pub fn nothing_is_added()
    ensures unnumbered { (day : ℕ → ℕ) (default : ℕ) (H : List AnyEntry) (r : AnyRequest) →
        IsLegal day default H → id_of r ≡ None →
        build day default (first (requests H ++ r ∷ [])) ≡ H }
    ensures known { (day : ℕ → ℕ) (default : ℕ) (H : List AnyEntry) (r : AnyRequest) →
        IsLegal day default H → known_by H (id_of r) ≡ true →
        build day default (first (requests H ++ r ∷ [])) ≡ H }
{
    // (such an arrival leaves the history as it is)
    one_more_arrival();
}

/// The reply by a number's row is the ledger's where its run isn't retired, and a number without a
/// row has no entry. A number has one row at most.
pub fn repeats_are_answered()
    ensures known { (day : ℕ → ℕ) (default : ℕ) (H : List AnyEntry) (r : AnyRequest) (id : Id)
        (row : AnswerRecord) (a : AnyReply) →
        IsAmount default → IsDayRule day → IsLegal day default H → IsRequest r → id_of r ≡ Some id →
        is_below (requests H) id ≡ false →
        find (λ x. same_id id x.id) (answer_rows H) ≡ Some row → IsRepeatOf row id r a →
        a ≡ reply day default H r }
    ensures spelled { (day : ℕ → ℕ) (default : ℕ) (H : List AnyEntry) (r : AnyRequest) (id : Id)
        (row : AnswerRecord) →
        IsAmount default → IsDayRule day → IsLegal day default H → IsRequest r → id_of r ≡ Some id →
        is_below (requests H) id ≡ false →
        find (λ x. same_id id x.id) (answer_rows H) ≡ Some row →
        (q : AnyRequest) × (p : AnyReply) × SpellsRequest row.request q × SpellsReply row.reply p }
    ensures stored { (H : List AnyEntry) (r : AnyRequest) (id : Id) (row : AnswerRecord) →
        IsRequest r → id_of r ≡ Some id →
        find (λ x. same_id id x.id) (answer_rows H) ≡ Some row → is_some (stored H id) ≡ true }
    ensures unknown { (H : List AnyEntry) (r : AnyRequest) (id : Id) → IsRequest r →
        id_of r ≡ Some id → find (λ x. same_id id x.id) (answer_rows H) ≡ None →
        stored H id ≡ None }
    ensures one { (day : ℕ → ℕ) (default : ℕ) (H : List AnyEntry) (r : AnyRequest) (id : Id) →
        IsLegal day default H → IsRequest r → id_of r ≡ Some id →
        AllByRecursion (λ row. same_id id row.id ≡ true →
        find (λ x. same_id id x.id) (answer_rows H) ≡ Some row) (answer_rows H) }
{
    // The bodies of an entry in range spell its request and its reply, and nothing else.
    replies_in_range();
    one_spelling();
}

/// A run is below the floor of its host exactly where the host's row says so.
pub fn floors_are_found()
    ensures floor { (H : List AnyEntry) (rows : List RetiredRecord) (h : List ℕ)
        → AreRetired H rows →
        floor_by (find (is_host h) rows) ≡ floor (requests H) h }
    ensures old { (day : ℕ → ℕ) (default : ℕ) (H : List AnyEntry) (r : AnyRequest) (id : Id) →
        id_of r ≡ Some id → is_below (requests H) id ≡ true → reply day default H r ≡ Old id }
{
    // (the row of a host is the history's)
    rows_by_key();
}

/// Tables that are the rows of a legal history mean it, so they are sound; and those of a ledger
/// that has answered nothing are. What a table's version is changes nothing.
pub fn rows_mean_their_history()
    ensures meaning { (b : Book) (t : Tables) → IsLegalBook b → AreRows b t →
        meaning b.zone b.default t.answers ≡ b }
    ensures sound { (b : Book) (t : Tables) → IsLegalBook b → AreRows b t →
        AreSound b.zone b.default t }
    ensures new { (zone : AnyZone) (default : ℕ) → IsZone zone → IsAmount default →
        AreSound zone default (record {
          setting = setting_row VERSION (record { zone = zone; default = default; history = [] });
          answers = [];
          transactions = [];
          usage = [];
          limits = [];
          retired = [];
        }) }
    ensures version { (b : Book) (t : Tables) (version : ℕ) → AreRows b t →
        is_version b.zone version ≡ true →
        AreRows b (record t { setting = record t.setting { version = version } }) }
{
    // The stored bodies give back the requests, and these the history; the replies of a retired
    // run, which are cleared, aren't needed for it.
    bodies_are_read_back();
    one_spelling();
    one_more_floor();
}

/// What is replied of a login's numbers is the ledger's.
pub fn usage_is_answered()
    ensures reply { (day : ℕ → ℕ) (default : ℕ) (H : List AnyEntry) (t : Tables) (l : List ℕ)
        (d : ℕ)
        (u : Option UsageRecord) (g : Option LimitRecord) →
        IsLegal day default H → AreUsage day H t.usage → AreLimits H t.limits →
        u ≡ find (is_usage l d) t.usage → IsGoverning l d t.limits g →
        usage_reply_by default l d u g ≡ reply day default H (AnyRequest.Usage l d) }
    ensures row { (day : ℕ → ℕ) (default : ℕ) (H : List AnyEntry) (t : Tables) (l : List ℕ) (d : ℕ)
        (u : UsageRecord) (g : Option LimitRecord) →
        IsLegal day default H → AreUsage day H t.usage → AreLimits H t.limits →
        Some u ≡ find (is_usage l d) t.usage → IsGoverning l d t.limits g →
        page_row_by default u g ≡ row day default H d l }
{
    // (where a login has no row of the day, nothing is used)
    one_more_on_a_day();
    used_where_reserved();
    latest_limit_governs();
}

/// The rows of a day, gone through from login to login, make the ledger's page.
pub fn pages_go_by_login()
    ensures more { (d : ℕ) (rows : List UsageRecord) (after : List ℕ) (us : List UsageRecord)
        (u : UsageRecord) →
        AreNext d after rows us → IsNext d (behind after us) rows (Some u) →
        AreNext d after rows (us ++ u ∷ []) }
    ensures page { (day : ℕ → ℕ) (H : List AnyEntry) (d : ℕ) (rows : List UsageRecord)
        (after : List ℕ) (us : List UsageRecord) →
        AreUsage day H rows → AreNext d after rows us → length us ≤ 100 →
        (length us ≡ 100) ⊎ IsNext d (behind after us) rows None →
        map (λ u. u.login) us ≡ page day H d after }
{
    // (what a page is, by its logins alone)
    page_is_first();
}

/// A day's next row is found from login to login: of a login that has a row of that day it is that
/// row, and a login that has none is passed over.
pub fn logins_are_passed()
    ensures found { (d : ℕ) (rows : List UsageRecord) (after : List ℕ) (login : List ℕ)
        (u : UsageRecord) →
        IsNextLogin after rows (Some login) → Contains rows u → is_usage login d u ≡ true →
        IsNext d after rows (Some u) }
    ensures passed { (d : ℕ) (rows : List UsageRecord) (after : List ℕ) (login : List ℕ)
        (next : Option UsageRecord) → IsNextLogin after rows (Some login) →
        AllByRecursion (λ u. is_usage login d u ≡ false) rows → IsNext d login rows next →
        IsNext d after rows next }
    ensures ended { (d : ℕ) (rows : List UsageRecord) (after : List ℕ) →
        IsNextLogin after rows None → IsNext d after rows None }
{}

/// The days of the rows are those on which a reserve was granted: the earliest is the first of
/// them, and the latest the last.
pub fn days_are_reserved()
    ensures first { (day : ℕ → ℕ) (H : List AnyEntry) (rows : List UsageRecord) →
        AreUsage day H rows → (oldest : Option ℕ) → IsOldest rows oldest
        → IsFirstReserved day H oldest }
    ensures last { (day : ℕ → ℕ) (H : List AnyEntry) (rows : List UsageRecord) →
        AreUsage day H rows → (newest : Option ℕ) → IsNewest rows newest
        → IsLastReserved day H newest }
{}

/// In the rows of a legal history, in any order, each pair of a login and day is right.
pub fn histories_are_right()
    ensures { (b : Book) (t : Tables) (f : Figures) → IsLegalBook b → AreRows b t →
        IsPermutation (figures t).usage f.usage → IsPermutation
        (figures t).transactions f.transactions →
        IsPermutation (figures t).limits f.limits →
        AllByRecursion (λ p. is_right (day_of b.zone) b.default f p ≡ true) (pairs f) }
{
    // The sums of a day are those of its transactions, and at most the limit that governs.
    sums_over_transactions();
    used_where_reserved();
    within_limits();
    latest_limit_governs();
    open_transactions();
}
