//! Laws of the definitions, for whoever builds on a ledger. Each function does nothing: its
//! contract is the law.
ghost use Rattle.jiff.specs.Placed.{IsPosixZone};
ghost use Rattle.jiff.specs.Words.{civil_nanos, epoch_day, nanos_of_seconds, offset_at};
ghost use Rattle.jiff_core.specs.declared.civil.datetime.DateTime.{DateTime as AnyDateTime};
ghost use Rattle.jiff_tz.specs.declared.timezone.TimeZone.{TimeZone as AnyTimeZone};
ghost use Rattle.std.specs.Prelude.{◌≡◌, ◌≤◌, ◌<◌, ◌+◌, ◌*◌, ◌≤ℤ◌, ◌<ℤ◌, ◌+ℤ◌, ℕ, ℤ, pos, List, []};
ghost use Rattle.std.specs.Prelude.{◌∷◌, ◌++◌, Option, Some, None, All, true};
ghost use Rattle.std.specs.Prelude.{false, ◌&&◌, ◌||◌, find, nat_le, if◌then◌else◌, sum_by};
ghost use Rattle.std.specs.Option.{option_or};
ghost use Rattle.mq_request.specs.declared.message.Id.{Id};
ghost use Rattle.mq_request.specs.declared.message.Request.{Request as AnyRequest};
ghost use Rattle.mq_request.specs.declared.message.Reply.TheVariants.{Old, Retired};
ghost use Rattle.mq_request.specs.Range.{IsRequest, IsReply, IsAmount, IsMoment};
ghost use Rattle.mq_ledger.specs.declared.entry.Entry.{Entry as AnyEntry};
ghost use Rattle.mq_ledger.specs.Answer.{answer, stored, reply, with_arrival, history_of};
ghost use Rattle.mq_ledger.specs.Arrivals.{id_of, has_id, raised, greater, floor, IsFloor};
ghost use Rattle.mq_ledger.specs.Arrivals.{is_below, first, is_first};
ghost use Rattle.mq_ledger.specs.Day.{ByOffset, ByRule, IsOffset, IsZone, IsDayRule, clock};
ghost use Rattle.mq_ledger.specs.Day.{limited, day_of};
ghost use Rattle.mq_ledger.specs.Day.{central_europe};
ghost use Rattle.mq_ledger.specs.declared.zone.Zone.{Zone as AnyZone};
ghost use Rattle.mq_ledger.specs.History.{requests, Transaction, transaction, same_transaction};
ghost use Rattle.mq_ledger.specs.History.{is_of, named, agrees, closes};
ghost use Rattle.mq_ledger.specs.History.{ended, retires, closed, granted, granted_in, counted};
ghost use Rattle.mq_ledger.specs.History.{held, settled_in, reserved, settled};
ghost use Rattle.mq_ledger.specs.History.{used, gained, freed, settles};
ghost use Rattle.mq_ledger.specs.Legal.{IsLegal};
ghost use Rattle.mq_ledger.specs.Limits.{from_of, cap_of, governs, limits, latest, cap, sets_from};
ghost use Rattle.mq_ledger.specs.Limits.{set_cap};
ghost use Rattle.mq_ledger.specs.Over.{over, IsLeastOver};
ghost use Rattle.mq_ledger.specs.Page.{page, IsLoginPage, is_login, login_on, has_reserve};
ghost use Rattle.mq_ledger.specs.Suits.{Suits};
ghost use Rattle.mq_ledger.specs.Sums.{held_on, settled_on, AreDistinct, HasAllNamed};

use mq_request::laws::same_is_equal;

/// In every legal history no login has used more on a day than its limit.
pub fn within_limits()
    ensures { (day : ℕ → ℕ) (default : ℕ) (H : List AnyEntry) → IsLegal day default H →
        (l : List ℕ) (d : ℕ) → used day H l d ≤ cap default H l d }
{}

/// The first arrivals of requests in range make a legal history.
pub fn built_is_legal()
    ensures { (day : ℕ → ℕ) (default : ℕ) (A : List AnyRequest) → All IsRequest A →
        IsLegal day default (history_of day default A) }
{}

/// The first arrivals, in the order in which they came, are the numbered ones whose run isn't below
/// the floor then and before which no arrival has their number. A number that is retired stays so.
pub fn first_arrivals()
    ensures none { first [] ≡ [] }
    ensures one_more { (A : List AnyRequest) (r : AnyRequest) →
        first (A ++ r ∷ []) ≡ first A ++ (if is_first A r then r ∷ [] else []) }
    ensures each { (A : List AnyRequest) (id : Id) → is_below (first A) id ≡ false →
        find (has_id id) (first A) ≡ find (has_id id) A }
    ensures retired { (A B : List AnyRequest) (id : Id) → is_below (first A) id ≡ true →
        is_below (first (A ++ B)) id ≡ true }
{}

/// What one more arrival does to a history.
pub fn one_more_arrival()
    ensures arrived { (day : ℕ → ℕ) (default : ℕ) (A : List AnyRequest) (r : AnyRequest) →
        history_of day default (A ++ r ∷ []) ≡ with_arrival day default
        (history_of day default A) r }
    ensures legal { (day : ℕ → ℕ) (default : ℕ) (H : List AnyEntry) (r : AnyRequest) →
        IsLegal day default H →
        history_of day default (requests H ++ r ∷ []) ≡ with_arrival day default H r }
    ensures again { (day : ℕ → ℕ) (default : ℕ) (H : List AnyEntry) →
        IsLegal day default H → history_of day default (requests H) ≡ H }
{}

/// What one more entry does to the floor of a host, and to the numbers below it, in any history.
pub fn one_more_floor()
    ensures floor { (H : List AnyEntry) (e : AnyEntry) (h : List ℕ) →
        floor (requests (H ++ e ∷ [])) h ≡ greater (floor (requests H) h) (raised h e.request) }
    ensures below { (H : List AnyEntry) (e : AnyEntry) (id : Id) (txn : ℕ) →
        is_below (requests (H ++ e ∷ [])) id
        ≡ (retires e.request (transaction id txn) || is_below (requests H) id) }
    ensures none { (h : List ℕ) → floor [] h ≡ 0 }
{}

/// The floor of a host is the greatest run of its retires; and only that is.
pub fn floor_is_greatest()
    ensures greatest { (rs : List AnyRequest) (h : List ℕ) → IsFloor rs h (floor rs h) }
    ensures only { (rs : List AnyRequest) (h : List ℕ) (n : ℕ) → IsFloor rs h n → n ≡ floor rs h }
{}

/// A number keeps its entry, and until it is retired the reply to each request that comes under it;
/// from then on each gets Old, and adds nothing to the history.
pub fn number_keeps_its_reply()
    ensures entry { (day : ℕ → ℕ) (default : ℕ) (A B : List AnyRequest) (id : Id) (e : AnyEntry) →
        stored (history_of day default A) id ≡ Some e →
        stored (history_of day default (A ++ B)) id ≡ Some e }
    ensures stored { (day : ℕ → ℕ) (default : ℕ) (A B : List AnyRequest) (r : AnyRequest)
        (id : Id) (e : AnyEntry) → id_of r ≡ Some id → is_below (first (A ++ B)) id ≡ false →
        stored (history_of day default A) id ≡ Some e →
        reply day default (history_of day default (A ++ B)) r
        ≡ reply day default (history_of day default A) r }
    ensures repeated { (day : ℕ → ℕ) (default : ℕ) (A B : List AnyRequest) (r : AnyRequest)
        (id : Id) → id_of r ≡ Some id → is_below (first (A ++ r ∷ B)) id ≡ false →
        reply day default (history_of day default (A ++ r ∷ B)) r
        ≡ reply day default (history_of day default A) r }
    ensures retired { (day : ℕ → ℕ) (default : ℕ) (A B : List AnyRequest) (r : AnyRequest)
        (id : Id) →
        id_of r ≡ Some id → is_below (first A) id ≡ true →
        reply day default (history_of day default (A ++ B)) r ≡ Old id }
    ensures unchanged { (day : ℕ → ℕ) (default : ℕ) (A : List AnyRequest) (r : AnyRequest)
        (id : Id) →
        id_of r ≡ Some id → is_below (first A) id ≡ true →
        history_of day default (A ++ r ∷ []) ≡ history_of day default A }
{}

/// The days of a zone are in range, and so are all replies to requests in range.
pub fn replies_in_range()
    ensures days { (zone : AnyZone) → IsZone zone → IsDayRule (day_of zone) }
    ensures replies { (day : ℕ → ℕ) (default : ℕ) (H : List AnyEntry) (r : AnyRequest) →
        IsAmount default → IsDayRule day → IsLegal day default H → IsRequest r →
        IsReply (reply day default H r) }
    ensures stored { (day : ℕ → ℕ) (default : ℕ) (H : List AnyEntry) →
        IsAmount default → IsDayRule day → IsLegal day default H →
        All (λ e. IsReply e.reply) H }
{}

/// At an offset the day of a moment is the floor of the clock's seconds over 86,400.
pub fn day_is_the_floor()
    ensures { (minutes : ℤ) (moment : ℕ) → IsOffset minutes → IsMoment moment →
        (pos (86400 * day_of (ByOffset minutes) moment) ≤ℤ clock minutes moment)
        × (clock minutes moment <ℤ pos (86400 * (day_of (ByOffset minutes) moment + 1))) }
{}

/// With a rule the day of a moment is that of the civil date that `jiff` shows: in whatever zone it
/// reads from the rule's text, at that instant, the day number of the date, limited.
pub fn day_of_the_civil_date()
    ensures { (text : List ℕ) (zone : AnyTimeZone) (moment : ℕ) (shown : AnyDateTime) →
        IsPosixZone text zone →
        civil_nanos shown ≡ nanos_of_seconds (pos moment)
        +ℤ nanos_of_seconds (offset_at zone (nanos_of_seconds (pos moment))) →
        day_of (ByRule text) moment ≡ limited (epoch_day shown.date) }
{}

/// Days of Central Europe: in winter, in summer, and around a day of 23 hours.
pub fn days_of_central_europe()
    ensures winter { (day_of central_europe 1576105199 ≡ 18241)
        × (day_of central_europe 1576105200 ≡ 18242) }
    ensures summer { (day_of central_europe 1593554399 ≡ 18443)
        × (day_of central_europe 1593554400 ≡ 18444) }
    ensures short { (day_of central_europe 1585436399 ≡ 18349)
        × (day_of central_europe 1585436400 ≡ 18350)
        × (day_of central_europe 1585519199 ≡ 18350)
        × (day_of central_europe 1585519200 ≡ 18351) }
{}

/// The day that `Over` names is the least of all days from the from-day on on which more is used
/// than the limit asks for; and only that day is.
pub fn over_is_least()
    ensures least { (day : ℕ → ℕ) (H : List AnyEntry) (l : List ℕ) (from c : ℕ) →
        IsLeastOver day H l from c (over day H l from c) }
    ensures only { (day : ℕ → ℕ) (H : List AnyEntry) (l : List ℕ) (from c : ℕ) (o : Option ℕ) →
        IsLeastOver day H l from c o → o ≡ over day H l from c }
{}

/// A page has the first hundred logins of a day above a login, ascending; and nothing else is one.
pub fn page_is_first()
    ensures first { (day : ℕ → ℕ) (H : List AnyEntry) (d : ℕ) (after : List ℕ) →
        IsLoginPage day H d after (page day H d after) }
    ensures only { (day : ℕ → ℕ) (H : List AnyEntry) (d : ℕ) (after : List ℕ)
        (ls : List (List ℕ)) → IsLoginPage day H d after ls → ls ≡ page day H d after }
{}

/// What one more entry does to a transaction, in any history; to what it settled the entry of an
/// answer.
pub fn one_more_of_a_transaction()
    ensures named { (H : List AnyEntry) (e : AnyEntry) (t : Transaction) →
        named (H ++ e ∷ []) t ≡ option_or (named H t) (if is_of t e.request then Some e else None) }
    ensures closed { (H : List AnyEntry) (e : AnyEntry) (t : Transaction) →
        closed (H ++ e ∷ []) t
        ≡ (retires e.request t || (closed H t || (is_of t e.request && closes e.reply))) }
    ensures held { (H : List AnyEntry) (e : AnyEntry) (t : Transaction) →
        held (H ++ e ∷ []) t
        ≡ (if retires e.request t || (closed H t || (is_of t e.request && closes e.reply)) then 0
        else held H t + (if is_of t e.request then granted e.request e.reply else 0)) }
    ensures settled { (day : ℕ → ℕ) (default : ℕ) (H : List AnyEntry) (e : AnyEntry)
        (t : Transaction) →
        e.reply ≡ answer day default H e.request → settled_in (H ++ e ∷ []) t
        ≡ settled_in H t + (if is_of t e.request then counted e.request e.reply else 0)
        + (if retires e.request t then held H t else 0) }
{}

/// A transaction with no entry wasn't settled or released, and holds and settled nothing; one that
/// isn't closed settled nothing; what one was granted that wasn't settled or released it holds or
/// settled. Host, run and number say which transaction it is.
pub fn open_transactions()
    ensures unheard { (H : List AnyEntry) (t : Transaction) → named H t ≡ None →
        (ended H t ≡ false) × (held H t ≡ 0) × (settled_in H t ≡ 0) }
    ensures open { (H : List AnyEntry) (t : Transaction) →
        closed H t ≡ false → settled_in H t ≡ 0 }
    ensures kept { (H : List AnyEntry) (t : Transaction) →
        ended H t ≡ false → held H t + settled_in H t ≡ granted_in H t }
    ensures same { (t u : Transaction) → same_transaction t u ≡ true → t ≡ u }
    ensures itself { (t : Transaction) → same_transaction t t ≡ true }
{}

/// What one more entry does to a login and day: in a legal history the entry of an answer, in any
/// history that of an answer to what is settled, any entry to which logins have a granted reserve,
/// and a retire to what is used: nothing.
pub fn one_more_on_a_day()
    ensures reserved { (day : ℕ → ℕ) (default : ℕ) (H : List AnyEntry) (e : AnyEntry)
        (l : List ℕ) (d : ℕ) →
        IsLegal day default H → e.reply ≡ answer day default H e.request →
        reserved day (H ++ e ∷ []) l d + freed day H l d e.request e.reply
        ≡ reserved day H l d + gained day l d e.request e.reply }
    ensures settled { (day : ℕ → ℕ) (default : ℕ) (H : List AnyEntry) (e : AnyEntry) (l : List ℕ)
        (d : ℕ) →
        e.reply ≡ answer day default H e.request →
        settled day (H ++ e ∷ []) l d ≡ settled day H l d + settles day H l d e.request e.reply }
    ensures retired { (day : ℕ → ℕ) (H : List AnyEntry) (id same : Id) (l : List ℕ) (d : ℕ) →
        used day (H ++ record { request = AnyRequest.Retire id; reply = Retired same } ∷ []) l d
        ≡ used day H l d }
    ensures has_reserve { (day : ℕ → ℕ) (H : List AnyEntry) (e : AnyEntry)
        (l : List ℕ) (d : ℕ) →
        has_reserve day (H ++ e ∷ []) d l
        ≡ (has_reserve day H d l || is_login l (login_on day d e.request e.reply)) }
{}

/// What one more entry does to the limits of a login, in any history.
pub fn one_more_limit()
    ensures set_cap { (H : List AnyEntry) (e : AnyEntry) (l : List ℕ) (d : ℕ) →
        set_cap (H ++ e ∷ []) l d
        ≡ (if sets_from l d e then Some (cap_of e.request) else set_cap H l d) }
    ensures cap { (default : ℕ) (H : List AnyEntry) (e : AnyEntry) (l : List ℕ) (d : ℕ) →
        cap default (H ++ e ∷ []) l d
        ≡ (if governs l d e && nat_le (latest (limits H l d)) (from_of e.request)
        then cap_of e.request else cap default H l d) }
{}

/// The limit on a day is the one that was set from the latest day up to it, in any history.
pub fn latest_limit_governs()
    ensures none { (default : ℕ) (H : List AnyEntry) (l : List ℕ) (d : ℕ) →
        ((from : ℕ) → from ≤ d → set_cap H l from ≡ None) → cap default H l d ≡ default }
    ensures latest { (default : ℕ) (H : List AnyEntry) (l : List ℕ) (d from c : ℕ) →
        from ≤ d → set_cap H l from ≡ Some c →
        ((later : ℕ) → from < later → later ≤ d → set_cap H l later ≡ None) →
        cap default H l d ≡ c }
{}

/// Each reply is one to its request, with its number.
pub fn replies_suit()
    ensures answer { (day : ℕ → ℕ) (default : ℕ) (H : List AnyEntry) (r : AnyRequest) →
        Suits r (answer day default H r) }
    ensures stored { (day : ℕ → ℕ) (default : ℕ) (H : List AnyEntry) →
        IsLegal day default H → All (λ e. Suits e.request e.reply) H }
    ensures reply { (day : ℕ → ℕ) (default : ℕ) (H : List AnyEntry) (r : AnyRequest) →
        IsLegal day default H → Suits r (reply day default H r) }
{
    // (a number is looked up by a test that is true of equal ids alone)
    same_is_equal();
}

/// In a legal history what a login has reserved and settled on a day is what its transactions hold
/// and settled: no distinct ones have more, and all that have an entry together have as much.
pub fn sums_over_transactions()
    ensures held { (day : ℕ → ℕ) (default : ℕ) (H : List AnyEntry) (l : List ℕ) (d : ℕ)
        (ts : List Transaction) → IsLegal day default H → AreDistinct ts →
        sum_by (held_on day H l d) ts ≤ reserved day H l d }
    ensures settled { (day : ℕ → ℕ) (default : ℕ) (H : List AnyEntry) (l : List ℕ) (d : ℕ)
        (ts : List Transaction) → IsLegal day default H → AreDistinct ts →
        sum_by (settled_on day H l d) ts ≤ settled day H l d }
    ensures all_held { (day : ℕ → ℕ) (default : ℕ) (H : List AnyEntry) (l : List ℕ) (d : ℕ)
        (ts : List Transaction) → IsLegal day default H → AreDistinct ts → HasAllNamed H ts →
        sum_by (held_on day H l d) ts ≡ reserved day H l d }
    ensures all_settled { (day : ℕ → ℕ) (default : ℕ) (H : List AnyEntry) (l : List ℕ) (d : ℕ)
        (ts : List Transaction) → IsLegal day default H → AreDistinct ts → HasAllNamed H ts →
        sum_by (settled_on day H l d) ts ≡ settled day H l d }
{}

/// In a legal history what a transaction holds is reserved for its login and day, what it settled
/// is settled there, and only a login and day with a granted reserve has used any.
pub fn used_where_reserved()
    ensures held { (day : ℕ → ℕ) (default : ℕ) (H : List AnyEntry) (t : Transaction)
        (moment : ℕ) (login : List ℕ) → IsLegal day default H
        → agrees moment login (named H t) ≡ true →
        held H t ≤ reserved day H login (day moment) }
    ensures settled { (day : ℕ → ℕ) (default : ℕ) (H : List AnyEntry) (t : Transaction)
        (moment : ℕ) (login : List ℕ) → IsLegal day default H
        → agrees moment login (named H t) ≡ true →
        settled_in H t ≤ settled day H login (day moment) }
    ensures none { (day : ℕ → ℕ) (default : ℕ) (H : List AnyEntry) (l : List ℕ) (d : ℕ) →
        IsLegal day default H → has_reserve day H d l ≡ false →
        (reserved day H l d ≡ 0) × (settled day H l d ≡ 0) }
{}

/// In a legal history the numbers of a login and day, and those of a transaction, are amounts.
pub fn amounts_in_range()
    ensures used { (day : ℕ → ℕ) (default : ℕ) (H : List AnyEntry) (l : List ℕ) (d : ℕ) →
        IsAmount default → IsDayRule day → IsLegal day default H →
        IsAmount (used day H l d) × IsAmount (reserved day H l d) × IsAmount (settled day H l d)
        × IsAmount (cap default H l d) }
    ensures held { (day : ℕ → ℕ) (default : ℕ) (H : List AnyEntry) (t : Transaction) →
        IsAmount default → IsDayRule day → IsLegal day default H →
        IsAmount (held H t) × IsAmount (settled_in H t) }
{}
