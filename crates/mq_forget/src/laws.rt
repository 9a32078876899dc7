//! Laws of what is remembered. Each function does nothing: its contract is the law.
ghost use Rattle.std.specs.Prelude.{◌≡◌, ◌≤◌, ◌<◌, ℕ, List, [], ◌∷◌, ◌++◌, Some, None, All, true};
ghost use Rattle.std.specs.Prelude.{false, map, filter, take, ◌+◌};
ghost use Rattle.std.specs.Prelude.{if◌then◌else◌};
ghost use Rattle.mq_request.specs.declared.message.Id.{Id};
ghost use Rattle.mq_request.specs.declared.message.Request.{Request as AnyRequest};
ghost use Rattle.mq_request.specs.declared.message.Request.TheVariants.{Limit};
ghost use Rattle.mq_request.specs.declared.message.Reply.TheVariants.{Old};
ghost use Rattle.mq_request.specs.Range.{IsRequest};
ghost use Rattle.mq_ledger.specs.declared.entry.Entry.{Entry as AnyEntry};
ghost use Rattle.mq_ledger.specs.Answer.{answer, known_by, reply, with_arrival, history_of};
ghost use Rattle.mq_ledger.specs.Answer.{replies_after, replies};
ghost use Rattle.mq_ledger.specs.Arrivals.{id_of, floor, is_below, greater};
ghost use Rattle.mq_ledger.specs.History.{requests, Transaction, named, reserved, settled, used, moment_of};
ghost use Rattle.mq_ledger.specs.Legal.{IsLegal};
ghost use Rattle.mq_ledger.specs.Limits.{cap};
ghost use Rattle.mq_ledger.specs.Page.{page, has_reserve};
ghost use Rattle.mq_forget.specs.Remembered.{stays, remembered, is_later, AreLater};
ghost use Rattle.mq_forget.specs.Remembered.{is_past, AreLaterOrPast};
ghost use Rattle.mq_forget.specs.Remembered.{is_about, AreLaterOrLate, is_of_no_forgotten};
ghost use Rattle.mq_forget.specs.Carried.{IsAt};
ghost use Rattle.mq_forget.specs.Kept.{AreAlike, Keeps};

use mq_ledger::laws::{built_is_legal, one_more_arrival, over_is_least, page_is_first};
use mq_request::laws::same_is_equal;

/// Whether an entry stays is known from the entries up to it: each prefix of a history is
/// remembered as it is in the whole, and one more entry is added or isn't.
pub fn fronts_are_remembered()
    ensures front { (day : ℕ → ℕ) (D : ℕ) (H S : List AnyEntry) →
        filter (stays day D (H ++ S)) H ≡ remembered day D H }
    ensures one_more { (day : ℕ → ℕ) (D : ℕ) (H : List AnyEntry) (e : AnyEntry) →
        remembered day D (H ++ e ∷ [])
        ≡ remembered day D H ++ (if stays day D (H ++ e ∷ []) e then e ∷ [] else []) }
{}

/// Each prefix of a legal history is one, and the entry after it has a number that is new there,
/// and its answer. Asked in order, its requests get the replies of its entries.
pub fn fronts_are_legal()
    ensures front { (day : ℕ → ℕ) (default : ℕ) (H S : List AnyEntry) →
        IsLegal day default (H ++ S) → IsLegal day default H }
    ensures next { (day : ℕ → ℕ) (default : ℕ) (H S : List AnyEntry) (e : AnyEntry) →
        IsLegal day default (H ++ e ∷ S) →
        (known_by H (id_of e.request) ≡ false) × (e.reply ≡ answer day default H e.request) }
    ensures replies { (day : ℕ → ℕ) (default : ℕ) (H : List AnyEntry) → IsLegal day default H →
        replies day default (requests H) ≡ map (λ e. e.reply) H }
{
    // A legal history is what its requests make, one after another.
    built_is_legal();
    one_more_arrival();
}

/// What is remembered of a legal history is legal, and keeps what it told of D and later days.
fn remembered_keeps()
    ensures { (day : ℕ → ℕ) (default D : ℕ) (H : List AnyEntry) → IsLegal day default H →
        Keeps day default D (remembered day D H) H }
{
    // Arrival by arrival; the day that `Over` names is the least and a page has the first logins,
    // in both histories alike.
    built_is_legal();
    one_more_arrival();
    over_is_least();
    page_is_first();
}

/// What is remembered of a legal history is legal: its requests, asked again in their order, make
/// these entries, and each gets the reply that it got.
pub fn remembered_is_legal()
    ensures legal { (day : ℕ → ℕ) (default D : ℕ) (H : List AnyEntry) → IsLegal day default H →
        IsLegal day default (remembered day D H) }
    ensures built { (day : ℕ → ℕ) (default D : ℕ) (H : List AnyEntry) → IsLegal day default H →
        history_of day default (requests (remembered day D H)) ≡ remembered day D H }
    ensures replies { (day : ℕ → ℕ) (default D : ℕ) (H : List AnyEntry) → IsLegal day default H →
        replies day default (requests (remembered day D H))
        ≡ map (λ e. e.reply) (remembered day D H) }
{
    // What is remembered of the entries before one gives it the reply that it got.
    remembered_keeps();
    one_more_arrival();
    fronts_are_legal();
}

/// On D and later days a login has used what it had; on earlier days nothing. Its limits are as
/// before on every day, in any history.
pub fn days_are_kept()
    ensures reserved { (day : ℕ → ℕ) (default D : ℕ) (H : List AnyEntry) (l : List ℕ) (d : ℕ) →
        IsLegal day default H → D ≤ d → reserved day (remembered day D H) l d ≡ reserved day H l d }
    ensures settled { (day : ℕ → ℕ) (default D : ℕ) (H : List AnyEntry) (l : List ℕ) (d : ℕ) →
        IsLegal day default H → D ≤ d → settled day (remembered day D H) l d ≡ settled day H l d }
    ensures used { (day : ℕ → ℕ) (default D : ℕ) (H : List AnyEntry) (l : List ℕ) (d : ℕ) →
        IsLegal day default H → D ≤ d → used day (remembered day D H) l d ≡ used day H l d }
    ensures has_reserve { (day : ℕ → ℕ) (default D : ℕ) (H : List AnyEntry) (l : List ℕ) (d : ℕ) →
        IsLegal day default H → D ≤ d → has_reserve day (remembered day D H) d l
        ≡ has_reserve day H d l }
    ensures page { (day : ℕ → ℕ) (default D : ℕ) (H : List AnyEntry) (d : ℕ) (after : List ℕ) →
        IsLegal day default H → D ≤ d → page day (remembered day D H) d after ≡ page day H d after }
    ensures cap { (day : ℕ → ℕ) (default D : ℕ) (H : List AnyEntry) (l : List ℕ) (d : ℕ) →
        cap default (remembered day D H) l d ≡ cap default H l d }
    ensures earlier { (day : ℕ → ℕ) (default D : ℕ) (H : List AnyEntry) (l : List ℕ) (d : ℕ) →
        IsLegal day default H → d < D →
        (used day (remembered day D H) l d ≡ 0) × (has_reserve day (remembered day D H) d l
        ≡ false) }
{
    // (what a page is, by its logins alone)
    remembered_keeps();
    page_is_first();
}

/// All entries of a transaction stay or none: one of D or a later day is named, closed, held and
/// settled as before, and no entry of an earlier one is left. The floors of all hosts are as
/// before, so that of an earlier one it is still known whether its run is given up. In any history.
pub fn transactions_are_kept()
    ensures later { (day : ℕ → ℕ) (D : ℕ) (H : List AnyEntry) (t : Transaction) (e : AnyEntry) →
        named H t ≡ Some e → D ≤ day (moment_of e.request) → AreAlike (remembered day D H) H t }
    ensures earlier { (day : ℕ → ℕ) (D : ℕ) (H : List AnyEntry) (t : Transaction) (e : AnyEntry) →
        named H t ≡ Some e → day (moment_of e.request) < D → named (remembered day D H) t ≡ None }
    ensures unheard { (day : ℕ → ℕ) (D : ℕ) (H : List AnyEntry) (t : Transaction) →
        named H t ≡ None → AreAlike (remembered day D H) H t }
    ensures floor { (day : ℕ → ℕ) (D : ℕ) (H : List AnyEntry) (h : List ℕ) →
        floor (requests (remembered day D H)) h ≡ floor (requests H) h }
{}

/// One such request of `later_requests_are_answered_alike`.
fn a_later_request_is_answered_alike()
    ensures { (day : ℕ → ℕ) (default D : ℕ) (H : List AnyEntry) (r : AnyRequest) →
        IsLegal day default H → is_later day D H r ≡ true →
        (reply day default (remembered day D H) r ≡ reply day default H r)
        × (with_arrival day default (remembered day D H) r
        ≡ remembered day D (with_arrival day default H r)) }
{
    // (as above)
    built_is_legal();
    one_more_arrival();
    over_is_least();
    page_is_first();
}

/// Who asks about D and later days, under no number that was forgotten, can't tell: each such
/// request is replied to as before and leads to the same, also a repeat; and so are any that come
/// one after another.
pub fn later_requests_are_answered_alike()
    ensures reply { (day : ℕ → ℕ) (default D : ℕ) (H : List AnyEntry) (r : AnyRequest) →
        IsLegal day default H → is_later day D H r ≡ true →
        reply day default (remembered day D H) r ≡ reply day default H r }
    ensures history { (day : ℕ → ℕ) (default D : ℕ) (H : List AnyEntry) (r : AnyRequest) →
        IsLegal day default H → is_later day D H r ≡ true →
        with_arrival day default (remembered day D H) r
        ≡ remembered day D (with_arrival day default H r) }
    ensures replies { (day : ℕ → ℕ) (default D : ℕ) (H : List AnyEntry) (A : List AnyRequest) →
        IsLegal day default H → All IsRequest A → AreLater day default D H A →
        replies_after day default (requests (remembered day D H)) A
        ≡ replies_after day default (requests H) A }
    ensures arrivals { (day : ℕ → ℕ) (default D : ℕ) (H : List AnyEntry) (A : List AnyRequest) →
        IsLegal day default H → All IsRequest A → AreLater day default D H A →
        history_of day default (requests (remembered day D H) ++ A)
        ≡ remembered day D (history_of day default (requests H ++ A)) }
{
    // One request after another, and what is remembered stays a legal history between them.
    a_later_request_is_answered_alike();
    remembered_is_legal();
    built_is_legal();
    one_more_arrival();
}

/// What is asked about earlier days touches none from D on: two histories of which the same is
/// remembered stay so while each arrival is later over both, past over both or known to both, and
/// later ones get the same replies. One of the two may be what is remembered of the other.
pub fn past_requests_touch_no_later_day()
    ensures past { (day : ℕ → ℕ) (default D : ℕ) (H : List AnyEntry) (r : AnyRequest) →
        is_past day default D H r ≡ true →
        remembered day D (with_arrival day default H r) ≡ remembered day D H }
    ensures arrivals { (day : ℕ → ℕ) (default D : ℕ) (H K : List AnyEntry) (A : List AnyRequest) →
        IsLegal day default H → IsLegal day default K → remembered day D K ≡ remembered day D H →
        All IsRequest A → AreLaterOrPast day default D H K A →
        remembered day D (history_of day default (requests K ++ A))
        ≡ remembered day D (history_of day default (requests H ++ A)) }
    ensures reply { (day : ℕ → ℕ) (default D : ℕ) (H K : List AnyEntry) (A : List AnyRequest)
        (r : AnyRequest) →
        IsLegal day default H → IsLegal day default K → remembered day D K ≡ remembered day D H →
        All IsRequest A → AreLaterOrPast day default D H K A →
        is_later day D (history_of day default (requests H ++ A)) r ≡ true →
        is_later day D (history_of day default (requests K ++ A)) r ≡ true →
        reply day default (history_of day default (requests K ++ A)) r
        ≡ reply day default (history_of day default (requests H ++ A)) r }
{
    // Arrival by arrival: a later one adds the same to both histories, a past one nothing that is
    // remembered.
    a_later_request_is_answered_alike();
    built_is_legal();
    one_more_arrival();
}

/// The same, by what the whole history says alone: where each arrival is a later one, or a request
/// of an earlier day that comes for the first time or again as it was, or has a number that was
/// first used since, later ones get the same replies from what is remembered as from the whole. So
/// does any that is about D or a later day and doesn't have the number of a forgotten entry.
pub fn late_requests_touch_no_later_day()
    ensures each { (day : ℕ → ℕ) (default D : ℕ) (H : List AnyEntry) (A : List AnyRequest) →
        IsLegal day default H → All IsRequest A → AreLaterOrLate day default D H A →
        AreLaterOrPast day default D H (remembered day D H) A }
    ensures reply { (day : ℕ → ℕ) (default D : ℕ) (H : List AnyEntry) (A : List AnyRequest)
        (r : AnyRequest) →
        IsLegal day default H → All IsRequest A → AreLaterOrLate day default D H A →
        is_later day D (history_of day default (requests H ++ A)) r ≡ true →
        reply day default (history_of day default (requests (remembered day D H) ++ A)) r
        ≡ reply day default (history_of day default (requests H ++ A)) r }
    ensures about { (day : ℕ → ℕ) (default D : ℕ) (H : List AnyEntry) (A : List AnyRequest)
        (r : AnyRequest) →
        IsLegal day default H → All IsRequest A → AreLaterOrLate day default D H A →
        is_about day D (history_of day default (requests H ++ A)) r ≡ true →
        is_of_no_forgotten day D H (id_of r) ≡ true →
        reply day default (history_of day default (requests (remembered day D H) ++ A)) r
        ≡ reply day default (history_of day default (requests H ++ A)) r }
{
    // (a request that comes again is the one that was sent)
    same_is_equal();
    a_later_request_is_answered_alike();
    past_requests_touch_no_later_day();
    remembered_is_legal();
    forgetting_again();
    built_is_legal();
    one_more_arrival();
}

/// Each number of a run that is given up gets Old as before, whether its entry stays or goes, and
/// nothing changes. In any history.
pub fn retired_numbers_stay_so()
    ensures { (day : ℕ → ℕ) (default D : ℕ) (H : List AnyEntry) (r : AnyRequest) (id : Id) →
        id_of r ≡ Some id → is_below (requests H) id ≡ true →
        (reply day default (remembered day D H) r ≡ Old id)
        × (with_arrival day default (remembered day D H) r ≡ remembered day D H) }
{}

/// A new limit is answered as one from D on, where it is from an earlier day.
pub fn earlier_limits_are_from_then()
    ensures { (day : ℕ → ℕ) (default D : ℕ) (H : List AnyEntry) (id : Id) (from c : ℕ)
        (login : List ℕ) →
        IsLegal day default H →
        answer day default (remembered day D H) (Limit id from c login)
        ≡ answer day default H (Limit id (greater from D) c login) }
{
    // On the days before D nothing is used, so the first day with more than the cap is D or later.
    built_is_legal();
    one_more_arrival();
    over_is_least();
    page_is_first();
}

/// To forget up to one day and then up to a later one is to forget up to the later. In any history.
pub fn forgetting_again()
    ensures { (day : ℕ → ℕ) (D E : ℕ) (H : List AnyEntry) → D ≤ E →
        remembered day E (remembered day D H) ≡ remembered day E H }
{}

/// A ledger that has what a prefix of a legal history leaves has what the prefix with the next
/// entry leaves, once it has applied that entry's request where the entry stays, and at once where
/// it doesn't.
pub fn one_more_is_carried_over()
    ensures stays { (day : ℕ → ℕ) (default D : ℕ) (H S : List AnyEntry) (e : AnyEntry) →
        IsLegal day default (H ++ e ∷ S) → stays day D (H ++ e ∷ S) e ≡ true →
        history_of day default (requests (remembered day D H) ++ e.request ∷ [])
        ≡ remembered day D (H ++ e ∷ []) }
    ensures goes { (day : ℕ → ℕ) (default D : ℕ) (H S : List AnyEntry) (e : AnyEntry) →
        IsLegal day default (H ++ e ∷ S) → stays day D (H ++ e ∷ S) e ≡ false →
        remembered day D (H ++ e ∷ []) ≡ remembered day D H }
{
    // (what was carried over so far gives the next entry the reply that it got)
    remembered_is_legal();
    fronts_are_legal();
}

/// The same by places, from 0 on, for whoever goes through a history one entry after another.
pub fn next_place_is_carried_over()
    ensures stays { (day : ℕ → ℕ) (default D : ℕ) (H : List AnyEntry) (place : ℕ) (e : AnyEntry) →
        IsLegal day default H → IsAt H place e → stays day D H e ≡ true →
        history_of day default (requests (remembered day D (take place H)) ++ e.request ∷ [])
        ≡ remembered day D (take (place + 1) H) }
    ensures goes { (day : ℕ → ℕ) (default D : ℕ) (H : List AnyEntry) (place : ℕ) (e : AnyEntry) →
        IsLegal day default H → IsAt H place e → stays day D H e ≡ false →
        remembered day D (take place H) ≡ remembered day D (take (place + 1) H) }
{
    // (the history, cut at the place)
    one_more_is_carried_over();
}
