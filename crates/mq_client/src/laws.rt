//! Laws of a client's past. The functions compute nothing.
ghost use Rattle.std.specs.Prelude.{◌≡◌, ◌==◌, ◌≤◌, ◌*◌, ◌++◌, ◌∷◌, [], ℕ, List, Bool, true, false};
ghost use Rattle.std.specs.Prelude.{None, Some};
ghost use Rattle.std.specs.Prelude.{length, count_by, is_some, if◌then◌else◌};
ghost use Rattle.mq_request.specs.declared.message.Request.{Request};
ghost use Rattle.mq_request.specs.declared.message.Reply.{Reply};
ghost use Rattle.std.specs.List.{list_any};
ghost use Rattle.mq_client.specs.Exchanges.{Exchange, AreTries, IsUndecided, SendsSome, Sends};
ghost use Rattle.mq_client.specs.Exchanges.{ran_out, has_timed_out};
ghost use Rattle.mq_client.specs.Past.{Source, Step, drained, StandsAt, view, Plays, ArePlayed};
ghost use Rattle.mq_client.specs.Past.{IsPlayed};
ghost use Rattle.mq_client.specs.Past.{IsBounded};
ghost use Rattle.mq_client.specs.Reading.{live_in, standing_in, numbers_in, waiting_in};
ghost use Rattle.mq_client.specs.Turns.{next_in, ComeInTurn, IsUnderway, AreUnderway, outcomes};
ghost use Rattle.mq_client.specs.Turns.{quiets, all_outcomes};
ghost use Rattle.mq_client.specs.Numbers.{id_in, txn_in, exchanges_in, request_under, IsNumbered};
ghost use Rattle.mq_client.specs.Numbers.{SettlesWhatWasLet};
ghost use Rattle.mq_client.specs.Numbers.{NoneReturns, Suits};
ghost use Rattle.mq_client.specs.Holding.{Holding, still};
ghost use Rattle.mq_client.specs.Filter.{push, Filters, actions, actions_of};
ghost use Rattle.mq_client.specs.declared.spans.Spans.{Spans};
ghost use Rattle.mq_line.specs.Grammar.{Meaning};
ghost use Rattle.std.specs.List.{AllByRecursion, concat};
ghost use Rattle.mq_client.specs.Run.{Outside, EndsWith, StopsAt};
ghost use Rattle.mq_client.specs.InputFaults.{is_of_input};
ghost use Rattle.mq_client.specs.declared.fault.FilterFault.{FilterFault};
ghost use Rattle.mq_client.specs.declared.filter.RunEnd.{RunEnd};

use mq_frame::laws::one_spelling;
use mq_line::{any_cutting, one_meaning, one_splitting};
use mq_track::laws::closed_stays_closed;

/// However a client was used, also while an exchange is under way, few transactions are live or
/// waiting, each live one has a number left for its closing, and no call makes more than 4,096
/// exchanges for each try.
pub fn few_at_a_time()
    ensures bounded { (s : Source) (tries : ℕ) (P : List Step) → AreUnderway s tries P
        → IsBounded (view s P) }
    ensures exchanges { (s : Source) (tries : ℕ) (P : List Step) (x : Step)
        → AreUnderway s tries (x ∷ P) →
        length x.group ≤ 4096 * tries }
{}

/// What a past leaves is what one reads off the whole list of its steps.
pub fn readings()
    ensures standing { (s : Source) (P : List Step) (t : ℕ)
        → (view s P).standing t ≡ standing_in P t }
    // The live transactions are listed, each once.
    ensures live { (s : Source) (P : List Step) (t : ℕ) →
        count_by (λ u. u == t) (view s P).live ≡ (if is_some (live_in P t) then 1 else 0) }
    ensures numbers { (s : Source) (P : List Step) → (view s P).numbers ≡ numbers_in P }
    ensures waiting { (s : Source) (tries : ℕ) (P : List Step) → AreUnderway s tries P →
        (view s P).waiting ≡ waiting_in s P }
{}

/// Each exchange of a step is the next one: its request follows from what stood before the step and
/// from how its exchanges ended so far. A step ends where none is the next one.
pub fn in_turn()
    ensures turns { (s : Source) (tries : ℕ) (P : List Step) (x : Step) → Plays s tries P x
        → IsUnderway s tries P x }
    ensures all_turns { (s : Source) (tries : ℕ) (P : List Step) → IsPlayed s tries P
        → AreUnderway s tries P }
    ensures last { (s : Source) (tries : ℕ) (P : List Step) (x : Step) → Plays s tries P x →
        next_in s tries P x ≡ None }
    ensures same { (tries : ℕ) (queue : List Request) (g h : List Exchange) →
        ComeInTurn tries queue g → ComeInTurn tries queue h → outcomes g ≡ outcomes h → g ≡ h }
    // Steps of the same actions after the same past are the same where their exchanges ended alike,
    // one after another: which step made which exchange follows.
    ensures steps { (s : Source) (tries : ℕ) (P steps others : List Step)
        → ArePlayed s tries P steps →
        ArePlayed s tries P others →
        actions steps ≡ actions others → quiets steps ≡ quiets others
        → all_outcomes steps ≡ all_outcomes others → steps ≡ others }
{
    // (a frame is that of one request)
    one_spelling();
}

/// Each number of a run is used for one request: two exchanges under one number are of one request,
/// and each request that was sent, or that waits, is the one of its number.
pub fn one_request_for_a_number()
    ensures sent { (s : Source) (tries : ℕ) (P : List Step) → AreUnderway s tries P →
        AllByRecursion (λ x. IsNumbered s P x.request) (exchanges_in P) }
    ensures waiting { (s : Source) (P : List Step) → AllByRecursion (IsNumbered s P)
        (view s P).waiting }
    ensures one { (s : Source) (tries : ℕ) (P : List Step) → AreUnderway s tries P →
        AllByRecursion (λ x. AllByRecursion (λ y. id_in x.request ≡ id_in y.request →
        x.request ≡ y.request) (exchanges_in P)) (exchanges_in P) }
{}

/// Each settle that was sent asks for what its close found let through.
pub fn settles_are_of_what_was_let()
    ensures settles { (s : Source) (tries : ℕ) (P : List Step) → AreUnderway s tries P →
        AllByRecursion (λ x. SettlesWhatWasLet P x.request) (exchanges_in P) }
    // Where no closed transaction was asked for again, a transaction has reserves with its login
    // and moment, and one closing.
    ensures suits { (s : Source) (tries : ℕ) (P : List Step) → AreUnderway s tries P
        → NoneReturns s P →
        (n txn : ℕ) (q : Request) → request_under s P n ≡ Some q → txn_in q ≡ Some txn →
        Suits s n txn ((view s P).standing txn) q }
{}

/// What the filter has its client do follows from the lines, and they never ask for a transaction
/// that was closed.
pub fn closed_is_not_asked_for()
    ensures actions { (spans : Spans) (L : List Meaning) (steps : List Step) (text : List ℕ)
        (h : Holding) →
        Filters spans L steps text h → actions steps ≡ actions_of L }
    ensures none_returns { (s : Source) (L : List Meaning) (P : List Step)
        → actions P ≡ actions_of L →
        NoneReturns s P }
{
    // (the tracker never gives the number of a closed transaction again)
    closed_stays_closed();
}

/// A request begins a pause exactly where no exchange decided it and one ran out of time; of a
/// queue that is the one that stays undecided. So a connection that is refused, which runs out of
/// no time, begins none.
pub fn when_pauses_begin()
    ensures decided { (n : ℕ) (request : Request) (group : List Exchange) (reply : Reply) →
        AreTries n request group (Some reply) → has_timed_out group ≡ false }
    ensures undecided { (n : ℕ) (request : Request) (group : List Exchange)
        → AreTries n request group None →
        has_timed_out group ≡ list_any (λ x. ran_out x.outcome) group }
    ensures sent { (n : ℕ) (queue : List Request) (group : List Exchange) → Sends n queue group [] →
        has_timed_out group ≡ false }
    ensures stopped { (n : ℕ) (queue left : List Request) (request : Request)
        (group tries : List Exchange) →
        SendsSome n queue group (request ∷ left) → IsUndecided n request tries →
        has_timed_out (tries ++ group) ≡ list_any (λ x. ran_out x.outcome) tries }
{}

/// Without a span nothing is held back at any line that has a second, and no step is quiet: each
/// tries as often as the client does.
pub fn without_spans()
    ensures pause { (spans : Spans) (seconds : ℕ) (h : Holding) → spans.pause ≡ 0 →
        (still spans seconds h).paused ≡ None }
    ensures hold { (spans : Spans) (seconds : ℕ) (h : Holding) → spans.hold ≡ 0
        → (still spans seconds h).full ≡ [] }
    ensures none_quiet { (spans : Spans) (L : List Meaning) (steps : List Step) (text : List ℕ)
        (h : Holding) →
        spans.pause ≡ 0 → spans.hold ≡ 0 → Filters spans L steps text h →
        AllByRecursion (λ x. x.quiet ≡ false) steps }
{}

/// A run of the filter that neither a device nor a lack of memory ended follows from its whole
/// input, from the client at its start and from how its exchanges ended, one after another. In
/// which pieces the input came doesn't matter.
pub fn one_run()
    // Two runs to the end of an input whose exchanges ended alike, the last drain's too, do, write
    // and answer the same.
    ensures ends { (o p : Outside) (bytes : List ℕ) (now last : Outside) (e f : RunEnd)
        (P : List Step)
        (h : EndsWith o bytes now e) (i : EndsWith p bytes last f) → StandsAt o.client P
        → p.client ≡ o.client →
        all_outcomes (drained h.group h.steps) ≡ all_outcomes (drained i.group i.steps) →
        (h.steps ≡ i.steps) × (h.group ≡ i.group) × (h.results ≡ i.results) × (e ≡ f) }
    // Two runs that stop at a fault of their input stop at the same line with the same fault. Where
    // their exchanges ended alike, they do and write the same.
    ensures stops { (o p : Outside) (pieces others : List (List ℕ)) (rest more : List ℕ)
        (now last : Outside)
        (read_failed write_failed read_failed' write_failed' : Bool) (f g : FilterFault)
        (h : StopsAt o pieces (Some rest) now read_failed write_failed f)
        (i : StopsAt p others (Some more) last read_failed' write_failed' g) →
        concat pieces ++ rest ≡ concat others ++ more → is_of_input f ≡ true
        → is_of_input g ≡ true →
        (f ≡ g) × (h.lines ≡ i.lines) × ((P : List Step) → StandsAt o.client P
        → p.client ≡ o.client →
        all_outcomes (push h.step h.steps) ≡ all_outcomes (push i.step i.steps) →
        (push h.step h.steps ≡ push i.step i.steps) × (h.text ++ h.front ≡ i.text ++ i.front)) }
    // Where one run comes to the end of its input, no other one stops at a fault of it.
    ensures apart { (o p : Outside) (bytes more : List ℕ) (others : List (List ℕ))
        (now last : Outside)
        (read_failed write_failed : Bool) (e : RunEnd) (g : FilterFault) → EndsWith o bytes now e →
        StopsAt p others (Some more) last read_failed write_failed g
        → bytes ≡ concat others ++ more →
        is_of_input g ≡ false }
{
    // However it is cut, an input has one list of lines, each line one meaning, and each frame is
    // that of one request.
    one_spelling();
    one_meaning();
    one_splitting();
    any_cutting();
}
