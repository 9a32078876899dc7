//! Laws of both ends. The functions compute nothing.
ghost use Rattle.std.specs.Prelude.{◌≡◌, ◌≤◌, ◌+◌, ◌++◌, ◌∷◌, ℕ, List, Bool, Option, true, false};
ghost use Rattle.std.specs.Prelude.{Some};
ghost use Rattle.std.specs.Prelude.{slice_get, sum_by, ℤ};
ghost use Rattle.std.specs.List.{AllByRecursion};
ghost use Rattle.mq_frame.specs.Spelling.{reply_body, frame, request_frame};
ghost use Rattle.mq_request.specs.declared.message.Reply.TheVariants.{Retry, Bad};
ghost use Rattle.mq_link.specs.declared.link.LinkFault.{LinkFault};
ghost use Rattle.mq_link.specs.declared.link.ExchangeOutcome.TheVariants.{Answered, Faulted};
ghost use Rattle.std.specs.Option.{option_map};
ghost use Rattle.mq_line.specs.Grammar.{Meaning};
ghost use Rattle.mq_permits.specs.declared.permits.Permits.{Permits};
ghost use Rattle.mq_ledger.specs.Day.{ByOffset, day_of};
ghost use Rattle.mq_ledger.specs.History.{Transaction, held, settled_in, reserved, settled};
ghost use Rattle.mq_ledger.specs.Legal.{Book, IsLegalBook};
ghost use Rattle.mq_ledger.specs.Limits.{cap};
ghost use Rattle.mq_ledger.specs.Sums.{AreDistinct};
ghost use Rattle.mq_client.specs.Exchanges.{Exchange};
ghost use Rattle.mq_client.specs.Past.{Source, Action, Step, drained, view, Plays, IsPlayed};
ghost use Rattle.mq_client.specs.Past.{IsBounded};
ghost use Rattle.mq_client.specs.Numbers.{exchanges_in};
ghost use Rattle.mq_client.specs.Holding.{Holding};
ghost use Rattle.mq_client.specs.Filter.{Takes, push};
ghost use Rattle.mq_client.specs.Run.{Outside, EndsWith, StopsAt};
ghost use Rattle.mq_client.specs.declared.held_transaction.HeldTransaction.{HeldTransaction};
ghost use Rattle.mq_client.specs.declared.fault.FilterFault.{FilterFault};
ghost use Rattle.mq_client.specs.declared.filter.RunEnd.{RunEnd};
ghost use Rattle.mq_world.specs.World.{Site, World, IsStart, Reaches, Next, with_run, with_sent};
ghost use Rattle.mq_world.specs.World.{with_on_way, after_stop};
ghost use Rattle.mq_world.specs.World.{MayCome};
ghost use Rattle.mq_world.specs.Forgetting.{forgotten, ReachesForgetting};
ghost use Rattle.mq_world.specs.Together.{Together, ledgers, IsStartTogether, ReachesTogether};
ghost use Rattle.mq_world.specs.Together.{kept_of, used_of, cap_of};
ghost use Rattle.mq_world.specs.Permitted.{NextPermitted, ReachesPermitted};
ghost use Rattle.mq_world.specs.Happening.{unused, IsReachable, HasLetOneThrough, WasAnsweredAgain};
ghost use Rattle.mq_world.specs.Happening.{WasTakenTwice};
ghost use Rattle.mq_world.specs.Happening.{CameLate, HasStopped, HasRunToItsEnd, WasRetired};
ghost use Rattle.mq_world.specs.Happening.{WasHeldBack, WentOnThoughForgotten};
ghost use Rattle.mq_world.specs.Happening.{PassedOnAForgottenDay, IsReachableTogether};
ghost use Rattle.mq_world.specs.Happening.{WasGrantedByEach, WasSplit, PassedEachLimit};
ghost use Rattle.mq_world.specs.Happening.{RanOverANight};
ghost use Rattle.mq_world.specs.Running.{ran, step_of, unsent, amid, GoesOnAround, IsNew, lines_at};
ghost use Rattle.mq_world.specs.Running.{IsOrOneMore};
ghost use Rattle.mq_world.specs.RunningTogether.{GoesOnAmid, OthersGoOnTogether, with_run_in};
ghost use Rattle.mq_world.specs.Law.{standing_of, counting, let_by, let_together, IsPastOf};

use mq_client::{
    closed_is_not_asked_for, few_at_a_time, in_turn, one_request_for_a_number, readings,
    settles_are_of_what_was_let,
};
use mq_forget::laws::remembered_is_legal;
use mq_frame::laws::one_spelling;
use mq_ledger::laws::{
    built_is_legal, day_is_the_floor, one_more_arrival, open_transactions, replies_in_range,
    replies_suit, sums_over_transactions, within_limits,
};
use mq_request::laws::same_is_equal;
use mq_track::laws::open_numbers_differ;

/// Whatever is lost, repeated, delayed or retired, over all hosts and runs: what was let through in
/// live and committed transactions never passes the limit of its login and day.
pub fn never_past_the_limit()
    // What one transaction let through is held or settled in the ledger.
    ensures one { (site : Site) (start w : World) → IsStart site start → Reaches site start w →
        (t : Transaction) →
        let_by (standing_of w t) ≤ held w.ledger.history t + settled_in w.ledger.history t }
    // What any transactions of a login and day let through, each taken once, is settled or
    // reserved.
    ensures together { (site : Site) (start w : World) → IsStart site start → Reaches site start w →
        (l : List ℕ) (d : ℕ) (ts : List Transaction) → AreDistinct ts →
        let_together w l d ts ≤ settled (day_of w.ledger.zone) w.ledger.history l d
        + reserved (day_of w.ledger.zone) w.ledger.history l d }
    // So it is at most the limit.
    ensures limit { (site : Site) (start w : World) → IsStart site start → Reaches site start w →
        (l : List ℕ) (d : ℕ) (ts : List Transaction) → AreDistinct ts →
        let_together w l d ts ≤ cap w.ledger.default w.ledger.history l d }
    // Each run's past is the one of its lines, its last step perhaps under way: few transactions
    // are live or waiting, and each live one has a number left for its closing.
    ensures pasts { (site : Site) (start w : World) → IsStart site start → Reaches site start w →
        (s : Source) → site.is_run s ≡ true → IsPastOf s (site.tries s) (w.runs s) }
    ensures bounded { (site : Site) (start w : World) → IsStart site start → Reaches site start w →
        (s : Source) → site.is_run s ≡ true → IsBounded (view s (w.runs s).past) }
{
    // (the law over a forgetting, where nothing is forgotten)
    never_past_the_limit_over_a_forgetting();
}

/// The same for days from F on, where the ledger forgets days before F while runs go on, once or
/// more often: what runs ask about a forgotten day may then be applied once more, and touches no
/// day from F on.
///
/// A transaction is of the day of its first ask's moment.
pub fn never_past_the_limit_over_a_forgetting()
    // A start whose ledger has forgotten some days is a start.
    ensures start { (site : Site) (w : World) (D : ℕ) → IsStart site w
        → IsStart site (forgotten D w) }
    ensures one { (site : Site) (start w : World) (F : ℕ) → IsStart site start
        → ReachesForgetting site start F w →
        (t : Transaction) (h : HeldTransaction) → counting (standing_of w t)
        ≡ Some h → F ≤ day_of w.ledger.zone h.moment →
        let_by (standing_of w t) ≤ held w.ledger.history t + settled_in w.ledger.history t }
    ensures together { (site : Site) (start w : World) (F : ℕ) → IsStart site start →
        ReachesForgetting site start F w → (l : List ℕ) (d : ℕ) (ts : List Transaction)
        → AreDistinct ts → F ≤ d →
        let_together w l d ts ≤ settled (day_of w.ledger.zone) w.ledger.history l d
        + reserved (day_of w.ledger.zone) w.ledger.history l d }
    ensures limit { (site : Site) (start w : World) (F : ℕ) → IsStart site start →
        ReachesForgetting site start F w → (l : List ℕ) (d : ℕ) (ts : List Transaction)
        → AreDistinct ts → F ≤ d →
        let_together w l d ts ≤ cap w.ledger.default w.ledger.history l d }
    // Of runs all is as without a forgetting.
    ensures pasts { (site : Site) (start w : World) (F : ℕ) → IsStart site start →
        ReachesForgetting site start F w →
        (s : Source) → site.is_run s ≡ true → IsPastOf s (site.tries s) (w.runs s) }
    ensures bounded { (site : Site) (start w : World) (F : ℕ) → IsStart site start →
        ReachesForgetting site start F w →
        (s : Source) → site.is_run s ≡ true → IsBounded (view s (w.runs s).past) }
{
    // (the law over several servers, where there is one)
    never_past_the_limits_together();
    // What is remembered at a forgetting is a legal history again.
    remembered_is_legal();
}

/// The same over several servers, each with a ledger of its own, where the address that filters ask
/// moves from one to another at any time, and any of them forgets days before F: a filter goes on
/// with its host, run, numbers and open transactions, and no server knows of another.
///
/// A grant counts in the ledger that gave it. A settle is settled where the ledger holds as much as
/// was let through, and changes nothing elsewhere; what other ledgers hold of it stays reserved
/// until its run is retired.
pub fn never_past_the_limits_together()
    // What one transaction let through, the ledgers hold or have settled together.
    ensures one { (site : Site) (start c : Together) (F : ℕ) → IsStartTogether site start →
        ReachesTogether site start F c → (t : Transaction) (h : HeldTransaction) →
        counting (standing_of c.world t) ≡ Some h → F ≤ day_of c.world.ledger.zone h.moment →
        let_by (standing_of c.world t) ≤ sum_by (kept_of t) (ledgers c) }
    // What any transactions of a login and day let through, each taken once, they have settled and
    // reserved.
    ensures together { (site : Site) (start c : Together) (F : ℕ) → IsStartTogether site start →
        ReachesTogether site start F c → (l : List ℕ) (d : ℕ) (ts : List Transaction)
        → AreDistinct ts → F ≤ d →
        let_together c.world l d ts ≤ sum_by (used_of l d) (ledgers c) }
    // So it is at most the sum of the limits.
    ensures limit { (site : Site) (start c : Together) (F : ℕ) → IsStartTogether site start →
        ReachesTogether site start F c → (l : List ℕ) (d : ℕ) (ts : List Transaction)
        → AreDistinct ts → F ≤ d →
        let_together c.world l d ts ≤ sum_by (cap_of l d) (ledgers c) }
    // Each ledger keeps its own rules, and so its own limit.
    ensures each { (site : Site) (start c : Together) (F : ℕ) → IsStartTogether site start →
        ReachesTogether site start F c → AllByRecursion IsLegalBook (ledgers c) }
    // Of runs all is as with one server.
    ensures pasts { (site : Site) (start c : Together) (F : ℕ) → IsStartTogether site start →
        ReachesTogether site start F c →
        (s : Source) → site.is_run s ≡ true → IsPastOf s (site.tries s) (c.world.runs s) }
    ensures bounded { (site : Site) (start c : Together) (F : ℕ) → IsStartTogether site start →
        ReachesTogether site start F c →
        (s : Source) → site.is_run s ≡ true → IsBounded (view s (c.world.runs s).past) }
{
    // A frame on its way is that of one request.
    one_spelling();
    same_is_equal();
    // A client: one request for a number, a settle of what was let through, nothing asked for after
    // a close.
    few_at_a_time();
    readings();
    one_request_for_a_number();
    settles_are_of_what_was_let();
    closed_is_not_asked_for();
    // A tracker: no two sessions of a host have one transaction.
    open_numbers_differ();
    // The ledger: what one more arrival changes, and that its reply is one to that very request.
    built_is_legal();
    one_more_arrival();
    open_transactions();
    replies_in_range();
    replies_suit();
    // So what was let through is at most the sums of the day, and these are at most the limit.
    sums_over_transactions();
    within_limits();
    // What is remembered at a forgetting is a legal history again.
    remembered_is_legal();
}

/// The same where the servers go by a table of who may ask what, and others send anything, from
/// anywhere: what the table doesn't allow is never taken. So it is enough that from the addresses
/// which the table gives for a host, or for administrators, nobody but the filter itself asks under
/// that host and the filter's run.
pub fn never_past_the_limits_by_addresses()
    // What others send, and the table allows, is no request of a filter run.
    ensures step { (site : Site) (permits : Permits) (w later : World)
        → NextPermitted site permits w later → Next site w later }
    ensures reached { (site : Site) (permits : Permits) (start c : Together) (F : ℕ)
        → ReachesPermitted site permits start F c → ReachesTogether site start F c }
    // So what transactions of a login and day let through is at most the sum of the limits.
    ensures limit { (site : Site) (permits : Permits) (start c : Together) (F : ℕ)
        → IsStartTogether site start → ReachesPermitted site permits start F c
        → (l : List ℕ) (d : ℕ) (ts : List Transaction) → AreDistinct ts → F ≤ d →
        let_together c.world l d ts ≤ sum_by (cap_of l d) (ledgers c) }
{
    never_past_the_limits_together();
}

/// What a filter run's contract allows is a way through worlds: no line, no exchange and no end of
/// a run is one that the steps of a world leave out. What a run's contract says of it, it says with
/// the same words as `run_filter`.
pub fn each_run_is_of_a_world()
    // A line that the run takes begins the step that it makes.
    ensures lines { (site : Site) (w : World) (s : Source) (L : List Meaning) (P : List Step)
        (m : Meaning)
        (step : Option Step) (text : List ℕ) (h : Holding) → site.is_run s ≡ true
        → w.runs s ≡ ran L P false →
        IsPlayed s (site.tries s) P → Takes h L m step text →
        Next site w (with_run w s (ran (m ∷ L) (push (option_map unsent step) P) false)) }
    // Each exchange of a step is sent once those before it have ended, whatever others did since
    // then.
    ensures sends { (site : Site) (w : World) (s : Source) (L : List Meaning) (P : List Step)
        (is_at_end : Bool)
        (action : Action) (quiet : Bool) (later earlier : List Exchange) (x : Exchange)
        → site.is_run s ≡ true →
        Plays s (site.tries s) P (step_of action quiet (later ++ x ∷ earlier)) →
        w.runs s ≡ amid L action quiet earlier P is_at_end →
        Next site w (with_sent (with_run w s (with_on_way (Some x.request) (amid L action quiet earlier P is_at_end)))
        (request_frame x.request)) }
    // It ends with what may come by then, and comes to what the step says.
    ensures ends { (site : Site) (w : World) (s : Source) (L : List Meaning) (P : List Step)
        (is_at_end : Bool)
        (action : Action) (quiet : Bool) (later earlier : List Exchange) (x : Exchange)
        → site.is_run s ≡ true →
        Plays s (site.tries s) P (step_of action quiet (later ++ x ∷ earlier)) →
        w.runs s ≡ with_on_way (Some x.request) (amid L action quiet earlier P is_at_end)
        → MayCome w.written x.outcome →
        Next site w (with_run w s (amid L action quiet (x ∷ earlier) P is_at_end)) }
    // What may come is a fault of the link, Retry, Bad, and any reply that was ever written.
    ensures faults { (written : List (List ℕ)) (fault : LinkFault)
        → MayCome written (Faulted fault) }
    ensures retry { (written : List (List ℕ)) → MayCome written (Answered (reply_body Retry)) }
    ensures bad { (written : List (List ℕ)) → MayCome written (Answered (reply_body Bad)) }
    ensures replies { (written : List (List ℕ)) (which : ℕ) (body : List ℕ) →
        slice_get written which ≡ Some (frame body) → MayCome written (Answered body) }
    // A run to the end of its input is one of a world, whatever others do around its exchanges: the
    // world that all come to is reached, with the run as it is then.
    ensures whole { (site : Site) (w later : World) (s : Source) (o : Outside) (bytes : List ℕ)
        (now : Outside) (e : RunEnd)
        (h : EndsWith o bytes now e) → IsNew site w s o.client →
        GoesOnAround site s w (exchanges_in (drained h.group h.steps)) later →
        Reaches site w (with_run later s (ran h.after_ready (drained h.group h.steps) true)) }
    // So is one that stopped, with the line in hand read or not.
    ensures stopped { (site : Site) (w later : World) (s : Source) (o : Outside)
        (pieces : List (List ℕ))
        (source : Option (List ℕ)) (now : Outside) (read_failed write_failed : Bool) (f : FilterFault)
        (h : StopsAt o pieces source now read_failed write_failed f) → IsNew site w s o.client →
        GoesOnAround site s w (exchanges_in (push h.step h.steps)) later →
        (lines : List Meaning) × IsOrOneMore lines (lines_at h.stage)
        × Reaches site w (with_run later s (after_stop (ran lines (push h.step h.steps) false))) }
    // So what a run let through, with all others, is at most the limit.
    ensures limit { (site : Site) (start w later : World) (s : Source) (o : Outside)
        (bytes : List ℕ) (now : Outside)
        (e : RunEnd) (h : EndsWith o bytes now e) → IsStart site start → Reaches site start w →
        IsNew site w s o.client → GoesOnAround site s w
        (exchanges_in (drained h.group h.steps)) later →
        (l : List ℕ) (d : ℕ) (ts : List Transaction) → AreDistinct ts →
        let_together (with_run later s (ran h.after_ready (drained h.group h.steps) true)) l d ts
        ≤ cap later.ledger.default later.ledger.history l d }
    // With several servers, while the address moves between them and any of them forgets days
    // before F, as over a night, what all come to is reached too.
    ensures whole_together { (site : Site) (start c later : Together) (F : ℕ) (s : Source)
        (o : Outside) (bytes : List ℕ) (now : Outside) (e : RunEnd) (h : EndsWith o bytes now e) →
        ReachesTogether site start F c → IsNew site c.world s o.client →
        GoesOnAmid (OthersGoOnTogether site s F) c (exchanges_in (drained h.group h.steps)) later →
        ReachesTogether site start F
        (with_run_in later s (ran h.after_ready (drained h.group h.steps) true)) }
    ensures stopped_together { (site : Site) (start c later : Together) (F : ℕ) (s : Source)
        (o : Outside) (pieces : List (List ℕ))
        (source : Option (List ℕ)) (now : Outside) (read_failed write_failed : Bool) (f : FilterFault)
        (h : StopsAt o pieces source now read_failed write_failed f) →
        ReachesTogether site start F c → IsNew site c.world s o.client →
        GoesOnAmid (OthersGoOnTogether site s F) c (exchanges_in (push h.step h.steps)) later →
        (lines : List Meaning) × IsOrOneMore lines (lines_at h.stage)
        × ReachesTogether site start F
        (with_run_in later s (after_stop (ran lines (push h.step h.steps) false))) }
    // So what was let through of F and later days is at most the sum of the limits.
    ensures limits { (site : Site) (start c later : Together) (F : ℕ) (s : Source)
        (o : Outside) (bytes : List ℕ) (now : Outside) (e : RunEnd) (h : EndsWith o bytes now e) →
        IsStartTogether site start → ReachesTogether site start F c →
        IsNew site c.world s o.client →
        GoesOnAmid (OthersGoOnTogether site s F) c (exchanges_in (drained h.group h.steps)) later →
        (l : List ℕ) (d : ℕ) (ts : List Transaction) → AreDistinct ts → F ≤ d →
        let_together (with_run later.world s (ran h.after_ready (drained h.group h.steps) true)) l d ts
        ≤ sum_by (cap_of l d) (ledgers later) }
{
    never_past_the_limit();
    never_past_the_limits_together();
    // (each exchange of a step is the next one)
    in_turn();
}

/// Worlds are reached in which mail goes through and the network does its worst: a law of all
/// worlds speaks of such ones too. The start's ledger may have any zone, and any default of at
/// least one; where a run goes on to a later day over a forgetting, any zone with an offset.
pub fn what_may_happen()
    ensures let_through { (b : Book) → IsLegalBook (unused b) → 1 ≤ b.default
        → IsReachable b HasLetOneThrough }
    ensures answered_again { (b : Book) → IsLegalBook (unused b) → 1 ≤ b.default
        → IsReachable b WasAnsweredAgain }
    ensures taken_twice { (b : Book) → IsLegalBook (unused b) → 1 ≤ b.default
        → IsReachable b WasTakenTwice }
    ensures late { (b : Book) → IsLegalBook (unused b) → 1 ≤ b.default → IsReachable b CameLate }
    ensures stopped { (b : Book) → IsLegalBook (unused b) → IsReachable b HasStopped }
    ensures as_a_run { (b : Book) → IsLegalBook (unused b) → 1 ≤ b.default
        → IsReachable b HasRunToItsEnd }
    ensures retired { (b : Book) → IsLegalBook (unused b) → 1 ≤ b.default
        → IsReachable b WasRetired }
    ensures held_back { (b : Book) → IsLegalBook (unused b) → 1 ≤ b.default
        → IsReachable b WasHeldBack }
    ensures forgotten { (b : Book) (minutes : ℤ) → b.zone ≡ ByOffset minutes
        → IsLegalBook (unused b) →
        1 ≤ b.default → IsReachable b WentOnThoughForgotten }
    // Of forgotten days no law speaks, since there the limit may be passed.
    ensures passed { (b : Book) → IsLegalBook (unused b) → b.default ≡ 1
        → IsReachable b PassedOnAForgottenDay }
    // With two servers a recipient may count at both, a settle may find too little at either, and
    // each limit alone may be passed.
    ensures granted_by_each { (a b : Book) → IsLegalBook (unused a) → IsLegalBook (unused b)
        → b.zone ≡ a.zone →
        1 ≤ a.default → 1 ≤ b.default → IsReachableTogether a b WasGrantedByEach }
    ensures split { (a b : Book) → IsLegalBook (unused a) → IsLegalBook (unused b)
        → b.zone ≡ a.zone →
        1 ≤ a.default → 1 ≤ b.default → IsReachableTogether a b WasSplit }
    ensures passed_each { (a b : Book) → IsLegalBook (unused a) → IsLegalBook (unused b)
        → b.zone ≡ a.zone →
        a.default ≡ 1 → b.default ≡ 1 → IsReachableTogether a b PassedEachLimit }
    // A run goes on while its server forgets and the address moves.
    ensures over_a_night { (a b : Book) (day : ℕ) → IsLegalBook (unused a) → IsLegalBook (unused b)
        → b.zone ≡ a.zone → 1 ≤ a.default → RanOverANight a b day }
{
    // (a run's contract leads to such a world)
    each_run_is_of_a_world();
    // (the frames of these worlds are read as the requests that were sent)
    one_spelling();
    // (on which days their moments lie)
    day_is_the_floor();
}
