//! Laws of what is served. Each is the contract of a function that does nothing.
ghost use Rattle.std.specs.Prelude.{◌≡◌, ◌⊎◌, ℕ, List, [], ◌++◌, length, map, Option, None, Some};
ghost use Rattle.std.specs.Prelude.{Ok};
ghost use Rattle.std.specs.Io.KnownBytes.{Appends};
ghost use Rattle.mq_request.specs.declared.message.Reply.{Reply};
ghost use Rattle.mq_ledger.specs.Answer.{replies_after};
ghost use Rattle.mq_ledger.specs.declared.entry.Entry.{Entry};
ghost use Rattle.mq_ledger.specs.Day.{day_of};
ghost use Rattle.mq_ledger.specs.History.{requests};
ghost use Rattle.mq_ledger.specs.Legal.{Book, IsLegalBook};
ghost use Rattle.mq_server.specs.declared.connection.TheConstants.{ENOUGH};
ghost use Rattle.mq_server.specs.declared.input.TheConstants.{PIECE};
ghost use Rattle.mq_server.specs.declared.connection.EndCause.{EndCause};
ghost use Rattle.mq_server.specs.declared.connection.EndCause.TheVariants.{BadFrame, Enough};
ghost use Rattle.mq_server.specs.Connection.{Wire, Serves};
ghost use Rattle.mq_server.specs.Connections.{wires, AreServed, AreServedWhole, AppendEach};
ghost use Rattle.mq_server.specs.Delivery.{Delivery, HasGrown, arrivals, asked, answer_to};
ghost use Rattle.mq_server.specs.Delivery.{taken_answers};
ghost use Rattle.mq_server.specs.Held.{State, fresh};
ghost use Rattle.mq_server.specs.Life.{AreAnswered, Exchange, Life, Lives, deliveries, replies_of};
ghost use Rattle.mq_server.specs.Life.{unborn};
ghost use Rattle.mq_server.specs.Text.{Asks, IsServed, LosesAlike, farewell, frames_of, served};

use mq_frame::laws::{frames_stay, one_spelling};

/// The numbers of serving: the frames that are answered on a connection, and the bytes of a read.
pub fn numbers_of_serving()
    ensures frames { ENOUGH ≡ 10000 }
    ensures bytes { PIECE ≡ 4096 }
{}

/// What is served depends on the input's bytes and on the ledger alone, and not on how reads cut
/// the input into pieces.
pub fn any_cutting()
    // Where the input's bytes are known, what is written is what is served for all of them.
    ensures whole { (answer : List Delivery → Delivery → Reply) (came : List Delivery)
        (old new : Wire)
        (e : EndCause) (input : List ℕ) →
        Serves answer came old new (Ok e) → old.remaining ≡ Some input →
        IsServed input came e × Appends old.contents new.contents (served answer came e) }

    // An input is served in one way, for each choice of the requests that the ledger loses.
    ensures only { (input : List ℕ) (came others : List Delivery) (e f : EndCause) →
        IsServed input came e → IsServed input others f → LosesAlike came others → (came ≡ others)
        × (e ≡ f) }

    // What stands after Bad and after the last answer changes nothing.
    ensures more { (input more : List ℕ) (came : List Delivery) (e : EndCause) →
        (e ≡ BadFrame) ⊎ (e ≡ Enough) → IsServed input came e → IsServed (input ++ more) came e }
{
    // Bytes that come later change no frame that is there, and a frame is that of one request.
    frames_stay();
    one_spelling();
}

/// What a connection was given and gave is what is served for all the bytes that came on it.
pub fn a_life_is_served()
    // Nothing has come on a connection that is new.
    ensures begins { (room : ℕ) → Lives unborn (fresh room) }

    // At an end the replies that were taken and those that wait are all that is served for these
    // bytes.
    ensures ended { (l : Life) (c : State) (e : EndCause) → Lives l c → c.end ≡ Some (Ok e) →
        IsServed l.bytes (deliveries l.exchanges) e
        × (l.taken ++ c.replies ≡ frames_of (replies_of l.exchanges ++ farewell e)) }

    // Before it they are the replies to all requests that came whole and were answered.
    ensures going { (l : Life) (c : State) → Lives l c → c.end ≡ None →
        Asks l.bytes (asked (deliveries l.exchanges)) c.rest
        × (l.taken ++ c.replies ≡ frames_of (replies_of l.exchanges)) }

    // Where nothing else came to the ledger in between, it is what `serve` writes.
    ensures alone { (b : Book) (l : Life) (c : State) (e : EndCause) (history : List Entry)
        → Lives l c →
        c.end ≡ Some (Ok e) → AreAnswered b l.exchanges history →
        l.taken ++ c.replies ≡ served (answer_to b) (deliveries l.exchanges) e }
{}

/// What is served on several connections in turn depends on the bytes of their inputs and on the
/// ledger alone.
pub fn any_cuttings()
    // Where the inputs' bytes are known and each connection is served to its end, what is written
    // on each is what is served for all of its input.
    ensures whole { (b : Book) (earlier all : List Delivery) (inputs : List (List ℕ))
        (holds : List (Option (List ℕ)))
        (news : List Wire) (ends : List EndCause) → length holds ≡ length inputs
        → length ends ≡ length inputs →
        AreServed b earlier (wires (map Some inputs) holds) news (map Ok ends) all →
        (texts : List (List ℕ)) × AreServedWhole b earlier inputs texts ends all
        × AppendEach holds news texts }

    // Inputs are served in one way, for each choice of the requests that the ledger loses.
    ensures only { (b : Book) (earlier all others : List Delivery)
        (inputs texts written : List (List ℕ))
        (ends stops : List EndCause) → AreServedWhole b earlier inputs texts ends all →
        AreServedWhole b earlier inputs written stops others → LosesAlike all others →
        (texts ≡ written) × (ends ≡ stops) × (all ≡ others) }
{
    // (as on one connection)
    frames_stay();
    one_spelling();
}

/// The requests that the ledger took are answered by its replies to them, as if nothing else had
/// come to it.
pub fn arrivals_get_their_replies()
    ensures { (b : Book) (came : List Delivery) →
        taken_answers (answer_to b) came
        ≡ replies_after (day_of b.zone) b.default (requests b.history) (arrivals came) }
{}

/// Deliveries to a ledger that others came to before are deliveries after those.
pub fn more_deliveries()
    ensures none { (b : Book) → IsLegalBook b → HasGrown b b }
    ensures more { (b k c : Book) → IsLegalBook k → k.zone ≡ b.zone → k.default ≡ b.default →
        HasGrown b k → HasGrown k c → HasGrown b c }
{}

/// Exchanges with a ledger that others came to before are exchanges after those.
pub fn more_exchanges()
    ensures none { (b : Book) → IsLegalBook b → AreAnswered b [] b.history }
    ensures more { (b k : Book) (xs ys : List Exchange) (history : List Entry) → IsLegalBook k →
        k.zone ≡ b.zone → k.default ≡ b.default → AreAnswered b xs k.history
        → AreAnswered k ys history →
        AreAnswered b (xs ++ ys) history }
{}
