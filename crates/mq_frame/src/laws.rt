//! Laws of the link's format. Each is the contract of a function that does nothing.
ghost use Rattle.std.specs.Prelude.{◌≡◌, ◌↔◌, ℕ, ◌+◌, ◌<◌, ◌≤◌, List, [], ◌∷◌, ◌++◌, length, drop};
ghost use Rattle.std.specs.Prelude.{Some, None};
ghost use Rattle.std.specs.Prelude.{Ok, All, ◌⊎◌};
ghost use Rattle.std.specs.List.{flat_map};
ghost use Rattle.mq_frame.specs.declared.feed.TheConstants.{REQUEST_LIMIT, REPLY_LIMIT};
ghost use Rattle.mq_frame.specs.declared.format.TheConstants.{RESERVE, SETTLE, RELEASE, LIMIT};
ghost use Rattle.mq_frame.specs.declared.format.TheConstants.{USAGE, LIST, RETIRE};
ghost use Rattle.mq_frame.specs.declared.format.TheConstants.{GRANTED, FULL, SETTLED, RELEASED};
ghost use Rattle.mq_frame.specs.declared.format.TheConstants.{LIMIT_SET, OVER};
ghost use Rattle.mq_frame.specs.declared.format.TheConstants.{CLOSED, MISMATCH, TOO_MANY, CONFLICT};
ghost use Rattle.mq_frame.specs.declared.format.TheConstants.{RETRY, BAD, RETIRED, OLD};
ghost use Rattle.mq_frame.specs.declared.format.TheConstants.{USAGE_REPLY, LIST_REPLY, HEAD_BYTES};
ghost use Rattle.mq_request.specs.Range.{IsWithin, IsRequest, IsReply};
ghost use Rattle.mq_frame.specs.Spelling.{in_2_bytes, request_body, reply_body, SpellsRequest};
ghost use Rattle.mq_frame.specs.Spelling.{SpellsReply, frame};
ghost use Rattle.mq_frame.specs.Reading.{request_at, reply_at};
ghost use Rattle.mq_frame.specs.Feed.{Front, Nothing, Cut, EmptyHead, LongHead, Whole, front};
ghost use Rattle.mq_frame.specs.Feed.{next_answer};
ghost use Rattle.mq_frame.specs.Feed.{left_by_next, BeginsWith, HasNoFrame, Frames, Move, Moves};
ghost use Rattle.mq_frame.specs.Feed.{fed, given};
ghost use Rattle.mq_request.specs.declared.message.Request.{Request};
ghost use Rattle.mq_request.specs.declared.message.Reply.{Reply};

/// The kinds of bodies, and how long bodies are, as numbers: the definitions have their names
/// alone.
pub fn numbers_of_bodies()
    ensures requests { RESERVE ∷ SETTLE ∷ RELEASE ∷ LIMIT ∷ USAGE ∷ LIST ∷ [] ≡ 1 ∷ 2 ∷ 3 ∷ 4 ∷ 5
        ∷ 6 ∷ [] }
    ensures granted_or_not { GRANTED ∷ FULL ∷ SETTLED ∷ RELEASED ∷ [] ≡ 129 ∷ 130 ∷ 131 ∷ 132 ∷ [] }
    ensures limits { LIMIT_SET ∷ OVER ∷ [] ≡ 133 ∷ 134 ∷ [] }
    ensures refusals { CLOSED ∷ MISMATCH ∷ TOO_MANY ∷ CONFLICT ∷ [] ≡ 135 ∷ 136 ∷ 137 ∷ 138 ∷ [] }
    ensures reports { USAGE_REPLY ∷ LIST_REPLY ∷ [] ≡ 139 ∷ 140 ∷ [] }
    ensures bare { RETRY ∷ BAD ∷ [] ≡ 141 ∷ 142 ∷ [] }
    ensures retiring { RETIRE ∷ RETIRED ∷ OLD ∷ [] ≡ 7 ∷ 143 ∷ 144 ∷ [] }
    ensures head { HEAD_BYTES ≡ 2 }
    ensures longest { (REQUEST_LIMIT ≡ 512) × (REPLY_LIMIT ≡ 65535) }
{}

/// Each request and reply in range has one body, and no body spells two of them.
pub fn one_spelling()
    ensures request { (request : Request) → IsRequest request
        → SpellsRequest (request_body request) request }
    ensures one_request { (body : List ℕ) (request other : Request) → SpellsRequest body request
        → SpellsRequest body other → request ≡ other }
    ensures one_request_body { (body other : List ℕ) (request : Request)
        → SpellsRequest body request → SpellsRequest other request → body ≡ other }

    ensures reply { (reply : Reply) → IsReply reply → SpellsReply (reply_body reply) reply }
    ensures one_reply { (body : List ℕ) (reply other : Reply) → SpellsReply body reply
        → SpellsReply body other → reply ≡ other }
    ensures one_reply_body { (body other : List ℕ) (reply : Reply) → SpellsReply body reply
        → SpellsReply other reply → body ≡ other }

    // So a frame is that of one request, or of one reply.
    ensures one_request_frame { (request other : Request) → IsRequest request → IsRequest other
        → frame (request_body request) ≡ frame (request_body other) → request ≡ other }
    ensures one_reply_frame { (reply other : Reply) → IsReply reply → IsReply other
        → frame (reply_body reply) ≡ frame (reply_body other) → reply ≡ other }

    ensures not_both { (body : List ℕ) (request : Request) (reply : Reply)
        → SpellsRequest body request → SpellsReply body reply → ⊥ }
{}

/// A request's body has 1 to 350 bytes, and a reply's 1 to 26,806.
pub fn body_lengths()
    ensures request { (body : List ℕ) (request : Request) → SpellsRequest body request
        → IsWithin 1 350 (length body) }
    ensures reply { (body : List ℕ) (reply : Reply) → SpellsReply body reply
        → IsWithin 1 26806 (length body) }
{}

/// Reading a body from its front finds what it spells: so whether it spells anything is decided.
pub fn reading_finds_the_spelled()
    ensures request { (body : List ℕ) (request : Request) → All (λ byte. byte < 256) body
        → (request_at body ≡ Some request) ↔ SpellsRequest body request }
    ensures reply { (body : List ℕ) (reply : Reply) → All (λ byte. byte < 256) body
        → (reply_at body ≡ Some reply) ↔ SpellsReply body reply }
{}

/// A body that was kept without its frame's head is read back.
pub fn bodies_are_read_back()
    ensures body { (body : List ℕ) → drop 2 (frame body) ≡ body }
    ensures request { (request : Request) → IsRequest request
        → request_at (drop 2 (frame (request_body request))) ≡ Some request }
    ensures reply { (reply : Reply) → IsReply reply
        → reply_at (drop 2 (frame (reply_body reply))) ≡ Some reply }

    // So of each body that is spelled so, whether its bytes are below 256 or not.
    ensures spelled_request { (body : List ℕ) (request : Request) → SpellsRequest body request
        → request_at body ≡ Some request }
    ensures spelled_reply { (body : List ℕ) (reply : Reply) → SpellsReply body reply
        → reply_at body ≡ Some reply }
{}

/// A body of 1 to `limit` bytes is read back from its frame, and what is read was a frame.
pub fn frames_are_read_back()
    ensures whole { (limit : ℕ) (body after : List ℕ) → limit ≤ 65535
        → IsWithin 1 limit (length body) → front limit (frame body ++ after) ≡ Whole body after }
    ensures request { (body after : List ℕ) (request : Request) → SpellsRequest body request
        → front 512 (frame body ++ after) ≡ Whole body after }
    ensures reply { (body after : List ℕ) (reply : Reply) → SpellsReply body reply
        → front 65535 (frame body ++ after) ≡ Whole body after }

    ensures only_frames { (limit : ℕ) (bytes body after : List ℕ) → All (λ byte. byte < 256) bytes
        → front limit bytes ≡ Whole body after → bytes ≡ frame body ++ after }
    ensures lengths { (limit : ℕ) (bytes body after : List ℕ) → front limit bytes ≡ Whole body after
        → IsWithin 1 limit (length body) × (length bytes ≡ 2 + length body + length after) }

    // A head with length 0, and one with a length above the limit.
    ensures empty { (limit : ℕ) (after : List ℕ) → front limit (in_2_bytes 0 ++ after) ≡ EmptyHead }
    ensures long { (limit size : ℕ) (after : List ℕ) → limit < size → size ≤ 65535
        → front limit (in_2_bytes size ++ after) ≡ LongHead }

    // A list of frames, one after another.
    ensures list { (limit : ℕ) (bodies : List (List ℕ)) (rest : List ℕ) → limit ≤ 65535
        → All (λ body. IsWithin 1 limit (length body)) bodies
        → BeginsWith limit (flat_map frame bodies ++ rest) bodies rest }
    ensures only_lists { (limit : ℕ) (bytes : List ℕ) (bodies : List (List ℕ)) (rest : List ℕ)
        → All (λ byte. byte < 256) bytes → BeginsWith limit bytes bodies rest
        → (bytes ≡ flat_map frame bodies ++ rest)
        × All (λ body. IsWithin 1 limit (length body)) bodies }
{}

/// How a stream is cut into pieces changes none of its frames, nor what follows them.
pub fn any_cutting()
    // What a feed gave are the first frames of what it was fed.
    ensures first { (limit : ℕ) (moves : List Move) (end : List ℕ) → Moves limit [] moves end
        → BeginsWith limit (fed moves) (given moves) end }

    // Two feeds that were fed the same bytes, and have no further frame, gave the same.
    ensures same { (limit : ℕ) (moves others : List Move) (end stop : List ℕ)
        → Moves limit [] moves end → Moves limit [] others stop → fed moves ≡ fed others
        → HasNoFrame limit end → HasNoFrame limit stop → (given moves ≡ given others)
        × (end ≡ stop) }
{}

/// Bytes that come later change no frame that stood, nor a head that is refused; and a stream has
/// one longest list of frames.
pub fn frames_stay()
    ensures whole { (limit : ℕ) (bytes more body after : List ℕ)
        → front limit bytes ≡ Whole body after
        → front limit (bytes ++ more) ≡ Whole body (after ++ more) }
    ensures empty { (limit : ℕ) (bytes more : List ℕ) → front limit bytes ≡ EmptyHead
        → front limit (bytes ++ more) ≡ EmptyHead }
    ensures long { (limit : ℕ) (bytes more : List ℕ) → front limit bytes ≡ LongHead
        → front limit (bytes ++ more) ≡ LongHead }

    // A body that a call for the next one gives stood in a whole frame, and what is left stood
    // after it.
    ensures gives { (bytes body : List ℕ) (at : Front) → next_answer at ≡ Ok (Some body)
        → at ≡ Whole body (left_by_next at bytes) }

    ensures more { (limit : ℕ) (bytes more : List ℕ) (bodies : List (List ℕ)) (rest : List ℕ)
        → BeginsWith limit bytes bodies rest
        → BeginsWith limit (bytes ++ more) bodies (rest ++ more) }
    ensures one_more { (limit : ℕ) (bytes : List ℕ) (bodies : List (List ℕ))
        (rest body after : List ℕ)
        → BeginsWith limit bytes bodies rest → front limit rest ≡ Whole body after
        → BeginsWith limit bytes (bodies ++ body ∷ []) after }
    ensures none { (limit : ℕ) (bytes : List ℕ)
        → (front limit bytes ≡ Nothing) ⊎ ((front limit bytes ≡ Cut)
        ⊎ ((front limit bytes ≡ EmptyHead) ⊎ (front limit bytes ≡ LongHead)))
        → HasNoFrame limit bytes }
    ensures one_list { (limit : ℕ) (bytes : List ℕ) (bodies others : List (List ℕ))
        (rest end : List ℕ)
        → Frames limit bytes bodies rest → Frames limit bytes others end → (bodies ≡ others)
        × (rest ≡ end) }
{}

/// What waits for the rest of its frame is shorter than a head and the longest body.
pub fn part_of_a_frame()
    ensures { (limit : ℕ) (bytes : List ℕ) → next_answer (front limit bytes) ≡ Ok None
        → length bytes ≤ limit + 1 }
{}
