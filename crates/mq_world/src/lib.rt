//! Both ends over every delivery: whatever the network loses, repeats or delays, over all hosts,
//! what was let through never passes the limit.
//!
//! It is no part of the program: it states what the client's, the tracker's and the ledger's
//! definitions come to together, over worlds of filter runs, one ledger, and every frame that was
//! ever sent or written. The law, a clause of `never_past_the_limit` in `mq_world/src/laws.rt`:
//!
//!     ensures limit { (site : Site) (start w : World) → IsStart site start → Reaches site start w →
//!         (l : List ℕ) (d : ℕ) (ts : List Transaction) → AreDistinct ts →
//!         let_together w l d ts ≤ cap w.ledger.default w.ledger.history l d }
//!
//! Of several servers, to each of which the address may move, `never_past_the_limits_together` says
//! the same with the sum of their limits.
//!
//! It stands on `mq_line`, `mq_track`, `mq_request`, `mq_frame`, `mq_permits`, `mq_ledger`,
//! `mq_link`, `mq_client` and `mq_forget`, by their definitions, laws and lemmas alone. Begin with
//! `specs/World.antt`, what may happen, and `specs/Law.antt`, what was let through.
#![tactic(auto)]

pub mod laws;
