//! Lemmas of booleans, options, numbers, lists and maps by bytes, for the proofs of the other
//! crates: each stands here once.
//!
//! It has no code; of streams it has what holds of one that is as it was, and `specs/Told.antt`
//! says how what is reported of calls grows. From
//! `mq_forget/proofs/Answers.antt`:
//!
//!     later_le from D d a b = elim (either (nat_lt from D)) [ inl t ↦ rw t b | inr f ↦ rw f a ]
//!
//! It stands on no crate of ours, and knows none of their types: a lemma of such a type stands in
//! the lowest crate that has it. Begin with `proofs/Booleans.antt`.
#![tactic(auto)]
