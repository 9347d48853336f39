//! What a rule of an `atomic_table` says of its seats' views: that each live view is so, or that one is so. The definitions
//! stand in `specs/Views.antt`. The lemmas in `proofs/` say what a step, a split and a join of seats have to give for it to
//! hold afterwards, so that the proof of a rule has no cases of seats.
//! The crate has no code: a view exists in proofs alone.
#![tactic(auto)]
