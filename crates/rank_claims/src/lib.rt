//! Words that threads race for: each word keeps the least rank that was claimed for it, whoever came first.
//!
//! A table is opened for a list of offers, each a word and a rank. A thread claims offers with a seat of its own, the
//! seats are joined, and the closed table has the least offer of every word as soon as each offer was claimed by one
//! of the seats.
#![tactic(auto)]

mod rule;
mod table;
#[cfg(test)]
mod tests;

pub use claim_core::{Event as Offer, NONE};
pub use rule::OwnStep;
pub use table::{ClaimSeat, Claims};
