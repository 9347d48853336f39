//! The least offer of every word, claimed by several workers at once.
//!
//! The workers share one table of claims. Each has a seat of its own and claims a piece of the offers, the seats are
//! joined, and the table is closed. The closed table is the one that a single worker would give.
#![tactic(auto)]

mod shares;
#[cfg(test)]
mod tests;

pub use shares::{claim_each, least_offers};
