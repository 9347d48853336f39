//! What claims on shared words come to, without any threads: an event lowers one word to its rank, and a list of
//! events, done one after the other, leaves each word at the least rank that was offered for it, whatever their order.
//!
//! The crates that let threads race for words tie each of their atomic steps to one event of this crate.
#![tactic(auto)]

mod events;

pub use events::{Event, NONE, is_reached, run, step};
