//! One pass over many things by several workers: the work is cut into pieces, each piece is done by a task in a thread
//! of its own, and what the tasks give is joined in order: the answer is that of the tasks, whatever the threads did. Most
//! passes of the linker run their workers so.
//!
//! A list is cut into pieces of about equal weight, in bytes or symbols (`pieces_by_weight`). Each worker does those of its piece in order
//! and stops at the first defect of its own. The lists are joined in the order of the pieces, and if one has stopped the first stop is the
//! answer (`over_shares`). The list, and the defect that is reported, are thus those of one worker.
//!
//! `cuts` and `weights` cut the work into pieces, `tasks` runs a task for each piece, `shares` joins what these give, and `gates` has the gates.
#![tactic(auto)]

mod cuts;
mod gates;
mod shares;
mod tasks;
mod weights;

pub use cuts::{pieces, pieces_of_least};
pub use gates::{Gate, OpenGate};
pub use shares::{join, nothing_else, over_shares};
pub use tasks::over_pieces;
pub use weights::pieces_by_weight;

#[cfg(test)]
mod tests;
