//! A table in which threads number texts: each slot holds one text, whoever came first, and the least number of an equal one.
//!
//! A table is opened for a list of texts. A thread places texts with a seat of its own, the seats are joined, and the
//! closed table has for each text the number of the first equal one as soon as each text was placed by one of the seats.
#![tactic(auto)]

mod hash;
mod rule;
mod table;
mod texts;

pub use hash::{hash_of, tag_of};
pub use rule::{OwnStep, Pair};
pub use table::{InternSeat, Interner};
pub use texts::Texts;
