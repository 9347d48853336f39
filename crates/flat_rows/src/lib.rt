//! Lists by number, one after the other in one buffer: what each section has of edges, upper parts, cuts or pieces is read
//! in constant time, and a list takes no memory of its own.
#![tactic(auto)]

mod parts;
mod rows;

pub use parts::{join_rows, one_part};
pub use rows::Rows;
