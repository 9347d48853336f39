//! Reading while loading: `read_piped` loads files one after another, and parsers read their members and heads meanwhile.
//!
//! The caller loads the files in order and puts each, with its number, into a queue of eight (`loader`); where that is full, and after the last load, it
//! reads files itself. Parsers, each in a thread of its own, take files and read them (`parsers`), up to an end mark. What passes through the queue is
//! a `Piece`. The rule of the queue (`rule`) says that what the loader has put is what all have taken and what the queue holds, each piece as often: so
//! each result is of a file that was loaded, and of no file there are two. `reading` is what is read of one file, `results` collects it, and `piped`
//! starts the parsers, joins them and puts what they have read in order.
//!
//! A parser for which there is no thread runs once the loader is done, and ends at once: parsers add themselves to a count, which the loader closes
//! before it puts an end mark for each that it found there. No clause speaks of that count.
#![tactic(auto)]

mod files;
mod loader;
mod parsers;
mod pieces;
mod piped;
mod reading;
mod results;
mod rule;

pub use files::{Piped, PipedFile, PipedFlaw};
pub use piped::read_piped;
