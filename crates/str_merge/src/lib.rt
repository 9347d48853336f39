//! Equal pieces of sections are written once (System V gABI, "Section Attribute Flags": SHF_MERGE and SHF_STRINGS): the sections that are
//! merged, their pieces, which the workers find, and the pools in which the distinct ones stand.
//!
//! The kept sections that are merged are listed with the key of their pool. Workers cut them into pieces, strings of bytes by a vector
//! search for zeros; only the ends of the pieces are kept, four bytes each. Pools of fewer than 16,384 pieces are shared out among the
//! workers (`small_pools`); the others are done in turn. The pieces of a pool are texts that are read where the sections hold them, and
//! one table that the workers fill gives for each the first that is equal to it (`name_numbers::number_texts`). Then one thread places
//! the distinct pieces, and another lists the parts of all sections, the numbers of their pieces by offset (`pooling`). No byte is
//! copied: a piece is a span of the file that has it first. The list of a pool's pieces becomes the buffer of the rows, and the first
//! pool's rows of parts are taken over; those of later pools are copied.
//!
//! `sections` says which sections are merged, `sites` lists them, `keys` has the key of each one's pool, and `members` lists the sections of each
//! pool. `cuts` cuts sections into pieces, `counts` counts pieces, and `gathering` reads those of several sections by number. `orders` finds the
//! distinct ones, `placing` where they stand, and `parts` lists their numbers by section. `filling` takes the pools one after the other, `spreading`
//! has by section number what is merged, and `merging` does all of it in order.
#![tactic(auto)]

mod counts;
mod cuts;
mod filling;
mod gathering;
mod keys;
mod members;
mod merging;
mod orders;
mod parts;
mod placing;
mod pooling;
mod sections;
mod sites;
mod small_pools;
mod spreading;

pub use counts::{piece_bound, piece_count};
pub use merging::merge;
