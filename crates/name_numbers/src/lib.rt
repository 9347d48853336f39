//! The names of all symbols of a link, numbered once for all passes.
//!
//! The number of a name is that of the first symbol that has it. Symbols of a file whose names are the same span of its bytes share one
//! key, so no bytes of equal spans are read twice. The keys of all files are listed in order of their symbols, by several workers for a run of
//! files each, and numbered as any other texts are: workers place them in one table by their hashes, in which equal texts share a slot; once
//! all are placed the slot gives the first of them. Only where hashes crowd the table are texts sorted by hash, bytes and place; the first of a
//! run of equal texts then has the number of the whole run.
//!
//! `spans` finds the first symbol of each span of a file, `keys` the keys of a file and `listing` those of all. `hashing` and `hash_lists` hash
//! texts, `blocks` places a block of them in the table, `racing` has all workers do so, and `sorting` sorts texts where hashes crowd the table.
//! `texts` numbers any texts, `numbers` the names of a link.
#![tactic(auto)]

mod blocks;
mod hash_lists;
mod hashing;
mod keys;
mod listing;
mod numbers;
mod racing;
mod sorting;
mod spans;
mod texts;

pub use numbers::number_names;
pub use texts::number_texts;
