//! Folding of equal code: which sections can stand for one another.
//!
//! `sharing` sets apart the items whose contents another has; of texts it does so before there are items, so that a link makes no others. Rows
//! of bytes are made by workers, one run of the items each, if there are 8,192, and numbered by a table of texts, as names are
//! (`name_numbers`). `seeds` finds the classes that wait at first, `turns` gives a class its turn, `splitting` splits the others by it,
//! `refining` goes on until none waits, and `steps` counts how many classes became two. A label that some of its items leave keeps its list of
//! members, which is cleared of them in its turn: a list is read in that way once for each time that it was made.
//!
//! An item whose contents no other has is its own leader, and no more of it is compared. The others are put into classes. At first a class has
//! the items of one shape: equal bytes, headers and relocations, where a relocation that stands for another of them counts by its offset and
//! rest alone. Then classes take turns, those first to which items of one class lead in
//! part: in its turn a class splits each class of which some items lead to it in one place of their relocations and some do not. Of the
//! two that come of a split one waits for its turn, until none waits. No two items that some congruence pairs are ever split, and the
//! classes that stay are a congruence, so they are the greatest one. At the end a class's number is the place of its first item.
//!
//! `keys` has what must be equal of two items, whatever is folded, and `rests` what is compared of their targets. `places` says which items the
//! targets of an item are, by a table (`place_table`), and `incoming` which items lead to each. `words` writes a row as bytes, and `numbering`
//! numbers rows. `classes`, `walks` and `relabel` have the classes by labels, `runs` finds the runs of a sorted list, and `folding` gives the
//! leaders.
#![tactic(auto)]

mod classes;
mod folding;
mod incoming;
mod keys;
mod numbering;
mod place_table;
mod places;
mod refining;
mod relabel;
mod rests;
mod runs;
mod seeds;
mod sharing;
mod splitting;
mod steps;
mod turns;
mod walks;
mod words;

pub use folding::fold;
pub use sharing::{lead_themselves, shared_texts};
pub use steps::Steps;
