//! Why a section is kept, and why two sections are not folded.
//!
//! A section is kept by a walk: from a root along edges to it. Two items are apart by pairs of items: from these two on each next pair is
//! met through one relocation of both of the pair before, and the last pair differs. `live` and `apart` find the least of the shortest
//! ones, by a search in breadth: a queue has what was met in the order of the lists that lead there, so what is met first is met by the least
//! list. `checks` says whether a given walk or list of pairs is one, without a search. `visits` and `meetings` do what one place of the
//! queue asks for, `alike` compares two items, and `paths` reads off the list that leads to a place.
//!
//! The queue notes for each entry the place from which it was met. For a section the queue begins with a start that leads to the roots, and
//! what is met at one place stands in it in order of number (`visits`). The queue thus stands in order of the lists that lead there, shorter
//! ones first, and of lists of one length the lesser first: what is met first is met by the least list, which is read back from the places
//! (`paths`). For two sections the entries are pairs of items; a pair is met through one relocation of both of the pair before, in order of
//! these (`meetings`), and each is numbered by one word, under which a table knows it. Relocations with equal targets are passed over,
//! since no section differs from itself. The search ends at the first pair whose keys differ or of which the targets of one relocation
//! can't match (`alike`, `targets`); where it ends without one, the pairs that were met are a congruence. `why_apart_within` gives up after so
//! many pairs. `check_live` and `check_apart`
//! test a given list, of any length, without memory (`checks`).
#![tactic(auto)]

mod alike;
mod apart;
mod chains;
mod checks;
mod live;
mod meetings;
mod pairs;
mod paths;
mod targets;
mod visits;

pub use apart::{why_apart, why_apart_within};
pub use chains::{ApartChain, ApartEnd, LiveChain};
pub use checks::{check_apart, check_live};
pub use live::why_live;
pub use pairs::{Pair, next_pair, place_of};
