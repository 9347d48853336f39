//! Which sections each section leads to, and the first reference that stands for nothing.
//!
//! Workers list for the files of their pieces the sections to which each section leads: those that its relocations name (all of one name,
//! for `__start_X` and `__stop_X`), those that are flagged LINK_ORDER and name it, and the next member of its group, the last of which
//! leads to the first. The sections of one such name are found once, by a map that is made only if a symbol is bound so. To find what is
//! undefined one walk finds that what names are bound to stands for something, so that no file is asked for another's symbols; relocations
//! are read only of a file with a symbol that stands for nothing.
//!
//! `pairs` lists the sections of a file that go together without a relocation, `named_sections` finds the sections of each name to whose
//! start or end symbols refer, `frame_relocs` reads unwind records and `frame_ends` lists the sections that they name, `ends` joins these with
//! what relocations name, `graph` does so for all files, `walks` has the members of a group lead to one another in one step, and
//! `undefined_symbols` finds what a kept section refers to though nothing defines it; `needed_frames` says which unwind records count as well,
//! and `prevailing` what names stand for without a look into other files.
//! `fold_lists` lists which sections may be folded, and of all or of some of them what their relocations refer to, `fold_frames` the unwind
//! records of each, `taken` finds the sections whose address is taken, and `uppers` lists the upper parts of each section.
#![tactic(auto)]

mod ends;
mod fold_frames;
mod fold_lists;
mod foldable_names;
mod frame_ends;
mod frame_relocs;
mod graph;
mod named_sections;
mod needed_frames;
mod pairs;
mod prevailing;
mod taken;
mod undefined_symbols;
mod uppers;
mod walks;

pub use fold_lists::{contents_of, foldable, items, items_at};
pub use graph::edges;
pub use taken::{address_taken, mark_sections};
pub use undefined_symbols::undefined;
pub use uppers::find_uppers;
pub use walks::walk_edges;
