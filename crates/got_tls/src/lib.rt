//! The linker's global offset table (RISC-V ELF psABI, "Global Offset Table"): which entries it has, in which order, and where the words
//! of each stand in it.
//!
//! `Got::empty` is a table without entries. `Got::word_of` looks into a map beside the list of entries; its clause speaks of the list
//! alone.
#![tactic(auto)]

mod listing;

pub use listing::entries;
