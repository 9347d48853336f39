//! Worked examples of whole links by what is written: the order of sections, relocations, the global offset table, thread-local data, the linker's
//! symbols, pools of strings and constants, folded code, alignments, symbol tables and maps; and links whose files are read while they are loaded.
//!
//! This crate has tests alone, and no crate stands on it; `tests_link_inputs` has the other examples.
#![tactic(auto)]

#[cfg(test)]
mod tests;
