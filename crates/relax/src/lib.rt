//! Where the sections of a link lose bytes: how many bytes each relaxed call and each alignment keeps (RISC-V ELF psABI, "Linker
//! Relaxation").
//!
//! The members of each output section stand in order, and the calls that may be shortened become jumps between two points of them
//! (`jumps`). Workers list these calls, each those of a run of members, if there are 8,192 (`listing`). Of most calls the bytes between their
//! two points decide the size: even if no call lost any they would reach their targets, or even if each lost six they would not. Workers find
//! the others, each those of a run of calls, if there are 16,384, and rounds are made over these alone until none rises (`bands`), by sums of
//! what the calls before each 16th lose (`losses`). If one still rises after 24 rounds, all calls start at their least sizes; those that
//! don't allow their distance are raised, until none rises (`solving`, `settling`). A tree over the calls that can still get too far says which
//! are looked at again after one rose (`watching`), and a round over all ends it. What is left are the least sizes that are safe, whatever the
//! order in which calls rise. Workers list what the sections lose by them, each those of a run of sections, if there are 8,192 (`keeping`).
//! Where calls are to keep their bytes, or no relocation of the link is an R_RISCV_RELAX, no distance is measured: the alignments of each
//! section are listed file by file (`unrelaxed`), by all workers if there are 4,096 sections.
#![tactic(auto)]

mod bands;
mod calls;
mod cutting;
mod jumps;
mod keeping;
mod listing;
mod losses;
mod settling;
mod solving;
mod unrelaxed;
mod watching;

pub use keeping::sizes;
