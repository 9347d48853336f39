//! Where everything stands: at which addresses the output sections and their members stand, by one walk in their order, with the unwind
//! records last in the class R (System V gABI, "Sections" and "Program Header"; LSB Core, "Exception Frames"); and how many bytes of its nops
//! each alignment keeps there (RISC-V ELF psABI, "Linker Relaxation").
//!
//! Where each alignment's bytes are cut is found by section number once all sections stand, so the first one that has too few bytes is the
//! first by section and offset with nothing to sort. An empty member of an output section that is not empty moves the cursor to its
//! alignment.
//!
//! `walk` places the output sections of one class, `places` notes where each member stands, `cutting` says where a section loses bytes and `cut_rows`
//! where all do, `frames` places the unwind records, and `placing` walks the classes one after the other and asks for the limits.
#![tactic(auto)]

mod cut_rows;
mod cutting;
mod frames;
mod places;
mod placing;
mod walk;

pub use placing::place;
