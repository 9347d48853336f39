//! The sections in which names stand that a command gives.
//!
//! A command may give names that no relocation refers to: those that the command asks for, and those whose sections are to be folded with no other.
//! What such a name is bound to is what the first symbol is bound to that has it, of a file that takes part.
#![tactic(auto)]

mod sections;

pub use sections::sections_of_names;
