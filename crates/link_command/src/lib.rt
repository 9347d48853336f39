//! The words of a command: what they ask for, or that they are refused.
//!
//! The command line is a value of the kit's `clap` (`grammar`), and a command is accepted where clap takes its
//! words and the product's own tests pass. `command_of` is exact both ways: what it answers is `command_of_words` of the
//! words, a definition in specs/Command.antt by clap's own function of a command and its words.
#![tactic(auto)]

mod command;
mod grammar;
mod matching;
mod parts;
mod values;

pub use command::{Command, IcfMode, Wanted, command_of};
