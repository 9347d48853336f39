//! What each name of a link is bound to: the strongest offer of it, and if no file offers it, the linker's own symbol of that name;
//! whatever the number of workers that look.
//!
//! Each name has a number, and so a word in a row. Workers claim the words for the offers, each with its rank, and the least rank of
//! a word is what its name is bound to. After the claims the symbols are listed whose names no file offers, and of these names alone the linker's
//! symbols are looked up. Two strong offers of one name are a defect, and so are files with different float ABIs and an entry whose
//! name is bound to nothing.
//!
//! Each piece of the list of offers is one worker's. After the claims `unbound` looks through the symbols whose names nobody offers, and
//! `linker` gives those with a name of the linker's its rank. `named_sections` lists the sections by their names only if a `__start_` or
//! `__stop_` name is among them. The entry's name has no number: it is looked for among the offers, by its length first.
//!
//! `offers` lists the offers as claims, and `ranks` what each symbol's name is bound to. `flags`, `duplicates` and `entry` find the defects. `rooms`
//! finds how much room the COMMON symbols of a name ask for, `commons` which of them get it, `counts` reads how many symbols and sections files have,
//! and `binding` does all of it in order.
#![tactic(auto)]

mod binding;
mod commons;
mod counts;
mod duplicates;
mod entry;
mod flags;
mod linker;
mod named_sections;
mod offers;
mod ranks;
mod rooms;
mod unbound;

pub use binding::bind;
