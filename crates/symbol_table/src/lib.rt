//! The symbols of an executable's symbol table (System V gABI, "Symbol Table"): each name that is bound to a symbol of a file which stays,
//! and each symbol of the linker's own to which a file refers, in order of the bytes of their names. The symbol table of the executable and
//! the map list them.
//!
//! Workers list the entries of the files of their pieces. The list is sorted by the bytes of names, and of equal names, which are several
//! references to one of the linker's symbols, the first stays.
//!
//! `symbols` has the type of the entries, `outputs` finds the output section of a section, `entries` makes the entry of one symbol of a
//! file, `listing` those of all files by many workers, `named` compares them by their names, by their first bytes first (`name_keys`), and `sorting`
//! brings them in order.
#![tactic(auto)]

mod entries;
mod listing;
mod name_keys;
mod named;
mod outputs;
mod sorting;
mod symbols;

pub use listing::{list_entries, table_symbols};
pub use named::Named;
pub use outputs::Outputs;
pub use sorting::in_order;
pub use symbols::{TablePlace, TableSymbol};
