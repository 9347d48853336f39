//! The executable of a link (System V gABI, "ELF Header", "Program Header", "Section Header", "Program Loading"): the file
//! header and the program headers, the unwind records and the sections at their places with their relocations done, and after them the symbol
//! table, the names of the sections and the section headers. The executable is written block by block, each block by itself.
//!
//! Workers test all relocations of written sections, and beside them the symbol table and the headers are made (`prepare`; `prepare_unchecked` makes them
//! without a test, and each `block` then tests the relocations that touch it). From then on no memory is taken: each block of 65,536 bytes is
//! made by itself, where it is wanted, and the whole file is nowhere. A window of some blocks is filled by as many workers. A relocation whose
//! field reaches over the end of a block is done in both, of which each keeps its own bytes. Of pools and of the global offset table what
//! reaches into a block is found by bisection.
//!
//! `flags` finds what the executable keeps of the flags of its files, `header_bytes` has the file header's, `segments`
//! those of all headers that stand at the start, `symbols` those of the symbol table, `sections` those of the names and of the section
//! headers, `ends` computes where these stand, `prepared` makes all of them, `frames` copies the unwind records, `blocks` makes one block
//! or a window of them, and `standing` says what stands whole in the file.
#![tactic(auto)]

mod blocks;
mod ends;
mod flags;
mod frames;
mod header_bytes;
mod prepared;
mod sections;
mod segments;
mod standing;
mod symbols;

pub use blocks::{BLOCK, block, fill_window};
pub use prepared::{Prepared, prepare, prepare_unchecked};
pub use segments::headers;
pub use standing::prove_file_stands;
pub use symbols::{SymbolTables, symtab};
