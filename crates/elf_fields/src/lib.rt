//! The fields of ELF's tables as a file has them, each table's entry from a struct of its fields under the ABI's own names (System V gABI,
//! "ELF Header", "Program Header", "Section Header", "Symbol Table"). What writes an executable or an object writes its entries by these calls.
//!
//! `numbers` has numbers of 2, 4 and 8 bytes, `headers` the three headers, and `symbols` a symbol's entry and a name.
#![tactic(auto)]

mod headers;
mod numbers;
mod symbols;

pub use headers::{
    FileHeader, ProgramHeader, SectionHeader, push_file_header, push_program_header,
    push_section_header,
};
pub use numbers::{push_half, push_long, push_word};
pub use symbols::{SymbolEntry, push_name, push_symbol_entry};
