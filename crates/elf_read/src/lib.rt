//! Reads relocatable objects for 64-bit RISC-V (System V gABI, ELF-64; RISC-V ELF psABI): `read_head` gives what the
//! file header, the section table and the symbol table say, `read_body` the section groups and the relocations of a file that
//! takes part in the link. Each call answers the first broken check of the format, in the order in which lk_tables lists them, or what
//! the bytes say. `is_elf` says which files begin as ELF files do.
//!
//! The RELA section of a section that is not written is not read: its list is empty. A COMMON symbol's alignment and size are looked at
//! with the body, as a section's are. Of two relocations whose bytes overlap the flaw is at the later in order of offset, the least such.
//!
//! `entries` and `names` read at a place. `header` tests the file header, `sections` and `symbols` read the tables
//! of a head, and `head` all of it; `magic` looks at its first bytes alone. `sound_file` is a file whose head is sound; `section_checks` and
//! `symbol_checks` are what is asked of it before it is linked, `relocations` reads the entries of a relocation section, `rela_sections` one
//! such section, `groups` one group, `section_bodies` all sections, and `body` the whole.
#![tactic(auto)]

mod body;
mod entries;
mod groups;
mod head;
mod header;
mod magic;
mod names;
mod rela_sections;
mod relocations;
mod section_bodies;
mod section_checks;
mod sections;
mod sound_file;
mod symbol_checks;
mod symbols;

pub use body::read_body;
pub use head::read_head;
pub use magic::is_elf;
