//! The body of an object: what is read of a file only where it takes part in the link.

use crate::spans::Span;
use lk_base::SymNo;

/// One relocation (`Elf64_Rela`; RISC-V ELF psABI, "Relocations").
#[derive(Clone, Copy, Debug, PartialEq, Eq)]
pub struct Reloc {
    /// Offset in the relocated section, in bytes.
    pub offset: u64,
    /// The relocation's type by its number in the psABI.
    pub kind: u32,
    /// The symbol that it names, by its index in the symbol table.
    pub symbol: SymNo,
    /// The number added to the symbol's address.
    pub addend: i64,
}

/// One section group (System V gABI, "Section Groups").
#[derive(Debug, Drop)]
pub struct Group {
    /// The index of the GROUP section.
    pub section: u32,
    /// The name by which groups of several files are one.
    pub signature: Span,
    /// Whether only one group of this signature stays.
    pub comdat: bool,
    /// The sections that belong to it.
    pub members: Vec<u32>,
}

/// What the group sections and the relocation sections say.
#[derive(Debug, Drop)]
pub struct Object {
    /// The section groups, in order of their sections.
    pub groups: Vec<Group>,
    /// One list for each section, in stable order of offset; empty where the section has no relocations or is not
    /// read: it is neither written nor has unwind records.
    pub relocs: Vec<Vec<Reloc>>,
}
