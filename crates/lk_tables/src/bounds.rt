//! What symbols and relocations stand for, as values.

use lk_base::SecNo;

/// What a symbol or a name stands for.
#[derive(Clone, Copy, Debug, PartialEq, Eq)]
pub enum Bound {
    /// A byte of a section that goes into the executable, or its end.
    InSection {
        /// The section's number in the link.
        section: SecNo,
        /// The offset in the section, in bytes.
        offset: u64,
    },
    /// A number that no layout changes.
    Number(u64),
    /// A symbol of the linker's own, by its number.
    Linker(u32),
    /// Nothing: no file offers the name and the linker has no symbol of it, or the section in which the symbol stands was discarded.
    Nobody,
}

/// What a relocation stands for.
#[derive(Clone, Copy, Debug, PartialEq, Eq)]
pub enum Spot {
    /// A byte of a section that goes into the executable, or its end.
    Section {
        /// The section's number in the link.
        section: SecNo,
        /// The offset in the section, in bytes.
        offset: u64,
        /// What is to be added to the byte's address.
        rest: i64,
    },
    /// A number that no layout changes.
    Number(u64),
    /// Zero: a WEAK symbol that nothing defines.
    Zero,
    /// A symbol of the linker's own, by its number.
    Linker(u32),
    /// Nothing, which is a defect.
    Unbound,
}
