//! The entries of a symbol table.

/// Where a symbol of an executable stands (System V gABI, "Symbol Table", `st_shndx`).
#[derive(Clone, Copy, Debug, PartialEq, Eq)]
pub enum TablePlace {
    /// In no output section: its value is a number, or it is one of the linker's own, or its output section is empty.
    Absolute,
    /// In the output section of this number: those that are not empty have the numbers from 1 on, in order, as their headers in the
    /// section header table do.
    Output(u16),
}

/// One symbol of an executable (System V gABI, "Symbol Table").
#[derive(Clone, Copy, Debug, PartialEq, Eq)]
pub struct TableSymbol<'a> {
    /// Its name.
    pub name: &'a [u8],
    /// GLOBAL 1, or WEAK 2.
    pub binding: u8,
    /// Its type.
    pub sort: u8,
    /// Its address or its number; for a symbol of type TLS the offset from the start of thread-local storage, modulo 2^64.
    pub value: u64,
    /// Bytes of what it names, once the bytes that do not stay are gone.
    pub size: u64,
    /// Where it stands.
    pub section: TablePlace,
}
