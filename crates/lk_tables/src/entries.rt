//! Entries of an object's tables as they stand in the file (System V gABI, "Section Header Table", "Symbol Table").

/// A section header (`Elf64_Shdr`) without its address, which a relocatable object does not use.
#[derive(Clone, Copy, Debug, PartialEq, Eq)]
pub struct SectionHeader {
    /// Where the name starts in the section name string table, in bytes.
    pub name: u32,
    /// What the section holds (`SHT_`).
    pub sh_type: u32,
    /// Its flags (`SHF_`).
    pub flags: u64,
    /// File offset of the contents.
    pub offset: u64,
    /// Bytes of the contents.
    pub size: u64,
    /// Another section, as the type has it.
    pub link: u32,
    /// A number as the type has it.
    pub info: u32,
    /// Alignment in bytes.
    pub align: u64,
    /// Bytes of one entry, in a table.
    pub entsize: u64,
}

/// A symbol (`Elf64_Sym`) without its visibility.
#[derive(Clone, Copy, Debug, PartialEq, Eq)]
pub struct SymbolEntry {
    /// Where the name starts in the symbol string table, in bytes.
    pub name: u32,
    /// Binding in the high four bits, type in the low four.
    pub info: u8,
    /// The section in which it stands, or a reserved index.
    pub shndx: u16,
    /// An offset in its section, or a number.
    pub value: u64,
    /// Bytes of what it names.
    pub size: u64,
}
