//! Numbers of the System V gABI that section headers and symbols are written with.

/// The type of a symbol table (sh_type).
pub const SHT_SYMTAB: u64 = 2;
/// The type of a string table (sh_type).
pub const SHT_STRTAB: u64 = 3;
/// The type of a section of relocations with addends (sh_type).
pub const SHT_RELA: u64 = 4;
/// The type of a table of section indexes (sh_type).
pub const SHT_SYMTAB_SHNDX: u64 = 18;
/// The first section index that a field of 16 bits has no room for (st_shndx, e_shstrndx).
pub const SHN_LORESERVE: u64 = 0xff00;
/// The section index stands elsewhere (st_shndx, e_shstrndx).
pub const SHN_XINDEX: u64 = 0xffff;
/// Of a section whose sh_info is a section's number (sh_flags).
pub const SHF_INFO_LINK: u64 = 0x40;
/// The binding of a local symbol (st_info).
pub const STB_LOCAL: u64 = 0;
/// The size of a symbol table's entry, in bytes.
pub const SYM_SIZE: u64 = 24;
/// The size of a relocation with an addend, in bytes.
pub const RELA_SIZE: u64 = 24;
