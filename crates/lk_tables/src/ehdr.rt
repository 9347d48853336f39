//! Offsets of the fields of the file header (System V gABI, "ELF Header", `Elf64_Ehdr`).

/// The file's class (`e_ident[EI_CLASS]`).
pub const EI_CLASS: usize = 4;
/// The order of bytes in numbers (`e_ident[EI_DATA]`).
pub const EI_DATA: usize = 5;
/// The version of the format (`e_ident[EI_VERSION]`).
pub const EI_VERSION: usize = 6;
/// What the file is, in 2 bytes.
pub const E_TYPE: usize = 16;
/// The machine, in 2 bytes.
pub const E_MACHINE: usize = 18;
/// The version of the format, in 4 bytes.
pub const E_VERSION: usize = 20;
/// File offset of the section table, in 8 bytes.
pub const E_SHOFF: usize = 40;
/// The flags of the code, in 4 bytes.
pub const E_FLAGS: usize = 48;
/// Bytes of a section header, in 2 bytes.
pub const E_SHENTSIZE: usize = 58;
/// How many section headers there are, in 2 bytes.
pub const E_SHNUM: usize = 60;
/// The index of the section name string table, in 2 bytes.
pub const E_SHSTRNDX: usize = 62;
