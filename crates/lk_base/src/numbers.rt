//! The numbers by which tables name their rows.

/// A file: the inputs in command order, each archive followed by its ELF members, counted from 0.
pub type FileNo = u32;

/// A section: of one file its index in the section table, of a whole link its place in command order.
pub type SecNo = u32;

/// A symbol of one file: its index in the symbol table.
pub type SymNo = u32;

/// The file of a defect that belongs to no file.
pub const NO_FILE: FileNo = 0xffff_ffff;
