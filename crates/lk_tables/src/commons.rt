//! COMMON symbols that get room.

use lk_base::{FileNo, SecNo, SymNo};

/// A COMMON symbol to which its name is bound, with the room that the link gives it.
#[derive(Clone, Copy, Debug, PartialEq, Eq)]
pub struct BoundCommon {
    /// Its file.
    pub file: FileNo,
    /// Its index in the symbol table of that file.
    pub symbol: SymNo,
    /// Its number among the sections of the link: those of its file come first, then one for each COMMON symbol of it.
    pub section: SecNo,
    /// Bytes: the greatest size that a COMMON symbol of the name asks for.
    pub size: u64,
    /// Alignment in bytes: the greatest that one asks for, 0 counting as 1.
    pub align: u64,
}
