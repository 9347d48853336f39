//! What folding of equal code looks at.

use crate::targets::Target;
use lk_base::SecNo;

/// A relocation of a section that may be folded, or of a record by which its function is unwound.
#[derive(Clone, Copy, Debug, PartialEq, Eq)]
pub struct FoldReloc {
    /// Its offset in the section, or from the record's start, in bytes.
    pub offset: u64,
    /// Its type by its number in the psABI.
    pub kind: u32,
    /// The number added to the symbol's address.
    pub addend: i64,
    /// Whether its symbol is a SECTION symbol.
    pub is_section_symbol: bool,
    /// What it stands for; none where its kind names no symbol (RELAX, ALIGN).
    pub target: Option<Target>,
}

/// An FDE of a function of a section that may be folded, and its CIE (LSB Core, "Exception Frames"), without their relocations.
#[derive(Clone, Copy, Debug)]
pub struct FoldFrame<'a> {
    /// The FDE's bytes before its CIE Pointer.
    pub head: &'a [u8],
    /// Its bytes after the CIE Pointer.
    pub tail: &'a [u8],
    /// The CIE's bytes.
    pub cie: &'a [u8],
    /// The offset in the section, in bytes, that its PC Begin stands for.
    pub offset: u64,
    /// What is to be added to that byte's address.
    pub rest: i64,
    /// How many relocations the FDE has but that of PC Begin.
    pub others: u64,
    /// How many relocations the CIE has.
    pub shared: u64,
}

/// A section that may be folded: all that decides with which others.
#[derive(Debug, Drop)]
pub struct FoldItem<'a> {
    /// The section's number in the link.
    pub section: SecNo,
    /// Its contents.
    pub bytes: &'a [u8],
    /// Its flags (`sh_flags`).
    pub flags: u64,
    /// Its type (`sh_type`).
    pub sh_type: u32,
    /// Its alignment in bytes.
    pub align: u64,
    /// The name of the output section to which it goes.
    pub output: &'a [u8],
    /// How many of the relocations are its own.
    pub own: u64,
    /// The FDEs of its functions, in order of section and offset.
    pub frames: Vec<FoldFrame<'a>>,
    /// Its relocations, in stable order of offset, and after them for each FDE the relocations of that, but for PC Begin's, and of its CIE.
    pub relocs: Vec<FoldReloc>,
}
