//! Unwind records: what is read of the sections `.eh_frame`.

use crate::objects::Reloc;
use lk_base::SecNo;

/// An unwind record (LSB Core, "Exception Frames"): a CIE, which has what the functions of several FDEs share, or an FDE, which says how
/// one function is unwound.
#[derive(Debug, Drop)]
pub struct Record {
    /// Where it starts in its section, in bytes.
    pub from: u64,
    /// Its Length: the bytes after this field of 4 bytes.
    pub len: u64,
    /// Of an FDE the number of its CIE in the section's list; a CIE has none.
    pub cie: Option<u32>,
    /// The relocations whose offsets lie in it, in stable order of offset. Their offsets are those in the section.
    pub relocs: Vec<Reloc>,
}

/// A record of a link.
#[derive(Clone, Copy, Debug, PartialEq, Eq)]
pub struct FrameNo {
    /// The number of its section.
    pub section: SecNo,
    /// Its number in the section's list.
    pub at: u32,
}
