//! Where a section stands.

use lk_base::FileNo;

/// A section of a link as its file has it.
#[derive(Clone, Copy, Debug, PartialEq, Eq)]
pub struct SectionPlace {
    /// Its file.
    pub file: FileNo,
    /// Its index in the file's section table, or after all of these that of a COMMON symbol among such of the file.
    pub index: u32,
}
