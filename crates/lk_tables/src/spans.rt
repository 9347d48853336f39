//! Names, as parts of an input.

use lk_base::FileNo;

/// Bytes of an input file, by number: a name is never copied. A reader's spans name no file (`NO_FILE`) and count
/// from the first byte that it was given.
#[derive(Clone, Copy, Debug, PartialEq, Eq)]
pub struct Span {
    /// The input file, or `NO_FILE`.
    pub file: FileNo,
    /// Offset of the first byte.
    pub from: u64,
    /// How many bytes.
    pub len: u64,
}
