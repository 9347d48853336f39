//! What stands in an output section.

use lk_base::SecNo;

/// One thing that has a place of its own in an output section.
#[derive(Clone, Copy, Debug, PartialEq, Eq)]
pub enum Content {
    /// A section, by its number; it is its own leader.
    Section(SecNo),
    /// A pool of merged pieces, by its number.
    Pool(u32),
    /// The linker's global offset table.
    Got,
}

/// A member of an output section, and where it stands.
#[derive(Clone, Copy, Debug, PartialEq, Eq)]
pub struct Member {
    /// What it is.
    pub content: Content,
    /// Its first address.
    pub start: u64,
    /// Its bytes, once the bytes that do not stay are gone.
    pub size: u64,
}
