//! Where a section loses bytes.

/// A place of a section that loses bytes: a relaxed call, or an alignment (RISC-V ELF psABI, "Linker Relaxation").
#[derive(Clone, Copy, Debug, PartialEq, Eq)]
pub struct Cut {
    /// Its offset in the section, in bytes.
    pub at: u64,
    /// The bytes that it has in the input.
    pub whole: u64,
    /// How many of these stay, from the first on.
    pub kept: u64,
    /// Whether what stays is nops: it is an alignment.
    pub is_align: bool,
    /// The offset at which it stands once the bytes before it that do not stay are gone.
    pub new_at: u64,
}
