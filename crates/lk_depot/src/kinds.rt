//! What a file is made for.

/// What a file is begun as. A depot of real files gives the two kinds different permissions.
#[derive(Clone, Copy, Debug, PartialEq, Eq)]
pub enum FileKind {
    /// A file that may be run.
    Executable,
    /// A file that is only read.
    Plain,
}
