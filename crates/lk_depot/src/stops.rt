//! How a call on the outside ends if it does not succeed.

/// Why a load gave no bytes.
#[derive(Clone, Copy, Debug, PartialEq, Eq)]
pub enum LoadStop {
    /// Contracts can see the depot's files, and there is none of this name. This is no fault.
    Absent,
    /// The depot could not read the file. The fault is counted, and the name is kept as unread.
    Failed,
    /// There was no memory for the bytes.
    Memory,
}

/// A call failed, and the fault is counted.
#[derive(Clone, Copy, Debug, PartialEq, Eq)]
pub struct Failed;

/// Why a list of files was not loaded whole.
#[derive(Clone, Copy, Debug, PartialEq, Eq)]
pub enum LoadAllStop {
    /// The load of the name at `index` answered `Absent`, as the first.
    Absent {
        /// The place in the list of names, from 0.
        index: usize,
    },
    /// The load of the name at `index` answered `Failed`, as the first.
    Failed {
        /// The place in the list of names, from 0.
        index: usize,
    },
    /// There was no memory for the files' bytes or for their list.
    Memory,
}
