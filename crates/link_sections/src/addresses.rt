//! The addresses of symbols, and that at which an executable starts.

/// What each symbol stands for, by its number in the link, and where the executable starts.
#[derive(Debug, Drop)]
pub struct Addresses {
    /// What each symbol of a file that takes part stands for: an address or a number; 0 if it stands for nothing.
    pub symbols: Vec<u64>,
    /// The address of what the entry's name is bound to.
    pub entry: u64,
}
