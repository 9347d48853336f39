//! What shows why a section is kept, and why two items are apart.

use lk_base::SecNo;

/// A walk along edges: why its last section is kept.
#[derive(Debug, Drop)]
pub struct LiveChain {
    /// The sections by their numbers: first a root, then each one to which the one before leads.
    pub sections: Vec<SecNo>,
}

/// How the last pair of a chain differs.
#[derive(Clone, Copy, Debug, PartialEq, Eq)]
pub enum ApartEnd {
    /// In what has to be equal of two items whatever else is folded: their bytes, headers, relocations without their targets, and frames.
    Key,
    /// In the targets of their relocations of this number, which are neither equal nor items at one offset with one rest. Of what has to
    /// be equal whatever else is folded all is equal.
    Target(u64),
}

/// Pairs of items, of which the first is given: why no two of them can stand for one another. They are given by the relocations through
/// which each next pair is met.
#[derive(Debug, Drop)]
pub struct ApartChain {
    /// For each pair but the first the number of the relocation through which it is met: of both items of the pair before, that relocation's
    /// targets are the sections of this pair, at one offset and with one rest.
    pub vias: Vec<u64>,
    /// How the last pair differs.
    pub last: ApartEnd,
}
