//! The pieces of sections of which equal elements are written once.

use flat_rows::Rows;
use lk_tables::Span;

/// A piece of a pool: a constant, or a string with the zero character that ends it.
#[derive(Clone, Copy, Debug, PartialEq, Eq)]
pub struct Piece {
    /// Its bytes, as the first section that has it holds them.
    pub text: Span,
    /// Its first byte, in bytes from the start of its pool.
    pub position: u64,
}

/// A piece of a section that is merged.
#[derive(Clone, Copy, Debug, PartialEq, Eq)]
pub struct Part {
    /// Its first byte, in bytes from the start of the section.
    pub start: u64,
    /// The number of the piece in the section's pool.
    pub piece: u32,
}

/// What is merged of a section.
#[derive(Clone, Copy, Debug, PartialEq, Eq)]
pub struct Merged {
    /// The number of its pool.
    pub pool: u32,
    /// The number of the list of its parts.
    pub row: u32,
}

/// The lists of pieces, by pool, and of parts, one for each section that is merged.
#[derive(Debug, Drop)]
pub struct PieceRows {
    /// By pool its pieces, in order of position.
    pub pieces: Rows<Piece>,
    /// The parts of each section that is merged, in order of offset.
    pub parts: Rows<Part>,
}
