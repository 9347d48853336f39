//! What passes through the queue of a load.

/// A file that was loaded, or an end mark.
#[derive(Drop)]
pub enum Piece {
    /// The file of the name at `index`, from 0.
    Loaded { index: usize, bytes: Vec<u8> },
    /// No file follows for the parser that takes it: end mark `number`, from 0.
    End { number: u32 },
}
