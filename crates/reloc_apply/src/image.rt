//! A piece of a file, written into a block of it.

ghost use Rattle.std.specs.Prelude.{◌≡◌, ℕ, ◌+◌, ◌^◌, ◌<◌, length, slice_index};
ghost use Rattle.reloc_apply.specs.Image.{over};
ghost use Rattle.reloc_apply.specs.PieceView.{piece_of, Ends};

/// Bytes that stand at a file offset.
#[derive(Clone, Copy)]
pub struct Piece<'a> {
    /// File offset of the first byte.
    pub at: u64,
    /// All its bytes, also those that lie outside of a block.
    pub bytes: &'a [u8],
}

/// Copies what a piece has in the block that starts at the file offset `from`.
pub fn fill_piece(block: &mut [u8], from: u64, piece: &Piece)
    requires block { from + length block.old < 2 ^ 64 }
    requires piece { Ends piece.now }
    ensures { (i : ℕ) → i < length block.old
        → slice_index block.new i ≡ over (piece_of piece.now) (slice_index block.old i) (from + i) }
{
    let start = from.max(piece.at);
    let end = (from + block.len() as u64).min(piece.at + piece.bytes.len() as u64);
    if start < end {
        let taken = &piece.bytes[(start - piece.at) as usize..(end - piece.at) as usize];
        block[(start - from) as usize..(end - from) as usize].copy_from_slice(taken);
    }
}
