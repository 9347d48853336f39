//! Pools of merged pieces, written into a block of a file.

ghost use Rattle.std.specs.Prelude.{◌≡◌, ℕ, ◌+◌, ◌-◌, ◌^◌, ◌<◌, ◌≤◌, [], ◌∷◌, min, length, slice_index_or};
ghost use Rattle.lk_tables.specs.TablesView.{files_of};
ghost use Rattle.link_sections.specs.Addresses.{no_pool};
ghost use Rattle.link_sections.specs.PoolViews.{piece_text};
ghost use Rattle.link_sections.specs.Views.{by_view, laid_in};
ghost use Rattle.reloc_apply.specs.Image.{ShowsFrom, piece};
ghost use Rattle.reloc_apply.specs.Relocated.{pool_pieces};
ghost use Rattle.reloc_apply.specs.Standing.{AreStacked, no_piece};

use crate::image::{Piece, fill_piece};
use link_sections::View;
use lk_tables::{Tables, text_of};

/// Writes the pieces of a pool that reach into the block that starts at the file offset `from`, if the pool stands at the file offset
/// `at`.
pub fn write_pool(block: &mut [u8], from: u64, view: &View, pool: u32, at: u64)
    requires block { from + length block.old < 2 ^ 63 }
    requires number { pool < length (laid_in view.now).merging.pools }
    requires room { at + (slice_index_or (laid_in view.now).merging.pools pool no_pool).size < 2 ^ 63 }
    ensures { ShowsFrom from block.old block.new (by_view pool_pieces view.now at pool) }
{
    let pieces = view.pools.pieces(pool);
    let end = from + block.len() as u64;
    let last = begun_before(pieces, end.saturating_sub(at));
    for k in ended_before(pieces, from.saturating_sub(at))..last {
        write_piece(block, from, view.tables, at, &pieces[k]);
    }
}

/// Writes what a piece has in a block, if its pool stands at the file offset `at`.
fn write_piece(block: &mut [u8], from: u64, tables: &Tables, at: u64, part: &link_sections::Piece)
    requires block { from + length block.old < 2 ^ 63 }
    requires room { at + part.now.position + part.now.text.len < 2 ^ 63 }
    ensures { ShowsFrom from block.old block.new (piece (at + part.now.position) (piece_text (files_of tables.now) part.now) ∷ []) }
{
    let bytes = text_in(tables, part);
    let piece = Piece {
        at: at + part.position,
        bytes,
    };
    fill_piece(block, from, &piece);
}

/// The bytes of a piece, in the file that holds them.
fn text_in<'a>(tables: &Tables<'a>, part: &link_sections::Piece) -> &'a [u8]
    ensures value { result.now ≡ piece_text (files_of tables.now) part.now }
    ensures short { length result.now ≤ part.now.text.len }
{
    if tables.file_count() <= part.text.file as usize {
        return &[];
    }
    text_of(tables.file(part.text.file).bytes(), &part.text)
}

/// How many pieces end at an offset of their pool or before it.
fn ended_before(pieces: &[link_sections::Piece], offset: u64) -> usize
    requires order { AreStacked pieces.now }
    requires low { offset < 2 ^ 64 - 1 }
    ensures bound { result ≤ length pieces.now }
    ensures before { (k : ℕ) → k < result → (slice_index_or pieces.now k no_piece).position + (slice_index_or pieces.now k no_piece).text.len ≤ offset }
{
    pieces.partition_point(|piece| end_of(piece) < offset + 1)
}

/// The offset after a piece, or the greatest of 64 bits.
fn end_of(piece: &link_sections::Piece) -> u64
    ensures { result ≡ min (piece.now.position + piece.now.text.len) (2 ^ 64 - 1) }
{
    piece.position.saturating_add(piece.text.len)
}

/// How many pieces start before an offset of their pool.
fn begun_before(pieces: &[link_sections::Piece], offset: u64) -> usize
    requires { AreStacked pieces.now }
    ensures bound { result ≤ length pieces.now }
    ensures after { (k : ℕ) → result ≤ k → k < length pieces.now → offset ≤ (slice_index_or pieces.now k no_piece).position }
{
    pieces.partition_point(|piece| piece.position < offset)
}
