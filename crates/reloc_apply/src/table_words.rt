//! The linker's global offset table, written into a block of a file (RISC-V ELF psABI, "Global Offset Table").

ghost use Rattle.std.specs.Prelude.{◌≡◌, ℕ, ◌+◌, ◌*◌, ◌-◌, ◌^◌, ◌<◌, ◌≤◌, ◌/◌, [], ◌∷◌, length, slice_index_or};
ghost use Rattle.std.specs.Int.{to_le_bytes, w64};
ghost use Rattle.link_sections.specs.GotEntries.{AreNumbered, word_count};
ghost use Rattle.link_sections.specs.Views.{binding_in, by_view, files_in, laid_in};
ghost use Rattle.lk_tables.specs.Targets.{bound};
ghost use Rattle.link_sections.specs.Addresses as addresses;
ghost use Rattle.reloc_apply.specs.Image.{ShowsFrom, piece};
ghost use Rattle.reloc_apply.specs.Relocated.{offset_word, table_bytes, words_of};
ghost use Rattle.reloc_apply.specs.Standing.{no_entry, word_pieces};

use crate::image::{Piece, fill_piece};
use link_sections::{GotEntry, GotUse, View, symbol_address};
use lk_base::low_bits;
use lk_tables::Bound;

/// Writes the words of the table that reach into the block that starts at the file offset `from`, if the table stands at the file offset
/// `at`.
pub fn write_table(block: &mut [u8], from: u64, view: &View, at: u64)
    requires block { from + length block.old < 2 ^ 63 }
    requires room { at + 8 * word_count (laid_in view.now).table < 2 ^ 63 }
    ensures { ShowsFrom from block.old block.new (piece at (by_view table_bytes view.now) ∷ []) }
{
    let entries = view.got.entries();
    let end = from + block.len() as u64;
    let last = begun_before(entries, end.saturating_sub(at).div_ceil(8));
    for k in ended_before(entries, from.saturating_sub(at) / 8)..last {
        write_entry(block, from, view, at, &entries[k]);
    }
}

/// Writes what the words of an entry have in a block.
#[tactic(auto, unfolding(crate::specs::Relocated::words_of))]
fn write_entry(block: &mut [u8], from: u64, view: &View, at: u64, entry: &GotEntry)
    requires block { from + length block.old < 2 ^ 63 }
    requires room { at + 8 * (entry.now.word + 2) < 2 ^ 64 }
    ensures { ShowsFrom from block.old block.new (word_pieces (at + 8 * entry.now.word) (by_view words_of view.now entry.now)) }
{
    let place = at + 8 * entry.word;
    match entry.usage {
        GotUse::Address => write_word(block, from, place, address_of(view, entry)),
        GotUse::ThreadOffset => write_word(block, from, place, offset_in(view, entry, 0)),
        GotUse::GeneralDynamic => {
            write_word(block, from, place, 1);
            write_word(block, from, place + 8, offset_in(view, entry, 0x800));
        }
    }
}

/// Writes what a word has in a block.
fn write_word(block: &mut [u8], from: u64, at: u64, word: u64)
    requires block { from + length block.old < 2 ^ 63 }
    requires room { at + 8 < 2 ^ 64 }
    ensures { ShowsFrom from block.old block.new (piece at (to_le_bytes w64 word) ∷ []) }
{
    let bytes = word.to_le_bytes();
    let piece = Piece { at, bytes: &bytes };
    fill_piece(block, from, &piece);
}

/// The address of an entry's symbol.
fn address_of(view: &View, entry: &GotEntry) -> u64
    ensures { result ≡ by_view addresses.symbol_address view.now entry.now.file entry.now.symbol }
{
    if view.tables.file_count() <= entry.file as usize {
        return 0;
    }
    symbol_address(view, entry.file, entry.symbol)
}

/// The offset of an entry's symbol from the thread pointer and so many bytes more; 0 of a symbol that nothing defines.
fn offset_in(view: &View, entry: &GotEntry, more: u64) -> u64
    ensures { result ≡ offset_word (bound (files_in view.now) (binding_in view.now) entry.now.file entry.now.symbol) (by_view addresses.symbol_address view.now entry.now.file entry.now.symbol) ((laid_in view.now).bounds.tls_start + more) }
{
    offset_of(
        view.binding.bound(view.tables, entry.file, entry.symbol),
        address_of(view, entry),
        view.layout.bounds.tls_start,
        more,
    )
}

/// The offset of an entry's symbol from the thread pointer and so many bytes more, by what the symbol stands for.
fn offset_of(bound: Bound, address: u64, start: u64, more: u64) -> u64
    ensures { result ≡ offset_word bound address (start + more) }
{
    let offset = low_bits(address as i128 - (start as i128 + more as i128));
    match bound {
        Bound::Nobody => 0,
        _ => offset,
    }
}

/// How many entries end before the word of a number.
fn ended_before(entries: &[GotEntry], word: u64) -> usize
    requires numbered { AreNumbered entries.now }
    requires low { word < 2 ^ 64 - 1 }
    ensures bound { result ≤ length entries.now }
    ensures before { (k : ℕ) → k < result → (slice_index_or entries.now k no_entry).word + 2 ≤ word }
{
    entries.partition_point(|entry| entry.word.saturating_add(2) < word + 1)
}

/// How many entries start before the word of a number.
fn begun_before(entries: &[GotEntry], word: u64) -> usize
    requires { AreNumbered entries.now }
    ensures bound { result ≤ length entries.now }
    ensures after { (k : ℕ) → result ≤ k → k < length entries.now → word ≤ (slice_index_or entries.now k no_entry).word }
{
    entries.partition_point(|entry| entry.word < word)
}
