//! The bytes of a section that stay, written into a block of a file.

ghost use Rattle.std.specs.Prelude.{◌≡◌, ℕ, ◌+◌, ◌-◌, ◌<◌, ◌≤◌, ◌^◌, true, All, length, slice_index, slice_index_or, take, drop, min};
ghost use Rattle.link_sections.specs.CutsView.{AreCuts, cut_view, cut_views};
ghost use Rattle.rv_code.specs.Places.{number_of};
ghost use Rattle.rv_code.specs.Instructions.{rd_of};
ghost use Rattle.reloc_apply.specs.Image.{over, piece};
ghost use Rattle.reloc_apply.specs.Sites.{Shows};
ghost use Rattle.reloc_apply.specs.Staying as spec;

use crate::image::{Piece, fill_piece};
use byteorder::{ByteOrder, LittleEndian};
use link_sections::Cut;

/// Copies what the bytes of a section that stay have in the block that starts at the file offset `from`, if their first one stands at
/// the file offset `at`.
pub fn fill_staying(block: &mut [u8], from: u64, at: u64, raw: &[u8], cuts: &[Cut])
    requires block { from + length block.old < 2 ^ 63 }
    requires end { at + length raw.now < 2 ^ 63 }
    requires cuts { AreCuts cuts.now }
    requires within { All (λ c. c.at + c.whole ≤ length raw.now) (cut_views cuts.now) }
    ensures { (i : ℕ) → i < length block.old → slice_index block.new i ≡ over (piece at (spec.staying (cut_views cuts.now) 0 raw.now)) (slice_index block.old i) (from + i) }
{
    let mut k = first_cut(cuts, from.saturating_sub(at));
    let (mut old, mut new) = ends_before(cuts, k);
    let end = from + block.len() as u64;
    while k < cuts.len() {
        if end <= at + new {
            return;
        }
        let cut = cuts[k];
        fill_part(block, from, at + new, raw, old, cut.at);
        fill_kept(block, from, at + cut.new_at, raw, &cut);
        old = cut.at + cut.whole;
        new = cut.new_at + cut.kept;
        k += 1;
    }
    fill_part(block, from, at + new, raw, old, raw.len() as u64);
}

/// Copies the bytes that stay from an offset on into a window, if it lies between two cuts, or before the first, or after the last: then its
/// bytes stand side by side in the section. Answers whether that is so.
pub fn copy_between(window: &mut [u8], at: u64, raw: &[u8], cuts: &[Cut]) -> bool
    requires cuts { AreCuts cuts.now }
    requires within { All (λ c. c.at + c.whole ≤ length raw.now) (cut_views cuts.now) }
    requires short { length raw.now < 2 ^ 33 }
    requires low { at < 2 ^ 34 }
    requires few { length window.old ≤ 10 }
    ensures shows { result ≡ true → Shows (spec.staying (cut_views cuts.now) 0 raw.now) at window.new }
    ensures same { length window.new ≡ length window.old }
{
    let k = cuts.partition_point(|cut| cut.new_at <= at);
    let (old, new) = ends_before(cuts, k);
    if at < new {
        return false;
    }
    let start = old + (at - new);
    let end = start + window.len() as u64;
    if !ends_by(raw, cuts, k, end) {
        return false;
    }
    copy_part(window, raw, start as usize);
    true
}

/// Whether bytes that end at an offset of a section end by the start of a cut, or past the last one by the end of the section.
fn ends_by(raw: &[u8], cuts: &[Cut], k: usize, end: u64) -> bool
    requires cuts { AreCuts cuts.now }
    requires within { All (λ c. c.at + c.whole ≤ length raw.now) (cut_views cuts.now) }
    ensures cut { result ≡ true → k < length cuts.now → end ≤ (slice_index_or (cut_views cuts.now) k spec.no_cut).at }
    ensures whole { result ≡ true → end ≤ length raw.now }
{
    match cuts.get(k) {
        Some(cut) => end <= cut.at,
        None => end <= raw.len() as u64,
    }
}

/// Fills a window with bytes from an offset on, which are all there.
pub fn copy_part(window: &mut [u8], bytes: &[u8], at: usize)
    requires { at + length window.old ≤ length bytes.now }
    ensures { Shows bytes.now at window.new }
{
    window.copy_from_slice(&bytes[at..at + window.len()]);
}

/// A cut that starts at or before a new offset, after which the next one does not; the first if there is none.
fn first_cut(cuts: &[Cut], offset: u64) -> usize
    requires { AreCuts cuts.now }
    ensures within { result ≤ length cuts.now }
    ensures before { (d : _) → 0 < result → (slice_index_or cuts.now result d).new_at ≤ offset }
    ensures some { 0 < result → result < length cuts.now }
{
    let n = cuts.partition_point(|cut| cut.new_at <= offset);
    if n == 0 {
        return 0;
    }
    n - 1
}

/// Where the cut before one ends: its old offset and its new one; 0 before the first.
fn ends_before(cuts: &[Cut], k: usize) -> (u64, u64)
    requires within { k ≤ length cuts.now }
    requires cuts { AreCuts cuts.now }
    requires small { All (λ c. c.at + c.whole < 2 ^ 63) (cut_views cuts.now) }
    ensures old { result.0 ≡ spec.old_before (cut_views cuts.now) k }
    ensures new { result.1 ≡ spec.new_before (cut_views cuts.now) k }
{
    if k == 0 {
        return (0, 0);
    }
    let cut = cuts[k - 1];
    (cut.at + cut.whole, cut.new_at + cut.kept)
}

/// Copies what the bytes of a section from one offset up to another have in a block.
fn fill_part(block: &mut [u8], from: u64, at: u64, raw: &[u8], start: u64, end: u64)
    requires block { from + length block.old < 2 ^ 64 }
    requires order { start ≤ end }
    requires within { end ≤ length raw.now }
    requires small { at + (end - start) < 2 ^ 64 }
    ensures bytes { (i : ℕ) → i < length block.old → slice_index block.new i ≡ over (piece at (take (end - start) (drop start raw.now))) (slice_index block.old i) (from + i) }
    ensures same { length block.new ≡ length block.old }
{
    let part = Piece {
        at,
        bytes: part_of(raw, start as usize, end as usize),
    };
    fill_piece(block, from, &part);
}

/// The bytes from one offset up to another.
fn part_of(raw: &[u8], start: usize, end: usize) -> &[u8]
    requires order { start ≤ end }
    requires within { end ≤ length raw.now }
    ensures value { result.now ≡ take (end - start) (drop start raw.now) }
    ensures size { length result.now ≡ end - start }
{
    &raw[start..end]
}

/// Copies what a cut keeps: nops of an alignment, and else a jump in place of a call.
fn fill_kept(block: &mut [u8], from: u64, at: u64, raw: &[u8], cut: &Cut)
    requires block { from + length block.old < 2 ^ 64 }
    requires kept { cut.now.kept ≤ cut.now.whole }
    requires within { cut.now.at + cut.now.whole ≤ length raw.now }
    requires small { at + cut.now.kept < 2 ^ 64 }
    ensures bytes { (i : ℕ) → i < length block.old → slice_index block.new i ≡ over (piece at (spec.kept_bytes (cut_view cut.now) raw.now)) (slice_index block.old i) (from + i) }
    ensures same { length block.new ≡ length block.old }
{
    if cut.is_align {
        fill_nops(block, from, at, cut.kept);
    } else {
        fill_call(block, from, at, &raw[cut.at as usize..], cut.kept);
    }
}

/// Copies what so many bytes of a call are, of which these are the first ones and all after them: `jal` with the register of the second
/// instruction, or `c.j`, and else the first bytes.
#[tactic(auto, unfolding(crate::specs::Staying::call_bytes))]
fn fill_call(block: &mut [u8], from: u64, at: u64, raw: &[u8], size: u64)
    requires block { from + length block.old < 2 ^ 64 }
    requires within { size ≤ length raw.now }
    requires small { at + size < 2 ^ 64 }
    ensures bytes { (i : ℕ) → i < length block.old → slice_index block.new i ≡ over (piece at (spec.call_bytes size raw.now)) (slice_index block.old i) (from + i) }
    ensures same { length block.new ≡ length block.old }
{
    match size {
        4 => fill_bytes(block, from, at, &jal_word(second_word(raw)).to_le_bytes()),
        2 => fill_bytes(block, from, at, &0xa001u16.to_le_bytes()),
        _ => fill_bytes(block, from, at, &raw[..size as usize]),
    }
}

/// Copies what some bytes have in a block.
fn fill_bytes(block: &mut [u8], from: u64, at: u64, bytes: &[u8])
    requires block { from + length block.old < 2 ^ 64 }
    requires small { at + length bytes.now < 2 ^ 64 }
    ensures bytes { (i : ℕ) → i < length block.old → slice_index block.new i ≡ over (piece at bytes.now) (slice_index block.old i) (from + i) }
    ensures same { length block.new ≡ length block.old }
{
    fill_piece(block, from, &Piece { at, bytes });
}

/// `jal` with the register of an instruction, and no displacement.
fn jal_word(word: u64) -> u32
    ensures { result ≡ spec.jal_word (rd_of word) }
{
    0x6f + (word / 128 % 32) as u32 * 128
}

/// The number that the second four bytes hold, or those of them that are there.
fn second_word(raw: &[u8]) -> u64
    ensures { result ≡ number_of (take 4 (drop 4 raw.now)) }
{
    let (_, rest) = raw.split_at(raw.len().min(4));
    let (word, _) = rest.split_at(rest.len().min(4));
    number_in(word)
}

/// The number that at most eight bytes hold.
fn number_in(bytes: &[u8]) -> u64
    requires { length bytes.now ≤ 8 }
    ensures { result ≡ number_of bytes.now }
{
    if bytes.is_empty() {
        return 0;
    }
    LittleEndian::read_uint(bytes, bytes.len())
}

/// Writes what so many bytes of nops have in a block.
fn fill_nops(block: &mut [u8], from: u64, at: u64, count: u64)
    requires block { from + length block.old < 2 ^ 64 }
    requires small { at + count < 2 ^ 64 }
    ensures bytes { (i : ℕ) → i < length block.old → slice_index block.new i ≡ over (piece at (spec.nops count)) (slice_index block.old i) (from + i) }
    ensures same { length block.new ≡ length block.old }
{
    let first = at.saturating_sub(from).min(block.len() as u64) as usize;
    let end = (at + count).saturating_sub(from).min(block.len() as u64) as usize;
    for i in first..end {
        block[i] = nop_over(block[i], at, count, from + i as u64);
    }
}

/// The byte at a place if so many bytes of nops stand at an offset, and this byte elsewhere.
fn nop_over(before: u8, at: u64, count: u64, place: u64) -> u8
    requires { at + count < 2 ^ 64 }
    ensures { result ≡ over (piece at (spec.nops count)) before place }
{
    if place < at {
        return before;
    }
    if at + count <= place {
        return before;
    }
    nop_byte(count, place - at)
}

/// A byte of so many bytes of nops.
fn nop_byte(count: u64, i: u64) -> u8
    requires { i < count }
    ensures { result ≡ spec.nop_at count i }
{
    if i % 4 != 0 {
        return 0;
    }
    if count - i >= 4 { 0x13 } else { 0x01 }
}
