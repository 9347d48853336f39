//! What must be equal of two items, whatever is folded.

ghost use Rattle.std.specs.Prelude.{◌≡◌, ◌<◌, ◌≤◌, ◌++◌, All, length, flat_map, IfOk, OnOk};
ghost use Rattle.link_sections.specs.FoldItems.{frame_view, frame_views, item_view};
ghost use Rattle.work_split.specs.Pieces.{Tiles};
ghost use Rattle.icf_part.specs.Chosen.{views_at};
ghost use Rattle.icf_part.specs.Signatures as spec;

use crate::words::{push_row, signed_words};
use flat_rows::{Rows, one_part};
use link_sections::{FoldFrame, FoldItem, FoldReloc};
use lk_base::LinkStop;
use std::alloc::{AllocError, Global};
use std::ops::Range;
use std::thread::Threads;
use work_split::{Gate, over_shares};

/// A row for each item that is compared, in parts; `bytes` and `outputs` are the numbers of their contents and of their output sections. The workers make
/// one part each.
pub fn all_keys<R: Threads + Sync, G: Gate>(
    rt: &R,
    alloc: Global,
    items: &[FoldItem],
    chosen: &[u32],
    bytes: &[u32],
    outputs: &[u32],
    pieces: &[Range<usize>],
    gate: &G,
) -> Result<Vec<Rows<u8>>, AllocError>
    requires chosen { All (λ a. a < length items.now) chosen.now }
    requires bytes { length bytes.now ≡ length chosen.now }
    requires outputs { length outputs.now ≡ length chosen.now }
    requires tiles { Tiles 0 (length chosen.now) pieces.now }
    requires most { length pieces.now ≤ 64 }
    ensures { IfOk result (λ parts. spec.AreRows (spec.key_at (views_at items.now chosen.now) bytes.now outputs.now) (length chosen.now) (flat_map (λ part. part) parts.items)) }
{
    let found = over_shares(
        rt,
        alloc,
        gate,
        pieces,
        |piece: Range<usize>| -> Result<Vec<Rows<u8>>, LinkStop>
            requires chosen { All (λ a. a < length items.now) chosen.now }
            requires bytes { length bytes.now ≡ length chosen.now }
            requires outputs { length outputs.now ≡ length chosen.now }
            requires ordered { piece.start ≤ piece.end }
            requires within { piece.end ≤ length chosen.now }
            ensures { spec.IsRowsPart (spec.key_at (views_at items.entry.now chosen.entry.now) bytes.entry.now outputs.entry.now) piece result }
        { Ok(key_rows(alloc, items, chosen, bytes, outputs, piece)?) },
    );
    match found {
        Ok(parts) => Ok(parts),
        Err(_) => Err(AllocError),
    }
}

/// The rows of a run of items, as one part.
fn key_rows(
    alloc: Global,
    items: &[FoldItem],
    chosen: &[u32],
    bytes: &[u32],
    outputs: &[u32],
    piece: Range<usize>,
) -> Result<Vec<Rows<u8>>, AllocError>
    requires chosen { All (λ a. a < length items.now) chosen.now }
    requires bytes { length bytes.now ≡ length chosen.now }
    requires outputs { length outputs.now ≡ length chosen.now }
    requires ordered { piece.start ≤ piece.end }
    requires within { piece.end ≤ length chosen.now }
    ensures { IfOk result (λ parts. spec.AreRowsFrom (spec.key_at (views_at items.now chosen.now) bytes.now outputs.now) piece.start piece.end (flat_map (λ part. part) parts.items)) }
{
    let mut rows = Rows::empty(alloc)?;
    let mut words = Vec::new(alloc);
    let mut row = Vec::new(alloc);
    for a in piece.start..piece.end {
        put_key(&mut words, &items[chosen[a] as usize], bytes[a], outputs[a])?;
        push_row(&mut rows, &mut row, words.as_slice())?;
    }
    let parts = one_part(alloc, rows)?;
    Ok(parts)
}

/// Puts what is compared of one item into a list, whatever stands there.
#[tactic(auto, unfolding(crate::specs::Signatures::key_words))]
fn put_key(words: &mut Vec<u64>, item: &FoldItem, bytes: u32, output: u32) -> Result<(), AllocError>
    ensures { OnOk result (words.new.items ≡ spec.key_words bytes output (item_view item.now)) }
{
    words.clear();
    words.extend_from_slice(&[
        bytes as u64,
        output as u64,
        item.flags,
        item.sh_type as u64,
        item.align,
        item.own,
        item.frames.len() as u64,
    ])?;
    push_frames(words, item.frames.as_slice())?;
    for k in 0..item.relocs.len() {
        push_site(words, &item.relocs[k])?;
    }
    Ok(())
}

/// Adds what is compared of FDEs and their CIEs.
fn push_frames(words: &mut Vec<u64>, frames: &[FoldFrame]) -> Result<(), AllocError>
    ensures { OnOk result (words.new.items ≡ words.old.items ++ flat_map spec.frame_words (frame_views frames.now)) }
{
    for frame in frames {
        push_frame(words, frame)?;
    }
    Ok(())
}

/// Adds what is compared of one of them.
#[tactic(auto, unfolding(crate::specs::Signatures::frame_words))]
fn push_frame(words: &mut Vec<u64>, frame: &FoldFrame) -> Result<(), AllocError>
    ensures { OnOk result (words.new.items ≡ words.old.items ++ spec.frame_words (frame_view frame.now)) }
{
    words.extend_from_slice(&[
        frame.head.len() as u64 + frame.tail.len() as u64,
        frame.cie.len() as u64,
        frame.offset,
        frame.others,
        frame.shared,
    ])?;
    words.extend_from_slice(&signed_words(frame.rest))?;
    push_bytes(words, frame.head)?;
    push_bytes(words, frame.tail)?;
    push_bytes(words, frame.cie)?;
    Ok(())
}

/// Adds bytes, each as a number.
fn push_bytes(words: &mut Vec<u64>, bytes: &[u8]) -> Result<(), AllocError>
    ensures { OnOk result (words.new.items ≡ words.old.items ++ bytes.now) }
{
    words.reserve(bytes.len())?;
    for byte in bytes {
        words.push(*byte as u64)?;
    }
    Ok(())
}

/// Adds what is compared of a relocation.
#[tactic(auto, unfolding(crate::specs::Signatures::site_words))]
fn push_site(words: &mut Vec<u64>, reloc: &FoldReloc) -> Result<(), AllocError>
    ensures { OnOk result (words.new.items ≡ words.old.items ++ spec.site_words reloc.now) }
{
    words.extend_from_slice(&[
        reloc.offset,
        reloc.kind as u64,
        flag_of(reloc.is_section_symbol),
    ])?;
    words.extend_from_slice(&signed_words(reloc.addend))
}

fn flag_of(holds: bool) -> u64
    ensures { result ≡ spec.flag_of holds }
{
    if holds { 1 } else { 0 }
}
