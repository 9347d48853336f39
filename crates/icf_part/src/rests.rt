//! What is compared of the targets of items of one key, but for the classes of those that are items.

ghost use Rattle.std.specs.Prelude.{◌≡◌, ◌<◌, ◌≤◌, ◌^◌, ◌++◌, All, length, flat_map, IfOk, OnOk};
ghost use Rattle.std.specs.List.Sorted.{IsStrictlyIncreasing};
ghost use Rattle.link_sections.specs.FoldItems.{item_view, sections_of};
ghost use Rattle.work_split.specs.Pieces.{Tiles};
ghost use Rattle.icf_part.specs.Chosen.{views_at};
ghost use Rattle.icf_part.specs.Signatures as spec;

use crate::place_table::Places;
use crate::words::{push_row, signed_words};
use flat_rows::{Rows, one_part};
use link_sections::{FoldItem, Target};
use lk_base::{LinkStop, SecNo};
use std::alloc::{AllocError, Global};
use std::ops::Range;
use std::thread::Threads;
use work_split::{Gate, over_shares};

/// A row for each item that is compared, in parts; `keys` are the numbers of their keys, and `ends` has the items to which they lead. The workers make one
/// part each.
pub fn all_rests<R: Threads + Sync, G: Gate>(
    rt: &R,
    alloc: Global,
    items: &[FoldItem],
    chosen: &[u32],
    sections: &Places,
    keys: &[u32],
    ends: &Rows<u32>,
    pieces: &[Range<usize>],
    gate: &G,
) -> Result<Vec<Rows<u8>>, AllocError>
    requires order { IsStrictlyIncreasing sections.now }
    requires few { length sections.now < 2 ^ 31 }
    requires sections { sections.now ≡ sections_of (views_at items.now chosen.now) }
    requires chosen { All (λ a. a < length items.now) chosen.now }
    requires keys { length keys.now ≡ length chosen.now }
    requires tiles { Tiles 0 (length chosen.now) pieces.now }
    requires most { length pieces.now ≤ 64 }
    ensures { IfOk result (λ parts. spec.AreRows (spec.rest_at (views_at items.now chosen.now) keys.now ends.now) (length chosen.now) (flat_map (λ part. part) parts.items)) }
{
    let found = over_shares(
        rt,
        alloc,
        gate,
        pieces,
        |piece: Range<usize>| -> Result<Vec<Rows<u8>>, LinkStop>
            requires order { IsStrictlyIncreasing sections.now }
            requires few { length sections.now < 2 ^ 31 }
            requires sections { sections.now ≡ sections_of (views_at items.now chosen.now) }
            requires chosen { All (λ a. a < length items.now) chosen.now }
            requires keys { length keys.now ≡ length chosen.now }
            requires ordered { piece.start ≤ piece.end }
            requires within { piece.end ≤ length chosen.now }
            ensures { spec.IsRowsPart (spec.rest_at (views_at items.entry.now chosen.entry.now) keys.entry.now ends.entry.now) piece result }
        { Ok(rest_rows(alloc, items, chosen, sections, keys, ends, piece)?) },
    );
    match found {
        Ok(parts) => Ok(parts),
        Err(_) => Err(AllocError),
    }
}

/// The rows of a run of items, as one part.
fn rest_rows(
    alloc: Global,
    items: &[FoldItem],
    chosen: &[u32],
    sections: &Places,
    keys: &[u32],
    ends: &Rows<u32>,
    piece: Range<usize>,
) -> Result<Vec<Rows<u8>>, AllocError>
    requires order { IsStrictlyIncreasing sections.now }
    requires few { length sections.now < 2 ^ 31 }
    requires sections { sections.now ≡ sections_of (views_at items.now chosen.now) }
    requires chosen { All (λ a. a < length items.now) chosen.now }
    requires keys { length keys.now ≡ length chosen.now }
    requires ordered { piece.start ≤ piece.end }
    requires within { piece.end ≤ length chosen.now }
    ensures { IfOk result (λ parts. spec.AreRowsFrom (spec.rest_at (views_at items.now chosen.now) keys.now ends.now) piece.start piece.end (flat_map (λ part. part) parts.items)) }
{
    let mut rows = Rows::empty(alloc)?;
    let mut words = Vec::new(alloc);
    let mut row = Vec::new(alloc);
    for a in piece.start..piece.end {
        put_rest(
            &mut words,
            &items[chosen[a] as usize],
            sections,
            keys[a],
            ends.row(a),
        )?;
        push_row(&mut rows, &mut row, words.as_slice())?;
    }
    let parts = one_part(alloc, rows)?;
    Ok(parts)
}

/// Puts what is compared of one item into a list, whatever stands there.
#[tactic(auto, unfolding(crate::specs::Signatures::rest_words))]
fn put_rest(
    words: &mut Vec<u64>,
    item: &FoldItem,
    sections: &Places,
    key: u32,
    ends: &[u32],
) -> Result<(), AllocError>
    requires order { IsStrictlyIncreasing sections.now }
    requires few { length sections.now < 2 ^ 31 }
    ensures { OnOk result (words.new.items ≡ spec.rest_words sections.now key (length ends.now) (item_view item.now)) }
{
    words.clear();
    words.extend_from_slice(&[key as u64, ends.len() as u64])?;
    for k in 0..item.relocs.len() {
        push_target(words, item.relocs[k].target, sections)?;
    }
    Ok(())
}

/// Adds what is compared of a target.
fn push_target(
    words: &mut Vec<u64>,
    target: Option<Target>,
    sections: &Places,
) -> Result<(), AllocError>
    requires order { IsStrictlyIncreasing sections.now }
    requires few { length sections.now < 2 ^ 31 }
    ensures { OnOk result (words.new.items ≡ words.old.items ++ spec.target_words sections.now target) }
{
    match target {
        None => words.extend_from_slice(&[0, 0, 0, 0, 0, 0, 0]),
        Some(Target::Number(number)) => words.extend_from_slice(&[1, number, 0, 0, 0, 0, 0]),
        Some(Target::Zero) => words.extend_from_slice(&[2, 0, 0, 0, 0, 0, 0]),
        Some(Target::Linker(name)) => words.extend_from_slice(&[3, name as u64, 0, 0, 0, 0, 0]),
        Some(Target::Unbound) => words.extend_from_slice(&[4, 0, 0, 0, 0, 0, 0]),
        Some(
            Target::Section {
                section,
                offset,
                rest,
            },
        ) => {
            words.extend_from_slice(&[5, offset])?;
            words.extend_from_slice(&signed_words(rest))?;
            words.extend_from_slice(&place_words(sections.place_of(section), section))
        }
        Some(
            Target::Piece {
                pool,
                piece,
                offset,
                rest,
            },
        ) => {
            words.extend_from_slice(&[6, offset])?;
            words.extend_from_slice(&signed_words(rest))?;
            words.extend_from_slice(&[0, pool as u64, piece as u64])
        }
    }
}

/// A section that is no item counts by its number.
fn place_words(place: Option<u32>, section: SecNo) -> [u64; 3]
    ensures { result ≡ spec.place_words place section }
{
    match place {
        Some(_) => [1, 0, 0],
        None => [0, section as u64, 0],
    }
}
