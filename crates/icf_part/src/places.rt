//! Which items are the targets of an item's relocations.

ghost use Rattle.std.specs.Prelude.{◌≡◌, ◌<◌, ◌≤◌, ◌^◌, ◌++◌, All, length, flat_map, IfOk, OnOk};
ghost use Rattle.std.specs.List.Sorted.{IsStrictlyIncreasing};
ghost use Rattle.link_sections.specs.FoldItems.{item_view, sections_of};
ghost use Rattle.work_split.specs.Pieces.{Tiles};
ghost use Rattle.icf_part.specs.Chosen.{views_at};
ghost use Rattle.icf_part.specs.Signatures as spec;

use crate::place_table::Places;
use flat_rows::{Rows, join_rows, one_part};
use link_sections::{FoldItem, FoldReloc, Target};
use lk_base::{LinkStop, SecNo};
use std::alloc::{AllocError, Global};
use std::ops::Range;
use std::thread::Threads;
use work_split::{Gate, over_shares};

/// The sections of the items that are compared.
#[tactic(auto, unfolding(link_sections::specs::FoldItems::sections_of))]
pub fn sections_of(
    alloc: Global,
    items: &[FoldItem],
    chosen: &[u32],
) -> Result<Vec<SecNo>, AllocError>
    requires { All (λ a. a < length items.now) chosen.now }
    ensures { IfOk result (λ sections. sections.items ≡ sections_of (views_at items.now chosen.now)) }
{
    let mut sections = Vec::with_capacity(alloc, chosen.len())?;
    for k in 0..chosen.len() {
        sections.push(items[chosen[k] as usize].section)?;
    }
    Ok(sections)
}

/// By item that is compared, the places of those for which its relocations stand, in order of these. The workers find those of one piece
/// of the items each.
pub fn all_places<R: Threads + Sync, G: Gate>(
    rt: &R,
    alloc: Global,
    items: &[FoldItem],
    chosen: &[u32],
    sections: &Places,
    pieces: &[Range<usize>],
    gate: &G,
) -> Result<Rows<u32>, AllocError>
    requires order { IsStrictlyIncreasing sections.now }
    requires few { length sections.now < 2 ^ 31 }
    requires sections { sections.now ≡ sections_of (views_at items.now chosen.now) }
    requires chosen { All (λ a. a < length items.now) chosen.now }
    requires tiles { Tiles 0 (length chosen.now) pieces.now }
    requires most { length pieces.now ≤ 64 }
    ensures { IfOk result (λ rows. rows ≡ spec.all_places (views_at items.now chosen.now)) }
{
    let found = over_shares(
        rt,
        alloc,
        gate,
        pieces,
        |piece: Range<usize>| -> Result<Vec<Rows<u32>>, LinkStop>
            requires order { IsStrictlyIncreasing sections.now }
            requires few { length sections.now < 2 ^ 31 }
            requires chosen { All (λ a. a < length items.now) chosen.now }
            requires ordered { piece.start ≤ piece.end }
            requires within { piece.end ≤ length chosen.now }
            ensures { spec.IsPlacesPart sections.entry.now (views_at items.entry.now chosen.entry.now) piece result }
        { Ok(places_of(alloc, items, chosen, sections, piece)?) },
    );
    match found {
        Ok(parts) => {
            let rows = join_rows(alloc, parts)?;
            Ok(rows)
        }
        Err(_) => Err(AllocError),
    }
}

/// The places for which the relocations of a run of items stand, as one part.
fn places_of(
    alloc: Global,
    items: &[FoldItem],
    chosen: &[u32],
    sections: &Places,
    piece: Range<usize>,
) -> Result<Vec<Rows<u32>>, AllocError>
    requires order { IsStrictlyIncreasing sections.now }
    requires few { length sections.now < 2 ^ 31 }
    requires chosen { All (λ a. a < length items.now) chosen.now }
    requires ordered { piece.start ≤ piece.end }
    requires within { piece.end ≤ length chosen.now }
    ensures { IfOk result (λ parts. flat_map (λ part. part) parts.items ≡ spec.places_from sections.now (views_at items.now chosen.now) piece.start piece.end) }
{
    let mut rows = Rows::empty(alloc)?;
    let mut list = Vec::new(alloc);
    for a in piece.start..piece.end {
        put_places(&mut list, &items[chosen[a] as usize], sections)?;
        rows.push(list.as_slice())?;
    }
    let parts = one_part(alloc, rows)?;
    Ok(parts)
}

/// Puts those of one item into a list, whatever stands there.
#[tactic(auto, unfolding(crate::specs::Signatures::places))]
fn put_places(list: &mut Vec<u32>, item: &FoldItem, sections: &Places) -> Result<(), AllocError>
    requires order { IsStrictlyIncreasing sections.now }
    requires few { length sections.now < 2 ^ 31 }
    ensures { OnOk result (list.new.items ≡ spec.places sections.now (item_view item.now)) }
{
    list.clear();
    for k in 0..item.relocs.len() {
        push_place(list, &item.relocs[k], sections)?;
    }
    Ok(())
}

/// Adds the place of the item for which a relocation stands, if it stands for one.
fn push_place(list: &mut Vec<u32>, reloc: &FoldReloc, sections: &Places) -> Result<(), AllocError>
    requires order { IsStrictlyIncreasing sections.now }
    requires few { length sections.now < 2 ^ 31 }
    ensures { OnOk result (list.new.items ≡ list.old.items ++ spec.reloc_places sections.now reloc.now) }
{
    let Some(Target::Section { section, .. }) = reloc.target else {
        return Ok(());
    };
    let Some(place) = sections.place_of(section) else {
        return Ok(());
    };
    list.push(place)?;
    Ok(())
}
