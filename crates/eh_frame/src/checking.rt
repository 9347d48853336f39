//! What is wrong with the values of the relocations of records.

ghost use Rattle.std.specs.Prelude.{◌≡◌, ◌+◌, ◌-◌, ◌^◌, ◌≤◌, ◌<◌, ◌≤ℤ◌, true, length, pos, [], ◌∷◌, Some, take, drop, flat_map, IfOk};
ghost use Rattle.std.specs.List.{All};
ghost use Rattle.lk_base.specs.Firsts.{IsFirst};
ghost use Rattle.lk_base.specs.Reaches.{any};
ghost use Rattle.lk_base.specs.RelocKinds.{kind_of as spec_kind};
ghost use Rattle.lk_tables.specs.Files.{file_at};
ghost use Rattle.lk_tables.specs.Frames.{AreInOrder, lists_of};
ghost use Rattle.link_sections.specs.Views.{by_view, files_in};
ghost use Rattle.lk_tables.specs.Misfits.{value_defects};
ghost use Rattle.eh_frame.specs.Bytes as spec;
ghost use Rattle.eh_frame.specs.declared.placing.Placed.{Placed as PlacedOf};

use crate::lookups::{list_near, record_near};
use crate::placing::Placed;
use crate::sharing::{LEAST, run_of};
use crate::values::value_in;
use link_sections::View;
use lk_base::relocations::{Rule, kind_of};
use lk_base::{Defect, LinkStop};
use lk_tables::{Frames, Reloc, SectionPlace, misfit_defect};
use rv_code::fits;
use std::alloc::{AllocError, Global};
use std::ops::Range;
use std::thread::Threads;
use work_split::{Gate, over_shares, pieces_of_least};

/// The first defect of a relocation of some records, in order of file, section and offset, if `.eh_frame` stands at an address. The records
/// are shared among so many workers; only where there is a defect they are put into this order.
pub fn first_defect<R: Threads + Sync, G: Gate>(
    rt: &R,
    alloc: Global,
    view: &View,
    frames: &Frames,
    start: u64,
    placed: &[Placed],
    workers: u32,
    gate: &G,
) -> Result<Option<Defect>, AllocError>
    requires some { 1 ≤ workers }
    requires most { workers ≤ 64 }
    requires order { AreInOrder (lists_of frames.now) }
    requires known { All (λ (p : PlacedOf). spec.IsKnown (files_in view.now) (lists_of frames.now) p.number) placed.now }
    ensures { IfOk result (IsFirst (flat_map (by_view spec.placed_defects view.now (lists_of frames.now) start) (spec.placed_order placed.now))) }
{
    let fit = all_fit(rt, alloc, view, frames, start, placed, workers, gate)?;
    if fit {
        return Ok(None);
    }
    first_by_place(alloc, view, frames, start, placed)
}

/// Whether it is known that all values of some records fit. Each worker tests those of a run of them, and stops at the first that does not.
fn all_fit<R: Threads + Sync, G: Gate>(
    rt: &R,
    alloc: Global,
    view: &View,
    frames: &Frames,
    start: u64,
    placed: &[Placed],
    workers: u32,
    gate: &G,
) -> Result<bool, AllocError>
    requires some { 1 ≤ workers }
    requires most { workers ≤ 64 }
    requires order { AreInOrder (lists_of frames.now) }
    requires known { All (λ (p : PlacedOf). spec.IsKnown (files_in view.now) (lists_of frames.now) p.number) placed.now }
    ensures { IfOk result (λ fit. fit ≡ true → flat_map (by_view spec.placed_defects view.now (lists_of frames.now) start) placed.now ≡ []) }
{
    let pieces = pieces_of_least(alloc, placed.len(), LEAST, workers)?;
    let checked = over_shares(
        rt,
        alloc,
        gate,
        pieces.as_slice(),
        |piece: Range<usize>| -> Result<Vec<()>, LinkStop>
            requires ordered { piece.start ≤ piece.end }
            requires within { piece.end ≤ length placed.now }
            requires order { AreInOrder (lists_of frames.now) }
            requires known { All (λ (p : PlacedOf). spec.IsKnown (files_in view.now) (lists_of frames.now) p.number) placed.now }
            ensures { IfOk result (λ _. flat_map (by_view spec.placed_defects view.entry.now (lists_of frames.entry.now) start) (take (piece.end - piece.start) (drop piece.start placed.entry.now)) ≡ []) }
        { check_run(alloc, view, frames, start, placed, piece) },
    );
    match checked {
        Ok(_) => Ok(true),
        Err(stop) => match stop {
            LinkStop::Defect(_) => Ok(false),
            LinkStop::Memory => Err(AllocError),
        },
    }
}

/// Nothing, or the first defect of a run of records.
fn check_run(
    alloc: Global,
    view: &View,
    frames: &Frames,
    start: u64,
    placed: &[Placed],
    piece: Range<usize>,
) -> Result<Vec<()>, LinkStop>
    requires ordered { piece.start ≤ piece.end }
    requires within { piece.end ≤ length placed.now }
    requires order { AreInOrder (lists_of frames.now) }
    requires known { All (λ (p : PlacedOf). spec.IsKnown (files_in view.now) (lists_of frames.now) p.number) placed.now }
    ensures { IfOk result (λ _. flat_map (by_view spec.placed_defects view.now (lists_of frames.now) start) (take (piece.end - piece.start) (drop piece.start placed.now)) ≡ []) }
{
    let own = run_of(placed, piece.start, piece.end);
    if let Some(defect) = first_in(view, frames, start, own) {
        return Err(LinkStop::Defect(defect));
    }
    Ok(Vec::new(alloc))
}

/// The first defect of a relocation of some records, which are put in order of file, section and offset.
fn first_by_place(
    alloc: Global,
    view: &View,
    frames: &Frames,
    start: u64,
    placed: &[Placed],
) -> Result<Option<Defect>, AllocError>
    requires order { AreInOrder (lists_of frames.now) }
    requires known { All (λ (p : PlacedOf). spec.IsKnown (files_in view.now) (lists_of frames.now) p.number) placed.now }
    ensures { IfOk result (IsFirst (flat_map (by_view spec.placed_defects view.now (lists_of frames.now) start) (spec.placed_order placed.now))) }
{
    let mut ordered = placed.to_vec(alloc)?;
    ordered.sort_by_key(|unwind_record| order_of(unwind_record))?;
    Ok(first_in(view, frames, start, ordered.as_slice()))
}

/// The place of a record by section and number.
fn order_of(placed: &Placed) -> u64
    ensures { result ≡ spec.order_of placed.now }
{
    placed.number.section as u64 * 0x1_0000_0000 + placed.number.at as u64
}

/// The first defect of a relocation of some records, in the order in which they are given.
fn first_in(view: &View, frames: &Frames, start: u64, placed: &[Placed]) -> Option<Defect>
    requires order { AreInOrder (lists_of frames.now) }
    requires known { All (λ (p : PlacedOf). spec.IsKnown (files_in view.now) (lists_of frames.now) p.number) placed.now }
    ensures { IsFirst (flat_map (by_view spec.placed_defects view.now (lists_of frames.now) start) placed.now) result }
{
    let mut list = 0;
    for record in placed {
        list = list_near(frames, record.number.section, list);
        if let Some(defect) = defect_of(view, frames, start, record, list) {
            return Some(defect);
        }
    }
    None
}

/// The first defect of a relocation of one record.
#[tactic(auto, unfolding(crate::specs::Bytes::placed_defects))]
fn defect_of(
    view: &View,
    frames: &Frames,
    start: u64,
    placed: &Placed,
    list: usize,
) -> Option<Defect>
    requires order { AreInOrder (lists_of frames.now) }
    requires known { spec.IsKnown (files_in view.now) (lists_of frames.now) placed.now.number }
    ensures { IsFirst (by_view spec.placed_defects view.now (lists_of frames.now) start placed.now) result }
{
    let own = record_near(frames, placed.number, list);
    check_relocs(
        view,
        view.tables.place_of(placed.number.section),
        own.from,
        start as u128 + placed.at as u128,
        own.relocs.as_slice(),
    )
}

/// The first defect of some relocations of a record, which starts at an offset of its section, and stands at an address.
fn check_relocs(
    view: &View,
    place: SectionPlace,
    from: u64,
    address: u128,
    relocs: &[Reloc],
) -> Option<Defect>
    requires file { place.file < length (files_in view.now) }
    requires live { (file_at (files_in view.now) place.file).live ≡ true }
    requires after { All (λ r. from ≤ r.offset) relocs.now }
    requires low { address ≤ 2 ^ 65 }
    ensures { IsFirst (flat_map (by_view spec.reloc_defects view.now place from address) relocs.now) result }
{
    for reloc in relocs {
        if let Some(defect) = check_reloc(view, place, from, address, reloc) {
            return Some(defect);
        }
    }
    None
}

/// The defect of one relocation, if its value does not fit. Of the kinds that records have, two alone do not take every value.
fn check_reloc(
    view: &View,
    place: SectionPlace,
    from: u64,
    address: u128,
    reloc: &Reloc,
) -> Option<Defect>
    requires file { place.file < length (files_in view.now) }
    requires live { (file_at (files_in view.now) place.file).live ≡ true }
    requires after { from ≤ reloc.now.offset }
    requires low { address ≤ 2 ^ 65 }
    ensures { IsFirst (by_view spec.reloc_defects view.now place from address reloc.now) result }
{
    if takes_all(reloc.kind) {
        return None;
    }
    check_value(view, place, address + (reloc.offset - from) as u128, reloc)
}

/// Whether the field of a kind takes every value.
fn takes_all(kind: u32) -> bool
    ensures { result ≡ true → (spec_kind kind).reach ≡ any }
{
    matches!(kind_of(kind).rule, Rule::Any)
}

/// The defect of a relocation whose place stands at an address, if its value does not fit.
fn check_value(view: &View, place: SectionPlace, address: u128, reloc: &Reloc) -> Option<Defect>
    requires file { place.file < length (files_in view.now) }
    requires live { (file_at (files_in view.now) place.file).live ≡ true }
    requires low { address ≤ 2 ^ 66 }
    ensures { IsFirst (value_defects place reloc.now (spec_kind reloc.now.kind).reach (by_view spec.value_in view.now place.file reloc.now (pos address) (pos 0))) result }
{
    let Some(v) = value_in(view, place.file, reloc, address as i128, 0) else {
        return None;
    };
    if let Err(misfit) = fits(reloc.kind, v) {
        return Some(misfit_defect(place, reloc, v, misfit));
    }
    None
}
