//! The leaders of all items.

ghost use Rattle.std.specs.Prelude.{◌≡◌, ℕ, ◌+◌, ◌-◌, ◌<◌, ◌≤◌, ◌^◌, All, length, map, slice_index, IfOk};
ghost use Rattle.std.specs.List.Sorted.{IsStrictlyIncreasing};
ghost use Rattle.link_sections.specs.FoldItems.{item_views, sections_of};
ghost use Rattle.name_numbers.specs.Texts.{text_numbers};
ghost use Rattle.work_split.specs.Pieces.{Tiles};
ghost use Rattle.icf_part.specs.Chosen.{AreContents, AreShared, views_at};
ghost use Rattle.icf_part.specs.Counts.{key_count, leader_count};
ghost use Rattle.icf_part.specs.Folding.{AreLeaders, HoldsAll, IsCongruence, classes};
ghost use Rattle.icf_part.specs.Leaders.{leaders_of};
ghost use Rattle.icf_part.specs.Numbered.{IsNumbering, key};
ghost use Rattle.icf_part.specs.Signatures.{bytes_of};

use crate::keys::all_keys;
use crate::numbering::{number_contents, number_outputs, number_rows};
use crate::place_table::Places;
use crate::places::{all_places, sections_of};
use crate::refining::refine;
use crate::rests::all_rests;
use crate::sharing::{chosen_numbers, shared_items, spread_leaders};
use crate::steps::Steps;
use crate::walks::count_leaders;
use link_sections::FoldItem;
use std::alloc::{AllocError, Global};
use std::ops::Range;
use std::sync::ledger::Ledger;
use std::thread::Threads;
use work_split::{Gate, pieces_of_least};

/// Fewer items are not worth a thread.
const LEAST: usize = 4_096;

/// For each item the place of its leader: the least item that can stand for it. Items are given in order of their sections' numbers. The
/// answer is the same whatever the number of workers; each makes what is compared of one piece of the items whose contents another has, and
/// places its piece of contents and of rows, if there are many, in the tables that number them. There are fewer than 2^31 items, as there are sections
/// in a link. The only error is out of memory.
pub fn fold<R: Threads + Sync, G: Gate, L: Ledger>(
    rt: &R,
    alloc: Global,
    items: &[FoldItem],
    workers: u32,
    gate: &G,
    steps: &mut Steps<L>,
) -> Result<Vec<u32>, AllocError>
    requires some { 1 ≤ workers }
    requires most { workers ≤ 64 }
    requires order { IsStrictlyIncreasing (sections_of (item_views items.now)) }
    requires few { length items.now < 2 ^ 31 }
    ensures value { IfOk result (λ l. l.items ≡ leaders_of (item_views items.now)) }
    ensures leaders { IfOk result (λ l. AreLeaders (item_views items.now) l.items) }
    ensures congruence { IfOk result (λ l. IsCongruence (item_views items.now) (classes l.items)) }
    ensures greatest { IfOk result (λ l. HoldsAll (item_views items.now) l.items) }
    ensures places { IfOk result (λ l. All (λ p. p < length items.now) l.items) }
    ensures own { IfOk result (λ l. (a : ℕ) → slice_index l.items (slice_index l.items a) ≡ slice_index l.items a) }
    ensures least { IfOk result (λ l. (a : ℕ) → slice_index l.items a ≤ a) }
    ensures steps { IfOk result (λ l. steps.new + key_count (item_views items.now) ≡ steps.old + leader_count l.items) }
    ensures bound { IfOk result (λ l. steps.new ≤ steps.old + (length items.now - 1)) }
{
    let bytes = number_contents(rt, alloc, items, workers, gate)?;
    let chosen = shared_items(alloc, bytes.as_slice())?;
    fold_shared(
        rt,
        alloc,
        items,
        bytes.as_slice(),
        chosen.as_slice(),
        workers,
        gate,
        steps,
    )
}

/// For each item the place of its leader, where the numbers of all contents are known, and the items whose contents another has: these are folded
/// among themselves.
fn fold_shared<R: Threads + Sync, G: Gate, L: Ledger>(
    rt: &R,
    alloc: Global,
    items: &[FoldItem],
    bytes: &[u32],
    chosen: &[u32],
    workers: u32,
    gate: &G,
    steps: &mut Steps<L>,
) -> Result<Vec<u32>, AllocError>
    requires some { 1 ≤ workers }
    requires most { workers ≤ 64 }
    requires order { IsStrictlyIncreasing (sections_of (item_views items.now)) }
    requires few { length items.now < 2 ^ 31 }
    requires bytes { bytes.now ≡ text_numbers (map bytes_of (item_views items.now)) }
    requires chosen { AreShared bytes.now chosen.now }
    ensures value { IfOk result (λ l. l.items ≡ leaders_of (item_views items.now)) }
    ensures leaders { IfOk result (λ l. AreLeaders (item_views items.now) l.items) }
    ensures congruence { IfOk result (λ l. IsCongruence (item_views items.now) (classes l.items)) }
    ensures greatest { IfOk result (λ l. HoldsAll (item_views items.now) l.items) }
    ensures places { IfOk result (λ l. All (λ p. p < length items.now) l.items) }
    ensures own { IfOk result (λ l. (a : ℕ) → slice_index l.items (slice_index l.items a) ≡ slice_index l.items a) }
    ensures least { IfOk result (λ l. (a : ℕ) → slice_index l.items a ≤ a) }
    ensures steps { IfOk result (λ l. steps.new + key_count (item_views items.now) ≡ steps.old + leader_count l.items) }
    ensures bound { IfOk result (λ l. steps.new ≤ steps.old + (length items.now - 1)) }
{
    let numbers = chosen_numbers(alloc, bytes, chosen)?;
    let leaders = fold_chosen(
        rt,
        alloc,
        items,
        chosen,
        numbers.as_slice(),
        workers,
        gate,
        steps,
    )?;
    let list = spread_leaders(alloc, items.len(), chosen, leaders.as_slice())?;
    Ok(list)
}

/// The leaders of some items among these, by their places there; `bytes` are the numbers of their contents.
fn fold_chosen<R: Threads + Sync, G: Gate, L: Ledger>(
    rt: &R,
    alloc: Global,
    items: &[FoldItem],
    chosen: &[u32],
    bytes: &[u32],
    workers: u32,
    gate: &G,
    steps: &mut Steps<L>,
) -> Result<Vec<u32>, AllocError>
    requires some { 1 ≤ workers }
    requires most { workers ≤ 64 }
    requires chosen { All (λ a. a < length items.now) chosen.now }
    requires order { IsStrictlyIncreasing (sections_of (views_at items.now chosen.now)) }
    requires few { length chosen.now < 2 ^ 31 }
    requires bytes { AreContents (views_at items.now chosen.now) bytes.now }
    ensures leaders { IfOk result (λ l. AreLeaders (views_at items.now chosen.now) l.items) }
    ensures congruence { IfOk result (λ l. IsCongruence (views_at items.now chosen.now) (classes l.items)) }
    ensures greatest { IfOk result (λ l. HoldsAll (views_at items.now chosen.now) l.items) }
    ensures places { IfOk result (λ l. All (λ k. k < length chosen.now) l.items) }
    ensures own { IfOk result (λ l. (a : ℕ) → slice_index l.items (slice_index l.items a) ≡ slice_index l.items a) }
    ensures least { IfOk result (λ l. (a : ℕ) → slice_index l.items a ≤ a) }
    ensures steps { IfOk result (λ l. steps.new + key_count (views_at items.now chosen.now) ≡ steps.old + leader_count l.items) }
    ensures bound { IfOk result (λ l. steps.new ≤ steps.old + (length chosen.now - 1)) }
{
    let list = sections_of(alloc, items, chosen)?;
    let sections = Places::of(alloc, list)?;
    let pieces = pieces_of_least(alloc, chosen.len(), LEAST, workers)?;
    let ends = all_places(rt, alloc, items, chosen, &sections, pieces.as_slice(), gate)?;
    let keys = number_keys(
        rt,
        alloc,
        items,
        chosen,
        bytes,
        pieces.as_slice(),
        workers,
        gate,
    )?;
    let parts = all_rests(
        rt,
        alloc,
        items,
        chosen,
        &sections,
        keys.as_slice(),
        &ends,
        pieces.as_slice(),
        gate,
    )?;
    let start = number_rows(rt, alloc, parts.as_slice(), workers, gate)?;
    let first = count_leaders(keys.as_slice());
    let next = count_leaders(start.as_slice());
    steps.add(next - first);
    let leaders = refine(alloc, &ends, start, steps)?;
    Ok(leaders)
}

/// The numbers of the keys of some items.
fn number_keys<R: Threads + Sync, G: Gate>(
    rt: &R,
    alloc: Global,
    items: &[FoldItem],
    chosen: &[u32],
    bytes: &[u32],
    pieces: &[Range<usize>],
    workers: u32,
    gate: &G,
) -> Result<Vec<u32>, AllocError>
    requires few { length chosen.now < 2 ^ 31 }
    requires chosen { All (λ a. a < length items.now) chosen.now }
    requires bytes { AreContents (views_at items.now chosen.now) bytes.now }
    requires tiles { Tiles 0 (length chosen.now) pieces.now }
    requires most { length pieces.now ≤ 64 }
    ensures { IfOk result (λ keys. IsNumbering (key (views_at items.now chosen.now)) (length chosen.now) keys.items) }
{
    let outputs = number_outputs(rt, alloc, items, chosen)?;
    let parts = all_keys(
        rt,
        alloc,
        items,
        chosen,
        bytes,
        outputs.as_slice(),
        pieces,
        gate,
    )?;
    let keys = number_rows(rt, alloc, parts.as_slice(), workers, gate)?;
    Ok(keys)
}
