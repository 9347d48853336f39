//! The pieces of sections, by their numbers in their pool.

ghost use Rattle.std.specs.Prelude.{◌≡◌, ◌-◌, ◌<◌, ◌≤◌, ◌^◌, All, length, take, drop, IfOk};
ghost use Rattle.str_merge.specs.Orders.{IsFirstOf, ranks};
ghost use Rattle.str_merge.specs.Parts.{lists_at, part_lists, parts_by};
ghost use Rattle.str_merge.specs.Sites.{cut_views, gathered, piece_lists, pieces_of, texts_of};
ghost use Rattle.str_merge.specs.Small.{IsNear};

use crate::cuts::Cut;
use crate::gathering::{cut_at, text_in};
use crate::orders::ranks_of;
use crate::placing::end_of;
use flat_rows::Rows;
use link_sections::Part;
use std::alloc::{AllocError, Global};

/// The parts of each of some sections, if for each of their pieces the index of the first equal one is known. The list of parts is the largest, so memory for
/// it is looked for first: that of a table of texts that is gone serves it, with its pages.
pub fn part_rows(
    alloc: Global,
    cuts: &[Cut],
    members: &[u32],
    numbers: &[u32],
) -> Result<Rows<Part>, AllocError>
    requires members { All (λ m. m < length cuts.now) members.now }
    requires near { All IsNear cuts.now }
    requires few { length numbers.now < 2 ^ 31 }
    requires wide { length numbers.now ≡ length (gathered (piece_lists cuts.now) members.now) }
    ensures { IfOk result (λ rows. IsFirstOf numbers.now → rows ≡ part_lists (lists_at (cut_views cuts.now) members.now) (ranks numbers.now)) }
{
    let largest: Vec<Part> = Vec::with_capacity(alloc, numbers.len())?;
    let ranks = ranks_of(alloc, numbers)?;
    drop(largest);
    let ranks = ranks.as_slice();
    let mut rows = Rows::empty(alloc)?;
    rows.reserve(room_for(members.len(), ranks.len()))?;
    let mut at = 0;
    for n in 0..members.len() {
        let cut = cut_at(cuts, members, n);
        let end = at + cut.ends.len();
        let parts = parts_of(alloc, cut, part(ranks, at, end))?;
        rows.push_vec(parts)?;
        at = end;
    }
    Ok(rows)
}

/// How many parts want room before they are listed: those of one section alone are not copied.
fn room_for(sections: usize, parts: usize) -> usize {
    if sections < 2 { 0 } else { parts }
}

/// The items from one on and before another.
fn part<T>(items: &[T], from: usize, to: usize) -> &[T]
    requires order { from ≤ to }
    requires within { to ≤ length items.now }
    ensures { result.now ≡ take (to - from) (drop from items.now) }
{
    &items[from..to]
}

/// The parts of a section whose pieces have these numbers.
fn parts_of(alloc: Global, cut: &Cut, numbers: &[u32]) -> Result<Vec<Part>, AllocError>
    requires wide { length numbers.now ≡ length cut.now.ends.items }
    requires few { length numbers.now < 2 ^ 31 }
    requires near { IsNear cut.now }
    ensures { IfOk result (λ parts. parts.items ≡ parts_by 0 (texts_of (pieces_of cut.now)) numbers.now) }
{
    let mut parts = Vec::with_capacity(alloc, numbers.len())?;
    let mut start = 0;
    for i in 0..numbers.len() {
        parts.push(Part {
            start,
            piece: numbers[i],
        })?;
        start = end_of(start, text_in(cut, i).len() as u64);
    }
    Ok(parts)
}
