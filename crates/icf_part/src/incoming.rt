//! The relocations that lead to each item.

ghost use Rattle.std.specs.Prelude.{◌≡◌, ℕ, ◌<◌, ◌^◌, [], length, replicate, slice_index, slice_index_or, IfOk, OnOk};
ghost use Rattle.icf_part.specs.Classes.{AreAdded, lists_of};
ghost use Rattle.icf_part.specs.Edges.{AreInto, end_at};

use flat_rows::Rows;
use std::alloc::{AllocError, Global};

/// More places than an item can have relocations.
const PLACE_END: usize = 1 << 32;

/// By item, which items lead to it and in which place of their relocations: the place times 2^32, and the item.
pub fn edges_into(alloc: Global, ends: &Rows<u32>) -> Result<Vec<Vec<u64>>, AllocError>
    requires few { length ends.now < 2 ^ 31 }
    requires within { (a k : ℕ) → k < length (slice_index_or ends.now a []) → end_at ends.now a k < length ends.now }
    ensures { IfOk result (λ into. AreInto ends.now (lists_of into.items)) }
{
    let mut into = no_edges(alloc, ends.count())?;
    for a in 0..ends.count() {
        push_edges(&mut into, ends.row(a), a as u64)?;
    }
    Ok(into)
}

/// So many empty lists.
fn no_edges(alloc: Global, count: usize) -> Result<Vec<Vec<u64>>, AllocError>
    ensures { IfOk result (λ lists. lists_of lists.items ≡ replicate count []) }
{
    let mut lists = Vec::with_capacity(alloc, count)?;
    for made in 0..count {
        lists.push(Vec::new(alloc))?;
    }
    Ok(lists)
}

/// Adds where one item leads.
fn push_edges(into: &mut Vec<Vec<u64>>, row: &[u32], a: u64) -> Result<(), AllocError>
    requires few { a < 2 ^ 31 }
    requires within { (k : ℕ) → k < length row.now → slice_index row.now k < length into.old.items }
    ensures { OnOk result (AreAdded row.now (length row.now) a (lists_of into.old.items) (lists_of into.new.items)) }
{
    if row.len() > PLACE_END {
        return Err(AllocError);
    }
    for k in 0..row.len() {
        into[row[k] as usize].push(k as u64 * 0x1_0000_0000 + a)?;
    }
    Ok(())
}
