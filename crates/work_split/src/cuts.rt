//! Where work is cut into pieces.

ghost use Rattle.std.specs.Prelude.{◌≡◌, ◌<◌, ◌≤◌, ◌/◌, All, min, length, IfOk};
ghost use Rattle.work_split.specs.Pieces.{HasSize, Tiles};

use std::alloc::{AllocError, Global};
use std::ops::Range;

/// Cuts the places below `len` into pieces, one for each worker, or for each place if there are fewer places than
/// workers. They are in order, and none is empty. The only error is out of memory.
pub fn pieces(alloc: Global, len: usize, workers: u32) -> Result<Vec<Range<usize>>, AllocError>
    requires some { 1 ≤ workers }
    requires most { workers ≤ 64 }
    ensures count { IfOk result (λ pieces. length pieces.items ≡ min len workers) }
    ensures tiles { IfOk result (λ pieces. Tiles 0 len pieces.items) }
    ensures even { IfOk result (λ pieces. All (HasSize (len / min len workers)) pieces.items) }
{
    let count = len.min(workers as usize);
    let mut pieces = Vec::with_capacity(alloc, count)?;
    let mut start = 0;
    for done in 0..count {
        let end = start + (len - start) / (count - done);
        pieces.push(start..end)?;
        start = end;
    }
    Ok(pieces)
}

/// So many places cut into pieces of about the same length: one for each worker, or fewer where pieces would be shorter than `least`. The
/// only error is out of memory.
pub fn pieces_of_least(
    alloc: Global,
    len: usize,
    least: usize,
    workers: u32,
) -> Result<Vec<Range<usize>>, AllocError>
    requires least { 0 < least }
    requires some { 1 ≤ workers }
    requires most { workers ≤ 64 }
    ensures tiles { IfOk result (λ pieces. Tiles 0 len pieces.items) }
    ensures most { IfOk result (λ pieces. length pieces.items ≤ 64) }
{
    let wanted = (len / least).min(workers as usize).max(1);
    pieces(alloc, len, wanted as u32)
}
