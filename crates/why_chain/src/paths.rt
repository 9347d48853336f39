//! What leads to a place of a queue.

ghost use Rattle.std.specs.Prelude.{◌≡◌, ℕ, ◌<◌, List, length, slice_index, IfOk};
ghost use Rattle.why_chain.specs.Meetings.{places_of, vias_of};
ghost use Rattle.why_chain.specs.Visits.{AreWords};

use crate::pairs::Met;
use lk_base::SecNo;
use std::alloc::{AllocError, Global};

/// The sections from the first that was met after the start to that of a place.
pub fn walk_to(
    alloc: Global,
    sections: &[SecNo],
    froms: &[usize],
    place: usize,
) -> Result<Vec<SecNo>, AllocError>
    requires place { place < length froms.now }
    requires wide { length sections.now ≡ length froms.now }
    requires earlier { (i : ℕ) → 0 < i → i < length froms.now → slice_index froms.now i < i }
    ensures { IfOk result (λ walk. (word : ℕ → List ℕ) → AreWords sections.now froms.now word → walk.items ≡ word place) }
{
    let mut walk = Vec::new(alloc);
    let mut at = place;
    while at != 0 {
        walk.push(sections[at])?;
        at = froms[at];
    }
    walk.reverse();
    Ok(walk)
}

/// The relocations through which the pairs were met, from the first pair to that of a place.
pub fn vias_to(alloc: Global, queue: &[Met], place: usize) -> Result<Vec<u64>, AllocError>
    requires place { place < length queue.now }
    requires earlier { (i : ℕ) → 0 < i → i < length queue.now → slice_index (places_of queue.now) i < i }
    ensures { IfOk result (λ vias. (word : ℕ → List ℕ) → AreWords (vias_of queue.now) (places_of queue.now) word → vias.items ≡ word place) }
{
    let mut vias = Vec::new(alloc);
    let mut at = place;
    while at != 0 {
        vias.push(queue[at].via)?;
        at = queue[at].place;
    }
    vias.reverse();
    Ok(vias)
}
