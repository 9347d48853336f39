//! Turn after turn, until no class waits.

ghost use Rattle.std.specs.Prelude.{◌≡◌, ℕ, ◌+◌, ◌%◌, ◌<◌, ◌^◌, [], length, slice_index_or, Contains, IfOk};
ghost use Rattle.icf_part.specs.Classes.{AreKept, class_count, lists_of};
ghost use Rattle.icf_part.specs.Counts.{leader_count};
ghost use Rattle.icf_part.specs.Edges.{IsDone};
ghost use Rattle.icf_part.specs.Numbered.{AreEnds, AreFirsts, IsRefined};

use crate::classes::{Classes, first_classes};
use crate::incoming::edges_into;
use crate::seeds::first_waiting;
use crate::steps::Steps;
use crate::turns::turn;
use crate::walks::first_items;
use flat_rows::Rows;
use std::alloc::{AllocError, Global};
use std::sync::ledger::Ledger;

/// The classes of which each leads to one class in each place, from classes by their first items on.
pub fn refine<L: Ledger>(
    alloc: Global,
    ends: &Rows<u32>,
    start: Vec<u32>,
    steps: &mut Steps<L>,
) -> Result<Vec<u32>, AllocError>
    requires few { length ends.now < 2 ^ 31 }
    requires firsts { AreFirsts (length ends.now) start.items }
    requires ends { AreEnds ends.now start.items }
    ensures refined { IfOk result (λ last. IsRefined ends.now start.items last.items) }
    ensures steps { IfOk result (λ last. steps.new + leader_count start.items ≡ steps.old + leader_count last.items) }
{
    let waiting = first_waiting(alloc, ends, start.as_slice())?;
    if waiting.queue.len() == 0 {
        return Ok(start);
    }
    let into = edges_into(alloc, ends)?;
    let classes = first_classes(alloc, start, waiting)?;
    let last = all_turns(alloc, into.as_slice(), classes, steps)?;
    let leaders = first_items(alloc, last.labels.as_slice(), last.sizes.len())?;
    Ok(leaders)
}

/// The classes after all turns.
fn all_turns<L: Ledger>(
    alloc: Global,
    into: &[Vec<u64>],
    start: Classes,
    steps: &mut Steps<L>,
) -> Result<Classes, AllocError>
    requires few { length start.labels.items < 2 ^ 31 }
    requires kept { AreKept (length start.labels.items) start }
    requires count { length into.now ≡ length start.labels.items }
    requires items { (t w : ℕ) → Contains (slice_index_or (lists_of into.now) t []) w → w % 2 ^ 32 < length start.labels.items }
    ensures kept { IfOk result (λ last. AreKept (length start.labels.items) last) }
    ensures done { IfOk result (λ last. IsDone (lists_of into.now) start last) }
    ensures steps { IfOk result (λ last. steps.new + class_count start.labels.items ≡ steps.old + class_count last.labels.items) }
{
    let mut classes = start;
    'turns: while let Some(label) = classes.queue.pop() {
        classes.waits[label as usize] = false;
        turn(alloc, &mut classes, into, label, steps)?;
    }
    Ok(classes)
}
