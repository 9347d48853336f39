//! What is met along the edges of one section.

ghost use Rattle.std.specs.Prelude.{◌≡◌, ◌<◌, ◌≤◌, ◌++◌, ◌∷◌, [], All, length, replicate, IfOk, OnOk};
ghost use Rattle.link_sections.specs.Edges.{ends_of};
ghost use Rattle.lk_tables.specs.Reach.{ends_at};
ghost use Rattle.why_chain.specs.Visits.{HasVisited, all_gathered, gathered, one_gathered, with_start};

use link_sections::Edges;
use lk_base::SecNo;
use std::alloc::AllocError;

/// Where a section leads; the number past the last is that of the start, which leads to the roots.
#[tactic(auto, unfolding(crate::specs::Visits::with_start))]
pub fn ends_from<'a>(roots: &'a [SecNo], edges: &'a Edges, from: SecNo) -> &'a [SecNo]
    requires { from ≤ length (ends_of edges.now) }
    ensures { result.now ≡ ends_at (with_start roots.now (ends_of edges.now)) from }
{
    if from as usize == edges.count() {
        return roots;
    }
    edges.ends(from)
}

/// Marks the ends of a place of the queue that have no mark, and puts them at the queue's end, in order of their numbers. `row` is room for
/// them, whatever stands there.
pub fn visit_ends(
    ends: &[SecNo],
    place: usize,
    seen: &mut Vec<bool>,
    sections: &mut Vec<SecNo>,
    froms: &mut Vec<usize>,
    row: &mut Vec<SecNo>,
) -> Result<(), AllocError>
    requires { All (λ end. end < length seen.old.items) ends.now }
    ensures { OnOk result (HasVisited ends.now place seen.old.items seen.new.items sections.old.items sections.new.items froms.old.items froms.new.items) }
{
    row.clear();
    gather_ends(ends, seen, row)?;
    row.sort_unstable();
    push_row(row.as_slice(), place, sections, froms)?;
    Ok(())
}

/// Marks the ends that have no mark, and lists them.
fn gather_ends(ends: &[SecNo], seen: &mut Vec<bool>, row: &mut Vec<SecNo>) -> Result<(), AllocError>
    requires { All (λ end. end < length seen.old.items) ends.now }
    ensures { OnOk result (gathered seen.new.items row.new.items ≡ all_gathered (gathered seen.old.items row.old.items) ends.now) }
{
    for i in 0..ends.len() {
        gather_end(ends[i], seen, row)?;
    }
    Ok(())
}

/// Marks an end and lists it, if it has no mark.
fn gather_end(end: SecNo, seen: &mut Vec<bool>, row: &mut Vec<SecNo>) -> Result<(), AllocError>
    requires { end < length seen.old.items }
    ensures { OnOk result (gathered seen.new.items row.new.items ≡ one_gathered (gathered seen.old.items row.old.items) end) }
{
    let at = end as usize;
    if seen[at] {
        return Ok(());
    }
    seen[at] = true;
    row.push(end)?;
    Ok(())
}

/// Puts sections at the end of the queue, met from one place.
fn push_row(
    row: &[SecNo],
    place: usize,
    sections: &mut Vec<SecNo>,
    froms: &mut Vec<usize>,
) -> Result<(), AllocError>
    ensures sections { OnOk result (sections.new.items ≡ sections.old.items ++ row.now) }
    ensures froms { OnOk result (froms.new.items ≡ froms.old.items ++ replicate (length row.now) place) }
{
    sections.extend_from_slice(row)?;
    froms.resize(froms.len() + row.len(), place)?;
    Ok(())
}
