//! The search of one worker: the marks, and the queue of the sections that are marked.

ghost use Rattle.std.specs.Prelude.{◌≡◌, ℕ, ◌+◌, ◌<◌, ◌≤◌, true, All, List, length, slice_index, IfOk, OnOk};
ghost use Rattle.link_sections.specs.Edges.{ends_of};
ghost use Rattle.lk_tables.specs.Reach.{ends_at};
ghost use Rattle.sec_gc.specs.Visits.{all_visited, Searched, progress, visited};

use link_sections::Edges;
use lk_base::SecNo;
use std::alloc::{AllocError, Global};

/// What a search has found so far.
#[derive(Drop)]
pub struct Search {
    /// By section number, whether a section is marked.
    pub seen: Vec<bool>,
    /// The sections that are marked, in the order in which they were.
    pub queue: Vec<SecNo>,
    /// The place in the queue of the first that is still to be followed.
    pub next: usize,
}

/// If there are no more workers, the calling one goes on alone: to follow a section by the shared marks takes two to four times as long.
const FEW_WORKERS: u32 = 2;

/// If no more sections wait to be followed, the calling worker goes on alone.
const FEW: usize = 8192;

/// It looks again whether it goes on alone after so many sections at most.
const STEP: usize = 1024;

/// So many of the sections that wait are looked at.
const SAMPLE: usize = 64;

/// The calling worker goes on alone if they lead to fewer sections each.
const MANY_ENDS: usize = 16;

/// Marks the roots, and then follows each marked section once, until none waits to be followed or, if there are workers to share them,
/// many wait that lead to many. The only error is out of memory.
pub fn search_from(
    alloc: Global,
    roots: &[SecNo],
    edges: &Edges,
    workers: u32,
) -> Result<Search, AllocError>
    requires roots { All (λ r. r < length (ends_of edges.now)) roots.now }
    ensures { IfOk result (λ s. Searched roots.now (ends_of edges.now) s.next (progress s.seen.items s.queue.items)) }
{
    let mut search = first_search(alloc, roots, edges)?;
    'turns: while has_more(&search, edges, workers) {
        let end = end_of_turn(&search);
        follow_to(&mut search, end, edges)?;
    }
    Ok(search)
}

/// The roots, of which none was followed.
fn first_search(alloc: Global, roots: &[SecNo], edges: &Edges) -> Result<Search, AllocError>
    requires roots { All (λ r. r < length (ends_of edges.now)) roots.now }
    ensures { IfOk result (λ s. Searched roots.now (ends_of edges.now) s.next (progress s.seen.items s.queue.items)) }
{
    let mut seen = vec![in alloc; false; edges.count()]?;
    let mut queue = Vec::with_capacity(alloc, edges.count())?;
    visit_all(&mut seen, &mut queue, roots)?;
    Ok(Search {
        seen,
        queue,
        next: 0,
    })
}

/// Whether sections wait to be followed that the calling worker goes on with alone.
fn has_more(search: &Search, edges: &Edges, workers: u32) -> bool
    ensures { result ≡ true → search.now.next < length search.now.queue.items }
{
    if search.queue.len() <= search.next {
        return false;
    }
    workers <= FEW_WORKERS || !is_shared(search, edges)
}

/// Whether more sections wait than a few, and the first of them lead to many each.
fn is_shared(search: &Search, edges: &Edges) -> bool {
    let waiting = search.queue.len().saturating_sub(search.next);
    if waiting <= FEW {
        return false;
    }
    let mut ends: usize = 0;
    for k in 0..SAMPLE {
        if let Some(section) = search.queue.get(search.next.wrapping_add(k)) {
            ends = ends.wrapping_add(edges.ends(*section).len());
        }
    }
    MANY_ENDS * SAMPLE <= ends
}

/// Where a turn ends: at the end of the queue, or after `STEP` sections.
fn end_of_turn(search: &Search) -> usize
    requires { search.now.next < length search.now.queue.items }
    ensures some { search.now.next < result }
    ensures within { result ≤ length search.now.queue.items }
{
    search.queue.len().min(search.next.saturating_add(STEP))
}

/// Follows the sections that wait before a place of the queue.
fn follow_to(search: &mut Search, end: usize, edges: &Edges) -> Result<(), AllocError>
    requires end { end ≤ length search.old.queue.items }
    requires wide { length search.old.seen.items ≡ length (ends_of edges.now) }
    ensures next { OnOk result (end ≤ search.new.next) }
    ensures found { OnOk result ((roots : List ℕ) → Searched roots (ends_of edges.now) search.old.next (progress search.old.seen.items search.old.queue.items) → Searched roots (ends_of edges.now) search.new.next (progress search.new.seen.items search.new.queue.items)) }
{
    'steps: while search.next < end {
        follow_next(search, edges)?;
    }
    Ok(())
}

/// Follows the first section that waits: what it leads to is marked, and put into the queue if it was not marked.
fn follow_next(search: &mut Search, edges: &Edges) -> Result<(), AllocError>
    requires waits { search.old.next < length search.old.queue.items }
    requires wide { length search.old.seen.items ≡ length (ends_of edges.now) }
    ensures next { OnOk result (search.new.next ≡ search.old.next + 1) }
    ensures found { OnOk result (progress search.new.seen.items search.new.queue.items ≡ all_visited (progress search.old.seen.items search.old.queue.items) (ends_at (ends_of edges.now) (slice_index search.old.queue.items search.old.next))) }
{
    let from = search.queue[search.next];
    visit_all(&mut search.seen, &mut search.queue, edges.ends(from))?;
    search.next += 1;
    Ok(())
}

/// Marks sections, in order, and puts each into the queue that was not marked.
fn visit_all(
    seen: &mut Vec<bool>,
    queue: &mut Vec<SecNo>,
    sections: &[SecNo],
) -> Result<(), AllocError>
    requires { All (λ s. s < length seen.old.items) sections.now }
    ensures { OnOk result (progress seen.new.items queue.new.items ≡ all_visited (progress seen.old.items queue.old.items) sections.now) }
{
    for i in 0..sections.len() {
        visit(seen, queue, sections[i])?;
    }
    Ok(())
}

/// Marks a section, and puts it into the queue if it was not marked.
fn visit(seen: &mut Vec<bool>, queue: &mut Vec<SecNo>, section: SecNo) -> Result<(), AllocError>
    requires { section < length seen.old.items }
    ensures { OnOk result (progress seen.new.items queue.new.items ≡ visited (progress seen.old.items queue.old.items) section) }
{
    let at = section as usize;
    if seen[at] {
        return Ok(());
    }
    seen[at] = true;
    queue.push(section)?;
    Ok(())
}
