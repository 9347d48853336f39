//! The sections that are kept.

ghost use Rattle.std.specs.Prelude.{◌≡◌, ◌<◌, ◌≤◌, All, length, IfOk};
ghost use Rattle.lk_tables.specs.Reach.{IsReach};
ghost use Rattle.link_sections.specs.Edges.{ends_of};
ghost use Rattle.sec_gc.specs.Kept.{reached};

use crate::alone::search_from;
use crate::closing::close_rounds;
use crate::following::mark_roots;
use crate::marks::Marks;
use crate::stealing::follow_by_all;
use link_sections::Edges;
use lk_base::SecNo;
use std::alloc::{AllocError, Global};
use std::thread::Threads;
use work_split::Gate;

/// By section number, whether a section is kept: the roots are, each section to which a kept one leads, and no others. It answers the
/// same whatever the number of workers. No thread is started while few sections wait to be followed or while they lead to few others each,
/// nor for one or two workers. The only error is out of memory.
pub fn keep<R: Threads + Sync, G: Gate>(
    rt: &R,
    alloc: Global,
    roots: &[SecNo],
    edges: &Edges,
    workers: u32,
    gate: &G,
) -> Result<Vec<bool>, AllocError>
    requires some { 1 ≤ workers }
    requires most { workers ≤ 64 }
    requires roots { All (λ r. r < length (ends_of edges.now)) roots.now }
    ensures reach { IfOk result (λ seen. IsReach roots.now (ends_of edges.now) seen.items) }
    ensures kept { IfOk result (λ seen. seen.items ≡ reached roots.now (ends_of edges.now)) }
{
    let found = search_from(alloc, roots, edges, workers)?;
    if found.queue.len() <= found.next {
        return Ok(found.seen);
    }
    keep_shared(
        rt,
        alloc,
        found.queue.as_slice(),
        found.next,
        edges,
        workers,
        gate,
    )
}

/// By section number, whether a section is one of a list, or is reached from these. Those of the list before a place were followed already.
fn keep_shared<R: Threads + Sync, G: Gate>(
    rt: &R,
    alloc: Global,
    list: &[SecNo],
    place: usize,
    edges: &Edges,
    workers: u32,
    gate: &G,
) -> Result<Vec<bool>, AllocError>
    requires some { 1 ≤ workers }
    requires most { workers ≤ 64 }
    requires list { All (λ r. r < length (ends_of edges.now)) list.now }
    requires place { place ≤ length list.now }
    ensures { IfOk result (λ on. IsReach list.now (ends_of edges.now) on.items) }
{
    let (marks, mut seat) = Marks::open(alloc, list, edges)?;
    mark_roots(&marks, &mut seat, list);
    follow_by_all(
        rt,
        alloc,
        gate,
        workers,
        &marks,
        &mut seat,
        edges,
        &list[place..],
    )?;
    close_rounds(rt, alloc, gate, workers, &marks, &mut seat, edges)
}
