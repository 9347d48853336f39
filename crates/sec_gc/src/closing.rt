//! Rounds that close the marks: all sections are looked at, and the ends of those that are marked are marked, until none is missing.

ghost use Rattle.std.specs.Prelude.{◌≡◌, ◌<◌, ◌≤◌, true, All, Contains, length, vec_len, IfOk};
ghost use Rattle.link_sections.specs.Edges.{ends_of};
ghost use Rattle.lk_tables.specs.Reach.{ends_at, mark, IsReach};
ghost use Rattle.sec_gc.specs.Closing.{AreFound, HasEnds, HaveEnds, HaveSeen, KeepsSeen, Rests};
ghost use Rattle.sec_gc.specs.Marks.{SitsAt, section_at};
ghost use Rattle.sec_gc.specs.Workers.{AreDone};
ghost use Rattle.work_split.specs.Pieces.{Tiles};

use crate::marks::{MarkSeat, Marks};
use crate::seats::{any_of, join_all, seats_for};
use link_sections::Edges;
use lk_base::SecNo;
use std::alloc::{AllocError, Global};
use std::ops::Range;
use std::thread::Threads;
use work_split::{Gate, over_pieces, pieces};

/// A round over fewer sections is done by the calling worker alone.
const FEW: usize = 32768;

/// What the worker of a piece gives back: its seat, and whether an end had no mark.
#[derive(Drop)]
pub struct Done {
    pub seat: MarkSeat,
    pub more: bool,
}

/// By section number, whether a section is reached, once the roots are marked: rounds mark what the marked sections lead to until one
/// finds nothing missing.
pub fn close_rounds<R: Threads + Sync, G: Gate>(
    rt: &R,
    alloc: Global,
    gate: &G,
    workers: u32,
    marks: &Marks,
    seat: &mut MarkSeat,
    edges: &Edges,
) -> Result<Vec<bool>, AllocError>
    requires some { 1 ≤ workers }
    requires most { workers ≤ 64 }
    requires seat { SitsAt marks.now seat.old }
    requires edges { ends_of edges.now ≡ marks.now.ends }
    requires within { All (λ r. r < length marks.now.ends) marks.now.roots }
    requires rooted { KeepsSeen marks.now.roots seat.old.seen }
    ensures { IfOk result (λ on. IsReach marks.now.roots marks.now.ends on.items) }
{
    let mut on = look_at_all(alloc, marks, seat, edges)?;
    let mut more = mark_missing(rt, alloc, gate, workers, marks, seat, edges, on.as_slice())?;
    while more {
        on = look_at_all(alloc, marks, seat, edges)?;
        more = mark_missing(rt, alloc, gate, workers, marks, seat, edges, on.as_slice())?;
    }
    Ok(on)
}

/// By section number, whether each is marked as the seat looks at it.
fn look_at_all(
    alloc: Global,
    marks: &Marks,
    seat: &mut MarkSeat,
    edges: &Edges,
) -> Result<Vec<bool>, AllocError>
    requires seat { SitsAt marks.now seat.old }
    requires edges { ends_of edges.now ≡ marks.now.ends }
    ensures seat { SitsAt marks.now seat.new }
    ensures keeps { KeepsSeen seat.old.seen seat.new.seen }
    ensures found { IfOk result (λ on. AreFound marks.now seat.new.seen on.items) }
    ensures seen { IfOk result (λ on. HaveSeen seat.old.seen on.items) }
{
    let mut on = Vec::with_capacity(alloc, edges.count())?;
    for section in 0..edges.count() {
        on.push(marks.look(seat, section as u32))?;
    }
    Ok(on)
}

/// Marks each end of the marked sections that has no mark, and answers whether there was one. The workers each do one piece of the sections.
fn mark_missing<R: Threads + Sync, G: Gate>(
    rt: &R,
    alloc: Global,
    gate: &G,
    workers: u32,
    marks: &Marks,
    seat: &mut MarkSeat,
    edges: &Edges,
    on: &[bool],
) -> Result<bool, AllocError>
    requires some { 1 ≤ workers }
    requires most { workers ≤ 64 }
    requires seat { SitsAt marks.now seat.old }
    requires edges { ends_of edges.now ≡ marks.now.ends }
    requires found { AreFound marks.now seat.old.seen on.now }
    ensures seat { SitsAt marks.now seat.new }
    ensures keeps { KeepsSeen seat.old.seen seat.new.seen }
    ensures rests { IfOk result (λ more. Rests seat.new.seen on.now (HaveEnds marks.now.ends on.now 0 (length on.now)) more) }
{
    let cuts = pieces(alloc, on.len(), sharers(on.len(), workers))?;
    let seats = seats_for(alloc, marks, seat, cuts.len())?;
    let done = mark_pieces(rt, alloc, gate, marks, edges, on, cuts.as_slice(), seats)?;
    Ok(join_all(marks, seat, done))
}

/// How many workers share so many sections.
fn sharers(sections: usize, workers: u32) -> u32
    requires some { 1 ≤ workers }
    ensures some { 1 ≤ result }
    ensures most { result ≤ workers }
{
    if sections < FEW { 1 } else { workers }
}

/// Each worker marks what its piece leads to.
fn mark_pieces<R: Threads + Sync, G: Gate>(
    rt: &R,
    alloc: Global,
    gate: &G,
    marks: &Marks,
    edges: &Edges,
    on: &[bool],
    cuts: &[Range<usize>],
    seats: Vec<MarkSeat>,
) -> Result<Vec<Done>, AllocError>
    requires edges { ends_of edges.now ≡ marks.now.ends }
    requires tiles { Tiles 0 (length on.now) cuts.now }
    requires count { length cuts.now ≡ vec_len seats }
    requires most { vec_len seats ≤ 64 }
    requires seated { All (SitsAt marks.now) seats.items }
    requires found { All (λ seat. AreFound marks.now seat.seen on.now) seats.items }
    ensures { IfOk result (λ done. AreDone marks.now on.now cuts.now done.items) }
{
    over_pieces(
        rt,
        alloc,
        gate,
        cuts,
        seats,
        |_worker: u32, piece: Range<usize>, seat: MarkSeat| -> Done
            requires seated { SitsAt marks.now seat }
            requires edges { ends_of edges.now ≡ marks.now.ends }
            requires found { AreFound marks.now seat.seen on.now }
            requires piece { piece.end ≤ length on.now }
            ensures seated { SitsAt marks.entry.now result.seat }
            ensures rests { Rests result.seat.seen on.entry.now (HaveEnds (ends_of edges.entry.now) on.entry.now piece.start piece.end) result.more }
        { mark_piece(marks, seat, edges, on, piece) },
    )
}

/// Marks the ends of the marked sections of a piece.
fn mark_piece(
    marks: &Marks,
    mut seat: MarkSeat,
    edges: &Edges,
    on: &[bool],
    piece: Range<usize>,
) -> Done
    requires seat { SitsAt marks.now seat }
    requires edges { ends_of edges.now ≡ marks.now.ends }
    requires found { AreFound marks.now seat.seen on.now }
    requires piece { piece.end ≤ length on.now }
    ensures seat { SitsAt marks.now result.seat }
    ensures rests { Rests result.seat.seen on.now (HaveEnds (ends_of edges.now) on.now piece.start piece.end) result.more }
{
    let mut more = false;
    for section in piece.start..piece.end {
        more = any_of(more, mark_section(marks, &mut seat, edges, on, section));
    }
    Done { seat, more }
}

/// Marks the ends of a section, if it is marked.
fn mark_section(
    marks: &Marks,
    seat: &mut MarkSeat,
    edges: &Edges,
    on: &[bool],
    section: usize,
) -> bool
    requires seat { SitsAt marks.now seat.old }
    requires edges { ends_of edges.now ≡ marks.now.ends }
    requires found { AreFound marks.now seat.old.seen on.now }
    requires section { section < length on.now }
    ensures seat { SitsAt marks.now seat.new }
    ensures keeps { KeepsSeen seat.old.seen seat.new.seen }
    ensures rests { Rests seat.new.seen on.now (mark on.now section ≡ true → HasEnds (ends_of edges.now) on.now section) result }
{
    edges.count();
    if !on[section] {
        return false;
    }
    mark_ends(marks, seat, edges, on, section as u32)
}

/// Marks the ends of a section that have no mark, and answers whether there was one.
fn mark_ends(marks: &Marks, seat: &mut MarkSeat, edges: &Edges, on: &[bool], from: SecNo) -> bool
    requires seat { SitsAt marks.now seat.old }
    requires edges { ends_of edges.now ≡ marks.now.ends }
    requires on { length on.now ≡ length marks.now.ends }
    requires from { Contains seat.old.seen from }
    ensures seat { SitsAt marks.now seat.new }
    ensures keeps { KeepsSeen seat.old.seen seat.new.seen }
    ensures rests { Rests seat.new.seen on.now (HasEnds (ends_of edges.now) on.now from) result }
{
    let mut more = false;
    for k in 0..edges.ends(from).len() {
        more = any_of(more, mark_end(marks, seat, edges, on, from, k));
    }
    more
}

/// Marks an end of a section, if it has no mark, and answers whether it had none.
fn mark_end(
    marks: &Marks,
    seat: &mut MarkSeat,
    edges: &Edges,
    on: &[bool],
    from: SecNo,
    k: usize,
) -> bool
    requires seat { SitsAt marks.now seat.old }
    requires edges { ends_of edges.now ≡ marks.now.ends }
    requires on { length on.now ≡ length marks.now.ends }
    requires from { Contains seat.old.seen from }
    requires place { k < length (ends_at (ends_of edges.now) from) }
    ensures seat { SitsAt marks.now seat.new }
    ensures keeps { KeepsSeen seat.old.seen seat.new.seen }
    ensures rests { Rests seat.new.seen on.now (mark on.now (section_at (ends_at (ends_of edges.now) from) k) ≡ true) result }
{
    if is_marked(on, edges.ends(from)[k]) {
        return false;
    }
    let _ = marks.mark(seat, edges, from, k);
    true
}

/// Whether a section is marked.
fn is_marked(on: &[bool], section: SecNo) -> bool
    ensures { result ≡ mark on.now section }
{
    match on.get(section as usize) {
        Some(marked) => *marked,
        None => false,
    }
}
