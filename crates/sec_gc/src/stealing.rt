//! Marks by several workers, each with tasks of its own and a deque from which the others steal. A task is the number of a section, which
//! is tested before it is used, so nothing rests on what the deques hold; what is left the closing rounds do.

ghost use Rattle.std.specs.Prelude.{◌≡◌, ◌<◌, ◌≤◌, All, length, vec_len, IfOk};
ghost use Rattle.link_sections.specs.Edges.{ends_of};
ghost use Rattle.sec_gc.specs.Closing.{KeepsSeen};
ghost use Rattle.sec_gc.specs.Marks.{SitsAt};
ghost use Rattle.work_split.specs.Pieces.{Tiles};

use crate::closing::Done;
use crate::following::expand;
use crate::marks::{MarkSeat, Marks};
use crate::seats::join_all;
use crossbeam_deque::{Steal, Stealer, Worker};
use link_sections::Edges;
use lk_base::SecNo;
use std::alloc::{AllocError, Global};
use std::ops::Range;
use std::thread::Threads;
use work_split::{Gate, over_pieces, pieces};

/// After so many turns in a row in which it found no task a worker leaves.
const PATIENCE: u32 = 256;

/// At most so many tasks are put into a deque at once.
const BATCH: usize = 32;

/// What a worker is given: its seat, and its deque.
#[derive(Drop)]
pub struct Share {
    pub seat: MarkSeat,
    pub deque: Worker<SecNo>,
}

/// Follows sections and what they lead to. The workers begin each with a piece of the list.
pub fn follow_by_all<R: Threads + Sync, G: Gate>(
    rt: &R,
    alloc: Global,
    gate: &G,
    workers: u32,
    marks: &Marks,
    seat: &mut MarkSeat,
    edges: &Edges,
    sections: &[SecNo],
) -> Result<(), AllocError>
    requires some { 1 ≤ workers }
    requires most { workers ≤ 64 }
    requires seat { SitsAt marks.now seat.old }
    requires edges { ends_of edges.now ≡ marks.now.ends }
    ensures seat { SitsAt marks.now seat.new }
    ensures keeps { KeepsSeen seat.old.seen seat.new.seen }
{
    if sections.is_empty() {
        return Ok(());
    }
    let cuts = pieces(alloc, sections.len(), workers)?;
    let mut stealers = Vec::with_capacity(alloc, cuts.len())?;
    let shares = shares_for(alloc, marks, seat, cuts.len(), &mut stealers)?;
    let done = follow_pieces(
        rt,
        alloc,
        gate,
        marks,
        edges,
        sections,
        stealers.as_slice(),
        cuts.as_slice(),
        shares,
    )?;
    join_all(marks, seat, done);
    Ok(())
}

/// A seat and a deque for each of so many workers, and the stealers of their deques.
fn shares_for(
    alloc: Global,
    marks: &Marks,
    seat: &mut MarkSeat,
    count: usize,
    stealers: &mut Vec<Stealer<SecNo>>,
) -> Result<Vec<Share>, AllocError>
    requires { SitsAt marks.now seat.old }
    ensures sits { SitsAt marks.now seat.new }
    ensures keeps { KeepsSeen seat.old.seen seat.new.seen }
    ensures count { IfOk result (λ shares. vec_len shares ≡ count) }
    ensures seated { IfOk result (λ shares. All (λ share. SitsAt marks.now share.seat) shares.items) }
{
    let mut shares = Vec::with_capacity(alloc, count)?;
    for worker in 0..count {
        let deque = Worker::new_fifo(alloc, BATCH)?;
        stealers.push(deque.stealer()?)?;
        shares.push(Share {
            seat: marks.split(seat),
            deque,
        })?;
    }
    Ok(shares)
}

/// Each worker follows the sections of its piece, and then what it can steal.
fn follow_pieces<R: Threads + Sync, G: Gate>(
    rt: &R,
    alloc: Global,
    gate: &G,
    marks: &Marks,
    edges: &Edges,
    sections: &[SecNo],
    stealers: &[Stealer<SecNo>],
    cuts: &[Range<usize>],
    shares: Vec<Share>,
) -> Result<Vec<Done>, AllocError>
    requires edges { ends_of edges.now ≡ marks.now.ends }
    requires tiles { Tiles 0 (length sections.now) cuts.now }
    requires count { length cuts.now ≡ vec_len shares }
    requires most { vec_len shares ≤ 64 }
    requires seated { All (λ share. SitsAt marks.now share.seat) shares.items }
    ensures { IfOk result (λ done. All (λ one. SitsAt marks.now one.seat) done.items) }
{
    over_pieces(
        rt,
        alloc,
        gate,
        cuts,
        shares,
        |worker: u32, piece: Range<usize>, share: Share| -> Done
            requires seated { SitsAt marks.now share.seat }
            requires edges { ends_of edges.now ≡ marks.now.ends }
            requires piece { piece.end ≤ length sections.now }
            ensures { SitsAt marks.entry.now result.seat }
        {
            follow_piece(
                alloc, marks, edges, sections, stealers, worker, piece, share,
            )
        },
    )
}

/// Follows the sections of a piece, and then what can be stolen.
fn follow_piece(
    alloc: Global,
    marks: &Marks,
    edges: &Edges,
    sections: &[SecNo],
    stealers: &[Stealer<SecNo>],
    worker: u32,
    piece: Range<usize>,
    share: Share,
) -> Done
    requires seated { SitsAt marks.now share.seat }
    requires edges { ends_of edges.now ≡ marks.now.ends }
    requires piece { piece.end ≤ length sections.now }
    ensures { SitsAt marks.now result.seat }
{
    let Share {
        mut seat,
        mut deque,
    } = share;
    let mut list = tasks_of(alloc, sections, piece);
    let mut idle: u32 = 0;
    for turn in 0..2 * edges.count() {
        if idle == PATIENCE {
            return Done { seat, more: false };
        }
        share_out(&mut list, &mut deque, turn);
        idle = take_turn(
            marks, &mut seat, edges, &mut list, &mut deque, stealers, worker, turn, idle,
        );
    }
    Done { seat, more: false }
}

/// The sections of a piece, or the first of them if there is no memory for all.
fn tasks_of(alloc: Global, sections: &[SecNo], piece: Range<usize>) -> Vec<SecNo>
    requires { piece.end ≤ length sections.now }
{
    let mut list = Vec::new(alloc);
    for i in piece.start..piece.end {
        let _ = list.push(sections[i]);
    }
    list
}

/// One turn of a worker: it follows a section, if it finds one. The answer is in how many turns in a row it has found none.
fn take_turn(
    marks: &Marks,
    seat: &mut MarkSeat,
    edges: &Edges,
    list: &mut Vec<SecNo>,
    deque: &mut Worker<SecNo>,
    stealers: &[Stealer<SecNo>],
    worker: u32,
    turn: usize,
    idle: u32,
) -> u32
    requires seat { SitsAt marks.now seat.old }
    requires edges { ends_of edges.now ≡ marks.now.ends }
    ensures { SitsAt marks.now seat.new }
{
    match next_task(list, deque, stealers, worker, turn) {
        Some(task) => {
            expand(marks, seat, edges, task, list);
            0
        }
        None => idle.saturating_add(1),
    }
}

/// A task of the worker's own, or one that it steals from the next of the others.
fn next_task(
    list: &mut Vec<SecNo>,
    deque: &mut Worker<SecNo>,
    stealers: &[Stealer<SecNo>],
    worker: u32,
    turn: usize,
) -> Option<SecNo> {
    if let Some(task) = list.pop() {
        return Some(task);
    }
    if let Some(task) = deque.pop() {
        return Some(task);
    }
    let victim = victim_of(stealers.len(), worker as usize, turn);
    match stealers.get(victim) {
        Some(stealer) => steal_from(stealer, deque),
        None => None,
    }
}

/// The worker from which a worker steals in a turn: another one, if there is one.
fn victim_of(workers: usize, worker: usize, turn: usize) -> usize {
    if workers < 2 {
        return workers;
    }
    let step = 1 + turn % (workers - 1);
    worker.wrapping_add(step) % workers
}

/// A task of another worker's deque, from which some more come into the own one.
fn steal_from(stealer: &Stealer<SecNo>, deque: &mut Worker<SecNo>) -> Option<SecNo> {
    match stealer.steal_batch_and_pop(deque) {
        Steal::Success(task) => Some(task),
        Steal::Empty => None,
        Steal::Retry => None,
    }
}

/// Each 16 turns, if the deque is empty, puts the older half of a list into it, or the oldest of that. A push that is refused puts the task
/// back.
fn share_out(list: &mut Vec<SecNo>, deque: &mut Worker<SecNo>, turn: usize) {
    if turn % 16 != 0 || !deque.is_empty() {
        return;
    }
    let count = (list.len() / 2).min(BATCH);
    for place in 0..count {
        move_one(list, deque, place);
    }
}

/// Moves one task from a list into a deque; the last of the list takes its place.
fn move_one(list: &mut Vec<SecNo>, deque: &mut Worker<SecNo>, place: usize) {
    if list.len() <= place {
        return;
    }
    let task = list.swap_remove(place);
    if let Err(task) = deque.push(task) {
        let _ = list.push(task);
    }
}
