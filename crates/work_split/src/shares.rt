//! What the tasks of all pieces give becomes one list.

ghost use Rattle.std.specs.Prelude.{◌≡◌, ◌<◌, ◌≤◌, ◌++◌, ℕ, length, vec_len, IfOk};
ghost use Rattle.work_split.specs.Shares.{AreGivenBy, IsJoined, IsJoinedFrom, joined};
ghost use Rattle.work_split.specs.Tasks.{IsAt};

use crate::gates::Gate;
use crate::tasks::over_pieces;
use lk_base::LinkStop;
use std::alloc::{AllocError, Global};
use std::ops::Range;
use std::thread::Threads;

/// What the workers gave, in the order of their pieces; if one has stopped, the first stop in this order, whichever
/// worker was ahead. Then the lists of all others, and later stops, are dropped.
pub fn join<T: Drop>(
    alloc: Global,
    shares: Vec<Result<Vec<T>, LinkStop>>,
) -> Result<Vec<T>, LinkStop>
    ensures { IsJoined (joined shares.items) result }
{
    let room = room_for(shares.as_slice());
    let mut whole = Vec::new(alloc);
    for share in shares {
        let list = match share {
            Ok(list) => list,
            Err(stop) => return Err(stop),
        };
        whole = put_after(whole, list, room)?;
    }
    Ok(whole)
}

/// How many elements the workers gave.
fn room_for<T>(shares: &[Result<Vec<T>, LinkStop>]) -> usize {
    let mut room: usize = 0;
    for share in shares {
        if let Ok(list) = share {
            room = room.saturating_add(list.len());
        }
    }
    room
}

/// A list after another. The first one with elements is made longer, to `room` elements, and not copied.
fn put_after<T: Drop>(whole: Vec<T>, list: Vec<T>, room: usize) -> Result<Vec<T>, AllocError>
    ensures { IfOk result (λ all. all.items ≡ whole.items ++ list.items) }
{
    let mut list = list;
    if whole.len() == 0 {
        list.reserve(room.saturating_sub(list.len()))?;
        return Ok(list);
    }
    let mut whole = whole;
    whole.append(&mut list)?;
    Ok(whole)
}

/// What so many workers are given beside their pieces: nothing.
pub fn nothing_else(alloc: Global, count: usize) -> Result<Vec<()>, AllocError>
    ensures { IfOk result (λ list. vec_len list ≡ count) }
{
    vec![in alloc; (); count]
}

// What the task of each piece gives.
fn shares_of<
    R: Threads + Sync,
    G: Gate,
    T: Send + Drop,
    F: Fn(Range<usize>) -> Result<Vec<T>, LinkStop> + Sync,
>(
    rt: &R,
    alloc: Global,
    gate: &G,
    pieces: &[Range<usize>],
    task: &F,
) -> Result<Vec<Result<Vec<T>, LinkStop>>, AllocError>
    requires most { length pieces.now ≤ 64 }
    requires accepts { (w : ℕ) (p : _) → w < length pieces.now → IsAt pieces.now w p → F.pre task.now p }
    ensures { IfOk result (λ shares. AreGivenBy (F.post task.now) pieces.now shares.items) }
{
    let given = nothing_else(alloc, pieces.len())?;
    over_pieces(
        rt,
        alloc,
        gate,
        pieces,
        given,
        |_worker: u32, piece: Range<usize>, _given: ()| -> Result<Vec<T>, LinkStop>
            requires { F.pre task.now piece }
            ensures { F.post task.entry.now piece result }
        { task(piece) },
    )
}

/// Runs `task` for each piece, as [`over_pieces`] does, and joins what the tasks give. If a task stopped, the answer is the first stop in
/// order of the pieces, once all tasks have ended; or out of memory.
pub fn over_shares<
    R: Threads + Sync,
    G: Gate,
    T: Send + Drop,
    F: Fn(Range<usize>) -> Result<Vec<T>, LinkStop> + Sync,
>(rt: &R, alloc: Global, gate: &G, pieces: &[Range<usize>], task: F) -> Result<Vec<T>, LinkStop>
    requires most { length pieces.now ≤ 64 }
    requires accepts { (w : ℕ) (p : _) → w < length pieces.now → IsAt pieces.now w p → F.pre task p }
    ensures { IsJoinedFrom (F.post task) pieces.now result }
{
    let shares = shares_of(rt, alloc, gate, pieces, &task)?;
    join(alloc, shares)
}
