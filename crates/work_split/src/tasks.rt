//! A task for each piece, each in a thread of its own.

ghost use Rattle.std.specs.Prelude.{◌≡◌, ℕ, ◌<◌, ◌≤◌, length, vec_len, IfOk};
ghost use Rattle.work_split.specs.Tasks.{IsAt, AreJobs};

use crate::gates::Gate;
use std::alloc::{AllocError, Global};
use std::ops::Range;
use std::thread;
use std::thread::Threads;

// What one worker is given.
#[derive(Drop)]
struct Job<T> {
    worker: u32,
    piece: Range<usize>,
    given: T,
}

fn jobs_of<T: Drop>(
    alloc: Global,
    pieces: &[Range<usize>],
    given: Vec<T>,
) -> Result<Vec<Job<T>>, AllocError>
    requires count { length pieces.now ≡ vec_len given }
    requires most { vec_len given ≤ 64 }
    ensures { IfOk result (λ jobs. AreJobs pieces.now given.items jobs.items) }
{
    let mut jobs = Vec::with_capacity(alloc, given.len())?;
    for own in given {
        let worker = jobs.len();
        let piece = &pieces[worker];
        jobs.push(Job {
            worker: worker as u32,
            piece: piece.start..piece.end,
            given: own,
        })?;
    }
    Ok(jobs)
}

// What one worker's task gives. If there are more workers, the task stands between the two steps of the gate.
fn answer_of<G: Gate, T: Drop, U, F: Fn(u32, Range<usize>, T) -> U>(
    gate: &G,
    many: bool,
    task: &F,
    job: Job<T>,
) -> U
    requires { F.pre task.now job.worker job.piece job.given }
    ensures { F.post task.entry.now job.worker job.piece job.given result }
{
    let Job {
        worker,
        piece,
        given,
    } = job;
    if !many {
        return task(worker, piece, given);
    }
    gate.at(worker, 0);
    let answer = task(worker, piece, given);
    gate.at(worker, 1);
    answer
}

fn run_jobs<
    R: Threads + Sync,
    G: Gate,
    T: Send + Drop,
    U: Send + Drop,
    F: Fn(u32, Range<usize>, T) -> U + Sync,
>(rt: &R, gate: &G, many: bool, jobs: Vec<Job<T>>, task: &F) -> Result<Vec<U>, AllocError>
    requires { (w : ℕ) (j : _) → w < length jobs.items
        → IsAt jobs.items w j → F.pre task.now j.worker j.piece j.given }
    ensures count { IfOk result (λ answers. length answers.items ≡ length jobs.items) }
    ensures each { IfOk result (λ answers. (w : ℕ) (j : _) (y : U) → w < length jobs.items
        → IsAt jobs.items w j → IsAt answers.items w y → F.post task.now j.worker j.piece j.given y) }
{
    let work = |job: Job<T>| -> U
        requires { F.pre task.now job.worker job.piece job.given }
        ensures { F.post task.entry.now job.worker job.piece job.given result }
    { answer_of(gate, many, task, job) };
    thread::map_vec(rt, jobs, &work)
}

/// Runs `task` once for each piece: the task of piece w is given the number w, the piece and, by a move, what stands
/// at w in `given`. The answers stand in the order of the pieces.
///
/// Each task is done exactly once: what it is given is moved into it, and there is no second value of `T` to do it again
/// with; and its answer, of a type that only the task makes, is there.
///
/// Worker w calls `gate.at(w, 0)` before its task and `gate.at(w, 1)` after it; a lone piece calls no gate. If memory
/// runs out, some tasks may not have run, and what was given and answered is dropped.
pub fn over_pieces<
    R: Threads + Sync,
    G: Gate,
    T: Send + Drop,
    U: Send + Drop,
    F: Fn(u32, Range<usize>, T) -> U + Sync,
>(
    rt: &R,
    alloc: Global,
    gate: &G,
    pieces: &[Range<usize>],
    given: Vec<T>,
    task: F,
) -> Result<Vec<U>, AllocError>
    requires count { length pieces.now ≡ vec_len given }
    requires most { vec_len given ≤ 64 }
    requires accepts { (w : ℕ) (p : _) (x : T) → w < length pieces.now
        → IsAt pieces.now w p → IsAt given.items w x → F.pre task w p x }
    ensures count { IfOk result (λ answers. length answers.items ≡ length pieces.now) }
    ensures each { IfOk result (λ answers. (w : ℕ) (p : _) (x : T) (y : U) → w < length pieces.now
        → IsAt pieces.now w p → IsAt given.items w x → IsAt answers.items w y → F.post task w p x y) }
{
    let many = pieces.len() > 1;
    let jobs = jobs_of(alloc, pieces, given)?;
    run_jobs(rt, gate, many, jobs, &task)
}
