//! What a command leaves that links nothing.

use crate::runs::{Left, run_with};
use link_driver::OpenGate;
use link_examples::{Refusal, SOUND, Stores, WORKERS, call};
use std::alloc::{AllocError, Global};
use std::thread::Threads;

/// Whether a command leaves no file, its line and its status.
pub fn is_refused<R: Threads + Sync, S: Stores>(
    rt: &R,
    alloc: Global,
    stores: &S,
    refusal: &Refusal,
    workers: &[&str],
) -> Result<bool, AllocError> {
    let call = call!(refusal.words, workers, refusal.store, refusal.libraries; &SOUND);
    let left = run_with(rt, alloc, stores, &call, &OpenGate)?;
    Ok(refuses(&left, refusal))
}

/// Whether a run left no file, and the line and the status of a command.
pub fn refuses(left: &Left, refusal: &Refusal) -> bool {
    left.status == refusal.status
        && left.say.calls() == 0
        && left.err.written() == refusal.line.as_bytes()
        && left.depot.calls() == refusal.loads
        && left.depot.begun() == 0
}

/// Whether it does with each number of workers.
pub fn is_refused_by_any<R: Threads + Sync, S: Stores>(
    rt: &R,
    alloc: Global,
    stores: &S,
    refusal: &Refusal,
) -> Result<bool, AllocError> {
    for workers in WORKERS {
        if !is_refused(rt, alloc, stores, refusal, workers)? {
            return Ok(false);
        }
    }
    Ok(true)
}
