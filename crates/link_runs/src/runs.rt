//! Runs of commands over files and streams in memory.

use elf_bytes::record;
use link_driver::{Gate, run, run_piped};
use link_examples::{Call, Files, Outside, Stores, Stream, files_of, words_of};
use lk_depot::{MemDepot, MemSink};
use std::alloc::{AllocError, Global};
use std::sync::Wait;
use std::thread::Threads;

/// What a run leaves.
#[derive(Drop)]
pub struct Left {
    pub status: u8,
    pub depot: MemDepot,
    pub say: MemSink,
    pub err: MemSink,
}

fn depot_of(alloc: Global, files: Files, outside: &Outside) -> Result<MemDepot, AllocError> {
    let fails = Vec::from_slice(alloc, outside.fails)?;
    MemDepot::new(alloc, files, fails, outside.most.max(1), outside.room)
}

fn sink_of(alloc: Global, stream: &Stream) -> Result<MemSink, AllocError> {
    let fails = Vec::from_slice(alloc, stream.fails)?;
    MemSink::new(alloc, fails, stream.room)
}

/// Runs a command over these files.
pub fn run_over<R: Threads + Sync, G: Gate>(
    rt: &R,
    alloc: Global,
    words: &[String],
    files: Files,
    outside: &Outside,
    gate: &G,
) -> Result<Left, AllocError> {
    let mut depot = depot_of(alloc, files, outside)?;
    let mut say = sink_of(alloc, &outside.say)?;
    let mut err = sink_of(alloc, &outside.err)?;
    let status = run(rt, alloc, words, &mut depot, &mut say, &mut err, gate);
    Ok(record!(Left; status: status, depot: depot, say: say, err: err))
}

/// Runs a command over the files and archives that it has at hand.
pub fn run_with<R: Threads + Sync, S: Stores, G: Gate>(
    rt: &R,
    alloc: Global,
    stores: &S,
    call: &Call,
    gate: &G,
) -> Result<Left, AllocError> {
    let files = files_of(alloc, stores, call.store, call.libraries)?;
    let words = words_of(alloc, call.words, call.workers)?;
    run_over(rt, alloc, words.as_slice(), files, call.outside, gate)
}

/// Runs a command over these files as `rvld_piped` does.
pub fn run_piped_over<R: Threads + Wait + Sync, G: Gate>(
    rt: &R,
    alloc: Global,
    words: &[String],
    files: Files,
    outside: &Outside,
    gate: &G,
) -> Result<Left, AllocError> {
    let mut depot = depot_of(alloc, files, outside)?;
    let mut say = sink_of(alloc, &outside.say)?;
    let mut err = sink_of(alloc, &outside.err)?;
    let status = run_piped(rt, alloc, words, &mut depot, &mut say, &mut err, gate);
    Ok(record!(Left; status: status, depot: depot, say: say, err: err))
}
