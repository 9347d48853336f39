//! What a link leaves.

use crate::runs::{Left, run_with};
use elf_bytes::image_of;
use link_driver::{Gate, OpenGate};
use link_examples::{Link, SOUND, Stores, WORKERS, call, text_of};
use lk_depot::{FileKind, MemDepot, MemSink};
use std::alloc::{AllocError, Global};
use std::thread::Threads;

/// Whether a file has these bytes, and was begun as this kind.
fn has_file(depot: &MemDepot, name: &str, kind: FileKind, bytes: &[u8]) -> bool {
    depot.kind(name) == Some(kind) && depot.bytes(name) == Some(bytes)
}

/// Whether there is this map, and no other file but the executable; without lines there is none.
fn has_map(depot: &MemDepot, name: &str, text: &[u8]) -> bool {
    if text.is_empty() {
        return depot.begun() == 1;
    }
    depot.begun() == 2 && has_file(depot, name, FileKind::Plain, text)
}

/// Whether this was said, and if it is nothing, the stream was left alone.
fn has_said(sink: &MemSink, text: &str) -> bool {
    sink.written() == text.as_bytes() && text.is_empty() == (sink.calls() == 0)
}

/// Whether a command leaves its executable and its map, and says what it has to say.
pub fn is_linked<R: Threads + Sync, S: Stores, G: Gate>(
    rt: &R,
    alloc: Global,
    stores: &S,
    link: &Link,
    workers: &[&str],
    gate: &G,
) -> Result<bool, AllocError> {
    let call = call!(link.words, workers, link.store, link.libraries; &SOUND);
    let left = run_with(rt, alloc, stores, &call, gate)?;
    leaves(alloc, &left, link)
}

/// Whether a run left the executable and the map of a command, and said what it has to say.
pub fn leaves(alloc: Global, left: &Left, link: &Link) -> Result<bool, AllocError> {
    let image = image_of(alloc, &link.image)?;
    let text = text_of(alloc, link.lines)?;
    Ok(
        left.status == 0
            && left.err.calls() == 0
            && has_said(&left.say, link.said)
            && has_file(&left.depot, link.output, FileKind::Executable, &image)
            && has_map(&left.depot, link.map, &text),
    )
}

/// Whether it does with each number of workers.
pub fn is_linked_by_any<R: Threads + Sync, S: Stores>(
    rt: &R,
    alloc: Global,
    stores: &S,
    link: &Link,
) -> Result<bool, AllocError> {
    for workers in WORKERS {
        if !is_linked(rt, alloc, stores, link, workers, &OpenGate)? {
            return Ok(false);
        }
    }
    Ok(true)
}
