//! Reading one large file by several workers.
//!
//! Most of the time that a large file takes goes to pages: the system makes one of zeros for each 4096 bytes of fresh memory that are first
//! written to, which is twice the work of copying what the file has for them. So the workers have the pages made at the same time, in blocks of
//! memory side by side that are then given back, and the file's list lies in the memory that they leave; then each reads a part of the file.
#![tactic(auto)]

ghost use Rattle.std.specs.Prelude.{◌<◌};

use std::alloc::{AllocError, Global};
use std::fs::File;
use std::os::unix::fs::FileExt;
use std::sync::atomic::{AtomicBool, Ordering};
use std::thread;
use std::thread::Threads;

/// The bytes from which on several workers read a file.
pub(crate) const LARGE: u64 = 1 << 24;

/// How many workers it takes to be faster than one, which writes each byte once less.
pub(crate) const LEAST_WORKERS: u32 = 3;

/// The bytes of a block that one worker has pages made for. glibc keeps blocks of this size when they are freed (`keep_freed_memory`).
const BLOCK: usize = 1 << 22;

/// Has pages made for so many bytes by the workers, in blocks of memory side by side, and gives the blocks back. What it answers is a block after
/// them: while that is held, glibc does not give the pages back to the system, and the next list of that length lies in them.
fn with_pages<R: Threads + Sync>(
    rt: &R,
    alloc: Global,
    len: usize,
    workers: usize,
) -> Result<Vec<u8>, AllocError>
    requires { 0 < workers }
{
    let count = len.div_ceil(BLOCK);
    let mut blocks: Vec<Vec<u8>> = Vec::with_capacity(alloc, count)?;
    for _ in 0..count {
        blocks.push(Vec::with_capacity(alloc, BLOCK)?)?;
    }
    let behind = Vec::with_capacity(alloc, BLOCK)?;
    thread::for_each_mut(
        rt,
        blocks.as_mut_slice(),
        workers,
        &|at: usize, block: &mut Vec<u8>| {
            let left = len.saturating_sub(at.saturating_mul(BLOCK));
            let _ = block.resize(left.min(BLOCK), 0);
        },
    );
    Ok(behind)
}

/// So many zeros. If there is no memory for pages made before, the list is made as any other.
fn zeros<R: Threads + Sync>(
    rt: &R,
    alloc: Global,
    len: usize,
    workers: usize,
) -> Result<Vec<u8>, AllocError>
    requires { 0 < workers }
{
    let behind = with_pages(rt, alloc, len, workers);
    let mut bytes = Vec::with_capacity(alloc, len)?;
    bytes.resize(len, 0u8)?;
    drop(behind);
    Ok(bytes)
}

/// The first `len` bytes of a file, read by so many workers; None if one of them did not find all of its part, as where the file is cut
/// meanwhile, or a read fails.
pub(crate) fn read_by_all<R: Threads + Sync>(
    rt: &R,
    alloc: Global,
    file: &File,
    len: usize,
    workers: u32,
) -> Result<Option<Vec<u8>>, AllocError>
    requires { 0 < workers }
{
    let mut bytes = zeros(rt, alloc, len, workers as usize)?;
    let short = AtomicBool::new(false);
    thread::for_each_chunk_mut(
        rt,
        bytes.as_mut_slice(),
        len.div_ceil(workers as usize).max(1),
        &|start: usize, part: &mut [u8]| {
            if file.read_exact_at(part, start as u64).is_err() {
                short.store(true, Ordering::SeqCst);
            }
        },
    );
    if short.load(Ordering::SeqCst) {
        return Ok(None);
    }
    Ok(Some(bytes))
}
