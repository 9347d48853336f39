//! An executable is added to its file block by block: one of three blocks by three appends, whatever the number of workers.

use super::generated::{FOUR_THOUSAND, executable};
use super::{Holds, OwnStores};
use elf_bytes::record;
use link_driver::OpenGate;
use link_examples::{Outside, SOUND, Store, call};
use link_runs::{Left, run_with};
use std::alloc::{AllocError, Global};
use std::test::Fail;
use std::thread::Threads;

/// A block is added by one append.
const AT_ONCE: Outside = record!(Outside, SOUND => most: 65536);

/// The second append fails: the begin is call 0.
const BROKEN: Outside = record!(Outside, AT_ONCE => fails: &[2]);

/// Links four thousand generated objects.
fn link_over<R: Threads + Sync>(
    rt: &R,
    alloc: Global,
    workers: &[&str],
    outside: &Outside,
) -> Result<Left, AllocError> {
    let call = call!(FOUR_THOUSAND.0, workers, Store::Objects, &[]; outside);
    run_with(rt, alloc, &OwnStores, &call, &OpenGate)
}

/// Whether all was written, by these calls, with these bytes.
fn is_whole(left: &Left, bytes: &[u8]) -> bool {
    left.status == 0
        && left.depot.calls() == 4
        && left.err.calls() == 0
        && left.say.written() == FOUR_THOUSAND.1.as_bytes()
        && executable(left) == bytes
}

/// Whether the first block alone of these bytes was written, and that was reported.
fn is_cut(left: &Left, bytes: &[u8]) -> bool {
    left.status == 3
        && left.depot.calls() == 3
        && left.err.written() == "rvld: cannot write a.out\n".as_bytes()
        && left.say.calls() == 0
        && executable(left).len() == 65536
        && bytes.starts_with(executable(left))
}

/// Whether so many workers write what one does, and its first block where the second fails.
fn are_added<R: Threads + Sync>(rt: &R, alloc: Global, workers: &[&str]) -> Holds {
    let one = link_over(rt, alloc, &["--threads", "1"], &AT_ONCE)?;
    let whole = link_over(rt, alloc, workers, &AT_ONCE)?;
    let cut = link_over(rt, alloc, workers, &BROKEN)?;
    let bytes = executable(&one);
    Ok(bytes.len() == FOUR_THOUSAND.2 && is_whole(&whole, bytes) && is_cut(&cut, bytes))
}

// Each is a test of its own, since the links take seconds where memory is checked.
#[test]
fn one_worker_adds_each_block_by_one_call(rt: HostRuntime) -> Result<(), Fail> {
    assert!(rt; are_added(&rt, rt.alloc(), &["--threads", "1"])?);
    Ok(())
}

#[test]
fn two_workers_add_each_block_by_one_call(rt: HostRuntime) -> Result<(), Fail> {
    assert!(rt; are_added(&rt, rt.alloc(), &["--threads", "2"])?);
    Ok(())
}

#[test]
fn all_workers_add_each_block_by_one_call(rt: HostRuntime) -> Result<(), Fail> {
    assert!(rt; are_added(&rt, rt.alloc(), &["--threads", "64"])?);
    Ok(())
}
