//! Two workers, of which one is held before each of its tasks.

use super::generated::{executable, link_many};
use super::{Holds, OwnStores};
use elf_bytes::record;
use link_driver::{Gate, OpenGate};
use link_examples::images::{TWO_BLOCKS, TWO_FILES};
use link_examples::lines::{TWO_FILES_LINES, TWO_FILES_LISTED};
use link_examples::{Link, Store, link};
use link_runs::{Left, is_linked};
use std::alloc::Global;
use std::sync::atomic::{AtomicBool, AtomicU64, Ordering};
use std::test::Fail;
use std::thread::{self, Threads};

/// A turn leaves the processor to others four times: all turns take more than ten seconds, so that a full machine does not end them first.
const TURNS: u32 = 10_000_000;

/// Whether a count was seen to reach a number.
fn is_reached_in_time(count: &AtomicU64, number: u64) -> bool {
    for _ in 0..TURNS {
        if count.load(Ordering::SeqCst) >= number {
            return true;
        }
        for _ in 0..4 {
            thread::yield_now();
        }
    }
    false
}

/// Holds one worker before each of its tasks until the other is past as many of its own.
#[derive(Drop)]
struct Holder {
    held: u32,
    /// The tasks before which the held worker stood.
    met: AtomicU64,
    /// The tasks that the other worker is past.
    passed: AtomicU64,
    late: AtomicBool,
}

impl Holder {
    fn of(held: u32) -> Holder {
        record!(Holder; held: held, met: AtomicU64::new(0), passed: AtomicU64::new(0), late: AtomicBool::new(false))
    }

    /// How many tasks the held worker stood before, if the other was past as many and each time soon enough.
    fn tasks(&self) -> Option<u64> {
        let met = self.met.load(Ordering::SeqCst);
        if self.late.load(Ordering::SeqCst) || met != self.passed.load(Ordering::SeqCst) {
            return None;
        }
        Some(met)
    }
}

impl Gate for Holder {
    fn at(&self, worker: u32, step: u32) {
        if worker == self.held && step == 0 {
            let number = self.met.fetch_add(1, Ordering::SeqCst).wrapping_add(1);
            if !is_reached_in_time(&self.passed, number) {
                self.late.store(true, Ordering::SeqCst);
            }
        }
        if worker != self.held && step == 1 {
            self.passed.fetch_add(1, Ordering::SeqCst);
        }
    }
}

/// A link that two workers share, and in how many passes they do.
type Shared<'a> = (Link<'a>, u64);

/// The passes of the first link are heads, bodies, the list of offers, the claims for names, the ranks of offers, the names that nothing
/// offers, and the test of relocations; since it has no archive, no member is claimed, and it has too few symbols for their addresses to be
/// shared out. Those of the second are the symbols that stand for sections' names and the edges between sections too: its executable has two
/// blocks, but too few relocations for two workers to make them. Those of the third are those of the first, and the list of symbols for the
/// map: that for the symbol table is made beside the test of relocations, and passes no gate.
const SHARED: &[Shared] = &[
    (link!("-s", "a.o", "h.o" => TWO_FILES), 7),
    (
        link!("-s", "--gc-sections", "m.o", "one.o", "two.o", "wide.o" => TWO_BLOCKS; store: Store::Groups),
        9,
    ),
    (
        link!("--Map", "m", "a.o", "h.o" => TWO_FILES_LISTED; lines: TWO_FILES_LINES),
        8,
    ),
];

/// Whether a link is as ever where one of its two workers is held in each pass, and the other was in time.
fn is_held<R: Threads + Sync>(rt: &R, alloc: Global, shared: &Shared, held: u32) -> Holds {
    let (link, passes) = shared;
    let gate = Holder::of(held);
    let linked = is_linked(rt, alloc, &OwnStores, link, &["--threads", "2"], &gate)?;
    Ok(linked && gate.tasks() == Some(*passes))
}

#[test]
fn workers_in_either_order(rt: HostRuntime) -> Result<(), Fail> {
    for shared in SHARED {
        for held in 0..2 {
            assert!(rt;
                is_held(&rt, rt.alloc(), shared, held)?,
                "worker {held} is held"
            );
        }
    }
    Ok(())
}

/// A command that links generated objects, so many that two workers share passes that a small link leaves to one, and how many passes they share.
type Large<'a> = (&'a [&'a str], u64);

/// Beside what small links share: which sections may stay, calls that may be shortened, what sections lose by them, addresses, and the blocks of
/// the executable.
const RELAXED: Large = (&["rvld", "-s", "--self-input", "2048"], 13);

/// What only large links share, with alignments alone.
const UNRELAXED: Large = (&["rvld", "-s", "--no-relax", "--self-input", "2048"], 12);

/// Whether two links gave the same executable and report.
fn is_alike(left: &Left, right: &Left) -> bool {
    left.status == 0
        && right.status == 0
        && !executable(left).is_empty()
        && executable(left) == executable(right)
        && left.say.written() == right.say.written()
}

/// Whether two workers, of which one is held, give what one does.
fn is_large_held<R: Threads + Sync>(rt: &R, alloc: Global, large: &Large, held: u32) -> Holds {
    let (words, passes) = large;
    let gate = Holder::of(held);
    let alone = link_many(rt, alloc, words, &["--threads", "1"], &OpenGate)?;
    let left = link_many(rt, alloc, words, &["--threads", "2"], &gate)?;
    Ok(is_alike(&left, &alone) && gate.tasks() == Some(*passes))
}

// Each is a test of its own, since the links take seconds where memory is checked.
#[test]
fn many_calls_after_the_first_worker(rt: HostRuntime) -> Result<(), Fail> {
    assert!(rt; is_large_held(&rt, rt.alloc(), &RELAXED, 1)?);
    Ok(())
}

#[test]
fn many_calls_after_the_second_worker(rt: HostRuntime) -> Result<(), Fail> {
    assert!(rt; is_large_held(&rt, rt.alloc(), &RELAXED, 0)?);
    Ok(())
}

#[test]
fn many_alignments_after_the_first_worker(rt: HostRuntime) -> Result<(), Fail> {
    assert!(rt; is_large_held(&rt, rt.alloc(), &UNRELAXED, 1)?);
    Ok(())
}

#[test]
fn many_alignments_after_the_second_worker(rt: HostRuntime) -> Result<(), Fail> {
    assert!(rt; is_large_held(&rt, rt.alloc(), &UNRELAXED, 0)?);
    Ok(())
}
