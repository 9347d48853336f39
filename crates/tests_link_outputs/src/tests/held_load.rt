//! A load that waits until a parser is past the file before.

ghost use Rattle.std.specs.Prelude.{◌≡◌};

use elf_bytes::record;
use link_driver::{Gate, run_piped};
use link_examples::{Store, shared_files, words_of};
use lk_depot::{Depot, Failed, FileKind, LoadStop, MemDepot, MemSink};
use std::alloc::{AllocError, Global};
use std::sync::Wait;
use std::sync::atomic::{AtomicBool, Ordering};
use std::test::Fail;
use std::thread::{self, Threads};

/// A turn leaves the processor to others four times: all turns take more than ten seconds, so that a full machine does not end them first.
const TURNS: u32 = 10_000_000;

/// Notes that the first parser is past a file.
#[derive(Drop)]
struct Passing {
    passed: AtomicBool,
}

impl Gate for Passing {
    fn at(&self, worker: u32, step: u32) {
        if worker == 1 && step == 1 {
            self.passed.store(true, Ordering::SeqCst);
        }
    }
}

/// Whether it is in time.
fn is_passed_in_time(gate: &Passing) -> bool {
    for _ in 0..TURNS {
        if gate.passed.load(Ordering::SeqCst) {
            return true;
        }
        for _ in 0..4 {
            thread::yield_now();
        }
    }
    false
}

/// A store of files that holds its second load until then.
#[derive(Drop)]
struct Held<'a, D> {
    store: D,
    gate: &'a Passing,
    loads: u64,
    late: bool,
}

impl<D: Depot> Held<'_, D> {
    /// Counts a load. The second waits for the parser, and notes where it is not there in time.
    fn hold(&mut self)
        ensures { self.new.store ≡ self.old.store }
    {
        let second = self.loads == 1;
        self.loads = self.loads.saturating_add(1);
        if second && !is_passed_in_time(self.gate) {
            self.late = true;
        }
    }
}

impl<D: Depot> Depot for Held<'_, D> {
    ghost store = { λ held. D.store held.store };

    fn load(&mut self, alloc: Global, name: &str) -> Result<Vec<u8>, LoadStop> {
        self.hold();
        self.store.load(alloc, name)
    }

    fn begin(&mut self, name: &str, kind: FileKind) -> Result<(), Failed> {
        self.store.begin(name, kind)
    }

    fn append(&mut self, name: &str, piece: &[u8]) -> Result<usize, Failed> {
        self.store.append(name, piece)
    }
}

/// The status of a link by one parser, and whether this was there in time.
fn held_link<R: Threads + Wait + Sync>(rt: &R, alloc: Global) -> Result<(u8, bool), AllocError> {
    let gate = record!(Passing; passed: AtomicBool::new(false));
    let files = shared_files(alloc, Store::Objects)?;
    let mut depot =
        record!(Held; store: MemDepot::new(alloc, files, Vec::new(alloc), 1000, 200_000)?, gate: &gate, loads: 0, late: false);
    let mut say = MemSink::new(alloc, Vec::new(alloc), 1000)?;
    let mut err = MemSink::new(alloc, Vec::new(alloc), 1000)?;
    let words = words_of(alloc, &["rvld", "-s", "a.o", "h.o"], &["--threads", "1"])?;
    let status = run_piped(
        rt,
        alloc,
        words.as_slice(),
        &mut depot,
        &mut say,
        &mut err,
        &gate,
    );
    Ok((status, !depot.late && depot.loads == 2))
}

#[test]
fn a_file_is_read_while_the_next_is_loaded(rt: HostRuntime) -> Result<(), Fail> {
    let (status, in_time) = held_link(&rt, rt.alloc())?;
    assert_eq!(rt; status, 0);
    assert!(rt; in_time);
    Ok(())
}
