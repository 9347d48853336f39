//! What no clause says: that tasks of two pieces run side by side, and when a gate is called.

ghost use Rattle.std.specs.Prelude.{◌≡◌, ◌<◌, ◌≤◌, ◌-◌, []};
ghost use Rattle.work_split.specs.Shares.{IsShare};

use crate::{Gate, OpenGate, over_pieces, over_shares, pieces, pieces_by_weight};
use lk_base::LinkStop;
use std::alloc::{AllocError, Global};
use std::ops::Range;
use std::sync::atomic::{AtomicBool, AtomicU64, Ordering};
use std::test::Fail;
use std::thread::{self, Threads};

// Whether the flag was seen up. Each turn leaves the processor to others four times: all take more than ten seconds, which a full machine does not end first.
fn is_up(flag: &AtomicBool) -> bool {
    for _ in 0..10_000_000 {
        if flag.load(Ordering::SeqCst) {
            return true;
        }
        for _ in 0..4 {
            thread::yield_now();
        }
    }
    false
}

// Two cuts of one place each.
const TWO: [Range<usize>; 2] = [0..1, 1..2];

#[test]
fn cuts(rt: HostRuntime) -> Result<(), Fail> {
    assert_eq!(rt; pieces(rt.alloc(), 0, 4)?.len(), 0);
    let small = pieces(rt.alloc(), 3, 64)?;
    assert_eq!(rt; small.as_slice(), [0..1, 1..2, 2..3].as_slice());
    let four = pieces(rt.alloc(), 10, 4)?;
    assert_eq!(rt; four.as_slice(), [0..2, 2..4, 4..7, 7..10].as_slice());
    assert_eq!(rt; pieces(rt.alloc(), 10, 1)?.as_slice(), [0..10].as_slice());
    Ok(())
}

#[test]
fn cuts_by_weight(rt: HostRuntime) -> Result<(), Fail> {
    assert_eq!(rt; pieces_by_weight(rt.alloc(), &[], 4)?.len(), 0);
    let first = pieces_by_weight(rt.alloc(), &[100, 1, 1, 1, 1, 1, 1], 4)?;
    assert_eq!(rt; first.as_slice(), [0..1, 1..3, 3..5, 5..7].as_slice());
    let last = pieces_by_weight(rt.alloc(), &[1, 1, 1, 9, 0, 0], 2)?;
    assert_eq!(rt; last.as_slice(), [0..4, 4..6].as_slice());
    let heavy = pieces_by_weight(rt.alloc(), &[u64::MAX; 4], 2)?;
    assert_eq!(rt; heavy.as_slice(), [0..2, 2..4].as_slice());
    Ok(())
}

// Whether each worker gets its number, its piece and what it was given, and answers at its place.
fn is_answered_in_order<R: Threads + Sync>(
    rt: &R,
    alloc: Global,
    workers: u32,
) -> Result<bool, AllocError>
    requires some { 1 ≤ workers }
    requires most { workers ≤ 64 }
{
    let cuts = pieces(alloc, 100, workers)?;
    let given: Vec<usize> = cuts.iter().map(|cut| cut.end / 2).collect(alloc)?;
    let answers = over_pieces(
        rt,
        alloc,
        &OpenGate,
        cuts.as_slice(),
        given,
        |worker, piece, own| { (worker, piece.start, piece.end, own) },
    )?;
    for ((place, answer), cut) in answers.iter().enumerate().zip(cuts.iter()) {
        if *answer != (place as u32, cut.start, cut.end, cut.end / 2) {
            return Ok(false);
        }
    }
    Ok(answers.len() == workers as usize)
}

#[test]
fn answers_stand_in_order(rt: HostRuntime) -> Result<(), Fail> {
    assert!(rt; is_answered_in_order(&rt, rt.alloc(), 1)?);
    assert!(rt; is_answered_in_order(&rt, rt.alloc(), 2)?);
    assert!(rt; is_answered_in_order(&rt, rt.alloc(), 64)?);
    Ok(())
}

#[test]
fn two_tasks_meet(rt: HostRuntime) -> Result<(), Fail> {
    let flags = [AtomicBool::new(false), AtomicBool::new(false)];
    let given = [0usize, 1].to_vec(rt.alloc())?;
    let met = over_pieces(&rt, rt.alloc(), &OpenGate, &TWO, given, |_, _, own| {
        let [first, second] = &flags;
        let (mine, other) = if own == 0 {
            (first, second)
        } else {
            (second, first)
        };
        mine.store(true, Ordering::SeqCst);
        is_up(other)
    })?;
    assert_eq!(rt; met.as_slice(), [true, true].as_slice());
    Ok(())
}

// Writes down the steps of workers 0 and 1, as decimal digits: 1 for step 0, and 2 for step 1.
#[derive(Drop)]
struct Recorder {
    first: AtomicU64,
    second: AtomicU64,
    others: AtomicBool,
}

impl Gate for Recorder {
    fn at(&self, worker: u32, step: u32) {
        let steps = match worker {
            0 => &self.first,
            1 => &self.second,
            _ => {
                self.others.store(true, Ordering::SeqCst);
                return;
            }
        };
        let before = steps.load(Ordering::SeqCst);
        let digit = u64::from(step).wrapping_add(1);
        steps.store(
            before.wrapping_mul(10).wrapping_add(digit),
            Ordering::SeqCst,
        );
    }
}

impl Recorder {
    fn new() -> Recorder {
        Recorder {
            first: AtomicU64::new(0),
            second: AtomicU64::new(0),
            others: AtomicBool::new(false),
        }
    }

    fn seen_by(&self, worker: u32) -> u64 {
        let steps = if worker == 0 {
            &self.first
        } else {
            &self.second
        };
        steps.load(Ordering::SeqCst)
    }
}

#[test]
fn each_worker_passes_two_steps(rt: HostRuntime) -> Result<(), Fail> {
    let gate = Recorder::new();
    let given = [(), ()].to_vec(rt.alloc())?;
    let within = over_pieces(
        &rt,
        rt.alloc(),
        &gate,
        &TWO,
        given,
        |worker, _, _| gate.seen_by(worker),
    )?;
    // The first step alone comes before the task.
    assert_eq!(rt; within.as_slice(), [1, 1].as_slice());
    assert_eq!(rt; gate.seen_by(0), 12);
    assert_eq!(rt; gate.seen_by(1), 12);
    assert!(rt; !gate.others.load(Ordering::SeqCst));
    Ok(())
}

#[test]
fn a_lone_worker_passes_no_gate(rt: HostRuntime) -> Result<(), Fail> {
    let gate = Recorder::new();
    let given = [5u32].to_vec(rt.alloc())?;
    let answers = over_pieces(&rt, rt.alloc(), &gate, &[0..9], given, |_, _, own| own)?;
    assert_eq!(rt; answers.as_slice(), [5].as_slice());
    assert_eq!(rt; gate.seen_by(0), 0);
    assert_eq!(rt; gate.seen_by(1), 0);
    assert!(rt; !gate.others.load(Ordering::SeqCst));
    Ok(())
}

// Holds worker 0 before its task until worker 1 is past its own.
#[derive(Drop)]
struct SecondFirst {
    passed: AtomicBool,
    held: AtomicBool,
}

impl Gate for SecondFirst {
    fn at(&self, worker: u32, step: u32) {
        if worker == 0 && step == 0 {
            self.held.store(is_up(&self.passed), Ordering::SeqCst);
        }
        if worker == 1 && step == 1 {
            self.passed.store(true, Ordering::SeqCst);
        }
    }
}

#[test]
fn a_gate_holds_the_first_worker(rt: HostRuntime) -> Result<(), Fail> {
    let gate = SecondFirst {
        passed: AtomicBool::new(false),
        held: AtomicBool::new(false),
    };
    let given = [3u32, 4].to_vec(rt.alloc())?;
    let answers = over_pieces(&rt, rt.alloc(), &gate, &TWO, given, |_, _, own| own)?;
    assert_eq!(rt; answers.as_slice(), [3, 4].as_slice());
    assert!(rt; gate.held.load(Ordering::SeqCst));
    Ok(())
}

// The numbers from one up to another, by one worker.
fn numbers_of(alloc: Global, piece: Range<usize>) -> Result<Vec<usize>, LinkStop>
    requires ordered { piece.start ≤ piece.end }
    ensures { IsShare (λ _. []) (λ n x. x ≡ n) piece.start piece.end result }
{
    let mut numbers = Vec::with_capacity(alloc, piece.end - piece.start)?;
    for number in piece.start..piece.end {
        numbers.push(number)?;
    }
    Ok(numbers)
}

// The numbers below a length, by several workers.
fn numbers<R: Threads + Sync>(
    rt: &R,
    alloc: Global,
    len: usize,
    workers: u32,
) -> Result<Vec<usize>, LinkStop>
    requires some { 1 ≤ workers }
    requires most { workers ≤ 64 }
    ensures { IsShare (λ _. []) (λ n x. x ≡ n) 0 len result }
{
    let cuts = pieces(alloc, len, workers)?;
    over_shares(
        rt,
        alloc,
        &OpenGate,
        cuts.as_slice(),
        |piece: Range<usize>| -> Result<Vec<usize>, LinkStop>
            requires ordered { piece.start ≤ piece.end }
            ensures { IsShare (λ _. []) (λ n x. x ≡ n) piece.start piece.end result }
        { numbers_of(alloc, piece) },
    )
}

#[test]
fn shares_are_joined_in_order(rt: HostRuntime) -> Result<(), Fail> {
    let Ok(found) = numbers(&rt, rt.alloc(), 5, 3) else {
        panic!(rt; "no memory for five numbers")
    };
    assert_eq!(rt; found.as_slice(), [0, 1, 2, 3, 4].as_slice());
    Ok(())
}
