//! One worker, two and 64 keep the same sections.

ghost use Rattle.std.specs.Prelude.{◌≡◌, ◌+◌, ◌<◌, ◌≤◌, ◌∷◌, [], All, length, IfOk, OnOk};
ghost use Rattle.link_sections.specs.Edges.{ends_of};

use elf_bytes::record;
use flat_rows::Rows;
use link_sections::Edges;
use lk_base::SecNo;
use sec_gc::{Marks, keep};
use std::alloc::{AllocError, Global};
use std::hint;
use std::sync::atomic::{AtomicU64, Ordering};
use std::test::Fail;
use std::thread::Threads;
use work_split::{Gate, OpenGate};

/// Adds the ends of one of so many sections.
fn push_row(rows: &mut Rows<SecNo>, row: &[SecNo], count: u32) -> Result<(), AllocError>
    requires row { All (λ end. end < count) row.now }
    requires rows { All (All (λ end. end < count)) rows.old }
    ensures rows { OnOk result (All (All (λ end. end < count)) rows.new) }
    ensures longer { OnOk result (length rows.new ≡ length rows.old + 1) }
{
    rows.push(row)?;
    Ok(())
}

/// The edges of five sections.
fn five(
    alloc: Global,
    first: &[SecNo],
    second: &[SecNo],
    third: &[SecNo],
    fourth: &[SecNo],
    fifth: &[SecNo],
) -> Result<Edges, AllocError>
    requires first { All (λ end. end < 5) first.now }
    requires second { All (λ end. end < 5) second.now }
    requires third { All (λ end. end < 5) third.now }
    requires fourth { All (λ end. end < 5) fourth.now }
    requires fifth { All (λ end. end < 5) fifth.now }
    ensures { IfOk result (λ edges. length (ends_of edges) ≡ 5) }
{
    let mut rows = Rows::empty(alloc)?;
    push_row(&mut rows, first, 5)?;
    push_row(&mut rows, second, 5)?;
    push_row(&mut rows, third, 5)?;
    push_row(&mut rows, fourth, 5)?;
    push_row(&mut rows, fifth, 5)?;
    Ok(Edges::from_rows(rows))
}

/// Whether these are kept, by one worker, by two and by 64.
fn keeps<R: Threads + Sync>(
    rt: &R,
    alloc: Global,
    roots: &[SecNo],
    edges: &Edges,
    kept: &[bool],
) -> Result<bool, AllocError>
    requires { All (λ r. r < length (ends_of edges.now)) roots.now }
{
    Ok(
        keep(rt, alloc, roots, edges, 1, &OpenGate)?.as_slice() == kept
            && keep(rt, alloc, roots, edges, 2, &OpenGate)?.as_slice() == kept
            && keep(rt, alloc, roots, edges, 64, &OpenGate)?.as_slice() == kept,
    )
}

// Sections 3 and 4 refer to each other, and nothing refers to them.
#[test]
fn a_chain_and_two_that_refer_to_each_other(rt: HostRuntime) -> Result<(), Fail> {
    let alloc = rt.alloc();
    let edges = five(alloc, &[1], &[2], &[0], &[4], &[3])?;
    assert!(rt; keeps(&rt, alloc, &[0], &edges, &[true, true, true, false, false])?);
    Ok(())
}

// Two sections lead to a third in 3,000 edges each; the third leads to a fourth, and a fifth to the first.
#[test]
fn a_star_of_many_edges(rt: HostRuntime) -> Result<(), Fail> {
    let alloc = rt.alloc();
    let many = vec![in alloc; 2u32; 3000]?;
    let edges = five(alloc, &many, &many, &[3], &[], &[0])?;
    let first_four = [true, true, true, true, false];
    let fourth = [false, false, false, true, false];
    assert!(rt; keeps(&rt, alloc, &[1, 0], &edges, &first_four)?);
    assert!(rt; keeps(&rt, alloc, &[3], &edges, &fourth)?);
    assert!(rt; keeps(&rt, alloc, &[], &edges, &[false; 5])?);
    Ok(())
}

// A root is won once, and so is the section to which it leads; nothing leads to the third.
#[test]
fn marks_of_three_sections(rt: HostRuntime) -> Result<(), Fail> {
    let alloc = rt.alloc();
    let edges = three(alloc)?;
    let roots = [0];
    let (marks, mut seat) = Marks::open(alloc, &roots, &edges)?;
    assert!(rt; marks.root(&mut seat, &roots, 0));
    assert!(rt; !marks.root(&mut seat, &roots, 0));
    assert!(rt; marks.mark(&mut seat, &edges, 0, 0));
    assert!(rt; !marks.mark(&mut seat, &edges, 1, 0));
    assert!(rt; marks.look(&mut seat, 1));
    assert!(rt; !marks.look(&mut seat, 2));
    let other = marks.split(&mut seat);
    marks.join(&mut seat, other);
    let marked = match marks.close(seat) {
        Ok(marked) => marked,
        Err((marks, seat)) => marks.close(seat).ok().ok_or("no memory")?,
    };
    assert!(rt; marked.as_slice() == [true, true, false].as_slice());
    Ok(())
}

/// The edges 0 to 1, 1 to 0 and 2 to 1.
fn three(alloc: Global) -> Result<Edges, AllocError>
    ensures { IfOk result (λ edges. ends_of edges ≡ (1 ∷ []) ∷ (0 ∷ []) ∷ (1 ∷ []) ∷ []) }
{
    let mut rows = Rows::empty(alloc)?;
    rows.push(&[1])?;
    rows.push(&[0])?;
    rows.push(&[1])?;
    Ok(Edges::from_rows(rows))
}

const SECTIONS: u32 = 50_000;

/// How sections lead to others.
#[derive(Clone, Copy)]
enum Shape {
    /// Each to the next one.
    Chain,
    /// Each to two others, as in a heap.
    Tree,
    /// Each to two others, by a linear congruence.
    Random,
}

/// The next number of a linear congruence.
fn next(number: u64) -> u64 {
    number
        .wrapping_mul(6364136223846793005)
        .wrapping_add(1442695040888963407)
}

/// The number of a section.
fn section_of(number: u64) -> SecNo
    ensures { result < SECTIONS }
{
    (number % u64::from(SECTIONS)) as u32
}

/// Where edge 1 or 2 of a section leads.
fn end_of(shape: Shape, section: u64, edge: u64) -> SecNo
    ensures { result < SECTIONS }
{
    let doubled = section.wrapping_mul(2).wrapping_add(edge);
    match shape {
        Shape::Chain => section_of(section.wrapping_add(1)),
        Shape::Tree => section_of(doubled),
        Shape::Random => section_of(next(doubled) >> 33),
    }
}

/// The edges of a graph: each section leads to two, to each by eight edges, so that several workers share what waits.
fn graph(alloc: Global, shape: Shape) -> Result<Edges, AllocError>
    ensures { IfOk result (λ edges. length (ends_of edges) ≡ SECTIONS) }
{
    let mut rows = Rows::empty(alloc)?;
    for section in 0..SECTIONS {
        let first = end_of(shape, u64::from(section), 1);
        let second = end_of(shape, u64::from(section), 2);
        let row = [
            first, second, first, second, first, second, first, second, first, second, first,
            second, first, second, first, second,
        ];
        push_row(&mut rows, &row, SECTIONS)?;
    }
    Ok(Edges::from_rows(rows))
}

fn all_sections(alloc: Global) -> Result<Vec<SecNo>, AllocError>
    ensures { IfOk result (λ list. All (λ end. end < SECTIONS) list.items) }
{
    let mut list = Vec::with_capacity(alloc, SECTIONS as usize)?;
    for section in 0..SECTIONS {
        list.push(section)?;
    }
    Ok(list)
}

/// The edges of a star: the first section leads to all, and each other to the first, by sixteen edges.
fn star(alloc: Global) -> Result<Edges, AllocError>
    ensures { IfOk result (λ edges. length (ends_of edges) ≡ SECTIONS) }
{
    let mut rows = Rows::empty(alloc)?;
    let all = all_sections(alloc)?;
    push_row(&mut rows, &all, SECTIONS)?;
    for section in 1..SECTIONS {
        push_row(
            &mut rows,
            table![0; 0; 0; 0; 0; 0; 0; 0; 0; 0; 0; 0; 0; 0; 0; 0],
            SECTIONS,
        )?;
    }
    Ok(Edges::from_rows(rows))
}

/// One number for a list of marks.
fn digest(marks: &[bool]) -> u64 {
    let mut sum: u64 = 0;
    for mark in marks {
        sum = sum.wrapping_mul(31).wrapping_add(u64::from(*mark));
    }
    sum
}

/// Holds one worker before its task until another one is past its own, or for a while.
#[derive(Drop)]
struct Holder {
    held: u32,
    passed: AtomicU64,
}

const TURNS: u32 = 1_000_000;

impl Gate for Holder {
    fn at(&self, worker: u32, step: u32) {
        if worker != self.held && step == 1 {
            self.passed.store(1, Ordering::SeqCst);
        }
        if worker == self.held && step == 0 {
            for _ in 0..TURNS {
                if self.passed.load(Ordering::SeqCst) == 1 {
                    return;
                }
                hint::spin_loop();
            }
        }
    }
}

/// Whether what is reached from the first section has a digest, by 1, 2, 3 and 64 workers, and with one of three held.
fn is_reached<R: Threads + Sync>(
    rt: &R,
    alloc: Global,
    edges: &Edges,
    wanted: u64,
) -> Result<bool, AllocError>
    requires { length (ends_of edges.now) ≡ SECTIONS }
{
    let first = record!(Holder; held: 0, passed: AtomicU64::new(0));
    let second = record!(Holder; held: 1, passed: AtomicU64::new(0));
    Ok(
        digest(&keep(rt, alloc, &[0], edges, 1, &OpenGate)?) == wanted
            && digest(&keep(rt, alloc, &[0], edges, 2, &OpenGate)?) == wanted
            && digest(&keep(rt, alloc, &[0], edges, 3, &OpenGate)?) == wanted
            && digest(&keep(rt, alloc, &[0], edges, 64, &OpenGate)?) == wanted
            && digest(&keep(rt, alloc, &[0], edges, 3, &first)?) == wanted
            && digest(&keep(rt, alloc, &[0], edges, 3, &second)?) == wanted,
    )
}

// The digests were computed by another program.
#[test]
fn graphs_of_many_sections(rt: HostRuntime) -> Result<(), Fail> {
    let alloc = rt.alloc();
    let whole = 4959647057589556480;
    assert!(rt; is_reached(&rt, alloc, &graph(alloc, Shape::Chain)?, whole)?);
    assert!(rt; is_reached(&rt, alloc, &graph(alloc, Shape::Tree)?, whole)?);
    assert!(rt; is_reached(&rt, alloc, &star(alloc)?, whole)?);
    let random = graph(alloc, Shape::Random)?;
    assert!(rt; is_reached(&rt, alloc, &random, 13511875414010981575)?);
    Ok(())
}

/// Counts the steps of three workers, one count for each.
#[derive(Drop)]
struct Steps {
    first: AtomicU64,
    second: AtomicU64,
    third: AtomicU64,
}

impl Gate for Steps {
    fn at(&self, worker: u32, _step: u32) {
        let count = match worker {
            0 => &self.first,
            1 => &self.second,
            _ => &self.third,
        };
        count.store(
            count.load(Ordering::SeqCst).wrapping_add(1),
            Ordering::SeqCst,
        );
    }
}

/// How many steps each of so many workers makes, three at most.
fn steps_of<R: Threads + Sync>(
    rt: &R,
    alloc: Global,
    edges: &Edges,
    workers: u32,
) -> Result<(u64, u64, u64), AllocError>
    requires some { 1 ≤ workers }
    requires most { workers ≤ 64 }
    requires sections { length (ends_of edges.now) ≡ SECTIONS }
{
    let steps =
        record!(Steps; first: AtomicU64::new(0), second: AtomicU64::new(0), third: AtomicU64::new(0));
    let _ = keep(rt, alloc, &[0], edges, workers, &steps)?;
    Ok((
        steps.first.load(Ordering::SeqCst),
        steps.second.load(Ordering::SeqCst),
        steps.third.load(Ordering::SeqCst),
    ))
}

// A chain is followed by the calling worker alone, which passes no gate, and so is what a star leads to if there are two workers. Three
// share it, and then the round that closes the marks, before and after each of which they pass it.
#[test]
fn three_workers_share_what_many_wait_for(rt: HostRuntime) -> Result<(), Fail> {
    let alloc = rt.alloc();
    let star = star(alloc)?;
    assert!(rt; steps_of(&rt, alloc, &graph(alloc, Shape::Chain)?, 3)? == (0, 0, 0));
    assert!(rt; steps_of(&rt, alloc, &star, 2)? == (0, 0, 0));
    assert!(rt; steps_of(&rt, alloc, &star, 3)? == (4, 4, 4));
    Ok(())
}
