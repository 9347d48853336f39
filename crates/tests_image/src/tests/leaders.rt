//! The leaders of items and the steps that they took, the same by one worker, by two, by three and by 64.

ghost use Rattle.std.specs.Prelude.{◌≡◌, ◌+◌, ◌<◌, ◌≤◌, ◌^◌, length, OnOk};
ghost use Rattle.std.specs.List.{range_with_len};
ghost use Rattle.link_sections.specs.FoldItems.{item_views, sections_of};

use elf_bytes::record;
use icf_part::{Steps, fold};
use link_sections::{FoldItem, FoldReloc, Target};
use lk_base::SecNo;
use std::alloc::{AllocError, Global};
use std::marker::Brand;
use std::sync::ledger::{Blank, Ledger};
use std::test::Fail;
use std::thread::Threads;
use work_split::OpenGate;

/// Adds code that calls a section, as the section of the next number.
fn add<'a>(
    items: &mut Vec<FoldItem<'a>>,
    alloc: Global,
    bytes: &'a [u8],
    target: SecNo,
) -> Result<(), AllocError>
    requires few { length items.old.items + 1 < 2 ^ 31 }
    requires numbered { sections_of (item_views items.old.items) ≡ range_with_len 0 (length items.old.items) }
    ensures longer { OnOk result (length items.new.items ≡ length items.old.items + 1) }
    ensures numbered { OnOk result (sections_of (item_views items.new.items) ≡ range_with_len 0 (length items.new.items)) }
{
    let mut relocs = Vec::new(alloc);
    relocs.push(
        record!(FoldReloc; offset: 0, kind: 19, addend: 0, is_section_symbol: false,
        target: Some(Target::Section { section: target, offset: 0, rest: 0 })),
    )?;
    let section = items.len() as u32;
    items.push(
        record!(FoldItem; section: section, bytes: bytes, flags: 6, sh_type: 1, align: 2, output: b".text", own: 1,
        frames: Vec::new(alloc), relocs: relocs),
    )?;
    Ok(())
}

/// Whether so many workers find these leaders, in so many steps.
fn leads_by<R: Threads + Sync, L: Ledger>(
    rt: &R,
    alloc: Global,
    items: &[FoldItem],
    leaders: &[u32],
    count: u64,
    workers: u32,
    blank: Blank,
) -> Result<bool, AllocError>
    requires some { 1 ≤ workers }
    requires most { workers ≤ 64 }
    requires few { length items.now < 2 ^ 31 }
    requires numbered { sections_of (item_views items.now) ≡ range_with_len 0 (length items.now) }
    requires name { blank.name ≡ L.name }
    requires parts { blank.parts ≡ L.parts }
    requires part { 0 < L.parts }
{
    let mut steps: Steps<L> = Steps::open(blank);
    let found = fold(rt, alloc, items, workers, &OpenGate, &mut steps)?;
    Ok(found.as_slice() == leaders && steps.taken() == count)
}

/// Whether so many workers find these leaders, in so many steps of a ledger of its own.
fn leads_in<R: Threads + Sync>(
    rt: &R,
    alloc: Global,
    items: &[FoldItem],
    leaders: &[u32],
    count: u64,
    workers: u32,
) -> Result<bool, AllocError>
    requires some { 1 ≤ workers }
    requires most { workers ≤ 64 }
    requires few { length items.now < 2 ^ 31 }
    requires numbered { sections_of (item_views items.now) ≡ range_with_len 0 (length items.now) }
{
    leads_by::<R, Brand>(rt, alloc, items, leaders, count, workers, Blank::new(1))
}

/// Whether one worker, two, three and 64 find these leaders, each in so many steps.
fn leads<R: Threads + Sync>(
    rt: &R,
    alloc: Global,
    items: &[FoldItem],
    leaders: &[u32],
    count: u64,
) -> Result<bool, AllocError>
    requires few { length items.now < 2 ^ 31 }
    requires numbered { sections_of (item_views items.now) ≡ range_with_len 0 (length items.now) }
{
    Ok(
        leads_in(rt, alloc, items, leaders, count, 1)?
            && leads_in(rt, alloc, items, leaders, count, 2)?
            && leads_in(rt, alloc, items, leaders, count, 3)?
            && leads_in(rt, alloc, items, leaders, count, 64)?,
    )
}

// No items: no step.
#[test]
fn none_are_folded_in_no_step(rt: HostRuntime) -> Result<(), Fail> {
    let alloc = rt.alloc();
    let items = Vec::new(alloc);
    assert!(rt; leads(&rt, alloc, items.as_slice(), &[], 0)?);
    Ok(())
}

// Two pairs of functions that call each other: no class is split.
#[test]
fn pairs_that_call_each_other(rt: HostRuntime) -> Result<(), Fail> {
    let alloc = rt.alloc();
    let mut items = Vec::new(alloc);
    add(&mut items, alloc, b"f", 1)?;
    add(&mut items, alloc, b"g", 0)?;
    add(&mut items, alloc, b"f", 3)?;
    add(&mut items, alloc, b"g", 2)?;
    assert!(rt; leads(&rt, alloc, items.as_slice(), &[0, 1, 0, 1], 0)?);
    Ok(())
}

// A function that calls itself, and one that calls it.
#[test]
fn a_function_that_calls_itself(rt: HostRuntime) -> Result<(), Fail> {
    let alloc = rt.alloc();
    let mut items = Vec::new(alloc);
    add(&mut items, alloc, b"f", 0)?;
    add(&mut items, alloc, b"f", 0)?;
    assert!(rt; leads(&rt, alloc, items.as_slice(), &[0, 0], 0)?);
    Ok(())
}

// Each of a thousand functions calls the next one, and the last one that has other bytes: no two are one, and their class is split 999 times.
#[test]
fn a_chain_is_not_folded(rt: HostRuntime) -> Result<(), Fail> {
    let alloc = rt.alloc();
    let mut items = Vec::new(alloc);
    let mut leaders = Vec::new(alloc);
    for n in 0..1000u32 {
        add(&mut items, alloc, b"f", n + 1)?;
        leaders.push(n)?;
    }
    add(&mut items, alloc, b"end", 1000)?;
    leaders.push(1000)?;
    assert!(rt; leads(&rt, alloc, items.as_slice(), leaders.as_slice(), 999)?);
    Ok(())
}
