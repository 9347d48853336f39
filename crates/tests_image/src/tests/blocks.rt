//! An executable is the same by blocks of any length and order as by one block; a block is refused for a relocation that touches it alone.

ghost use Rattle.std.specs.Prelude.{◌≡◌, ◌≤◌};
ghost use Rattle.elf_out.specs.Prepared.{IsPreparedFor};

use super::examples::{Example, OF_THREE_BLOCKS, SMALL, WITH_DEFECTS};
use super::links::{Asked, PLAIN, inputs_of, run_passes};
use super::shortened::SHORTENED;
use elf_bytes::{Image, image_of, record};
use elf_out::{Prepared, block, fill_window, headers};
use link_driver::Options;
use link_sections::View;
use lk_base::kinds::{NO_PARTNER, ODD, RANGE};
use lk_base::{Defect, LinkStop};
use lk_tables::FrameBytes;
use reloc_apply::{apply, write_block};
use std::alloc::{AllocError, Global};
use std::test::Fail;
use std::thread::Threads;
use work_split::OpenGate;

/// How many bytes the sections of an executable have in the file, and the lengths of blocks, from the first one on and below the second one.
#[derive(Clone, Copy)]
pub struct Lengths {
    pub written: usize,
    pub from: usize,
    pub to: usize,
}

/// The order in which blocks are written.
#[derive(Clone, Copy)]
enum Order {
    Forwards,
    Backwards,
    EverySecondFirst,
}

/// How a block is written: with no test, or with one before it.
#[derive(Clone, Copy)]
enum Way {
    Write,
    Apply,
}

const WAYS: [(Order, Way); 6] = [
    (Order::Forwards, Way::Write),
    (Order::Backwards, Way::Write),
    (Order::EverySecondFirst, Way::Write),
    (Order::Forwards, Way::Apply),
    (Order::Backwards, Way::Apply),
    (Order::EverySecondFirst, Way::Apply),
];

/// The number of the block that comes after `turn` others, of so many.
fn number_at(order: Order, turn: usize, count: usize) -> usize {
    let seconds = count / 2;
    match order {
        Order::Forwards => turn,
        Order::Backwards => count.wrapping_sub(turn).wrapping_sub(1),
        Order::EverySecondFirst if turn < seconds => turn.wrapping_mul(2).wrapping_add(1),
        Order::EverySecondFirst => turn.wrapping_sub(seconds).wrapping_mul(2),
    }
}

/// Writes the block of a number, of blocks of one length.
fn write_one(
    out: &mut Vec<u8>,
    number: usize,
    len: usize,
    way: Way,
    view: &View,
) -> Result<(), LinkStop> {
    let from = number.wrapping_mul(len).min(out.len());
    let to = from + len.min(out.len() - from);
    match way {
        Way::Write => write_block(&mut out[from..to], from as u64, view),
        Way::Apply => apply(&mut out[from..to], from as u64, view)?,
    }
    Ok(())
}

/// The bytes `start` with all blocks of one length written over them; the last one may be empty.
fn by_blocks(
    alloc: Global,
    start: &[u8],
    len: usize,
    manner: (Order, Way),
    view: &View,
) -> Result<Vec<u8>, LinkStop>
    requires { 1 ≤ len }
{
    let (order, way) = manner;
    let mut out = Vec::from_slice(alloc, start)?;
    let count = (out.len() / len).wrapping_add(1);
    for turn in 0..count {
        write_one(&mut out, number_at(order, turn, count), len, way, view)?;
    }
    Ok(out)
}

/// Whether blocks of one length give the whole, in each order.
fn each_way_gives(
    alloc: Global,
    start: &[u8],
    len: usize,
    view: &View,
    whole: &[u8],
) -> Result<bool, LinkStop>
    requires { 1 ≤ len }
{
    for way in WAYS {
        if by_blocks(alloc, start, len, way, view)?.as_slice() != whole {
            return Ok(false);
        }
    }
    Ok(true)
}

/// Bytes of one kind, with all sections written over them as one block.
fn by_one_block(alloc: Global, byte: u8, len: usize, view: &View) -> Result<Vec<u8>, LinkStop> {
    let mut out = vec![in alloc; byte; len]?;
    write_one(&mut out, 0, len, Way::Write, view)?;
    Ok(out)
}

/// Whether the bytes that two writings have in common are so many, and those of the executable.
fn common_are(exe: &[u8], one: &[u8], other: &[u8], written: usize) -> bool {
    let mut count = 0usize;
    for ((a, b), byte) in one.iter().zip(other).zip(exe) {
        if a == b {
            count = count.wrapping_add(1);
            if a != byte {
                return false;
            }
        }
    }
    count == written
}

/// Whether the sections are the same by blocks of each length as by one, and those of the executable.
fn sections_agree(
    alloc: Global,
    view: &View,
    exe: &[u8],
    lengths: Lengths,
) -> Result<bool, LinkStop> {
    let start = vec![in alloc; 0xa5u8; exe.len()]?;
    let whole = by_one_block(alloc, 0xa5, exe.len(), view)?;
    let other = by_one_block(alloc, 0x5a, exe.len(), view)?;
    for len in lengths.from.max(1)..lengths.to {
        if !each_way_gives(alloc, &start, len, view, &whole)? {
            return Ok(false);
        }
    }
    Ok(common_are(exe, &whole, &other, lengths.written))
}

/// The executable as one window.
pub fn whole_of<R: Threads + Sync>(
    rt: &R,
    alloc: Global,
    view: &View,
    frames: &FrameBytes,
    prepared: &Prepared,
) -> Result<Vec<u8>, AllocError>
    requires { IsPreparedFor view.now prepared.now }
{
    let mut exe = vec![in alloc; 0u8; prepared.file_length() as usize]?;
    fill_window(rt, &mut exe, view, frames, prepared, 0, &OpenGate);
    Ok(exe)
}

/// Whether a block of the file, or its first bytes, at most so many, are those of the executable.
fn block_agrees(
    alloc: Global,
    view: &View,
    frames: &FrameBytes,
    prepared: &Prepared,
    exe: &[u8],
    k: u64,
    most: u64,
) -> Result<bool, LinkStop>
    requires { IsPreparedFor view.now prepared.now }
{
    let end = prepared.file_length();
    if k > end / 65536 {
        return Ok(false);
    }
    let from = 65536 * k;
    let size = most.min(end - from);
    let mut out = vec![in alloc; 0xa5u8; size as usize]?;
    block(view, frames, prepared, k, &mut out)?;
    Ok(exe.iter().skip(from as usize).take(size as usize).eq(&out))
}

/// Lengths of blocks of the file.
const LENGTHS: [u64; 6] = [65536, 65535, 4096, 64, 1, 0];

/// Whether a block of the file agrees with the executable by each length.
fn block_agrees_by_each(
    alloc: Global,
    view: &View,
    frames: &FrameBytes,
    prepared: &Prepared,
    exe: &[u8],
    k: u64,
) -> Result<bool, LinkStop>
    requires { IsPreparedFor view.now prepared.now }
{
    for most in LENGTHS {
        if !block_agrees(alloc, view, frames, prepared, exe, k, most)? {
            return Ok(false);
        }
    }
    Ok(true)
}

/// Whether the file by blocks, its length and its headers are those of the executable.
fn file_agrees(
    alloc: Global,
    view: &View,
    frames: &FrameBytes,
    prepared: &Prepared,
    exe: &[u8],
) -> Result<bool, LinkStop>
    requires { IsPreparedFor view.now prepared.now }
{
    let start = headers(alloc, view, &prepared.tables)?;
    let length = prepared.file_length();
    for k in 0..=length / 65536 {
        if !block_agrees_by_each(alloc, view, frames, prepared, exe, k)? {
            return Ok(false);
        }
    }
    Ok(length == exe.len() as u64 && exe.starts_with(&start))
}

/// Whether an executable is the same by blocks of these lengths.
pub fn blocks_agree(
    alloc: Global,
    view: &View,
    frames: &FrameBytes,
    prepared: &Prepared,
    exe: &[u8],
    lengths: Option<Lengths>,
) -> Result<bool, LinkStop>
    requires { IsPreparedFor view.now prepared.now }
{
    let Some(lengths) = lengths else {
        return Ok(true);
    };
    Ok(
        file_agrees(alloc, view, frames, prepared, exe)?
            && sections_agree(alloc, view, exe, lengths)?,
    )
}

/// The first bytes of a block, at most so many, and the defect for which they are refused, if there is one.
#[derive(Clone, Copy)]
pub struct Slice {
    pub k: u64,
    pub most: u64,
    pub defect: Option<Defect>,
}

/// Whether the first bytes of a block are those of the executable, or refused for their defect.
fn slice_agrees(
    alloc: Global,
    view: &View,
    frames: &FrameBytes,
    prepared: &Prepared,
    exe: &[u8],
    slice: Slice,
) -> Result<bool, AllocError>
    requires { IsPreparedFor view.now prepared.now }
{
    match block_agrees(alloc, view, frames, prepared, exe, slice.k, slice.most) {
        Ok(agrees) => Ok(agrees && slice.defect.is_none()),
        Err(LinkStop::Defect(defect)) => Ok(slice.defect == Some(defect)),
        Err(LinkStop::Memory) => Err(AllocError),
    }
}

/// Whether each slice is that of the executable, or refused for its defect.
pub fn slices_agree(
    alloc: Global,
    view: &View,
    frames: &FrameBytes,
    prepared: &Prepared,
    exe: &[u8],
    slices: &[Slice],
) -> Result<bool, AllocError>
    requires { IsPreparedFor view.now prepared.now }
{
    for slice in slices {
        if !slice_agrees(alloc, view, frames, prepared, exe, *slice)? {
            return Ok(false);
        }
    }
    Ok(true)
}

/// Whether an executable is the one that was worked out by hand, where one was.
fn is_expected(alloc: Global, image: Option<&Image>, exe: &[u8]) -> Result<bool, AllocError> {
    let Some(image) = image else {
        return Ok(true);
    };
    Ok(image_of(alloc, image)?.as_slice() == exe)
}

/// Whether the executable of an example, of which equal code is folded, is.
fn example_agrees<R: Threads + Sync>(
    rt: &R,
    alloc: Global,
    example: &Example,
) -> Result<bool, LinkStop> {
    let inputs = inputs_of(alloc, example.objects)?;
    let asked =
        record!(Asked, PLAIN => options: record!(Options, PLAIN.options => icf: true), lengths: Some(example.lengths));
    let made = run_passes(rt, alloc, &inputs, &asked)?;
    let expected = is_expected(alloc, example.image, &made.written.exe)?;
    Ok(expected && made.written.agrees)
}

#[test]
fn blocks_of_any_length_agree(rt: HostRuntime) -> Result<(), Fail> {
    let agrees = example_agrees(&rt, rt.alloc(), &SMALL);
    assert!(rt; agrees == Ok(true), "{agrees:?}");
    Ok(())
}

/// Nops stay, calls become one instruction, a word means a byte of a pool, and a load goes by the linker's table.
#[test]
fn blocks_of_shortened_code_agree(rt: HostRuntime) -> Result<(), Fail> {
    let agrees = example_agrees(&rt, rt.alloc(), &SHORTENED);
    assert!(rt; agrees == Ok(true), "{agrees:?}");
    Ok(())
}

#[test]
fn blocks_of_a_long_file_agree(rt: HostRuntime) -> Result<(), Fail> {
    let agrees = example_agrees(&rt, rt.alloc(), &OF_THREE_BLOCKS);
    assert!(rt; agrees == Ok(true), "{agrees:?}");
    Ok(())
}

/// A number of 64 bits for a field of 32, at offset 4 of the data, which stand at 65,536 of the file.
const TOO_WIDE: Defect =
    record!(Defect; kind: RANGE, file: 0, section: 2, place: 4, symbol: 5, other: 0xfedc_ba98_7654_3210);
/// Another, over the end of the second block.
const OVER_THE_END: Defect = record!(Defect, TOO_WIDE => place: 0xfffe);
/// A jump in the fourth block back to offset 3.
const ODD_JUMP: Defect =
    record!(Defect, TOO_WIDE => kind: ODD, place: 0x2_0008, symbol: 4, other: 0xffff_ffff_fffd_fffb);
/// A lower part in the fifth block.
const LOWER_ALONE: Defect =
    record!(Defect, TOO_WIDE => kind: NO_PARTNER, place: 0x3_0004, symbol: 4, other: 0);

macro_rules! slices {
    ($($k:literal, $most:literal => $defect:expr);+ $(;)?) => {
        [$(Slice { k: $k, most: $most, defect: $defect }),+]
    };
}

/// Slices of a link of which four relocations can't be done.
const SLICES: [Slice; 11] = slices![
    0, 65536 => None; 1, 4 => None; 1, 5 => Some(TOO_WIDE); 1, 65536 => Some(TOO_WIDE); 2, 0 => None; 2, 1 => Some(OVER_THE_END);
    2, 65536 => Some(OVER_THE_END); 3, 8 => None; 3, 9 => Some(ODD_JUMP); 4, 4 => None; 4, 65536 => Some(LOWER_ALONE);
];

/// Where nothing was tested before, a block is refused for the first relocation that touches it and can't be done, and for no other.
#[test]
fn blocks_are_refused_for_what_touches_them(rt: HostRuntime) -> Result<(), Fail> {
    let inputs = inputs_of(rt.alloc(), &WITH_DEFECTS)?;
    let asked = record!(Asked, PLAIN => slices: &SLICES);
    let made = run_passes(&rt, rt.alloc(), &inputs, &asked)?;
    assert!(rt; made.written.agrees);
    let tested = run_passes(&rt, rt.alloc(), &inputs, &PLAIN);
    assert!(rt; tested.err() == Some(LinkStop::Defect(TOO_WIDE)));
    Ok(())
}
