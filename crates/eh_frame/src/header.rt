//! What `.eh_frame_hdr` holds: a table of the functions that have FDEs, in order of address.

ghost use Rattle.std.specs.Prelude.{◌≡◌, ◌+◌, ◌-◌, ◌^◌, ◌<◌, ◌≤◌, ◌≤ℤ◌, ◌+ℤ◌, ◌-ℤ◌, ◌++◌, pos, negsuc, unsigned_abs, length, map, take, drop, flat_map, IfOk, OnOk};
ghost use Rattle.std.specs.List.{All};
ghost use Rattle.byteorder.specs.Endian.{little_bytes};
ghost use Rattle.lk_base.specs.Order.{stable_order};
ghost use Rattle.lk_tables.specs.Frames.{AreInOrder, lists_of};
ghost use Rattle.link_sections.specs.Views.{by_view, files_in};
ghost use Rattle.eh_frame.specs.Bytes.{IsKnown};
ghost use Rattle.eh_frame.specs.Header as spec;
ghost use Rattle.eh_frame.specs.declared.placing.Placed.{Placed as PlacedOf};

use crate::contents::Starts;
use crate::format::{
    DW_EH_PE_DATAREL_SDATA4, DW_EH_PE_PCREL_SDATA4, DW_EH_PE_UDATA4, HEADER_VERSION,
};
use crate::lookups::{list_near, record_near};
use crate::placing::Placed;
use crate::reading::first_of;
use crate::sharing::{LEAST, run_of};
use crate::values::sum_in;
use link_sections::View;
use lk_base::{LinkStop, low_bits};
use lk_tables::Frames;
use std::alloc::{AllocError, Global};
use std::ops::Range;
use std::thread::Threads;
use work_split::{Gate, over_shares, pieces_of_least};

/// A line of the table.
#[derive(Clone, Copy)]
struct Row {
    /// The address of the function, and 2^64 more: none is as low as -2^64.
    key: u128,
    /// The low 4 bytes of its address from the header's start on.
    function: u32,
    /// The low 4 bytes of the address of its FDE from the header's start on.
    fde: u32,
}

/// The table of these FDEs; nothing if there is none.
pub fn header_bytes<R: Threads + Sync, G: Gate>(
    rt: &R,
    alloc: Global,
    view: &View,
    frames: &Frames,
    starts: Starts,
    fdes: &[Placed],
    workers: u32,
    gate: &G,
) -> Result<Vec<u8>, AllocError>
    requires some { 1 ≤ workers }
    requires most { workers ≤ 64 }
    requires order { AreInOrder (lists_of frames.now) }
    requires known { All (λ (p : PlacedOf). IsKnown (files_in view.now) (lists_of frames.now) p.number) fdes.now }
    ensures { IfOk result (λ out. out.items ≡ by_view spec.table_of view.now (lists_of frames.now) starts.header starts.frames fdes.now) }
{
    if fdes.len() == 0 {
        return Ok(Vec::new(alloc));
    }
    let mut out = Vec::with_capacity(alloc, fdes.len().saturating_mul(8).saturating_add(12))?;
    push_head(&mut out, starts, fdes.len())?;
    let rows = rows_of(rt, alloc, view, frames, starts, fdes, workers, gate)?;
    push_rows(&mut out, rows.as_slice())?;
    Ok(out)
}

/// Adds what stands before the lines: the version and the encodings, the distance to `.eh_frame`, and how many lines there are.
fn push_head(out: &mut Vec<u8>, starts: Starts, count: usize) -> Result<(), AllocError>
    ensures { OnOk result (out.new.items ≡ out.old.items ++ (spec.encodings ++ (spec.word (pos starts.frames -ℤ pos (starts.header + 4)) ++ spec.word (pos count)))) }
{
    out.extend_from_slice(&[
        HEADER_VERSION,
        DW_EH_PE_PCREL_SDATA4,
        DW_EH_PE_UDATA4,
        DW_EH_PE_DATAREL_SDATA4,
    ])?;
    push_low(out, starts.frames as i128 - (starts.header as i128 + 4))?;
    push_low(out, count as i128)?;
    Ok(())
}

/// Adds some lines.
fn push_rows(out: &mut Vec<u8>, rows: &[Row]) -> Result<(), AllocError>
    ensures { OnOk result (out.new.items ≡ out.old.items ++ flat_map spec.row_bytes rows.now) }
{
    for row in rows {
        push_word(out, row.function)?;
        push_word(out, row.fde)?;
    }
    Ok(())
}

/// The lines of some FDEs, in order of address and then of FDE.
fn rows_of<R: Threads + Sync, G: Gate>(
    rt: &R,
    alloc: Global,
    view: &View,
    frames: &Frames,
    starts: Starts,
    fdes: &[Placed],
    workers: u32,
    gate: &G,
) -> Result<Vec<Row>, AllocError>
    requires some { 1 ≤ workers }
    requires most { workers ≤ 64 }
    requires order { AreInOrder (lists_of frames.now) }
    requires known { All (λ (p : PlacedOf). IsKnown (files_in view.now) (lists_of frames.now) p.number) fdes.now }
    ensures { IfOk result (λ rows. rows.items ≡ stable_order spec.row_key (map (by_view spec.row_of view.now (lists_of frames.now) starts.header starts.frames) fdes.now)) }
{
    let mut rows = all_rows(rt, alloc, view, frames, starts, fdes, workers, gate)?;
    rows.sort_by_key(|row| row.key)?;
    Ok(rows)
}

/// The lines of some FDEs, in the order in which they are given. Each worker lists those of a run of them.
fn all_rows<R: Threads + Sync, G: Gate>(
    rt: &R,
    alloc: Global,
    view: &View,
    frames: &Frames,
    starts: Starts,
    fdes: &[Placed],
    workers: u32,
    gate: &G,
) -> Result<Vec<Row>, AllocError>
    requires some { 1 ≤ workers }
    requires most { workers ≤ 64 }
    requires order { AreInOrder (lists_of frames.now) }
    requires known { All (λ (p : PlacedOf). IsKnown (files_in view.now) (lists_of frames.now) p.number) fdes.now }
    ensures { IfOk result (λ rows. rows.items ≡ map (by_view spec.row_of view.now (lists_of frames.now) starts.header starts.frames) fdes.now) }
{
    let pieces = pieces_of_least(alloc, fdes.len(), LEAST, workers)?;
    let listed = over_shares(
        rt,
        alloc,
        gate,
        pieces.as_slice(),
        |piece: Range<usize>| -> Result<Vec<Row>, LinkStop>
            requires ordered { piece.start ≤ piece.end }
            requires within { piece.end ≤ length fdes.now }
            requires order { AreInOrder (lists_of frames.now) }
            requires known { All (λ (p : PlacedOf). IsKnown (files_in view.now) (lists_of frames.now) p.number) fdes.now }
            ensures { IfOk result (λ rows. rows.items ≡ map (by_view spec.row_of view.entry.now (lists_of frames.entry.now) starts.header starts.frames) (take (piece.end - piece.start) (drop piece.start fdes.entry.now))) }
        { Ok(rows_in(alloc, view, frames, starts, fdes, piece)?) },
    );
    match listed {
        Ok(rows) => Ok(rows),
        Err(_) => Err(AllocError),
    }
}

/// The lines of a run of FDEs.
fn rows_in(
    alloc: Global,
    view: &View,
    frames: &Frames,
    starts: Starts,
    fdes: &[Placed],
    piece: Range<usize>,
) -> Result<Vec<Row>, AllocError>
    requires ordered { piece.start ≤ piece.end }
    requires within { piece.end ≤ length fdes.now }
    requires order { AreInOrder (lists_of frames.now) }
    requires known { All (λ (p : PlacedOf). IsKnown (files_in view.now) (lists_of frames.now) p.number) fdes.now }
    ensures { IfOk result (λ rows. rows.items ≡ map (by_view spec.row_of view.now (lists_of frames.now) starts.header starts.frames) (take (piece.end - piece.start) (drop piece.start fdes.now))) }
{
    let own = run_of(fdes, piece.start, piece.end);
    let mut rows = Vec::with_capacity(alloc, own.len())?;
    push_all(&mut rows, view, frames, starts, own)?;
    Ok(rows)
}

/// Adds the lines of some FDEs, in the order in which they are given.
fn push_all(
    rows: &mut Vec<Row>,
    view: &View,
    frames: &Frames,
    starts: Starts,
    fdes: &[Placed],
) -> Result<(), AllocError>
    requires order { AreInOrder (lists_of frames.now) }
    requires known { All (λ (p : PlacedOf). IsKnown (files_in view.now) (lists_of frames.now) p.number) fdes.now }
    ensures { OnOk result (rows.new.items ≡ rows.old.items ++ map (by_view spec.row_of view.now (lists_of frames.now) starts.header starts.frames) fdes.now) }
{
    let mut list = 0;
    for fde in fdes {
        list = list_near(frames, fde.number.section, list);
        rows.push(row_of(view, frames, starts, fde, list))?;
    }
    Ok(())
}

/// The line of an FDE.
fn row_of(view: &View, frames: &Frames, starts: Starts, fde: &Placed, list: usize) -> Row
    requires order { AreInOrder (lists_of frames.now) }
    requires known { IsKnown (files_in view.now) (lists_of frames.now) fde.now.number }
    ensures { result ≡ by_view spec.row_of view.now (lists_of frames.now) starts.header starts.frames fde.now }
{
    let function = function_of(view, frames, fde, list);
    let at = starts.frames as i128 + fde.at as i128;
    Row {
        key: key_of(function),
        function: low_word(function - starts.header as i128),
        fde: low_word(at - starts.header as i128),
    }
}

/// The place of a function in the order of addresses.
fn key_of(function: i128) -> u128
    requires low { negsuc (2 ^ 63) ≤ℤ function }
    requires high { function ≤ℤ pos (2 ^ 67) }
    ensures { result ≡ unsigned_abs (function +ℤ pos (2 ^ 64)) }
{
    (function + 0x1_0000_0000_0000_0000) as u128
}

/// Where the function of an FDE starts: S + A of its PC Begin.
#[tactic(auto, unfolding(crate::specs::Header::function_of))]
fn function_of(view: &View, frames: &Frames, fde: &Placed, list: usize) -> i128
    requires order { AreInOrder (lists_of frames.now) }
    requires known { IsKnown (files_in view.now) (lists_of frames.now) fde.now.number }
    ensures value { result ≡ by_view spec.function_of view.now (lists_of frames.now) fde.now }
    ensures low { negsuc (2 ^ 63) ≤ℤ result }
    ensures high { result ≤ℤ pos (2 ^ 67) }
{
    let file = view.tables.place_of(fde.number.section).file;
    let record = record_near(frames, fde.number, list);
    match first_of(record.relocs.as_slice()) {
        Some(first) => sum_in(view, file, &first),
        None => 0,
    }
}

/// The low 4 bytes of a number.
#[tactic(auto, unfolding(crate::specs::Header::low_word))]
fn low_word(v: i128) -> u32
    ensures { result ≡ spec.low_word v }
{
    (low_bits(v) % 0x1_0000_0000) as u32
}

/// Adds the low 4 bytes of a number.
fn push_low(out: &mut Vec<u8>, v: i128) -> Result<(), AllocError>
    ensures { OnOk result (out.new.items ≡ out.old.items ++ spec.word v) }
{
    push_word(out, low_word(v))?;
    Ok(())
}

/// Adds the 4 bytes of a number.
fn push_word(out: &mut Vec<u8>, number: u32) -> Result<(), AllocError>
    ensures { OnOk result (out.new.items ≡ out.old.items ++ little_bytes 4 number) }
{
    out.extend_from_slice(&number.to_le_bytes())?;
    Ok(())
}
