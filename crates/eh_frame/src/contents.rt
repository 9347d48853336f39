//! What `.eh_frame` and `.eh_frame_hdr` hold.

ghost use Rattle.std.specs.Prelude.{◌≡◌, ◌==◌, ◌+◌, ◌-◌, ◌^◌, ◌<◌, ◌≤◌, ◌++◌, [], true, if◌then◌else◌, length, map, slice_index, take, drop, flat_map, vec_len, IfOk, OnOk};
ghost use Rattle.std.specs.List.{All, range_with_len};
ghost use Rattle.byteorder.specs.Endian.{little_bytes};
ghost use Rattle.lk_base.specs.Firsts.{Goes};
ghost use Rattle.lk_tables.specs.FramePlans.{plan_view};
ghost use Rattle.lk_tables.specs.Frames.{AreInOrder, AreListsWithin, lists_of};
ghost use Rattle.link_sections.specs.Views.{binding_in, by_view, files_in, laid_in, leaders_in};
ghost use Rattle.eh_frame.specs.Bytes as spec;
ghost use Rattle.eh_frame.specs.Header as headers;
ghost use Rattle.eh_frame.specs.Plan.{plan_of};
ghost use Rattle.eh_frame.specs.Shares as shares;
ghost use Rattle.eh_frame.specs.declared.placing.Placed.{Placed as PlacedOf};
ghost use Rattle.work_split.specs.Runs.{IsRun};

use crate::checking::first_defect;
use crate::cies::record_bytes;
use crate::header::header_bytes;
use crate::lookups::{list_near, record_near};
use crate::placing::{Placed, place};
use crate::relocating::relocate_from;
use crate::sharing::{LEAST, run_of};
use link_sections::View;
use lk_base::LinkStop;
use lk_tables::{FrameBytes, FramePlan, Frames};
use std::alloc::{AllocError, Global};
use std::ops::Range;
use std::thread::Threads;
use work_split::{Gate, over_shares, pieces_of_least};

/// What `.eh_frame` and `.eh_frame_hdr` hold (LSB Core, "Exception Frames"), as long as the plan says: the CIEs, the FDEs, each with the distance
/// to its CIE written anew, with their relocations done, and a Length of 0; and the table of the functions that have FDEs, in order of address.
/// Both are empty where no FDE is written. The records are shared among so many workers. A value that its relocation's field does not take is a
/// defect, of kind Range; the first in order of file, section and offset is the answer. Else the only error is out of memory.
pub fn write<R: Threads + Sync, G: Gate>(
    rt: &R,
    alloc: Global,
    view: &View,
    plan: &FramePlan,
    workers: u32,
    gate: &G,
) -> Result<FrameBytes, LinkStop>
    requires some { 1 ≤ workers }
    requires most { workers ≤ 64 }
    requires lists { AreListsWithin (files_in view.now) (lists_of plan.now.frames.now) }
    requires plan { plan_view plan.now ≡ plan_of (files_in view.now) (binding_in view.now) (laid_in view.now).merging.merged (lists_of plan.now.frames.now) (leaders_in view.now) }
    ensures goes { Goes result (by_view spec.frame_defects view.now (lists_of plan.now.frames.now) (plan_view plan.now) (laid_in view.now).bounds.frames) }
    ensures frame { IfOk result (λ bytes. bytes.frame.items ≡ by_view spec.frame_bytes view.now (lists_of plan.now.frames.now) (plan_view plan.now) (laid_in view.now).bounds.frames) }
    ensures header { IfOk result (λ bytes. bytes.header.items ≡ by_view headers.header_bytes view.now (lists_of plan.now.frames.now) (plan_view plan.now) (laid_in view.now).bounds.frame_header (laid_in view.now).bounds.frames) }
    ensures lengths { IfOk result (λ bytes. (length bytes.header.items ≡ plan.now.header_len) × (length bytes.frame.items ≡ plan.now.frame_len)) }
{
    let starts = starts_of(view);
    let placed = place(alloc, plan, plan.frame_len)?;
    let found = first_defect(
        rt,
        alloc,
        view,
        plan.frames,
        starts.frames,
        placed.as_slice(),
        workers,
        gate,
    )?;
    if let Some(defect) = found {
        return Err(LinkStop::Defect(defect));
    }
    let (cies, fdes) = placed.as_slice().split_at(plan.cies.len());
    let frame = frame_bytes(
        rt,
        alloc,
        view,
        plan,
        starts.frames,
        cies,
        fdes,
        workers,
        gate,
    )?;
    let header = header_bytes(rt, alloc, view, plan.frames, starts, fdes, workers, gate)?;
    Ok(FrameBytes { frame, header })
}

/// Where the two sections stand.
#[derive(Clone, Copy)]
pub struct Starts {
    /// The first address of `.eh_frame_hdr`.
    pub header: u64,
    /// The first address of `.eh_frame`.
    pub frames: u64,
}

/// Where the two sections of a link stand.
#[tactic(auto, unfolding(link_sections::specs::LaidOut::layout_view, link_sections::specs::LaidOut::with_contents))]
fn starts_of(view: &View) -> Starts
    ensures header { result.header ≡ (laid_in view.now).bounds.frame_header }
    ensures frames { result.frames ≡ (laid_in view.now).bounds.frames }
{
    Starts {
        header: view.layout.bounds.frame_header,
        frames: view.layout.bounds.frames,
    }
}

/// What `.eh_frame` holds, if it stands at an address; nothing if there is no FDE.
#[tactic(auto, unfolding(crate::specs::Bytes::frame_bytes))]
fn frame_bytes<R: Threads + Sync, G: Gate>(
    rt: &R,
    alloc: Global,
    view: &View,
    plan: &FramePlan,
    start: u64,
    cies: &[Placed],
    fdes: &[Placed],
    workers: u32,
    gate: &G,
) -> Result<Vec<u8>, AllocError>
    requires some { 1 ≤ workers }
    requires most { workers ≤ 64 }
    requires order { AreInOrder (lists_of plan.now.frames.now) }
    requires cies_are { cies.now ≡ spec.placed_cies (lists_of plan.now.frames.now) (plan_view plan.now) }
    requires fdes_are { fdes.now ≡ spec.placed_fdes (lists_of plan.now.frames.now) (plan_view plan.now) }
    requires known_cies { All (λ (p : PlacedOf). spec.IsKnown (files_in view.now) (lists_of plan.now.frames.now) p.number) cies.now }
    requires known_fdes { All (λ (p : PlacedOf). spec.IsKnown (files_in view.now) (lists_of plan.now.frames.now) p.number) fdes.now }
    requires uses { length plan.now.uses.items ≡ length fdes.now }
    ensures { IfOk result (λ out. out.items ≡ by_view spec.frame_bytes view.now (lists_of plan.now.frames.now) (plan_view plan.now) start) }
{
    if plan.fdes.len() == 0 {
        return Ok(Vec::new(alloc));
    }
    let mut out = records_bytes(
        rt,
        alloc,
        view,
        plan.frames,
        start,
        cies,
        fdes,
        plan.uses.as_slice(),
        workers,
        gate,
    )?;
    out.extend_from_slice(&[0, 0, 0, 0])?;
    Ok(out)
}

/// The bytes of some CIEs and, after them, of some FDEs, each with the number of its CIE. Each worker makes those of a run of the FDEs, and the
/// first those of the CIEs, too.
fn records_bytes<R: Threads + Sync, G: Gate>(
    rt: &R,
    alloc: Global,
    view: &View,
    frames: &Frames,
    start: u64,
    cies: &[Placed],
    fdes: &[Placed],
    uses: &[usize],
    workers: u32,
    gate: &G,
) -> Result<Vec<u8>, AllocError>
    requires some { 1 ≤ workers }
    requires most { workers ≤ 64 }
    requires order { AreInOrder (lists_of frames.now) }
    requires known_cies { All (λ (p : PlacedOf). spec.IsKnown (files_in view.now) (lists_of frames.now) p.number) cies.now }
    requires known_fdes { All (λ (p : PlacedOf). spec.IsKnown (files_in view.now) (lists_of frames.now) p.number) fdes.now }
    requires count { length uses.now ≡ length fdes.now }
    requires first { 0 < length fdes.now }
    ensures { IfOk result (λ out. out.items ≡ flat_map (by_view spec.cie_bytes view.now (lists_of frames.now) start) cies.now ++ by_view spec.fdes_bytes view.now (lists_of frames.now) start cies.now fdes.now uses.now) }
{
    let pieces = pieces_of_least(alloc, fdes.len(), LEAST, workers)?;
    let made = over_shares(
        rt,
        alloc,
        gate,
        pieces.as_slice(),
        |piece: Range<usize>| -> Result<Vec<u8>, LinkStop>
            requires some { piece.start < piece.end }
            requires within { piece.end ≤ length fdes.now }
            requires order { AreInOrder (lists_of frames.now) }
            requires known_cies { All (λ (p : PlacedOf). spec.IsKnown (files_in view.now) (lists_of frames.now) p.number) cies.now }
            requires known_fdes { All (λ (p : PlacedOf). spec.IsKnown (files_in view.now) (lists_of frames.now) p.number) fdes.now }
            requires count { length uses.now ≡ length fdes.now }
            ensures { IsRun (by_view shares.bytes_at view.entry.now (lists_of frames.entry.now) start cies.entry.now fdes.entry.now uses.entry.now) piece result }
        { Ok(bytes_in(alloc, view, frames, start, cies, fdes, uses, piece)?) },
    );
    match made {
        Ok(out) => Ok(out),
        Err(_) => Err(AllocError),
    }
}

/// The bytes of a run of FDEs, and of the CIEs before the first of all.
fn bytes_in(
    alloc: Global,
    view: &View,
    frames: &Frames,
    start: u64,
    cies: &[Placed],
    fdes: &[Placed],
    uses: &[usize],
    piece: Range<usize>,
) -> Result<Vec<u8>, AllocError>
    requires some { piece.start < piece.end }
    requires within { piece.end ≤ length fdes.now }
    requires order { AreInOrder (lists_of frames.now) }
    requires known_cies { All (λ (p : PlacedOf). spec.IsKnown (files_in view.now) (lists_of frames.now) p.number) cies.now }
    requires known_fdes { All (λ (p : PlacedOf). spec.IsKnown (files_in view.now) (lists_of frames.now) p.number) fdes.now }
    requires count { length uses.now ≡ length fdes.now }
    ensures { IfOk result (λ out. out.items ≡ flat_map (by_view shares.bytes_at view.now (lists_of frames.now) start cies.now fdes.now uses.now) (range_with_len piece.start (piece.end - piece.start))) }
{
    let room = room_for(fdes, piece.start, piece.end);
    let mut out = Vec::with_capacity(alloc, room)?;
    let own = run_of(fdes, piece.start, piece.end);
    let own_uses = run_of(uses, piece.start, piece.end);
    push_first(&mut out, piece.start, view, frames, start, cies)?;
    push_fdes(&mut out, view, frames, start, cies, own, own_uses)?;
    Ok(out)
}

/// About how many bytes a run of FDEs has, with all that stands before it if it is the first.
fn room_for(fdes: &[Placed], from: usize, to: usize) -> usize {
    let mut first = 0;
    if from != 0 {
        first = offset_of(fdes, from);
    }
    let last = offset_of(fdes, to.saturating_sub(1));
    (last.saturating_sub(first) as usize).saturating_add(256)
}

/// Adds the bytes of some CIEs, if a run of FDEs begins with the first.
fn push_first(
    out: &mut Vec<u8>,
    from: usize,
    view: &View,
    frames: &Frames,
    start: u64,
    cies: &[Placed],
) -> Result<(), AllocError>
    requires order { AreInOrder (lists_of frames.now) }
    requires known { All (λ (p : PlacedOf). spec.IsKnown (files_in view.now) (lists_of frames.now) p.number) cies.now }
    ensures { OnOk result (out.new.items ≡ out.old.items ++ (if from == 0 then flat_map (by_view spec.cie_bytes view.now (lists_of frames.now) start) cies.now else [])) }
{
    if from == 0 {
        push_cies(out, view, frames, start, cies)?;
    }
    Ok(())
}

/// Adds the bytes of some CIEs.
fn push_cies(
    out: &mut Vec<u8>,
    view: &View,
    frames: &Frames,
    start: u64,
    cies: &[Placed],
) -> Result<(), AllocError>
    requires order { AreInOrder (lists_of frames.now) }
    requires known { All (λ (p : PlacedOf). spec.IsKnown (files_in view.now) (lists_of frames.now) p.number) cies.now }
    ensures { OnOk result (out.new.items ≡ out.old.items ++ flat_map (by_view spec.cie_bytes view.now (lists_of frames.now) start) cies.now) }
{
    let mut list = 0;
    for cie in cies {
        list = list_near(frames, cie.number.section, list);
        push_cie(out, view, frames, start, cie, list)?;
    }
    Ok(())
}

/// Adds the bytes of a CIE.
#[tactic(auto, unfolding(crate::specs::Bytes::cie_bytes, crate::specs::Plan::record_bytes))]
fn push_cie(
    out: &mut Vec<u8>,
    view: &View,
    frames: &Frames,
    start: u64,
    cie: &Placed,
    list: usize,
) -> Result<(), AllocError>
    requires order { AreInOrder (lists_of frames.now) }
    requires known { spec.IsKnown (files_in view.now) (lists_of frames.now) cie.now.number }
    ensures { OnOk result (out.new.items ≡ out.old.items ++ by_view spec.cie_bytes view.now (lists_of frames.now) start cie.now) }
{
    let record = record_near(frames, cie.number, list);
    let from = out.len();
    out.extend_from_slice(record_bytes(view.tables, cie.number.section, record))?;
    relocate_from(
        view,
        view.tables.place_of(cie.number.section).file,
        record,
        start as u128 + cie.at as u128,
        out.as_mut_slice(),
        from,
    );
    Ok(())
}

/// Adds the bytes of some FDEs, each with the number of its CIE.
fn push_fdes(
    out: &mut Vec<u8>,
    view: &View,
    frames: &Frames,
    start: u64,
    cies: &[Placed],
    fdes: &[Placed],
    uses: &[usize],
) -> Result<(), AllocError>
    requires order { AreInOrder (lists_of frames.now) }
    requires known { All (λ (p : PlacedOf). spec.IsKnown (files_in view.now) (lists_of frames.now) p.number) fdes.now }
    requires count { length uses.now ≡ length fdes.now }
    ensures { OnOk result (out.new.items ≡ out.old.items ++ by_view spec.fdes_bytes view.now (lists_of frames.now) start cies.now fdes.now uses.now) }
{
    let mut list = 0;
    for k in 0..fdes.len() {
        let fde = &fdes[k];
        list = list_near(frames, fde.number.section, list);
        push_fde(
            out,
            view,
            frames,
            start,
            offset_of(cies, uses[k]),
            fde,
            list,
        )?;
    }
    Ok(())
}

/// The offset of one of some records, by its number; 0 past the end.
fn offset_of(placed: &[Placed], number: usize) -> u64
    ensures { result ≡ slice_index (map (λ (p : PlacedOf). p.at) placed.now) number }
{
    match placed.get(number) {
        Some(record) => record.at,
        None => 0,
    }
}

/// Adds the bytes of an FDE, whose CIE stands at an offset.
#[tactic(auto, unfolding(crate::specs::Bytes::fde_bytes, crate::specs::Plan::record_bytes))]
fn push_fde(
    out: &mut Vec<u8>,
    view: &View,
    frames: &Frames,
    start: u64,
    cie: u64,
    fde: &Placed,
    list: usize,
) -> Result<(), AllocError>
    requires order { AreInOrder (lists_of frames.now) }
    requires known { spec.IsKnown (files_in view.now) (lists_of frames.now) fde.now.number }
    ensures { OnOk result (out.new.items ≡ out.old.items ++ by_view spec.fde_bytes view.now (lists_of frames.now) start cie fde.now) }
{
    let record = record_near(frames, fde.number, list);
    let from = out.len();
    push_pointed(
        out,
        record_bytes(view.tables, fde.number.section, record),
        fde.at,
        cie,
    )?;
    relocate_from(
        view,
        view.tables.place_of(fde.number.section).file,
        record,
        start as u128 + fde.at as u128,
        out.as_mut_slice(),
        from,
    );
    Ok(())
}

/// The CIE Pointer of an FDE: how many bytes its own place, which is 4 bytes after the FDE's start, stands after the CIE.
fn pointer(fde: u64, cie: u64) -> u32
    ensures { little_bytes 4 result ≡ little_bytes 4 (fde + 4 - cie) }
{
    ((fde as u128 + 4).saturating_sub(cie as u128) % 0x1_0000_0000) as u32
}

/// Adds the bytes of an FDE that stands at an offset, with the CIE Pointer to its CIE.
#[tactic(auto, unfolding(crate::specs::Bytes::with_pointer))]
fn push_pointed(out: &mut Vec<u8>, bytes: &[u8], fde: u64, cie: u64) -> Result<(), AllocError>
    requires { 8 ≤ length bytes.now }
    ensures bytes { OnOk result (out.new.items ≡ out.old.items ++ spec.with_pointer (fde + 4 - cie) bytes.now) }
    ensures len { OnOk result (vec_len out.new ≡ vec_len out.old + length bytes.now) }
{
    let (front, rest) = bytes.split_at(8);
    let (length, _) = front.split_at(4);
    out.extend_from_slice(length)?;
    out.extend_from_slice(&pointer(fde, cie).to_le_bytes())?;
    out.extend_from_slice(rest)?;
    Ok(())
}
