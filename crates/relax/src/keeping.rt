//! The bytes that sections keep before anything has a place.

ghost use Rattle.std.specs.Prelude.{◌≡◌, ◌+◌, ◌-◌, ◌<◌, ◌≤◌, ◌^◌, ◌++◌, length, map, flat_map, All, IfOk, OnOk};
ghost use Rattle.std.specs.List.{range_with_len};
ghost use Rattle.lk_tables.specs.BindingView.{binding_view};
ghost use Rattle.lk_tables.specs.Files.{section_total};
ghost use Rattle.lk_tables.specs.Sites.{relocs_of};
ghost use Rattle.lk_tables.specs.TablesView.{files_of};
ghost use Rattle.link_sections.specs.CutsView.{AreCuts, cut_views};
ghost use Rattle.link_sections.specs.PoolViews.{merged_views};
ghost use Rattle.output_sections.specs.Order.{IsKnown, members_in};
ghost use Rattle.link_sections.specs.SizesView.{sizes_of};
ghost use Rattle.relax.specs.CallSizes as spec;
ghost use Rattle.relax.specs.Points.{AreSoundRows, mark_at};
ghost use Rattle.relax.specs.CutRows.{AreCutRows};
ghost use Rattle.relax.specs.Placing.{ArePlaced, IsOneSize, added};
ghost use Rattle.work_split.specs.Pieces.{Tiles};
ghost use Rattle.relax.specs.Scenes.{cuts_in, rows_in};
ghost use Rattle.relax.specs.Sizes.{FitSections};

use crate::bands::call_sizes;
use crate::calls::{Call, Scene, place_of, places_of};
use crate::cutting::push_cut;
use crate::jumps::{Mark, count_of, marks_of};
use crate::listing::call_rows;
use crate::solving::size_at;
use crate::unrelaxed::{may_relax, unrelaxed_sizes};
use flat_rows::{Rows, join_rows, one_part};
use link_sections::{Cut, Pools, Sizes};
use lk_base::relocations::moves_bytes;
use lk_base::{LinkStop, SecNo};
use lk_tables::{Binding, Reloc, Tables};
use output_sections::{OutputSections, Row};
use std::alloc::{AllocError, Global};
use std::ops::Range;
use std::thread::Threads;
use work_split::{Gate, over_shares, pieces_of_least};

/// Fewer sections are not worth a thread.
const LEAST: usize = 4_096;

/// By section number, where each section loses bytes, in order of offset: each alignment with all its bytes, since no place is known yet, and
/// each call that may be shortened, with the four bytes of `jal` or the two of `c.j`. A call of eight bytes is none of them. With `on` a call
/// has the least size that allows the greatest distance that its target can have, wherever the sections stand; without it no call is
/// relaxed. `leaders` are by section number, and `sections` the output sections of this link. Where no call can be relaxed the workers list
/// the alignments of a run of files each, and else the calls of a run of members. The only error is out of memory.
pub fn sizes<R: Threads + Sync, G: Gate>(
    rt: &R,
    alloc: Global,
    tables: &Tables,
    binding: &Binding,
    pools: &Pools,
    leaders: &[Option<SecNo>],
    sections: &OutputSections,
    on: bool,
    workers: u32,
    gate: &G,
) -> Result<Sizes, AllocError>
    requires some { 1 ≤ workers }
    requires most { workers ≤ 64 }
    requires known { All (IsKnown (files_of tables.now) (binding_view binding.now)) (members_in sections.now.rows) }
    ensures cuts { IfOk result (λ sizes. sizes_of sizes ≡ spec.cuts_of (files_of tables.now) (binding_view binding.now) (merged_views pools.now) leaders.now (members_in sections.now.rows) on) }
    ensures fit { IfOk result (λ sizes. FitSections (files_of tables.now) (sizes_of sizes)) }
    ensures law { IfOk result (λ _. spec.IsLeastSafe (files_of tables.now) (binding_view binding.now) (merged_views pools.now) leaders.now (members_in sections.now.rows) on) }
{
    if !may_relax(tables, on) {
        let unrelaxed = unrelaxed_sizes(rt, alloc, tables, workers, gate)?;
        return Ok(unrelaxed);
    }
    let members = sections.rows.items();
    let places = places_of(alloc, members, tables.section_count())?;
    let scene = Scene {
        tables,
        binding,
        pools,
        leaders,
        members,
        places: places.as_slice(),
    };
    let sizes = sizes_in(rt, alloc, &scene, on, workers, gate)?;
    Ok(sizes)
}

/// By section number, where each section loses bytes, once the members are in order.
fn sizes_in<R: Threads + Sync, G: Gate>(
    rt: &R,
    alloc: Global,
    scene: &Scene,
    on: bool,
    workers: u32,
    gate: &G,
) -> Result<Sizes, AllocError>
    requires some { 1 ≤ workers }
    requires most { workers ≤ 64 }
    requires few { length scene.now.members.now < 2 ^ 33 }
    requires known { All (IsKnown (files_of scene.now.tables.now) (binding_view scene.now.binding.now)) scene.now.members.now }
    ensures cuts { IfOk result (λ sizes. sizes_of sizes ≡ cuts_in scene.now on) }
    ensures fit { IfOk result (λ sizes. FitSections (files_of scene.now.tables.now) (sizes_of sizes)) }
    ensures law { IfOk result (λ _. spec.AreLeastSafe scene.now.members.now (rows_in scene.now on) (spec.least_sizes scene.now.members.now (rows_in scene.now on))) }
{
    let calls = call_rows(rt, alloc, scene, on, workers, gate)?;
    let marks = marks_of(alloc, scene.members, &calls)?;
    let sizes = call_sizes(
        rt,
        alloc,
        scene.members,
        &calls,
        marks.as_slice(),
        workers,
        gate,
    )?;
    let rows = cut_rows(
        rt,
        alloc,
        scene,
        &calls,
        marks.as_slice(),
        sizes.as_slice(),
        workers,
        gate,
    )?;
    Ok(Sizes::of(rows))
}

/// The cuts of all sections. The workers each list those of a run of sections.
fn cut_rows<R: Threads + Sync, G: Gate>(
    rt: &R,
    alloc: Global,
    scene: &Scene,
    calls: &Rows<Call>,
    marks: &[Mark],
    sizes: &[u8],
    workers: u32,
    gate: &G,
) -> Result<Rows<Cut>, AllocError>
    requires some { 1 ≤ workers }
    requires most { workers ≤ 64 }
    requires sound { AreSoundRows scene.now.members.now calls.now }
    requires marks { marks.now ≡ map (mark_at scene.now.members.now calls.now) (range_with_len 0 (length scene.now.members.now)) }
    requires sizes { All IsOneSize sizes.now }
    requires count { length sizes.now ≡ length (spec.all_calls calls.now) }
    ensures views { IfOk result (λ rows. map cut_views rows ≡ spec.all_cuts (files_of scene.now.tables.now) scene.now.members.now calls.now sizes.now) }
    ensures sound { IfOk result (λ rows. All AreCuts rows) }
{
    let pieces = pieces_of_least(alloc, scene.tables.section_count(), LEAST, workers)?;
    let parts = all_parts(
        rt,
        alloc,
        scene,
        calls,
        marks,
        sizes,
        pieces.as_slice(),
        gate,
    )?;
    let rows = join_rows(alloc, parts)?;
    Ok(rows)
}

/// The cuts of all sections, in parts: each worker makes one, of a piece of the sections.
fn all_parts<R: Threads + Sync, G: Gate>(
    rt: &R,
    alloc: Global,
    scene: &Scene,
    calls: &Rows<Call>,
    marks: &[Mark],
    sizes: &[u8],
    pieces: &[Range<usize>],
    gate: &G,
) -> Result<Vec<Rows<Cut>>, AllocError>
    requires sound { AreSoundRows scene.now.members.now calls.now }
    requires marks { marks.now ≡ map (mark_at scene.now.members.now calls.now) (range_with_len 0 (length scene.now.members.now)) }
    requires sizes { All IsOneSize sizes.now }
    requires count { length sizes.now ≡ length (spec.all_calls calls.now) }
    requires tiles { Tiles 0 (section_total (files_of scene.now.tables.now)) pieces.now }
    requires most { length pieces.now ≤ 64 }
    ensures { IfOk result (λ parts. AreCutRows (files_of scene.now.tables.now) scene.now.members.now calls.now sizes.now 0 (section_total (files_of scene.now.tables.now)) (flat_map (λ part. part) parts.items)) }
{
    let found = over_shares(
        rt,
        alloc,
        gate,
        pieces,
        |piece: Range<usize>| -> Result<Vec<Rows<Cut>>, LinkStop>
            requires sound { AreSoundRows scene.now.members.now calls.now }
            requires marks { marks.now ≡ map (mark_at scene.now.members.now calls.now) (range_with_len 0 (length scene.now.members.now)) }
            requires sizes { All IsOneSize sizes.now }
            requires count { length sizes.now ≡ length (spec.all_calls calls.now) }
            requires ordered { piece.start ≤ piece.end }
            requires within { piece.end ≤ section_total (files_of scene.now.tables.now) }
            ensures { IfOk result (λ parts. AreCutRows (files_of scene.entry.now.tables.now) scene.entry.now.members.now calls.entry.now sizes.entry.now piece.start piece.end (flat_map (λ part. part) parts.items)) }
        { Ok(part_of(alloc, scene, calls, marks, sizes, piece)?) },
    );
    match found {
        Ok(parts) => Ok(parts),
        Err(_) => Err(AllocError),
    }
}

/// The cuts of a run of sections, as one part.
fn part_of(
    alloc: Global,
    scene: &Scene,
    calls: &Rows<Call>,
    marks: &[Mark],
    sizes: &[u8],
    piece: Range<usize>,
) -> Result<Vec<Rows<Cut>>, AllocError>
    requires sound { AreSoundRows scene.now.members.now calls.now }
    requires marks { marks.now ≡ map (mark_at scene.now.members.now calls.now) (range_with_len 0 (length scene.now.members.now)) }
    requires sizes { All IsOneSize sizes.now }
    requires count { length sizes.now ≡ length (spec.all_calls calls.now) }
    requires ordered { piece.start ≤ piece.end }
    requires within { piece.end ≤ section_total (files_of scene.now.tables.now) }
    ensures { IfOk result (λ parts. AreCutRows (files_of scene.now.tables.now) scene.now.members.now calls.now sizes.now piece.start piece.end (flat_map (λ part. part) parts.items)) }
{
    scene.tables.prove_few();
    let mut rows = Rows::empty(alloc)?;
    let mut cuts = Vec::new(alloc);
    for section in piece.start..piece.end {
        section_cuts(&mut cuts, scene, calls, marks, sizes, section as SecNo)?;
        rows.push(cuts.as_slice())?;
    }
    let parts = one_part(alloc, rows)?;
    Ok(parts)
}

/// The cuts of a section, in the place of what stood in the list.
fn section_cuts(
    cuts: &mut Vec<Cut>,
    scene: &Scene,
    calls: &Rows<Call>,
    marks: &[Mark],
    sizes: &[u8],
    section: SecNo,
) -> Result<(), AllocError>
    requires sound { AreSoundRows scene.now.members.now calls.now }
    requires marks { marks.now ≡ map (mark_at scene.now.members.now calls.now) (range_with_len 0 (length scene.now.members.now)) }
    requires sizes { All IsOneSize sizes.now }
    requires count { length sizes.now ≡ length (spec.all_calls calls.now) }
    requires section { section < section_total (files_of scene.now.tables.now) }
    ensures views { OnOk result (cut_views cuts.new.items ≡ spec.cuts_by (spec.size_in calls.now sizes.now (spec.place_in scene.now.members.now section)) (relocs_of (files_of scene.now.tables.now) section)) }
    ensures sound { OnOk result (AreCuts cuts.new.items) }
{
    cuts.clear();
    let mut lost: u128 = 0;
    let place = scene.tables.place_of(section);
    let relocs = scene.tables.relocs(place.file, place.index);
    let member = place_of(scene, section);
    for k in 0..relocs.len() {
        lost = keep(
            cuts,
            lost,
            &relocs[k],
            calls,
            marks,
            sizes,
            scene.members,
            member,
            k,
        )?;
    }
    Ok(())
}

/// Adds what relocation `k` of a member keeps of its bytes, if it is an alignment, or a call of less than eight. Gives how many bytes are lost
/// so far. Of a relocation that is neither no call is looked for.
fn keep(
    cuts: &mut Vec<Cut>,
    lost: u128,
    reloc: &Reloc,
    calls: &Rows<Call>,
    marks: &[Mark],
    sizes: &[u8],
    members: &[Row],
    member: usize,
    k: usize,
) -> Result<u128, AllocError>
    requires sound { AreSoundRows members.now calls.now }
    requires marks { marks.now ≡ map (mark_at members.now calls.now) (range_with_len 0 (length members.now)) }
    requires count { length sizes.now ≡ length (spec.all_calls calls.now) }
    requires room { lost + 2 ^ 64 ≤ 2 ^ 128 }
    ensures views { OnOk result (cut_views cuts.new.items ≡ cut_views cuts.old.items ++ added (spec.size_in calls.now sizes.now member k) reloc.now) }
    ensures placed { IfOk result (λ after. ArePlaced cuts.old.items lost → ArePlaced cuts.new.items after) }
    ensures few { IfOk result (λ after. after ≤ lost + (2 ^ 64 - 1)) }
{
    if !moves_bytes(reloc.kind) {
        return Ok(lost);
    }
    let size = size_in(calls, marks, sizes, members, member, k);
    let after = push_cut(cuts, lost, reloc, size as u64)?;
    Ok(after)
}

/// The size of the call at a relocation of a member; eight if there is none.
#[tactic(auto, unfolding(crate::specs::CallSizes::size_in))]
fn size_in(
    calls: &Rows<Call>,
    marks: &[Mark],
    sizes: &[u8],
    members: &[Row],
    member: usize,
    k: usize,
) -> u8
    requires sound { AreSoundRows members.now calls.now }
    requires marks { marks.now ≡ map (mark_at members.now calls.now) (range_with_len 0 (length members.now)) }
    requires count { length sizes.now ≡ length (spec.all_calls calls.now) }
    ensures { result ≡ spec.size_in calls.now sizes.now member k }
{
    let row = calls.row(member);
    let n = row.partition_point(|call| call.reloc < k);
    let Some(call) = row.get(n) else {
        return 8;
    };
    if call.reloc != k {
        return 8;
    }
    count_of(calls);
    size_at(sizes, marks[member].first + n)
}
