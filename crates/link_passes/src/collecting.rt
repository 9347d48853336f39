//! The sections that a link keeps, and the graph that leads to them.

ghost use Rattle.std.specs.Prelude.{◌≡◌, ◌<◌, ◌≤◌, ◌-◌, ◌++◌, ◌&&◌, ◌↔◌, true, Bool, None, Some, is_some, if◌then◌else◌, ℕ, All, length, flat_map, IfOk, IfSome, OnOk};
ghost use Rattle.std.specs.List.{range_with_len};
ghost use Rattle.link_command.specs.Command.{lists_of};
ghost use Rattle.link_passes.specs.Passes.{kept_of};
ghost use Rattle.link_passes.specs.Tables.{IsCollected, IsGraph, MayStay};
ghost use Rattle.link_sections.specs.Edges.{ends_of};
ghost use Rattle.link_sections.specs.InputSections as spec;
ghost use Rattle.lk_tables.specs.BindingView.{binding_view};
ghost use Rattle.lk_tables.specs.BoundNames.{IsBindingOf};
ghost use Rattle.lk_tables.specs.Files.{section_total};
ghost use Rattle.lk_tables.specs.TablesView.{files_of};
ghost use Rattle.lk_tables.proofs.ByNumber.{section_row};
ghost use Rattle.sec_gc.specs.Roots.{roots};
ghost use Rattle.sec_graph.specs.FrameRelocs.{AreFramesOf};
ghost use Rattle.sec_graph.specs.Graph.{edges};
ghost use Rattle.sec_graph.specs.Kept.{HasEnds, IsClosedByRules};
ghost use Rattle.work_split.specs.Pieces.{Tiles};
ghost use Rattle.work_split.specs.Runs.{IsRun};

use link_sections::{Edges, all_kept, may_stay};
use lk_base::{FileNo, LinkStop, SecNo};
use lk_tables::{Binding, Frames, Tables, section_count};
use sec_gc::{keep, roots};
use sec_graph::edges;
use std::alloc::{AllocError, Global};
use std::ops::Range;
use std::thread::Threads;
use work_split::{Gate, over_shares, pieces};

/// So many sections are worth several workers.
const LEAST: usize = 16_384;

/// What garbage collection goes by.
#[derive(Drop)]
pub struct SectionGraph {
    /// The sections that are kept whatever refers to them.
    pub roots: Vec<SecNo>,
    /// Where each section leads, by section number.
    pub edges: Edges,
}

/// The graph of the sections, where the names of `undefined` are asked for. The only error is out of memory.
pub fn find_graph<R: Threads + Sync, G: Gate>(
    rt: &R,
    alloc: Global,
    tables: &Tables,
    binding: &Binding,
    frames: &Frames,
    undefined: &[Vec<u8>],
    workers: u32,
    gate: &G,
) -> Result<SectionGraph, AllocError>
    requires some { 1 ≤ workers }
    requires most { workers ≤ 64 }
    requires bound { IsBindingOf (files_of tables.now) (binding_view binding.now) }
    requires frames { AreFramesOf (files_of tables.now) (binding_view binding.now) frames.now }
    ensures roots { IfOk result (λ found. found.roots.items ≡ roots (files_of tables.now) (binding_view binding.now) (lists_of undefined.now)) }
    ensures within { IfOk result (λ found. All (λ r. r < section_total (files_of tables.now)) found.roots.items) }
    ensures ends { IfOk result (λ found. ends_of found.edges ≡ edges (files_of tables.now) (binding_view binding.now)) }
    ensures law { IfOk result (λ found. (s : ℕ → Bool) → IsClosedByRules (files_of tables.now) (binding_view binding.now) s ↔ HasEnds (ends_of found.edges) s) }
{
    let roots = roots(alloc, tables, binding, undefined)?;
    let edges = edges(rt, alloc, tables, binding, workers, gate, frames)?;
    Ok(SectionGraph { roots, edges })
}

/// A graph, if it is wanted.
fn graph_if(wanted: bool, graph: SectionGraph) -> Option<SectionGraph>
    ensures value { result ≡ (if wanted then Some graph else None) }
    ensures asked { is_some result ≡ wanted }
{
    if wanted {
        return Some(graph);
    }
    None
}

/// By section number, all that may stay. Of many sections the workers each list those of a run of the files. The only error is out of memory.
fn find_all<R: Threads + Sync, G: Gate>(
    rt: &R,
    alloc: Global,
    tables: &Tables,
    binding: &Binding,
    workers: u32,
    gate: &G,
) -> Result<Vec<bool>, AllocError>
    requires some { 1 ≤ workers }
    requires most { workers ≤ 64 }
    ensures { IfOk result (λ kept. kept.items ≡ spec.all_kept (files_of tables.now) (binding_view binding.now)) }
{
    if workers == 1 || tables.section_count() < LEAST {
        return all_kept(alloc, tables, binding);
    }
    let pieces = pieces(alloc, tables.file_count(), workers)?;
    list_all(rt, alloc, tables, binding, pieces.as_slice(), gate)
}

/// By section number, what of all files a link keeps that collects nothing, by so many workers.
fn list_all<R: Threads + Sync, G: Gate>(
    rt: &R,
    alloc: Global,
    tables: &Tables,
    binding: &Binding,
    pieces: &[Range<usize>],
    gate: &G,
) -> Result<Vec<bool>, AllocError>
    requires tiles { Tiles 0 (length (files_of tables.now)) pieces.now }
    requires most { length pieces.now ≤ 64 }
    ensures { IfOk result (λ kept. kept.items ≡ spec.all_kept (files_of tables.now) (binding_view binding.now)) }
{
    let listed = over_shares(
        rt,
        alloc,
        gate,
        pieces,
        |piece: Range<usize>| -> Result<Vec<bool>, LinkStop>
            requires ordered { piece.start ≤ piece.end }
            requires within { piece.end ≤ length (files_of tables.now) }
            ensures { IsRun (section_row (files_of tables.entry.now) (spec.may_stay (files_of tables.entry.now) (binding_view binding.entry.now))) piece result }
        { Ok(kept_in(alloc, tables, binding, piece)?) },
    );
    match listed {
        Ok(kept) => Ok(kept),
        Err(_) => Err(AllocError),
    }
}

/// By section number, what of a run of files a link keeps that collects nothing.
fn kept_in(
    alloc: Global,
    tables: &Tables,
    binding: &Binding,
    piece: Range<usize>,
) -> Result<Vec<bool>, AllocError>
    requires { piece.end ≤ length (files_of tables.now) }
    ensures { IfOk result (λ kept. kept.items ≡ flat_map (section_row (files_of tables.now) (spec.may_stay (files_of tables.now) (binding_view binding.now))) (range_with_len piece.start (piece.end - piece.start))) }
{
    tables.prove_few();
    let mut kept = Vec::new(alloc);
    for file in piece.start..piece.end {
        push_file(&mut kept, tables, binding, file as u32)?;
    }
    Ok(kept)
}

/// Adds for each section of one file whether it is kept by a link that collects nothing.
fn push_file(
    kept: &mut Vec<bool>,
    tables: &Tables,
    binding: &Binding,
    file: FileNo,
) -> Result<(), AllocError>
    requires { file < length (files_of tables.now) }
    ensures { OnOk result (kept.new.items ≡ kept.old.items ++ section_row (files_of tables.now) (spec.may_stay (files_of tables.now) (binding_view binding.now)) file) }
{
    tables.prove_few();
    for index in 0..section_count(tables.file(file)) {
        kept.push(may_stay(tables, binding, file, index as u32))?;
    }
    Ok(())
}

/// By section number, which sections are kept: with `gc` those that the roots lead to, of which the sections are some in which the names of
/// `undefined` stand, else all that may stay. It is as long as the tables have sections. With it the graph by which they were found, exactly if
/// there is one and it is `wanted`. The only error is out of memory.
#[tactic(auto, unfolding(crate::specs::Passes::kept_of))]
pub fn find_kept_by<R: Threads + Sync, G: Gate>(
    rt: &R,
    alloc: Global,
    tables: &Tables,
    binding: &Binding,
    frames: &Frames,
    gc: bool,
    wanted: bool,
    undefined: &[Vec<u8>],
    workers: u32,
    gate: &G,
) -> Result<(Vec<bool>, Option<SectionGraph>), AllocError>
    requires some { 1 ≤ workers }
    requires most { workers ≤ 64 }
    requires bound { IsBindingOf (files_of tables.now) (binding_view binding.now) }
    requires frames { AreFramesOf (files_of tables.now) (binding_view binding.now) frames.now }
    ensures kept { IfOk result (λ both. both.0.items ≡ kept_of gc (lists_of undefined.now) (files_of tables.now) (binding_view binding.now)) }
    ensures stay { IfOk result (λ both. MayStay (files_of tables.now) (binding_view binding.now) both.0.items) }
    ensures collected { gc ≡ true → IfOk result (λ both. IsCollected (lists_of undefined.now) (files_of tables.now) (binding_view binding.now) both.0.items) }
    ensures graph { IfOk result (λ both. IfSome both.1 (IsGraph (files_of tables.now) (binding_view binding.now) (lists_of undefined.now))) }
    ensures asked { IfOk result (λ both. is_some both.1 ≡ (gc && wanted)) }
{
    tables.prove_few();
    if !gc {
        let all = find_all(rt, alloc, tables, binding, workers, gate)?;
        return Ok((all, None));
    }
    let graph = find_graph(rt, alloc, tables, binding, frames, undefined, workers, gate)?;
    let kept = keep(
        rt,
        alloc,
        graph.roots.as_slice(),
        &graph.edges,
        workers,
        gate,
    )?;
    Ok((kept, graph_if(wanted, graph)))
}

/// By section number, which sections are kept: with `gc` those that the roots lead to, of which the sections are some in which the names of
/// `undefined` stand, else all that may stay. It is as long as the tables have
/// sections. The only error is out of memory.
pub fn find_kept<R: Threads + Sync, G: Gate>(
    rt: &R,
    alloc: Global,
    tables: &Tables,
    binding: &Binding,
    frames: &Frames,
    gc: bool,
    undefined: &[Vec<u8>],
    workers: u32,
    gate: &G,
) -> Result<Vec<bool>, AllocError>
    requires some { 1 ≤ workers }
    requires most { workers ≤ 64 }
    requires bound { IsBindingOf (files_of tables.now) (binding_view binding.now) }
    requires frames { AreFramesOf (files_of tables.now) (binding_view binding.now) frames.now }
    ensures kept { IfOk result (λ kept. kept.items ≡ kept_of gc (lists_of undefined.now) (files_of tables.now) (binding_view binding.now)) }
    ensures stay { IfOk result (λ kept. MayStay (files_of tables.now) (binding_view binding.now) kept.items) }
    ensures collected { gc ≡ true → IfOk result (λ kept. IsCollected (lists_of undefined.now) (files_of tables.now) (binding_view binding.now) kept.items) }
{
    let (kept, _graph) = find_kept_by(
        rt, alloc, tables, binding, frames, gc, false, undefined, workers, gate,
    )?;
    Ok(kept)
}
