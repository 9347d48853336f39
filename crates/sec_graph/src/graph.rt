//! The sections to which all sections lead.

ghost use Rattle.std.specs.Prelude.{◌≡◌, ◌↔◌, ℕ, Bool, ◌-◌, ◌<◌, ◌≤◌, [], ◌∷◌, length, flat_map, IfOk};
ghost use Rattle.std.specs.List.{range_with_len};
ghost use Rattle.link_sections.specs.Edges.{ends_of};
ghost use Rattle.lk_tables.specs.BoundNames.{IsBindingOf};
ghost use Rattle.lk_tables.specs.BindingView.{binding_view};
ghost use Rattle.lk_tables.specs.TablesView.{files_of};
ghost use Rattle.sec_graph.specs.FrameRelocs.{AreFramesOf};
ghost use Rattle.sec_graph.specs.Graph as spec;
ghost use Rattle.sec_graph.specs.Kept.{HasEnds, IsClosedByRules};
ghost use Rattle.sec_graph.specs.NamedSections.{HasNamed};
ghost use Rattle.sec_graph.specs.Rows.{rows_of};
ghost use Rattle.work_split.specs.Pieces.{Tiles};
ghost use Rattle.work_split.specs.Runs.{IsRun};

use crate::ends::file_ends;
use crate::named_sections::{NamedSections, named_sections};
use flat_rows::Rows;
use link_sections::Edges;
use lk_base::{FileNo, LinkStop, SecNo};
use lk_tables::{Binding, Frames, Tables};
use std::alloc::{AllocError, Global};
use std::ops::Range;
use std::thread::Threads;
use work_split::{Gate, over_shares, pieces_by_weight};

/// Where each section leads, by section number: to the sections that its relocations name, where one that refers to the start or the end
/// of a name (`__start_X`, `__stop_X`) names all sections of this name; then to those that the FDEs of its functions name beside it, and that
/// the CIEs of these name, each CIE once (a name's start or end names none there); then to those flagged LINK_ORDER of which `sh_link` names
/// it, then to the next member of each of its groups, from the last member to the first. A section that may not be kept leads nowhere. The
/// ends are section numbers. The files are shared among so many workers, and the answer is the same for any number of them. The only error is
/// out of memory.
pub fn edges<R: Threads + Sync, G: Gate>(
    rt: &R,
    alloc: Global,
    tables: &Tables,
    binding: &Binding,
    workers: u32,
    gate: &G,
    frames: &Frames,
) -> Result<Edges, AllocError>
    requires some { 1 ≤ workers }
    requires most { workers ≤ 64 }
    requires bound { IsBindingOf (files_of tables.now) (binding_view binding.now) }
    requires frames { AreFramesOf (files_of tables.now) (binding_view binding.now) frames.now }
    ensures value { IfOk result (λ graph. ends_of graph ≡ spec.edges (files_of tables.now) (binding_view binding.now)) }
    ensures law { IfOk result (λ graph. (s : ℕ → Bool) → IsClosedByRules (files_of tables.now) (binding_view binding.now) s ↔ HasEnds (ends_of graph) s) }
{
    tables.prove_few();
    let pieces = pieces_of(alloc, tables, workers)?;
    let named = named_sections(rt, alloc, tables, binding, pieces.as_slice(), gate)?;
    let parts = find_ends(
        rt,
        alloc,
        tables,
        binding,
        frames,
        &named,
        pieces.as_slice(),
        gate,
    )?;
    let rows = join_rows(alloc, parts.as_slice())?;
    Ok(Edges::from_rows(rows))
}

/// The ends of each file. The workers each find those of one piece of the files.
fn find_ends<R: Threads + Sync, G: Gate>(
    rt: &R,
    alloc: Global,
    tables: &Tables,
    binding: &Binding,
    frames: &Frames,
    named: &NamedSections,
    pieces: &[Range<usize>],
    gate: &G,
) -> Result<Vec<Rows<SecNo>>, AllocError>
    requires frames { AreFramesOf (files_of tables.now) (binding_view binding.now) frames.now }
    requires named { HasNamed (files_of tables.now) (binding_view binding.now) named.now }
    requires tiles { Tiles 0 (length (files_of tables.now)) pieces.now }
    requires most { length pieces.now ≤ 64 }
    ensures { IfOk result (λ parts. parts.items ≡ flat_map (rows_of (files_of tables.now) (binding_view binding.now)) (range_with_len 0 (length (files_of tables.now)))) }
{
    let found = over_shares(
        rt,
        alloc,
        gate,
        pieces,
        |piece: Range<usize>| -> Result<Vec<Rows<SecNo>>, LinkStop>
            requires frames { AreFramesOf (files_of tables.now) (binding_view binding.now) frames.now }
            requires named { HasNamed (files_of tables.now) (binding_view binding.now) named.now }
            requires within { piece.end ≤ length (files_of tables.now) }
            ensures { IsRun (rows_of (files_of tables.entry.now) (binding_view binding.entry.now)) piece result }
        { Ok(ends_between(alloc, tables, binding, frames, named, piece)?) },
    );
    match found {
        Ok(parts) => Ok(parts),
        Err(_) => Err(AllocError),
    }
}

/// The files cut into pieces of about as many sections and relocations each, at most one for each worker.
fn pieces_of(alloc: Global, tables: &Tables, workers: u32) -> Result<Vec<Range<usize>>, AllocError>
    requires some { 1 ≤ workers }
    requires most { workers ≤ 64 }
    ensures tiles { IfOk result (λ pieces. Tiles 0 (length (files_of tables.now)) pieces.items) }
    ensures most { IfOk result (λ pieces. length pieces.items ≤ 64) }
{
    let mut weights = Vec::with_capacity(alloc, tables.file_count())?;
    for file in 0..tables.file_count() {
        weights.push(weight_of(tables, file as FileNo))?;
    }
    pieces_by_weight(alloc, weights.as_slice(), workers)
}

/// How many sections and relocations a file has.
fn weight_of(tables: &Tables, file: FileNo) -> u64
    requires { file < length (files_of tables.now) }
{
    let entry = tables.file(file);
    let mut weight = entry.sections().len() as u64;
    for index in 0..entry.sections().len() {
        weight = weight.saturating_add(entry.relocs(index).len() as u64);
    }
    weight
}

/// The ends of each file of a run of files.
fn ends_between(
    alloc: Global,
    tables: &Tables,
    binding: &Binding,
    frames: &Frames,
    named: &NamedSections,
    piece: Range<usize>,
) -> Result<Vec<Rows<SecNo>>, AllocError>
    requires frames { AreFramesOf (files_of tables.now) (binding_view binding.now) frames.now }
    requires named { HasNamed (files_of tables.now) (binding_view binding.now) named.now }
    requires within { piece.end ≤ length (files_of tables.now) }
    ensures { IfOk result (λ parts. parts.items ≡ flat_map (rows_of (files_of tables.now) (binding_view binding.now)) (range_with_len piece.start (piece.end - piece.start))) }
{
    tables.prove_few();
    let mut parts = Vec::new(alloc);
    for file in piece.start..piece.end {
        parts.push(file_ends(alloc, tables, binding, frames, named, file as FileNo)?)?;
    }
    Ok(parts)
}

/// The rows of all parts, one part after the other.
fn join_rows(alloc: Global, parts: &[Rows<SecNo>]) -> Result<Rows<SecNo>, AllocError>
    ensures { IfOk result (λ rows. rows ≡ flat_map (λ part. part) parts.now) }
{
    let mut rows = Rows::empty(alloc)?;
    for part in parts {
        rows.append(part)?;
    }
    Ok(rows)
}
