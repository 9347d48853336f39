//! Where sections lose bytes if no call is relaxed.

ghost use Rattle.std.specs.Prelude.{◌≡◌, ◌<◌, ◌≤◌, ◌++◌, length, map, flat_map, All, IfOk, OnOk};
ghost use Rattle.std.specs.List.{list_any};
ghost use Rattle.lk_tables.specs.FileView.{file_view};
ghost use Rattle.lk_tables.specs.Files.{file_at, relocs_at, section_count};
ghost use Rattle.lk_tables.specs.TablesView.{files_of};
ghost use Rattle.lk_tables.proofs.ByNumber.{section_row};
ghost use Rattle.link_sections.specs.CutsView.{AreCuts, cut_views};
ghost use Rattle.link_sections.specs.SizesView.{sizes_of};
ghost use Rattle.relax.specs.Sizes.{FitSections};
ghost use Rattle.relax.specs.Unrelaxed as spec;
ghost use Rattle.work_split.specs.Pieces.{Tiles};

use crate::cutting::push_cut;
use flat_rows::{Rows, join_rows, one_part};
use link_sections::{Cut, Sizes};
use lk_base::abi::R_RISCV_RELAX;
use lk_base::{FileNo, LinkStop};
use lk_tables::{File, Reloc, Tables, section_count};
use std::alloc::{AllocError, Global};
use std::ops::Range;
use std::thread::Threads;
use work_split::{Gate, over_shares, pieces, pieces_by_weight};

/// Fewer sections are not worth a thread.
const LEAST: usize = 4_096;

/// Whether some call may be relaxed: calls are to be, and the linker may relax something in a file that takes part.
pub fn may_relax(tables: &Tables, on: bool) -> bool
    ensures { result ≡ spec.may_relax (files_of tables.now) on }
{
    on && some_relaxes(tables)
}

/// Whether the linker may relax something in a file that takes part.
fn some_relaxes(tables: &Tables) -> bool
    ensures { result ≡ spec.some_relaxes (files_of tables.now) }
{
    one_relaxes(tables.files())
}

/// Whether the linker may relax something in one of these files.
fn one_relaxes(files: &[File]) -> bool
    ensures { result ≡ list_any (λ (file : _). spec.relaxes (file_view file)) files.now }
{
    files.iter().any(|file| relaxes(file))
}

/// Whether the linker may relax something in a file.
fn relaxes(file: &File) -> bool
    ensures { result ≡ spec.relaxes (file_view file.now) }
{
    (0..file.sections().len()).any(|index| has_relax(file.relocs(index)))
}

/// Whether the linker may relax what stands at the place of one of these relocations.
fn has_relax(relocs: &[Reloc]) -> bool
    ensures { result ≡ spec.has_relax relocs.now }
{
    relocs.iter().any(|reloc| reloc.kind == R_RISCV_RELAX)
}

/// By section number, where each section loses bytes if each call has its eight: at alignments alone. The workers list those of a run of
/// files each.
pub fn unrelaxed_sizes<R: Threads + Sync, G: Gate>(
    rt: &R,
    alloc: Global,
    tables: &Tables,
    workers: u32,
    gate: &G,
) -> Result<Sizes, AllocError>
    requires some { 1 ≤ workers }
    requires most { workers ≤ 64 }
    ensures cuts { IfOk result (λ sizes. sizes_of sizes ≡ spec.unrelaxed (files_of tables.now)) }
    ensures fit { IfOk result (λ sizes. FitSections (files_of tables.now) (sizes_of sizes)) }
{
    let pieces = pieces_of(alloc, tables, workers)?;
    let parts = all_parts(rt, alloc, tables, pieces.as_slice(), gate)?;
    let rows = join_rows(alloc, parts)?;
    Ok(Sizes::of(rows))
}

/// The files cut into pieces of about as many sections and relocations each, at most one for each worker; a few sections are one piece.
fn pieces_of(alloc: Global, tables: &Tables, workers: u32) -> Result<Vec<Range<usize>>, AllocError>
    requires some { 1 ≤ workers }
    requires most { workers ≤ 64 }
    ensures tiles { IfOk result (λ pieces. Tiles 0 (length (files_of tables.now)) pieces.items) }
    ensures most { IfOk result (λ pieces. length pieces.items ≤ 64) }
{
    if workers == 1 || tables.section_count() < LEAST {
        return pieces(alloc, tables.file_count(), 1);
    }
    let mut weights = Vec::with_capacity(alloc, tables.file_count())?;
    for file in tables.files() {
        weights.push(weight_of(file))?;
    }
    pieces_by_weight(alloc, weights.as_slice(), workers)
}

/// How many sections and relocations a file has, if it takes part.
fn weight_of(file: &File) -> u64 {
    if !file.is_live() {
        return 0;
    }
    let mut weight = file.sections().len() as u64;
    for index in 0..file.sections().len() {
        weight = weight.saturating_add(file.relocs(index).len() as u64);
    }
    weight
}

/// The cuts of the sections of all files, in parts: each worker makes one, of a piece of the files.
fn all_parts<R: Threads + Sync, G: Gate>(
    rt: &R,
    alloc: Global,
    tables: &Tables,
    pieces: &[Range<usize>],
    gate: &G,
) -> Result<Vec<Rows<Cut>>, AllocError>
    requires tiles { Tiles 0 (length (files_of tables.now)) pieces.now }
    requires most { length pieces.now ≤ 64 }
    ensures { IfOk result (λ parts. spec.AreUnrelaxed (files_of tables.now) 0 (length (files_of tables.now)) (flat_map (λ part. part) parts.items)) }
{
    let found = over_shares(
        rt,
        alloc,
        gate,
        pieces,
        |piece: Range<usize>| -> Result<Vec<Rows<Cut>>, LinkStop>
            requires ordered { piece.start ≤ piece.end }
            requires within { piece.end ≤ length (files_of tables.now) }
            ensures { spec.IsUnrelaxedPart (files_of tables.entry.now) piece result }
        { Ok(part_of(alloc, tables, piece)?) },
    );
    match found {
        Ok(parts) => Ok(parts),
        Err(_) => Err(AllocError),
    }
}

/// The cuts of the sections of a run of files, as one part.
fn part_of(
    alloc: Global,
    tables: &Tables,
    piece: Range<usize>,
) -> Result<Vec<Rows<Cut>>, AllocError>
    requires ordered { piece.start ≤ piece.end }
    requires within { piece.end ≤ length (files_of tables.now) }
    ensures { IfOk result (λ parts. spec.AreUnrelaxed (files_of tables.now) piece.start piece.end (flat_map (λ part. part) parts.items)) }
{
    tables.prove_few();
    let mut rows = Rows::empty(alloc)?;
    for file in piece.start..piece.end {
        push_file(alloc, &mut rows, tables, file as FileNo)?;
    }
    let parts = one_part(alloc, rows)?;
    Ok(parts)
}

/// Adds the cuts of each section of a file.
fn push_file(
    alloc: Global,
    rows: &mut Rows<Cut>,
    tables: &Tables,
    file: FileNo,
) -> Result<(), AllocError>
    requires { file < length (files_of tables.now) }
    ensures views { OnOk result (map cut_views rows.new ≡ map cut_views rows.old ++ section_row (files_of tables.now) (spec.whole_cuts (files_of tables.now)) file) }
    ensures sound { OnOk result (All AreCuts rows.old → All AreCuts rows.new) }
{
    tables.prove_few();
    for index in 0..section_count(tables.file(file)) {
        let cuts = whole_cuts(alloc, tables, file, index as u32)?;
        rows.push(cuts.as_slice())?;
    }
    Ok(())
}

/// The cuts of a section: each alignment, since a call has its eight bytes.
fn whole_cuts(
    alloc: Global,
    tables: &Tables,
    file: FileNo,
    index: u32,
) -> Result<Vec<Cut>, AllocError>
    requires file { file < length (files_of tables.now) }
    requires index { index < section_count (file_at (files_of tables.now) file) }
    ensures views { IfOk result (λ cuts. cut_views cuts.items ≡ spec.whole_cuts (files_of tables.now) file index) }
    ensures sound { IfOk result (λ cuts. AreCuts cuts.items) }
{
    let mut cuts = Vec::new(alloc);
    let mut lost: u128 = 0;
    let relocs = tables.relocs(file, index);
    for k in 0..relocs.len() {
        lost = push_cut(&mut cuts, lost, &relocs[k], 8)?;
    }
    Ok(cuts)
}
