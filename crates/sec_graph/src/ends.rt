//! The sections to which the sections of a file lead.

ghost use Rattle.std.specs.Prelude.{◌≡◌, ◌<◌, ◌++◌, ◌∷◌, [], true, length, map, flat_map, IfOk, OnOk};
ghost use Rattle.lk_tables.specs.BindingView.{binding_view};
ghost use Rattle.lk_tables.specs.Files.{file_at, section_count};
ghost use Rattle.lk_tables.specs.TablesView.{files_of};
ghost use Rattle.lk_tables.specs.LinkerSymbols.{bound_section, bound_sections, is_bound_no};
ghost use Rattle.lk_tables.proofs.ByNumber.{section_row};
ghost use Rattle.sec_graph.specs.FrameRelocs.{AreFramesOf};
ghost use Rattle.sec_graph.specs.Graph as spec;
ghost use Rattle.sec_graph.specs.NamedSections.{HasNamed, IsKnown};

use crate::frame_ends::push_frames;
use crate::frame_relocs::fdes_of;
use crate::named_sections::{NamedSections, sections_named};
use crate::pairs::{Pair, pairs_from, pairs_of};
use flat_rows::Rows;
use link_sections::{input_section, may_stay};
use lk_base::relocations::names_a_symbol;
use lk_base::{FileNo, SecNo};
use lk_tables::{Binding, Frames, Reloc, Spot, Tables, bound_section, section_count, spot_in};
use std::alloc::{AllocError, Global};

/// For each section number of a file, in order, the sections to which that leads.
pub fn file_ends(
    alloc: Global,
    tables: &Tables,
    binding: &Binding,
    frames: &Frames,
    named: &NamedSections,
    file: FileNo,
) -> Result<Rows<SecNo>, AllocError>
    requires file { file < length (files_of tables.now) }
    requires frames { AreFramesOf (files_of tables.now) (binding_view binding.now) frames.now }
    requires named { HasNamed (files_of tables.now) (binding_view binding.now) named.now }
    ensures { IfOk result (λ rows. rows ≡ section_row (files_of tables.now) (spec.ends_in (files_of tables.now) (binding_view binding.now)) file) }
{
    if !tables.file(file).is_live() {
        return Rows::empty(alloc);
    }
    let pairs = pairs_of(alloc, tables, binding, file)?;
    live_ends(
        alloc,
        tables,
        binding,
        frames,
        named,
        file,
        pairs.as_slice(),
    )
}

/// For each section number of a file that takes part, in order, the sections to which that leads; the pairs of the file are known.
fn live_ends(
    alloc: Global,
    tables: &Tables,
    binding: &Binding,
    frames: &Frames,
    named: &NamedSections,
    file: FileNo,
    pairs: &[Pair],
) -> Result<Rows<SecNo>, AllocError>
    requires file { file < length (files_of tables.now) }
    requires live { (file_at (files_of tables.now) file).live ≡ true }
    requires frames { AreFramesOf (files_of tables.now) (binding_view binding.now) frames.now }
    requires named { HasNamed (files_of tables.now) (binding_view binding.now) named.now }
    requires pairs { spec.AreBySection (spec.joined_in (files_of tables.now) (binding_view binding.now) file) pairs.now }
    ensures { IfOk result (λ rows. rows ≡ section_row (files_of tables.now) (spec.ends_in (files_of tables.now) (binding_view binding.now)) file) }
{
    tables.prove_few();
    let mut rows = Rows::empty(alloc)?;
    for index in 0..section_count(tables.file(file)) {
        let ends = section_ends(
            alloc,
            tables,
            binding,
            frames,
            named,
            file,
            index as u32,
            pairs,
        )?;
        rows.push(ends.as_slice())?;
    }
    Ok(rows)
}

/// The sections to which one section leads: none if it may not be kept.
#[tactic(auto, unfolding(crate::specs::Graph::ends_in))]
fn section_ends(
    alloc: Global,
    tables: &Tables,
    binding: &Binding,
    frames: &Frames,
    named: &NamedSections,
    file: FileNo,
    index: u32,
    pairs: &[Pair],
) -> Result<Vec<SecNo>, AllocError>
    requires file { file < length (files_of tables.now) }
    requires live { (file_at (files_of tables.now) file).live ≡ true }
    requires index { index < section_count (file_at (files_of tables.now) file) }
    requires frames { AreFramesOf (files_of tables.now) (binding_view binding.now) frames.now }
    requires named { HasNamed (files_of tables.now) (binding_view binding.now) named.now }
    requires pairs { spec.AreBySection (spec.joined_in (files_of tables.now) (binding_view binding.now) file) pairs.now }
    ensures { IfOk result (λ ends. ends.items ≡ spec.ends_in (files_of tables.now) (binding_view binding.now) file index) }
{
    let mut ends = Vec::new(alloc);
    if !may_stay(tables, binding, file, index) {
        return Ok(ends);
    }
    push_targets(
        &mut ends,
        tables,
        binding,
        named,
        file,
        tables.relocs(file, index),
    )?;
    let number = tables.section_no(file as usize, index as usize);
    let fdes = fdes_of(tables, binding, frames, number);
    push_frames(&mut ends, alloc, tables, binding, frames, fdes)?;
    push_seconds(&mut ends, pairs_from(pairs, number))?;
    Ok(ends)
}

/// Adds the sections that relocations name, in order of these.
fn push_targets(
    ends: &mut Vec<SecNo>,
    tables: &Tables,
    binding: &Binding,
    named: &NamedSections,
    file: FileNo,
    relocs: &[Reloc],
) -> Result<(), AllocError>
    requires file { file < length (files_of tables.now) }
    requires live { (file_at (files_of tables.now) file).live ≡ true }
    requires named { HasNamed (files_of tables.now) (binding_view binding.now) named.now }
    ensures { OnOk result (ends.new.items ≡ ends.old.items ++ flat_map (spec.target_in (files_of tables.now) (binding_view binding.now) file) relocs.now) }
{
    for reloc in relocs {
        push_target(ends, tables, binding, named, file, reloc)?;
    }
    Ok(())
}

/// Adds the section that a relocation names, or all those of the name to whose start or end it refers.
#[tactic(auto, unfolding(crate::specs::Graph::target_in))]
fn push_target(
    ends: &mut Vec<SecNo>,
    tables: &Tables,
    binding: &Binding,
    named: &NamedSections,
    file: FileNo,
    reloc: &Reloc,
) -> Result<(), AllocError>
    requires file { file < length (files_of tables.now) }
    requires live { (file_at (files_of tables.now) file).live ≡ true }
    requires named { HasNamed (files_of tables.now) (binding_view binding.now) named.now }
    ensures { OnOk result (ends.new.items ≡ ends.old.items ++ spec.target_in (files_of tables.now) (binding_view binding.now) file reloc.now) }
{
    if !names_a_symbol(reloc.kind) {
        return Ok(());
    }
    match spot_in(tables, binding, file, reloc) {
        Spot::Section { section, .. } => {
            ends.push(section)?;
            Ok(())
        }
        Spot::Linker(number) => push_bound(ends, tables, binding, named, number),
        _ => Ok(()),
    }
}

/// Adds all sections of the name whose start or end a symbol of the linker's is; none if it has a fixed name.
#[tactic(auto, unfolding(lk_tables::specs::LinkerSymbols::bound_sections))]
fn push_bound(
    ends: &mut Vec<SecNo>,
    tables: &Tables,
    binding: &Binding,
    named: &NamedSections,
    number: u32,
) -> Result<(), AllocError>
    requires named { HasNamed (files_of tables.now) (binding_view binding.now) named.now }
    requires known { is_bound_no number ≡ true → IsKnown (files_of tables.now) (binding_view binding.now) named.now.names (bound_section number) }
    ensures { OnOk result (ends.new.items ≡ ends.old.items ++ bound_sections (files_of tables.now) (binding_view binding.now) number) }
{
    let Some(section) = bound_section(number) else {
        return Ok(());
    };
    let input = input_section(tables, binding, section);
    push_seconds(ends, sections_named(named, input.name))?;
    Ok(())
}

/// Adds the sections to which pairs lead.
pub fn push_seconds(ends: &mut Vec<SecNo>, pairs: &[Pair]) -> Result<(), AllocError>
    ensures { OnOk result (ends.new.items ≡ ends.old.items ++ map (λ p. p.to) pairs.now) }
{
    ends.reserve(pairs.len())?;
    for pair in pairs {
        ends.push(pair.to)?;
    }
    Ok(())
}
