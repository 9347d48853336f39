//! The sections that unwind records name (LSB Core, "Exception Frames").

ghost use Rattle.std.specs.Prelude.{◌≡◌, ◌<◌, ◌++◌, length, map, flat_map, OnOk};
ghost use Rattle.lk_tables.specs.BindingView.{binding_view};
ghost use Rattle.lk_tables.specs.Frames.{all_lists};
ghost use Rattle.lk_tables.specs.TablesView.{files_of};
ghost use Rattle.sec_graph.specs.FrameKeys.{number_of};
ghost use Rattle.sec_graph.specs.FrameRelocs.{AreFramesOf};
ghost use Rattle.sec_graph.specs.FrameRelocs as relocs_spec;
ghost use Rattle.sec_graph.specs.Graph as spec;

use crate::frame_relocs::{cie_of, cies_of, found, others};
use lk_base::relocations::names_a_symbol;
use lk_base::{FileNo, SecNo};
use lk_tables::{Binding, FrameNo, Frames, Reloc, Spot, Tables, spot_in};
use std::alloc::{AllocError, Global};

/// Adds the sections that FDEs name beside those of their functions, and then those that their CIEs name.
#[tactic(auto, unfolding(crate::specs::Graph::frame_ends))]
pub fn push_frames(
    ends: &mut Vec<SecNo>,
    alloc: Global,
    tables: &Tables,
    binding: &Binding,
    frames: &Frames,
    fdes: &[FrameNo],
) -> Result<(), AllocError>
    requires { AreFramesOf (files_of tables.now) (binding_view binding.now) frames.now }
    ensures { OnOk result (ends.new.items ≡ ends.old.items ++ spec.frame_ends (files_of tables.now) (binding_view binding.now) fdes.now) }
{
    if fdes.is_empty() {
        return Ok(());
    }
    push_fdes(ends, tables, binding, frames, fdes)?;
    push_cies(ends, alloc, tables, binding, frames, fdes)?;
    Ok(())
}

/// Adds the sections that FDEs name beside those of their functions.
fn push_fdes(
    ends: &mut Vec<SecNo>,
    tables: &Tables,
    binding: &Binding,
    frames: &Frames,
    fdes: &[FrameNo],
) -> Result<(), AllocError>
    requires { AreFramesOf (files_of tables.now) (binding_view binding.now) frames.now }
    ensures { OnOk result (ends.new.items ≡ ends.old.items ++ flat_map (spec.fde_ends (files_of tables.now) (binding_view binding.now)) fdes.now) }
{
    for fde in fdes {
        push_fde(ends, tables, binding, frames, *fde)?;
    }
    Ok(())
}

/// Adds those of one FDE.
fn push_fde(
    ends: &mut Vec<SecNo>,
    tables: &Tables,
    binding: &Binding,
    frames: &Frames,
    fde: FrameNo,
) -> Result<(), AllocError>
    requires { AreFramesOf (files_of tables.now) (binding_view binding.now) frames.now }
    ensures { OnOk result (ends.new.items ≡ ends.old.items ++ spec.fde_ends (files_of tables.now) (binding_view binding.now) fde) }
{
    let Some((file, held)) = found(tables, frames, fde) else {
        return Ok(());
    };
    let (before, after) = others(held.relocs.as_slice());
    push_targets(ends, tables, binding, file, before)?;
    push_targets(ends, tables, binding, file, after)?;
    Ok(())
}

/// Adds the sections that the CIEs of FDEs name, each CIE once.
fn push_cies(
    ends: &mut Vec<SecNo>,
    alloc: Global,
    tables: &Tables,
    binding: &Binding,
    frames: &Frames,
    fdes: &[FrameNo],
) -> Result<(), AllocError>
    requires { AreFramesOf (files_of tables.now) (binding_view binding.now) frames.now }
    ensures { OnOk result (ends.new.items ≡ ends.old.items ++ flat_map (spec.cie_ends (files_of tables.now) (binding_view binding.now)) (relocs_spec.cies_of (all_lists (files_of tables.now)) fdes.now)) }
{
    if fdes.len() == 1 {
        let cie = cie_of(frames, fdes[0]);
        push_cie(ends, tables, binding, frames, cie)?;
        return Ok(());
    }
    let cies = cies_of(alloc, frames, fdes)?;
    push_all(ends, tables, binding, frames, cies.as_slice())?;
    Ok(())
}

/// Adds those that records name of these sections and numbers.
fn push_all(
    ends: &mut Vec<SecNo>,
    tables: &Tables,
    binding: &Binding,
    frames: &Frames,
    cies: &[(SecNo, u32)],
) -> Result<(), AllocError>
    requires { AreFramesOf (files_of tables.now) (binding_view binding.now) frames.now }
    ensures { OnOk result (ends.new.items ≡ ends.old.items ++ flat_map (spec.cie_ends (files_of tables.now) (binding_view binding.now)) (map number_of cies.now)) }
{
    for i in 0..cies.len() {
        let cie = FrameNo {
            section: cies[i].0,
            at: cies[i].1,
        };
        push_cie(ends, tables, binding, frames, cie)?;
    }
    Ok(())
}

/// Adds those that a CIE names.
fn push_cie(
    ends: &mut Vec<SecNo>,
    tables: &Tables,
    binding: &Binding,
    frames: &Frames,
    cie: FrameNo,
) -> Result<(), AllocError>
    requires { AreFramesOf (files_of tables.now) (binding_view binding.now) frames.now }
    ensures { OnOk result (ends.new.items ≡ ends.old.items ++ spec.cie_ends (files_of tables.now) (binding_view binding.now) cie) }
{
    let Some((file, held)) = found(tables, frames, cie) else {
        return Ok(());
    };
    push_targets(ends, tables, binding, file, held.relocs.as_slice())?;
    Ok(())
}

/// Adds the sections that relocations of records of a file name.
fn push_targets(
    ends: &mut Vec<SecNo>,
    tables: &Tables,
    binding: &Binding,
    file: FileNo,
    relocs: &[Reloc],
) -> Result<(), AllocError>
    requires { file < length (files_of tables.now) }
    ensures { OnOk result (ends.new.items ≡ ends.old.items ++ flat_map (spec.record_target (files_of tables.now) (binding_view binding.now) file) relocs.now) }
{
    for reloc in relocs {
        push_target(ends, tables, binding, file, reloc)?;
    }
    Ok(())
}

/// Adds the section in which a relocation stands.
#[tactic(auto, unfolding(crate::specs::Graph::record_target))]
fn push_target(
    ends: &mut Vec<SecNo>,
    tables: &Tables,
    binding: &Binding,
    file: FileNo,
    reloc: &Reloc,
) -> Result<(), AllocError>
    requires { file < length (files_of tables.now) }
    ensures { OnOk result (ends.new.items ≡ ends.old.items ++ spec.record_target (files_of tables.now) (binding_view binding.now) file reloc.now) }
{
    if !names_a_symbol(reloc.kind) {
        return Ok(());
    }
    if let Spot::Section { section, .. } = spot_in(tables, binding, file, reloc) {
        ends.push(section)?;
    }
    Ok(())
}
