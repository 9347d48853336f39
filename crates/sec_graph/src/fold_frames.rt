//! What folding looks at of the unwind records of sections that may be folded (LSB Core, "Exception Frames").

ghost use Rattle.std.specs.Prelude.{◌≡◌, ◌<◌, ◌+◌, ◌-◌, ◌^◌, ◌++◌, All, length, map, flat_map, pos, IfOk, OnOk};
ghost use Rattle.std.specs.Option.{option_map_or};
ghost use Rattle.lk_tables.specs.declared.records.FrameNo.{FrameNo as FrameNoOf};
ghost use Rattle.lk_tables.specs.BindingView.{binding_view};
ghost use Rattle.lk_tables.specs.Files.{section_total};
ghost use Rattle.lk_tables.specs.Frames.{lists_of};
ghost use Rattle.lk_tables.specs.Records.{first_of};
ghost use Rattle.lk_tables.specs.TablesView.{files_of};
ghost use Rattle.lk_tables.specs.Targets.{spot_of};
ghost use Rattle.link_sections.specs.FoldItems.{frame_view, frame_views};
ghost use Rattle.link_sections.specs.PoolViews.{merged_views};
ghost use Rattle.sec_graph.specs.Foldable as spec;
ghost use Rattle.sec_graph.specs.FrameRelocs.{AreFramesOf};

use crate::fold_lists::{contents, fold_reloc};
use crate::frame_relocs::{cie_of, first_of, found, others, others_len, relocs_of, span_of};
use link_sections::{FoldFrame, FoldReloc, Pools};
use lk_base::FileNo;
use lk_tables::{Binding, FrameNo, Frames, Reloc, Spot, Tables, spot_in};
use std::alloc::{AllocError, Global};

/// Bytes of a record's Length, and of its CIE ID or CIE Pointer after that.
const WORD: u64 = 4;

/// FDEs, each with its CIE.
pub fn fold_frames<'a>(
    alloc: Global,
    tables: &Tables<'a>,
    binding: &Binding,
    frames: &Frames,
    fdes: &[FrameNo],
) -> Result<Vec<FoldFrame<'a>>, AllocError>
    requires frames { AreFramesOf (files_of tables.now) (binding_view binding.now) frames.now }
    requires sections { All (λ (number : FrameNoOf). number.section < section_total (files_of tables.now)) fdes.now }
    ensures { IfOk result (λ list. frame_views list.items ≡ map (spec.frame_of (files_of tables.now) (binding_view binding.now)) fdes.now) }
{
    let mut list = Vec::with_capacity(alloc, fdes.len())?;
    for i in 0..fdes.len() {
        list.push(fold_frame(tables, binding, frames, fdes[i]))?;
    }
    Ok(list)
}

/// One FDE with its CIE.
#[tactic(auto, unfolding(crate::specs::Foldable::frame_in))]
fn fold_frame<'a>(
    tables: &Tables<'a>,
    binding: &Binding,
    frames: &Frames,
    fde: FrameNo,
) -> FoldFrame<'a>
    requires frames { AreFramesOf (files_of tables.now) (binding_view binding.now) frames.now }
    requires section { fde.section < section_total (files_of tables.now) }
    ensures { frame_view result ≡ spec.frame_of (files_of tables.now) (binding_view binding.now) fde }
{
    let place = tables.place_of(fde.section);
    let bytes = contents(tables.file(place.file), place.index);
    let cie = cie_of(frames, fde);
    let own = span_of(frames, fde);
    let shared = span_of(frames, cie);
    let relocs = relocs_of(frames, fde);
    let begin = begin_of(tables, binding, place.file, relocs);
    FoldFrame {
        head: part(bytes, own.0, WORD),
        tail: tail_of(bytes, own.0, own.1),
        cie: bytes_of(bytes, shared.0, shared.1),
        offset: begin.0,
        rest: begin.1,
        others: others_len(relocs),
        shared: relocs_of(frames, cie).len() as u64,
    }
}

/// So many bytes from an offset on; what lies past the end is left out.
fn part(bytes: &[u8], from: u64, len: u64) -> &[u8]
    ensures { result.now ≡ spec.part bytes.now from len }
{
    let from = from.min(bytes.len() as u64) as usize;
    let rest = &bytes[from..];
    let len = len.min(rest.len() as u64) as usize;
    &rest[..len]
}

/// The bytes of an FDE after its CIE Pointer.
fn tail_of(bytes: &[u8], from: u64, len: u64) -> &[u8]
    requires { from < 2 ^ 32 }
    ensures { result.now ≡ spec.part bytes.now (from + 8) (len - 4) }
{
    part(bytes, from + 2 * WORD, len.saturating_sub(WORD))
}

/// All bytes of a record.
fn bytes_of(bytes: &[u8], from: u64, len: u64) -> &[u8]
    requires { len < 2 ^ 32 }
    ensures { result.now ≡ spec.part bytes.now from (4 + len) }
{
    part(bytes, from, WORD + len)
}

/// The byte that an FDE's PC Begin stands for, by its offset in its section, and what is to be added to its address.
fn begin_of(tables: &Tables, binding: &Binding, file: FileNo, relocs: &[Reloc]) -> (u64, i64)
    requires { file < length (files_of tables.now) }
    ensures offset { result.0 ≡ option_map_or (λ r. spec.offset_of (spot_of (files_of tables.now) (binding_view binding.now) file r)) (first_of relocs.now) 0 }
    ensures rest { result.1 ≡ option_map_or (λ r. spec.rest_of (spot_of (files_of tables.now) (binding_view binding.now) file r)) (first_of relocs.now) (pos 0) }
{
    let Some(first) = first_of(relocs) else {
        return (0, 0);
    };
    byte_of(spot_in(tables, binding, file, &first))
}

/// The byte that a target stands for.
fn byte_of(target: Spot) -> (u64, i64)
    ensures offset { result.0 ≡ spec.offset_of target }
    ensures rest { result.1 ≡ spec.rest_of target }
{
    match target {
        Spot::Section {
            section: _,
            offset,
            rest,
        } => (offset, rest),
        Spot::Number(_) => (0, 0),
        Spot::Zero => (0, 0),
        Spot::Linker(_) => (0, 0),
        Spot::Unbound => (0, 0),
    }
}

/// Adds for each FDE its relocations but that of PC Begin, and then those of its CIE.
pub fn push_frame_relocs(
    list: &mut Vec<FoldReloc>,
    tables: &Tables,
    binding: &Binding,
    pools: &Pools,
    frames: &Frames,
    fdes: &[FrameNo],
) -> Result<(), AllocError>
    requires { AreFramesOf (files_of tables.now) (binding_view binding.now) frames.now }
    ensures { OnOk result (list.new.items ≡ list.old.items ++ flat_map (spec.frame_fold_relocs (files_of tables.now) (binding_view binding.now) (merged_views pools.now)) fdes.now) }
{
    for fde in fdes {
        push_one(list, tables, binding, pools, frames, *fde)?;
    }
    Ok(())
}

/// Adds those of one FDE and its CIE.
fn push_one(
    list: &mut Vec<FoldReloc>,
    tables: &Tables,
    binding: &Binding,
    pools: &Pools,
    frames: &Frames,
    fde: FrameNo,
) -> Result<(), AllocError>
    requires { AreFramesOf (files_of tables.now) (binding_view binding.now) frames.now }
    ensures { OnOk result (list.new.items ≡ list.old.items ++ spec.frame_fold_relocs (files_of tables.now) (binding_view binding.now) (merged_views pools.now) fde) }
{
    let cie = cie_of(frames, fde);
    push_others(list, tables, binding, pools, frames, fde)?;
    push_shared(list, tables, binding, pools, frames, cie)?;
    Ok(())
}

/// Adds the relocations of an FDE but that of PC Begin.
fn push_others(
    list: &mut Vec<FoldReloc>,
    tables: &Tables,
    binding: &Binding,
    pools: &Pools,
    frames: &Frames,
    fde: FrameNo,
) -> Result<(), AllocError>
    requires { AreFramesOf (files_of tables.now) (binding_view binding.now) frames.now }
    ensures { OnOk result (list.new.items ≡ list.old.items ++ spec.other_relocs (files_of tables.now) (binding_view binding.now) (merged_views pools.now) fde) }
{
    let Some((file, held)) = found(tables, frames, fde) else {
        return Ok(());
    };
    let (before, after) = others(held.relocs.as_slice());
    push_relocs(list, tables, binding, pools, file, held.from, before)?;
    push_relocs(list, tables, binding, pools, file, held.from, after)?;
    Ok(())
}

/// Adds the relocations of a CIE.
fn push_shared(
    list: &mut Vec<FoldReloc>,
    tables: &Tables,
    binding: &Binding,
    pools: &Pools,
    frames: &Frames,
    cie: FrameNo,
) -> Result<(), AllocError>
    requires { AreFramesOf (files_of tables.now) (binding_view binding.now) frames.now }
    ensures { OnOk result (list.new.items ≡ list.old.items ++ spec.cie_relocs (files_of tables.now) (binding_view binding.now) (merged_views pools.now) cie) }
{
    let Some((file, held)) = found(tables, frames, cie) else {
        return Ok(());
    };
    push_relocs(
        list,
        tables,
        binding,
        pools,
        file,
        held.from,
        held.relocs.as_slice(),
    )?;
    Ok(())
}

/// Adds relocations of a record that starts at an offset of its section.
fn push_relocs(
    list: &mut Vec<FoldReloc>,
    tables: &Tables,
    binding: &Binding,
    pools: &Pools,
    file: FileNo,
    from: u64,
    relocs: &[Reloc],
) -> Result<(), AllocError>
    requires { file < length (files_of tables.now) }
    ensures { OnOk result (list.new.items ≡ list.old.items ++ map (spec.record_reloc (files_of tables.now) (binding_view binding.now) (merged_views pools.now) file from) relocs.now) }
{
    for reloc in relocs {
        list.push(record_reloc(tables, binding, pools, file, from, reloc))?;
    }
    Ok(())
}

/// One relocation of a record that starts at an offset of its section.
fn record_reloc(
    tables: &Tables,
    binding: &Binding,
    pools: &Pools,
    file: FileNo,
    from: u64,
    reloc: &Reloc,
) -> FoldReloc
    requires { file < length (files_of tables.now) }
    ensures { result ≡ spec.record_reloc (files_of tables.now) (binding_view binding.now) (merged_views pools.now) file from reloc.now }
{
    let entry = fold_reloc(tables, binding, pools, file, reloc);
    FoldReloc {
        offset: reloc.offset.saturating_sub(from),
        ..entry
    }
}
