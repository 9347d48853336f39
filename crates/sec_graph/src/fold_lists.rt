//! The sections that may be folded.

ghost use Rattle.std.specs.Prelude.{◌≡◌, ◌<◌, ◌^◌, ◌∷◌, ◌++◌, [], All, if◌then◌else◌, length, map, IfOk, OnOk};
ghost use Rattle.std.specs.List.Sorted.{IsStrictlyIncreasing};
ghost use Rattle.lk_tables.specs.BindingView.{binding_view};
ghost use Rattle.lk_tables.specs.Files.{file_at, relocs_at, section_total};
ghost use Rattle.lk_tables.specs.FileView.{file_view};
ghost use Rattle.lk_tables.specs.TablesView.{files_of};
ghost use Rattle.link_sections.specs.FoldItems.{item_view, item_views, sections_of};
ghost use Rattle.link_sections.specs.MergeSections.{contents};
ghost use Rattle.link_sections.specs.PoolViews.{merged_views};
ghost use Rattle.sec_graph.specs.Foldable as spec;
ghost use Rattle.sec_graph.specs.FrameRelocs.{AreFramesOf};

use crate::fold_frames::{fold_frames, push_frame_relocs};
use crate::foldable_names::is_foldable_input;
use crate::frame_relocs::fdes_of;
use link_sections::{FoldItem, FoldReloc, Pools, Target, input_in, input_section, is_kept};
use lk_base::relocations::names_a_symbol;
use lk_base::{FileNo, SecNo};
use lk_tables::{
    Binding, File, Frames, Reloc, Span, Tables, is_section_symbol, output_name, spot_in, text_of,
};
use std::alloc::{AllocError, Global};

/// The sections that may be folded, in order of number: kept code that nothing writes, not empty, whose name has no meaning to the
/// linker, and that is not barred; each with the FDEs of its functions and their CIEs. `kept` and `barred` go by section number; a number past
/// the end of a list is not kept, or not barred. The only error is out of memory.
#[tactic(auto, unfolding(crate::specs::Foldable::items))]
pub fn items<'a>(
    alloc: Global,
    tables: &Tables<'a>,
    binding: &Binding,
    pools: &Pools,
    kept: &[bool],
    barred: &[bool],
    frames: &Frames,
) -> Result<Vec<FoldItem<'a>>, AllocError>
    requires { AreFramesOf (files_of tables.now) (binding_view binding.now) frames.now }
    ensures items { IfOk result (λ list. item_views list.items ≡ spec.items (files_of tables.now) (binding_view binding.now) (merged_views pools.now) kept.now barred.now) }
    ensures order { IfOk result (λ list. IsStrictlyIncreasing (sections_of (item_views list.items))) }
    ensures few { IfOk result (λ list. length list.items < 2 ^ 31) }
{
    tables.prove_few();
    let mut list = Vec::with_capacity(alloc, tables.section_count())?;
    for section in 0..tables.section_count() {
        push_item(
            &mut list,
            alloc,
            tables,
            binding,
            pools,
            kept,
            barred,
            frames,
            section as u32,
        )?;
    }
    Ok(list)
}

/// The numbers of the sections that may be folded, in order: those of `items`. The only error is out of memory.
pub fn foldable(
    alloc: Global,
    tables: &Tables,
    binding: &Binding,
    kept: &[bool],
    barred: &[bool],
) -> Result<Vec<SecNo>, AllocError>
    ensures sections { IfOk result (λ list. list.items ≡ spec.foldable (files_of tables.now) (binding_view binding.now) kept.now barred.now) }
    ensures within { IfOk result (λ list. All (λ n. n < section_total (files_of tables.now)) list.items) }
    ensures order { IfOk result (λ list. IsStrictlyIncreasing list.items) }
{
    tables.prove_few();
    let mut list = Vec::with_capacity(alloc, tables.section_count())?;
    for section in 0..tables.section_count() {
        push_foldable(&mut list, tables, binding, kept, barred, section as u32)?;
    }
    Ok(list)
}

/// Adds the number of a section, if that may be folded.
fn push_foldable(
    list: &mut Vec<SecNo>,
    tables: &Tables,
    binding: &Binding,
    kept: &[bool],
    barred: &[bool],
    section: SecNo,
) -> Result<(), AllocError>
    requires { section < section_total (files_of tables.now) }
    ensures { OnOk result (list.new.items ≡ list.old.items ++ (if spec.is_foldable (files_of tables.now) (binding_view binding.now) kept.now barred.now section then section ∷ [] else [])) }
{
    if is_foldable(tables, binding, kept, barred, section) {
        list.push(section)?;
    }
    Ok(())
}

/// The contents of sections, lent. The only error is out of memory.
pub fn contents_of<'a>(
    alloc: Global,
    tables: &Tables<'a>,
    sections: &[SecNo],
) -> Result<Vec<&'a [u8]>, AllocError>
    requires { All (λ n. n < section_total (files_of tables.now)) sections.now }
    ensures { IfOk result (λ list. map (λ (text : _). text.now) list.items ≡ map (spec.contents_at (files_of tables.now)) sections.now) }
{
    let mut list = Vec::with_capacity(alloc, sections.len())?;
    for i in 0..sections.len() {
        list.push(section_contents(tables, sections[i]))?;
    }
    Ok(list)
}

/// The bytes of the section of a number.
fn section_contents<'a>(tables: &Tables<'a>, section: SecNo) -> &'a [u8]
    requires { section < section_total (files_of tables.now) }
    ensures { result.now ≡ spec.contents_at (files_of tables.now) section }
{
    let place = tables.place_of(section);
    contents(tables.file(place.file), place.index)
}

/// What decides of some sections with which others each is folded, by their places among sections that may be, in order of the places. The
/// only error is out of memory.
pub fn items_at<'a>(
    alloc: Global,
    tables: &Tables<'a>,
    binding: &Binding,
    pools: &Pools,
    frames: &Frames,
    sections: &[SecNo],
    places: &[u32],
) -> Result<Vec<FoldItem<'a>>, AllocError>
    requires frames { AreFramesOf (files_of tables.now) (binding_view binding.now) frames.now }
    requires sections { All (λ n. n < section_total (files_of tables.now)) sections.now }
    requires places { All (λ k. k < length sections.now) places.now }
    ensures { IfOk result (λ list. item_views list.items ≡ map (spec.item_there (files_of tables.now) (binding_view binding.now) (merged_views pools.now) sections.now) places.now) }
{
    let mut list = Vec::with_capacity(alloc, places.len())?;
    for i in 0..places.len() {
        let section = sections[places[i] as usize];
        let item = section_item(alloc, tables, binding, pools, frames, section)?;
        list.push(item)?;
    }
    Ok(list)
}

/// Adds a section, if it may be folded.
fn push_item<'a>(
    list: &mut Vec<FoldItem<'a>>,
    alloc: Global,
    tables: &Tables<'a>,
    binding: &Binding,
    pools: &Pools,
    kept: &[bool],
    barred: &[bool],
    frames: &Frames,
    section: SecNo,
) -> Result<(), AllocError>
    requires section { section < section_total (files_of tables.now) }
    requires frames { AreFramesOf (files_of tables.now) (binding_view binding.now) frames.now }
    ensures { OnOk result (item_views list.new.items ≡ item_views list.old.items ++ spec.item_if (files_of tables.now) (binding_view binding.now) (merged_views pools.now) kept.now barred.now section) }
{
    if !is_foldable(tables, binding, kept, barred, section) {
        return Ok(());
    }
    let item = section_item(alloc, tables, binding, pools, frames, section)?;
    list.push(item)?;
    Ok(())
}

/// The section of a number.
fn section_item<'a>(
    alloc: Global,
    tables: &Tables<'a>,
    binding: &Binding,
    pools: &Pools,
    frames: &Frames,
    section: SecNo,
) -> Result<FoldItem<'a>, AllocError>
    requires section { section < section_total (files_of tables.now) }
    requires frames { AreFramesOf (files_of tables.now) (binding_view binding.now) frames.now }
    ensures { IfOk result (λ item. item_view item ≡ spec.item_of (files_of tables.now) (binding_view binding.now) (merged_views pools.now) section) }
{
    let place = tables.place_of(section);
    item_in(
        alloc,
        tables,
        binding,
        pools,
        frames,
        section,
        place.file,
        place.index,
    )
}

/// Whether a section may be folded.
#[tactic(auto, unfolding(crate::specs::Foldable::is_foldable))]
fn is_foldable(
    tables: &Tables,
    binding: &Binding,
    kept: &[bool],
    barred: &[bool],
    section: SecNo,
) -> bool
    requires { section < section_total (files_of tables.now) }
    ensures { result ≡ spec.is_foldable (files_of tables.now) (binding_view binding.now) kept.now barred.now section }
{
    is_kept(kept, section as usize)
        && (!is_barred(barred, section)
            && is_foldable_input(&input_section(tables, binding, section)))
}

/// Whether a section is barred; past the end of the list none is.
fn is_barred(barred: &[bool], section: SecNo) -> bool
    ensures { result ≡ spec.is_barred barred.now section }
{
    match barred.get(section as usize) {
        Some(barred) => *barred,
        None => false,
    }
}

/// Section number `section`, which has an index of a file.
#[tactic(auto, unfolding(crate::specs::Foldable::item_in))]
fn item_in<'a>(
    alloc: Global,
    tables: &Tables<'a>,
    binding: &Binding,
    pools: &Pools,
    frames: &Frames,
    section: SecNo,
    file: FileNo,
    index: u32,
) -> Result<FoldItem<'a>, AllocError>
    requires file { file < length (files_of tables.now) }
    requires section { section < section_total (files_of tables.now) }
    requires frames { AreFramesOf (files_of tables.now) (binding_view binding.now) frames.now }
    ensures { IfOk result (λ item. item_view item ≡ spec.item_in (files_of tables.now) (binding_view binding.now) (merged_views pools.now) section file index) }
{
    let input = input_in(tables, binding, file, index);
    let own = tables.relocs(file, index);
    let fdes = fdes_of(tables, binding, frames, section as usize);
    let mut relocs = fold_relocs(alloc, tables, binding, pools, file, own)?;
    push_frame_relocs(&mut relocs, tables, binding, pools, frames, fdes)?;
    let list = fold_frames(alloc, tables, binding, frames, fdes)?;
    Ok(FoldItem {
        section,
        bytes: contents(tables.file(file), index),
        flags: input.flags,
        sh_type: input.sh_type,
        align: input.align,
        output: output_name(input.name),
        own: own.len() as u64,
        frames: list,
        relocs,
    })
}

/// The bytes of a section.
#[tactic(auto, unfolding(link_sections::specs::MergeSections::contents, lk_tables::specs::Names::text_of))]
pub fn contents<'a>(file: &File<'a>, index: u32) -> &'a [u8]
    ensures { result.now ≡ contents (file_view file.now) index }
{
    let section = file.section(index as usize);
    text_of(
        file.bytes(),
        &Span {
            file: 0,
            from: section.offset,
            len: section.size,
        },
    )
}

/// The relocations of a section of a file.
fn fold_relocs(
    alloc: Global,
    tables: &Tables,
    binding: &Binding,
    pools: &Pools,
    file: FileNo,
    relocs: &[Reloc],
) -> Result<Vec<FoldReloc>, AllocError>
    requires { file < length (files_of tables.now) }
    ensures { IfOk result (λ list. list.items ≡ map (spec.fold_reloc (files_of tables.now) (binding_view binding.now) (merged_views pools.now) file) relocs.now) }
{
    let mut list = Vec::with_capacity(alloc, relocs.len())?;
    for reloc in relocs {
        list.push(fold_reloc(tables, binding, pools, file, reloc))?;
    }
    Ok(list)
}

/// One relocation of a file.
pub fn fold_reloc(
    tables: &Tables,
    binding: &Binding,
    pools: &Pools,
    file: FileNo,
    reloc: &Reloc,
) -> FoldReloc
    requires { file < length (files_of tables.now) }
    ensures { result ≡ spec.fold_reloc (files_of tables.now) (binding_view binding.now) (merged_views pools.now) file reloc.now }
{
    let symbol = tables.file(file).symbol(reloc.symbol as usize);
    FoldReloc {
        offset: reloc.offset,
        kind: reloc.kind,
        addend: reloc.addend,
        is_section_symbol: is_section_symbol(&symbol),
        target: fold_target(tables, binding, pools, file, reloc),
    }
}

/// What a relocation of a file stands for, if its kind names a symbol.
#[tactic(auto, unfolding(crate::specs::Foldable::fold_target))]
fn fold_target(
    tables: &Tables,
    binding: &Binding,
    pools: &Pools,
    file: FileNo,
    reloc: &Reloc,
) -> Option<Target>
    requires { file < length (files_of tables.now) }
    ensures { result ≡ spec.fold_target (files_of tables.now) (binding_view binding.now) (merged_views pools.now) file reloc.now }
{
    if !names_a_symbol(reloc.kind) {
        return None;
    }
    Some(pools.piece_target(spot_in(tables, binding, file, reloc)))
}
