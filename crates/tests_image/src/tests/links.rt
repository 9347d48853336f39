//! Links of objects, pass after pass.

ghost use Rattle.std.specs.Prelude.{◌≡◌, ◌<◌, ◌≤◌, length, IfOk};
ghost use Rattle.eh_frame.specs.FrameLaws.{ArePlain};
ghost use Rattle.eh_frame.specs.Plan.{plan_of};
ghost use Rattle.elf_out.specs.Prepared.{IsPreparedFor};
ghost use Rattle.layout.specs.Layout.{frame_sizes};
ghost use Rattle.layout.specs.Spots.{HasFrames};
ghost use Rattle.link_passes.specs.Tables.{MayStay};
ghost use Rattle.link_sections.specs.GotUses.{HasAllUses};
ghost use Rattle.link_sections.specs.GotView.{entries_of};
ghost use Rattle.link_sections.specs.LaidOut.{layout_view, with_contents};
ghost use Rattle.link_sections.specs.PoolViews.{pools_view};
ghost use Rattle.link_sections.specs.Sound.{IsSound};
ghost use Rattle.link_sections.specs.Views.{files_in};
ghost use Rattle.lk_base.specs.Limits.{IsWithinStandard};
ghost use Rattle.lk_tables.specs.BindingView.{binding_view};
ghost use Rattle.lk_tables.specs.BoundNames.{IsBindingOf};
ghost use Rattle.lk_tables.specs.Files.{section_total};
ghost use Rattle.lk_tables.specs.FramePlans.{plan_view};
ghost use Rattle.lk_tables.specs.Frames.{AreListsWithin, all_lists, lists_of};
ghost use Rattle.lk_tables.specs.NameNumbers.{NumbersNames, heads_alone};
ghost use Rattle.lk_tables.specs.Sites.{relocs_of};
ghost use Rattle.lk_tables.specs.TablesView.{files_of};
ghost use Rattle.output_sections.specs.Items.{AreLeaders};
ghost use Rattle.sec_graph.specs.FrameRelocs.{AreFramesOf};

use super::blocks::{Lengths, Slice, blocks_agree, slices_agree, whole_of};
use elf_bytes::{Object, object_of, record};
use elf_out::{Prepared, SymbolTables, prepare, prepare_unchecked};
use got_tls::entries;
use link_driver::{
    Inputs, Options, bind_names, find_frames, find_kept, find_leaders, find_plan, find_sources,
    lay_out, read_files, write_frames,
};
use link_sections::{Addresses, Got, Layout, Pools, View, leads};
use lk_base::{Limits, LinkStop, SecNo};
use lk_tables::{Binding, FramePlan, Frames, NameNumbers, Tables};
use map_file::map_text;
use name_numbers::number_names;
use reloc_apply::value;
use sec_graph::find_uppers;
use std::alloc::{AllocError, Global};
use std::thread::Threads;
use str_merge::{merge, piece_count};
use symbol_addresses::find_addresses;
use symbol_table::table_symbols;
use work_split::OpenGate;

/// What is asked of a link: its entry, what it does, the lengths of the blocks by which its executable is written once more, if it is, and slices
/// of blocks that are looked at, where relocations are not tested before.
#[derive(Clone, Copy)]
pub struct Asked<'a> {
    pub entry: &'a str,
    pub options: Options,
    pub lengths: Option<Lengths>,
    pub slices: &'a [Slice],
}

/// Calls are shortened.
pub const PLAIN: Asked = record!(Asked; entry: "_start", lengths: None, slices: &[],
    options: record!(Options; gc: false, icf: false, relax: true, strip: false, map: false, generated: None));

/// What the passes after the layout give.
#[derive(Drop)]
pub struct Written {
    pub addresses: Addresses,
    pub exe: Vec<u8>,
    pub tables: Option<SymbolTables>,
    pub map: Vec<u8>,
    /// The values of the symbols in order, by one worker and by two.
    pub by_one: Vec<u64>,
    pub by_two: Vec<u64>,
    /// The values of the relocations that have one, of sections that are their own leaders, in order of section number and offset.
    pub relocated: Vec<i128>,
    /// Whether the executable is the same by blocks, and slices of blocks are what they have to be.
    pub agrees: bool,
}

/// What the passes of a link give.
#[derive(Drop)]
pub struct Made<'a> {
    pub pools: Pools,
    pub layout: Layout<'a>,
    pub written: Written,
}

/// The inputs of a link of these objects.
pub fn inputs_of(alloc: Global, objects: &[Object]) -> Result<Inputs, AllocError> {
    let mut files = Vec::new(alloc);
    for object in objects {
        files.push(("object".to_string(alloc)?, object_of(alloc, object)?))?;
    }
    Ok(Inputs { files })
}

/// The names by which the map shows so many files.
fn names_of(alloc: Global, count: usize) -> Result<Vec<Vec<u8>>, AllocError> {
    let mut names = Vec::new(alloc);
    for _ in 0..count {
        names.push(Vec::from_slice(alloc, b"object")?)?;
    }
    Ok(names)
}

/// The values of the symbols in order, by so many workers.
fn values_by<R: Threads + Sync>(
    rt: &R,
    alloc: Global,
    view: &View,
    workers: u32,
) -> Result<Vec<u64>, AllocError>
    requires some { 1 ≤ workers }
    requires most { workers ≤ 64 }
{
    let mut values = Vec::new(alloc);
    let symbols = table_symbols(rt, alloc, view, workers, &OpenGate)?;
    for symbol in symbols.iter() {
        values.push(symbol.value)?;
    }
    Ok(values)
}

/// How many relocations a section has.
fn reloc_count(tables: &Tables, section: SecNo) -> usize
    requires { section < section_total (files_of tables.now) }
    ensures { result ≡ length (relocs_of (files_of tables.now) section) }
{
    let place = tables.place_of(section);
    tables.relocs(place.file, place.index).len()
}

/// Adds the values of a section's relocations that have one, if it is its own leader.
fn push_values(values: &mut Vec<i128>, view: &View, section: SecNo) -> Result<(), AllocError>
    requires { section < section_total (files_in view.now) }
{
    if !leads(view.leaders, section as usize) {
        return Ok(());
    }
    for reloc in 0..reloc_count(view.tables, section) {
        if let Some(found) = value(view, section, reloc) {
            values.push(found)?;
        }
    }
    Ok(())
}

/// The values of the relocations of all sections.
fn values_of(alloc: Global, view: &View) -> Result<Vec<i128>, AllocError> {
    view.tables.prove_few();
    let mut values = Vec::new(alloc);
    for section in 0..view.tables.section_count() as u32 {
        push_values(&mut values, view, section)?;
    }
    Ok(values)
}

/// What is made of a file before its first block. Where slices are looked at no relocation is tested before.
fn prepared_for<R: Threads + Sync>(
    rt: &R,
    alloc: Global,
    view: &View,
    asked: &Asked,
) -> Result<Prepared, LinkStop>
    ensures { IfOk result (IsPreparedFor view.now) }
{
    if asked.slices.is_empty() {
        return prepare(rt, alloc, view, 2, &OpenGate);
    }
    let prepared = prepare_unchecked(rt, alloc, view, 2, &OpenGate)?;
    Ok(prepared)
}

/// What the passes after the layout give.
fn answers_of<R: Threads + Sync>(
    rt: &R,
    alloc: Global,
    tables: &Tables,
    binding: &Binding,
    kept: &[bool],
    pools: &Pools,
    leaders: &[Option<SecNo>],
    plan: &FramePlan,
    got: &Got,
    layout: &Layout,
    numbers: &NameNumbers,
    asked: &Asked,
) -> Result<Written, LinkStop>
    requires bound { IsBindingOf (files_of tables.now) (binding_view binding.now) }
    requires numbers { NumbersNames (heads_alone (files_of tables.now)) numbers.now }
    requires lead { AreLeaders (files_of tables.now) (binding_view binding.now) leaders.now }
    requires lists { lists_of plan.now.frames.now ≡ all_lists (files_of tables.now) }
    requires within { AreListsWithin (files_of tables.now) (all_lists (files_of tables.now)) }
    requires plain { ArePlain (all_lists (files_of tables.now)) }
    requires plan { plan_view plan.now ≡ plan_of (files_of tables.now) (binding_view binding.now) (with_contents (layout_view layout.now) (pools_view (files_of tables.now) pools.now) (entries_of got.now)).merging.merged (all_lists (files_of tables.now)) leaders.now }
    requires framed { HasFrames (frame_sizes plan.now) layout.now.bounds }
    requires uses { HasAllUses (files_of tables.now) leaders.now (entries_of got.now) }
    requires sound { IsSound (files_of tables.now) (binding_view binding.now) leaders.now (with_contents (layout_view layout.now) (pools_view (files_of tables.now) pools.now) (entries_of got.now)) }
{
    let addresses =
        pass!(find_addresses; rt, alloc, tables, binding, pools, leaders, got, layout, 2, &OpenGate)?;
    let uppers = find_uppers(alloc, tables)?;
    let names = names_of(alloc, tables.file_count())?;
    let view =
        record!(View; tables: tables, binding: binding, kept: kept, pools: pools, leaders: leaders, got: got, layout: layout,
        addresses: &addresses, uppers: &uppers, numbers: numbers, names: names.as_slice(), strip: asked.options.strip);
    let frames = write_frames(rt, alloc, &view, plan, 2, &OpenGate)?;
    let prepared = prepared_for(rt, alloc, &view, asked)?;
    let exe = whole_of(rt, alloc, &view, &frames, &prepared)?;
    let by_lengths = blocks_agree(alloc, &view, &frames, &prepared, &exe, asked.lengths)?;
    let by_slices = slices_agree(alloc, &view, &frames, &prepared, &exe, asked.slices)?;
    let map = map_text(rt, alloc, &view, 2, &OpenGate)?;
    let by_one = values_by(rt, alloc, &view, 1)?;
    let by_two = values_by(rt, alloc, &view, 2)?;
    let relocated = values_of(alloc, &view)?;
    Ok(
        record!(Written; addresses: addresses, exe: exe, tables: prepared.tables, map: map, by_one: by_one, by_two: by_two,
        relocated: relocated, agrees: by_lengths && by_slices),
    )
}

/// What the passes after the names are bound give.
fn kept_made<'a, R: Threads + Sync>(
    rt: &R,
    alloc: Global,
    limits: &Limits,
    tables: &Tables<'a>,
    binding: &Binding,
    frames: &Frames,
    kept: &[bool],
    asked: &Asked,
) -> Result<Made<'a>, LinkStop>
    requires limits { IsWithinStandard limits.now }
    requires bound { IsBindingOf (files_of tables.now) (binding_view binding.now) }
    requires frames { AreFramesOf (files_of tables.now) (binding_view binding.now) frames.now }
    requires plain { ArePlain (all_lists (files_of tables.now)) }
    requires stay { MayStay (files_of tables.now) (binding_view binding.now) kept.now }
{
    tables.prove_few();
    let options = asked.options;
    let numbers = number_names(rt, alloc, tables.files(), 2, &OpenGate)?;
    if piece_count(tables) >= 1 << 31 {
        return Err(LinkStop::Memory);
    }
    let pools = merge(rt, alloc, tables, kept, 2, &OpenGate)?;
    let leaders =
        pass!(find_leaders; rt, alloc, tables, binding, frames, kept, &[], &pools, options, 2, &OpenGate)?;
    let plan =
        pass!(find_plan; rt, alloc, tables, binding, frames, kept, &[], &pools, leaders.as_slice(), options, 2, &OpenGate)?;
    let uppers = find_uppers(alloc, tables)?;
    let got = entries(alloc, tables, &numbers, &uppers, leaders.as_slice())?;
    let layout = match pass!(lay_out;
        rt, alloc, limits, tables, binding, kept, &[], &pools, leaders.as_slice(), &plan, &got, options, 2, &OpenGate)
    {
        Ok(layout) => layout,
        Err(stop) => return Err(stop),
    };
    let written =
        pass!(answers_of; rt, alloc, tables, binding, kept, &pools, leaders.as_slice(), &plan, &got, &layout, &numbers, asked)?;
    Ok(record!(Made; pools: pools, layout: layout, written: written))
}

/// What the passes of a link within limits give.
pub fn run_within<'a, R: Threads + Sync>(
    rt: &R,
    alloc: Global,
    limits: &Limits,
    inputs: &'a Inputs,
    asked: &Asked,
) -> Result<Made<'a>, LinkStop>
    requires { IsWithinStandard limits.now }
{
    let sources = find_sources(alloc, limits, inputs)?;
    let (tables, records) =
        match pass!(read_files; rt, alloc, limits, sources.as_slice(), &[], 2, &OpenGate) {
            Ok(both) => both,
            Err(stop) => return Err(stop),
        };
    let binding = match bind_names(rt, alloc, &tables, asked.entry, 2, &OpenGate) {
        Ok(binding) => binding,
        Err(stop) => return Err(stop),
    };
    let frames = find_frames(rt, alloc, &tables, &binding, records, 2, &OpenGate)?;
    let kept = pass!(find_kept; rt, alloc, &tables, &binding, &frames, false, &[], 2, &OpenGate)?;
    pass!(kept_made; rt, alloc, limits, &tables, &binding, &frames, kept.as_slice(), asked)
}

/// What the passes of a link give.
pub fn run_passes<'a, R: Threads + Sync>(
    rt: &R,
    alloc: Global,
    inputs: &'a Inputs,
    asked: &Asked,
) -> Result<Made<'a>, LinkStop> {
    run_within(rt, alloc, &Limits::standard(), inputs, asked)
}
