//! What is made of a link once it is placed: its map and its report, and of its executable all but the bytes, which are made while they are written.

ghost use Rattle.std.specs.Prelude.{◌≡◌, ◌≤◌, [], if◌then◌else◌, length, IfOk};
ghost use Rattle.link_driver.specs.Code.{HaveOwnCuts};
ghost use Rattle.eh_frame.specs.FrameLaws.{ArePlain};
ghost use Rattle.eh_frame.specs.Plan.{plan_of};
ghost use Rattle.elf_out.specs.Prepared.{IsPreparedFor};
ghost use Rattle.elf_out.specs.Standing.{FitFrames, HasHeaderRoom};
ghost use Rattle.elf_out.specs.TablesView.{frame_contents};
ghost use Rattle.link_sections.specs.GotUses.{HasAllUses};
ghost use Rattle.layout.specs.Layout.{frame_sizes};
ghost use Rattle.layout.specs.Spots.{HasFrames};
ghost use Rattle.link_sections.specs.GotView.{entries_of};
ghost use Rattle.link_sections.specs.Sound.{IsSound};
ghost use Rattle.link_sections.specs.Views.{binding_in, by_view, files_in, laid_in, leaders_in};
ghost use Rattle.lk_base.specs.Firsts.{Goes};
ghost use Rattle.lk_tables.specs.BindingView.{binding_view};
ghost use Rattle.lk_tables.specs.BoundNames.{IsBindingOf};
ghost use Rattle.lk_tables.specs.FramePlans.{plan_view};
ghost use Rattle.lk_tables.specs.Frames.{AreListsWithin, all_lists, lists_of as record_lists};
ghost use Rattle.lk_tables.specs.NameNumbers.{NumbersNames, heads_alone};
ghost use Rattle.lk_tables.specs.TablesView.{files_of};
ghost use Rattle.lk_tables.specs.Uppers.{AreListed, section_uppers};
ghost use Rattle.link_passes.specs.Contents.{names_of};
ghost use Rattle.link_driver.specs.Linked.{IsMade, written_view};
ghost use Rattle.link_driver.specs.Phases.{IsWritten, StandsWhole};
ghost use Rattle.link_driver.specs.Symbols.{SymbolsStand};
ghost use Rattle.link_driver.specs.Placing.{laid_by};
ghost use Rattle.link_passes.specs.Tables.{link_options};
ghost use Rattle.link_driver.specs.Unwound.{Unwinds};
ghost use Rattle.link_driver.specs.Values.{Leaves, contents_with, value_defects};
ghost use Rattle.reloc_apply.specs.Relocated.{relocation_defects};
ghost use Rattle.map_file.specs.MapView.{map_in};
ghost use Rattle.output_sections.specs.Items.{AreLeaders};

use crate::code::prove_code_stands;
use crate::frames::write_frames;
use crate::placing::Placement;
use crate::reports::report_if;
use elf_out::{BLOCK, Prepared, prepare, prove_file_stands};
use link_passes::Options;
use link_sections::{Addresses, View};
use lk_base::LinkStop;
use lk_tables::{Binding, File, FrameBytes, FramePlan, NameNumbers, Tables, Uppers};
use map_file::map_text;
use std::alloc::{AllocError, Global};
use std::thread::{Threads, join_mut};
use symbol_addresses::find_addresses;
use work_split::{Gate, OpenGate};

/// What is made of a link that is placed.
#[derive(Drop)]
pub struct Written {
    pub addresses: Addresses,
    /// What `.eh_frame_hdr` and `.eh_frame` hold.
    pub frames: FrameBytes,
    /// What the executable has beside its sections and these.
    pub prepared: Prepared,
    /// The bytes of the map, none if no map is asked for.
    pub map: Vec<u8>,
    /// What is said of the link.
    pub report: Vec<u8>,
    /// Room for the blocks of the executable that are made at the same time.
    pub window: Vec<u8>,
}

/// What is settled of a link before its executable is begun.
#[derive(Drop)]
pub struct Settled<'a, 't> {
    /// The upper parts of all sections.
    pub uppers: Uppers,
    /// What is written, and where.
    pub placement: Placement<'a, 't>,
    /// What is made of it.
    pub written: Written,
}

/// The map of a link, if one is asked for.
fn map_if<R: Threads + Sync, G: Gate>(
    rt: &R,
    alloc: Global,
    view: &View,
    wanted: bool,
    workers: u32,
    gate: &G,
) -> Result<Vec<u8>, AllocError>
    requires some { 1 ≤ workers }
    requires most { workers ≤ 64 }
    ensures { IfOk result (λ map. map.items ≡ (if wanted then map_in view.now else [])) }
{
    if !wanted {
        return Ok(Vec::new(alloc));
    }
    map_text(rt, alloc, view, workers, gate)
}

/// How many relocations a block has at least, on average, where its bytes are worth a thread: one costs as much as some 50 bytes.
const RELOCS_PER_BLOCK: u64 = 1024;

/// How many relocations a file has, if it takes part.
fn relocations_of(file: &File) -> u64 {
    let mut count: u64 = 0;
    if file.is_live() {
        for index in 0..file.sections().len() {
            count = count.saturating_add(file.relocs(index).len() as u64);
        }
    }
    count
}

/// Whether the relocations of a link are so many that workers make the blocks of its file sooner than one does.
fn are_worth_workers(tables: &Tables, blocks: u64) -> bool {
    let least = blocks.saturating_mul(RELOCS_PER_BLOCK);
    let mut count: u64 = 0;
    for file in tables.files() {
        count = count.saturating_add(relocations_of(file));
        if least <= count {
            return true;
        }
    }
    false
}

/// Zeros for the blocks of a file that are made at the same time: one for each worker, but no more than the file has, or one alone where most of
/// the bytes are only copied.
fn window_for(
    alloc: Global,
    tables: &Tables,
    prepared: &Prepared,
    workers: u32,
) -> Result<Vec<u8>, AllocError>
    requires some { 1 ≤ workers }
    requires most { workers ≤ 64 }
    ensures { IfOk result (λ window. 65536 ≤ length window.items) }
{
    let blocks = prepared.file_length() / BLOCK + 1;
    let mut made = 1;
    if are_worth_workers(tables, blocks) {
        made = blocks.min(workers as u64);
    }
    vec![in alloc; 0u8; (BLOCK * made) as usize]
}

/// What `.eh_frame` and `.eh_frame_hdr` hold, and what else is made of the executable before its first block. With two workers or more another
/// thread makes the bytes of the unwind records meanwhile, since neither needs the other. Where a value of one does not fit, its answer is the
/// first defect of all values in order of sections, and else that of the relocations.
fn make_in_parallel<R: Threads + Sync, G: Gate>(
    rt: &R,
    alloc: Global,
    view: &View,
    plan: &FramePlan,
    workers: u32,
    gate: &G,
) -> (Result<FrameBytes, LinkStop>, Result<Prepared, LinkStop>)
    requires some { 1 ≤ workers }
    requires most { workers ≤ 64 }
    requires lead { AreLeaders (files_in view.now) (binding_in view.now) (leaders_in view.now) }
    requires lists { record_lists plan.now.frames.now ≡ all_lists (files_in view.now) }
    requires within { AreListsWithin (files_in view.now) (all_lists (files_in view.now)) }
    requires plain { ArePlain (all_lists (files_in view.now)) }
    requires plan { plan_view plan.now ≡ plan_of (files_in view.now) (binding_in view.now) (laid_in view.now).merging.merged (all_lists (files_in view.now)) (leaders_in view.now) }
    requires framed { HasFrames (frame_sizes plan.now) view.now.layout.now.bounds }
    ensures goes { Leaves result.0 (by_view value_defects view.now (plan_view plan.now)) (by_view relocation_defects view.now) }
    ensures contents { IfOk result.0 (λ frames. frame_contents frames ≡ by_view contents_with view.now (plan_view plan.now)) }
    ensures fit { IfOk result.0 (λ frames. FitFrames view.now.layout.now.bounds (frame_contents frames)) }
    ensures records { IfOk result.0 (λ frames. by_view Unwinds view.now (plan_view plan.now) (frame_contents frames)) }
    ensures tested { Goes result.1 (by_view relocation_defects view.now) }
    ensures prepared { IfOk result.1 (IsPreparedFor view.now) }
{
    if workers == 1 {
        let frames = write_frames(rt, alloc, view, plan, workers, gate);
        return (frames, prepare(rt, alloc, view, workers, gate));
    }
    join_mut(
        rt,
        &mut || -> Result<FrameBytes, LinkStop>
            requires { (1 ≤ workers) × (workers ≤ 64) × AreLeaders (files_in view.now) (binding_in view.now) (leaders_in view.now) × record_lists plan.now.frames.now ≡ all_lists (files_in view.now) × AreListsWithin (files_in view.now) (all_lists (files_in view.now)) × ArePlain (all_lists (files_in view.now)) × plan_view plan.now ≡ plan_of (files_in view.now) (binding_in view.now) (laid_in view.now).merging.merged (all_lists (files_in view.now)) (leaders_in view.now) × HasFrames (frame_sizes plan.now) view.now.layout.now.bounds }
            ensures { Leaves result (by_view value_defects view.entry.now (plan_view plan.entry.now)) (by_view relocation_defects view.entry.now) × IfOk result (λ frames. frame_contents frames ≡ by_view contents_with view.entry.now (plan_view plan.entry.now)) × IfOk result (λ frames. FitFrames view.entry.now.layout.now.bounds (frame_contents frames)) × IfOk result (λ frames. by_view Unwinds view.entry.now (plan_view plan.entry.now) (frame_contents frames)) }
        { write_frames(rt, alloc, view, plan, workers, &OpenGate) },
        &mut || -> Result<Prepared, LinkStop>
            requires { (1 ≤ workers) × (workers ≤ 64) }
            ensures { Goes result (by_view relocation_defects view.entry.now) × IfOk result (IsPreparedFor view.entry.now) }
        { prepare(rt, alloc, view, workers, gate) },
    )
}

/// What is made of a link that is placed so: what its executable needs, and the map and the report, if these are asked for.
pub fn write<R: Threads + Sync, G: Gate>(
    rt: &R,
    alloc: Global,
    tables: &Tables,
    binding: &Binding,
    kept: &[bool],
    barred: &[bool],
    placement: &Placement,
    uppers: &Uppers,
    numbers: &NameNumbers,
    names: &[Vec<u8>],
    options: Options,
    workers: u32,
    gate: &G,
) -> Result<Written, LinkStop>
    requires some { 1 ≤ workers }
    requires most { workers ≤ 64 }
    requires bound { IsBindingOf (files_of tables.now) (binding_view binding.now) }
    requires numbers { NumbersNames (heads_alone (files_of tables.now)) numbers.now }
    requires listed { AreListed (section_uppers (files_of tables.now)) uppers.now }
    requires lead { AreLeaders (files_of tables.now) (binding_view binding.now) placement.now.leaders.items }
    requires lists { record_lists placement.now.plan.frames.now ≡ all_lists (files_of tables.now) }
    requires within { AreListsWithin (files_of tables.now) (all_lists (files_of tables.now)) }
    requires plain { ArePlain (all_lists (files_of tables.now)) }
    requires plan { plan_view placement.now.plan ≡ plan_of (files_of tables.now) (binding_view binding.now) (laid_by (files_of tables.now) placement.now).merging.merged (all_lists (files_of tables.now)) placement.now.leaders.items }
    requires sound { IsSound (files_of tables.now) (binding_view binding.now) placement.now.leaders.items (laid_by (files_of tables.now) placement.now) }
    requires room { HasHeaderRoom placement.now.layout.bounds }
    requires framed { HasFrames (frame_sizes placement.now.plan) placement.now.layout.bounds }
    requires cuts { HaveOwnCuts (files_of tables.now) placement.now.leaders.items (laid_by (files_of tables.now) placement.now) }
    requires uses { HasAllUses (files_of tables.now) placement.now.leaders.items (entries_of placement.now.got) }
    requires symbols { SymbolsStand (files_of tables.now) (binding_view binding.now) kept.now placement.now.leaders.items (laid_by (files_of tables.now) placement.now) }
    ensures goes { Goes result (value_defects (files_of tables.now) (binding_view binding.now) placement.now.leaders.items (laid_by (files_of tables.now) placement.now) (plan_view placement.now.plan)) }
    ensures made { IfOk result (IsMade (files_of tables.now) (binding_view binding.now) kept.now options.strip placement.now.leaders.items (laid_by (files_of tables.now) placement.now)) }
    ensures written { IfOk result (λ written. IsWritten (link_options options barred.now) (names_of names.now) (files_of tables.now) (binding_view binding.now) kept.now placement.now.leaders.items (laid_by (files_of tables.now) placement.now) (plan_view placement.now.plan)
        (written_view (files_of tables.now) (binding_view binding.now) kept.now options.strip placement.now.leaders.items (laid_by (files_of tables.now) placement.now) written)) }
    ensures stands { IfOk result (λ written. StandsWhole (link_options options barred.now) (files_of tables.now) (binding_view binding.now) kept.now placement.now.leaders.items (laid_by (files_of tables.now) placement.now) (plan_view placement.now.plan)
        (written_view (files_of tables.now) (binding_view binding.now) kept.now options.strip placement.now.leaders.items (laid_by (files_of tables.now) placement.now) written).exe) }
{
    let leaders = placement.leaders.as_slice();
    // Each symbol, and the entry, has its address from here on.
    let addresses = find_addresses(
        rt,
        alloc,
        tables,
        binding,
        &placement.pools,
        leaders,
        &placement.got,
        &placement.layout,
        workers,
        gate,
    )?;
    // One view lends all tables to the passes that follow.
    let view = View {
        tables,
        binding,
        kept,
        pools: &placement.pools,
        leaders,
        got: &placement.got,
        layout: &placement.layout,
        addresses: &addresses,
        uppers,
        numbers,
        names,
        strip: options.strip,
    };
    // Each relocation can be done from here on; headers, symbols and unwind records are made.
    let (framed, made) = make_in_parallel(rt, alloc, &view, &placement.plan, workers, gate);
    let frames = framed?;
    let prepared = made?;
    // Laws of what was made; nothing is computed.
    prove_file_stands(&view, &frames);
    prove_code_stands(&view);
    // The map and the report, where they are asked for.
    let map = map_if(rt, alloc, &view, options.map, workers, gate)?;
    let report = report_if(alloc, &view, options.generated)?;
    // Room for the blocks that are made at the same time.
    let window = window_for(alloc, tables, &prepared, workers)?;
    Ok(Written {
        addresses,
        frames,
        prepared,
        map,
        report,
        window,
    })
}
