//! The link of one command, pass after pass.

ghost use Rattle.std.specs.Prelude.{◌≡◌, ◌<◌, ◌≤◌, ◌^◌, true, map, IfOk, IfSome};
ghost use Rattle.link_driver.specs.Code.{HaveOwnCuts};
ghost use Rattle.link_passes.specs.Leaders.{AreAlike, GoWithLeaders};
ghost use Rattle.link_driver.specs.Reach.{CallsReach};
ghost use Rattle.eh_frame.specs.FrameLaws.{ArePlain};
ghost use Rattle.eh_frame.specs.Laws.{IsSmall};
ghost use Rattle.elf_out.specs.Standing.{HasHeaderRoom};
ghost use Rattle.output_sections.specs.Items.{AreLeaders};
ghost use Rattle.layout.specs.Layout.{frame_sizes, layout_defects};
ghost use Rattle.layout.specs.Spots.{HasFrames};
ghost use Rattle.link_command.specs.Command.{command_view};
ghost use Rattle.link_sections.specs.GotView.{entries_of};
ghost use Rattle.link_sections.specs.LaidOut.{layout_view, with_contents};
ghost use Rattle.link_sections.specs.Merging.{piece_count, pools_of};
ghost use Rattle.link_sections.specs.PoolViews.{merged_views, pools_view};
ghost use Rattle.link_sections.specs.Sound.{IsSound};
ghost use Rattle.lk_base.specs.Firsts.{Goes};
ghost use Rattle.lk_base.specs.Limits.{IsWithinStandard};
ghost use Rattle.lk_tables.specs.BoundNames.{IsBindingOf};
ghost use Rattle.lk_tables.specs.Binding.{first_phase};
ghost use Rattle.lk_tables.specs.BindingView.{binding_view};
ghost use Rattle.lk_tables.specs.FramePlans.{plan_view};
ghost use Rattle.lk_tables.specs.Frames.{all_lists};
ghost use Rattle.lk_tables.specs.TablesView.{files_of, have_numbers};
ghost use Rattle.link_driver.specs.Certificates.{why_text};
ghost use Rattle.link_passes.specs.Contents.{input_contents, input_names, names_of, sources_of};
ghost use Rattle.link_passes.specs.Known.{AreHeads};
ghost use Rattle.link_driver.specs.Laws.{AreCounted, AreLeast};
ghost use Rattle.link_passes.specs.Passes.{leaders_in, plan_in, table_of};
ghost use Rattle.link_driver.specs.Link.{laid_out, last_phases, placing_phases};
ghost use Rattle.link_driver.specs.Linked.{IsSettled, settled_view};
ghost use Rattle.link_driver.specs.Phases.{AfterLink, HoldsPast, LinkStands, Makes, ShortenedCallsReach};
ghost use Rattle.link_passes.specs.Sources.{shown_files, sources};
ghost use Rattle.link_driver.specs.Symbols.{SymbolsStand};
ghost use Rattle.link_passes.specs.Tables.{IsGraph, MayStay, link_options};
ghost use Rattle.sec_graph.specs.FrameRelocs.{AreFramesOf};

use crate::certificates::{asks_why, wants_names, why_text};
use crate::linked::Linked;
use crate::placing::place_and_check;
use crate::reaching::prove_calls_reach;
use crate::shown::names_if;
use crate::writing::{Settled, write};
use layout::place;
use link_command::Command;
use link_passes::{
    Inputs, Options, SectionGraph, Source, bind_and_count, find_barred, find_frames, find_kept_by,
    find_sources, numbers_of, options_of, read_files_after,
};
use link_sections::{Got, Layout, Pools};
use lk_base::{Limits, LinkStop, SecNo};
use lk_tables::{Binding, FramePlan, Frames, Head, Tables};
use output_sections::order_sections;
use relax::sizes;
use std::alloc::{AllocError, Global};
use std::thread::{Threads, join_mut};
use str_merge::piece_count;
use work_split::Gate;

/// Where everything stands, given what is merged, which sections and unwind records are written and what the linker's table has.
///
/// Stops at the first alignment that needs more bytes than it has, by section and offset; else where there are more output sections than a link
/// may have; else where the image is not below its limit. Or it is out of memory.
#[tactic(auto, unfolding(crate::specs::Link::laid_out, crate::specs::Link::cuts_in))]
pub fn lay_out<'a, R: Threads + Sync, G: Gate>(
    rt: &R,
    alloc: Global,
    limits: &Limits,
    tables: &Tables<'a>,
    binding: &Binding,
    kept: &[bool],
    barred: &[bool],
    pools: &Pools,
    leaders: &[Option<SecNo>],
    plan: &FramePlan,
    got: &Got,
    options: Options,
    workers: u32,
    gate: &G,
) -> Result<Layout<'a>, LinkStop>
    requires limits { IsWithinStandard limits.now }
    requires some { 1 ≤ workers }
    requires most { workers ≤ 64 }
    requires bound { IsBindingOf (files_of tables.now) (binding_view binding.now) }
    requires stay { MayStay (files_of tables.now) (binding_view binding.now) kept.now }
    requires lead { AreLeaders (files_of tables.now) (binding_view binding.now) leaders.now }
    requires alike { AreAlike (files_of tables.now) (binding_view binding.now) leaders.now }
    requires outputs { GoWithLeaders (files_of tables.now) (binding_view binding.now) kept.now (merged_views pools.now) leaders.now }
    requires pools { pools_view (files_of tables.now) pools.now ≡ pools_of (files_of tables.now) kept.now }
    requires leaders { leaders.now ≡ leaders_in (link_options options barred.now) (files_of tables.now) (binding_view binding.now) kept.now }
    requires plan { plan_view plan.now ≡ plan_in (link_options options barred.now) (files_of tables.now) (binding_view binding.now) kept.now }
    requires small { IsSmall (plan_view plan.now) }
    requires table { entries_of got.now ≡ table_of (link_options options barred.now) (files_of tables.now) (binding_view binding.now) kept.now }
    ensures goes { Goes result (layout_defects limits.now (files_of tables.now) (laid_out (link_options options barred.now) (files_of tables.now) (binding_view binding.now) kept.now)) }
    ensures laid { IfOk result (λ layout. with_contents (layout_view layout) (pools_view (files_of tables.now) pools.now) (entries_of got.now) ≡ laid_out (link_options options barred.now) (files_of tables.now) (binding_view binding.now) kept.now) }
    ensures sound { IfOk result (λ layout. IsSound (files_of tables.now) (binding_view binding.now) leaders.now (with_contents (layout_view layout) (pools_view (files_of tables.now) pools.now) (entries_of got.now))) }
    ensures room { IfOk result (λ layout. HasHeaderRoom layout.bounds) }
    ensures framed { IfOk result (λ layout. HasFrames (frame_sizes plan.now) layout.bounds) }
    ensures reach { IfOk result (λ layout. CallsReach (files_of tables.now) (binding_view binding.now) leaders.now (with_contents (layout_view layout) (pools_view (files_of tables.now) pools.now) (entries_of got.now))) }
    ensures cuts { IfOk result (λ layout. HaveOwnCuts (files_of tables.now) leaders.now (with_contents (layout_view layout) (pools_view (files_of tables.now) pools.now) (entries_of got.now))) }
    ensures symbols { IfOk result (λ layout. SymbolsStand (files_of tables.now) (binding_view binding.now) kept.now leaders.now (with_contents (layout_view layout) (pools_view (files_of tables.now) pools.now) (entries_of got.now))) }
{
    let on = options.relax;
    // Each output section and its members have their order from here on.
    let sections = order_sections(
        rt, alloc, tables, binding, pools, got, leaders, workers, gate,
    )?;
    // Each call has its size from here on.
    let sizes = sizes(
        rt, alloc, tables, binding, pools, leaders, &sections, on, workers, gate,
    )?;
    // Everything has its address, and each alignment the bytes that it keeps, from here on.
    let layout = place(
        alloc, tables, binding, pools, got, leaders, &sections, &sizes, plan, limits,
    )?;
    // A law of these sizes and this layout; nothing is computed.
    prove_calls_reach(
        tables, binding, pools, got, leaders, &sections, &sizes, plan, &layout, limits, on,
    );
    Ok(layout)
}

/// What is made of files whose names are bound and numbered, if these sections are kept. Files are shown by `names`.
fn link_kept<'a, 't, R: Threads + Sync, G: Gate>(
    rt: &R,
    alloc: Global,
    limits: &Limits,
    tables: &Tables<'a>,
    binding: &Binding,
    frames: &'t Frames,
    kept: &[bool],
    barred: &[bool],
    names: &[Vec<u8>],
    options: Options,
    workers: u32,
    gate: &G,
) -> Result<Settled<'a, 't>, LinkStop>
    requires limits { IsWithinStandard limits.now }
    requires some { 1 ≤ workers }
    requires most { workers ≤ 64 }
    requires bound { IsBindingOf (files_of tables.now) (binding_view binding.now) }
    requires numbered { have_numbers tables.now ≡ true }
    requires frames { AreFramesOf (files_of tables.now) (binding_view binding.now) frames.now }
    requires plain { ArePlain (all_lists (files_of tables.now)) }
    requires stay { MayStay (files_of tables.now) (binding_view binding.now) kept.now }
    requires pieces { piece_count (files_of tables.now) < 2 ^ 31 }
    ensures goes { Goes result (first_phase (last_phases limits.now (link_options options barred.now) (files_of tables.now) (binding_view binding.now) kept.now)) }
    ensures settled { IfOk result (IsSettled (files_of tables.now) (binding_view binding.now) kept.now options.strip) }
    ensures written { IfOk result (λ settled. Makes (link_options options barred.now) (names_of names.now) (files_of tables.now) (binding_view binding.now) kept.now (settled_view (files_of tables.now) (binding_view binding.now) kept.now options.strip settled)) }
    ensures stands { IfOk result (λ settled. LinkStands (link_options options barred.now) (files_of tables.now) (binding_view binding.now) kept.now (settled_view (files_of tables.now) (binding_view binding.now) kept.now options.strip settled).exe) }
    ensures reach { HoldsPast result (first_phase (placing_phases limits.now (link_options options barred.now) (files_of tables.now) (binding_view binding.now) kept.now)) (ShortenedCallsReach (link_options options barred.now) (files_of tables.now) (binding_view binding.now) kept.now) }
{
    let numbers = numbers_of(tables);
    // What kept sections refer to is defined, and nothing moves, from here on.
    let (uppers, placement) = place_and_check(
        rt, alloc, limits, tables, binding, frames, kept, barred, numbers, options, workers, gate,
    )?;
    // Each relocation can be done, and no more memory is needed for the executable, from here on.
    let written = write(
        rt, alloc, tables, binding, kept, barred, &placement, &uppers, numbers, names, options,
        workers, gate,
    )?;
    Ok(Settled {
        uppers,
        placement,
        written,
    })
}

/// Whether what a command asks why is found while the rest is made.
fn explains_in_parallel(command: &Command, workers: u32) -> bool {
    workers != 1 && asks_why(command)
}

/// What is made of files whose names are bound and numbered, if these sections are kept, and what is said to what a command asks why. With two workers or
/// more another thread finds the latter meanwhile, since neither needs the other. Files are shown by `names`. The graph by which sections were kept is at
/// hand, or none is.
fn link_and_explain<'a, 't, R: Threads + Sync, G: Gate>(
    rt: &R,
    alloc: Global,
    limits: &Limits,
    tables: &Tables<'a>,
    binding: &Binding,
    frames: &'t Frames,
    graph: &Option<SectionGraph>,
    kept: &[bool],
    barred: &[bool],
    names: &[Vec<u8>],
    command: &Command,
    options: Options,
    workers: u32,
    gate: &G,
) -> (
    Result<Settled<'a, 't>, LinkStop>,
    Result<Vec<u8>, AllocError>,
)
    requires limits { IsWithinStandard limits.now }
    requires some { 1 ≤ workers }
    requires most { workers ≤ 64 }
    requires bound { IsBindingOf (files_of tables.now) (binding_view binding.now) }
    requires numbered { have_numbers tables.now ≡ true }
    requires frames { AreFramesOf (files_of tables.now) (binding_view binding.now) frames.now }
    requires graph { IfSome graph.now (IsGraph (files_of tables.now) (binding_view binding.now) (command_view command.now).undefined) }
    requires plain { ArePlain (all_lists (files_of tables.now)) }
    requires stay { MayStay (files_of tables.now) (binding_view binding.now) kept.now }
    requires pieces { piece_count (files_of tables.now) < 2 ^ 31 }
    ensures goes { Goes result.0 (first_phase (last_phases limits.now (link_options options barred.now) (files_of tables.now) (binding_view binding.now) kept.now)) }
    ensures settled { IfOk result.0 (IsSettled (files_of tables.now) (binding_view binding.now) kept.now options.strip) }
    ensures written { IfOk result.0 (λ settled. Makes (link_options options barred.now) (names_of names.now) (files_of tables.now) (binding_view binding.now) kept.now (settled_view (files_of tables.now) (binding_view binding.now) kept.now options.strip settled)) }
    ensures stands { IfOk result.0 (λ settled. LinkStands (link_options options barred.now) (files_of tables.now) (binding_view binding.now) kept.now (settled_view (files_of tables.now) (binding_view binding.now) kept.now options.strip settled).exe) }
    ensures reach { HoldsPast result.0 (first_phase (placing_phases limits.now (link_options options barred.now) (files_of tables.now) (binding_view binding.now) kept.now)) (ShortenedCallsReach (link_options options barred.now) (files_of tables.now) (binding_view binding.now) kept.now) }
    ensures why { IfOk result.1 (λ text. text.items ≡ why_text (command_view command.now) (names_of names.now) (files_of tables.now) (binding_view binding.now) kept.now barred.now) }
{
    if !explains_in_parallel(command, workers) {
        let made = link_kept(
            rt, alloc, limits, tables, binding, frames, kept, barred, names, options, workers, gate,
        );
        let answers = why_text(
            rt, alloc, tables, binding, frames, graph, kept, barred, names, command, workers, gate,
        );
        return (made, answers);
    }
    join_mut(
        rt,
        &mut || -> Result<Settled, LinkStop>
            requires { IsWithinStandard limits.now × (1 ≤ workers) × (workers ≤ 64) × IsBindingOf (files_of tables.now) (binding_view binding.now) × (have_numbers tables.now ≡ true) × AreFramesOf (files_of tables.now) (binding_view binding.now) frames.now × ArePlain (all_lists (files_of tables.now)) × MayStay (files_of tables.now) (binding_view binding.now) kept.now × (piece_count (files_of tables.now) < 2 ^ 31) }
            ensures { Goes result (first_phase (last_phases limits.entry.now (link_options options barred.entry.now) (files_of tables.entry.now) (binding_view binding.entry.now) kept.entry.now)) × IfOk result (IsSettled (files_of tables.entry.now) (binding_view binding.entry.now) kept.entry.now options.strip) × IfOk result (λ settled. Makes (link_options options barred.entry.now) (names_of names.entry.now) (files_of tables.entry.now) (binding_view binding.entry.now) kept.entry.now (settled_view (files_of tables.entry.now) (binding_view binding.entry.now) kept.entry.now options.strip settled)) × IfOk result (λ settled. LinkStands (link_options options barred.entry.now) (files_of tables.entry.now) (binding_view binding.entry.now) kept.entry.now (settled_view (files_of tables.entry.now) (binding_view binding.entry.now) kept.entry.now options.strip settled).exe) × HoldsPast result (first_phase (placing_phases limits.entry.now (link_options options barred.entry.now) (files_of tables.entry.now) (binding_view binding.entry.now) kept.entry.now)) (ShortenedCallsReach (link_options options barred.entry.now) (files_of tables.entry.now) (binding_view binding.entry.now) kept.entry.now) }
        {
            link_kept(
                rt, alloc, limits, tables, binding, frames, kept, barred, names, options, workers,
                gate,
            )
        },
        &mut || -> Result<Vec<u8>, AllocError>
            requires { IsBindingOf (files_of tables.now) (binding_view binding.now) × AreFramesOf (files_of tables.now) (binding_view binding.now) frames.now × IfSome graph.now (IsGraph (files_of tables.now) (binding_view binding.now) (command_view command.now).undefined) × MayStay (files_of tables.now) (binding_view binding.now) kept.now × (piece_count (files_of tables.now) < 2 ^ 31) }
            ensures { IfOk result (λ text. text.items ≡ why_text (command_view command.entry.now) (names_of names.entry.now) (files_of tables.entry.now) (binding_view binding.entry.now) kept.entry.now barred.entry.now) }
        {
            // One thread is enough, so that the others are left to the link.
            why_text(
                rt, alloc, tables, binding, frames, graph, kept, barred, names, command, 1, gate,
            )
        },
    )
}

/// Links the files of a command, which are found in these inputs: pass after pass, and the defects of each are those of its phase. Heads that are
/// `known` from an earlier reading are not read again.
pub fn link_sources<'a, R: Threads + Sync, G: Gate>(
    rt: &R,
    alloc: Global,
    command: &Command,
    inputs: &Inputs,
    sources: &[Source<'a>],
    known: Option<Vec<Option<Head>>>,
    limits: &Limits,
    gate: &G,
) -> Result<Linked<'a>, LinkStop>
    requires limits { IsWithinStandard limits.now }
    requires known { IfSome known (λ list. AreHeads (sources_of sources.now) list.items) }
    requires some { 1 ≤ command.now.threads }
    requires most { command.now.threads ≤ 64 }
    ensures { AfterLink limits.now (command_view command.now) (shown_files (input_names inputs.now) (input_contents inputs.now) (sources_of sources.now)) (sources_of sources.now) result }
{
    let workers = command.threads;
    let undefined = command.undefined.as_slice();
    let unique = command.unique.as_slice();
    // The heads of all files are read, unless they are known, and the bodies of those that take part.
    let (tables, records) = read_files_after(
        rt, alloc, limits, sources, known, undefined, workers, gate,
    )?;
    // Of copies of groups one stays, all names are bound, and there are no more pieces than a link may have, from here on.
    let entry = command.entry.as_str();
    let (few, bound) = bind_and_count(rt, alloc, limits, &tables, entry, workers, gate);
    few?;
    let binding = bound?;
    // Each FDE has the section of its function from here on.
    let frames = find_frames(rt, alloc, &tables, &binding, records, workers, gate)?;
    // With `--gc-sections` what is neither a root nor reached from one is left out from here on.
    let (kept, graph) = find_kept_by(
        rt,
        alloc,
        &tables,
        &binding,
        &frames,
        command.gc,
        command.why_live.is_some(),
        undefined,
        workers,
        gate,
    )?;
    // What is folded with no other: the sections of `--keep-unique`, and with `--icf safe` those whose address is taken.
    let barred = find_barred(
        alloc,
        &tables,
        &binding,
        kept.as_slice(),
        command.icf,
        unique,
    )?;
    let options = options_of(command);
    // Files are shown by these names, in the map and in what is said of what the command asks why.
    let names = names_if(alloc, wants_names(options.map, command), inputs, sources)?;
    // The passes from what is undefined to what is written; and beside them the answers to `--why-live` and `--why-apart`.
    let (made, answers) = link_and_explain(
        rt,
        alloc,
        limits,
        &tables,
        &binding,
        &frames,
        &graph,
        kept.as_slice(),
        barred.as_slice(),
        names.as_slice(),
        command,
        options,
        workers,
        gate,
    );
    let settled = made?;
    // All that is written is settled from here on.
    let Ok(why) = answers else {
        return Err(LinkStop::Memory);
    };
    // The tables, and what was made of them, are the answer's own from here on.
    let Ok(linked) = Linked::of(
        tables,
        binding,
        kept,
        settled,
        options.strip,
        why.as_slice(),
    ) else {
        return Err(LinkStop::Memory);
    };
    // To free the many lists of records takes longer than to hand them on.
    let mut linked = linked;
    linked.hold(frames);
    Ok(linked)
}

/// Links the inputs of a command: those that it names, in order, with their bytes, or the objects that are generated for it.
///
/// The answer is what the link gives if the inputs have no defect: the executable, which is made while it is written, the map if one is asked,
/// in which files have the names of their inputs, and what is to be said: for generated objects the report, and what the command asks why.
/// Else it is the first defect of the first phase that has any, before which none of that phase stands by file, section and place, whatever
/// the number of workers and the order of their steps; or out of memory. Whatever the answer, of inputs with no more files and symbols than a
/// link may have the files that take part are the least closed set, wherever an archive stands among the objects, and each name is bound to its
/// least offer. No limit is above the standard one. The command's `threads` is from 1 to 64.
///
/// What is given lends the inputs' bytes. To free its many lists takes a tenth of the time of a link of many objects: who is about to end the
/// process can [`forget`](std::mem::forget) it.
pub fn link<'a, R: Threads + Sync, G: Gate>(
    rt: &R,
    alloc: Global,
    command: &Command,
    inputs: &'a Inputs,
    limits: &Limits,
    gate: &G,
) -> Result<Linked<'a>, LinkStop>
    requires limits { IsWithinStandard limits.now }
    requires some { 1 ≤ command.now.threads }
    requires most { command.now.threads ≤ 64 }
    ensures after { AfterLink limits.now (command_view command.now) (shown_files (input_names inputs.now) (input_contents inputs.now) (sources limits.now (input_contents inputs.now))) (sources limits.now (input_contents inputs.now)) result }
    ensures least { AreCounted (sources limits.now (input_contents inputs.now)) → AreLeast (command_view command.now) (sources limits.now (input_contents inputs.now)) }
{
    // The files of the link: the inputs, each archive followed by its members.
    let sources = find_sources(alloc, limits, inputs)?;
    link_sources(
        rt,
        alloc,
        command,
        inputs,
        sources.as_slice(),
        None,
        limits,
        gate,
    )
}
