//! What is written, and where: equal pieces are merged, equal code is folded, the linker's table is listed, and all of it is laid out. What needs
//! none of this is done beside it.

ghost use Rattle.std.specs.Prelude.{◌<◌, ◌≤◌, ◌^◌, IfOk};
ghost use Rattle.layout.specs.Layout.{layout_defects};
ghost use Rattle.link_sections.specs.Merging.{piece_count};
ghost use Rattle.lk_base.specs.Firsts.{Goes};
ghost use Rattle.lk_base.specs.Limits.{IsWithinStandard};
ghost use Rattle.lk_tables.specs.Binding.{first_phase};
ghost use Rattle.lk_tables.specs.BindingView.{binding_view};
ghost use Rattle.lk_tables.specs.BoundNames.{IsBindingOf};
ghost use Rattle.lk_tables.specs.NameNumbers.{NumbersNames, heads_alone};
ghost use Rattle.lk_tables.specs.TablesView.{files_of};
ghost use Rattle.lk_tables.specs.Uppers.{AreListed, section_uppers};
ghost use Rattle.link_driver.specs.Link.{laid_out, placing_phases};
ghost use Rattle.link_driver.specs.Placing.{IsPlacement};
ghost use Rattle.link_passes.specs.Tables.{MayStay, link_options};
ghost use Rattle.sec_graph.specs.FrameRelocs.{AreFramesOf};
ghost use Rattle.sec_graph.specs.Undefined.{undefined_defects};

use crate::linking::lay_out;
use got_tls::entries;
use link_passes::{Options, check_defined, find_leaders, find_plan, find_pools};
use link_sections::{Got, Layout, Pools};
use lk_base::{Limits, LinkStop, SecNo};
use lk_tables::{Binding, FramePlan, Frames, NameNumbers, Tables, Uppers};
use std::alloc::Global;
use std::thread::{Threads, join_mut};
use work_split::Gate;

/// What is settled of a link before anything is written.
#[derive(Drop)]
pub struct Placement<'a, 't> {
    /// What is merged.
    pub pools: Pools,
    /// By section number, which section is written in the place of each.
    pub leaders: Vec<Option<SecNo>>,
    /// Which unwind records are written.
    pub plan: FramePlan<'t>,
    /// The linker's global offset table.
    pub got: Got,
    /// Where everything stands.
    pub layout: Layout<'a>,
}

/// Which sections and pieces are written, and where they stand; and the upper parts of all sections.
fn find_placement<'a, 't, R: Threads + Sync, G: Gate>(
    rt: &R,
    alloc: Global,
    limits: &Limits,
    tables: &Tables<'a>,
    binding: &Binding,
    frames: &'t Frames,
    kept: &[bool],
    barred: &[bool],
    numbers: &NameNumbers,
    options: Options,
    workers: u32,
    gate: &G,
) -> Result<(Uppers, Placement<'a, 't>), LinkStop>
    requires limits { IsWithinStandard limits.now }
    requires some { 1 ≤ workers }
    requires most { workers ≤ 64 }
    requires bound { IsBindingOf (files_of tables.now) (binding_view binding.now) }
    requires numbers { NumbersNames (heads_alone (files_of tables.now)) numbers.now }
    requires frames { AreFramesOf (files_of tables.now) (binding_view binding.now) frames.now }
    requires stay { MayStay (files_of tables.now) (binding_view binding.now) kept.now }
    requires pieces { piece_count (files_of tables.now) < 2 ^ 31 }
    ensures goes { Goes result (layout_defects limits.now (files_of tables.now) (laid_out (link_options options barred.now) (files_of tables.now) (binding_view binding.now) kept.now)) }
    ensures listed { IfOk result (λ both. AreListed (section_uppers (files_of tables.now)) both.0) }
    ensures placed { IfOk result (λ both. IsPlacement (link_options options barred.now) (files_of tables.now) (binding_view binding.now) kept.now both.1) }
{
    // Equal strings and constants stand once from here on.
    let (pools, uppers) = find_pools(rt, alloc, tables, kept, workers, gate)?;
    // Which section is written in the place of each is settled from here on.
    let leaders = find_leaders(
        rt, alloc, tables, binding, frames, kept, barred, &pools, options, workers, gate,
    )?;
    let lead = leaders.as_slice();
    // Which unwind records are written is settled from here on.
    let plan = find_plan(
        rt, alloc, tables, binding, frames, kept, barred, &pools, lead, options, workers, gate,
    )?;
    // The global offset table has all its entries from here on.
    let got = entries(alloc, tables, numbers, &uppers, lead)?;
    // Nothing moves from here on.
    let layout = lay_out(
        rt, alloc, limits, tables, binding, kept, barred, &pools, lead, &plan, &got, options,
        workers, gate,
    )?;
    let placement = Placement {
        pools,
        leaders,
        plan,
        got,
        layout,
    };
    Ok((uppers, placement))
}

/// The upper parts of all sections, and the placement of a link, if what kept sections refer to is defined. With two workers or more, another
/// thread tests that meanwhile, since no placement is needed for it.
pub fn place_and_check<'a, 't, R: Threads + Sync, G: Gate>(
    rt: &R,
    alloc: Global,
    limits: &Limits,
    tables: &Tables<'a>,
    binding: &Binding,
    frames: &'t Frames,
    kept: &[bool],
    barred: &[bool],
    numbers: &NameNumbers,
    options: Options,
    workers: u32,
    gate: &G,
) -> Result<(Uppers, Placement<'a, 't>), LinkStop>
    requires limits { IsWithinStandard limits.now }
    requires some { 1 ≤ workers }
    requires most { workers ≤ 64 }
    requires bound { IsBindingOf (files_of tables.now) (binding_view binding.now) }
    requires numbers { NumbersNames (heads_alone (files_of tables.now)) numbers.now }
    requires frames { AreFramesOf (files_of tables.now) (binding_view binding.now) frames.now }
    requires stay { MayStay (files_of tables.now) (binding_view binding.now) kept.now }
    requires pieces { piece_count (files_of tables.now) < 2 ^ 31 }
    ensures goes { Goes result (first_phase (placing_phases limits.now (link_options options barred.now) (files_of tables.now) (binding_view binding.now) kept.now)) }
    ensures listed { IfOk result (λ both. AreListed (section_uppers (files_of tables.now)) both.0) }
    ensures placed { IfOk result (λ both. IsPlacement (link_options options barred.now) (files_of tables.now) (binding_view binding.now) kept.now both.1) }
{
    if workers == 1 {
        // What kept sections refer to is defined from here on.
        check_defined(tables, binding, frames, kept)?;
        // Nothing moves from here on.
        let both = find_placement(
            rt, alloc, limits, tables, binding, frames, kept, barred, numbers, options, workers,
            gate,
        )?;
        return Ok(both);
    }
    let (defined, placed) = join_mut(
        rt,
        &mut || -> Result<(), LinkStop>
            requires { AreFramesOf (files_of tables.now) (binding_view binding.now) frames.now }
            ensures { Goes result (undefined_defects (files_of tables.entry.now) (binding_view binding.entry.now) kept.entry.now) }
        { check_defined(tables, binding, frames, kept) },
        &mut || -> Result<(Uppers, Placement), LinkStop>
            requires { IsWithinStandard limits.now × (1 ≤ workers) × (workers ≤ 64) × IsBindingOf (files_of tables.now) (binding_view binding.now) × NumbersNames (heads_alone (files_of tables.now)) numbers.now × AreFramesOf (files_of tables.now) (binding_view binding.now) frames.now × MayStay (files_of tables.now) (binding_view binding.now) kept.now × (piece_count (files_of tables.now) < 2 ^ 31) }
            ensures { Goes result (layout_defects limits.entry.now (files_of tables.entry.now) (laid_out (link_options options barred.entry.now) (files_of tables.entry.now) (binding_view binding.entry.now) kept.entry.now)) × IfOk result (λ both. AreListed (section_uppers (files_of tables.entry.now)) both.0) × IfOk result (λ both. IsPlacement (link_options options barred.entry.now) (files_of tables.entry.now) (binding_view binding.entry.now) kept.entry.now both.1) }
        {
            find_placement(
                rt, alloc, limits, tables, binding, frames, kept, barred, numbers, options,
                workers, gate,
            )
        },
    );
    // What is undefined is of the earlier phase.
    defined?;
    let both = placed?;
    Ok(both)
}
