//! The unwind records of a link: which function each FDE is for, and which of them are written.

ghost use Rattle.std.specs.Prelude.{◌≡◌, ◌≤◌, IfOk};
ghost use Rattle.link_sections.specs.Merging.{pools_of};
ghost use Rattle.link_sections.specs.PoolViews.{pools_view};
ghost use Rattle.lk_tables.specs.BindingView.{binding_view};
ghost use Rattle.lk_tables.specs.FramePlans.{plan_view};
ghost use Rattle.lk_tables.specs.Frames.{AreListsWithin, all_lists, list_views, lists_of};
ghost use Rattle.lk_tables.specs.TablesView.{files_of};
ghost use Rattle.eh_frame.specs.Laws.{IsSmall};
ghost use Rattle.sec_graph.specs.FrameRelocs.{AreFramesOf};
ghost use Rattle.link_passes.specs.Passes.{leaders_in as leaders_for, plan_in};
ghost use Rattle.link_passes.specs.Tables.{link_options};

use crate::options::Options;
use eh_frame::{plan, table};
use link_sections::Pools;
use lk_base::SecNo;
use lk_tables::{Binding, FramePlan, Frames, Record, Tables};
use std::alloc::{AllocError, Global};
use std::thread::Threads;
use work_split::Gate;

/// Which function each FDE is for, of the unwind records that were read of all files. The only error is out of memory.
pub fn find_frames<R: Threads + Sync, G: Gate>(
    rt: &R,
    alloc: Global,
    tables: &Tables,
    binding: &Binding,
    records: Vec<(SecNo, Vec<Record>)>,
    workers: u32,
    gate: &G,
) -> Result<Frames, AllocError>
    requires some { 1 ≤ workers }
    requires most { workers ≤ 64 }
    requires records { list_views records.items ≡ all_lists (files_of tables.now) }
    requires within { AreListsWithin (files_of tables.now) (all_lists (files_of tables.now)) }
    ensures { IfOk result (AreFramesOf (files_of tables.now) (binding_view binding.now)) }
{
    table(rt, alloc, tables, binding, records, workers, gate)
}

/// Which unwind records are written, of a link that keeps these sections, where these lead. The only error is out of memory.
pub fn find_plan<'t, R: Threads + Sync, G: Gate>(
    rt: &R,
    alloc: Global,
    tables: &Tables,
    binding: &Binding,
    frames: &'t Frames,
    kept: &[bool],
    barred: &[bool],
    pools: &Pools,
    leaders: &[Option<SecNo>],
    options: Options,
    workers: u32,
    gate: &G,
) -> Result<FramePlan<'t>, AllocError>
    requires some { 1 ≤ workers }
    requires most { workers ≤ 64 }
    requires frames { AreFramesOf (files_of tables.now) (binding_view binding.now) frames.now }
    requires pools { pools_view (files_of tables.now) pools.now ≡ pools_of (files_of tables.now) kept.now }
    requires leaders { leaders.now ≡ leaders_for (link_options options barred.now) (files_of tables.now) (binding_view binding.now) kept.now }
    ensures plan { IfOk result (λ plan. plan_view plan ≡ plan_in (link_options options barred.now) (files_of tables.now) (binding_view binding.now) kept.now) }
    ensures lists { IfOk result (λ plan. lists_of plan.frames.now ≡ all_lists (files_of tables.now)) }
    ensures small { IfOk result (λ plan. IsSmall (plan_view plan)) }
{
    plan(
        rt, alloc, tables, binding, pools, frames, leaders, workers, gate,
    )
}
