//! What is merged, with the upper parts of all sections, and the test that what kept sections refer to is defined.

ghost use Rattle.std.specs.Prelude.{◌≡◌, ◌<◌, ◌≤◌, ◌^◌, true, length, IfOk};
ghost use Rattle.link_sections.specs.Merging.{piece_count, pools_of};
ghost use Rattle.link_sections.specs.PoolViews.{piece_rows, pool_list, pools_view};
ghost use Rattle.link_passes.specs.Defects.{takes_no_memory};
ghost use Rattle.lk_base.specs.Firsts.{Goes};
ghost use Rattle.lk_tables.specs.BindingView.{binding_view};
ghost use Rattle.lk_tables.specs.TablesView.{files_of};
ghost use Rattle.lk_tables.specs.Uppers.{AreListed, section_uppers};
ghost use Rattle.sec_graph.specs.FrameRelocs.{AreFramesOf};
ghost use Rattle.sec_graph.specs.Undefined.{undefined_defects};
ghost use Rattle.str_merge.specs.Small.{AreWritten};

use link_sections::Pools;
use lk_base::LinkStop;
use lk_tables::{Binding, Frames, Tables, Uppers};
use sec_graph::{find_uppers, undefined};
use std::alloc::{AllocError, Global};
use std::thread::{Threads, join_mut};
use str_merge::merge;
use work_split::Gate;

/// Tests that what kept sections refer to is defined. It takes no memory.
pub fn check_defined(
    tables: &Tables,
    binding: &Binding,
    frames: &Frames,
    kept: &[bool],
) -> Result<(), LinkStop>
    requires { AreFramesOf (files_of tables.now) (binding_view binding.now) frames.now }
    ensures goes { Goes result (undefined_defects (files_of tables.now) (binding_view binding.now) kept.now) }
    ensures named { takes_no_memory result ≡ true }
{
    if let Some(defect) = undefined(tables, binding, kept, frames) {
        return Err(LinkStop::Defect(defect));
    }
    Ok(())
}

/// What is merged, and the upper parts of all sections. With two workers or more another thread lists the upper parts meanwhile. The only error
/// is out of memory.
pub fn find_pools<R: Threads + Sync, G: Gate>(
    rt: &R,
    alloc: Global,
    tables: &Tables,
    kept: &[bool],
    workers: u32,
    gate: &G,
) -> Result<(Pools, Uppers), AllocError>
    requires some { 1 ≤ workers }
    requires most { workers ≤ 64 }
    requires pieces { piece_count (files_of tables.now) < 2 ^ 31 }
    requires written { AreWritten (files_of tables.now) kept.now }
    ensures value { IfOk result (λ both. pools_view (files_of tables.now) both.0 ≡ pools_of (files_of tables.now) kept.now) }
    ensures rows { IfOk result (λ both. length (piece_rows both.0) ≡ length (pool_list both.0)) }
    ensures listed { IfOk result (λ both. AreListed (section_uppers (files_of tables.now)) both.1) }
{
    if workers == 1 {
        let pools = merge(rt, alloc, tables, kept, workers, gate)?;
        let uppers = find_uppers(alloc, tables)?;
        return Ok((pools, uppers));
    }
    let (pools, uppers) = join_mut(
        rt,
        &mut || -> Result<Pools, AllocError>
            requires { (1 ≤ workers) × (workers ≤ 64) × (piece_count (files_of tables.now) < 2 ^ 31) × AreWritten (files_of tables.now) kept.now }
            ensures { IfOk result (λ pools. pools_view (files_of tables.entry.now) pools ≡ pools_of (files_of tables.entry.now) kept.entry.now) × IfOk result (λ pools. length (piece_rows pools) ≡ length (pool_list pools)) }
        { merge(rt, alloc, tables, kept, workers, gate) },
        &mut || -> Result<Uppers, AllocError>
            ensures { IfOk result (AreListed (section_uppers (files_of tables.entry.now))) }
        { find_uppers(alloc, tables) },
    );
    Ok((pools?, uppers?))
}
