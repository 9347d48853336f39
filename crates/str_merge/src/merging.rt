//! The pools of a link.

ghost use Rattle.std.specs.Prelude.{◌≡◌, ◌<◌, ◌≤◌, ◌^◌, length, IfOk};
ghost use Rattle.lk_tables.specs.TablesView.{files_of};
ghost use Rattle.link_sections.specs.Merging.{piece_count, pools_of};
ghost use Rattle.link_sections.specs.PoolViews.{piece_rows, pool_list, pools_view};
ghost use Rattle.str_merge.specs.Filling.{IsFilledTo};
ghost use Rattle.str_merge.specs.Small.{AreSmall, AreWritten};
ghost use Rattle.str_merge.specs.Works.{IsWork};

use crate::cuts::cut_sites;
use crate::filling::{Filled, fill};
use crate::keys::{keys_of, number_keys};
use crate::members::members_of;
use crate::orders::order_of;
use crate::pooling::Work;
use crate::sites::merge_sites;
use crate::spreading::spread;
use link_sections::Pools;
use lk_tables::Tables;
use std::alloc::{AllocError, Global};
use std::thread::Threads;
use work_split::Gate;

/// A link in which the sections that are merged are written has neither too many of them, nor too many pieces, nor too many bytes in them.
/// Nothing is done while a program runs: the clause is all.
fn prove_small(tables: &Tables, kept: &[bool])
    requires pieces { piece_count (files_of tables.now) < 2 ^ 31 }
    requires written { AreWritten (files_of tables.now) kept.now }
    ensures { AreSmall (files_of tables.now) kept.now }
{
    tables.prove_few();
}

/// The pools of the sections that are kept, which stand in `kept` by number: the sections that are merged, cut into pieces, of which equal
/// ones stand in their pool once, by first appearance, each at a multiple of the pool's alignment. The workers find the pieces. Those that are
/// merged are written, and [`piece_count`](crate::piece_count) is below 2^31. It answers the same whatever the number of workers. The only error is out of memory.
pub fn merge<R: Threads + Sync, G: Gate>(
    rt: &R,
    alloc: Global,
    tables: &Tables,
    kept: &[bool],
    workers: u32,
    gate: &G,
) -> Result<Pools, AllocError>
    requires some { 1 ≤ workers }
    requires most { workers ≤ 64 }
    requires pieces { piece_count (files_of tables.now) < 2 ^ 31 }
    requires written { AreWritten (files_of tables.now) kept.now }
    ensures value { IfOk result (λ pools. pools_view (files_of tables.now) pools ≡ pools_of (files_of tables.now) kept.now) }
    ensures rows { IfOk result (λ pools. length (piece_rows pools) ≡ length (pool_list pools)) }
{
    prove_small(tables, kept);
    let sites = merge_sites(alloc, tables, kept)?;
    let cuts = cut_sites(rt, alloc, tables, sites.as_slice(), workers, gate)?;
    let keys = keys_of(alloc, tables, sites.as_slice())?;
    let numbers = number_keys(alloc, keys.as_slice())?;
    let order = order_of(alloc, numbers.as_slice())?;
    let members = members_of(alloc, order.ranks.as_slice(), order.firsts.len())?;
    let work = Work {
        tables,
        kept,
        sites: sites.as_slice(),
        cuts: cuts.as_slice(),
        keys: keys.as_slice(),
        firsts: order.firsts.as_slice(),
        members: members.as_slice(),
    };
    let filled = fill(rt, alloc, &work, workers, gate)?;
    let pools = finish(alloc, &work, filled)?;
    Ok(pools)
}

/// The pools once all are filled.
fn finish(alloc: Global, work: &Work, filled: Filled) -> Result<Pools, AllocError>
    requires work { IsWork work.now }
    requires filled { IsFilledTo work.now (length work.now.firsts.now) filled }
    ensures value { IfOk result (λ pools. pools_view (files_of work.now.tables.now) pools ≡ pools_of (files_of work.now.tables.now) work.now.kept.now) }
    ensures rows { IfOk result (λ pools. length (piece_rows pools) ≡ length (pool_list pools)) }
{
    let merged = spread(alloc, work.tables, work.kept, filled.answers.as_slice())?;
    Ok(Pools::of(filled.pools, merged, filled.rows))
}
