//! The pieces of one pool.

ghost use Rattle.std.specs.Prelude.{◌≡◌, ◌<◌, ◌≤◌, ◌^◌, [], All, length, IfOk, IfSome, OnOk};
ghost use Rattle.lk_tables.specs.TablesView.{files_of};
ghost use Rattle.link_sections.specs.Merging.{pool_site, site_key};
ghost use Rattle.str_merge.specs.Orders.{IsFirstOf, firsts, ranks};
ghost use Rattle.str_merge.specs.Parts.{lists_at, part_lists};
ghost use Rattle.str_merge.specs.Placing.{IsPlaced};
ghost use Rattle.str_merge.specs.Pooling.{IsMadeOf, IsPoolOf};
ghost use Rattle.str_merge.specs.Sites.{cut_views, gathered, piece_lists};
ghost use Rattle.str_merge.specs.Small.{IsNear};
ghost use Rattle.str_merge.specs.Works.{IsWork, members_at};

use crate::cuts::Cut;
use crate::gathering::texts_of;
use crate::keys::PoolKey;
use crate::orders::empty_block;
use crate::parts::part_rows;
use crate::placing::{Placed, none_placed, place_distinct, place_into};
use crate::sites::Site;
use flat_rows::Rows;
use link_sections::Part;
use lk_tables::Tables;
use name_numbers::number_texts;
use std::alloc::{AllocError, Global};
use std::thread::{Threads, join_mut};
use work_split::Gate;

/// What is known before the pools are filled, lent. Each list that has no other order has one element for each section that is merged.
#[derive(Clone, Copy)]
pub struct Work<'t, 'a> {
    pub tables: &'t Tables<'a>,
    /// By section number.
    pub kept: &'t [bool],
    /// The sections that are merged.
    pub sites: &'t [Site],
    /// The sections that are merged, cut into pieces.
    pub cuts: &'t [Cut<'a>],
    /// The keys of their pools.
    pub keys: &'t [PoolKey<'a>],
    /// By pool its first section, by its place in the list.
    pub firsts: &'t [u32],
    /// By pool all its sections, by their places in the list.
    pub members: &'t [Vec<u32>],
}

/// What becomes of the pieces of a pool.
#[derive(Debug, Drop)]
pub struct Pooled {
    /// The distinct ones, each at its place.
    pub placed: Placed,
    /// The parts of its sections, a list for each.
    pub parts: Rows<Part>,
}

/// What becomes of the pieces of a pool, of whose sections `members` are the places in the list, unless it is known.
pub fn pool_pieces<R: Threads + Sync, G: Gate>(
    rt: &R,
    alloc: Global,
    work: &Work,
    pool: usize,
    members: &[u32],
    known: Option<Pooled>,
    workers: u32,
    gate: &G,
) -> Result<Pooled, AllocError>
    requires work { IsWork work.now }
    requires pool { pool < length work.now.firsts.now }
    requires members { members.now ≡ members_at (files_of work.now.tables.now) work.now.kept.now pool }
    requires known { IfSome known (IsPoolOf work.now pool members.now) }
    requires some { 1 ≤ workers }
    requires most { workers ≤ 64 }
    ensures { IfOk result (IsPoolOf work.now pool members.now) }
{
    if let Some(pooled) = known {
        return Ok(pooled);
    }
    by_texts(rt, alloc, work, pool, members, workers, gate)
}

/// What becomes of the pieces of a pool, if nothing is known of them.
pub fn by_texts<R: Threads + Sync, G: Gate>(
    rt: &R,
    alloc: Global,
    work: &Work,
    pool: usize,
    members: &[u32],
    workers: u32,
    gate: &G,
) -> Result<Pooled, AllocError>
    requires work { IsWork work.now }
    requires pool { pool < length work.now.firsts.now }
    requires members { members.now ≡ members_at (files_of work.now.tables.now) work.now.kept.now pool }
    requires few { length (gathered (piece_lists work.now.cuts.now) members.now) < 2 ^ 31 }
    ensures { IfOk result (IsPoolOf work.now pool members.now) }
{
    let texts = texts_of(alloc, work.cuts, members)?;
    let numbers = number_texts(rt, alloc, &texts, workers, gate)?;
    let align = align_of(work, pool);
    let pooled = place(
        rt,
        alloc,
        work.cuts,
        members,
        numbers.as_slice(),
        align,
        workers,
    )?;
    Ok(pooled)
}

/// The distinct pieces of these sections, placed, and the parts of the sections, if for each piece the index of the first equal one is known.
fn place<R: Threads + Sync>(
    rt: &R,
    alloc: Global,
    cuts: &[Cut],
    members: &[u32],
    numbers: &[u32],
    align: u64,
    workers: u32,
) -> Result<Pooled, AllocError>
    requires members { All (λ m. m < length cuts.now) members.now }
    requires near { All IsNear cuts.now }
    requires align { 1 ≤ align }
    requires most { align ≤ 2 ^ 20 }
    requires few { length numbers.now < 2 ^ 31 }
    requires wide { length numbers.now ≡ length (gathered (piece_lists cuts.now) members.now) }
    ensures { IfOk result (IsMadeOf cuts.now members.now numbers.now align) }
{
    if 1 < workers {
        return place_in_parallel(rt, alloc, cuts, members, numbers, align);
    }
    let placed = place_distinct(alloc, cuts, members, numbers, align)?;
    let parts = part_rows(alloc, cuts, members, numbers)?;
    Ok(Pooled { placed, parts })
}

/// The distinct pieces of these sections, placed, and the parts of the sections, with a thread for each of both. The memory that the new thread writes to
/// is lent to it: what it took itself would lie in fresh pages.
fn place_in_parallel<R: Threads + Sync>(
    rt: &R,
    alloc: Global,
    cuts: &[Cut],
    members: &[u32],
    numbers: &[u32],
    align: u64,
) -> Result<Pooled, AllocError>
    requires members { All (λ m. m < length cuts.now) members.now }
    requires near { All IsNear cuts.now }
    requires align { 1 ≤ align }
    requires most { align ≤ 2 ^ 20 }
    requires few { length numbers.now < 2 ^ 31 }
    requires wide { length numbers.now ≡ length (gathered (piece_lists cuts.now) members.now) }
    ensures { IfOk result (IsMadeOf cuts.now members.now numbers.now align) }
{
    let mut own = empty_block(alloc)?;
    let mut placed = none_placed(alloc, numbers)?;
    let (done, parts) = join_mut(
        rt,
        &mut || -> Result<(), AllocError>
            requires { (1 ≤ align) × (align ≤ 2 ^ 20) × All (λ m. m < length cuts.now) members.now × All IsNear cuts.now × (length numbers.now < 2 ^ 31) × (length numbers.now ≡ length (gathered (piece_lists cuts.now) members.now)) × (length own.items ≡ 512) × (placed.pieces.items ≡ []) × (placed.size ≡ 0) }
            ensures { OnOk result (IsPlaced (gathered (piece_lists cuts.entry.now) members.entry.now) (firsts numbers.entry.now) align placed.exit) }
        { place_into(cuts, members, numbers, align, &mut own, &mut placed) },
        &mut || -> Result<Rows<Part>, AllocError>
            requires { All (λ m. m < length cuts.now) members.now × All IsNear cuts.now × (length numbers.now < 2 ^ 31) × (length numbers.now ≡ length (gathered (piece_lists cuts.now) members.now)) }
            ensures { IfOk result (λ rows. IsFirstOf numbers.entry.now → rows ≡ part_lists (lists_at (cut_views cuts.entry.now) members.entry.now) (ranks numbers.entry.now)) }
        { part_rows(alloc, cuts, members, numbers) },
    );
    done?;
    let parts = parts?;
    Ok(Pooled { placed, parts })
}

/// The alignment of a pool.
pub fn align_of(work: &Work, pool: usize) -> u64
    requires work { IsWork work.now }
    requires pool { pool < length work.now.firsts.now }
    ensures value { result ≡ (site_key (files_of work.now.tables.now) (pool_site (files_of work.now.tables.now) work.now.kept.now pool)).align }
    ensures some { 1 ≤ result }
    ensures most { result ≤ 2 ^ 20 }
{
    let (_, _, _, align) = work.keys[work.firsts[pool] as usize];
    align
}
