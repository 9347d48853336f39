//! The pools, one after the other.

ghost use Rattle.std.specs.Prelude.{◌≡◌, ◌+◌, ◌<◌, ◌≤◌, ◌++◌, ◌^◌, All, length, IfOk, OnOk};
ghost use Rattle.str_merge.specs.Filling.{AddsParts, AddsPool, IsFilledTo, with_answers};
ghost use Rattle.str_merge.specs.Pooling.{IsReady};
ghost use Rattle.str_merge.specs.Works.{IsWork};

use crate::placing::Placed;
use crate::pooling::{Pooled, Work, pool_pieces};
use crate::small_pools::small_pools;
use flat_rows::Rows;
use link_sections::{Merged, Part, PieceRows, Pool};
use lk_base::SecNo;
use std::alloc::{AllocError, Global};
use std::thread::Threads;
use work_split::Gate;

/// The pools that are filled.
#[derive(Debug, Drop)]
pub struct Filled {
    /// In the order of their first sections.
    pub pools: Vec<Pool>,
    /// Their pieces, and the parts of the sections.
    pub rows: PieceRows,
    /// What is merged of each section of the list.
    pub answers: Vec<Merged>,
}

/// All pools.
pub fn fill<R: Threads + Sync, G: Gate>(
    rt: &R,
    alloc: Global,
    work: &Work,
    workers: u32,
    gate: &G,
) -> Result<Filled, AllocError>
    requires work { IsWork work.now }
    requires some { 1 ≤ workers }
    requires most { workers ≤ 64 }
    ensures { IfOk result (IsFilledTo work.now (length work.now.firsts.now)) }
{
    let mut ready = small_pools(rt, alloc, work, workers, gate)?;
    let mut filled = empty(alloc, work)?;
    for pool in 0..work.firsts.len() as u32 {
        let known = ready[pool as usize].take();
        filled = add_pool(rt, alloc, work, pool, known, workers, gate, filled)?;
    }
    Ok(filled)
}

/// No pool.
fn empty(alloc: Global, work: &Work) -> Result<Filled, AllocError>
    requires { IsWork work.now }
    ensures { IfOk result (IsFilledTo work.now 0) }
{
    Ok(Filled {
        pools: Vec::with_capacity(alloc, work.firsts.len())?,
        rows: PieceRows {
            pieces: Rows::empty(alloc)?,
            parts: Rows::empty(alloc)?,
        },
        answers: vec![in alloc; Merged { pool: 0, row: 0 }; work.sites.len()]?,
    })
}

/// One pool more, of which may be known what becomes of its pieces.
fn add_pool<R: Threads + Sync, G: Gate>(
    rt: &R,
    alloc: Global,
    work: &Work,
    pool: u32,
    known: Option<Pooled>,
    workers: u32,
    gate: &G,
    filled: Filled,
) -> Result<Filled, AllocError>
    requires work { IsWork work.now }
    requires pool { pool < length work.now.firsts.now }
    requires known { IsReady work.now pool known }
    requires some { 1 ≤ workers }
    requires most { workers ≤ 64 }
    requires filled { IsFilledTo work.now pool filled }
    ensures { IfOk result (IsFilledTo work.now (pool + 1)) }
{
    let members = work.members[pool as usize].as_slice();
    let pooled = pool_pieces(
        rt,
        alloc,
        work,
        pool as usize,
        members,
        known,
        workers,
        gate,
    )?;
    let site = &work.sites[work.firsts[pool as usize] as usize];
    let answered = add_parts(filled, members, pool, pooled.parts)?;
    let filled = push_pool(answered, site.section, pooled.placed)?;
    Ok(filled)
}

/// Adds the parts of the sections of a pool, a list for each.
fn add_parts(
    filled: Filled,
    members: &[u32],
    pool: u32,
    parts: Rows<Part>,
) -> Result<Filled, AllocError>
    requires members { All (λ m. m < length filled.answers.items) members.now }
    requires few { length filled.rows.parts + length members.now < 2 ^ 31 }
    ensures { IfOk result (AddsParts members.now pool parts filled) }
{
    let row = filled.rows.parts.count();
    let mut filled = filled;
    take_rows(&mut filled.rows.parts, parts)?;
    answer(&mut filled.answers, members, pool, row as u32);
    Ok(filled)
}

/// Adds all rows of another list. If there are no others, these are not copied.
fn take_rows(rows: &mut Rows<Part>, more: Rows<Part>) -> Result<(), AllocError>
    ensures { OnOk result (rows.new ≡ rows.old ++ more) }
{
    if rows.count() == 0 {
        *rows = more;
        return Ok(());
    }
    rows.append(&more)?;
    Ok(())
}

/// Says of each of these sections that it is merged in a pool, and which row has its parts: they stand one after the other.
fn answer(answers: &mut Vec<Merged>, members: &[u32], pool: u32, row: u32)
    requires within { All (λ m. m < length answers.old.items) members.now }
    requires few { row + length members.now < 2 ^ 31 }
    ensures { answers.new.items ≡ with_answers answers.old.items members.now pool row }
{
    for n in 0..members.len() {
        answers[members[n] as usize] = Merged {
            pool,
            row: row + n as u32,
        };
    }
}

/// Adds a pool of these pieces.
fn push_pool(filled: Filled, first: SecNo, placed: Placed) -> Result<Filled, AllocError>
    ensures { IfOk result (AddsPool first placed filled) }
{
    let mut filled = filled;
    filled.pools.push(Pool {
        first,
        size: placed.size,
    })?;
    filled.rows.pieces.push_vec(placed.pieces)?;
    Ok(filled)
}
