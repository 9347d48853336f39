//! Pools of few pieces, which are shared out among the workers.

ghost use Rattle.std.specs.Prelude.{◌≡◌, ◌<◌, ◌≤◌, length, IfOk};
ghost use Rattle.work_split.specs.Shares.{IsShare};
ghost use Rattle.str_merge.specs.Cutting.{no_defects};
ghost use Rattle.str_merge.specs.Pooling.{AreReady, IsReady};
ghost use Rattle.str_merge.specs.Works.{IsWork};

use crate::gathering::count_of;
use crate::pooling::{Pooled, Work, by_texts};
use lk_base::LinkStop;
use std::alloc::{AllocError, Global};
use std::ops::Range;
use std::thread::Threads;
use work_split::{Gate, OpenGate, over_shares, pieces_by_weight};

/// Fewer pieces are not worth a thread.
const LEAST: usize = 16_384;

/// A pool takes as long as so many pieces more.
const POOL_WEIGHT: u64 = 64;

/// By pool what becomes of its pieces, where they are so few that one worker numbers them. Each worker has a share of the pools; one has all
/// if they are small together.
pub fn small_pools<R: Threads + Sync, G: Gate>(
    rt: &R,
    alloc: Global,
    work: &Work,
    workers: u32,
    gate: &G,
) -> Result<Vec<Option<Pooled>>, AllocError>
    requires work { IsWork work.now }
    requires some { 1 ≤ workers }
    requires most { workers ≤ 64 }
    ensures { IfOk result (λ list. AreReady work.now list.items) }
{
    let weights = pool_weights(alloc, work)?;
    let workers = workers_for(weights.as_slice(), workers);
    let shares = pieces_by_weight(alloc, weights.as_slice(), workers)?;
    let ready = over_shares(
        rt,
        alloc,
        gate,
        shares.as_slice(),
        |share: Range<usize>| -> Result<Vec<Option<Pooled>>, LinkStop>
            requires work { IsWork work.now }
            requires ordered { share.start ≤ share.end }
            requires within { share.end ≤ length work.now.firsts.now }
            ensures { IsShare no_defects (IsReady work.entry.now) share.start share.end result }
        { small_share(rt, alloc, work, share) },
    );
    match ready {
        Ok(ready) => Ok(ready),
        Err(_) => Err(AllocError),
    }
}

/// How long each pool takes, if its pieces are few.
fn pool_weights(alloc: Global, work: &Work) -> Result<Vec<u64>, AllocError>
    requires { IsWork work.now }
    ensures { IfOk result (λ weights. length weights.items ≡ length work.now.firsts.now) }
{
    let mut weights = Vec::with_capacity(alloc, work.firsts.len())?;
    for pool in 0..work.firsts.len() {
        let count = count_of(work.cuts, work.members[pool].as_slice());
        if count < LEAST {
            weights.push(POOL_WEIGHT + count as u64)?;
        } else {
            weights.push(0)?;
        }
    }
    Ok(weights)
}

/// How many workers are worth it.
fn workers_for(weights: &[u64], workers: u32) -> u32
    requires some { 1 ≤ workers }
    requires most { workers ≤ 64 }
    ensures some { 1 ≤ result }
    ensures most { result ≤ 64 }
{
    let mut total: u64 = 0;
    for weight in weights {
        total = total.saturating_add(*weight);
    }
    if total < LEAST as u64 {
        return 1;
    }
    workers
}

/// The small pools of one share, each merged by one worker.
fn small_share<R: Threads + Sync>(
    rt: &R,
    alloc: Global,
    work: &Work,
    share: Range<usize>,
) -> Result<Vec<Option<Pooled>>, LinkStop>
    requires work { IsWork work.now }
    requires ordered { share.start ≤ share.end }
    requires within { share.end ≤ length work.now.firsts.now }
    ensures { IsShare no_defects (IsReady work.now) share.start share.end result }
{
    let mut list = Vec::with_capacity(alloc, share.end - share.start)?;
    for pool in share.start..share.end {
        let ready = small_pool(rt, alloc, work, pool)?;
        list.push(ready)?;
    }
    Ok(list)
}

/// What becomes of the pieces of a pool, if they are few.
fn small_pool<R: Threads + Sync>(
    rt: &R,
    alloc: Global,
    work: &Work,
    pool: usize,
) -> Result<Option<Pooled>, AllocError>
    requires work { IsWork work.now }
    requires pool { pool < length work.now.firsts.now }
    ensures { IfOk result (IsReady work.now pool) }
{
    let members = work.members[pool].as_slice();
    let count = count_of(work.cuts, members);
    if count >= LEAST {
        return Ok(None);
    }
    let pooled = by_texts(rt, alloc, work, pool, members, 1, &OpenGate)?;
    Ok(Some(pooled))
}
