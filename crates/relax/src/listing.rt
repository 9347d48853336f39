//! The calls of all members, listed by the workers.

ghost use Rattle.std.specs.Prelude.{◌≡◌, ◌≤◌, length, flat_map, IfOk};
ghost use Rattle.work_split.specs.Pieces.{Tiles};
ghost use Rattle.relax.specs.Scenes.{IsCallPart, calls_between, rows_in};

use crate::calls::{Call, Scene, calls_of};
use flat_rows::{Rows, join_rows, one_part};
use lk_base::LinkStop;
use std::alloc::{AllocError, Global};
use std::ops::Range;
use std::thread::Threads;
use work_split::{Gate, over_shares, pieces_of_least};

/// Fewer members are not worth a thread.
const LEAST: usize = 4_096;

/// The calls of each member. The workers list those of a run of members each.
#[tactic(auto, unfolding(crate::specs::CallSizes::call_rows))]
pub fn call_rows<R: Threads + Sync, G: Gate>(
    rt: &R,
    alloc: Global,
    scene: &Scene,
    on: bool,
    workers: u32,
    gate: &G,
) -> Result<Rows<Call>, AllocError>
    requires some { 1 ≤ workers }
    requires most { workers ≤ 64 }
    ensures { IfOk result (λ rows. rows ≡ rows_in scene.now on) }
{
    let pieces = pieces_of_least(alloc, scene.members.len(), LEAST, workers)?;
    let parts = all_parts(rt, alloc, scene, on, pieces.as_slice(), gate)?;
    let rows = join_rows(alloc, parts)?;
    Ok(rows)
}

/// The calls of all members, in parts: each worker makes one, of a piece of the members.
fn all_parts<R: Threads + Sync, G: Gate>(
    rt: &R,
    alloc: Global,
    scene: &Scene,
    on: bool,
    pieces: &[Range<usize>],
    gate: &G,
) -> Result<Vec<Rows<Call>>, AllocError>
    requires tiles { Tiles 0 (length scene.now.members.now) pieces.now }
    requires most { length pieces.now ≤ 64 }
    ensures { IfOk result (λ parts. flat_map (λ part. part) parts.items ≡ calls_between scene.now on 0 (length scene.now.members.now)) }
{
    let found = over_shares(
        rt,
        alloc,
        gate,
        pieces,
        |piece: Range<usize>| -> Result<Vec<Rows<Call>>, LinkStop>
            requires ordered { piece.start ≤ piece.end }
            requires within { piece.end ≤ length scene.now.members.now }
            ensures { IsCallPart scene.entry.now on piece result }
        { Ok(part_of(alloc, scene, on, piece)?) },
    );
    match found {
        Ok(parts) => Ok(parts),
        Err(_) => Err(AllocError),
    }
}

/// The calls of a run of members, as one part.
fn part_of(
    alloc: Global,
    scene: &Scene,
    on: bool,
    piece: Range<usize>,
) -> Result<Vec<Rows<Call>>, AllocError>
    requires ordered { piece.start ≤ piece.end }
    requires within { piece.end ≤ length scene.now.members.now }
    ensures { IfOk result (λ parts. flat_map (λ part. part) parts.items ≡ calls_between scene.now on piece.start piece.end) }
{
    let mut rows = Rows::empty(alloc)?;
    let mut calls = Vec::new(alloc);
    let mut hints = Vec::new(alloc);
    for from in piece.start..piece.end {
        calls_of(&mut calls, &mut hints, scene, on, from)?;
        rows.push(calls.as_slice())?;
    }
    let parts = one_part(alloc, rows)?;
    Ok(parts)
}
