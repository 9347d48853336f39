//! Which calls are to be looked at again once others got larger. All of it is a guess that needs no proof: a call that is looked at too seldom
//! is found by the next round over all.
//!
//! A call is watched if so many bytes can be added to its distance that it has to get larger. The watched calls are the leaves of a binary
//! tree, of which each node counts the bytes that those below it gained. The watched calls that a call goes over, itself among them, are
//! those below a few nodes; it has a place in a list at each of these, and is looked at once the count of one of them passes a multiple of
//! that place's step. Steps are chosen so that a call is not too far if none of its nodes passed one: half of what is spare goes to the
//! place that woke the call last, since calls often gain one beside the other, and half to all others.

ghost use Rattle.std.specs.Prelude.{◌<◌};

use crate::jumps::Jump;
use std::alloc::{AllocError, Global};

/// The calls that are watched. Numbers of places and nodes begin with 1; 0 is none.
#[derive(Drop)]
pub struct Watch {
    /// The numbers of the calls, in order.
    calls: Vec<usize>,
    /// How many places a call has: two for each level of the tree.
    width: usize,
    /// By node, how many bytes the calls below it gained. Those below node k are nodes 2k and 2k + 1; the calls are the last ones.
    gains: Vec<u32>,
    /// By step and node, the first place of the list.
    heads: Vec<u32>,
    /// By place, the next one of its list.
    nexts: Vec<u32>,
    /// By place, the one before it in its list.
    priors: Vec<u32>,
    /// By place, the number of its step, counted from 1; 0 if it stands in no list.
    steps: Vec<u32>,
    /// By call, the place that woke it last.
    wakers: Vec<u32>,
    /// By call, 1 if it stands in the queue.
    waits: Vec<u32>,
    /// The calls that are to be looked at.
    queue: Vec<usize>,
}

/// So many steps there are.
const STEPS: usize = 10;

/// How many bytes a step has: two, and each four times as many as the one before.
fn bytes_in(step: usize) -> u64
    ensures { 0 < result }
{
    match step {
        0 => 2,
        1 => 8,
        2 => 32,
        3 => 128,
        4 => 512,
        5 => 2_048,
        6 => 8_192,
        7 => 32_768,
        8 => 131_072,
        _ => 524_288,
    }
}

/// Which step a number of bytes is in.
fn part(bytes: usize, step: usize) -> u64 {
    bytes as u64 / bytes_in(step)
}

/// A number of a list; 0 past its end.
fn at(list: &Vec<u32>, place: usize) -> usize {
    match list.get(place) {
        Some(number) => *number as usize,
        None => 0,
    }
}

/// Sets a number of a list.
fn put(list: &mut Vec<u32>, place: usize, number: usize) {
    if place < list.len() {
        list[place] = number.min(0xffff_ffff) as u32;
    }
}

/// So many zeros.
fn zeros(alloc: Global, count: usize) -> Result<Vec<u32>, AllocError> {
    Ok(vec![in alloc; 0_u32; count]?)
}

/// Watches calls, by how many bytes may be added to each call's distance, and by what the calls before each lose. Those of which nothing is
/// spare are to be looked at.
pub fn watch_of(
    alloc: Global,
    jumps: &[Jump],
    spares: &[u64],
    before: &[u128],
) -> Result<Watch, AllocError> {
    let calls = watched(alloc, jumps, spares, before)?;
    let count = calls.len();
    let width = levels_of(count).saturating_mul(2);
    let places = count.saturating_mul(width).saturating_add(1);
    let nodes = count.saturating_mul(2);
    let mut watch = Watch {
        calls,
        width,
        gains: zeros(alloc, nodes)?,
        heads: zeros(alloc, nodes.saturating_mul(STEPS))?,
        nexts: zeros(alloc, places)?,
        priors: zeros(alloc, places)?,
        steps: zeros(alloc, places)?,
        wakers: zeros(alloc, count)?,
        waits: zeros(alloc, count)?,
        queue: Vec::with_capacity(alloc, count)?,
    };
    for k in 0..count {
        let call = call_of(&watch, k);
        let spare = spare_at(spares, call);
        note(&mut watch, jumps, k, spare, 0)?;
    }
    Ok(watch)
}

/// What is spare of a call.
fn spare_at(spares: &[u64], call: usize) -> u64 {
    match spares.get(call) {
        Some(spare) => *spare,
        None => u64::MAX,
    }
}

/// The calls of which less is spare than all calls that they go over can still gain.
fn watched(
    alloc: Global,
    jumps: &[Jump],
    spares: &[u64],
    before: &[u128],
) -> Result<Vec<usize>, AllocError> {
    let mut calls = Vec::new(alloc);
    for k in 0..jumps.len() {
        let low = lost_at(before, jumps[k].low.call);
        let high = lost_at(before, jumps[k].high.call.saturating_add(1));
        if spare_at(spares, k) as u128 <= high.saturating_sub(low) {
            calls.push(k)?;
        }
    }
    Ok(calls)
}

/// What the calls before one lose, or what all do.
fn lost_at(before: &[u128], call: usize) -> u128 {
    match before.get(call.min(before.len().saturating_sub(1))) {
        Some(lost) => *lost,
        None => 0,
    }
}

/// How many levels a tree of so many leaves has at most.
fn levels_of(count: usize) -> usize {
    let mut nodes = count.saturating_mul(2);
    for level in 0..64 {
        if nodes == 0 {
            return level;
        }
        nodes = nodes / 2;
    }
    64
}

/// The number of a watched call.
fn call_of(watch: &Watch, k: usize) -> usize {
    match watch.calls.get(k) {
        Some(call) => *call,
        None => 0,
    }
}

/// The next call to look at: its place among those that are watched, and its number.
pub fn next_look(watch: &mut Watch) -> Option<(usize, usize)> {
    let Some(k) = watch.queue.pop() else {
        return None;
    };
    put(&mut watch.waits, k, 0);
    Some((k, call_of(watch, k)))
}

/// Notes that a watched call gained so many bytes, and what is spare of it now.
pub fn note(
    watch: &mut Watch,
    jumps: &[Jump],
    k: usize,
    spare: u64,
    gained: u64,
) -> Result<(), AllocError> {
    let most = watch.calls.len().saturating_mul(8) as u64;
    if spare > most {
        relist(watch, jumps, k, 0, 0);
    } else {
        let others = spare / 2 / (watch.width as u64).max(1);
        relist(watch, jumps, k, step_of(spare / 2), step_of(others));
    }
    if spare == 0 {
        enqueue(watch, k, 0)?;
    }
    if gained == 0 {
        return Ok(());
    }
    gain(watch, k, gained)
}

/// The greatest step of no more bytes, counted from 1, or the first.
fn step_of(bytes: u64) -> usize {
    for step in 1..STEPS {
        if bytes < bytes_in(step) {
            return step;
        }
    }
    STEPS
}

/// Puts a call into the lists of one step for the place that woke it last, and of another for all others.
fn relist(watch: &mut Watch, jumps: &[Jump], k: usize, last: usize, others: usize) {
    let waker = at(&watch.wakers, k);
    let call = call_of(watch, k);
    if call >= jumps.len() {
        return;
    }
    let count = watch.calls.len();
    let mut low = count.saturating_add(first_from(watch, jumps[call].low.call));
    let mut high = count.saturating_add(first_from(watch, jumps[call].high.call.saturating_add(1)));
    let mut place = k.saturating_mul(watch.width).saturating_add(1);
    for _level in 0..64 {
        if low >= high {
            return;
        }
        if low % 2 == 1 {
            move_to(
                watch,
                low,
                place,
                if place == waker { last } else { others },
            );
            low = low.saturating_add(1);
        }
        if high % 2 == 1 {
            high = high.saturating_sub(1);
            let next = place.saturating_add(1);
            move_to(watch, high, next, if next == waker { last } else { others });
        }
        low = low / 2;
        high = high / 2;
        place = place.saturating_add(2);
    }
}

/// The place of the first watched call from a number on.
fn first_from(watch: &Watch, call: usize) -> usize {
    watch
        .calls
        .as_slice()
        .partition_point(|other| *other < call)
}

/// The list of a step at a node.
fn list_of(watch: &Watch, node: usize, step: usize) -> usize {
    watch.gains.len().saturating_mul(step).saturating_add(node)
}

/// Moves a place at a node to the list of another step, or of none.
fn move_to(watch: &mut Watch, node: usize, place: usize, step: usize) {
    let old = at(&watch.steps, place);
    if old == step {
        return;
    }
    put(&mut watch.steps, place, step);
    if old > 0 {
        unlink(watch, list_of(watch, node, old - 1), place);
    }
    if step > 0 {
        link(watch, list_of(watch, node, step - 1), place);
    }
}

/// Puts a place into a list.
fn link(watch: &mut Watch, list: usize, place: usize) {
    let first = at(&watch.heads, list);
    put(&mut watch.heads, list, place);
    put(&mut watch.nexts, place, first);
    put(&mut watch.priors, place, 0);
    put(&mut watch.priors, first, place);
}

/// Takes a place out of a list.
fn unlink(watch: &mut Watch, list: usize, place: usize) {
    let next = at(&watch.nexts, place);
    let prior = at(&watch.priors, place);
    put(&mut watch.priors, next, prior);
    if prior == 0 {
        put(&mut watch.heads, list, next);
    } else {
        put(&mut watch.nexts, prior, next);
    }
}

/// Counts the bytes that a watched call gained at all nodes above it, and wakes those who wait for them.
fn gain(watch: &mut Watch, k: usize, bytes: u64) -> Result<(), AllocError> {
    let mut node = watch.calls.len().saturating_add(k);
    for _level in 0..64 {
        if node == 0 {
            return Ok(());
        }
        let old = at(&watch.gains, node);
        let new = old.saturating_add(bytes as usize);
        put(&mut watch.gains, node, new);
        wake_all(watch, node, old, new)?;
        node = node / 2;
    }
    Ok(())
}

/// Wakes the calls of all steps that a node's count passed.
fn wake_all(watch: &mut Watch, node: usize, old: usize, new: usize) -> Result<(), AllocError> {
    for step in 0..STEPS {
        if part(old, step) == part(new, step) {
            return Ok(());
        }
        wake(watch, list_of(watch, node, step))?;
    }
    Ok(())
}

/// Wakes the calls of a list.
fn wake(watch: &mut Watch, list: usize) -> Result<(), AllocError> {
    let mut place = at(&watch.heads, list);
    for _ in 0..watch.nexts.len() {
        if place == 0 {
            return Ok(());
        }
        enqueue(watch, (place - 1) / watch.width.max(1), place)?;
        place = at(&watch.nexts, place);
    }
    Ok(())
}

/// Has a watched call looked at that a place woke, if that is not to be done anyway.
fn enqueue(watch: &mut Watch, k: usize, place: usize) -> Result<(), AllocError> {
    if at(&watch.waits, k) == 1 {
        return Ok(());
    }
    put(&mut watch.waits, k, 1);
    put(&mut watch.wakers, k, place);
    watch.queue.push(k)?;
    Ok(())
}
