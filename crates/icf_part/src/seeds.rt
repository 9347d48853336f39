//! The classes whose turn comes first.

ghost use Rattle.std.specs.Prelude.{◌≡◌, ◌⊎◌, ℕ, ◌<◌, length, slice_index, OnOk, IfOk, [], slice_index_or};
ghost use Rattle.icf_part.specs.Classes.{IsLonger, Waits};
ghost use Rattle.icf_part.specs.Edges.{AreWaiting, end_at};

use flat_rows::Rows;
use std::alloc::{AllocError, Global};

/// By label whether it waits, and those that do.
#[derive(Drop)]
pub struct Waiting {
    pub waits: Vec<bool>,
    pub queue: Vec<u32>,
}

/// Where an item leads to another class than the first of its class does, that class waits.
pub fn first_waiting(
    alloc: Global,
    ends: &Rows<u32>,
    classes: &[u32],
) -> Result<Waiting, AllocError>
    requires within { (a : ℕ) → a < length classes.now → slice_index classes.now a < length classes.now }
    requires ends { (a k : ℕ) → k < length (slice_index_or ends.now a []) → end_at ends.now a k < length classes.now }
    ensures { IfOk result (λ waiting. AreWaiting ends.now classes.now waiting) }
{
    let mut waiting = Waiting {
        waits: vec![in alloc; false; classes.len()]?,
        queue: Vec::new(alloc),
    };
    for a in 0..ends.count() {
        let own = ends.row(a);
        let first = ends.row(class_at(classes, a) as usize);
        compare(&mut waiting, classes, own, first)?;
    }
    Ok(waiting)
}

/// Compares where an item leads with where another does.
fn compare(
    waiting: &mut Waiting,
    classes: &[u32],
    own: &[u32],
    first: &[u32],
) -> Result<(), AllocError>
    requires within { (a : ℕ) → a < length classes.now → slice_index classes.now a < length waiting.old.waits.items }
    requires own { (k : ℕ) → k < length own.now → slice_index own.now k < length classes.now }
    ensures longer { OnOk result (IsLonger waiting.old.waits.items waiting.old.queue.items waiting.new.waits.items waiting.new.queue.items) }
    ensures waits { OnOk result ((k : ℕ) → k < length own.now → (slice_index classes.now (slice_index own.now k) ≡ slice_index classes.now (slice_index first.now k)) ⊎ Waits waiting.new.waits.items (slice_index classes.now (slice_index own.now k))) }
{
    for k in 0..own.len() {
        let class = class_at(classes, own[k] as usize);
        let other = class_at(classes, place_at(first, k));
        wait_apart(waiting, class, other)?;
    }
    Ok(())
}

/// Lets a class wait if it is not another.
fn wait_apart(waiting: &mut Waiting, class: u32, other: u32) -> Result<(), AllocError>
    requires { class < length waiting.old.waits.items }
    ensures longer { OnOk result (IsLonger waiting.old.waits.items waiting.old.queue.items waiting.new.waits.items waiting.new.queue.items) }
    ensures waits { OnOk result ((class ≡ other) ⊎ Waits waiting.new.waits.items class) }
{
    if class == other {
        return Ok(());
    }
    if waiting.waits[class as usize] {
        return Ok(());
    }
    waiting.queue.push(class)?;
    waiting.waits[class as usize] = true;
    Ok(())
}

/// The class of an item.
pub fn class_at(classes: &[u32], a: usize) -> u32
    ensures { result ≡ slice_index classes.now a }
{
    match classes.get(a) {
        Some(class) => *class,
        None => 0,
    }
}

fn place_at(places: &[u32], k: usize) -> usize
    ensures { result ≡ slice_index places.now k }
{
    match places.get(k) {
        Some(place) => *place as usize,
        None => 0,
    }
}
