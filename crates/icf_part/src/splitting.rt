//! Classes that are split by a list of items: those of a class that are in the list go apart from those that are not.

ghost use Rattle.std.specs.Prelude.{◌≡◌, ◌⊎◌, ℕ, ◌+◌, ◌-◌, ◌/◌, ◌%◌, ◌<◌, ◌≤◌, ◌^◌, [], ◌∷◌, ◌++◌, All, true, false, length, map, slice_index, slice_set, Contains, IfOk, OnOk};
ghost use Rattle.icf_part.specs.Classes.{Adds, AreKept, AreSplit, IsPartSplit, Stands, label_of, lists_of, word};
ghost use Rattle.icf_part.specs.Runs.{IsRising};

use crate::classes::Classes;
use crate::relabel::relabel;
use crate::runs::{next_run, sort_words, upper_at};
use crate::steps::Steps;
use std::alloc::{AllocError, Global};
use std::sync::ledger::Ledger;

/// Splits each class of which some items are in a list and some are not.
pub fn split_by<L: Ledger>(
    alloc: Global,
    classes: &mut Classes,
    list: &[u32],
    steps: &mut Steps<L>,
) -> Result<(), AllocError>
    requires few { length classes.old.labels.items < 2 ^ 31 }
    requires kept { AreKept (length classes.old.labels.items) classes.old }
    requires list { All (λ a. a < length classes.old.labels.items) list.now }
    ensures stands { OnOk result (Stands (length classes.old.labels.items) classes.old classes.new steps.old steps.new) }
    ensures split { OnOk result (AreSplit (length classes.old.labels.items) (λ a. Contains list.now a) classes.old.labels.items classes.new.labels.items) }
{
    let mut keys = labelled(alloc, classes.labels.as_slice(), list)?;
    sort_words(&mut keys);
    split_runs(alloc, classes, keys.as_slice(), steps)?;
    Ok(())
}

/// The items of a list, each after its label.
fn labelled(alloc: Global, labels: &[u32], list: &[u32]) -> Result<Vec<u64>, AllocError>
    requires { All (λ a. a < length labels.now) list.now }
    ensures { IfOk result (λ keys. keys.items ≡ map (λ a. word (slice_index labels.now a) a) list.now) }
{
    let mut keys = Vec::with_capacity(alloc, list.len())?;
    for i in 0..list.len() {
        keys.push(labels[list[i] as usize] as u64 * 0x1_0000_0000 + list[i] as u64)?;
    }
    Ok(keys)
}

/// Splits class after class.
fn split_runs<L: Ledger>(
    alloc: Global,
    classes: &mut Classes,
    keys: &[u64],
    steps: &mut Steps<L>,
) -> Result<(), AllocError>
    requires few { length classes.old.labels.items < 2 ^ 31 }
    requires kept { AreKept (length classes.old.labels.items) classes.old }
    requires rising { IsRising keys.now }
    requires keys { (w : ℕ) → Contains keys.now w → (w % 2 ^ 32 < length classes.old.labels.items) × (label_of classes.old (w % 2 ^ 32) ≡ w / 2 ^ 32) }
    ensures stands { OnOk result (Stands (length classes.old.labels.items) classes.old classes.new steps.old steps.new) }
    ensures split { OnOk result (AreSplit (length classes.old.labels.items) (λ a. Contains keys.now (word (label_of classes.old a) a)) classes.old.labels.items classes.new.labels.items) }
{
    let mut part = Vec::new(alloc);
    let mut at = 0;
    'runs: while at < keys.len() {
        let from = upper_at(keys, at);
        let end = next_run(&mut part, keys, at)?;
        split_class(alloc, classes, from, part.as_slice(), steps)?;
        at = end;
    }
    Ok(())
}

/// Splits one class, if some of its items are not in the list. Those that are get a new label.
fn split_class<L: Ledger>(
    alloc: Global,
    classes: &mut Classes,
    from: u32,
    part: &[u32],
    steps: &mut Steps<L>,
) -> Result<(), AllocError>
    requires few { length classes.old.labels.items < 2 ^ 31 }
    requires kept { AreKept (length classes.old.labels.items) classes.old }
    requires some { 0 < length part.now }
    requires part { (a : ℕ) → Contains part.now a → (a < length classes.old.labels.items) × (label_of classes.old a ≡ from) }
    ensures stands { OnOk result (Stands (length classes.old.labels.items) classes.old classes.new steps.old steps.new) }
    ensures split { OnOk result (IsPartSplit (length classes.old.labels.items) from part.now classes.old.labels.items classes.new.labels.items) }
{
    let to = classes.sizes.len() as u32;
    let moved = relabel(&mut classes.labels, part, from, to);
    if moved == classes.sizes[from as usize] {
        relabel(&mut classes.labels, part, to, from);
        return Ok(());
    }
    add_class(alloc, classes, from, part, moved)?;
    steps.tick();
    Ok(())
}

/// Notes that so many items of a list, which had a label, have a new one. One of the two waits from now on: the new one if the other waits,
/// else that of fewer items.
fn add_class(
    alloc: Global,
    classes: &mut Classes,
    from: u32,
    part: &[u32],
    moved: u32,
) -> Result<(), AllocError>
    requires few { length classes.old.sizes.items + 1 < 2 ^ 32 }
    requires from { from < length classes.old.sizes.items }
    requires moved { moved ≤ slice_index classes.old.sizes.items from }
    requires marks { length classes.old.waits.items ≡ length classes.old.sizes.items }
    ensures labels { OnOk result (classes.new.labels.items ≡ classes.old.labels.items) }
    ensures members { OnOk result (lists_of classes.new.members.items ≡ lists_of classes.old.members.items ++ part.now ∷ []) }
    ensures sizes { OnOk result (classes.new.sizes.items ≡ slice_set classes.old.sizes.items from (slice_index classes.old.sizes.items from - moved) ++ moved ∷ []) }
    ensures next { OnOk result (Adds from classes.old classes.new) }
{
    let to = classes.sizes.len() as u32;
    let stay = classes.sizes[from as usize] - moved;
    let next = next_of(classes.waits[from as usize], moved, stay, from, to);
    let mut list = Vec::with_capacity(alloc, part.len())?;
    list.extend_from_slice(part)?;
    classes.members.push(list)?;
    classes.sizes[from as usize] = stay;
    classes.sizes.push(moved)?;
    classes.waits.push(false)?;
    classes.waits[next as usize] = true;
    classes.queue.push(next)?;
    Ok(())
}

/// Which of two classes, of so many items each, waits: the new one if the other does.
fn next_of(waits: bool, moved: u32, stay: u32, from: u32, to: u32) -> u32
    ensures { (result ≡ to) ⊎ ((result ≡ from) × (waits ≡ false)) }
{
    if waits || moved <= stay { to } else { from }
}
