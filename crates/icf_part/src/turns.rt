//! The turn of a class: the others are split by which of their items lead to it.

ghost use Rattle.std.specs.Prelude.{◌≡◌, ℕ, ◌%◌, ◌<◌, ◌^◌, ◌==◌, ◌++◌, ◌∷◌, [], All, List, flat_map, if◌then◌else◌, length, slice_index, slice_index_or, Contains, IfOk, OnOk};
ghost use Rattle.std.specs.List.{filter};
ghost use Rattle.icf_part.specs.Classes.{AreKept, ArePlacesSplit, Stands, lists_of};
ghost use Rattle.icf_part.specs.Edges.{AreInto, IsTurned};
ghost use Rattle.icf_part.specs.Runs.{IsRising};

use crate::classes::Classes;
use crate::runs::{next_run, sort_words};
use crate::splitting::split_by;
use crate::steps::Steps;
use std::alloc::{AllocError, Global};
use std::sync::ledger::Ledger;

/// Splits each class of which some items lead to a class in one place of their relocations and some do not.
pub fn turn<L: Ledger>(
    alloc: Global,
    classes: &mut Classes,
    into: &[Vec<u64>],
    label: u32,
    steps: &mut Steps<L>,
) -> Result<(), AllocError>
    requires few { length classes.old.labels.items < 2 ^ 31 }
    requires kept { AreKept (length classes.old.labels.items) classes.old }
    requires label { label < length classes.old.sizes.items }
    requires count { length into.now ≡ length classes.old.labels.items }
    requires items { (t w : ℕ) → Contains (slice_index_or (lists_of into.now) t []) w → w % 2 ^ 32 < length classes.old.labels.items }
    ensures stands { OnOk result (Stands (length classes.old.labels.items) classes.old classes.new steps.old steps.new) }
    ensures turned { OnOk result ((ends : List (List ℕ)) → AreInto ends (lists_of into.now) → IsTurned ends label classes.old.labels.items classes.new.labels.items) }
{
    let own = members_of(
        alloc,
        classes.labels.as_slice(),
        list_at(classes.members.as_slice(), label),
        label,
    )?;
    let mut words = edges_of(alloc, into, own.as_slice())?;
    classes.members[label as usize] = own;
    sort_words(&mut words);
    split_all(alloc, classes, words.as_slice(), steps)?;
    Ok(())
}

/// The list of a number.
fn list_at(lists: &[Vec<u32>], number: u32) -> &[u32]
    requires { number < length lists.now }
    ensures { result.now ≡ slice_index_or (lists_of lists.now) number [] }
{
    lists[number as usize].as_slice()
}

/// The members of a list that have a label.
fn members_of(
    alloc: Global,
    labels: &[u32],
    list: &[u32],
    label: u32,
) -> Result<Vec<u32>, AllocError>
    requires { All (λ a. a < length labels.now) list.now }
    ensures { IfOk result (λ own. own.items ≡ filter (λ a. slice_index labels.now a == label) list.now) }
{
    let mut own = Vec::new(alloc);
    for i in 0..list.len() {
        push_if(&mut own, list[i], labels[list[i] as usize] == label)?;
    }
    Ok(own)
}

/// Adds an item to a list, if it is wanted there.
pub fn push_if(list: &mut Vec<u32>, a: u32, wanted: bool) -> Result<(), AllocError>
    ensures { OnOk result (list.new.items ≡ list.old.items ++ (if wanted then a ∷ [] else [])) }
{
    if wanted {
        list.push(a)?;
    }
    Ok(())
}

/// All edges into some items.
fn edges_of(alloc: Global, into: &[Vec<u64>], items: &[u32]) -> Result<Vec<u64>, AllocError>
    requires { All (λ a. a < length into.now) items.now }
    ensures { IfOk result (λ words. words.items ≡ flat_map (λ a. slice_index_or (lists_of into.now) a []) items.now) }
{
    let mut words = Vec::new(alloc);
    for i in 0..items.len() {
        words.extend_from_slice(into[items[i] as usize].as_slice())?;
    }
    Ok(words)
}

/// Splits by the items of each place.
fn split_all<L: Ledger>(
    alloc: Global,
    classes: &mut Classes,
    words: &[u64],
    steps: &mut Steps<L>,
) -> Result<(), AllocError>
    requires few { length classes.old.labels.items < 2 ^ 31 }
    requires kept { AreKept (length classes.old.labels.items) classes.old }
    requires rising { IsRising words.now }
    requires items { (w : ℕ) → Contains words.now w → w % 2 ^ 32 < length classes.old.labels.items }
    ensures stands { OnOk result (Stands (length classes.old.labels.items) classes.old classes.new steps.old steps.new) }
    ensures split { OnOk result (ArePlacesSplit (length classes.old.labels.items) words.now classes.old.labels.items classes.new.labels.items) }
{
    let mut list = Vec::new(alloc);
    let mut at = 0;
    'runs: while at < words.len() {
        let end = next_run(&mut list, words, at)?;
        split_by(alloc, classes, list.as_slice(), steps)?;
        at = end;
    }
    Ok(())
}
