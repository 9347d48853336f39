//! Items whose contents another has, the only ones that are compared further: any other is its own leader.

ghost use Rattle.std.specs.Prelude.{◌≡◌, ℕ, ◌<◌, ◌^◌, All, if◌then◌else◌, length, map, slice_index, slice_index_or, slice_set, true, false, Some, IfOk};
ghost use Rattle.std.specs.List.{filter, range_with_len};
ghost use Rattle.std.specs.List.Sorted.{IsStrictlyIncreasing};
ghost use Rattle.name_numbers.specs.Texts.{lent_texts, text_numbers};
ghost use Rattle.icf_part.specs.Chosen.{AreMarked, AreShared, AreSpread};
ghost use Rattle.icf_part.specs.Chosen as spec;

use crate::turns::push_if;
use intern_race::Texts;
use lk_base::SecNo;
use name_numbers::number_texts;
use std::alloc::{AllocError, Global};
use std::thread::Threads;
use work_split::Gate;

/// Places of texts, in order, among them all of those that others equal. What stands for an item whose contents are none of them is itself, so
/// nothing else of it is looked at. Workers place many texts, a piece of them each, in the table that numbers them. There are fewer than 2^31 texts,
/// as there are sections in a link. The only error is out of memory.
pub fn shared_texts<'a, R: Threads + Sync, G: Gate>(
    rt: &R,
    alloc: Global,
    texts: Vec<&'a [u8]>,
    workers: u32,
    gate: &G,
) -> Result<Vec<u32>, AllocError>
    requires { length texts.items < 2 ^ 31 }
    ensures { IfOk result (λ list. AreShared (text_numbers (lent_texts texts.entry.items)) list.items) }
{
    let all = Texts::of(alloc, texts);
    let numbers = number_texts(rt, alloc, &all, workers, gate)?;
    let list = shared_items(alloc, numbers.as_slice())?;
    Ok(list)
}

/// Makes each of some sections its own leader, if it has a number in the list. Takes no memory.
pub fn lead_themselves(leaders: &mut Vec<Option<SecNo>>, sections: &[SecNo])
    ensures { leaders.new.items ≡ spec.own_leading sections.now leaders.old.items }
{
    for i in 0..sections.len() {
        lead_itself(leaders, sections[i]);
    }
}

/// Makes a section its own leader.
fn lead_itself(leaders: &mut Vec<Option<SecNo>>, section: SecNo)
    ensures { leaders.new.items ≡ slice_set leaders.old.items section (Some section) }
{
    if (section as usize) < leaders.len() {
        leaders[section as usize] = Some(section);
    }
}

/// The places of the items whose contents another has, in order; `bytes` are the numbers of all items' contents.
pub fn shared_items(alloc: Global, bytes: &[u32]) -> Result<Vec<u32>, AllocError>
    requires few { length bytes.now < 2 ^ 31 }
    requires within { (a : ℕ) → a < length bytes.now → slice_index bytes.now a < length bytes.now }
    ensures { IfOk result (λ list. AreShared bytes.now list.items) }
{
    let shared = marked(alloc, bytes)?;
    let list = listed(alloc, bytes, shared.as_slice())?;
    Ok(list)
}

/// By item, whether a later one has its contents.
fn marked(alloc: Global, bytes: &[u32]) -> Result<Vec<bool>, AllocError>
    requires { (a : ℕ) → a < length bytes.now → slice_index bytes.now a < length bytes.now }
    ensures { IfOk result (λ shared. AreMarked bytes.now (length bytes.now) shared.items) }
{
    let mut shared = vec![in alloc; false; bytes.len()]?;
    for a in 0..bytes.len() {
        mark_if(&mut shared, bytes[a] as usize, bytes[a] as usize != a);
    }
    Ok(shared)
}

fn mark_if(shared: &mut Vec<bool>, at: usize, wanted: bool)
    requires { at < length shared.old.items }
    ensures { shared.new.items ≡ (if wanted then slice_set shared.old.items at true else shared.old.items) }
{
    if wanted {
        shared[at] = true;
    }
}

/// The items whose number is not their own, or is another's, too.
fn listed(alloc: Global, bytes: &[u32], shared: &[bool]) -> Result<Vec<u32>, AllocError>
    requires { length bytes.now < 2 ^ 31 }
    ensures { IfOk result (λ list. list.items ≡ filter (spec.is_shared bytes.now shared.now) (range_with_len 0 (length bytes.now))) }
{
    let mut list = Vec::new(alloc);
    for a in 0..bytes.len() {
        push_if(&mut list, a as u32, is_shared(bytes, shared, a))?;
    }
    Ok(list)
}

#[tactic(auto, unfolding(crate::specs::Chosen::is_shared))]
fn is_shared(bytes: &[u32], shared: &[bool], a: usize) -> bool
    requires { a < length bytes.now }
    ensures { result ≡ spec.is_shared bytes.now shared.now a }
{
    bytes[a] as usize != a || mark_at(shared, a)
}

fn mark_at(shared: &[bool], a: usize) -> bool
    ensures { result ≡ slice_index_or shared.now a false }
{
    match shared.get(a) {
        Some(mark) => *mark,
        None => false,
    }
}

/// The numbers of chosen items, of a list with a number for each item.
pub fn chosen_numbers(
    alloc: Global,
    numbers: &[u32],
    chosen: &[u32],
) -> Result<Vec<u32>, AllocError>
    requires { All (λ a. a < length numbers.now) chosen.now }
    ensures { IfOk result (λ list. list.items ≡ map (slice_index numbers.now) chosen.now) }
{
    let mut list = Vec::with_capacity(alloc, chosen.len())?;
    for k in 0..chosen.len() {
        list.push(numbers[chosen[k] as usize])?;
    }
    Ok(list)
}

/// The leaders of so many items, from those of the chosen ones, which go by their places among them.
pub fn spread_leaders(
    alloc: Global,
    count: usize,
    chosen: &[u32],
    leaders: &[u32],
) -> Result<Vec<u32>, AllocError>
    requires few { count < 2 ^ 31 }
    requires chosen { All (λ a. a < count) chosen.now }
    requires order { IsStrictlyIncreasing chosen.now }
    requires wide { length leaders.now ≡ length chosen.now }
    requires within { All (λ k. k < length chosen.now) leaders.now }
    ensures { IfOk result (λ list. AreSpread count chosen.now (length chosen.now) leaders.now list.items) }
{
    let mut list = own_places(alloc, count)?;
    for k in 0..chosen.len() {
        list[chosen[k] as usize] = chosen[leaders[k] as usize];
    }
    Ok(list)
}

/// For each of so many items its own place.
fn own_places(alloc: Global, count: usize) -> Result<Vec<u32>, AllocError>
    requires { count < 2 ^ 31 }
    ensures { IfOk result (λ list. list.items ≡ range_with_len 0 count) }
{
    let mut list = Vec::with_capacity(alloc, count)?;
    for a in 0..count {
        list.push(a as u32)?;
    }
    Ok(list)
}
