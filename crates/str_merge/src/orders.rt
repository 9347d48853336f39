//! Distinct elements by first appearance.

ghost use Rattle.std.specs.Prelude.{◌≡◌, ◌==◌, ◌+◌, ◌<◌, ◌≤◌, ◌^◌, ◌++◌, length, take, slice_index, if◌then◌else◌, IfOk};
ghost use Rattle.str_merge.specs.Orders.{IsFirstOf, firsts, owns, ranks};

use std::alloc::{AllocError, Global};

/// So many elements are looked at before those of them are listed with which no earlier one is the same.
const BLOCK: usize = 512;

/// The distinct elements of a list.
#[derive(Debug, Drop)]
pub struct Order {
    /// The index of each element with which no earlier one is the same, in order.
    pub firsts: Vec<u32>,
    /// For each element the place of its first equal among these.
    pub ranks: Vec<u32>,
}

/// The distinct elements of a list, if for each element the index of the first equal one is known.
pub fn order_of(alloc: Global, numbers: &[u32]) -> Result<Order, AllocError>
    requires { IsFirstOf numbers.now }
    ensures firsts { IfOk result (λ order. order.firsts.items ≡ firsts numbers.now) }
    ensures ranks { IfOk result (λ order. order.ranks.items ≡ ranks numbers.now) }
{
    let firsts = firsts_of(alloc, numbers)?;
    let ranks = ranks_of(alloc, numbers)?;
    Ok(Order { firsts, ranks })
}

/// The index of each element with which no earlier one is the same, in order.
#[tactic(auto, unfolding(crate::specs::Orders::firsts))]
pub fn firsts_of(alloc: Global, numbers: &[u32]) -> Result<Vec<u32>, AllocError>
    requires { length numbers.now < 2 ^ 31 }
    ensures { IfOk result (λ list. list.items ≡ firsts numbers.now) }
{
    let mut firsts = Vec::with_capacity(alloc, numbers.len())?;
    let mut own = empty_block(alloc)?;
    let mut done = 0;
    while done < numbers.len() {
        let end = done + block_of(numbers.len() - done);
        let count = list_own(&mut own, numbers, done, end);
        firsts.extend_from_slice(head(own.as_slice(), count))?;
        done = end;
    }
    Ok(firsts)
}

/// How many elements have no earlier one that is the same.
#[tactic(auto, unfolding(crate::specs::Orders::firsts))]
pub fn first_count(numbers: &[u32]) -> usize
    requires { length numbers.now < 2 ^ 31 }
    ensures { result ≡ length (firsts numbers.now) }
{
    let mut count: usize = 0;
    for i in 0..numbers.len() {
        count = count_own(count, numbers[i], i);
    }
    count
}

/// Room for the elements of a block.
pub fn empty_block(alloc: Global) -> Result<Vec<u32>, AllocError>
    ensures { IfOk result (λ own. length own.items ≡ 512) }
{
    let own = vec![in alloc; 0; BLOCK]?;
    Ok(own)
}

/// How many of the elements that are left are of the next block.
pub fn block_of(left: usize) -> usize
    requires { 0 < left }
    ensures some { 0 < result }
    ensures most { result ≤ left }
    ensures room { result ≤ 512 }
{
    if left < BLOCK { left } else { BLOCK }
}

/// Lists the elements from one on and before another with which no earlier one is the same: so many, at the head of the list. Whether an element is one
/// of them is not to be foreseen, so each is written, and kept or not without a branch.
pub fn list_own(own: &mut Vec<u32>, numbers: &[u32], start: usize, end: usize) -> usize
    requires order { start ≤ end }
    requires room { end ≤ start + length own.old.items }
    requires within { end ≤ length numbers.now }
    requires few { length numbers.now < 2 ^ 31 }
    ensures len { length own.new.items ≡ length own.old.items }
    ensures most { result ≤ length own.new.items }
    ensures own { owns numbers.now start ++ take result own.new.items ≡ owns numbers.now end }
{
    let mut count: usize = 0;
    for i in start..end {
        own[count] = i as u32;
        count = count_own(count, numbers[i], i);
    }
    count
}

/// The first so many elements of a list.
pub fn head(list: &[u32], count: usize) -> &[u32]
    requires { count ≤ length list.now }
    ensures { result.now ≡ take count list.now }
{
    &list[..count]
}

/// For each element the place of its first equal among these, if the numbers are indexes of first elements. The place after all before is listed for each
/// element before its number is read, so one that is the first of its kind finds it there, and nothing is chosen by a branch.
#[tactic(auto, unfolding(crate::specs::Orders::ranks))]
pub fn ranks_of(alloc: Global, numbers: &[u32]) -> Result<Vec<u32>, AllocError>
    requires { length numbers.now < 2 ^ 31 }
    ensures len { IfOk result (λ list. length list.items ≡ length numbers.now) }
    ensures value { IfOk result (λ list. IsFirstOf numbers.now → list.items ≡ ranks numbers.now) }
{
    let mut ranks = Vec::with_capacity(alloc, numbers.len())?;
    let mut count: usize = 0;
    for i in 0..numbers.len() {
        ranks.push(narrow(count))?;
        let rank = rank_at(ranks.as_slice(), numbers[i] as usize);
        ranks[i] = rank;
        count = count_own(count, numbers[i], i);
    }
    Ok(ranks)
}

/// A number of 32 bits.
fn narrow(count: usize) -> u32
    requires { count < 2 ^ 32 }
    ensures { result ≡ count }
{
    count as u32
}

/// The place that is listed for an element; 0 if none is.
fn rank_at(ranks: &[u32], at: usize) -> u32
    ensures { result ≡ slice_index ranks.now at }
{
    match ranks.get(at) {
        Some(rank) => *rank,
        None => 0,
    }
}

/// The count with an element more, which counts if the first equal one is itself.
fn count_own(count: usize, first: u32, i: usize) -> usize
    requires { count < 2 ^ 32 }
    ensures { result ≡ (if first == i then count + 1 else count) }
{
    if first as usize == i {
        return count + 1;
    }
    count
}
