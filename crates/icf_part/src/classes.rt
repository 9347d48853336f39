//! Classes of items, by labels.

ghost use Rattle.std.specs.Prelude.{◌≡◌, ℕ, ◌<◌, ◌^◌, [], length, replicate, slice_index, IfOk};
ghost use Rattle.icf_part.specs.Classes.{AreItems, AreSizes, lists_of};
ghost use Rattle.icf_part.specs.Numbered.{AreFirsts};

use crate::seeds::Waiting;
use std::alloc::{AllocError, Global};

/// The classes: items of one label are one class.
#[derive(Drop)]
pub struct Classes {
    /// By item, its label.
    pub labels: Vec<u32>,
    /// By label, how many items have it.
    pub sizes: Vec<u32>,
    /// By label, items among which are all that have it.
    pub members: Vec<Vec<u32>>,
    /// By label, whether it waits for its turn.
    pub waits: Vec<bool>,
    /// The labels that wait.
    pub queue: Vec<u32>,
}

/// The classes by their first items, with those that wait.
pub fn first_classes(
    alloc: Global,
    labels: Vec<u32>,
    waiting: Waiting,
) -> Result<Classes, AllocError>
    requires few { length labels.items < 2 ^ 31 }
    requires firsts { AreFirsts (length labels.items) labels.items }
    requires count { length waiting.waits.items ≡ length labels.items }
    ensures labels { IfOk result (λ c. c.labels.items ≡ labels.items) }
    ensures waits { IfOk result (λ c. c.waits.items ≡ waiting.waits.items) }
    ensures queue { IfOk result (λ c. c.queue.items ≡ waiting.queue.items) }
    ensures sizes { IfOk result (λ c. AreSizes labels.items c.sizes.items) }
    ensures members { IfOk result (λ c. AreItems labels.items (length labels.items) (lists_of c.members.items)) }
{
    let members = member_lists(alloc, labels.as_slice())?;
    let sizes = sizes_of(alloc, labels.as_slice())?;
    Ok(Classes {
        labels,
        sizes,
        members,
        waits: waiting.waits,
        queue: waiting.queue,
    })
}

/// By label, how many items have it.
fn sizes_of(alloc: Global, labels: &[u32]) -> Result<Vec<u32>, AllocError>
    requires few { length labels.now < 2 ^ 31 }
    requires within { (a : ℕ) → a < length labels.now → slice_index labels.now a < length labels.now }
    ensures { IfOk result (λ sizes. AreSizes labels.now sizes.items) }
{
    let mut sizes = vec![in alloc; 0u32; labels.len()]?;
    for a in 0..labels.len() {
        sizes[labels[a] as usize] += 1;
    }
    Ok(sizes)
}

/// By label, the items that have it.
fn member_lists(alloc: Global, labels: &[u32]) -> Result<Vec<Vec<u32>>, AllocError>
    requires few { length labels.now < 2 ^ 31 }
    requires within { (a : ℕ) → a < length labels.now → slice_index labels.now a < length labels.now }
    ensures { IfOk result (λ lists. AreItems labels.now (length labels.now) (lists_of lists.items)) }
{
    let mut lists = no_members(alloc, labels.len())?;
    for a in 0..labels.len() {
        lists[labels[a] as usize].push(a as u32)?;
    }
    Ok(lists)
}

/// So many empty lists.
fn no_members(alloc: Global, count: usize) -> Result<Vec<Vec<u32>>, AllocError>
    ensures { IfOk result (λ lists. lists_of lists.items ≡ replicate count []) }
{
    let mut lists = Vec::with_capacity(alloc, count)?;
    for made in 0..count {
        lists.push(Vec::new(alloc))?;
    }
    Ok(lists)
}
