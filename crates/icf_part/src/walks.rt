//! Walks over the labels of items.

ghost use Rattle.std.specs.Prelude.{◌≡◌, ℕ, ◌<◌, ◌==◌, ◌^◌, length, slice_index, IfOk};
ghost use Rattle.icf_part.specs.Counts.{leader_count};
ghost use Rattle.icf_part.specs.Numbered.{AreFirstBy, AreFirstItems};

use std::alloc::{AllocError, Global};

/// For each item the first that has its label, of labels below a count.
pub fn first_items(alloc: Global, labels: &[u32], count: usize) -> Result<Vec<u32>, AllocError>
    requires few { length labels.now < 2 ^ 31 }
    requires within { (a : ℕ) → a < length labels.now → slice_index labels.now a < count }
    ensures { IfOk result (λ last. AreFirstItems (length labels.now) labels.now last.items) }
{
    let firsts = firsts_by(alloc, labels, count)?;
    let mut list = Vec::with_capacity(alloc, labels.len())?;
    for a in 0..labels.len() {
        list.push(firsts[labels[a] as usize])?;
    }
    Ok(list)
}

/// By label, the first item that has it.
fn firsts_by(alloc: Global, labels: &[u32], count: usize) -> Result<Vec<u32>, AllocError>
    requires few { length labels.now < 2 ^ 31 }
    requires within { (a : ℕ) → a < length labels.now → slice_index labels.now a < count }
    ensures count { IfOk result (λ firsts. length firsts.items ≡ count) }
    ensures firsts { IfOk result (λ firsts. AreFirstBy labels.now 0 firsts.items) }
{
    let mut firsts = vec![in alloc; 0u32; count]?;
    let mut left = labels.len();
    'down: while left > 0 {
        left -= 1;
        firsts[labels[left] as usize] = left as u32;
    }
    Ok(firsts)
}

/// How many items are their own leaders.
#[tactic(auto, unfolding(crate::specs::Counts::how_many))]
pub fn count_leaders(leaders: &[u32]) -> usize
    ensures { result ≡ leader_count leaders.now }
{
    (0..leaders.len())
        .filter(|a| is_own_leader(leaders, *a))
        .count()
}

fn is_own_leader(leaders: &[u32], a: usize) -> bool
    ensures { result ≡ (slice_index leaders.now a == a) }
{
    match leaders.get(a) {
        Some(leader) => *leader as usize == a,
        None => 0 == a,
    }
}
