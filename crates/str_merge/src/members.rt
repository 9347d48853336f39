//! The sections of each pool.

ghost use Rattle.std.specs.Prelude.{◌≡◌, ◌<◌, ◌^◌, [], All, length, IfOk};
ghost use Rattle.str_merge.specs.Members.{AreMembers};

use std::alloc::{AllocError, Global};

/// For each number below `count` the indexes of the elements that have it, in order.
pub fn members_of(alloc: Global, numbers: &[u32], count: usize) -> Result<Vec<Vec<u32>>, AllocError>
    requires within { All (λ n. n < count) numbers.now }
    requires few { length numbers.now < 2 ^ 31 }
    ensures { IfOk result (λ lists. AreMembers numbers.now count (length numbers.now) lists.items) }
{
    let mut lists = empty_lists(alloc, count)?;
    for i in 0..numbers.len() {
        lists[numbers[i] as usize].push(i as u32)?;
    }
    Ok(lists)
}

/// So many empty lists.
fn empty_lists(alloc: Global, count: usize) -> Result<Vec<Vec<u32>>, AllocError>
    ensures { IfOk result (λ lists. AreMembers [] count 0 lists.items) }
{
    let mut lists = Vec::with_capacity(alloc, count)?;
    for made in 0..count {
        lists.push(Vec::new(alloc))?;
    }
    Ok(lists)
}
