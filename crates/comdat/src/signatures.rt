//! The signatures of COMDAT groups.

ghost use Rattle.std.specs.Prelude.{◌≡◌, IfOk};
ghost use Rattle.name_numbers.specs.Texts.{lent_texts};
ghost use Rattle.comdat.specs.Comdats.{comdat_views};
ghost use Rattle.comdat.specs.Signatures.{signatures};

use crate::groups::ComdatGroup;
use std::alloc::{AllocError, Global};

/// The signatures of groups, in the same order.
pub fn signatures_of<'a>(
    alloc: Global,
    groups: &[ComdatGroup<'_, 'a>],
) -> Result<Vec<&'a [u8]>, AllocError>
    ensures { IfOk result (λ list. lent_texts list.items ≡ signatures (comdat_views groups.now)) }
{
    let mut list = Vec::with_capacity(alloc, groups.len())?;
    for group in groups {
        list.push(group.signature)?;
    }
    Ok(list)
}
