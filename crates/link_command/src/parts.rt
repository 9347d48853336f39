//! Lists of names between commas.

ghost use Rattle.std.specs.Prelude.{◌≡◌, IfOk};
ghost use Rattle.link_command.specs.Command.{lists_of, parts_of};

use std::alloc::{AllocError, Global};

/// What stands between the commas of a text.
pub(crate) fn parts_of(alloc: Global, text: &[u8]) -> Result<Vec<Vec<u8>>, AllocError>
    ensures { IfOk result (λ parts. lists_of parts.items ≡ parts_of text.now) }
{
    let mut parts = Vec::new(alloc);
    let mut part = Vec::new(alloc);
    for at in 0..text.len() {
        if text[at] == b',' {
            parts.push(part)?;
            part = Vec::new(alloc);
        } else {
            part.push(text[at])?;
        }
    }
    parts.push(part)?;
    Ok(parts)
}
