//! Lists of sections.

ghost use Rattle.std.specs.Prelude.{◌≡◌, ◌++◌, ◌∷◌, [], if◌then◌else◌, OnOk};

use lk_base::SecNo;
use std::alloc::AllocError;

/// Adds a section to a list, if it is wanted.
pub fn push_if(list: &mut Vec<SecNo>, wanted: bool, section: SecNo) -> Result<(), AllocError>
    ensures { OnOk result (list.new.items ≡ list.old.items ++ (if wanted then section ∷ [] else [])) }
{
    if wanted {
        list.push(section)?;
    }
    Ok(())
}
