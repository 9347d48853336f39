//! The upper parts of a section, found in the list of all.

ghost use Rattle.std.specs.Prelude.{◌≡◌, ◌+◌, ◌<◌, ◌^◌, [], length, slice_index_or, List};
ghost use Rattle.lk_tables.specs.declared.objects.Reloc.{Reloc};
ghost use Rattle.lk_tables.specs.Uppers.{AreListed};

use lk_tables::{Reloc, Uppers};

/// The upper parts of the section of a number.
pub fn uppers_of(uppers: &Uppers, section: usize) -> &[Reloc]
    requires { section < 2 ^ 32 }
    ensures { (lists : List (List Reloc)) → AreListed lists uppers.now → section < length lists → result.now ≡ slice_index_or lists section [] }
{
    let list = uppers.list.as_slice();
    let from = uppers.first_at(section).min(list.len());
    let (_, rest) = list.split_at(from);
    let count = uppers
        .first_at(section + 1)
        .saturating_sub(from)
        .min(rest.len());
    let (own, _) = rest.split_at(count);
    own
}
