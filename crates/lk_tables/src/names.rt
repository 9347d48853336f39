//! The texts of names.

ghost use Rattle.std.specs.Prelude.{◌≡◌};
ghost use Rattle.lk_tables.specs.Names as read;

use crate::spans::Span;

/// The bytes of a name in the file that it was read from; what lies past the file's end is left out.
#[tactic(auto, unfolding(crate::specs::Names::text_of))]
pub fn text_of<'a>(bytes: &'a [u8], name: &Span) -> &'a [u8]
    ensures { result.now ≡ read.text_of bytes.now name.now }
{
    let from = (name.from as usize).min(bytes.len());
    let rest = &bytes[from..];
    let len = (name.len as usize).min(rest.len());
    &rest[..len]
}
