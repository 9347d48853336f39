//! How long ULEB128 numbers are (DWARF, "Variable Length Data"), in the contents of a section.

ghost use Rattle.std.specs.Prelude.{◌≡◌};
ghost use Rattle.std.specs.List.{position};
ghost use Rattle.lk_tables.specs.Sections as sections;
ghost use Rattle.lk_tables.specs.UlebLengths as spec;

use crate::heads::Section;
use crate::parts::part_of;
use lk_base::abi::PLACE_MAX;

/// The bytes of a section in its file, as far as the file has them.
pub fn contents_of<'a>(bytes: &'a [u8], section: &Section) -> &'a [u8]
    ensures { result.now ≡ sections.contents_of bytes.now section.now }
{
    part_of(bytes, section.offset, section.size)
}

/// How many bytes a ULEB128 number at an offset of a section's contents has: up to the first of which bit 7 is clear. None if that is not
/// among the first ten, or past the end.
#[tactic(auto, unfolding(crate::specs::UlebLengths::uleb_len))]
pub fn uleb_len(contents: &[u8], offset: u64) -> Option<u64>
    ensures { result ≡ spec.uleb_len contents.now offset }
{
    match last_byte(part_of(contents, offset, PLACE_MAX)) {
        Some(last) => Some(last as u64 + 1),
        None => None,
    }
}

/// Which of some bytes is the first of which bit 7 is clear.
fn last_byte(bytes: &[u8]) -> Option<usize>
    ensures { result ≡ position spec.is_last bytes.now }
{
    bytes.iter().position(|byte| *byte < 128)
}
