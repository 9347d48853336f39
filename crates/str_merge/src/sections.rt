//! Which sections are merged if they are kept (System V gABI, "Section Attribute Flags": SHF_MERGE and SHF_STRINGS).

ghost use Rattle.std.specs.Prelude.{◌≡◌, drop, flat_map, true};
ghost use Rattle.lk_tables.specs.FileView.{file_view};
ghost use Rattle.link_sections.specs.MergeSections as spec;

use lk_base::NO_FILE;
use lk_base::abi::{SHF_MERGE, SHF_STRINGS, SHF_WRITE, SHT_PROGBITS};
use lk_tables::{File, Section, Span, text_of};

/// Whether a section is merged if it is kept: it is of type PROGBITS, has the flag MERGE and not WRITE, has no relocations, and its bytes
/// are whole elements, or strings that end.
pub fn is_mergeable(file: &File, index: usize) -> bool
    ensures value { result ≡ spec.is_mergeable (file_view file.now) index }
    // Its pieces, one after the other, are its bytes.
    ensures law { result ≡ true → flat_map (λ piece. piece) (spec.pieces_in (file_view file.now) index) ≡ spec.contents (file_view file.now) index }
{
    passes(file, index)
}

/// Whether a section is merged if it is kept, test by test.
#[tactic(auto, unfolding(link_sections::specs::MergeSections::is_mergeable))]
fn passes(file: &File, index: usize) -> bool
    ensures { result ≡ spec.is_mergeable (file_view file.now) index }
{
    let section = file.section(index);
    section.flags & SHF_MERGE != 0
        && section.sh_type == SHT_PROGBITS
        && section.flags & SHF_WRITE == 0
        && file.relocs(index).len() == 0
        && is_whole(section.entsize, contents(file, index))
        && (section.flags & SHF_STRINGS == 0 || is_ended(section.entsize, contents(file, index)))
}

/// The bytes of a section in its file.
#[tactic(auto, unfolding(link_sections::specs::MergeSections::contents, lk_tables::specs::Names::text_of))]
pub fn contents<'a>(file: &File<'a>, index: usize) -> &'a [u8]
    ensures { result.now ≡ spec.contents (file_view file.now) index }
{
    text_of(file.bytes(), &bytes_of(&file.section(index)))
}

/// Where the bytes of a section stand in its file.
fn bytes_of(section: &Section) -> Span
    ensures from { result.from ≡ section.now.offset }
    ensures len { result.len ≡ section.now.size }
{
    Span {
        file: NO_FILE,
        from: section.offset,
        len: section.size,
    }
}

/// Whether bytes are some whole elements of a size.
#[tactic(auto, unfolding(link_sections::specs::MergeSections::is_whole))]
fn is_whole(size: u64, bytes: &[u8]) -> bool
    ensures { result ≡ spec.is_whole size bytes.now }
{
    bytes.len() != 0 && size != 0 && bytes.len() as u64 % size == 0
}

/// Whether bytes are characters of 1, 2 or 4 bytes, of which the last is zero.
#[tactic(auto, unfolding(link_sections::specs::MergeSections::is_ended))]
fn is_ended(size: u64, bytes: &[u8]) -> bool
    ensures { result ≡ spec.is_ended size bytes.now }
{
    (size == 1 || size == 2 || size == 4)
        && is_zero_char(tail(bytes, bytes.len().saturating_sub(size as usize)))
}

/// The bytes from one on.
fn tail(bytes: &[u8], from: usize) -> &[u8]
    ensures { result.now ≡ drop from bytes.now }
{
    &bytes[from.min(bytes.len())..]
}

/// Whether all bytes of a character are zero.
pub fn is_zero_char(char: &[u8]) -> bool
    ensures { result ≡ spec.is_zero_char char.now }
{
    char.iter().all(|byte| *byte == 0)
}
