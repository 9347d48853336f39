//! How many pieces a link has at most.

ghost use Rattle.std.specs.Prelude.{◌≡◌, ◌<◌, ◌≤◌, ◌-◌, ◌^◌, ◌&&◌, [], min, length, map, sum, if◌then◌else◌};
ghost use Rattle.std.specs.List.{range_with_len};
ghost use Rattle.lk_tables.specs.FileView.{file_view};
ghost use Rattle.lk_tables.specs.Files.{file_at, section_at, section_count, writes};
ghost use Rattle.lk_tables.specs.TablesView.{files_of};
ghost use Rattle.link_sections.specs.MergeSections as spec;
ghost use Rattle.link_sections.specs.Merging.{piece_count, pieces_at};
ghost use Rattle.str_merge.specs.Counting.{added};

use crate::sections::{is_mergeable, is_zero_char};
use lk_base::abi::SHF_STRINGS;
use lk_base::{FileNo, NO_FILE};
use lk_tables::{File, Section, Span, Tables, section_count, text_of};
use memchr::memchr_iter;

/// How many pieces the written sections of the files that take part have that are merged if they are kept; 2^64 - 1 if there are more.
/// Takes no memory.
pub fn piece_count(tables: &Tables) -> u64
    ensures { result ≡ min (piece_count (files_of tables.now)) (2 ^ 64 - 1) }
{
    let mut total = 0;
    for file in 0..tables.file_count() as u32 {
        total = count_file(tables, file, total);
    }
    total
}

/// How many pieces the written sections of one file have that are merged if they are kept, and `before` more.
fn count_file(tables: &Tables, file: FileNo, before: u64) -> u64
    requires file { file < length (files_of tables.now) }
    ensures { result ≡ added before (sum (map (pieces_at (files_of tables.now) file) (range_with_len 0 (section_count (file_at (files_of tables.now) file))))) }
{
    let entry = tables.file(file);
    let mut total = before;
    for index in 0..section_count(entry) {
        total = total.saturating_add(count_section(entry, index));
    }
    total
}

/// No less than [`piece_count`], and found without a look at the pieces: the bytes of these sections; 2^64 - 1 if there are more.
/// Takes no memory.
pub fn piece_bound(tables: &Tables) -> u64
    ensures { min (piece_count (files_of tables.now)) (2 ^ 64 - 1) ≤ result }
{
    let mut total = 0;
    for file in 0..tables.file_count() as u32 {
        total = bound_file(tables, file, total);
    }
    total
}

/// The bytes of the written sections of one file that are merged if they are kept, and `before` more.
fn bound_file(tables: &Tables, file: FileNo, before: u64) -> u64
    requires file { file < length (files_of tables.now) }
    ensures { added before (sum (map (pieces_at (files_of tables.now) file) (range_with_len 0 (section_count (file_at (files_of tables.now) file))))) ≤ result }
{
    let entry = tables.file(file);
    let mut total = before;
    for index in 0..section_count(entry) {
        total = total.saturating_add(bound_section(entry, index));
    }
    total
}

/// The bytes of a section, if it is written and is merged if it is kept.
fn bound_section(file: &File, index: usize) -> u64
    ensures { result ≡ (if writes (file_view file.now) index && spec.is_mergeable (file_view file.now) index then (section_at (file_view file.now) index).size else 0) }
{
    if file.writes(index) && is_mergeable(file, index) {
        return file.section(index).size;
    }
    0
}

/// How many pieces a section has, if it is written and is merged if it is kept.
fn count_section(file: &File, index: usize) -> u64
    ensures { result ≡ (if writes (file_view file.now) index && spec.is_mergeable (file_view file.now) index then length (spec.pieces_in (file_view file.now) index) else 0) }
{
    if file.writes(index) && is_mergeable(file, index) {
        return count_pieces(file.bytes(), &file.section(index)) as u64;
    }
    0
}

/// How many pieces a section of a file of these bytes has.
#[tactic(auto, unfolding(link_sections::specs::MergeSections::section_pieces, lk_tables::specs::Names::text_of))]
fn count_pieces(bytes: &[u8], section: &Section) -> usize
    ensures { result ≡ length (spec.section_pieces bytes.now section.now) }
{
    let whole = Span {
        file: NO_FILE,
        from: section.offset,
        len: section.size,
    };
    if section.flags & SHF_STRINGS != 0 {
        return string_count(text_of(bytes, &whole), section.entsize as usize);
    }
    element_count(text_of(bytes, &whole), section.entsize as usize)
}

/// How many elements of a size bytes are.
#[tactic(auto, unfolding(link_sections::specs::MergeSections::elements))]
fn element_count(bytes: &[u8], size: usize) -> usize
    ensures { result ≡ length (spec.elements size bytes.now) }
{
    if size == 0 {
        return 0;
    }
    bytes.len() / size
}

/// How many strings of characters of a size bytes are.
fn string_count(bytes: &[u8], size: usize) -> usize
    ensures { result ≡ length (spec.strings_from [] (spec.elements size bytes.now)) }
{
    if size == 0 {
        return 0;
    }
    if size == 1 {
        return memchr_iter(0, bytes).count();
    }
    let mut count = 0;
    for i in 0..bytes.len() / size {
        count += one_if(is_zero_char(&bytes[i * size..i * size + size]));
    }
    count
}

/// 1 for what passes a test.
fn one_if(passes: bool) -> usize
    ensures { result ≡ (if passes then 1 else 0) }
{
    if passes {
        return 1;
    }
    0
}
