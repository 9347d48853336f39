//! The sections that could be written and are not in the executable.

ghost use Rattle.std.specs.Prelude.{◌≡◌, ◌<◌, ◌++◌, flat_map, length, OnOk};
ghost use Rattle.std.specs.List.{range_with_len};
ghost use Rattle.lk_tables.specs.Files.{file_at, section_count, section_no, section_total};
ghost use Rattle.lk_tables.specs.Sites.{place_of};
ghost use Rattle.link_sections.specs.Views.{binding_in, files_in};
ghost use Rattle.map_file.specs.Left as spec;
ghost use Rattle.map_file.specs.MapText as lines;

use crate::lines::push_section;
use link_sections::{View, is_kept, may_stay};
use lk_base::{FileNo, SecNo};
use lk_tables::{SectionPlace, section_count};
use std::alloc::AllocError;

/// How a section is left out.
#[derive(Clone, Copy, Debug, PartialEq, Eq)]
pub enum Left {
    /// Nothing that is kept leads to it.
    Dropped,
    /// It was discarded with its group.
    Discarded,
}

/// Adds the lines of all sections that are left out in one way.
pub fn push_left(text: &mut Vec<u8>, view: &View, left: Left) -> Result<(), AllocError>
    ensures { OnOk result (text.new.items ≡ text.old.items ++ flat_map (spec.left_line view.now left) (range_with_len 0 (section_total (files_in view.now)))) }
{
    view.tables.prove_few();
    for file in 0..view.tables.file_count() {
        push_left_in(text, view, left, file as u32)?;
    }
    Ok(())
}

/// Adds those of a file's sections.
fn push_left_in(text: &mut Vec<u8>, view: &View, left: Left, file: FileNo) -> Result<(), AllocError>
    requires { file < length (files_in view.now) }
    ensures { OnOk result (text.new.items ≡ text.old.items ++ flat_map (spec.left_line view.now left) (range_with_len (section_no (files_in view.now) file 0) (section_count (file_at (files_in view.now) file)))) }
{
    view.tables.prove_few();
    let first = view.tables.section_no(file as usize, 0);
    let end = first + section_count(view.tables.file(file));
    for section in first..end {
        let place = SectionPlace {
            file,
            index: (section - first) as u32,
        };
        push_if_left(text, view, left, place, section as u32)?;
    }
    Ok(())
}

/// Adds that of a section, of which the place is given, if it is left out so.
fn push_if_left(
    text: &mut Vec<u8>,
    view: &View,
    left: Left,
    place: SectionPlace,
    section: SecNo,
) -> Result<(), AllocError>
    requires file { place.file < length (files_in view.now) }
    requires place { place ≡ place_of (files_in view.now) section }
    ensures { OnOk result (text.new.items ≡ text.old.items ++ spec.left_line view.now left section) }
{
    if !is_left(view, left, place, section) {
        return Ok(());
    }
    push_section(text, view, word_of(left), place)?;
    Ok(())
}

/// The word of such lines.
fn word_of(left: Left) -> &'static [u8]
    ensures { result.now ≡ spec.word_of left }
{
    match left {
        Left::Dropped => b"dropped",
        Left::Discarded => b"discarded",
    }
}

/// Whether a section is left out so.
fn is_left(view: &View, left: Left, place: SectionPlace, section: SecNo) -> bool
    requires file { place.file < length (files_in view.now) }
    requires place { place ≡ place_of (files_in view.now) section }
    ensures { result ≡ spec.is_left view.now left section }
{
    match left {
        Left::Dropped => is_dropped(view, place, section),
        Left::Discarded => is_discarded(view, place, section),
    }
}

/// Whether a section could be kept, and is not.
fn is_dropped(view: &View, place: SectionPlace, section: SecNo) -> bool
    requires file { place.file < length (files_in view.now) }
    requires place { place ≡ place_of (files_in view.now) section }
    ensures { result ≡ lines.is_dropped (files_in view.now) (binding_in view.now) view.now.kept.now section }
{
    if is_kept(view.kept, section as usize) {
        return false;
    }
    may_stay(view.tables, view.binding, place.file, place.index)
}

/// Whether a section would be written, but was discarded with its group.
fn is_discarded(view: &View, place: SectionPlace, section: SecNo) -> bool
    requires file { place.file < length (files_in view.now) }
    requires place { place ≡ place_of (files_in view.now) section }
    ensures { result ≡ lines.is_discarded (files_in view.now) (binding_in view.now) section }
{
    let file = view.tables.file(place.file);
    (place.index as usize) < file.sections().len()
        && (file.writes(place.index as usize) && view.binding.is_discarded(section as usize))
}
