//! Where a section of a number stands, also past the last one, and how a line shows it.

ghost use Rattle.std.specs.Prelude.{◌≡◌, ◌<◌, ◌++◌, [], codes, length, slice_index_or, OnOk};
ghost use Rattle.lk_tables.specs.Sites as sites;
ghost use Rattle.lk_tables.specs.TablesView.{files_of};
ghost use Rattle.link_sections.specs.InputSections.{input_of};
ghost use Rattle.link_sections.specs.Views.{binding_in, files_in};
ghost use Rattle.map_file.specs.MapView as spec;

use link_sections::{View, input_in};
use lk_base::{FileNo, SecNo, push_decimal, push_escaped};
use lk_tables::{SectionPlace, Tables};
use std::alloc::AllocError;

/// The file and the index of a section's number; a number past the last counts as an index of the first file.
pub fn place_of(tables: &Tables, section: SecNo) -> SectionPlace
    ensures place { result ≡ sites.place_of (files_of tables.now) section }
    ensures within { 0 < length (files_of tables.now) → result.file < length (files_of tables.now) }
{
    if (section as usize) < tables.section_count() {
        return tables.place_of(section);
    }
    SectionPlace {
        file: 0,
        index: section,
    }
}

/// Adds a section as lines show it, after a space: its file, its index there, its name.
#[tactic(auto, unfolding(crate::specs::MapText::place_text))]
pub fn push_place(text: &mut Vec<u8>, view: &View, place: SectionPlace) -> Result<(), AllocError>
    ensures { OnOk result (text.new.items ≡ text.old.items ++ codes " " ++ spec.place_text view.now place.file place.index) }
{
    text.push(b' ')?;
    push_escaped(text, shown(view, place.file))?;
    text.push(b' ')?;
    push_decimal(text, place.index)?;
    text.push(b' ')?;
    push_escaped(text, name_of(view, place))
}

/// How a file is shown.
fn shown<'t>(view: &View<'t, '_>, file: FileNo) -> &'t [u8]
    ensures { result.now ≡ slice_index_or (spec.names_in view.now) file [] }
{
    match view.names.get(file as usize) {
        Some(name) => name.as_slice(),
        None => b"",
    }
}

/// The name of a section.
fn name_of<'a>(view: &View<'_, 'a>, place: SectionPlace) -> &'a [u8]
    ensures { result.now ≡ (input_of (files_in view.now) (binding_in view.now) place.file place.index).name }
{
    if (place.file as usize) < view.tables.file_count() {
        return input_in(view.tables, view.binding, place.file, place.index).name;
    }
    view.tables.prove_few();
    let number = view.tables.section_count() + place.index as usize;
    if view.binding.room(place.file as usize, number).is_some() {
        return b"COMMON";
    }
    b""
}
