//! The sections that may be kept, by those of their names that are identifiers of C.

ghost use Rattle.std.specs.Prelude.{◌≡◌, ◌<◌, ◌&&◌, not, true, length, if◌then◌else◌, Some, None, IfOk, OnOk};
ghost use Rattle.std.specs.Option.{option_or};
ghost use Rattle.std.specs.Str.{bytes_eq};
ghost use Rattle.indexmap.specs.IndexMap.{get};
ghost use Rattle.lk_tables.specs.BindingView.{binding_view};
ghost use Rattle.lk_tables.specs.Files.{section_total, writes};
ghost use Rattle.lk_tables.specs.FileView.{file_view};
ghost use Rattle.lk_tables.specs.InputSections.{section_input};
ghost use Rattle.lk_tables.specs.LinkerSymbols as own;
ghost use Rattle.lk_tables.specs.TablesView.{files_of};
ghost use Rattle.sym_resolve.specs.NamedSections as spec;

use indexmap::IndexMap;
use lk_base::{FileNo, SecNo};
use lk_tables::{Binding, File, Tables, is_c_identifier, text_of};
use std::alloc::{AllocError, Global};

/// Section numbers by name.
pub type Sections<'a> = IndexMap<&'a [u8], u32>;

/// By those names that are identifiers of C, the number of the first section of each name that may be kept; nothing, in no memory, if
/// it is not asked for.
pub fn sections_if<'a>(
    alloc: Global,
    tables: &Tables<'a>,
    binding: &Binding,
    asked: bool,
) -> Result<Sections<'a>, AllocError>
    ensures { IfOk result (λ sections. asked ≡ true → spec.IsIndex (files_of tables.now) (binding_view binding.now) (get spec.eq_names sections)) }
{
    if !asked {
        return Ok(IndexMap::new(alloc));
    }
    sections_of(alloc, tables, binding)
}

// By each name that is an identifier of C the first section of it that may be kept.
#[tactic(auto, unfolding(lk_tables::specs::LinkerSymbols::first_named))]
fn sections_of<'a>(
    alloc: Global,
    tables: &Tables<'a>,
    binding: &Binding,
) -> Result<Sections<'a>, AllocError>
    ensures { IfOk result (λ sections. spec.IsIndex (files_of tables.now) (binding_view binding.now) (get spec.eq_names sections)) }
{
    tables.prove_few();
    let mut sections = IndexMap::new(alloc);
    for section in 0..tables.section_count() as u32 {
        note_section(&mut sections, tables, binding, section)?;
    }
    Ok(sections)
}

// Notes a section under its name.
fn note_section<'a>(
    sections: &mut Sections<'a>,
    tables: &Tables<'a>,
    binding: &Binding,
    section: SecNo,
) -> Result<(), AllocError>
    requires section { section < section_total (files_of tables.now) }
    ensures { OnOk result ((q : _) → own.is_c_identifier q.now ≡ true → get spec.eq_names sections.new q ≡ option_or (get spec.eq_names sections.old q) (spec.named_if (files_of tables.now) (binding_view binding.now) q.now section)) }
{
    let place = tables.place_of(section);
    let Some(name) = name_of(tables, binding, place.file, place.index) else {
        return Ok(());
    };
    note(sections, name, section)
}

// Notes a section under a name, if none stands there.
fn note<'a>(sections: &mut Sections<'a>, name: &'a [u8], section: SecNo) -> Result<(), AllocError>
    ensures { OnOk result ((q : _) → get spec.eq_names sections.new q ≡ option_or (get spec.eq_names sections.old q) (if bytes_eq name.now q.now then Some section else None)) }
{
    if sections.get(&name).is_some() {
        return Ok(());
    }
    sections.insert(name, section)?;
    Ok(())
}

// The name of a section of a file, if the section may be kept and the name is an identifier of C.
#[tactic(auto, unfolding(lk_tables::specs::InputSections::input_of, lk_tables::specs::InputSections::may_stay, lk_tables::specs::LinkerSymbols::is_c_identifier))]
fn name_of<'a>(tables: &Tables<'a>, binding: &Binding, file: FileNo, index: u32) -> Option<&'a [u8]>
    requires { file < length (files_of tables.now) }
    ensures { own.text_if result ≡ spec.name_if (files_of tables.now) (binding_view binding.now) file index }
{
    let entry = tables.file(file);
    let number = tables.section_no(file as usize, index as usize);
    if (index as usize) < entry.sections().len() {
        return own_name(entry, index, binding.is_discarded(number));
    }
    match binding.room(file as usize, number) {
        Some(_room) => Some(b"COMMON"),
        None => None,
    }
}

// The name of a section of a file's own, if the section may be kept and the name is an identifier of C.
fn own_name<'a>(entry: &File<'a>, index: u32, discarded: bool) -> Option<&'a [u8]>
    ensures { own.text_if result ≡ (if (writes (file_view entry.now) index && not discarded) && own.is_c_identifier (section_input (file_view entry.now) index).name then Some (section_input (file_view entry.now) index).name else None) }
{
    if !entry.writes(index as usize) || discarded {
        return None;
    }
    let name = text_of(entry.bytes(), &entry.section(index as usize).name);
    if is_c_identifier(name) {
        Some(name)
    } else {
        None
    }
}
