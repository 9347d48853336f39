//! What may go into an executable.

ghost use Rattle.std.specs.Prelude.{◌≡◌, ◌<◌, ◌≤◌, ◌++◌, ◌∷◌, [], length, find, is_some, IfOk, OnOk, map};
ghost use Rattle.std.specs.List.{range_with_len};
ghost use Rattle.lk_tables.specs.BindingView.{binding_view};
ghost use Rattle.lk_tables.specs.Files.{file_at, section_count, section_total};
ghost use Rattle.lk_tables.specs.FileView.{file_view};
ghost use Rattle.lk_tables.specs.TablesView.{files_of};
ghost use Rattle.lk_tables.proofs.ByNumber.{section_row};
ghost use Rattle.link_sections.specs.InputSections as spec;
ghost use Rattle.link_sections.specs.InputViews.{input_view};

use lk_base::abi::{SHF_ALLOC, SHF_WRITE, SHT_NOBITS, SHT_NULL};
use lk_base::{FileNo, SecNo};
use lk_tables::{Binding, BoundCommon, File, Tables, section_count, text_of};
use std::alloc::{AllocError, Global};

/// A section of a file that takes part in the link, or the room of a COMMON symbol, as its header says it.
#[derive(Clone, Copy, Debug, PartialEq, Eq)]
pub struct InputSection<'a> {
    /// Its own name; that of the room of a COMMON symbol is `COMMON`.
    pub name: &'a [u8],
    /// Its type (`sh_type`).
    pub sh_type: u32,
    /// Its flags (`sh_flags`).
    pub flags: u64,
    /// Its size in bytes.
    pub size: u64,
    /// Its alignment in bytes, at least 1.
    pub align: u64,
}

/// The section of a number, as its header says it. Takes no memory.
pub fn input_section<'a>(tables: &Tables<'a>, binding: &Binding, section: SecNo) -> InputSection<'a>
    requires { section < section_total (files_of tables.now) }
    ensures { input_view result ≡ spec.input_at (files_of tables.now) (binding_view binding.now) section }
{
    let place = tables.place_of(section);
    input_in(tables, binding, place.file, place.index)
}

/// The section of an index of a file, as its header says it; after the file's own sections come its COMMON symbols. Takes no memory.
#[tactic(auto, unfolding(crate::specs::InputSections::input_of))]
pub fn input_in<'a>(
    tables: &Tables<'a>,
    binding: &Binding,
    file: FileNo,
    index: u32,
) -> InputSection<'a>
    requires { file < length (files_of tables.now) }
    ensures { input_view result ≡ spec.input_of (files_of tables.now) (binding_view binding.now) file index }
{
    let entry = tables.file(file);
    if (index as usize) < entry.sections().len() {
        return own_section(entry, index);
    }
    room(common_in(tables, binding, file, index))
}

/// A section of a file's own.
fn own_section<'a>(entry: &File<'a>, index: u32) -> InputSection<'a>
    ensures { input_view result ≡ spec.section_input (file_view entry.now) index }
{
    let section = entry.section(index as usize);
    InputSection {
        name: text_of(entry.bytes(), &section.name),
        sh_type: section.sh_type,
        flags: section.flags,
        size: section.size,
        align: section.align.max(1),
    }
}

/// The room of a COMMON symbol.
fn room(common: Option<BoundCommon>) -> InputSection<'static>
    ensures { input_view result ≡ spec.room_input common }
{
    match common {
        Some(common) => InputSection {
            name: b"COMMON",
            sh_type: SHT_NOBITS,
            flags: SHF_WRITE + SHF_ALLOC,
            size: common.size,
            align: common.align,
        },
        None => InputSection {
            name: b"",
            sh_type: SHT_NULL,
            flags: 0,
            size: 0,
            align: 1,
        },
    }
}

/// The COMMON symbol whose room has an index of a file.
fn common_in(tables: &Tables, binding: &Binding, file: FileNo, index: u32) -> Option<BoundCommon>
    requires { file < length (files_of tables.now) }
    ensures { result ≡ spec.common_in (files_of tables.now) (binding_view binding.now) file index }
{
    binding.room(
        file as usize,
        tables.section_no(file as usize, index as usize),
    )
}

/// Whether the section of an index of a file that takes part may be kept: it is written and was not discarded with its group, or it is
/// the room of a COMMON symbol that is bound. A file that takes no part has no section numbers, so the answer says nothing of its
/// sections. Takes no memory.
#[tactic(auto, unfolding(crate::specs::InputSections::may_stay))]
pub fn may_stay(tables: &Tables, binding: &Binding, file: FileNo, index: u32) -> bool
    requires { file < length (files_of tables.now) }
    ensures { result ≡ spec.may_stay (files_of tables.now) (binding_view binding.now) file index }
{
    let entry = tables.file(file);
    if (index as usize) < entry.sections().len() {
        let number = tables.section_no(file as usize, index as usize);
        return entry.writes(index as usize) && !binding.is_discarded(number);
    }
    common_in(tables, binding, file, index).is_some()
}

/// By section number, what a link keeps that collects nothing: the written sections that were not discarded, and the room of each
/// COMMON symbol that is bound. The only error is out of memory.
pub fn all_kept(alloc: Global, tables: &Tables, binding: &Binding) -> Result<Vec<bool>, AllocError>
    ensures { IfOk result (λ kept. kept.items ≡ spec.all_kept (files_of tables.now) (binding_view binding.now)) }
{
    tables.prove_few();
    let mut kept = Vec::with_capacity(alloc, tables.section_count())?;
    for file in 0..tables.file_count() as u32 {
        push_file(&mut kept, tables, binding, file)?;
    }
    Ok(kept)
}

/// Adds for each section of one file whether it is kept by a link that collects nothing.
fn push_file(
    kept: &mut Vec<bool>,
    tables: &Tables,
    binding: &Binding,
    file: FileNo,
) -> Result<(), AllocError>
    requires { file < length (files_of tables.now) }
    ensures { OnOk result (kept.new.items ≡ kept.old.items ++ section_row (files_of tables.now) (spec.may_stay (files_of tables.now) (binding_view binding.now)) file) }
{
    tables.prove_few();
    for index in 0..section_count(tables.file(file)) {
        kept.push(may_stay(tables, binding, file, index as u32))?;
    }
    Ok(())
}
