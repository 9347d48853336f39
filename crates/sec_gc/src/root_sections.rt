//! The sections that are kept whatever refers to them.

ghost use Rattle.std.specs.Prelude.{◌≡◌, ◌<◌, ◌++◌, All, length, IfOk, OnOk};
ghost use Rattle.lk_tables.specs.BoundNames.{IsBindingOf};
ghost use Rattle.lk_tables.specs.BindingView.{binding_view};
ghost use Rattle.lk_tables.specs.Files.{section_total};
ghost use Rattle.lk_tables.specs.Targets.{entry_bound};
ghost use Rattle.lk_tables.specs.TablesView.{files_of};
ghost use Rattle.link_sections.specs.InputViews.{input_view};
ghost use Rattle.asked_names.specs.AskedNames.{lists_of, section_bound};
ghost use Rattle.sec_gc.specs.Roots as spec;

use crate::listing::push_if;
use asked_names::sections_of_names;
use link_sections::{InputSection, input_in, may_stay};
use lk_base::abi::{SHF_GNU_RETAIN, SHT_FINI_ARRAY, SHT_INIT_ARRAY, SHT_NOTE, SHT_PREINIT_ARRAY};
use lk_base::{FileNo, SecNo};
use lk_tables::{Binding, Bound, Tables, is_init_or_fini, section_count};
use std::alloc::{AllocError, Global};

/// The numbers of the sections that garbage collection keeps whatever refers to them: first the entry's, if it stands in a section; then those in
/// which names stand that the command asks for, in order of `undefined`; then, in order of number, those that may stay and are arrays of
/// functions or notes by their type, are named `.init` or `.fini`, or are flagged GNU_RETAIN. The entry's, and a name's, may be the room of a
/// COMMON symbol, and may stand in the list once more. The only error is out of memory.
#[tactic(auto, unfolding(crate::specs::Roots::roots))]
pub fn roots(
    alloc: Global,
    tables: &Tables,
    binding: &Binding,
    undefined: &[Vec<u8>],
) -> Result<Vec<SecNo>, AllocError>
    requires bound { IsBindingOf (files_of tables.now) (binding_view binding.now) }
    ensures roots { IfOk result (λ list. list.items ≡ spec.roots (files_of tables.now) (binding_view binding.now) (lists_of undefined.now)) }
    ensures within { IfOk result (λ list. All (λ r. r < section_total (files_of tables.now)) list.items) }
{
    tables.prove_few();
    let mut roots = entry_section(alloc, binding.entry_bound(tables))?;
    let asked = sections_of_names(alloc, tables, binding, undefined)?;
    roots.extend_from_slice(asked.as_slice())?;
    for file in 0..tables.file_count() as u32 {
        push_roots(&mut roots, tables, binding, file)?;
    }
    Ok(roots)
}

/// The section in which the entry stands, if it stands in one.
fn entry_section(alloc: Global, bound: Bound) -> Result<Vec<SecNo>, AllocError>
    ensures { IfOk result (λ list. list.items ≡ section_bound bound) }
{
    let mut list = Vec::new(alloc);
    if let Bound::InSection { section, .. } = bound {
        list.push(section)?;
    }
    Ok(list)
}

/// Adds the roots of a file.
fn push_roots(
    roots: &mut Vec<SecNo>,
    tables: &Tables,
    binding: &Binding,
    file: FileNo,
) -> Result<(), AllocError>
    requires { file < length (files_of tables.now) }
    ensures { OnOk result (roots.new.items ≡ roots.old.items ++ spec.roots_in (files_of tables.now) (binding_view binding.now) file) }
{
    tables.prove_few();
    for index in 0..section_count(tables.file(file)) {
        let number = tables.section_no(file as usize, index) as u32;
        push_if(roots, is_root(tables, binding, file, index as u32), number)?;
    }
    Ok(())
}

/// Whether the section of an index of a file is a root by its header.
#[tactic(auto, unfolding(crate::specs::Roots::is_root))]
fn is_root(tables: &Tables, binding: &Binding, file: FileNo, index: u32) -> bool
    requires { file < length (files_of tables.now) }
    ensures { result ≡ spec.is_root (files_of tables.now) (binding_view binding.now) file index }
{
    may_stay(tables, binding, file, index) && is_root_input(&input_in(tables, binding, file, index))
}

/// Whether a section has functions to call, is a note, or is retained.
#[tactic(auto, unfolding(crate::specs::Roots::is_root_input))]
fn is_root_input(section: &InputSection) -> bool
    ensures { result ≡ spec.is_root_input (input_view section.now) }
{
    let retained = section.flags & SHF_GNU_RETAIN != 0;
    is_root_type(section.sh_type) || is_init_or_fini(section.name) || retained
}

/// Whether sections of a type hold functions to call, or notes.
fn is_root_type(sh_type: u32) -> bool
    ensures { result ≡ spec.is_root_type sh_type }
{
    sh_type == SHT_INIT_ARRAY
        || sh_type == SHT_FINI_ARRAY
        || sh_type == SHT_PREINIT_ARRAY
        || sh_type == SHT_NOTE
}
