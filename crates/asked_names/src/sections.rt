//! The section in which a name stands.

ghost use Rattle.std.specs.Prelude.{◌≡◌, ℕ, ◌<◌, ◌++◌, All, false, length, IfOk, OnOk, IfSome, None, option_to_list};
ghost use Rattle.lk_tables.specs.BoundNames.{IsBindingOf};
ghost use Rattle.lk_tables.specs.BindingView.{binding_view};
ghost use Rattle.lk_tables.specs.Files.{section_total};
ghost use Rattle.lk_tables.specs.FileView.{file_view};
ghost use Rattle.lk_tables.specs.TablesView.{files_of};
ghost use Rattle.asked_names.specs.AskedNames as spec;

use lk_base::{FileNo, SecNo, SymNo};
use lk_tables::{Binding, Bound, File, Tables, is_visible, text_of};
use std::alloc::{AllocError, Global};

/// The numbers of the sections in which names stand, in order of the names: of each name that of the section of the symbol to which it is bound, and
/// nothing of a name that is bound to none, to a number or to a symbol of the linker's own. Where two names stand in one section it is listed
/// twice. Each name is looked for by itself, up to the first symbol that has it. The only error is out of memory.
pub fn sections_of_names(
    alloc: Global,
    tables: &Tables,
    binding: &Binding,
    names: &[Vec<u8>],
) -> Result<Vec<SecNo>, AllocError>
    requires { IsBindingOf (files_of tables.now) (binding_view binding.now) }
    ensures sections { IfOk result (λ list. list.items ≡ spec.named_sections (files_of tables.now) (binding_view binding.now) (spec.lists_of names.now)) }
    ensures within { IfOk result (λ list. All (λ r. r < section_total (files_of tables.now)) list.items) }
{
    tables.prove_few();
    let mut list = Vec::new(alloc);
    for name in names {
        push_section(&mut list, section_of(tables, binding, name.as_slice()))?;
    }
    Ok(list)
}

/// Adds a section, if there is one.
fn push_section(list: &mut Vec<SecNo>, section: Option<SecNo>) -> Result<(), AllocError>
    ensures { OnOk result (list.new.items ≡ list.old.items ++ option_to_list section) }
{
    if let Some(section) = section {
        list.push(section)?;
    }
    Ok(())
}

/// The section in which a name stands, if it stands in one.
fn section_of(tables: &Tables, binding: &Binding, name: &[u8]) -> Option<SecNo>
    requires { IsBindingOf (files_of tables.now) (binding_view binding.now) }
    ensures { option_to_list result ≡ spec.section_named (files_of tables.now) (binding_view binding.now) name.now }
{
    tables.prove_few();
    for file in 0..tables.file_count() {
        if let Some(symbol) = symbol_named(tables.file(file as FileNo), name) {
            return section_in(binding.bound(tables, file as FileNo, symbol as SymNo));
        }
    }
    None
}

/// The section of what a name is bound to.
fn section_in(bound: Bound) -> Option<SecNo>
    ensures { option_to_list result ≡ spec.section_bound bound }
{
    match bound {
        Bound::InSection { section, .. } => Some(section),
        Bound::Number(_) => None,
        Bound::Linker(_) => None,
        Bound::Nobody => None,
    }
}

/// The first symbol of a name, of a file that takes part, that other files see.
fn symbol_named(file: &File, name: &[u8]) -> Option<usize>
    ensures some { IfSome result (λ i. spec.HasName (file_view file.now) i name.now) }
    ensures none { result ≡ None → (i : ℕ) → i < length (file_view file.now).head.symbols → spec.has_name (file_view file.now) i name.now ≡ false }
{
    if !file.is_live() {
        return None;
    }
    for i in 0..file.symbols().len() {
        if has_name(file, i, name) {
            return Some(i);
        }
    }
    None
}

/// Whether other files see a symbol, and it has a name.
fn has_name(file: &File, i: usize, name: &[u8]) -> bool
    requires { i < length (file_view file.now).head.symbols }
    ensures { result ≡ spec.is_named_so (file_view file.now) i name.now }
{
    let symbol = file.symbol(i);
    is_visible(&symbol) && text_of(file.bytes(), &symbol.name) == name
}
