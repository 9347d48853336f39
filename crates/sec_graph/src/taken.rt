//! The sections whose address is taken.

ghost use Rattle.std.specs.Prelude.{◌≡◌, ◌<◌, ◌∷◌, [], flat_map, length, IfOk, option_to_list};
ghost use Rattle.lk_tables.specs.BindingView.{binding_view};
ghost use Rattle.lk_tables.specs.TablesView.{files_of};
ghost use Rattle.lk_tables.specs.Walks.{over_file, over_section};
ghost use Rattle.lk_tables.specs.Reach.{with_marked};
ghost use Rattle.sec_graph.specs.Taken as spec;

use link_sections::is_kept;
use lk_base::abi::{
    R_RISCV_BRANCH, R_RISCV_CALL, R_RISCV_CALL_PLT, R_RISCV_JAL, R_RISCV_PCREL_LO12_I,
    R_RISCV_PCREL_LO12_S, R_RISCV_RVC_BRANCH, R_RISCV_RVC_JUMP,
};
use lk_base::relocations::names_a_symbol;
use lk_base::{FileNo, SecNo};
use lk_tables::{Binding, Reloc, Spot, Tables, spot_in};
use std::alloc::{AllocError, Global};

/// By section number, whether the address of a section is taken: a relocation of a kept section, of a kind other than those of branches, jumps and
/// calls and of the lower parts of PC-relative addresses, refers to it. `kept` goes by section number; a number past its end is not kept. The only
/// error is out of memory.
#[tactic(auto, unfolding(crate::specs::Taken::address_taken))]
pub fn address_taken(
    alloc: Global,
    tables: &Tables,
    binding: &Binding,
    kept: &[bool],
) -> Result<Vec<bool>, AllocError>
    ensures { IfOk result (λ taken. taken.items ≡ spec.address_taken (files_of tables.now) (binding_view binding.now) kept.now) }
{
    tables.prove_few();
    let mut taken = vec![in alloc; false; tables.section_count()]?;
    for file in 0..tables.file_count() {
        take_in_file(&mut taken, tables, binding, kept, file as FileNo);
    }
    Ok(taken)
}

/// Marks what the relocations of a file take.
#[tactic(auto, unfolding(lk_tables::specs::Walks::over_file))]
fn take_in_file(
    taken: &mut Vec<bool>,
    tables: &Tables,
    binding: &Binding,
    kept: &[bool],
    file: FileNo,
)
    requires { file < length (files_of tables.now) }
    ensures { taken.new.items ≡ with_marked taken.old.items (over_file (files_of tables.now) (over_section (files_of tables.now) (spec.taken_at (files_of tables.now) (binding_view binding.now) kept.now)) file) }
{
    tables.prove_few();
    if !tables.file(file).is_live() {
        return;
    }
    for index in 0..tables.file(file).sections().len() {
        take_in_section(taken, tables, binding, kept, file, index as u32);
    }
}

/// Marks what the relocations of a section take, if that is kept.
fn take_in_section(
    taken: &mut Vec<bool>,
    tables: &Tables,
    binding: &Binding,
    kept: &[bool],
    file: FileNo,
    index: u32,
)
    requires { file < length (files_of tables.now) }
    ensures { taken.new.items ≡ with_marked taken.old.items (over_section (files_of tables.now) (spec.taken_at (files_of tables.now) (binding_view binding.now) kept.now) file index) }
{
    if !is_kept(kept, tables.section_no(file as usize, index as usize)) {
        return;
    }
    take_by_relocs(taken, tables, binding, file, tables.relocs(file, index));
}

/// Marks what relocations take.
fn take_by_relocs(
    taken: &mut Vec<bool>,
    tables: &Tables,
    binding: &Binding,
    file: FileNo,
    relocs: &[Reloc],
)
    requires { file < length (files_of tables.now) }
    ensures { taken.new.items ≡ with_marked taken.old.items (flat_map (spec.taken_by (files_of tables.now) (binding_view binding.now) file) relocs.now) }
{
    for reloc in relocs {
        mark_if(taken, taken_by(tables, binding, file, reloc));
    }
}

/// The section whose address a relocation takes, if it takes one.
#[tactic(auto, unfolding(crate::specs::Taken::taken_by))]
fn taken_by(tables: &Tables, binding: &Binding, file: FileNo, reloc: &Reloc) -> Option<SecNo>
    requires { file < length (files_of tables.now) }
    ensures { option_to_list result ≡ spec.taken_by (files_of tables.now) (binding_view binding.now) file reloc.now }
{
    if !takes_address(reloc.kind) {
        return None;
    }
    match spot_in(tables, binding, file, reloc) {
        Spot::Section { section, .. } => Some(section),
        _ => None,
    }
}

/// Whether relocations of a kind take the address of the section to which they refer.
fn takes_address(kind: u32) -> bool
    ensures { result ≡ spec.takes_address kind }
{
    names_a_symbol(kind) && !only_goes(kind)
}

/// Whether code only goes to the symbols of relocations of a kind, or these are labels in the section itself.
fn only_goes(kind: u32) -> bool
    ensures { result ≡ spec.only_goes kind }
{
    matches!(
        kind,
        R_RISCV_BRANCH
            | R_RISCV_JAL
            | R_RISCV_CALL
            | R_RISCV_CALL_PLT
            | R_RISCV_PCREL_LO12_I
            | R_RISCV_PCREL_LO12_S
            | R_RISCV_RVC_BRANCH
            | R_RISCV_RVC_JUMP
    )
}

/// Marks sections, by their numbers; there is nothing to mark past the end.
pub fn mark_sections(marks: &mut Vec<bool>, sections: &[SecNo])
    ensures { marks.new.items ≡ with_marked marks.old.items sections.now }
{
    for n in 0..sections.len() {
        mark(marks, sections[n]);
    }
}

/// Marks a section, if there is one.
fn mark_if(taken: &mut Vec<bool>, section: Option<SecNo>)
    ensures { taken.new.items ≡ with_marked taken.old.items (option_to_list section) }
{
    if let Some(section) = section {
        mark(taken, section);
    }
}

/// Marks a section; there is nothing to mark past the end.
fn mark(taken: &mut Vec<bool>, section: SecNo)
    ensures { taken.new.items ≡ with_marked taken.old.items (section ∷ []) }
{
    if (section as usize) < taken.len() {
        taken[section as usize] = true;
    }
}
