//! The sections that are folded with no other, though their code may be equal.

ghost use Rattle.std.specs.Prelude.{◌≡◌, replicate, false, if◌then◌else◌, IfOk};
ghost use Rattle.lk_tables.specs.BoundNames.{IsBindingOf};
ghost use Rattle.lk_tables.specs.BindingView.{binding_view};
ghost use Rattle.lk_tables.specs.Files.{section_total};
ghost use Rattle.lk_tables.specs.TablesView.{files_of};
ghost use Rattle.sec_graph.specs.Taken.{address_taken};
ghost use Rattle.link_command.specs.Command.{lists_of};
ghost use Rattle.link_passes.specs.Passes.{barred_of};

use asked_names::sections_of_names;
use link_command::IcfMode;
use lk_tables::{Binding, Tables};
use sec_graph::{address_taken, mark_sections};
use std::alloc::{AllocError, Global};

/// By section number, which sections are folded with no other: those in which a name of `unique` stands, and where folding is to be safe those
/// whose address is taken. `kept` goes by section number. The only error is out of memory.
pub fn find_barred(
    alloc: Global,
    tables: &Tables,
    binding: &Binding,
    kept: &[bool],
    icf: IcfMode,
    unique: &[Vec<u8>],
) -> Result<Vec<bool>, AllocError>
    requires { IsBindingOf (files_of tables.now) (binding_view binding.now) }
    ensures { IfOk result (λ barred. barred.items ≡ barred_of icf (lists_of unique.now) (files_of tables.now) (binding_view binding.now) kept.now) }
{
    let mut barred = taken_if(alloc, tables, binding, kept, icf.is_safe())?;
    let named = sections_of_names(alloc, tables, binding, unique)?;
    mark_sections(&mut barred, named.as_slice());
    Ok(barred)
}

/// By section number, whether the address of a section is taken, if that is asked for.
fn taken_if(
    alloc: Global,
    tables: &Tables,
    binding: &Binding,
    kept: &[bool],
    wanted: bool,
) -> Result<Vec<bool>, AllocError>
    ensures { IfOk result (λ taken. taken.items ≡ (if wanted then address_taken (files_of tables.now) (binding_view binding.now) kept.now else replicate (section_total (files_of tables.now)) false)) }
{
    if wanted {
        return address_taken(alloc, tables, binding, kept);
    }
    let none = vec![in alloc; false; tables.section_count()]?;
    Ok(none)
}
