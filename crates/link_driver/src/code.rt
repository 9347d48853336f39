//! What code does at the places of relocations.

ghost use Rattle.std.specs.Prelude.{◌≡◌, []};
ghost use Rattle.link_sections.specs.Views.{by_view, files_in, laid_in, leaders_in};
ghost use Rattle.reloc_apply.specs.Relocated.{relocation_defects};
ghost use Rattle.link_driver.specs.Code as spec;

use link_sections::View;

/// That code does at the places of relocations what these ask for, where each of them can be done: from a branch, a jump and a call the processor
/// goes to S + A, and an upper and a lower part of one value add up to it, which is S + A, its distance, its offset in thread-local storage or the
/// distance of its entry of the linker's table; a shortened call is `jal` with the register of its second instruction, or `c.j`, and what an
/// alignment keeps are nops (RISC-V ELF psABI, "Relocations" and "Linker Relaxation"). Nothing is done while a program runs: all that is said
/// here is in the clause.
pub fn prove_code_stands(view: &View)
    requires cuts { spec.HaveOwnCuts (files_in view.now) (leaders_in view.now) (laid_in view.now) }
    requires done { by_view relocation_defects view.now ≡ [] }
    ensures { by_view spec.CodeStands view.now }
{}
