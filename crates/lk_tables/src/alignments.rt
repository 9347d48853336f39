//! Alignments (RISC-V ELF psABI, R_RISCV_ALIGN).

ghost use Rattle.std.specs.Prelude.{◌≡◌};
ghost use Rattle.lk_tables.specs.Relocations as spec;

use crate::objects::Reloc;
use lk_base::relocations::{Calculation, kind_of};

/// Whether a relocation is an alignment: its place is nops, as many bytes as its addend.
#[tactic(auto, unfolding(crate::specs::Relocations::is_alignment))]
pub fn is_alignment(reloc: &Reloc) -> bool
    ensures { result ≡ spec.is_alignment reloc.now }
{
    matches!(kind_of(reloc.kind).calculation, Calculation::Padding)
}

/// The bytes of a relocation's place: of an alignment its nops, else those that its kind changes.
#[tactic(auto, unfolding(crate::specs::Relocations::place_width))]
pub fn place_width(reloc: &Reloc) -> u64
    ensures { result ≡ spec.place_width reloc.now }
{
    if is_alignment(reloc) {
        return reloc.addend.unsigned_abs();
    }
    kind_of(reloc.kind).width
}
