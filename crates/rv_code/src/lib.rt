//! Relocation values in RISC-V code and data: which values the field of a relocation holds, and putting a value
//! there (RISC-V ELF psABI, "Relocations"; unprivileged manual, "Immediate Encoding Variants"). The table of
//! the kinds stands in `lk_base`. No call takes memory.
#![tactic(auto)]

mod instructions;
mod parts;
mod places;
mod reaches;
mod uleb;

pub use instructions::{cj, jal, nops};
pub use places::{patch, patch_bits};
pub use reaches::fits;
pub use uleb::{fits_uleb, patch_uleb, patch_uleb_bits};

#[cfg(test)]
mod tests;
