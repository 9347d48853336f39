//! Numbers of 2, 4 and 8 bytes, the lowest byte first (System V gABI, "Data Representation").

ghost use Rattle.std.specs.Prelude.{◌≡◌, ◌++◌, OnOk};
ghost use Rattle.elf_fields.specs.Numbers as spec;

use std::alloc::AllocError;

/// Adds a number of 2 bytes (`Elf64_Half`). The only error is out of memory.
#[tactic(auto, unfolding(crate::specs::Numbers::half))]
pub fn push_half(out: &mut Vec<u8>, n: u16) -> Result<(), AllocError>
    ensures { OnOk result (out.new.items ≡ out.old.items ++ spec.half n) }
{
    out.extend_from_slice(&n.to_le_bytes())
}

/// Adds a number of 4 bytes (`Elf64_Word`). The only error is out of memory.
#[tactic(auto, unfolding(crate::specs::Numbers::word))]
pub fn push_word(out: &mut Vec<u8>, n: u32) -> Result<(), AllocError>
    ensures { OnOk result (out.new.items ≡ out.old.items ++ spec.word n) }
{
    out.extend_from_slice(&n.to_le_bytes())
}

/// Adds a number of 8 bytes (`Elf64_Xword`, `Elf64_Addr`, `Elf64_Off`). The only error is out of memory.
#[tactic(auto, unfolding(crate::specs::Numbers::long))]
pub fn push_long(out: &mut Vec<u8>, n: u64) -> Result<(), AllocError>
    ensures { OnOk result (out.new.items ≡ out.old.items ++ spec.long n) }
{
    out.extend_from_slice(&n.to_le_bytes())
}
