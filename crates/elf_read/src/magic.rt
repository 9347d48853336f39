//! How a file of the format begins.

ghost use Rattle.std.specs.Prelude.{◌≡◌};
ghost use Rattle.elf_read.specs.Magic.{is_elf};

/// Whether a file begins as an ELF file does (System V gABI, "ELF Identification", EI_MAG0 to EI_MAG3).
#[tactic(auto, unfolding(crate::specs::Magic::is_elf))]
pub fn is_elf(bytes: &[u8]) -> bool
    ensures { result ≡ is_elf bytes.now }
{
    bytes.starts_with(&[0x7f, 0x45, 0x4c, 0x46])
}
