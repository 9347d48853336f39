//! The file header of an executable, and the file offset of an address (System V gABI, "ELF Header").

ghost use Rattle.std.specs.Prelude.{◌≡◌, ◌≤◌, ◌-◌, ◌++◌, OnOk};
ghost use Rattle.lk_base.specs.declared.abi.TheConstants.{IMAGE_BASE};
ghost use Rattle.elf_out.specs.Headers.{executable_header};

use elf_fields::{FileHeader, push_file_header};
use lk_base::abi::{EHDR_SIZE, ET_EXEC, IMAGE_BASE, PHDR_SIZE};
use std::alloc::AllocError;

/// The file offset of an address.
pub fn offset_of(address: u64) -> u64
    ensures { result ≡ address - IMAGE_BASE }
{
    address.saturating_sub(IMAGE_BASE)
}

/// Adds the file header: the entry's address, the file offset of the section headers, the code's flags, and how many
/// program headers and section headers there are.
#[tactic(auto, unfolding(crate::specs::Headers::executable_header))]
pub fn push_executable_header(
    out: &mut Vec<u8>,
    entry: u64,
    table: u64,
    flags: u32,
    segments: u16,
    sections: u16,
) -> Result<(), AllocError>
    requires { 1 ≤ sections }
    ensures { OnOk result (out.new.items ≡ out.old.items ++ executable_header entry table flags segments sections) }
{
    let header = FileHeader {
        e_type: ET_EXEC,
        e_entry: entry,
        e_phoff: EHDR_SIZE,
        e_shoff: table,
        e_flags: flags,
        e_phentsize: PHDR_SIZE as u16,
        e_phnum: segments,
        e_shnum: sections,
        // The last section has the names.
        e_shstrndx: sections - 1,
    };
    push_file_header(out, &header)
}
