//! The three headers (System V gABI, "ELF Header", "Program Header", "Section Header").

ghost use Rattle.std.specs.Prelude.{◌≡◌, ◌++◌, OnOk};
ghost use Rattle.elf_fields.specs.Headers as spec;

use crate::numbers::{push_half, push_long, push_word};
use lk_base::abi::{EHDR_SIZE, EM_RISCV, EV_CURRENT, SHDR_SIZE};
use std::alloc::AllocError;

/// A file header (`Elf64_Ehdr`) of 64 bits, the lowest byte first, for RISC-V: what differs from file to file.
#[derive(Clone, Copy)]
pub struct FileHeader {
    /// The kind of file.
    pub e_type: u16,
    /// The address at which the program starts.
    pub e_entry: u64,
    /// The file offset of the program headers.
    pub e_phoff: u64,
    /// The file offset of the section headers.
    pub e_shoff: u64,
    /// The flags of the code.
    pub e_flags: u32,
    /// Bytes of a program header; 0 in a file without them.
    pub e_phentsize: u16,
    /// How many program headers there are.
    pub e_phnum: u16,
    /// How many section headers there are.
    pub e_shnum: u16,
    /// The number of the section that has the names of the sections.
    pub e_shstrndx: u16,
}

/// A program header (`Elf64_Phdr`); its physical address, `p_paddr`, is the virtual one.
#[derive(Clone, Copy)]
pub struct ProgramHeader {
    pub p_type: u32,
    pub p_flags: u32,
    pub p_offset: u64,
    pub p_vaddr: u64,
    /// Bytes in the file.
    pub p_filesz: u64,
    /// Bytes in memory.
    pub p_memsz: u64,
    pub p_align: u64,
}

/// A section header (`Elf64_Shdr`).
#[derive(Clone, Copy)]
pub struct SectionHeader {
    /// Where the name starts among the section names, in bytes.
    pub sh_name: u32,
    pub sh_type: u32,
    pub sh_flags: u64,
    pub sh_addr: u64,
    pub sh_offset: u64,
    pub sh_size: u64,
    pub sh_link: u32,
    pub sh_info: u32,
    pub sh_addralign: u64,
    /// Bytes of one entry, in a table.
    pub sh_entsize: u64,
}

#[tactic(auto, unfolding(crate::specs::Headers::identification))]
fn push_identification(out: &mut Vec<u8>) -> Result<(), AllocError>
    ensures { OnOk result (out.new.items ≡ out.old.items ++ spec.identification) }
{
    out.extend_from_slice(b"\x7fELF\x02\x01\x01\0\0\0\0\0\0\0\0\0")
}

/// Adds a file header: 64 bytes (gABI, "ELF Header"). The only error is out of memory.
pub fn push_file_header(out: &mut Vec<u8>, header: &FileHeader) -> Result<(), AllocError>
    ensures { OnOk result (out.new.items ≡ out.old.items ++ spec.file_header header.now) }
{
    push_identification(out)?;
    push_half(out, header.e_type)?;
    push_half(out, EM_RISCV)?;
    push_word(out, EV_CURRENT as u32)?;
    push_long(out, header.e_entry)?;
    push_long(out, header.e_phoff)?;
    push_long(out, header.e_shoff)?;
    push_word(out, header.e_flags)?;
    push_half(out, EHDR_SIZE as u16)?;
    push_half(out, header.e_phentsize)?;
    push_half(out, header.e_phnum)?;
    push_half(out, SHDR_SIZE as u16)?;
    push_half(out, header.e_shnum)?;
    push_half(out, header.e_shstrndx)?;
    Ok(())
}

/// Adds a program header: 56 bytes (gABI, "Program Header"). The only error is out of memory.
pub fn push_program_header(out: &mut Vec<u8>, header: &ProgramHeader) -> Result<(), AllocError>
    ensures { OnOk result (out.new.items ≡ out.old.items ++ spec.program_header header.now) }
{
    push_word(out, header.p_type)?;
    push_word(out, header.p_flags)?;
    push_long(out, header.p_offset)?;
    push_long(out, header.p_vaddr)?;
    push_long(out, header.p_vaddr)?;
    push_long(out, header.p_filesz)?;
    push_long(out, header.p_memsz)?;
    push_long(out, header.p_align)?;
    Ok(())
}

/// Adds a section header: 64 bytes (gABI, "Section Header"). The only error is out of memory.
pub fn push_section_header(out: &mut Vec<u8>, header: &SectionHeader) -> Result<(), AllocError>
    ensures { OnOk result (out.new.items ≡ out.old.items ++ spec.section_header header.now) }
{
    push_word(out, header.sh_name)?;
    push_word(out, header.sh_type)?;
    push_long(out, header.sh_flags)?;
    push_long(out, header.sh_addr)?;
    push_long(out, header.sh_offset)?;
    push_long(out, header.sh_size)?;
    push_word(out, header.sh_link)?;
    push_word(out, header.sh_info)?;
    push_long(out, header.sh_addralign)?;
    push_long(out, header.sh_entsize)?;
    Ok(())
}
