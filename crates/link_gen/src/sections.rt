//! The sections of an object, and the bytes of its file header (System V gABI, "ELF Header", "Section Header").

ghost use Rattle.std.specs.Prelude.{◌≡◌, ◌^◌, ◌<◌, ◌≤◌, ◌++◌, length, OnOk};
ghost use Rattle.link_gen.specs.Contents.{section_names};
ghost use Rattle.link_gen.specs.Elf as spec;

use elf_fields::{FileHeader, push_file_header};
use lk_base::abi::{
    ET_REL, RELA_SIZE, SHF_ALLOC, SHF_EXECINSTR, SHF_INFO_LINK, SHF_MERGE, SHF_STRINGS, SHF_WRITE,
    SHT_PROGBITS, SHT_RELA, SHT_STRTAB, SHT_SYMTAB, SYM_SIZE,
};
use std::alloc::AllocError;

/// What stands in a section.
#[derive(Clone, Copy)]
pub enum Contents {
    /// A function that calls others.
    Calls,
    /// The relocations of these calls.
    CallRelocations,
    /// A function that returns a number.
    Number,
    /// A function that returns.
    Ret,
    /// A string.
    MergedString,
    /// Eight zeros.
    Zeros,
    /// The relocation that makes these a pointer to the string.
    Pointer,
    SymbolTable,
    SymbolNames,
    SectionNames,
}

/// A section: its name, what its header says, and what stands in it.
#[derive(Clone, Copy)]
pub struct Section {
    pub name: &'static [u8],
    pub sh_type: u32,
    pub flags: u64,
    pub contents: Contents,
    pub link: u32,
    pub info: u32,
    pub align: u64,
    pub entry_size: u64,
}

const CODE: Section = Section {
    name: b"",
    sh_type: SHT_PROGBITS,
    flags: SHF_ALLOC + SHF_EXECINSTR,
    contents: Contents::Ret,
    link: 0,
    info: 0,
    align: 4,
    entry_size: 0,
};

const RELOCATIONS: Section = Section {
    name: b"",
    sh_type: SHT_RELA,
    flags: SHF_INFO_LINK,
    contents: Contents::Pointer,
    link: 8,
    info: 0,
    align: 8,
    entry_size: RELA_SIZE,
};

const STRINGS: Section = Section {
    name: b"",
    sh_type: SHT_STRTAB,
    flags: 0,
    contents: Contents::SymbolNames,
    link: 0,
    info: 0,
    align: 1,
    entry_size: 0,
};

/// The sections from number 1 on; the last has the names of all.
pub const SECTIONS: [Section; 10] = [
    Section {
        name: b".text.f",
        contents: Contents::Calls,
        ..CODE
    },
    Section {
        name: b".rela.text.f",
        contents: Contents::CallRelocations,
        info: 1,
        ..RELOCATIONS
    },
    Section {
        name: b".text.g",
        contents: Contents::Number,
        ..CODE
    },
    Section {
        name: b".text.d",
        contents: Contents::Ret,
        ..CODE
    },
    Section {
        name: b".rodata.str1.1",
        sh_type: SHT_PROGBITS,
        flags: SHF_ALLOC + SHF_MERGE + SHF_STRINGS,
        contents: Contents::MergedString,
        link: 0,
        info: 0,
        align: 1,
        entry_size: 1,
    },
    Section {
        name: b".data",
        sh_type: SHT_PROGBITS,
        flags: SHF_WRITE + SHF_ALLOC,
        contents: Contents::Zeros,
        link: 0,
        info: 0,
        align: 8,
        entry_size: 0,
    },
    Section {
        name: b".rela.data",
        contents: Contents::Pointer,
        info: 6,
        ..RELOCATIONS
    },
    Section {
        name: b".symtab",
        sh_type: SHT_SYMTAB,
        flags: 0,
        contents: Contents::SymbolTable,
        link: 9,
        info: 2,
        align: 8,
        entry_size: SYM_SIZE,
    },
    Section {
        name: b".strtab",
        contents: Contents::SymbolNames,
        ..STRINGS
    },
    Section {
        name: b".shstrtab",
        contents: Contents::SectionNames,
        ..STRINGS
    },
];

/// Adds the file header of an object: the file offset of the section headers, the code's flags, and how many section headers there
/// are.
#[tactic(auto, unfolding(crate::specs::Elf::object_header))]
pub fn push_object_header(
    out: &mut Vec<u8>,
    table: u64,
    flags: u32,
    count: u16,
) -> Result<(), AllocError>
    requires { 1 ≤ count }
    ensures { OnOk result (out.new.items ≡ out.old.items ++ spec.object_header table flags count) }
{
    let header = FileHeader {
        e_type: ET_REL,
        e_entry: 0,
        e_phoff: 0,
        e_shoff: table,
        e_flags: flags,
        e_phentsize: 0,
        e_phnum: 0,
        e_shnum: count,
        // The last section has the names.
        e_shstrndx: count - 1,
    };
    push_file_header(out, &header)
}

/// Adds the names of sections as a string table.
pub fn push_section_names(out: &mut Vec<u8>, sections: &[Section]) -> Result<(), AllocError>
    ensures { OnOk result (out.new.items ≡ out.old.items ++ section_names sections.now) }
{
    out.push(0)?;
    for section in sections {
        out.extend_from_slice(section.name)?;
        out.push(0)?;
    }
    Ok(())
}

/// Bytes of the names of sections as a string table.
pub fn section_names_size(sections: &[Section]) -> u64
    requires { length (section_names sections.now) < 2 ^ 16 }
    ensures { result ≡ length (section_names sections.now) }
{
    let mut size = 1;
    for section in sections {
        size += section.name.len() as u64 + 1;
    }
    size
}
