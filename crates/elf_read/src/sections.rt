//! The section table (System V gABI, "Section Header Table").

ghost use Rattle.std.specs.Prelude.{◌≡◌, ◌+◌, ◌&&◌, ◌==◌, ◌<◌, if◌then◌else◌, length, IfOk};
ghost use Rattle.lk_tables.specs.Checks.{checked, Follows};
ghost use Rattle.lk_tables.specs.FileHeader.{section_count, header as header_of};
ghost use Rattle.lk_tables.specs.Heads.{sections_of, all_section_checks};
ghost use Rattle.lk_tables.specs.Sections as read;
ghost use Rattle.lk_tables.specs.Symbols.{index_table_of, symtab_of};
ghost use Rattle.elf_read.specs.Names.{IsLast};

use crate::header::{File, ends_past, flaw};
use crate::names::{LastName, NO_LAST, find_len, span};
use lk_base::abi::{SHT_NOBITS, SHT_NULL, SHT_SYMTAB, SHT_SYMTAB_SHNDX, SYM_SIZE, WORD_SIZE};
use lk_base::kinds::{BAD_NAME, BAD_SECTION, OUTSIDE};
use lk_base::{Flaw, ReadFault};
use lk_tables::{Section, SectionHeader, Span, is_written};
use std::alloc::Global;

/// The sections of a file, which of them is the symbol table, and which has the section indexes that do not fit into symbols'
/// entries (0: none).
#[derive(Drop)]
pub struct Sections {
    pub list: Vec<Section>,
    pub symtab: u32,
    pub index_table: u32,
}

/// All sections, if their headers are sound.
pub fn read_sections(alloc: Global, file: &File) -> Result<Sections, ReadFault>
    ensures checked { Follows result (all_section_checks file.now.bytes.now) }
    ensures list { IfOk result (λ sections. sections.list.items ≡ sections_of file.now.bytes.now) }
    ensures symtab { IfOk result (λ sections. sections.symtab ≡ symtab_of file.now.bytes.now) }
    ensures index_table { IfOk result (λ sections. sections.index_table ≡ index_table_of file.now.bytes.now) }
{
    let mut list = Vec::with_capacity(alloc, file.count as usize)?;
    let mut symtab = 0;
    let mut index_table = 0;
    let mut last = NO_LAST;
    for index in 0..file.count {
        let section = read_section(file, symtab, index_table, &mut last, index)?;
        symtab = later(symtab, SHT_SYMTAB, index, section.sh_type);
        index_table = later(index_table, SHT_SYMTAB_SHNDX, index, section.sh_type);
        list.push(section)?;
    }
    Ok(Sections {
        list,
        symtab,
        index_table,
    })
}

/// One section of the list.
pub fn section_in(bytes: &[u8], sections: &[Section], index: usize) -> Section
    requires sections { sections.now ≡ sections_of bytes.now }
    requires index { index < length sections.now }
    ensures { result ≡ read.section_of bytes.now index }
{
    sections[index]
}

/// Whether a section of the list is written; section 0 is none.
#[tactic(auto, unfolding(lk_tables::specs::Sections::written_at))]
pub fn written_at(bytes: &[u8], sections: &[Section], index: usize) -> bool
    requires sections { sections.now ≡ sections_of bytes.now }
    requires index { index < length sections.now }
    ensures { result ≡ read.written_at bytes.now index }
{
    0 < index && is_written(bytes, &section_in(bytes, sections, index))
}

/// One section, if its header is sound; `symtab` and `index_table` are those before it, or 0.
#[tactic(auto, unfolding(lk_tables::specs::Sections::section_of, lk_tables::specs::Sections::section_checks))]
fn read_section(
    file: &File,
    symtab: u32,
    index_table: u32,
    last: &mut LastName,
    index: u32,
) -> Result<Section, Flaw>
    requires index { index < section_count file.now.bytes.now }
    requires symtab { symtab ≡ read.symtab_before file.now.bytes.now index }
    requires index_table { index_table ≡ read.index_table_before file.now.bytes.now index }
    requires last { IsLast file.now.bytes.now (read.names_from file.now.bytes.now) (read.names_size file.now.bytes.now) last.old }
    ensures section { result ≡ checked (read.section_checks file.now.bytes.now index) (read.section_of file.now.bytes.now index) }
    ensures sh_type { IfOk result (λ section. section.sh_type ≡ (header_of file.now.bytes.now index).sh_type) }
    ensures last { IsLast file.now.bytes.now (read.names_from file.now.bytes.now) (read.names_size file.now.bytes.now) last.new }
{
    let header = file.header(index);
    if index == 0 || header.sh_type == SHT_NULL {
        return Ok(with_name(&header, span(0, 0)));
    }
    let place = file.place_of(index);
    if is_outside(file, &header) {
        return Err(flaw(OUTSIDE, index, place));
    }
    let Some(len) = find_len(
        file.bytes,
        file.names_from,
        file.names_size,
        last,
        header.name,
    ) else {
        return Err(flaw(BAD_NAME, index, place));
    };
    if is_bad_symtab(file, symtab, &header) || is_bad_index_table(file, index_table, &header) {
        return Err(flaw(BAD_SECTION, index, place));
    }
    Ok(with_name(&header, span(file.names_from + header.name as usize, len)))
}

/// A section's header with its name.
fn with_name(header: &SectionHeader, name: Span) -> Section
    ensures { result ≡ read.with_name header.now name }
{
    Section {
        name,
        sh_type: header.sh_type,
        flags: header.flags,
        offset: header.offset,
        size: header.size,
        link: header.link,
        info: header.info,
        align: header.align,
        entsize: header.entsize,
    }
}

/// Whether a section that has bytes in the file ends past it.
#[tactic(auto, unfolding(lk_tables::specs::Sections::is_outside))]
fn is_outside(file: &File, header: &SectionHeader) -> bool
    ensures { result ≡ read.is_outside file.now.bytes.now header.now }
{
    header.sh_type != SHT_NOBITS && ends_past(file.bytes.len() as u64, header.offset, header.size)
}

/// Whether this is a second symbol table, or one that cannot be.
#[tactic(auto, unfolding(lk_tables::specs::Sections::is_bad_symtab))]
fn is_bad_symtab(file: &File, earlier: u32, header: &SectionHeader) -> bool
    ensures { result ≡ read.is_bad_symtab file.now.bytes.now earlier header.now }
{
    header.sh_type == SHT_SYMTAB
        && (earlier != 0
            || header.entsize != SYM_SIZE
            || header.size % SYM_SIZE != 0
            || !file.is_strtab(header.link)
            || header.size / SYM_SIZE < header.info as u64)
}

/// Whether this is a second table of section indexes, or one that cannot be.
#[tactic(auto, unfolding(lk_tables::specs::Sections::is_bad_index_table))]
fn is_bad_index_table(file: &File, earlier: u32, header: &SectionHeader) -> bool
    ensures { result ≡ read.is_bad_index_table file.now.bytes.now earlier header.now }
{
    header.sh_type == SHT_SYMTAB_SHNDX
        && (earlier != 0
            || header.entsize != WORD_SIZE
            || !file.is_symtab(header.link)
            || header.size != WORD_SIZE * (file.header(header.link).size / SYM_SIZE))
}

/// The first section of a type, one section on.
fn later(earlier: u32, wanted: u32, index: u32, sh_type: u32) -> u32
    ensures { result ≡ (if earlier == 0 && sh_type == wanted then index else earlier) }
{
    if earlier == 0 && sh_type == wanted {
        index
    } else {
        earlier
    }
}
