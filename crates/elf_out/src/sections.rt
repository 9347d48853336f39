//! What stands at the end of the file: the names of the sections, and the section headers.

ghost use Rattle.std.specs.Prelude.{◌≡◌, ◌+◌, ◌^◌, ◌<◌, ◌++◌, [], length, map, IfOk, OnOk};
ghost use Rattle.elf_out.specs.Headers as spec;
ghost use Rattle.elf_out.specs.TablesView.{tables_if};
ghost use Rattle.link_sections.specs.LaidOut.{output_view};

use crate::header_bytes::offset_of;
use crate::symbols::SymbolTables;
use elf_fields::{SectionHeader, push_name, push_section_header};
use link_sections::OutputSection;
use lk_base::abi::{SHT_NULL, SHT_STRTAB, SHT_SYMTAB, SYM_SIZE};
use std::alloc::{AllocError, Global};

/// The name of the section that has the names.
const OWN_NAME: &[u8] = b".shstrtab";
/// The name of the symbol table.
const SYMBOLS_NAME: &[u8] = b".symtab";

/// The name of the section that has the symbols' names.
const STRINGS_NAME: &[u8] = b".strtab";
/// The first section header is that of no section.
const NULL_SECTION: SectionHeader = SectionHeader {
    sh_name: 0,
    sh_type: SHT_NULL,
    sh_flags: 0,
    sh_addr: 0,
    sh_offset: 0,
    sh_size: 0,
    sh_link: 0,
    sh_info: 0,
    sh_addralign: 0,
    sh_entsize: 0,
};

/// Adds the names of output sections.
fn push_output_names(out: &mut Vec<u8>, outputs: &[OutputSection]) -> Result<(), AllocError>
    ensures { OnOk result (out.new.items ≡ out.old.items ++ spec.output_names (map output_view outputs.now)) }
{
    for output in outputs {
        push_name(out, output.name)?;
    }
    Ok(())
}

/// Adds the names of the symbol table and of the names of its symbols, if there is one.
#[tactic(auto, unfolding(crate::specs::Headers::symbols_name, crate::specs::Headers::strings_name))]
fn push_table_names(out: &mut Vec<u8>, tables: &Option<SymbolTables>) -> Result<(), AllocError>
    ensures { OnOk result (out.new.items ≡ out.old.items ++ spec.table_names (tables_if tables.now)) }
{
    let Some(_) = tables else {
        return Ok(());
    };
    push_name(out, SYMBOLS_NAME)?;
    push_name(out, STRINGS_NAME)?;
    Ok(())
}

/// The names of the sections, each ended by a zero byte: that of no section, those of the output sections, of the symbol table and of the
/// names of its symbols, and the last section's own.
#[tactic(auto, unfolding(crate::specs::Headers::section_names, crate::specs::Headers::own_name))]
pub fn name_bytes(
    alloc: Global,
    outputs: &[OutputSection],
    tables: &Option<SymbolTables>,
) -> Result<Vec<u8>, AllocError>
    ensures { IfOk result (λ v. v.items ≡ spec.section_names (map output_view outputs.now) (tables_if tables.now)) }
{
    let mut out = Vec::new(alloc);
    out.push(0)?;
    push_output_names(&mut out, outputs)?;
    push_table_names(&mut out, tables)?;
    push_name(&mut out, OWN_NAME)?;
    Ok(out)
}

/// How many bytes the names have; out of memory if no memory holds so many.
pub fn names_size(
    outputs: &[OutputSection],
    tables: &Option<SymbolTables>,
) -> Result<u64, AllocError>
    ensures value { IfOk result (λ size. size ≡ length (spec.section_names (map output_view outputs.now) (tables_if tables.now))) }
    ensures small { IfOk result (λ size. size < 2 ^ 62) }
{
    let mut size = fixed_size(tables);
    for output in outputs {
        size = with_name(size, output.name)?;
    }
    Ok(size)
}

/// How many bytes the names beside those of output sections have.
#[tactic(auto, unfolding(crate::specs::Headers::section_names, crate::specs::Headers::own_name, crate::specs::Headers::symbols_name, crate::specs::Headers::strings_name))]
fn fixed_size(tables: &Option<SymbolTables>) -> u64
    ensures value { result ≡ length (spec.section_names [] (tables_if tables.now)) }
    ensures small { result < 100 }
{
    match tables {
        None => 11,
        Some(_) => 27,
    }
}

/// How many bytes names have with one more.
fn with_name(size: u64, name: &[u8]) -> Result<u64, AllocError>
    requires { size < 2 ^ 62 }
    ensures value { IfOk result (λ sum. sum ≡ size + (length name.now + 1)) }
    ensures small { IfOk result (λ sum. sum < 2 ^ 62) }
{
    let sum = size + (name.len() as u64 + 1);
    if sum >= 1 << 62 {
        return Err(AllocError);
    }
    Ok(sum)
}

/// The header of an output section whose name starts at `name`.
fn output_section(name: u64, output: &OutputSection) -> SectionHeader
    ensures { result ≡ spec.output_section name (output_view output.now) }
{
    SectionHeader {
        sh_name: (name % 0x1_0000_0000) as u32,
        sh_type: output.sh_type,
        sh_flags: output.flags,
        sh_addr: output.address,
        sh_offset: offset_of(output.address),
        sh_size: output.size,
        sh_link: 0,
        sh_info: 0,
        sh_addralign: output.align,
        sh_entsize: 0,
    }
}

/// The header of a string table.
fn strings_section(name: u64, offset: u64, size: u64) -> SectionHeader
    ensures { result ≡ spec.strings_section name offset size }
{
    SectionHeader {
        sh_name: (name % 0x1_0000_0000) as u32,
        sh_type: SHT_STRTAB,
        sh_flags: 0,
        sh_addr: 0,
        sh_offset: offset,
        sh_size: size,
        sh_link: 0,
        sh_info: 0,
        sh_addralign: 1,
        sh_entsize: 0,
    }
}

/// The header of the symbol table, whose names have the section of number `strings`; the null symbol alone stands before the global ones.
fn symbols_section(name: u64, offset: u64, size: u64, strings: u64) -> SectionHeader
    ensures { result ≡ spec.symbols_section name offset size strings }
{
    SectionHeader {
        sh_name: (name % 0x1_0000_0000) as u32,
        sh_type: SHT_SYMTAB,
        sh_flags: 0,
        sh_addr: 0,
        sh_offset: offset,
        sh_size: size,
        sh_link: (strings % 0x1_0000_0000) as u32,
        sh_info: 1,
        sh_addralign: 8,
        sh_entsize: SYM_SIZE,
    }
}

/// Adds the headers of output sections, and gives where the name after theirs starts.
fn push_output_headers(out: &mut Vec<u8>, outputs: &[OutputSection]) -> Result<u64, AllocError>
    requires { length (spec.output_names (map output_view outputs.now)) < 2 ^ 63 }
    ensures written { OnOk result (out.new.items ≡ out.old.items ++ spec.output_headers 1 (map output_view outputs.now)) }
    ensures next { IfOk result (λ name. name ≡ 1 + length (spec.output_names (map output_view outputs.now))) }
{
    let mut name: u64 = 1;
    for output in outputs {
        push_section_header(out, &output_section(name, output))?;
        name += output.name.len() as u64 + 1;
    }
    Ok(name)
}

/// Adds those of the symbol table, which stands at the file offset `at`, and of its names, if there is one: their own names start at `name`,
/// the second of them has the number `strings`. Gives where the name after theirs starts.
#[tactic(auto, unfolding(crate::specs::Headers::symbols_name, crate::specs::Headers::strings_name))]
fn push_table_headers(
    out: &mut Vec<u8>,
    tables: &Option<SymbolTables>,
    name: u64,
    at: u64,
    strings: u64,
) -> Result<u64, AllocError>
    requires name { name < 2 ^ 63 }
    requires at { at < 2 ^ 32 }
    ensures written { OnOk result (out.new.items ≡ out.old.items ++ spec.table_headers name at strings (tables_if tables.now)) }
    ensures next { IfOk result (λ next. next ≡ name + length (spec.table_names (tables_if tables.now))) }
{
    let Some(tables) = tables else {
        return Ok(name);
    };
    let symbols = tables.symbols.len() as u64;
    let size = tables.strings.len() as u64;
    push_section_header(out, &symbols_section(name, at, symbols, strings))?;
    push_section_header(out, &strings_section(name + 8, at + symbols, size))?;
    Ok(name + 16)
}

/// The section headers, if the symbol table stands at the file offset `at` and the names, of so many bytes, at `offset`.
pub fn header_table(
    alloc: Global,
    outputs: &[OutputSection],
    tables: &Option<SymbolTables>,
    at: u64,
    offset: u64,
    size: u64,
) -> Result<Vec<u8>, AllocError>
    requires names { size ≡ length (spec.section_names (map output_view outputs.now) (tables_if tables.now)) }
    requires room { size < 2 ^ 62 }
    requires at { at < 2 ^ 32 }
    requires few { length outputs.now < 2 ^ 16 }
    ensures { IfOk result (λ v. v.items ≡ spec.section_headers (map output_view outputs.now) (tables_if tables.now) at offset) }
{
    let strings = outputs.len() as u64 + 2;
    let mut out = Vec::new(alloc);
    push_section_header(&mut out, &NULL_SECTION)?;
    let name = push_output_headers(&mut out, outputs)?;
    let own = push_table_headers(&mut out, tables, name, at, strings)?;
    push_section_header(&mut out, &strings_section(own, offset, size))?;
    Ok(out)
}
