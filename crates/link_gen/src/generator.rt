//! Whole objects, and any number of them.

ghost use Rattle.std.specs.Prelude.{◌≡◌, ◌+◌, ◌^◌, ◌<◌, ◌≤◌, ◌++◌, length, map, string_bytes, IfOk, OnOk};
ghost use Rattle.lk_base.specs.declared.abi.TheConstants.{EF_RISCV_FLOAT_ABI_DOUBLE, EF_RISCV_RVC, EHDR_SIZE};
ghost use Rattle.link_gen.specs.Contents.{IsSmall, contents_of, section_view, sections_in, symbol_view};
ghost use Rattle.link_gen.specs.Elf as elf;
ghost use Rattle.link_gen.specs.Generated as spec;

use crate::contents::{Object, contents_size, push_contents};
use crate::numbers::push_zeros;
use crate::sections::{SECTIONS, Section, push_object_header};
use crate::symbols::{Symbol, called_count, named_symbols};
use elf_fields::{SectionHeader, push_section_header};
use lk_base::abi::{EF_RISCV_FLOAT_ABI_DOUBLE, EF_RISCV_RVC, EHDR_SIZE, SHDR_SIZE};
use lk_base::up;
use std::alloc::{AllocError, Global};

/// No more objects than that are made.
const OBJECT_MOST: u32 = 1 << 30;

/// What stands in a section starts at a multiple of this, and so do the section headers.
const OBJECT_ALIGN: u64 = 8;
/// Compressed instructions, and floating-point numbers of up to 64 bits in registers.
const OBJECT_FLAGS: u32 = EF_RISCV_RVC + EF_RISCV_FLOAT_ABI_DOUBLE;

/// Bytes of what stands in a section, and of the zeros after it.
fn padded_size(section: &Section, object: &Object) -> u64
    requires { IsSmall object.now }
    ensures value { result ≡ length (elf.padded (contents_of section.now.contents object.now)) }
    ensures small { result < 2 ^ 17 }
{
    up(contents_size(section.contents, object), OBJECT_ALIGN)
}

/// The file offset of the section headers.
fn table_offset(object: &Object) -> u64
    requires { IsSmall object.now }
    ensures value { result ≡ EHDR_SIZE + length (elf.laid (sections_in object.now)) }
    ensures small { result < 2 ^ 21 }
{
    let mut offset = EHDR_SIZE;
    for section in object.sections {
        offset += padded_size(section, object);
    }
    offset
}

/// Adds what stands in a section, and zeros up to a multiple of 8 bytes.
fn push_padded(out: &mut Vec<u8>, section: &Section, object: &Object) -> Result<(), AllocError>
    requires { IsSmall object.now }
    ensures { OnOk result (out.new.items ≡ out.old.items ++ elf.padded (contents_of section.now.contents object.now)) }
{
    let size = contents_size(section.contents, object);
    push_contents(out, section.contents, object)?;
    push_zeros(out, up(size, OBJECT_ALIGN) - size)?;
    Ok(())
}

/// Adds what stands in all sections.
fn push_laid(out: &mut Vec<u8>, object: &Object) -> Result<(), AllocError>
    requires { IsSmall object.now }
    ensures { OnOk result (out.new.items ≡ out.old.items ++ elf.laid (sections_in object.now)) }
{
    for section in object.sections {
        push_padded(out, section, object)?;
    }
    Ok(())
}

/// The header of a section whose name starts at `name` of the section names, and its bytes at `offset` of the file.
fn header_of(name: u32, offset: u64, section: &Section, object: &Object) -> SectionHeader
    requires { IsSmall object.now }
    ensures { result ≡ elf.header_of name offset (section_view object.now section.now) }
{
    SectionHeader {
        sh_name: name,
        sh_type: section.sh_type,
        sh_flags: section.flags,
        sh_addr: 0,
        sh_offset: offset,
        sh_size: contents_size(section.contents, object),
        sh_link: section.link,
        sh_info: section.info,
        sh_addralign: section.align,
        sh_entsize: section.entry_size,
    }
}

/// Adds the headers of all sections.
fn push_section_headers(out: &mut Vec<u8>, object: &Object) -> Result<(), AllocError>
    requires { IsSmall object.now }
    ensures { OnOk result (out.new.items ≡ out.old.items ++ elf.section_headers 1 EHDR_SIZE (sections_in object.now)) }
{
    let mut name = 1;
    let mut offset = EHDR_SIZE;
    for section in object.sections {
        push_section_header(out, &header_of(name, offset, section, object))?;
        name += section.name.len() as u32 + 1;
        offset += padded_size(section, object);
    }
    Ok(())
}

/// The bytes of an object.
fn bytes_of(alloc: Global, object: &Object) -> Result<Vec<u8>, AllocError>
    requires { IsSmall object.now }
    ensures { IfOk result (λ v. v.items ≡ elf.object_of (EF_RISCV_RVC + EF_RISCV_FLOAT_ABI_DOUBLE) (sections_in object.now)) }
{
    let table = table_offset(object);
    let count = 1 + object.sections.len() as u64;
    let mut out = Vec::with_capacity(alloc, (table + count * SHDR_SIZE) as usize)?;
    push_object_header(&mut out, table, OBJECT_FLAGS, count as u16)?;
    push_laid(&mut out, object)?;
    // The first section header is that of no section.
    push_zeros(&mut out, SHDR_SIZE)?;
    push_section_headers(&mut out, object)?;
    Ok(out)
}

/// What the sections of an object with so many calls and these symbols are made of.
fn object_with<'a>(number: u32, calls: u32, symbols: &'a [Symbol]) -> Object<'a>
    requires calls { calls ≤ 3 }
    requires symbols { length symbols.now ≤ 6 }
    ensures small { IsSmall result }
    ensures sections { sections_in result ≡ spec.sections_with number calls (map symbol_view symbols.now) }
{
    Object {
        number,
        calls,
        symbols,
        sections: &SECTIONS,
    }
}

/// Object `k` of `n`.
fn object(alloc: Global, k: u32, n: u32) -> Result<Vec<u8>, AllocError>
    requires { k < 2 ^ 30 }
    ensures { IfOk result (λ v. v.items ≡ spec.object k n) }
{
    let symbols = named_symbols(alloc, k, n)?;
    let object = object_with(k, 1 + called_count(k, n), &symbols);
    let bytes = bytes_of(alloc, &object)?;
    Ok(bytes)
}

fn object_name(alloc: Global, k: u32) -> Result<String, AllocError>
    ensures { IfOk result (λ name. string_bytes name ≡ spec.object_name k) }
{
    format!(in alloc; "gen{k}.o")
}

/// `n` relocatable objects, by number from 0 on: the name `genK.o` of each, and its bytes (System V gABI, "Object Files"). The only error is
/// out of memory, which more than 2^30 objects are answered with.
pub fn objects(alloc: Global, n: u32) -> Result<Vec<(String, Vec<u8>)>, AllocError>
    ensures objects { IfOk result (λ list. spec.objects_in list.items ≡ spec.objects n) }
{
    if n > OBJECT_MOST {
        return Err(AllocError);
    }
    let mut list = Vec::with_capacity(alloc, n as usize)?;
    for k in 0..n {
        list.push((object_name(alloc, k)?, object(alloc, k, n)?))?;
    }
    Ok(list)
}
