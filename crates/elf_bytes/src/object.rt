//! Objects, built for examples.

use crate::abi::{
    RELA_SIZE, SHF_INFO_LINK, SHN_LORESERVE, SHN_XINDEX, SHT_RELA, SHT_STRTAB, SHT_SYMTAB,
    SHT_SYMTAB_SHNDX, STB_LOCAL, SYM_SIZE,
};
use crate::numbers::{pad, push_numbers, push_zeros};
use crate::record;
use std::alloc::{AllocError, Global};

#[derive(Clone, Copy)]
pub struct Reloc {
    /// Offset in the section, in bytes.
    pub offset: u64,
    pub kind: u64,
    /// The number of the symbol.
    pub symbol: u64,
    pub addend: i64,
}

/// What a section is linked with (sh_link).
#[derive(Clone, Copy)]
pub enum SectionLink {
    Number(u64),
    /// The object's symbol table.
    Symtab,
}

#[derive(Clone, Copy)]
pub struct Section<'a> {
    pub name: &'a [u8],
    pub sort: u64,
    pub flags: u64,
    pub align: u64,
    /// The size of a section without bytes.
    pub size: u64,
    /// How many zeros stand before its bytes.
    pub zeros: usize,
    pub bytes: &'a [u8],
    pub relocs: &'a [Reloc],
    pub link: SectionLink,
    /// The symbol of a group's signature (sh_info).
    pub info: u64,
    /// The size of an entry, in bytes.
    pub entsize: u64,
}

/// No section: no name, no bytes, and zeros.
pub const NO_SECTION: Section =
    record!(Section; name: b"", sort: 0, flags: 0, align: 0, size: 0, zeros: 0, bytes: b"",
    relocs: &[], link: SectionLink::Number(0), info: 0, entsize: 0);

/// In a symbol's section: its number stands in the table of section indexes.
pub const ELSEWHERE: u64 = 1 << 32;

#[derive(Clone, Copy)]
pub struct Symbol<'a> {
    pub name: &'a [u8],
    pub binding: u64,
    pub sort: u64,
    /// The section (st_shndx), or `ELSEWHERE` more than the number of one that stands in the table of section indexes.
    pub section: u64,
    pub value: u64,
    pub size: u64,
}

/// An object: its sections and symbols from number 1 on, local symbols first.
#[derive(Clone, Copy)]
pub struct Object<'a> {
    pub flags: u64,
    pub sections: &'a [Section<'a>],
    pub symbols: &'a [Symbol<'a>],
}

/// A section header being made: its name's place, type, flags, size, link, info, alignment and entry size.
type Fields = [u64; 8];

macro_rules! header {
    ($($field:expr);+) => {
        [$($field),+]
    };
}

/// The part of an object after its header, and the section headers.
#[derive(Drop)]
struct Parts {
    body: Vec<u8>,
    headers: Vec<u8>,
    names: Vec<u8>,
}

/// Adds a section: its bytes, after so many zeros, at a multiple of 8, and its header.
fn push_section(
    parts: &mut Parts,
    fields: Fields,
    zeros: usize,
    bytes: &[u8],
) -> Result<(), AllocError> {
    let [name, sort, flags, size, link, info, align, entsize] = fields;
    pad(&mut parts.body)?;
    let offset = (parts.body.len() as u64).wrapping_add(64);
    push_zeros(&mut parts.body, zeros)?;
    parts.body.extend_from_slice(bytes)?;
    let numbers =
        numbers![4 => name; 4 => sort; 8 => flags; 8 => 0; 8 => offset; 8 => size; 4 => link; 4 => info; 8 => align; 8 => entsize;];
    push_numbers(&mut parts.headers, &numbers)
}

/// The number in a header; the symbol table has number `symtab`.
fn link_number(link: SectionLink, symtab: u64) -> u64 {
    match link {
        SectionLink::Number(number) => number,
        SectionLink::Symtab => symtab,
    }
}

/// Adds the sections that an object names; the symbol table has number `symtab`.
fn push_named(parts: &mut Parts, sections: &[Section], symtab: u64) -> Result<(), AllocError> {
    for section in sections {
        let name = parts.names.len() as u64;
        parts.names.extend_from_slice(section.name)?;
        parts.names.push(0)?;
        let bits = (section.zeros as u64).wrapping_add(section.bytes.len() as u64);
        let size = section.size.max(bits);
        let link = link_number(section.link, symtab);
        let fields =
            header![name; section.sort; section.flags; size; link; section.info; section.align; section.entsize];
        push_section(parts, fields, section.zeros, section.bytes)?;
    }
    Ok(())
}

fn entries_of(alloc: Global, relocs: &[Reloc]) -> Result<Vec<u8>, AllocError> {
    let mut out = Vec::new(alloc);
    for reloc in relocs {
        let numbers =
            numbers![8 => reloc.offset; 4 => reloc.kind; 4 => reloc.symbol; 8 => reloc.addend.cast_unsigned();];
        push_numbers(&mut out, &numbers)?;
    }
    Ok(out)
}

/// How many sections have relocations.
fn count_relocated(sections: &[Section]) -> usize {
    sections
        .iter()
        .filter(|section| !section.relocs.is_empty())
        .count()
}

/// Adds a RELA section for each section that has relocations; the symbol table has number `symtab`.
fn push_relocs(
    alloc: Global,
    parts: &mut Parts,
    sections: &[Section],
    symtab: u64,
) -> Result<(), AllocError> {
    for (index, section) in sections.iter().enumerate() {
        if !section.relocs.is_empty() {
            let entries = entries_of(alloc, section.relocs)?;
            let target = (index as u64).wrapping_add(1);
            let size = entries.len() as u64;
            let fields = header![0; SHT_RELA; SHF_INFO_LINK; size; symtab; target; 8; RELA_SIZE];
            push_section(parts, fields, 0, &entries)?;
        }
    }
    Ok(())
}

/// A symbol's section as its entry has it.
fn index_in_entry(section: u64) -> u64 {
    if section < ELSEWHERE {
        section
    } else {
        SHN_XINDEX
    }
}

/// Whether the section of a symbol stands in the table of section indexes.
fn has_indexes(symbols: &[Symbol]) -> bool {
    symbols.iter().any(|symbol| ELSEWHERE <= symbol.section)
}

/// Adds the table of section indexes, if a symbol needs one: 0 for each other symbol.
fn push_indexes(
    alloc: Global,
    parts: &mut Parts,
    symbols: &[Symbol],
    symtab: u64,
) -> Result<(), AllocError> {
    if !has_indexes(symbols) {
        return Ok(());
    }
    let mut words = vec![in alloc; 0u8; 4]?;
    for symbol in symbols {
        let number = if symbol.section < ELSEWHERE {
            0
        } else {
            symbol.section
        };
        push_numbers(&mut words, &[(number, 4)])?;
    }
    let size = words.len() as u64;
    let fields = header![0; SHT_SYMTAB_SHNDX; 0; size; symtab; 0; 4; 4];
    push_section(parts, fields, 0, &words)
}

/// Adds a section of names.
fn push_texts(parts: &mut Parts, texts: &[u8]) -> Result<(), AllocError> {
    let fields = header![0; SHT_STRTAB; 0; texts.len() as u64; 0; 0; 1; 0];
    push_section(parts, fields, 0, texts)
}

/// The symbol table's bytes; the names go to `texts`.
fn table_of(alloc: Global, symbols: &[Symbol], texts: &mut Vec<u8>) -> Result<Vec<u8>, AllocError> {
    let mut out = vec![in alloc; 0u8; SYM_SIZE as usize]?;
    for symbol in symbols {
        let numbers = numbers![
            4 => texts.len() as u64; 1 => symbol.binding.wrapping_mul(16).wrapping_add(symbol.sort); 1 => 0;
            2 => index_in_entry(symbol.section); 8 => symbol.value; 8 => symbol.size;
        ];
        push_numbers(&mut out, &numbers)?;
        texts.extend_from_slice(symbol.name)?;
        texts.push(0)?;
    }
    Ok(out)
}

/// Adds the symbol table, which has number `symtab`, and its names.
fn push_symbols(
    alloc: Global,
    parts: &mut Parts,
    symbols: &[Symbol],
    symtab: u64,
) -> Result<(), AllocError> {
    let mut texts = vec![in alloc; 0u8; 1]?;
    let table = table_of(alloc, symbols, &mut texts)?;
    let locals = symbols
        .iter()
        .filter(|symbol| symbol.binding == STB_LOCAL)
        .count();
    let first = (locals as u64).wrapping_add(1);
    let link = symtab.wrapping_add(1);
    let size = table.len() as u64;
    let fields = header![0; SHT_SYMTAB; 0; size; link; first; 8; SYM_SIZE];
    push_section(parts, fields, 0, &table)?;
    push_texts(parts, &texts)
}

/// Adds the section of the sections' names.
fn push_names(alloc: Global, parts: &mut Parts) -> Result<(), AllocError> {
    let names = Vec::from_slice(alloc, &parts.names)?;
    push_texts(parts, &names)?;
    pad(&mut parts.body)
}

/// A number in a field of the file header, and what it has instead of one that it has no room for.
fn in_field(number: u64, instead: u64) -> u64 {
    if number < SHN_LORESERVE {
        number
    } else {
        instead
    }
}

/// A number in section 0: one that the file header has no room for.
fn in_section_0(number: u64) -> u64 {
    if number < SHN_LORESERVE { 0 } else { number }
}

/// An object's bytes: the file header, the contents of the sections, and the section headers.
fn join(alloc: Global, flags: u64, parts: &Parts, last: u64) -> Result<Vec<u8>, AllocError> {
    let mut out = Vec::from_slice(alloc, b"\x7fELF\x02\x01\x01\0\0\0\0\0\0\0\0\0")?;
    let table = (parts.body.len() as u64).wrapping_add(64);
    let count = last.wrapping_add(1);
    let numbers = numbers![
        2 => 1; 2 => 243; 4 => 1; 8 => 0; 8 => 0; 8 => table; 4 => flags; 2 => 64; 4 => 0; 2 => 64;
        2 => in_field(count, 0); 2 => in_field(last, SHN_XINDEX);
    ];
    push_numbers(&mut out, &numbers)?;
    out.extend_from_slice(&parts.body)?;
    push_zeros(&mut out, 32)?;
    let counts = [(in_section_0(count), 8), (in_section_0(last), 4)];
    push_numbers(&mut out, &counts)?;
    push_zeros(&mut out, 20)?;
    out.extend_from_slice(&parts.headers)?;
    Ok(out)
}

/// The bytes of an object. After its own sections stand one of relocations for each that has any, the symbol table, the
/// symbols' names, the table of section indexes if a symbol needs one, and the sections' names, all without a name.
pub fn object_of(alloc: Global, object: &Object) -> Result<Vec<u8>, AllocError> {
    let mut parts = Parts {
        body: Vec::new(alloc),
        headers: Vec::new(alloc),
        names: vec![in alloc; 0u8; 1]?,
    };
    let own = object.sections.len() as u64;
    let symtab = own
        .wrapping_add(count_relocated(object.sections) as u64)
        .wrapping_add(1);
    push_named(&mut parts, object.sections, symtab)?;
    push_relocs(alloc, &mut parts, object.sections, symtab)?;
    push_symbols(alloc, &mut parts, object.symbols, symtab)?;
    push_indexes(alloc, &mut parts, object.symbols, symtab)?;
    push_names(alloc, &mut parts)?;
    let last = symtab.wrapping_add(if has_indexes(object.symbols) { 3 } else { 2 });
    join(alloc, object.flags, &parts, last)
}
