//! Executables, written out from their fields.

use crate::abi::{SHT_SYMTAB, SYM_SIZE};
use crate::numbers::push_numbers;
use std::alloc::{AllocError, Global};

/// The symbol table of an executable, and the names after it.
#[derive(Clone, Copy)]
pub struct Listed<'a> {
    /// The offset of the table.
    pub offset: usize,
    /// The symbols from number 1 on: the name's place, binding and type, section, value and size.
    pub symbols: &'a [[u64; 5]],
    /// The names of the symbols, which follow the table at once.
    pub strings: &'a [u8],
    /// The names of the sections, which follow those of the symbols at once.
    pub names: &'a [u8],
}

/// The fields of an executable.
#[derive(Clone, Copy)]
pub struct Image<'a> {
    /// The address at which it begins.
    pub entry: u64,
    /// The file's flags.
    pub flags: u64,
    /// The program headers: type, flags, offset, address, size in the file, size in memory and alignment.
    pub segments: &'a [[u64; 7]],
    /// What stands after the program headers, and before the symbol table where there is one: zeros up to an offset, and bytes.
    pub contents: &'a [(usize, &'a [u8])],
    /// The symbol table, and what follows it up to the section headers.
    pub listed: Option<Listed<'a>>,
    /// The offset of the section headers.
    pub table: usize,
    /// The section headers from number 1 on, that of the names last: the name's place, type, flags, address, offset, size and alignment.
    pub sections: &'a [[u64; 7]],
}

/// Adds zeros up to an offset.
fn fill(out: &mut Vec<u8>, offset: usize) -> Result<(), AllocError> {
    for _ in out.len()..offset {
        out.push(0)?;
    }
    Ok(())
}

fn push_header(out: &mut Vec<u8>, image: &Image) -> Result<(), AllocError> {
    out.extend_from_slice(b"\x7fELF\x02\x01\x01\0\0\0\0\0\0\0\0\0")?;
    let last = image.sections.len() as u64;
    let numbers = numbers![
        2 => 2; 2 => 243; 4 => 1; 8 => image.entry; 8 => 64; 8 => image.table as u64; 4 => image.flags;
        2 => 64; 2 => 56; 2 => image.segments.len() as u64; 2 => 64; 2 => last.wrapping_add(1); 2 => last;
    ];
    push_numbers(out, &numbers)
}

fn push_segments(out: &mut Vec<u8>, segments: &[[u64; 7]]) -> Result<(), AllocError> {
    for segment in segments {
        let [sort, flags, offset, address, file, memory, align] = *segment;
        let numbers =
            numbers![4 => sort; 4 => flags; 8 => offset; 8 => address; 8 => address; 8 => file; 8 => memory; 8 => align;];
        push_numbers(out, &numbers)?;
    }
    Ok(())
}

fn push_contents(out: &mut Vec<u8>, contents: &[(usize, &[u8])]) -> Result<(), AllocError> {
    for (offset, bytes) in contents {
        fill(out, *offset)?;
        out.extend_from_slice(*bytes)?;
    }
    Ok(())
}

/// Adds the null symbol and the symbols of a table.
fn push_symbols(out: &mut Vec<u8>, symbols: &[[u64; 5]]) -> Result<(), AllocError> {
    push_numbers(out, &[(0, 8), (0, 8), (0, 8)])?;
    for symbol in symbols {
        let [name, info, section, value, size] = *symbol;
        let numbers = numbers![4 => name; 1 => info; 1 => 0; 2 => section; 8 => value; 8 => size];
        push_numbers(out, &numbers)?;
    }
    Ok(())
}

fn push_listed(out: &mut Vec<u8>, listed: &Listed) -> Result<(), AllocError> {
    fill(out, listed.offset)?;
    push_symbols(out, listed.symbols)?;
    out.extend_from_slice(listed.strings)?;
    out.extend_from_slice(listed.names)
}

/// The fields sh_link, sh_info and sh_entsize: those of a symbol table name the next section, which has its names, and its first global symbol.
fn links_of(sort: u64, number: u64) -> [u64; 3] {
    if sort == SHT_SYMTAB {
        [number.wrapping_add(1), 1, SYM_SIZE]
    } else {
        [0, 0, 0]
    }
}

fn push_sections(out: &mut Vec<u8>, sections: &[[u64; 7]]) -> Result<(), AllocError> {
    for (index, section) in sections.iter().enumerate() {
        let [name, sort, flags, address, offset, size, align] = *section;
        let [link, info, entsize] = links_of(sort, (index as u64).wrapping_add(1));
        let numbers = numbers![
            4 => name; 4 => sort; 8 => flags; 8 => address; 8 => offset; 8 => size; 4 => link; 4 => info;
            8 => align; 8 => entsize;
        ];
        push_numbers(out, &numbers)?;
    }
    Ok(())
}

/// The bytes of an executable.
pub fn image_of(alloc: Global, image: &Image) -> Result<Vec<u8>, AllocError> {
    let mut out = Vec::new(alloc);
    push_header(&mut out, image)?;
    push_segments(&mut out, image.segments)?;
    push_contents(&mut out, image.contents)?;
    if let Some(listed) = &image.listed {
        push_listed(&mut out, listed)?;
    }
    fill(&mut out, image.table.wrapping_add(64))?;
    push_sections(&mut out, image.sections)?;
    Ok(out)
}
