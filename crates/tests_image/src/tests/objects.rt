//! What the objects of the rows share.

use elf_bytes::{Object, Reloc, Section, Symbol, record, reloc, section, symbol};

/// Code of no bytes.
pub const CODE: Section = section!(b".text", 1, 6, 4; b"");

/// Where the program starts: a number.
pub const START: Symbol = symbol!(b"_start", 1, 0, 0xfff1, 0x11000, 0);
/// A local symbol at the start of the first section.
pub const LABEL: Symbol = symbol!(b".L0", 0, 0, 1, 0, 0);

/// A relocation by symbol 1.
pub const BY_FIRST: Reloc = reloc!(0, 0, 1, 0);

const STARTS: &[Symbol] = &[START];

/// An object of these sections, with compressed instructions, and a start.
pub fn object_with<'a>(sections: &'a [Section<'a>]) -> Object<'a> {
    record!(Object; flags: 1, sections: sections, symbols: STARTS)
}
