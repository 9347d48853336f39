//! Strings and constants that are merged (System V gABI, SHF_MERGE and SHF_STRINGS): each piece stands once in a pool, and what
//! names a place of a merged section names that place of its piece.

use elf_bytes::{Image, Object, Section, Symbol, data, image, object, reloc, section, symbol};
use link_examples::images::{FIRST, FOUR_ALONE, STACK};
use link_examples::objects::{
    CONSTANTS, FOUR_CONSTANTS, Input, RETURN, SAID_AGAIN, START, STRINGS,
};
use link_examples::{Files, Link, Store, inputs, link, objects_of};
use std::alloc::{AllocError, Global};

/// One string without an alignment.
const STRING: Section = section!(STRINGS => align: 1, bytes: b"x\0");

/// The symbol of section 2 itself.
const OF_SECOND: Symbol = symbol!(b"", 0, 3, 2, 0, 0);
/// A label at 4 in section 2.
const AT_4: Symbol = symbol!(b".L4", 0, 0, 2, 4, 0);

/// Words of the section at 8, at its end, before it, past its end, and of 4 after a label at 4.
const PLACES: Section =
    data!(b"\xff\xff\xff\xff\xff\xff\xff\xff\0\0\0\0\0\0\0\0\0\0\0\0\0\0\0\0\0\0\0\0\0\0\0\0\0\0\0\0\0\0\0\0";
        reloc!(0, 2, 1, 8), reloc!(8, 2, 1, 12), reloc!(16, 2, 1, -4), reloc!(24, 2, 1, 16), reloc!(32, 2, 2, 4));

const THREE_CONSTANTS: Object = object!([RETURN, CONSTANTS, PLACES]; [OF_SECOND, AT_4, START]);

const INPUTS: &[Input] = inputs!(
    // These strings, and a word of the last of them. The code names the words, and they name the strings.
    "said.o" => object!([
        section!(RETURN => relocs: &[reloc!(0, 0, 2, 0)]), STRINGS, data!(b"\0\0\0\0\0\0\0\0"; reloc!(0, 2, 1, 8)),
    ]; [OF_SECOND, symbol!(b"", 0, 3, 3, 0, 0), START]),
    "again.o" => SAID_AGAIN,
    // A string of its own, which nothing names.
    "idle.o" => object!([section!(STRINGS => bytes: b"no\0")]; []),
    "three.o" => THREE_CONSTANTS,
    // Three constants less a byte: no whole number of constants.
    "broken.o" => object!(THREE_CONSTANTS => sections: &[RETURN, section!(CONSTANTS => bytes: b"\x01\0\0\0\x02\0\0\0\x01\0\0"), PLACES]),
    // Strings of characters of 2 and of 4 bytes, and words of places within them.
    "wide.o" => object!([
        RETURN, section!(b".rodata.str2.2", 1, 0x32, 2; b"a\0\0\0\0a\0\0a\0\0\0"; entsize: 2),
        section!(b".rodata.str4.4", 1, 0x32, 4; b"\0\0\x01\0\0\0\0\0\0\0\x01\0\0\0\0\0"; entsize: 4),
        data!(b"\0\0\0\0\0\0\0\0\0\0\0\0\0\0\0\0\0\0\0\0\0\0\0\0\0\0\0\0\0\0\0\0";
            reloc!(0, 2, 1, 8), reloc!(8, 2, 1, 6), reloc!(16, 2, 2, 8), reloc!(24, 2, 2, 12)),
    ]; [OF_SECOND, symbol!(b"", 0, 3, 3, 0, 0), START]),
    // Strings that go to four pools, and seven sections that are not merged: one that may be written, one without an end, one with a
    // relocation, two of a wrong size of character, zeros, and one of no whole number of constants.
    "apart.o" => object!([RETURN, section!(STRING => name: b".rodata.a"), section!(STRING => name: b".rodata.b"),
        section!(STRING => name: b".rodata.c", align: 2), section!(STRING => name: b".rodata.d", flags: 0x12, entsize: 2),
        section!(STRING => name: b".srodata.e"), section!(STRING => name: b".rodata.f", flags: 0x232),
        section!(STRING => name: b".rodata.g", flags: 0x33), section!(STRING => name: b".rodata.h", bytes: b"x"),
        section!(STRING => name: b".rodata.i", relocs: &[reloc!(0, 0, 0, 0)]), section!(STRING => name: b".rodata.j", entsize: 0),
        section!(b".rodata.k", 1, 0x32, 1; b"xy\0"; entsize: 3), section!(STRING => name: b".rodata.l", sort: 8, flags: 0x12, size: 2, bytes: b""),
        section!(b".rodata.m", 1, 0x12, 1; b"xyz"; entsize: 2)]; [START]),
    "four.o" => FOUR_CONSTANTS,
);

pub fn files(alloc: Global) -> Result<Files, AllocError> {
    objects_of(alloc, INPUTS)
}

/// A `ret`, a pool of three strings, and the address of the last.
pub const POOL: Image = image!(FIRST => table: 0x2028,
    segments: &[[1, 4, 0, 0x10000, 0x134, 0x134, 4096], [1, 5, 0x1000, 0x11000, 4, 4, 4096], [1, 6, 0x2000, 0x12000, 8, 8, 4096], STACK],
    contents: &[(0x120, b"abc"), (0x130, b"xyz"), (0x1000, b"\x67\x80\0\0"), (0x2000, b"\x30\x01\x01\0\0\0\0\0"),
        (0x2008, b"\0.rodata\0.text\0.data\0.shstrtab\0")],
    sections: &[[1, 1, 2, 0x10120, 0x120, 20, 8], [9, 1, 6, 0x11000, 0x1000, 4, 4], [15, 1, 3, 0x12000, 0x2000, 8, 8], [21, 3, 0, 0, 0x2008, 31, 1]]);

/// A pool of two constants, and the words.
const TWO_CONSTANTS: Image = image!(FIRST => table: 0x2048,
    segments: &[[1, 4, 0, 0x10000, 0x128, 0x128, 4096], [1, 5, 0x1000, 0x11000, 4, 4, 4096], [1, 6, 0x2000, 0x12000, 40, 40, 4096], STACK],
    contents: &[(0x120, b"\x01\0\0\0\x02"), (0x1000, b"\x67\x80\0\0"), (0x2000, b"\x20\x01\x01"), (0x2008, b"\x24\x01\x01"),
        (0x2010, b"\x1c\x01\x01"), (0x2018, b"\x28\x01\x01"), (0x2020, b"\x28\x01\x01"), (0x2028, b"\0.rodata\0.text\0.data\0.shstrtab\0")],
    sections: &[[1, 1, 2, 0x10120, 0x120, 8, 4], [9, 1, 6, 0x11000, 0x1000, 4, 4], [15, 1, 3, 0x12000, 0x2000, 40, 8], [21, 3, 0, 0, 0x2028, 31, 1]]);

/// Four pools and seven sections.
pub const MANY_POOLS: Image = image!(FIRST => table: 0x2030,
    segments: &[[1, 4, 0, 0x10000, 0x135, 0x135, 4096], [1, 5, 0x1000, 0x11000, 4, 4, 4096], [1, 6, 0x2000, 0x12000, 2, 2, 4096], STACK],
    contents: &[(0x120, b"x\0x\0x\0xx\0x\0xy\0\0\0xyz"), (0x133, b"x"), (0x1000, b"\x67\x80\0\0"), (0x2000, b"x"),
        (0x2002, b"\0.rodata\0.srodata\0.text\0.rodata\0.shstrtab\0")],
    sections: &[[1, 1, 2, 0x10120, 0x120, 19, 2], [9, 1, 2, 0x10133, 0x133, 2, 1], [18, 1, 6, 0x11000, 0x1000, 4, 4],
        [24, 1, 3, 0x12000, 0x2000, 2, 1], [32, 3, 0, 0, 0x2002, 42, 1]]);

/// A string stands once, whoever has it; what is dropped gives none.
pub const STRINGS_OF_FILES: &[Link] = &[
    link!("-s", "said.o", "again.o" => POOL; store: Store::Merged),
    link!("-s", "again.o", "said.o" => POOL; store: Store::Merged),
    // The pool with one string more.
    link!("-s", "said.o", "idle.o" => image!(POOL =>
        segments: &[[1, 4, 0, 0x10000, 0x13b, 0x13b, 4096], [1, 5, 0x1000, 0x11000, 4, 4, 4096], [1, 6, 0x2000, 0x12000, 8, 8, 4096], STACK],
        contents: &[(0x120, b"abc"), (0x130, b"xyz"), (0x138, b"no"), (0x1000, b"\x67\x80\0\0"), (0x2000, b"\x30\x01\x01\0\0\0\0\0"),
            (0x2008, b"\0.rodata\0.text\0.data\0.shstrtab\0")],
        sections: &[[1, 1, 2, 0x10120, 0x120, 27, 8], [9, 1, 6, 0x11000, 0x1000, 4, 4], [15, 1, 3, 0x12000, 0x2000, 8, 8], [21, 3, 0, 0, 0x2008, 31, 1]]); store: Store::Merged),
    // The pool with that string first.
    link!("-s", "idle.o", "again.o", "said.o", "idle.o" => image!(POOL =>
        contents: &[(0x120, b"no"), (0x128, b"abc"), (0x138, b"xyz"), (0x1000, b"\x67\x80\0\0"), (0x2000, b"\x38\x01\x01\0\0\0\0\0"),
            (0x2008, b"\0.rodata\0.text\0.data\0.shstrtab\0")],
        segments: &[[1, 4, 0, 0x10000, 0x13c, 0x13c, 4096], [1, 5, 0x1000, 0x11000, 4, 4, 4096], [1, 6, 0x2000, 0x12000, 8, 8, 4096], STACK],
        sections: &[[1, 1, 2, 0x10120, 0x120, 28, 8], [9, 1, 6, 0x11000, 0x1000, 4, 4], [15, 1, 3, 0x12000, 0x2000, 8, 8], [21, 3, 0, 0, 0x2008, 31, 1]]); store: Store::Merged),
    link!("-s", "--gc-sections", "said.o", "idle.o" => POOL; store: Store::Merged),
    link!("-s", "--gc-sections", "idle.o", "said.o", "again.o" => POOL; store: Store::Merged),
];

/// Constants, wide characters, and what is merged with what.
pub const PIECES: &[Link] = &[
    link!("-s", "three.o" => TWO_CONSTANTS; store: Store::Merged),
    // The bytes as they are, and the words.
    link!("-s", "broken.o" => image!(TWO_CONSTANTS =>
        segments: &[[1, 4, 0, 0x10000, 0x12b, 0x12b, 4096], [1, 5, 0x1000, 0x11000, 4, 4, 4096], [1, 6, 0x2000, 0x12000, 40, 40, 4096], STACK],
        contents: &[(0x120, b"\x01\0\0\0\x02\0\0\0\x01"), (0x1000, b"\x67\x80\0\0"), (0x2000, b"\x28\x01\x01"), (0x2008, b"\x2c\x01\x01"),
            (0x2010, b"\x1c\x01\x01"), (0x2018, b"\x30\x01\x01"), (0x2020, b"\x28\x01\x01"), (0x2028, b"\0.rodata\0.text\0.data\0.shstrtab\0")],
        sections: &[[1, 1, 2, 0x10120, 0x120, 11, 4], [9, 1, 6, 0x11000, 0x1000, 4, 4], [15, 1, 3, 0x12000, 0x2000, 40, 8], [21, 3, 0, 0, 0x2028, 31, 1]]); store: Store::Merged),
    // A pool of two strings of 2 bytes a character, and one of a string of 4.
    link!("-s", "wide.o" => image!(FIRST => table: 0x2040,
        segments: &[[1, 4, 0, 0x10000, 0x130, 0x130, 4096], [1, 5, 0x1000, 0x11000, 4, 4, 4096], [1, 6, 0x2000, 0x12000, 32, 32, 4096], STACK],
        contents: &[(0x120, b"a\0\0\0\0a\0\0\0\0\x01"), (0x1000, b"\x67\x80\0\0"), (0x2000, b"\x20\x01\x01"), (0x2008, b"\x26\x01\x01"),
            (0x2010, b"\x28\x01\x01"), (0x2018, b"\x2c\x01\x01"), (0x2020, b"\0.rodata\0.text\0.data\0.shstrtab\0")],
        sections: &[[1, 1, 2, 0x10120, 0x120, 16, 4], [9, 1, 6, 0x11000, 0x1000, 4, 4], [15, 1, 3, 0x12000, 0x2000, 32, 8], [21, 3, 0, 0, 0x2020, 31, 1]]); store: Store::Merged),
    link!("-s", "apart.o" => MANY_POOLS; store: Store::Merged),
    link!("-s", "four.o" => FOUR_ALONE; store: Store::Merged),
];
