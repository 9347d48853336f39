//! The objects of a link whose code loses bytes, and its executable, worked out by hand.

use super::blocks::Lengths;
use super::examples::{Example, LOWER, WHOLE};
use elf_bytes::{Image, Object, Section, Symbol, image, listed, object, reloc, section, symbol};

/// Kinds of relocations: a call of two instructions, the distance to an entry of the linker's table, an alignment, and leave to shorten.
const CALL_PLT: u64 = 19;

const BY_TABLE: u64 = 20;

const ALIGN: u64 = 43;

const RELAX: u64 = 51;

/// Calls `far`, jumps to it, and loads `odd` by the linker's table, with an alignment at a multiple of 16 between the parts of the load.
const TEXT: Section = section!(b".text", 1, 6, 8;
    b"\x97\0\0\0\xe7\x80\0\0\x17\x03\0\0\x67\0\x03\0\x17\x05\0\0\x13\0\0\0\x13\0\0\0\x13\0\0\0\x01\0\x03\x35\x05\0\x82\x80";
    relocs: &[reloc!(0, CALL_PLT, 4, 0), reloc!(0, RELAX, 0, 0), reloc!(8, CALL_PLT, 4, 0), reloc!(8, RELAX, 0, 0), reloc!(16, BY_TABLE, 5, 0),
        reloc!(20, ALIGN, 0, 14), reloc!(34, LOWER, 1, 0)]);

/// Strings, of which one is empty, and one is in both files.
const STRINGS: Section = section!(b".rodata.str1.1", 1, 0x32, 1; b"ab\0\0xyz\0"; entsize: 1);

/// The address of the second character of `xyz`, by the start of the strings, at an odd place.
const DATA: Section =
    section!(b".data", 1, 3, 8; b"a\0\0\0\0\0\0\0\0b"; relocs: &[reloc!(1, WHOLE, 2, 5)]);

/// The start of the strings.
const TEXTS: Symbol = symbol!(b"", 0, 3, 2, 0, 0);
/// Where the first part of the load stands.
const LOADED: Symbol = symbol!(b".L0", 0, 0, 1, 16, 0);
/// All 40 bytes of the code, of which 22 stay.
const BEGIN: Symbol = symbol!(b"_start", 1, 0, 1, 0, 40);
/// What another file has.
const FAR: Symbol = symbol!(b"far", 1, 0, 0, 0, 0);
/// The last byte of the data.
const ODD: Symbol = symbol!(b"odd", 1, 0, 3, 9, 1);

const FIRST: Object = object!(1; [TEXT, STRINGS, DATA]; [LOADED, TEXTS, BEGIN, FAR, ODD]);

/// What is called, at a multiple of 16; and the addresses of `q` and of the last character of `xyz`.
const SECOND: Object = object!(1; [
    section!(b".text", 1, 6, 16; b"\x01\0\x82\x80"), section!(STRINGS => bytes: b"xyz\0q\0"),
    section!(b".data", 1, 3, 32; b"c\0\0\0\0\0\0\0\0d\0\0\0\0\0\0\0\0e"; relocs: &[reloc!(1, WHOLE, 1, 0), reloc!(10, WHOLE, 2, 2)]),
]; [symbol!(b".L0", 0, 0, 2, 4, 0), TEXTS, symbol!(b"far", 1, 0, 1, 0, 4)]);

/// Code at 0x11000: `jal`, `c.j` to 0x11020; `auipc` for the entry at 0x12000, 0xffa from it; nops up to 0x11010; the load at 0x12006 - 6; a return.
const CODE_LEFT: &[u8] =
    b"\xef\0\0\x02\x31\xa8\x17\x15\0\0\x13\0\0\0\x01\0\x03\x35\xa5\xff\x82\x80";

/// The strings are at 0x10120, the linker's table at 0x12000, and the data of the two files at 0x12020 and 0x12040.
const IMAGE: Image = image!(; entry: 0x11000, flags: 1, table: 0x2100,
    segments: &[[1, 4, 0, 0x10000, 0x12a, 0x12a, 0x1000], [1, 5, 0x1000, 0x11000, 0x24, 0x24, 0x1000], [1, 6, 0x2000, 0x12000, 0x53, 0x53, 0x1000],
        [0x6474_e551, 6, 0, 0, 0, 0, 16]],
    contents: &[(0x120, b"ab\0\0xyz\0q\0"), (0x1000, CODE_LEFT), (0x1020, b"\x01\0\x82\x80"), (0x2000, b"\x29\x20\x01\0\0\0\0\0"),
        (0x2020, b"a\x25\x01\x01\0\0\0\0\0b"), (0x2040, b"c\x28\x01\x01\0\0\0\0\0d\x26\x01\x01\0\0\0\0\0e")],
    listed: listed!(0x2058, b"\0_start\0far\0odd\0", b"\0.rodata\0.text\0.got\0.data\0.symtab\0.strtab\0.shstrtab\0";
        [1, 0x10, 2, 0x11000, 22], [8, 0x10, 2, 0x11020, 4], [12, 0x10, 4, 0x12029, 1]),
    sections: &[[1, 1, 2, 0x10120, 0x120, 10, 1], [9, 1, 6, 0x11000, 0x1000, 0x24, 16], [15, 1, 3, 0x12000, 0x2000, 8, 8],
        [20, 1, 3, 0x12020, 0x2020, 0x33, 32], [26, 2, 0, 0, 0x2058, 96, 8], [34, 3, 0, 0, 0x20b8, 16, 1], [42, 3, 0, 0, 0x20c8, 52, 1]]);

/// A small executable whose calls are shortened, whose strings are merged, and that has a table, by all short blocks.
pub const SHORTENED: Example =
    example!(&[FIRST, SECOND]; 10 + 22 + 4 + 8 + 10 + 19, 1, 65; Some(&IMAGE));
