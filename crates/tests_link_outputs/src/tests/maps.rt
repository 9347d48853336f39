//! The map of a link (`--Map`): what stands where, what was folded, dropped and discarded, and the symbols.

use super::folded::ONE_PAIR;
use super::merged::{MANY_POOLS, POOL};
use super::symbols::SHORT_CALLS;
use elf_bytes::{Object, data, image, object, section, symbol};
use link_examples::images::{ASKED, COMMON_OF_8, FIRST, RETURN_ALONE, RETURN_AND_BREAK, STACK};
use link_examples::libraries::{Library, ONE_MEMBER};
use link_examples::lines::{FIRST_LINES, FIRST_LISTED};
use link_examples::objects::{ASKER, Input, RETURN, START};
use link_examples::{Files, Link, Store, inputs, library, link, member, objects_of};
use std::alloc::{AllocError, Global};

/// `n` of one `ret`.
const RETURNING: Object = object!([RETURN]; [symbol!(b"n", 1, 2, 1, 0, 4)]);

/// An archive and a member with spaces in their names.
const ODD_LIBRARY: Library = library!("l b.a"; member!(b"m n.o", RETURNING));

const INPUTS: &[Input] = inputs!(
    // One section of each class, not in order; empty ones; and one that has no bytes in its file but stands among those that have.
    "classes.o" => object!([
        section!(b".bss", 8, 3, 16; b""; size: 24), data!(b"dddddddd"), section!(b".data.none", 1, 3, 1; b""), section!(b".data.z", 1, 3, 1; b"zz"),
        section!(b".tbss", 8, 0x403, 8; b""; size: 16), section!(b".tdata", 1, 0x403, 4; b"tttt"), RETURN, section!(b".rodata", 1, 2, 4; b"rrrr"),
        section!(b".none", 1, 2, 4; b""), section!(b".rodata.n", 8, 2, 4; b""; size: 4),
    ]; [symbol!(b"_start", 1, 2, 7, 0, 4)]),
    // Sections whose names have a space, and nothing; symbols with other bytes in their names.
    "o d.o" => object!([
        RETURN, section!(b"sp ace", 1, 2, 1; b"ssss"), section!(b"", 1, 2, 1; b"e"),
    ]; [symbol!(b"~!", 1, 0, 0xfff1, 0xfedc_ba98_7654_3210, 0), START, symbol!(b"a b%\x7f\xff", 1, 1, 2, 0, 4)]),
    "m.o" => ASKER,
);

pub fn files(alloc: Global) -> Result<Files, AllocError> {
    objects_of(alloc, INPUTS)
}

/// What is written.
pub const WRITTEN: &[Link] = &[
    link!("--Map", "m", "a.o" => FIRST_LISTED; lines: FIRST_LINES),
    link!("-s", "--Map", "a.o", "a.o"; map: "a.o", lines: FIRST_LINES),
    link!("-s", "--Map=", "a.o"; map: "", lines: FIRST_LINES),
    // Zeros of each thread stand where the data after them do.
    link!("-s", "classes.o", "--Map=m" => image!(FIRST => table: 0x2048,
        segments: &[[1, 4, 0, 0x10000, 0x160, 0x160, 4096], [1, 5, 0x1000, 0x11000, 4, 4, 4096], [1, 6, 0x2000, 0x12000, 0x12, 0x38, 4096],
            [7, 4, 0x2000, 0x12000, 4, 0x18, 8], STACK],
        contents: &[(0x158, b"rrrr"), (0x1000, b"\x67\x80\0\0"), (0x2000, b"tttt"), (0x2008, b"ddddddddzz"),
            (0x2012, b"\0.rodata\0.text\0.tdata\0.tbss\0.data\0.bss\0.shstrtab\0")],
        sections: &[[1, 1, 2, 0x10158, 0x158, 8, 4], [9, 1, 6, 0x11000, 0x1000, 4, 4], [15, 1, 0x403, 0x12000, 0x2000, 4, 4],
            [22, 8, 0x403, 0x12008, 0x2008, 16, 8], [28, 1, 3, 0x12008, 0x2008, 10, 8], [34, 8, 3, 0x12020, 0x2020, 24, 16],
            [39, 3, 0, 0, 0x2012, 49, 1]]); store: Store::Maps, lines: &["rvld map 1", "entry 0000000000011000",
        "section 0000000000010158 0000000000000008 .rodata", "input 0000000000010158 0000000000000004 classes.o 8 .rodata",
        "input 000000000001015c 0000000000000004 classes.o 10 .rodata.n",
        "section 0000000000011000 0000000000000004 .text", "input 0000000000011000 0000000000000004 classes.o 7 .text",
        "section 0000000000012000 0000000000000004 .tdata", "input 0000000000012000 0000000000000004 classes.o 6 .tdata",
        "section 0000000000012008 0000000000000010 .tbss", "input 0000000000012008 0000000000000010 classes.o 5 .tbss",
        "section 0000000000012008 000000000000000a .data", "input 0000000000012008 0000000000000008 classes.o 2 .data",
        "input 0000000000012010 0000000000000000 classes.o 3 .data.none", "input 0000000000012010 0000000000000002 classes.o 4 .data.z",
        "section 0000000000012020 0000000000000018 .bss", "input 0000000000012020 0000000000000018 classes.o 1 .bss",
        "symbol 0000000000011000 _start"]),
    link!("-s", "--Map", "m", "a.o", "c8.o", "weak.o" => COMMON_OF_8; lines: &["rvld map 1", "entry 0000000000011000",
        "section 0000000000011000 000000000000000c .text", "input 0000000000011000 0000000000000008 a.o 1 .text",
        "input 0000000000011008 0000000000000004 weak.o 1 .text",
        "section 0000000000012000 0000000000000008 .bss", "input 0000000000012000 0000000000000008 c8.o 4 COMMON",
        "symbol 0000000000011000 _start", "symbol 0000000000011004 f", "symbol 0000000000012000 x"]),
];

/// What is folded, dropped and discarded; of a member that takes no part nothing is.
pub const LEFT_OUT: &[Link] = &[
    link!("-s", "--Map", "m", "t.o", "u.o" => RETURN_AND_BREAK; store: Store::Groups, lines: &["rvld map 1", "entry 0000000000011000",
        "section 0000000000011000 0000000000000008 .text", "input 0000000000011000 0000000000000004 t.o 1 .text",
        "input 0000000000011004 0000000000000004 t.o 3 .text.c",
        "discarded u.o 2 .text.c",
        "symbol 0000000000011000 _start", "symbol 0000000000011004 c"]),
    link!("-s", "--gc-sections", "--Map", "m", "t.o", "u.o", "v.o" => RETURN_ALONE; store: Store::Groups, lines: &[
        "rvld map 1", "entry 0000000000011000",
        "section 0000000000011000 0000000000000004 .text", "input 0000000000011000 0000000000000004 t.o 1 .text",
        "dropped t.o 3 .text.c", "dropped v.o 1 .text", "discarded u.o 2 .text.c",
        "symbol 0000000000011000 _start",
    ]),
    link!("-s", "--gc-sections", "--Map", "m", "a.o", "c.o"; store: Store::Collected, lines: &["rvld map 1", "entry 0000000000011000",
        "section 0000000000011000 0000000000000008 .text", "input 0000000000011000 0000000000000008 a.o 1 .text",
        "dropped c.o 4 COMMON",
        "symbol 0000000000011000 _start", "symbol 0000000000011004 f"]),
    link!("-s", "--gc-sections", "--Map", "m", "a.o", "lib.a"; libraries: &[ONE_MEMBER], lines: FIRST_LINES),
    link!("-s", "--icf", "all", "--Map", "m", "pairs.o" => ONE_PAIR; store: Store::Folded, lines: &["rvld map 1", "entry 0000000000011000",
        "section 0000000000011000 0000000000000014 .text", "input 0000000000011000 0000000000000004 pairs.o 1 .text",
        "input 0000000000011004 0000000000000008 pairs.o 2 .text.f1", "input 000000000001100c 0000000000000008 pairs.o 3 .text.g1",
        "folded 0000000000011004 pairs.o 4 .text.f2", "folded 000000000001100c pairs.o 5 .text.g2",
        "symbol 0000000000011000 _start", "symbol 0000000000011004 f1", "symbol 0000000000011004 f2", "symbol 000000000001100c g1",
        "symbol 000000000001100c g2"]),
    link!("--gc-sections", "--icf", "all", "--Map", "m", "calls.o" => SHORT_CALLS; store: Store::Symbols, lines: &[
        "rvld map 1", "entry 0000000000011000",
        "section 0000000000011000 0000000000000010 .text", "input 0000000000011000 000000000000000c calls.o 1 .text",
        "input 000000000001100c 0000000000000004 calls.o 2 .text.f",
        "folded 000000000001100c calls.o 3 .text.g",
        "dropped calls.o 4 .text.idle",
        "symbol 0000000000011000 _start", "symbol 000000000001100c f", "symbol 000000000001100c g", "symbol 0000000000011004 in",
        "symbol 000000000001100c last", "symbol 0000000000011004 mid",
    ]),
];

/// Pools.
pub const POOLS: &[Link] = &[
    link!("-s", "--Map", "m", "said.o", "again.o" => POOL; store: Store::Merged, lines: &["rvld map 1", "entry 0000000000011000",
        "section 0000000000010120 0000000000000014 .rodata", "pool 0000000000010120 0000000000000014",
        "section 0000000000011000 0000000000000004 .text", "input 0000000000011000 0000000000000004 said.o 1 .text",
        "section 0000000000012000 0000000000000008 .data", "input 0000000000012000 0000000000000008 said.o 3 .data",
        "symbol 0000000000011000 _start"]),
    link!("-s", "--Map", "m", "apart.o" => MANY_POOLS; store: Store::Merged, lines: &["rvld map 1", "entry 0000000000011000",
        "section 0000000000010120 0000000000000013 .rodata", "pool 0000000000010120 0000000000000002", "pool 0000000000010122 0000000000000002",
        "pool 0000000000010124 0000000000000002", "input 0000000000010126 0000000000000001 apart.o 9 .rodata.h",
        "input 0000000000010127 0000000000000002 apart.o 10 .rodata.i", "input 0000000000010129 0000000000000002 apart.o 11 .rodata.j",
        "input 000000000001012b 0000000000000003 apart.o 12 .rodata.k", "input 000000000001012e 0000000000000002 apart.o 13 .rodata.l",
        "input 0000000000010130 0000000000000003 apart.o 14 .rodata.m",
        "section 0000000000010133 0000000000000002 .srodata", "pool 0000000000010133 0000000000000002",
        "section 0000000000011000 0000000000000004 .text", "input 0000000000011000 0000000000000004 apart.o 1 .text",
        "section 0000000000012000 0000000000000002 .rodata", "input 0000000000012000 0000000000000002 apart.o 8 .rodata.g",
        "symbol 0000000000011000 _start"]),
];

/// Names of files, members, sections and symbols.
pub const NAMES: &[Link] = &[
    link!("-s", "--Map", "m", "m.o", "lib.a" => ASKED; libraries: &[ONE_MEMBER], lines: &["rvld map 1", "entry 0000000000011000",
        "section 0000000000011000 000000000000000c .text", "input 0000000000011000 0000000000000008 m.o 1 .text",
        "input 0000000000011008 0000000000000004 lib.a(one.o) 1 .text",
        "symbol 0000000000011000 _start", "symbol 0000000000011008 n"]),
    link!("-s", "--Map", "m", "m.o", "l b.a" => ASKED; store: Store::Maps, libraries: &[ODD_LIBRARY], lines: &["rvld map 1", "entry 0000000000011000",
        "section 0000000000011000 000000000000000c .text", "input 0000000000011000 0000000000000008 m.o 1 .text",
        "input 0000000000011008 0000000000000004 l%20b.a(m%20n.o) 1 .text",
        "symbol 0000000000011000 _start", "symbol 0000000000011008 n"]),
    link!("-s", "--Map", "m", "o d.o" =>
        image!(FIRST =>
            segments: &[[1, 4, 0, 0x10000, 0xed, 0xed, 4096], [1, 5, 0x1000, 0x11000, 4, 4, 4096], STACK],
            contents: &[(0xe8, b"sssse"), (0x1000, b"\x67\x80\0\0"), (0x1004, b"\0sp ace\0\0.text\0.shstrtab\0")],
            sections: &[[1, 1, 2, 0x100e8, 0xe8, 4, 1], [8, 1, 2, 0x100ec, 0xec, 1, 1], [9, 1, 6, 0x11000, 0x1000, 4, 4], [15, 3, 0, 0, 0x1004, 25, 1]]);
        store: Store::Maps,
        lines: &["rvld map 1", "entry 0000000000011000",
            "section 00000000000100e8 0000000000000004 sp%20ace", "input 00000000000100e8 0000000000000004 o%20d.o 2 sp%20ace",
            "section 00000000000100ec 0000000000000001 ", "input 00000000000100ec 0000000000000001 o%20d.o 3 ",
            "section 0000000000011000 0000000000000004 .text", "input 0000000000011000 0000000000000004 o%20d.o 1 .text",
            "symbol 0000000000011000 _start", "symbol 00000000000100e8 a%20b%25%7F%FF", "symbol fedcba9876543210 ~!"]),
];
