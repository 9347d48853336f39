//! What links leave that write a symbol table and a map.

use crate::images::{FIRST, READ, STACK};
use elf_bytes::{Image, image, listed};

/// The names of the sections of one with a symbol table.
pub const NAMES_LISTED: &[u8] = b"\0.text\0.symtab\0.strtab\0.shstrtab\0";

/// A jump to the function after it, and both symbols.
pub const FIRST_LISTED: Image = image!(FIRST => table: 0x1080,
    contents: &[(0x1000, b"\xef\0\x40\0\x67\x80\0\0")],
    listed: listed!(0x1008, b"\0_start\0f\0", NAMES_LISTED; [1, 0x12, 1, 0x11000, 4], [8, 0x12, 1, 0x11004, 4]),
    sections: &[[1, 1, 6, 0x11000, 0x1000, 8, 4], [7, 2, 0, 0, 0x1008, 72, 8], [15, 3, 0, 0, 0x1050, 10, 1], [23, 3, 0, 0, 0x105a, 33, 1]]);

/// A jump to the function after it and a `ret` of another file, and all symbols.
pub const TWO_FILES_LISTED: Image = image!(FIRST => table: 0x10a0,
    segments: &[READ, [1, 5, 0x1000, 0x11000, 12, 12, 4096], STACK],
    contents: &[(0x1000, b"\xef\0\x40\0\x67\x80\0\0\x67\x80\0\0")],
    listed: listed!(0x1010, b"\0_start\0f\0h\0", NAMES_LISTED; [1, 0x12, 1, 0x11000, 4], [8, 0x12, 1, 0x11004, 4], [10, 0x12, 1, 0x11008, 4]),
    sections: &[[1, 1, 6, 0x11000, 0x1000, 12, 4], [7, 2, 0, 0, 0x1010, 96, 8], [15, 3, 0, 0, 0x1070, 12, 1], [23, 3, 0, 0, 0x107c, 33, 1]]);

/// The map of a jump to the function after it.
pub const FIRST_LINES: &[&str] = &[
    "rvld map 1",
    "entry 0000000000011000",
    "section 0000000000011000 0000000000000008 .text",
    "input 0000000000011000 0000000000000008 a.o 1 .text",
    "symbol 0000000000011000 _start",
    "symbol 0000000000011004 f",
];

/// The map of a jump to the function after it and a `ret` of another file.
pub const TWO_FILES_LINES: &[&str] = &[
    "rvld map 1",
    "entry 0000000000011000",
    "section 0000000000011000 000000000000000c .text",
    "input 0000000000011000 0000000000000008 a.o 1 .text",
    "input 0000000000011008 0000000000000004 h.o 1 .text",
    "symbol 0000000000011000 _start",
    "symbol 0000000000011004 f",
    "symbol 0000000000011008 h",
];
