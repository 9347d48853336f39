//! The executables of the examples, worked out by hand.

use crate::{code, code_and_data};
pub use elf_bytes::Image;
use elf_bytes::image;

pub const STACK: [u64; 7] = [0x6474_e551, 6, 0, 0, 0, 0, 16];
/// The headers of an executable of three program headers, and of one of four.
pub const READ: [u64; 7] = [1, 4, 0, 0x10000, 232, 232, 4096];

pub const READ_OF_FOUR: [u64; 7] = [1, 4, 0, 0x10000, 288, 288, 4096];

pub const NAMES: &[u8] = b"\0.text\0.shstrtab\0";

pub const NAMES_WITH_BSS: &[u8] = b"\0.text\0.bss\0.shstrtab\0";

pub const NAMES_WITH_DATA: &[u8] = b"\0.text\0.data\0.shstrtab\0";

/// A jump to the function after it.
pub const FIRST: Image = Image {
    entry: 0x11000,
    flags: 0,
    segments: &[READ, [1, 5, 0x1000, 0x11000, 8, 8, 4096], STACK],
    contents: &[(0x1000, b"\xef\0\x40\0\x67\x80\0\0"), (0x1008, NAMES)],
    listed: None,
    table: 0x1020,
    sections: &[
        [1, 1, 6, 0x11000, 0x1000, 8, 4],
        [7, 3, 0, 0, 0x1008, 17, 1],
    ],
};

/// A call of what is not defined goes to 0.
pub const WEAK_CALL: Image = code!(8 => 0x1020; b"\x97\xf0\xfe\xff\xe7\x80\0\0");
/// The first with a `ret` of another file after it.
pub const TWO_FILES: Image = code!(12 => 0x1020; b"\xef\0\x40\0\x67\x80\0\0\x67\x80\0\0");

/// The first with two of them.
pub const THREE_FILES: Image =
    code!(16 => 0x1028; b"\xef\0\x40\0\x67\x80\0\0\x67\x80\0\0\x67\x80\0\0");

/// Two files, and a common of 8 bytes.
pub const COMMON_OF_8: Image = image!(FIRST => table: 0x1028,
    segments: &[READ_OF_FOUR, [1, 5, 0x1000, 0x11000, 12, 12, 4096], [1, 6, 0x2000, 0x12000, 0, 8, 4096], STACK],
    contents: &[(0x1000, b"\xef\0\x40\0\x67\x80\0\0\x67\x80\0\0"), (0x100c, NAMES_WITH_BSS)],
    sections: &[[1, 1, 6, 0x11000, 0x1000, 12, 4], [7, 8, 3, 0x12000, 0x2000, 8, 8], [12, 3, 0, 0, 0x100c, 22, 1]]);

/// A common of 16 bytes, alignment 8.
pub const COMMON_OF_16: Image = image!(FIRST =>
    segments: &[READ_OF_FOUR, [1, 5, 0x1000, 0x11000, 8, 8, 4096], [1, 6, 0x2000, 0x12000, 0, 16, 4096], STACK],
    contents: &[(0x1000, b"\xef\0\x40\0\x67\x80\0\0"), (0x1008, NAMES_WITH_BSS)],
    sections: &[[1, 1, 6, 0x11000, 0x1000, 8, 4], [7, 8, 3, 0x12000, 0x2000, 16, 8], [12, 3, 0, 0, 0x1008, 22, 1]]);

/// A common of 16 bytes, alignment 16.
pub const WIDE_COMMON: Image = image!(COMMON_OF_16 =>
    sections: &[[1, 1, 6, 0x11000, 0x1000, 8, 4], [7, 8, 3, 0x12000, 0x2000, 16, 16], [12, 3, 0, 0, 0x1008, 22, 1]]);

/// The address 0x12800 less 0x11000 in two halves, and a word of a name that is not defined.
pub const HALVES: Image =
    code_and_data!(8, 8 => 0x2020; b"\x17\x25\0\0\x13\x05\x05\x80"; b"\x07\0\0\0\0\0\0\0");

/// A jump to a `ret` of another file.
pub const ASKED: Image = code!(12 => 0x1020; b"\xef\0\x80\0\x67\x80\0\0\x67\x80\0\0");
/// A jump to an `ebreak` of another file.
pub const ASKED_BREAK: Image = code!(12 => 0x1020; b"\xef\0\x80\0\x67\x80\0\0\x73\0\x10\0");

/// A jump back to a `ret` of a file before.
pub const ASKED_BEFORE: Image =
    code!(12 => 0x1020; b"\x67\x80\0\0\xef\xf0\xdf\xff\x67\x80\0\0"; entry: 0x11004);

/// A jump to a file after another, and from there a jump back to that.
pub const ASKED_TWICE: Image =
    code!(20 => 0x1028; b"\xef\0\xc0\0\x67\x80\0\0\x67\x80\0\0\xef\xf0\xdf\xff\x67\x80\0\0");

/// The first, and a common of 8 bytes.
pub const ASKED_COMMON: Image = image!(COMMON_OF_16 =>
    segments: &[READ_OF_FOUR, [1, 5, 0x1000, 0x11000, 8, 8, 4096], [1, 6, 0x2000, 0x12000, 0, 8, 4096], STACK],
    sections: &[[1, 1, 6, 0x11000, 0x1000, 8, 4], [7, 8, 3, 0x12000, 0x2000, 8, 8], [12, 3, 0, 0, 0x1008, 22, 1]]);

/// A jump to the second of two copies of one function.
pub const BOTH_COPIES: Image =
    code!(16 => 0x1028; b"\xef\0\xc0\0\x67\x80\0\0\x67\x80\0\0\x73\0\x10\0");

/// Two functions.
pub const RETURN_AND_BREAK: Image = code!(8 => 0x1020; b"\x67\x80\0\0\x73\0\x10\0");

/// Jumps to the first copy, which is a file's, and to a member's function.
pub const BOTH_ASKED: Image =
    code!(20 => 0x1028; b"\xef\0\xc0\0\xef\0\xc0\0\x67\x80\0\0\x73\0\x10\0\x67\x80\0\0");

/// Jumps to the first copy, which is a member's, and to another function of this member.
pub const BOTH_BEFORE: Image =
    code!(20 => 0x1028; b"\x67\x80\0\0\x67\x80\0\0\xef\xf0\xdf\xff\xef\xf0\x5f\xff\x67\x80\0\0"; entry: 0x11008);

/// Two functions, and a word of a name without a definition.
pub const WEAK_WORD: Image = code!(16 => 0x1028; b"\x67\x80\0\0\x73\0\x10\0\0\0\0\0\0\0\0\0");
/// One `ret`.
pub const RETURN_ALONE: Image = code!(4 => 0x1018; b"\x67\x80\0\0");
/// A `ret`, and two functions that jump to each other.
pub const KEPT_RING: Image = code!(12 => 0x1020; b"\x67\x80\0\0\xef\0\x40\0\xef\xf0\xdf\xff");
/// The two alone; the first of them is the entry.
pub const RING_ALONE: Image = code!(8 => 0x1020; b"\xef\0\x40\0\xef\xf0\xdf\xff");

/// A `ret` between the code that runs before and after it.
pub const FRAMED: Image = image!(FIRST => entry: 0x11004, table: 0x1030,
    segments: &[READ, [1, 5, 4096, 0x11000, 12, 12, 4096], STACK],
    contents: &[(0x1000, b"\x73\0\x10\0"), (0x1004, b"\x67\x80\0\0"), (0x1008, b"\x73\0\x10\0"), (0x100c, b"\0.init\0.text\0.fini\0.shstrtab\0")],
    sections: &[[1, 1, 6, 0x11000, 4096, 4, 4], [7, 1, 6, 0x11004, 0x1004, 4, 4], [13, 1, 6, 0x11008, 0x1008, 4, 4], [19, 3, 0, 0, 0x100c, 29, 1]]);

/// A note, and a `ret`.
pub const KEPT_NOTE: Image = image!(FIRST => table: 0x1020,
    segments: &[[1, 4, 0, 0x10000, 236, 236, 4096], [1, 5, 4096, 0x11000, 4, 4, 4096], STACK],
    contents: &[(0xe8, b"note"), (0x1000, b"\x67\x80\0\0"), (0x1004, b"\0.note.a\0.text\0.shstrtab\0")],
    sections: &[[1, 7, 2, 0x100e8, 232, 4, 4], [9, 1, 6, 0x11000, 4096, 4, 4], [15, 3, 0, 0, 0x1004, 25, 1]]);

/// A `ret`, and an array of each type.
pub const ARRAYS_ALONE: Image = image!(FIRST => table: 0x2060,
    segments: &[READ_OF_FOUR, [1, 5, 4096, 0x11000, 4, 4, 4096], [1, 6, 0x2000, 0x12000, 32, 32, 4096], STACK],
    contents: &[(0x1000, b"\x67\x80\0\0"), (0x2000, b"pppppppp"), (0x2008, b"iiiiiiii"), (0x2010, b"ffffffff"), (0x2018, b"dddddddd"),
        (0x2020, b"\0.text\0.preinit_array\0.init_array\0.fini_array\0.data\0.shstrtab\0")],
    sections: &[[1, 1, 6, 0x11000, 4096, 4, 4], [7, 16, 3, 0x12000, 0x2000, 8, 8], [22, 14, 3, 0x12008, 0x2008, 8, 8],
        [34, 15, 3, 0x12010, 0x2010, 8, 8], [46, 15, 3, 0x12018, 0x2018, 8, 8], [52, 3, 0, 0, 0x2020, 62, 1]]);

/// A jump to the function after it, and another.
pub const KEPT_TOGETHER: Image = code!(12 => 0x1020; b"\xef\0\x40\0\x67\x80\0\0\x73\0\x10\0");

/// A jump to the first of four.
pub const KEPT_FOUR: Image =
    code!(20 => 0x1028; b"\xef\0\x40\0\x67\x80\0\0\x73\0\x10\0\x73\0\x10\0\x67\x80\0\0");

/// What goes with a `ret`, and what was told to stay.
pub const ORDERED: Image = image!(FIRST => table: 0x1020,
    segments: &[[1, 4, 0, 0x10000, 240, 240, 4096], [1, 5, 4096, 0x11000, 4, 4, 4096], STACK],
    contents: &[(0xe8, b"AAAADDDD"), (0x1000, b"\x67\x80\0\0"), (0x1004, b"\0.order\0.text\0.shstrtab\0")],
    sections: &[[1, 1, 2, 0x100e8, 232, 8, 4], [8, 1, 6, 0x11000, 4096, 4, 4], [14, 3, 0, 0, 0x1004, 24, 1]]);

/// All four sections of that name.
pub const ALL_ORDERED: Image = image!(FIRST => table: 0x1020,
    segments: &[[1, 4, 0, 0x10000, 248, 248, 4096], [1, 5, 4096, 0x11000, 8, 8, 4096], STACK],
    contents: &[(0xe8, b"AAAABBBBCCCCDDDD"), (0x1000, b"\x67\x80\0\0\x73\0\x10\0"), (0x1008, b"\0.order\0.text\0.shstrtab\0")],
    sections: &[[1, 1, 2, 0x100e8, 232, 16, 4], [8, 1, 6, 0x11000, 4096, 8, 4], [14, 3, 0, 0, 0x1008, 24, 1]]);

/// A word of the first of two such sections.
pub const KEPT_ORDER: Image = image!(FIRST => table: 0x1020,
    segments: &[[1, 4, 0, 0x10000, 240, 240, 4096], [1, 5, 4096, 0x11000, 8, 8, 4096], STACK],
    contents: &[(0xe8, b"AAAABBBB"), (0x1000, b"\xe8\0\x01\0\0\0\0\0"), (0x1008, b"\0.order\0.text\0.shstrtab\0")],
    sections: &[[1, 1, 2, 0x100e8, 232, 8, 4], [8, 1, 6, 0x11000, 4096, 8, 4], [14, 3, 0, 0, 0x1008, 24, 1]]);

/// A word of a common.
pub const ASKED_WORD: Image = image!(FIRST => table: 0x1020,
    segments: &[READ_OF_FOUR, [1, 5, 4096, 0x11000, 8, 8, 4096], [1, 6, 0x2000, 0x12000, 0, 8, 4096], STACK],
    contents: &[(0x1000, b"\0\x20\x01\0\0\0\0\0"), (0x1008, b"\0.text\0.bss\0.shstrtab\0")],
    sections: &[[1, 1, 6, 0x11000, 4096, 8, 4], [7, 8, 3, 0x12000, 0x2000, 8, 8], [12, 3, 0, 0, 0x1008, 22, 1]]);

/// A note before read-only data; another stands second in a section that begins with data.
pub const ONE_NOTE: Image = image!(FIRST => table: 0x1030,
    segments: &[[1, 4, 0, 0x10000, 248, 248, 4096], [1, 5, 4096, 0x11000, 4, 4, 4096], STACK],
    contents: &[(0xe8, b"note"), (0xec, b"data"), (0xf0, b"own late"), (0x1000, b"\x67\x80\0\0"), (0x1004, b"\0.note.a\0.rodata\0.own\0.text\0.shstrtab\0")],
    sections: &[[1, 7, 2, 0x100e8, 232, 4, 4], [9, 1, 2, 0x100ec, 236, 4, 4], [17, 1, 2, 0x100f0, 240, 8, 4], [22, 1, 6, 0x11000, 4096, 4, 4],
        [28, 3, 0, 0, 0x1004, 38, 1]]);

/// A second note after the first, and a third in read-only data.
pub const TWO_NOTES: Image = image!(FIRST => table: 0x1038,
    segments: &[[1, 4, 0, 0x10000, 264, 264, 4096], [1, 5, 4096, 0x11000, 4, 4, 4096], STACK],
    contents: &[(0xe8, b"note"), (0xf0, b"NOTE"), (0xf4, b"datanoted"), (0x100, b"own late"), (0x1000, b"\x67\x80\0\0"),
        (0x1004, b"\0.note.a\0.note.b\0.rodata\0.own\0.text\0.shstrtab\0")],
    sections: &[[1, 7, 2, 0x100e8, 232, 4, 4], [9, 7, 2, 0x100f0, 240, 4, 8], [17, 1, 2, 0x100f4, 244, 9, 4], [25, 1, 2, 0x10100, 256, 8, 4],
        [30, 1, 6, 0x11000, 4096, 4, 4], [36, 3, 0, 0, 0x1004, 46, 1]]);

/// Read-only data that begins with a note, and two more notes.
pub const NOTES_AND_DATA: Image = image!(FIRST => table: 0x1038,
    segments: &[[1, 4, 0, 0x10000, 264, 264, 4096], [1, 5, 4096, 0x11000, 4, 4, 4096], STACK],
    contents: &[(0xe8, b"noted\0\0\0data"), (0xf8, b"NOTE"), (0xfc, b"note"), (0x100, b"own late"), (0x1000, b"\x67\x80\0\0"),
        (0x1004, b"\0.rodata\0.note.b\0.note.a\0.own\0.text\0.shstrtab\0")],
    sections: &[[1, 7, 2, 0x100e8, 232, 12, 4], [9, 7, 2, 0x100f8, 248, 4, 8], [17, 7, 2, 0x100fc, 252, 4, 4], [25, 1, 2, 0x10100, 256, 8, 4],
        [30, 1, 6, 0x11000, 4096, 4, 4], [36, 3, 0, 0, 0x1004, 46, 1]]);

/// Arrays in order of their numbers.
pub const NUMBERED: Image = image!(FIRST => table: 0x2070,
    segments: &[READ_OF_FOUR, [1, 5, 4096, 0x11000, 4, 4, 4096], [1, 6, 0x2000, 0x12000, 56, 56, 4096], STACK],
    contents: &[(0x1000, b"\x67\x80\0\0"), (0x2000, b"00000000"), (0x2008, b"aaaaaaaabbbbbbbbccccccccdddddddd"), (0x2028, b"ffffffffgggggggg"),
        (0x2038, b"\0.text\0.preinit_array\0.init_array\0.fini_array\0.shstrtab\0")],
    sections: &[[1, 1, 6, 0x11000, 4096, 4, 4], [7, 16, 3, 0x12000, 0x2000, 8, 8], [22, 14, 3, 0x12008, 0x2008, 32, 8],
        [34, 15, 3, 0x12028, 0x2028, 16, 8], [46, 3, 0, 0, 0x2038, 56, 1]]);

/// Arrays of two files in order of their numbers.
pub const NUMBERED_OF_TWO: Image = image!(FIRST => table: 0x20a0,
    segments: &[READ_OF_FOUR, [1, 5, 4096, 0x11000, 4, 4, 4096], [1, 6, 0x2000, 0x12000, 88, 88, 4096], STACK],
    contents: &[(0x1000, b"\x67\x80\0\0"), (0x2000, b"00000000"), (0x2008, b"AAAAAAAAaaaaaaaabbbbbbbbBBBBBBBBccccccccddddddddeeeeeeee"),
        (0x2040, b"ffffffffgggggggg"), (0x2050, b"????????"),
        (0x2058, b"\0.text\0.preinit_array\0.init_array\0.fini_array\0.init_array.\0.shstrtab\0")],
    sections: &[[1, 1, 6, 0x11000, 4096, 4, 4], [7, 16, 3, 0x12000, 0x2000, 8, 8], [22, 14, 3, 0x12008, 0x2008, 56, 8],
        [34, 15, 3, 0x12040, 0x2040, 16, 8], [46, 14, 3, 0x12050, 0x2050, 8, 8], [59, 3, 0, 0, 0x2058, 69, 1]]);

/// An array that is read-only.
pub const READ_ONLY_ARRAY: Image = image!(FIRST => table: 0x1028,
    segments: &[[1, 4, 0, 0x10000, 240, 240, 4096], [1, 5, 4096, 0x11000, 4, 4, 4096], STACK],
    contents: &[(0xe8, b"rrrrrrrr"), (0x1000, b"\x67\x80\0\0"), (0x1004, b"\0.init_array\0.text\0.shstrtab\0")],
    sections: &[[1, 14, 2, 0x100e8, 232, 8, 8], [13, 1, 6, 0x11000, 4096, 4, 4], [19, 3, 0, 0, 0x1004, 29, 1]]);

/// A jump to a function, after zero bytes that fill more than a block.
pub const TWO_BLOCKS: Image = image!(FIRST => entry: 0x22000, table: 0x12028,
    segments: &[[1, 4, 0, 0x10000, 0x110e8, 0x110e8, 4096], [1, 5, 0x12000, 0x22000, 12, 12, 4096], STACK],
    contents: &[(0x12000, b"\xef\0\x80\0\x67\x80\0\0\x67\x80\0\0"), (0x1200c, b"\0.rodata\0.text\0.shstrtab\0")],
    sections: &[[1, 1, 2, 0x100e8, 232, 0x11000, 8], [9, 1, 6, 0x22000, 0x12000, 12, 4], [15, 3, 0, 0, 0x1200c, 25, 1]]);

/// A pool of three constants.
pub const FOUR_ALONE: Image = image!(FIRST => table: 0x1020,
    segments: &[[1, 4, 0, 0x10000, 0xf4, 0xf4, 4096], [1, 5, 0x1000, 0x11000, 4, 4, 4096], STACK],
    contents: &[(0xe8, b"\x01\0\0\0\x02\0\0\0\x03"), (0x1000, b"\x67\x80\0\0"), (0x1004, b"\0.rodata\0.text\0.shstrtab\0")],
    sections: &[[1, 1, 2, 0x100e8, 0xe8, 12, 4], [9, 1, 6, 0x11000, 0x1000, 4, 4], [15, 3, 0, 0, 0x1004, 25, 1]]);
