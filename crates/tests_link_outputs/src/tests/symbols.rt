//! The symbol table of an executable (System V gABI, "Symbol Table"): which symbols have an entry, in which order, and what each says.

use elf_bytes::{
    Image, Object, Section, data, image, listed, object, reloc, section, symbol, text,
};
use link_examples::images::{FIRST, READ, READ_OF_FOUR, STACK};
use link_examples::libraries::Library;
use link_examples::lines::{FIRST_LISTED, NAMES_LISTED};
use link_examples::objects::{A, BREAK, Input, OWN_END, RETURN, START, WEAKLY, WORD_OF_END};
use link_examples::{Files, Link, Store, inputs, library, link, member, objects_of};
use std::alloc::{AllocError, Global};

const DATA: Section = data!(b"dddddddd");

/// What asks for a symbol of the linker's, and what nothing asks for.
const ASKER: Object =
    object!([RETURN]; [symbol!(b"_edata", 1, 0, 0, 0, 0), symbol!(b"idle", 1, 2, 1, 0, 4)]);

/// A member that asks for a symbol of the linker's, and takes no part.
const IDLE_MEMBER: Library = library!("lib.a"; member!(b"idle.o", ASKER));

const INPUTS: &[Input] = inputs!(
    "a.o" => A,
    // Symbols of each binding and type, in each place: code, data, data of each thread, a section that is not written, one that is empty, and
    // none; one that says to be larger than its section, and names that the file does not define.
    "kinds.o" => object!([RETURN, DATA, section!(b".tdata", 1, 0x403, 4; b"tttttttt"), section!(b".notes", 1, 0, 4; b"nnnn"),
        section!(b".empty", 1, 3, 32; b"")]; [symbol!(b"local", 0, 2, 1, 0, 4), symbol!(b"weak", 2, 2, 1, 0, 4), START,
            symbol!(b"unique", 10, 1, 2, 0, 8), symbol!(b"thread", 1, 6, 3, 4, 4), symbol!(b"tabs", 1, 6, 0xfff1, 16, 0),
            symbol!(b"room", 1, 5, 2, 0, 4), symbol!(b"note", 1, 0, 4, 3, 2), symbol!(b"cover", 1, 1, 2, 4, 100), symbol!(b"blank", 1, 1, 5, 0, 0),
            symbol!(b"abs", 1, 0, 0xfff1, 0x1234, 7), symbol!(b"ab", 1, 0, 1, 4, 0), symbol!(b"_end", 1, 0, 0, 0, 0),
            symbol!(b"_end", 2, 0, 0, 0, 0), symbol!(b"__bss_start", 2, 0, 0, 0, 0), WEAKLY]),
    // Calls of `f` and of `g`, which are alike; places within the calls, and after the code; and what nothing calls.
    "calls.o" => object!([
        text!(b"\x97\0\0\0\xe7\x80\0\0\x97\0\0\0\xe7\x80\0\0\x67\x80\0\0"; reloc!(0, 19, 4, 0), reloc!(0, 51, 0, 0), reloc!(8, 18, 5, 0), reloc!(8, 51, 0, 0)),
        section!(RETURN => name: b".text.f"), section!(RETURN => name: b".text.g"),
        section!(BREAK => name: b".text.idle")]; [ symbol!(b"mid", 1, 0, 1, 8, 12), symbol!(b"in", 1, 0, 1, 6, 4), symbol!(b"last", 1, 0, 1, 20, 0),
        symbol!(b"f", 1, 2, 2, 0, 4), symbol!(b"g", 1, 2, 3, 0, 4), symbol!(b"idle", 1, 2, 4, 0, 4), symbol!(b"_start", 1, 2, 1, 0, 20)]),
    // Strings, of which the last is the first once more, and symbols of the two and of the end.
    "strings.o" => object!([
        RETURN, section!(b".rodata.str1.1", 1, 0x32, 1; b"ab\0c\0ab\0"; entsize: 1),
    ]; [symbol!(b"first", 1, 1, 2, 0, 3), symbol!(b"third", 1, 1, 2, 5, 3), symbol!(b"past", 1, 0, 2, 8, 0), START]),
    // COMMON symbols: one without a type, and a weak one of type COMMON.
    "commons.o" => object!([RETURN]; [symbol!(b"c", 1, 0, 0xfff2, 4, 4), symbol!(b"wc", 2, 5, 0xfff2, 8, 8), START]),
    // The first of them with another size and alignment.
    "larger.o" => object!([]; [symbol!(b"c", 1, 1, 0xfff2, 16, 6)]),
    "edata.o" => ASKER, "word.o" => WORD_OF_END, "end.o" => OWN_END,
);

pub fn files(alloc: Global) -> Result<Files, AllocError> {
    objects_of(alloc, INPUTS)
}

/// Both calls are shortened, and both call `f`.
pub const SHORT_CALLS: Image = image!(FIRST => table: 0x10f8,
    segments: &[READ, [1, 5, 0x1000, 0x11000, 16, 16, 4096], STACK],
    contents: &[(0x1000, b"\xef\0\xc0\0\xef\0\x80\0\x67\x80\0\0\x67\x80\0\0")],
    listed: listed!(0x1010, b"\0_start\0f\0g\0in\0last\0mid\0", NAMES_LISTED;
        [1, 0x12, 1, 0x11000, 12], [8, 0x12, 1, 0x1100c, 4], [10, 0x12, 1, 0x1100c, 4], [12, 0x10, 1, 0x11004, 2], [15, 0x10, 1, 0x1100c, 0],
        [20, 0x10, 1, 0x11004, 8]),
    sections: &[[1, 1, 6, 0x11000, 0x1000, 16, 4], [7, 2, 0, 0, 0x1010, 168, 8], [15, 3, 0, 0, 0x10b8, 24, 1], [23, 3, 0, 0, 0x10d0, 33, 1]]);

/// Each kind of symbol.
pub const LISTED: &[Link] = &[
    link!("a.o" => FIRST_LISTED),
    // Thread-local data begin at 0x12000, and the data after them end at 0x12010; what is empty would begin at 0x12020.
    link!("kinds.o" => image!(FIRST => table: 0x21e0,
        segments: &[[1, 4, 0, 0x10000, 344, 344, 4096], [1, 5, 0x1000, 0x11000, 4, 4, 4096], [1, 6, 0x2000, 0x12000, 16, 16, 4096],
            [7, 4, 0x2000, 0x12000, 8, 8, 4], STACK],
        contents: &[(0x1000, b"\x67\x80\0\0"), (0x2000, b"ttttttttdddddddd")],
        listed: listed!(0x2010, b"\0__bss_start\0_end\0_start\0ab\0abs\0blank\0cover\0note\0room\0tabs\0thread\0unique\0weak\0", b"\0.text\0.tdata\0.data\0.symtab\0.strtab\0.shstrtab\0";
            [1, 0x10, 0xfff1, 0x12010, 0], [13, 0x10, 0xfff1, 0x12010, 0], [18, 0x12, 1, 0x11000, 4], [25, 0x10, 1, 0x11004, 0], [28, 0x10, 0xfff1, 0x1234, 7],
            [32, 0x11, 0xfff1, 0x12020, 0], [38, 0x11, 3, 0x1200c, 4], [44, 0x10, 0xfff1, 3, 2], [49, 0x11, 3, 0x12008, 4],
            [54, 0x16, 0xfff1, 0xffff_ffff_fffe_e010, 0], [59, 0x16, 2, 4, 4], [66, 0x11, 3, 0x12008, 8], [73, 0x22, 1, 0x11000, 4]),
        sections: &[[1, 1, 6, 0x11000, 0x1000, 4, 4], [7, 1, 0x403, 0x12000, 0x2000, 8, 4], [14, 1, 3, 0x12008, 0x2008, 8, 8],
            [20, 2, 0, 0, 0x2010, 336, 8], [28, 3, 0, 0, 0x2160, 78, 1], [36, 3, 0, 0, 0x21ae, 46, 1]]); store: Store::Symbols),
    link!("--gc-sections", "--icf", "all", "calls.o" => SHORT_CALLS; store: Store::Symbols),
    // All of it as it is.
    link!("--no-relax", "calls.o" => image!(FIRST => table: 0x1120,
        segments: &[READ, [1, 5, 0x1000, 0x11000, 32, 32, 4096], STACK],
        contents: &[(0x1000, b"\x97\0\0\0\xe7\x80\x40\x01\x97\0\0\0\xe7\x80\0\x01\x67\x80\0\0"), (0x1014, b"\x67\x80\0\0\x67\x80\0\0\x73\0\x10\0")],
        listed: listed!(0x1020, b"\0_start\0f\0g\0idle\0in\0last\0mid\0", NAMES_LISTED;
            [1, 0x12, 1, 0x11000, 20], [8, 0x12, 1, 0x11014, 4], [10, 0x12, 1, 0x11018, 4], [12, 0x12, 1, 0x1101c, 4], [17, 0x10, 1, 0x11006, 4],
            [20, 0x10, 1, 0x11014, 0], [25, 0x10, 1, 0x11008, 12]),
        sections: &[[1, 1, 6, 0x11000, 0x1000, 32, 4], [7, 2, 0, 0, 0x1020, 192, 8], [15, 3, 0, 0, 0x10e0, 29, 1], [23, 3, 0, 0, 0x10fd, 33, 1]]); store: Store::Symbols),
    // A pool of two strings.
    link!("strings.o" => image!(FIRST => table: 0x10c8,
        segments: &[[1, 4, 0, 0x10000, 0xed, 0xed, 4096], [1, 5, 0x1000, 0x11000, 4, 4, 4096], STACK],
        contents: &[(0xe8, b"ab\0c"), (0x1000, b"\x67\x80\0\0")],
        listed: listed!(0x1008, b"\0_start\0first\0past\0third\0", b"\0.rodata\0.text\0.symtab\0.strtab\0.shstrtab\0";
            [1, 0x12, 2, 0x11000, 4], [8, 0x11, 1, 0x100e8, 3], [14, 0x10, 1, 0x100eb, 0], [19, 0x11, 1, 0x100e8, 3]),
        sections: &[[1, 1, 2, 0x100e8, 0xe8, 5, 1], [9, 1, 6, 0x11000, 0x1000, 4, 4], [15, 2, 0, 0, 0x1008, 120, 8], [23, 3, 0, 0, 0x1080, 25, 1],
            [31, 3, 0, 0, 0x1099, 41, 1]]); store: Store::Symbols),
    // Room for both.
    link!("commons.o", "larger.o" => image!(FIRST => table: 0x10a0,
        segments: &[READ_OF_FOUR, [1, 5, 0x1000, 0x11000, 4, 4, 4096], [1, 6, 0x2000, 0x12000, 0, 16, 4096], STACK],
        contents: &[(0x1000, b"\x67\x80\0\0")],
        listed: listed!(0x1008, b"\0_start\0c\0wc\0", b"\0.text\0.bss\0.symtab\0.strtab\0.shstrtab\0";
            [1, 0x12, 1, 0x11000, 4], [8, 0x11, 2, 0x12000, 6], [10, 0x11, 2, 0x12008, 8]),
        sections: &[[1, 1, 6, 0x11000, 0x1000, 4, 4], [7, 8, 3, 0x12000, 0x2000, 16, 16], [12, 2, 0, 0, 0x1008, 96, 8], [20, 3, 0, 0, 0x1068, 13, 1],
            [28, 3, 0, 0, 0x1075, 38, 1]]); store: Store::Symbols),
];

/// A word of the linker's `_end`.
const END_LISTED: Image = image!(FIRST => table: 0x2088,
    segments: &[READ_OF_FOUR, [1, 5, 0x1000, 0x11000, 4, 4, 4096], [1, 6, 0x2000, 0x12000, 8, 8, 4096], STACK],
    contents: &[(0x1000, b"\x67\x80\0\0"), (0x2000, b"\x08\x20\x01\0\0\0\0\0")],
    listed: listed!(0x2008, b"\0_end\0_start\0", b"\0.text\0.data\0.symtab\0.strtab\0.shstrtab\0"; [1, 0x10, 0xfff1, 0x12008, 0], [6, 0x12, 1, 0x11000, 4]),
    sections: &[[1, 1, 6, 0x11000, 0x1000, 4, 4], [7, 1, 3, 0x12000, 0x2000, 8, 8], [13, 2, 0, 0, 0x2008, 72, 8], [21, 3, 0, 0, 0x2050, 13, 1],
        [29, 3, 0, 0, 0x205d, 39, 1]]);

/// What is discarded has no symbol, and of the linker's symbols those alone that a file of the link asks for.
pub const CHOSEN: &[Link] = &[
    // A `ret`, and the first copy of a group of one `ebreak`.
    link!("t.o", "u.o" => image!(FIRST_LISTED =>
        contents: &[(0x1000, b"\x67\x80\0\0\x73\0\x10\0")],
        listed: listed!(0x1008, b"\0_start\0c\0", NAMES_LISTED; [1, 0x12, 1, 0x11000, 4], [8, 0x12, 1, 0x11004, 4])); store: Store::Groups),
    link!("-e", "_end", "a.o" => image!(FIRST_LISTED => entry: 0x12000)),
    link!("a.o", "lib.a" => FIRST_LISTED; libraries: &[IDLE_MEMBER]),
    // The first, and another file that asks for `_edata`.
    link!("a.o", "edata.o" => image!(FIRST => table: 0x10c0,
        segments: &[READ, [1, 5, 0x1000, 0x11000, 12, 12, 4096], STACK],
        contents: &[(0x1000, b"\xef\0\x40\0\x67\x80\0\0\x67\x80\0\0")],
        listed: listed!(0x1010, b"\0_edata\0_start\0f\0idle\0", NAMES_LISTED;
            [1, 0x10, 0xfff1, 0x12000, 0], [8, 0x12, 1, 0x11000, 4], [15, 0x12, 1, 0x11004, 4], [17, 0x12, 1, 0x11008, 4]),
        sections: &[[1, 1, 6, 0x11000, 0x1000, 12, 4], [7, 2, 0, 0, 0x1010, 120, 8], [15, 3, 0, 0, 0x1088, 22, 1], [23, 3, 0, 0, 0x109e, 33, 1]]); store: Store::Symbols),
    link!("word.o" => END_LISTED; store: Store::Symbols),
    // A word of a file's own `_end`.
    link!("word.o", "end.o" => image!(END_LISTED =>
        segments: &[READ_OF_FOUR, [1, 5, 0x1000, 0x11000, 8, 8, 4096], [1, 6, 0x2000, 0x12000, 8, 8, 4096], STACK],
        contents: &[(0x1000, b"\x67\x80\0\0\x67\x80\0\0"), (0x2000, b"\x04\x10\x01\0\0\0\0\0")],
        listed: listed!(0x2008, b"\0_end\0_start\0", b"\0.text\0.data\0.symtab\0.strtab\0.shstrtab\0"; [1, 0x12, 1, 0x11004, 4], [6, 0x12, 1, 0x11000, 4]),
        sections: &[[1, 1, 6, 0x11000, 0x1000, 8, 4], [7, 1, 3, 0x12000, 0x2000, 8, 8], [13, 2, 0, 0, 0x2008, 72, 8], [21, 3, 0, 0, 0x2050, 13, 1],
            [29, 3, 0, 0, 0x205d, 39, 1]]); store: Store::Symbols),
];
