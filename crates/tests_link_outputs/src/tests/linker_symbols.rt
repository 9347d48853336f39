//! The symbols of the linker: the ends of what is laid out, the arrays of functions, and the ends of sections whose names are identifiers of C.

use elf_bytes::{
    Image, Object, Section, Symbol, data, image, object, record, reloc, section, symbol, text,
};
use link_examples::images::{FIRST, NAMES_WITH_DATA, READ_OF_FOUR, STACK};
use link_examples::libraries::Library;
use link_examples::objects::{A, Input, OWN_END, RETURN, START, WORD, WORD_OF_END};
use link_examples::{
    Files, Link, Refusal, Store, code_and_data, inputs, library, link, member, objects_of,
    push_objects, refusal,
};
use std::alloc::{AllocError, Global};

const DATA: Section = data!(b"\0\0\0\0\0\0\0\0");

/// A word of each symbol that every link has.
const ALL_WORDS: Section = data!(
    b"\0\0\0\0\0\0\0\0\0\0\0\0\0\0\0\0\0\0\0\0\0\0\0\0\0\0\0\0\0\0\0\0\0\0\0\0\0\0\0\0\0\0\0\0\0\0\0\0\0\0\0\0\0\0\0\0\0\0\0\0\0\0\0\0\0\0\0\0\0\0\0\0\0\0\0\0\0\0\0\0\0\0\0\0\0\0\0\0\0\0\0\0\0\0\0\0\0\0\0\0\0\0\0\0\0\0\0\0\0\0\0\0\0\0\0\0\0\0\0\0\0\0\0\0\0\0\0\0\0\0\0\0\0\0\0\0\0\0\0\0\0\0\0\0";
        WORD, reloc!(8, 2, 2, 0), reloc!(16, 2, 3, 0), reloc!(24, 2, 4, 0), reloc!(32, 2, 5, 0), reloc!(40, 2, 6, 0), reloc!(48, 2, 7, 0), reloc!(56, 2, 8, 0),
        reloc!(64, 2, 9, 0), reloc!(72, 2, 10, 0), reloc!(80, 2, 11, 0), reloc!(88, 2, 12, 0), reloc!(96, 2, 13, 0), reloc!(104, 2, 14, 0),
        reloc!(112, 2, 15, 0), reloc!(120, 2, 16, 0), reloc!(128, 2, 17, 0), reloc!(136, 2, 18, 0));

/// Symbols of these names, which are not defined, and `_start`.
macro_rules! asked {
    ($($name:literal);+) => {
        &[$(symbol!($name, 1, 0, 0, 0, 0),)+ START]
    };
}

const ALL_NAMES: &[Symbol] = asked![
    b"__ehdr_start"; b"__rela_iplt_start"; b"__rela_iplt_end"; b"_etext"; b"etext"; b"_edata"; b"edata";
    b"__bss_start"; b"_end"; b"end"; b"_GLOBAL_OFFSET_TABLE_"; b"__global_pointer$"; b"__preinit_array_start";
    b"__preinit_array_end"; b"__init_array_start"; b"__init_array_end"; b"__fini_array_start"; b"__fini_array_end"
];

/// No section but code and data.
const PLAIN: Object = record!(Object; flags: 0, sections: &[RETURN, ALL_WORDS], symbols: ALL_NAMES);

/// A section of that name, in a file that may not be asked for.
const HAS_NONE: Object =
    object!([section!(DATA => name: b"none")]; [symbol!(b"idle", 1, 2, 1, 0, 4)]);

const LIBRARY_OF_END: Library = library!("lib.a"; member!(b"end.o", OWN_END));

const LIBRARY_OF_NONE: Library = library!("lib.a"; member!(b"none.o", HAS_NONE));

const FIXED_INPUTS: &[Input] = inputs!(
    "plain.o" => PLAIN,
    // Sections for all of them: an array that is empty, one that is read-only, a table of the file's own, small data and zeros.
    "rich.o" => object!(PLAIN => sections: &[RETURN, ALL_WORDS, section!(b".sdata", 1, 3, 16; b"ssssssss"),
        section!(b".init_array", 14, 3, 8; b"iiiiiiii"), section!(b".fini_array", 15, 3, 8; b""), section!(b".preinit_array", 16, 2, 8; b"pppppppp"),
        section!(b".got", 1, 3, 8; b"gggggggg"), section!(b".bss", 8, 3, 32; b""; size: 16), section!(b".sbss", 8, 3, 4; b""; size: 4)]),
    // Thread-local data before all else that may be written.
    "threads.o" => object!(PLAIN => sections: &[RETURN, ALL_WORDS, section!(b".tdata", 1, 0x403, 4; b"tttt")]),
    "word.o" => WORD_OF_END,
    // A weak word of `_end`.
    "weak-word.o" => object!(WORD_OF_END => symbols: &[symbol!(b"_end", 2, 0, 0, 0, 0), START]),
    "end.o" => OWN_END,
    "weak-end.o" => object!(OWN_END => symbols: &[symbol!(b"_end", 2, 2, 1, 0, 4)]),
    // The global pointer, as a program begins with it.
    "pointer.o" => object!([
        text!(b"\x97\x01\0\0\x93\x81\x01\0"; reloc!(0, 23, 2, 0), reloc!(4, 24, 1, 0)), data!(b"dddddddd"),
    ]; [symbol!(b".L0", 0, 0, 1, 0, 0), symbol!(b"__global_pointer$", 1, 0, 0, 0, 0), START]),
);

const NAMED_INPUTS: &[Input] = inputs!(
    // A section that only its name leads to, and one that nothing leads to.
    "one.o" => object!([
        section!(RETURN => relocs: &[reloc!(0, 0, 1, 0)]), section!(b"set_a", 1, 2, 4; b"aaaa"), section!(DATA => relocs: &[reloc!(0, 2, 2, 0)]),
        section!(b"set_b", 1, 2, 4; b"bbbb"),
    ]; [symbol!(b"", 0, 3, 3, 0, 0), symbol!(b"__start_set_a", 1, 0, 0, 0, 0), START]),
    // More of these sections, which nothing else leads to.
    "more.o" => object!([section!(b"set_b", 1, 2, 4; b"BBBB"), section!(b"set_a", 1, 2, 4; b"AAAA")]; []),
    // Names in two kinds of output section, of one that is empty, of none, and of commons.
    "sets.o" => object!([
        RETURN, section!(b"set_a", 1, 2, 4; b"aaaa"), section!(b"set_a", 1, 3, 4; b"AAAA"), section!(b"set_e", 1, 3, 8; b""),
        data!(b"\0\0\0\0\0\0\0\0\0\0\0\0\0\0\0\0\0\0\0\0\0\0\0\0\0\0\0\0\0\0\0\0\0\0\0\0\0\0\0\0\0\0\0\0\0\0\0\0";
            WORD, reloc!(8, 2, 2, 0), reloc!(16, 2, 3, 0), reloc!(24, 2, 4, 0), reloc!(32, 2, 5, 0), reloc!(40, 2, 6, 0)),
    ]; [symbol!(b"__start_set_a", 1, 0, 0, 0, 0), symbol!(b"__stop_set_a", 1, 0, 0, 0, 0), symbol!(b"__start_set_e", 1, 0, 0, 0, 0),
        symbol!(b"__stop_set_e", 1, 0, 0, 0, 0), symbol!(b"__start_none", 2, 0, 0, 0, 0), symbol!(b"__start_COMMON", 1, 0, 0, 0, 0),
        symbol!(b"c", 1, 1, 0xfff2, 8, 8), START]),
    // A name of a section that is not there.
    "none.o" => object!([RETURN, section!(DATA => relocs: &[WORD])]; [symbol!(b"__start_none", 1, 0, 0, 0, 0), START]),
    // A name of a section whose name is no identifier.
    "dotted.o" => object!([RETURN, section!(DATA => relocs: &[WORD]), section!(DATA => name: b".set")]; [symbol!(b"__stop_.set", 1, 0, 0, 0, 0), START]),
    // A section that takes no memory.
    "unseen.o" => object!([section!(DATA => name: b"none", flags: 0)]; []),
    "first.o" => A,
);

pub fn files(alloc: Global) -> Result<Files, AllocError> {
    let mut files = objects_of(alloc, FIXED_INPUTS)?;
    push_objects(&mut files, alloc, NAMED_INPUTS)?;
    Ok(files)
}

/// The address after the data.
const END_IMAGE: Image = code_and_data!(4, 8 => 0x2020; b"\x67\x80\0\0"; b"\x08\x20\x01");

/// The address of a file's own.
const OWN_END_IMAGE: Image =
    code_and_data!(8, 8 => 0x2020; b"\x67\x80\0\0\x67\x80\0\0"; b"\x04\x10\x01");

/// Nothing is kept, so that there are headers alone.
const HEADERS_ALONE: Image = image!(FIRST => table: 0xc0,
    segments: &[[1, 4, 0, 0x10000, 176, 176, 4096], STACK],
    contents: &[(0xb0, b"\0.shstrtab\0")],
    sections: &[[1, 3, 0, 0, 0xb0, 11, 1]]);

/// The set, and its address.
const ONE_SET_IMAGE: Image = image!(FIRST => table: 0x2028,
    segments: &[[1, 4, 0, 0x10000, 0x124, 0x124, 4096], [1, 5, 0x1000, 0x11000, 4, 4, 4096], [1, 6, 0x2000, 0x12000, 8, 8, 4096], STACK],
    contents: &[(0x120, b"aaaa"), (0x1000, b"\x67\x80\0\0"), (0x2000, b"\x20\x01\x01"), (0x2008, b"\0set_a\0.text\0.data\0.shstrtab\0")],
    sections: &[[1, 1, 2, 0x10120, 0x120, 4, 4], [7, 1, 6, 0x11000, 0x1000, 4, 4], [13, 1, 3, 0x12000, 0x2000, 8, 8], [19, 3, 0, 0, 0x2008, 29, 1]]);

/// A word of each symbol that every link has.
pub const FIXED: &[Link] = &[
    link!("-s", "plain.o" => image!(FIRST => table: 0x20a8,
        segments: &[READ_OF_FOUR, [1, 5, 0x1000, 0x11000, 4, 4, 4096], [1, 6, 0x2000, 0x12000, 144, 144, 4096], STACK],
        contents: &[(0x1000, b"\x67\x80\0\0"), (0x2000, b"\0\0\x01\0\0\0\0\0\0\0\x01\0\0\0\0\0\0\0\x01\0\0\0\0\0"),
            (0x2018, b"\x04\x10\x01\0\0\0\0\0\x04\x10\x01\0\0\0\0\0\x90\x20\x01\0\0\0\0\0"),
            (0x2030, b"\x90\x20\x01\0\0\0\0\0\x90\x20\x01\0\0\0\0\0\x90\x20\x01\0\0\0\0\0"),
            (0x2048, b"\x90\x20\x01\0\0\0\0\0\0\x20\x01\0\0\0\0\0\0(\x01\0\0\0\0\0"),
            (0x2060, b"\0\0\x01\0\0\0\0\0\0\0\x01\0\0\0\0\0\0\0\x01\0\0\0\0\0"), (0x2078, b"\0\0\x01\0\0\0\0\0\0\0\x01\0\0\0\0\0\0\0\x01\0\0\0\0\0"),
            (0x2090, NAMES_WITH_DATA)],
        sections: &[[1, 1, 6, 0x11000, 0x1000, 4, 4], [7, 1, 3, 0x12000, 0x2000, 144, 8], [13, 3, 0, 0, 0x2090, 23, 1]]); store: Store::LinkerSymbols),
    link!("-s", "rich.o" => image!(FIRST => table: 0x20f8,
        segments: &[[1, 4, 0, 0x10000, 0x128, 0x128, 4096], [1, 5, 0x1000, 0x11000, 4, 4, 4096], [1, 6, 0x2000, 0x12000, 0xa8, 0xd0, 4096], STACK],
        contents: &[(0x120, b"pppppppp"), (0x1000, b"\x67\x80\0\0"), (0x2000, b"iiiiiiiigggggggg"),
            (0x2010, b"\0\0\x01\0\0\0\0\0\0\0\x01\0\0\0\0\0\0\0\x01\0\0\0\0\0"),
            (0x2028, b"\x04\x10\x01\0\0\0\0\0\x04\x10\x01\0\0\0\0\0\xa8\x20\x01\0\0\0\0\0"),
            (0x2040, b"\xa8\x20\x01\0\0\0\0\0\xa8\x20\x01\0\0\0\0\0\xd0\x20\x01\0\0\0\0\0"),
            (0x2058, b"\xd0\x20\x01\0\0\0\0\0\x10\x20\x01\0\0\0\0\0\xa0(\x01\0\0\0\0\0"),
            (0x2070, b"\x20\x01\x01\0\0\0\0\0(\x01\x01\0\0\0\0\0\0\x20\x01\0\0\0\0\0"),
            (0x2088, b"\x08\x20\x01\0\0\0\0\0\x08\x20\x01\0\0\0\0\0\x08\x20\x01\0\0\0\0\0"), (0x20a0, b"ssssssss"),
            (0x20a8, b"\0.preinit_array\0.text\0.init_array\0.got\0.data\0.sdata\0.sbss\0.bss\0.shstrtab\0")],
        sections: &[[1, 16, 2, 0x10120, 0x120, 8, 8], [16, 1, 6, 0x11000, 0x1000, 4, 4], [22, 14, 3, 0x12000, 0x2000, 8, 8],
            [34, 1, 3, 0x12008, 0x2008, 8, 8], [39, 1, 3, 0x12010, 0x2010, 144, 8], [45, 1, 3, 0x120a0, 0x20a0, 8, 16],
            [52, 8, 3, 0x120a8, 0x20a8, 4, 4], [58, 8, 3, 0x120c0, 0x20c0, 16, 32], [63, 3, 0, 0, 0x20a8, 73, 1]]); store: Store::LinkerSymbols),
    link!("-s", "threads.o" => image!(FIRST => table: 0x20b8,
        segments: &[[1, 4, 0, 0x10000, 344, 344, 4096], [1, 5, 0x1000, 0x11000, 4, 4, 4096], [1, 6, 0x2000, 0x12000, 0x98, 0x98, 4096],
            [7, 4, 0x2000, 0x12000, 4, 4, 4], STACK],
        contents: &[(0x1000, b"\x67\x80\0\0"), (0x2000, b"tttt"), (0x2008, b"\0\0\x01\0\0\0\0\0\0\0\x01\0\0\0\0\0\0\0\x01\0\0\0\0\0"),
            (0x2020, b"\x04\x10\x01\0\0\0\0\0\x04\x10\x01\0\0\0\0\0\x98\x20\x01\0\0\0\0\0"),
            (0x2038, b"\x98\x20\x01\0\0\0\0\0\x98\x20\x01\0\0\0\0\0\x98\x20\x01\0\0\0\0\0"),
            (0x2050, b"\x98\x20\x01\0\0\0\0\0\x08\x20\x01\0\0\0\0\0\x04(\x01\0\0\0\0\0"),
            (0x2068, b"\0\0\x01\0\0\0\0\0\0\0\x01\0\0\0\0\0\0\0\x01\0\0\0\0\0"), (0x2080, b"\0\0\x01\0\0\0\0\0\0\0\x01\0\0\0\0\0\0\0\x01\0\0\0\0\0"),
            (0x2098, b"\0.text\0.tdata\0.data\0.shstrtab\0")],
        sections: &[[1, 1, 6, 0x11000, 0x1000, 4, 4], [7, 1, 0x403, 0x12000, 0x2000, 4, 4], [14, 1, 3, 0x12008, 0x2008, 144, 8], [20, 3, 0, 0, 0x2098, 30, 1]]); store: Store::LinkerSymbols),
    link!("-s", "pointer.o" => code_and_data!(8, 8 => 0x2020; b"\x97\x21\0\0\x93\x81\x01\x80"; b"dddddddd"); store: Store::LinkerSymbols),
];

/// A name that a file offers is not the linker's.
pub const OFFERED: &[Link] = &[
    link!("-s", "word.o" => END_IMAGE; store: Store::LinkerSymbols),
    link!("-s", "weak-word.o" => END_IMAGE; store: Store::LinkerSymbols),
    link!("-s", "word.o", "end.o" => OWN_END_IMAGE; store: Store::LinkerSymbols),
    link!("-s", "word.o", "weak-end.o" => OWN_END_IMAGE; store: Store::LinkerSymbols),
    link!("-s", "weak-word.o", "weak-end.o" => OWN_END_IMAGE; store: Store::LinkerSymbols),
    link!("-s", "word.o", "lib.a" => OWN_END_IMAGE; store: Store::LinkerSymbols, libraries: &[LIBRARY_OF_END]),
    link!("-s", "weak-word.o", "lib.a" => END_IMAGE; store: Store::LinkerSymbols, libraries: &[LIBRARY_OF_END]),
];

/// A program may begin at such a symbol.
pub const ENTRIES: &[Link] = &[
    link!("-s", "-e", "_etext", "first.o" => image!(FIRST => entry: 0x11008); store: Store::LinkerSymbols),
    link!("-s", "-e", "_end", "first.o" => image!(FIRST => entry: 0x12000); store: Store::LinkerSymbols),
    link!("-s", "-e", "__ehdr_start", "first.o" => image!(FIRST => entry: 0x10000); store: Store::LinkerSymbols),
    link!("-s", "-e", "__start_set_a", "--gc-sections", "one.o" => image!(HEADERS_ALONE => entry: 0x10000); store: Store::LinkerSymbols),
    link!("-s", "--gc-sections", "-e", "etext", "first.o" => HEADERS_ALONE; store: Store::LinkerSymbols),
];

/// Sections by their names.
pub const NAMED: &[Link] = &[
    link!("-s", "--gc-sections", "one.o" => ONE_SET_IMAGE; store: Store::LinkerSymbols),
    // Two sections of the name, the second of another file.
    link!("-s", "--gc-sections", "one.o", "more.o" => image!(ONE_SET_IMAGE =>
        segments: &[[1, 4, 0, 0x10000, 0x128, 0x128, 4096], [1, 5, 0x1000, 0x11000, 4, 4, 4096], [1, 6, 0x2000, 0x12000, 8, 8, 4096], STACK],
        contents: &[(0x120, b"aaaaAAAA"), (0x1000, b"\x67\x80\0\0"), (0x2000, b"\x20\x01\x01"), (0x2008, b"\0set_a\0.text\0.data\0.shstrtab\0")],
        sections: &[[1, 1, 2, 0x10120, 0x120, 8, 4], [7, 1, 6, 0x11000, 0x1000, 4, 4], [13, 1, 3, 0x12000, 0x2000, 8, 8], [19, 3, 0, 0, 0x2008, 29, 1]]); store: Store::LinkerSymbols),
    link!("-s", "sets.o" => image!(FIRST => table: 0x2060,
        segments: &[[1, 4, 0, 0x10000, 0x124, 0x124, 4096], [1, 5, 0x1000, 0x11000, 4, 4, 4096], [1, 6, 0x2000, 0x12000, 0x34, 0x40, 4096], STACK],
        contents: &[(0x120, b"aaaa"), (0x1000, b"\x67\x80\0\0"), (0x2000, b"\x20\x01\x01"), (0x2008, b"\x34\x20\x01"), (0x2010, b"\x38\x20\x01"),
            (0x2018, b"\x38\x20\x01"), (0x2028, b"\0\0\x01"), (0x2030, b"AAAA"), (0x2034, b"\0set_a\0.text\0.data\0set_a\0.bss\0.shstrtab\0")],
        sections: &[[1, 1, 2, 0x10120, 0x120, 4, 4], [7, 1, 6, 0x11000, 0x1000, 4, 4], [13, 1, 3, 0x12000, 0x2000, 48, 8],
            [19, 1, 3, 0x12030, 0x2030, 4, 4], [25, 8, 3, 0x12038, 0x2038, 8, 8], [30, 3, 0, 0, 0x2034, 40, 1]]); store: Store::LinkerSymbols),
];

/// Names of sections that are not there.
pub const LACKING: &[Refusal] = &[
    refusal!("-s", "none.o" => 1, 1, "F22 Undefined file=none.o section=2 place=0 name=__start_none other=0"; store: Store::LinkerSymbols),
    refusal!("-s", "dotted.o" => 1, 1, "F22 Undefined file=dotted.o section=2 place=0 name=__stop_.set other=0"; store: Store::LinkerSymbols),
    refusal!("-s", "none.o", "unseen.o" => 1, 2, "F22 Undefined file=none.o section=2 place=0 name=__start_none other=0"; store: Store::LinkerSymbols),
    refusal!("-s", "none.o", "lib.a" => 1, 2, "F22 Undefined file=none.o section=2 place=0 name=__start_none other=0"; store: Store::LinkerSymbols,
        libraries: &[LIBRARY_OF_NONE]),
];
