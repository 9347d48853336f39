//! The global offset table and thread-local data (RISC-V ELF psABI, thread local storage): entries by first use, the words that they
//! hold, offsets from the start of the thread-local block, and its program header.

use elf_bytes::{
    Image, Object, Reloc, Section, Symbol, data, image, object, reloc, section, symbol, text,
};
use link_examples::images::{FIRST, READ_OF_FOUR, STACK};
use link_examples::objects::{Input, RETURN, START, WEAKLY};
use link_examples::{Files, Link, Store, inputs, link, objects_of};
use std::alloc::{AllocError, Global};

/// The headers of an executable of five program headers.
const READ_OF_FIVE: [u64; 7] = [1, 4, 0, 0x10000, 344, 344, 4096];

/// Data of each thread.
const THREAD_DATA: Section = section!(b".tdata", 1, 0x403, 4; b"tttttttt");
/// Zeros of each thread.
const THREAD_ZEROS: Section = section!(b".tbss", 8, 0x403, 8; b""; size: 16);

/// A label.
const LABEL: Symbol = symbol!(b".L0", 0, 0, 1, 0, 0);
/// `v` at 4 in section 2, thread-local.
const V_IN_2: Symbol = symbol!(b"v", 1, 6, 2, 4, 4);
/// `b` at 8 in section 3, thread-local.
const B_IN_3: Symbol = symbol!(b"b", 1, 6, 3, 8, 4);

/// The upper half of a distance to an entry.
const UPPER: Reloc = reloc!(0, 20, 2, 0);
/// The lower half at 4, of the label that is symbol 1.
const LOWER: Reloc = reloc!(4, 24, 1, 0);

/// Offsets from the thread pointer: in two halves, of the other form, and of a name that nothing defines.
const OFFSETS: Section =
    text!(b"\x37\x05\0\0\x33\x05\x45\0\x13\x05\x05\0\x23\x20\xb5\0\x13\x05\x05\0\x67\x80\0\0";
        reloc!(0, 29, 2, 0x1000), reloc!(4, 32, 2, 0), reloc!(8, 30, 2, 0x1000), reloc!(12, 31, 1, 0), reloc!(16, 30, 3, 5));

const DIRECT: Object =
    object!([OFFSETS, THREAD_DATA, THREAD_ZEROS]; [V_IN_2, B_IN_3, WEAKLY, START]);

const INPUTS: &[Input] = inputs!(
    // One use of an entry of two words.
    "dynamic.o" => object!([text!(b"\x17\x05\0\0\x13\x05\x05\0\x67\x80\0\0"; reloc!(0, 22, 2, 0), LOWER), THREAD_DATA]; [LABEL, V_IN_2, START]),
    // Nine uses: of an address twice, of a name that nothing defines, of an offset and of two words, of both for a name that nothing
    // defines, of a label, and of a section with an addend, which is added to the entry's address.
    "entries.o" => object!([
        text!(
            b"\x17\x05\0\0\x03\x35\x05\0\x17\x05\0\0\x03\x35\x05\0\x17\x05\0\0\x03\x35\x05\0\x17\x05\0\0\x03\x35\x05\0\x17\x05\0\0\x03\x35\x05\0\x17\x05\0\0\x03\x35\x05\0\x17\x05\0\0\x03\x35\x05\0\x17\x05\0\0\x03\x35\x05\0\x17\x05\0\0\x03\x35\x05\0";
                reloc!(0, 20, 11, 0), reloc!(4, 24, 1, 0), reloc!(8, 20, 12, 0), reloc!(12, 24, 2, 0), reloc!(16, 20, 11, 0), reloc!(20, 24, 3, 0),
                reloc!(24, 21, 13, 0), reloc!(28, 24, 4, 0), reloc!(32, 22, 13, 0), reloc!(36, 24, 5, 0), reloc!(40, 21, 14, 0), reloc!(44, 24, 6, 0),
                reloc!(48, 22, 14, 0), reloc!(52, 24, 7, 0), reloc!(56, 20, 1, 0), reloc!(60, 24, 8, 0), reloc!(64, 20, 10, 8), reloc!(68, 24, 9, 0)),
        section!(THREAD_DATA => align: 8), data!(b"dddddddddddddddd"),
    ]; [LABEL, symbol!(b".L0", 0, 0, 1, 8, 0), symbol!(b".L0", 0, 0, 1, 16, 0), symbol!(b".L0", 0, 0, 1, 24, 0), symbol!(b".L0", 0, 0, 1, 32, 0),
        symbol!(b".L0", 0, 0, 1, 40, 0), symbol!(b".L0", 0, 0, 1, 48, 0), symbol!(b".L0", 0, 0, 1, 56, 0), symbol!(b".L0", 0, 0, 1, 64, 0),
        symbol!(b"", 0, 3, 3, 0, 0), symbol!(b"d", 1, 1, 3, 0, 8), WEAKLY, V_IN_2, symbol!(b"w2", 2, 6, 0, 0, 0), START]),
    "returns.o" => object!([RETURN]; [START]),
    // A use of data that only its file knows.
    "own.o" => object!([text!(b"\x17\x05\0\0\x03\x35\x05\0"; UPPER, LOWER), data!(b"dddddddd")]; [LABEL, symbol!(b"d", 0, 0, 2, 0, 0)]),
    // Uses of two numbers, the second in code that stands first.
    "order.o" => object!([
        text!(b"\x17\x05\0\0\x03\x35\x05\0"; reloc!(0, 20, 3, 0), LOWER),
        section!(b".init", 1, 6, 4; b"\x17\x05\0\0\x03\x35\x05\0"; relocs: &[reloc!(0, 20, 4, 0), reloc!(4, 24, 2, 0)]),
    ]; [LABEL, symbol!(b".L0", 0, 0, 2, 0, 0), symbol!(b"a", 1, 0, 0xfff1, 0x100, 4), symbol!(b"b", 1, 0, 0xfff1, 0x200, 4), START]),
    "direct.o" => DIRECT,
    // Thread-local data with an alignment above that of a segment.
    "apart.o" => object!(DIRECT => sections: &[OFFSETS, THREAD_DATA, section!(THREAD_ZEROS => align: 0x4000)]),
    // Zeros alone.
    "zeros.o" => object!([
        text!(b"\x37\x05\0\0\x13\x05\x05\0"; reloc!(0, 29, 1, 0), reloc!(4, 30, 1, 0)), THREAD_ZEROS,
    ]; [symbol!(b"b", 1, 6, 2, 8, 4), START]),
);

pub fn files(alloc: Global) -> Result<Files, AllocError> {
    objects_of(alloc, INPUTS)
}

/// Ten words of nine uses of eight entries.
const ENTRIES_IMAGE: Image = image!(FIRST => table: 0x2090,
    segments: &[READ_OF_FIVE, [1, 5, 0x1000, 0x11000, 72, 72, 4096], [1, 6, 0x2000, 0x12000, 0x68, 0x68, 4096], [7, 4, 0x2000, 0x12000, 8, 8, 8], STACK],
    contents: &[
        (0x1000, b"\x17\x15\0\0\x03\x35\x85\0\x17\x15\0\0\x03\x35\x85\0\x17\x15\0\0\x03\x35\x85\xff\x17\x15\0\0\x03\x35\x05\0\x17\x15\0\0\x03\x35\x05\0"),
        (0x1028, b"\x17\x15\0\0\x03\x35\x85\0\x17\x15\0\0\x03\x35\x85\0\x17\x15\0\0\x03\x35\x05\x01\x17\x15\0\0\x03\x35\x85\x01"),
        (0x2000, b"tttttttt"), (0x2008, b"X\x20\x01\0\0\0\0\0"), (0x2018, b"\x04\0\0\0\0\0\0\0"),
        (0x2020, b"\x01\0\0\0\0\0\0\0\x04\xf8\xff\xff\xff\xff\xff\xff"), (0x2038, b"\x01\0\0\0\0\0\0\0"), (0x2048, b"\0\x10\x01\0\0\0\0\0"),
        (0x2050, b"X\x20\x01\0\0\0\0\0"), (0x2058, b"dddddddddddddddd"),
        (0x2068, b"\0.text\0.tdata\0.got\0.data\0.shstrtab\0")], sections: &[ [1, 1, 6, 0x11000, 0x1000, 72, 4],
        [7, 1, 0x403, 0x12000, 0x2000, 8, 8], [14, 1, 3, 0x12008, 0x2008, 80, 8], [19, 1, 3, 0x12058, 0x2058, 16, 8], [25, 3, 0, 0, 0x2068, 35, 1]]);

/// Entries of the global offset table.
pub const TABLES: &[Link] = &[
    // Thread-local data at 0x12000, and the entry after it.
    link!("-s", "dynamic.o" => image!(FIRST => table: 0x2038,
        segments: &[READ_OF_FIVE, [1, 5, 0x1000, 0x11000, 12, 12, 4096], [1, 6, 0x2000, 0x12000, 24, 24, 4096], [7, 4, 0x2000, 0x12000, 8, 8, 4], STACK],
        contents: &[(0x1000, b"\x17\x15\0\0\x13\x05\x85\0\x67\x80\0\0"), (0x2000, b"tttttttt"),
            (0x2008, b"\x01\0\0\0\0\0\0\0\x04\xf8\xff\xff\xff\xff\xff\xff"), (0x2018, b"\0.text\0.tdata\0.got\0.shstrtab\0")],
        sections: &[[1, 1, 6, 0x11000, 0x1000, 12, 4], [7, 1, 0x403, 0x12000, 0x2000, 8, 4], [14, 1, 3, 0x12008, 0x2008, 16, 8], [19, 3, 0, 0, 0x2018, 29, 1]]); store: Store::Threads),
    link!("-s", "entries.o" => ENTRIES_IMAGE; store: Store::Threads),
    // Two entries for two of one name.
    link!("-s", "returns.o", "own.o", "own.o" => image!(FIRST => table: 0x2040,
        segments: &[READ_OF_FOUR, [1, 5, 0x1000, 0x11000, 20, 20, 4096], [1, 6, 0x2000, 0x12000, 32, 32, 4096], STACK],
        contents: &[(0x1000, b"\x67\x80\0\0\x17\x15\0\0\x03\x35\xc5\xff\x17\x15\0\0\x03\x35\xc5\xff"), (0x2000, b"\x10\x20\x01"),
            (0x2008, b"\x18\x20\x01"), (0x2010, b"dddddddddddddddd"), (0x2020, b"\0.text\0.got\0.data\0.shstrtab\0")],
        sections: &[[1, 1, 6, 0x11000, 0x1000, 20, 4], [7, 1, 3, 0x12000, 0x2000, 16, 8], [12, 1, 3, 0x12010, 0x2010, 16, 8], [18, 3, 0, 0, 0x2020, 28, 1]]); store: Store::Threads),
    // Entries in order of the inputs, and not of the output.
    link!("-s", "order.o" => image!(FIRST => entry: 0x11008, table: 0x2030,
        segments: &[READ_OF_FOUR, [1, 5, 0x1000, 0x11000, 16, 16, 4096], [1, 6, 0x2000, 0x12000, 16, 16, 4096], STACK],
        contents: &[(0x1000, b"\x17\x15\0\0\x03\x35\x85\0\x17\x15\0\0\x03\x35\x85\xff"), (0x2000, b"\0\x01"), (0x2008, b"\0\x02"),
            (0x2010, b"\0.init\0.text\0.got\0.shstrtab\0")],
        sections: &[[1, 1, 6, 0x11000, 0x1000, 8, 4], [7, 1, 6, 0x11008, 0x1008, 8, 4], [13, 1, 3, 0x12000, 0x2000, 16, 8], [18, 3, 0, 0, 0x2010, 28, 1]]); store: Store::Threads),
];

/// Offsets in the block of a thread.
pub const OFFSETS_OF_THREADS: &[Link] = &[
    link!("-s", "direct.o" => image!(FIRST => table: 0x2028,
        segments: &[READ_OF_FIVE, [1, 5, 0x1000, 0x11000, 24, 24, 4096], [1, 6, 0x2000, 0x12000, 8, 8, 4096], [7, 4, 0x2000, 0x12000, 8, 24, 8], STACK],
        contents: &[(0x1000, b"\x37\x15\0\0\x33\x05\x45\0\x13\x05\x05\x01\x23\x22\xb5\0\x13\x05\x55\0\x67\x80\0\0"), (0x2000, b"tttttttt"),
            (0x2008, b"\0.text\0.tdata\0.tbss\0.shstrtab\0")],
        sections: &[[1, 1, 6, 0x11000, 0x1000, 24, 4], [7, 1, 0x403, 0x12000, 0x2000, 8, 4], [14, 8, 0x403, 0x12008, 0x2008, 16, 8], [20, 3, 0, 0, 0x2008, 30, 1]]); store: Store::Threads),
    // The block begins at the greatest alignment of all that is thread-local.
    link!("-s", "apart.o" => image!(FIRST => table: 0x4028,
        segments: &[READ_OF_FIVE, [1, 5, 0x1000, 0x11000, 24, 24, 4096], [1, 6, 0x2000, 0x12000, 0x2008, 0x2008, 4096],
            [7, 4, 0x4000, 0x14000, 8, 0x4010, 0x4000], STACK],
        contents: &[(0x1000, b"\x37\x55\0\0\x33\x05\x45\0\x13\x05\x85\0\x23\x22\xb5\0\x13\x05\x55\0\x67\x80\0\0"), (0x4000, b"tttttttt"),
            (0x4008, b"\0.text\0.tdata\0.tbss\0.shstrtab\0")],
        sections: &[[1, 1, 6, 0x11000, 0x1000, 24, 4], [7, 1, 0x403, 0x14000, 0x4000, 8, 4], [14, 8, 0x403, 0x18000, 0x8000, 16, 0x4000],
            [20, 3, 0, 0, 0x4008, 30, 1]]); store: Store::Threads),
    // No segment that may be written.
    link!("-s", "zeros.o" => image!(FIRST => table: 0x1020,
        segments: &[READ_OF_FOUR, [1, 5, 0x1000, 0x11000, 8, 8, 4096], [7, 4, 0x2000, 0x12000, 0, 16, 8], STACK],
        contents: &[(0x1000, b"\x37\x05\0\0\x13\x05\x85\0"), (0x1008, b"\0.text\0.tbss\0.shstrtab\0")],
        sections: &[[1, 1, 6, 0x11000, 0x1000, 8, 4], [7, 8, 0x403, 0x12000, 0x2000, 16, 8], [13, 3, 0, 0, 0x1008, 23, 1]]); store: Store::Threads),
];

/// The map has the global offset table.
pub const MAPPED: &[Link] = &[
    link!("-s", "--Map", "m", "entries.o" => ENTRIES_IMAGE; store: Store::Threads, lines: &["rvld map 1", "entry 0000000000011000",
        "section 0000000000011000 0000000000000048 .text", "input 0000000000011000 0000000000000048 entries.o 1 .text",
        "section 0000000000012000 0000000000000008 .tdata", "input 0000000000012000 0000000000000008 entries.o 2 .tdata",
        "section 0000000000012008 0000000000000050 .got", "got 0000000000012008 0000000000000050", "section 0000000000012058 0000000000000010 .data",
        "input 0000000000012058 0000000000000010 entries.o 3 .data", "symbol 0000000000011000 _start", "symbol 0000000000012058 d",
        "symbol 0000000000000004 v"]),
];
