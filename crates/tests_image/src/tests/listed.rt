//! What no clause says: that symbols are listed at all, by one worker and by two, that tables and names are written, their bytes, a map's lines.

use super::links::{Asked, PLAIN, Written, inputs_of, run_passes};
use elf_bytes::{Object, Section, Symbol, object, record, section, symbol};
use link_driver::Options;
use lk_base::LinkStop;
use std::alloc::Global;
use std::test::Fail;
use std::thread::Threads;

/// What a link lists.
#[derive(Clone, Copy)]
enum Told<'a> {
    /// A symbol table of these bytes, the null symbol's among them, and its names.
    Table { symbols: &'a [u8], names: &'a [u8] },
    /// No symbol table, and at an offset of the executable these bytes.
    NoTable { offset: usize, bytes: &'a [u8] },
    /// The values of the symbols in order.
    Values(&'a [u64]),
    /// A map.
    Lines(&'a [u8]),
}

/// A link, and what it lists.
#[derive(Clone, Copy)]
struct Listing<'a> {
    objects: &'a [Object<'a>],
    asked: Asked<'a>,
    told: Told<'a>,
}

macro_rules! listing {
    ($objects:expr, $asked:expr; $told:expr) => {
        Listing { objects: $objects, asked: $asked, told: $told }
    };
}

/// A function of eight bytes.
const FUNCTION: &[Section] = &[section!(b".text", 1, 6, 4; b""; zeros: 8)];

const F: Symbol = symbol!(b"f", 2, 2, 1, 0, 8);

/// A function, and a number that has the name of the image's end.
const OF_F: Object =
    record!(Object; flags: 1, sections: FUNCTION, symbols: &[symbol!(b"_end", 1, 0, 0xfff1, 0x12345, 0), F]);

const FROM_F: Asked = record!(Asked, PLAIN => entry: "f");

/// Symbols that are numbers.
const NUMBERS: Object =
    object!(1; []; [symbol!(b"end", 1, 0, 0xfff1, 1, 0), symbol!(b"b", 1, 0, 0xfff1, 2, 0), symbol!(b"_end", 1, 0, 0, 0, 0),
    symbol!(b"a_long_name", 1, 0, 0xfff1, 4, 0)]);

/// What asks for a symbol of the linker's, as the other object does, and for one of that object's, and offers one that is there already.
const ASKER: Object =
    object!(1; []; [symbol!(b"_end", 1, 0, 0, 0, 0), symbol!(b"b", 1, 0, 0, 0, 0), symbol!(b"end", 2, 0, 0xfff1, 3, 0)]);

/// A section of 11 million bytes, and a number whose name has characters that are escaped.
const WIDE: Object =
    object!(1; [section!(b".text", 1, 6, 4; b""; zeros: 0xab_cdef)]; [symbol!(b"f %", 1, 2, 0xfff1, 0x9876_5432_1000_1004, 4)]);

const WIDE_MAP: &[u8] = b"rvld map 1
entry 9876543210001004
section 0000000000011000 0000000000abcdef .text
input 0000000000011000 0000000000abcdef object 1 .text
symbol 9876543210001004 f%20%25
";

/// No symbol table is written.
const STRIPPED: Options =
    record!(Options; gc: false, icf: false, relax: true, strip: true, map: false, generated: None);

/// The null symbol, the number and the function.
const ENTRIES: &[u8] = b"\0\0\0\0\0\0\0\0\0\0\0\0\0\0\0\0\0\0\0\0\0\0\0\0\
\x01\0\0\0\x10\0\xf1\xff\x45\x23\x01\0\0\0\0\0\0\0\0\0\0\0\0\0\
\x06\0\0\0\x22\0\x01\0\0\x10\x01\0\0\0\0\0\x08\0\0\0\0\0\0\0";

/// The names of sections stand after the function, whose eight bytes stand at 0x1000. The values are those of `_end`, where no section ends it at
/// the start of the page after the headers, `a_long_name`, `b` and `end`, of which the first counts.
const LISTINGS: &[Listing] = &[
    listing!(&[OF_F], FROM_F; Told::Table { symbols: ENTRIES, names: b"\0_end\0f\0" }),
    listing!(&[OF_F], Asked { options: STRIPPED, ..FROM_F }; Told::NoTable { offset: 0x1008, bytes: b"\0.text\0.shstrtab\0" }),
    listing!(&[NUMBERS, ASKER], Asked { entry: "b", ..PLAIN }; Told::Values(&[0x11000, 4, 2, 1])),
    listing!(&[WIDE], Asked { entry: "f %", ..PLAIN }; Told::Lines(WIDE_MAP)),
];

/// Whether a symbol table was written, with these bytes and names.
fn has_table(written: &Written, symbols: &[u8], names: &[u8]) -> bool {
    match &written.tables {
        Some(tables) => tables.symbols.as_slice() == symbols && tables.strings.as_slice() == names,
        None => false,
    }
}

/// Whether this is listed.
fn is_told(written: &Written, told: Told) -> bool {
    match told {
        Told::Table { symbols, names } => has_table(written, symbols, names),
        Told::NoTable { offset, bytes } => {
            let own = written.exe.iter().skip(offset).take(bytes.len());
            written.tables.is_none() && own.eq(bytes.iter())
        }
        Told::Values(values) => {
            written.by_one.as_slice() == values && written.by_two.as_slice() == values
        }
        Told::Lines(lines) => written.map.as_slice() == lines,
    }
}

/// Whether a link lists what it is to list.
fn lists<R: Threads + Sync>(rt: &R, alloc: Global, listing: &Listing) -> Result<bool, LinkStop> {
    let inputs = inputs_of(alloc, listing.objects)?;
    let made = run_passes(rt, alloc, &inputs, &listing.asked)?;
    Ok(is_told(&made.written, listing.told))
}

#[test]
fn symbols_names_and_lines_are_written(rt: HostRuntime) -> Result<(), Fail> {
    for (index, listing) in LISTINGS.iter().enumerate() {
        assert!(rt;
            lists(&rt, rt.alloc(), listing) == Ok(true),
            "example {index}"
        );
    }
    Ok(())
}
