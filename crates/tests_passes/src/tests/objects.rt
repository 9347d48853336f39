//! An object built by hand, and the answer for each altered byte of it: the expected answers are worked out from the format.

use super::{joined, put};
use elf_read::{read_body, read_head};
use lk_base::kinds::{
    BAD_ALIGNMENT, BAD_GROUP, BAD_HEADER, BAD_NAME, BAD_RELOC, BAD_SECTION, BAD_SYMBOL, BAD_ULEB,
    COMPRESSED, IFUNC, LIMIT, NOT_OBJECT, OUTSIDE, RELOC_KIND,
};
use lk_base::{DefectKind, Flaw, NO_FILE, ReadFault};
use lk_tables::{Place, Reloc, Section, Span, Symbol};
use std::alloc::{AllocError, Global};
use std::test::Fail;

const PARTS: &[&[u8]] = table![
    // The file header: 64 bits, relocatable, RISC-V with compressed instructions, six section headers at 256.
    b"\x7fELF\x02\x01\x01\0\0\0\0\0\0\0\0\0\x01\0\xf3\0\x01\0\0\0\0\0\0\0\0\0\0\0\0\0\0\0\0\0\0\0\0\x01\0\0\0\0\0\0\x01\0\0\0@\0\0\0\0\0@\0\x06\0\x05\0";
    b"\xef\0\0\0\xef\0\0\0g\x80\0\0g\x80\0\0"; // .text, 16 bytes at 64.
    b"\x04\0\0\0\0\0\0\0\x11\0\0\0\x02\0\0\0\xfc\xff\xff\xff\xff\xff\xff\xff"; // .rela.text at 80: JAL at 4 to symbol 2 with addend -4.
    b"\0\0\0\0\0\0\0\0\x11\0\0\0\x02\0\0\0\0\0\0\0\0\0\0\0"; // And JAL at 0 to symbol 2.
    b"\0\0\0\0\0\0\0\0\0\0\0\0\0\0\0\0\0\0\0\0\0\0\0\0"; // .symtab at 128: symbol 0.
    b"\x01\0\0\0\x12\0\x01\0\0\0\0\0\0\0\0\0\x08\0\0\0\0\0\0\0"; // `_start`, a function of 8 bytes at 0 of section 1.
    b"\x08\0\0\0\x12\0\x01\0\x08\0\0\0\0\0\0\0\x08\0\0\0\0\0\0\0"; // `f`, a function of 8 bytes at 8 of it.
    b"\0_start\0f\0"; // .strtab at 200.
    b"\0.text\0.rela.text\0.symtab\0.strtab\0.shstrtab\0\0\0"; // .shstrtab at 210, and two bytes of padding.
    // The section table: section 0.
    b"\0\0\0\0\0\0\0\0\0\0\0\0\0\0\0\0\0\0\0\0\0\0\0\0\0\0\0\0\0\0\0\0\0\0\0\0\0\0\0\0\0\0\0\0\0\0\0\0\0\0\0\0\0\0\0\0\0\0\0\0\0\0\0\0";
    // 1: .text.
    b"\x01\0\0\0\x01\0\0\0\x06\0\0\0\0\0\0\0\0\0\0\0\0\0\0\0@\0\0\0\0\0\0\0\x10\0\0\0\0\0\0\0\0\0\0\0\0\0\0\0\x04\0\0\0\0\0\0\0\0\0\0\0\0\0\0\0";
    // 2: .rela.text.
    b"\x07\0\0\0\x04\0\0\0@\0\0\0\0\0\0\0\0\0\0\0\0\0\0\0P\0\0\0\0\0\0\00\0\0\0\0\0\0\0\x03\0\0\0\x01\0\0\0\x08\0\0\0\0\0\0\0\x18\0\0\0\0\0\0\0";
    // 3: .symtab.
    b"\x12\0\0\0\x02\0\0\0\0\0\0\0\0\0\0\0\0\0\0\0\0\0\0\0\x80\0\0\0\0\0\0\0H\0\0\0\0\0\0\0\x04\0\0\0\x01\0\0\0\x08\0\0\0\0\0\0\0\x18\0\0\0\0\0\0\0";
    // 4: .strtab.
    b"\x1a\0\0\0\x03\0\0\0\0\0\0\0\0\0\0\0\0\0\0\0\0\0\0\0\xc8\0\0\0\0\0\0\0\x0a\0\0\0\0\0\0\0\0\0\0\0\0\0\0\0\x01\0\0\0\0\0\0\0\0\0\0\0\0\0\0\0";
    // 5: .shstrtab.
    b"\"\0\0\0\x03\0\0\0\0\0\0\0\0\0\0\0\0\0\0\0\0\0\0\0\xd2\0\0\0\0\0\0\0,\0\0\0\0\0\0\0\0\0\0\0\0\0\0\0\x01\0\0\0\0\0\0\0\0\0\0\0\0\0\0\0";
];

/// A byte, and what it becomes.
type Change = (usize, u8);

/// The object with some bytes changed.
fn altered(alloc: Global, changes: &[Change]) -> Result<Vec<u8>, AllocError> {
    let mut bytes = joined(alloc, PARTS)?;
    alter(bytes.as_mut_slice(), changes);
    Ok(bytes)
}

fn alter(bytes: &mut [u8], changes: &[Change]) {
    for (at, byte) in changes {
        put(bytes, *at, *byte);
    }
}

/// The flaw of the bytes: the head's, else the body's.
fn flaw_in(alloc: Global, bytes: &[u8]) -> Option<Flaw> {
    match read_head(alloc, bytes) {
        Ok(head) => match read_body(alloc, bytes, &head) {
            Err(ReadFault::Bad(flaw)) => Some(flaw),
            _ => None,
        },
        Err(ReadFault::Bad(flaw)) => Some(flaw),
        Err(ReadFault::Memory) => None,
    }
}

/// A flaw whose other number is 0.
fn flaw(kind: DefectKind, section: u32, place: u64) -> Flaw {
    flaw_with(kind, section, place, 0)
}

fn flaw_with(kind: DefectKind, section: u32, place: u64, other: u64) -> Flaw {
    record!(Flaw; kind: kind, section: section, place: place, other: other)
}

/// A byte, what it becomes, and the answer's kind, section, place and other number.
type Row = (usize, u8, DefectKind, u32, u64, u64);

/// Rows: `[byte] = what it becomes => the answer`.
macro_rules! bytes {
    ($([$at:literal] = $byte:literal => $kind:ident, $section:literal, $place:literal, $other:literal);+ $(;)?) => {
        &[$(($at, $byte, $kind, $section, $place, $other)),+]
    };
}

const ROWS: &[Row] = bytes![
    // The file header.
    [0] = 0x7e => NOT_OBJECT, 0, 0, 0; [4] = 1 => BAD_HEADER, 0, 4, 0; [5] = 2 => BAD_HEADER, 0, 5, 0; [6] = 2 => BAD_HEADER, 0, 6, 0;
    [16] = 2 => BAD_HEADER, 0, 16, 0; [18] = 62 => BAD_HEADER, 0, 18, 0; [20] = 2 => BAD_HEADER, 0, 20, 0; [23] = 1 => BAD_HEADER, 0, 20, 0;
    [48] = 9 => BAD_HEADER, 0, 48, 0;
    // The section table at 0, at 257 and far past the file.
    [41] = 0 => BAD_HEADER, 0, 40, 0; [40] = 1 => OUTSIDE, 0, 40, 0; [47] = 0x80 => OUTSIDE, 0, 40, 0; [58] = 63 => BAD_HEADER, 0, 58, 0;
    // How many sections: 0 in section 0 too, 5, 7, 65,030 and 65,286.
    [60] = 0 => BAD_SECTION, 0, 60, 0; [60] = 5 => BAD_SECTION, 0, 62, 0; [60] = 7 => OUTSIDE, 0, 40, 0; [61] = 0xfe => OUTSIDE, 0, 40, 0;
    [61] = 0xff => OUTSIDE, 0, 40, 0;
    // The section of their names: 0, 1, 6, 261, one whose table ends at 10, and one that ends past the file.
    [62] = 0 => BAD_SECTION, 0, 62, 0; [62] = 1 => BAD_SECTION, 0, 62, 0; [62] = 6 => BAD_SECTION, 0, 62, 0; [63] = 1 => BAD_SECTION, 0, 62, 0;
    [62] = 4 => BAD_NAME, 3, 448, 0; [609] = 2 => OUTSIDE, 0, 62, 0;
    // Section headers: .text at 320, .rela.text at 384, .symtab at 448.
    [320] = 44 => BAD_NAME, 1, 320, 0; [353] = 0x10 => OUTSIDE, 1, 320, 0; [388] = 18 => BAD_SECTION, 2, 384, 0; [504] = 23 => BAD_SECTION, 3, 448, 0;
    [492] = 4 => BAD_SECTION, 3, 448, 0; [488] = 1 => BAD_SECTION, 3, 448, 0;
    // The symbol `_start` at 152.
    [152] = 10 => BAD_NAME, 3, 152, 0; [152] = 0 => BAD_SYMBOL, 3, 152, 0; [156] = 0x32 => BAD_SYMBOL, 3, 152, 0;
    [156] = 0x17 => BAD_SYMBOL, 3, 152, 0; [156] = 0x02 => BAD_SYMBOL, 3, 152, 0; [158] = 6 => BAD_SYMBOL, 3, 152, 0;
    [160] = 17 => BAD_SYMBOL, 3, 152, 0; [156] = 0x1a => IFUNC, 3, 152, 0;
    // The body's section headers.
    [329] = 8 => COMPRESSED, 1, 320, 0; [388] = 9 => BAD_SECTION, 2, 384, 0; [328] = 7 => BAD_SECTION, 1, 320, 0; [388] = 17 => BAD_GROUP, 2, 384, 0;
    [368] = 3 => BAD_ALIGNMENT, 1, 320, 0; [440] = 25 => BAD_SECTION, 2, 384, 0; [424] = 4 => BAD_SECTION, 2, 384, 0;
    [428] = 0 => BAD_SECTION, 2, 384, 0; [428] = 6 => BAD_SECTION, 2, 384, 0;
    // The relocations at 80 and 104.
    [92] = 3 => BAD_RELOC, 2, 80, 0;
    // Numbers that are no kind.
    [88] = 46 => RELOC_KIND, 2, 80, 46; [88] = 255 => RELOC_KIND, 2, 80, 255;
    // .text has no bytes in the file.
    [324] = 8 => BAD_RELOC, 2, 80, 0; [80] = 13 => BAD_RELOC, 2, 80, 0; [88] = 24 => BAD_RELOC, 2, 80, 0;
    // A call at 0 meets the jump at 4, which comes later and stands first.
    [112] = 18 => BAD_RELOC, 2, 80, 0;
];

#[test]
fn reports_the_first_broken_check(rt: HostRuntime) -> Result<(), Fail> {
    for row in ROWS {
        let (at, byte, kind, section, place, other) = *row;
        let bytes = altered(rt.alloc(), &[(at, byte)])?;
        let wanted = Some(flaw_with(kind, section, place, other));
        assert_eq!(rt; flaw_in(rt.alloc(), bytes.as_slice()), wanted, "byte {at}");
    }
    Ok(())
}

/// Every kind that is linked by itself, in runs: the first number, and the last.
const KINDS: &[(u32, u32)] = &[(0, 2), (16, 40), (43, 45), (51, 57), (59, 59)];

#[test]
fn reads_each_kind_and_no_other(rt: HostRuntime) -> Result<(), Fail> {
    for kind in 0..256u32 {
        // The first entry stands for the bytes at 0 now, and the second, of this kind and with the addend 0, for those at 8.
        let bytes = altered(rt.alloc(), &[(80, 0), (104, 8), (112, kind as u8)])?;
        let flaw = flaw_in(rt.alloc(), bytes.as_slice());
        assert_eq!(rt; flaw, flaw_of_kind(kind), "kind {kind}");
    }
    Ok(())
}

/// What is reported of the second entry, of this kind: each of the two kinds 60 and 61 has to stand beside the other.
fn flaw_of_kind(kind: u32) -> Option<Flaw> {
    let (broken, other) = match kind {
        60 | 61 => (BAD_ULEB, 0),
        kind if is_in_a_run(kind) => return None,
        kind => (RELOC_KIND, kind as u64),
    };
    Some(flaw_with(broken, 2, 104, other))
}

fn is_in_a_run(kind: u32) -> bool {
    KINDS
        .iter()
        .any(|(first, last)| *first <= kind && kind <= *last)
}

/// A value at the section's end; visibility; relocations of a section that is not written; .text is excluded, or ordered by section 0, or made of
/// strings that may be merged, or thread-local, or a note or an array of functions; fields of the file header that an object does not use.
const NOT_CHECKED: &[Change] = table![
    (160, 16); (157, 2); (428, 3); (331, 0x80); (328, 0x86); (328, 0x16); (328, 0x36); (329, 4); (324, 7); (324, 14); (324, 15); (324, 16); (7, 3);
    (24, 1); (32, 1); (48, 5); (52, 0); (56, 1);
];

#[test]
fn passes_what_is_not_checked(rt: HostRuntime) -> Result<(), Fail> {
    for change in NOT_CHECKED {
        let bytes = altered(rt.alloc(), &[*change])?;
        let found = flaw_in(rt.alloc(), bytes.as_slice());
        assert_eq!(rt; found, None, "byte {}", change.0);
    }
    Ok(())
}

/// Changes of the symbol `_start`, which is COMMON, and what is reported of it.
const COMMONS: &[(Change, Option<DefectKind>)] = table![
    // Type COMMON, TLS and GNU_IFUNC; LOCAL.
    ((156, 0x15), None); ((156, 0x16), Some(BAD_SYMBOL)); ((156, 0x1a), Some(IFUNC)); ((156, 0x02), Some(BAD_SYMBOL));
    // Alignments of 0, 3, 16, 2^20, 2^21 and 2^32.
    ((160, 0), None); ((160, 3), Some(BAD_ALIGNMENT)); ((160, 16), None); ((162, 0x10), None); ((162, 0x20), Some(BAD_ALIGNMENT));
    ((164, 1), Some(BAD_ALIGNMENT));
    // Sizes of 2^32 - 2^24 + 8 and of 2^32 + 8.
    ((171, 0xff), None); ((172, 1), Some(LIMIT));
];

#[test]
fn reads_common_symbols(rt: HostRuntime) -> Result<(), Fail> {
    for row in COMMONS {
        let (change, kind) = *row;
        let bytes = altered(rt.alloc(), &[(158, 0xf2), (159, 0xff), change])?;
        let found = flaw_in(rt.alloc(), bytes.as_slice());
        let wanted = match kind {
            None => None,
            Some(kind) => Some(flaw(kind, 3, 152)),
        };
        assert_eq!(rt; found, wanted, "byte {}", change.0);
    }
    let bytes = altered(rt.alloc(), &[(158, 0xf2), (159, 0xff)])?;
    let head = read_head(rt.alloc(), bytes.as_slice())?;
    assert_eq!(rt; head.symbols.len(), 3);
    assert_eq!(rt; head.symbols[1].place, Place::Common);
    Ok(())
}

/// Bytes, what they become, and the flaw's kind, section and place. Section 0 has its size at 288 and its link at 296.
type Numbered = (&'static [Change], Option<(DefectKind, u32, u64)>);

/// Section 2 as a table of section indexes: its words are those at 80, so symbol 1 has the word at 84, and symbol 2 that at 88.
const INDEXES: [Change; 5] = [(388, 18), (416, 12), (440, 4), (84, 1), (88, 1)];

macro_rules! numbered {
    ($changes:expr) => {
        (&$changes, None)
    };
    ($changes:expr => $kind:expr, $section:expr, $place:expr) => {
        (&$changes, Some(($kind, $section, $place)))
    };
}

const NUMBERED: &[Numbered] = table![
    // Six sections; their names in section 5.
    numbered!([(60, 0), (288, 6)]); numbered!([(62, 255), (63, 255), (296, 5)]); numbered!([(60, 0), (288, 6), (62, 255), (63, 255), (296, 5)]);
    // Seven, 2^28, one more, and 2^32.
    numbered!([(60, 0), (288, 7)] => OUTSIDE, 0, 40); numbered!([(60, 0), (291, 16)] => OUTSIDE, 0, 40);
    numbered!([(60, 0), (288, 1), (291, 16)] => LIMIT, 0, 60); numbered!([(60, 0), (292, 1)] => LIMIT, 0, 60);
    // Section 0 ends a byte past the file.
    numbered!([(60, 0), (40, 65), (41, 2)] => OUTSIDE, 0, 40);
    // Names in section 0, in section 6 and in .strtab's.
    numbered!([(62, 255), (63, 255)] => BAD_SECTION, 0, 62); numbered!([(62, 255), (63, 255), (296, 6)] => BAD_SECTION, 0, 62);
    numbered!([(62, 255), (63, 255), (296, 4)] => BAD_NAME, 3, 448);
    // An index that stands elsewhere, where there is no elsewhere; indexes that are reserved.
    numbered!([(158, 255), (159, 255)] => BAD_SYMBOL, 3, 152); numbered!([(158, 5), (159, 255)] => BAD_SYMBOL, 3, 152);
    numbered!([(158, 0), (159, 255)] => BAD_SYMBOL, 3, 152);
];

/// With section 2 as a table of section indexes.
const INDEXED: &[Numbered] = table![
    numbered!([]); numbered!([(158, 255), (159, 255)]); numbered!([(182, 255), (183, 255)]);
    // Words that name none: 0, 6 and 2^16 + 1.
    numbered!([(158, 255), (159, 255), (84, 0)] => BAD_SYMBOL, 3, 152); numbered!([(158, 255), (159, 255), (84, 6)] => BAD_SYMBOL, 3, 152);
    numbered!([(158, 255), (159, 255), (86, 1)] => BAD_SYMBOL, 3, 152);
    // A value past the end of the section in the word; the other symbol's word.
    numbered!([(158, 255), (159, 255), (160, 17)] => BAD_SYMBOL, 3, 152); numbered!([(182, 255), (183, 255), (88, 0)] => BAD_SYMBOL, 3, 176);
    // Entries of 8 bytes, two words, 13 bytes, links to nothing, to a string table and past the sections.
    numbered!([(440, 8)] => BAD_SECTION, 2, 384); numbered!([(416, 8)] => BAD_SECTION, 2, 384); numbered!([(416, 13)] => BAD_SECTION, 2, 384);
    numbered!([(424, 0)] => BAD_SECTION, 2, 384); numbered!([(424, 4)] => BAD_SECTION, 2, 384); numbered!([(424, 6)] => BAD_SECTION, 2, 384);
    // A second one, after .text as the first, and a symbol table that is unsound itself.
    numbered!([(324, 18), (352, 12), (360, 3), (376, 4)] => BAD_SECTION, 2, 384); numbered!([(504, 23)] => BAD_SECTION, 3, 448);
];

/// Whether each row ends as it should, after some bytes are changed in all.
fn are_numbered(alloc: Global, before: &[Change], rows: &[Numbered]) -> Result<bool, AllocError> {
    for row in rows {
        let (changes, broken) = *row;
        let mut bytes = altered(alloc, before)?;
        alter(bytes.as_mut_slice(), changes);
        let wanted = match broken {
            Some((kind, section, place)) => Some(flaw(kind, section, place)),
            None => None,
        };
        if flaw_in(alloc, bytes.as_slice()) != wanted {
            return Ok(false);
        }
    }
    Ok(true)
}

#[test]
fn reads_numbers_that_have_no_room(rt: HostRuntime) -> Result<(), Fail> {
    assert!(rt; are_numbered(rt.alloc(), &[], NUMBERED)?);
    assert!(rt; are_numbered(rt.alloc(), &INDEXES, INDEXED)?);
    Ok(())
}

#[test]
fn reports_what_two_bytes_break(rt: HostRuntime) -> Result<(), Fail> {
    for (first, second, kind) in [
        // .text has no bytes in the file and 2^32 + 16 in memory.
        ((324, 8), (356, 1), LIMIT),
        // .text is ordered by section 6, which is not there.
        ((328, 0x86), (360, 6), BAD_SECTION),
    ] {
        let bytes = altered(rt.alloc(), &[first, second])?;
        assert_eq!(rt;
            flaw_in(rt.alloc(), bytes.as_slice()),
            Some(flaw(kind, 1, 320))
        );
    }
    // GNU_IFUNC that another file defines.
    let bytes = altered(rt.alloc(), &[(156, 0x1a), (158, 0)])?;
    assert_eq!(rt; flaw_in(rt.alloc(), bytes.as_slice()), None);
    Ok(())
}

/// A length, and the kind and the place of what is reported of the object cut there.
const CUT: &[(usize, DefectKind, u64)] =
    table![(0, NOT_OBJECT, 0); (3, NOT_OBJECT, 0); (63, BAD_HEADER, 63); (639, OUTSIDE, 40);];

#[test]
fn cut_files_have_no_head(rt: HostRuntime) -> Result<(), Fail> {
    let bytes = joined(rt.alloc(), PARTS)?;
    for row in CUT {
        let (len, kind, place) = *row;
        let found = flaw_in(rt.alloc(), bytes.get(..len).unwrap_or(&[]));
        assert_eq!(rt; found, Some(flaw(kind, 0, place)), "{len} bytes");
    }
    Ok(())
}

/// A name of the object: its start, and its length.
macro_rules! span {
    ($from:expr, $len:expr) => {
        Span { file: NO_FILE, from: $from, len: $len }
    };
}

/// .text.
const TEXT: Section =
    record!(Section; name: span!(211, 5), sh_type: 1, flags: 6, offset: 64, size: 16, link: 0, info: 0, align: 4, entsize: 0);

/// `_start`.
const START: Symbol =
    record!(Symbol; name: span!(201, 6), binding: 1, sort: 2, place: Place::Within(1), value: 0, size: 8);

/// A jump to symbol 2: its offset, and its addend.
macro_rules! jump {
    ($offset:expr; $addend:expr) => {
        Reloc { offset: $offset, kind: 17, symbol: 2, addend: $addend }
    };
}

/// The jumps, in order of offset, and not as they stand in the file.
const JUMPS: &[Reloc] = &[jump!(0; 0), jump!(4; -4)];

#[test]
fn reads_each_field(rt: HostRuntime) -> Result<(), Fail> {
    let bytes = joined(rt.alloc(), PARTS)?;
    let head = read_head(rt.alloc(), bytes.as_slice())?;
    assert_eq!(rt; head.flags, 1);
    assert_eq!(rt; head.symtab, 3);
    assert_eq!(rt; head.sections.len(), 6);
    assert_eq!(rt; head.symbols.len(), 3);
    assert_eq!(rt; head.sections[1], TEXT);
    assert_eq!(rt; head.symbols[1], START);
    let object = read_body(rt.alloc(), bytes.as_slice(), &head)?;
    assert_eq!(rt; object.groups.len(), 0);
    assert_eq!(rt; object.relocs.len(), 6);
    assert_eq!(rt; object.relocs[1].as_slice(), JUMPS);
    Ok(())
}

/// .rela.text becomes a COMDAT group of .text, of which `_start` is the signature.
const GROUP: &[Change] = &[(388, 17), (440, 4), (416, 8), (80, 1), (84, 1)];

/// .text becomes a group of .strtab.
const EARLIER: &[Change] =
    table![(324, 17); (328, 0); (376, 4); (352, 8); (360, 3); (364, 1); (64, 1); (68, 4); (84, 5);];

/// The object with a group, and with some more bytes changed.
fn grouped(alloc: Global, changes: &[Change]) -> Result<Vec<u8>, AllocError> {
    let mut bytes = altered(alloc, GROUP)?;
    alter(bytes.as_mut_slice(), changes);
    Ok(bytes)
}

/// Wrong groups: entries of 8 bytes; no bytes, and 6; a flag word of 2; another symbol table; symbol 3; the member 0, the count, and itself.
const BAD_GROUPS: &[Change] =
    table![(440, 8); (416, 0); (416, 6); (80, 2); (424, 4); (428, 3); (84, 0); (84, 6); (84, 2);];

#[test]
fn reports_groups_that_cannot_be(rt: HostRuntime) -> Result<(), Fail> {
    let wanted = Some(flaw(BAD_GROUP, 2, 384));
    for change in BAD_GROUPS {
        let bytes = grouped(rt.alloc(), &[*change])?;
        let found = flaw_in(rt.alloc(), bytes.as_slice());
        assert_eq!(rt; found, wanted, "byte {}", change.0);
    }
    // Two groups of different sections, and of one.
    let mut bytes = grouped(rt.alloc(), EARLIER)?;
    assert_eq!(rt; flaw_in(rt.alloc(), bytes.as_slice()), None);
    alter(bytes.as_mut_slice(), &[(84, 4)]);
    assert_eq!(rt; flaw_in(rt.alloc(), bytes.as_slice()), wanted);
    Ok(())
}

/// Changes of the group, whether it is COMDAT then, how many members it has, and the start and the length of its signature.
type GroupRow = (&'static [Change], bool, usize, u64, u64);

const GROUPS: &[GroupRow] = table![
    (&[], true, 1, 201, 6); (&[(80, 0)], false, 1, 201, 6);
    // One section twice.
    (&[(416, 12), (88, 1)], true, 2, 201, 6);
    // `_start` is the SECTION symbol of .text, and one that stands nowhere.
    (&[(156, 3), (492, 2)], true, 1, 211, 5); (&[(156, 3), (492, 2), (158, 0)], true, 1, 0, 0);
];

#[test]
fn reads_groups(rt: HostRuntime) -> Result<(), Fail> {
    for row in GROUPS {
        let (changes, comdat, count, from, len) = *row;
        let bytes = grouped(rt.alloc(), changes)?;
        let head = read_head(rt.alloc(), bytes.as_slice())?;
        let object = read_body(rt.alloc(), bytes.as_slice(), &head)?;
        assert_eq!(rt; object.groups.len(), 1);
        let group = &object.groups[0];
        assert_eq!(rt; group.section, 2);
        assert_eq!(rt; group.comdat, comdat);
        assert_eq!(rt; group.members.len(), count);
        assert_eq!(rt; group.members[0], 1);
        assert_eq!(rt; group.signature, span!(from, len));
    }
    Ok(())
}
