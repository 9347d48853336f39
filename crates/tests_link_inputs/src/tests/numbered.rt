//! Numbers that a field has no room for: those in section 0, and objects of 70,000 sections, with relocations and a group by such numbers.

use super::altered::{is_linked, link_alone, object};
use elf_bytes::{
    ELSEWHERE, Object, Section, Symbol, object, object_of, record, reloc, section, symbol,
};
use link_driver::OpenGate;
use link_examples::groups::GROUP;
use link_examples::objects::START;
use link_examples::{Files, SOUND, words_of};
use link_runs::{Left, run_over};
use std::alloc::{AllocError, Global};
use std::test::Fail;
use std::thread::Threads;

/// Bytes of the object and what they become: the number of sections, and then that of the section of names too, stand in section 0.
const NUMBERED: &[&[(usize, u8)]] = &[
    &[(60, 0), (61, 0), (480, 11)],
    &[(60, 0), (61, 0), (480, 11), (62, 255), (63, 255), (488, 10)],
];

#[test]
fn counts_of_sections_may_stand_in_section_0(rt: HostRuntime) -> Result<(), Fail> {
    let plain = link_alone(&rt, rt.alloc(), "gen0.o", object(rt.alloc())?, &[])?;
    assert!(rt; is_linked(&plain));
    for changes in NUMBERED {
        let mut bytes = object(rt.alloc())?;
        for (place, value) in *changes {
            if let Some(byte) = bytes.get_mut(*place) {
                *byte = *value;
            }
        }
        let left = link_alone(&rt, rt.alloc(), "gen0.o", bytes, &[])?;
        assert!(rt; is_linked(&left));
        assert_eq!(rt; left.depot.bytes("a.out"), plain.depot.bytes("a.out"));
    }
    Ok(())
}

const MANY: usize = 70_000;

/// A section of two bytes.
const SMALL: Section = section!(b".text", 1, 6, 2; b"\x01\0");
/// The last section: a jump to symbol 2.
const LAST: Section = section!(b".text", 1, 6, 2; b"\xef\0\0\0"; relocs: &[reloc!(0, 17, 2, 0)]);

/// `_start` in the last section, and `f` in the one whose number is that of ABS where a symbol's entry has it.
const BEYOND: &[Symbol] = &[
    symbol!(b"_start", 1, 2, ELSEWHERE + 70_000, 0, 4),
    symbol!(b"f", 1, 2, ELSEWHERE + 0xfff1, 0, 4),
];

/// An object of these sections and symbols.
fn object_with(
    alloc: Global,
    sections: &[Section],
    symbols: &[Symbol],
) -> Result<Vec<u8>, AllocError> {
    let object = record!(Object; flags: 0, sections: sections, symbols: symbols);
    object_of(alloc, &object)
}

/// An object of 70,000 sections of its own.
fn many(alloc: Global) -> Result<Vec<u8>, AllocError> {
    let mut sections = vec![in alloc; SMALL; MANY]?;
    if let Some(last) = sections.get_mut(MANY - 1) {
        *last = LAST;
    }
    object_with(alloc, sections.as_slice(), BEYOND)
}

#[test]
fn sections_past_sixteen_bits_are_linked(rt: HostRuntime) -> Result<(), Fail> {
    for workers in [["--threads", "1"], ["--threads", "64"]] {
        let bytes = many(rt.alloc())?;
        let left = link_alone(&rt, rt.alloc(), "many.o", bytes, &workers)?;
        assert!(rt; is_linked(&left));
        let bytes = left.depot.bytes("a.out").unwrap_or(b"".as_slice());
        // Section 1 stands at 0x11000, the last at 0x332de: the jump goes 8,958 bytes back.
        assert_eq!(rt; bytes.get(24..28), Some(b"\xde\x32\x03\0".as_slice()));
        let jump = bytes.get(0x232de..0x232e2);
        assert_eq!(rt; jump, Some(b"\xef\xd0\x3f\xd0".as_slice()));
    }
    Ok(())
}

/// A small section in a COMDAT group.
const IN_GROUP: Section = section!(SMALL => flags: 0x206);
/// A COMDAT group of section 69,999; its signature is the name of symbol 3.
const HIGH_GROUP: Section = section!(GROUP => bytes: b"\x01\0\0\0\x6f\x11\x01\0", info: 3);

/// `_start`, `f` far off, and `n` in section 69,999.
const OF_GROUP: &[Symbol] = &[
    symbol!(b"_start", 1, 2, ELSEWHERE + 70_000, 0, 4),
    symbol!(b"f", 1, 2, ELSEWHERE + 0xfff1, 0, 4),
    symbol!(b"n", 1, 2, ELSEWHERE + 69_999, 0, 2),
];

/// An object of 70,000 sections, of which the first is the group of the last but one.
fn many_with_group(alloc: Global) -> Result<Vec<u8>, AllocError> {
    let mut sections = vec![in alloc; SMALL; MANY]?;
    if let Some(first) = sections.get_mut(0) {
        *first = HIGH_GROUP;
    }
    if let Some(member) = sections.get_mut(MANY - 2) {
        *member = IN_GROUP;
    }
    if let Some(last) = sections.get_mut(MANY - 1) {
        *last = LAST;
    }
    object_with(alloc, sections.as_slice(), OF_GROUP)
}

/// The first copy of the group.
const FIRST_COPY: Object =
    object!([section!(GROUP => bytes: b"\x01\0\0\0\x02\0\0\0"), IN_GROUP]; [symbol!(b"n", 1, 2, 2, 0, 2)]);

/// Links the first copy and another file.
fn link_after_first<R: Threads + Sync>(
    rt: &R,
    alloc: Global,
    bytes: Vec<u8>,
) -> Result<Left, AllocError> {
    let words = words_of(alloc, &["rvld", "-s", "first.o", "many.o"], &[])?;
    let mut files: Files = Vec::new(alloc);
    files.push(("first.o".to_string(alloc)?, object_of(alloc, &FIRST_COPY)?))?;
    files.push(("many.o".to_string(alloc)?, bytes))?;
    run_over(rt, alloc, words.as_slice(), files, &SOUND, &OpenGate)
}

#[test]
fn groups_name_sections_past_sixteen_bits(rt: HostRuntime) -> Result<(), Fail> {
    let bytes = many_with_group(rt.alloc())?;
    let left = link_after_first(&rt, rt.alloc(), bytes)?;
    assert!(rt; is_linked(&left));
    let bytes = left.depot.bytes("a.out").unwrap_or(b"".as_slice());
    // The first copy stands at 0x11000, section 2 after it, and the last at 0x332dc, without section 69,999: the jump goes 8,956 bytes back.
    assert_eq!(rt; bytes.get(24..28), Some(b"\xdc\x32\x03\0".as_slice()));
    let jump = bytes.get(0x232dc..0x232e0);
    assert_eq!(rt; jump, Some(b"\xef\xd0\x5f\xd0".as_slice()));
    Ok(())
}

/// An object of so many sections of its own, where `_start` is in the last and `f` in the first.
fn of_sections(alloc: Global, own: usize) -> Result<Vec<u8>, AllocError> {
    let mut sections = vec![in alloc; SMALL; own]?;
    if let Some(last) = sections.last_mut() {
        *last = LAST;
    }
    let symbols = [
        symbol!(START => section: own as u64),
        symbol!(START => name: b"f"),
    ];
    object_with(alloc, sections.as_slice(), &symbols)
}

/// How many sections an object has of its own, five fewer than in all, and what stands in `e_shnum` and `e_shstrndx`.
const COUNTS: &[(usize, &[u8])] = &[
    (65_274, b"\xff\xfe\xfe\xfe"),
    (65_275, b"\0\0\xff\xfe"),
    (65_276, b"\0\0\xff\xff"),
];

#[test]
fn counts_around_the_first_reserved_one(rt: HostRuntime) -> Result<(), Fail> {
    for (own, fields) in COUNTS {
        let bytes = of_sections(rt.alloc(), *own)?;
        assert_eq!(rt; bytes.get(60..64), Some(*fields));
        let left = link_alone(&rt, rt.alloc(), "many.o", bytes, &[])?;
        assert!(rt; is_linked(&left), "{own} sections");
    }
    Ok(())
}
