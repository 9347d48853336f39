//! Links of generated objects (`--self-input`), and what is said of them.

use super::{Holds, OwnStores};
use elf_bytes::{Image, image, listed};
use link_driver::{Gate, OpenGate};
use link_examples::images::{FIRST, STACK};
use link_examples::{Link, Refusal, SOUND, Store, WORKERS, call, link, refusal};
use link_runs::{Left, run_with};
use std::alloc::{AllocError, Global};
use std::test::Fail;
use std::thread::Threads;

/// One object: a call, which is shortened, a string, and its address.
const ONE: Image = image!(FIRST => flags: 5, table: 0x2028,
    segments: &[[1, 4, 0, 0x10000, 0x123, 0x123, 4096], [1, 5, 0x1000, 0x11000, 20, 20, 4096], [1, 6, 0x2000, 0x12000, 8, 8, 4096], STACK],
    contents: &[(0x120, b"s0"), (0x1000, b"\xef\0\x80\0\x67\x80\0\0\x13\x05\0\0\x67\x80\0\0\x67\x80\0\0"), (0x2000, b"\x20\x01\x01\0\0\0\0\0"),
        (0x2008, b"\0.rodata\0.text\0.data\0.shstrtab\0")],
    sections: &[[1, 1, 2, 0x10120, 0x120, 3, 1], [9, 1, 6, 0x11000, 0x1000, 20, 4], [15, 1, 3, 0x12000, 0x2000, 8, 8], [21, 3, 0, 0, 0x2008, 31, 1]]);

/// Two objects, of which the first calls the second.
const TWO: Image = image!(ONE => table: 0x2030,
    segments: &[[1, 4, 0, 0x10000, 0x126, 0x126, 4096], [1, 5, 0x1000, 0x11000, 44, 44, 4096], [1, 6, 0x2000, 0x12000, 16, 16, 4096], STACK],
    contents: &[(0x120, b"s0\0s1"), (0x1000, b"\xef\0\xc0\0\xef\0\x40\x01\x67\x80\0\0\x13\x05\0\0\x67\x80\0\0\x67\x80\0\0"),
        (0x1018, b"\xef\0\x80\0\x67\x80\0\0\x13\x05\x10\0\x67\x80\0\0\x67\x80\0\0"), (0x2000, b"\x20\x01\x01\0\0\0\0\0\x23\x01\x01\0\0\0\0\0"),
        (0x2010, b"\0.rodata\0.text\0.data\0.shstrtab\0")],
    sections: &[[1, 1, 2, 0x10120, 0x120, 6, 1], [9, 1, 6, 0x11000, 0x1000, 44, 4], [15, 1, 3, 0x12000, 0x2000, 16, 8], [21, 3, 0, 0, 0x2010, 31, 1]]);

/// Two objects, of which the first calls the second, with their symbols.
const TWO_LISTED: Image = image!(TWO => table: 0x2120,
    contents: &[(0x120, b"s0\0s1"), (0x1000, b"\xef\0\xc0\0\xef\0\x40\x01\x67\x80\0\0\x13\x05\0\0\x67\x80\0\0\x67\x80\0\0"),
        (0x1018, b"\xef\0\x80\0\x67\x80\0\0\x13\x05\x10\0\x67\x80\0\0\x67\x80\0\0"), (0x2000, b"\x20\x01\x01\0\0\0\0\0\x23\x01\x01\0\0\0\0\0")],
    listed: listed!(0x2010, b"\0_start\0d0\0d1\0f0\0f1\0g0\0g1\0", b"\0.rodata\0.text\0.data\0.symtab\0.strtab\0.shstrtab\0";
        [1, 0x12, 2, 0x11000, 12], [8, 0x12, 2, 0x11014, 4], [11, 0x12, 2, 0x11028, 4], [14, 0x12, 2, 0x11000, 12], [17, 0x12, 2, 0x11018, 8],
        [20, 0x12, 2, 0x1100c, 8], [23, 0x12, 2, 0x11020, 8]),
    sections: &[[1, 1, 2, 0x10120, 0x120, 6, 1], [9, 1, 6, 0x11000, 0x1000, 44, 4], [15, 1, 3, 0x12000, 0x2000, 16, 8],
        [21, 2, 0, 0, 0x2010, 192, 8], [29, 3, 0, 0, 0x20d0, 26, 1], [37, 3, 0, 0, 0x20ea, 47, 1]]);

/// Two objects and their map.
pub const TWO_MAPPED: Link =
    link!("-s", "--Map", "m", "--self-input", "2" => TWO; lines: &["rvld map 1", "entry 0000000000011000",
    "section 0000000000010120 0000000000000006 .rodata", "pool 0000000000010120 0000000000000006", "section 0000000000011000 000000000000002c .text",
    "input 0000000000011000 000000000000000c gen0.o 1 .text.f", "input 000000000001100c 0000000000000008 gen0.o 3 .text.g",
    "input 0000000000011014 0000000000000004 gen0.o 4 .text.d", "input 0000000000011018 0000000000000008 gen1.o 1 .text.f",
    "input 0000000000011020 0000000000000008 gen1.o 3 .text.g", "input 0000000000011028 0000000000000004 gen1.o 4 .text.d",
    "section 0000000000012000 0000000000000010 .data", "input 0000000000012000 0000000000000008 gen0.o 6 .data",
    "input 0000000000012008 0000000000000008 gen1.o 6 .data", "symbol 0000000000011000 _start", "symbol 0000000000011014 d0",
    "symbol 0000000000011028 d1", "symbol 0000000000011000 f0", "symbol 0000000000011018 f1", "symbol 000000000001100c g0",
    "symbol 0000000000011020 g1"], said: "objects 2 kept 10 folded 0 relaxed 3 pieces 2 image 8208\n");

/// Two objects alone.
pub const TWO_ALONE: Link =
    link!(TWO_MAPPED => words: &["rvld", "--self-input", "2"], image: TWO_LISTED, lines: &[]);

/// Two objects, and why a section is kept.
pub const TWO_EXPLAINED: Link = link!(TWO_ALONE =>
    words: &["rvld", "--self-input", "2", "--why-live", "g1"],
    said: "objects 2 kept 10 folded 0 relaxed 3 pieces 2 image 8208\nlive g1\nroot gen0.o 1 .text.f\nto gen1.o 1 .text.f\nto gen1.o 3 .text.g\n");

/// Few objects.
pub const FEW: &[Link] = &[
    TWO_ALONE,
    TWO_EXPLAINED,
    TWO_MAPPED,
    link!("-s", "--self-input", "1" => ONE; said: "objects 1 kept 5 folded 0 relaxed 1 pieces 1 image 8200\n"),
    // The call as it is.
    link!("-s", "--no-relax", "--self-input=1" => image!(ONE =>
        segments: &[[1, 4, 0, 0x10000, 0x123, 0x123, 4096], [1, 5, 0x1000, 0x11000, 24, 24, 4096], [1, 6, 0x2000, 0x12000, 8, 8, 4096], STACK],
        contents: &[(0x120, b"s0"), (0x1000, b"\x97\0\0\0\xe7\x80\xc0\0\x67\x80\0\0\x13\x05\0\0\x67\x80\0\0\x67\x80\0\0"),
            (0x2000, b"\x20\x01\x01\0\0\0\0\0"), (0x2008, b"\0.rodata\0.text\0.data\0.shstrtab\0")],
        sections: &[[1, 1, 2, 0x10120, 0x120, 3, 1], [9, 1, 6, 0x11000, 0x1000, 24, 4], [15, 1, 3, 0x12000, 0x2000, 8, 8], [21, 3, 0, 0, 0x2008, 31, 1]]); said: "objects 1 kept 5 folded 0 relaxed 0 pieces 1 image 8200\n"),
];

/// Generated objects are wanted in another number, beside files, or twice.
pub const REFUSED: &[Refusal] = &[
    refusal!("--self-input", "0" => 2, 0, "bad command"),
    refusal!("--self-input", "65537" => 2, 0, "bad command"),
    refusal!("--self-input", "2", "a.o" => 2, 0, "bad command"),
    refusal!("--self-input", "2", "--self-input", "2" => 2, 0, "bad command"),
    refusal!("--self-input", "two" => 2, 0, "bad command"),
    refusal!("--self-input", "2", "--undefined", "a,,b" => 2, 0, "bad command"),
];

/// Many objects: the words, what is said, and how many bytes the executable has.
pub type Many<'a> = (&'a [&'a str], &'a str, usize);

/// Words after the program's name, what is said, and how many bytes the executable has, where that is asked.
macro_rules! said {
    ($($word:literal),+ => $said:literal $(, $length:literal)?) => {
        (&["rvld" $(, $word)+], $said $(, $length)?)
    };
}

const FIFTEEN: Many = said!("--self-input", "15", "--gc-sections", "--icf", "all" =>
    "objects 15 kept 30 folded 9 relaxed 28 pieces 0 image 4320\n", 5552);

pub const FOUR_THOUSAND: Many = said!("-s", "--self-input", "4000" =>
    "objects 4000 kept 20000 folded 0 relaxed 7999 pieces 11 image 134400\n", 134_752);

/// Words, and what is said: of a name that is asked for the section is kept, with what it leads to; of equal code each copy is folded, but not the
/// one of a name that is kept unique, nor those whose address is taken; and why a section is kept, and why two are not folded.
const SAID: &[(&[&str], &str)] = &[
    said!("--gc-sections", "--undefined", "d1", "--self-input", "2" => "objects 2 kept 5 folded 0 relaxed 3 pieces 0 image 4136\n"),
    said!("--gc-sections", "--undefined", "nowhere,_end", "--self-input", "2" => "objects 2 kept 4 folded 0 relaxed 3 pieces 0 image 4132\n"),
    said!("--icf", "all", "--self-input", "3" => "objects 3 kept 15 folded 2 relaxed 5 pieces 3 image 8216\n"),
    said!("--icf", "all", "--keep-unique", "d1", "--self-input", "3" => "objects 3 kept 15 folded 1 relaxed 5 pieces 3 image 8216\n"),
    said!("--icf", "safe", "--self-input", "15", "--gc-sections" => "objects 15 kept 30 folded 9 relaxed 28 pieces 0 image 4320\n"),
    said!("--gc-sections", "--why-live", "g1", "--self-input", "2" =>
        "objects 2 kept 4 folded 0 relaxed 3 pieces 0 image 4132\nlive g1\nroot gen0.o 1 .text.f\nto gen1.o 1 .text.f\nto gen1.o 3 .text.g\n"),
    said!("--self-input", "15", "--why-apart", "f3,f4" =>
        "objects 15 kept 75 folded 0 relaxed 29 pieces 11 image 8312\napart f3 f4\npair gen3.o 1 gen4.o 1\nvia 0 pair gen3.o 3 gen4.o 3\ndiffer key\n"),
    said!("--self-input", "15", "--why-apart", "f7,f14" => "objects 15 kept 75 folded 0 relaxed 29 pieces 11 image 8312\nsame f7 f14\n"),
    said!("--self-input", "2", "--why-live", "d1", "--why-apart", "f0,nowhere" =>
        "objects 2 kept 10 folded 0 relaxed 3 pieces 2 image 8208\ndead d1\nunknown nowhere\n"),
];

/// Links generated objects.
pub fn link_many<R: Threads + Sync, G: Gate>(
    rt: &R,
    alloc: Global,
    words: &[&str],
    workers: &[&str],
    gate: &G,
) -> Result<Left, AllocError> {
    let call = call!(words, workers, Store::Objects, &[]; &SOUND);
    run_with(rt, alloc, &OwnStores, &call, gate)
}

/// The bytes of the executable.
pub fn executable(left: &Left) -> &[u8] {
    left.depot.bytes("a.out").unwrap_or(b"".as_slice())
}

/// Whether it has so many bytes, and all was said that should be.
fn is_whole(left: &Left, many: &Many) -> bool {
    left.status == 0
        && left.err.calls() == 0
        && left.say.written() == many.1.as_bytes()
        && executable(left).len() == many.2
}

/// Whether a link of many objects is as it should be.
fn is_linked<R: Threads + Sync>(rt: &R, alloc: Global, many: &Many, workers: &[&str]) -> Holds {
    let left = link_many(rt, alloc, many.0, workers, &OpenGate)?;
    Ok(is_whole(&left, many))
}

/// Whether it is, and the executable has the same bytes, with each number of workers.
fn is_the_same<R: Threads + Sync>(rt: &R, alloc: Global, many: &Many) -> Holds {
    let first = link_many(rt, alloc, many.0, &[], &OpenGate)?;
    for workers in WORKERS {
        let left = link_many(rt, alloc, many.0, workers, &OpenGate)?;
        if !is_whole(&left, many) || executable(&left) != executable(&first) {
            return Ok(false);
        }
    }
    Ok(true)
}

#[test]
fn any_number_of_workers_folds_the_same(rt: HostRuntime) -> Result<(), Fail> {
    assert!(rt; is_the_same(&rt, rt.alloc(), &FIFTEEN)?);
    Ok(())
}

#[test]
fn names_and_addresses_keep_and_part_sections(rt: HostRuntime) -> Result<(), Fail> {
    for row in SAID {
        let left = link_many(&rt, rt.alloc(), row.0, &[], &OpenGate)?;
        assert!(rt; left.status == 0 && left.err.calls() == 0);
        assert!(rt; left.say.written() == row.1.as_bytes());
    }
    Ok(())
}

// The links of four thousand objects are tests of their own, since each takes seconds where memory is checked.
#[test]
fn many_objects_by_the_default_workers(rt: HostRuntime) -> Result<(), Fail> {
    assert!(rt; is_linked(&rt, rt.alloc(), &FOUR_THOUSAND, &[])?);
    Ok(())
}

#[test]
fn many_objects_by_one_worker(rt: HostRuntime) -> Result<(), Fail> {
    assert!(rt; is_linked(&rt, rt.alloc(), &FOUR_THOUSAND, &["--threads", "1"])?);
    Ok(())
}

#[test]
fn many_objects_by_two_workers(rt: HostRuntime) -> Result<(), Fail> {
    assert!(rt; is_linked(&rt, rt.alloc(), &FOUR_THOUSAND, &["--threads", "2"])?);
    Ok(())
}

#[test]
fn many_objects_by_three_workers(rt: HostRuntime) -> Result<(), Fail> {
    assert!(rt; is_linked(&rt, rt.alloc(), &FOUR_THOUSAND, &["--threads", "3"])?);
    Ok(())
}

#[test]
fn many_objects_by_all_workers(rt: HostRuntime) -> Result<(), Fail> {
    assert!(rt; is_linked(&rt, rt.alloc(), &FOUR_THOUSAND, &["--threads", "64"])?);
    Ok(())
}
