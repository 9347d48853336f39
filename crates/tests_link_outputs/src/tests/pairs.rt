//! Distances as ULEB128 numbers, each of a pair of relocations (RISC-V ELF psABI, `R_RISCV_SET_ULEB128` and `R_RISCV_SUB_ULEB128`), and distances
//! to functions: over a shortened call, of all lengths, after and before other values at the same place, over the end of a block, and refused.

use elf_bytes::{Image, Section, Symbol, image, object, reloc, section, symbol, text};
use link_examples::images::{FIRST, READ, STACK};
use link_examples::objects::{Input, RETURN, START};
use link_examples::{Files, Link, Refusal, Store, inputs, link, push_objects, refusal};
use std::alloc::{AllocError, Global};

/// Bytes that are only read, at any place: the bytes, and their relocations.
macro_rules! read_only {
    ($bytes:expr $(; $($reloc:expr),+)?) => {
        section!(b".rodata", 1, 2, 1; $bytes; relocs: &[$($($reloc),+)?])
    };
}

/// A call of the function after it, which may be shortened.
const CALLED: Section =
    text!(b"\x97\0\0\0\xe7\x80\0\0\x67\x80\0\0"; reloc!(0, 19, 2, 0), reloc!(0, 51, 2, 0));

/// The function after the call.
const F: Symbol = symbol!(b"f", 1, 2, 1, 8, 4);
/// A number.
const NUMBER: Symbol = symbol!(b"n", 1, 0, 0xfff1, 0, 0);

const INPUTS: &[Input] = inputs!(
    // From the function back to the beginning.
    "u.o" => object!([CALLED, read_only!(b"\x80\0"; reloc!(0, 60, 2, 0), reloc!(0, 61, 1, 0))]; [START, F]),
    // From the beginning on to the function.
    "exchanged.o" => object!([CALLED, read_only!(b"\x80\0"; reloc!(0, 60, 1, 0), reloc!(0, 61, 2, 0))]; [START, F]),
    // A number without an end.
    "unended.o" => object!([CALLED, read_only!(b"\x80"; reloc!(0, 60, 2, 0), reloc!(0, 61, 1, 0))]; [START, F]),
    // The distance to the function.
    "plt32.o" => object!([CALLED, section!(b".rodata", 1, 2, 4; b"\0\0\0\0"; relocs: &[reloc!(0, 59, 2, 0)])]; [START, F]),
    // Two bytes alone, after a byte and before a sum at one place; ten bytes; the greatest number of one, nine and ten bytes; two pairs at one place.
    "many.o" => object!([
        CALLED,
        read_only!(
            b"\x80\0\x80\0\x80\0\xff\xff\xff\xff\xff\xff\xff\xff\xff\x01\0\x80\x80\x80\x80\x80\x80\x80\x80\0\x80\x80\x80\x80\x80\x80\x80\x80\x80\0\x80\0";
                reloc!(0, 60, 2, 0), reloc!(0, 61, 1, 0), reloc!(2, 54, 3, 0), reloc!(2, 60, 2, 0), reloc!(2, 61, 1, 0), reloc!(4, 60, 2, 0), reloc!(4, 61, 1, 0),
                reloc!(4, 33, 4, 0), reloc!(6, 60, 2, 0), reloc!(6, 61, 1, 0), reloc!(16, 60, 5, 0), reloc!(16, 61, 6, 0), reloc!(17, 60, 7, 0),
                reloc!(17, 61, 6, 0), reloc!(26, 60, 8, 0), reloc!(26, 61, 6, 0), reloc!(36, 60, 2, 0), reloc!(36, 61, 1, 0), reloc!(36, 60, 5, 0),
                reloc!(36, 61, 6, 0)),
    ]; [START, F, symbol!(b"five", 1, 0, 0xfff1, 5, 0), symbol!(b"one", 1, 0, 0xfff1, 1, 0), symbol!(b"most", 1, 0, 0xfff1, 127, 0), NUMBER,
        symbol!(b"half", 1, 0, 0xfff1, 0x7fff_ffff_ffff_ffff, 0), symbol!(b"all", 1, 0, 0xfff1, 0xffff_ffff_ffff_ffff, 0)]),
    // One more than a byte has room for.
    "too-many.o" => object!([
        CALLED, read_only!(b"\0"; reloc!(0, 60, 3, 0), reloc!(0, 61, 4, 0)),
    ]; [START, F, symbol!(b"n", 1, 0, 0xfff1, 128, 0), symbol!(b"nil", 1, 0, 0xfff1, 0, 0)]),
    // One more than 64 bits have, in ten bytes.
    "beyond.o" => object!([
        CALLED, read_only!(b"\x80\x80\x80\x80\x80\x80\x80\x80\x80\0"; reloc!(0, 60, 3, 1), reloc!(0, 61, 4, 0)),
    ]; [START, F, symbol!(b"n", 1, 0, 0xfff1, 0xffff_ffff_ffff_ffff, 0), symbol!(b"nil", 1, 0, 0xfff1, 0, 0)]),
    // The first part of a pair alone.
    "alone.o" => object!([CALLED, read_only!(b"\x80\0"; reloc!(0, 60, 2, 0))]; [START, F]),
    // The second part of a pair alone.
    "second.o" => object!([CALLED, read_only!(b"\x80\0"; reloc!(0, 61, 2, 0))]; [START, F]),
);

const PLACED_INPUTS: &[Input] = inputs!(
    // The two parts with a hint between them.
    "parted.o" => object!([CALLED, read_only!(b"\x80\0"; reloc!(0, 60, 2, 0), reloc!(0, 51, 2, 0), reloc!(0, 61, 1, 0))]; [START, F]),
    // A second part too many.
    "twice.o" => object!([CALLED, read_only!(b"\x80\0"; reloc!(0, 60, 2, 0), reloc!(0, 61, 1, 0), reloc!(0, 61, 1, 0))]; [START, F]),
    // The two parts at two places.
    "apart.o" => object!([CALLED, read_only!(b"\0\0"; reloc!(0, 60, 2, 0), reloc!(1, 61, 1, 0))]; [START, F]),
    // A number past the end of its section.
    "past.o" => object!([CALLED, read_only!(b"\x80\0"; reloc!(2, 60, 2, 0), reloc!(2, 61, 1, 0))]; [START, F]),
    // A number of eleven bytes.
    "long.o" => object!([CALLED, read_only!(b"\x80\x80\x80\x80\x80\x80\x80\x80\x80\x80\0"; reloc!(0, 60, 2, 0), reloc!(0, 61, 1, 0))]; [START, F]),
    // Ten bytes, of which the first five are the last of the first block of 65,536 bytes.
    "over.o" => object!([
        CALLED, section!(b".rodata", 8, 2, 1; b""; size: 65299),
        read_only!(b"\x80\x80\x80\x80\x80\x80\x80\x80\x80\0"; reloc!(0, 60, 3, 0), reloc!(0, 61, 4, 0)),
    ]; [START, F, symbol!(b"large", 1, 0, 0xfff1, 0xfedc_ba98_7654_3210, 0), symbol!(b"nil", 1, 0, 0xfff1, 0, 0)]),
    // Two pairs whose entries stand in no order but for those of one place.
    "unsorted.o" => object!([
        CALLED, read_only!(b"\x80\0\x80\0"; reloc!(2, 60, 3, 0), reloc!(0, 60, 2, 0), reloc!(2, 61, 4, 0), reloc!(0, 61, 1, 0)),
    ]; [START, F, symbol!(b"five", 1, 0, 0xfff1, 5, 0), symbol!(b"nil", 1, 0, 0xfff1, 0, 0)]),
    // A number of two bytes, and a call after it.
    "beside.o" => object!([
        section!(b".text", 1, 6, 2; b"\x80\0\x97\0\0\0\xe7\x80\0\0\x67\x80\0\0"; relocs: &[reloc!(0, 60, 2, 0), reloc!(0, 61, 1, 0), reloc!(2, 19, 2, 0)]),
    ]; [symbol!(b"_start", 1, 2, 1, 2, 8), symbol!(b"f", 1, 2, 1, 10, 4)]),
    // Code of which only the distance of `b` from `a` is asked for.
    "keeps.o" => object!([
        text!(b"\x67\x80\0\0"; reloc!(0, 0, 1, 0)), read_only!(b"\0"; reloc!(0, 60, 4, 0), reloc!(0, 61, 3, 0)),
        section!(b".text.a", 1, 6, 4; b"\x73\0\x10\0"), section!(b".text.b", 1, 6, 4; b"\x01\0\x01\0"), section!(b".text.c", 1, 6, 4; b"\x13\0\0\0"),
    ]; [symbol!(b".L0", 0, 0, 2, 0, 0), START, symbol!(b"a", 1, 2, 3, 0, 4), symbol!(b"b", 1, 2, 4, 0, 4)]),
);

const MET_INPUTS: &[Input] = inputs!(
    // The distance of what nothing defines, and the distance from there.
    "to.o" => object!([RETURN, read_only!(b"\0"; reloc!(0, 60, 2, 0), reloc!(0, 61, 1, 0))]; [START, symbol!(b"k", 1, 0, 0, 0, 0)]),
    "from.o" => object!([RETURN, read_only!(b"\0"; reloc!(0, 60, 1, 0), reloc!(0, 61, 2, 0))]; [START, symbol!(b"k", 1, 0, 0, 0, 0)]),
    // A pair in a section without bytes.
    "bss.o" => object!([CALLED, section!(b".bss", 8, 3, 1; b""; size: 2, relocs: &[reloc!(0, 60, 2, 0), reloc!(0, 61, 1, 0)])]; [START, F]),
    // A first part alone, and a call that meets a pair.
    "met.o" => object!([
        text!(b"\x67\x80\0\0\x97\0\0\0\xe7\x80\0\0";
            reloc!(0, 60, 2, 0), reloc!(4, 18, 1, 0), reloc!(8, 60, 2, 0), reloc!(8, 61, 1, 0)),
    ]; [START, F]),
    // A first part alone, and an alignment that meets a pair.
    "nops.o" => object!([
        text!(b"\x67\x80\0\0\x13\0\0\0\x67\x80\0\0";
            reloc!(0, 60, 2, 0), reloc!(4, 43, 0, 4), reloc!(6, 60, 2, 0), reloc!(6, 61, 1, 0)),
    ]; [START, F]),
    // A call that meets the last byte of a number of three.
    "later.o" => object!([text!(b"\x80\x80\0\0\x97\0\0\0\xe7\x80\0\0"; reloc!(0, 60, 2, 0), reloc!(0, 61, 1, 0), reloc!(2, 18, 1, 0))]; [START, F]),
    // First parts alone, the later one first.
    "unsorted-alone.o" => object!([CALLED, read_only!(b"\x80\0\x80\0"; reloc!(2, 60, 2, 0), reloc!(0, 60, 2, 0))]; [START, F]),
    // The second part before the first.
    "reversed.o" => object!([CALLED, read_only!(b"\x80\0"; reloc!(0, 61, 1, 0), reloc!(0, 60, 2, 0))]; [START, F]),
);

/// Adds the files that are at hand. Each list has a function of its own, since what a function holds is proved in one go.
pub fn push_files(files: &mut Files, alloc: Global) -> Result<(), AllocError> {
    push_objects(files, alloc, INPUTS)?;
    push_placed(files, alloc)?;
    push_met(files, alloc)
}

fn push_placed(files: &mut Files, alloc: Global) -> Result<(), AllocError> {
    push_objects(files, alloc, PLACED_INPUTS)
}

fn push_met(files: &mut Files, alloc: Global) -> Result<(), AllocError> {
    push_objects(files, alloc, MET_INPUTS)
}

const NAMES: &[u8] = b"\0.rodata\0.text\0.shstrtab\0";

/// The pair over a call of four bytes.
const SHORT: Image = image!(FIRST => table: 0x1028,
    segments: &[[1, 4, 0, 0x10000, 234, 234, 4096], [1, 5, 0x1000, 0x11000, 8, 8, 4096], STACK],
    contents: &[(0xe8, b"\x84\0"), (0x1000, b"\xef\0\x40\0\x67\x80\0\0"), (0x1008, NAMES)],
    sections: &[[1, 1, 2, 0x100e8, 0xe8, 2, 1], [9, 1, 6, 0x11000, 0x1000, 8, 4], [15, 3, 0, 0, 0x1008, 25, 1]]);

pub const WRITTEN: &[Link] = &[
    link!("-s", "u.o" => SHORT; store: Store::Kinds),
    // And over one of eight.
    link!("-s", "--no-relax", "u.o" => image!(SHORT =>
        segments: &[[1, 4, 0, 0x10000, 234, 234, 4096], [1, 5, 0x1000, 0x11000, 12, 12, 4096], STACK],
        contents: &[(0xe8, b"\x88\0"), (0x1000, b"\x97\0\0\0\xe7\x80\x80\0\x67\x80\0\0"), (0x100c, NAMES)],
        sections: &[[1, 1, 2, 0x100e8, 0xe8, 2, 1], [9, 1, 6, 0x11000, 0x1000, 12, 4], [15, 3, 0, 0, 0x100c, 25, 1]]); store: Store::Kinds),
    // A distance to the function.
    link!("-s", "plt32.o" => image!(SHORT =>
        segments: &[[1, 4, 0, 0x10000, 236, 236, 4096], [1, 5, 0x1000, 0x11000, 8, 8, 4096], STACK],
        contents: &[(0xe8, b"\x1c\x0f\0\0"), (0x1000, b"\xef\0\x40\0\x67\x80\0\0"), (0x1008, NAMES)],
        sections: &[[1, 1, 2, 0x100e8, 0xe8, 4, 4], [9, 1, 6, 0x11000, 0x1000, 8, 4], [15, 3, 0, 0, 0x1008, 25, 1]]); store: Store::Kinds),
    link!("-s", "many.o" => image!(SHORT =>
        segments: &[[1, 4, 0, 0x10000, 270, 270, 4096], [1, 5, 0x1000, 0x11000, 8, 8, 4096], STACK],
        contents: &[
            (0xe8, b"\x84\0\x04\0\x85\0\x84\x80\x80\x80\x80\x80\x80\x80\x80\0\x7f\xff\xff\xff\xff\xff\xff\xff\xff\x7f\xff\xff\xff\xff\xff\xff\xff\xff\xff\x01\xff\0"),
            (0x1000, b"\xef\0\x40\0\x67\x80\0\0"), (0x1008, NAMES)],
        sections: &[[1, 1, 2, 0x100e8, 0xe8, 38, 1], [9, 1, 6, 0x11000, 0x1000, 8, 4], [15, 3, 0, 0, 0x1008, 25, 1]]); store: Store::Kinds),
    // A number in the last five bytes of the first block and the first five of the second.
    link!("-s", "over.o" => image!(SHORT => entry: 0x21000, table: 0x11028,
        segments: &[[1, 4, 0, 0x10000, 0x10005, 0x10005, 4096], [1, 5, 0x11000, 0x21000, 8, 8, 4096], STACK],
        contents: &[(0xfffb, b"\x90\xe4\xd0\xb2\x87\xd3\xae\xee\xfe\x01"), (0x11000, b"\xef\0\x40\0\x67\x80\0\0"), (0x11008, NAMES)],
        sections: &[[1, 1, 2, 0x100e8, 0xe8, 0xff1d, 1], [9, 1, 6, 0x21000, 0x11000, 8, 4], [15, 3, 0, 0, 0x11008, 25, 1]]); store: Store::Kinds),
    // Four, and five.
    link!("-s", "unsorted.o" => image!(SHORT =>
        segments: &[[1, 4, 0, 0x10000, 236, 236, 4096], [1, 5, 0x1000, 0x11000, 8, 8, 4096], STACK],
        contents: &[(0xe8, b"\x84\0\x85\0"), (0x1000, b"\xef\0\x40\0\x67\x80\0\0"), (0x1008, NAMES)],
        sections: &[[1, 1, 2, 0x100e8, 0xe8, 4, 1], [9, 1, 6, 0x11000, 0x1000, 8, 4], [15, 3, 0, 0, 0x1008, 25, 1]]); store: Store::Kinds),
    // Eight, which is the length of the call after it.
    link!("-s", "beside.o" => image!(FIRST => entry: 0x11002,
        segments: &[READ, [1, 5, 0x1000, 0x11000, 14, 14, 4096], STACK],
        contents: &[(0x1000, b"\x88\0\x97\0\0\0\xe7\x80\x80\0\x67\x80\0\0"), (0x100e, b"\0.text\0.shstrtab\0")],
        sections: &[[1, 1, 6, 0x11000, 0x1000, 14, 2], [7, 3, 0, 0, 0x100e, 17, 1]]); store: Store::Kinds),
    // Four, and the code that is asked for.
    link!("-s", "--gc-sections", "keeps.o" => image!(SHORT =>
        segments: &[[1, 4, 0, 0x10000, 233, 233, 4096], [1, 5, 0x1000, 0x11000, 12, 12, 4096], STACK],
        contents: &[(0xe8, b"\x04"), (0x1000, b"\x67\x80\0\0\x73\0\x10\0\x01\0\x01\0"), (0x100c, NAMES)],
        sections: &[[1, 1, 2, 0x100e8, 0xe8, 1, 1], [9, 1, 6, 0x11000, 0x1000, 12, 4], [15, 3, 0, 0, 0x100c, 25, 1]]); store: Store::Kinds),
];

/// Numbers that do not fit.
pub const UNFIT: &[Refusal] = &[
    refusal!("-s", "exchanged.o" => 1, 1, "F24 Range file=exchanged.o section=2 place=0 name=f other=18446744073709551612"; store: Store::Kinds),
    refusal!("-s", "too-many.o" => 1, 1, "F24 Range file=too-many.o section=2 place=0 name=nil other=128"; store: Store::Kinds),
    refusal!("-s", "beyond.o" => 1, 1, "F24 Range file=beyond.o section=2 place=0 name=nil other=0"; store: Store::Kinds),
];

/// Distances of what is not defined.
pub const ABSENT: &[Refusal] = &[
    refusal!("-s", "to.o" => 1, 1, "F22 Undefined file=to.o section=2 place=0 name=k other=0"; store: Store::Kinds),
    refusal!("-s", "from.o" => 1, 1, "F22 Undefined file=from.o section=2 place=0 name=k other=0"; store: Store::Kinds),
];

/// Numbers that are not there, and those whose bytes a call or an alignment needs.
pub const WITHOUT_PLACE: &[Refusal] = &[
    refusal!("-s", "past.o" => 1, 1, "F11 BadReloc file=past.o section=4 place=136 name= other=0"; store: Store::Kinds),
    refusal!("-s", "bss.o" => 1, 1, "F11 BadReloc file=bss.o section=4 place=128 name= other=0"; store: Store::Kinds),
    refusal!("-s", "met.o" => 1, 1, "F11 BadReloc file=met.o section=2 place=128 name= other=0"; store: Store::Kinds),
    refusal!("-s", "nops.o" => 1, 1, "F11 BadReloc file=nops.o section=2 place=128 name= other=0"; store: Store::Kinds),
    refusal!("-s", "later.o" => 1, 1, "F11 BadReloc file=later.o section=2 place=128 name= other=0"; store: Store::Kinds),
];

/// Pairs of which a part is not there, and numbers without an end.
pub const WRONG: &[Refusal] = &[
    refusal!("-s", "unended.o" => 1, 1, "F14 BadUleb file=unended.o section=4 place=136 name= other=0"; store: Store::Kinds),
    refusal!("-s", "alone.o" => 1, 1, "F14 BadUleb file=alone.o section=4 place=136 name= other=0"; store: Store::Kinds),
    refusal!("-s", "second.o" => 1, 1, "F14 BadUleb file=second.o section=4 place=136 name= other=0"; store: Store::Kinds),
    refusal!("-s", "parted.o" => 1, 1, "F14 BadUleb file=parted.o section=4 place=136 name= other=0"; store: Store::Kinds),
    refusal!("-s", "twice.o" => 1, 1, "F14 BadUleb file=twice.o section=4 place=184 name= other=0"; store: Store::Kinds),
    refusal!("-s", "apart.o" => 1, 1, "F14 BadUleb file=apart.o section=4 place=136 name= other=0"; store: Store::Kinds),
    refusal!("-s", "long.o" => 1, 1, "F14 BadUleb file=long.o section=4 place=144 name= other=0"; store: Store::Kinds),
    refusal!("-s", "unsorted-alone.o" => 1, 1, "F14 BadUleb file=unsorted-alone.o section=4 place=160 name= other=0"; store: Store::Kinds),
    refusal!("-s", "reversed.o" => 1, 1, "F14 BadUleb file=reversed.o section=4 place=136 name= other=0"; store: Store::Kinds),
];
