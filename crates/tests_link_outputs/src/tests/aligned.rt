//! Nops of an alignment (RISC-V ELF psABI, R_RISCV_ALIGN): how many stay, what moves, where they are too few; and calls that may be shortened.

use elf_bytes::{Object, Reloc, Section, data, image, object, reloc, section, symbol, text};
use link_examples::images::{FIRST, NAMES, READ, READ_OF_FOUR, STACK, WEAK_CALL};
use link_examples::libraries::{Library, OFFER_OF_WEAK};
use link_examples::objects::{Input, RETURN, START, WEAKLY};
use link_examples::{
    Files, Link, Refusal, Store, code, inputs, link, objects_of, push_objects, refusal,
};
use std::alloc::{AllocError, Global};

/// Six bytes at the beginning, for a multiple of 8.
const TO_8: Reloc = reloc!(0, 43, 0, 6);

/// Two bytes, six that may go, and a `ret`.
const ALL_STAY: Object =
    object!([section!(b".text", 1, 6, 8; b"\x01\0\xff\xff\xff\xff\xff\xff\x67\x80\0\0"; relocs: &[reloc!(2, 43, 0, 6)])]; [START]);

/// Eight bytes.
const EIGHT: Section = section!(b".text", 1, 6, 8; b"\xff\xff\xff\xff\xff\xff\xff\xff");

/// `tail f`, which may be shortened, and `f`.
const TAIL: Object =
    object!([text!(b"\x17\x03\0\0\x67\0\x03\0\x67\x80\0\0"; reloc!(0, 19, 1, 0), reloc!(0, 51, 0, 0))]; [symbol!(b"f", 1, 2, 1, 8, 4), START]);
/// `call f`, the same.
const CALL: Object =
    object!(TAIL => sections: &[text!(b"\x97\0\0\0\xe7\x80\0\0\x67\x80\0\0"; reloc!(0, 19, 1, 0), reloc!(0, 51, 0, 0))]);

const LIBRARIES: &[Library] = &[OFFER_OF_WEAK];

const INPUTS: &[Input] = inputs!(
    "all.o" => ALL_STAY,
    // Six that may go, and a `ret`.
    "none.o" => object!(ALL_STAY => sections: &[section!(b".text", 1, 6, 8; b"\xff\xff\xff\xff\xff\xff\x67\x80\0\0"; relocs: &[TO_8])]),
    "returns.o" => object!([RETURN]; [START]),
    // Six that may go, and an `ebreak`, in a section that may stand at a multiple of 4.
    "some.o" => object!([text!(b"\xff\xff\xff\xff\xff\xff\x73\0\x10\0"; TO_8)]; []),
    // `f` after six bytes, `g` after six more, which jumps to `f`; and words of both, of places in the section and after it, and of distances.
    "moved.o" => object!([
        section!(b".text", 1, 6, 8; b"\xff\xff\xff\xff\xff\xff\x67\x80\0\0\xff\xff\xff\xff\xff\xff\xef\0\0\0\x73\0\x10\0";
            relocs: &[TO_8, reloc!(10, 43, 0, 6), reloc!(16, 17, 2, 0)]),
        data!(
            b"\0\0\0\0\0\0\0\0\0\0\0\0\0\0\0\0\0\0\0\0\0\0\0\0\0\0\0\0\0\0\0\0\0\0\0\0\0\0\0\0\0\0\0\0\0\0\0\0\0\0\0\0\0\0\0\0\0\0\0\0\0\0\0\0";
                reloc!(0, 2, 2, 0), reloc!(8, 2, 3, 0), reloc!(16, 2, 1, 16), reloc!(24, 2, 1, 24), reloc!(32, 2, 1, 12), reloc!(40, 2, 1, 15),
                reloc!(48, 2, 1, 30), reloc!(56, 35, 3, 0), reloc!(56, 39, 2, 0)),
    ]; [symbol!(b"", 0, 3, 1, 0, 4), symbol!(b"f", 1, 2, 1, 6, 4), symbol!(b"g", 1, 2, 1, 16, 4), START]),
    // A call of `w`, which may be shortened.
    "called.o" => object!([text!(b"\x97\0\0\0\xe7\x80\0\0"; reloc!(0, 19, 1, 0), reloc!(0, 51, 0, 0))]; [WEAKLY, START]),
    // Without compressed instructions, and with them.
    "tail.o" => TAIL, "tail-c.o" => object!(TAIL => flags: 1), "call.o" => CALL, "call-c.o" => object!(CALL => flags: 1),
);

const WRONG_INPUTS: &[Input] = inputs!(
    // Four bytes where six are needed.
    "short.o" => object!(ALL_STAY => sections: &[section!(b".text", 1, 6, 8; b"\x01\0\xff\xff\xff\xff\x67\x80\0\0"; relocs: &[reloc!(2, 43, 0, 4)])]),
    // Six bytes where five are needed.
    "uneven.o" => object!(ALL_STAY => sections: &[section!(b".text", 1, 6, 8; b"\x01\0\x01\xff\xff\xff\xff\xff\xff"; relocs: &[reloc!(3, 43, 0, 6)])]),
    // Both, in no order.
    "both.o" => object!(ALL_STAY => sections: &[section!(RETURN => name: b".text.z"),
        section!(b".text", 1, 6, 8; b"\x01\0\x01\xff\xff\xff\xff\xff\xff\xff\xff"; relocs: &[reloc!(9, 43, 0, 2), reloc!(3, 43, 0, 6)])]),
    "odd.o" => object!(ALL_STAY => sections: &[section!(EIGHT => relocs: &[reloc!(0, 43, 0, 5)])]),
    "less.o" => object!(ALL_STAY => sections: &[section!(EIGHT => relocs: &[reloc!(0, 43, 0, -2)])]),
    "behind.o" => object!(ALL_STAY => sections: &[section!(EIGHT => relocs: &[reloc!(4, 43, 0, 6)])]),
    // A jump within the bytes.
    "within.o" => object!(ALL_STAY => sections: &[section!(EIGHT => relocs: &[TO_8, reloc!(4, 17, 1, 0)])]),
);

pub fn files(alloc: Global) -> Result<Files, AllocError> {
    let mut files = objects_of(alloc, INPUTS)?;
    push_objects(&mut files, alloc, WRONG_INPUTS)?;
    Ok(files)
}

/// What stays, and what moves.
pub const STAYING: &[Link] = &[
    link!("-s", "all.o" => image!(FIRST =>
        segments: &[READ, [1, 5, 0x1000, 0x11000, 12, 12, 4096], STACK],
        contents: &[(0x1000, b"\x01\0\x13\0\0\0\x01\0\x67\x80\0\0"), (0x100c, NAMES)],
        sections: &[[1, 1, 6, 0x11000, 0x1000, 12, 8], [7, 3, 0, 0, 0x100c, 17, 1]]); store: Store::Aligned),
    link!("-s", "none.o" => image!(FIRST => table: 0x1018,
        segments: &[READ, [1, 5, 0x1000, 0x11000, 4, 4, 4096], STACK],
        contents: &[(0x1000, b"\x67\x80\0\0"), (0x1004, NAMES)],
        sections: &[[1, 1, 6, 0x11000, 0x1000, 4, 8], [7, 3, 0, 0, 0x1004, 17, 1]]); store: Store::Aligned),
    // Four of six.
    link!("-s", "returns.o", "some.o" => code!(12 => 0x1020; b"\x67\x80\0\0\x13\0\0\0\x73\0\x10\0"); store: Store::Aligned),
    link!("-s", "moved.o" => image!(FIRST => table: 0x2058,
        segments: &[READ_OF_FOUR, [1, 5, 0x1000, 0x11000, 16, 16, 4096], [1, 6, 0x2000, 0x12000, 64, 64, 4096], STACK],
        contents: &[(0x1000, b"\x67\x80\0\0\x13\0\0\0\xef\xf0\x9f\xff\x73\0\x10\0"),
            (0x2000, b"\0\x10\x01\0\0\0\0\0\x08\x10\x01\0\0\0\0\0\x08\x10\x01\0\0\0\0\0\x10\x10\x01\0\0\0\0\0"),
            (0x2020, b"\x06\x10\x01\0\0\0\0\0\x08\x10\x01\0\0\0\0\0\x16\x10\x01\0\0\0\0\0\x08\0\0\0\0\0\0\0"),
            (0x2040, b"\0.text\0.data\0.shstrtab\0")],
        sections: &[[1, 1, 6, 0x11000, 0x1000, 16, 8], [7, 1, 3, 0x12000, 0x2000, 64, 8], [13, 3, 0, 0, 0x2040, 23, 1]]); store: Store::Aligned),
    link!("-s", "called.o", "lib.a" => WEAK_CALL; store: Store::Aligned, libraries: LIBRARIES),
];

/// `c.j` for a tail call in a file with compressed instructions, else `jal`; and what is to stay as it is.
pub const SHORTENED: &[Link] = &[
    link!("-s", "tail-c.o" => code!(6 => 0x1018; b"\x09\xa0\x67\x80\0\0"; flags: 1); store: Store::Aligned),
    link!("-s", "tail.o" => code!(8 => 0x1020; b"\x6f\0\x40\0\x67\x80\0\0"); store: Store::Aligned),
    link!("-s", "call-c.o" => image!(FIRST => flags: 1); store: Store::Aligned),
    link!("-s", "call.o"; store: Store::Aligned),
    link!("-s", "--no-relax", "tail-c.o" => code!(12 => 0x1020; b"\x17\x03\0\0\x67\0\x83\0\x67\x80\0\0"; flags: 1); store: Store::Aligned),
];

/// Too few bytes, and bytes that can be none.
pub const SHORTAGES: &[Refusal] = &[
    refusal!("-s", "short.o" => 1, 1, "F27 NopsShort file=short.o section=1 place=2 name= other=6"; store: Store::Aligned),
    refusal!("-s", "uneven.o" => 1, 1, "F27 NopsShort file=uneven.o section=1 place=3 name= other=5"; store: Store::Aligned),
    refusal!("-s", "both.o" => 1, 1, "F27 NopsShort file=both.o section=2 place=3 name= other=5"; store: Store::Aligned),
    refusal!("-s", "odd.o" => 1, 1, "F11 BadReloc file=odd.o section=2 place=72 name= other=0"; store: Store::Aligned),
    refusal!("-s", "less.o" => 1, 1, "F11 BadReloc file=less.o section=2 place=72 name= other=0"; store: Store::Aligned),
    refusal!("-s", "behind.o" => 1, 1, "F11 BadReloc file=behind.o section=2 place=72 name= other=0"; store: Store::Aligned),
    refusal!("-s", "within.o" => 1, 1, "F11 BadReloc file=within.o section=2 place=96 name= other=0"; store: Store::Aligned),
];
