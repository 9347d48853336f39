//! Relocations of every kind but those of the GOT and of thread-local data (RISC-V ELF psABI, relocations): code, numbers of every
//! width, the ends of what a kind can hold, and what is refused. The bytes of instructions are those that GNU as gives.

use elf_bytes::{Object, Section, Symbol, data, image, object, reloc, section, symbol, text};
use link_examples::images::{FIRST, NAMES_WITH_DATA, READ_OF_FOUR, STACK};
use link_examples::objects::{Input, START, WEAKLY};
use link_examples::{
    Files, Link, Refusal, Store, code, code_and_data, inputs, link, objects_of, push_objects,
    refusal,
};
use std::alloc::{AllocError, Global};

/// A label at 0x20.
const LABEL: Symbol = symbol!(b".L0", 0, 0, 1, 0x20, 0);
/// A number.
const NUMBER: Symbol = symbol!(b"m", 1, 0, 0xfff1, 0x1234_5fff, 0);
/// Data.
const D_IN_2: Symbol = symbol!(b"d", 1, 1, 2, 0, 8);

const INPUTS: &[Input] = inputs!(
    // Jumps and branches to a label and back, a number in two halves, an address in two halves, and a call.
    "code.o" => object!([
        text!(
            b"\x63\0\xb5\0\x63\x10\xb5\0\x01\xc1\x81\xe1\x01\xa0\x01\xa0\x37\x05\0\0\x13\x05\x05\0\x23\x20\xb5\0\xef\0\0\0\x17\x05\0\0\x13\x05\x05\0\x23\x20\xb5\0\x97\0\0\0\xe7\x80\0\0";
                reloc!(0, 16, 1, 0), reloc!(4, 16, 4, 0), reloc!(8, 44, 1, 0), reloc!(10, 44, 4, 0), reloc!(12, 45, 1, 0), reloc!(14, 45, 4, 0),
                reloc!(16, 26, 2, 0), reloc!(20, 27, 2, 0), reloc!(24, 28, 2, 0), reloc!(28, 17, 1, 0), reloc!(32, 23, 3, 0xfff), reloc!(36, 24, 1, 0),
                reloc!(40, 25, 1, 0), reloc!(44, 18, 4, 0)),
        data!(b"dddddddd"),
    ]; [LABEL, NUMBER, D_IN_2, START]),
    // 0x800 in two halves.
    "halves.o" => object!([
        text!(b"\x37\x05\0\0\x13\x05\x05\0"; reloc!(0, 26, 1, 0), reloc!(4, 27, 1, 0)),
    ]; [symbol!(b"m", 1, 0, 0xfff1, 0x800, 0), START]),
    // Distances and numbers at odd offsets, in no order but for those of one place.
    "numbers.o" => object!([
        text!(b"\x67\x80\0\0\x73\0\x10\0"),
        data!(
            b"\xaa\x05\0\0\0\xff\xff\x80\xbb\xff\xff\xff\xff\xff\xff\xff\xff\xc1U\0\0\0\0\0\0\0\0\0\0\0\0\0\0\0\0\xcc\xff\xff\xff\xff\xff\xff\xff\xff\x7f\x01\x01\0\0\0\0";
                reloc!(47, 59, 1, 0), reloc!(46, 33, 1, 0), reloc!(46, 54, 1, 0), reloc!(45, 54, 1, 0), reloc!(45, 33, 1, 0), reloc!(44, 37, 1, 0),
                reloc!(38, 1, 1, 0), reloc!(36, 2, 1, 0), reloc!(34, 33, 1, 0), reloc!(33, 55, 1, 0), reloc!(29, 1, 1, 256), reloc!(25, 57, 1, 0),
                reloc!(21, 56, 1, 0), reloc!(19, 55, 1, 0), reloc!(18, 54, 1, 0), reloc!(17, 53, 1, 1), reloc!(17, 52, 2, 3), reloc!(9, 36, 1, 0),
                reloc!(9, 40, 2, 0), reloc!(7, 33, 1, 0), reloc!(7, 37, 2, 0), reloc!(5, 34, 1, 0), reloc!(5, 38, 2, 0), reloc!(1, 35, 1, 2), reloc!(1, 39, 2, 1)),
    ]; [symbol!(b".L0", 0, 0, 1, 8, 0), START]),
    // The least and the greatest that each kind can hold.
    "ends.o" => object!([
        text!(b"\x63\0\xb5\0\x63\0\xb5\0\x01\xc1\x01\xc1\x01\xa0\x01\xa0\xef\0\0\0\xef\0\0\0\x37\x05\0\0\x37\x05\0\0";
            reloc!(0, 16, 4, 4094), reloc!(4, 16, 4, -4092), reloc!(8, 44, 4, 262), reloc!(10, 44, 4, -246), reloc!(12, 45, 4, 2058), reloc!(14, 45, 4, -2034),
            reloc!(16, 17, 4, 1_048_590), reloc!(20, 17, 4, -1_048_556), reloc!(24, 26, 1, 0), reloc!(28, 26, 3, -0x8000_0800)),
        data!(b"\0\0\0\0\0\0\0\0\0\0\0\0\0\0\0\0";
            reloc!(0, 1, 2, 0), reloc!(4, 1, 3, -0x8000_0000), reloc!(8, 57, 3, 0x8001_2007), reloc!(12, 57, 3, -0x7ffe_dff4)),
    ]; [symbol!(b"m", 1, 0, 0xfff1, 0x7fff_f7ff, 0), symbol!(b"n", 1, 0, 0xfff1, 0xffff_ffff, 0), WEAKLY, START]),
);

/// Code and numbers.
pub const WRITTEN: &[Link] = &[
    link!("-s", "code.o" => image!(FIRST => table: 0x2020,
        segments: &[READ_OF_FOUR, [1, 5, 0x1000, 0x11000, 52, 52, 4096], [1, 6, 0x2000, 0x12000, 8, 8, 4096], STACK],
        contents: &[
            (0x1000, b"\x63\0\xb5\x02\xe3\x1e\xb5\xfe\x01\xcd\xfd\xf9\x11\xa8\xcd\xbf\x37\x65\x34\x12\x13\x05\xf5\xff\xa3\x2f\xb5\xfe\xef\0\x40\0"),
            (0x1020, b"\x17\x25\0\0\x13\x05\xf5\xfd\xa3\x2f\xb5\xfc\x97\0\0\0\xe7\x80\x40\xfd"), (0x2000, b"dddddddd"), (0x2008, NAMES_WITH_DATA)],
        sections: &[[1, 1, 6, 0x11000, 0x1000, 52, 4], [7, 1, 3, 0x12000, 0x2000, 8, 8], [13, 3, 0, 0, 0x2008, 23, 1]]); store: Store::Kinds),
    link!("-s", "halves.o" => code!(8 => 0x1020; b"\x37\x15\0\0\x13\x05\x05\x80"); store: Store::Kinds),
    link!("-s", "numbers.o" => image!(FIRST => table: 0x2050,
        segments: &[READ_OF_FOUR, [1, 5, 0x1000, 0x11000, 8, 8, 4096], [1, 6, 0x2000, 0x12000, 51, 51, 4096], STACK],
        contents: &[(0x1000, b"\x67\x80\0\0\x73\0\x10\0"),
            (0x2000, b"\xaa\x0e\0\0\0\x07\0\x88\xbb\x07\0\0\0\0\0\0\0\xc6\x08\x08\x10\x08\x10\x01\0\xef\xef\xff\xff"),
            (0x201d, b"\x08\x11\x01\0\x08\x18\xcc\x08\x10\x08\x10\x01\0\0\0w\x10\x08\xd9\xef\xff\xff"), (0x2033, NAMES_WITH_DATA)],
        sections: &[[1, 1, 6, 0x11000, 0x1000, 8, 4], [7, 1, 3, 0x12000, 0x2000, 51, 8], [13, 3, 0, 0, 0x2033, 23, 1]]); store: Store::Kinds),
    link!("-s", "ends.o" =>
        code_and_data!(32, 16 => 0x2028; b"\xe3\x0f\xb5\x7e\x63\0\xb5\x80\x7d\xcd\x01\xd1\xfd\xaf\x01\xb0\xef\xf0\xff\x7f\xef\0\0\x80\x37\xf5\xff\x7f\x37\x05\0\x80"; b"\xff\xff\xff\xff\0\0\0\x80\xff\xff\xff\x7f\0\0\0\x80");
        store: Store::Kinds),
];

/// An object of 8 bytes of code and one relocation, of a number, of a weak name that nothing defines, or of `_start`.
const BEYOND: Object = object!([]; [symbol!(b"m", 1, 0, 0xfff1, 0x7fff_f800, 0), WEAKLY, START]);

const EIGHT: Section = text!(b"\0\0\0\0\0\0\0\0");

const BEYOND_INPUTS: &[Input] = inputs!(
    "b.o" => object!(BEYOND => sections: &[section!(EIGHT => relocs: &[reloc!(0, 16, 3, 4096)])]),
    "b-back.o" => object!(BEYOND => sections: &[section!(EIGHT => relocs: &[reloc!(0, 16, 3, -4098)])]),
    "b-odd.o" => object!(BEYOND => sections: &[section!(EIGHT => relocs: &[reloc!(0, 16, 3, 4097)])]),
    "cb.o" => object!(BEYOND => sections: &[section!(EIGHT => relocs: &[reloc!(0, 44, 3, 256)])]),
    "cb-back.o" => object!(BEYOND => sections: &[section!(EIGHT => relocs: &[reloc!(0, 44, 3, -258)])]),
    "cj.o" => object!(BEYOND => sections: &[section!(EIGHT => relocs: &[reloc!(0, 45, 3, 2048)])]),
    "cj-odd.o" => object!(BEYOND => sections: &[section!(EIGHT => relocs: &[reloc!(0, 45, 3, -1)])]),
    "hi.o" => object!(BEYOND => sections: &[section!(EIGHT => relocs: &[reloc!(0, 26, 1, 0)])]),
    "hi-low.o" => object!(BEYOND => sections: &[section!(EIGHT => relocs: &[reloc!(0, 26, 2, -2147485697)])]),
    "word.o" => object!(BEYOND => sections: &[section!(EIGHT => relocs: &[reloc!(0, 1, 1, 2147485696)])]),
    "word-low.o" => object!(BEYOND => sections: &[section!(EIGHT => relocs: &[reloc!(0, 1, 2, -2147483649)])]),
    "distance.o" => object!(BEYOND => sections: &[section!(EIGHT => relocs: &[reloc!(0, 57, 3, 2147483648)])]),
);

const WRONG_INPUTS: &[Input] = inputs!(
    // A kind that is none.
    "unknown.o" => object!(BEYOND => sections: &[section!(EIGHT => relocs: &[reloc!(0, 58, 3, 0)])]),
    // The low half of an address whose label stands in another section.
    "elsewhere.o" => object!([text!(b"\x17\x05\0\0\x13\x05\x05\0"; reloc!(0, 23, 1, 0), reloc!(4, 24, 1, 0)),
        section!(b".text.a", 1, 6, 4; b"\x17\x05\0\0"; relocs: &[reloc!(0, 23, 1, 0)])]; [symbol!(b".L0", 0, 0, 2, 0, 0), START]),
    // The low half of an address whose label has the half of a number.
    "unlike.o" => object!([text!(b"\x37\x05\0\0\x23\x20\xb5\0"; reloc!(0, 26, 1, 0), reloc!(4, 25, 1, 0))]; [symbol!(b".L0", 0, 0, 1, 0, 0), START]),
    // The low half of an address of a label that is a number.
    "numbered.o" => object!([
        text!(b"\x17\x05\0\0\x13\x05\x05\0"; reloc!(0, 23, 2, 0), reloc!(4, 24, 1, 0)),
    ]; [symbol!(b".L0", 0, 0, 0xfff1, 0, 0), START]),
    // The low half of an address with an addend.
    "added.o" => object!([text!(b"\x17\x05\0\0\x23\x20\xb5\0"; reloc!(0, 23, 1, 0), reloc!(4, 25, 1, 4))]; [symbol!(b".L0", 0, 0, 1, 0, 0), START]),
);

pub fn files(alloc: Global) -> Result<Files, AllocError> {
    let mut files = objects_of(alloc, INPUTS)?;
    push_objects(&mut files, alloc, BEYOND_INPUTS)?;
    push_objects(&mut files, alloc, WRONG_INPUTS)?;
    Ok(files)
}

/// Branches and jumps that are too far or odd.
pub const BRANCHES: &[Refusal] = &[
    refusal!("-s", "b.o" => 1, 1, "F24 Range file=b.o section=1 place=0 name=_start other=4096"; store: Store::Kinds),
    refusal!("-s", "b-back.o" => 1, 1, "F24 Range file=b-back.o section=1 place=0 name=_start other=18446744073709547518"; store: Store::Kinds),
    refusal!("-s", "b-odd.o" => 1, 1, "F25 Odd file=b-odd.o section=1 place=0 name=_start other=4097"; store: Store::Kinds),
    refusal!("-s", "cb.o" => 1, 1, "F24 Range file=cb.o section=1 place=0 name=_start other=256"; store: Store::Kinds),
    refusal!("-s", "cb-back.o" => 1, 1, "F24 Range file=cb-back.o section=1 place=0 name=_start other=18446744073709551358"; store: Store::Kinds),
    refusal!("-s", "cj.o" => 1, 1, "F24 Range file=cj.o section=1 place=0 name=_start other=2048"; store: Store::Kinds),
    refusal!("-s", "cj-odd.o" => 1, 1, "F25 Odd file=cj-odd.o section=1 place=0 name=_start other=18446744073709551615"; store: Store::Kinds),
];

/// Halves and words that are too far.
pub const HALVES_AND_WORDS: &[Refusal] = &[
    refusal!("-s", "hi.o" => 1, 1, "F24 Range file=hi.o section=1 place=0 name=m other=2147481600"; store: Store::Kinds),
    refusal!("-s", "hi-low.o" => 1, 1, "F24 Range file=hi-low.o section=1 place=0 name=w other=18446744071562065919"; store: Store::Kinds),
    refusal!("-s", "word.o" => 1, 1, "F24 Range file=word.o section=1 place=0 name=m other=4294967296"; store: Store::Kinds),
    refusal!("-s", "word-low.o" => 1, 1, "F24 Range file=word-low.o section=1 place=0 name=w other=18446744071562067967"; store: Store::Kinds),
    refusal!("-s", "distance.o" => 1, 1, "F24 Range file=distance.o section=1 place=0 name=_start other=2147483648"; store: Store::Kinds),
];

/// A kind that is none, and low halves without a high one.
pub const WRONG: &[Refusal] = &[
    refusal!("-s", "unknown.o" => 1, 1, "F12 RelocKind file=unknown.o section=2 place=72 name= other=58"; store: Store::Kinds),
    refusal!("-s", "elsewhere.o" => 1, 1, "F26 NoPartner file=elsewhere.o section=1 place=4 name=.L0 other=0"; store: Store::Kinds),
    refusal!("-s", "unlike.o" => 1, 1, "F26 NoPartner file=unlike.o section=1 place=4 name=.L0 other=0"; store: Store::Kinds),
    refusal!("-s", "numbered.o" => 1, 1, "F26 NoPartner file=numbered.o section=1 place=4 name=.L0 other=0"; store: Store::Kinds),
    refusal!("-s", "added.o" => 1, 1, "F11 BadReloc file=added.o section=2 place=96 name= other=0"; store: Store::Kinds),
];
