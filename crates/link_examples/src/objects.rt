//! The objects of the examples.

use crate::inputs;
use elf_bytes::{Object, Reloc, Section, Symbol, data, object, reloc, section, symbol, text};

/// An input: its name, its object, and how many of the object's bytes it has at most.
#[derive(Clone, Copy)]
pub struct Input<'a> {
    pub name: &'a str,
    pub object: Object<'a>,
    pub most: usize,
}

pub const WHOLE: usize = 100_000;

/// `.text` of one `ret`.
pub const RETURN: Section = text!(b"\x67\x80\0\0");
/// `.text` of one `ebreak`.
pub const BREAK: Section = text!(b"\x73\0\x10\0");

pub const START: Symbol = symbol!(b"_start", 1, 2, 1, 0, 4);
/// A function named `x`.
pub const X: Symbol = symbol!(b"x", 1, 2, 1, 0, 4);
/// A label without a type.
const LABEL: Symbol = symbol!(b".L0", 0, 0, 1, 0, 0);

/// A jump to symbol 2 at the beginning.
pub const TO_SECOND: Reloc = reloc!(0, 17, 2, 0);
/// A word of 8 bytes at the beginning, of symbol 1.
pub const WORD: Reloc = reloc!(0, 2, 1, 0);

/// A jump to the function after it.
pub const A: Object =
    object!([text!(b"\xef\0\0\0\x67\x80\0\0"; TO_SECOND)]; [START, symbol!(b"f", 1, 2, 1, 4, 4)]);

/// A strong `x`.
pub const STRONG: Object = object!([RETURN]; [X]);
/// `h` alone.
const H: Object = object!([RETURN]; [symbol!(b"h", 1, 2, 1, 0, 4)]);

/// `x` as a common of 8 bytes, alignment 8.
const COMMON: Symbol = symbol!(b"x", 1, 1, 0xfff2, 8, 8);

pub const COMMON_OF_8: Object = object!([]; [COMMON]);

/// `w`, weak and not defined.
pub const WEAKLY: Symbol = symbol!(b"w", 2, 0, 0, 0, 0);
/// `n`, which another file defines.
const ASKED_N: Symbol = symbol!(b"n", 1, 0, 0, 0, 0);
/// `m`, which another file defines.
pub const ASKED_M: Symbol = symbol!(b"m", 1, 0, 0, 0, 0);

/// A jump at the beginning to `n`.
pub const ASKER: Object =
    object!([text!(b"\xef\0\0\0\x67\x80\0\0"; reloc!(0, 17, 1, 0))]; [ASKED_N, START]);

/// Jumps to `n` and to `m`.
pub const ASKER_OF_BOTH: Object = object!([
    text!(b"\xef\0\0\0\xef\0\0\0\x67\x80\0\0"; reloc!(0, 17, 1, 0), reloc!(4, 17, 2, 0)),
]; [ASKED_N, ASKED_M, START]);

/// `abc`, four empty strings and `xyz`.
pub const STRINGS: Section =
    section!(b".rodata.str1.8", 1, 0x32, 8; b"abc\0\0\0\0\0xyz\0"; entsize: 1);

/// `abc`, four empty strings and `xyz`, alone.
pub const SAID_AGAIN: Object = object!([STRINGS]; []);

/// Constants of 4 bytes: 1, 2 and 1.
pub const CONSTANTS: Section =
    section!(b".rodata.cst4", 1, 0x12, 4; b"\x01\0\0\0\x02\0\0\0\x01\0\0\0"; entsize: 4);

/// Four constants, of which three differ.
pub const FOUR_CONSTANTS: Object =
    object!([RETURN, section!(CONSTANTS => bytes: b"\x01\0\0\0\x02\0\0\0\x01\0\0\0\x03\0\0\0")]; [START]);

/// A word of `_end`.
pub const WORD_OF_END: Object =
    object!([RETURN, data!(b"\0\0\0\0\0\0\0\0"; WORD)]; [symbol!(b"_end", 1, 0, 0, 0, 0), START]);

/// `_end` of one `ret`.
pub const OWN_END: Object = object!([RETURN]; [symbol!(b"_end", 1, 2, 1, 0, 4)]);

/// All inputs that are objects. Each link has them all at hand.
pub const INPUTS: &[Input] = inputs!(
    "a.o" => A, "cut.o" => A; 63, "empty.o" => A; 0,
    // A strong `x`, and `_start`.
    "p.o" => object!([RETURN]; [X, START]),
    "q.o" => STRONG,
    // A weak `x`.
    "weak.o" => object!([RETURN]; [symbol!(b"x", 2, 2, 1, 0, 4)]),
    "h.o" => H,
    "c4.o" => object!([]; [symbol!(b"x", 1, 1, 0xfff2, 4, 4)]),
    "c8.o" => COMMON_OF_8,
    "c16.o" => object!([]; [symbol!(b"x", 1, 1, 0xfff2, 8, 16)]),
    // A common of 4 bytes, alignment 16.
    "wide.o" => object!([]; [symbol!(b"x", 1, 1, 0xfff2, 16, 4)]),
    // `.bss` of 2^31 bytes.
    "big.o" => object!([RETURN, section!(b".bss", 8, 3, 8; b""; size: 0x8000_0000)]; [START]),
    // A compressed section.
    "compressed.o" => object!([section!(RETURN => flags: 0x806)]; [START]),
    // Another float ABI.
    "double.o" => object!(H => flags: 4),
    // A jump at 4 to `k`, which nothing defines.
    "u.o" => object!([text!(b"\x13\0\0\0\xef\0\0\0"; reloc!(4, 17, 1, 0))]; [symbol!(b"k", 1, 0, 0, 0, 0), START]),
    // A jump to 2^20 past the start of its section.
    "far.o" => object!([text!(b"\xef\0\0\0"; reloc!(0, 17, 1, 1_048_576))]; [symbol!(b"", 0, 3, 1, 0, 0), START]),
    // A jump to 3 past `_start`.
    "uneven.o" => object!([text!(b"\xef\0\0\0"; reloc!(0, 17, 1, 3))]; [START]),
    // The low half of an address, without the high one.
    "alone.o" => object!([text!(b"\x13\x05\x05\0"; reloc!(0, 24, 1, 0))]; [LABEL, START]),
    // A call of `w`.
    "call.o" => object!([text!(b"\x97\0\0\0\xe7\x80\0\0"; reloc!(0, 19, 1, 0))]; [WEAKLY, START]),
    // Both halves of the address 0x800 past `d`; at `d` the word of `w` plus 7.
    "halves.o" => object!([text!(b"\x17\x05\0\0\x13\x05\x05\0"; reloc!(0, 23, 2, 0x800), reloc!(4, 24, 1, 0)),
        data!(b"\xff\xff\xff\xff\xff\xff\xff\xff"; reloc!(0, 2, 3, 7))]; [LABEL, symbol!(b"d", 1, 1, 2, 0, 8), WEAKLY, START]),
    "m.o" => ASKER, "both.o" => ASKER_OF_BOTH,
    // A jump to the function after it; `x` is of another file.
    "x.o" => object!(A => symbols: &[START, symbol!(b"f", 1, 2, 1, 4, 4), symbol!(b"x", 1, 0, 0, 0, 0)]),
    // A weak `n` of one `ebreak`.
    "n.o" => object!([BREAK]; [symbol!(b"n", 2, 2, 1, 0, 4)]),
    "again.o" => SAID_AGAIN, "four.o" => FOUR_CONSTANTS,
);
