//! The objects of the links whose executables are written by blocks.

use super::blocks::Lengths;
use elf_bytes::{Image, Object, Section, Symbol, object, reloc, section, symbol};

/// Kinds of relocations: an address of 32 bits, one of 64, a jump, a call of two instructions, a distance in two parts, and one as ULEB128.
const WORD: u64 = 1;

pub const WHOLE: u64 = 2;

const JUMP: u64 = 17;

const CALL: u64 = 19;

const UPPER: u64 = 23;

pub const LOWER: u64 = 24;

const SET_ULEB128: u64 = 60;

const SUB_ULEB128: u64 = 61;

/// Calls `far`, loads `odd` by its distance in two parts, the second of which goes by the label of the first, and returns.
const TEXT: Section =
    section!(b".text", 1, 6, 4; b"\x97\0\0\0\xe7\x80\0\0\x01\0\x17\x05\0\0\x03\x25\x05\0\x82\x80";
        relocs: &[reloc!(0, CALL, 3, 0), reloc!(10, UPPER, 4, 0), reloc!(14, LOWER, 1, 0)]);

/// Addresses at odd offsets, with other bytes between them; two have one place, and three reach into the place of another.
const DATA: Section =
    section!(b".data", 1, 3, 8; b"a\0\0\0\0\0\0\0\0bcd\0\0\0\0\0\0\0\0\0\0\0\0\0\0\0\0e";
        relocs: &[reloc!(1, WHOLE, 4, 0), reloc!(12, WHOLE, 2, 0), reloc!(12, WHOLE, 3, 0), reloc!(14, WHOLE, 4, 0), reloc!(20, WHOLE, 3, 0)]);

/// Bytes that are only read, at odd places.
const READ_ONLY: Section = section!(b".rodata", 1, 2, 1; b"xyz");

/// Bytes that are only read, at odd places, with a number of ten bytes after them.
const WITH_NUMBER: Section = section!(READ_ONLY =>
    bytes: b"xyz\x80\x80\x80\x80\x80\x80\x80\x80\x80\0",
    relocs: &[reloc!(3, SET_ULEB128, 5, 0), reloc!(3, SUB_ULEB128, 2, 0)]);

/// A hundred zeros without bytes.
const NO_BITS: Section = section!(b".bss", 8, 3, 64; b""; size: 100);

/// Where the load stands whose label the second part names.
const LOADED: Symbol = symbol!(b".L0", 0, 0, 1, 10, 0);
/// Where the code starts.
const BEGIN: Symbol = symbol!(b"_start", 1, 0, 1, 0, 0);
/// What another file has.
const FAR: Symbol = symbol!(b"far", 1, 0, 0, 0, 0);
/// What stands at an odd place in the second section.
const ODD: Symbol = symbol!(b"odd", 1, 0, 2, 3, 0);
/// A number of 64 bits.
const LARGE: Symbol = symbol!(b"large", 1, 0, 0xfff1, 0xfedc_ba98_7654_3210, 0);

const FIRST: Object =
    object!(1; [TEXT, DATA, WITH_NUMBER, NO_BITS]; [LOADED, BEGIN, FAR, ODD, LARGE]);

/// Its sections stand at multiples of 16, 32 and 16, so that there are gaps before them.
const SECOND: Object = object!(1; [section!(b".text", 1, 6, 16; b"\x01\0\x82\x80"),
    section!(b".data", 1, 3, 32; b"f\0\0\0\0\0\0\0\0\0\0\0\0\0\0\0\0g"; relocs: &[reloc!(1, WHOLE, 1, 0), reloc!(9, WHOLE, 2, 0)]),
    section!(READ_ONLY => align: 16)]; [symbol!(b"far", 1, 0, 1, 0, 0), symbol!(b"odd", 1, 0, 0, 0, 0)]);

/// Its data stand at 65,536 of the file, with an address over the end of the second block.
const LONG: Object = object!(1; [
    TEXT, section!(DATA => align: 65536, zeros: 65532, relocs: &[reloc!(65533, WHOLE, 4, 0), reloc!(65544, WHOLE, 2, 0)]), NO_BITS,
]; [LOADED, BEGIN, FAR, ODD]);

/// Its data stand at 65,536 of the file, with four relocations that can't be done: at offset 4 a number that 32 bits don't hold, and another over the
/// end of the second block; in the fourth block a jump to an odd place, and in the fifth a lower part whose label has no upper part.
const DEFECTIVE: Object = object!(1; [TEXT,
    section!(DATA => align: 65536, zeros: 0x3_0010, relocs: &[reloc!(4, WORD, 5, 0), reloc!(0xfffe, WORD, 5, 0), reloc!(0x2_0008, JUMP, 4, 0), reloc!(0x3_0004, LOWER, 4, 0)]),
    NO_BITS]; [LOADED, BEGIN, FAR, ODD, LARGE]);

/// The objects of a link of which four relocations can't be done.
pub const WITH_DEFECTS: [Object; 2] = [DEFECTIVE, SECOND];

/// A link: its objects, by which lengths of blocks its executable is written once more, and the executable where it was worked out by hand.
#[derive(Clone, Copy)]
pub struct Example<'a> {
    pub objects: &'a [Object<'a>],
    pub lengths: Lengths,
    pub image: Option<&'a Image<'a>>,
}

/// A small executable by all short blocks.
pub const SMALL: Example = example!(&[FIRST, SECOND]; 20 + 29 + 13 + 4 + 18 + 3, 1, 65; None);

/// One of more than two blocks of the writer.
pub const OF_THREE_BLOCKS: Example =
    example!(&[LONG, SECOND]; 20 + 65532 + 29 + 4 + 18 + 3, 4095, 4098; None);
