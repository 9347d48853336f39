//! What `--gc-sections` keeps and drops.

use crate::groups::GROUP;
use crate::inputs;
use crate::objects::{A, Input, RETURN, START, TO_SECOND};
use crate::stores::{Files, objects_of, push_objects};
use elf_bytes::{Section, SectionLink, Symbol, object, reloc, section, symbol, text};
use std::alloc::{AllocError, Global};

/// `.text.a` of one `ret`, in a group.
const A_RETURNS: Section = section!(RETURN => name: b".text.a", flags: 0x206);
/// `.text.b` of one `ebreak`, in the same.
const B_BREAKS: Section = section!(b".text.b", 1, 0x206, 4; b"\x73\0\x10\0");

/// `a` in section 2.
const A_IN_2: Symbol = symbol!(b"a", 1, 2, 2, 0, 4);
/// `a` in section 3.
const A_IN_3: Symbol = symbol!(b"a", 1, 2, 3, 0, 4);
/// `b` in section 3.
const B_IN_3: Symbol = symbol!(b"b", 1, 2, 3, 0, 4);

const FIRST_INPUTS: &[Input] = inputs!(
    "a.o" => A,
    // `_start`, and two that ask for each other.
    "ring.o" => object!([RETURN, section!(b".text.a", 1, 6, 4; b"\xef\0\0\0"; relocs: &[TO_SECOND]),
        section!(b".text.b", 1, 6, 4; b"\xef\0\0\0"; relocs: &[reloc!(0, 17, 1, 0)])]; [A_IN_2, B_IN_3, START]),
    // `_start`, and two that ask for each other, of which one is told to stay.
    "held.o" => object!([RETURN, section!(b".text.a", 1, 0x200006, 4; b"\xef\0\0\0"; relocs: &[TO_SECOND]),
        section!(b".text.b", 1, 6, 4; b"\xef\0\0\0"; relocs: &[reloc!(0, 17, 1, 0)])]; [A_IN_2, B_IN_3, START]),
    // Code that runs before and after all else.
    "frames.o" => object!([RETURN, section!(b".init", 1, 6, 4; b"\x73\0\x10\0"), section!(b".fini", 1, 6, 4; b"\x73\0\x10\0"),
        section!(b".init.x", 1, 6, 4; b"\x73\0\x10\0")]; [START]),
    // A note, and a section of its name that is none.
    "note.o" => object!([RETURN, section!(b".note.a", 7, 2, 4; b"note"), section!(b".note.a", 1, 2, 4; b"text")]; [START]),
    // Arrays of functions, and sections of their names that are none.
    "arrays.o" => object!([RETURN, section!(b".init_array", 14, 3, 8; b"iiiiiiii"), section!(b".fini_array", 15, 3, 8; b"ffffffff"),
        section!(b".preinit_array", 16, 3, 8; b"pppppppp"), section!(b".init_array", 1, 3, 8; b"xxxxxxxx"),
        section!(b".data", 15, 3, 8; b"dddddddd")]; [START]),
    // A jump to one of two in a COMDAT group.
    "together.o" => object!([text!(b"\xef\0\0\0"; reloc!(0, 17, 1, 0)), section!(GROUP => bytes: b"\x01\0\0\0\x03\0\0\0\x04\0\0\0"), A_RETURNS,
        B_BREAKS, section!(b".text.c", 1, 6, 4; b"\x73\0\x10\0")]; [A_IN_3, START]),
    // A jump to one of two in a group of flag word 0.
    "zero.o" => object!([text!(b"\xef\0\0\0"; reloc!(0, 17, 1, 0)), section!(GROUP => bytes: b"\0\0\0\0\x03\0\0\0\x04\0\0\0"), A_RETURNS, B_BREAKS,
        section!(b".text.c", 1, 6, 4; b"\x73\0\x10\0")]; [A_IN_3, START]),
    // A group that nothing asks for.
    "idle.o" => object!([RETURN, section!(GROUP => bytes: b"\x01\0\0\0\x03\0\0\0\x04\0\0\0"), A_RETURNS, B_BREAKS]; [A_IN_3, START]),
);

const OTHER_INPUTS: &[Input] = inputs!(
    // A common that nothing asks for.
    "c.o" => object!([]; [symbol!(b"x", 1, 1, 0xfff2, 8, 8)]),
    // A word of a common.
    "x.o" => object!([text!(b"\0\0\0\0\0\0\0\0"; reloc!(0, 2, 1, 0))]; [symbol!(b"x", 1, 0, 0, 0, 0), START]),
    // A jump to what nothing defines.
    "k.o" => object!([text!(b"\xef\0\0\0"; reloc!(0, 17, 1, 0))]; [symbol!(b"k", 1, 0, 0, 0, 0)]),
    // A jump that does not reach.
    "far.o" => object!([text!(b"\xef\0\0\0"; reloc!(0, 17, 1, 0x200000))]; [symbol!(b"far", 1, 2, 1, 0, 4)]),
    // A relocation that writes nothing names one of two.
    "none.o" => object!([section!(RETURN => relocs: &[reloc!(0, 0, 1, 0)]), section!(b".text.a", 1, 6, 4; b"\x73\0\x10\0"),
        section!(b".text.b", 1, 6, 4; b"\x73\0\x10\0")]; [A_IN_2, B_IN_3, START]),
    // Sections that go with `_start`, with what is idle, with none, and with none but told to stay.
    "order.o" => object!([RETURN, section!(b".text.a", 1, 6, 4; b"\x73\0\x10\0"),
        section!(b".order", 1, 0x82, 4; b"AAAA"; link: SectionLink::Number(1)),
        section!(b".order", 1, 0x82, 4; b"BBBB"; link: SectionLink::Number(2)), section!(b".order", 1, 0x82, 4; b"CCCC"),
        section!(b".order", 1, 0x200082, 4; b"DDDD")]; [START]),
    // A word of one that goes with none, and one that goes with that.
    "asked.o" => object!([
        text!(b"\0\0\0\0\0\0\0\0"; reloc!(0, 2, 1, 0)), section!(b".order", 1, 0x82, 4; b"AAAA"),
        section!(b".order", 1, 0x82, 4; b"BBBB"; link: SectionLink::Number(2)), section!(b".order", 1, 0x82, 4; b"CCCC"),
    ]; [symbol!(b".L0", 0, 0, 2, 0, 0), START]),
    // A jump to the first of four in such a group.
    "four.o" => object!([
        text!(b"\xef\0\0\0"; reloc!(0, 17, 1, 0)), section!(GROUP => bytes: b"\0\0\0\0\x03\0\0\0\x04\0\0\0\x05\0\0\0\x06\0\0\0"),
        A_RETURNS, B_BREAKS, section!(B_BREAKS => name: b".text.c"), section!(A_RETURNS => name: b".text.d"),
    ]; [A_IN_3, symbol!(b"d", 1, 2, 6, 0, 4), START]),
);

/// The files that are at hand.
pub fn files(alloc: Global) -> Result<Files, AllocError> {
    let mut files = objects_of(alloc, FIRST_INPUTS)?;
    push_objects(&mut files, alloc, OTHER_INPUTS)?;
    Ok(files)
}
