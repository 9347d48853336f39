//! Groups of sections (System V gABI, section groups): which copy of a COMDAT group stays, and what a link lacks without the others.

use crate::libraries::Library;
use crate::objects::{ASKER, ASKER_OF_BOTH, Input, RETURN, START, TO_SECOND};
use crate::stores::{Files, objects_of, push_library, push_objects};
use crate::{inputs, library, member};
use elf_bytes::{Object, Section, SectionLink, Symbol, data, object, reloc, section, symbol, text};
use std::alloc::{AllocError, Global};

/// A COMDAT group of section 3; its signature is the name of symbol 1.
pub const GROUP: Section =
    section!(b".group", 17, 0, 4; b"\x01\0\0\0\x03\0\0\0"; link: SectionLink::Symtab, info: 1, entsize: 4);

/// `.text.n` of one `ret`, in a group.
const N_RETURNS: Section = section!(RETURN => name: b".text.n", flags: 0x206);
/// `.text.n` of one `ebreak`, in a group.
pub const N_BREAKS: Section = section!(b".text.n", 1, 0x206, 4; b"\x73\0\x10\0");

/// `n` in section 2.
const N_IN_2: Symbol = symbol!(b"n", 1, 2, 2, 0, 4);
/// `n` in section 3.
pub const N_IN_3: Symbol = symbol!(b"n", 1, 2, 3, 0, 4);
/// `k`, which another file defines.
pub const ASKED_K: Symbol = symbol!(b"k", 1, 0, 0, 0, 0);

/// `m`, and a copy of group `n` of one `ret`.
const PAIR: Object = object!([RETURN, GROUP, N_RETURNS]; [N_IN_3, symbol!(b"m", 1, 2, 1, 0, 4)]);

/// A group of flag word 2.
const WRONG: Object =
    object!([RETURN, section!(GROUP => bytes: b"\x02\0\0\0\x03\0\0\0"), N_RETURNS]; [symbol!(b"bad", 1, 2, 3, 0, 4)]);

const LIBRARIES: &[Library] = &[
    library!("lib.a"; member!(b"pair.o", PAIR)),
    library!("wrong.a"; member!(b"bad.o", WRONG)),
];

const FIRST_INPUTS: &[Input] = inputs!(
    "m.o" => ASKER, "both.o" => ASKER_OF_BOTH,
    // `n` of one `ret`, in a group `n`.
    "one.o" => object!([section!(GROUP => bytes: b"\x01\0\0\0\x02\0\0\0"), N_RETURNS]; [N_IN_2]),
    // A second copy: one `ebreak`.
    "two.o" => object!([section!(GROUP => bytes: b"\x01\0\0\0\x02\0\0\0"), N_BREAKS]; [N_IN_2]),
    // A weak copy of one `ebreak`.
    "weak.o" => object!([section!(GROUP => bytes: b"\x01\0\0\0\x02\0\0\0"), N_BREAKS]; [symbol!(b"n", 2, 2, 2, 0, 4)]),
    // A group of flag word 0, which has no copies: `n` of one `ret`, weak.
    "zero.o" => object!([section!(GROUP => bytes: b"\0\0\0\0\x02\0\0\0"), N_RETURNS]; [symbol!(b"n", 2, 2, 2, 0, 4)]),
    // `n` of one `ret` in a group of flag word 0, strong.
    "held.o" => object!([section!(GROUP => bytes: b"\0\0\0\0\x02\0\0\0"), N_RETURNS]; [N_IN_2]),
    // The signature is the name of a section, `.text.n`.
    "sec.o" => object!([section!(GROUP => bytes: b"\x01\0\0\0\x02\0\0\0"), N_RETURNS]; [symbol!(b"", 0, 3, 2, 0, 0), N_IN_2]),
    // The signature is that of a local symbol of this name.
    "label.o" => object!([section!(GROUP => bytes: b"\x01\0\0\0\x02\0\0\0"), N_BREAKS]; [symbol!(b".text.n", 0, 0, 2, 0, 0), N_IN_2]),
);

const OTHER_INPUTS: &[Input] = inputs!(
    // A copy with a jump to what nothing defines, and one that does not reach.
    "lost.o" => object!([
        section!(GROUP => bytes: b"\x01\0\0\0\x02\0\0\0"),
        section!(b".text.n", 1, 0x206, 4; b"\xef\0\0\0\xef\0\0\0"; relocs: &[TO_SECOND, reloc!(4, 17, 1, 0x200000)]),
    ]; [N_IN_2, symbol!(b"nowhere", 1, 0, 0, 0, 0)]),
    // `_start`, and a group `c`.
    "t.o" => object!([RETURN, GROUP, section!(b".text.c", 1, 0x206, 4; b"\x73\0\x10\0")]; [symbol!(b"c", 1, 2, 3, 0, 4), START]),
    // A second copy of it, which has `k` too.
    "u.o" => object!([
        section!(GROUP => bytes: b"\x01\0\0\0\x02\0\0\0"), section!(b".text.c", 1, 0x206, 4; b"\x73\0\x10\0\x67\x80\0\0"),
    ]; [symbol!(b"c", 1, 2, 2, 0, 4), symbol!(b"k", 1, 2, 2, 4, 4)]),
    // A jump to `k`.
    "v.o" => object!([text!(b"\xef\0\0\0"; reloc!(0, 17, 1, 0))]; [ASKED_K]),
    // A jump to a local label of a group's section.
    "local.o" => object!([
        text!(b"\xef\0\0\0"; reloc!(0, 17, 1, 0)), section!(GROUP => info: 2), N_RETURNS,
    ]; [symbol!(b".L0", 0, 0, 3, 0, 0), N_IN_3]),
    // A word of a group's section that is not in memory.
    "whole.o" => object!([data!(b"\0\0\0\0\0\0\0\0"; reloc!(0, 2, 1, 0)), section!(GROUP => bytes: b"\x01\0\0\0\x03\0\0\0\x04\0\0\0", info: 2),
        section!(b".debug_n", 1, 0x200, 1; b"notes"), N_RETURNS]; [symbol!(b"", 0, 3, 3, 0, 0), symbol!(b"n", 1, 2, 4, 0, 4)]),
    // A jump to `k`, weak.
    "weakly.o" => object!([text!(b"\0\0\0\0\0\0\0\0"; reloc!(0, 2, 1, 0))]; [symbol!(b"k", 2, 0, 0, 0, 0)]),
    // So many zero bytes, told to stay, that an executable has two blocks.
    "wide.o" => object!([section!(b".rodata", 8, 0x200002, 8; b""; size: 0x11000)]; []),
    // A group that lists a section twice.
    "twice.o" => object!([RETURN, section!(GROUP => bytes: b"\x01\0\0\0\x03\0\0\0\x03\0\0\0"), N_BREAKS]; [N_IN_3, START]),
);

/// The files that are at hand.
pub fn files(alloc: Global) -> Result<Files, AllocError> {
    let mut files = objects_of(alloc, FIRST_INPUTS)?;
    push_objects(&mut files, alloc, OTHER_INPUTS)?;
    for library in LIBRARIES {
        push_library(&mut files, alloc, library)?;
    }
    Ok(files)
}
