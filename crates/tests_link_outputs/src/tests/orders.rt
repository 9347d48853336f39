//! The order of what is laid out: notes first, and arrays of functions by the numbers in their names.

use elf_bytes::{object, section};
use link_examples::images::*;
use link_examples::objects::{Input, RETURN, START};
use link_examples::{Files, Link, Store, inputs, link, objects_of};
use std::alloc::{AllocError, Global};

const INPUTS: &[Input] = inputs!(
    // Read-only data, and two notes after it, of which one has an own name.
    "notes.o" => object!([RETURN, section!(b".rodata", 1, 2, 4; b"data"), section!(b".note.a", 7, 2, 4; b"note"),
        section!(b".own", 1, 2, 4; b"own "), section!(b".own", 7, 2, 4; b"late")]; [START]),
    // A note in `.rodata`, and a second one.
    "more.o" => object!([section!(b".rodata", 7, 2, 4; b"noted"), section!(b".note.b", 7, 2, 8; b"NOTE")]; []),
    // Arrays of functions with and without numbers, in no order.
    "arrays.o" => object!([RETURN, section!(b".init_array", 14, 3, 8; b"cccccccc"), section!(b".init_array.10", 14, 3, 8; b"bbbbbbbb"),
        section!(b".init_array.2", 14, 3, 8; b"aaaaaaaa"), section!(b".fini_array", 15, 3, 8; b"gggggggg"),
        section!(b".preinit_array", 16, 3, 8; b"00000000"), section!(b".init_array.100000", 14, 3, 8; b"dddddddd"),
        section!(b".fini_array.00003", 15, 3, 8; b"ffffffff")]; [START]),
    // Numbers before and after those, and what is no array.
    "late.o" => object!([section!(b".init_array.65537", 14, 3, 8; b"eeeeeeee"), section!(b".init_array.1", 14, 3, 8; b"AAAAAAAA"),
        section!(b".init_array.10", 1, 3, 8; b"BBBBBBBB"), section!(b".init_array.", 14, 3, 8; b"????????")]; []),
    // An array that is read-only.
    "read.o" => object!([RETURN, section!(b".init_array", 14, 2, 8; b"rrrrrrrr")]; [START]),
);

pub fn files(alloc: Global) -> Result<Files, AllocError> {
    objects_of(alloc, INPUTS)
}

/// An output section that begins with a note stands before all other read-only ones.
pub const NOTES_FIRST: &[Link] = &[
    link!("-s", "notes.o" => ONE_NOTE; store: Store::Orders),
    link!("-s", "notes.o", "more.o" => TWO_NOTES; store: Store::Orders),
    link!("-s", "more.o", "notes.o" => NOTES_AND_DATA; store: Store::Orders),
];

/// Arrays with and without numbers.
pub const BY_NUMBER: &[Link] = &[
    link!("-s", "arrays.o" => NUMBERED; store: Store::Orders),
    link!("-s", "arrays.o", "late.o" => NUMBERED_OF_TWO; store: Store::Orders),
    link!("-s", "read.o" => READ_ONLY_ARRAY; store: Store::Orders),
];
