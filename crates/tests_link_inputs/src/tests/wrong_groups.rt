//! Groups that are wrong. The group is section 2 of each file.

use elf_bytes::{SectionLink, object, section};
use link_examples::groups::{GROUP, N_BREAKS, N_IN_3};
use link_examples::objects::{A, Input, RETURN, START};
use link_examples::{Files, Refusal, Store, inputs, objects_of, push_objects, refusal};
use std::alloc::{AllocError, Global};

const FIRST_INPUTS: &[Input] = inputs!(
    // Entries of 8 bytes.
    "entsize.o" => object!([RETURN, section!(GROUP => entsize: 8), N_BREAKS]; [N_IN_3, START]),
    // No flag word.
    "nothing.o" => object!([RETURN, section!(GROUP => bytes: b""), N_BREAKS]; [N_IN_3, START]),
    // Six bytes.
    "uneven.o" => object!([RETURN, section!(GROUP => bytes: b"\x01\0\0\0\x03\0"), N_BREAKS]; [N_IN_3, START]),
    // A flag word of 2.
    "flag.o" => object!([RETURN, section!(GROUP => bytes: b"\x02\0\0\0\x03\0\0\0"), N_BREAKS]; [N_IN_3, START]),
    // Linked with the names of the symbols in place of the symbol table.
    "link.o" => object!([RETURN, section!(GROUP => link: SectionLink::Number(5)), N_BREAKS]; [N_IN_3, START]),
    // The signature is symbol 3, of which there are two.
    "symbol.o" => object!([RETURN, section!(GROUP => info: 3), N_BREAKS]; [N_IN_3, START]),
    // A member 0.
    "null.o" => object!([RETURN, section!(GROUP => bytes: b"\x01\0\0\0\x03\0\0\0\0\0\0\0"), N_BREAKS]; [N_IN_3, START]),
    // A member past the last section.
    "past.o" => object!([RETURN, section!(GROUP => bytes: b"\x01\0\0\0\x07\0\0\0"), N_BREAKS]; [N_IN_3, START]),
    // The group itself as a member.
    "itself.o" => object!([RETURN, section!(GROUP => bytes: b"\x01\0\0\0\x02\0\0\0"), N_BREAKS]; [N_IN_3, START]),
);

const OTHER_INPUTS: &[Input] = inputs!(
    // A member that the group before it has.
    "taken.o" => object!([RETURN, GROUP, N_BREAKS, section!(GROUP => bytes: b"\0\0\0\0\x01\0\0\0\x03\0\0\0")]; [N_IN_3, START]),
    "start.o" => A,
);

pub fn files(alloc: Global) -> Result<Files, AllocError> {
    let mut files = objects_of(alloc, FIRST_INPUTS)?;
    push_objects(&mut files, alloc, OTHER_INPUTS)?;
    Ok(files)
}

/// Each rule for the form of a group, broken.
pub const FORMS: &[Refusal] = &[
    refusal!("-s", "entsize.o" => 1, 1, "F13 BadGroup file=entsize.o section=2 place=328 name= other=0"; store: Store::WrongGroups),
    refusal!("-s", "nothing.o" => 1, 1, "F13 BadGroup file=nothing.o section=2 place=320 name= other=0"; store: Store::WrongGroups),
    refusal!("-s", "uneven.o" => 1, 1, "F13 BadGroup file=uneven.o section=2 place=328 name= other=0"; store: Store::WrongGroups),
    refusal!("-s", "flag.o" => 1, 1, "F13 BadGroup file=flag.o section=2 place=328 name= other=0"; store: Store::WrongGroups),
    refusal!("-s", "link.o" => 1, 1, "F13 BadGroup file=link.o section=2 place=328 name= other=0"; store: Store::WrongGroups),
];

/// A signature or a member that is none; the first file's defect.
pub const MEMBERS: &[Refusal] = &[
    refusal!("-s", "symbol.o" => 1, 1, "F13 BadGroup file=symbol.o section=2 place=328 name= other=0"; store: Store::WrongGroups),
    refusal!("-s", "null.o" => 1, 1, "F13 BadGroup file=null.o section=2 place=336 name= other=0"; store: Store::WrongGroups),
    refusal!("-s", "past.o" => 1, 1, "F13 BadGroup file=past.o section=2 place=328 name= other=0"; store: Store::WrongGroups),
    refusal!("-s", "itself.o" => 1, 1, "F13 BadGroup file=itself.o section=2 place=328 name= other=0"; store: Store::WrongGroups),
    refusal!("-s", "taken.o" => 1, 1, "F13 BadGroup file=taken.o section=4 place=480 name= other=0"; store: Store::WrongGroups),
    refusal!("-s", "start.o", "flag.o", "null.o" => 1, 3, "F13 BadGroup file=flag.o section=2 place=328 name= other=0"; store: Store::WrongGroups),
];
