//! Two calls of one section, each of which needs but four bytes where the other has four.

use super::altered::is_linked;
use elf_bytes::{
    Image, Object, Reloc, Symbol, image, image_of, object_of, record, reloc, section, symbol, text,
};
use link_driver::OpenGate;
use link_examples::images::{NAMES, READ, STACK};
use link_examples::objects::START;
use link_examples::{Files, Outside, SOUND, WORKERS, words_of};
use link_runs::{Left, run_over};
use std::alloc::{AllocError, Global};
use std::test::Fail;
use std::thread::Threads;

/// How many nops stand between the two calls.
const NOPS: usize = 262_141;

/// A call by two instructions.
const CALL: &[u8] = b"\x97\0\0\0\xe7\x80\0\0";

/// The first call goes to the end, the second to the start.
const CALLS: &[Reloc] = &[
    reloc!(8, 19, 2, 0),
    reloc!(8, 51, 0, 0),
    reloc!(1_048_580, 19, 1, 0),
    reloc!(1_048_580, 51, 0, 0),
];

const BOTH_ENDS: &[Symbol] = &[START, symbol!(b"f", 1, 2, 1, 1_048_588, 4)];

/// A return, a nop, a call, nops, another call, and a return.
fn code_with(alloc: Global, first: &[u8], second: &[u8]) -> Result<Vec<u8>, AllocError> {
    let mut code = Vec::from_slice(alloc, b"\x67\x80\0\0\x13\0\0\0")?;
    code.extend_from_slice(first)?;
    for _ in 0..NOPS {
        code.extend_from_slice(b"\x13\0\0\0")?;
    }
    code.extend_from_slice(second)?;
    code.extend_from_slice(b"\x67\x80\0\0")?;
    Ok(code)
}

/// An object of 1,048,592 bytes of code.
fn far(alloc: Global) -> Result<Vec<u8>, AllocError> {
    let code = code_with(alloc, CALL, CALL)?;
    let section = text!(code.as_slice());
    let object =
        record!(Object; flags: 0, sections: &[section!(section => relocs: CALLS)], symbols: BOTH_ENDS);
    object_of(alloc, &object)
}

/// What is left: 1,048,584 bytes, and the names of the sections after them. `jal` at 8 goes 1,048,572 bytes forwards, and the one at 1,048,576 1,048,576 back.
fn code_left(alloc: Global) -> Result<Vec<u8>, AllocError> {
    let mut code = code_with(alloc, b"\xef\xf0\xdf\x7f", b"\xef\0\0\x80")?;
    code.extend_from_slice(NAMES)?;
    Ok(code)
}

fn far_image<'x>(contents: &'x [(usize, &'x [u8])]) -> Image<'x> {
    image!(; entry: 0x11000, flags: 0, table: 0x10_1020, listed: None,
        segments: &[READ, [1, 5, 0x1000, 0x11000, 1_048_584, 1_048_584, 4096], STACK],
        contents: contents,
        sections: &[[1, 1, 6, 0x11000, 0x1000, 1_048_584, 4], [7, 3, 0, 0, 0x10_1008, 17, 1]])
}

/// Room for the executable.
const WIDE: Outside = record!(Outside, SOUND => most: 65536, room: 2_000_000);

fn linked<R: Threads + Sync>(rt: &R, alloc: Global, workers: &[&str]) -> Result<Left, AllocError> {
    let words = words_of(alloc, &["rvld", "-s", "far.o"], workers)?;
    let mut files: Files = Vec::new(alloc);
    files.push(("far.o".to_string(alloc)?, far(alloc)?))?;
    run_over(rt, alloc, words.as_slice(), files, &WIDE, &OpenGate)
}

#[test]
fn each_of_two_calls_lets_the_other_be_short(rt: HostRuntime) -> Result<(), Fail> {
    let alloc = rt.alloc();
    let code = code_left(alloc)?;
    let contents = [(0x1000usize, code.as_slice())];
    let whole = image_of(alloc, &far_image(&contents))?;
    for workers in WORKERS {
        let left = linked(&rt, alloc, workers)?;
        assert!(rt; is_linked(&left));
        assert!(rt; left.depot.bytes("a.out") == Some(whole.as_slice()));
    }
    Ok(())
}
