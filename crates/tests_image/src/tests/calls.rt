//! The least sizes of calls.

use super::links::{PLAIN, inputs_of, run_passes};
use super::objects::{BY_FIRST, CODE, LABEL, START};
use elf_bytes::{Object, Reloc, Section, Symbol, record};
use link_driver::Inputs;
use link_sections::Cut;
use lk_base::LinkStop;
use lk_base::abi::{R_RISCV_CALL_PLT, R_RISCV_RELAX};
use std::alloc::{AllocError, Global};
use std::test::Fail;
use std::thread::Threads;

/// A call by two instructions, and a tail call.
const CALL: &[u8] = b"\x97\0\0\0\xe7\x80\0\0";

const TAIL: &[u8] = b"\x17\x03\0\0\x67\0\x03\0";

/// Where a call stands in its section, and where its target does.
#[derive(Clone, Copy)]
struct Call {
    at: u64,
    target: u64,
}

macro_rules! call {
    ($at:expr => $target:expr) => {
        Call { at: $at, target: $target }
    };
}

/// A section: its calls, all by these bytes, and how many bytes it has.
#[derive(Clone, Copy)]
struct Code<'a> {
    calls: &'a [Call],
    way: &'a [u8],
    len: usize,
}

/// The bytes of a section: zeros, and its calls.
fn bytes_of(alloc: Global, code: &Code) -> Result<Vec<u8>, AllocError> {
    let mut bytes = vec![in alloc; 0u8; code.len]?;
    for call in code.calls {
        lay(&mut bytes, call.at as usize, code.way);
    }
    Ok(bytes)
}

/// Puts bytes at a place.
fn lay(bytes: &mut Vec<u8>, at: usize, way: &[u8]) {
    for (k, byte) in way.iter().enumerate() {
        if let Some(place) = bytes.get_mut(at.wrapping_add(k)) {
            *place = *byte;
        }
    }
}

/// Each call, which may be shortened: its target has the number of the call among the symbols.
fn relocs_of(alloc: Global, calls: &[Call]) -> Result<Vec<Reloc>, AllocError> {
    let mut relocs = Vec::new(alloc);
    for (k, call) in calls.iter().enumerate() {
        let by =
            record!(Reloc, BY_FIRST => offset: call.at, kind: R_RISCV_CALL_PLT as u64, symbol: (k as u64).wrapping_add(1));
        relocs.push(by)?;
        relocs.push(record!(Reloc, by => kind: R_RISCV_RELAX as u64, symbol: 0))?;
    }
    Ok(relocs)
}

/// The targets, and the start.
fn symbols_of(alloc: Global, calls: &[Call]) -> Result<Vec<Symbol<'static>>, AllocError> {
    let mut symbols = Vec::new(alloc);
    for call in calls {
        symbols.push(record!(Symbol, LABEL => value: call.target))?;
    }
    symbols.push(START)?;
    Ok(symbols)
}

/// How many bytes the call at an offset keeps: all eight where nothing is cut.
fn kept_at(cuts: &[Cut], at: u64) -> u64 {
    match cuts.iter().find(|cut| cut.at == at) {
        Some(cut) => cut.kept,
        None => 8,
    }
}

/// A section of these bytes.
fn code_of<'x>(bytes: &'x [u8], relocs: &'x [Reloc]) -> Section<'x> {
    record!(Section, CODE => bytes: bytes, relocs: relocs)
}

/// The inputs of a link of one object.
fn inputs_with(
    alloc: Global,
    flags: u64,
    sections: &[Section],
    symbols: &[Symbol],
) -> Result<Inputs, AllocError> {
    inputs_of(
        alloc,
        &[record!(Object; flags: flags, sections: sections, symbols: symbols)],
    )
}

/// The sizes of the calls of a section, of an object with these flags.
fn sizes<R: Threads + Sync>(
    rt: &R,
    alloc: Global,
    flags: u64,
    code: &Code,
) -> Result<Vec<u64>, LinkStop> {
    let bytes = bytes_of(alloc, code)?;
    let relocs = relocs_of(alloc, code.calls)?;
    let symbols = symbols_of(alloc, code.calls)?;
    let inputs = inputs_with(
        alloc,
        flags,
        &[code_of(bytes.as_slice(), relocs.as_slice())],
        symbols.as_slice(),
    )?;
    let made = run_passes(rt, alloc, &inputs, &PLAIN)?;
    let cuts = made.layout.sizes.cuts(1);
    let mut sizes = Vec::new(alloc);
    for call in code.calls {
        sizes.push(kept_at(cuts, call.at))?;
    }
    Ok(sizes)
}

/// Two calls in one section, both as far from their targets as four bytes each allow: one goes forwards from offset 8 to 1,048,588, the
/// other backwards from 1,048,580 to the start. Two bytes more between, and both need eight.
#[test]
fn calls_at_the_ends_of_their_reach(rt: HostRuntime) -> Result<(), Fail> {
    for (end, size) in [(1_048_588u64, 4), (1_048_590, 8)] {
        let calls = [call!(8 => end), call!(end.wrapping_sub(8) => 0)];
        let code = record!(Code; calls: &calls, way: CALL, len: end as usize);
        let found = sizes(&rt, rt.alloc(), 1, &code)?;
        assert!(rt; found.as_slice() == [size, size].as_slice());
    }
    Ok(())
}

/// A tail call over its own bytes has the two of `c.j` where it may, else the four of `jal`.
#[test]
fn a_tail_call_is_shortened(rt: HostRuntime) -> Result<(), Fail> {
    for (flags, least) in [(1, 2), (0, 4)] {
        let code = record!(Code; calls: &[call!(0 => 8)], way: TAIL, len: 8);
        let found = sizes(&rt, rt.alloc(), flags, &code)?;
        assert!(rt; found.as_slice() == [least].as_slice());
    }
    Ok(())
}

/// The section of a chain or a zigzag.
fn long<'a>(calls: &'a [Call]) -> Code<'a> {
    record!(Code; calls: calls, way: CALL, len: 1_200_000)
}

/// So many calls side by side, each of eight bytes once all are that it goes over: those after it, or before it. The last or first goes too far.
fn chain(alloc: Global, count: u64, forwards: bool) -> Result<Vec<Call>, AllocError> {
    let mut calls = Vec::new(alloc);
    for k in 0..count {
        let place = k.wrapping_mul(8);
        calls.push(if forwards {
            call!(place => place.wrapping_add(1_048_582))
        } else {
            call!(place.wrapping_add(1_048_580) => place)
        })?;
    }
    Ok(calls)
}

/// Whether each call of a chain has eight bytes.
fn is_raised<R: Threads + Sync>(rt: &R, alloc: Global, forwards: bool) -> Result<bool, LinkStop> {
    let calls = chain(alloc, 10_000, forwards)?;
    let found = sizes(rt, alloc, 1, &long(calls.as_slice()))?;
    Ok(found.len() == 10_000 && found.iter().all(|size| *size == 8))
}

// Chains of calls of which each raises the next, each a test of its own, since it takes seconds where memory is checked.
#[test]
fn chain_of_calls(rt: HostRuntime) -> Result<(), Fail> {
    assert!(rt; is_raised(&rt, rt.alloc(), true)?);
    Ok(())
}

#[test]
fn chain_of_calls_back(rt: HostRuntime) -> Result<(), Fail> {
    assert!(rt; is_raised(&rt, rt.alloc(), false)?);
    Ok(())
}

/// The call that gets larger after so many others, of 300: 150 side by side go forwards over 150 others, and these go back over them. The last
/// of the first ones goes too far from the start, then the first of the others does, the last but one of the first ones, and so on. Each call
/// must have eight bytes once all calls of the turns before it have; but the call of one turn has room for four bytes more.
fn call_of(turn: u64, with_room: u64) -> Call {
    let room = if turn == with_room { 4u64 } else { 0 };
    let pair = turn / 2;
    if turn % 2 == 0 {
        let k = 149u64.saturating_sub(pair);
        return record!(Call; at: k.wrapping_mul(8).wrapping_add(1_800), target: k.wrapping_mul(12).wrapping_add(1_050_386).wrapping_sub(room));
    }
    record!(Call; at: pair.wrapping_mul(8).wrapping_add(1_049_176), target: pair.wrapping_mul(12).wrapping_add(room))
}

/// The calls of all turns.
fn zigzag(alloc: Global, with_room: u64) -> Result<Vec<Call>, AllocError> {
    let mut calls = Vec::new(alloc);
    for turn in 0..300 {
        calls.push(call_of(turn, with_room))?;
    }
    Ok(calls)
}

/// A zigzag of calls, each raised by the one before, as far as the one that has room.
#[test]
fn zigzag_of_calls(rt: HostRuntime) -> Result<(), Fail> {
    for with_room in [1, 2, 151, 299, 300] {
        let calls = zigzag(rt.alloc(), with_room)?;
        let found = sizes(&rt, rt.alloc(), 1, &long(calls.as_slice()))?;
        assert_eq!(rt; found.len(), 300);
        for (turn, size) in found.iter().enumerate() {
            assert_eq!(rt; *size, if (turn as u64) < with_room { 8 } else { 4 });
        }
    }
    Ok(())
}
