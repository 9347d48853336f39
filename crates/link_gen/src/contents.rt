//! What stands in each section of an object.

ghost use Rattle.std.specs.Prelude.{◌≡◌, ◌^◌, ◌<◌, ◌≤◌, ◌++◌, length, OnOk};
ghost use Rattle.link_gen.specs.Contents.{IsSmall, contents_of};
ghost use Rattle.link_gen.specs.Elf as elf;
ghost use Rattle.link_gen.specs.Generated as spec;

use crate::numbers::{digit_count, push_zeros};
use crate::sections::{Contents, Section, push_section_names, section_names_size};
use crate::symbols::{
    NUMBER_SIZE, RET_SIZE, Symbol, f_size, push_symbol_names, push_symbol_table, symbol_names_size,
};
use elf_fields::{push_long, push_word};
use lk_base::abi::{R_RISCV_64, R_RISCV_CALL_PLT, R_RISCV_RELAX, RELA_SIZE, SYM_SIZE};
use lk_base::push_decimal;
use std::alloc::AllocError;

/// `auipc ra, 0`, and `jalr ra, 0(ra)`.
const CALL: &[u8] = b"\x97\0\0\0\xe7\x80\0\0";
/// `jalr x0, 0(ra)`.
const RET: u32 = 0x8067;
/// `addi a0, x0, 0`.
const NOUGHT: u32 = 0x513;

/// What the sections of an object are made of.
#[derive(Clone, Copy)]
pub struct Object<'a> {
    /// Its number, from 0.
    pub number: u32,
    /// How many calls its `f` has.
    pub calls: u32,
    /// Its symbols with names.
    pub symbols: &'a [Symbol],
    pub sections: &'a [Section],
}

#[tactic(auto, unfolding(crate::specs::Generated::call, elf_fields::specs::Numbers::word))]
fn push_call(out: &mut Vec<u8>) -> Result<(), AllocError>
    ensures { OnOk result (out.new.items ≡ out.old.items ++ spec.call) }
{
    out.extend_from_slice(CALL)
}

#[tactic(auto, unfolding(crate::specs::Generated::ret))]
fn push_ret(out: &mut Vec<u8>) -> Result<(), AllocError>
    ensures { OnOk result (out.new.items ≡ out.old.items ++ spec.ret) }
{
    push_word(out, RET)
}

/// Adds a function with so many calls.
#[tactic(auto, unfolding(crate::specs::Generated::f_code))]
fn push_calls(out: &mut Vec<u8>, calls: u32) -> Result<(), AllocError>
    ensures { OnOk result (out.new.items ≡ out.old.items ++ spec.f_code calls) }
{
    for _call in 0..calls {
        push_call(out)?;
    }
    push_ret(out)?;
    Ok(())
}

/// Adds a relocation's entry (`Elf64_Rela`) with addend 0.
#[tactic(auto, unfolding(crate::specs::Elf::relocation))]
fn push_relocation(out: &mut Vec<u8>, offset: u64, kind: u32, symbol: u32) -> Result<(), AllocError>
    ensures { OnOk result (out.new.items ≡ out.old.items ++ elf.relocation offset kind symbol) }
{
    push_long(out, offset)?;
    push_word(out, kind)?;
    push_word(out, symbol)?;
    push_long(out, 0)
}

/// The symbol of the function that a call of object `k` is to: first its own `g`, then the `f` of others, which are the last symbols.
fn callee(k: u32, call: u32) -> u32
    requires { call ≤ 3 }
    ensures { result ≡ spec.callee k call }
{
    // The first function's symbol stands after those without names and `_start`.
    let first = 2 + u32::from(k == 0);
    if call == 0 {
        return first + 1;
    }
    first + 2 + call
}

/// Adds the relocations of calls.
#[tactic(auto, unfolding(crate::specs::Generated::f_relocations))]
fn push_call_relocations(out: &mut Vec<u8>, k: u32, calls: u32) -> Result<(), AllocError>
    requires { calls ≤ 3 }
    ensures { OnOk result (out.new.items ≡ out.old.items ++ spec.f_relocations k calls) }
{
    for call in 0..calls {
        let offset = 8 * call as u64;
        push_relocation(out, offset, R_RISCV_CALL_PLT, callee(k, call))?;
        push_relocation(out, offset, R_RISCV_RELAX, 0)?;
    }
    Ok(())
}

/// Adds the function that returns a number.
#[tactic(auto, unfolding(crate::specs::Generated::g_code))]
fn push_number(out: &mut Vec<u8>, k: u32) -> Result<(), AllocError>
    ensures { OnOk result (out.new.items ≡ out.old.items ++ spec.g_code k) }
{
    // The immediate of `addi` is in the bits from 20 on.
    push_word(out, NOUGHT + k % 7 * 0x10_0000)?;
    push_ret(out)
}

/// Adds the string.
#[tactic(auto, unfolding(crate::specs::Generated::merged_string))]
fn push_string(out: &mut Vec<u8>, k: u32) -> Result<(), AllocError>
    ensures { OnOk result (out.new.items ≡ out.old.items ++ spec.merged_string k) }
{
    out.push(b's')?;
    push_decimal(out, k % 11)?;
    out.push(0)?;
    Ok(())
}

/// Adds what stands in a section.
pub fn push_contents(
    out: &mut Vec<u8>,
    contents: Contents,
    object: &Object,
) -> Result<(), AllocError>
    requires { IsSmall object.now }
    ensures { OnOk result (out.new.items ≡ out.old.items ++ contents_of contents object.now) }
{
    match contents {
        Contents::Calls => push_calls(out, object.calls),
        Contents::CallRelocations => push_call_relocations(out, object.number, object.calls),
        Contents::Number => push_number(out, object.number),
        Contents::Ret => push_ret(out),
        Contents::MergedString => push_string(out, object.number),
        Contents::Zeros => push_zeros(out, 8),
        Contents::Pointer => push_relocation(out, 0, R_RISCV_64, 1),
        Contents::SymbolTable => push_symbol_table(out, object.symbols),
        Contents::SymbolNames => push_symbol_names(out, object.symbols),
        Contents::SectionNames => push_section_names(out, object.sections),
    }
}

/// Bytes of what stands in a section.
pub fn contents_size(contents: Contents, object: &Object) -> u64
    requires { IsSmall object.now }
    ensures value { result ≡ length (contents_of contents object.now) }
    ensures small { result < 2 ^ 16 }
{
    match contents {
        Contents::Calls => f_size(object.calls),
        Contents::CallRelocations => 2 * RELA_SIZE * object.calls as u64,
        Contents::Number => NUMBER_SIZE,
        Contents::Ret => RET_SIZE,
        Contents::MergedString => 2 + digit_count(object.number % 11),
        Contents::Zeros => 8,
        Contents::Pointer => RELA_SIZE,
        Contents::SymbolTable => SYM_SIZE * (2 + object.symbols.len() as u64),
        Contents::SymbolNames => symbol_names_size(object.symbols),
        Contents::SectionNames => section_names_size(object.sections),
    }
}
