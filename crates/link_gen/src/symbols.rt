//! The symbols of an object, their table and their names (System V gABI, "Symbol Table", "String Table").

ghost use Rattle.std.specs.Prelude.{◌≡◌, ◌+◌, ◌*◌, ◌^◌, ◌<◌, ◌≤◌, ◌++◌, ◌∷◌, length, map, decimal, IfOk, OnOk};
ghost use Rattle.std.specs.List.{range_with_len};
ghost use Rattle.elf_fields.specs.Symbols.{symbol_entry};
ghost use Rattle.link_gen.specs.Contents.{name_bytes, symbol_names, symbol_view};
ghost use Rattle.link_gen.specs.Elf as elf;
ghost use Rattle.link_gen.specs.Generated as spec;

use crate::numbers::digit_count;
use elf_fields::{SymbolEntry, push_symbol_entry};
use lk_base::abi::{SHN_UNDEF, STB_GLOBAL, STB_LOCAL, STT_FUNC, STT_NOTYPE, STT_SECTION};
use lk_base::push_decimal;
use std::alloc::{AllocError, Global};

// The sections that have symbols, by number.
const F_SECTION: u16 = 1;

const G_SECTION: u16 = 3;

const D_SECTION: u16 = 4;

const RODATA_SECTION: u16 = 5;

/// The most symbols with names that an object has.
const NAMED_MAX: usize = 6;
/// Bytes of a call.
const CALL_SIZE: u64 = 8;
/// Bytes of a return.
pub const RET_SIZE: u64 = 4;
/// Bytes of a function that returns a number.
pub const NUMBER_SIZE: u64 = 8;

const START: &[u8] = b"_start";

const GLOBAL_FUNC: u8 = STB_GLOBAL * 16 + STT_FUNC;

const GLOBAL_NOTYPE: u8 = STB_GLOBAL * 16 + STT_NOTYPE;

const LOCAL_SECTION: u8 = STB_LOCAL * 16 + STT_SECTION;

/// The name of a symbol.
#[derive(Clone, Copy)]
pub enum Name {
    /// `_start`.
    Start,
    /// A letter and a decimal number.
    Numbered { letter: u8, number: u32 },
}

/// A symbol with a name; its value is 0.
#[derive(Clone, Copy)]
pub struct Symbol {
    pub name: Name,
    pub info: u8,
    pub section: u16,
    pub size: u64,
}

/// How many other objects the `f` of object `k` of `n` calls: those of `2k + 1` and `2k + 2` that are there.
pub fn called_count(k: u32, n: u32) -> u32
    requires { k < 2 ^ 30 }
    ensures count { result ≡ length (spec.called k n) }
    ensures each { spec.called k n ≡ range_with_len (2 * k + 1) result }
    ensures most { result ≤ 2 }
{
    n.saturating_sub(2 * k + 1).min(2)
}

/// Bytes of an `f` with so many calls.
pub fn f_size(calls: u32) -> u64
    requires { calls ≤ 3 }
    ensures value { result ≡ length (spec.f_code calls) }
    ensures small { result ≤ 28 }
{
    calls as u64 * CALL_SIZE + RET_SIZE
}

/// A function whose name is a letter and the object's number.
fn function(letter: u8, number: u32, section: u16, size: u64) -> Symbol
    ensures { symbol_view result ≡ spec.function (letter ∷ decimal number) section size }
{
    Symbol {
        name: Name::Numbered { letter, number },
        info: GLOBAL_FUNC,
        section,
        size,
    }
}

/// Adds the symbol at which a program starts, if this is object 0; it is `f`, with so many calls.
fn push_start(symbols: &mut Vec<Symbol>, number: u32, calls: u32) -> Result<(), AllocError>
    requires { calls ≤ 3 }
    ensures { OnOk result (map symbol_view symbols.new.items ≡ map symbol_view symbols.old.items ++ spec.start number calls) }
{
    if number == 0 {
        symbols.push(Symbol {
            name: Name::Start,
            info: GLOBAL_FUNC,
            section: F_SECTION,
            size: f_size(calls),
        })?;
    }
    Ok(())
}

/// Adds the symbols of the `f` of other objects, from one number on.
fn push_called(symbols: &mut Vec<Symbol>, first: u32, count: u32) -> Result<(), AllocError>
    requires { first + count < 2 ^ 32 }
    ensures { OnOk result (map symbol_view symbols.new.items ≡ map symbol_view symbols.old.items ++ map spec.undefined (range_with_len first count)) }
{
    for number in first..first + count {
        symbols.push(Symbol {
            name: Name::Numbered {
                letter: b'f',
                number,
            },
            info: GLOBAL_NOTYPE,
            section: SHN_UNDEF,
            size: 0,
        })?;
    }
    Ok(())
}

/// The symbols with names of object `k` of `n`, in order.
pub fn named_symbols(alloc: Global, k: u32, n: u32) -> Result<Vec<Symbol>, AllocError>
    requires { k < 2 ^ 30 }
    ensures value { IfOk result (λ symbols. map symbol_view symbols.items ≡ spec.named_symbols k n) }
    ensures most { IfOk result (λ symbols. length symbols.items ≤ 6) }
{
    let called = called_count(k, n);
    let mut symbols = Vec::with_capacity(alloc, NAMED_MAX)?;
    push_start(&mut symbols, k, 1 + called)?;
    symbols.push(function(b'f', k, F_SECTION, f_size(1 + called)))?;
    symbols.push(function(b'g', k, G_SECTION, NUMBER_SIZE))?;
    symbols.push(function(b'd', k, D_SECTION, RET_SIZE))?;
    push_called(&mut symbols, 2 * k + 1, called)?;
    Ok(symbols)
}

/// Bytes of a name.
fn name_size(name: Name) -> u64
    ensures value { result ≡ length (name_bytes name) }
    ensures small { result ≤ 11 }
{
    match name {
        Name::Start => START.len() as u64,
        Name::Numbered { letter: _, number } => 1 + digit_count(number),
    }
}

fn push_name(out: &mut Vec<u8>, name: Name) -> Result<(), AllocError>
    ensures { OnOk result (out.new.items ≡ out.old.items ++ name_bytes name) }
{
    match name {
        Name::Start => out.extend_from_slice(START),
        Name::Numbered { letter, number } => {
            out.push(letter)?;
            push_decimal(out, number)
        }
    }
}

/// Adds the entry of a symbol of value 0; its name starts at `name` of the string table.
fn push_entry(
    out: &mut Vec<u8>,
    name: u32,
    info: u8,
    section: u16,
    size: u64,
) -> Result<(), AllocError>
    ensures { OnOk result (out.new.items ≡ out.old.items ++ symbol_entry (elf.entry_of name info section size)) }
{
    let entry = SymbolEntry {
        st_name: name,
        st_info: info,
        st_other: 0,
        st_shndx: section,
        st_value: 0,
        st_size: size,
    };
    push_symbol_entry(out, &entry)
}

/// Adds the entries of symbols whose names stand one after the other, the first after the zero byte.
fn push_entries(out: &mut Vec<u8>, symbols: &[Symbol]) -> Result<(), AllocError>
    requires { length symbols.now ≤ 6 }
    ensures { OnOk result (out.new.items ≡ out.old.items ++ elf.symbol_entries 1 (map symbol_view symbols.now)) }
{
    let mut name = 1;
    for symbol in symbols {
        push_entry(out, name, symbol.info, symbol.section, symbol.size)?;
        name += name_size(symbol.name) as u32 + 1;
    }
    Ok(())
}

/// Adds the symbol table: no symbol, that of the string's section, and the symbols with names.
pub fn push_symbol_table(out: &mut Vec<u8>, symbols: &[Symbol]) -> Result<(), AllocError>
    requires { length symbols.now ≤ 6 }
    ensures { OnOk result (out.new.items ≡ out.old.items ++ spec.symbol_table (map symbol_view symbols.now)) }
{
    push_entry(out, 0, 0, 0, 0)?;
    push_entry(out, 0, LOCAL_SECTION, RODATA_SECTION, 0)?;
    push_entries(out, symbols)?;
    Ok(())
}

/// Adds the names of symbols as a string table.
pub fn push_symbol_names(out: &mut Vec<u8>, symbols: &[Symbol]) -> Result<(), AllocError>
    ensures { OnOk result (out.new.items ≡ out.old.items ++ symbol_names (map symbol_view symbols.now)) }
{
    out.push(0)?;
    for symbol in symbols {
        push_name(out, symbol.name)?;
        out.push(0)?;
    }
    Ok(())
}

/// Bytes of the names of symbols as a string table.
pub fn symbol_names_size(symbols: &[Symbol]) -> u64
    requires { length symbols.now ≤ 6 }
    ensures value { result ≡ length (symbol_names (map symbol_view symbols.now)) }
    ensures small { result ≤ 73 }
{
    let mut size = 1;
    for symbol in symbols {
        size += name_size(symbol.name) + 1;
    }
    size
}
