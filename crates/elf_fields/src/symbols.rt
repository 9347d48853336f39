//! A symbol's entry, and a name in a string table (System V gABI, "Symbol Table", "String Table").

ghost use Rattle.std.specs.Prelude.{◌≡◌, ◌++◌, OnOk};
ghost use Rattle.elf_fields.specs.Symbols as spec;

use crate::numbers::{push_half, push_long, push_word};
use std::alloc::AllocError;

/// An entry of a symbol table (`Elf64_Sym`).
#[derive(Clone, Copy)]
pub struct SymbolEntry {
    /// Where the name starts among the names of symbols, in bytes.
    pub st_name: u32,
    /// The binding in the high four bits, the type in the low.
    pub st_info: u8,
    /// The visibility, in the low two bits.
    pub st_other: u8,
    /// The number of its section, or what stands for one.
    pub st_shndx: u16,
    pub st_value: u64,
    pub st_size: u64,
}

/// Adds a symbol's entry: 24 bytes (gABI, "Symbol Table"). The only error is out of memory.
pub fn push_symbol_entry(out: &mut Vec<u8>, entry: &SymbolEntry) -> Result<(), AllocError>
    ensures { OnOk result (out.new.items ≡ out.old.items ++ spec.symbol_entry entry.now) }
{
    push_word(out, entry.st_name)?;
    out.push(entry.st_info)?;
    out.push(entry.st_other)?;
    push_half(out, entry.st_shndx)?;
    push_long(out, entry.st_value)?;
    push_long(out, entry.st_size)?;
    Ok(())
}

/// Adds a name and a zero byte (gABI, "String Table"). The only error is out of memory.
pub fn push_name(out: &mut Vec<u8>, name: &[u8]) -> Result<(), AllocError>
    ensures { OnOk result (out.new.items ≡ out.old.items ++ spec.zero_ended name.now) }
{
    out.extend_from_slice(name)?;
    out.push(0)?;
    Ok(())
}
