//! Where the symbol table, the names of the sections and the section headers stand: after the last byte of a section.

ghost use Rattle.std.specs.Prelude.{◌≡◌, ◌<◌, ◌≤◌, ◌^◌, IfOk};
ghost use Rattle.link_sections.specs.Views.{laid_in};
ghost use Rattle.lk_base.specs.Arithmetic as arithmetic;
ghost use Rattle.elf_out.specs.Ends.{AreEnds};
ghost use Rattle.elf_out.specs.Executable as spec;
ghost use Rattle.elf_out.specs.TablesView.{tables_if};

use crate::header_bytes::offset_of;
use crate::sections::names_size;
use crate::symbols::SymbolTables;
use link_sections::View;
use lk_base::abi::SHDR_SIZE;
use lk_base::up;
use std::alloc::AllocError;

/// File offsets.
#[derive(Clone, Copy)]
pub struct Ends {
    /// Where the symbol table starts, if there is one.
    pub symbols_at: u64,
    /// Where the names of the sections start.
    pub names_at: u64,
    /// How many bytes they have.
    pub names_size: u64,
    /// Where the section headers start.
    pub table_at: u64,
    /// Where they end, and the file with them.
    pub end: u64,
}

/// Where the parts of an executable past its sections stand; out of memory if no memory holds its names.
#[tactic(auto, unfolding(crate::specs::Executable::file_length, link_sections::specs::LaidOut::layout_view, link_sections::specs::LaidOut::with_contents))]
pub fn ends_of(view: &View, tables: &Option<SymbolTables>) -> Result<Ends, AllocError>
    ensures { IfOk result (λ ends. AreEnds (laid_in view.now) (tables_if tables.now) ends) }
{
    let outputs = view.layout.outputs.as_slice();
    let last = offset_of(view.layout.bounds.file_end);
    let symbols_at = up(last, 8);
    let names_at = after_tables(last, symbols_at, tables)?;
    let names_size = names_size(outputs, tables)?;
    let table_at = up(names_at + names_size, 8);
    let count = outputs.len() as u64 + table_count(tables) + 2;
    let end = table_at + SHDR_SIZE * count;
    Ok(Ends {
        symbols_at,
        names_at,
        names_size,
        table_at,
        end,
    })
}

/// Where the symbol table and the names of its symbols end, which start at an offset; out of memory if no memory holds them. Without one it
/// is the end of the last section.
fn after_tables(
    last: u64,
    symbols_at: u64,
    tables: &Option<SymbolTables>,
) -> Result<u64, AllocError>
    requires last { last < 2 ^ 31 }
    requires at { symbols_at < 2 ^ 32 }
    requires value { symbols_at ≡ arithmetic.up last 8 }
    ensures value { IfOk result (λ n. n ≡ spec.after_tables last (tables_if tables.now)) }
    ensures small { IfOk result (λ n. n < 2 ^ 61) }
{
    let Some(tables) = tables else {
        return Ok(last);
    };
    let symbols = tables.symbols.len() as u64;
    let strings = tables.strings.len() as u64;
    if symbols >= 1 << 59 {
        return Err(AllocError);
    }
    if strings >= 1 << 59 {
        return Err(AllocError);
    }
    Ok(symbols_at + symbols + strings)
}

/// How many sections the symbol table and the names of its symbols are.
pub fn table_count(tables: &Option<SymbolTables>) -> u64
    ensures value { result ≡ spec.table_count (tables_if tables.now) }
    ensures most { result ≤ 2 }
{
    match tables {
        None => 0,
        Some(_) => 2,
    }
}
