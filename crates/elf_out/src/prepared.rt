//! What is made of the file before its first block: the headers at its start, and the symbol table, the names and the headers of sections that
//! follow the sections. All blocks are made from it.

ghost use Rattle.std.specs.Prelude.{◌≡◌, ◌+◌, ◌<◌, ◌^◌, ◌≤◌, ◌∷◌, [], length, IfOk};
ghost use Rattle.lk_base.specs.Firsts.{Goes};
ghost use Rattle.link_sections.specs.Views.{by_view, laid_in};
ghost use Rattle.elf_out.specs.Executable as spec;
ghost use Rattle.elf_out.specs.Prepared.{IsPreparedFor, headers_in};
ghost use Rattle.elf_out.specs.TablesView.{entries_in, tables_if, tables_in};
ghost use Rattle.reloc_apply.specs.Image.{piece, ShowsFrom};
ghost use Rattle.reloc_apply.specs.Relocated.{relocation_defects};
ghost use Rattle.symbol_table.specs.NamedViews.{named_views};

use crate::ends::{Ends, ends_of};
use crate::sections::{header_table, name_bytes};
use crate::segments::headers_before;
use crate::symbols::{SymbolTables, list_symbols, tables_from};
use link_sections::View;
use lk_base::LinkStop;
use reloc_apply::{Piece, check_relocations, fill_piece};
use std::alloc::{AllocError, Global};
use std::thread::{Threads, join_mut};
use symbol_table::Named;
use work_split::{Gate, OpenGate};

/// All that a file has beside the sections and the unwind records.
#[derive(Drop)]
pub struct Prepared {
    /// What `.symtab` and `.strtab` have, if there is a symbol table.
    pub tables: Option<SymbolTables>,
    /// Where these stand, and what follows them.
    pub ends: Ends,
    /// The file header and the program headers.
    pub headers: Vec<u8>,
    /// The names of the sections.
    pub names: Vec<u8>,
    /// The section headers.
    pub headers_of_sections: Vec<u8>,
}

impl Prepared {
    /// How many bytes the file has.
    pub fn file_length(&self) -> u64
        ensures { result ≡ self.now.ends.end }
    {
        self.ends.end
    }
}

/// What is made of a file before its first block, or the first relocation of a section, in order of file, section and offset, that can't be
/// done: so many workers test them all before a byte of the file is made, and find its symbols. With two workers or more the symbols are listed
/// first, and another thread brings them in order and makes these parts during the test, which they do not need. Or it is out of memory; no
/// block takes any.
pub fn prepare<R: Threads + Sync, G: Gate>(
    rt: &R,
    alloc: Global,
    view: &View,
    workers: u32,
    gate: &G,
) -> Result<Prepared, LinkStop>
    requires some { 1 ≤ workers }
    requires most { workers ≤ 64 }
    ensures goes { Goes result (by_view relocation_defects view.now) }
    ensures prepared { IfOk result (IsPreparedFor view.now) }
{
    if workers == 1 {
        check_relocations(rt, alloc, view, workers, gate)?;
        let prepared = prepare_unchecked(rt, alloc, view, workers, gate)?;
        return Ok(prepared);
    }
    let mut entries = list_symbols(rt, alloc, view, workers, &OpenGate)?;
    let (checked, prepared) = prepare_in_parallel(rt, alloc, view, &mut entries, workers, gate);
    // A relocation that can't be done is reported even where memory for the parts made meanwhile has run out.
    match checked {
        Ok(()) => {}
        Err(stop) => return Err(stop),
    }
    match prepared {
        Ok(prepared) => Ok(prepared),
        Err(_) => Err(LinkStop::Memory),
    }
}

/// Whether all relocations can be done, and what is made of a file before its first block, of the entries of its symbols. A thread each does
/// both, since neither needs the other.
fn prepare_in_parallel<R: Threads + Sync, G: Gate>(
    rt: &R,
    alloc: Global,
    view: &View,
    entries: &mut Vec<Named>,
    workers: u32,
    gate: &G,
) -> (Result<(), LinkStop>, Result<Prepared, AllocError>)
    requires some { 1 ≤ workers }
    requires most { workers ≤ 64 }
    requires entries { named_views entries.old.items ≡ entries_in view.now }
    ensures tested { Goes result.0 (by_view relocation_defects view.now) }
    ensures prepared { IfOk result.1 (IsPreparedFor view.now) }
{
    join_mut(
        rt,
        &mut || -> Result<(), LinkStop>
            requires { (1 ≤ workers) × (workers ≤ 64) }
            ensures { Goes result (by_view relocation_defects view.entry.now) }
        { check_relocations(rt, alloc, view, workers, gate) },
        &mut || -> Result<Prepared, AllocError>
            requires { named_views entries.now.items ≡ entries_in view.now }
            ensures { IfOk result (IsPreparedFor view.entry.now) }
        { prepare_listed(rt, alloc, view, entries, workers) },
    )
}

/// What is made of a file before its first block, whether its relocations can be done or not: none is tested here, and `block` then tests those
/// that touch a block. So many workers find its symbols. Or it is out of memory; no block takes any.
pub fn prepare_unchecked<R: Threads + Sync, G: Gate>(
    rt: &R,
    alloc: Global,
    view: &View,
    workers: u32,
    gate: &G,
) -> Result<Prepared, AllocError>
    requires some { 1 ≤ workers }
    requires most { workers ≤ 64 }
    ensures { IfOk result (IsPreparedFor view.now) }
{
    let mut entries = list_symbols(rt, alloc, view, workers, gate)?;
    prepare_listed(rt, alloc, view, &mut entries, workers)
}

/// What is made of a file before its first block, of the entries of its symbols, which are brought in order.
fn prepare_listed<R: Threads + Sync>(
    rt: &R,
    alloc: Global,
    view: &View,
    entries: &mut Vec<Named>,
    workers: u32,
) -> Result<Prepared, AllocError>
    requires { named_views entries.old.items ≡ entries_in view.now }
    ensures { IfOk result (IsPreparedFor view.now) }
{
    let outputs = view.layout.outputs.as_slice();
    let tables = tables_from(rt, alloc, view, entries, workers)?;
    let ends = ends_of(view, &tables)?;
    let headers = headers_before(alloc, view, &tables, ends.table_at)?;
    let names = name_bytes(alloc, outputs, &tables)?;
    let headers_of_sections = header_table(
        alloc,
        outputs,
        &tables,
        ends.symbols_at,
        ends.names_at,
        ends.names_size,
    )?;
    Ok(Prepared {
        tables,
        ends,
        headers,
        names,
        headers_of_sections,
    })
}

/// Copies bytes that stand at a file offset into a block that starts at another.
fn lay_piece(block: &mut [u8], from: u64, at: u64, bytes: &[u8])
    requires room { from + length block.old < 2 ^ 63 }
    requires at { at < 2 ^ 63 }
    ensures { ShowsFrom from block.old block.new (piece at bytes.now ∷ []) }
{
    let piece = Piece { at, bytes };
    fill_piece(block, from, &piece);
}

/// Copies the headers into a block that starts at a file offset.
pub fn lay_headers(block: &mut [u8], from: u64, view: &View, prepared: &Prepared)
    requires room { from + length block.old < 2 ^ 63 }
    requires prepared { IsPreparedFor view.now prepared.now }
    ensures { ShowsFrom from block.old block.new (piece 0 (headers_in view.now (tables_in view.now)) ∷ []) }
{
    lay_piece(block, from, 0, prepared.headers.as_slice());
}

/// Copies the symbol table with the names of its symbols, the names of the sections and the section headers.
pub fn lay_ends(block: &mut [u8], from: u64, view: &View, prepared: &Prepared)
    requires room { from + length block.old < 2 ^ 63 }
    requires prepared { IsPreparedFor view.now prepared.now }
    ensures { ShowsFrom from block.old block.new (spec.end_pieces (laid_in view.now) (tables_in view.now)) }
{
    lay_tables(block, from, &prepared.tables, prepared.ends.symbols_at);
    lay_piece(
        block,
        from,
        prepared.ends.names_at,
        prepared.names.as_slice(),
    );
    lay_piece(
        block,
        from,
        prepared.ends.table_at,
        prepared.headers_of_sections.as_slice(),
    );
}

/// Copies a symbol table, which stands at a file offset, and the names of its symbols, if there is one.
fn lay_tables(block: &mut [u8], from: u64, tables: &Option<SymbolTables>, at: u64)
    requires room { from + length block.old < 2 ^ 63 }
    requires end { spec.tables_end at (tables_if tables.now) < 2 ^ 63 }
    ensures { ShowsFrom from block.old block.new (spec.table_pieces at (tables_if tables.now)) }
{
    let Some(tables) = tables else {
        return;
    };
    let symbols = Piece {
        at,
        bytes: tables.symbols.as_slice(),
    };
    let strings = Piece {
        at: at + tables.symbols.len() as u64,
        bytes: tables.strings.as_slice(),
    };
    fill_piece(block, from, &symbols);
    fill_piece(block, from, &strings);
}
