//! The symbol table of the executable, and the names of its symbols (System V gABI, "Symbol Table", "String Table").

ghost use Rattle.std.specs.Prelude.{◌≡◌, ◌≤◌, ◌+◌, ◌∷◌, ◌++◌, length, replicate, IfOk, OnOk};
ghost use Rattle.lk_base.specs.declared.abi.TheConstants.{SYM_SIZE};
ghost use Rattle.elf_out.specs.Symbols as spec;
ghost use Rattle.elf_out.specs.TablesView.{entries_in, tables_if, tables_in, tables_view};
ghost use Rattle.symbol_table.specs.NamedViews.{named_views};
ghost use Rattle.symbol_table.specs.SymbolViews.{symbol_view, symbol_views};

use elf_fields::{SymbolEntry, push_name, push_symbol_entry};
use link_sections::View;
use lk_base::abi::{SHN_ABS, SYM_SIZE};
use std::alloc::{AllocError, Global};
use std::thread::{Threads, join_mut};
use symbol_table::{Named, TablePlace, TableSymbol, in_order, list_entries};
use work_split::Gate;

/// What the sections `.symtab` and `.strtab` have.
#[derive(Drop)]
pub struct SymbolTables {
    /// The bytes of the symbol table: the null symbol, and the symbols in order of the bytes of their names.
    pub symbols: Vec<u8>,
    /// A zero byte, and the names in the same order, each ended by a zero byte.
    pub strings: Vec<u8>,
}

/// What the sections `.symtab` and `.strtab` of an executable have; none where it has no symbol table. So many workers find the symbols. The
/// only error is out of memory.
pub fn symtab<R: Threads + Sync, G: Gate>(
    rt: &R,
    alloc: Global,
    view: &View,
    workers: u32,
    gate: &G,
) -> Result<Option<SymbolTables>, AllocError>
    requires some { 1 ≤ workers }
    requires most { workers ≤ 64 }
    ensures { IfOk result (λ tables. tables_if tables ≡ tables_in view.now) }
{
    let mut entries = list_symbols(rt, alloc, view, workers, gate)?;
    tables_from(rt, alloc, view, &mut entries, workers)
}

/// The entries of the symbols of an executable in order of file and symbol; none where it has no symbol table. So many workers list them. The
/// only error is out of memory.
pub fn list_symbols<'t, 'a, R: Threads + Sync, G: Gate>(
    rt: &R,
    alloc: Global,
    view: &View<'t, 'a>,
    workers: u32,
    gate: &G,
) -> Result<Vec<Named<'a>>, AllocError>
    requires some { 1 ≤ workers }
    requires most { workers ≤ 64 }
    ensures { IfOk result (λ entries. named_views entries.items ≡ entries_in view.now) }
{
    if !view.strip {
        return list_entries(rt, alloc, view, workers, gate);
    }
    Ok(Vec::new(alloc))
}

/// What both sections have of these entries, which are brought in order; none where the executable has no symbol table.
#[tactic(auto, unfolding(crate::specs::Executable::own_tables, symbol_table::specs::SymbolTable::table_symbols))]
pub fn tables_from<R: Threads + Sync>(
    rt: &R,
    alloc: Global,
    view: &View,
    entries: &mut Vec<Named>,
    workers: u32,
) -> Result<Option<SymbolTables>, AllocError>
    requires { named_views entries.old.items ≡ entries_in view.now }
    ensures { IfOk result (λ tables. tables_if tables ≡ tables_in view.now) }
{
    if view.strip {
        return Ok(None);
    }
    let list = in_order(rt, alloc, entries, workers)?;
    let tables = tables_of(rt, alloc, list.as_slice(), workers)?;
    Ok(Some(tables))
}

/// How many symbols are at least worth a thread.
const LEAST: usize = 4096;

/// What `.symtab` and `.strtab` of these symbols have. With two workers or more, and symbols enough, a thread each makes them.
fn tables_of<R: Threads + Sync>(
    rt: &R,
    alloc: Global,
    list: &[TableSymbol],
    workers: u32,
) -> Result<SymbolTables, AllocError>
    ensures { IfOk result (λ tables. tables_view tables ≡ spec.symbol_tables (symbol_views list.now)) }
{
    if workers == 1 || list.len() < LEAST {
        return tables_alone(alloc, list);
    }
    make_tables_in_parallel(rt, alloc, list)
}

/// The two tables, one after the other.
#[tactic(auto, unfolding(crate::specs::Symbols::symbol_tables))]
fn tables_alone(alloc: Global, list: &[TableSymbol]) -> Result<SymbolTables, AllocError>
    ensures { IfOk result (λ tables. tables_view tables ≡ spec.symbol_tables (symbol_views list.now)) }
{
    let symbols = symbols_of(alloc, list)?;
    let strings = strings_of(alloc, list)?;
    Ok(SymbolTables { symbols, strings })
}

/// The two tables at the same time.
#[tactic(auto, unfolding(crate::specs::Symbols::symbol_tables))]
fn make_tables_in_parallel<R: Threads + Sync>(
    rt: &R,
    alloc: Global,
    list: &[TableSymbol],
) -> Result<SymbolTables, AllocError>
    ensures { IfOk result (λ tables. tables_view tables ≡ spec.symbol_tables (symbol_views list.now)) }
{
    let (symbols, strings) = join_mut(
        rt,
        &mut || -> Result<Vec<u8>, AllocError>
            ensures { IfOk result (λ symbols. symbols.items ≡ replicate SYM_SIZE 0 ++ spec.symbol_entries 1 (symbol_views list.entry.now)) }
        { symbols_of(alloc, list) },
        &mut || -> Result<Vec<u8>, AllocError>
            ensures { IfOk result (λ strings. strings.items ≡ 0 ∷ spec.symbol_names (symbol_views list.entry.now)) }
        { strings_of(alloc, list) },
    );
    let symbols = symbols?;
    let strings = strings?;
    Ok(SymbolTables { symbols, strings })
}

/// The bytes of the symbol table.
fn symbols_of(alloc: Global, list: &[TableSymbol]) -> Result<Vec<u8>, AllocError>
    ensures { IfOk result (λ symbols. symbols.items ≡ replicate SYM_SIZE 0 ++ spec.symbol_entries 1 (symbol_views list.now)) }
{
    let mut symbols = vec![in alloc; 0u8; SYM_SIZE as usize]?;
    let mut name: u64 = 1;
    for symbol in list {
        push_symbol(&mut symbols, name, symbol)?;
        let next = name_after(name, symbol.name)?;
        name = next;
    }
    Ok(symbols)
}

/// Where the name after one starts that starts at `name` of the names; out of memory if no memory holds it.
fn name_after(name: u64, text: &[u8]) -> Result<u64, AllocError>
    ensures { IfOk result (λ next. next ≡ name + length text.now + 1) }
{
    let size = text.len() as u64;
    if name >= 1 << 62 {
        return Err(AllocError);
    }
    if size >= 1 << 62 {
        return Err(AllocError);
    }
    Ok(name + size + 1)
}

/// The bytes of the names.
fn strings_of(alloc: Global, list: &[TableSymbol]) -> Result<Vec<u8>, AllocError>
    ensures { IfOk result (λ strings. strings.items ≡ 0 ∷ spec.symbol_names (symbol_views list.now)) }
{
    let mut strings = vec![in alloc; 0u8; 1]?;
    for symbol in list {
        push_name(&mut strings, symbol.name)?;
    }
    Ok(strings)
}

/// The entry of a symbol whose name starts at `name` of the names.
fn entry_of(name: u64, symbol: &TableSymbol) -> SymbolEntry
    ensures { result ≡ spec.entry_of name (symbol_view symbol.now) }
{
    SymbolEntry {
        st_name: (name % 0x1_0000_0000) as u32,
        st_info: info_of(symbol),
        st_other: 0,
        st_shndx: index_of(symbol.section),
        st_value: symbol.value,
        st_size: symbol.size,
    }
}

/// Adds the entry of a symbol whose name starts at `name` of the names.
fn push_symbol(out: &mut Vec<u8>, name: u64, symbol: &TableSymbol) -> Result<(), AllocError>
    ensures { OnOk result (out.new.items ≡ out.old.items ++ spec.entry_bytes name (symbol_view symbol.now)) }
{
    push_symbol_entry(out, &entry_of(name, symbol))?;
    Ok(())
}

/// `st_info`: the binding in the high four bits, the type in the low.
fn info_of(symbol: &TableSymbol) -> u8
    ensures { result ≡ spec.info_of (symbol_view symbol.now) }
{
    symbol.binding % 16 * 16 + symbol.sort % 16
}

/// `st_shndx`: output sections have the first section headers after the null one.
fn index_of(place: TablePlace) -> u16
    ensures { result ≡ spec.index_of place }
{
    match place {
        TablePlace::Absolute => SHN_ABS,
        TablePlace::Output(number) => number,
    }
}
