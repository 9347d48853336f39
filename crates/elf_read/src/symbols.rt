//! The symbol table (System V gABI, "Symbol Table").

ghost use Rattle.std.specs.Prelude.{◌≡◌, ◌≢◌, ◌+◌, ◌*◌, ◌<◌, ◌≤◌, length, Ok, IfOk, IfSome};
ghost use Rattle.lk_base.specs.declared.abi.TheConstants.{SYM_SIZE, WORD_SIZE};
ghost use Rattle.lk_tables.specs.Checks.{checked, passes, Follows};
ghost use Rattle.lk_tables.specs.FileHeader.{section_count, header as header_of};
ghost use Rattle.lk_tables.specs.Heads.{sections_of, symbols_of, all_section_checks, all_symbol_checks};
ghost use Rattle.lk_tables.specs.Inside.{IsPlaceWithin};
ghost use Rattle.lk_tables.specs.Symbols as read;
ghost use Rattle.elf_read.specs.Names.{IsLast};

use crate::entries::entry_at;
use crate::header::{File, flaw};
use crate::names::{LastName, NO_LAST, find_len, span};
use crate::sections::{section_in, written_at};
use lk_base::abi::{
    SHN_ABS, SHN_COMMON, SHN_LORESERVE, SHN_UNDEF, SHN_XINDEX, STB_GLOBAL, STB_GNU_UNIQUE,
    STB_LOCAL, STB_WEAK, STT_COMMON, STT_FILE, STT_FUNC, STT_GNU_IFUNC, STT_NOTYPE, STT_OBJECT,
    STT_SECTION, STT_TLS, SYM_SIZE, WORD_SIZE,
};
use lk_base::kinds::{BAD_NAME, BAD_SYMBOL};
use lk_base::{Flaw, ReadFault};
use lk_tables::{Place, Section, Symbol, SymbolEntry, is_common, word_at};
use std::alloc::Global;

/// A symbol table whose section is sound: its entries and its names lie in the file.
#[derive(Clone, Copy)]
struct SymbolTable<'a> {
    bytes: &'a [u8],
    sections: &'a [Section],
    /// The symbol table's section.
    index: u32,
    /// File offset of the first entry.
    from: usize,
    /// How many entries it has.
    count: usize,
    /// The number of the first symbol that is not local.
    locals: u32,
    /// File offset of the symbol string table, and its bytes.
    strings_from: usize,
    strings_size: usize,
    /// The section with the indexes that do not fit into entries, or 0, and the file offset of its first word.
    index_table: u32,
    words_from: usize,

    ghost sections_are: { sections.now ≡ sections_of bytes.now },
    ghost counted: { length sections.now ≡ section_count bytes.now },
    ghost index_is: { index ≡ read.symtab_of bytes.now },
    ghost from_is: { from ≡ (header_of bytes.now (read.symtab_of bytes.now)).offset },
    ghost count_is: { count ≡ read.symbol_count bytes.now },
    ghost within: { from + SYM_SIZE * count ≤ length bytes.now },
    ghost locals_is: { locals ≡ (header_of bytes.now (read.symtab_of bytes.now)).info },
    ghost strings_from_is: { strings_from ≡ read.strings_from bytes.now },
    ghost strings_size_is: { strings_size ≡ read.strings_size bytes.now },
    ghost strings_within: { strings_from + strings_size ≤ length bytes.now },
    ghost index_table_is: { index_table ≡ read.index_table_of bytes.now },
    ghost words_from_is: { words_from ≡ (header_of bytes.now (read.index_table_of bytes.now)).offset },
    ghost words_within: { index_table ≢ 0 → words_from + WORD_SIZE * count ≤ length bytes.now },
}

/// All symbols of a file whose sections are sound; `symtab` is the symbol table's section, `index_table` the one with the
/// indexes that do not fit into its entries, or 0.
#[tactic(auto, unfolding(lk_tables::specs::Symbols::symbol_count))]
pub fn read_symbols(
    alloc: Global,
    file: &File,
    sections: &[Section],
    symtab: u32,
    index_table: u32,
) -> Result<Vec<Symbol>, ReadFault>
    requires passed { passes (all_section_checks file.now.bytes.now) ≡ Ok tt }
    requires sections { sections.now ≡ sections_of file.now.bytes.now }
    requires symtab { symtab ≡ read.symtab_of file.now.bytes.now }
    requires index_table { index_table ≡ read.index_table_of file.now.bytes.now }
    ensures checked { Follows result (all_symbol_checks file.now.bytes.now) }
    ensures list { IfOk result (λ symbols. symbols.items ≡ symbols_of file.now.bytes.now) }
{
    if symtab == 0 {
        return Ok(Vec::new(alloc));
    }
    read_entries(alloc, &table_in(file, sections, symtab, index_table))
}

/// The symbol table of a file whose sections are sound.
fn table_in<'a>(
    file: &File<'a>,
    sections: &'a [Section],
    symtab: u32,
    index_table: u32,
) -> SymbolTable<'a>
    requires readable { read.IsReadable file.now.bytes.now }
    requires sections { sections.now ≡ sections_of file.now.bytes.now }
    requires counted { length sections.now ≡ section_count file.now.bytes.now }
    requires symtab { symtab ≡ read.symtab_of file.now.bytes.now }
    requires index_table { index_table ≡ read.index_table_of file.now.bytes.now }
    requires index_table_high { index_table < section_count file.now.bytes.now }
    ensures { result.bytes.now ≡ file.now.bytes.now }
{
    let header = file.header(symtab);
    let strings = file.header(header.link);
    SymbolTable {
        bytes: file.bytes,
        sections,
        index: symtab,
        from: header.offset as usize,
        count: header.size as usize / SYM_SIZE as usize,
        locals: header.info,
        strings_from: strings.offset as usize,
        strings_size: strings.size as usize,
        index_table,
        words_from: file.header(index_table).offset as usize,
    }
}

/// All symbols of a table, if their entries are sound.
fn read_entries(alloc: Global, table: &SymbolTable) -> Result<Vec<Symbol>, ReadFault>
    ensures checked { Follows result (all_symbol_checks table.now.bytes.now) }
    ensures list { IfOk result (λ symbols. symbols.items ≡ symbols_of table.now.bytes.now) }
{
    let mut symbols = Vec::with_capacity(alloc, table.count)?;
    let mut last = NO_LAST;
    for index in 0..table.count {
        symbols.push(read_symbol(table, &mut last, index)?)?;
    }
    Ok(symbols)
}

/// One symbol, if its entry is sound.
#[tactic(auto, unfolding(lk_tables::specs::Symbols::symbol_of, lk_tables::specs::Symbols::symbol_from, lk_tables::specs::Symbols::place_at, lk_tables::specs::Symbols::symbol_checks))]
fn read_symbol(table: &SymbolTable, last: &mut LastName, index: usize) -> Result<Symbol, Flaw>
    requires index { index < table.now.count }
    requires last { IsLast table.now.bytes.now (read.strings_from table.now.bytes.now) (read.strings_size table.now.bytes.now) last.old }
    ensures symbol { result ≡ checked (read.symbol_checks table.now.bytes.now index) (read.symbol_of table.now.bytes.now index) }
    ensures last { IsLast table.now.bytes.now (read.strings_from table.now.bytes.now) (read.strings_size table.now.bytes.now) last.new }
{
    let at = table.from + SYM_SIZE as usize * index;
    let entry = entry_at(table.bytes, at);
    if index == 0 {
        return Ok(null_symbol(&entry));
    }
    let Some(len) = find_len(
        table.bytes,
        table.strings_from,
        table.strings_size,
        last,
        entry.name,
    ) else {
        return Err(flaw(BAD_NAME, table.index, at));
    };
    let Some(place) = place_of(table, index, entry.shndx) else {
        return Err(flaw(BAD_SYMBOL, table.index, at));
    };
    let symbol = Symbol {
        name: span(table.strings_from + entry.name as usize, len),
        binding: entry.info / 16,
        sort: entry.info % 16,
        place,
        value: entry.value,
        size: entry.size,
    };
    if is_bad_symbol(table, index, &symbol) {
        return Err(flaw(BAD_SYMBOL, table.index, at));
    }
    Ok(symbol)
}

/// What symbol 0 counts as.
fn null_symbol(entry: &SymbolEntry) -> Symbol
    ensures { result ≡ read.null_symbol entry.now.value entry.now.size }
{
    Symbol {
        name: span(0, 0),
        binding: STB_LOCAL,
        sort: STT_NOTYPE,
        place: Place::Undef,
        value: entry.value,
        size: entry.size,
    }
}

/// Where a symbol of this `st_shndx` stands.
#[tactic(auto, unfolding(lk_tables::specs::Symbols::place_from))]
fn place_of(table: &SymbolTable, index: usize, shndx: u16) -> Option<Place>
    requires index { index < table.now.count }
    ensures value { result ≡ read.place_from (length table.now.sections.now) shndx (read.index_word table.now.bytes.now index) }
    ensures within { IfSome result (λ place. IsPlaceWithin (length table.now.sections.now) place) }
{
    let count = table.sections.len();
    match shndx {
        SHN_UNDEF => Some(Place::Undef),
        SHN_ABS => Some(Place::Absolute),
        SHN_COMMON => Some(Place::Common),
        SHN_XINDEX => place_in(count, index_word(table, index)),
        _ => {
            if shndx < SHN_LORESERVE {
                place_in(count, shndx as u32)
            } else {
                None
            }
        }
    }
}

/// A section of a file that has `count` sections.
fn place_in(count: usize, index: u32) -> Option<Place>
    ensures value { result ≡ read.within count index }
    ensures within { IfSome result (λ place. IsPlaceWithin count place) }
{
    if 0 < index && (index as usize) < count {
        Some(Place::Within(index))
    } else {
        None
    }
}

/// The index of a symbol's section that does not fit into its entry, or 0.
#[tactic(auto, unfolding(lk_tables::specs::Symbols::index_word))]
fn index_word(table: &SymbolTable, index: usize) -> u32
    requires { index < table.now.count }
    ensures { result ≡ read.index_word table.now.bytes.now index }
{
    if table.index_table == 0 {
        return 0;
    }
    word_at(table.bytes, table.words_from + WORD_SIZE as usize * index)
}

/// Whether a symbol cannot be.
#[tactic(auto, unfolding(lk_tables::specs::Symbols::is_bad_symbol))]
fn is_bad_symbol(table: &SymbolTable, index: usize, symbol: &Symbol) -> bool
    requires { IsPlaceWithin (length table.now.sections.now) symbol.now.place }
    ensures { result ≡ read.is_bad_symbol table.now.bytes.now index symbol.now }
{
    is_strange(symbol)
        || is_bad_local(table.locals, index, symbol)
        || is_bad_common(symbol)
        || is_past_end(table, symbol.place, symbol.value)
}

/// Whether a symbol has a binding or a type that is not read.
#[tactic(auto, unfolding(lk_tables::specs::Symbols::is_strange))]
fn is_strange(symbol: &Symbol) -> bool
    ensures { result ≡ read.is_strange symbol.now }
{
    ![STB_LOCAL, STB_GLOBAL, STB_WEAK, STB_GNU_UNIQUE].contains(&symbol.binding)
        || ![
            STT_NOTYPE,
            STT_OBJECT,
            STT_FUNC,
            STT_SECTION,
            STT_FILE,
            STT_COMMON,
            STT_TLS,
            STT_GNU_IFUNC,
        ]
        .contains(&symbol.sort)
}

/// Whether a local symbol stands among the others or is COMMON, or another stands among the local ones or has no name.
#[tactic(auto, unfolding(lk_tables::specs::Symbols::is_bad_local))]
fn is_bad_local(locals: u32, index: usize, symbol: &Symbol) -> bool
    ensures { result ≡ read.is_bad_local locals index symbol.now }
{
    is_misplaced(locals, index, symbol.binding)
        || (symbol.binding == STB_LOCAL && is_common(symbol))
        || (symbol.binding != STB_LOCAL && symbol.name.len == 0)
}

/// Whether a local symbol stands after the local ones, or another among them.
#[tactic(auto, unfolding(lk_tables::specs::Symbols::is_misplaced))]
fn is_misplaced(locals: u32, index: usize, binding: u8) -> bool
    ensures { result ≡ read.is_misplaced locals index binding }
{
    let locals = locals as usize;
    (index < locals && binding != STB_LOCAL) || (locals <= index && binding == STB_LOCAL)
}

/// Whether a symbol is COMMON and of type TLS.
#[tactic(auto, unfolding(lk_tables::specs::Symbols::is_bad_common))]
fn is_bad_common(symbol: &Symbol) -> bool
    ensures { result ≡ read.is_bad_common symbol.now }
{
    is_common(symbol) && symbol.sort == STT_TLS
}

/// Whether a value is past the end of the written section in which its symbol stands.
#[tactic(auto, unfolding(lk_tables::specs::Symbols::is_past_end))]
fn is_past_end(table: &SymbolTable, place: Place, value: u64) -> bool
    requires { IsPlaceWithin (length table.now.sections.now) place }
    ensures { result ≡ read.is_past_end table.now.bytes.now place value }
{
    match place {
        Place::Within(index) => {
            written_at(table.bytes, table.sections, index as usize)
                && section_in(table.bytes, table.sections, index as usize).size < value
        }
        _ => false,
    }
}
