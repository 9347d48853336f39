//! The entry of one symbol of a file.

ghost use Rattle.std.specs.Prelude.{◌≡◌, ◌⊎◌, ℕ, ◌-◌, ◌<◌, length, slice_index_or, None, Some};
ghost use Rattle.lk_tables.specs.Files.{file_at, symbol_at};
ghost use Rattle.lk_tables.specs.declared.bounds.Bound.TheVariants.{InSection, Linker};
ghost use Rattle.link_sections.specs.InputViews.{input_view};
ghost use Rattle.link_sections.specs.Views.{binding_in, files_in, laid_in, leaders_in};
ghost use Rattle.symbol_table.specs.Noted.{AreNoted, output_numbers};
ghost use Rattle.symbol_table.specs.Outputs.{place_in};
ghost use Rattle.symbol_table.specs.Seen.{AreSeen};
ghost use Rattle.symbol_table.specs.declared.symbols.TablePlace.{TablePlace as TablePlaceOf};
ghost use Rattle.symbol_table.specs.SymbolTable as spec;
ghost use Rattle.symbol_table.specs.SymbolViews.{symbol_view, views_if};

use crate::outputs::Outputs;
use crate::symbols::{TablePlace, TableSymbol};
use link_sections::{InputSection, View, input_in, is_kept, leader_of, offset_in, symbol_address};
use lk_base::abi::{STB_GLOBAL, STB_WEAK, STT_COMMON, STT_NOTYPE, STT_OBJECT, STT_TLS};
use lk_base::{FileNo, SecNo, SymNo, low_bits};
use lk_tables::{
    Bound, FRAME_START_NO, Symbol, class_of, is_common, is_offer, is_visible, rank_of,
};

/// The entry of a symbol of a file, if it has one. What is noted of the file's sections is where they stand, as far as symbols in them were
/// found.
#[tactic(auto, unfolding(crate::specs::SymbolTable::entry_of, crate::specs::SymbolTable::entry_by))]
pub fn entry_of<'t, 'a>(
    view: &View<'t, 'a>,
    outputs: &Outputs,
    seen: &mut Vec<Option<TablePlace>>,
    file: FileNo,
    symbol: SymNo,
) -> Option<TableSymbol<'a>>
    requires noted { AreNoted 1 (laid_in view.now).outputs (output_numbers outputs.now) }
    requires file { file < length (files_in view.now) }
    requires symbol { symbol < length (file_at (files_in view.now) file).head.symbols }
    requires seen { AreSeen (files_in view.now) (binding_in view.now) (laid_in view.now) file seen.old.items }
    ensures entry { views_if result ≡ spec.entry_of (files_in view.now) (binding_in view.now) view.now.kept.now (leaders_in view.now) (laid_in view.now) file symbol }
    ensures seen { AreSeen (files_in view.now) (binding_in view.now) (laid_in view.now) file seen.new.items }
{
    let own = view.tables.file(file).symbol(symbol as usize);
    if !is_visible(&own) {
        return None;
    }
    match view.binding.bound(view.tables, file, symbol) {
        Bound::InSection { section, offset } => in_section(
            view, outputs, seen, file, symbol, section, offset,
        ),
        Bound::Number(_) => absolute(view, file, symbol),
        Bound::Linker(number) => of_linker(view, file, symbol, number),
        Bound::Nobody => None,
    }
}

/// The entry of a symbol that stands in a section, or in the room that it gets.
#[tactic(auto, unfolding(crate::specs::SymbolTable::entry_by))]
fn in_section<'t, 'a>(
    view: &View<'t, 'a>,
    outputs: &Outputs,
    seen: &mut Vec<Option<TablePlace>>,
    file: FileNo,
    symbol: SymNo,
    section: SecNo,
    offset: u64,
) -> Option<TableSymbol<'a>>
    requires noted { AreNoted 1 (laid_in view.now).outputs (output_numbers outputs.now) }
    requires file { file < length (files_in view.now) }
    requires symbol { symbol < length (file_at (files_in view.now) file).head.symbols }
    requires seen { AreSeen (files_in view.now) (binding_in view.now) (laid_in view.now) file seen.old.items }
    ensures entry { views_if result ≡ spec.entry_by (files_in view.now) (binding_in view.now) view.now.kept.now (leaders_in view.now) (laid_in view.now) (InSection section offset) file symbol }
    ensures seen { AreSeen (files_in view.now) (binding_in view.now) (laid_in view.now) file seen.new.items }
{
    if !is_taken(view, file, symbol) {
        return None;
    }
    if !is_kept(view.kept, section as usize) {
        return None;
    }
    Some(kept_symbol(view, outputs, seen, file, symbol, section, offset))
}

/// The entry of a symbol in a section, or in the room that it gets.
#[tactic(auto, unfolding(link_sections::specs::LaidOut::with_contents))]
fn kept_symbol<'t, 'a>(
    view: &View<'t, 'a>,
    outputs: &Outputs,
    seen: &mut Vec<Option<TablePlace>>,
    file: FileNo,
    symbol: SymNo,
    section: SecNo,
    offset: u64,
) -> TableSymbol<'a>
    requires noted { AreNoted 1 (laid_in view.now).outputs (output_numbers outputs.now) }
    requires file { file < length (files_in view.now) }
    requires seen { AreSeen (files_in view.now) (binding_in view.now) (laid_in view.now) file seen.old.items }
    ensures seen { AreSeen (files_in view.now) (binding_in view.now) (laid_in view.now) file seen.new.items }
    ensures entry { symbol_view result ≡ spec.own_symbol (files_in view.now) (binding_in view.now) view.now.kept.now (leaders_in view.now) (laid_in view.now) file symbol (spec.size_in (files_in view.now) (binding_in view.now) view.now.kept.now (leaders_in view.now) (laid_in view.now) file section offset (symbol_at (file_at (files_in view.now) file) symbol)) (place_in (laid_in view.now) (spec.section_in (files_in view.now) (binding_in view.now) file section)) }
{
    let input = section_in(view, file, section);
    let size = size_in(view, file, symbol, section, offset, input.size);
    let place = place_noted(view, outputs, seen, file, section, &input);
    own_symbol(view, file, symbol, size, place)
}

/// Where a section of a file stands. It is found by its name once, and then noted by the section's index, since many symbols may stand in a
/// section of a long name.
#[tactic(auto, unfolding(link_sections::specs::LaidOut::with_contents))]
fn place_noted(
    view: &View,
    outputs: &Outputs,
    seen: &mut Vec<Option<TablePlace>>,
    file: FileNo,
    section: SecNo,
    input: &InputSection,
) -> TablePlace
    requires noted { AreNoted 1 (laid_in view.now).outputs (output_numbers outputs.now) }
    requires file { file < length (files_in view.now) }
    requires input { input_view input.now ≡ spec.section_in (files_in view.now) (binding_in view.now) file section }
    requires seen { AreSeen (files_in view.now) (binding_in view.now) (laid_in view.now) file seen.old.items }
    ensures seen { AreSeen (files_in view.now) (binding_in view.now) (laid_in view.now) file seen.new.items }
    ensures place { result ≡ place_in (laid_in view.now) (spec.section_in (files_in view.now) (binding_in view.now) file section) }
{
    let index = (section as usize).saturating_sub(view.tables.section_no(file as usize, 0));
    if let Some(place) = seen_at(seen, index) {
        return place;
    }
    let place = outputs.place_of(view.layout, input);
    note_place(seen, index, place);
    place
}

/// What is noted of the section of an index.
fn seen_at(seen: &Vec<Option<TablePlace>>, index: usize) -> Option<TablePlace>
    ensures { result ≡ slice_index_or seen.now.items index None }
{
    match seen.get(index) {
        Some(place) => *place,
        None => None,
    }
}

/// Notes where the section of an index stands, if there is room for it.
fn note_place(seen: &mut Vec<Option<TablePlace>>, index: usize, place: TablePlace)
    ensures { (i : ℕ) (p : TablePlaceOf) → slice_index_or seen.new.items i None ≡ Some p → (slice_index_or seen.old.items i None ≡ Some p) ⊎ ((i ≡ index) × (p ≡ place)) }
{
    if index >= seen.len() {
        return;
    }
    seen[index] = Some(place);
}

/// The entry of a symbol that stands for one of the linker's. The start of `.eh_frame` has no name, so a symbol that stands for it has an entry of
/// its own.
#[tactic(auto, unfolding(crate::specs::SymbolTable::entry_by))]
fn of_linker<'t, 'a>(
    view: &View<'t, 'a>,
    file: FileNo,
    symbol: SymNo,
    number: u32,
) -> Option<TableSymbol<'a>>
    requires file { file < length (files_in view.now) }
    requires symbol { symbol < length (file_at (files_in view.now) file).head.symbols }
    ensures { views_if result ≡ spec.entry_by (files_in view.now) (binding_in view.now) view.now.kept.now (leaders_in view.now) (laid_in view.now) (Linker number) file symbol }
{
    if number == FRAME_START_NO {
        return absolute(view, file, symbol);
    }
    Some(linker_symbol(view, file, symbol))
}

/// The entry of a symbol that stands in no section that is written, if it is taken.
fn absolute<'t, 'a>(view: &View<'t, 'a>, file: FileNo, symbol: SymNo) -> Option<TableSymbol<'a>>
    requires file { file < length (files_in view.now) }
    requires symbol { symbol < length (file_at (files_in view.now) file).head.symbols }
    ensures { views_if result ≡ spec.absolute (files_in view.now) (binding_in view.now) view.now.kept.now (leaders_in view.now) (laid_in view.now) file symbol }
{
    if !is_taken(view, file, symbol) {
        return None;
    }
    let size = view.tables.file(file).symbol(symbol as usize).size;
    Some(own_symbol(view, file, symbol, size, TablePlace::Absolute))
}

/// Whether a symbol is the one to which its name is bound.
#[tactic(auto, unfolding(crate::specs::SymbolTable::is_taken))]
fn is_taken(view: &View, file: FileNo, symbol: SymNo) -> bool
    requires file { file < length (files_in view.now) }
    requires symbol { symbol < length (file_at (files_in view.now) file).head.symbols }
    ensures { result ≡ spec.is_taken (files_in view.now) (binding_in view.now) file symbol }
{
    view.tables.prove_few();
    let own = view.tables.file(file).symbol(symbol as usize);
    let number = view.tables.symbol_no(file as usize, symbol as usize);
    let rank = rank_of(class_of(&own), file as usize, symbol as usize);
    is_offer(&own) && view.binding.rank_at(number) == rank
}

/// The section of a number, which is one of the file, or the room of a COMMON symbol of it.
fn section_in<'t, 'a>(view: &View<'t, 'a>, file: FileNo, section: SecNo) -> InputSection<'a>
    requires file { file < length (files_in view.now) }
    ensures { input_view result ≡ spec.section_in (files_in view.now) (binding_in view.now) file section }
{
    let first = view.tables.section_no(file as usize, 0);
    let index = (section as usize).saturating_sub(first);
    input_in(view.tables, view.binding, file, index as u32)
}

/// The bytes of a symbol in a section of so many bytes, or in the room that it gets.
#[tactic(auto, unfolding(crate::specs::SymbolTable::size_in))]
fn size_in(view: &View, file: FileNo, symbol: SymNo, section: SecNo, offset: u64, size: u64) -> u64
    requires file { file < length (files_in view.now) }
    requires size { size ≡ (spec.section_in (files_in view.now) (binding_in view.now) file section).size }
    ensures { result ≡ spec.size_in (files_in view.now) (binding_in view.now) view.now.kept.now (leaders_in view.now) (laid_in view.now) file section offset (symbol_at (file_at (files_in view.now) file) symbol) }
{
    let own = view.tables.file(file).symbol(symbol as usize);
    if is_common(&own) {
        return size;
    }
    bytes_in(view, section, offset, own.size, size)
}

/// Of so many bytes from an offset of a section on, up to its end, those that stay.
#[tactic(auto, unfolding(crate::specs::SymbolTable::bytes_in, link_sections::specs::LaidOut::with_contents))]
fn bytes_in(view: &View, section: SecNo, offset: u64, count: u64, size: u64) -> u64
    ensures { result ≡ spec.bytes_in (leaders_in view.now) (laid_in view.now) section offset count size }
{
    let leader = leader_of(view.leaders, section);
    let end = offset.saturating_add(count).min(size);
    let from = offset_in(view.layout, leader, offset);
    offset_in(view.layout, leader, end).saturating_sub(from)
}

/// The entry of the symbol to which its name is bound, of so many bytes.
fn own_symbol<'t, 'a>(
    view: &View<'t, 'a>,
    file: FileNo,
    symbol: SymNo,
    size: u64,
    section: TablePlace,
) -> TableSymbol<'a>
    requires file { file < length (files_in view.now) }
    ensures { symbol_view result ≡ spec.own_symbol (files_in view.now) (binding_in view.now) view.now.kept.now (leaders_in view.now) (laid_in view.now) file symbol size section }
{
    let entry = view.tables.file(file);
    let own = entry.symbol(symbol as usize);
    TableSymbol {
        name: entry.symbol_name(symbol as usize),
        binding: binding_of(&own),
        sort: sort_of(&own),
        value: value_of(view, file, symbol),
        size,
        section,
    }
}

/// The entry of the linker's own symbol to which a symbol refers.
fn linker_symbol<'t, 'a>(view: &View<'t, 'a>, file: FileNo, symbol: SymNo) -> TableSymbol<'a>
    requires file { file < length (files_in view.now) }
    ensures { symbol_view result ≡ spec.linker_symbol (files_in view.now) (binding_in view.now) view.now.kept.now (leaders_in view.now) (laid_in view.now) file symbol }
{
    TableSymbol {
        name: view.tables.file(file).symbol_name(symbol as usize),
        binding: STB_GLOBAL,
        sort: STT_NOTYPE,
        value: symbol_address(view, file, symbol),
        size: 0,
        section: TablePlace::Absolute,
    }
}

/// The binding: WEAK for a weak offer; a COMMON one is GLOBAL.
fn binding_of(symbol: &Symbol) -> u8
    ensures { result ≡ spec.table_binding symbol.now }
{
    if class_of(symbol) == 2 {
        STB_WEAK
    } else {
        STB_GLOBAL
    }
}

/// The type: what was COMMON is an object.
fn sort_of(symbol: &Symbol) -> u8
    ensures { result ≡ spec.table_sort symbol.now }
{
    if is_common(symbol) || symbol.sort == STT_COMMON {
        return STT_OBJECT;
    }
    symbol.sort
}

/// The address or the number; that of a thread-local symbol counts from the start of thread-local storage.
#[tactic(auto, unfolding(crate::specs::SymbolTable::table_value, link_sections::specs::LaidOut::with_contents, link_sections::specs::LaidOut::layout_view))]
fn value_of(view: &View, file: FileNo, symbol: SymNo) -> u64
    requires file { file < length (files_in view.now) }
    ensures { result ≡ spec.table_value (files_in view.now) (binding_in view.now) view.now.kept.now (leaders_in view.now) (laid_in view.now) file symbol }
{
    let address = symbol_address(view, file, symbol);
    if view.tables.file(file).symbol(symbol as usize).sort != STT_TLS {
        return address;
    }
    low_bits(address as i128 - view.layout.bounds.tls_start as i128)
}
