//! The entries of all files, by many workers.

ghost use Rattle.std.specs.Prelude.{◌≡◌, ◌-◌, ◌<◌, ◌≤◌, ◌++◌, length, flat_map, IfOk, OnOk};
ghost use Rattle.std.specs.List.{range_with_len};
ghost use Rattle.lk_tables.specs.Files.{file_at};
ghost use Rattle.lk_tables.specs.TablesView.{files_of};
ghost use Rattle.link_sections.specs.Views.{binding_in, files_in, laid_in, leaders_in};
ghost use Rattle.symbol_table.specs.NamedViews.{AreEntries, named_views};
ghost use Rattle.symbol_table.specs.Noted.{AreNoted, output_numbers};
ghost use Rattle.symbol_table.specs.SymbolTable as spec;
ghost use Rattle.symbol_table.specs.SymbolViews.{symbol_views, views_if};
ghost use Rattle.work_split.specs.Pieces.{Tiles};

use crate::entries::entry_of;
use crate::name_keys::key_of;
use crate::named::Named;
use crate::outputs::Outputs;
use crate::sorting::in_order;
use crate::symbols::TableSymbol;
use link_sections::View;
use lk_base::{FileNo, LinkStop};
use lk_tables::{Tables, section_count};
use std::alloc::{AllocError, Global};
use std::ops::Range;
use std::thread::Threads;
use work_split::{Gate, over_shares, pieces_by_weight};

/// The symbols of an executable, in order of the bytes of their names, no name twice: each name that is bound to a symbol of a file whose
/// section is kept or that stands in none, and each of the linker's own to which a file that takes part refers. So many workers share the
/// symbols of all files; one worker sorts by itself, more sort as many as the machine has processors. The only error is out of memory.
#[tactic(auto, unfolding(crate::specs::SymbolTable::table_symbols))]
pub fn table_symbols<'t, 'a, R: Threads + Sync, G: Gate>(
    rt: &R,
    alloc: Global,
    view: &View<'t, 'a>,
    workers: u32,
    gate: &G,
) -> Result<Vec<TableSymbol<'a>>, AllocError>
    requires some { 1 ≤ workers }
    requires most { workers ≤ 64 }
    ensures { IfOk result (λ list. symbol_views list.items ≡ spec.table_symbols (files_in view.now) (binding_in view.now) view.now.kept.now (leaders_in view.now) (laid_in view.now)) }
{
    let mut entries = list_entries(rt, alloc, view, workers, gate)?;
    in_order(rt, alloc, &mut entries, workers)
}

/// The entries of these symbols in order of file and symbol, with one for each reference to one of the linker's own: `in_order` makes the symbols
/// of them. So many workers share the symbols of all files. The only error is out of memory.
pub fn list_entries<'t, 'a, R: Threads + Sync, G: Gate>(
    rt: &R,
    alloc: Global,
    view: &View<'t, 'a>,
    workers: u32,
    gate: &G,
) -> Result<Vec<Named<'a>>, AllocError>
    requires some { 1 ≤ workers }
    requires most { workers ≤ 64 }
    ensures { IfOk result (λ list. named_views list.items ≡ spec.all_entries (files_in view.now) (binding_in view.now) view.now.kept.now (leaders_in view.now) (laid_in view.now)) }
{
    let outputs = Outputs::of(alloc, view.layout.outputs.as_slice())?;
    all_entries(rt, alloc, view, &outputs, workers, gate)
}

/// The entries of the symbols of all files, in order of file and symbol. The workers each list those of one piece of the files.
#[tactic(auto, unfolding(crate::specs::SymbolTable::all_entries))]
fn all_entries<'t, 'a, R: Threads + Sync, G: Gate>(
    rt: &R,
    alloc: Global,
    view: &View<'t, 'a>,
    outputs: &Outputs,
    workers: u32,
    gate: &G,
) -> Result<Vec<Named<'a>>, AllocError>
    requires some { 1 ≤ workers }
    requires most { workers ≤ 64 }
    requires noted { AreNoted 1 (laid_in view.now).outputs (output_numbers outputs.now) }
    ensures { IfOk result (λ list. named_views list.items ≡ spec.all_entries (files_in view.now) (binding_in view.now) view.now.kept.now (leaders_in view.now) (laid_in view.now)) }
{
    let pieces = pieces_of(alloc, view.tables, workers)?;
    let found = over_shares(
        rt,
        alloc,
        gate,
        pieces.as_slice(),
        |piece: Range<usize>| -> Result<Vec<Named>, LinkStop>
            requires noted { AreNoted 1 (laid_in view.now).outputs (output_numbers outputs.now) }
            requires piece { piece.end ≤ length (files_in view.now) }
            ensures { AreEntries (spec.entries_in (files_in view.entry.now) (binding_in view.entry.now) view.entry.now.kept.now (leaders_in view.entry.now) (laid_in view.entry.now)) piece result }
        { Ok(entries_of(alloc, view, outputs, piece)?) },
    );
    match found {
        Ok(list) => Ok(list),
        Err(_) => Err(AllocError),
    }
}

/// The files cut into pieces of about as many symbols each, one for each worker.
fn pieces_of(alloc: Global, tables: &Tables, workers: u32) -> Result<Vec<Range<usize>>, AllocError>
    requires some { 1 ≤ workers }
    requires most { workers ≤ 64 }
    ensures tiles { IfOk result (λ pieces. Tiles 0 (length (files_of tables.now)) pieces.items) }
    ensures most { IfOk result (λ pieces. length pieces.items ≤ 64) }
{
    let mut counts = Vec::with_capacity(alloc, tables.file_count())?;
    for file in tables.files() {
        counts.push(file.symbols().len() as u64)?;
    }
    pieces_by_weight(alloc, counts.as_slice(), workers)
}

/// The entries of a run of files.
fn entries_of<'t, 'a>(
    alloc: Global,
    view: &View<'t, 'a>,
    outputs: &Outputs,
    piece: Range<usize>,
) -> Result<Vec<Named<'a>>, AllocError>
    requires noted { AreNoted 1 (laid_in view.now).outputs (output_numbers outputs.now) }
    requires piece { piece.end ≤ length (files_in view.now) }
    ensures { IfOk result (λ list. named_views list.items ≡ flat_map (spec.entries_in (files_in view.now) (binding_in view.now) view.now.kept.now (leaders_in view.now) (laid_in view.now)) (range_with_len piece.start (piece.end - piece.start))) }
{
    view.tables.prove_few();
    let mut list = Vec::new(alloc);
    for file in piece.start..piece.end {
        push_file(alloc, &mut list, view, outputs, file as u32)?;
    }
    Ok(list)
}

/// Adds the entries of one file, if it takes part.
#[tactic(auto, unfolding(crate::specs::SymbolTable::entries_in))]
fn push_file<'t, 'a>(
    alloc: Global,
    list: &mut Vec<Named<'a>>,
    view: &View<'t, 'a>,
    outputs: &Outputs,
    file: FileNo,
) -> Result<(), AllocError>
    requires noted { AreNoted 1 (laid_in view.now).outputs (output_numbers outputs.now) }
    requires file { file < length (files_in view.now) }
    ensures { OnOk result (named_views list.new.items ≡ named_views list.old.items ++ spec.entries_in (files_in view.now) (binding_in view.now) view.now.kept.now (leaders_in view.now) (laid_in view.now) file) }
{
    if !view.tables.file(file).is_live() {
        return Ok(());
    }
    push_symbols(alloc, list, view, outputs, file)
}

/// Adds the entries of the symbols of a file.
fn push_symbols<'t, 'a>(
    alloc: Global,
    list: &mut Vec<Named<'a>>,
    view: &View<'t, 'a>,
    outputs: &Outputs,
    file: FileNo,
) -> Result<(), AllocError>
    requires noted { AreNoted 1 (laid_in view.now).outputs (output_numbers outputs.now) }
    requires file { file < length (files_in view.now) }
    ensures { OnOk result (named_views list.new.items ≡ named_views list.old.items ++ flat_map (spec.entry_of (files_in view.now) (binding_in view.now) view.now.kept.now (leaders_in view.now) (laid_in view.now) file) (range_with_len 0 (length (file_at (files_in view.now) file).head.symbols))) }
{
    view.tables.prove_few();
    let mut seen = Vec::new(alloc);
    seen.resize(section_count(view.tables.file(file)), None)?;
    for symbol in 0..view.tables.file(file).symbols().len() {
        push_if(
            list,
            entry_of(view, outputs, &mut seen, file, symbol as u32),
        )?;
    }
    Ok(())
}

/// Adds an entry that is there.
fn push_if<'a>(list: &mut Vec<Named<'a>>, entry: Option<TableSymbol<'a>>) -> Result<(), AllocError>
    ensures { OnOk result (named_views list.new.items ≡ named_views list.old.items ++ views_if entry.entry) }
{
    if let Some(symbol) = entry {
        list.push(Named {
            symbol,
            key: key_of(symbol.name),
        })?;
    }
    Ok(())
}
