//! The addresses of all symbols, and that at which the executable starts.

ghost use Rattle.std.specs.Prelude.{◌≡◌, ◌-◌, ◌<◌, ◌≤◌, ◌++◌, length, map, min, flat_map, IfOk, OnOk};
ghost use Rattle.std.specs.List.{range_with_len};
ghost use Rattle.lk_tables.specs.BoundNames.{IsBindingOf};
ghost use Rattle.lk_tables.specs.BindingView.{binding_view};
ghost use Rattle.lk_tables.specs.Files.{file_at, first_symbol, symbol_total};
ghost use Rattle.lk_tables.specs.TablesView.{files_of};
ghost use Rattle.link_sections.specs.Addresses.{AreAddresses};
ghost use Rattle.link_sections.specs.GotView.{entries_of};
ghost use Rattle.link_sections.specs.LaidOut.{layout_view, with_contents};
ghost use Rattle.link_sections.specs.PoolViews.{pools_view};
ghost use Rattle.link_sections.specs.Sound.{IsSound};
ghost use Rattle.link_sections.specs.Links.{link_files};
ghost use Rattle.symbol_addresses.specs.Prevailing.{own_address, own_addresses, own_at};
ghost use Rattle.work_split.specs.Runs.{IsRun};

use crate::edges::find_fixed;
use crate::entry::entry_address;
use crate::extents::Extents;
use crate::prevailing::{own_address, take_addresses};
use crate::sources::Sources;
use link_sections::{Addresses, Got, LaidLink, Layout, Pools};
use lk_base::{FileNo, LinkStop, SecNo};
use lk_tables::{Binding, Tables};
use std::alloc::{AllocError, Global};
use std::ops::Range;
use std::thread::Threads;
use work_split::{Gate, over_shares, pieces_of_least};

/// Fewer symbols are not worth a thread.
const LEAST: usize = 4096;

/// What each symbol stands for once everything has its place: an address or a number. The list has one entry for each symbol of all files,
/// by symbol number: 0 for those of a file that takes no part, and for one that stands for nothing. A symbol in a section that is merged
/// has the address of its byte in the pool; one of the linker's own has that of what its name says. Beside it stands the address of what the
/// entry's name is bound to. The symbols are shared among so many workers, by number and whatever file they are of, each of which reads these
/// alone; then those that are bound to another symbol take its address. The only error is out of memory.
pub fn find_addresses<R: Threads + Sync, G: Gate>(
    rt: &R,
    alloc: Global,
    tables: &Tables,
    binding: &Binding,
    pools: &Pools,
    leaders: &[Option<SecNo>],
    got: &Got,
    layout: &Layout,
    workers: u32,
    gate: &G,
) -> Result<Addresses, AllocError>
    requires some { 1 ≤ workers }
    requires most { workers ≤ 64 }
    requires bound { IsBindingOf (files_of tables.now) (binding_view binding.now) }
    requires sound { IsSound (files_of tables.now) (binding_view binding.now) leaders.now (with_contents (layout_view layout.now) (pools_view (files_of tables.now) pools.now) (entries_of got.now)) }
    ensures { IfOk result (AreAddresses (files_of tables.now) (binding_view binding.now) leaders.now (with_contents (layout_view layout.now) (pools_view (files_of tables.now) pools.now) (entries_of got.now))) }
{
    let link = LaidLink {
        tables,
        binding,
        pools,
        leaders,
        got,
        layout,
    };
    let fixed = find_fixed(alloc, &link)?;
    let extents = Extents::of(alloc, layout)?;
    let sources = Sources {
        link,
        fixed: fixed.as_slice(),
        extents: &extents,
    };
    let mut symbols = find_own(rt, alloc, &sources, workers, gate)?;
    take_addresses(&link, symbols.as_mut_slice());
    Ok(Addresses {
        symbols,
        entry: entry_address(&link),
    })
}

/// The addresses that symbols have without a look at other symbols. The workers each find those of one piece of the symbols' numbers.
fn find_own<R: Threads + Sync, G: Gate>(
    rt: &R,
    alloc: Global,
    sources: &Sources,
    workers: u32,
    gate: &G,
) -> Result<Vec<u64>, AllocError>
    requires some { 1 ≤ workers }
    requires most { workers ≤ 64 }
    ensures { IfOk result (λ found. found.items ≡ own_addresses sources.now.link) }
{
    let pieces = pieces_of_least(alloc, sources.link.tables.symbol_count(), LEAST, workers)?;
    let found = over_shares(
        rt,
        alloc,
        gate,
        pieces.as_slice(),
        |piece: Range<usize>| -> Result<Vec<u64>, LinkStop>
            requires piece { piece.end ≤ symbol_total (link_files sources.now.link) }
            ensures { IsRun (own_at sources.entry.now.link) piece result }
        { Ok(addresses_in(alloc, sources, piece)?) },
    );
    match found {
        Ok(list) => Ok(list),
        Err(_) => Err(AllocError),
    }
}

/// The addresses of the symbols of a run of numbers. The walk begins at the file of the first number, and goes on file by file, so no
/// other symbol's file is looked up.
fn addresses_in(
    alloc: Global,
    sources: &Sources,
    piece: Range<usize>,
) -> Result<Vec<u64>, AllocError>
    requires piece { piece.end ≤ symbol_total (link_files sources.now.link) }
    ensures { IfOk result (λ found. found.items ≡ flat_map (own_at sources.now.link) (range_with_len piece.start (piece.end - piece.start))) }
{
    let tables = sources.link.tables;
    tables.prove_few();
    let mut found = Vec::with_capacity(alloc, piece.end.saturating_sub(piece.start))?;
    for file in file_of_symbol(tables, piece.start)..tables.file_count() {
        let first = tables.symbol_no(file, 0);
        if piece.end <= first {
            return Ok(found);
        }
        let symbols = piece.start.saturating_sub(first)..piece.end - first;
        push_addresses(&mut found, sources, file as u32, symbols)?;
    }
    Ok(found)
}

/// The file of a symbol's number, by bisection: the last one whose symbols do not begin past it.
fn file_of_symbol(tables: &Tables, number: usize) -> usize
    ensures within { result ≤ length (files_of tables.now) }
    ensures before { first_symbol (files_of tables.now) result ≤ number }
{
    let mut file = 0;
    let mut end = tables.file_count();
    while file + 1 < end {
        let middle = file + (end - file) / 2;
        if tables.symbol_no(middle, 0) <= number {
            file = middle;
        } else {
            end = middle;
        }
    }
    file
}

/// The addresses of a run of one file's symbols, which may end past its last symbol.
fn push_addresses(
    found: &mut Vec<u64>,
    sources: &Sources,
    file: FileNo,
    symbols: Range<usize>,
) -> Result<(), AllocError>
    requires file { file < length (link_files sources.now.link) }
    ensures { OnOk result (found.new.items ≡ found.old.items ++ map (own_address sources.now.link file) (range_with_len symbols.start (min symbols.end (length (file_at (link_files sources.now.link) file).head.symbols) - symbols.start))) }
{
    sources.link.tables.prove_few();
    let count = sources.link.tables.file(file).symbols().len();
    for symbol in symbols.start..symbols.end.min(count) {
        found.push(own_address(sources, file, symbol as u32))?;
    }
    Ok(())
}
