//! No addresses where there are no symbols, by a layout made by hand; and those of the linker's own symbols, of which two stand in two classes.

ghost use Rattle.std.specs.Prelude.{◌≡◌, ◌+◌, ◌≤◌, ◌^◌, ◌<◌, [], All, map, IfOk, OnOk};
ghost use Rattle.lk_tables.specs.Binding.{Bindings};
ghost use Rattle.lk_tables.specs.BindingView.{binding_view};
ghost use Rattle.lk_tables.specs.BoundNames.{IsBindingOf};
ghost use Rattle.lk_tables.specs.TablesView.{files_of};
ghost use Rattle.link_sections.specs.LaidOut.{OutputPlace as Place, layout_view, no_pools, place_view, with_contents};
ghost use Rattle.link_sections.specs.Sound.{IsSound};

use super::links::{PLAIN, inputs_of, run_passes};
use super::objects::START;
use elf_bytes::{Object, Section, Symbol, record, section, symbol};
use flat_rows::Rows;
use link_sections::{Bounds, Got, Layout, OutputPlace, Pools, Sizes};
use lk_tables::{Binding, Class, Heads, NO_RANK, Tables};
use std::alloc::{AllocError, Global};
use std::test::Fail;
use std::thread::Threads;
use symbol_addresses::find_addresses;
use work_split::OpenGate;

/// An output section, by its name, its class, its start and its end.
struct Row(&'static [u8], Class, u32, u32);

/// Data and lists of functions to call stand in a class that is read and in one that is written.
const ROWS: [Row; 7] = [
    Row(b".init_array", Class::R, 0x10100, 0x10110),
    Row(b".fini_array", Class::R, 0x10110, 0x10118),
    Row(b"COMMON", Class::R, 0x10200, 0x10210),
    Row(b".init_array", Class::RwBits, 0x20000, 0x20018),
    Row(b"COMMON", Class::RwBits, 0x20020, 0x20028),
    Row(b".sdata", Class::RwBits, 0x20100, 0x20140),
    Row(b".sdata", Class::RwNobits, 0x20140, 0x20180),
];

const BOUNDS: Bounds = record!(Bounds;
    has_rx: true, has_rw: true, has_tls: false, has_tls_bits: false, has_frames: false, headers: 4, headers_end: 0x10120, frame_header: 0x10000,
    frame_header_end: 0x10000, frames: 0x10000, frames_end: 0x10000, r_end: 0x10210, rx_start: 0x11000, rx_end: 0x11040, rw_start: 0x20000,
    tls_start: 0, tls_bits_end: 0x20000, tls_end: 0x20000, tls_align: 1, bits_end: 0x20140, nobits_end: 0x20180, file_end: 0x20140,
    image_end: 0x20180);

/// Adds an output section.
fn push_row(places: &mut Vec<OutputPlace<'static>>, row: &Row) -> Result<(), AllocError>
    requires old { All (λ (p : Place). p.start + 2 ^ 31 < 2 ^ 64) (map place_view places.old.items) }
    ensures new { OnOk result (All (λ (p : Place). p.start + 2 ^ 31 < 2 ^ 64) (map place_view places.new.items)) }
{
    let start = row.2 as u64;
    places.push(record!(OutputPlace; name: row.0, class: row.1, start: start, end: row.3 as u64))?;
    Ok(())
}

/// The output sections.
fn places_of(alloc: Global) -> Result<Vec<OutputPlace<'static>>, AllocError>
    ensures { IfOk result (λ places. All (λ (p : Place). p.start + 2 ^ 31 < 2 ^ 64) (map place_view places.items)) }
{
    let mut places = Vec::new(alloc);
    for row in ROWS.iter() {
        push_row(&mut places, row)?;
    }
    Ok(places)
}

/// A layout of them.
#[tactic(auto, unfolding(link_sections::specs::LaidOut::layout_view))]
fn made_layout(alloc: Global) -> Result<Layout<'static>, AllocError>
    ensures { IfOk result (λ layout. (b : Bindings) → IsSound [] b [] (with_contents (layout_view layout) no_pools [])) }
{
    Ok(
        record!(Layout; outputs: Vec::new(alloc), members: Vec::new(alloc), nobits_members: Vec::new(alloc), places: places_of(alloc)?,
        starts: Vec::new(alloc), pools: Vec::new(alloc), got: 0x20080, sizes: Sizes::of(Rows::empty(alloc)?), bounds: BOUNDS),
    )
}

/// The tables of a link without files.
fn no_files(alloc: Global) -> Result<Tables<'static>, AllocError>
    ensures { IfOk result (λ tables. files_of tables ≡ []) }
{
    Tables::of(alloc, Heads::empty(alloc), Vec::new(alloc))
}

/// The binding of a link without files.
fn no_names(alloc: Global) -> Binding
    ensures { IsBindingOf [] (binding_view result) }
{
    Binding::of(Vec::new(alloc), Vec::new(alloc), NO_RANK, Vec::new(alloc))
}

/// How many addresses so many workers find where there are no files.
fn count_found<R: Threads + Sync>(rt: &R, alloc: Global, workers: u32) -> Result<usize, AllocError>
    requires some { 1 ≤ workers }
    requires most { workers ≤ 64 }
{
    let tables = no_files(alloc)?;
    let binding = no_names(alloc);
    let pools = Pools::none(alloc);
    let got = Got::empty(alloc);
    let layout = made_layout(alloc)?;
    let found =
        pass!(find_addresses; rt, alloc, &tables, &binding, &pools, &[], &got, &layout, workers, &OpenGate)?;
    Ok(found.symbols.len())
}

#[test]
fn no_symbols_no_addresses(rt: HostRuntime) -> Result<(), Fail> {
    assert_eq!(rt; count_found(&rt, rt.alloc(), 1)?, 0);
    assert_eq!(rt; count_found(&rt, rt.alloc(), 64)?, 0);
    Ok(())
}

/// Data and lists of functions to call, in a class that is read and in one that is written; a section of sixteen bytes that is read.
const READ: Section = section!(b"part", 1, 2, 8; b""; zeros: 16);

/// A symbol that no file defines.
const ASKED: Symbol = symbol!(b"_start", 1, 0, 0, 0, 0);

const SECTIONS: &[Section] = table![
    section!(READ => name: b".init_array"); section!(b".fini_array", 1, 2, 8; b""; zeros: 8); READ; section!(b".text", 1, 6, 4; b""; zeros: 0x40);
    section!(b".init_array", 1, 3, 8; b""; zeros: 0x18); section!(b"part", 1, 3, 8; b""; zeros: 8); section!(b".sdata", 1, 3, 8; b""; zeros: 0x40);
    section!(b".sdata", 8, 3, 8; b""; size: 0x40);
];

/// The symbols that the linker defines, each with its address, in order of their numbers.
const NAMES: &[(&[u8], u64)] = table![
    (b"__ehdr_start", 0x10000); (b"__rela_iplt_start", 0x10000); (b"__rela_iplt_end", 0x10000); (b"_etext", 0x11040); (b"etext", 0x11040);
    (b"_edata", 0x12060); (b"edata", 0x12060); (b"__bss_start", 0x12060); (b"_end", 0x120a0); (b"end", 0x120a0); (b"_GLOBAL_OFFSET_TABLE_", 0x12018);
    (b"__global_pointer$", 0x12820); (b"__preinit_array_start", 0x10000); (b"__preinit_array_end", 0x10000); (b"__init_array_start", 0x12000);
    (b"__init_array_end", 0x12018); (b"__fini_array_start", 0x10130); (b"__fini_array_end", 0x10138); (b"__start_part", 0x10138);
    (b"__stop_part", 0x12020);
];

/// What asks for all of them, after the start.
fn asking(alloc: Global) -> Result<Vec<Symbol<'static>>, AllocError> {
    let mut symbols = Vec::new(alloc);
    symbols.push(START)?;
    for row in NAMES {
        let (name, _) = *row;
        symbols.push(Symbol { name, ..ASKED })?;
    }
    Ok(symbols)
}

// The global pointer is 0x800 past the small data with bytes; there is no .preinit_array, .fini_array is read-only, and so is one .init_array of two.
#[test]
fn each_linker_symbol_has_its_address(rt: HostRuntime) -> Result<(), Fail> {
    let symbols = asking(rt.alloc())?;
    let object = record!(Object; flags: 1, sections: SECTIONS, symbols: symbols.as_slice());
    let inputs = inputs_of(rt.alloc(), &[object])?;
    let made = run_passes(&rt, rt.alloc(), &inputs, &PLAIN)?;
    // The null symbol and the start have the first two.
    let found = &made.written.addresses.symbols;
    assert_eq!(rt; found.len(), 22);
    for (row, address) in NAMES.iter().zip(found.iter().skip(2)) {
        assert_eq!(rt; *address, row.1);
    }
    Ok(())
}
