//! The sections of the names whose start or end symbols are bound to (`__start_X` and `__stop_X`).

ghost use Rattle.std.specs.Prelude.{◌≡◌, ◌-◌, ◌<◌, ◌≤◌, ◌++◌, [], All, Some, is_some, true, length, flat_map, IfOk, OnOk};
ghost use Rattle.std.specs.List.{range_with_len};
ghost use Rattle.std.specs.Option.{option_map_or};
ghost use Rattle.lk_tables.specs.BoundNames.{IsBindingOf};
ghost use Rattle.lk_tables.specs.BindingView.{binding_view};
ghost use Rattle.lk_tables.specs.Files.{file_at, section_total};
ghost use Rattle.lk_tables.specs.TablesView.{files_of};
ghost use Rattle.sec_graph.specs.Graph as graph;
ghost use Rattle.sec_graph.specs.NamedSections as spec;
ghost use Rattle.work_split.specs.Pieces.{Tiles};
ghost use Rattle.work_split.specs.Runs.{IsRun};

use crate::pairs::{Pair, pairs_from};
use indexmap::IndexMap;
use link_sections::{input_in, input_section, may_stay};
use lk_base::{FileNo, LinkStop, SecNo, SymNo};
use lk_tables::{Binding, Bound, Tables, bound_section};
use std::alloc::{AllocError, Global};
use std::ops::Range;
use std::thread::Threads;
use work_split::{Gate, over_shares};

/// The sections of the names whose start or end symbols are bound to.
#[derive(Drop)]
pub struct NamedSections<'a> {
    /// For each of the names a section that has it.
    pub names: IndexMap<&'a [u8], SecNo>,
    /// From this one to each section of its name that may be kept, in order of both.
    pub pairs: Vec<Pair>,
}

/// The sections of the names for whose start or end symbols of the files ask. The workers read the symbols of one piece of the files each.
pub fn named_sections<'a, R: Threads + Sync, G: Gate>(
    rt: &R,
    alloc: Global,
    tables: &Tables<'a>,
    binding: &Binding,
    pieces: &[Range<usize>],
    gate: &G,
) -> Result<NamedSections<'a>, AllocError>
    requires tiles { Tiles 0 (length (files_of tables.now)) pieces.now }
    requires most { length pieces.now ≤ 64 }
    requires bound { IsBindingOf (files_of tables.now) (binding_view binding.now) }
    ensures { IfOk result (spec.HasNamed (files_of tables.now) (binding_view binding.now)) }
{
    tables.prove_few();
    let asked = find_asked(rt, alloc, tables, binding, pieces, gate)?;
    let names = names_of(alloc, tables, binding, asked.as_slice())?;
    let pairs = pairs_named(alloc, tables, binding, &names)?;
    Ok(NamedSections { names, pairs })
}

/// The pairs that lead to all sections of a name, if symbols ask for its start or end.
pub fn sections_named<'n>(named: &'n NamedSections, name: &[u8]) -> &'n [Pair]
    requires { graph.Rises named.now.pairs.items }
    ensures { result.now ≡ option_map_or (λ n. graph.pairs_from n named.now.pairs.items) (spec.noted named.now.names name.now) [] }
{
    match named.names.get(name) {
        Some(first) => pairs_from(named.pairs.as_slice(), *first as usize),
        None => &[],
    }
}

/// For each symbol that is bound to the start or the end of a section's name such a section, file by file.
fn find_asked<R: Threads + Sync, G: Gate>(
    rt: &R,
    alloc: Global,
    tables: &Tables,
    binding: &Binding,
    pieces: &[Range<usize>],
    gate: &G,
) -> Result<Vec<SecNo>, AllocError>
    requires tiles { Tiles 0 (length (files_of tables.now)) pieces.now }
    requires most { length pieces.now ≤ 64 }
    ensures { IfOk result (λ asked. asked.items ≡ spec.asked (files_of tables.now) (binding_view binding.now)) }
{
    let found = over_shares(
        rt,
        alloc,
        gate,
        pieces,
        |piece: Range<usize>| -> Result<Vec<SecNo>, LinkStop>
            requires { piece.end ≤ length (files_of tables.now) }
            ensures { IsRun (spec.asked_in (files_of tables.entry.now) (binding_view binding.entry.now)) piece result }
        { Ok(asked_between(alloc, tables, binding, piece)?) },
    );
    match found {
        Ok(asked) => Ok(asked),
        Err(_) => Err(AllocError),
    }
}

/// For each symbol of a run of files that is bound to the start or the end of a section's name such a section.
fn asked_between(
    alloc: Global,
    tables: &Tables,
    binding: &Binding,
    piece: Range<usize>,
) -> Result<Vec<SecNo>, AllocError>
    requires { piece.end ≤ length (files_of tables.now) }
    ensures { IfOk result (λ asked. asked.items ≡ flat_map (spec.asked_in (files_of tables.now) (binding_view binding.now)) (range_with_len piece.start (piece.end - piece.start))) }
{
    tables.prove_few();
    let mut asked = Vec::new(alloc);
    for file in piece.start..piece.end {
        push_asked(&mut asked, tables, binding, file as FileNo)?;
    }
    Ok(asked)
}

/// Adds those of one file.
#[tactic(auto, unfolding(crate::specs::NamedSections::asked_in))]
fn push_asked(
    asked: &mut Vec<SecNo>,
    tables: &Tables,
    binding: &Binding,
    file: FileNo,
) -> Result<(), AllocError>
    requires { file < length (files_of tables.now) }
    ensures { OnOk result (asked.new.items ≡ asked.old.items ++ spec.asked_in (files_of tables.now) (binding_view binding.now) file) }
{
    if !tables.file(file).is_live() {
        return Ok(());
    }
    tables.prove_few();
    for symbol in 0..tables.file(file).symbols().len() {
        push_one(asked, tables, binding, file, symbol as u32)?;
    }
    Ok(())
}

/// Adds that of one symbol.
#[tactic(auto, unfolding(crate::specs::NamedSections::asked_at))]
fn push_one(
    asked: &mut Vec<SecNo>,
    tables: &Tables,
    binding: &Binding,
    file: FileNo,
    symbol: SymNo,
) -> Result<(), AllocError>
    requires { file < length (files_of tables.now) }
    ensures { OnOk result (asked.new.items ≡ asked.old.items ++ spec.asked_at (files_of tables.now) (binding_view binding.now) file symbol) }
{
    let Bound::Linker(number) = binding.bound(tables, file, symbol) else {
        return Ok(());
    };
    let Some(section) = bound_section(number) else {
        return Ok(());
    };
    asked.push(section)?;
    Ok(())
}

/// The names of sections, for each of which one is noted.
fn names_of<'a>(
    alloc: Global,
    tables: &Tables<'a>,
    binding: &Binding,
    asked: &[SecNo],
) -> Result<IndexMap<&'a [u8], SecNo>, AllocError>
    requires { All (λ n. n < section_total (files_of tables.now)) asked.now }
    ensures noted { IfOk result (spec.AreNoted (files_of tables.now) (binding_view binding.now)) }
    ensures known { IfOk result (λ names. All (spec.IsKnown (files_of tables.now) (binding_view binding.now) names) asked.now) }
{
    let mut names = IndexMap::new(alloc);
    for i in 0..asked.len() {
        let input = input_section(tables, binding, asked[i]);
        names.insert(input.name, asked[i])?;
    }
    Ok(names)
}

/// The pairs to the sections of these names that may be kept, in order.
fn pairs_named<'a>(
    alloc: Global,
    tables: &Tables<'a>,
    binding: &Binding,
    names: &IndexMap<&'a [u8], SecNo>,
) -> Result<Vec<Pair>, AllocError>
    ensures { IfOk result (λ pairs. graph.AreBySection (flat_map (spec.named_at (files_of tables.now) (binding_view binding.now) names.now) (range_with_len 0 (section_total (files_of tables.now)))) pairs.items) }
{
    let mut pairs = all_named(alloc, tables, binding, names)?;
    pairs.sort_by_key(|pair| pair.from)?;
    Ok(pairs)
}

/// The pairs to the sections of these names that may be kept, in the order of the sections to which they lead.
fn all_named<'a>(
    alloc: Global,
    tables: &Tables<'a>,
    binding: &Binding,
    names: &IndexMap<&'a [u8], SecNo>,
) -> Result<Vec<Pair>, AllocError>
    ensures { IfOk result (λ pairs. pairs.items ≡ flat_map (spec.named_at (files_of tables.now) (binding_view binding.now) names.now) (range_with_len 0 (section_total (files_of tables.now)))) }
{
    tables.prove_few();
    let mut pairs = Vec::new(alloc);
    if names.is_empty() {
        return Ok(pairs);
    }
    for section in 0..tables.section_count() {
        push_named(&mut pairs, tables, binding, names, section as u32)?;
    }
    Ok(pairs)
}

/// Adds the pair to one section, if it may be kept and has one of the names.
#[tactic(auto, unfolding(crate::specs::NamedSections::named_at))]
fn push_named<'a>(
    pairs: &mut Vec<Pair>,
    tables: &Tables<'a>,
    binding: &Binding,
    names: &IndexMap<&'a [u8], SecNo>,
    section: SecNo,
) -> Result<(), AllocError>
    requires { section < section_total (files_of tables.now) }
    ensures { OnOk result (pairs.new.items ≡ pairs.old.items ++ spec.named_at (files_of tables.now) (binding_view binding.now) names.now section) }
{
    let place = tables.place_of(section);
    if !may_stay(tables, binding, place.file, place.index) {
        return Ok(());
    }
    let input = input_in(tables, binding, place.file, place.index);
    let Some(first) = names.get(input.name) else {
        return Ok(());
    };
    pairs.push(Pair {
        from: *first,
        to: section,
    })?;
    Ok(())
}
