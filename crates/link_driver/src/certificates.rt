//! Why a section is kept, and why two are not folded.

ghost use Rattle.std.specs.Prelude.{◌≡◌, ◌<◌, ◌≤◌, ◌^◌, ◌==◌, ◌||◌, ◌∷◌, [], All, Some, length, slice_get, slice_index, string_bytes, IfOk, IfSome};
ghost use Rattle.std.specs.Option.{option_map};
ghost use Rattle.std.specs.List.Sorted.{IsStrictlyIncreasing};
ghost use Rattle.link_command.specs.Command.{command_view, lists_of};
ghost use Rattle.link_driver.specs.Certificates as spec;
ghost use Rattle.link_passes.specs.Contents.{names_of};
ghost use Rattle.link_passes.specs.Tables.{IsGraph, MayStay};
ghost use Rattle.link_sections.specs.Edges.{ends_of};
ghost use Rattle.link_sections.specs.FoldItems.{item_views, sections_of};
ghost use Rattle.link_sections.specs.Merging.{piece_count};
ghost use Rattle.lk_tables.specs.BindingView.{binding_view};
ghost use Rattle.lk_tables.specs.BoundNames.{IsBindingOf};
ghost use Rattle.lk_tables.specs.Files.{section_total};
ghost use Rattle.lk_tables.specs.TablesView.{files_of};
ghost use Rattle.sec_graph.specs.FrameRelocs.{AreFramesOf};
ghost use Rattle.sec_graph.specs.Graph.{edges};
ghost use Rattle.sec_graph.specs.WalkEdges.{walk_edges};
ghost use Rattle.why_chain.specs.Aparts.{apart_chain, chain_view};
ghost use Rattle.why_chain.specs.Walks.{live_chain, sections_in};

use crate::certificate_lines::{chain_text, name_at, name_line, walk_text};
use asked_names::sections_of_names;
use link_command::Command;
use link_passes::{SectionGraph, find_graph, fold_items};
use link_sections::FoldItem;
use lk_base::SecNo;
use lk_tables::{Binding, Frames, Tables};
use sec_graph::{items, walk_edges};
use std::alloc::{AllocError, Global};
use std::marker::Brand;
use std::sync::ledger::Blank;
use std::thread::Threads;
use str_merge::merge;
use why_chain::{ApartChain, LiveChain, Pair, place_of, why_apart, why_apart_within, why_live};
use work_split::Gate;

/// One name as a list.
fn one_name(alloc: Global, name: &[u8]) -> Result<Vec<Vec<u8>>, AllocError>
    ensures { IfOk result (λ names. lists_of names.items ≡ name.now ∷ []) }
{
    let mut names = Vec::new(alloc);
    names.push(Vec::from_slice(alloc, name)?)?;
    Ok(names)
}

/// The first of some sections, if there is one.
fn first_of(sections: &[SecNo]) -> Option<SecNo>
    ensures { result ≡ slice_get sections.now 0 }
{
    if sections.len() == 0 {
        return None;
    }
    Some(sections[0])
}

/// The section in which a name stands, if it stands in one.
fn section_of(
    alloc: Global,
    tables: &Tables,
    binding: &Binding,
    name: &[u8],
) -> Result<Option<SecNo>, AllocError>
    requires { IsBindingOf (files_of tables.now) (binding_view binding.now) }
    ensures section { IfOk result (λ section. section ≡ spec.section_of (files_of tables.now) (binding_view binding.now) name.now) }
    ensures within { IfOk result (λ section. IfSome section (λ s. s < section_total (files_of tables.now))) }
{
    let names = one_name(alloc, name)?;
    let sections = sections_of_names(alloc, tables, binding, names.as_slice())?;
    Ok(first_of(sections.as_slice()))
}

/// A walk from a root of a graph to a section, if one leads there: of those with the fewest edges the first.
fn walk_in(
    alloc: Global,
    tables: &Tables,
    binding: &Binding,
    graph: &SectionGraph,
    target: SecNo,
) -> Result<Option<LiveChain>, AllocError>
    requires bound { IsBindingOf (files_of tables.now) (binding_view binding.now) }
    requires roots { All (λ r. r < section_total (files_of tables.now)) graph.now.roots.items }
    requires ends { ends_of graph.now.edges ≡ edges (files_of tables.now) (binding_view binding.now) }
    requires target { target < section_total (files_of tables.now) }
    ensures walk { IfOk result (λ chain. option_map sections_in chain ≡ live_chain graph.now.roots.items (walk_edges (files_of tables.now) (binding_view binding.now)) target) }
    ensures within { IfOk result (λ chain. IfSome chain (λ c. All (λ s. s < section_total (files_of tables.now)) (sections_in c))) }
{
    let walks = walk_edges(alloc, tables, binding, &graph.edges)?;
    why_live(alloc, graph.roots.as_slice(), &walks, target)
}

/// A walk from a root to a section, if one leads there: of those with the fewest edges the first.
fn find_walk<R: Threads + Sync, G: Gate>(
    rt: &R,
    alloc: Global,
    tables: &Tables,
    binding: &Binding,
    frames: &Frames,
    undefined: &[Vec<u8>],
    target: SecNo,
    workers: u32,
    gate: &G,
) -> Result<Option<LiveChain>, AllocError>
    requires some { 1 ≤ workers }
    requires most { workers ≤ 64 }
    requires bound { IsBindingOf (files_of tables.now) (binding_view binding.now) }
    requires frames { AreFramesOf (files_of tables.now) (binding_view binding.now) frames.now }
    requires target { target < section_total (files_of tables.now) }
    ensures walk { IfOk result (λ chain. option_map sections_in chain ≡ spec.walk_to (files_of tables.now) (binding_view binding.now) (lists_of undefined.now) target) }
    ensures within { IfOk result (λ chain. IfSome chain (λ c. All (λ s. s < section_total (files_of tables.now)) (sections_in c))) }
{
    let graph = find_graph(rt, alloc, tables, binding, frames, undefined, workers, gate)?;
    walk_in(alloc, tables, binding, &graph, target)
}

/// A walk from a root to a section, if one leads there, where the graph may be known.
fn find_walk_by<R: Threads + Sync, G: Gate>(
    rt: &R,
    alloc: Global,
    tables: &Tables,
    binding: &Binding,
    frames: &Frames,
    known: &Option<SectionGraph>,
    undefined: &[Vec<u8>],
    target: SecNo,
    workers: u32,
    gate: &G,
) -> Result<Option<LiveChain>, AllocError>
    requires some { 1 ≤ workers }
    requires most { workers ≤ 64 }
    requires bound { IsBindingOf (files_of tables.now) (binding_view binding.now) }
    requires frames { AreFramesOf (files_of tables.now) (binding_view binding.now) frames.now }
    requires graph { IfSome known.now (IsGraph (files_of tables.now) (binding_view binding.now) (lists_of undefined.now)) }
    requires target { target < section_total (files_of tables.now) }
    ensures walk { IfOk result (λ chain. option_map sections_in chain ≡ spec.walk_to (files_of tables.now) (binding_view binding.now) (lists_of undefined.now) target) }
    ensures within { IfOk result (λ chain. IfSome chain (λ c. All (λ s. s < section_total (files_of tables.now)) (sections_in c))) }
{
    let Some(graph) = known else {
        return find_walk(
            rt, alloc, tables, binding, frames, undefined, target, workers, gate,
        );
    };
    walk_in(alloc, tables, binding, graph, target)
}

/// Why the section of a name is kept.
fn live_lines<R: Threads + Sync, G: Gate>(
    rt: &R,
    alloc: Global,
    tables: &Tables,
    binding: &Binding,
    frames: &Frames,
    graph: &Option<SectionGraph>,
    names: &[Vec<u8>],
    undefined: &[Vec<u8>],
    name: &[u8],
    workers: u32,
    gate: &G,
) -> Result<Vec<u8>, AllocError>
    requires some { 1 ≤ workers }
    requires most { workers ≤ 64 }
    requires bound { IsBindingOf (files_of tables.now) (binding_view binding.now) }
    requires frames { AreFramesOf (files_of tables.now) (binding_view binding.now) frames.now }
    requires graph { IfSome graph.now (IsGraph (files_of tables.now) (binding_view binding.now) (lists_of undefined.now)) }
    ensures { IfOk result (λ text. text.items ≡ spec.live_text (names_of names.now) (files_of tables.now) (binding_view binding.now) (lists_of undefined.now) (Some name.now)) }
{
    let section = section_of(alloc, tables, binding, name)?;
    let Some(target) = section else {
        return name_line(alloc, b"unknown ", name);
    };
    let walk = find_walk_by(
        rt, alloc, tables, binding, frames, graph, undefined, target, workers, gate,
    )?;
    walk_text(alloc, tables, binding, names, name, &walk)
}

/// Why the section of a name that is asked for is kept, if one is asked for.
fn live_text<R: Threads + Sync, G: Gate>(
    rt: &R,
    alloc: Global,
    tables: &Tables,
    binding: &Binding,
    frames: &Frames,
    graph: &Option<SectionGraph>,
    names: &[Vec<u8>],
    undefined: &[Vec<u8>],
    asked: &Option<String>,
    workers: u32,
    gate: &G,
) -> Result<Vec<u8>, AllocError>
    requires some { 1 ≤ workers }
    requires most { workers ≤ 64 }
    requires bound { IsBindingOf (files_of tables.now) (binding_view binding.now) }
    requires frames { AreFramesOf (files_of tables.now) (binding_view binding.now) frames.now }
    requires graph { IfSome graph.now (IsGraph (files_of tables.now) (binding_view binding.now) (lists_of undefined.now)) }
    ensures { IfOk result (λ text. text.items ≡ spec.live_text (names_of names.now) (files_of tables.now) (binding_view binding.now) (lists_of undefined.now) (option_map (λ name. string_bytes name) asked.now)) }
{
    let Some(name) = asked else {
        return Ok(Vec::new(alloc));
    };
    live_lines(
        rt,
        alloc,
        tables,
        binding,
        frames,
        graph,
        names,
        undefined,
        name.as_str().as_bytes(),
        workers,
        gate,
    )
}

/// Whether two items have one leader.
fn have_one_leader(leaders: &[u32], pair: Pair) -> bool
    requires one { pair.one < length leaders.now }
    requires two { pair.two < length leaders.now }
    ensures { result ≡ (slice_index leaders.now pair.one == slice_index leaders.now pair.two) }
{
    leaders[pair.one] == leaders[pair.two]
}

/// Why two items are not folded, by their places, once it is known which items are.
fn chain_once_folded<R: Threads + Sync, G: Gate>(
    rt: &R,
    alloc: Global,
    items: &[FoldItem],
    pair: Pair,
    workers: u32,
    gate: &G,
) -> Result<Option<ApartChain>, AllocError>
    requires some { 1 ≤ workers }
    requires most { workers ≤ 64 }
    requires order { IsStrictlyIncreasing (sections_of (item_views items.now)) }
    requires one { pair.one < length items.now }
    requires two { pair.two < length items.now }
    requires few { length items.now < 2 ^ 31 }
    ensures { IfOk result (λ chain. option_map chain_view chain ≡ apart_chain (item_views items.now) pair.one pair.two) }
{
    let leaders = fold_items::<R, G, Brand>(rt, alloc, items, workers, gate, Blank::new(1))?;
    if have_one_leader(leaders.as_slice(), pair) {
        return Ok(None);
    }
    why_apart(alloc, items, pair.one, pair.two)
}

/// Why two items are not folded, by their places. A search that ends soon tells it; where it would compare more pairs than there are items, which it may
/// do of items that are folded, it is found first which are.
fn find_chain<R: Threads + Sync, G: Gate>(
    rt: &R,
    alloc: Global,
    items: &[FoldItem],
    pair: Pair,
    workers: u32,
    gate: &G,
) -> Result<Option<ApartChain>, AllocError>
    requires some { 1 ≤ workers }
    requires most { workers ≤ 64 }
    requires order { IsStrictlyIncreasing (sections_of (item_views items.now)) }
    requires one { pair.one < length items.now }
    requires two { pair.two < length items.now }
    requires few { length items.now < 2 ^ 31 }
    ensures { IfOk result (λ chain. option_map chain_view chain ≡ apart_chain (item_views items.now) pair.one pair.two) }
{
    let found = why_apart_within(alloc, items, pair.one, pair.two, items.len())?;
    let Some(chain) = found else {
        return chain_once_folded(rt, alloc, items, pair, workers, gate);
    };
    Ok(chain)
}

/// Why two items are not folded, by their places, where two names stand in them.
fn chain_lines<R: Threads + Sync, G: Gate>(
    rt: &R,
    alloc: Global,
    tables: &Tables,
    names: &[Vec<u8>],
    items: &[FoldItem],
    pair: Pair,
    one: &[u8],
    two: &[u8],
    workers: u32,
    gate: &G,
) -> Result<Vec<u8>, AllocError>
    requires some { 1 ≤ workers }
    requires most { workers ≤ 64 }
    requires order { IsStrictlyIncreasing (sections_of (item_views items.now)) }
    requires within { All (λ s. s < section_total (files_of tables.now)) (sections_of (item_views items.now)) }
    requires one { pair.one < length items.now }
    requires two { pair.two < length items.now }
    requires few { length items.now < 2 ^ 31 }
    ensures { IfOk result (λ text. text.items ≡ spec.lines_of_pair (names_of names.now) (files_of tables.now) (item_views items.now) one.now two.now pair) }
{
    let chain = find_chain(rt, alloc, items, pair, workers, gate)?;
    chain_text(alloc, tables, names, items, pair, one, two, &chain)
}

/// Why two sections are not folded, in which two names stand.
fn apart_lines<R: Threads + Sync, G: Gate>(
    rt: &R,
    alloc: Global,
    tables: &Tables,
    names: &[Vec<u8>],
    items: &[FoldItem],
    one: &[u8],
    two: &[u8],
    s: SecNo,
    t: SecNo,
    workers: u32,
    gate: &G,
) -> Result<Vec<u8>, AllocError>
    requires some { 1 ≤ workers }
    requires most { workers ≤ 64 }
    requires order { IsStrictlyIncreasing (sections_of (item_views items.now)) }
    requires within { All (λ s. s < section_total (files_of tables.now)) (sections_of (item_views items.now)) }
    requires few { length items.now < 2 ^ 31 }
    ensures { IfOk result (λ text. text.items ≡ spec.lines_of_both (names_of names.now) (files_of tables.now) (item_views items.now) one.now two.now s t) }
{
    let Some(a) = place_of(items, s) else {
        return name_line(alloc, b"unfoldable ", one);
    };
    let Some(b) = place_of(items, t) else {
        return name_line(alloc, b"unfoldable ", two);
    };
    chain_lines(
        rt,
        alloc,
        tables,
        names,
        items,
        Pair { one: a, two: b },
        one,
        two,
        workers,
        gate,
    )
}

/// Why the sections of two names are not folded, if these sections are kept, and these are to be folded with no other.
fn both_text<R: Threads + Sync, G: Gate>(
    rt: &R,
    alloc: Global,
    tables: &Tables,
    binding: &Binding,
    frames: &Frames,
    kept: &[bool],
    barred: &[bool],
    names: &[Vec<u8>],
    one: &[u8],
    two: &[u8],
    workers: u32,
    gate: &G,
) -> Result<Vec<u8>, AllocError>
    requires some { 1 ≤ workers }
    requires most { workers ≤ 64 }
    requires bound { IsBindingOf (files_of tables.now) (binding_view binding.now) }
    requires frames { AreFramesOf (files_of tables.now) (binding_view binding.now) frames.now }
    requires stay { MayStay (files_of tables.now) (binding_view binding.now) kept.now }
    requires pieces { piece_count (files_of tables.now) < 2 ^ 31 }
    ensures { IfOk result (λ text. text.items ≡ spec.text_of_both (names_of names.now) (files_of tables.now) (binding_view binding.now) kept.now barred.now one.now two.now) }
{
    let first = section_of(alloc, tables, binding, one)?;
    let second = section_of(alloc, tables, binding, two)?;
    let Some(s) = first else {
        return name_line(alloc, b"unknown ", one);
    };
    let Some(t) = second else {
        return name_line(alloc, b"unknown ", two);
    };
    let pools = merge(rt, alloc, tables, kept, workers, gate)?;
    let items = items(alloc, tables, binding, &pools, kept, barred, frames)?;
    apart_lines(
        rt,
        alloc,
        tables,
        names,
        items.as_slice(),
        one,
        two,
        s,
        t,
        workers,
        gate,
    )
}

/// Why the sections of two names that are asked for are not folded; nothing where not two names are asked for.
fn apart_text<R: Threads + Sync, G: Gate>(
    rt: &R,
    alloc: Global,
    tables: &Tables,
    binding: &Binding,
    frames: &Frames,
    kept: &[bool],
    barred: &[bool],
    names: &[Vec<u8>],
    asked: &[Vec<u8>],
    workers: u32,
    gate: &G,
) -> Result<Vec<u8>, AllocError>
    requires some { 1 ≤ workers }
    requires most { workers ≤ 64 }
    requires bound { IsBindingOf (files_of tables.now) (binding_view binding.now) }
    requires frames { AreFramesOf (files_of tables.now) (binding_view binding.now) frames.now }
    requires stay { MayStay (files_of tables.now) (binding_view binding.now) kept.now }
    requires pieces { piece_count (files_of tables.now) < 2 ^ 31 }
    ensures { IfOk result (λ text. text.items ≡ spec.apart_text (names_of names.now) (files_of tables.now) (binding_view binding.now) kept.now barred.now (lists_of asked.now)) }
{
    if asked.len() != 2 {
        return Ok(Vec::new(alloc));
    }
    both_text(
        rt,
        alloc,
        tables,
        binding,
        frames,
        kept,
        barred,
        names,
        name_at(asked, 0),
        name_at(asked, 1),
        workers,
        gate,
    )
}

/// Whether the names of files are wanted: for a map, or for what a command asks why.
pub fn wants_names(map: bool, command: &Command) -> bool
    ensures { result ≡ (map || spec.asks_why (command_view command.now)) }
{
    map || asks_why(command)
}

/// Whether a command asks why a section is kept, or why two are not folded.
pub fn asks_why(command: &Command) -> bool
    ensures { result ≡ spec.asks_why (command_view command.now) }
{
    command.why_live.is_some() || command.why_apart.len() != 0
}

/// What is said to what a command asks for, if these sections are kept, and these are to be folded with no other, by section number: why a section
/// is kept, and why two are not folded. Files are shown by `names`. The only error is out of memory.
#[tactic(auto, unfolding(crate::specs::Certificates::why_text))]
pub fn why_text<R: Threads + Sync, G: Gate>(
    rt: &R,
    alloc: Global,
    tables: &Tables,
    binding: &Binding,
    frames: &Frames,
    graph: &Option<SectionGraph>,
    kept: &[bool],
    barred: &[bool],
    names: &[Vec<u8>],
    command: &Command,
    workers: u32,
    gate: &G,
) -> Result<Vec<u8>, AllocError>
    requires some { 1 ≤ workers }
    requires most { workers ≤ 64 }
    requires bound { IsBindingOf (files_of tables.now) (binding_view binding.now) }
    requires frames { AreFramesOf (files_of tables.now) (binding_view binding.now) frames.now }
    requires stay { MayStay (files_of tables.now) (binding_view binding.now) kept.now }
    requires pieces { piece_count (files_of tables.now) < 2 ^ 31 }
    requires graph { IfSome graph.now (IsGraph (files_of tables.now) (binding_view binding.now) (command_view command.now).undefined) }
    ensures { IfOk result (λ text. text.items ≡ spec.why_text (command_view command.now) (names_of names.now) (files_of tables.now) (binding_view binding.now) kept.now barred.now) }
{
    if !asks_why(command) {
        return Ok(Vec::new(alloc));
    }
    let mut text = live_text(
        rt,
        alloc,
        tables,
        binding,
        frames,
        graph,
        names,
        command.undefined.as_slice(),
        &command.why_live,
        workers,
        gate,
    )?;
    let apart = apart_text(
        rt,
        alloc,
        tables,
        binding,
        frames,
        kept,
        barred,
        names,
        command.why_apart.as_slice(),
        workers,
        gate,
    )?;
    text.extend_from_slice(apart.as_slice())?;
    Ok(text)
}
