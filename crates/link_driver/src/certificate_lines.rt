//! The lines that say why a section is kept, and why two are not folded.

ghost use Rattle.std.specs.Prelude.{◌≡◌, ◌<◌, ◌++◌, [], All, codes, decimal, length, slice_index_or, IfOk, IfSome, OnOk};
ghost use Rattle.std.specs.Option.{option_map};
ghost use Rattle.std.specs.List.Sorted.{IsStrictlyIncreasing};
ghost use Rattle.icf_part.specs.Folding.{item_at};
ghost use Rattle.link_driver.specs.Certificates as spec;
ghost use Rattle.link_passes.specs.Contents.{names_of};
ghost use Rattle.link_sections.specs.FoldItems.{item_views, sections_of};
ghost use Rattle.lk_tables.specs.BindingView.{binding_view};
ghost use Rattle.lk_tables.specs.Files.{section_total};
ghost use Rattle.lk_tables.specs.TablesView.{files_of};
ghost use Rattle.why_chain.specs.Aparts.{chain_view};
ghost use Rattle.why_chain.specs.Walks.{sections_in};

use crate::reports::push_count;
use link_sections::{FoldItem, input_section};
use lk_base::{SecNo, push_escaped};
use lk_tables::{Binding, Tables};
use std::alloc::{AllocError, Global};
use why_chain::{ApartChain, ApartEnd, LiveChain, Pair, next_pair};

/// A word and a name as a line.
pub fn name_line(alloc: Global, word: &[u8], name: &[u8]) -> Result<Vec<u8>, AllocError>
    ensures { IfOk result (λ text. text.items ≡ spec.name_line word.now name.now) }
{
    let mut text = Vec::from_slice(alloc, word)?;
    push_escaped(&mut text, name)?;
    text.push(b'\n')?;
    Ok(text)
}

/// A word and two names as a line.
fn names_line(alloc: Global, word: &[u8], one: &[u8], two: &[u8]) -> Result<Vec<u8>, AllocError>
    ensures { IfOk result (λ text. text.items ≡ spec.names_line word.now one.now two.now) }
{
    let mut text = Vec::from_slice(alloc, word)?;
    push_escaped(&mut text, one)?;
    text.push(b' ')?;
    push_escaped(&mut text, two)?;
    text.push(b'\n')?;
    Ok(text)
}

/// A name of a list; an empty one past its end.
pub fn name_at(names: &[Vec<u8>], i: usize) -> &[u8]
    ensures { result.now ≡ slice_index_or (names_of names.now) i [] }
{
    match names.get(i) {
        Some(name) => name.as_slice(),
        None => b"",
    }
}

/// Adds where a section stands, after a space: its file, and its index there.
#[tactic(auto, unfolding(crate::specs::Certificates::spot_text))]
fn push_spot(
    text: &mut Vec<u8>,
    alloc: Global,
    tables: &Tables,
    names: &[Vec<u8>],
    section: SecNo,
) -> Result<(), AllocError>
    requires { section < section_total (files_of tables.now) }
    ensures { OnOk result (text.new.items ≡ text.old.items ++ spec.spot_text (names_of names.now) (files_of tables.now) section) }
{
    let place = tables.place_of(section);
    text.push(b' ')?;
    push_escaped(text, name_at(names, place.file as usize))?;
    push_count(alloc, text, b" ", place.index as u128)?;
    Ok(())
}

/// Adds a word and a section as a line.
#[tactic(auto, unfolding(crate::specs::Certificates::section_line))]
fn push_section(
    text: &mut Vec<u8>,
    alloc: Global,
    tables: &Tables,
    binding: &Binding,
    names: &[Vec<u8>],
    word: &[u8],
    section: SecNo,
) -> Result<(), AllocError>
    requires { section < section_total (files_of tables.now) }
    ensures { OnOk result (text.new.items ≡ text.old.items ++ spec.section_line (names_of names.now) (files_of tables.now) (binding_view binding.now) word.now section) }
{
    let input = input_section(tables, binding, section);
    text.extend_from_slice(word)?;
    push_spot(text, alloc, tables, names, section)?;
    text.push(b' ')?;
    push_escaped(text, input.name)?;
    text.push(b'\n')?;
    Ok(())
}

/// Adds the lines of the sections of a walk.
fn push_walk(
    text: &mut Vec<u8>,
    alloc: Global,
    tables: &Tables,
    binding: &Binding,
    names: &[Vec<u8>],
    walk: &[SecNo],
) -> Result<(), AllocError>
    requires { All (λ s. s < section_total (files_of tables.now)) walk.now }
    ensures { OnOk result (text.new.items ≡ text.old.items ++ spec.walk_lines (names_of names.now) (files_of tables.now) (binding_view binding.now) walk.now) }
{
    if walk.len() == 0 {
        return Ok(());
    }
    push_section(text, alloc, tables, binding, names, b"root", walk[0])?;
    for i in 1..walk.len() {
        push_section(text, alloc, tables, binding, names, b"to", walk[i])?;
    }
    Ok(())
}

/// What is said of a name once a walk is found that leads to its section, or there is none.
pub fn walk_text(
    alloc: Global,
    tables: &Tables,
    binding: &Binding,
    names: &[Vec<u8>],
    name: &[u8],
    chain: &Option<LiveChain>,
) -> Result<Vec<u8>, AllocError>
    requires { IfSome chain.now (λ c. All (λ s. s < section_total (files_of tables.now)) (sections_in c)) }
    ensures { IfOk result (λ text. text.items ≡ spec.lines_of_walk (names_of names.now) (files_of tables.now) (binding_view binding.now) name.now (option_map sections_in chain.now)) }
{
    let Some(chain) = chain else {
        return name_line(alloc, b"dead ", name);
    };
    let mut text = name_line(alloc, b"live ", name)?;
    push_walk(
        &mut text,
        alloc,
        tables,
        binding,
        names,
        chain.sections.as_slice(),
    )?;
    Ok(text)
}

/// The section of an item, by its place.
fn section_at(items: &[FoldItem], place: usize) -> SecNo
    requires { place < length items.now }
    ensures { result ≡ (item_at (item_views items.now) place).section }
{
    items[place].section
}

/// Adds the two of a pair of items, after a word, as a line.
#[tactic(auto, unfolding(crate::specs::Certificates::pair_line))]
fn push_pair(
    text: &mut Vec<u8>,
    alloc: Global,
    tables: &Tables,
    names: &[Vec<u8>],
    items: &[FoldItem],
    word: &[u8],
    pair: Pair,
) -> Result<(), AllocError>
    requires within { All (λ s. s < section_total (files_of tables.now)) (sections_of (item_views items.now)) }
    requires one { pair.one < length items.now }
    requires two { pair.two < length items.now }
    ensures { OnOk result (text.new.items ≡ text.old.items ++ spec.pair_line (names_of names.now) (files_of tables.now) (item_views items.now) word.now pair) }
{
    let one = section_at(items, pair.one);
    let two = section_at(items, pair.two);
    text.extend_from_slice(word)?;
    push_spot(text, alloc, tables, names, one)?;
    push_spot(text, alloc, tables, names, two)?;
    text.push(b'\n')?;
    Ok(())
}

/// Adds a pair that was met through a relocation, as a line.
fn push_via(
    text: &mut Vec<u8>,
    alloc: Global,
    tables: &Tables,
    names: &[Vec<u8>],
    items: &[FoldItem],
    via: u64,
    pair: Pair,
) -> Result<(), AllocError>
    requires within { All (λ s. s < section_total (files_of tables.now)) (sections_of (item_views items.now)) }
    requires one { pair.one < length items.now }
    requires two { pair.two < length items.now }
    ensures { OnOk result (text.new.items ≡ text.old.items ++ spec.met_line (names_of names.now) (files_of tables.now) (item_views items.now) via pair) }
{
    push_count(alloc, text, b"via ", via as u128)?;
    push_pair(text, alloc, tables, names, items, b" pair", pair)
}

/// Adds how the two of the last pair differ, as a line.
fn push_end(text: &mut Vec<u8>, alloc: Global, last: ApartEnd) -> Result<(), AllocError>
    ensures { OnOk result (text.new.items ≡ text.old.items ++ spec.end_line last) }
{
    match last {
        ApartEnd::Key => text.extend_from_slice(b"differ key\n"),
        ApartEnd::Target(k) => push_target_end(text, alloc, k),
    }
}

/// Adds that the targets of a relocation differ, as a line.
fn push_target_end(text: &mut Vec<u8>, alloc: Global, k: u64) -> Result<(), AllocError>
    ensures { OnOk result (text.new.items ≡ text.old.items ++ (codes "differ target " ++ decimal k ++ codes "\n")) }
{
    push_count(alloc, text, b"differ target ", k as u128)?;
    text.push(b'\n')?;
    Ok(())
}

/// Adds the pairs that are met from one on, each through one relocation of both of the pair before.
fn push_vias(
    text: &mut Vec<u8>,
    alloc: Global,
    tables: &Tables,
    names: &[Vec<u8>],
    items: &[FoldItem],
    first: Pair,
    vias: &[u64],
) -> Result<(), AllocError>
    requires order { IsStrictlyIncreasing (sections_of (item_views items.now)) }
    requires within { All (λ s. s < section_total (files_of tables.now)) (sections_of (item_views items.now)) }
    requires one { first.one < length items.now }
    requires two { first.two < length items.now }
    ensures { OnOk result (text.new.items ≡ text.old.items ++ spec.via_lines (names_of names.now) (files_of tables.now) (item_views items.now) vias.now first) }
{
    let mut pair = first;
    for i in 0..vias.len() {
        let Some(next) = next_pair(items, pair, vias[i] as usize) else {
            return Ok(());
        };
        push_via(text, alloc, tables, names, items, vias[i], next)?;
        pair = next;
    }
    Ok(())
}

/// What is said of two items, by their places, in which two names stand, once it is known why they are not folded, if they are not.
pub fn chain_text(
    alloc: Global,
    tables: &Tables,
    names: &[Vec<u8>],
    items: &[FoldItem],
    pair: Pair,
    one: &[u8],
    two: &[u8],
    chain: &Option<ApartChain>,
) -> Result<Vec<u8>, AllocError>
    requires order { IsStrictlyIncreasing (sections_of (item_views items.now)) }
    requires within { All (λ s. s < section_total (files_of tables.now)) (sections_of (item_views items.now)) }
    requires one { pair.one < length items.now }
    requires two { pair.two < length items.now }
    ensures { IfOk result (λ text. text.items ≡ spec.lines_of_chain (names_of names.now) (files_of tables.now) (item_views items.now) one.now two.now pair (option_map chain_view chain.now)) }
{
    let Some(chain) = chain else {
        return names_line(alloc, b"same ", one, two);
    };
    let mut text = names_line(alloc, b"apart ", one, two)?;
    push_pair(&mut text, alloc, tables, names, items, b"pair", pair)?;
    push_vias(
        &mut text,
        alloc,
        tables,
        names,
        items,
        pair,
        chain.vias.as_slice(),
    )?;
    push_end(&mut text, alloc, chain.last)?;
    Ok(text)
}
