//! The linker's own symbols, to which names are bound that no file offers.

ghost use Rattle.std.specs.Prelude.{◌≡◌, ◌<◌, ◌≤◌, ◌^◌, ◌||◌, true, length, map, is_some, IfOk, IfSome, OnOk};
ghost use Rattle.std.specs.List.{list_any};
ghost use Rattle.indexmap.specs.IndexMap.{get};
ghost use Rattle.lk_tables.specs.Binding.{offered_bindings};
ghost use Rattle.lk_tables.specs.BindingView.{binding_view};
ghost use Rattle.lk_tables.specs.BoundNames.{or_linker, rank_of_linker, with_linker};
ghost use Rattle.lk_tables.specs.LinkerSymbols as own;
ghost use Rattle.lk_tables.specs.TablesView.{files_of};
ghost use Rattle.sym_resolve.specs.NamedSections.{IsIndex, eq_names};
ghost use Rattle.sym_resolve.specs.Unbound.{after_linked, linked_of, name_of, names_sections};
ghost use Rattle.work_split.specs.Pieces.{Tiles};

use crate::entry::symbol_name;
use crate::named_sections::{Sections, sections_if};
use crate::unbound::{Unbound, unbound_of};
use lk_base::SecNo;
use lk_tables::{
    Binding, NO_RANK, Tables, fixed_no, linker_rank, start_no, start_of, stop_no, stop_of,
};
use std::alloc::{AllocError, Global};
use std::ops::Range;
use std::thread::Threads;
use work_split::Gate;

/// The rank of a symbol's name, by the symbol's number.
#[derive(Clone, Copy)]
pub struct Linked {
    pub number: usize,
    pub rank: u64,
}

/// Binds to the linker's own symbols the names that no file offers: those of symbols, and the entry's.
pub fn bind_linker<R: Threads + Sync, G: Gate>(
    rt: &R,
    alloc: Global,
    tables: &Tables,
    binding: &mut Binding,
    entry: &[u8],
    pieces: &[Range<usize>],
    gate: &G,
) -> Result<(), AllocError>
    requires offered { binding_view binding.now ≡ offered_bindings (files_of tables.now) (binding_view binding.now).discarded entry.now }
    requires tiles { Tiles 0 (length (files_of tables.now)) pieces.now }
    requires most { length pieces.now ≤ 64 }
    ensures { OnOk result (binding_view binding.new ≡ with_linker (files_of tables.now) (binding_view binding.old) entry.now) }
{
    let unbound = unbound_of(rt, alloc, tables, binding, pieces, gate)?;
    let asked = are_sections_named(tables, unbound.as_slice(), entry);
    let sections = sections_if(alloc, tables, binding, asked)?;
    let linked = ranks_of(alloc, tables, binding, &sections, unbound.as_slice())?;
    let rank = entry_rank(tables, binding, &sections, entry);
    binding.set_entry_rank(rank);
    set_ranks(binding, linked.as_slice());
    Ok(())
}

// Whether the entry's name or that of one of these symbols names sections, by their start or by their end.
fn are_sections_named(tables: &Tables, unbound: &[Unbound], entry: &[u8]) -> bool
    ensures { result ≡ (list_any (λ u. names_sections (name_of (files_of tables.now) u)) unbound.now || names_sections entry.now) }
{
    is_any_of_sections(tables, unbound) || names_sections(entry)
}

// Whether the name of one of these symbols does.
fn is_any_of_sections(tables: &Tables, unbound: &[Unbound]) -> bool
    ensures { result ≡ list_any (λ u. names_sections (name_of (files_of tables.now) u)) unbound.now }
{
    unbound.iter().any(|at| names_sections(symbol_name(tables, at.file, at.symbol)))
}

// Whether a name names sections, by their start or by their end.
fn names_sections(name: &[u8]) -> bool
    ensures { result ≡ names_sections name.now }
{
    start_of(name).is_some() || stop_of(name).is_some()
}

// For each of these symbols the rank of the linker's symbol of its name, or of nobody.
fn ranks_of(
    alloc: Global,
    tables: &Tables,
    binding: &Binding,
    sections: &Sections,
    unbound: &[Unbound],
) -> Result<Vec<Linked>, AllocError>
    requires index { list_any (λ u. names_sections (name_of (files_of tables.now) u)) unbound.now ≡ true → IsIndex (files_of tables.now) (binding_view binding.now) (get eq_names sections.now) }
    ensures { IfOk result (λ linked. linked.items ≡ map (linked_of (files_of tables.now) (binding_view binding.now)) unbound.now) }
{
    let mut linked = Vec::with_capacity(alloc, unbound.len())?;
    for i in 0..unbound.len() {
        let at = unbound[i];
        let name = symbol_name(tables, at.file, at.symbol);
        linked.push(Linked {
            number: at.number,
            rank: rank_of(tables, binding, sections, name),
        })?;
    }
    Ok(linked)
}

// The rank that the entry's name is bound to: that of an offer, or that of the linker's symbol of the name.
#[tactic(auto, unfolding(lk_tables::specs::BoundNames::or_linker))]
fn entry_rank(tables: &Tables, binding: &Binding, sections: &Sections, entry: &[u8]) -> u64
    requires index { names_sections entry.now ≡ true → IsIndex (files_of tables.now) (binding_view binding.now) (get eq_names sections.now) }
    ensures { result ≡ or_linker (files_of tables.now) (binding_view binding.now) entry.now (binding_view binding.now).entry }
{
    let offered = binding.entry_rank();
    if offered != NO_RANK {
        return offered;
    }
    rank_of(tables, binding, sections, entry)
}

// The rank of the linker's symbol of a name, or of nobody.
fn rank_of(tables: &Tables, binding: &Binding, sections: &Sections, name: &[u8]) -> u64
    requires index { names_sections name.now ≡ true → IsIndex (files_of tables.now) (binding_view binding.now) (get eq_names sections.now) }
    ensures { result ≡ rank_of_linker (own.linker_no (files_of tables.now) (binding_view binding.now) name.now) }
{
    match linker_no(tables, binding, sections, name) {
        Some(number) => linker_rank(number),
        None => NO_RANK,
    }
}

// The number of the linker's symbol of a name.
#[tactic(auto, unfolding(lk_tables::specs::LinkerSymbols::linker_no))]
fn linker_no(tables: &Tables, binding: &Binding, sections: &Sections, name: &[u8]) -> Option<u32>
    requires index { names_sections name.now ≡ true → IsIndex (files_of tables.now) (binding_view binding.now) (get eq_names sections.now) }
    ensures value { result ≡ own.linker_no (files_of tables.now) (binding_view binding.now) name.now }
    ensures few { IfSome result (λ number. number < 2 ^ 31) }
{
    match fixed_no(name) {
        Some(number) => Some(number),
        None => edge_no(tables, binding, sections, name),
    }
}

// The number of the symbol for the start or the end of the sections that a name names.
#[tactic(auto, unfolding(lk_tables::specs::LinkerSymbols::bound_no))]
fn edge_no(tables: &Tables, binding: &Binding, sections: &Sections, name: &[u8]) -> Option<u32>
    requires index { names_sections name.now ≡ true → IsIndex (files_of tables.now) (binding_view binding.now) (get eq_names sections.now) }
    ensures value { result ≡ own.bound_no (files_of tables.now) (binding_view binding.now) name.now }
    ensures few { IfSome result (λ number. number < 2 ^ 31) }
{
    if let Some(section) = section_of(tables, binding, sections, start_of(name)) {
        return Some(start_no(section));
    }
    if let Some(section) = section_of(tables, binding, sections, stop_of(name)) {
        return Some(stop_no(section));
    }
    None
}

// The first section of a name that may be kept.
fn section_of(
    tables: &Tables,
    binding: &Binding,
    sections: &Sections,
    name: Option<&[u8]>,
) -> Option<SecNo>
    requires index { is_some (own.text_if name) ≡ true → IsIndex (files_of tables.now) (binding_view binding.now) (get eq_names sections.now) }
    requires identifier { IfSome name (λ text. own.is_c_identifier text.now ≡ true) }
    ensures value { result ≡ own.first_if (files_of tables.now) (binding_view binding.now) (own.text_if name.entry) }
    ensures few { IfSome result (λ section. section < 2 ^ 28) }
{
    tables.prove_few();
    let Some(text) = name else {
        return None;
    };
    match sections.get(&text) {
        Some(section) => Some(*section),
        None => None,
    }
}

// Puts these ranks into a binding.
fn set_ranks(binding: &mut Binding, linked: &[Linked])
    ensures { binding_view binding.new ≡ after_linked (binding_view binding.old) linked.now }
{
    for one in linked {
        binding.set_rank(one.number, one.rank);
    }
}
