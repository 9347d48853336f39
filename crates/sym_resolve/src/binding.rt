//! What each name of a link is bound to.

ghost use Rattle.std.specs.Prelude.{◌≡◌, ◌∷◌, ◌≤◌, ℕ, List, [], length, IfOk};
ghost use Rattle.claim_core.specs.Events.{none_of, after};
ghost use Rattle.lk_base.specs.Firsts.{Goes};
ghost use Rattle.lk_tables.specs.Binding.{bound_rank, duplicate_defects, first_phase, offered_bindings};
ghost use Rattle.lk_tables.specs.BoundNames.{bindings, binding_defects, entry_defects};
ghost use Rattle.lk_tables.specs.BindingView.{binding_view};
ghost use Rattle.lk_tables.specs.Files.{symbol_total};
ghost use Rattle.lk_tables.specs.NameNumbers.{NumbersNames, heads_alone};
ghost use Rattle.lk_tables.specs.TablesView.{files_of};
ghost use Rattle.sym_resolve.specs.Law.{IsLawful};
ghost use Rattle.sym_resolve.specs.Claims.{claims};
ghost use Rattle.work_split.specs.Pieces.{Tiles};

use crate::commons::commons_of;
use crate::counts::pieces_of;
use crate::duplicates::duplicate;
use crate::entry::rank_of_name;
use crate::flags::float_clash;
use crate::linker::bind_linker;
use crate::offers::offers_of;
use crate::ranks::ranks_of;
use claim_rows::least_offers;
use lk_base::kinds::NO_ENTRY;
use lk_base::{Defect, LinkStop};
use lk_tables::{Binding, NO_RANK, NameNumbers, Tables};
use name_numbers::number_names;
use std::alloc::{AllocError, Global};
use std::ops::Range;
use std::thread::Threads;
use work_split::Gate;

/// Binds the names of a link: `discarded` has the sections that were discarded with their groups, by their numbers in the link. A name
/// is bound to the strongest offer of a file; one that no file offers, also if each of its symbols is WEAK, to the linker's own symbol of
/// that name, if there is one. If the files' names are not numbered yet, they are numbered here. It answers the same whatever the number
/// of workers.
///
/// The defects, in this order: files of different float ABIs, a name with two strong definitions, an entry whose name is bound to nothing.
/// Else the only error is out of memory.
pub fn bind<R: Threads + Sync, G: Gate>(
    rt: &R,
    alloc: Global,
    tables: &Tables,
    discarded: &[bool],
    entry: &[u8],
    workers: u32,
    gate: &G,
) -> Result<Binding, LinkStop>
    requires some { 1 ≤ workers }
    requires most { workers ≤ 64 }
    ensures bound { IfOk result (λ b. binding_view b ≡ bindings (files_of tables.now) discarded.now entry.now) }
    ensures least { IfOk result (λ b. IsLawful (files_of tables.now) discarded.now entry.now (binding_view b)) }
    ensures goes { Goes result (binding_defects (files_of tables.now) discarded.now entry.now) }
{
    tables.prove_few();
    if let Some(clash) = float_clash(tables) {
        return Err(LinkStop::Defect(clash));
    }
    if let Some(names) = tables.names() {
        return bind_names(rt, alloc, tables, names, discarded, entry, workers, gate);
    }
    let names = number_names(rt, alloc, tables.files(), workers, gate)?;
    bind_names(rt, alloc, tables, &names, discarded, entry, workers, gate)
}

// Binds the names of a link by their numbers.
fn bind_names<R: Threads + Sync, G: Gate>(
    rt: &R,
    alloc: Global,
    tables: &Tables,
    names: &NameNumbers,
    discarded: &[bool],
    entry: &[u8],
    workers: u32,
    gate: &G,
) -> Result<Binding, LinkStop>
    requires numbered { NumbersNames (heads_alone (files_of tables.now)) names.now }
    requires some { 1 ≤ workers }
    requires most { workers ≤ 64 }
    ensures bound { IfOk result (λ b. binding_view b ≡ bindings (files_of tables.now) discarded.now entry.now) }
    ensures goes { Goes result (first_phase (duplicate_defects (files_of tables.now) discarded.now ∷ entry_defects (files_of tables.now) discarded.now entry.now ∷ [])) }
{
    tables.prove_few();
    let pieces = pieces_of(alloc, tables, workers)?;
    let offers = offers_of(rt, alloc, tables, names, discarded, pieces.as_slice(), gate)?;
    let words = tables.symbol_count() as u32;
    let least = least_offers(rt, alloc, gate, workers, words, offers.as_slice())?;
    if let Some(duplicate) = duplicate(least.as_slice(), offers.as_slice()) {
        return Err(LinkStop::Defect(duplicate));
    }
    let rank = rank_of_name(tables, offers.as_slice(), entry);
    let mut binding = offered_binding(
        rt,
        alloc,
        tables,
        names,
        discarded,
        least.as_slice(),
        rank,
        pieces.as_slice(),
        gate,
    )?;
    bind_linker(
        rt,
        alloc,
        tables,
        &mut binding,
        entry,
        pieces.as_slice(),
        gate,
    )?;
    if binding.entry_rank() == NO_RANK {
        return Err(LinkStop::Defect(Defect::linkwide(NO_ENTRY, 0, 0)));
    }
    Ok(binding)
}

// The binding that the least ranks give: the offers of files alone.
fn offered_binding<R: Threads + Sync, G: Gate>(
    rt: &R,
    alloc: Global,
    tables: &Tables,
    names: &NameNumbers,
    discarded: &[bool],
    least: &[u64],
    entry: u64,
    pieces: &[Range<usize>],
    gate: &G,
) -> Result<Binding, AllocError>
    requires numbered { NumbersNames (heads_alone (files_of tables.now)) names.now }
    requires least { least.now ≡ after (none_of (symbol_total (files_of tables.now))) (claims (files_of tables.now) discarded.now) }
    requires tiles { Tiles 0 (length (files_of tables.now)) pieces.now }
    requires most { length pieces.now ≤ 64 }
    ensures { IfOk result (λ b. (name : List ℕ) → entry ≡ bound_rank (files_of tables.now) discarded.now name → binding_view b ≡ offered_bindings (files_of tables.now) discarded.now name) }
{
    let ranks = ranks_of(rt, alloc, tables, names, least, pieces, gate)?;
    let commons = commons_of(alloc, tables, names, least)?;
    let discarded = Vec::from_slice(alloc, discarded)?;
    Ok(Binding::of(discarded, ranks, entry, commons))
}
