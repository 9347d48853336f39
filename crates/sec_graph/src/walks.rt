//! Where walks from section to section lead.

ghost use Rattle.std.specs.Prelude.{◌≡◌, ◌↔◌, ℕ, Bool, ◌<◌, ◌++◌, true, length, map, flat_map, IfOk, OnOk};
ghost use Rattle.link_sections.specs.Edges.{ends_of};
ghost use Rattle.lk_tables.specs.BoundNames.{IsBindingOf};
ghost use Rattle.lk_tables.specs.BindingView.{binding_view};
ghost use Rattle.lk_tables.specs.Files.{file_at};
ghost use Rattle.lk_tables.specs.Objects.{group_view};
ghost use Rattle.lk_tables.specs.TablesView.{files_of};
ghost use Rattle.lk_tables.proofs.ByNumber.{section_row};
ghost use Rattle.sec_graph.specs.Graph as graph;
ghost use Rattle.sec_graph.specs.Kept.{HasEnds, IsClosedByRules};
ghost use Rattle.sec_graph.specs.WalkEdges as spec;

use crate::ends::push_seconds;
use crate::pairs::{Pair, members_of, pairs_from};
use flat_rows::Rows;
use link_sections::Edges;
use lk_base::{FileNo, SecNo};
use lk_tables::{Binding, Group, Tables, section_count};
use std::alloc::{AllocError, Global};

/// Where each section leads in a walk, by section number: where the [edges](crate::edges) lead, and from each member of a group to all of its
/// members in one step. The edges have these in a ring, which keeps the same sections and takes less room: here a group has as many ends as the square
/// of its members' number. The only error is out of memory.
pub fn walk_edges(
    alloc: Global,
    tables: &Tables,
    binding: &Binding,
    edges: &Edges,
) -> Result<Edges, AllocError>
    requires bound { IsBindingOf (files_of tables.now) (binding_view binding.now) }
    requires edges { ends_of edges.now ≡ graph.edges (files_of tables.now) (binding_view binding.now) }
    ensures value { IfOk result (λ walks. ends_of walks ≡ spec.walk_edges (files_of tables.now) (binding_view binding.now)) }
    ensures law { IfOk result (λ walks. (s : ℕ → Bool) → IsClosedByRules (files_of tables.now) (binding_view binding.now) s ↔ HasEnds (ends_of walks) s) }
{
    tables.prove_few();
    let mut rows = Rows::empty(alloc)?;
    for file in 0..tables.file_count() {
        let part = file_walks(alloc, tables, binding, edges, file as FileNo)?;
        rows.append(&part)?;
    }
    Ok(Edges::from_rows(rows))
}

/// Where each section of a file leads in a walk.
fn file_walks(
    alloc: Global,
    tables: &Tables,
    binding: &Binding,
    edges: &Edges,
    file: FileNo,
) -> Result<Rows<SecNo>, AllocError>
    requires file { file < length (files_of tables.now) }
    requires edges { ends_of edges.now ≡ graph.edges (files_of tables.now) (binding_view binding.now) }
    ensures { IfOk result (λ rows. rows ≡ section_row (files_of tables.now) (spec.walk_ends (files_of tables.now) (binding_view binding.now)) file) }
{
    if !tables.file(file).is_live() {
        return Rows::empty(alloc);
    }
    let mates = mates_of(alloc, tables, binding, file)?;
    live_walks(alloc, tables, binding, edges, file, mates.as_slice())
}

/// Where each section of a file that takes part leads in a walk; the pairs of its groups are known.
fn live_walks(
    alloc: Global,
    tables: &Tables,
    binding: &Binding,
    edges: &Edges,
    file: FileNo,
    mates: &[Pair],
) -> Result<Rows<SecNo>, AllocError>
    requires file { file < length (files_of tables.now) }
    requires edges { ends_of edges.now ≡ graph.edges (files_of tables.now) (binding_view binding.now) }
    requires mates { graph.AreBySection (spec.mates_in (files_of tables.now) (binding_view binding.now) file) mates.now }
    ensures { IfOk result (λ rows. rows ≡ section_row (files_of tables.now) (spec.walk_ends (files_of tables.now) (binding_view binding.now)) file) }
{
    tables.prove_few();
    let mut rows = Rows::empty(alloc)?;
    for index in 0..section_count(tables.file(file)) {
        let number = tables.section_no(file as usize, index);
        let ends = walk_ends(
            alloc,
            edges.ends(number as SecNo),
            pairs_from(mates, number),
        )?;
        rows.push(ends.as_slice())?;
    }
    Ok(rows)
}

/// Ends, and then those to which pairs lead.
fn walk_ends(alloc: Global, ends: &[SecNo], mates: &[Pair]) -> Result<Vec<SecNo>, AllocError>
    ensures { IfOk result (λ list. list.items ≡ ends.now ++ map (λ p. p.to) mates.now) }
{
    let mut list = Vec::from_slice(alloc, ends)?;
    push_seconds(&mut list, mates)?;
    Ok(list)
}

/// The pairs of the groups of a file that takes part, in order of the section that leads: from each member to all.
fn mates_of(
    alloc: Global,
    tables: &Tables,
    binding: &Binding,
    file: FileNo,
) -> Result<Vec<Pair>, AllocError>
    requires file { file < length (files_of tables.now) }
    requires live { (file_at (files_of tables.now) file).live ≡ true }
    ensures { IfOk result (λ pairs. graph.AreBySection (spec.mates_in (files_of tables.now) (binding_view binding.now) file) pairs.items) }
{
    let mut pairs = Vec::new(alloc);
    push_squares(
        &mut pairs,
        alloc,
        tables,
        binding,
        file,
        tables.file(file).groups(),
    )?;
    pairs.sort_by_key(|pair| pair.from)?;
    Ok(pairs)
}

/// Adds the pairs of groups of a file.
fn push_squares(
    pairs: &mut Vec<Pair>,
    alloc: Global,
    tables: &Tables,
    binding: &Binding,
    file: FileNo,
    groups: &[Group],
) -> Result<(), AllocError>
    requires file { file < length (files_of tables.now) }
    requires live { (file_at (files_of tables.now) file).live ≡ true }
    ensures { OnOk result (pairs.new.items ≡ pairs.old.items ++ flat_map (spec.square_in (files_of tables.now) (binding_view binding.now) file) (map group_view groups.now)) }
{
    for group in groups {
        let members = members_of(alloc, tables, binding, file, group.members.as_slice())?;
        push_square(pairs, members.as_slice(), members.as_slice())?;
    }
    Ok(())
}

/// Adds a pair from each of some sections to each of others.
fn push_square(pairs: &mut Vec<Pair>, from: &[SecNo], to: &[SecNo]) -> Result<(), AllocError>
    ensures { OnOk result (pairs.new.items ≡ pairs.old.items ++ spec.square from.now to.now) }
{
    for section in from {
        push_all(pairs, *section, to)?;
    }
    Ok(())
}

/// Adds a pair from a section to each of others.
fn push_all(pairs: &mut Vec<Pair>, from: SecNo, to: &[SecNo]) -> Result<(), AllocError>
    ensures { OnOk result (pairs.new.items ≡ pairs.old.items ++ map (graph.pair from) to.now) }
{
    for section in to {
        pairs.push(Pair { from, to: *section })?;
    }
    Ok(())
}
