//! Sections of a file that lead to one another without a relocation: what goes with a section, and what is in its groups.

ghost use Rattle.std.specs.Prelude.{◌≡◌, ◌-◌, ◌<◌, ◌≤◌, ◌++◌, true, length, map, take, drop, flat_map, IfOk, OnOk};
ghost use Rattle.lk_tables.specs.BindingView.{binding_view};
ghost use Rattle.lk_tables.specs.Files.{file_at, section_no};
ghost use Rattle.lk_tables.specs.FileView.{file_view};
ghost use Rattle.lk_tables.specs.Objects.{group_view};
ghost use Rattle.lk_tables.specs.TablesView.{files_of};
ghost use Rattle.sec_graph.specs.Graph as spec;

use link_sections::may_stay;
use lk_base::abi::SHF_LINK_ORDER;
use lk_base::{FileNo, SecNo};
use lk_tables::{Binding, File, Group, Section, Tables};
use std::alloc::{AllocError, Global};

/// A section that leads to another one of its file, both by their numbers in the link.
#[derive(Clone, Copy, Debug, PartialEq, Eq)]
pub struct Pair {
    /// The section that leads to the other.
    pub from: SecNo,
    /// The section to which it leads.
    pub to: SecNo,
}

/// The pairs of a file that takes part, in order of the section that leads: each section that goes with another, and the members of each
/// group in a ring.
pub fn pairs_of(
    alloc: Global,
    tables: &Tables,
    binding: &Binding,
    file: FileNo,
) -> Result<Vec<Pair>, AllocError>
    requires file { file < length (files_of tables.now) }
    requires live { (file_at (files_of tables.now) file).live ≡ true }
    ensures { IfOk result (λ pairs. spec.AreBySection (spec.joined_in (files_of tables.now) (binding_view binding.now) file) pairs.items) }
{
    let mut pairs = Vec::new(alloc);
    push_links(&mut pairs, tables, binding, file)?;
    push_rings(
        &mut pairs,
        alloc,
        tables,
        binding,
        file,
        tables.file(file).groups(),
    )?;
    pairs.sort_by_key(|pair| pair.from)?;
    Ok(pairs)
}

/// The pairs that lead from a section, of pairs in order of that.
pub fn pairs_from(pairs: &[Pair], section: usize) -> &[Pair]
    requires { spec.Rises pairs.now }
    ensures { result.now ≡ spec.pairs_from section pairs.now }
{
    let from = pairs.partition_point(|pair| (pair.from as usize) < section);
    let to = pairs.partition_point(|pair| (pair.from as usize) <= section);
    part(pairs, from, to)
}

/// Adds the pairs of the sections that go with another one.
fn push_links(
    pairs: &mut Vec<Pair>,
    tables: &Tables,
    binding: &Binding,
    file: FileNo,
) -> Result<(), AllocError>
    requires file { file < length (files_of tables.now) }
    requires live { (file_at (files_of tables.now) file).live ≡ true }
    ensures { OnOk result (pairs.new.items ≡ pairs.old.items ++ spec.links_in (files_of tables.now) (binding_view binding.now) file) }
{
    for index in 0..own_count(tables, file) {
        push_link(pairs, tables, binding, file, index)?;
    }
    Ok(())
}

/// Adds the pair of one section, if it goes with another one.
#[tactic(auto, unfolding(crate::specs::Graph::link_at))]
fn push_link(
    pairs: &mut Vec<Pair>,
    tables: &Tables,
    binding: &Binding,
    file: FileNo,
    index: u32,
) -> Result<(), AllocError>
    requires file { file < length (files_of tables.now) }
    requires live { (file_at (files_of tables.now) file).live ≡ true }
    requires index { index < length (file_at (files_of tables.now) file).head.sections }
    ensures { OnOk result (pairs.new.items ≡ pairs.old.items ++ spec.link_at (files_of tables.now) (binding_view binding.now) file index) }
{
    let entry = tables.file(file);
    let section = entry.section(index as usize);
    if !is_linked(entry, &section) || !may_stay(tables, binding, file, index) {
        return Ok(());
    }
    pairs.push(Pair {
        from: number_of(tables, file, section.link),
        to: number_of(tables, file, index),
    })?;
    Ok(())
}

/// Whether a section goes with the one that its `sh_link` names; 0 names none.
#[tactic(auto, unfolding(crate::specs::Graph::is_linked))]
fn is_linked(entry: &File, section: &Section) -> bool
    ensures value { result ≡ spec.is_linked (file_view entry.now) section.now }
    ensures law { result ≡ true → section.now.link < length (file_view entry.now).head.sections }
{
    section.flags & SHF_LINK_ORDER != 0
        && section.link != 0
        && (section.link as usize) < entry.sections().len()
}

/// Adds the rings of groups of a file.
fn push_rings(
    pairs: &mut Vec<Pair>,
    alloc: Global,
    tables: &Tables,
    binding: &Binding,
    file: FileNo,
    groups: &[Group],
) -> Result<(), AllocError>
    requires file { file < length (files_of tables.now) }
    requires live { (file_at (files_of tables.now) file).live ≡ true }
    ensures { OnOk result (pairs.new.items ≡ pairs.old.items ++ flat_map (spec.ring_in (files_of tables.now) (binding_view binding.now) file) (map group_view groups.now)) }
{
    for group in groups {
        let members = members_of(alloc, tables, binding, file, group.members.as_slice())?;
        push_ring(pairs, members.as_slice())?;
    }
    Ok(())
}

/// The numbers of the members of a group that may be kept.
pub fn members_of(
    alloc: Global,
    tables: &Tables,
    binding: &Binding,
    file: FileNo,
    members: &[u32],
) -> Result<Vec<SecNo>, AllocError>
    requires file { file < length (files_of tables.now) }
    requires live { (file_at (files_of tables.now) file).live ≡ true }
    ensures { IfOk result (λ list. list.items ≡ flat_map (spec.member_at (files_of tables.now) (binding_view binding.now) file) members.now) }
{
    let mut list = Vec::new(alloc);
    for member in members {
        push_member(&mut list, tables, binding, file, *member)?;
    }
    Ok(list)
}

/// Adds the number of a member, if that may be kept.
#[tactic(auto, unfolding(crate::specs::Graph::member_at))]
fn push_member(
    list: &mut Vec<SecNo>,
    tables: &Tables,
    binding: &Binding,
    file: FileNo,
    member: u32,
) -> Result<(), AllocError>
    requires file { file < length (files_of tables.now) }
    requires live { (file_at (files_of tables.now) file).live ≡ true }
    ensures { OnOk result (list.new.items ≡ list.old.items ++ spec.member_at (files_of tables.now) (binding_view binding.now) file member) }
{
    if member >= own_count(tables, file) || !may_stay(tables, binding, file, member) {
        return Ok(());
    }
    list.push(number_of(tables, file, member))?;
    Ok(())
}

/// Adds the pairs of sections in a ring: each leads to the next, and the last one to the first.
fn push_ring(pairs: &mut Vec<Pair>, members: &[SecNo]) -> Result<(), AllocError>
    ensures { OnOk result (pairs.new.items ≡ pairs.old.items ++ spec.ring members.now) }
{
    let Some(first) = members.first() else {
        return Ok(());
    };
    let mut last = *first;
    for n in 1..members.len() {
        pairs.push(Pair {
            from: last,
            to: members[n],
        })?;
        last = members[n];
    }
    pairs.push(Pair {
        from: last,
        to: *first,
    })?;
    Ok(())
}

/// How many sections the table of a file has that takes part.
fn own_count(tables: &Tables, file: FileNo) -> u32
    requires file { file < length (files_of tables.now) }
    requires live { (file_at (files_of tables.now) file).live ≡ true }
    ensures { result ≡ length (file_at (files_of tables.now) file).head.sections }
{
    tables.prove_few();
    tables.file(file).sections().len() as u32
}

/// The number of a section in the table of a file that takes part.
fn number_of(tables: &Tables, file: FileNo, index: u32) -> SecNo
    requires file { file < length (files_of tables.now) }
    requires live { (file_at (files_of tables.now) file).live ≡ true }
    requires index { index < length (file_at (files_of tables.now) file).head.sections }
    ensures { result ≡ section_no (files_of tables.now) file index }
{
    tables.prove_few();
    tables.section_no(file as usize, index as usize) as u32
}

/// The pairs from place `from` on and before place `to`.
fn part(pairs: &[Pair], from: usize, to: usize) -> &[Pair]
    requires order { from ≤ to }
    requires within { to ≤ length pairs.now }
    ensures { result.now ≡ take (to - from) (drop from pairs.now) }
{
    &pairs[from..to]
}
