//! The folded sections of each output section, gathered in one walk over all sections.

ghost use Rattle.std.specs.Prelude.{◌≡◌, ◌+◌, ◌<◌, ℕ, [], ◌++◌, length, replicate, slice_index_or, IfOk, OnOk};
ghost use Rattle.lk_tables.specs.Files.{section_total};
ghost use Rattle.link_sections.specs.InputSections.{input_at};
ghost use Rattle.link_sections.specs.Leaders as leading;
ghost use Rattle.link_sections.specs.Views.{binding_in, files_in, laid_in, leaders_in};
ghost use Rattle.map_file.specs.Folded.{AreFolded, one_if, own_folded};
ghost use Rattle.map_file.specs.MapText.{is_other, is_output};
ghost use Rattle.map_file.specs.MapView.{lists_view};
ghost use Rattle.symbol_table.specs.Noted.{AreNoted, output_numbers};
ghost use Rattle.symbol_table.specs.Outputs.{place_in};

use crate::places::place_of;
use link_sections::{View, input_in, leader_of};
use lk_base::SecNo;
use std::alloc::{AllocError, Global};
use symbol_table::{Outputs, TablePlace};

/// By the numbers of output sections, from 1 on, the sections that are folded there, in order of file and section.
pub fn folded_of(alloc: Global, view: &View) -> Result<Vec<Vec<SecNo>>, AllocError>
    ensures { IfOk result (λ lists. AreFolded view.now (section_total (files_in view.now)) (lists_view lists.items)) }
{
    view.tables.prove_few();
    let outputs = Outputs::of(alloc, view.layout.outputs.as_slice())?;
    let mut lists = no_lists(alloc, view.layout.outputs.len() + 1)?;
    for section in 0..view.tables.section_count() {
        push_if_folded(&mut lists, view, &outputs, section as u32)?;
    }
    Ok(lists)
}

/// So many empty lists.
fn no_lists(alloc: Global, count: usize) -> Result<Vec<Vec<SecNo>>, AllocError>
    ensures { IfOk result (λ lists. lists_view lists.items ≡ replicate count []) }
{
    let mut lists = Vec::with_capacity(alloc, count)?;
    for _list in 0..count {
        lists.push(Vec::new(alloc))?;
    }
    Ok(lists)
}

/// Adds a section to the list of the output section in which the one in its place stands, if it is folded.
fn push_if_folded(
    lists: &mut Vec<Vec<SecNo>>,
    view: &View,
    outputs: &Outputs,
    section: SecNo,
) -> Result<(), AllocError>
    requires noted { AreNoted 1 (laid_in view.now).outputs (output_numbers outputs.now) }
    requires section { section < section_total (files_in view.now) }
    ensures count { OnOk result (length lists.new.items ≡ length lists.old.items) }
    ensures each { OnOk result ((number : ℕ) → number < length lists.old.items → slice_index_or (lists_view lists.new.items) number [] ≡ slice_index_or (lists_view lists.old.items) number [] ++ own_folded view.now number section) }
{
    if !is_folded(view.leaders, section) {
        return Ok(());
    }
    push_at(lists, leader_place(view, outputs, section), section)
}

/// Whether another section is written in the place of one.
fn is_folded(leaders: &[Option<SecNo>], section: SecNo) -> bool
    ensures { result ≡ is_other (leading.leader_at leaders.now section) section }
{
    match leaders.get(section as usize) {
        Some(Some(leader)) => *leader != section,
        _ => false,
    }
}

/// The output section of the section that is written in the place of one.
#[tactic(auto, unfolding(link_sections::specs::LaidOut::with_contents))]
fn leader_place(view: &View, outputs: &Outputs, section: SecNo) -> TablePlace
    requires noted { AreNoted 1 (laid_in view.now).outputs (output_numbers outputs.now) }
    requires section { section < section_total (files_in view.now) }
    ensures { result ≡ place_in (laid_in view.now) (input_at (files_in view.now) (binding_in view.now) (leading.leader_of (leaders_in view.now) section)) }
{
    let place = place_of(view.tables, leader_of(view.leaders, section));
    let input = input_in(view.tables, view.binding, place.file, place.index);
    outputs.place_of(view.layout, &input)
}

/// Adds a section to the list of an output section's number, if there is one.
fn push_at(lists: &mut Vec<Vec<SecNo>>, place: TablePlace, section: SecNo) -> Result<(), AllocError>
    ensures count { OnOk result (length lists.new.items ≡ length lists.old.items) }
    ensures each { OnOk result ((number : ℕ) → number < length lists.old.items → slice_index_or (lists_view lists.new.items) number [] ≡ slice_index_or (lists_view lists.old.items) number [] ++ one_if (is_output number place) section) }
{
    let TablePlace::Output(number) = place else {
        return Ok(());
    };
    if (number as usize) < lists.len() {
        lists[number as usize].push(section)?;
    }
    Ok(())
}
