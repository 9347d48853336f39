//! The output sections, each with its members and the sections that are folded there.

ghost use Rattle.std.specs.Prelude.{◌≡◌, ◌++◌, if◌then◌else◌, drop, flat_map, take, OnOk};
ghost use Rattle.lk_tables.specs.Files.{section_total};
ghost use Rattle.link_sections.specs.LaidOut.{output_view};
ghost use Rattle.link_sections.specs.Views.{files_in, laid_in};
ghost use Rattle.map_file.specs.Folded.{AreFolded, block_text};
ghost use Rattle.map_file.specs.MapText as lines;
ghost use Rattle.map_file.specs.MapView as spec;
ghost use Rattle.map_file.specs.MapView.{lists_view};

use crate::lines::{push_folded, push_member, push_output};
use link_sections::{Member, OutputSection, View};
use lk_base::SecNo;
use lk_tables::Class;
use std::alloc::AllocError;

/// Adds the output sections, with the sections that are folded in each, by its number.
#[tactic(auto, unfolding(link_sections::specs::LaidOut::with_contents, link_sections::specs::LaidOut::layout_view))]
pub fn push_outputs(
    text: &mut Vec<u8>,
    view: &View,
    folded: &[Vec<SecNo>],
) -> Result<(), AllocError>
    requires { AreFolded view.now (section_total (files_in view.now)) (lists_view folded.now) }
    ensures { OnOk result (text.new.items ≡ text.old.items ++ spec.output_blocks view.now 1 (laid_in view.now).outputs (laid_in view.now).members (laid_in view.now).nobits_members) }
{
    let outputs = view.layout.outputs.as_slice();
    let mut bits = view.layout.members.as_slice();
    let mut nobits_members = view.layout.nobits_members.as_slice();
    for (i, output) in outputs.iter().enumerate() {
        let members = members_of(output, bits, nobits_members);
        push_block(text, view, output, members, folded[i + 1].as_slice())?;
        bits = bits_after(output, bits);
        nobits_members = nobits_after(output, nobits_members);
    }
    Ok(())
}

/// Adds an output section, its members, and the sections that are folded there.
fn push_block(
    text: &mut Vec<u8>,
    view: &View,
    output: &OutputSection,
    members: &[Member],
    sections: &[SecNo],
) -> Result<(), AllocError>
    ensures { OnOk result (text.new.items ≡ text.old.items ++ block_text view.now (output_view output.now) members.now sections.now) }
{
    push_output(text, output)?;
    push_members(text, view, members)?;
    push_each_folded(text, view, sections)?;
    Ok(())
}

/// Adds members of an output section.
fn push_members(text: &mut Vec<u8>, view: &View, members: &[Member]) -> Result<(), AllocError>
    ensures { OnOk result (text.new.items ≡ text.old.items ++ flat_map (spec.member_line view.now) members.now) }
{
    for member in members {
        push_member(text, view, member)?;
    }
    Ok(())
}

/// Adds the sections that are folded in an output section.
fn push_each_folded(text: &mut Vec<u8>, view: &View, sections: &[SecNo]) -> Result<(), AllocError>
    ensures { OnOk result (text.new.items ≡ text.old.items ++ flat_map (spec.folded_text view.now) sections.now) }
{
    for section in sections {
        push_folded(text, view, *section)?;
    }
    Ok(())
}

/// Whether output sections of a class have no bytes in the file.
fn is_nobits(class: Class) -> bool
    ensures { result ≡ lines.is_nobits class }
{
    matches!(class, Class::TlsNobits | Class::RwNobits)
}

/// The members of an output section, which stand first in the list of those with bytes, or without.
fn members_of<'t>(
    output: &OutputSection,
    bits: &'t [Member],
    nobits_members: &'t [Member],
) -> &'t [Member]
    ensures { result.now ≡ (if lines.is_nobits output.now.class then take output.now.count nobits_members.now else take output.now.count bits.now) }
{
    if is_nobits(output.class) {
        return first(nobits_members, output.count);
    }
    first(bits, output.count)
}

/// The members with bytes of the output sections after one.
fn bits_after<'t>(output: &OutputSection, bits: &'t [Member]) -> &'t [Member]
    ensures { result.now ≡ (if lines.is_nobits output.now.class then bits.now else drop output.now.count bits.now) }
{
    if is_nobits(output.class) {
        return bits;
    }
    rest(bits, output.count)
}

/// The members without bytes of the output sections after one.
fn nobits_after<'t>(output: &OutputSection, nobits_members: &'t [Member]) -> &'t [Member]
    ensures { result.now ≡ (if lines.is_nobits output.now.class then drop output.now.count nobits_members.now else nobits_members.now) }
{
    if is_nobits(output.class) {
        return rest(nobits_members, output.count);
    }
    nobits_members
}

/// So many members from the first on.
fn first(list: &[Member], count: u64) -> &[Member]
    ensures { result.now ≡ take count list.now }
{
    if list.len() as u64 <= count {
        return list;
    }
    list.split_at(count as usize).0
}

/// The members after the first so many.
fn rest(list: &[Member], count: u64) -> &[Member]
    ensures { result.now ≡ drop count list.now }
{
    if list.len() as u64 <= count {
        return &[];
    }
    list.split_at(count as usize).1
}
