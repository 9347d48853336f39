//! The lines of the map, one of each kind.

ghost use Rattle.std.specs.Prelude.{◌≡◌, ◌==◌, ◌++◌, [], if◌then◌else◌, codes, OnOk};
ghost use Rattle.link_sections.specs.LaidOut.{output_view};
ghost use Rattle.lk_base.specs.Lines.{escaped};
ghost use Rattle.map_file.specs.MapText as lines;
ghost use Rattle.map_file.specs.MapView as spec;
ghost use Rattle.symbol_table.specs.SymbolViews.{symbol_view};

use crate::numbers::push_hex;
use crate::places::{place_of, push_place};
use link_sections::{Content, Member, OutputSection, View, entry_address, leader_of, start_of};
use lk_base::{SecNo, push_escaped};
use lk_tables::SectionPlace;
use std::alloc::AllocError;
use symbol_table::TableSymbol;

/// Adds a word, an address and a number of bytes.
#[tactic(auto, unfolding(crate::specs::MapText::extent))]
fn push_extent(text: &mut Vec<u8>, word: &[u8], address: u64, size: u64) -> Result<(), AllocError>
    ensures { OnOk result (text.new.items ≡ text.old.items ++ lines.extent word.now address size) }
{
    text.extend_from_slice(word)?;
    push_hex(text, address)?;
    push_hex(text, size)
}

/// Adds a name after a space, and ends the line.
fn push_name(text: &mut Vec<u8>, name: &[u8]) -> Result<(), AllocError>
    ensures { OnOk result (text.new.items ≡ text.old.items ++ codes " " ++ escaped name.now ++ codes "\n") }
{
    text.push(b' ')?;
    push_escaped(text, name)?;
    text.push(b'\n')?;
    Ok(())
}

/// Adds the line of a section of which a word tells what became of it.
pub fn push_section(
    text: &mut Vec<u8>,
    view: &View,
    word: &[u8],
    place: SectionPlace,
) -> Result<(), AllocError>
    ensures { OnOk result (text.new.items ≡ text.old.items ++ word.now ++ codes " " ++ spec.place_text view.now place.file place.index ++ codes "\n") }
{
    text.extend_from_slice(word)?;
    push_place(text, view, place)?;
    text.push(b'\n')?;
    Ok(())
}

/// Adds the line that says where the executable starts.
#[tactic(auto, unfolding(crate::specs::MapText::entry_line))]
pub fn push_entry(text: &mut Vec<u8>, view: &View) -> Result<(), AllocError>
    ensures { OnOk result (text.new.items ≡ text.old.items ++ spec.entry_line view.now) }
{
    text.extend_from_slice(b"entry")?;
    push_hex(text, entry_address(view))?;
    text.push(b'\n')?;
    Ok(())
}

/// Adds the line of an output section.
#[tactic(auto, unfolding(crate::specs::MapText::output_line))]
pub fn push_output(text: &mut Vec<u8>, output: &OutputSection) -> Result<(), AllocError>
    ensures { OnOk result (text.new.items ≡ text.old.items ++ lines.output_line (output_view output.now)) }
{
    push_extent(text, b"section", output.address, output.size)?;
    push_name(text, output.name)
}

/// Adds the line of a member of an output section; the linker's table has none if it has no entries.
#[tactic(auto, unfolding(crate::specs::MapText::member_line))]
pub fn push_member(text: &mut Vec<u8>, view: &View, member: &Member) -> Result<(), AllocError>
    ensures { OnOk result (text.new.items ≡ text.old.items ++ spec.member_line view.now member.now) }
{
    match member.content {
        Content::Section(section) => push_input(text, view, section, member.start, member.size),
        Content::Pool(_) => push_pool(text, member.start, member.size),
        Content::Got => push_got(text, member.start, member.size),
    }
}

/// Adds the line of a section that is written.
fn push_input(
    text: &mut Vec<u8>,
    view: &View,
    section: SecNo,
    start: u64,
    size: u64,
) -> Result<(), AllocError>
    ensures { OnOk result (text.new.items ≡ text.old.items ++ lines.extent (codes "input") start size ++ codes " " ++ spec.section_text view.now section ++ codes "\n") }
{
    push_extent(text, b"input", start, size)?;
    push_place(text, view, place_of(view.tables, section))?;
    text.push(b'\n')?;
    Ok(())
}

/// Adds the line of a pool.
fn push_pool(text: &mut Vec<u8>, start: u64, size: u64) -> Result<(), AllocError>
    ensures { OnOk result (text.new.items ≡ text.old.items ++ lines.extent (codes "pool") start size ++ codes "\n") }
{
    push_extent(text, b"pool", start, size)?;
    text.push(b'\n')?;
    Ok(())
}

/// Adds the line of the linker's table, if that has entries.
fn push_got(text: &mut Vec<u8>, start: u64, size: u64) -> Result<(), AllocError>
    ensures { OnOk result (text.new.items ≡ text.old.items ++ (if size == 0 then [] else lines.extent (codes "got") start size ++ codes "\n")) }
{
    if size == 0 {
        return Ok(());
    }
    push_extent(text, b"got", start, size)?;
    text.push(b'\n')?;
    Ok(())
}

/// Adds the line of a folded section.
#[tactic(auto, unfolding(crate::specs::MapText::folded_text, link_sections::specs::LaidOut::with_contents))]
pub fn push_folded(text: &mut Vec<u8>, view: &View, section: SecNo) -> Result<(), AllocError>
    ensures { OnOk result (text.new.items ≡ text.old.items ++ spec.folded_text view.now section) }
{
    text.extend_from_slice(b"folded")?;
    push_hex(
        text,
        start_of(view.layout, leader_of(view.leaders, section)),
    )?;
    push_place(text, view, place_of(view.tables, section))?;
    text.push(b'\n')?;
    Ok(())
}

/// Adds the line of a symbol.
#[tactic(auto, unfolding(crate::specs::MapText::symbol_line))]
pub fn push_symbol(text: &mut Vec<u8>, symbol: &TableSymbol) -> Result<(), AllocError>
    ensures { OnOk result (text.new.items ≡ text.old.items ++ lines.symbol_line (symbol_view symbol.now)) }
{
    text.extend_from_slice(b"symbol")?;
    push_hex(text, symbol.value)?;
    push_name(text, symbol.name)
}
