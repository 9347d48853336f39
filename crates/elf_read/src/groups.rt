//! The section groups (System V gABI, "Section Groups").

ghost use Rattle.std.specs.Prelude.{◌≡◌, ℕ, ◌+◌, ◌<◌, ◌≤◌, length, map, IfOk, OnOk, IsFalse};
ghost use Rattle.std.specs.List.{All, list_any};
ghost use Rattle.lk_base.specs.declared.abi.TheConstants.{WORD_SIZE};
ghost use Rattle.lk_tables.specs.Checks.{Follows};
ghost use Rattle.lk_tables.specs.FileHeader.{section_count};
ghost use Rattle.lk_tables.specs.Groups as read;
ghost use Rattle.lk_tables.specs.Objects.{group_view, group_of};
ghost use Rattle.lk_tables.specs.Sections.{section_of};
ghost use Rattle.lk_tables.specs.declared.heads.Place.TheVariants.{Within};
ghost use Rattle.lk_tables.specs.Symbols.{symbol_of};
ghost use Rattle.elf_read.specs.Groups.{groups_before, taken_before, with_marked};

use crate::header::flaw;
use crate::names::span;
use crate::sound_file::SoundFile;
use lk_base::ReadFault;
use lk_base::abi::{GRP_COMDAT, SHT_GROUP, WORD_SIZE};
use lk_base::kinds::BAD_GROUP;
use lk_tables::{Group, Place, Section, Span, is_section_symbol, word_at};
use std::alloc::{AllocError, Global};

/// The group of section `index`, if this is a sound group: it is added to `groups`, and its sections to those of `taken`, which
/// earlier groups have.
#[tactic(auto, unfolding(lk_tables::specs::Groups::group_checks, lk_tables::specs::Groups::is_group, lk_tables::specs::Groups::is_bad_group))]
pub fn read_group(
    alloc: Global,
    file: &SoundFile,
    index: u32,
    taken: &mut [bool],
    groups: &mut Vec<Group>,
) -> Result<(), ReadFault>
    requires low { 0 < index }
    requires index { index < length file.now.sections.now }
    requires taken { taken.old ≡ taken_before file.now.bytes.now index }
    requires groups { map group_view groups.old.items ≡ groups_before file.now.bytes.now index }
    ensures checked { Follows result (read.group_checks file.now.bytes.now index) }
    ensures taken { OnOk result (taken.new ≡ taken_before file.now.bytes.now (index + 1)) }
    ensures groups { OnOk result (map group_view groups.new.items ≡ groups_before file.now.bytes.now (index + 1)) }
{
    let section = file.section(index);
    if section.sh_type != SHT_GROUP {
        return Ok(());
    }
    if is_bad_header(file, index, &section) {
        return Err(ReadFault::Bad(flaw(BAD_GROUP, index, file.place_of(index))));
    }
    let members = read_members(alloc, file, index, &section)?;
    if has_bad_member(file, index, taken, members.as_slice()) {
        return Err(ReadFault::Bad(flaw(BAD_GROUP, index, file.place_of(index))));
    }
    mark(taken, members.as_slice());
    groups.push(group_in(file, index, &section, members))?;
    Ok(())
}

/// Whether the header or the flag word of a group cannot be.
#[tactic(auto, unfolding(lk_tables::specs::Groups::is_bad_group_header))]
fn is_bad_header(file: &SoundFile, index: u32, section: &Section) -> bool
    requires section { section.now ≡ section_of file.now.bytes.now index }
    requires within { section.now.offset + section.now.size ≤ length file.now.bytes.now }
    ensures value { result ≡ read.is_bad_group_header file.now.bytes.now index section.now }
    ensures sized { IsFalse result → WORD_SIZE ≤ section.now.size }
    ensures signed { IsFalse result → section.now.info < length file.now.symbols.now }
{
    is_uneven(section)
        || is_bad_flag(flag_word(file, index, section))
        || is_unsigned(file.symtab, file.symbols.len(), section)
}

/// Whether a group has entries of another size, or no flag word.
#[tactic(auto, unfolding(lk_tables::specs::Groups::is_uneven_group))]
fn is_uneven(section: &Section) -> bool
    ensures value { result ≡ read.is_uneven_group section.now }
    ensures sized { IsFalse result → WORD_SIZE ≤ section.now.size }
{
    section.entsize != WORD_SIZE || section.size == 0 || section.size % WORD_SIZE != 0
}

/// Whether a flag word has flags that are not known.
#[tactic(auto, unfolding(lk_tables::specs::Groups::is_bad_flag))]
fn is_bad_flag(word: u32) -> bool
    ensures { result ≡ read.is_bad_flag word }
{
    word != 0 && word != GRP_COMDAT
}

/// Whether a group's signature is of another symbol table, or past its end.
#[tactic(auto, unfolding(lk_tables::specs::Groups::is_unsigned))]
fn is_unsigned(symtab: u32, count: usize, section: &Section) -> bool
    ensures value { result ≡ read.is_unsigned symtab count section.now }
    ensures signed { IsFalse result → section.now.info < count }
{
    symtab == 0 || section.link != symtab || count <= section.info as usize
}

/// The flag word of a group.
fn flag_word(file: &SoundFile, index: u32, section: &Section) -> u32
    requires section { section.now ≡ section_of file.now.bytes.now index }
    requires within { section.now.offset + section.now.size ≤ length file.now.bytes.now }
    requires sized { WORD_SIZE ≤ section.now.size }
    ensures { result ≡ read.flag_word file.now.bytes.now index }
{
    word_at(file.bytes, section.offset as usize)
}

/// The members of a group, in the order of the file.
#[tactic(auto, unfolding(lk_tables::specs::Groups::members_of))]
fn read_members(
    alloc: Global,
    file: &SoundFile,
    index: u32,
    section: &Section,
) -> Result<Vec<u32>, AllocError>
    requires section { section.now ≡ section_of file.now.bytes.now index }
    requires within { section.now.offset + section.now.size ≤ length file.now.bytes.now }
    requires sized { WORD_SIZE ≤ section.now.size }
    ensures { IfOk result (λ members. members.items ≡ read.members_of file.now.bytes.now index) }
{
    let count = section.size as usize / WORD_SIZE as usize - 1;
    let mut members = Vec::with_capacity(alloc, count)?;
    for number in 0..count {
        let at = section.offset as usize + WORD_SIZE as usize * (number + 1);
        members.push(word_at(file.bytes, at))?;
    }
    Ok(members)
}

/// Whether one of some members of a group cannot be.
fn has_bad_member(file: &SoundFile, index: u32, taken: &[bool], members: &[u32]) -> bool
    requires { taken.now ≡ taken_before file.now.bytes.now index }
    ensures { result ≡ list_any (read.is_bad_member file.now.bytes.now index) members.now }
{
    members
        .iter()
        .any(|member| is_bad_member(file, index, taken, *member))
}

/// Whether a member of a group is no section, the group itself, or a member of an earlier group.
#[tactic(auto, unfolding(lk_tables::specs::Groups::is_bad_member))]
fn is_bad_member(file: &SoundFile, index: u32, taken: &[bool], member: u32) -> bool
    requires { taken.now ≡ taken_before file.now.bytes.now index }
    ensures { result ≡ read.is_bad_member file.now.bytes.now index member }
{
    member == 0
        || file.sections.len() <= member as usize
        || member == index
        || is_taken(file, index, taken, member)
}

/// Whether an earlier group has a section.
fn is_taken(file: &SoundFile, index: u32, taken: &[bool], member: u32) -> bool
    requires taken { taken.now ≡ taken_before file.now.bytes.now index }
    requires member { member < section_count file.now.bytes.now }
    ensures { result ≡ read.is_taken_before file.now.bytes.now index member }
{
    taken[member as usize]
}

/// Sets the marks of some sections.
fn mark(taken: &mut [bool], members: &[u32])
    requires { All (λ member. member < length taken.old) members.now }
    ensures { taken.new ≡ with_marked taken.old members.now }
{
    for number in 0..members.len() {
        taken[members[number] as usize] = true;
    }
}

/// The group of these members.
fn group_in(file: &SoundFile, index: u32, section: &Section, members: Vec<u32>) -> Group
    requires section { section.now ≡ section_of file.now.bytes.now index }
    requires within { section.now.offset + section.now.size ≤ length file.now.bytes.now }
    requires sized { WORD_SIZE ≤ section.now.size }
    requires signed { section.now.info < length file.now.symbols.now }
    requires members { members.items ≡ read.members_of file.now.bytes.now index }
    ensures { group_view result ≡ group_of file.now.bytes.now index }
{
    Group {
        section: index,
        signature: signature(file, section.info),
        comdat: flag_word(file, index, section) == GRP_COMDAT,
        members,
    }
}

/// The name of a symbol, or of its section if it is a SECTION symbol.
#[tactic(auto, unfolding(lk_tables::specs::Groups::signature_by))]
fn signature(file: &SoundFile, symbol: u32) -> Span
    requires { symbol < length file.now.symbols.now }
    ensures { result ≡ read.signature_by file.now.bytes.now (symbol_of file.now.bytes.now symbol) }
{
    let symbol = file.symbol(symbol as usize);
    if is_section_symbol(&symbol) {
        return name_by(file, symbol.place);
    }
    symbol.name
}

/// The name of the section in which a symbol stands, empty where it stands in none.
#[tactic(auto, unfolding(lk_tables::specs::Groups::name_by))]
fn name_by(file: &SoundFile, place: Place) -> Span
    requires { (k : ℕ) → place ≡ Within k → k < length file.now.sections.now }
    ensures { result ≡ read.name_by file.now.bytes.now place }
{
    match place {
        Place::Within(section) => file.section(section).name,
        _ => span(0, 0),
    }
}
