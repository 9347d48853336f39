//! The relocation sections (System V gABI, "Relocation").

ghost use Rattle.std.specs.Prelude.{◌≡◌, ◌+◌, ◌<◌, length, map, OnOk, IsFalse, IsTrue};
ghost use Rattle.lk_base.specs.declared.abi.TheConstants.{SHT_RELA};
ghost use Rattle.lk_tables.specs.Bodies as read;
ghost use Rattle.lk_tables.specs.Checks.{Follows};
ghost use Rattle.lk_tables.specs.FileHeader.{section_count};
ghost use Rattle.lk_tables.specs.Sections.{section_of};
ghost use Rattle.elf_read.specs.RelaSections.{marks_before, lists_before};

use crate::header::flaw;
use crate::relocations::read_relocations;
use crate::sound_file::SoundFile;
use lk_base::ReadFault;
use lk_base::abi::{RELA_SIZE, SHT_RELA};
use lk_base::kinds::BAD_SECTION;
use lk_tables::{Reloc, Section};
use std::alloc::Global;

/// The relocation section `index`, if it is sound: its relocations become those of the section that it names.
#[tactic(auto, unfolding(lk_tables::specs::Bodies::rela_checks))]
pub fn read_rela(
    alloc: Global,
    file: &SoundFile,
    index: u32,
    marks: &mut [bool],
    lists: &mut [Vec<Reloc>],
) -> Result<(), ReadFault>
    requires low { 0 < index }
    requires index { index < length file.now.sections.now }
    requires marks { marks.old ≡ marks_before file.now.bytes.now index }
    requires lists { map (λ list. list.items) lists.old ≡ lists_before file.now.bytes.now index }
    ensures checked { Follows result (read.rela_checks file.now.bytes.now index) }
    ensures marks { OnOk result (marks.new ≡ marks_before file.now.bytes.now (index + 1)) }
    ensures lists { OnOk result (map (λ list. list.items) lists.new ≡ lists_before file.now.bytes.now (index + 1)) }
{
    let rela = file.section(index);
    if is_bad_rela(file, index, &rela, marks) {
        return Err(ReadFault::Bad(flaw(BAD_SECTION, index, file.place_of(index))));
    }
    if !relocates(file, index, &rela) {
        return Ok(());
    }
    let list = read_relocations(alloc, file, index, &rela, &file.section(rela.info))?;
    marks[rela.info as usize] = true;
    lists[rela.info as usize] = list;
    Ok(())
}

/// Whether a relocation section cannot be, or is a second one for a section.
#[tactic(auto, unfolding(lk_tables::specs::Bodies::is_bad_rela))]
fn is_bad_rela(file: &SoundFile, index: u32, rela: &Section, marks: &[bool]) -> bool
    requires { marks.now ≡ marks_before file.now.bytes.now index }
    ensures value { result ≡ read.is_bad_rela file.now.bytes.now index rela.now }
    ensures within { IsFalse result → rela.now.sh_type ≡ SHT_RELA → rela.now.info < section_count file.now.bytes.now }
    ensures first { IsFalse result → rela.now.sh_type ≡ SHT_RELA → IsFalse (read.is_relocated_before file.now.bytes.now index rela.now.info) }
{
    if rela.sh_type != SHT_RELA {
        return false;
    }
    if is_uneven(rela) || is_misdirected(file.symtab, file.sections.len(), rela) {
        return true;
    }
    is_marked(file, index, marks, rela.info)
}

/// Whether a relocation section has entries of another size.
#[tactic(auto, unfolding(lk_tables::specs::Bodies::is_uneven))]
fn is_uneven(rela: &Section) -> bool
    ensures { result ≡ read.is_uneven rela.now }
{
    rela.entsize != RELA_SIZE || rela.size % RELA_SIZE != 0
}

/// Whether a relocation section is for another symbol table, or for no section.
#[tactic(auto, unfolding(lk_tables::specs::Bodies::is_misdirected))]
fn is_misdirected(symtab: u32, count: usize, rela: &Section) -> bool
    ensures value { result ≡ read.is_misdirected symtab count rela.now }
    ensures within { IsFalse result → rela.now.info < count }
{
    symtab == 0 || rela.link != symtab || rela.info == 0 || count <= rela.info as usize
}

/// Whether an earlier section has the relocations of a section.
fn is_marked(file: &SoundFile, index: u32, marks: &[bool], target: u32) -> bool
    requires marks { marks.now ≡ marks_before file.now.bytes.now index }
    requires target { target < section_count file.now.bytes.now }
    ensures { result ≡ read.is_relocated_before file.now.bytes.now index target }
{
    marks[target as usize]
}

/// Whether a section has the relocations of another, which are read.
#[tactic(auto, unfolding(lk_tables::specs::Bodies::relocates))]
fn relocates(file: &SoundFile, index: u32, rela: &Section) -> bool
    requires rela { rela.now ≡ section_of file.now.bytes.now index }
    requires within { rela.now.sh_type ≡ SHT_RELA → rela.now.info < length file.now.sections.now }
    ensures value { result ≡ read.relocates file.now.bytes.now rela.now.info index }
    ensures sh_type { IsTrue result → rela.now.sh_type ≡ SHT_RELA }
{
    if index == 0 || rela.sh_type != SHT_RELA {
        return false;
    }
    file.takes_relocs(rela.info)
}
