//! The sections of a file that is linked, one after the other: each is tested, and a relocation section or a group is read.

ghost use Rattle.std.specs.Prelude.{◌≡◌, ◌+◌, ◌<◌, length, map, OnOk, []};
ghost use Rattle.lk_tables.specs.Bodies as read;
ghost use Rattle.lk_tables.specs.Checks.{Follows};
ghost use Rattle.lk_tables.specs.FileHeader.{section_count};
ghost use Rattle.lk_tables.specs.Objects.{group_view};
ghost use Rattle.elf_read.specs.Groups.{groups_before, taken_before};
ghost use Rattle.elf_read.specs.RelaSections.{marks_before, lists_before};

use crate::groups::read_group;
use crate::rela_sections::read_rela;
use crate::section_checks::check_plain;
use crate::sound_file::SoundFile;
use lk_base::ReadFault;
use lk_base::abi::SHT_NULL;
use lk_tables::{Group, Reloc};
use std::alloc::Global;

/// All sections, if they are sound, with the relocations of each and the groups: `marks` has the sections of which the
/// relocations were read, `lists` their relocations, `taken` the members of groups, and `groups` these.
pub fn read_sections(
    alloc: Global,
    file: &SoundFile,
    marks: &mut [bool],
    lists: &mut [Vec<Reloc>],
    taken: &mut [bool],
    groups: &mut Vec<Group>,
) -> Result<(), ReadFault>
    requires marks { marks.old ≡ marks_before file.now.bytes.now 0 }
    requires lists { map (λ list. list.items) lists.old ≡ lists_before file.now.bytes.now 0 }
    requires taken { taken.old ≡ taken_before file.now.bytes.now 0 }
    requires groups { groups.old.items ≡ [] }
    ensures checked { Follows result (read.all_body_checks file.now.bytes.now) }
    ensures lists { OnOk result (map (λ list. list.items) lists.new ≡ lists_before file.now.bytes.now (section_count file.now.bytes.now)) }
    ensures groups { OnOk result (map group_view groups.new.items ≡ groups_before file.now.bytes.now (section_count file.now.bytes.now)) }
{
    let count = file.sections.len() as u32;
    for index in 0..count {
        read_section(alloc, file, index, marks, lists, taken, groups)?;
    }
    Ok(())
}

/// The section `index`, if it is sound, with its relocations or its members.
#[tactic(auto, using(lk_tables::proofs::Passing::checked_append), unfolding(lk_tables::specs::Bodies::body_checks))]
fn read_section(
    alloc: Global,
    file: &SoundFile,
    index: u32,
    marks: &mut [bool],
    lists: &mut [Vec<Reloc>],
    taken: &mut [bool],
    groups: &mut Vec<Group>,
) -> Result<(), ReadFault>
    requires index { index < length file.now.sections.now }
    requires marks { marks.old ≡ marks_before file.now.bytes.now index }
    requires lists { map (λ list. list.items) lists.old ≡ lists_before file.now.bytes.now index }
    requires taken { taken.old ≡ taken_before file.now.bytes.now index }
    requires groups { map group_view groups.old.items ≡ groups_before file.now.bytes.now index }
    ensures checked { Follows result (read.body_checks file.now.bytes.now index) }
    ensures marks { OnOk result (marks.new ≡ marks_before file.now.bytes.now (index + 1)) }
    ensures lists { OnOk result (map (λ list. list.items) lists.new ≡ lists_before file.now.bytes.now (index + 1)) }
    ensures taken { OnOk result (taken.new ≡ taken_before file.now.bytes.now (index + 1)) }
    ensures groups { OnOk result (map group_view groups.new.items ≡ groups_before file.now.bytes.now (index + 1)) }
{
    let section = file.section(index);
    if index == 0 {
        return Ok(());
    }
    if section.sh_type == SHT_NULL {
        return Ok(());
    }
    check_plain(file, index, &section)?;
    read_rela(alloc, file, index, marks, lists)?;
    read_group(alloc, file, index, taken, groups)
}
