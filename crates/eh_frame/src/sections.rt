//! The unwind records of a section of an object.

ghost use Rattle.std.specs.Prelude.{◌≡◌, ◌+◌, ◌^◌, ◌<◌, ◌≤◌, ◌==◌, ◌&&◌, Ok, Err, List, [], length, find, map, slice_index, slice_index_or, IfOk};
ghost use Rattle.std.specs.List.{range_with_len};
ghost use Rattle.std.specs.List.Sorted.{IsNonDecreasingBy};
ghost use Rattle.lk_base.specs.declared.abi.TheConstants.{FILE_MAX, SHT_RELA};
ghost use Rattle.lk_base.specs.declared.defects.Flaw.{Flaw as FlawValue};
ghost use Rattle.lk_base.specs.declared.defects.ReadFault.TheVariants.{Bad};
ghost use Rattle.lk_tables.specs.Bodies.{rela_of as rela_in};
ghost use Rattle.lk_tables.specs.Checks.{Follows, Gives, IsFirstBroken};
ghost use Rattle.lk_tables.specs.Heads.{head_of, head_view};
ghost use Rattle.lk_tables.specs.Objects.{object_of, object_view, relocs_for};
ghost use Rattle.lk_tables.specs.Relocations.{in_order, rela_count, rela_place};
ghost use Rattle.lk_tables.specs.declared.heads.Section.{Section as SectionOf};
ghost use Rattle.lk_tables.specs.Sections as read;
ghost use Rattle.lk_tables.specs.declared.records.Record.{Record as RecordOf};
ghost use Rattle.eh_frame.specs.declared.sections.Entry.{Entry as EntryOf};
ghost use Rattle.lk_tables.specs.Records.{RecordView, records_of};
ghost use Rattle.eh_frame.specs.Sections as spec;
ghost use Rattle.lk_tables.specs.RecordViews.{record_views};

use crate::reading::{flaw, read_records};
use crate::strays::first_stray;
use lk_base::ReadFault;
use lk_base::abi::{RELA_SIZE, SHT_RELA};
use lk_tables::{Head, Object, Record, Reloc, Section, xword_at};
use std::alloc::{AllocError, Global};

/// The unwind records of a section `.eh_frame`, in order, or the first that is wrong, BadFrame. For each record in order, with its file offset
/// as place: its Length is cut off, is 0xffffffff, below 4 or leads past the section; an FDE has a Length below 12, its CIE Pointer leads
/// to no CIE before it, or its first relocation that has bytes is not a R_RISCV_32_PCREL at its PC Begin. Then for each relocation in stable
/// order of offset, with its relocation section as section and its entry's file offset as place: it has bytes that do not lie in one record
/// after its CIE ID or CIE Pointer. Or memory ran out. The head and the object are those of these bytes, and the section is one of the head's.
pub fn read_frames(
    alloc: Global,
    bytes: &[u8],
    head: &Head,
    object: &Object,
    section: u32,
) -> Result<Vec<Record>, ReadFault>
    requires short { length bytes.now ≤ FILE_MAX }
    requires head { head_of bytes.now ≡ Ok (head_view head.now) }
    requires object { object_of bytes.now ≡ Ok (object_view object.now) }
    requires section { section < length head.now.sections.items }
    ensures exact { Gives (λ v. record_views v.items) result (spec.frames_of bytes.now section) }
    ensures found { IfOk result (λ v. spec.FramesOf bytes.now section (record_views v.items)) }
    ensures only { (list : List RecordView) → spec.FramesOf bytes.now section list → Gives (λ v. record_views v.items) result (Ok list) }
    ensures refused { (flaw : FlawValue) → result ≡ Err (Bad flaw) → IsFirstBroken (spec.frame_checks bytes.now section) flaw }
    ensures broken { (flaw : FlawValue) → IsFirstBroken (spec.frame_checks bytes.now section) flaw → Gives (λ v. record_views v.items) result (Err flaw) }
{
    read_section(alloc, bytes, head, object, section)
}

/// The unwind records of a section, if none of its checks is broken.
fn read_section(
    alloc: Global,
    bytes: &[u8],
    head: &Head,
    object: &Object,
    section: u32,
) -> Result<Vec<Record>, ReadFault>
    requires short { length bytes.now ≤ FILE_MAX }
    requires head { head_of bytes.now ≡ Ok (head_view head.now) }
    requires object { object_of bytes.now ≡ Ok (object_view object.now) }
    requires section { section < length head.now.sections.items }
    ensures { Gives (λ v. record_views v.items) result (spec.frames_of bytes.now section) }
{
    let header = section_at(head.sections.as_slice(), section as usize);
    let contents = contents_of(bytes, &header);
    let relocs = list_at(object.relocs.as_slice(), section as usize);
    let records = read_records(alloc, section, header.offset, contents, relocs)?;
    check_relocations(
        alloc,
        bytes,
        head,
        section,
        contents,
        relocs,
        records.as_slice(),
    )?;
    Ok(records)
}

/// A section of a table, by its number.
fn section_at(sections: &[Section], number: usize) -> Section
    requires { number < length sections.now }
    ensures { (d : SectionOf) → result ≡ slice_index_or sections.now number d }
{
    sections[number]
}

/// The relocations of a section, by its number.
fn list_at(lists: &[Vec<Reloc>], number: usize) -> &[Reloc]
    requires { number < length lists.now }
    ensures { result.now ≡ slice_index_or (map (λ list. list.items) lists.now) number [] }
{
    lists[number].as_slice()
}

/// The bytes of a section in its file; what lies past the file's end is left out.
fn contents_of<'a>(bytes: &'a [u8], section: &Section) -> &'a [u8]
    requires { length bytes.now ≤ FILE_MAX }
    ensures value { result.now ≡ read.contents_of bytes.now section.now }
    ensures within { length result.now ≤ length bytes.now }
    ensures place { section.now.offset + length result.now < 2 ^ 64 }
{
    let from = section.offset.min(bytes.len() as u64) as usize;
    let rest = &bytes[from..];
    let len = section.size.min(rest.len() as u64) as usize;
    &rest[..len]
}

/// The check of the relocations, once the records are read.
fn check_relocations(
    alloc: Global,
    bytes: &[u8],
    head: &Head,
    section: u32,
    contents: &[u8],
    relocs: &[Reloc],
    records: &[Record],
) -> Result<(), ReadFault>
    requires short { length bytes.now ≤ FILE_MAX }
    requires head { head_of bytes.now ≡ Ok (head_view head.now) }
    requires relocs { relocs.now ≡ relocs_for bytes.now section }
    requires records { record_views records.now ≡ records_of contents.now relocs.now }
    requires ordered { IsNonDecreasingBy (λ (r : RecordOf). r.from) records.now }
    ensures { Follows result (spec.stray_checks bytes.now contents.now (rela_in bytes.now section)) }
{
    let Some(number) = first_stray(contents, relocs, records) else {
        return Ok(());
    };
    let Some(rela) = rela_of(head.sections.as_slice(), section) else {
        return Ok(());
    };
    let header = section_at(head.sections.as_slice(), rela as usize);
    let place = entry_place(alloc, bytes, rela, &header, number)?;
    Err(ReadFault::Bad(flaw(rela, place)))
}

/// The first relocation section of a section.
fn rela_of(sections: &[Section], section: u32) -> Option<u32>
    requires { length sections.now ≤ 2 ^ 28 }
    ensures { result ≡ find (spec.is_rela_for sections.now section) (range_with_len 0 (length sections.now)) }
{
    for rela in 0..sections.len() {
        if is_rela_for(sections, section, rela) {
            return Some(rela as u32);
        }
    }
    None
}

/// Whether a section of the table has the relocations of another.
fn is_rela_for(sections: &[Section], section: u32, rela: usize) -> bool
    requires { rela < length sections.now }
    ensures { result ≡ spec.is_rela_for sections.now section rela }
{
    if rela == 0 {
        return false;
    }
    is_rela(&section_at(sections, rela), section)
}

/// Whether a section has the relocations of a section of this number.
fn is_rela(rela: &Section, section: u32) -> bool
    ensures { result ≡ (rela.now.sh_type == SHT_RELA && rela.now.info == section) }
{
    rela.sh_type == SHT_RELA && rela.info == section
}

/// An entry of a relocation section: the offset of its place, and its number in the file.
#[derive(Clone, Copy)]
struct Entry {
    offset: u64,
    number: usize,
}

/// The file offset of an entry of a relocation section, by its number in stable order of offset.
fn entry_place(
    alloc: Global,
    bytes: &[u8],
    index: u32,
    rela: &Section,
    number: usize,
) -> Result<u64, AllocError>
    requires rela { rela.now ≡ read.section_of bytes.now index }
    requires within { rela.now.offset + rela.now.size ≤ length bytes.now }
    requires number { number < length (in_order bytes.now index) }
    requires short { length bytes.now ≤ FILE_MAX }
    ensures { IfOk result (λ place. place ≡ rela_place bytes.now index (slice_index (in_order bytes.now index) number)) }
{
    let entries = entries_in_order(alloc, bytes, index, rela)?;
    let entry = number_at(entries.as_slice(), number);
    Ok(rela.offset + RELA_SIZE * entry as u64)
}

/// The number of an entry in the file, by its place in a list.
fn number_at(entries: &[Entry], place: usize) -> usize
    requires { place < length entries.now }
    ensures { (d : EntryOf) → result ≡ (slice_index_or entries.now place d).number }
{
    entries[place].number
}

/// The entries of a relocation section, in stable order of offset.
fn entries_in_order(
    alloc: Global,
    bytes: &[u8],
    index: u32,
    rela: &Section,
) -> Result<Vec<Entry>, AllocError>
    requires rela { rela.now ≡ read.section_of bytes.now index }
    requires within { rela.now.offset + rela.now.size ≤ length bytes.now }
    requires short { length bytes.now ≤ FILE_MAX }
    ensures { IfOk result (λ entries. map (λ (e : EntryOf). e.number) entries.items ≡ in_order bytes.now index) }
{
    let mut entries = entries_of(alloc, bytes, index, rela)?;
    entries.sort_by_key(|entry| entry.offset)?;
    Ok(entries)
}

/// The entries of a relocation section, in file order.
fn entries_of(
    alloc: Global,
    bytes: &[u8],
    index: u32,
    rela: &Section,
) -> Result<Vec<Entry>, AllocError>
    requires rela { rela.now ≡ read.section_of bytes.now index }
    requires within { rela.now.offset + rela.now.size ≤ length bytes.now }
    requires short { length bytes.now ≤ FILE_MAX }
    ensures { IfOk result (λ entries. entries.items ≡ map (spec.entry_at bytes.now index) (range_with_len 0 (rela_count bytes.now index))) }
{
    let count = rela.size as usize / RELA_SIZE as usize;
    let mut entries = Vec::with_capacity(alloc, count)?;
    for number in 0..count {
        let offset = xword_at(bytes, rela.offset as usize + RELA_SIZE as usize * number);
        entries.push(Entry { offset, number })?;
    }
    Ok(entries)
}
