//! The entries of a relocation section (System V gABI, "Relocation"; RISC-V ELF psABI, "Relocations"). They are tested in file
//! order, and mostly stand in order of offset already; else they are sorted. Then the bytes of no call and of no alignment may meet
//! another entry's, and the two parts of a pair have to stand next to each other.

ghost use Rattle.std.specs.Prelude.{◌≡◌, ◌+◌, ◌-◌, ◌<◌, ◌≤◌, ◌^◌, ◌++◌, ◌||◌, ◌&&◌, not, find, is_some, length, map, slice_index_or, IfOk, IfSome, [], true, false};
ghost use Rattle.std.specs.List.{All, range_with_len};
ghost use Rattle.std.specs.List.Sorted.{IsNonDecreasingBy};
ghost use Rattle.lk_base.specs.Order.{stable_order};
ghost use Rattle.lk_tables.specs.Checks.{checked, passes, from_on, Follows};
ghost use Rattle.lk_base.specs.RelocKinds.{is_frame_kind, is_linked};
ghost use Rattle.lk_tables.specs.declared.objects.Reloc.{Reloc as RelocOf};
ghost use Rattle.lk_tables.specs.Files.{no_reloc};
ghost use Rattle.lk_tables.specs.Relocations as read;
ghost use Rattle.lk_tables.specs.Sections.{is_frame, section_of};
ghost use Rattle.elf_read.specs.Relocations as loops;

use crate::entries::reloc_at;
use crate::header::{ends_past, flaw};
use crate::sound_file::SoundFile;
use lk_base::abi::{R_RISCV_SET_ULEB128, R_RISCV_SUB_ULEB128, RELA_SIZE, SHT_NOBITS};
use lk_base::kinds::{BAD_RELOC, BAD_ULEB, RELOC_KIND};
use lk_base::relocations::{is_frame_kind, is_linked, is_lower, is_uleb, moves_bytes};
use lk_base::{Flaw, ReadFault};
use lk_tables::{Reloc, Section, contents_of, is_alignment, is_frame, place_width, uleb_len};
use std::alloc::{AllocError, Global};

/// A relocation with the number of its entry.
#[derive(Clone, Copy)]
struct Numbered {
    number: usize,
    reloc: Reloc,
}

/// The bytes that a relocation changes, from one offset of its section to another, and whether what stands after them may move.
#[derive(Clone, Copy)]
struct Extent {
    from: u64,
    end: u64,
    moves: bool,
}

/// The relocations of a sound relocation section, in stable order of offset.
#[tactic(auto, using(lk_tables::proofs::Passing::checked_append), unfolding(lk_tables::specs::Relocations::entries_checks))]
pub fn read_relocations(
    alloc: Global,
    file: &SoundFile,
    index: u32,
    rela: &Section,
    target: &Section,
) -> Result<Vec<Reloc>, ReadFault>
    requires rela { rela.now ≡ section_of file.now.bytes.now index }
    requires target { target.now ≡ read.relocated_section file.now.bytes.now index }
    requires within { rela.now.offset + rela.now.size ≤ length file.now.bytes.now }
    ensures checked { Follows result (read.entries_checks file.now.bytes.now index) }
    ensures list { IfOk result (λ relocs. relocs.items ≡ read.relocs_of file.now.bytes.now index) }
{
    let contents = contents_of(file.bytes, target);
    let framed = is_frame(file.bytes, target);
    let relocs = read_entries(alloc, file, index, rela, target, framed, contents)?;
    if rises(relocs.as_slice()) {
        check_rising(file, index, rela, contents, relocs.as_slice())?;
        check_rising_pairs(file, index, rela, relocs.as_slice())?;
        return Ok(relocs);
    }
    sort(alloc, file, index, rela, contents, relocs.as_slice())
}

/// Relocations that do not stand in order of offset in the file, in stable order of it.
#[tactic(auto, using(lk_tables::proofs::Passing::checked_append))]
fn sort(
    alloc: Global,
    file: &SoundFile,
    index: u32,
    rela: &Section,
    contents: &[u8],
    relocs: &[Reloc],
) -> Result<Vec<Reloc>, ReadFault>
    requires rela { rela.now ≡ section_of file.now.bytes.now index }
    requires within { rela.now.offset + rela.now.size ≤ length file.now.bytes.now }
    requires contents { contents.now ≡ read.target_bytes file.now.bytes.now index }
    requires relocs { relocs.now ≡ map (read.reloc file.now.bytes.now index) (range_with_len 0 (read.rela_count file.now.bytes.now index)) }
    requires ends { All (λ reloc. read.end_of contents.now reloc < 2 ^ 64) relocs.now }
    ensures checked { Follows result (read.overlap_checks file.now.bytes.now index [] (read.in_order file.now.bytes.now index) ++ read.pair_checks file.now.bytes.now index) }
    ensures list { IfOk result (λ relocs. relocs.items ≡ read.relocs_of file.now.bytes.now index) }
{
    let entries = in_order(alloc, relocs)?;
    let sorted = relocs_in(alloc, entries.as_slice())?;
    check_sorted(
        file,
        index,
        rela,
        contents,
        entries.as_slice(),
        sorted.as_slice(),
    )?;
    check_sorted_pairs(file, index, rela, entries.as_slice(), sorted.as_slice())?;
    Ok(sorted)
}

/// All relocations in file order, if each is sound; `framed` if they are those of unwind records.
fn read_entries(
    alloc: Global,
    file: &SoundFile,
    index: u32,
    rela: &Section,
    target: &Section,
    framed: bool,
    contents: &[u8],
) -> Result<Vec<Reloc>, ReadFault>
    requires rela { rela.now ≡ section_of file.now.bytes.now index }
    requires target { target.now ≡ read.relocated_section file.now.bytes.now index }
    requires framed { framed ≡ is_frame file.now.bytes.now target.now }
    requires contents { contents.now ≡ read.target_bytes file.now.bytes.now index }
    requires within { rela.now.offset + rela.now.size ≤ length file.now.bytes.now }
    ensures checked { Follows result (from_on (read.entry_checks file.now.bytes.now index) 0 (read.rela_count file.now.bytes.now index)) }
    ensures list { IfOk result (λ relocs. relocs.items ≡ map (read.reloc file.now.bytes.now index) (range_with_len 0 (read.rela_count file.now.bytes.now index))) }
    ensures ends { IfOk result (λ relocs. All (λ reloc. read.end_of contents.now reloc < 2 ^ 64) relocs.items) }
{
    let count = rela.size as usize / RELA_SIZE as usize;
    let mut relocs = Vec::with_capacity(alloc, count)?;
    for entry in 0..count {
        relocs.push(read_entry(file, index, rela, target, framed, contents, entry)?)?;
    }
    Ok(relocs)
}

/// The relocation of entry `entry` of the relocation section `index`, if it is sound.
#[tactic(auto, unfolding(lk_tables::specs::Relocations::entry_checks, lk_tables::specs::Relocations::is_bad_kind))]
fn read_entry(
    file: &SoundFile,
    index: u32,
    rela: &Section,
    target: &Section,
    framed: bool,
    contents: &[u8],
    entry: usize,
) -> Result<Reloc, Flaw>
    requires rela { rela.now ≡ section_of file.now.bytes.now index }
    requires target { target.now ≡ read.relocated_section file.now.bytes.now index }
    requires framed { framed ≡ is_frame file.now.bytes.now target.now }
    requires contents { contents.now ≡ read.target_bytes file.now.bytes.now index }
    requires within { rela.now.offset + rela.now.size ≤ length file.now.bytes.now }
    requires entry { entry < read.rela_count file.now.bytes.now index }
    ensures reloc { result ≡ checked (read.entry_checks file.now.bytes.now index entry) (read.reloc file.now.bytes.now index entry) }
    ensures end { IfOk result (λ reloc. read.end_of contents.now reloc < 2 ^ 64) }
{
    let place = rela.offset as usize + RELA_SIZE as usize * entry;
    let reloc = reloc_at(file.bytes, place);
    if file.symbols.len() <= reloc.symbol as usize {
        return Err(flaw(BAD_RELOC, index, place));
    }
    if is_bad_kind(framed, reloc.kind) {
        return Err(Flaw {
            kind: RELOC_KIND,
            section: index,
            place: place as u64,
            other: reloc.kind as u64,
        });
    }
    if is_past_target(target, &reloc) {
        return Err(flaw(BAD_RELOC, index, place));
    }
    if !has_end(contents, &reloc) {
        return Err(flaw(BAD_ULEB, index, place));
    }
    if is_bad_addend(&reloc) {
        return Err(flaw(BAD_RELOC, index, place));
    }
    Ok(reloc)
}

/// Whether a kind is not linked, or not in unwind records.
fn is_bad_kind(framed: bool, kind: u32) -> bool
    ensures value { result ≡ (not (is_linked kind) || (framed && not (is_frame_kind kind))) }
    ensures linked { result ≡ false → is_linked kind ≡ true }
{
    !is_linked(kind) || (framed && !is_frame_kind(kind))
}

/// How many bytes a relocation changes, if its kind is linked.
#[tactic(auto, unfolding(lk_tables::specs::Relocations::linked_width))]
fn linked_width(reloc: &Reloc) -> Option<u64>
    ensures { result ≡ read.linked_width reloc.now }
{
    if !is_linked(reloc.kind) {
        return None;
    }
    Some(place_width(reloc))
}

/// How many bytes a relocation changes in a section of these contents, if its kind is linked: a ULEB128 number is as long as its bytes say.
#[tactic(auto, unfolding(lk_tables::specs::Relocations::width_of))]
fn width_of(contents: &[u8], reloc: &Reloc) -> Option<u64>
    ensures { result ≡ read.width_of contents.now reloc.now }
{
    if is_uleb(reloc.kind) {
        return uleb_len(contents, reloc.offset);
    }
    linked_width(reloc)
}

/// Whether the place of a relocation of a kind that is linked has an end: a ULEB128 number may go on past the contents, or have more than ten
/// bytes.
#[tactic(auto, unfolding(lk_tables::specs::Relocations::width_of, lk_tables::specs::Relocations::linked_width))]
fn has_end(contents: &[u8], reloc: &Reloc) -> bool
    requires { is_linked reloc.now.kind ≡ true }
    ensures { result ≡ is_some (read.width_of contents.now reloc.now) }
{
    if !is_uleb(reloc.kind) {
        return true;
    }
    uleb_len(contents, reloc.offset).is_some()
}

/// Whether a relocation's bytes, of a ULEB128 number the first one, end past its section, or the section has none in the file.
#[tactic(auto, unfolding(lk_tables::specs::Relocations::is_past_target))]
fn is_past_target(target: &Section, reloc: &Reloc) -> bool
    ensures value { result ≡ read.is_past_target target.now reloc.now }
    ensures fits { result ≡ false → reloc.now.offset + read.place_width reloc.now ≤ target.now.size }
    ensures small { result ≡ false → target.now.size < 2 ^ 64 }
{
    target.sh_type == SHT_NOBITS || ends_past(target.size, reloc.offset, place_width(reloc))
}

/// Whether an alignment has no even number of bytes, or a relocation that takes its value from another an addend of its own.
#[tactic(auto, unfolding(lk_tables::specs::Relocations::is_bad_addend))]
fn is_bad_addend(reloc: &Reloc) -> bool
    ensures { result ≡ read.is_bad_addend reloc.now }
{
    (is_alignment(reloc) && is_bad_padding(reloc.addend))
        || (reloc.addend != 0 && is_lower(reloc.kind))
}

/// Whether nops have fewer bytes than none, or half a nop.
#[tactic(auto, unfolding(lk_tables::specs::Relocations::is_bad_padding))]
fn is_bad_padding(addend: i64) -> bool
    ensures { result ≡ read.is_bad_padding addend }
{
    addend < 0 || addend.unsigned_abs() % 2 != 0
}

/// Whether relocations stand in order of offset.
fn rises(relocs: &[Reloc]) -> bool
    ensures { result ≡ true → IsNonDecreasingBy (λ (r : RelocOf). r.offset) relocs.now }
{
    relocs.is_sorted_by(|reloc, next| reloc.offset <= next.offset)
}

/// The checks of relocations that stand in order of offset in the file: none meets an earlier one.
fn check_rising(
    file: &SoundFile,
    index: u32,
    rela: &Section,
    contents: &[u8],
    relocs: &[Reloc],
) -> Result<(), Flaw>
    requires rela { rela.now ≡ section_of file.now.bytes.now index }
    requires within { rela.now.offset + rela.now.size ≤ length file.now.bytes.now }
    requires contents { contents.now ≡ read.target_bytes file.now.bytes.now index }
    requires relocs { relocs.now ≡ map (read.reloc file.now.bytes.now index) (range_with_len 0 (read.rela_count file.now.bytes.now index)) }
    requires rising { IsNonDecreasingBy (λ (r : RelocOf). r.offset) relocs.now }
    requires ends { All (λ reloc. read.end_of contents.now reloc < 2 ^ 64) relocs.now }
    ensures { result ≡ passes (read.overlap_checks file.now.bytes.now index [] (read.in_order file.now.bytes.now index)) }
{
    let Some(number) = first_overlap(contents, relocs) else {
        return Ok(());
    };
    let place = rela.offset as usize + RELA_SIZE as usize * number;
    Err(flaw(BAD_RELOC, index, place))
}

/// The checks of relocations that stand in another order in the file than that of offset, in which they are given.
fn check_sorted(
    file: &SoundFile,
    index: u32,
    rela: &Section,
    contents: &[u8],
    entries: &[Numbered],
    relocs: &[Reloc],
) -> Result<(), Flaw>
    requires rela { rela.now ≡ section_of file.now.bytes.now index }
    requires within { rela.now.offset + rela.now.size ≤ length file.now.bytes.now }
    requires contents { contents.now ≡ read.target_bytes file.now.bytes.now index }
    requires entries { entries.now ≡ map (loops.numbered file.now.bytes.now index) (read.in_order file.now.bytes.now index) }
    requires relocs { relocs.now ≡ read.relocs_of file.now.bytes.now index }
    requires ends { All (λ reloc. read.end_of contents.now reloc < 2 ^ 64) relocs.now }
    ensures { result ≡ passes (read.overlap_checks file.now.bytes.now index [] (read.in_order file.now.bytes.now index)) }
{
    let Some(at) = first_overlap(contents, relocs) else {
        return Ok(());
    };
    let place = rela.offset as usize + RELA_SIZE as usize * entries[at].number;
    Err(flaw(BAD_RELOC, index, place))
}

/// The checks of pairs among relocations that stand in order of offset in the file.
fn check_rising_pairs(
    file: &SoundFile,
    index: u32,
    rela: &Section,
    relocs: &[Reloc],
) -> Result<(), Flaw>
    requires rela { rela.now ≡ section_of file.now.bytes.now index }
    requires within { rela.now.offset + rela.now.size ≤ length file.now.bytes.now }
    requires relocs { relocs.now ≡ map (read.reloc file.now.bytes.now index) (range_with_len 0 (read.rela_count file.now.bytes.now index)) }
    requires rising { IsNonDecreasingBy (λ (r : RelocOf). r.offset) relocs.now }
    ensures { result ≡ passes (read.pair_checks file.now.bytes.now index) }
{
    let Some(number) = first_unpaired(relocs) else {
        return Ok(());
    };
    let place = rela.offset as usize + RELA_SIZE as usize * number;
    Err(flaw(BAD_ULEB, index, place))
}

/// The checks of pairs among relocations that stand in another order in the file than that of offset, in which they are given.
fn check_sorted_pairs(
    file: &SoundFile,
    index: u32,
    rela: &Section,
    entries: &[Numbered],
    relocs: &[Reloc],
) -> Result<(), Flaw>
    requires rela { rela.now ≡ section_of file.now.bytes.now index }
    requires within { rela.now.offset + rela.now.size ≤ length file.now.bytes.now }
    requires entries { entries.now ≡ map (loops.numbered file.now.bytes.now index) (read.in_order file.now.bytes.now index) }
    requires relocs { relocs.now ≡ read.relocs_of file.now.bytes.now index }
    ensures { result ≡ passes (read.pair_checks file.now.bytes.now index) }
{
    let Some(at) = first_unpaired(relocs) else {
        return Ok(());
    };
    let place = rela.offset as usize + RELA_SIZE as usize * entries[at].number;
    Err(flaw(BAD_ULEB, index, place))
}

/// Which of some relocations in order of offset is the first whose bytes meet those of an earlier one, if one of the two may move
/// what stands after it.
fn first_overlap(contents: &[u8], relocs: &[Reloc]) -> Option<usize>
    requires { All (λ reloc. read.end_of contents.now reloc < 2 ^ 64) relocs.now }
    ensures value { result ≡ loops.first_met 0 0 0 (map (loops.extent_of contents.now) relocs.now) }
    ensures within { IfSome result (λ at. at < length relocs.now) }
{
    let mut moving_end = 0;
    let mut end = 0;
    for at in 0..relocs.len() {
        let extent = extent_of(contents, &relocs[at]);
        if is_met(extent, moving_end, end) {
            return Some(at);
        }
        moving_end = later_moving_end(moving_end, extent);
        end = later_end(end, extent);
    }
    None
}

/// The bytes that a relocation changes.
fn extent_of(contents: &[u8], reloc: &Reloc) -> Extent
    requires { read.end_of contents.now reloc.now < 2 ^ 64 }
    ensures { result ≡ loops.extent_of contents.now reloc.now }
{
    Extent {
        from: reloc.offset,
        end: reloc.offset + width_of(contents, reloc).unwrap_or(0),
        moves: moves_bytes(reloc.kind),
    }
}

/// Which of some relocations in order of offset is the first of a pair that the other part is not next to.
fn first_unpaired(relocs: &[Reloc]) -> Option<usize>
    ensures value { result ≡ find (read.is_unpaired relocs.now) (range_with_len 0 (length relocs.now)) }
    ensures within { IfSome result (λ k. k < length relocs.now) }
{
    for k in 0..relocs.len() {
        if is_unpaired(relocs, k) {
            return Some(k);
        }
    }
    None
}

/// Whether the relocation at a place is of a pair, and the other part is not next to it.
#[tactic(auto, unfolding(lk_tables::specs::Relocations::is_unpaired))]
fn is_unpaired(relocs: &[Reloc], k: usize) -> bool
    requires { k < length relocs.now }
    ensures { result ≡ read.is_unpaired relocs.now k }
{
    is_uleb(relocs[k].kind) && !is_paired(relocs, k)
}

/// Whether the relocation at a place and one next to it are a pair.
fn is_paired(relocs: &[Reloc], k: usize) -> bool
    requires { k < length relocs.now }
    ensures { result ≡ (read.is_pair (slice_index_or relocs.now k no_reloc) (slice_index_or relocs.now (k + 1) no_reloc) || read.is_pair (slice_index_or relocs.now (k - 1) no_reloc) (slice_index_or relocs.now k no_reloc)) }
{
    starts_pair(relocs, k) || ends_pair(relocs, k)
}

/// Whether the relocations at a place and after it are a pair.
fn starts_pair(relocs: &[Reloc], k: usize) -> bool
    requires { k < length relocs.now }
    ensures { result ≡ read.is_pair (slice_index_or relocs.now k no_reloc) (slice_index_or relocs.now (k + 1) no_reloc) }
{
    match relocs.get(k + 1) {
        Some(next) => is_pair(&relocs[k], next),
        None => false,
    }
}

/// Whether the relocations before a place and at it are a pair.
fn ends_pair(relocs: &[Reloc], k: usize) -> bool
    requires { k < length relocs.now }
    ensures { result ≡ read.is_pair (slice_index_or relocs.now (k - 1) no_reloc) (slice_index_or relocs.now k no_reloc) }
{
    is_pair(&relocs[k.saturating_sub(1)], &relocs[k])
}

/// Whether two relocations are the two parts of a pair, at one offset.
#[tactic(auto, unfolding(lk_tables::specs::Relocations::is_pair))]
fn is_pair(first: &Reloc, second: &Reloc) -> bool
    ensures { result ≡ read.is_pair first.now second.now }
{
    first.kind == R_RISCV_SET_ULEB128
        && second.kind == R_RISCV_SUB_ULEB128
        && first.offset == second.offset
}

/// Whether bytes start before the end of earlier ones after which bytes may move, or are such and start before that of any.
#[tactic(auto, unfolding(crate::specs::Relocations::is_met))]
fn is_met(extent: Extent, moving_end: u64, end: u64) -> bool
    ensures { result ≡ loops.is_met extent moving_end end }
{
    extent.from < extent.end && (extent.from < moving_end || (extent.moves && extent.from < end))
}

/// The furthest end of bytes after which bytes may move, one relocation on.
#[tactic(auto, unfolding(crate::specs::Relocations::later_moving_end))]
fn later_moving_end(end: u64, extent: Extent) -> u64
    ensures { result ≡ loops.later_moving_end end extent }
{
    if extent.from < extent.end && extent.moves && end < extent.end {
        extent.end
    } else {
        end
    }
}

/// The furthest end of bytes, one relocation on.
#[tactic(auto, unfolding(crate::specs::Relocations::later_end))]
fn later_end(end: u64, extent: Extent) -> u64
    ensures { result ≡ loops.later_end end extent }
{
    if extent.from < extent.end && end < extent.end {
        extent.end
    } else {
        end
    }
}

/// Relocations with their numbers, in stable order of offset.
fn in_order(alloc: Global, relocs: &[Reloc]) -> Result<Vec<Numbered>, AllocError>
    ensures { IfOk result (λ entries. entries.items ≡ stable_order loops.offset_of (loops.all_numbered relocs.now)) }
{
    let mut entries = number(alloc, relocs)?;
    entries.sort_by_key(|entry| entry.reloc.offset)?;
    Ok(entries)
}

/// Relocations with their numbers.
fn number(alloc: Global, relocs: &[Reloc]) -> Result<Vec<Numbered>, AllocError>
    ensures { IfOk result (λ entries. entries.items ≡ loops.all_numbered relocs.now) }
{
    let mut entries = Vec::with_capacity(alloc, relocs.len())?;
    for number in 0..relocs.len() {
        entries.push(Numbered {
            number,
            reloc: relocs[number],
        })?;
    }
    Ok(entries)
}

/// The relocations of entries.
fn relocs_in(alloc: Global, entries: &[Numbered]) -> Result<Vec<Reloc>, AllocError>
    ensures { IfOk result (λ relocs. relocs.items ≡ map (λ entry. entry.reloc) entries.now) }
{
    entries.iter().map(|entry| entry.reloc).collect(alloc)
}
