//! One unwind record after the earlier ones of its section, and all.

ghost use Rattle.std.specs.Prelude.{◌≡◌, ℕ, ◌+◌, ◌^◌, ◌<◌, ◌≤◌, not, Some, None, if◌then◌else◌, length, slice_index_or, is_some, IfOk, IfSome};
ghost use Rattle.std.specs.List.{All};
ghost use Rattle.std.specs.List.Sorted.{IsNonDecreasingBy};
ghost use Rattle.lk_base.specs.declared.abi.TheConstants.{FILE_MAX};
ghost use Rattle.lk_base.specs.declared.kinds.TheConstants.{BAD_FRAME};
ghost use Rattle.lk_tables.specs.Checks.{checked, flaw_at, from_on, Gives};
ghost use Rattle.lk_tables.specs.declared.objects.Reloc.{Reloc as RelocOf};
ghost use Rattle.lk_tables.specs.declared.records.Record.{Record as RecordOf};
ghost use Rattle.lk_tables.specs.Records as spec;
ghost use Rattle.eh_frame.specs.RecordChecks as checks;
ghost use Rattle.lk_tables.specs.RecordViews.{record_view, record_views};

use crate::format::{EXTENDED_LENGTH, FDE_LEN_MIN, LENGTH_SIZE, PC_BEGIN_AT, RECORD_LEN_MIN};
use crate::parts::{records_before, relocs_in};
use lk_base::abi::R_RISCV_32_PCREL;
use lk_base::kinds::BAD_FRAME;
use lk_base::{Flaw, ReadFault};
use lk_tables::{Record, Reloc, place_width, word_at};
use std::alloc::{AllocError, Global};

/// Whether a record starts at an offset: neither does the section end there, nor stands there a Length of 0.
#[tactic(auto, unfolding(lk_tables::specs::Records::is_there))]
fn is_there(bytes: &[u8], at: usize) -> bool
    requires { at ≤ length bytes.now }
    ensures { result ≡ spec.is_there bytes.now at }
{
    at < bytes.len() && !(at + 4 <= bytes.len() && word_at(bytes, at) == 0)
}

/// Whether the Length at an offset is cut off, is that of a record of the extended form, has no room for a CIE ID, or leads past the section.
#[tactic(auto, unfolding(crate::specs::RecordChecks::is_bad_length))]
fn is_bad_length(bytes: &[u8], at: usize) -> bool
    requires { at ≤ length bytes.now }
    ensures { result ≡ checks.is_bad_length bytes.now at }
{
    if bytes.len() < at + 4 {
        return true;
    }
    let len = word_at(bytes, at);
    len == EXTENDED_LENGTH || (len < RECORD_LEN_MIN || bytes.len() < at + 4 + len as usize)
}

/// The Length of the record at an offset, if it is a whole record of the plain form.
fn length_at(bytes: &[u8], at: usize) -> Option<u32>
    requires { at ≤ length bytes.now }
    ensures value { result ≡ (if checks.is_bad_length bytes.now at then None else Some (spec.len_at bytes.now at)) }
    ensures least { IfSome result (λ len. 4 ≤ len) }
    ensures whole { IfSome result (λ len. at + 4 + len ≤ length bytes.now) }
{
    if is_bad_length(bytes, at) {
        return None;
    }
    Some(word_at(bytes, at))
}

/// Whether the record at an offset is a CIE.
fn is_cie(bytes: &[u8], at: usize) -> bool
    requires { at + 8 ≤ length bytes.now }
    ensures { result ≡ spec.is_cie bytes.now at }
{
    word_at(bytes, at + 4) == 0
}

/// Where a record starts, of a list by number.
fn start_of(records: &[Record], number: usize) -> u64
    requires { number < length records.now }
    ensures { (d : RecordOf) → result ≡ (slice_index_or records.now number d).from }
{
    records[number].from
}

/// The CIE to which the CIE Pointer of the record at an offset leads, after the earlier records.
fn cie_before(bytes: &[u8], relocs: &[Reloc], earlier: &[Record], at: usize) -> Option<u32>
    requires here { at ≡ spec.start_of bytes.now (length earlier.now) }
    requires whole { at + 8 ≤ length bytes.now }
    requires earlier { record_views earlier.now ≡ spec.first_records bytes.now relocs.now (length earlier.now) }
    requires short { length bytes.now ≤ FILE_MAX }
    requires few { length earlier.now < 2 ^ 32 }
    requires inside { All (λ (r : RecordOf). r.from + 8 ≤ length bytes.now) earlier.now }
    ensures { result ≡ spec.cie_before bytes.now (length earlier.now) }
{
    let id = word_at(bytes, at + 4) as u64;
    let end = at as u64 + 4;
    if end < id {
        return None;
    }
    let target = end - id;
    let number = records_before(earlier, target);
    if number == earlier.len() {
        return None;
    }
    let start = start_of(earlier, number);
    if start != target {
        return None;
    }
    if !is_cie(bytes, start as usize) {
        return None;
    }
    Some(number as u32)
}

/// Whether a relocation has bytes.
pub fn has_width(reloc: &Reloc) -> bool
    ensures { result ≡ spec.has_width reloc.now }
{
    0 < place_width(reloc)
}

/// The first relocation that has bytes.
#[tactic(auto, unfolding(lk_tables::specs::Records::first_of))]
pub fn first_of(relocs: &[Reloc]) -> Option<Reloc>
    ensures { result ≡ spec.first_of relocs.now }
{
    for reloc in relocs {
        if has_width(reloc) {
            return Some(*reloc);
        }
    }
    None
}

/// Whether the relocations of the FDE at an offset have no bytes, or begin with that of its PC Begin.
fn begins_well(relocs: &[Reloc], from: u64) -> bool
    requires { from + PC_BEGIN_AT < 2 ^ 64 }
    ensures { result ≡ checks.is_pc_begin from (spec.first_of relocs.now) }
{
    match first_of(relocs) {
        Some(first) => first.kind == R_RISCV_32_PCREL && first.offset == from + PC_BEGIN_AT,
        None => true,
    }
}

/// The CIE of the FDE at an offset after the earlier records, if it is sound: it has relocations, and its Length.
fn cie_of_fde(
    bytes: &[u8],
    relocs: &[Reloc],
    earlier: &[Record],
    at: usize,
    len: u32,
    own: &[Reloc],
) -> Option<u32>
    requires here { at ≡ spec.start_of bytes.now (length earlier.now) }
    requires whole { at + 8 ≤ length bytes.now }
    requires len { len ≡ spec.len_at bytes.now at }
    requires own { own.now ≡ spec.relocs_in relocs.now at (spec.end_at bytes.now at) }
    requires earlier { record_views earlier.now ≡ spec.first_records bytes.now relocs.now (length earlier.now) }
    requires short { length bytes.now ≤ FILE_MAX }
    requires few { length earlier.now < 2 ^ 32 }
    requires inside { All (λ (r : RecordOf). r.from + 8 ≤ length bytes.now) earlier.now }
    ensures { result ≡ (if checks.is_bad_fde bytes.now relocs.now (length earlier.now) then None else spec.cie_before bytes.now (length earlier.now)) }
{
    if len < FDE_LEN_MIN {
        return None;
    }
    if !begins_well(own, at as u64) {
        return None;
    }
    cie_before(bytes, relocs, earlier, at)
}

/// A record.
fn new_record(at: usize, len: u32, cie: Option<u32>, relocs: Vec<Reloc>) -> Record
    ensures view { record_view result ≡ record { from = at; len = len; cie = cie; relocs = relocs.items } }
    ensures from { result.from ≡ at }
    ensures len { result.len ≡ len }
{
    Record {
        from: at as u64,
        len: len as u64,
        cie,
        relocs,
    }
}

/// The record at an offset after the earlier ones of its section, if it is sound.
fn read_record(
    alloc: Global,
    bytes: &[u8],
    relocs: &[Reloc],
    earlier: &[Record],
    at: usize,
) -> Result<Option<Record>, AllocError>
    requires here { at ≡ spec.start_of bytes.now (length earlier.now) }
    requires start { at ≤ length bytes.now }
    requires ordered { IsNonDecreasingBy (λ (r : RelocOf). r.offset) relocs.now }
    requires earlier { record_views earlier.now ≡ spec.first_records bytes.now relocs.now (length earlier.now) }
    requires short { length bytes.now ≤ FILE_MAX }
    requires few { length earlier.now < 2 ^ 32 }
    requires inside { All (λ (r : RecordOf). r.from + 8 ≤ length bytes.now) earlier.now }
    ensures sound { IfOk result (λ r. is_some r ≡ not (checks.is_bad_record bytes.now relocs.now (length earlier.now))) }
    ensures value { IfOk result (λ r. IfSome r (λ x. record_view x ≡ spec.record_of bytes.now relocs.now (length earlier.now))) }
    ensures end { IfOk result (λ r. IfSome r (λ x. x.from + 4 + x.len ≤ length bytes.now)) }
    ensures least { IfOk result (λ r. IfSome r (λ x. 4 ≤ x.len)) }
{
    let Some(len) = length_at(bytes, at) else {
        return Ok(None);
    };
    let end = at as u64 + LENGTH_SIZE + len as u64;
    let own = relocs_in(alloc, relocs, at as u64, end)?;
    if is_cie(bytes, at) {
        return Ok(Some(new_record(at, len, None, own)));
    }
    let Some(cie) = cie_of_fde(bytes, relocs, earlier, at, len, own.as_slice()) else {
        return Ok(None);
    };
    Ok(Some(new_record(at, len, Some(cie), own)))
}

/// The records of a section of these bytes, which stands at an offset of its file, with its relocations in stable order of offset; or the
/// first of its records that is broken.
pub fn read_records(
    alloc: Global,
    section: u32,
    offset: u64,
    bytes: &[u8],
    relocs: &[Reloc],
) -> Result<Vec<Record>, ReadFault>
    requires ordered { IsNonDecreasingBy (λ (r : RelocOf). r.offset) relocs.now }
    requires short { length bytes.now ≤ FILE_MAX }
    requires place { offset + length bytes.now < 2 ^ 64 }
    ensures exact { Gives (λ v. record_views v.items) result (checked (from_on (checks.record_checks section offset bytes.now relocs.now) 0 (spec.count bytes.now)) (spec.records_of bytes.now relocs.now)) }
{
    let mut records = Vec::new(alloc);
    let mut at = 0;
    'walk: while is_there(bytes, at) {
        let found = read_record(alloc, bytes, relocs, records.as_slice(), at)?;
        let Some(record) = found else {
            return Err(ReadFault::Bad(flaw(section, offset + at as u64)));
        };
        at += 4 + record.len as usize;
        records.push(record)?;
    }
    Ok(records)
}

/// A broken record, or a relocation that lies in none.
pub fn flaw(section: u32, place: u64) -> Flaw
    ensures { result ≡ flaw_at BAD_FRAME section place }
{
    Flaw {
        kind: BAD_FRAME,
        section,
        place,
        other: 0,
    }
}
