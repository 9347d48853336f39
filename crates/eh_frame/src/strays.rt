//! Relocations that have bytes which lie in no record.

ghost use Rattle.std.specs.Prelude.{◌≡◌, ◌<◌, ◌≤◌, true, length, find, slice_index_or, IfSome};
ghost use Rattle.std.specs.List.{list_any, range_with_len};
ghost use Rattle.std.specs.List.Sorted.{IsNonDecreasingBy};
ghost use Rattle.lk_tables.specs.Files.{no_reloc};
ghost use Rattle.lk_tables.specs.declared.records.Record.{Record as RecordOf};
ghost use Rattle.lk_tables.specs.Records as spec;
ghost use Rattle.eh_frame.specs.RecordChecks as checks;
ghost use Rattle.lk_tables.specs.RecordViews.{record_views};

use crate::parts::records_before;
use crate::reading::has_width;
use lk_tables::{Record, Reloc, place_width};

/// The first of some relocations that has bytes which lie in none of a section's records, by its number.
pub fn first_stray(bytes: &[u8], relocs: &[Reloc], records: &[Record]) -> Option<usize>
    requires records { record_views records.now ≡ spec.records_of bytes.now relocs.now }
    requires ordered { IsNonDecreasingBy (λ (r : RecordOf). r.from) records.now }
    ensures value { result ≡ find (λ k. checks.is_stray bytes.now (slice_index_or relocs.now k no_reloc)) (range_with_len 0 (length relocs.now)) }
    ensures within { IfSome result (λ number. number < length relocs.now) }
{
    let mut near = 0;
    for number in 0..relocs.len() {
        near = near_to(records, near, &relocs[number]);
        if is_stray(bytes, relocs, records, near, &relocs[number]) {
            return Some(number);
        }
    }
    None
}

/// The record after one, if it starts before a relocation or at it, and else that one: relocations in order are looked for in one record after
/// another.
fn near_to(records: &[Record], near: usize, reloc: &Reloc) -> usize {
    let next = near.saturating_add(1);
    match records.get(next) {
        Some(record) => {
            if record.from <= reloc.offset {
                next
            } else {
                near
            }
        }
        None => near,
    }
}

/// Whether a relocation has bytes which lie in none of a section's records; the one at a place is tried first.
fn is_stray(bytes: &[u8], relocs: &[Reloc], records: &[Record], near: usize, reloc: &Reloc) -> bool
    requires records { record_views records.now ≡ spec.records_of bytes.now relocs.now }
    requires ordered { IsNonDecreasingBy (λ (r : RecordOf). r.from) records.now }
    ensures { result ≡ checks.is_stray bytes.now reloc.now }
{
    if !has_width(reloc) {
        return false;
    }
    !lies_in_one(records, near, reloc)
}

/// Whether a relocation's bytes lie in one of some records in order: in the one at a place, which is tried first, or in the last one that starts
/// before them.
fn lies_in_one(records: &[Record], near: usize, reloc: &Reloc) -> bool
    requires { IsNonDecreasingBy (λ (r : RecordOf). r.from) records.now }
    ensures { result ≡ list_any (λ (r : RecordOf). checks.lies_in reloc.now r.from r.len) records.now }
{
    if lies_in_near(records, near, reloc) {
        return true;
    }
    let number = records_before(records, reloc.offset);
    if lies_in_last(records, number, reloc) {
        return true;
    }
    lies_in_any(records, reloc)
}

/// Whether a relocation's bytes lie in the record at a place.
fn lies_in_near(records: &[Record], near: usize, reloc: &Reloc) -> bool
    ensures { result ≡ true → list_any (λ (r : RecordOf). checks.lies_in reloc.now r.from r.len) records.now ≡ true }
{
    if records.len() <= near {
        return false;
    }
    lies_in(&records[near], reloc)
}

/// Whether a relocation's bytes lie in the last of so many first records.
fn lies_in_last(records: &[Record], number: usize, reloc: &Reloc) -> bool
    requires { number ≤ length records.now }
    ensures { result ≡ true → list_any (λ (r : RecordOf). checks.lies_in reloc.now r.from r.len) records.now ≡ true }
{
    if number == 0 {
        return false;
    }
    lies_in(&records[number - 1], reloc)
}

/// Whether a relocation's bytes lie in a record, by a look at all: no record has the bytes of a relocation that is looked for here, so that it is the
/// last one.
fn lies_in_any(records: &[Record], reloc: &Reloc) -> bool
    ensures { result ≡ list_any (λ (r : RecordOf). checks.lies_in reloc.now r.from r.len) records.now }
{
    for frame in records {
        if lies_in(frame, reloc) {
            return true;
        }
    }
    false
}

/// Whether a relocation's bytes lie in a record, after its CIE ID or CIE Pointer.
fn lies_in(frame: &Record, reloc: &Reloc) -> bool
    ensures { result ≡ checks.lies_in reloc.now frame.now.from frame.now.len }
{
    let start = frame.from as u128 + 8;
    let end = frame.from as u128 + 4 + frame.len as u128;
    let last = reloc.offset as u128 + place_width(reloc) as u128;
    start <= reloc.offset as u128 && last <= end
}
