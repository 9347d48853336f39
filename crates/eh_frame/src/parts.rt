//! Parts of lists that stand in order.

ghost use Rattle.std.specs.Prelude.{◌≡◌, ◌-◌, ◌<◌, ◌≤◌, ℕ, take, drop, length, slice_index_or, IfOk};
ghost use Rattle.std.specs.List.Sorted.{IsNonDecreasingBy};
ghost use Rattle.lk_tables.specs.declared.objects.Reloc.{Reloc as RelocOf};
ghost use Rattle.lk_tables.specs.declared.records.Record.{Record as RecordOf};
ghost use Rattle.lk_tables.specs.Records as spec;

use lk_tables::{Record, Reloc, relocs_before};
use std::alloc::{AllocError, Global};

/// How many records start before an offset, of records in order.
pub fn records_before(records: &[Record], offset: u64) -> usize
    requires { IsNonDecreasingBy (λ (r : RecordOf). r.from) records.now }
    ensures bound { result ≤ length records.now }
    ensures before { (k : ℕ) (d : RecordOf) → k < result → (slice_index_or records.now k d).from < offset }
    ensures next { (k : ℕ) (d : RecordOf) → result ≤ k → k < length records.now → offset ≤ (slice_index_or records.now k d).from }
{
    records.partition_point(|unwind_record| unwind_record.from < offset)
}

/// The relocations whose offsets lie in so many bytes, of relocations in order of offset.
pub fn relocs_in(
    alloc: Global,
    relocs: &[Reloc],
    from: u64,
    end: u64,
) -> Result<Vec<Reloc>, AllocError>
    requires ordered { IsNonDecreasingBy (λ (r : RelocOf). r.offset) relocs.now }
    requires forward { from ≤ end }
    ensures { IfOk result (λ list. list.items ≡ spec.relocs_in relocs.now from end) }
{
    let start = relocs_before(relocs, from);
    let stop = relocs_before(relocs, end);
    part(alloc, relocs, start, stop)
}

/// So many elements of a list, from one number to another.
fn part(
    alloc: Global,
    relocs: &[Reloc],
    start: usize,
    stop: usize,
) -> Result<Vec<Reloc>, AllocError>
    requires order { start ≤ stop }
    requires end { stop ≤ length relocs.now }
    ensures { IfOk result (λ list. list.items ≡ take (stop - start) (drop start relocs.now)) }
{
    relocs[start..stop].to_vec(alloc)
}
