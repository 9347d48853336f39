//! Relocations in order of offset.

ghost use Rattle.std.specs.Prelude.{◌<◌, ◌≤◌, ℕ, length, slice_index_or};
ghost use Rattle.std.specs.List.Sorted.{IsNonDecreasingBy};
ghost use Rattle.lk_tables.specs.declared.objects.Reloc.{Reloc as RelocOf};

use crate::objects::Reloc;

/// How many relocations stand before an offset, of relocations in order of offset.
pub fn relocs_before(relocs: &[Reloc], offset: u64) -> usize
    requires { IsNonDecreasingBy (λ (r : RelocOf). r.offset) relocs.now }
    ensures bound { result ≤ length relocs.now }
    ensures before { (k : ℕ) (d : RelocOf) → k < result → (slice_index_or relocs.now k d).offset < offset }
    ensures next { (k : ℕ) (d : RelocOf) → result ≤ k → k < length relocs.now → offset ≤ (slice_index_or relocs.now k d).offset }
{
    relocs.partition_point(|reloc| reloc.offset < offset)
}
