//! What a relocation keeps of its bytes.

ghost use Rattle.std.specs.Prelude.{◌≡◌, ◌+◌, ◌-◌, ◌≤◌, ◌^◌, ◌++◌, IfOk, OnOk, if◌then◌else◌};
ghost use Rattle.lk_tables.specs.Relocations.{is_alignment};
ghost use Rattle.link_sections.specs.CutsView.{cut_view, cut_views};
ghost use Rattle.relax.specs.CallSizes as spec;
ghost use Rattle.relax.specs.Placing.{ArePlaced, added};

use link_sections::Cut;
use lk_base::abi::{R_RISCV_CALL, R_RISCV_CALL_PLT};
use lk_base::relocations::moves_bytes;
use lk_tables::{Reloc, is_alignment, place_width};
use std::alloc::AllocError;

/// Adds what a relocation keeps of its bytes, if it is an alignment, or a call of less than eight. Gives how many bytes are lost so far.
#[tactic(auto, unfolding(crate::specs::Placing::added))]
pub fn push_cut(
    cuts: &mut Vec<Cut>,
    lost: u128,
    reloc: &Reloc,
    size: u64,
) -> Result<u128, AllocError>
    requires { lost + 2 ^ 64 ≤ 2 ^ 128 }
    ensures views { OnOk result (cut_views cuts.new.items ≡ cut_views cuts.old.items ++ added size reloc.now) }
    ensures placed { IfOk result (λ after. ArePlaced cuts.old.items lost → ArePlaced cuts.new.items after) }
    ensures few { IfOk result (λ after. after ≤ lost + (2 ^ 64 - 1)) }
{
    if !is_cut(reloc, size) {
        return Ok(lost);
    }
    let cut = held_cut(reloc, size, lost);
    cuts.push(cut)?;
    Ok(lost + cut.whole.saturating_sub(cut.kept) as u128)
}

/// Whether a relocation is an alignment that has nops, or a call of this size that has less than eight bytes.
#[tactic(auto, unfolding(crate::specs::CallSizes::is_cut, crate::specs::Sizes::has_nops, link_sections::specs::Calls::is_call))]
fn is_cut(reloc: &Reloc, size: u64) -> bool
    ensures { result ≡ spec.is_cut size reloc.now }
{
    if !moves_bytes(reloc.kind) {
        return false;
    }
    (is_alignment(reloc) && 0 < place_width(reloc))
        || ((reloc.kind == R_RISCV_CALL || reloc.kind == R_RISCV_CALL_PLT) && size < 8)
}

/// A relocation's bytes, where so many are lost before them.
#[tactic(auto, unfolding(crate::specs::CallSizes::cut_of))]
fn held_cut(reloc: &Reloc, size: u64, lost: u128) -> Cut
    ensures view { cut_view result ≡ spec.cut_of size reloc.now }
    ensures place { result.new_at ≡ result.at - lost }
{
    let whole = place_width(reloc);
    Cut {
        at: reloc.offset,
        whole,
        kept: kept_of(reloc, whole, size),
        is_align: is_alignment(reloc),
        new_at: (reloc.offset as u128).saturating_sub(lost) as u64,
    }
}

/// How many bytes stay: all of an alignment, or those of a call's size.
fn kept_of(reloc: &Reloc, whole: u64, size: u64) -> u64
    ensures { result ≡ (if is_alignment reloc.now then whole else size) }
{
    if is_alignment(reloc) {
        return whole;
    }
    size
}
