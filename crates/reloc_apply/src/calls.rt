//! What calls become of which not all bytes stay (RISC-V ELF psABI, "Function Call Relaxation").

ghost use Rattle.std.specs.Prelude.{◌≡◌, ℕ, ◌<◌, ◌≤◌, length, slice_index_or};
ghost use Rattle.link_sections.specs.Calls as spec;
ghost use Rattle.link_sections.specs.CutsView.{AreCuts, cut_views};
ghost use Rattle.link_sections.specs.LaidOut.{cuts_at};
ghost use Rattle.link_sections.specs.Views.{laid_in};
ghost use Rattle.reloc_apply.specs.Sites.{no_held};

use link_sections::{Cut, View};
use lk_base::SecNo;
use lk_base::abi::{R_RISCV_CALL, R_RISCV_CALL_PLT, R_RISCV_JAL, R_RISCV_RVC_JUMP};
use lk_base::relocations::kind_of;
use lk_tables::Reloc;

/// How many bytes the place of a relocation of a section has that is no ULEB128 number: those of the kind that fills it.
pub fn width_of(view: &View, section: SecNo, reloc: &Reloc) -> u64
    ensures value { result ≡ spec.acting_width (cuts_at (laid_in view.now) section) reloc.now }
    ensures few { result ≤ 8 }
{
    kind_of(acting_kind(view, section, reloc)).width
}

/// The number of the kind that fills the place of a relocation of a section: a call of four bytes is written as `jal`, one of two as
/// `c.j`.
#[tactic(auto, unfolding(link_sections::specs::Calls::acting_number))]
pub fn acting_kind(view: &View, section: SecNo, reloc: &Reloc) -> u32
    ensures { result ≡ spec.acting_number (cuts_at (laid_in view.now) section) reloc.now }
{
    if !is_call(reloc.kind) {
        return reloc.kind;
    }
    kind_by_size(size_of(view, section, reloc.offset), reloc.kind)
}

/// The number of the kind that fills the place of a relocation, by the size of the call.
fn kind_by_size(size: u64, kind: u32) -> u32
    ensures { result ≡ spec.kind_by_size size kind }
{
    match size {
        4 => R_RISCV_JAL,
        2 => R_RISCV_RVC_JUMP,
        _ => kind,
    }
}

/// Whether relocations of a kind are calls, of two instructions.
#[tactic(auto, unfolding(link_sections::specs::Calls::is_call))]
fn is_call(kind: u32) -> bool
    ensures { result ≡ spec.is_call kind }
{
    matches!(kind, R_RISCV_CALL | R_RISCV_CALL_PLT)
}

/// How many bytes a call at an offset of a section has.
fn size_of(view: &View, section: SecNo, offset: u64) -> u64
    ensures { result ≡ spec.call_size (cuts_at (laid_in view.now) section) offset }
{
    call_size(view.layout.sizes.cuts(section), offset)
}

/// How many bytes a call at an offset has, once those are gone that do not stay, by the cuts of its section: 8, 4 or 2.
fn call_size(cuts: &[Cut], offset: u64) -> u64
    requires { AreCuts cuts.now }
    ensures { result ≡ spec.call_size (cut_views cuts.now) offset }
{
    for k in cuts_before(cuts, offset)..cuts.len() {
        let cut = &cuts[k];
        if cut.at != offset {
            return 8;
        }
        if !cut.is_align {
            return cut.kept;
        }
    }
    8
}

/// How many cuts start before an offset.
fn cuts_before(cuts: &[Cut], offset: u64) -> usize
    requires { AreCuts cuts.now }
    ensures bound { result ≤ length cuts.now }
    ensures before { (k : ℕ) → k < result → (slice_index_or cuts.now k no_held).at < offset }
    ensures next { (k : ℕ) → result ≤ k → k < length cuts.now → offset ≤ (slice_index_or cuts.now k no_held).at }
{
    cuts.partition_point(|cut| cut.at < offset)
}
