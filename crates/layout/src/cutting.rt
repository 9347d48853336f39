//! Where a section loses bytes, once its first address is known (RISC-V ELF psABI, "Linker Relaxation").

ghost use Rattle.std.specs.Prelude.{◌≡◌, ℕ, ◌+◌, ◌-◌, ◌*◌, ◌<◌, ◌≤◌, ◌^◌, ◌++◌, ◌∷◌, [], All, IfOk, OnOk, map, filter, nat_lt, min, if◌then◌else◌};
ghost use Rattle.std.specs.List.{list_any, sum_by};
ghost use Rattle.lk_base.specs.declared.abi.TheConstants.{NOBITS_MAX};
ghost use Rattle.lk_base.specs.Firsts.{Passes};
ghost use Rattle.link_sections.specs.Cuts.{kept_before, new_offset};
ghost use Rattle.link_sections.specs.CutsView.{AreCuts, IsPlacedCut, cut_view, cut_views};
ghost use Rattle.layout.specs.Cutting as spec;
ghost use Rattle.layout.specs.CutsSoFar.{IsPassed, all_kept, kept_if_ended, placed_cut};

use link_sections::Cut;
use lk_base::Defect;
use lk_base::kinds::NOPS_SHORT;
use lk_tables::SectionPlace;
use std::alloc::{AllocError, Global};

/// What the cuts of a section leave of its bytes, as far as they are laid.
#[derive(Drop)]
struct Passed {
    /// The bytes that these cuts have in the input.
    whole: u64,
    /// How many of them stay, but for those of `reaching`.
    kept: u64,
    /// The alignments that need more than they have, and whose nops may reach past the cuts that come next.
    reaching: Vec<Cut>,
}

/// The cuts of a section of `size` bytes that starts at `start`, in place of what stands in `laid`; gives the bytes of the section that
/// stay.
pub fn lay_cuts(
    alloc: Global,
    start: u64,
    size: u64,
    cuts: &[Cut],
    laid: &mut Vec<Cut>,
) -> Result<u64, AllocError>
    requires cuts { AreCuts cuts.now }
    requires within { All (λ (c : _). c.at + c.whole ≤ size) cuts.now }
    requires small { size ≤ NOBITS_MAX }
    requires room { start < 2 ^ 63 }
    ensures value { OnOk result (cut_views laid.new.items ≡ spec.laid_cuts start (cut_views cuts.now)) }
    ensures placed { OnOk result (All (IsPlacedCut (cut_views laid.new.items)) laid.new.items) }
    ensures size { IfOk result (λ stays. stays ≡ new_offset (spec.laid_cuts start (cut_views cuts.now)) size) }
    ensures most { IfOk result (λ stays. stays ≤ 3 * size) }
{
    laid.clear();
    let mut passed = Passed {
        whole: 0,
        kept: 0,
        reaching: Vec::new(alloc),
    };
    for cut in cuts {
        lay_cut(start, cut, &mut passed, laid)?;
    }
    Ok(size + (passed.kept + kept_before(&passed.reaching, size)) - passed.whole)
}

/// Whether one of these cuts is an alignment: what others keep does not depend on where the section starts.
pub fn has_alignment(cuts: &[Cut]) -> bool
    ensures { result ≡ list_any (λ (c : _). c.is_align) cuts.now }
{
    cuts.iter().any(|cut| cut.is_align)
}

/// A cut after those before it.
fn lay_cut(
    start: u64,
    cut: &Cut,
    passed: &mut Passed,
    laid: &mut Vec<Cut>,
) -> Result<(), AllocError>
    requires so_far { IsPassed (cut_views laid.old.items) cut.now.at passed.old.whole passed.old.kept (cut_views passed.old.reaching.items) }
    requires within { cut.now.at + cut.now.whole ≤ NOBITS_MAX }
    requires kept { cut.now.kept ≤ cut.now.whole }
    requires room { start < 2 ^ 63 }
    ensures laid { OnOk result (laid.new.items ≡ laid.old.items ++ placed_cut start laid.old.items cut.now ∷ []) }
    ensures passed { OnOk result (IsPassed (cut_views laid.new.items) (cut.now.at + cut.now.whole) passed.new.whole passed.new.kept (cut_views passed.new.reaching.items)) }
{
    settle(passed, cut.at);
    let new_at = cut.at + (passed.kept + kept_before(&passed.reaching, cut.at)) - passed.whole;
    let kept = kept_of(start + new_at, cut);
    let placed = Cut {
        at: cut.at,
        whole: cut.whole,
        kept,
        is_align: cut.is_align,
        new_at,
    };
    laid.push(placed)?;
    pass(passed, placed)?;
    Ok(())
}

/// What a cut at an address keeps.
fn kept_of(address: u64, cut: &Cut) -> u64
    requires within { cut.now.whole ≤ NOBITS_MAX }
    requires kept { cut.now.kept ≤ cut.now.whole }
    ensures value { result ≡ (if cut.now.is_align then spec.needed address cut.now.whole else cut.now.kept) }
    ensures most { result ≤ 2 * cut.now.whole }
{
    if cut.is_align {
        return needed(address, cut.whole);
    }
    cut.kept
}

/// One cut more, at the end of those before it.
fn pass(passed: &mut Passed, cut: Cut) -> Result<(), AllocError>
    requires whole { passed.old.whole + cut.whole < 2 ^ 63 }
    requires kept { passed.old.kept + cut.kept < 2 ^ 63 }
    ensures whole { OnOk result (passed.new.whole ≡ passed.old.whole + cut.whole) }
    ensures kepts { OnOk result ((o : ℕ) → cut.at + cut.whole ≤ o → passed.new.kept + kept_before (cut_views passed.new.reaching.items) o ≡ (passed.old.kept + kept_before (cut_views passed.old.reaching.items) o) + min (o - cut.at) cut.kept) }
    ensures all { OnOk result (passed.new.kept + all_kept (cut_views passed.new.reaching.items) ≡ (passed.old.kept + all_kept (cut_views passed.old.reaching.items)) + cut.kept) }
{
    passed.whole += cut.whole;
    if cut.whole < cut.kept {
        passed.reaching.push(cut)?;
        return Ok(());
    }
    passed.kept += cut.kept;
    Ok(())
}

/// Takes the cuts whose bytes end at an offset or before from those that may reach on.
fn settle(passed: &mut Passed, offset: u64)
    requires { passed.old.kept + all_kept (cut_views passed.old.reaching.items) < 2 ^ 63 }
    ensures whole { passed.new.whole ≡ passed.old.whole }
    ensures kepts { (o : ℕ) → offset ≤ o → passed.new.kept + kept_before (cut_views passed.new.reaching.items) o ≡ passed.old.kept + kept_before (cut_views passed.old.reaching.items) o }
    ensures all { passed.new.kept + all_kept (cut_views passed.new.reaching.items) ≡ passed.old.kept + all_kept (cut_views passed.old.reaching.items) }
{
    passed.kept += kept_by_ended(&passed.reaching, offset);
    passed
        .reaching
        .retain(|cut| offset.saturating_sub(cut.at) < cut.kept);
}

/// How many bytes those of these cuts keep whose bytes end at an offset or before.
fn kept_by_ended(cuts: &[Cut], offset: u64) -> u64
    requires { all_kept (cut_views cuts.now) < 2 ^ 63 }
    ensures value { result ≡ sum_by (kept_if_ended offset) cuts.now }
    ensures most { result ≤ all_kept (cut_views cuts.now) }
{
    let mut kept: u64 = 0;
    for cut in cuts {
        kept += kept_if_ended(cut, offset);
    }
    kept
}

fn kept_if_ended(cut: &Cut, offset: u64) -> u64
    ensures { result ≡ kept_if_ended offset cut.now }
{
    if offset.saturating_sub(cut.at) < cut.kept {
        return 0;
    }
    cut.kept
}

/// The first power of two above a number of bytes.
#[tactic(auto, unfolding(crate::specs::Cutting::boundary))]
fn boundary(whole: u64) -> u64
    requires { whole ≤ NOBITS_MAX }
    ensures value { result ≡ spec.boundary whole }
    ensures some { 1 ≤ result }
    ensures most { result ≤ 2 * whole + 1 }
{
    let mut power: u64 = 1;
    for _ in 0..64u64 {
        if whole < power {
            return power;
        }
        power *= 2;
    }
    power
}

/// How many bytes of nops an alignment of so many needs at an address.
#[tactic(auto, unfolding(crate::specs::Cutting::needed))]
fn needed(address: u64, whole: u64) -> u64
    requires { whole ≤ NOBITS_MAX }
    ensures value { result ≡ spec.needed address whole }
    ensures most { result ≤ 2 * whole }
{
    let boundary = boundary(whole);
    (boundary - address % boundary) % boundary
}

/// How many bytes these cuts keep before an offset.
fn kept_before(cuts: &[Cut], offset: u64) -> u64
    requires { all_kept (cut_views cuts.now) < 2 ^ 63 }
    ensures value { result ≡ kept_before (cut_views cuts.now) offset }
    ensures most { result ≤ all_kept (cut_views cuts.now) }
{
    let mut kept: u64 = 0;
    for cut in cuts {
        kept += offset.saturating_sub(cut.at).min(cut.kept);
    }
    kept
}

/// Refuses the cuts of a section if one of them is an alignment that needs more bytes than it has, or half a nop: the first.
pub fn check_cuts(place: SectionPlace, laid: &[Cut]) -> Result<(), Defect>
    ensures { Passes result (spec.short_defects place (cut_views laid.now)) }
{
    for cut in laid {
        if is_short(cut) {
            return Err(Defect {
                kind: NOPS_SHORT,
                file: place.file,
                section: place.index,
                place: cut.at,
                symbol: 0,
                other: cut.kept,
            });
        }
    }
    Ok(())
}

#[tactic(auto, unfolding(crate::specs::Cutting::is_short))]
fn is_short(cut: &Cut) -> bool
    ensures { result ≡ spec.is_short (cut_view cut.now) }
{
    cut.is_align && (!(cut.kept % 2 == 0) || cut.whole < cut.kept)
}
