//! Which relocations can't be done: the first that lacks its partner, or whose value its field does not take.

ghost use Rattle.std.specs.Prelude.{◌≡◌, ◌==◌, ℕ, ◌+◌, ◌-◌, ◌<◌, ◌≤◌, [], ◌∷◌, true, false, length, map, flat_map, min, slice_index, slice_index_or, None, Some, MatchResult, All, if◌then◌else◌};
ghost use Rattle.std.specs.List.{range_with_len};
ghost use Rattle.lk_base.specs.Firsts.{Goes, IsFirst};
ghost use Rattle.lk_base.specs.Reaches.{misfit_of};
ghost use Rattle.lk_base.specs.RelocKinds.{HasValue};
ghost use Rattle.lk_tables.specs.Files.{file_at, is_section_symbol, no_reloc, section_total, symbol_at};
ghost use Rattle.lk_tables.specs.Sites.{relocs_of};
ghost use Rattle.link_sections.specs.Leaders.{leads};
ghost use Rattle.link_sections.specs.Views.{by_view, files_in, leaders_in};
ghost use Rattle.reloc_apply.specs.Relocated as spec;
ghost use Rattle.reloc_apply.specs.Sites.{HasSymbol, IsSite, reach_of, takes_every};

use crate::calls::acting_kind;
use crate::numbered::{first_numbers, pieces_of, section_of};
use crate::operands::{number_width, operand};
use crate::plain::plain_from;
use crate::sites::{Site, relocs_at, site_of};
use crate::values::{is_hint, value_of};
use link_sections::{View, leads};
use lk_base::abi::{
    R_RISCV_64, R_RISCV_ADD8, R_RISCV_ADD16, R_RISCV_ADD32, R_RISCV_ADD64, R_RISCV_LO12_I,
    R_RISCV_LO12_S, R_RISCV_SET6, R_RISCV_SET8, R_RISCV_SET16, R_RISCV_SET32, R_RISCV_SUB6,
    R_RISCV_SUB8, R_RISCV_SUB16, R_RISCV_SUB32, R_RISCV_SUB64, R_RISCV_TPREL_LO12_I,
    R_RISCV_TPREL_LO12_S,
};
use lk_base::kinds::NO_PARTNER;
use lk_base::relocations::is_uleb;
use lk_base::{Defect, LinkStop, Misfit, SecNo};
use lk_tables::{Reloc, misfit_defect, reloc_defect};
use rv_code::{fits, fits_uleb};
use std::alloc::Global;
use std::ops::Range;
use std::thread::Threads;
use work_split::{Gate, over_shares};

/// Tests all relocations of the sections that are their own leaders, and reports the first, in order of file, section and offset, that
/// can't be done; or it is out of memory. The relocations are shared among so many workers, about as many to each.
pub fn check_relocations<R: Threads + Sync, G: Gate>(
    rt: &R,
    alloc: Global,
    view: &View,
    workers: u32,
    gate: &G,
) -> Result<(), LinkStop>
    requires some { 1 ≤ workers }
    requires most { workers ≤ 64 }
    ensures { Goes result (by_view spec.relocation_defects view.now) }
{
    let numbers = first_numbers(alloc, view.tables)?;
    let firsts = numbers.as_slice();
    let pieces = pieces_of(alloc, firsts, workers)?;
    let checked = over_shares(
        rt,
        alloc,
        gate,
        pieces.as_slice(),
        |piece: Range<usize>| -> Result<Vec<()>, LinkStop>
            requires order { piece.start ≤ piece.end }
            requires count { length firsts.now ≡ section_total (files_in view.now) + 1 }
            requires firsts { (n : ℕ) → n ≤ section_total (files_in view.now) → slice_index firsts.now n ≡ length (flat_map (relocs_of (files_in view.now)) (range_with_len 0 n)) }
            ensures { Goes result (flat_map (λ i. slice_index_or (flat_map (λ n. map (λ k. if leads (leaders_in view.entry.now) n then by_view spec.defects_at view.entry.now n k else []) (range_with_len 0 (length (relocs_of (files_in view.entry.now) n)))) (range_with_len 0 (section_total (files_in view.entry.now)))) i []) (range_with_len piece.start (piece.end - piece.start))) }
        { check_numbers(alloc, view, firsts, piece) },
    );
    match checked {
        Ok(_) => Ok(()),
        Err(stop) => Err(stop),
    }
}

/// The first defect of a run of relocations by their numbers, where each section's relocations begin at a number.
fn check_numbers(
    alloc: Global,
    view: &View,
    firsts: &[u64],
    piece: Range<usize>,
) -> Result<Vec<()>, LinkStop>
    requires order { piece.start ≤ piece.end }
    requires count { length firsts.now ≡ section_total (files_in view.now) + 1 }
    requires firsts { (n : ℕ) → n ≤ section_total (files_in view.now) → slice_index firsts.now n ≡ length (flat_map (relocs_of (files_in view.now)) (range_with_len 0 n)) }
    ensures { Goes result (flat_map (λ i. slice_index_or (flat_map (λ n. map (λ k. if leads (leaders_in view.now) n then by_view spec.defects_at view.now n k else []) (range_with_len 0 (length (relocs_of (files_in view.now) n)))) (range_with_len 0 (section_total (files_in view.now)))) i []) (range_with_len piece.start (piece.end - piece.start))) }
{
    view.tables.prove_few();
    let from = piece.start as u64;
    let to = piece.end as u64;
    for section in section_of(firsts, from)..view.tables.section_count() {
        let first = firsts[section];
        if to <= first {
            return Ok(Vec::new(alloc));
        }
        if let Some(defect) = check_section(
            view,
            section as u32,
            from.saturating_sub(first) as usize,
            (to - first) as usize,
        ) {
            return Err(LinkStop::Defect(defect));
        }
    }
    Ok(Vec::new(alloc))
}

/// The first defect of a section's relocations from one on and before another, if it is its own leader.
fn check_section(view: &View, section: SecNo, from: usize, to: usize) -> Option<Defect>
    requires { section < section_total (files_in view.now) }
    ensures { IsFirst (flat_map (λ x. if leads (leaders_in view.now) section then by_view spec.defects_at view.now section x else []) (range_with_len from (min to (length (relocs_of (files_in view.now) section)) - from))) result }
{
    if !leads(view.leaders, section as usize) {
        return None;
    }
    let site = site_of(view.tables, section);
    let relocs = relocs_at(view.tables, site);
    check_relocs(view, site, relocs, from, to.min(relocs.len()))
}

/// The first defect of the relocations of a section from one on and before another.
fn check_relocs(view: &View, site: Site, relocs: &[Reloc], from: usize, to: usize) -> Option<Defect>
    requires site { IsSite (files_in view.now) site }
    requires symbols { All (HasSymbol (files_in view.now) site) relocs.now }
    requires to { to ≤ length relocs.now }
    ensures { IsFirst (flat_map (λ x. by_view spec.reloc_defects view.now site.section (slice_index_or relocs.now (x - 1) no_reloc) (slice_index_or relocs.now x no_reloc)) (range_with_len from (to - from))) result }
{
    let plain = plain_from(view, site, relocs.len());
    for k in from..to {
        if let Some(defect) = check_reloc(
            view,
            site,
            relocs,
            k,
            plain <= relocs[k].symbol as usize,
        ) {
            return Some(defect);
        }
    }
    None
}

/// The defect of one relocation of a section, by its place among the section's, if it can't be done. If it is known to be `plain`, it names
/// no SECTION symbol.
#[tactic(auto, unfolding(crate::specs::Relocated::reloc_defects))]
pub fn check_reloc(
    view: &View,
    site: Site,
    relocs: &[Reloc],
    k: usize,
    plain: bool,
) -> Option<Defect>
    requires site { IsSite (files_in view.now) site }
    requires reloc { k < length relocs.now }
    requires symbol { HasSymbol (files_in view.now) site (slice_index_or relocs.now k no_reloc) }
    requires plain { plain ≡ true → is_section_symbol (symbol_at (file_at (files_in view.now) site.place.file) (slice_index_or relocs.now k no_reloc).symbol) ≡ false }
    ensures { IsFirst (by_view spec.reloc_defects view.now site.section (slice_index_or relocs.now (k - 1) no_reloc) (slice_index_or relocs.now k no_reloc)) result }
{
    let reloc = &relocs[k];
    if is_hint(reloc.kind) {
        return None;
    }
    if takes_every(reloc.kind) {
        return None;
    }
    let Ok(value) = value_of(view, site, reloc, plain, operand(view, site, relocs, k, 0)) else {
        return Some(reloc_defect(NO_PARTNER, site.place.file, site.place.index, reloc, 0));
    };
    let Some(v) = value else {
        return None;
    };
    if let Err(misfit) = fits_place(view, site, reloc, v) {
        return Some(misfit_defect(site.place, reloc, v, misfit));
    }
    None
}

/// Whether the places of a kind take every value, and it is no lower part that needs a partner: there is nothing to test.
#[tactic(auto, unfolding(crate::specs::Sites::takes_every))]
fn takes_every(kind: u32) -> bool
    ensures { result ≡ takes_every kind }
{
    matches!(
        kind,
        R_RISCV_64
            | R_RISCV_LO12_I
            | R_RISCV_LO12_S
            | R_RISCV_TPREL_LO12_I
            | R_RISCV_TPREL_LO12_S
            | R_RISCV_ADD8
            | R_RISCV_ADD16
            | R_RISCV_ADD32
            | R_RISCV_ADD64
            | R_RISCV_SUB8
            | R_RISCV_SUB16
            | R_RISCV_SUB32
            | R_RISCV_SUB64
            | R_RISCV_SUB6
            | R_RISCV_SET6
            | R_RISCV_SET8
            | R_RISCV_SET16
            | R_RISCV_SET32
    )
}

/// Whether the place of a relocation holds a value.
fn fits_place(view: &View, site: Site, reloc: &Reloc, v: i128) -> Result<(), Misfit>
    requires site { IsSite (files_in view.now) site }
    requires kind { HasValue reloc.now.kind }
    ensures { MatchResult result (λ _. misfit_of (reach_of view.now site.section reloc.now) v ≡ None) (λ misfit. misfit_of (reach_of view.now site.section reloc.now) v ≡ Some misfit) }
{
    if is_uleb(reloc.kind) {
        return fits_uleb(number_width(view, site, reloc) as u32, v);
    }
    fits(acting_kind(view, site.section, reloc), v)
}
