//! Relocations of a section done in order, in a window of ten bytes, as many as a place has: what stands at a place is in it once the relocations before are
//! done, whether a block has all of the place or not. Takes no memory.

ghost use Rattle.std.specs.Prelude.{◌≡◌, ℕ, ◌+◌, ◌-◌, ◌^◌, ◌<◌, ◌≤◌, ◌≤ℤ◌, ◌++◌, true, false, pos, negsuc, length, take, drop, slice_index_or, is_some, All, IfSome, List};
ghost use Rattle.lk_base.specs.RelocKinds.{HasValue, is_uleb};
ghost use Rattle.link_sections.specs.Calls.{acting_kind as spec_kind, acting_width};
ghost use Rattle.lk_tables.specs.Files.{file_at, is_section_symbol, no_reloc, section_total, symbol_at};
ghost use Rattle.lk_tables.specs.Sites.{relocs_of};
ghost use Rattle.link_sections.specs.CutsView.{AreCuts, cut_views};
ghost use Rattle.link_sections.specs.LaidOut.{cuts_at};
ghost use Rattle.link_sections.specs.Leaders.{leads};
ghost use Rattle.link_sections.specs.Views.{by_view, files_in, laid_in, leaders_in};
ghost use Rattle.reloc_apply.specs.Relocated.{filled, put, section_bytes, value_at};
ghost use Rattle.reloc_apply.specs.Sites.{HasSymbolIn, IsFresh, IsIn, IsMadeFrom, IsOver, Shows, bytes_by, end_by, first_bytes, offset_by, set_by, width_by};
ghost use Rattle.reloc_apply.specs.Sites as spec_sites;
ghost use Rattle.reloc_apply.specs.Staying.{staying};
ghost use Rattle.reloc_apply.specs.Values as spec;
ghost use Rattle.rv_code.specs.Places.{number_of};

use crate::calls::acting_kind;
use crate::image::{Piece, fill_piece};
use crate::operands::{operand, width_in};
use crate::plain::plain_from;
use crate::sites::{Site, relocs_at, site_of};
use crate::sources::{Source, source_of};
use crate::staying::{copy_between, copy_part, fill_staying};
use crate::values::{is_hint, offset_of, value_of};
use byteorder::{ByteOrder, LittleEndian};
use link_sections::{Cut, View};
use lk_base::SecNo;
use lk_base::abi::{
    R_RISCV_32, R_RISCV_32_PCREL, R_RISCV_64, R_RISCV_PLT32, R_RISCV_SET8, R_RISCV_SET16,
    R_RISCV_SET32,
};
use lk_base::relocations::{has_value, is_uleb};
use lk_tables::Reloc;
use rv_code::{patch_bits, patch_uleb_bits};

/// The value of relocation number `reloc` of a section, in order of offset. The section is its own leader, so that its bytes stand in its own
/// place, and has a relocation of that number. None exactly where the kind puts no value into a place, or a lower part has no partner.
/// Takes no memory.
pub fn value(view: &View, section: SecNo, reloc: usize) -> Option<i128>
    requires number { section < section_total (files_in view.now) }
    requires own { leads (leaders_in view.now) section ≡ true }
    requires reloc { reloc < length (relocs_of (files_in view.now) section) }
    ensures value { result ≡ by_view value_at view.now section reloc }
    ensures some { is_some result ≡ by_view spec.gives_value view.now section (slice_index_or (relocs_of (files_in view.now) section) reloc no_reloc) }
{
    let own = relocs_at(view.tables, site_of(view.tables, section))[reloc];
    if !has_value(own.kind) {
        return None;
    }
    value_by(view, &source_of(view, section), reloc)
}

/// The value of a relocation of a section by what that is made from, as [`value`] gives it.
fn value_by(view: &View, source: &Source, reloc: usize) -> Option<i128>
    requires source { IsMadeFrom view.now source.now }
    requires reloc { reloc < length source.now.relocs.now }
    ensures { result ≡ by_view value_at view.now source.now.site.section reloc }
{
    let own = &source.relocs[reloc];
    let first = chain_start(view, source, reloc);
    let mut window = [0u8; 10];
    let at = scan(&mut [], 0, view, source, first, reloc, &mut window);
    let offset = offset_of(view, source.site.section, own);
    slide(&mut window, at, source.raw, source.cuts, offset);
    let held = held_in(&window, width_in(view, source, own));
    let number = operand(view, source.site, source.relocs, reloc, held);
    value_in(view, source.site, own, false, number)
}

/// The number that so many bytes of a window hold, of no more than eight.
fn held_in(window: &[u8], width: u64) -> u64
    requires { length window.now ≡ 10 }
    ensures { width ≤ 8 → result ≡ number_of (take width window.now) }
{
    if width == 0 || 8 < width {
        return 0;
    }
    LittleEndian::read_uint(window, width as usize)
}

/// The value of a relocation by the number that V is, if it has one.
#[tactic(auto, unfolding(crate::specs::Values::value_of))]
fn value_in(view: &View, site: Site, reloc: &Reloc, plain: bool, held: i128) -> Option<i128>
    requires site { IsIn view.now site }
    requires symbol { HasSymbolIn view.now site reloc.now }
    requires plain { plain ≡ true → is_section_symbol (symbol_at (file_at (files_in view.now) site.place.file) reloc.now.symbol) ≡ false }
    requires low { negsuc (2 ^ 63) ≤ℤ held }
    requires high { held ≤ℤ pos (2 ^ 67) }
    ensures value { result ≡ by_view spec.value_of view.now site.section reloc.now held }
    ensures kind { IfSome result (λ _. HasValue reloc.now.kind) }
{
    match value_of(view, site, reloc, plain, held) {
        Ok(value) => value,
        Err(_) => None,
    }
}

/// Does the relocations of a section that reach a block which starts at the file offset `from`.
pub fn relocate(block: &mut [u8], from: u64, view: &View, source: &Source)
    requires block { from + length block.old < 2 ^ 63 }
    requires source { IsMadeFrom view.now source.now }
    requires shown { IsOver from source.now.at (first_bytes view.now source.now) block.old block.old }
    ensures { IsOver from source.now.at (by_view section_bytes view.now source.now.site.section) block.old block.new }
{
    let near = first_near(view, source, from);
    let last = first_after(view, source, from + block.len() as u64);
    if last <= near {
        return;
    }
    let first = chain_start(view, source, near);
    let mut window = [0u8; 10];
    scan(block, from, view, source, first, last, &mut window);
}

/// How many relocations of a section come before the first whose place may reach the file offset `from`.
pub fn first_near(view: &View, source: &Source, from: u64) -> usize
    requires { IsMadeFrom view.now source.now }
    ensures bound { result ≤ length source.now.relocs.now }
    ensures before { (k : ℕ) → k < result → source.now.at + end_by view.now source.now (slice_index_or source.now.relocs.now k no_reloc) ≤ from }
{
    count_below(
        view,
        source,
        from.saturating_sub(source.at).saturating_sub(9),
    )
}

/// How many relocations of a section have places that start before the file offset `end`.
pub fn first_after(view: &View, source: &Source, end: u64) -> usize
    requires { IsMadeFrom view.now source.now }
    ensures bound { result ≤ length source.now.relocs.now }
    ensures after { (k : ℕ) → result ≤ k → k < length source.now.relocs.now → end ≤ source.now.at + offset_by view.now source.now (slice_index_or source.now.relocs.now k no_reloc) }
{
    count_below(view, source, end.saturating_sub(source.at))
}

/// How many relocations of a section have places that start before an offset.
fn count_below(view: &View, source: &Source, limit: u64) -> usize
    requires { IsMadeFrom view.now source.now }
    ensures bound { result ≤ length source.now.relocs.now }
    ensures before { (k : ℕ) → k < result → offset_by view.now source.now (slice_index_or source.now.relocs.now k no_reloc) < limit }
    ensures next { (k : ℕ) → result ≤ k → k < length source.now.relocs.now → limit ≤ offset_by view.now source.now (slice_index_or source.now.relocs.now k no_reloc) }
{
    if limit == 0 {
        return 0;
    }
    if are_below(view, source, limit) {
        return source.relocs.len();
    }
    source.relocs.partition_point(|reloc| offset_of(view, source.site.section, reloc) < limit)
}

/// Whether the last relocation of a section, and so each, has a place that starts before an offset.
fn are_below(view: &View, source: &Source, limit: u64) -> bool
    requires { IsMadeFrom view.now source.now }
    ensures { result ≡ true → (k : ℕ) → k < length source.now.relocs.now → offset_by view.now source.now (slice_index_or source.now.relocs.now k no_reloc) < limit }
{
    let count = source.relocs.len();
    if count == 0 {
        return false;
    }
    let offset = offset_of(view, source.site.section, &source.relocs[count - 1]);
    offset < limit
}

/// The relocation at which to begin, so that relocation k finds in its place what those before it leave there: no place before its own reaches
/// past the start of its own, or, where it is another one than k and sets all bits of its place, past the end of that.
fn chain_start(view: &View, source: &Source, k: usize) -> usize
    requires source { IsMadeFrom view.now source.now }
    requires reloc { k < length source.now.relocs.now }
    ensures bound { result ≤ k }
    ensures clear { (j : ℕ) → j < result → end_by view.now source.now (slice_index_or source.now.relocs.now j no_reloc)
        ≤ offset_by view.now source.now (slice_index_or source.now.relocs.now result no_reloc) + set_by view.now source.now (slice_index_or source.now.relocs.now result no_reloc) }
    ensures own { result ≡ k → (j : ℕ) → j < result → end_by view.now source.now (slice_index_or source.now.relocs.now j no_reloc)
        ≤ offset_by view.now source.now (slice_index_or source.now.relocs.now result no_reloc) }
{
    let mut first = k;
    let mut limit = offset_of(view, source.site.section, &source.relocs[k]);
    for back in 0..k {
        let other = &source.relocs[k - 1 - back];
        let offset = offset_of(view, source.site.section, other);
        if offset + 10 <= limit {
            return first;
        }
        if offset + width_in(view, source, other) > limit {
            first = k - 1 - back;
            limit = offset + set_in(view, source, other);
        }
    }
    first
}

/// How many bytes a relocation sets whatever they held: all of its place, or none.
fn set_in(view: &View, source: &Source, reloc: &Reloc) -> u64
    requires { IsMadeFrom view.now source.now }
    ensures value { result ≡ set_by view.now source.now reloc.now }
    ensures few { result ≤ 10 }
{
    if !sets_all(reloc.kind) {
        return 0;
    }
    width_in(view, source, reloc)
}

/// Whether the values of a kind set all bits of their places.
#[tactic(auto, unfolding(crate::specs::Sites::sets_all))]
fn sets_all(kind: u32) -> bool
    ensures { result ≡ spec_sites.sets_all kind }
{
    matches!(
        kind,
        R_RISCV_32
            | R_RISCV_64
            | R_RISCV_SET8
            | R_RISCV_SET16
            | R_RISCV_SET32
            | R_RISCV_32_PCREL
            | R_RISCV_PLT32
    )
}

/// Does the relocations of a section from number `first` on and before number `last`, and writes their places into the block as far as
/// it has them. Answers the offset at which the window is left.
fn scan(
    block: &mut [u8],
    from: u64,
    view: &View,
    source: &Source,
    first: usize,
    last: usize,
    window: &mut [u8],
) -> u64
    requires block { from + length block.old < 2 ^ 63 }
    requires source { IsMadeFrom view.now source.now }
    requires order { first ≤ last }
    requires last { last ≤ length source.now.relocs.now }
    requires some { first < length source.now.relocs.now }
    requires clear { (j : ℕ) → j < first → end_by view.now source.now (slice_index_or source.now.relocs.now j no_reloc)
        ≤ offset_by view.now source.now (slice_index_or source.now.relocs.now first no_reloc) + set_by view.now source.now (slice_index_or source.now.relocs.now first no_reloc) }
    requires own { first ≡ last → (j : ℕ) → j < first → end_by view.now source.now (slice_index_or source.now.relocs.now j no_reloc)
        ≤ offset_by view.now source.now (slice_index_or source.now.relocs.now first no_reloc) }
    requires shown { IsOver from source.now.at (bytes_by view.now source.now first) block.old block.old }
    requires window { length window.old ≡ 10 }
    ensures over { IsOver from source.now.at (bytes_by view.now source.now last) block.old block.new }
    ensures shows { Shows (bytes_by view.now source.now last) result window.new }
    ensures fresh { IsFresh (first_bytes view.now source.now) (bytes_by view.now source.now last) (result + 10) }
    ensures rises { (k : ℕ) → last ≤ k → k < length source.now.relocs.now → result ≤ offset_by view.now source.now (slice_index_or source.now.relocs.now k no_reloc) }
{
    let mut at = offset_of(view, source.site.section, &source.relocs[first]);
    fresh(window, source.raw, source.cuts, at);
    let plain = plain_from(view, source.site, last - first);
    for k in first..last {
        let plain = plain <= source.relocs[k].symbol as usize;
        at = step(block, from, view, source, window, at, k, plain);
    }
    at
}

/// Does one relocation of a section, by its place among the section's, with the window that was at an offset. Answers the offset of its
/// place.
fn step(
    block: &mut [u8],
    from: u64,
    view: &View,
    source: &Source,
    window: &mut [u8],
    at: u64,
    k: usize,
    plain: bool,
) -> u64
    requires block { from + length block.old < 2 ^ 63 }
    requires source { IsMadeFrom view.now source.now }
    requires reloc { k < length source.now.relocs.now }
    requires plain { plain ≡ true → is_section_symbol (symbol_at (file_at (files_in view.now) source.now.site.place.file) (slice_index_or source.now.relocs.now k no_reloc).symbol) ≡ false }
    requires rises { at ≤ offset_by view.now source.now (slice_index_or source.now.relocs.now k no_reloc) }
    requires window { length window.old ≡ 10 }
    ensures at { result ≡ offset_by view.now source.now (slice_index_or source.now.relocs.now k no_reloc) }
    ensures bytes { (state : List ℕ) → Shows state at window.old → IsFresh (first_bytes view.now source.now) state (at + 10) → length state ≡ length (first_bytes view.now source.now)
        → Shows (by_view put view.now source.now.site.section (slice_index_or source.now.relocs.now (k - 1) no_reloc) (slice_index_or source.now.relocs.now k no_reloc) state) result window.new }
    ensures over { IsOver from (source.now.at + offset_by view.now source.now (slice_index_or source.now.relocs.now k no_reloc)) (take (width_by view.now source.now (slice_index_or source.now.relocs.now k no_reloc)) window.new) block.old block.new }
{
    let reloc = &source.relocs[k];
    let offset = offset_of(view, source.site.section, reloc);
    slide(window, at, source.raw, source.cuts, offset);
    if is_hint(reloc.kind) {
        return offset;
    }
    let width = width_in(view, source, reloc);
    let held = held_in(window, width);
    let number = operand(view, source.site, source.relocs, k, held);
    put_in(view, source.site, reloc, plain, number, width, window);
    let place = Piece {
        at: source.at + offset,
        bytes: &window[..width as usize],
    };
    fill_piece(block, from, &place);
    offset
}

/// Puts the value of a relocation, by the number that V is, into the window that stands at its place, which has so many bytes.
fn put_in(
    view: &View,
    site: Site,
    reloc: &Reloc,
    plain: bool,
    held: i128,
    width: u64,
    window: &mut [u8],
)
    requires site { IsIn view.now site }
    requires symbol { HasSymbolIn view.now site reloc.now }
    requires plain { plain ≡ true → is_section_symbol (symbol_at (file_at (files_in view.now) site.place.file) reloc.now.symbol) ≡ false }
    requires low { negsuc (2 ^ 63) ≤ℤ held }
    requires high { held ≤ℤ pos (2 ^ 67) }
    requires width { is_uleb reloc.now.kind ≡ false → width ≡ acting_width (cuts_at (laid_in view.now) site.section) reloc.now }
    requires few { width ≤ 10 }
    requires window { length window.old ≡ 10 }
    ensures { window.new ≡ filled (is_uleb reloc.now.kind) (spec_kind (cuts_at (laid_in view.now) site.section) reloc.now) (by_view spec.value_of view.now site.section reloc.now held) (take width window.old) ++ drop width window.old }
{
    fill_place(
        view,
        site,
        reloc,
        plain,
        held,
        &mut window[..width as usize],
    );
}

/// Puts the value of a relocation into its place, by the number that V is.
fn fill_place(view: &View, site: Site, reloc: &Reloc, plain: bool, held: i128, place: &mut [u8])
    requires site { IsIn view.now site }
    requires symbol { HasSymbolIn view.now site reloc.now }
    requires plain { plain ≡ true → is_section_symbol (symbol_at (file_at (files_in view.now) site.place.file) reloc.now.symbol) ≡ false }
    requires low { negsuc (2 ^ 63) ≤ℤ held }
    requires high { held ≤ℤ pos (2 ^ 67) }
    requires width { is_uleb reloc.now.kind ≡ false → length place.old ≡ acting_width (cuts_at (laid_in view.now) site.section) reloc.now }
    ensures { place.new ≡ filled (is_uleb reloc.now.kind) (spec_kind (cuts_at (laid_in view.now) site.section) reloc.now) (by_view spec.value_of view.now site.section reloc.now held) place.old }
{
    let Some(v) = value_in(view, site, reloc, plain, held) else {
        return;
    };
    if is_uleb(reloc.kind) {
        patch_uleb_bits(place, v);
        return;
    }
    patch_bits(acting_kind(view, site.section, reloc), place, v);
}

/// Fills a window with the bytes of a section that stay, from an offset on, with no relocation done.
fn fresh(window: &mut [u8], raw: &[u8], cuts: &[Cut], at: u64)
    requires window { length window.old ≤ 10 }
    requires cuts { AreCuts cuts.now }
    requires within { All (λ c. c.at + c.whole ≤ length raw.now) (cut_views cuts.now) }
    requires short { length raw.now < 2 ^ 33 }
    requires low { at < 2 ^ 34 }
    ensures { Shows (staying (cut_views cuts.now) 0 raw.now) at window.new }
{
    if cuts.is_empty() && at + window.len() as u64 <= raw.len() as u64 {
        copy_part(window, raw, at as usize);
        return;
    }
    if copy_between(window, at, raw, cuts) {
        return;
    }
    window.fill(0);
    fill_staying(window, at, 0, raw, cuts);
}

/// Moves a window on from an offset to another; from the end of what it held on no relocation is done yet.
fn slide(window: &mut [u8], from: u64, raw: &[u8], cuts: &[Cut], to: u64)
    requires window { length window.old ≡ 10 }
    requires cuts { AreCuts cuts.now }
    requires within { All (λ c. c.at + c.whole ≤ length raw.now) (cut_views cuts.now) }
    requires short { length raw.now < 2 ^ 33 }
    requires low { to < 2 ^ 33 }
    requires rises { from ≤ to }
    ensures { (state : List ℕ) → Shows state from window.old → IsFresh (staying (cut_views cuts.now) 0 raw.now) state (from + 10) → Shows state to window.new }
{
    let step = to - from;
    if step == 0 {
        return;
    }
    if step >= 10 {
        fresh(window, raw, cuts, to);
        return;
    }
    let step = step as usize;
    window.copy_within(step.., 0);
    fresh(&mut window[10 - step..], raw, cuts, from + 10);
}
