//! What a relocation puts into its place (RISC-V ELF psABI, "Relocations"; "Thread Local Storage").

ghost use Rattle.std.specs.Prelude.{◌≡◌, ℕ, ◌+◌, ◌*◌, ◌^◌, ◌<◌, ◌≤◌, length, ◌==◌, ◌&&◌, not, true, false, Some, ◌≤ℤ◌, ◌+ℤ◌, ◌-ℤ◌, pos, negsuc, IfOk, IfSome, MatchResult, is_some, find, filter, slice_index_or};
ghost use Rattle.std.specs.List.Sorted.{IsNonDecreasingBy};
ghost use Rattle.lk_base.specs.RelocKinds.{HasValue, is_lower, is_upper};
ghost use Rattle.lk_base.specs.declared.abi.TheConstants.{R_RISCV_RELAX};
ghost use Rattle.lk_tables.specs.Files.{file_at, is_section_symbol, symbol_at};
ghost use Rattle.lk_tables.specs.Sites.{relocs_of};
ghost use Rattle.link_sections.specs.Addresses as addresses;
ghost use Rattle.link_sections.specs.Views.{by_view, files_in};
ghost use Rattle.reloc_apply.specs.Sites.{HasSymbol, IsSite};
ghost use Rattle.reloc_apply.specs.Values as spec;

use crate::sites::Site;
use crate::uppers::uppers_of;
use link_sections::{
    Target, View, key_of, offset_in, piece_address, section_address, start_of, symbol_address,
    use_of,
};
use lk_base::SecNo;
use lk_base::abi::R_RISCV_RELAX;
use lk_base::relocations::{Calculation, is_lower, kind_of};
use lk_tables::{Reloc, is_section_symbol, relocs_before, spot_in};

/// The upper part that a lower part belongs to is not there.
#[derive(Clone, Copy, Debug)]
pub struct NoPartner;

/// The value of a relocation of a section by the number that V is. If it is known to be `plain`, it names no SECTION symbol.
#[tactic(auto, unfolding(crate::specs::Values::value_of))]
pub fn value_of(
    view: &View,
    site: Site,
    reloc: &Reloc,
    plain: bool,
    held: i128,
) -> Result<Option<i128>, NoPartner>
    requires site { IsSite (files_in view.now) site }
    requires symbol { HasSymbol (files_in view.now) site reloc.now }
    requires plain { plain ≡ true → is_section_symbol (symbol_at (file_at (files_in view.now) site.place.file) reloc.now.symbol) ≡ false }
    requires low { negsuc (2 ^ 63) ≤ℤ held }
    requires high { held ≤ℤ pos (2 ^ 67) }
    ensures value { IfOk result (λ v. v ≡ by_view spec.value_of view.now site.section reloc.now held) }
    ensures kind { IfOk result (λ v. IfSome v (λ x. HasValue reloc.now.kind)) }
    ensures partner { MatchResult result (λ _. (is_lower reloc.now.kind && not (is_some (by_view spec.partner_of view.now site.section reloc.now))) ≡ false)
        (λ _. (is_lower reloc.now.kind && not (is_some (by_view spec.partner_of view.now site.section reloc.now))) ≡ true) }
{
    if !is_lower(reloc.kind) {
        return Ok(direct_value(view, site, reloc, plain, held));
    }
    let Some(partner) = partner_of(view, site, reloc) else {
        return Err(NoPartner);
    };
    Ok(direct_value(view, site, &partner, false, 0))
}

/// The value of a relocation that takes it from its own symbol.
#[tactic(auto, unfolding(crate::specs::Values::direct_value, lk_base::specs::RelocKinds::has_value))]
fn direct_value(view: &View, site: Site, reloc: &Reloc, plain: bool, held: i128) -> Option<i128>
    requires site { IsSite (files_in view.now) site }
    requires symbol { HasSymbol (files_in view.now) site reloc.now }
    requires plain { plain ≡ true → is_section_symbol (symbol_at (file_at (files_in view.now) site.place.file) reloc.now.symbol) ≡ false }
    requires low { negsuc (2 ^ 63) ≤ℤ held }
    requires high { held ≤ℤ pos (2 ^ 67) }
    ensures value { result ≡ by_view spec.direct_value view.now site.section reloc.now held }
    ensures kind { IfSome result (λ _. HasValue reloc.now.kind) }
{
    match kind_of(reloc.kind).calculation {
        Calculation::Address => Some(sum_of(view, site, reloc, plain)),
        Calculation::Distance => {
            Some(sum_of(view, site, reloc, plain) - place_of(view, site.section, reloc))
        }
        Calculation::GotDistance => {
            Some(entry_of(view, site, reloc) - place_of(view, site.section, reloc))
        }
        Calculation::ThreadOffset => Some(thread_of(view, site, reloc)),
        Calculation::Increase => Some(increased(held, sum_of(view, site, reloc, plain))),
        Calculation::Decrease => Some(decreased(held, sum_of(view, site, reloc, plain))),
        _ => None,
    }
}

/// Whether a relocation only says that what stands at its place may be relaxed: it puts no value into a place.
pub fn is_hint(kind: u32) -> bool
    ensures { result ≡ (kind == R_RISCV_RELAX) }
{
    kind == R_RISCV_RELAX
}

/// What V and S + A are together.
fn increased(held: i128, sum: i128) -> i128
    requires low { negsuc (2 ^ 63) ≤ℤ held }
    requires high { held ≤ℤ pos (2 ^ 67) }
    requires sum_low { negsuc (2 ^ 63) ≤ℤ sum }
    requires sum_high { sum ≤ℤ pos (2 ^ 67) }
    ensures { result ≡ held +ℤ sum }
{
    held + sum
}

/// What V is less S + A.
fn decreased(held: i128, sum: i128) -> i128
    requires low { negsuc (2 ^ 63) ≤ℤ held }
    requires high { held ≤ℤ pos (2 ^ 67) }
    requires sum_low { negsuc (2 ^ 63) ≤ℤ sum }
    requires sum_high { sum ≤ℤ pos (2 ^ 67) }
    ensures { result ≡ held -ℤ sum }
{
    held - sum
}

/// S + A: the address of a relocation's symbol, and its addend. A SECTION symbol's addend chooses a byte of its section, which moves
/// where the section loses bytes or is merged. The first byte stands where the symbol does, so without an addend the symbol is not read.
pub fn sum_of(view: &View, site: Site, reloc: &Reloc, plain: bool) -> i128
    requires site { IsSite (files_in view.now) site }
    requires plain { plain ≡ true → is_section_symbol (symbol_at (file_at (files_in view.now) site.place.file) reloc.now.symbol) ≡ false }
    ensures value { result ≡ by_view spec.sum_of view.now site.section reloc.now }
    ensures low { negsuc (2 ^ 63) ≤ℤ result }
    ensures high { result ≤ℤ pos (2 ^ 67) }
{
    if plain {
        return plain_sum(view, site, reloc);
    }
    if reloc.addend == 0 {
        return zero_sum(view, site, reloc);
    }
    let symbol = view
        .tables
        .file(site.place.file)
        .symbol(reloc.symbol as usize);
    if is_section_symbol(&symbol) {
        return target_sum(view, site, reloc, target_of(view, site, reloc));
    }
    plain_sum(view, site, reloc)
}

/// S + A of a relocation whose symbol is no SECTION symbol. Reads the symbol's address alone, and nothing of the symbol.
fn plain_sum(view: &View, site: Site, reloc: &Reloc) -> i128
    requires site { IsSite (files_in view.now) site }
    requires plain { is_section_symbol (symbol_at (file_at (files_in view.now) site.place.file) reloc.now.symbol) ≡ false }
    ensures value { result ≡ by_view spec.sum_of view.now site.section reloc.now }
    ensures low { negsuc (2 ^ 63) ≤ℤ result }
    ensures high { result ≤ℤ pos (2 ^ 67) }
{
    symbol_address(view, site.place.file, reloc.symbol) as i128 + reloc.addend as i128
}

/// S + A of a relocation whose addend is 0, whatever its symbol is.
fn zero_sum(view: &View, site: Site, reloc: &Reloc) -> i128
    requires site { IsSite (files_in view.now) site }
    requires zero { reloc.now.addend ≡ pos 0 }
    ensures value { result ≡ by_view spec.sum_of view.now site.section reloc.now }
    ensures low { negsuc (2 ^ 63) ≤ℤ result }
    ensures high { result ≤ℤ pos (2 ^ 67) }
{
    symbol_address(view, site.place.file, reloc.symbol) as i128 + reloc.addend as i128
}

/// What a relocation stands for.
#[tactic(auto, unfolding(crate::specs::Values::target_in, link_sections::specs::LaidOut::with_contents, link_sections::specs::PoolViews::pools_view))]
fn target_of(view: &View, site: Site, reloc: &Reloc) -> Target
    requires { IsSite (files_in view.now) site }
    ensures { result ≡ by_view spec.target_in view.now site.section reloc.now }
{
    view.pools
        .piece_target(spot_in(view.tables, view.binding, site.place.file, reloc))
}

/// S + A by what a relocation stands for.
fn target_sum(view: &View, site: Site, reloc: &Reloc, target: Target) -> i128
    requires site { IsSite (files_in view.now) site }
    requires target { target ≡ by_view spec.target_in view.now site.section reloc.now }
    ensures value { result ≡ pos (by_view addresses.target_address view.now target) +ℤ spec.addend_of target reloc.now }
    ensures low { negsuc (2 ^ 63) ≤ℤ result }
    ensures high { result ≤ℤ pos (2 ^ 67) }
{
    match target {
        Target::Section {
            section,
            offset,
            rest,
        } => section_address(view, section, offset) + rest as i128,
        Target::Piece {
            pool,
            piece,
            offset,
            rest,
        } => piece_address(view, pool, piece, offset) + rest as i128,
        Target::Number(number) => number as i128 + reloc.addend as i128,
        Target::Linker(_) => {
            symbol_address(view, site.place.file, reloc.symbol) as i128 + reloc.addend as i128
        }
        Target::Zero => reloc.addend as i128,
        Target::Unbound => reloc.addend as i128,
    }
}

/// S + A - T: the offset of a thread-local symbol from the thread pointer, and the addend; one that nothing defines is at the pointer.
#[tactic(auto, unfolding(crate::specs::Values::thread_of))]
fn thread_of(view: &View, site: Site, reloc: &Reloc) -> i128
    requires { IsSite (files_in view.now) site }
    ensures { result ≡ by_view spec.thread_of view.now site.section reloc.now }
{
    let target = target_of(view, site, reloc);
    if is_zero(target) {
        return reloc.addend as i128;
    }
    target_sum(view, site, reloc, target) - view.layout.bounds.tls_start as i128
}

/// Whether a relocation stands for a symbol that nothing defines.
fn is_zero(target: Target) -> bool
    ensures { result ≡ spec.is_zero target }
{
    matches!(target, Target::Zero)
}

/// G + A: the address of the symbol's entry of the linker's table, and the addend.
#[tactic(auto, unfolding(crate::specs::Values::entry_of))]
fn entry_of(view: &View, site: Site, reloc: &Reloc) -> i128
    requires site { IsSite (files_in view.now) site }
    requires symbol { HasSymbol (files_in view.now) site reloc.now }
    ensures value { result ≡ by_view spec.entry_of view.now site.section reloc.now }
    ensures low { negsuc (2 ^ 63) ≤ℤ result }
    ensures high { result ≤ℤ pos (2 ^ 68) }
{
    view.layout.got as i128 + 8 * word_at(view, site, reloc) as i128 + reloc.addend as i128
}

/// The number of the first word of that entry.
#[tactic(auto, unfolding(crate::specs::Values::word_at))]
fn word_at(view: &View, site: Site, reloc: &Reloc) -> u64
    requires site { IsSite (files_in view.now) site }
    requires symbol { HasSymbol (files_in view.now) site reloc.now }
    ensures { result ≡ by_view spec.word_at view.now site.section reloc.now }
{
    let Some(usage) = use_of(reloc.kind) else {
        return 0;
    };
    let key = key_of(view.tables, view.numbers, site.place.file, reloc.symbol);
    match view.got.word_of(key, usage) {
        Some(word) => word,
        None => 0,
    }
}

/// P: the address of a relocation's place.
#[tactic(auto, unfolding(link_sections::specs::LaidOut::with_contents))]
fn place_of(view: &View, section: SecNo, reloc: &Reloc) -> i128
    ensures value { result ≡ by_view spec.place_of view.now section reloc.now }
    ensures low { pos 0 ≤ℤ result }
    ensures high { result ≤ℤ pos (2 ^ 65) }
{
    start_of(view.layout, section) as i128 + offset_of(view, section, reloc) as i128
}

/// The offset of a relocation's place in its section, once the bytes that do not stay are gone.
#[tactic(auto, unfolding(link_sections::specs::LaidOut::with_contents))]
pub fn offset_of(view: &View, section: SecNo, reloc: &Reloc) -> u64
    ensures value { result ≡ by_view spec.offset_of view.now section reloc.now }
    ensures most { result ≤ reloc.now.offset }
{
    offset_in(view.layout, section, reloc.offset)
}

/// The partner of a lower part: the first upper part at its label.
#[tactic(auto, unfolding(crate::specs::Values::partner_of))]
fn partner_of(view: &View, site: Site, reloc: &Reloc) -> Option<Reloc>
    requires { IsSite (files_in view.now) site }
    ensures symbol { IfSome result (HasSymbol (files_in view.now) site) }
    ensures value { result ≡ by_view spec.partner_of view.now site.section reloc.now }
{
    let target = spot_in(view.tables, view.binding, site.place.file, reloc);
    let Some(offset) = label_in(site.section, target) else {
        return None;
    };
    find_upper(view, site, offset)
}

/// The offset of a label, if it stands in the section of this number.
fn label_in(own: SecNo, target: lk_tables::Spot) -> Option<u64>
    ensures { result ≡ spec.label_in own target }
{
    match target {
        lk_tables::Spot::Section {
            section,
            offset,
            rest: _,
        } => {
            if section != own {
                return None;
            }
            Some(offset)
        }
        lk_tables::Spot::Number(_) => None,
        lk_tables::Spot::Zero => None,
        lk_tables::Spot::Linker(_) => None,
        lk_tables::Spot::Unbound => None,
    }
}

/// The first upper part of a section at an offset.
fn find_upper(view: &View, site: Site, offset: u64) -> Option<Reloc>
    requires { IsSite (files_in view.now) site }
    ensures { result ≡ find (spec.is_upper_at offset) (relocs_of (files_in view.now) site.section) }
{
    find_at(uppers_in(view, site), offset)
}

/// The upper parts of a section, which stand in order of offset.
fn uppers_in<'t>(view: &View<'t, '_>, site: Site) -> &'t [Reloc]
    requires { IsSite (files_in view.now) site }
    ensures value { result.now ≡ filter (λ r. is_upper r.kind) (relocs_of (files_in view.now) site.section) }
    ensures ordered { IsNonDecreasingBy (λ (r : Reloc). r.offset) result.now }
{
    view.tables.prove_few();
    uppers_of(view.uppers, site.section as usize)
}

/// The first relocation at an offset, of relocations in order of offset.
fn find_at(relocs: &[Reloc], offset: u64) -> Option<Reloc>
    requires { IsNonDecreasingBy (λ (r : Reloc). r.offset) relocs.now }
    ensures { result ≡ find (λ r. r.offset == offset) relocs.now }
{
    let n = relocs_before(relocs, offset);
    let Some(reloc) = relocs.get(n) else {
        return None;
    };
    if reloc.offset != offset {
        return None;
    }
    Some(*reloc)
}
