//! What the relocations of records put into their places (RISC-V ELF psABI, "Relocations").

ghost use Rattle.std.specs.Prelude.{◌≡◌, ◌+◌, ◌^◌, ◌<◌, length, ◌≤ℤ◌, ◌+ℤ◌, pos, negsuc, true, false, IfSome};
ghost use Rattle.lk_base.specs.RelocKinds.{FillsField, kind_of as spec_kind};
ghost use Rattle.lk_tables.specs.Files.{file_at, is_section_symbol, symbol_at};
ghost use Rattle.link_sections.specs.Addresses as addresses;
ghost use Rattle.link_sections.specs.Sums.{addend_of};
ghost use Rattle.link_sections.specs.Views.{by_view, files_in};
ghost use Rattle.eh_frame.specs.Bytes as spec;

use link_sections::{Target, View, piece_address, section_address, symbol_address};
use lk_base::FileNo;
use lk_base::relocations::{Calculation, fills_field, kind_of};
use lk_tables::{Reloc, is_section_symbol, spot_in};

/// S + A of a relocation of a file: the address of its symbol, and its addend. A SECTION symbol's addend chooses a byte of its section, which
/// moves where the section loses bytes or is merged; of any other symbol the address alone is read. The first byte stands where the symbol does,
/// so without an addend the symbol is not read.
pub fn sum_in(view: &View, file: FileNo, reloc: &Reloc) -> i128
    requires file { file < length (files_in view.now) }
    requires live { (file_at (files_in view.now) file).live ≡ true }
    ensures value { result ≡ by_view spec.sum_in view.now file reloc.now }
    ensures low { negsuc (2 ^ 63) ≤ℤ result }
    ensures high { result ≤ℤ pos (2 ^ 67) }
{
    if reloc.addend == 0 {
        return zero_sum(view, file, reloc);
    }
    let symbol = view.tables.file(file).symbol(reloc.symbol as usize);
    if is_section_symbol(&symbol) {
        return target_sum(view, file, reloc, target_of(view, file, reloc));
    }
    plain_sum(view, file, reloc)
}

/// S + A of a relocation of a file whose symbol is no SECTION symbol.
fn plain_sum(view: &View, file: FileNo, reloc: &Reloc) -> i128
    requires file { file < length (files_in view.now) }
    requires live { (file_at (files_in view.now) file).live ≡ true }
    requires plain { is_section_symbol (symbol_at (file_at (files_in view.now) file) reloc.now.symbol) ≡ false }
    ensures value { result ≡ by_view spec.sum_in view.now file reloc.now }
    ensures low { negsuc (2 ^ 63) ≤ℤ result }
    ensures high { result ≤ℤ pos (2 ^ 67) }
{
    symbol_address(view, file, reloc.symbol) as i128 + reloc.addend as i128
}

/// S + A of a relocation of a file whose addend is 0, whatever its symbol is.
fn zero_sum(view: &View, file: FileNo, reloc: &Reloc) -> i128
    requires file { file < length (files_in view.now) }
    requires live { (file_at (files_in view.now) file).live ≡ true }
    requires zero { reloc.now.addend ≡ pos 0 }
    ensures value { result ≡ by_view spec.sum_in view.now file reloc.now }
    ensures low { negsuc (2 ^ 63) ≤ℤ result }
    ensures high { result ≤ℤ pos (2 ^ 67) }
{
    symbol_address(view, file, reloc.symbol) as i128 + reloc.addend as i128
}

/// What a relocation stands for.
#[tactic(auto, unfolding(crate::specs::Bytes::reloc_target, link_sections::specs::LaidOut::with_contents, link_sections::specs::PoolViews::pools_view))]
fn target_of(view: &View, file: FileNo, reloc: &Reloc) -> Target
    requires { file < length (files_in view.now) }
    ensures { result ≡ by_view spec.reloc_target view.now file reloc.now }
{
    view.pools
        .piece_target(spot_in(view.tables, view.binding, file, reloc))
}

/// S + A by what a relocation stands for.
fn target_sum(view: &View, file: FileNo, reloc: &Reloc, target: Target) -> i128
    requires file { file < length (files_in view.now) }
    requires live { (file_at (files_in view.now) file).live ≡ true }
    requires target { target ≡ by_view spec.reloc_target view.now file reloc.now }
    ensures value { result ≡ pos (by_view addresses.target_address view.now target) +ℤ addend_of target reloc.now }
    ensures low { negsuc (2 ^ 63) ≤ℤ result }
    ensures high { result ≤ℤ pos (2 ^ 67) }
{
    match target {
        Target::Section {
            section,
            offset,
            rest,
        } => section_address(view, section, offset) + rest as i128,
        Target::Piece {
            pool,
            piece,
            offset,
            rest,
        } => piece_address(view, pool, piece, offset) + rest as i128,
        Target::Number(number) => number as i128 + reloc.addend as i128,
        Target::Linker(_) => {
            symbol_address(view, file, reloc.symbol) as i128 + reloc.addend as i128
        }
        Target::Zero => reloc.addend as i128,
        Target::Unbound => reloc.addend as i128,
    }
}

/// The value of a relocation of a file at a place that holds a number; none if its kind puts none into a field.
#[tactic(auto, unfolding(crate::specs::Bytes::value_in))]
pub fn value_in(view: &View, file: FileNo, reloc: &Reloc, place: i128, held: u64) -> Option<i128>
    requires file { file < length (files_in view.now) }
    requires live { (file_at (files_in view.now) file).live ≡ true }
    requires low { pos 0 ≤ℤ place }
    requires high { place ≤ℤ pos (2 ^ 66) }
    ensures value { result ≡ by_view spec.value_in view.now file reloc.now place (pos held) }
    ensures kind { IfSome result (λ _. FillsField reloc.now.kind) }
{
    if !fills_field(reloc.kind) {
        return None;
    }
    computed(view, file, reloc, place, held)
}

/// What the calculation of a relocation's kind gives, if records have relocations of the kind.
fn computed(view: &View, file: FileNo, reloc: &Reloc, place: i128, held: u64) -> Option<i128>
    requires file { file < length (files_in view.now) }
    requires live { (file_at (files_in view.now) file).live ≡ true }
    requires low { pos 0 ≤ℤ place }
    requires high { place ≤ℤ pos (2 ^ 66) }
    ensures { result ≡ spec.computed (spec_kind reloc.now.kind).calculation (by_view spec.sum_in view.now file reloc.now) place (pos held) }
{
    match kind_of(reloc.kind).calculation {
        Calculation::Address => Some(sum_in(view, file, reloc)),
        Calculation::Distance => Some(sum_in(view, file, reloc) - place),
        Calculation::Increase => Some(held as i128 + sum_in(view, file, reloc)),
        Calculation::Decrease => Some(held as i128 - sum_in(view, file, reloc)),
        _ => None,
    }
}
