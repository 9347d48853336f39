//! What a relocation whose place is a ULEB128 number needs beside its own entry: the entry before it, and how long the number is (RISC-V ELF
//! psABI, `R_RISCV_SET_ULEB128` and `R_RISCV_SUB_ULEB128`).

ghost use Rattle.std.specs.Prelude.{◌≡◌, ◌-◌, ◌^◌, ◌<◌, ◌≤◌, ◌≤ℤ◌, true, false, pos, negsuc, length, slice_index_or, unwrap_or};
ghost use Rattle.lk_base.specs.RelocKinds.{is_uleb};
ghost use Rattle.lk_tables.specs.Files.{no_reloc};
ghost use Rattle.lk_tables.specs.UlebLengths as lengths;
ghost use Rattle.link_sections.specs.Calls.{acting_width};
ghost use Rattle.link_sections.specs.LaidOut.{cuts_at};
ghost use Rattle.link_sections.specs.Views.{by_view, files_in, laid_in};
ghost use Rattle.reloc_apply.specs.Relocated as spec;
ghost use Rattle.reloc_apply.specs.Sites.{IsMadeFrom, IsSite, width_by};

use crate::calls::width_of;
use crate::sites::Site;
use crate::sources::{Source, contents};
use crate::values::sum_of;
use link_sections::View;
use lk_base::relocations::is_uleb;
use lk_tables::{Reloc, uleb_len};

/// V of a relocation of a section by its place among the section's relocations: the number that its own place holds, or if that is a ULEB128
/// number S + A of the relocation before it.
#[tactic(auto, unfolding(crate::specs::Relocated::operand))]
pub fn operand(view: &View, site: Site, relocs: &[Reloc], k: usize, held: u64) -> i128
    requires site { IsSite (files_in view.now) site }
    requires reloc { k < length relocs.now }
    ensures value { result ≡ by_view spec.operand view.now site.section (slice_index_or relocs.now (k - 1) no_reloc) (slice_index_or relocs.now k no_reloc) (pos held) }
    ensures low { negsuc (2 ^ 63) ≤ℤ result }
    ensures high { result ≤ℤ pos (2 ^ 67) }
{
    if !is_uleb(relocs[k].kind) {
        return held as i128;
    }
    sum_of(view, site, &relocs[k.saturating_sub(1)], false)
}

/// How many bytes the place of a relocation of a section has.
pub fn width_in(view: &View, source: &Source, reloc: &Reloc) -> u64
    requires { IsMadeFrom view.now source.now }
    ensures value { result ≡ width_by view.now source.now reloc.now }
    ensures few { result ≤ 10 }
    ensures plain { is_uleb reloc.now.kind ≡ false → result ≡ acting_width (cuts_at (laid_in view.now) source.now.site.section) reloc.now }
{
    if is_uleb(reloc.kind) {
        return number_len(source.raw, reloc.offset);
    }
    width_of(view, source.site.section, reloc)
}

/// How many bytes the place of a relocation of a section has that is a ULEB128 number.
pub fn number_width(view: &View, site: Site, reloc: &Reloc) -> u64
    requires site { IsSite (files_in view.now) site }
    requires kind { is_uleb reloc.now.kind ≡ true }
    ensures value { result ≡ by_view spec.width_at view.now site.section reloc.now }
    ensures few { result ≤ 10 }
{
    number_len(contents(view, site), reloc.offset)
}

/// How many bytes a ULEB128 number in a section's contents has; 0 if it has no end there.
fn number_len(contents: &[u8], offset: u64) -> u64
    ensures value { result ≡ unwrap_or (lengths.uleb_len contents.now offset) 0 }
    ensures few { result ≤ 10 }
{
    uleb_len(contents, offset).unwrap_or(0)
}
