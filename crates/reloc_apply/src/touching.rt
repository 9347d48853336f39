//! The relocations that touch a block, tested.

ghost use Rattle.std.specs.Prelude.{◌≡◌, ◌+◌, ◌^◌, ◌<◌, flat_map, length};
ghost use Rattle.std.specs.List.{range_with_len};
ghost use Rattle.lk_base.specs.Firsts.{IsFirst};
ghost use Rattle.link_sections.specs.Views.{by_view};
ghost use Rattle.reloc_apply.specs.Relocated as spec;
ghost use Rattle.reloc_apply.specs.Sites.{IsMadeFrom, touching_at};

use crate::checks::check_reloc;
use crate::operands::width_in;
use crate::scanning::{first_after, first_near};
use crate::sources::Source;
use crate::values::offset_of;
use link_sections::View;
use lk_base::Defect;
use lk_tables::Reloc;

/// The first relocation of a section that touches `len` bytes of the file from an offset on, and can't be done.
pub fn first_touching(view: &View, source: &Source, from: u64, len: u64) -> Option<Defect>
    requires block { from + len < 2 ^ 63 }
    requires source { IsMadeFrom view.now source.now }
    ensures { IsFirst (flat_map (touching_at view.now source.now from len) (range_with_len 0 (length source.now.relocs.now))) result }
{
    let last = first_after(view, source, from + len);
    for k in first_near(view, source, from)..last {
        if let Some(defect) = check_touching(view, source, k, from, len) {
            return Some(defect);
        }
    }
    None
}

/// The defect of one relocation, by its place among the section's, if it touches them.
fn check_touching(view: &View, source: &Source, k: usize, from: u64, len: u64) -> Option<Defect>
    requires block { from + len < 2 ^ 63 }
    requires source { IsMadeFrom view.now source.now }
    requires reloc { k < length source.now.relocs.now }
    ensures { IsFirst (touching_at view.now source.now from len k) result }
{
    if !touches(view, source, &source.relocs[k], from, len) {
        return None;
    }
    check_reloc(view, source.site, source.relocs, k, false)
}

/// Whether the place of a relocation and those bytes have one in common.
#[tactic(auto, unfolding(crate::specs::Relocated::touches))]
fn touches(view: &View, source: &Source, reloc: &Reloc, from: u64, len: u64) -> bool
    requires block { from + len < 2 ^ 63 }
    requires source { IsMadeFrom view.now source.now }
    ensures { result ≡ by_view spec.touches view.now from len source.now.site.section reloc.now }
{
    let at = source
        .at
        .saturating_add(offset_of(view, source.site.section, reloc));
    let end = at.saturating_add(width_in(view, source, reloc));
    at.max(from) < end.min(from + len)
}
