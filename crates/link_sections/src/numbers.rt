//! What stands at a section's number.

ghost use Rattle.std.specs.Prelude.{◌≡◌, ◌≤◌, slice_index};
ghost use Rattle.link_sections.specs.Cuts.{new_offset as after_cuts};
ghost use Rattle.link_sections.specs.LaidOut as laid;
ghost use Rattle.link_sections.specs.LaidOut.{layout_view, start_at};
ghost use Rattle.link_sections.specs.Leaders as leading;

use crate::layouts::Layout;
use crate::offsets::new_offset;
use lk_base::SecNo;

/// The number that stands at a place of a list, 0 past its end.
pub fn number_at(list: &[u64], place: usize) -> u64
    ensures { result ≡ slice_index list.now place }
{
    match list.get(place) {
        Some(number) => *number,
        None => 0,
    }
}

/// The section that stands in the place of a section; itself if it has no leader.
pub fn leader_of(leaders: &[Option<SecNo>], section: SecNo) -> SecNo
    ensures { result ≡ leading.leader_of leaders.now section }
{
    match leaders.get(section as usize) {
        Some(Some(leader)) => *leader,
        _ => section,
    }
}

/// The first address of a section that is its own leader.
#[tactic(auto, unfolding(crate::specs::LaidOut::layout_view))]
pub fn start_of(layout: &Layout, section: SecNo) -> u64
    ensures { result ≡ start_at (layout_view layout.now) section }
{
    number_at(layout.starts.as_slice(), section as usize)
}

/// The offset of a byte of a section, once the bytes before it that do not stay are gone.
#[tactic(auto, unfolding(crate::specs::LaidOut::layout_view))]
pub fn offset_in(layout: &Layout, section: SecNo, old: u64) -> u64
    ensures value { result ≡ after_cuts (laid.cuts_at (layout_view layout.now) section) old }
    ensures most { result ≤ old }
{
    new_offset(&layout.sizes, section, old)
}
