//! Which section is written in the place of each.

ghost use Rattle.std.specs.Prelude.{◌≡◌, ◌<◌, ◌≤◌, ◌^◌, ◌&&◌, not, length, IfOk, Some, None, if◌then◌else◌, slice_set};
ghost use Rattle.link_sections.specs.FoldItems.{item_views};
ghost use Rattle.link_sections.specs.PoolViews.{is_merged, merged_views};
ghost use Rattle.link_sections.specs.Leaders as spec;

use crate::fold_items::FoldItem;
use crate::pools::Pools;
use lk_base::SecNo;
use std::alloc::{AllocError, Global};

/// The leaders of a link that folds nothing: by section number, each kept section itself that is not merged, and none for each other. The
/// only error is out of memory.
#[tactic(auto, unfolding(crate::specs::Leaders::own_leaders))]
pub fn own_leaders(
    alloc: Global,
    kept: &[bool],
    pools: &Pools,
) -> Result<Vec<Option<SecNo>>, AllocError>
    requires { length kept.now ≤ 2 ^ 28 }
    ensures { IfOk result (λ leaders. leaders.items ≡ spec.own_leaders kept.now (merged_views pools.now)) }
{
    let mut leaders = Vec::with_capacity(alloc, kept.len())?;
    for section in 0..kept.len() {
        leaders.push(own_leader(kept, pools, section))?;
    }
    Ok(leaders)
}

/// The section itself, if it is kept and not merged.
fn own_leader(kept: &[bool], pools: &Pools, section: usize) -> Option<SecNo>
    requires { section < 2 ^ 32 }
    ensures { result ≡ (if spec.is_kept kept.now section && not (is_merged (merged_views pools.now) section) then Some section else None) }
{
    if is_kept(kept, section) && !pools.is_merged(section as u32) {
        return Some(section as u32);
    }
    None
}

/// Whether a section is kept; past the end of the list none is.
pub fn is_kept(kept: &[bool], section: usize) -> bool
    ensures { result ≡ spec.is_kept kept.now section }
{
    match kept.get(section) {
        Some(kept) => *kept,
        None => false,
    }
}

/// Gives folded sections their leaders: `places` has for each item the place of the item that leads it, and the section of each item gets
/// that one's section. The sections of no item keep their leaders. Takes no memory.
#[tactic(auto, unfolding(crate::specs::Leaders::folded_leaders))]
pub fn fold_leaders(leaders: &mut Vec<Option<SecNo>>, items: &[FoldItem], places: &[u32])
    ensures { leaders.new.items ≡ spec.folded_leaders (item_views items.now) places.now leaders.old.items }
{
    for i in 0..items.len().min(places.len()) {
        let leader = section_at(items, places[i]);
        set_leader(leaders, items[i].section, leader);
    }
}

/// The section of the item at a place, 0 past the last.
fn section_at(items: &[FoldItem], place: u32) -> SecNo
    ensures { result ≡ spec.section_at (item_views items.now) place }
{
    if place as usize >= items.len() {
        return 0;
    }
    items[place as usize].section
}

/// Gives a section a leader, if it has a number in the list.
fn set_leader(leaders: &mut Vec<Option<SecNo>>, section: SecNo, leader: SecNo)
    ensures { leaders.new.items ≡ slice_set leaders.old.items section (Some leader) }
{
    if (section as usize) < leaders.len() {
        leaders[section as usize] = Some(leader);
    }
}

/// Whether a section is its own leader, so that its bytes are written.
pub fn leads(leaders: &[Option<SecNo>], section: usize) -> bool
    ensures { result ≡ spec.leads leaders.now section }
{
    match leaders.get(section) {
        Some(Some(leader)) => *leader as usize == section,
        _ => false,
    }
}
