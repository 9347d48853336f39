//! Pairs of items, and where their relocations lead.

ghost use Rattle.std.specs.Prelude.{◌≡◌, ◌<◌, ◌==◌, ◌&&◌, Some, is_some, length, IfSome};
ghost use Rattle.std.specs.List.Sorted.{IsStrictlyIncreasing};
ghost use Rattle.std.specs.Ordering.{int_eq};
ghost use Rattle.link_sections.specs.declared.targets.Target.TheVariants as targets;
ghost use Rattle.link_sections.specs.FoldItems.{item_views, sections_of};
ghost use Rattle.icf_part.specs.Signatures.{place_of};
ghost use Rattle.why_chain.specs.Aparts as spec;
ghost use Rattle.why_chain.specs.Meetings.{new_pair};

use crate::targets::{same_target, target_of};
use link_sections::{FoldItem, Target};
use lk_base::SecNo;

/// Two items by their places in the list.
#[derive(Clone, Copy, Debug)]
pub struct Pair {
    /// The place of the one.
    pub one: usize,
    /// The place of the other.
    pub two: usize,
}

/// A pair that was met, and how.
#[derive(Clone, Copy, Debug)]
pub struct Met {
    /// The place of the one item.
    pub one: usize,
    /// The place of the other.
    pub two: usize,
    /// The place in the queue of the pair from which it was met; 0 of the first pair.
    pub place: usize,
    /// The number of the relocation through which it was met; 0 of the first pair.
    pub via: u64,
}

/// The place of the item of a section, if there is one. Items are given in order of their sections' numbers.
pub fn place_of(items: &[FoldItem], section: SecNo) -> Option<usize>
    requires { IsStrictlyIncreasing (sections_of (item_views items.now)) }
    ensures place { result ≡ place_of (sections_of (item_views items.now)) section }
    ensures within { IfSome result (λ place. place < length items.now) }
{
    let place = items.partition_point(|item| item.section < section);
    let Some(item) = items.get(place) else {
        return None;
    };
    if item.section != section {
        return None;
    }
    Some(place)
}

/// The items of the sections in which two targets stand, if they stand there at one offset and with one rest.
fn items_of(items: &[FoldItem], one: Option<Target>, two: Option<Target>) -> Option<Pair>
    requires { IsStrictlyIncreasing (sections_of (item_views items.now)) }
    ensures { result ≡ spec.items_of (sections_of (item_views items.now)) one two }
{
    let Some(target) = one else {
        return None;
    };
    match target {
        Target::Section {
            section,
            offset,
            rest,
        } => { items_of_targets(items, section, offset, rest, two) }
        Target::Piece { .. } => None,
        Target::Number(_) => None,
        Target::Zero => None,
        Target::Linker(_) => None,
        Target::Unbound => None,
    }
}

/// The items of the sections in which two targets stand, if they stand there at one offset and with one rest; the one target is this.
fn items_of_targets(
    items: &[FoldItem],
    section: SecNo,
    offset: u64,
    rest: i64,
    two: Option<Target>,
) -> Option<Pair>
    requires { IsStrictlyIncreasing (sections_of (item_views items.now)) }
    ensures { result ≡ spec.items_of (sections_of (item_views items.now)) (Some (targets.Section section offset rest)) two }
{
    let Some(target) = two else {
        return None;
    };
    match target {
        Target::Section {
            section: other,
            offset: there,
            rest: more,
        } => {
            if !same_spot(offset, rest, there, more) {
                return None;
            }
            both_placed(place_of(items, section), place_of(items, other))
        }
        Target::Piece { .. } => None,
        Target::Number(_) => None,
        Target::Zero => None,
        Target::Linker(_) => None,
        Target::Unbound => None,
    }
}

/// Whether two offsets, and what is added to each, are equal.
fn same_spot(offset: u64, rest: i64, other: u64, more: i64) -> bool
    ensures { result ≡ (offset == other && int_eq rest more) }
{
    offset == other && rest == more
}

/// A pair of both places, if both are there.
fn both_placed(one: Option<usize>, two: Option<usize>) -> Option<Pair>
    ensures { result ≡ spec.both_placed one two }
{
    let Some(one) = one else {
        return None;
    };
    let Some(two) = two else {
        return None;
    };
    Some(Pair { one, two })
}

/// The pair to which a relocation of both items of a pair leads, if it leads to one. Items are given in order of their sections' numbers.
pub fn next_pair(items: &[FoldItem], pair: Pair, k: usize) -> Option<Pair>
    requires order { IsStrictlyIncreasing (sections_of (item_views items.now)) }
    requires one { pair.one < length items.now }
    requires two { pair.two < length items.now }
    ensures pair { result ≡ spec.next_pair (item_views items.now) pair k }
    ensures within { IfSome result (λ next. (next.one < length items.now) × (next.two < length items.now)) }
{
    items_of(
        items,
        target_of(&items[pair.one], k),
        target_of(&items[pair.two], k),
    )
}

/// Whether the targets of a relocation of both items of a pair can match, and if so, the pair to which they lead; none where they are equal: no
/// equal targets ever lead to a difference.
#[tactic(auto, unfolding(crate::specs::Meetings::new_pair))]
pub fn lead_on(items: &[FoldItem], pair: Pair, k: usize) -> Option<Option<Pair>>
    requires order { IsStrictlyIncreasing (sections_of (item_views items.now)) }
    requires one { pair.one < length items.now }
    requires two { pair.two < length items.now }
    ensures can { is_some result ≡ spec.can_match (item_views items.now) pair k }
    ensures next { IfSome result (λ next. next ≡ new_pair (item_views items.now) pair k) }
{
    let one = target_of(&items[pair.one], k);
    let two = target_of(&items[pair.two], k);
    if same_target(one, two) {
        return Some(None);
    }
    let Some(next) = items_of(items, one, two) else {
        return None;
    };
    Some(Some(next))
}

/// Whether the targets of a relocation of both items of a pair are equal, or lead to a pair.
pub fn can_match(items: &[FoldItem], pair: Pair, k: usize) -> bool
    requires order { IsStrictlyIncreasing (sections_of (item_views items.now)) }
    requires one { pair.one < length items.now }
    requires two { pair.two < length items.now }
    ensures { result ≡ spec.can_match (item_views items.now) pair k }
{
    let one = target_of(&items[pair.one], k);
    let two = target_of(&items[pair.two], k);
    same_target(one, two) || items_of(items, one, two).is_some()
}
