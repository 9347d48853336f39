//! Why two items are not folded.

ghost use Rattle.std.specs.Prelude.{◌≡◌, ◌<◌, ◌*◌, ◌^◌, ◌↔◌, false, length, is_some, option_map, slice_index_or, IfOk, IfSome};
ghost use Rattle.std.specs.List.Sorted.{IsStrictlyIncreasing};
ghost use Rattle.link_sections.specs.FoldItems.{item_views, sections_of};
ghost use Rattle.icf_part.specs.Folding.{StandsFor};
ghost use Rattle.why_chain.specs.Aparts.{IsLeastApart, apart_chain, chain_view};
ghost use Rattle.why_chain.specs.Meetings.{no_met, pair_met};

use crate::chains::ApartChain;
use crate::meetings::{meet, meet_or_end};
use crate::pairs::{Met, Pair};
use crate::paths::vias_to;
use indexmap::IndexSet;
use link_sections::FoldItem;
use std::alloc::{AllocError, Global};

/// Why two items, by their places in the list, are not folded: pairs of items from these two on, each next pair met through one relocation
/// of both of the pair before, whose last pair differs. Of all such lists with the fewest pairs it is the first, by the
/// numbers of the relocations. `None` exactly where the two are folded, or are one. Items are given in order of their sections' numbers. There are fewer
/// than 2^31 of them, as there are sections in a link. The only error is out of memory.
///
/// Two cycles of p and of q items that are folded meet p * q pairs where p and q have no common factor. Who knows which items are folded
/// asks it only of others; who does not can ask [`why_apart_within`] first.
pub fn why_apart(
    alloc: Global,
    items: &[FoldItem],
    a: usize,
    b: usize,
) -> Result<Option<ApartChain>, AllocError>
    requires order { IsStrictlyIncreasing (sections_of (item_views items.now)) }
    requires one { a < length items.now }
    requires two { b < length items.now }
    requires few { length items.now < 2 ^ 31 }
    ensures chain { IfOk result (λ chain. option_map chain_view chain ≡ apart_chain (item_views items.now) a b) }
    ensures least { IfOk result (λ chain. IfSome chain (λ c. IsLeastApart (item_views items.now) a b (chain_view c))) }
    ensures given { IfOk result (λ chain. (is_some chain ≡ false) ↔ StandsFor (item_views items.now) a b) }
{
    let found = why_apart_within(alloc, items, a, b, usize::MAX)?;
    let Some(chain) = found else {
        unreachable!();
    };
    Ok(chain)
}

/// Why two items are not folded, as of [`why_apart`], unless more than `most` pairs would be compared for it, which are all different: then `None`.
pub fn why_apart_within(
    alloc: Global,
    items: &[FoldItem],
    a: usize,
    b: usize,
    most: usize,
) -> Result<Option<Option<ApartChain>>, AllocError>
    requires order { IsStrictlyIncreasing (sections_of (item_views items.now)) }
    requires one { a < length items.now }
    requires two { b < length items.now }
    requires few { length items.now < 2 ^ 31 }
    ensures chain { IfOk result (λ found. IfSome found (λ chain. option_map chain_view chain ≡ apart_chain (item_views items.now) a b)) }
    ensures least { IfOk result (λ found. IfSome found (λ chain. IfSome chain (λ c. IsLeastApart (item_views items.now) a b (chain_view c)))) }
    ensures given { IfOk result (λ found. IfSome found (λ chain. (is_some chain ≡ false) ↔ StandsFor (item_views items.now) a b)) }
    ensures many { IfOk result (λ found. is_some found ≡ false → most < length items.now * length items.now) }
{
    let mut queue: Vec<Met> = Vec::new(alloc);
    let mut known: IndexSet<usize> = IndexSet::new(alloc);
    meet(
        items.len(),
        Pair { one: a, two: b },
        0,
        0,
        &mut queue,
        &mut known,
    )?;
    let mut place: usize = 0;
    while place < queue.len() {
        if place == most {
            return Ok(None);
        }
        let pair = pair_at(queue.as_slice(), place);
        let end = meet_or_end(items, pair, place, &mut queue, &mut known)?;
        if let Some(last) = end {
            let vias = vias_to(alloc, queue.as_slice(), place)?;
            return Ok(Some(Some(ApartChain { vias, last })));
        }
        place += 1;
    }
    Ok(Some(None))
}

/// The pair at a place of a queue.
fn pair_at(queue: &[Met], place: usize) -> Pair
    requires { place < length queue.now }
    ensures { result ≡ pair_met (slice_index_or queue.now place no_met) }
{
    let met = &queue[place];
    Pair {
        one: met.one,
        two: met.two,
    }
}
