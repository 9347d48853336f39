//! Whether a walk or a list of pairs shows what it is to show. No check takes memory.

ghost use Rattle.std.specs.Prelude.{◌≡◌, ◌<◌, true, drop, slice_index, Contains, List, length};
ghost use Rattle.std.specs.List.Sorted.{IsStrictlyIncreasing};
ghost use Rattle.link_sections.specs.Edges.{ends_of};
ghost use Rattle.link_sections.specs.FoldItems.{item_views, sections_of};
ghost use Rattle.icf_part.specs.Folding.{IsCongruence, Pair as ItemPair, pair as item_pair};
ghost use Rattle.lk_base.specs.RelocKinds.{is_among};
ghost use Rattle.why_chain.specs.Aparts as spec;
ghost use Rattle.why_chain.specs.Walks.{is_walk, leads_to};

use crate::alike::same_key;
use crate::chains::{ApartChain, ApartEnd, LiveChain};
use crate::pairs::{Pair, can_match, next_pair};
use link_sections::{Edges, FoldItem};
use lk_base::SecNo;

/// Whether a walk shows why a section is kept: it begins with a root, each next section is one to which the one before leads, and the
/// last is the target. It may be longer than others.
pub fn check_live(roots: &[SecNo], edges: &Edges, target: SecNo, chain: &LiveChain) -> bool
    ensures { result ≡ is_walk roots.now (ends_of edges.now) target chain.now.sections.items }
{
    let sections = chain.sections.as_slice();
    if sections.len() == 0 {
        return false;
    }
    is_in(roots, sections[0]) && leads_along(edges, sections, target)
}

/// Whether each next section is one to which the one before leads, and the last is the target.
fn leads_along(edges: &Edges, sections: &[SecNo], target: SecNo) -> bool
    requires { 0 < length sections.now }
    ensures { result ≡ leads_to (ends_of edges.now) target (slice_index sections.now 0) (drop 1 sections.now) }
{
    for i in 1..sections.len() {
        if !is_in(edges.ends(sections[i - 1]), sections[i]) {
            return false;
        }
    }
    sections[sections.len() - 1] == target
}

/// Whether a section is in a list.
fn is_in(list: &[SecNo], section: SecNo) -> bool
    ensures { result ≡ is_among list.now section }
{
    list.iter().any(|other| *other == section)
}

/// Whether a chain shows that two items, by their places, are not folded: each next pair is that to which a relocation of both of the
/// pair before leads, and the last pair differs so. It may be longer than others. If so, no congruence has the two. Items are given in
/// order of their sections' numbers.
pub fn check_apart(items: &[FoldItem], a: usize, b: usize, chain: &ApartChain) -> bool
    requires order { IsStrictlyIncreasing (sections_of (item_views items.now)) }
    requires one { a < length items.now }
    requires two { b < length items.now }
    ensures exact { result ≡ spec.is_apart (item_views items.now) (spec.two_items a b) (spec.chain_view chain.now) }
    ensures sound { result ≡ true → (pairs : List ItemPair) → IsCongruence (item_views items.now) pairs → Contains pairs (item_pair a b) → ⊥ }
{
    let mut pair = Pair { one: a, two: b };
    let vias = chain.vias.as_slice();
    for i in 0..vias.len() {
        let Some(next) = next_pair(items, pair, vias[i] as usize) else {
            return false;
        };
        pair = next;
    }
    is_end(items, pair, chain.last)
}

/// Whether a pair differs so.
fn is_end(items: &[FoldItem], pair: Pair, last: ApartEnd) -> bool
    requires order { IsStrictlyIncreasing (sections_of (item_views items.now)) }
    requires one { pair.one < length items.now }
    requires two { pair.two < length items.now }
    ensures { result ≡ spec.is_end (item_views items.now) pair last }
{
    let alike = same_key(&items[pair.one], &items[pair.two]);
    match last {
        ApartEnd::Key => !alike,
        ApartEnd::Target(k) => {
            alike
                && (k as usize) < items[pair.one].relocs.len()
                && !can_match(items, pair, k as usize)
        }
    }
}
