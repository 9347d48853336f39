//! What is met through the relocations of one pair.

ghost use Rattle.std.specs.Prelude.{◌≡◌, ◌<◌, ◌^◌, Some, length, take, IfNone, IfOk, IfSome, OnOk, OnSome};
ghost use Rattle.std.specs.List.{range_with_len};
ghost use Rattle.std.specs.List.Sorted.{IsStrictlyIncreasing};
ghost use Rattle.link_sections.specs.FoldItems.{item_views, sections_of};
ghost use Rattle.why_chain.specs.Aparts as spec;
ghost use Rattle.why_chain.specs.Meetings.{code_of, codes_of, met_all, met_one, new_pair};

use crate::alike::same_key;
use crate::chains::ApartEnd;
use crate::pairs::{Met, Pair, lead_on};
use indexmap::IndexSet;
use link_sections::FoldItem;
use std::alloc::AllocError;

/// Why the two of a pair can't stand for one another whatever else is folded: their keys differ, or else the first relocation whose targets
/// can't match. `None` if all depends on further pairs: then those to which the relocations of this pair lead are put at the end of the queue, in order of
/// these, if they don't stand there yet; else the queue stays as it is. `known` has a number for each pair of the queue.
#[tactic(auto, unfolding(crate::specs::Aparts::first_end))]
pub fn meet_or_end(
    items: &[FoldItem],
    pair: Pair,
    place: usize,
    queue: &mut Vec<Met>,
    known: &mut IndexSet<usize>,
) -> Result<Option<ApartEnd>, AllocError>
    requires order { IsStrictlyIncreasing (sections_of (item_views items.now)) }
    requires few { length items.now < 2 ^ 31 }
    requires one { pair.one < length items.now }
    requires two { pair.two < length items.now }
    requires known { known.old.keys ≡ codes_of (length items.now) queue.old.items }
    ensures end { IfOk result (λ end. end ≡ spec.first_end (item_views items.now) pair) }
    ensures stays { IfOk result (λ end. OnSome end (queue.new.items ≡ queue.old.items)) }
    ensures queue { IfOk result (λ end. IfNone end (queue.new.items ≡ met_all (length items.now) place (new_pair (item_views items.now) pair) (range_with_len 0 (spec.reloc_count (item_views items.now) pair)) queue.old.items)) }
    ensures known { IfOk result (λ end. IfNone end (known.new.keys ≡ codes_of (length items.now) queue.new.items)) }
{
    if !same_key(&items[pair.one], &items[pair.two]) {
        return Ok(Some(ApartEnd::Key));
    }
    let end = meet_alike(items, pair, place, queue, known)?;
    Ok(end)
}

/// Why the two of a pair with one key can't stand for one another whatever else is folded.
fn meet_alike(
    items: &[FoldItem],
    pair: Pair,
    place: usize,
    queue: &mut Vec<Met>,
    known: &mut IndexSet<usize>,
) -> Result<Option<ApartEnd>, AllocError>
    requires order { IsStrictlyIncreasing (sections_of (item_views items.now)) }
    requires few { length items.now < 2 ^ 31 }
    requires one { pair.one < length items.now }
    requires two { pair.two < length items.now }
    requires known { known.old.keys ≡ codes_of (length items.now) queue.old.items }
    ensures end { IfOk result (λ end. end ≡ spec.first_target (item_views items.now) pair) }
    ensures stays { IfOk result (λ end. OnSome end (queue.new.items ≡ queue.old.items)) }
    ensures queue { IfOk result (λ end. IfNone end (queue.new.items ≡ met_all (length items.now) place (new_pair (item_views items.now) pair) (range_with_len 0 (spec.reloc_count (item_views items.now) pair)) queue.old.items)) }
    ensures known { IfOk result (λ end. IfNone end (known.new.keys ≡ codes_of (length items.now) queue.new.items)) }
{
    let count = queue.len();
    let end = meet_all(items, pair, place, queue, known)?;
    let Some(last) = end else {
        return Ok(None);
    };
    queue.truncate(count);
    Ok(Some(last))
}

/// The first relocation of a pair whose targets can't match. The pairs to which those before it lead, or all where there is none, are put at the
/// end of the queue.
fn meet_all(
    items: &[FoldItem],
    pair: Pair,
    place: usize,
    queue: &mut Vec<Met>,
    known: &mut IndexSet<usize>,
) -> Result<Option<ApartEnd>, AllocError>
    requires order { IsStrictlyIncreasing (sections_of (item_views items.now)) }
    requires few { length items.now < 2 ^ 31 }
    requires one { pair.one < length items.now }
    requires two { pair.two < length items.now }
    requires known { known.old.keys ≡ codes_of (length items.now) queue.old.items }
    ensures end { IfOk result (λ end. end ≡ spec.first_target (item_views items.now) pair) }
    ensures queue { IfOk result (λ end. IfNone end (queue.new.items ≡ met_all (length items.now) place (new_pair (item_views items.now) pair) (range_with_len 0 (spec.reloc_count (item_views items.now) pair)) queue.old.items)) }
    ensures known { IfOk result (λ end. IfNone end (known.new.keys ≡ codes_of (length items.now) queue.new.items)) }
    ensures front { OnOk result (take (length queue.old.items) queue.new.items ≡ queue.old.items) }
{
    for k in 0..items[pair.one].relocs.len() {
        let Some(next) = lead_on(items, pair, k) else {
            return Ok(Some(ApartEnd::Target(k as u64)));
        };
        meet_next(items.len(), next, place, k as u64, queue, known)?;
    }
    Ok(None)
}

/// Puts a pair of so many items at the end of the queue, if there is one and it does not stand there yet.
fn meet_next(
    count: usize,
    next: Option<Pair>,
    place: usize,
    via: u64,
    queue: &mut Vec<Met>,
    known: &mut IndexSet<usize>,
) -> Result<(), AllocError>
    requires few { count < 2 ^ 31 }
    requires inside { IfSome next (λ pair. (pair.one < count) × (pair.two < count)) }
    requires known { known.old.keys ≡ codes_of count queue.old.items }
    ensures queue { OnOk result (queue.new.items ≡ met_one count place via queue.old.items next) }
    ensures known { OnOk result (known.new.keys ≡ codes_of count queue.new.items) }
{
    let Some(pair) = next else {
        return Ok(());
    };
    meet(count, pair, place, via, queue, known)?;
    Ok(())
}

/// Puts a pair of so many items at the end of the queue, if it does not stand there yet.
pub fn meet(
    count: usize,
    pair: Pair,
    place: usize,
    via: u64,
    queue: &mut Vec<Met>,
    known: &mut IndexSet<usize>,
) -> Result<(), AllocError>
    requires few { count < 2 ^ 31 }
    requires one { pair.one < count }
    requires two { pair.two < count }
    requires known { known.old.keys ≡ codes_of count queue.old.items }
    ensures queue { OnOk result (queue.new.items ≡ met_one count place via queue.old.items (Some pair)) }
    ensures known { OnOk result (known.new.keys ≡ codes_of count queue.new.items) }
{
    if known.insert(code_of(count, pair))? {
        queue.push(Met {
            one: pair.one,
            two: pair.two,
            place,
            via,
        })?;
    }
    Ok(())
}

/// The number of a pair of so many items.
fn code_of(count: usize, pair: Pair) -> usize
    requires few { count < 2 ^ 31 }
    requires one { pair.one < count }
    requires two { pair.two < count }
    ensures { result ≡ code_of count pair }
{
    pair.one * count + pair.two
}
