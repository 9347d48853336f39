//! Which section is written in the place of each: equal code is folded.

ghost use Rattle.std.specs.Prelude.{◌≡◌, ◌<◌, ◌≤◌, ◌^◌, All, length, map, IfOk};
ghost use Rattle.std.specs.List.Sorted.{IsStrictlyIncreasing};
ghost use Rattle.link_passes.specs.Leaders.{AreAlike, GoWithLeaders};
ghost use Rattle.icf_part.specs.Chosen.{AreSharers};
ghost use Rattle.icf_part.specs.Folding.{AreLeaders as ItemLeaders, HoldsAll, IsCongruence, classes};
ghost use Rattle.output_sections.specs.Items.{AreLeaders};
ghost use Rattle.link_sections.specs.FoldItems.{item_views, sections_of};
ghost use Rattle.link_sections.specs.Merging.{pools_of};
ghost use Rattle.link_sections.specs.PoolViews.{merged_views, pools_view};
ghost use Rattle.lk_tables.specs.BindingView.{binding_view};
ghost use Rattle.lk_tables.specs.Files.{section_total};
ghost use Rattle.lk_tables.specs.TablesView.{files_of};
ghost use Rattle.link_passes.specs.Passes.{leaders_in};
ghost use Rattle.link_passes.specs.Tables.{MayStay, link_options};
ghost use Rattle.sec_graph.specs.Foldable.{item_of};
ghost use Rattle.sec_graph.specs.FrameRelocs.{AreFramesOf};

use crate::options::Options;
use icf_part::{Steps, fold, lead_themselves, shared_texts};
use link_sections::{FoldItem, Pools, fold_leaders, own_leaders};
use lk_base::SecNo;
use lk_tables::{Binding, Frames, Tables};
use sec_graph::{contents_of, foldable, items_at};
use std::alloc::{AllocError, Global};
use std::marker::Brand;
use std::sync::ledger::{Blank, Ledger};
use std::thread::Threads;
use work_split::Gate;

/// By section number, which section is written in the place of each: none where it is not kept or is merged into a pool; itself where its own
/// bytes are written; with `icf` the first section that it is folded with, if it is not `barred`, by its number. The only error is out of memory.
#[tactic(auto, unfolding(crate::specs::Passes::leaders_in))]
pub fn find_leaders<R: Threads + Sync, G: Gate>(
    rt: &R,
    alloc: Global,
    tables: &Tables,
    binding: &Binding,
    frames: &Frames,
    kept: &[bool],
    barred: &[bool],
    pools: &Pools,
    options: Options,
    workers: u32,
    gate: &G,
) -> Result<Vec<Option<SecNo>>, AllocError>
    requires some { 1 ≤ workers }
    requires most { workers ≤ 64 }
    requires frames { AreFramesOf (files_of tables.now) (binding_view binding.now) frames.now }
    requires stay { MayStay (files_of tables.now) (binding_view binding.now) kept.now }
    requires pools { pools_view (files_of tables.now) pools.now ≡ pools_of (files_of tables.now) kept.now }
    ensures leaders { IfOk result (λ leaders. leaders.items ≡ leaders_in (link_options options barred.now) (files_of tables.now) (binding_view binding.now) kept.now) }
    ensures stay { IfOk result (λ leaders. AreLeaders (files_of tables.now) (binding_view binding.now) leaders.items) }
    ensures alike { IfOk result (λ leaders. AreAlike (files_of tables.now) (binding_view binding.now) leaders.items) }
    ensures outputs { IfOk result (λ leaders. GoWithLeaders (files_of tables.now) (binding_view binding.now) kept.now (merged_views pools.now) leaders.items) }
{
    tables.prove_few();
    let mut leaders = own_leaders(alloc, kept, pools)?;
    if !options.icf {
        return Ok(leaders);
    }
    let sections = foldable(alloc, tables, binding, kept, barred)?;
    lead_themselves(&mut leaders, sections.as_slice());
    let items = shared_items(
        rt,
        alloc,
        tables,
        binding,
        frames,
        pools,
        sections.as_slice(),
        workers,
        gate,
    )?;
    let places = fold_items::<R, G, Brand>(
        rt,
        alloc,
        items.as_slice(),
        workers,
        gate,
        Blank::new(1),
    )?;
    fold_leaders(&mut leaders, items.as_slice(), places.as_slice());
    Ok(leaders)
}

/// What decides of those of some sections whose contents another of them has with which others each is folded, in order: any other is
/// its own leader. The only error is out of memory.
fn shared_items<'a, R: Threads + Sync, G: Gate>(
    rt: &R,
    alloc: Global,
    tables: &Tables<'a>,
    binding: &Binding,
    frames: &Frames,
    pools: &Pools,
    sections: &[SecNo],
    workers: u32,
    gate: &G,
) -> Result<Vec<FoldItem<'a>>, AllocError>
    requires frames { AreFramesOf (files_of tables.now) (binding_view binding.now) frames.now }
    requires within { All (λ n. n < section_total (files_of tables.now)) sections.now }
    requires order { IsStrictlyIncreasing sections.now }
    requires few { length sections.now < 2 ^ 31 }
    ensures sharers { IfOk result (λ list. AreSharers (map (item_of (files_of tables.now) (binding_view binding.now) (merged_views pools.now)) sections.now) (item_views list.items)) }
    ensures order { IfOk result (λ list. IsStrictlyIncreasing (sections_of (item_views list.items))) }
    ensures few { IfOk result (λ list. length list.items < 2 ^ 31) }
{
    let texts = contents_of(alloc, tables, sections)?;
    let places = shared_texts(rt, alloc, texts, workers, gate)?;
    let items = items_at(
        alloc,
        tables,
        binding,
        pools,
        frames,
        sections,
        places.as_slice(),
    )?;
    Ok(items)
}

/// The leaders of items. How many classes became two is counted and not asked for.
pub fn fold_items<R: Threads + Sync, G: Gate, L: Ledger>(
    rt: &R,
    alloc: Global,
    items: &[FoldItem],
    workers: u32,
    gate: &G,
    blank: Blank,
) -> Result<Vec<u32>, AllocError>
    requires some { 1 ≤ workers }
    requires most { workers ≤ 64 }
    requires order { IsStrictlyIncreasing (sections_of (item_views items.now)) }
    requires few { length items.now < 2 ^ 31 }
    requires name { blank.name ≡ L.name }
    requires parts { blank.parts ≡ L.parts }
    requires part { 0 < L.parts }
    ensures leaders { IfOk result (λ l. ItemLeaders (item_views items.now) l.items) }
    ensures congruence { IfOk result (λ l. IsCongruence (item_views items.now) (classes l.items)) }
    ensures greatest { IfOk result (λ l. HoldsAll (item_views items.now) l.items) }
{
    let mut steps: Steps<L> = Steps::open(blank);
    fold(rt, alloc, items, workers, gate, &mut steps)
}
