//! Shortened calls and their targets, in a layout.

ghost use Rattle.std.specs.Prelude.{◌≡◌, []};
ghost use Rattle.lk_tables.specs.BindingView.{binding_view};
ghost use Rattle.lk_tables.specs.BoundNames.{IsBindingOf};
ghost use Rattle.lk_tables.specs.TablesView.{files_of};
ghost use Rattle.link_sections.specs.GotEntries.{word_count};
ghost use Rattle.link_sections.specs.GotView.{entries_of};
ghost use Rattle.link_sections.specs.LaidOut.{layout_view, with_contents};
ghost use Rattle.link_sections.specs.PoolViews.{merged_views, pool_list, pools_view};
ghost use Rattle.output_sections.specs.Order.{members_in, orders_of};
ghost use Rattle.link_sections.specs.SizesView.{sizes_of};
ghost use Rattle.link_sections.specs.Sound.{IsSound};
ghost use Rattle.output_sections.specs.Items.{AreLeaders, HaveFirsts, items};
ghost use Rattle.layout.specs.Layout.{frame_sizes, layout_defects, layout_of};
ghost use Rattle.layout.specs.Spots.{HaveAlignments};
ghost use Rattle.relax.specs.CallSizes.{IsLeastSafe, cuts_of};
ghost use Rattle.link_driver.specs.Code.{HaveOwnCuts};
ghost use Rattle.link_driver.specs.Reach as spec;
ghost use Rattle.link_passes.specs.Leaders.{AreAlike};

use link_sections::{Got, Layout, Pools, Sizes};
use lk_base::{Limits, SecNo};
use lk_tables::{Binding, FramePlan, Tables};
use output_sections::OutputSections;

/// That each shortened call reaches its target, where `sizes` are those of `relax::sizes` and the layout is that of `layout::place` over
/// them, of a link that it does not refuse: its relocation is neither odd nor out of range. A section has as many bytes as the one that is
/// written in its place. Where sections lose bytes they are those of a call or an alignment of their own, and what stands after an alignment is
/// aligned. Nothing is done while a program runs: all that is said here is in the clauses.
pub fn prove_calls_reach(
    tables: &Tables,
    binding: &Binding,
    pools: &Pools,
    got: &Got,
    leaders: &[Option<SecNo>],
    sections: &OutputSections,
    sizes: &Sizes,
    frames: &FramePlan,
    layout: &Layout,
    limits: &Limits,
    on: bool,
)
    requires bound { IsBindingOf (files_of tables.now) (binding_view binding.now) }
    requires leaders { AreLeaders (files_of tables.now) (binding_view binding.now) leaders.now }
    requires alike { AreAlike (files_of tables.now) (binding_view binding.now) leaders.now }
    requires pools { HaveFirsts (files_of tables.now) (binding_view binding.now) (pool_list pools.now) }
    requires order { sections.now.rows ≡ orders_of (items (files_of tables.now) (binding_view binding.now) (pool_list pools.now) (word_count (entries_of got.now)) leaders.now) }
    requires sizes { sizes_of sizes.now ≡ cuts_of (files_of tables.now) (binding_view binding.now) (merged_views pools.now) leaders.now (members_in sections.now.rows) on }
    requires safe { IsLeastSafe (files_of tables.now) (binding_view binding.now) (merged_views pools.now) leaders.now (members_in sections.now.rows) on }
    requires layout { layout_view layout.now ≡ layout_of (files_of tables.now) (binding_view binding.now) (pool_list pools.now) (word_count (entries_of got.now)) leaders.now (sizes_of sizes.now) (frame_sizes frames.now) }
    requires sound { IsSound (files_of tables.now) (binding_view binding.now) leaders.now (with_contents (layout_view layout.now) (pools_view (files_of tables.now) pools.now) (entries_of got.now)) }
    requires aligned { HaveAlignments (files_of tables.now) (binding_view binding.now) (layout_view layout.now) }
    requires room { layout_defects limits.now (files_of tables.now) (layout_view layout.now) ≡ [] }
    ensures reach { spec.CallsReach (files_of tables.now) (binding_view binding.now) leaders.now (with_contents (layout_view layout.now) (pools_view (files_of tables.now) pools.now) (entries_of got.now)) }
    ensures cuts { HaveOwnCuts (files_of tables.now) leaders.now (with_contents (layout_view layout.now) (pools_view (files_of tables.now) pools.now) (entries_of got.now)) }
{
    tables.prove_few();
}
