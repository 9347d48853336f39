//! What has a place of its own in an executable.

ghost use Rattle.std.specs.Prelude.{◌≡◌, ℕ, ◌+◌, ◌*◌, ◌<◌, ◌≤◌, ◌∷◌, [], ◌++◌, ◌^◌, All, length, IfOk, OnOk, map};
ghost use Rattle.std.specs.List.{sum_by};
ghost use Rattle.output_sections.specs.Items as spec;
ghost use Rattle.output_sections.specs.ItemViews.{item_view, items_view};
ghost use Rattle.link_sections.specs.GotEntries.{word_count};
ghost use Rattle.link_sections.specs.GotView.{entries_of};
ghost use Rattle.link_sections.specs.InputSections.{input_at};
ghost use Rattle.link_sections.specs.InputViews.{input_view};
ghost use Rattle.link_sections.specs.PoolViews.{pool_list};
ghost use Rattle.link_sections.specs.Pools.{AreRising};
ghost use Rattle.lk_tables.specs.BoundNames.{IsBindingOf};
ghost use Rattle.lk_tables.specs.BindingView.{binding_view};
ghost use Rattle.lk_tables.specs.Files.{section_total};
ghost use Rattle.lk_tables.specs.TablesView.{files_of};

use link_sections::{Content, Got, InputSection, Pool, Pools, input_section, leads};
use lk_base::SecNo;
use lk_base::abi::{SHF_ALLOC, SHF_WRITE, SHT_PROGBITS};
use lk_tables::{Binding, Tables};
use std::alloc::{AllocError, Global};

/// What has a place of its own in an output section.
#[derive(Clone, Copy, Debug, PartialEq, Eq)]
pub struct Item<'a> {
    /// What it is.
    pub content: Content,
    /// Its name.
    pub name: &'a [u8],
    /// Its type (`sh_type`).
    pub sh_type: u32,
    /// Its flags (`sh_flags`).
    pub flags: u64,
    /// Its bytes, before any that do not stay are gone.
    pub size: u64,
    /// Its alignment in bytes.
    pub align: u64,
}

/// What has a place of its own, in the order of the command: each section that is its own leader, each pool at the place of its first section,
/// and last the linker's global offset table.
pub fn items_of<'a>(
    alloc: Global,
    tables: &Tables<'a>,
    binding: &Binding,
    pools: &Pools,
    got: &Got,
    leaders: &[Option<SecNo>],
) -> Result<Vec<Item<'a>>, AllocError>
    requires bound { IsBindingOf (files_of tables.now) (binding_view binding.now) }
    requires leaders { spec.AreLeaders (files_of tables.now) (binding_view binding.now) leaders.now }
    requires pools { spec.HaveFirsts (files_of tables.now) (binding_view binding.now) (pool_list pools.now) }
    ensures items { IfOk result (λ items. items_view items.items ≡ spec.items (files_of tables.now) (binding_view binding.now) (pool_list pools.now) (word_count (entries_of got.now)) leaders.now) }
    ensures sized { IfOk result (λ items. All spec.IsSized (items_view items.items)) }
    ensures few { IfOk result (λ items. length items.items ≤ 2 ^ 30) }
    ensures bytes { IfOk result (λ items. sum_by (λ item. item.size) (items_view items.items) < 2 ^ 61 + 2 ^ 40) }
{
    tables.prove_few();
    let merged = pools.pools();
    let mut items = Vec::with_capacity(alloc, room_of(leaders, merged))?;
    let mut next = 0;
    for section in 0..tables.section_count() as u32 {
        push_section(&mut items, tables, binding, leaders, section)?;
        next = push_pool(&mut items, tables, binding, merged, next, section)?;
    }
    items.push(got_item(got))?;
    Ok(items)
}

/// How many items there are at most, so that room is made for them at once.
fn room_of(leaders: &[Option<SecNo>], pools: &[Pool]) -> usize {
    let own = (0..leaders.len()).filter(|n| leads(leaders, *n)).count();
    own.saturating_add(pools.len()).saturating_add(1)
}

/// A section, if it is its own leader. One that is merged has no leader.
#[tactic(auto, unfolding(crate::specs::Items::own_item))]
fn push_section<'a>(
    items: &mut Vec<Item<'a>>,
    tables: &Tables<'a>,
    binding: &Binding,
    leaders: &[Option<SecNo>],
    section: SecNo,
) -> Result<(), AllocError>
    requires { section < section_total (files_of tables.now) }
    ensures { OnOk result (items_view items.new.items ≡ items_view items.old.items ++ spec.own_item leaders.now section (input_at (files_of tables.now) (binding_view binding.now) section)) }
{
    if !leads(leaders, section as usize) {
        return Ok(());
    }
    items.push(section_item(section, &input_section(tables, binding, section)))?;
    Ok(())
}

/// The next pool, if a section is its first: gives the number of the pool after those whose place has come.
fn push_pool<'a>(
    items: &mut Vec<Item<'a>>,
    tables: &Tables<'a>,
    binding: &Binding,
    pools: &[Pool],
    next: u32,
    section: SecNo,
) -> Result<u32, AllocError>
    requires number { section < section_total (files_of tables.now) }
    requires rising { AreRising pools.now }
    requires next { spec.IsNext pools.now section next }
    requires few { next ≤ section }
    ensures items { OnOk result (items_view items.new.items ≡ items_view items.old.items ++ spec.pool_at 0 pools.now section (input_at (files_of tables.now) (binding_view binding.now) section)) }
    ensures next { IfOk result (λ after. spec.IsNext pools.now (section + 1) after) }
    ensures few { IfOk result (λ after. after ≤ section + 1) }
{
    let Some(pool) = pools.get(next as usize) else {
        return Ok(next);
    };
    if pool.first != section {
        return Ok(next);
    }
    items.push(pool_item(next, pool.size, &input_section(tables, binding, section)))?;
    Ok(next + 1)
}

/// A section as an item.
fn section_item<'a>(section: SecNo, input: &InputSection<'a>) -> Item<'a>
    ensures { item_view result ≡ spec.section_item section (input_view input.now) }
{
    Item {
        content: Content::Section(section),
        name: input.name,
        sh_type: input.sh_type,
        flags: input.flags,
        size: input.size,
        align: input.align,
    }
}

/// A pool as an item, by what its first section is.
fn pool_item<'a>(pool: u32, size: u64, input: &InputSection<'a>) -> Item<'a>
    ensures { item_view result ≡ spec.pool_item pool size (input_view input.now) }
{
    Item {
        content: Content::Pool(pool),
        name: input.name,
        sh_type: SHT_PROGBITS,
        flags: input.flags,
        size,
        align: input.align,
    }
}

/// The linker's table as an item.
fn got_item(got: &Got) -> Item<'static>
    ensures item { item_view result ≡ spec.got_item (word_count (entries_of got.now)) }
    ensures few { word_count (entries_of got.now) < 2 ^ 34 }
{
    Item {
        content: Content::Got,
        name: b".got",
        sh_type: SHT_PROGBITS,
        flags: SHF_WRITE + SHF_ALLOC,
        size: 8 * got.words(),
        align: 8,
    }
}
