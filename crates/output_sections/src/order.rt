//! The output sections of a link and their members, in order.

ghost use Rattle.std.specs.Prelude.{◌≡◌, ◌+◌, ◌<◌, ◌≤◌, ◌^◌, All, length, IfOk};
ghost use Rattle.std.specs.List.{sum_by};
ghost use Rattle.std.proofs.Props.{props};
ghost use Rattle.link_sections.specs.GotEntries.{word_count};
ghost use Rattle.link_sections.specs.GotView.{entries_of};
ghost use Rattle.link_sections.specs.PoolViews.{pool_list};
ghost use Rattle.work_split.specs.Pieces.{Tiles};
ghost use Rattle.lk_tables.specs.BindingView.{binding_view};
ghost use Rattle.lk_tables.specs.BoundNames.{IsBindingOf};
ghost use Rattle.lk_tables.specs.TablesView.{files_of};
ghost use Rattle.output_sections.specs.HeadLaw.{AreHeads};
ghost use Rattle.output_sections.specs.Items.{AreLeaders, HaveFirsts, IsSized, items};
ghost use Rattle.output_sections.specs.ItemViews.{items_view};
ghost use Rattle.output_sections.specs.Order.{IsKnown, IsOrderPart, class_at, lists_view, members_in, orders_between, orders_of, rows_in};
ghost use Rattle.output_sections.specs.Present.{ArePresent};

use crate::items::{Item, items_of};
use crate::present::{Present, is_present, present_in};
use crate::rows::{Row, class_no, class_rows};
use flat_rows::Rows;
use link_sections::{Got, Pools};
use lk_base::{LinkStop, SecNo};
use lk_tables::{Binding, Class, Tables};
use std::alloc::{AllocError, Global};
use std::ops::Range;
use std::thread::Threads;
use work_split::{Gate, over_shares, pieces};

/// Fewer items a worker are not worth a thread.
const LEAST: usize = 8_192;

/// What has a place of its own in an executable, and the order in which it stands there.
#[derive(Debug, Drop)]
pub struct OutputSections<'a> {
    /// In the order of the command: each section that is its own leader, each pool at the place of its first section, and last the linker's
    /// global offset table.
    pub items: Vec<Item<'a>>,
    /// By class (`class_no`) the members of its output sections: one output section after the other, and those of one in their order.
    pub rows: Rows<Row>,

    ghost few: { length items.items ≤ 2 ^ 30 } by { Prim.hlevel props },
    ghost sized: { All IsSized (items_view items.items) } by { Prim.hlevel props },
    ghost bytes: { sum_by (λ item. item.size) (items_view items.items) < 2 ^ 61 + 2 ^ 40 } by { Prim.hlevel props },
    ghost ordered: { rows ≡ orders_of (items_view items.items) } by { Prim.hlevel props },
}

impl<'a> OutputSections<'a> {
    /// The members of the output sections of a class in their order.
    pub fn class(&self, class: Class) -> &[Row]
        ensures { result.now ≡ rows_in self.now.rows class }
    {
        self.rows.row(class_no(class))
    }
}

/// The output sections of a link: of the sections that are their own leaders, of the pools of merged pieces and of the linker's global offset
/// table, each class after the one before it, in a class by rank and first item, and in an output section by priority and the order of
/// the command. The workers do some classes each. The only error is out of memory.
pub fn order_sections<'a, R: Threads + Sync, G: Gate>(
    rt: &R,
    alloc: Global,
    tables: &Tables<'a>,
    binding: &Binding,
    pools: &Pools,
    got: &Got,
    leaders: &[Option<SecNo>],
    workers: u32,
    gate: &G,
) -> Result<OutputSections<'a>, AllocError>
    requires some { 1 ≤ workers }
    requires most { workers ≤ 64 }
    requires bound { IsBindingOf (files_of tables.now) (binding_view binding.now) }
    requires leaders { AreLeaders (files_of tables.now) (binding_view binding.now) leaders.now }
    requires pools { HaveFirsts (files_of tables.now) (binding_view binding.now) (pool_list pools.now) }
    ensures items { IfOk result (λ sections. items_view sections.items.items ≡ items (files_of tables.now) (binding_view binding.now) (pool_list pools.now) (word_count (entries_of got.now)) leaders.now) }
    ensures order { IfOk result (λ sections. sections.rows ≡ orders_of (items (files_of tables.now) (binding_view binding.now) (pool_list pools.now) (word_count (entries_of got.now)) leaders.now)) }
    ensures known { IfOk result (λ sections. All (IsKnown (files_of tables.now) (binding_view binding.now)) (members_in sections.rows)) }
    ensures heads { IfOk result (λ sections. AreHeads (items_view sections.items.items)) }
{
    let items = items_of(alloc, tables, binding, pools, got, leaders)?;
    let rows = rows_of(rt, alloc, &items, workers, gate)?;
    Ok(OutputSections { items, rows })
}

/// The members of the output sections of each class in their order. The workers do some classes each.
fn rows_of<R: Threads + Sync, G: Gate>(
    rt: &R,
    alloc: Global,
    items: &[Item],
    workers: u32,
    gate: &G,
) -> Result<Rows<Row>, AllocError>
    requires some { 1 ≤ workers }
    requires most { workers ≤ 64 }
    requires few { length items.now < 2 ^ 32 }
    ensures { IfOk result (λ rows. rows ≡ orders_of (items_view items.now)) }
{
    let pieces = pieces_of(alloc, items.len(), workers)?;
    let present = present_in(items);
    let lists = all_lists(rt, alloc, items, &present, pieces.as_slice(), gate)?;
    let rows = join_lists(alloc, lists)?;
    Ok(rows)
}

/// Lists as rows. The first that is not empty is not copied.
fn join_lists(alloc: Global, lists: Vec<Vec<Row>>) -> Result<Rows<Row>, AllocError>
    ensures { IfOk result (λ rows. rows ≡ lists_view lists.items) }
{
    let mut rows = Rows::empty(alloc)?;
    for list in lists {
        rows.push_vec(list)?;
    }
    Ok(rows)
}

/// The classes in pieces: one for each worker, or fewer where there are fewer than [`LEAST`] items a worker.
fn pieces_of(alloc: Global, items: usize, workers: u32) -> Result<Vec<Range<usize>>, AllocError>
    requires some { 1 ≤ workers }
    requires most { workers ≤ 64 }
    ensures tiles { IfOk result (λ pieces. Tiles 0 6 pieces.items) }
    ensures most { IfOk result (λ pieces. length pieces.items ≤ 64) }
{
    let wanted = (items / LEAST).min(workers as usize).max(1);
    pieces(alloc, 6, wanted as u32)
}

/// The members of each class in order, as lists: each worker makes those of a piece of the classes.
fn all_lists<R: Threads + Sync, G: Gate>(
    rt: &R,
    alloc: Global,
    items: &[Item],
    present: &Present,
    pieces: &[Range<usize>],
    gate: &G,
) -> Result<Vec<Vec<Row>>, AllocError>
    requires few { length items.now < 2 ^ 32 }
    requires present { ArePresent items.now present.now }
    requires tiles { Tiles 0 6 pieces.now }
    requires most { length pieces.now ≤ 64 }
    ensures { IfOk result (λ lists. lists_view lists.items ≡ orders_between (items_view items.now) 0 6) }
{
    let found = over_shares(
        rt,
        alloc,
        gate,
        pieces,
        |piece: Range<usize>| -> Result<Vec<Vec<Row>>, LinkStop>
            requires ordered { piece.start ≤ piece.end }
            requires within { piece.end ≤ 6 }
            requires few { length items.now < 2 ^ 32 }
            requires present { ArePresent items.now present.now }
            ensures { IsOrderPart (items_view items.entry.now) piece result }
        { Ok(lists_of(alloc, items, present, piece)?) },
    );
    match found {
        Ok(lists) => Ok(lists),
        Err(_) => Err(AllocError),
    }
}

/// The members of each class of a piece of the classes, in order.
fn lists_of(
    alloc: Global,
    items: &[Item],
    present: &Present,
    piece: Range<usize>,
) -> Result<Vec<Vec<Row>>, AllocError>
    requires ordered { piece.start ≤ piece.end }
    requires within { piece.end ≤ 6 }
    requires few { length items.now < 2 ^ 32 }
    requires present { ArePresent items.now present.now }
    ensures { IfOk result (λ lists. lists_view lists.items ≡ orders_between (items_view items.now) piece.start piece.end) }
{
    let mut lists = Vec::with_capacity(alloc, piece.end - piece.start)?;
    for place in piece.start..piece.end {
        let class = class_at(place as u32);
        let list = class_rows(alloc, class, items, is_present(present, class))?;
        lists.push(list)?;
    }
    Ok(lists)
}

/// The class at a place in the order of the classes.
#[tactic(auto, unfolding(crate::specs::Order::class_at))]
fn class_at(place: u32) -> Class
    ensures { result ≡ class_at place }
{
    match place {
        0 => Class::R,
        1 => Class::Rx,
        2 => Class::TlsBits,
        3 => Class::TlsNobits,
        4 => Class::RwBits,
        _ => Class::RwNobits,
    }
}
