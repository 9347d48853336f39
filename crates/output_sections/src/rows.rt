//! The members of the output sections of a class, and their order.

ghost use Rattle.std.specs.Prelude.{◌≡◌, ℕ, ◌<◌, ◌++◌, ◌∷◌, ◌^◌, [], length, true, unwrap_or, IfOk, OnOk};
ghost use Rattle.std.specs.List.{list_any};
ghost use Rattle.std.specs.List.Sorted.{IsNonDecreasingBy};
ghost use Rattle.lk_base.specs.Order.{stable_order};
ghost use Rattle.lk_tables.specs.Classes.{class_no};
ghost use Rattle.output_sections.specs.Heads.{IsHeads, IsLast, IsNoted, IsPushed, Stays, head_in, last_row};
ghost use Rattle.output_sections.specs.ItemViews.{item_view, items_view};
ghost use Rattle.output_sections.specs.Present.{is_item_of};
ghost use Rattle.output_sections.specs.Order.{key_of, no_head, order_of, own_row, rows_of};

use crate::heads::{ClassHeads, Head, Last, no_head, note_item, turn_to};
use crate::items::Item;
use link_sections::Content;
use lk_tables::{Class, is_in, output_name, priority_of};
use std::alloc::{AllocError, Global};
use std::collections::BTreeMap;

/// A member of an output section, with what decides its place.
#[derive(Clone, Copy, Debug, PartialEq, Eq)]
pub struct Row {
    /// The place of its item in the order of the command.
    pub number: u32,
    /// What it is.
    pub content: Content,
    /// Its output section: the number of the first item of it.
    pub group: u32,
    /// The rank of that output section in its class.
    pub rank: u32,
    /// Its priority in it.
    pub priority: u32,
    /// Its type.
    pub sh_type: u32,
    /// Its flags.
    pub flags: u64,
    /// Bytes, before any that do not stay are gone.
    pub size: u64,
    /// Alignment in bytes.
    pub align: u64,
}

/// The place of a class in the order of the classes.
pub fn class_no(class: Class) -> usize
    ensures { result ≡ class_no class }
{
    match class {
        Class::R => 0,
        Class::Rx => 1,
        Class::TlsBits => 2,
        Class::TlsNobits => 3,
        Class::RwBits => 4,
        Class::RwNobits => 5,
    }
}

/// The members of the output sections of a class in their order; `wanted` says whether it has any.
pub fn class_rows<'a>(
    alloc: Global,
    class: Class,
    items: &[Item<'a>],
    wanted: bool,
) -> Result<Vec<Row>, AllocError>
    requires few { length items.now < 2 ^ 32 }
    requires wanted { wanted ≡ list_any (is_item_of class) items.now }
    ensures { IfOk result (λ rows. rows.items ≡ order_of class (items_view items.now)) }
{
    if !wanted {
        return Ok(Vec::new(alloc));
    }
    let mut rows = Vec::with_capacity(alloc, count_in(class, items))?;
    let noted = note_all(alloc, &mut rows, class, items)?;
    settle(&mut rows, &noted, class, items)?;
    sort_rows(&mut rows)?;
    Ok(rows)
}

/// How many items are of a class: so much room is made.
fn count_in(class: Class, items: &[Item]) -> usize {
    items
        .iter()
        .filter(|item| is_in(class, item.sh_type, item.flags))
        .count()
}

/// What a walk over all items found of a class.
#[derive(Drop)]
pub struct Noted<'a> {
    /// What is known of its output sections.
    pub known: ClassHeads<'a>,
    /// Whether what was known of one has stayed, from its first item on, so that the rows that were listed meanwhile are those of the class.
    pub settled: bool,
}

/// Notes the output sections of a class and lists its items, each by what is known of its output section so far.
fn note_all<'a>(
    alloc: Global,
    rows: &mut Vec<Row>,
    class: Class,
    items: &[Item<'a>],
) -> Result<Noted<'a>, AllocError>
    requires few { length items.now < 2 ^ 32 }
    requires none { rows.old.items ≡ [] }
    ensures heads { IfOk result (λ noted. IsHeads class (items_view items.now) noted.known.heads) }
    ensures held { IfOk result (λ noted. IsLast class noted.known.heads noted.known.last) }
    ensures rows { IfOk result (λ noted. noted.settled ≡ true → rows.new.items ≡ rows_of class (items_view items.now)) }
{
    let mut known = no_head(alloc, class);
    let mut settled = true;
    for (i, item) in items.iter().enumerate() {
        settled = note_row(rows, &mut known, settled, class, i as u32, item)?;
    }
    Ok(Noted { known, settled })
}

/// One more item, if it is of the class.
fn note_row<'a>(
    rows: &mut Vec<Row>,
    known: &mut ClassHeads<'a>,
    settled: bool,
    class: Class,
    number: u32,
    item: &Item<'a>,
) -> Result<bool, AllocError>
    requires { IsLast class known.old.heads known.old.last }
    ensures noted { OnOk result (IsNoted class number (item_view item.now) known.old.heads known.new.heads) }
    ensures held { OnOk result (IsLast class known.new.heads known.new.last) }
    ensures pushed { OnOk result (IsPushed class number (item_view item.now) known.new.heads rows.old.items rows.new.items) }
    ensures settled { IfOk result (λ still. still ≡ true → (settled ≡ true) × Stays known.old.heads known.new.heads) }
{
    if !is_in(class, item.sh_type, item.flags) {
        return Ok(settled);
    }
    let stayed = note_item(known, class, number, item, priority_of(item.name))?;
    push_row(rows, &known.last, number, item)?;
    Ok(settled & stayed)
}

/// Lists the items of a class once more, where what was known of an output section has changed.
fn settle<'a>(
    rows: &mut Vec<Row>,
    noted: &Noted<'a>,
    class: Class,
    items: &[Item<'a>],
) -> Result<(), AllocError>
    requires few { length items.now < 2 ^ 32 }
    requires heads { IsHeads class (items_view items.now) noted.now.known.heads }
    requires held { IsLast class noted.now.known.heads noted.now.known.last }
    requires rows { noted.now.settled ≡ true → rows.old.items ≡ rows_of class (items_view items.now) }
    ensures { OnOk result (rows.new.items ≡ rows_of class (items_view items.now)) }
{
    if noted.settled {
        return Ok(());
    }
    rows.clear();
    push_all(rows, &noted.known.heads, noted.known.last, class, items)
}

/// The items of a class in the order of the command, once all are noted.
fn push_all<'a>(
    rows: &mut Vec<Row>,
    heads: &BTreeMap<&'a [u8], Head>,
    last: Last<'a>,
    class: Class,
    items: &[Item<'a>],
) -> Result<(), AllocError>
    requires few { length items.now < 2 ^ 32 }
    requires none { rows.old.items ≡ [] }
    requires heads { IsHeads class (items_view items.now) heads.now }
    requires held { IsLast class heads.now last }
    ensures { OnOk result (rows.new.items ≡ rows_of class (items_view items.now)) }
{
    let mut last = last;
    for (i, item) in items.iter().enumerate() {
        last = push_if_in(rows, heads, last, class, i as u32, item)?;
    }
    Ok(())
}

/// One item after those before it, if it is of the class.
fn push_if_in<'a>(
    rows: &mut Vec<Row>,
    heads: &BTreeMap<&'a [u8], Head>,
    last: Last<'a>,
    class: Class,
    number: u32,
    item: &Item<'a>,
) -> Result<Last<'a>, AllocError>
    requires { IsLast class heads.now last }
    ensures rows { OnOk result (rows.new.items ≡ rows.old.items ++ own_row class (head_in heads.now) number (item_view item.now)) }
    ensures held { IfOk result (λ last. IsLast class heads.now last) }
{
    if !is_in(class, item.sh_type, item.flags) {
        return Ok(last);
    }
    let last = turn_to(heads, last, class, output_name(item.name));
    push_row(rows, &last, number, item)?;
    Ok(last)
}

/// One item after those before it.
#[tactic(auto, unfolding(crate::specs::Heads::last_row))]
fn push_row(rows: &mut Vec<Row>, last: &Last, number: u32, item: &Item) -> Result<(), AllocError>
    ensures { OnOk result (rows.new.items ≡ rows.old.items ++ last_row last.now number (item_view item.now) ∷ []) }
{
    rows.push(Row {
        number,
        content: item.content,
        group: group_of(last.head),
        rank: last.rank,
        priority: priority_of(item.name),
        sh_type: item.sh_type,
        flags: item.flags,
        size: item.size,
        align: item.align,
    })?;
    Ok(())
}

/// The number of an output section.
fn group_of(head: Option<Head>) -> u32
    ensures { result ≡ (unwrap_or head no_head).group }
{
    match head {
        Some(head) => head.group,
        None => 0,
    }
}

/// Rank, group and priority as one number.
#[tactic(auto, unfolding(crate::specs::Order::key_of))]
fn key_of(row: &Row) -> u128
    ensures { result ≡ key_of row.now }
{
    let section = ((row.rank as u128) << 32) + row.group as u128;
    (section << 32) + row.priority as u128
}

/// Puts rows into their order; ties stay as they stand.
fn sort_rows(rows: &mut Vec<Row>) -> Result<(), AllocError>
    ensures { OnOk result (rows.new.items ≡ stable_order key_of rows.old.items) }
{
    if is_ordered(rows.as_slice()) {
        return Ok(());
    }
    rows.sort_by_key(|row| key_of(row))?;
    Ok(())
}

/// Whether rows stand in their order.
fn is_ordered(rows: &[Row]) -> bool
    ensures { result ≡ true → IsNonDecreasingBy key_of rows.now }
{
    rows.is_sorted_by(|row, next| key_of(row) <= key_of(next))
}
