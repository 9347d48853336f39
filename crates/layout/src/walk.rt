//! The walk: where the output sections of a class and their members stand, from a cursor on.

ghost use Rattle.std.specs.Prelude.{◌≡◌, ℕ, ◌+◌, ◌*◌, ◌%◌, ◌<◌, ◌≤◌, ◌∷◌, [], ◌++◌, ◌^◌, All, drop, length, map, take, ◌==◌, max, if◌then◌else◌, IfOk, OnOk};
ghost use Rattle.std.specs.List.{prefix_len};
ghost use Rattle.lk_base.specs.Arithmetic.{up};
ghost use Rattle.lk_base.specs.declared.abi.TheConstants.{ALIGN_MAX, NOBITS_MAX};
ghost use Rattle.link_sections.specs.LaidOut.{output_view, place_view};
ghost use Rattle.link_sections.specs.SizesView.{sizes_of};
ghost use Rattle.output_sections.specs.ItemViews.{items_view};
ghost use Rattle.layout.specs.Walk as spec;

use crate::places::{Places, place_row, put};
use link_sections::{Member, OutputPlace, OutputSection, Sizes};
use lk_base::abi::{SHF_ALLOC, SHF_EXECINSTR, SHF_TLS, SHF_WRITE, SHT_NOBITS, SHT_PROGBITS};
use lk_base::up;
use lk_tables::{Class, output_name};
use output_sections::{Item, Row};
use std::alloc::{AllocError, Global};

/// What the walk reads.
#[derive(Clone, Copy)]
pub struct Sources<'t, 'a> {
    pub alloc: Global,
    /// By their numbers.
    pub items: &'t [Item<'a>],
    /// Where sections lose bytes, before it is known how many of an alignment stay.
    pub sizes: &'t Sizes,
}

/// Where the walk goes on.
#[derive(Clone, Copy, Debug, PartialEq, Eq)]
pub struct Cursor {
    /// The address after what stands already.
    pub at: u64,
    /// An alignment that the next output section that is not empty takes beside its own, in bytes.
    pub extra: u64,
}

/// The output sections of a class, whose rows are given in order: those that are not empty go after `outputs`, their members after
/// `members`, where all of them are after `extents`, and where all members stand into `places`. Gives the cursor after them.
pub fn walk_class<'a>(
    from: &Sources<'_, 'a>,
    cursor: Cursor,
    class: Class,
    rows: &[Row],
    outputs: &mut Vec<OutputSection<'a>>,
    members: &mut Vec<Member>,
    extents: &mut Vec<OutputPlace<'a>>,
    places: &mut Places,
) -> Result<Cursor, AllocError>
    requires ready { All (spec.IsReady (sizes_of from.now.sizes.now) (length places.old.starts.items) (length places.old.pools.items)) rows.now }
    requires extra { cursor.extra ≤ ALIGN_MAX }
    requires room { cursor.at + spec.weight rows.now + ALIGN_MAX < 2 ^ 63 }
    ensures end { IfOk result (λ end. end ≡ spec.end_along (sizes_of from.now.sizes.now) cursor (spec.runs rows.now)) }
    ensures outputs { OnOk result (map output_view outputs.new.items ≡ map output_view outputs.old.items ++ spec.sections_along (sizes_of from.now.sizes.now) (items_view from.now.items.now) class cursor (spec.runs rows.now)) }
    ensures members { OnOk result (members.new.items ≡ members.old.items ++ spec.members_along (sizes_of from.now.sizes.now) cursor (spec.runs rows.now)) }
    ensures extents { OnOk result (map place_view extents.new.items ≡ map place_view extents.old.items ++ spec.places_along (sizes_of from.now.sizes.now) (items_view from.now.items.now) class cursor (spec.runs rows.now)) }
    ensures stands { OnOk result (spec.stands_view places.new ≡ spec.all_put (spec.stands_along (sizes_of from.now.sizes.now) cursor (spec.runs rows.now)) (spec.stands_view places.old)) }
    ensures bound { IfOk result (λ end. end.at ≤ cursor.at + spec.weight rows.now) }
    ensures extra { IfOk result (λ end. end.extra ≤ ALIGN_MAX) }
    ensures sections { OnOk result (length places.new.starts.items ≡ length places.old.starts.items) }
    ensures pools { OnOk result (length places.new.pools.items ≡ length places.old.pools.items) }
{
    let mut rest = rows;
    let mut at = cursor;
    while !rest.is_empty() {
        let (section, later) = rest.split_at(run_len(rest));
        at = walk_section(from, at, class, section, outputs, members, extents, places)?;
        rest = later;
    }
    Ok(at)
}

/// Whether no member has a byte.
#[tactic(auto, unfolding(crate::specs::Walk::is_empty))]
pub fn is_empty(rows: &[Row]) -> bool
    ensures { result ≡ spec.is_empty rows.now }
{
    rows.iter().all(|row| row.size == 0)
}

/// The greatest alignment of these members, and 1 of none.
#[tactic(auto, unfolding(crate::specs::Walk::greatest))]
pub fn greatest_alignment(rows: &[Row]) -> u64
    requires { All (λ row. row.align ≤ ALIGN_MAX) rows.now }
    ensures value { result ≡ spec.greatest rows.now }
    ensures some { 1 ≤ result }
    ensures bound { result ≤ ALIGN_MAX }
{
    let mut found: u64 = 1;
    for row in rows {
        found = found.max(row.align);
    }
    found
}

/// The flags of members together, of those that an output section keeps.
#[tactic(auto, unfolding(crate::specs::Walk::flags_of))]
fn flags_of(rows: &[Row]) -> u64
    ensures { result ≡ spec.flags_of rows.now }
{
    let mut flags: u64 = 0;
    for row in rows {
        flags |= row.flags;
    }
    flags & (SHF_WRITE | SHF_ALLOC | SHF_EXECINSTR | SHF_TLS)
}

fn first_name<'a>(items: &[Item<'a>], rows: &[Row]) -> &'a [u8]
    ensures { result.now ≡ spec.first_name (items_view items.now) rows.now }
{
    let Some(row) = rows.first() else {
        return &[];
    };
    let Some(item) = items.get(row.number as usize) else {
        return &[];
    };
    output_name(item.name)
}

fn first_type(class: Class, rows: &[Row]) -> u32
    ensures { result ≡ spec.first_type class rows.now }
{
    if class == Class::TlsNobits || class == Class::RwNobits {
        return SHT_NOBITS;
    }
    let Some(row) = rows.first() else {
        return SHT_PROGBITS;
    };
    if row.sh_type == SHT_NOBITS {
        return SHT_PROGBITS;
    }
    row.sh_type
}

/// Puts the members of an output section that is not empty one after another, and gives their end.
fn walk_members(
    from: &Sources,
    start: u64,
    rows: &[Row],
    members: &mut Vec<Member>,
    places: &mut Places,
) -> Result<u64, AllocError>
    requires ready { All (spec.IsReady (sizes_of from.now.sizes.now) (length places.old.starts.items) (length places.old.pools.items)) rows.now }
    requires room { start + spec.weight rows.now < 2 ^ 63 }
    ensures end { IfOk result (λ end. end ≡ spec.past (sizes_of from.now.sizes.now) start rows.now) }
    ensures members { OnOk result (members.new.items ≡ members.old.items ++ spec.members_from (sizes_of from.now.sizes.now) start rows.now) }
    ensures stands { OnOk result (spec.stands_view places.new ≡ spec.all_put (spec.members_from (sizes_of from.now.sizes.now) start rows.now) (spec.stands_view places.old)) }
    ensures least { IfOk result (λ end. start ≤ end) }
    ensures bound { IfOk result (λ end. end + length rows.now * ALIGN_MAX ≤ start + spec.weight rows.now) }
    ensures sections { OnOk result (length places.new.starts.items ≡ length places.old.starts.items) }
    ensures pools { OnOk result (length places.new.pools.items ≡ length places.old.pools.items) }
{
    members.reserve(rows.len())?;
    let mut cursor = start;
    for row in rows {
        let member = place_row(from.alloc, from.sizes, row, up(cursor, row.align), places)?;
        cursor = member.start + member.size;
        members.push(member)?;
    }
    Ok(cursor)
}

/// Puts the members of an empty output section at its start.
fn walk_empty(start: u64, rows: &[Row], places: &mut Places)
    requires known { All (spec.IsKnown (length places.old.starts.items) (length places.old.pools.items)) rows.now }
    ensures stands { spec.stands_view places.new ≡ spec.all_put (spec.members_still start rows.now) (spec.stands_view places.old) }
    ensures sections { length places.new.starts.items ≡ length places.old.starts.items }
    ensures pools { length places.new.pools.items ≡ length places.old.pools.items }
{
    for row in rows {
        put(places, row.content, start);
    }
}

/// An output section from its start to its end.
#[tactic(auto, unfolding(crate::specs::Walk::section_of))]
fn describe<'a>(
    items: &[Item<'a>],
    class: Class,
    rows: &[Row],
    start: u64,
    end: u64,
    align: u64,
) -> OutputSection<'a>
    requires aligned { align ≡ spec.greatest rows.now }
    requires rising { start ≤ end }
    ensures { output_view result ≡ spec.section_of (items_view items.now) class rows.now start end }
{
    OutputSection {
        name: first_name(items, rows),
        class,
        sh_type: first_type(class, rows),
        flags: flags_of(rows),
        address: start,
        size: end - start,
        align,
        count: rows.len() as u64,
    }
}

/// Where an output section is.
#[tactic(auto, unfolding(crate::specs::Walk::place_of))]
fn extent<'a>(
    items: &[Item<'a>],
    class: Class,
    rows: &[Row],
    start: u64,
    end: u64,
) -> OutputPlace<'a>
    ensures { place_view result ≡ spec.place_of (items_view items.now) class rows.now start end }
{
    OutputPlace {
        name: first_name(items, rows),
        class,
        start,
        end,
    }
}

/// The alignment of an output section at its start, where `align` is the greatest of its members.
fn start_alignment(cursor: Cursor, align: u64, empty: bool) -> u64
    requires some { 1 ≤ align }
    requires most { align ≤ ALIGN_MAX }
    requires extra { cursor.extra ≤ ALIGN_MAX }
    ensures value { result ≡ (if empty then align else max cursor.extra align) }
    ensures some { 1 ≤ result }
    ensures bound { result ≤ ALIGN_MAX }
{
    if empty {
        return align;
    }
    cursor.extra.max(align)
}

/// One output section: gives the cursor after it.
#[tactic(auto, unfolding(crate::specs::Walk::after, crate::specs::Walk::section_in, crate::specs::Walk::stands_in, crate::specs::Walk::members_in, crate::specs::Walk::place_in, crate::specs::Walk::start_of))]
fn walk_section<'a>(
    from: &Sources<'_, 'a>,
    cursor: Cursor,
    class: Class,
    rows: &[Row],
    outputs: &mut Vec<OutputSection<'a>>,
    members: &mut Vec<Member>,
    extents: &mut Vec<OutputPlace<'a>>,
    places: &mut Places,
) -> Result<Cursor, AllocError>
    requires some { 0 < length rows.now }
    requires ready { All (spec.IsReady (sizes_of from.now.sizes.now) (length places.old.starts.items) (length places.old.pools.items)) rows.now }
    requires extra { cursor.extra ≤ ALIGN_MAX }
    requires room { cursor.at + spec.weight rows.now + ALIGN_MAX < 2 ^ 63 }
    ensures end { IfOk result (λ end. end ≡ spec.after (sizes_of from.now.sizes.now) cursor rows.now) }
    ensures outputs { OnOk result (map output_view outputs.new.items ≡ map output_view outputs.old.items ++ spec.section_in (sizes_of from.now.sizes.now) (items_view from.now.items.now) class cursor rows.now) }
    ensures members { OnOk result (members.new.items ≡ members.old.items ++ spec.members_in (sizes_of from.now.sizes.now) cursor rows.now) }
    ensures extents { OnOk result (map place_view extents.new.items ≡ map place_view extents.old.items ++ spec.place_in (sizes_of from.now.sizes.now) (items_view from.now.items.now) class cursor rows.now ∷ []) }
    ensures stands { OnOk result (spec.stands_view places.new ≡ spec.all_put (spec.stands_in (sizes_of from.now.sizes.now) cursor rows.now) (spec.stands_view places.old)) }
    ensures bound { IfOk result (λ end. end.at ≤ cursor.at + spec.weight rows.now) }
    ensures extra { IfOk result (λ end. end.extra ≤ ALIGN_MAX) }
    ensures sections { OnOk result (length places.new.starts.items ≡ length places.old.starts.items) }
    ensures pools { OnOk result (length places.new.pools.items ≡ length places.old.pools.items) }
{
    let empty = is_empty(rows);
    let align = greatest_alignment(rows);
    let start = up(cursor.at, start_alignment(cursor, align, empty));
    if empty {
        walk_empty(start, rows, places);
        extents.push(extent(from.items, class, rows, start, start))?;
        return Ok(cursor);
    }
    let end = walk_members(from, start, rows, members, places)?;
    outputs.push(describe(from.items, class, rows, start, end, align))?;
    extents.push(extent(from.items, class, rows, start, end))?;
    Ok(Cursor { at: end, extra: 1 })
}

/// How many rows from the first on are of this group.
fn same_len(group: u32, rows: &[Row]) -> usize
    ensures value { result ≡ prefix_len (λ row. row.group == group) rows.now }
    ensures within { result ≤ length rows.now }
{
    for (i, row) in rows.iter().enumerate() {
        if row.group != group {
            return i;
        }
    }
    rows.len()
}

/// How many rows make the first output section.
fn run_len(rows: &[Row]) -> usize
    requires { 0 < length rows.now }
    ensures value { spec.runs rows.now ≡ take result rows.now ∷ spec.runs (drop result rows.now) }
    ensures some { 0 < result }
    ensures within { result ≤ length rows.now }
{
    let Some((first, rest)) = rows.split_first() else {
        return 0;
    };
    1 + same_len(first.group, rest)
}
