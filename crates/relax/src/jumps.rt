//! Calls as jumps between points, of which the distances depend on the sizes of the calls between them.

ghost use Rattle.std.specs.Prelude.{◌≡◌, ◌+◌, ◌-◌, ◌<◌, ◌^◌, length, map, All, IfOk};
ghost use Rattle.std.specs.List.{range_with_len};
ghost use Rattle.std.specs.List.Sorted.{IsNonDecreasingBy};
ghost use Rattle.relax.specs.declared.calls.Call.{Call};
ghost use Rattle.relax.specs.CallSizes.{all_calls, goes_forwards};
ghost use Rattle.relax.specs.Points as spec;

use crate::calls::Call;
use flat_rows::Rows;
use output_sections::Row;
use std::alloc::{AllocError, Global};

/// A point of a section, counted from the start of all.
#[derive(Clone, Copy, Debug, PartialEq, Eq)]
pub struct Point {
    /// The greatest number of bytes before it, if each call has eight.
    pub place: u128,
    /// The number of the first call that does not end before it.
    pub call: usize,
    /// How many bytes of that call's eight stand before it.
    pub depth: u64,
}

/// A call and its target.
#[derive(Clone, Copy, Debug, PartialEq, Eq)]
pub struct Jump {
    /// The one of the two that stands first.
    pub low: Point,
    /// The one of the two that stands last.
    pub high: Point,
    /// Whether the target stands after the call.
    pub forwards: bool,
    /// The least size that the call may have: 2 or 4 bytes.
    pub least: u8,
}

/// Where a member starts.
#[derive(Clone, Copy, Debug, PartialEq, Eq)]
pub struct Mark {
    /// The greatest number of bytes before it, if each call has eight.
    pub start: u128,
    /// The number of its first call.
    pub first: usize,
}

/// The jumps that the calls of all members are, in order.
#[tactic(auto, unfolding(crate::specs::Points::jumps_in))]
pub fn jumps_of(
    alloc: Global,
    members: &[Row],
    rows: &Rows<Call>,
    marks: &[Mark],
) -> Result<Vec<Jump>, AllocError>
    requires few { length members.now < 2 ^ 33 }
    requires sound { spec.AreSoundRows members.now rows.now }
    requires marks { marks.now ≡ map (spec.mark_at members.now rows.now) (range_with_len 0 (length members.now)) }
    requires low { All spec.IsLowMark marks.now }
    ensures jumps { IfOk result (λ jumps. jumps.items ≡ spec.jumps_in members.now rows.now) }
    ensures low { IfOk result (λ jumps. All spec.IsLowJump jumps.items) }
{
    let calls = rows.items();
    let mut jumps = Vec::with_capacity(alloc, calls.len())?;
    for k in 0..calls.len() {
        jumps.push(jump_of(members, rows, marks, &calls[k]))?;
    }
    Ok(jumps)
}

/// Where each member starts.
pub fn marks_of(alloc: Global, members: &[Row], rows: &Rows<Call>) -> Result<Vec<Mark>, AllocError>
    requires few { length members.now < 2 ^ 33 }
    requires sound { spec.AreSoundRows members.now rows.now }
    ensures marks { IfOk result (λ marks. marks.items ≡ map (spec.mark_at members.now rows.now) (range_with_len 0 (length members.now))) }
    ensures low { IfOk result (λ marks. All spec.IsLowMark marks.items) }
{
    let mut marks = Vec::with_capacity(alloc, members.len())?;
    let mut start: u128 = 0;
    let mut first: usize = 0;
    count_of(rows);
    for i in 0..members.len() {
        let pad = members[i].align.saturating_sub(1) as u128;
        marks.push(Mark {
            start: start + pad,
            first,
        })?;
        start += whole_room(&members[i]);
        first += rows.row(i).len();
    }
    Ok(marks)
}

/// The most bytes that a member takes, with those before it for its alignment.
fn whole_room(member: &Row) -> u128
    ensures value { result ≡ (member.now.align - 1) + member.now.size }
    ensures few { result < 2 ^ 65 }
{
    member.align.saturating_sub(1) as u128 + member.size as u128
}

/// How many calls there are.
pub fn count_of(rows: &Rows<Call>) -> usize
    ensures value { result ≡ length (all_calls rows.now) }
    ensures few { length (all_calls rows.now) < 2 ^ 64 }
{
    rows.items().len()
}

/// A call as a jump.
#[tactic(auto, unfolding(crate::specs::Points::jump_of))]
pub fn jump_of(members: &[Row], rows: &Rows<Call>, marks: &[Mark], call: &Call) -> Jump
    requires few { length members.now < 2 ^ 33 }
    requires sound { spec.AreSoundRows members.now rows.now }
    requires marks { marks.now ≡ map (spec.mark_at members.now rows.now) (range_with_len 0 (length members.now)) }
    requires low { All spec.IsLowMark marks.now }
    requires from { call.now.from < length members.now }
    requires to { call.now.to < length members.now }
    requires count { length (all_calls rows.now) < 2 ^ 64 }
    ensures value { result ≡ spec.jump_of members.now rows.now call.now }
    ensures low { spec.IsLowJump result }
{
    let from = point_at(members, rows, marks, call.from, call.offset);
    let to = point_at(members, rows, marks, call.to, call.target);
    if goes_forwards(call) {
        return Jump {
            low: from,
            high: to,
            forwards: true,
            least: call.least,
        };
    }
    Jump {
        low: to,
        high: from,
        forwards: false,
        least: call.least,
    }
}

/// An offset of a member as a point.
#[tactic(auto, unfolding(crate::specs::Points::point_at))]
fn point_at(members: &[Row], rows: &Rows<Call>, marks: &[Mark], i: usize, offset: u64) -> Point
    requires few { length members.now < 2 ^ 33 }
    requires sound { spec.AreSoundRows members.now rows.now }
    requires marks { marks.now ≡ map (spec.mark_at members.now rows.now) (range_with_len 0 (length members.now)) }
    requires low { All spec.IsLowMark marks.now }
    requires within { i < length members.now }
    requires count { length (all_calls rows.now) < 2 ^ 64 }
    ensures value { result ≡ spec.point_at members.now rows.now i offset }
    ensures low { result.place < 2 ^ 100 }
{
    let mark = &marks[i];
    if offset == 0 {
        return start_of(mark);
    }
    point_in(rows.row(i), mark, offset)
}

/// The start of a member as a point: no call ends before it, so that none is looked at.
fn start_of(mark: &Mark) -> Point
    ensures { result ≡ spec.start_of mark.now }
{
    Point {
        place: mark.start,
        call: mark.first,
        depth: 0,
    }
}

/// Whether the target of a call stands after it, or where it stands.
fn goes_forwards(call: &Call) -> bool
    ensures { result ≡ goes_forwards call.now }
{
    if call.from == call.to {
        return call.offset <= call.target;
    }
    call.from < call.to
}

/// An offset of a row of calls as a point.
#[tactic(auto, unfolding(crate::specs::Points::point_in))]
fn point_in(row: &[Call], mark: &Mark, offset: u64) -> Point
    requires sorted { IsNonDecreasingBy (λ (c : Call). c.offset) row.now }
    requires start { mark.now.start < 2 ^ 99 }
    requires first { mark.now.first + length row.now < 2 ^ 64 }
    ensures value { result ≡ spec.point_in row.now mark.now offset }
    ensures low { result.place < 2 ^ 100 }
{
    let n = ended(row, offset);
    Point {
        place: mark.start + offset as u128,
        call: mark.first + n,
        depth: depth_in(row, n, offset),
    }
}

/// How many calls end before an offset, or there.
fn ended(row: &[Call], offset: u64) -> usize
    requires { IsNonDecreasingBy (λ (c : Call). c.offset) row.now }
    ensures { result ≡ spec.ended row.now offset }
{
    row.partition_point(|call| call.offset as u128 + 8 <= offset as u128)
}

/// How far an offset is in a call; 0 past the last.
fn depth_in(row: &[Call], n: usize, offset: u64) -> u64
    ensures { result ≡ spec.depth_in row.now n offset }
{
    match row.get(n) {
        Some(call) => offset.saturating_sub(call.offset),
        None => 0,
    }
}
