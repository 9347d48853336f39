//! The sizes of calls. That of most calls is decided by the bytes between their points alone: even if no call lost any, they would reach their
//! targets, or even if all lost as many as they can, they would not. Rounds are made over the others.

ghost use Rattle.std.specs.Prelude.{◌≡◌, ◌+◌, ◌*◌, ◌-◌, ◌<◌, ◌≤◌, ◌^◌, ◌++◌, length, map, flat_map, set, All, IfOk, IfSome, OnOk, List, if◌then◌else◌};
ghost use Rattle.std.specs.List.{list_any, range_with_len};
ghost use Rattle.work_split.specs.Pieces.{Tiles};
ghost use Rattle.relax.specs.declared.jumps.Jump.{Jump as JumpOf};
ghost use Rattle.relax.specs.Bands as spec;
ghost use Rattle.relax.specs.CallSizes.{all_calls};
ghost use Rattle.relax.specs.Jumps.{AreBelow, AreSafe, IsJump, jump_bytes, lost_before};
ghost use Rattle.relax.specs.Losses.{coarse_sums};
ghost use Rattle.relax.specs.Points as points;

use crate::calls::Call;
use crate::jumps::{Jump, Mark, Point, count_of, jump_of, jumps_of};
use crate::losses::{coarse_sums, lost_by};
use crate::solving::{allows, least_sizes, size_at};
use flat_rows::Rows;
use lk_base::LinkStop;
use output_sections::Row;
use std::alloc::{AllocError, Global};
use std::ops::Range;
use std::thread::Threads;
use work_split::{Gate, over_shares, pieces_of_least};

/// Fewer calls are not worth a thread.
const LEAST: usize = 8_192;

/// So many rounds are made before all calls are looked at.
const ROUNDS: u32 = 24;

/// A call whose size depends on those of others, by its number.
#[derive(Clone, Copy, Debug, PartialEq, Eq)]
pub struct Open {
    pub call: usize,
    pub jump: Jump,
}

/// What is known of a run of calls by the bytes between their points.
#[derive(Drop)]
pub struct Banded {
    /// By call, eight bytes if it is sure not to reach its target with fewer, and else the least that it may have.
    pub sizes: Vec<u8>,
    /// The calls whose sizes depend on those of others, in order.
    pub opens: Vec<Open>,
}

/// The sizes of all calls, by number: those that allow all distances, and of all such the least of each call.
pub fn call_sizes<R: Threads + Sync, G: Gate>(
    rt: &R,
    alloc: Global,
    members: &[Row],
    rows: &Rows<Call>,
    marks: &[Mark],
    workers: u32,
    gate: &G,
) -> Result<Vec<u8>, AllocError>
    requires some { 1 ≤ workers }
    requires most { workers ≤ 64 }
    requires few { length members.now < 2 ^ 33 }
    requires sound { points.AreSoundRows members.now rows.now }
    requires marks { marks.now ≡ map (points.mark_at members.now rows.now) (range_with_len 0 (length members.now)) }
    requires low { All points.IsLowMark marks.now }
    ensures safe { IfOk result (λ sizes. AreSafe (points.jumps_in members.now rows.now) sizes.items) }
    ensures least { IfOk result (λ sizes. AreBelow (points.jumps_in members.now rows.now) sizes.items) }
{
    let banded = bands_of(rt, alloc, members, rows, marks, workers, gate)?;
    let Banded { sizes, opens } = banded;
    match settled(alloc, opens.as_slice(), sizes)? {
        Some(sizes) => Ok(sizes),
        None => all_sizes(alloc, members, rows, marks),
    }
}

/// The sizes of all calls, by number, found by looking at all calls.
fn all_sizes(
    alloc: Global,
    members: &[Row],
    rows: &Rows<Call>,
    marks: &[Mark],
) -> Result<Vec<u8>, AllocError>
    requires few { length members.now < 2 ^ 33 }
    requires sound { points.AreSoundRows members.now rows.now }
    requires marks { marks.now ≡ map (points.mark_at members.now rows.now) (range_with_len 0 (length members.now)) }
    requires low { All points.IsLowMark marks.now }
    ensures safe { IfOk result (λ sizes. AreSafe (points.jumps_in members.now rows.now) sizes.items) }
    ensures least { IfOk result (λ sizes. AreBelow (points.jumps_in members.now rows.now) sizes.items) }
{
    let jumps = jumps_of(alloc, members, rows, marks)?;
    let sizes = least_sizes(alloc, jumps.as_slice())?;
    Ok(sizes)
}

/// What is known of all calls. The workers each look at a run of them.
fn bands_of<R: Threads + Sync, G: Gate>(
    rt: &R,
    alloc: Global,
    members: &[Row],
    rows: &Rows<Call>,
    marks: &[Mark],
    workers: u32,
    gate: &G,
) -> Result<Banded, AllocError>
    requires some { 1 ≤ workers }
    requires most { workers ≤ 64 }
    requires few { length members.now < 2 ^ 33 }
    requires sound { points.AreSoundRows members.now rows.now }
    requires marks { marks.now ≡ map (points.mark_at members.now rows.now) (range_with_len 0 (length members.now)) }
    requires low { All points.IsLowMark marks.now }
    ensures { IfOk result (spec.HasBands members.now rows.now 0 (length (all_calls rows.now))) }
{
    let pieces = pieces_of_least(alloc, count_of(rows), LEAST, workers)?;
    let parts = all_parts(rt, alloc, members, rows, marks, pieces.as_slice(), gate)?;
    let whole = join_bands(alloc, parts)?;
    Ok(whole)
}

/// What is known of all calls, in parts: each worker makes one, of a piece of the calls.
fn all_parts<R: Threads + Sync, G: Gate>(
    rt: &R,
    alloc: Global,
    members: &[Row],
    rows: &Rows<Call>,
    marks: &[Mark],
    pieces: &[Range<usize>],
    gate: &G,
) -> Result<Vec<Banded>, AllocError>
    requires few { length members.now < 2 ^ 33 }
    requires sound { points.AreSoundRows members.now rows.now }
    requires marks { marks.now ≡ map (points.mark_at members.now rows.now) (range_with_len 0 (length members.now)) }
    requires low { All points.IsLowMark marks.now }
    requires tiles { Tiles 0 (length (all_calls rows.now)) pieces.now }
    requires most { length pieces.now ≤ 64 }
    ensures { IfOk result (λ parts. spec.AreBands members.now rows.now 0 (length (all_calls rows.now)) parts.items) }
{
    let found = over_shares(
        rt,
        alloc,
        gate,
        pieces,
        |piece: Range<usize>| -> Result<Vec<Banded>, LinkStop>
            requires few { length members.now < 2 ^ 33 }
            requires sound { points.AreSoundRows members.now rows.now }
            requires marks { marks.now ≡ map (points.mark_at members.now rows.now) (range_with_len 0 (length members.now)) }
            requires low { All points.IsLowMark marks.now }
            requires ordered { piece.start ≤ piece.end }
            requires within { piece.end ≤ length (all_calls rows.now) }
            ensures { IfOk result (λ parts. spec.AreBands members.entry.now rows.entry.now piece.start piece.end parts.items) }
        { Ok(one_part(alloc, members, rows, marks, piece)?) },
    );
    match found {
        Ok(parts) => Ok(parts),
        Err(_) => Err(AllocError),
    }
}

/// What is known of a run of calls, as a list of one.
fn one_part(
    alloc: Global,
    members: &[Row],
    rows: &Rows<Call>,
    marks: &[Mark],
    piece: Range<usize>,
) -> Result<Vec<Banded>, AllocError>
    requires few { length members.now < 2 ^ 33 }
    requires sound { points.AreSoundRows members.now rows.now }
    requires marks { marks.now ≡ map (points.mark_at members.now rows.now) (range_with_len 0 (length members.now)) }
    requires low { All points.IsLowMark marks.now }
    requires ordered { piece.start ≤ piece.end }
    requires within { piece.end ≤ length (all_calls rows.now) }
    ensures { IfOk result (λ parts. spec.AreBands members.now rows.now piece.start piece.end parts.items) }
{
    let mut parts = Vec::with_capacity(alloc, 1)?;
    parts.push(bands_in(alloc, members, rows, marks, piece)?)?;
    Ok(parts)
}

/// What is known of a run of calls.
fn bands_in(
    alloc: Global,
    members: &[Row],
    rows: &Rows<Call>,
    marks: &[Mark],
    piece: Range<usize>,
) -> Result<Banded, AllocError>
    requires few { length members.now < 2 ^ 33 }
    requires sound { points.AreSoundRows members.now rows.now }
    requires marks { marks.now ≡ map (points.mark_at members.now rows.now) (range_with_len 0 (length members.now)) }
    requires low { All points.IsLowMark marks.now }
    requires ordered { piece.start ≤ piece.end }
    requires within { piece.end ≤ length (all_calls rows.now) }
    ensures { IfOk result (spec.HasBands members.now rows.now piece.start piece.end) }
{
    let calls = rows.items();
    count_of(rows);
    let mut sizes = Vec::with_capacity(alloc, piece.end - piece.start)?;
    let mut opens = Vec::new(alloc);
    for k in piece.start..piece.end {
        let jump = jump_of(members, rows, marks, &calls[k]);
        sizes.push(first_size(&jump))?;
        push_open(&mut opens, k, &jump)?;
    }
    Ok(Banded { sizes, opens })
}

/// Adds a call, if its size depends on those of others.
fn push_open(opens: &mut Vec<Open>, call: usize, jump: &Jump) -> Result<(), AllocError>
    ensures { OnOk result (opens.new.items ≡ opens.old.items ++ spec.open_if call jump.now) }
{
    if is_open(jump) {
        opens.push(Open { call, jump: *jump })?;
    }
    Ok(())
}

/// Whether the size of a call depends on those of others.
fn is_open(jump: &Jump) -> bool
    ensures { result ≡ spec.is_open jump.now }
{
    !is_near(jump) && !is_far(jump)
}

/// The size of a call from which rounds begin: eight bytes if it is sure not to reach its target with fewer, and else the least that it may have.
fn first_size(jump: &Jump) -> u8
    ensures { result ≡ spec.first_size jump.now }
{
    if is_far(jump) {
        return 8;
    }
    jump.least
}

/// Whether a call reaches its target with the least size that it may have, even if no call loses any bytes.
#[tactic(auto, unfolding(crate::specs::Bands::is_near))]
fn is_near(jump: &Jump) -> bool
    ensures { result ≡ spec.is_near jump.now }
{
    allows(jump.least, jump, span_of(jump))
}

/// Whether a call does not reach its target with four bytes, even if each call between its points loses six.
#[tactic(auto, unfolding(crate::specs::Bands::is_far))]
fn is_far(jump: &Jump) -> bool
    ensures { result ≡ spec.is_far jump.now }
{
    !allows(4, jump, least_span(jump))
}

/// The bytes between the points of a jump if no call loses any.
fn span_of(jump: &Jump) -> u128
    ensures { result ≡ spec.span_of jump.now }
{
    jump.high.place.saturating_sub(jump.low.place)
}

/// The bytes between the points of a jump if each call between them loses six.
fn least_span(jump: &Jump) -> u128
    ensures { result ≡ spec.least_span jump.now }
{
    let calls = jump.high.call.saturating_sub(jump.low.call) as u128 + 1;
    span_of(jump).saturating_sub(6 * calls)
}

/// What is known of all calls, part after part. The lists of the first are not copied.
fn join_bands(alloc: Global, parts: Vec<Banded>) -> Result<Banded, AllocError>
    ensures { IfOk result (spec.IsJoin parts.items) }
{
    let mut whole = Banded {
        sizes: Vec::new(alloc),
        opens: Vec::new(alloc),
    };
    for part in parts {
        take_part(&mut whole, part)?;
    }
    Ok(whole)
}

/// Adds what is known of the next calls. If there are no others, their lists are not copied.
fn take_part(whole: &mut Banded, part: Banded) -> Result<(), AllocError>
    ensures { OnOk result (spec.Joins part whole.old whole.new) }
{
    let Banded { sizes, opens } = part;
    put_sizes(&mut whole.sizes, sizes)?;
    put_opens(&mut whole.opens, opens)
}

/// Adds sizes; if there are no others, they are not copied.
fn put_sizes(whole: &mut Vec<u8>, more: Vec<u8>) -> Result<(), AllocError>
    ensures { OnOk result (whole.new.items ≡ whole.old.items ++ more.items) }
{
    if whole.len() == 0 {
        *whole = more;
        return Ok(());
    }
    whole.extend_from_slice(more.as_slice())?;
    Ok(())
}

/// Adds calls; if there are no others, they are not copied.
fn put_opens(whole: &mut Vec<Open>, more: Vec<Open>) -> Result<(), AllocError>
    ensures { OnOk result (whole.new.items ≡ whole.old.items ++ more.items) }
{
    if whole.len() == 0 {
        *whole = more;
        return Ok(());
    }
    whole.extend_from_slice(more.as_slice())?;
    Ok(())
}

/// The sizes after a round, and whether one rose.
#[derive(Drop)]
struct Round {
    sizes: Vec<u8>,
    rises: bool,
}

/// The sizes that all calls have once none of the open ones rises, if that is so after some rounds.
fn settled(alloc: Global, opens: &[Open], sizes: Vec<u8>) -> Result<Option<Vec<u8>>, AllocError>
    requires opens { All (spec.IsOpenOf (length sizes.items)) opens.now }
    ensures { IfOk result (λ found. IfSome found (λ z. (jumps : List JumpOf) → spec.IsBanded jumps opens.now sizes.items → AreSafe jumps z.items × AreBelow jumps z.items)) }
{
    let mut sizes = sizes;
    for _round in 0..ROUNDS {
        let sums = coarse_sums(alloc, sizes.as_slice())?;
        let next = next_round(alloc, opens, sizes.as_slice(), sums.as_slice())?;
        if !next.rises {
            return Ok(Some(sizes));
        }
        sizes = next.sizes;
    }
    Ok(None)
}

/// The sizes after a round: each open call that does not allow its distance is raised.
fn next_round(
    alloc: Global,
    opens: &[Open],
    sizes: &[u8],
    sums: &[u128],
) -> Result<Round, AllocError>
    requires opens { All (spec.IsOpenOf (length sizes.now)) opens.now }
    requires sums { sums.now ≡ coarse_sums sizes.now }
    ensures sizes { IfOk result (λ next. next.sizes.items ≡ spec.raised_from sizes.now opens.now sizes.now) }
    ensures rises { IfOk result (λ next. next.rises ≡ list_any (spec.is_late sizes.now) opens.now) }
{
    let mut raised = Vec::from_slice(alloc, sizes)?;
    let mut rises = false;
    for one in opens {
        let late = is_late(sizes, sums, one);
        raise_if(&mut raised, late, one.call, size_at(sizes, one.call));
        rises = rises | late;
    }
    Ok(Round {
        sizes: raised,
        rises,
    })
}

/// Whether an open call does not allow its distance.
#[tactic(auto, unfolding(crate::specs::Bands::is_late))]
fn is_late(sizes: &[u8], sums: &[u128], one: &Open) -> bool
    requires one { spec.IsOpenOf (length sizes.now) one.now }
    requires sums { sums.now ≡ coarse_sums sizes.now }
    ensures { result ≡ spec.is_late sizes.now one.now }
{
    !allows(
        size_at(sizes, one.call),
        &one.jump,
        bytes_by(&one.jump, sizes, sums),
    )
}

/// The bytes between the points of a jump.
#[tactic(auto, unfolding(crate::specs::Jumps::jump_bytes))]
fn bytes_by(jump: &Jump, sizes: &[u8], sums: &[u128]) -> u128
    requires jump { IsJump (length sizes.now) jump.now }
    requires sums { sums.now ≡ coarse_sums sizes.now }
    ensures { result ≡ jump_bytes sizes.now jump.now }
{
    let high = jump.high.place + lost_at(&jump.low, sizes, sums);
    let low = jump.low.place + lost_at(&jump.high, sizes, sums);
    high.saturating_sub(low)
}

/// How many bytes the calls before a point lose.
#[tactic(auto, unfolding(crate::specs::Jumps::lost_before))]
fn lost_at(point: &Point, sizes: &[u8], sums: &[u128]) -> u128
    requires within { point.now.call ≤ length sizes.now }
    requires sums { sums.now ≡ coarse_sums sizes.now }
    ensures value { result ≡ lost_before sizes.now point.now }
    ensures few { result < 2 ^ 70 }
{
    let size = size_at(sizes, point.call);
    lost_by(sizes, sums, point.call)
        + (point.depth.min(8) - point.depth.min(size as u64).min(8)) as u128
}

/// Doubles the size of a call, if it is late.
fn raise_if(raised: &mut Vec<u8>, late: bool, call: usize, size: u8)
    requires { call < length raised.old.items }
    ensures { raised.new.items ≡ (if late then set raised.old.items call (spec.twice size) else raised.old.items) }
{
    if late {
        raised[call] = size.saturating_add(size);
    }
}
