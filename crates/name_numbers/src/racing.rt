//! Texts by number, by a table that several workers fill.

ghost use Rattle.std.specs.Prelude.{◌≡◌, ◌<◌, ◌≤◌, ◌+◌, ◌-◌, ◌^◌, ◌++◌, drop, length, map, take, vec_len, All, IfOk, IfSome, OnOk};
ghost use Rattle.std.specs.List.{range_with_len};
ghost use Rattle.intern_race.specs.Interning.{SitsAt, first_seat};
ghost use Rattle.intern_race.specs.Texts.{AreTags};
ghost use Rattle.name_numbers.specs.Placed.{AreDone, AreHashed, AreHashes, AreJoined, AreNumbered, ArePlaced, AreSlots, HasDone, HasHashes, HasRoom, HasSlots, IsReady, KeepsPlaced, Knows};
ghost use Rattle.name_numbers.specs.Texts.{hash_at, number_at, text_numbers};
ghost use Rattle.work_split.specs.Pieces.{Tiles};
ghost use Rattle.work_split.specs.Tasks.{IsAt};

use crate::blocks::{Block, ROOM, block_of, empty_block, place_block};
use crate::hash_lists::{Hashes, hash_all, hash_block};
use intern_race::{InternSeat, Interner, Texts};
use lk_base::LinkStop;
use std::alloc::{AllocError, Global};
use std::ops::Range;
use std::thread::{Threads, join_mut};
use work_split::{Gate, join, over_pieces, pieces};

/// So many slots searches may go past, for each text and beside these.
const PASSED_EACH: u64 = 64;

const PASSED_MORE: u64 = 4096;

/// What a worker gives: its seat, and the slots of its texts, unless searches went past too many slots or there was no memory for them.
#[derive(Drop)]
pub struct Placed {
    pub seat: InternSeat,
    pub slots: Option<Vec<u32>>,
}

/// For each text the index of the first equal one, by one seat; none if searches went past too many slots. Texts are placed in order, so each slot
/// has its first text from the start.
pub fn number_by_one(alloc: Global, texts: &Texts) -> Result<Option<Vec<u32>>, AllocError>
    requires { length texts.now ≤ 2 ^ 31 }
    ensures { IfOk result (λ found. IfSome found (λ list. list.items ≡ text_numbers texts.now)) }
{
    let (table, mut seat) = Interner::open(alloc, texts)?;
    match number_run(alloc, &table, texts, &mut seat) {
        Ok(found) => Ok(found),
        Err(_) => Ok(None),
    }
}

/// For each text the index of the first equal one, by one seat at a table that is open. An error says that searches went past too many slots, or that
/// there was no memory.
fn number_run(
    alloc: Global,
    table: &Interner,
    texts: &Texts,
    seat: &mut InternSeat,
) -> Result<Option<Vec<u32>>, AllocError>
    requires seat { SitsAt table.now seat.old }
    requires texts { texts.now ≡ table.now.texts }
    requires few { length texts.now ≤ 2 ^ 31 }
    ensures { IfOk result (λ found. IfSome found (λ list. list.items ≡ text_numbers texts.now)) }
{
    let mut numbers = Vec::with_capacity(alloc, texts.len())?;
    let mut tags = Vec::with_capacity(alloc, texts.len())?;
    let mut hashes = Vec::with_capacity(alloc, ROOM)?;
    let mut block = empty_block(alloc)?;
    let mut slots = Vec::with_capacity(alloc, ROOM)?;
    let mut left = allowed(texts.len());
    let mut done = 0;
    while done < texts.len() {
        hash_block(texts, &mut hashes, &mut tags, done)?;
        let next = number_block(
            table,
            texts,
            seat,
            hashes.as_slice(),
            tags.as_slice(),
            &mut block,
            &mut slots,
            &mut numbers,
            done,
            left,
        )?;
        if next == 0 {
            return Ok(None);
        }
        left = next;
        done += hashes.len();
    }
    Ok(Some(numbers))
}

/// Places the texts from one on that have these hashes, and numbers them, since all before them are placed: how many slots are left to go past.
fn number_block<'t>(
    table: &Interner,
    texts: &'t Texts,
    seat: &mut InternSeat,
    hashes: &[u64],
    tags: &[u8],
    block: &mut Block<'t>,
    slots: &mut Vec<u32>,
    numbers: &mut Vec<u32>,
    start: usize,
    allowed: u64,
) -> Result<u64, AllocError>
    requires seat { SitsAt table.now seat.old }
    requires texts { texts.now ≡ table.now.texts }
    requires few { length texts.now ≤ 2 ^ 31 }
    requires room { HasRoom block.old }
    requires some { 0 < length hashes.now }
    requires most { length hashes.now ≤ 512 }
    requires within { start + length hashes.now ≤ length texts.now }
    requires hashes { hashes.now ≡ map (hash_at texts.now) (range_with_len start (length hashes.now)) }
    requires tags { AreTags texts.now tags.now }
    requires before { AreNumbered texts.now seat.old.placed start numbers.old.items }
    ensures sits { SitsAt table.now seat.new }
    ensures room { HasRoom block.new }
    ensures numbered { OnOk result (AreNumbered texts.now seat.new.placed (start + length hashes.now) numbers.new.items) }
{
    slots.clear();
    let left = place_block(
        table, texts, seat, hashes, tags, block, slots, start, allowed,
    )?;
    push_numbers(table, texts, seat, numbers, slots.as_slice(), start)?;
    Ok(left)
}

/// The numbers of the next texts, from one on, which stand in these slots: all before them are placed, and they are, so each slot gives the first of the equal ones.
fn push_numbers(
    table: &Interner,
    texts: &Texts,
    seat: &mut InternSeat,
    numbers: &mut Vec<u32>,
    slots: &[u32],
    start: usize,
) -> Result<(), AllocError>
    requires seat { SitsAt table.now seat.old }
    requires texts { texts.now ≡ table.now.texts }
    requires within { start + length slots.now ≤ length texts.now }
    requires all { ArePlaced (start + length slots.now) seat.old.placed }
    requires slots { HasSlots table.now seat.old.placed start (length slots.now) slots.now }
    ensures sits { SitsAt table.now seat.new }
    ensures keeps { KeepsPlaced seat.old.placed seat.new.placed }
    ensures numbers { OnOk result (numbers.new.items ≡ numbers.old.items ++ map (number_at texts.now) (range_with_len start (length slots.now))) }
{
    for k in 0..slots.len() {
        numbers.push(table.first(seat, texts, slots[k]))?;
    }
    Ok(())
}

/// For each text the index of the first equal one, by several workers, each with a seat of its own; none if searches went past too many slots. The
/// first of equal texts is known once all seats are joined.
pub fn number_by_all<R: Threads + Sync, G: Gate>(
    rt: &R,
    alloc: Global,
    texts: &Texts,
    workers: u32,
    gate: &G,
) -> Result<Option<Vec<u32>>, AllocError>
    requires few { length texts.now ≤ 2 ^ 31 }
    requires some { 1 ≤ workers }
    requires most { workers ≤ 64 }
    ensures { IfOk result (λ found. IfSome found (λ list. list.items ≡ text_numbers texts.now)) }
{
    let list = pieces(alloc, texts.len(), workers)?;
    let cuts = list.as_slice();
    let (hashed, opened) = hash_and_open(rt, alloc, texts, cuts);
    let known = hashed?;
    let (table, mut seat) = opened?;
    let found = place_all(rt, alloc, gate, &table, texts, &known, &mut seat, cuts)?;
    drop(known);
    number_if(rt, alloc, gate, &table, texts, &mut seat, cuts, found)
}

/// The hashes of the texts, and meanwhile a table for them, which needs only to know how many there are.
fn hash_and_open<'t, R: Threads + Sync>(
    rt: &R,
    alloc: Global,
    texts: &'t Texts<'t>,
    cuts: &[Range<usize>],
) -> (
    Result<Hashes, AllocError>,
    Result<(Interner<'t>, InternSeat), AllocError>,
)
    requires few { length texts.now ≤ 2 ^ 31 }
    requires tiles { Tiles 0 (length texts.now) cuts.now }
    requires most { length cuts.now ≤ 64 }
    ensures hashes { IfOk result.0 (AreHashed texts.now cuts.now) }
    ensures opened { IfOk result.1 (λ r. (r.0.texts ≡ texts.now) × (r.1 ≡ first_seat r.0)) }
{
    join_mut(
        rt,
        &mut || -> Result<Hashes, AllocError>
            requires { (length texts.now ≤ 2 ^ 31) × Tiles 0 (length texts.now) cuts.now × (length cuts.now ≤ 64) }
            ensures { IfOk result (AreHashed texts.entry.now cuts.entry.now) }
        { hash_all(rt, alloc, texts, cuts) },
        &mut || -> Result<(Interner, InternSeat), AllocError>
            requires { length texts.now ≤ 2 ^ 31 }
            ensures { IfOk result (λ r. (r.0.texts ≡ texts.entry.now) × (r.1 ≡ first_seat r.0)) }
        { Interner::open_in_parallel(rt, alloc, texts) },
    )
}

/// Workers place all texts, and the seat learns where: the slots of each piece, unless searches went past too many.
fn place_all<R: Threads + Sync, G: Gate>(
    rt: &R,
    alloc: Global,
    gate: &G,
    table: &Interner,
    texts: &Texts,
    known: &Hashes,
    seat: &mut InternSeat,
    cuts: &[Range<usize>],
) -> Result<Option<Vec<Vec<u32>>>, AllocError>
    requires seat { SitsAt table.now seat.old }
    requires texts { texts.now ≡ table.now.texts }
    requires hashes { AreHashed texts.now cuts.now known.now }
    requires tiles { Tiles 0 (length texts.now) cuts.now }
    requires most { length cuts.now ≤ 64 }
    requires few { length texts.now ≤ 2 ^ 31 }
    ensures { IfOk result (λ found. IfSome found (λ lists. IsReady table.now (length texts.now) cuts.now seat.new lists.items)) }
{
    let seats = seats_for(alloc, table, seat, cuts.len())?;
    let hashes = known.hashes.as_slice();
    let tags = known.tags.as_slice();
    let done = place_pieces(rt, alloc, gate, table, texts, hashes, tags, cuts, seats)?;
    join_all(alloc, table, seat, done)
}

/// Workers find the numbers of all texts, if there are slots.
fn number_if<R: Threads + Sync, G: Gate>(
    rt: &R,
    alloc: Global,
    gate: &G,
    table: &Interner,
    texts: &Texts,
    seat: &mut InternSeat,
    cuts: &[Range<usize>],
    found: Option<Vec<Vec<u32>>>,
) -> Result<Option<Vec<u32>>, AllocError>
    requires texts { texts.now ≡ table.now.texts }
    requires tiles { Tiles 0 (length texts.now) cuts.now }
    requires most { length cuts.now ≤ 64 }
    requires found { IfSome found (λ lists. IsReady table.now (length texts.now) cuts.now seat.old lists.items) }
    ensures { IfOk result (λ found. IfSome found (λ list. list.items ≡ text_numbers texts.now)) }
{
    match found {
        Some(lists) => Ok(Some(number_all(rt, alloc, gate, table, texts, seat, cuts, lists)?)),
        None => Ok(None),
    }
}

/// Workers find the numbers of all texts, which the seat knows to be placed.
fn number_all<R: Threads + Sync, G: Gate>(
    rt: &R,
    alloc: Global,
    gate: &G,
    table: &Interner,
    texts: &Texts,
    seat: &mut InternSeat,
    cuts: &[Range<usize>],
    lists: Vec<Vec<u32>>,
) -> Result<Vec<u32>, AllocError>
    requires texts { texts.now ≡ table.now.texts }
    requires tiles { Tiles 0 (length texts.now) cuts.now }
    requires most { length cuts.now ≤ 64 }
    requires ready { IsReady table.now (length texts.now) cuts.now seat.old lists.items }
    ensures { IfOk result (λ list. list.items ≡ text_numbers texts.now) }
{
    let seats = seats_for(alloc, table, seat, cuts.len())?;
    number_pieces(rt, alloc, gate, table, texts, cuts, lists.as_slice(), seats)
}

/// A seat for each worker, which knows what the first one does.
fn seats_for(
    alloc: Global,
    table: &Interner,
    seat: &mut InternSeat,
    count: usize,
) -> Result<Vec<InternSeat>, AllocError>
    requires { SitsAt table.now seat.old }
    ensures sits { SitsAt table.now seat.new }
    ensures same { seat.new.placed ≡ seat.old.placed }
    ensures count { IfOk result (λ seats. vec_len seats ≡ count) }
    ensures seated { IfOk result (λ seats. All (Knows table.now seat.old.placed) seats.items) }
{
    let mut seats = Vec::with_capacity(alloc, count)?;
    for worker in 0..count {
        seats.push(table.split(seat))?;
    }
    Ok(seats)
}

/// Each worker places the texts of its piece.
fn place_pieces<R: Threads + Sync, G: Gate>(
    rt: &R,
    alloc: Global,
    gate: &G,
    table: &Interner,
    texts: &Texts,
    hashes: &[Result<Vec<u64>, LinkStop>],
    tags: &[u8],
    cuts: &[Range<usize>],
    seats: Vec<InternSeat>,
) -> Result<Vec<Placed>, AllocError>
    requires texts { texts.now ≡ table.now.texts }
    requires hashes { AreHashes texts.now cuts.now hashes.now }
    requires tags { AreTags texts.now tags.now }
    requires tiles { Tiles 0 (length texts.now) cuts.now }
    requires count { length cuts.now ≡ vec_len seats }
    requires most { vec_len seats ≤ 64 }
    requires seated { All (SitsAt table.now) seats.items }
    requires few { length texts.now ≤ 2 ^ 31 }
    ensures { IfOk result (λ done. AreDone table.now cuts.now done.items) }
{
    over_pieces(
        rt,
        alloc,
        gate,
        cuts,
        seats,
        |worker: u32, piece: Range<usize>, seat: InternSeat| -> Placed
            requires seated { SitsAt table.now seat }
            requires texts { texts.now ≡ table.now.texts }
            requires worker { worker < length hashes.now }
            requires hashes { (list : _) → IsAt hashes.now worker list → HasHashes texts.now piece list }
            requires tags { AreTags texts.now tags.now }
            requires ordered { piece.start ≤ piece.end }
            requires piece { piece.end ≤ length texts.now }
            requires few { length texts.now ≤ 2 ^ 31 }
            ensures { HasDone table.entry.now piece result }
        {
            place_piece(
                alloc,
                table,
                texts,
                &hashes[worker as usize],
                tags,
                seat,
                piece,
            )
        },
    )
}

/// Places the texts of one piece.
fn place_piece(
    alloc: Global,
    table: &Interner,
    texts: &Texts,
    hashes: &Result<Vec<u64>, LinkStop>,
    tags: &[u8],
    mut seat: InternSeat,
    piece: Range<usize>,
) -> Placed
    requires seated { SitsAt table.now seat }
    requires texts { texts.now ≡ table.now.texts }
    requires hashes { HasHashes texts.now piece hashes.now }
    requires tags { AreTags texts.now tags.now }
    requires ordered { piece.start ≤ piece.end }
    requires piece { piece.end ≤ length texts.now }
    requires few { length texts.now ≤ 2 ^ 31 }
    ensures { HasDone table.now piece result }
{
    let slots = place_if(alloc, table, texts, hashes, tags, &mut seat, piece);
    Placed { seat, slots }
}

/// Places the texts of one piece, if their hashes are known and there is memory for their slots.
fn place_if(
    alloc: Global,
    table: &Interner,
    texts: &Texts,
    hashes: &Result<Vec<u64>, LinkStop>,
    tags: &[u8],
    seat: &mut InternSeat,
    piece: Range<usize>,
) -> Option<Vec<u32>>
    requires seat { SitsAt table.now seat.old }
    requires texts { texts.now ≡ table.now.texts }
    requires hashes { HasHashes texts.now piece hashes.now }
    requires tags { AreTags texts.now tags.now }
    requires ordered { piece.start ≤ piece.end }
    requires piece { piece.end ≤ length texts.now }
    requires few { length texts.now ≤ 2 ^ 31 }
    ensures sits { SitsAt table.now seat.new }
    ensures slots { IfSome result (λ slots. HasSlots table.now seat.new.placed piece.start (piece.end - piece.start) slots.items) }
{
    let Ok(list) = hashes else {
        return None;
    };
    match place_run(
        alloc,
        table,
        texts,
        list.as_slice(),
        tags,
        seat,
        piece.start,
    ) {
        Ok(slots) => slots,
        Err(_) => None,
    }
}

/// Places the texts from one on that have these hashes: their slots, in order, unless searches went past too many.
fn place_run(
    alloc: Global,
    table: &Interner,
    texts: &Texts,
    hashes: &[u64],
    tags: &[u8],
    seat: &mut InternSeat,
    start: usize,
) -> Result<Option<Vec<u32>>, AllocError>
    requires seat { SitsAt table.now seat.old }
    requires texts { texts.now ≡ table.now.texts }
    requires hashes { hashes.now ≡ map (hash_at texts.now) (range_with_len start (length hashes.now)) }
    requires tags { AreTags texts.now tags.now }
    requires within { start + length hashes.now ≤ length texts.now }
    requires few { length texts.now ≤ 2 ^ 31 }
    ensures sits { SitsAt table.now seat.new }
    ensures slots { IfOk result (λ found. IfSome found (λ slots. HasSlots table.now seat.new.placed start (length hashes.now) slots.items)) }
{
    let mut slots = Vec::with_capacity(alloc, hashes.len())?;
    let mut block = empty_block(alloc)?;
    let mut left = allowed(hashes.len());
    let mut done = 0;
    while done < hashes.len() {
        let part = next_block(hashes, done);
        let next = place_block(
            table, texts, seat, part, tags, &mut block, &mut slots, start, left,
        )?;
        if next == 0 {
            return Ok(None);
        }
        left = next;
        done += part.len();
    }
    Ok(Some(slots))
}

/// The hashes of the next block.
fn next_block(hashes: &[u64], done: usize) -> &[u64]
    requires { done < length hashes.now }
    ensures some { 0 < length result.now }
    ensures most { length result.now ≤ 512 }
    ensures within { done + length result.now ≤ length hashes.now }
    ensures is { result.now ≡ take (length result.now) (drop done hashes.now) }
{
    let count = block_of(hashes.len() - done);
    part_of(hashes, done, done + count)
}

/// The hashes from one on and before another.
fn part_of(hashes: &[u64], from: usize, to: usize) -> &[u64]
    requires order { from ≤ to }
    requires within { to ≤ length hashes.now }
    ensures { result.now ≡ take (to - from) (drop from hashes.now) }
{
    &hashes[from..to]
}

/// So many slots the searches for so many texts may go past, less one.
fn allowed(count: usize) -> u64 {
    (count as u64)
        .saturating_mul(PASSED_EACH)
        .saturating_add(PASSED_MORE)
}

/// The seat learns what each worker placed, and the slots of the pieces are listed, if all are there.
fn join_all(
    alloc: Global,
    table: &Interner,
    seat: &mut InternSeat,
    done: Vec<Placed>,
) -> Result<Option<Vec<Vec<u32>>>, AllocError>
    requires seat { SitsAt table.now seat.old }
    requires done { All (λ y. SitsAt table.now y.seat) done.items }
    ensures { IfOk result (λ found. IfSome found (λ lists. AreJoined table.now done.items seat.new lists.items)) }
{
    let mut lists = Vec::with_capacity(alloc, done.len())?;
    for one in done {
        let Placed { seat: other, slots } = one;
        table.join(seat, other);
        let Some(list) = slots else {
            return Ok(None);
        };
        lists.push(list)?;
    }
    Ok(Some(lists))
}

/// Each worker finds the first of the texts equal to each of its piece, by their slots.
fn number_pieces<R: Threads + Sync, G: Gate>(
    rt: &R,
    alloc: Global,
    gate: &G,
    table: &Interner,
    texts: &Texts,
    cuts: &[Range<usize>],
    lists: &[Vec<u32>],
    seats: Vec<InternSeat>,
) -> Result<Vec<u32>, AllocError>
    requires texts { texts.now ≡ table.now.texts }
    requires tiles { Tiles 0 (length texts.now) cuts.now }
    requires count { length cuts.now ≡ vec_len seats }
    requires most { vec_len seats ≤ 64 }
    requires seated { All (SitsAt table.now) seats.items }
    requires all { All (λ s. ArePlaced (length texts.now) s.placed) seats.items }
    requires lists { All (λ s. AreSlots table.now cuts.now s.placed lists.now) seats.items }
    requires wide { length lists.now ≡ length cuts.now }
    ensures { IfOk result (λ list. list.items ≡ text_numbers texts.now) }
{
    let shares = over_pieces(
        rt,
        alloc,
        gate,
        cuts,
        seats,
        |worker: u32, piece: Range<usize>, seat: InternSeat| -> Result<Vec<u32>, LinkStop>
            requires seated { SitsAt table.now seat }
            requires all { ArePlaced (length texts.now) seat.placed }
            requires texts { texts.now ≡ table.now.texts }
            requires worker { worker < length lists.now }
            requires slots { (list : _) → IsAt lists.now worker list → HasSlots table.now seat.placed piece.start (piece.end - piece.start) list.items }
            requires ordered { piece.start ≤ piece.end }
            requires piece { piece.end ≤ length texts.now }
            ensures { IfOk result (λ list. list.items ≡ map (number_at texts.entry.now) (range_with_len piece.start (piece.end - piece.start))) }
        {
            Ok(number_piece(
                alloc,
                table,
                texts,
                seat,
                lists[worker as usize].as_slice(),
                piece,
            )?)
        },
    )?;
    match join(alloc, shares) {
        Ok(numbers) => Ok(numbers),
        Err(_) => Err(AllocError),
    }
}

/// The numbers of the texts of one piece.
fn number_piece(
    alloc: Global,
    table: &Interner,
    texts: &Texts,
    mut seat: InternSeat,
    slots: &[u32],
    piece: Range<usize>,
) -> Result<Vec<u32>, AllocError>
    requires seated { SitsAt table.now seat }
    requires all { ArePlaced (length texts.now) seat.placed }
    requires texts { texts.now ≡ table.now.texts }
    requires slots { HasSlots table.now seat.placed piece.start (piece.end - piece.start) slots.now }
    requires ordered { piece.start ≤ piece.end }
    requires piece { piece.end ≤ length texts.now }
    ensures { IfOk result (λ list. list.items ≡ map (number_at texts.now) (range_with_len piece.start (piece.end - piece.start))) }
{
    numbers_of(alloc, table, texts, &mut seat, piece.start, slots)
}

/// The numbers of texts, from one on, which stand in these slots: all texts are placed, so each slot gives the first of the equal ones.
fn numbers_of(
    alloc: Global,
    table: &Interner,
    texts: &Texts,
    seat: &mut InternSeat,
    start: usize,
    slots: &[u32],
) -> Result<Vec<u32>, AllocError>
    requires seat { SitsAt table.now seat.old }
    requires all { ArePlaced (length texts.now) seat.old.placed }
    requires texts { texts.now ≡ table.now.texts }
    requires slots { HasSlots table.now seat.old.placed start (length slots.now) slots.now }
    requires within { start + length slots.now ≤ length texts.now }
    ensures { IfOk result (λ list. list.items ≡ map (number_at texts.now) (range_with_len start (length slots.now))) }
{
    let mut list = Vec::with_capacity(alloc, slots.len())?;
    push_numbers(table, texts, seat, &mut list, slots, start)?;
    Ok(list)
}
