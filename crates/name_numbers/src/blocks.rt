//! The texts of a block, placed in a table.

ghost use Rattle.std.specs.Prelude.{◌≡◌, ℕ, ◌<◌, ◌≤◌, ◌+◌, ◌^◌, length, map, slice_index, Contains, IfOk, OnOk};
ghost use Rattle.std.specs.List.{range_with_len};
ghost use Rattle.std.specs.Str.{bytes_eq};
ghost use Rattle.intern_race.specs.Interning.{SitsAt, pair};
ghost use Rattle.intern_race.specs.Texts.{AreTags, text_at};
ghost use Rattle.name_numbers.specs.Placed.{AreAlike, AreEarly, AreOthers, HasRoom, HasSlots, KeepsPlaced, no_slot};
ghost use Rattle.name_numbers.specs.Texts.{hash_at};

use intern_race::{InternSeat, Interner, Texts, tag_of};
use std::alloc::{AllocError, Global};

/// So many texts are of a block: what the table has at their homes is read, and then the texts that stand there, before they are placed. The lines of memory at
/// the homes of so many fill half of a first cache of 32 KB.
const BLOCK: usize = 256;

/// The lists of a block have room for so many.
pub const ROOM: usize = 512;

/// The slot of a text that is not placed yet.
const NO_SLOT: u32 = 0xffff_ffff;

/// A search that went past fewer slots has compared few bytes.
const FEW: u64 = 8;

/// What becomes of the texts of a block. The lists of numbers have room for a whole block, and only their first elements count.
#[derive(Drop)]
pub struct Block<'t> {
    /// By text the number that stands at its home.
    pub met: Vec<u32>,
    /// The places in the block of the texts that may be equal to what stands at their homes, and of the others.
    pub near: Vec<u32>,
    pub rest: Vec<u32>,
    /// What stands at the homes of the former: numbers, texts, and bytes of these.
    pub others: Vec<u32>,
    pub texts: Vec<&'t [u8]>,
    pub bytes: Vec<u8>,
    /// By text the number of an equal one.
    pub alike: Vec<u32>,
    /// By text its slot, or none so far.
    pub early: Vec<u32>,
}

/// Nothing yet, with room for a block.
pub fn empty_block<'t>(alloc: Global) -> Result<Block<'t>, AllocError>
    ensures { IfOk result HasRoom }
{
    let met = vec![in alloc; 0; ROOM]?;
    let near = vec![in alloc; 0; ROOM]?;
    let rest = vec![in alloc; 0; ROOM]?;
    let others = Vec::with_capacity(alloc, ROOM)?;
    let texts = Vec::with_capacity(alloc, ROOM)?;
    let bytes = Vec::with_capacity(alloc, ROOM)?;
    let alike = vec![in alloc; 0; ROOM]?;
    let early = vec![in alloc; 0; ROOM]?;
    Ok(Block {
        met,
        near,
        rest,
        others,
        texts,
        bytes,
        alike,
        early,
    })
}

/// How many of the texts that are left are of the next block.
pub fn block_of(left: usize) -> usize
    requires { 0 < left }
    ensures some { 0 < result }
    ensures most { result ≤ left }
    ensures room { result ≤ 512 }
{
    if left < BLOCK { left } else { BLOCK }
}

/// Places the next texts, which have these hashes, after those from one on whose slots are listed: how many slots are left to go past. An error says that
/// none are left, or that there was no memory.
///
/// None of these steps waits for memory that a step before it could have asked for: homes are read before the texts that stand there, and these before any is
/// compared. The texts that are likely to be new are placed before those that are likely not to be, so that it is seldom open what comes next.
pub fn place_block<'t>(
    table: &Interner,
    texts: &'t Texts,
    seat: &mut InternSeat,
    hashes: &[u64],
    tags: &[u8],
    block: &mut Block<'t>,
    slots: &mut Vec<u32>,
    start: usize,
    allowed: u64,
) -> Result<u64, AllocError>
    requires seat { SitsAt table.now seat.old }
    requires texts { texts.now ≡ table.now.texts }
    requires few { length texts.now ≤ 2 ^ 31 }
    requires room { HasRoom block.old }
    requires some { 0 < length hashes.now }
    requires most { length hashes.now ≤ 512 }
    requires within { start + length slots.old.items + length hashes.now ≤ length texts.now }
    requires hashes { hashes.now ≡ map (hash_at texts.now) (range_with_len (start + length slots.old.items) (length hashes.now)) }
    requires tags { AreTags texts.now tags.now }
    requires slots { HasSlots table.now seat.old.placed start (length slots.old.items) slots.old.items }
    ensures sits { SitsAt table.now seat.new }
    ensures keeps { KeepsPlaced seat.old.placed seat.new.placed }
    ensures room { HasRoom block.new }
    ensures slots { OnOk result (HasSlots table.now seat.new.placed start (length slots.old.items + length hashes.now) slots.new.items) }
{
    let from = start + slots.len();
    let near = find_near(table, texts, hashes, tags, block, from)?;
    let alike = block.alike.as_slice();
    let early = block.early.as_mut_slice();
    forget_slots(early);
    let rest = &block.rest.as_slice()[..hashes.len() - near];
    let left = place_listed(
        table, texts, seat, hashes, tags, alike, rest, early, from, allowed,
    );
    let near = &block.near.as_slice()[..near];
    let left = place_listed(
        table, texts, seat, hashes, tags, alike, near, early, from, left,
    );
    if left == 0 {
        return Err(AllocError);
    }
    list_slots(
        table, texts, seat, hashes, tags, alike, early, slots, start, left,
    )
}

/// Finds of the next texts, from one on, those that may be equal to what stands at their homes, which are so many, and the number of an equal one for each.
fn find_near<'t>(
    table: &Interner,
    texts: &'t Texts,
    hashes: &[u64],
    tags: &[u8],
    block: &mut Block<'t>,
    from: usize,
) -> Result<usize, AllocError>
    requires few { length texts.now ≤ 2 ^ 31 }
    requires room { HasRoom block.old }
    requires some { 0 < length hashes.now }
    requires most { length hashes.now ≤ 512 }
    requires within { from + length hashes.now ≤ length texts.now }
    ensures room { HasRoom block.new }
    ensures near { IfOk result (λ near. near ≤ length hashes.now) }
    ensures alike { OnOk result (AreAlike texts.now from (length hashes.now) block.new.alike.items) }
{
    read_homes(table, hashes, block.met.as_mut_slice());
    own_numbers(block.alike.as_mut_slice(), hashes.len(), from);
    note_near(
        tags,
        hashes,
        block.met.as_slice(),
        block.rest.as_mut_slice(),
    );
    let count = split_near(
        hashes.len(),
        block.near.as_mut_slice(),
        block.rest.as_mut_slice(),
    );
    let near = &block.near.as_slice()[..count];
    warm_others(texts, block.met.as_slice(), near, &mut block.bytes)?;
    list_others(
        texts,
        block.met.as_slice(),
        near,
        &mut block.others,
        &mut block.texts,
    )?;
    read_others(block.texts.as_slice(), &mut block.bytes)?;
    compare_others(
        texts,
        near,
        block.others.as_slice(),
        block.texts.as_slice(),
        block.alike.as_mut_slice(),
        hashes.len(),
        from,
    );
    Ok(count)
}

/// Reads what stands at the homes of texts with these hashes.
fn read_homes(table: &Interner, hashes: &[u64], met: &mut [u32])
    requires { length hashes.now ≤ length met.old }
    ensures { length met.new ≡ length met.old }
{
    for k in 0..hashes.len() {
        met[k] = table.warm(hashes[k]);
    }
}

/// Each of so many texts, from one on, is equal to itself.
fn own_numbers(alike: &mut [u32], count: usize, from: usize)
    requires room { count ≤ length alike.old }
    requires few { from + count ≤ 2 ^ 31 }
    ensures len { length alike.new ≡ length alike.old }
    ensures own { (k : ℕ) → k < count → slice_index alike.new k ≡ from + k }
{
    for k in 0..count {
        alike[k] = (from + k) as u32;
    }
}

/// Notes for each of these hashes whether what stands at its home has its tag, by 1 or 0. The loop does nothing else, so that many tags are read at once.
fn note_near(tags: &[u8], hashes: &[u64], met: &[u32], told: &mut [u32])
    requires met { length hashes.now ≤ length met.now }
    requires told { length hashes.now ≤ length told.old }
    ensures { length told.new ≡ length told.old }
{
    for k in 0..hashes.len() {
        told[k] = has_tag(tags, met[k] as usize, tag_of(hashes[k])) as u32;
    }
}

/// The places of so many texts for which what stands at their homes has their tag, so many, and of the others. `rest` notes before which these are.
fn split_near(texts: usize, near: &mut [u32], rest: &mut [u32]) -> usize
    requires most { texts ≤ 512 }
    requires near { texts ≤ length near.old }
    requires rest { texts ≤ length rest.old }
    ensures most { result ≤ texts }
    ensures near { length near.new ≡ length near.old }
    ensures rest { length rest.new ≡ length rest.old }
{
    let mut count: usize = 0;
    for k in 0..texts {
        let more = (rest[k] as usize).min(1);
        near[count] = k as u32;
        rest[k - count] = k as u32;
        count += more;
    }
    count
}

/// Whether this tag is listed at a number.
fn has_tag(tags: &[u8], number: usize, tag: u8) -> bool {
    let last = tags.len().saturating_sub(1);
    let there = number.min(last);
    match tags.get(there) {
        Some(one) => (there == number) & (*one == tag),
        None => false,
    }
}

/// Reads where the texts end that stand at the homes of the texts at these places, so that this is at hand: in a loop that does nothing else a processor
/// has more of these reads under way.
fn warm_others(
    texts: &Texts,
    met: &[u32],
    near: &[u32],
    bytes: &mut Vec<u8>,
) -> Result<(), AllocError> {
    bytes.clear();
    for n in 0..near.len() {
        let end = match met.get(near[n] as usize) {
            Some(number) => texts.warm(*number as usize),
            None => 0,
        };
        bytes.push((end % 256) as u8)?;
    }
    Ok(())
}

/// The numbers and the texts that stand at the homes of the texts at these places.
fn list_others<'t>(
    texts: &'t Texts,
    met: &[u32],
    near: &[u32],
    others: &mut Vec<u32>,
    list: &mut Vec<&'t [u8]>,
) -> Result<(), AllocError>
    requires { 0 < length texts.now }
    ensures { OnOk result (AreOthers texts.now (length near.now) others.new.items list.new.items) }
{
    others.clear();
    list.clear();
    for n in 0..near.len() {
        let number = number_met(met, near[n] as usize, texts.len());
        others.push(number)?;
        list.push(texts.text(number as usize))?;
    }
    Ok(())
}

/// The number at a place, if it is that of one of so many texts; else that of the first text.
fn number_met(met: &[u32], place: usize, count: usize) -> u32
    requires { 0 < count }
    ensures { result < count }
{
    match met.get(place) {
        Some(number) => {
            if (*number as usize) < count {
                *number
            } else {
                0
            }
        }
        None => 0,
    }
}

/// Reads the first and the last byte of each text, so that these are at hand.
fn read_others(texts: &[&[u8]], bytes: &mut Vec<u8>) -> Result<(), AllocError> {
    bytes.clear();
    for n in 0..texts.len() {
        let text = texts[n];
        bytes.push(byte_at(text, 0) ^ byte_at(text, text.len().saturating_sub(1)))?;
    }
    Ok(())
}

/// A byte of a text, if it has so many.
fn byte_at(text: &[u8], at: usize) -> u8 {
    match text.get(at) {
        Some(byte) => *byte,
        None => 0,
    }
}

/// The text at each of these places of a block has the number of the other one, if that is equal.
fn compare_others(
    texts: &Texts,
    near: &[u32],
    others: &[u32],
    list: &[&[u8]],
    alike: &mut [u32],
    count: usize,
    from: usize,
)
    requires few { length texts.now ≤ 2 ^ 31 }
    requires within { from + count ≤ length texts.now }
    requires others { AreOthers texts.now (length near.now) others.now list.now }
    requires alike { AreAlike texts.now from count alike.old }
    ensures len { length alike.new ≡ length alike.old }
    ensures alike { AreAlike texts.now from count alike.new }
{
    for n in 0..near.len() {
        let k = near[n] as usize;
        compare_other(texts, others[n], list[n], k, alike, count, from);
    }
}

/// One text of a block has the number of the other one, if that is equal.
fn compare_other(
    texts: &Texts,
    other: u32,
    text: &[u8],
    k: usize,
    alike: &mut [u32],
    count: usize,
    from: usize,
)
    requires few { length texts.now ≤ 2 ^ 31 }
    requires within { from + count ≤ length texts.now }
    requires other { text.now ≡ text_at texts.now other }
    requires alike { AreAlike texts.now from count alike.old }
    ensures len { length alike.new ≡ length alike.old }
    ensures alike { AreAlike texts.now from count alike.new }
{
    if k >= count {
        return;
    }
    if is_same(text, texts.text(from + k)) {
        alike[k] = other;
    }
}

/// Whether bytes are equal.
fn is_same(text: &[u8], other: &[u8]) -> bool
    ensures { result ≡ bytes_eq text.now other.now }
{
    text == other
}

/// No slot is known.
fn forget_slots(early: &mut [u32])
    ensures len { length early.new ≡ length early.old }
    ensures none { (k : ℕ) → k < length early.old → slice_index early.new k ≡ no_slot }
{
    for k in 0..early.len() {
        early[k] = NO_SLOT;
    }
}

/// Places the texts at these places of a block, whose first text has this number, as long as slots are left to go past: how many are left after them.
fn place_listed(
    table: &Interner,
    texts: &Texts,
    seat: &mut InternSeat,
    hashes: &[u64],
    tags: &[u8],
    alike: &[u32],
    list: &[u32],
    early: &mut [u32],
    from: usize,
    allowed: u64,
) -> u64
    requires seat { SitsAt table.now seat.old }
    requires texts { texts.now ≡ table.now.texts }
    requires few { length texts.now ≤ 2 ^ 31 }
    requires within { from + length hashes.now ≤ length texts.now }
    requires hashes { hashes.now ≡ map (hash_at texts.now) (range_with_len from (length hashes.now)) }
    requires tags { AreTags texts.now tags.now }
    requires alike { AreAlike texts.now from (length hashes.now) alike.now }
    requires early { AreEarly table.now seat.old.placed from (length hashes.now) early.old }
    ensures sits { SitsAt table.now seat.new }
    ensures keeps { KeepsPlaced seat.old.placed seat.new.placed }
    ensures len { length early.new ≡ length early.old }
    ensures early { AreEarly table.now seat.new.placed from (length hashes.now) early.new }
{
    let mut left = allowed;
    for n in 0..list.len() {
        let k = list[n] as usize;
        let cost = place_one(
            table, texts, seat, hashes, tags, alike, k, early, from, left,
        );
        left = left.saturating_sub(cost);
    }
    left
}

/// Places the text at a place of a block, if it has so many and slots are left: what the search for it costs.
fn place_one(
    table: &Interner,
    texts: &Texts,
    seat: &mut InternSeat,
    hashes: &[u64],
    tags: &[u8],
    alike: &[u32],
    k: usize,
    early: &mut [u32],
    from: usize,
    left: u64,
) -> u64
    requires seat { SitsAt table.now seat.old }
    requires texts { texts.now ≡ table.now.texts }
    requires few { length texts.now ≤ 2 ^ 31 }
    requires within { from + length hashes.now ≤ length texts.now }
    requires hashes { hashes.now ≡ map (hash_at texts.now) (range_with_len from (length hashes.now)) }
    requires tags { AreTags texts.now tags.now }
    requires alike { AreAlike texts.now from (length hashes.now) alike.now }
    requires early { AreEarly table.now seat.old.placed from (length hashes.now) early.old }
    ensures sits { SitsAt table.now seat.new }
    ensures keeps { KeepsPlaced seat.old.placed seat.new.placed }
    ensures len { length early.new ≡ length early.old }
    ensures early { AreEarly table.now seat.new.placed from (length hashes.now) early.new }
{
    if left == 0 || k >= hashes.len() {
        return 0;
    }
    let slot = table.place_hashed(seat, texts, from + k, hashes[k], tags, alike[k]);
    early[k] = slot;
    cost_of(texts, from + k, passed(table, slot, hashes[k]))
}

/// What the search for a text costs that went past so many slots: as many, and of a long text more, since its bytes may have been compared at each.
fn cost_of(texts: &Texts, i: usize, far: u64) -> u64
    requires { i < length texts.now }
{
    if far < FEW {
        return far;
    }
    let bytes = texts.text(i).len() as u64;
    far.saturating_mul((bytes / 64).saturating_add(1))
}

/// Lists the slots of the texts of a block after those of texts before: so many slots are left to go past as before.
fn list_slots(
    table: &Interner,
    texts: &Texts,
    seat: &mut InternSeat,
    hashes: &[u64],
    tags: &[u8],
    alike: &[u32],
    early: &[u32],
    slots: &mut Vec<u32>,
    start: usize,
    left: u64,
) -> Result<u64, AllocError>
    requires seat { SitsAt table.now seat.old }
    requires texts { texts.now ≡ table.now.texts }
    requires few { length texts.now ≤ 2 ^ 31 }
    requires within { start + length slots.old.items + length hashes.now ≤ length texts.now }
    requires hashes { hashes.now ≡ map (hash_at texts.now) (range_with_len (start + length slots.old.items) (length hashes.now)) }
    requires tags { AreTags texts.now tags.now }
    requires alike { AreAlike texts.now (start + length slots.old.items) (length hashes.now) alike.now }
    requires early { AreEarly table.now seat.old.placed (start + length slots.old.items) (length hashes.now) early.now }
    requires slots { HasSlots table.now seat.old.placed start (length slots.old.items) slots.old.items }
    ensures sits { SitsAt table.now seat.new }
    ensures keeps { KeepsPlaced seat.old.placed seat.new.placed }
    ensures slots { OnOk result (HasSlots table.now seat.new.placed start (length slots.old.items + length hashes.now) slots.new.items) }
{
    let from = start + slots.len();
    for k in 0..hashes.len() {
        let slot = slot_of(table, texts, seat, hashes, tags, alike, k, early, from);
        slots.push(slot)?;
    }
    Ok(left)
}

/// The slot of the text at a place of a block, which is placed if it is not yet.
fn slot_of(
    table: &Interner,
    texts: &Texts,
    seat: &mut InternSeat,
    hashes: &[u64],
    tags: &[u8],
    alike: &[u32],
    k: usize,
    early: &[u32],
    from: usize,
) -> u32
    requires seat { SitsAt table.now seat.old }
    requires texts { texts.now ≡ table.now.texts }
    requires k { k < length hashes.now }
    requires few { length texts.now ≤ 2 ^ 31 }
    requires within { from + length hashes.now ≤ length texts.now }
    requires hashes { hashes.now ≡ map (hash_at texts.now) (range_with_len from (length hashes.now)) }
    requires tags { AreTags texts.now tags.now }
    requires alike { AreAlike texts.now from (length hashes.now) alike.now }
    requires early { AreEarly table.now seat.old.placed from (length hashes.now) early.now }
    ensures sits { SitsAt table.now seat.new }
    ensures keeps { KeepsPlaced seat.old.placed seat.new.placed }
    ensures within { result < table.now.slots }
    ensures placed { Contains seat.new.placed (pair result (from + k)) }
{
    let slot = early[k];
    if slot != NO_SLOT {
        return slot;
    }
    table.place_hashed(seat, texts, from + k, hashes[k], tags, alike[k])
}

/// How many slots the search for a text with this hash went past, round the end too.
fn passed(table: &Interner, slot: u32, hash: u64) -> u64 {
    let mask = (table.slots() as u64).wrapping_sub(1);
    (slot as u64).wrapping_sub(hash) & mask
}
