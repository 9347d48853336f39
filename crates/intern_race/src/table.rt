//! The table of slots and the seats at it.

ghost use Rattle.std.specs.Prelude.{◌≡◌, ◌≢◌, ◌+◌, ◌%◌, ◌<◌, ◌≤◌, ◌^◌, ◌==◌, ◌&&◌, [], ◌∷◌, ◌++◌, List, ℕ, length, nat_lt, not, replicate, slice_index, true, vec_capacity, Contains, IfOk, IfErr};
ghost use mathlib.Core.Logic.{◌↔◌};
ghost use Rattle.std.specs.Str.{bytes_eq};
ghost use Rattle.intern_race.specs.declared.rule.OwnStep.{OwnStep};
ghost use Rattle.intern_race.specs.declared.rule.OwnStep.TheVariants.{Loaded, Tried, Lowered};
ghost use Rattle.intern_race.specs.Hash as hashing;
ghost use Rattle.intern_race.specs.Interning.{AreApart, HasPlaced, HasPlacedAll, IsLeastOf, IsTaken, IsWalk, SitsAt};
ghost use Rattle.intern_race.specs.Interning.{after_split, after_steps, first_seat, joined, known, newcomer, pair};
ghost use Rattle.intern_race.specs.Slots.{IsSlotCount};
ghost use Rattle.intern_race.specs.Slots as specs;
ghost use Rattle.intern_race.specs.Texts.{AreTags, tag_at, text_at, text_numbers};
ghost use Rattle.intern_race.specs.Visits.{CanFill, IsVisit};

use crate::hash::{hash_of, tag_of};
use crate::rule::{Filling, Held, Key, Learning, Looking, Lowering, Sharing, View};
use crate::texts::Texts;
use atomic_table::{Seat, Table};
use std::alloc::{AllocError, Global};
use std::marker::Model;
use std::thread::{Threads, join};

/// The word of an empty slot.
const NONE: u64 = 0xffff_ffff_ffff_ffff;

/// The slots, which threads share by a `&`. It borrows the texts that it was opened for and keeps no copy of them.
///
/// Nothing is said of who comes first, nor of an order between steps of seats that were not joined. No call waits for
/// another, and only `open` and `close` take memory.
#[derive(Drop)]
pub struct Interner<'a> {
    table: Table<(), View, Key<'a>, Held, Global>,
    slots: usize,
    alloc: Global,
}

impl<'a> Model for Interner<'a> {
    ghost use Rattle.intern_race.specs.Interning.{TableView};
    ghost use Rattle.intern_race.specs.Rule.{IsTableFor};

    ghost Value = { TableView };

    ghost view = { λ c. record { table = c.table.shared.table_id; texts = c.table.shared.key.texts.now; slots = c.slots } };

    ghost invariant = { λ c. IsTableFor c.slots c.table.shared.table_id c.table.shared.key.slots c.table.shared.key.texts.now };
}

/// A seat at a table, for one thread at a time. What it knows exists in proofs alone: it has no bytes, and to split or
/// to join seats copies nothing. What a seat that is dropped has placed stays placed, but no other seat knows of it.
/// The shares of all seats are the whole table, so a seat comes from [`Interner::open`] or from another seat, and what a
/// call does to the share of the seat that it is given shows whether it made one.
#[derive(Drop)]
pub struct InternSeat {
    seat: Seat<(), View>,
}

impl Model for InternSeat {
    ghost use Rattle.intern_race.specs.Interning.{SeatView};
    ghost use Rattle.intern_race.specs.Rule.{seen, IsSeated};

    ghost Value = { SeatView };

    ghost view = { λ s. seen s.seat };

    ghost invariant = { λ s. IsSeated s.seat.me };
}

impl<'a> Interner<'a> {
    /// A table for these texts whose slots are all empty, with the first seat at it, which has the whole table as its share.
    pub fn open(
        alloc: Global,
        texts: &'a Texts<'a>,
    ) -> Result<(Interner<'a>, InternSeat), AllocError>
        requires { length texts.now ≤ 2 ^ 31 }
        ensures texts { IfOk result (λ r. r.0.texts ≡ texts.now) }
        ensures slots { IfOk result (λ r. IsSlotCount (length texts.now) r.0.slots) }
        ensures seat { IfOk result (λ r. r.1 ≡ first_seat r.0) }
    {
        let slots = slots_for(texts.len());
        let row = vec![in alloc; NONE; slots]?;
        open_with(alloc, texts, slots, row)
    }

    /// A table as of [`open`](Interner::open), made by two threads. Another thread fills the row of empty slots that the table begins with, and this
    /// one meanwhile fills as much memory and gives it back, which is where the table comes to lie: so each of both asks the system for half of what
    /// is new. Both lie in this thread's memory, so the lists that it makes next lie in what the row leaves.
    pub fn open_in_parallel<R: Threads + Sync>(
        rt: &R,
        alloc: Global,
        texts: &'a Texts<'a>,
    ) -> Result<(Interner<'a>, InternSeat), AllocError>
        requires { length texts.now ≤ 2 ^ 31 }
        ensures texts { IfOk result (λ r. r.0.texts ≡ texts.now) }
        ensures slots { IfOk result (λ r. IsSlotCount (length texts.now) r.0.slots) }
        ensures seat { IfOk result (λ r. r.1 ≡ first_seat r.0) }
    {
        let slots = slots_for(texts.len());
        let row = Vec::with_capacity(alloc, slots)?;
        let spare = Vec::with_capacity(alloc, slots)?;
        let (row, spare) = join(
            rt,
            move || -> Result<Vec<u64>, AllocError>
                requires { row.items ≡ [] }
                ensures { IfOk result (λ row. row.items ≡ replicate slots specs.none) }
            { filled(row, slots) },
            move || -> Result<Vec<u64>, AllocError>
                requires { spare.items ≡ [] }
            { filled(spare, slots) },
        );
        let row = row?;
        drop(spare);
        open_with(alloc, texts, slots, row)
    }

    /// Places text `i`, and answers the slot that holds it or an equal text. From the text's home on, and round the end, it looks
    /// at slots until it finds one that holds an equal text or fills an empty one. There it offers the text's number.
    pub fn place(&self, seat: &mut InternSeat, texts: &Texts, i: usize) -> u32
        requires seat { SitsAt self.now seat.old }
        requires texts { texts.now ≡ self.now.texts }
        requires text { i < length texts.now }
        ensures within { result < self.now.slots }
        ensures walk { (own : List OwnStep) × IsWalk self.now i result own × (seat.new ≡ after_steps seat.old own) }
        ensures apart { AreApart self.now.texts (known seat.new) }
    {
        let _ = &self.slots;
        let number = i as u32;
        self.place_hashed(seat, texts, i, hash_of(texts.text(i)), &[], number)
    }

    /// Places text `i`, where its hash is known and the number of an equal text, if only its own. The bytes of a text that is met are read if it is
    /// neither of these two and its tag is that of the hash or is not listed: `tags` are those of the first texts.
    pub fn place_hashed(
        &self,
        seat: &mut InternSeat,
        texts: &Texts,
        i: usize,
        hash: u64,
        tags: &[u8],
        alike: u32,
    ) -> u32
        requires seat { SitsAt self.now seat.old }
        requires texts { texts.now ≡ self.now.texts }
        requires text { i < length texts.now }
        requires hash { hash ≡ hashing.hash_of (text_at texts.now i) }
        requires tags { AreTags texts.now tags.now }
        requires alike { text_at texts.now alike ≡ text_at texts.now i }
        ensures within { result < self.now.slots }
        ensures walk { (own : List OwnStep) × IsWalk self.now i result own × (seat.new ≡ after_steps seat.old own) }
        ensures apart { AreApart self.now.texts (known seat.new) }
    {
        let slots = self.slots;
        let number = i as u32;
        let tag = tag_of(hash);
        let mut slot = self.home_of(hash);
        for far in 0..slots {
            let holder = self.visit(seat, slot, number);
            if is_text(texts, tags, holder, number, tag, alike) {
                self.lower(seat, slot, number, holder);
                return slot as u32;
            }
            slot = self.slot_after(slot);
        }
        unreachable!()
    }

    /// The number that a slot gives now, by one atomic step that changes nothing: that of a text equal to those that are placed
    /// there. Where all seats are joined that placed texts, it is the least number of an equal text.
    pub fn first(&self, seat: &mut InternSeat, texts: &Texts, slot: u32) -> u32
        requires seat { SitsAt self.now seat.old }
        requires texts { texts.now ≡ self.now.texts }
        requires within { slot < self.now.slots }
        requires slot { IsTaken seat.old slot }
        ensures step { (found : ℕ) × (seat.new ≡ after_steps seat.old (Loaded slot found ∷ [])) × (result ≡ specs.least found) }
        ensures least { IsLeastOf seat.old slot result }
        ensures apart { AreApart self.now.texts (known seat.new) }
    {
        least_of(self.load(seat, slot as usize))
    }

    /// Reads the slot in which the search for a text with this hash begins, so that it is at hand when the text is placed: the number of the text that it
    /// holds now, and that of no text if it is empty. It is no step of a seat, so nothing is known of the number.
    pub fn warm(&self, hash: u64) -> u32 {
        holder_of(self.table.shared.peek(self.home_of(hash)))
    }

    /// How many slots there are. The search for a text begins in the slot whose number is the text's hash modulo this.
    pub fn slots(&self) -> usize
        ensures { result ≡ self.now.slots }
    {
        self.slots
    }

    /// Whether two placed texts are equal: exactly where their slots are one.
    pub fn same(&self, seat: &InternSeat, texts: &Texts, i: usize, j: usize) -> bool
        requires seat { SitsAt self.now seat.now }
        requires texts { texts.now ≡ self.now.texts }
        requires first { HasPlaced seat.now i }
        requires second { HasPlaced seat.now j }
        ensures texts { result ≡ bytes_eq (text_at texts.now i) (text_at texts.now j) }
        ensures slots { (k l : ℕ) → Contains seat.now.placed (pair k i) → Contains seat.now.placed (pair l j) → (result ≡ true) ↔ (k ≡ l) }
    {
        let _ = &seat.seat;
        texts.text(i) == texts.text(j)
    }

    /// A second seat, which knows what the first one knows, has made no step, and takes half of a part of the first one's share.
    pub fn split(&self, seat: &mut InternSeat) -> InternSeat
        requires { SitsAt self.now seat.old }
        ensures step { seat.new ≡ after_split seat.old }
        ensures split { result ≡ newcomer seat.old }
    {
        let shared = &self.table.shared;
        let other = shared.split_seat::<Sharing>(&mut seat.seat);
        InternSeat { seat: other }
    }

    /// The seat learns what the other knows, and takes the other's steps after its own, and its share.
    pub fn join(&self, seat: &mut InternSeat, other: InternSeat)
        requires seat { SitsAt self.now seat.old }
        requires other { SitsAt self.now other }
        ensures joined { seat.new ≡ joined seat.old other }
        ensures apart { AreApart self.now.texts (known seat.new) }
    {
        let InternSeat { seat: other } = other;
        let shared = &self.table.shared;
        shared.join_seat::<Sharing>(&mut seat.seat, other);
        shared.load::<Learning>(&mut seat.seat, 0);
    }

    /// For each text the number of the first equal one, where each was placed by the seat or by one that was joined into it. If there
    /// is no memory for the list, the table and the seat come back as they were.
    pub fn close(
        self,
        seat: InternSeat,
        texts: &Texts,
    ) -> Result<Vec<u32>, (Interner<'a>, InternSeat)>
        requires seat { SitsAt self seat }
        requires texts { texts.now ≡ self.texts }
        requires placed { HasPlacedAll seat }
        ensures ok { IfOk result (λ numbers. numbers.items ≡ text_numbers texts.now) }
        ensures err { IfErr result (λ r. (r.0 ≡ self.entry) × (r.1 ≡ seat)) }
    {
        let Ok(numbers) = Vec::with_capacity(self.alloc, texts.len()) else {
            return Err((self, seat));
        };
        Ok(self.numbers_of(seat, texts, numbers))
    }
}

impl<'a> Interner<'a> {
    // Where the search for a text with this hash begins.
    fn home_of(&self, hash: u64) -> usize
        ensures home { result ≡ hash % self.now.slots }
        ensures within { result < self.now.slots }
    {
        hash as usize & (self.slots - 1)
    }

    // The slot after another, round the end.
    fn slot_after(&self, slot: usize) -> usize
        requires { slot < self.now.slots }
        ensures { result ≡ (slot + 1) % self.now.slots }
    {
        let mask = self.slots - 1;
        (slot + 1) & mask
    }

    // The number of the text that the slot holds after this visit: of text `i`, if it was empty.
    fn visit(&self, seat: &mut InternSeat, slot: usize, i: u32) -> u32
        requires seat { SitsAt self.now seat.old }
        requires within { slot < self.now.slots }
        requires text { i < length self.now.texts }
        requires slot { CanFill self.now seat.old (text_at self.now.texts i) slot }
        ensures visit { (own : List OwnStep) × IsVisit i slot result own × (seat.new ≡ after_steps seat.old own) }
        ensures apart { AreApart self.now.texts (known seat.new) }
    {
        let found = self.load(seat, slot);
        if found != NONE {
            return holder_of(found);
        }
        let found = self.try_fill(seat, slot, i);
        if found == NONE { i } else { holder_of(found) }
    }

    // A slot's word.
    fn load(&self, seat: &mut InternSeat, slot: usize) -> u64
        requires seat { SitsAt self.now seat.old }
        requires slot { slot < self.now.slots }
        ensures step { seat.new ≡ after_steps seat.old (Loaded slot result ∷ []) }
        ensures apart { AreApart self.now.texts (known seat.new) }
        ensures word { IsLeastOf seat.old slot (specs.least result) }
    {
        let shared = &self.table.shared;
        shared.load::<Looking>(&mut seat.seat, slot)
    }

    // Fills the slot with text `i`, if it is empty, and answers its word as it was before.
    fn try_fill(&self, seat: &mut InternSeat, slot: usize, i: u32) -> u64
        requires seat { SitsAt self.now seat.old }
        requires within { slot < self.now.slots }
        requires text { i < length self.now.texts }
        requires slot { CanFill self.now seat.old (text_at self.now.texts i) slot }
        ensures step { seat.new ≡ after_steps seat.old (Tried slot i result ∷ []) }
        ensures apart { AreApart self.now.texts (known seat.new) }
    {
        let shared = &self.table.shared;
        let word = word_of(i, i);
        shared.compare_exchange::<Filling>(&mut seat.seat, slot, NONE, word)
    }

    // Offers the number of text `i` to a slot that holds an equal text, `holder`.
    fn lower(&self, seat: &mut InternSeat, slot: usize, i: u32, holder: u32)
        requires seat { SitsAt self.now seat.old }
        requires slot { slot < self.now.slots }
        requires text { i < length self.now.texts }
        requires held { Contains seat.old.seen (pair slot holder) }
        requires equal { text_at self.now.texts holder ≡ text_at self.now.texts i }
        ensures step { (found : ℕ) × (seat.new ≡ after_steps seat.old (Lowered slot i found ∷ [])) }
        ensures apart { AreApart self.now.texts (known seat.new) }
    {
        let shared = &self.table.shared;
        shared.fetch_min::<Lowering>(&mut seat.seat, slot, word_of(i, holder));
    }

    // The numbers of all texts, put into a list that has room for them.
    fn numbers_of(&self, mut seat: InternSeat, texts: &Texts, mut numbers: Vec<u32>) -> Vec<u32>
        requires seat { SitsAt self.now seat }
        requires texts { texts.now ≡ self.now.texts }
        requires placed { HasPlacedAll seat }
        requires empty { numbers.items ≡ [] }
        requires room { vec_capacity numbers ≡ length texts.now }
        ensures { result.items ≡ text_numbers texts.now }
    {
        for i in 0..texts.len() {
            let slot = self.place(&mut seat, texts, i);
            numbers.push_reserved(self.first(&mut seat, texts, slot));
        }
        numbers
    }
}

// A table whose words are those of a row, all of empty slots.
fn open_with<'a>(
    alloc: Global,
    texts: &'a Texts<'a>,
    slots: usize,
    row: Vec<u64>,
) -> Result<(Interner<'a>, InternSeat), AllocError>
    requires few { length texts.now ≤ 2 ^ 31 }
    requires count { IsSlotCount (length texts.now) slots }
    requires most { slots ≤ 2 ^ 32 }
    requires empty { row.items ≡ replicate slots specs.none }
    ensures texts { IfOk result (λ r. r.0.texts ≡ texts.now) }
    ensures slots { IfOk result (λ r. IsSlotCount (length texts.now) r.0.slots) }
    ensures seat { IfOk result (λ r. r.1 ≡ first_seat r.0) }
{
    let key = Key { slots, texts };
    let (table, seat) = Table::of_words(alloc, row.as_slice(), &key)?;
    let interner = Interner {
        table,
        slots,
        alloc,
    };
    Ok((interner, InternSeat { seat }))
}

// Whether the text of a number is text `i`, which has this tag and is equal to another one.
fn is_text(texts: &Texts, tags: &[u8], number: u32, i: u32, tag: u8, alike: u32) -> bool
    requires number { number < length texts.now }
    requires text { i < length texts.now }
    requires tag { tag ≡ tag_at texts.now i }
    requires tags { AreTags texts.now tags.now }
    requires alike { text_at texts.now alike ≡ text_at texts.now i }
    ensures { result ≡ bytes_eq (text_at texts.now number) (text_at texts.now i) }
{
    if number == i {
        return true;
    }
    if number == alike {
        return true;
    }
    if has_other(tags, number as usize, tag) {
        return false;
    }
    texts.text(number as usize) == texts.text(i as usize)
}

// Whether another tag than this one is listed at a number.
fn has_other(tags: &[u8], number: usize, tag: u8) -> bool
    ensures { result ≡ (nat_lt number (length tags.now) && not (slice_index tags.now number == tag)) }
{
    number < tags.len() && tags[number] != tag
}

// The word of a slot that holds a text, with the least number of an equal one.
#[tactic(auto, unfolding(crate::specs::Slots::word_of))]
fn word_of(least: u32, holder: u32) -> u64
    ensures { result ≡ specs.word_of least holder }
{
    (least as u64) * 0x1_0000_0000 + holder as u64
}

// The number of the text that a slot with this word holds.
#[tactic(auto, unfolding(crate::specs::Slots::holder))]
fn holder_of(word: u64) -> u32
    ensures { result ≡ specs.holder word }
{
    (word % 0x1_0000_0000) as u32
}

// The least number of an equal text so far that such a slot has.
#[tactic(auto, unfolding(crate::specs::Slots::least))]
fn least_of(word: u64) -> u32
    ensures { result ≡ specs.least word }
{
    (word / 0x1_0000_0000) as u32
}

// So many empty slots, put into a list that is empty.
fn filled(row: Vec<u64>, slots: usize) -> Result<Vec<u64>, AllocError>
    requires { row.items ≡ [] }
    ensures { IfOk result (λ row. row.items ≡ replicate slots specs.none) }
{
    let mut row = row;
    row.resize(slots, NONE)?;
    Ok(row)
}

/// How many slots a table for so many texts has.
fn slots_for(texts: usize) -> usize
    requires { texts ≤ 2 ^ 31 }
    ensures count { IsSlotCount texts result }
    ensures most { result ≤ 2 ^ 32 }
{
    let mut slots = 2;
    while slots < 2 * texts {
        slots *= 2;
    }
    slots
}
