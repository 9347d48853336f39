//! The text table: by one seat, by two in each order of their calls, and by many in turn and at once.

ghost use Rattle.std.specs.Prelude.{◌≡◌, ◌<◌, ◌≤◌, ◌^◌, length, vec_len, All, IfOk};
ghost use Rattle.intern_race.specs.Interning.{HasPlacedAll, SitsAt};
ghost use Rattle.intern_race.specs.Texts.{text_numbers};

use intern_race::{InternSeat, Interner, Texts, hash_of};
use name_numbers::number_texts;
use std::alloc::{AllocError, Global};
use std::ops::Range;
use std::process::Abort;
use std::test::Fail;
use std::thread::Threads;
use work_split::{OpenGate, over_pieces, pieces};

/// Ends a test whose texts are not so many.
macro_rules! so_many {
    ($texts:ident, $count:expr) => {
        if $texts.len() != $count {
            return Err(Fail::from("another number of texts"));
        }
    };
}

/// Texts that all have the home 12 of 16 slots.
const CROWDED: &[&[u8]] = &[b"a", b"q", b"A", b"Q", b"1", b"a"];

/// Texts of which two are equal and one is empty.
const FEW: &[&[u8]] = &[b"ab", b"c", b"ab", b""];

/// Where bytes are cut.
const ENDS: &[u32] = &[1, 4, 9];

const NO_ENDS: &[u32] = &[];

fn texts_of<'a>(alloc: Global, list: &[&'a [u8]]) -> Result<Texts<'a>, AllocError> {
    let mut texts = Texts::empty(alloc);
    for text in list {
        texts.add(*text)?;
    }
    Ok(texts)
}

// The seat places a text, and stays at its table.
fn place_at(interner: &Interner, seat: &mut InternSeat, texts: &Texts, i: usize) -> u32
    requires seat { SitsAt interner.now seat.old }
    requires texts { texts.now ≡ interner.now.texts }
    requires text { i < length texts.now }
    ensures { SitsAt interner.now seat.new }
{
    interner.place(seat, texts, i)
}

// Whether two texts are equal, where the seat has placed all.
fn are_same(interner: &Interner, seat: &InternSeat, texts: &Texts, i: usize, j: usize) -> bool
    requires seat { SitsAt interner.now seat.now }
    requires texts { texts.now ≡ interner.now.texts }
    requires placed { HasPlacedAll seat.now }
    requires first { i < length texts.now }
    requires second { j < length texts.now }
{
    interner.same(seat, texts, i, j)
}

// The seat places each text.
fn place_all(interner: &Interner, seat: &mut InternSeat, texts: &Texts)
    requires seat { SitsAt interner.now seat.old }
    requires texts { texts.now ≡ interner.now.texts }
    ensures seat { SitsAt interner.now seat.new }
    ensures placed { HasPlacedAll seat.new }
{
    for i in 0..texts.len() {
        interner.place(seat, texts, i);
    }
}

// The numbers after the seat has placed each text, too. A close that is refused is tried again.
fn closed(interner: Interner, mut seat: InternSeat, texts: &Texts) -> Result<Vec<u32>, Fail>
    requires seat { SitsAt interner seat }
    requires texts { texts.now ≡ interner.texts }
    ensures { IfOk result (λ numbers. numbers.items ≡ text_numbers texts.now) }
{
    place_all(&interner, &mut seat, texts);
    match interner.close(seat, texts) {
        Ok(numbers) => Ok(numbers),
        Err((interner, seat)) => Ok(interner.close(seat, texts).ok().ok_or("no memory")?),
    }
}

#[test]
fn one_seat_places_texts_of_one_home(rt: HostRuntime) -> Result<(), Fail> {
    let alloc = rt.alloc();
    let texts = texts_of(alloc, CROWDED)?;
    so_many!(texts, 6);
    one_home_in(&rt, alloc, &texts)
}

fn one_home_in<R: Abort>(rt: &R, alloc: Global, texts: &Texts) -> Result<(), Fail>
    requires { length texts.now ≡ 6 }
{
    let (interner, mut seat) = Interner::open(alloc, texts)?;
    assert_eq!(rt; interner.slots(), 16);
    assert_eq!(rt; place_at(&interner, &mut seat, texts, 0), 12);
    assert_eq!(rt; place_at(&interner, &mut seat, texts, 1), 13);
    assert_eq!(rt; place_at(&interner, &mut seat, texts, 2), 14);
    assert_eq!(rt; place_at(&interner, &mut seat, texts, 3), 15);
    assert_eq!(rt; place_at(&interner, &mut seat, texts, 4), 0);
    assert_eq!(rt; place_at(&interner, &mut seat, texts, 5), 12);
    let numbers = closed(interner, seat, texts)?;
    assert!(rt; numbers.as_slice() == [0, 1, 2, 3, 4, 0].as_slice());
    Ok(())
}

#[test]
fn equal_texts_share_a_slot(rt: HostRuntime) -> Result<(), Fail> {
    let alloc = rt.alloc();
    let texts = texts_of(alloc, FEW)?;
    so_many!(texts, 4);
    equal_texts_share_a_slot_in(&rt, alloc, &texts)
}

fn equal_texts_share_a_slot_in<R: Abort>(rt: &R, alloc: Global, texts: &Texts) -> Result<(), Fail>
    requires { length texts.now ≡ 4 }
{
    let (interner, mut seat) = Interner::open(alloc, texts)?;
    place_all(&interner, &mut seat, texts);
    assert!(rt; are_same(&interner, &seat, texts, 0, 2));
    assert!(rt; !are_same(&interner, &seat, texts, 0, 1));
    let numbers = closed(interner, seat, texts)?;
    assert!(rt; numbers.as_slice() == [0, 1, 0, 3].as_slice());
    Ok(())
}

#[test]
fn no_texts(rt: HostRuntime) -> Result<(), Fail> {
    let alloc = rt.alloc();
    let texts = Texts::empty(alloc);
    no_texts_in(&rt, alloc, &texts)
}

fn no_texts_in<R: Abort>(rt: &R, alloc: Global, texts: &Texts) -> Result<(), Fail>
    requires { length texts.now ≤ 2 ^ 31 }
{
    let (interner, mut seat) = Interner::open(alloc, texts)?;
    let other = interner.split(&mut seat);
    interner.join(&mut seat, other);
    assert!(rt; closed(interner, seat, texts)?.is_empty());
    Ok(())
}

#[test]
fn hashes(rt: HostRuntime) -> Result<(), Fail> {
    assert_eq!(rt; hash_of(b""), 0xcbf2_9ce4_8422_2325);
    assert_eq!(rt; hash_of(b"a"), 0xaf63_dc4c_8601_ec8c);
    assert_eq!(rt; hash_of(b"foobar"), 0x8594_4171_f739_67e8);
    Ok(())
}

#[test]
fn texts_of_bytes_that_are_cut(rt: HostRuntime) -> Result<(), Fail> {
    let alloc = rt.alloc();
    let mut texts = Texts::empty(alloc);
    texts.add(b"one")?;
    texts.add_cut(b"atwothree", ENDS)?;
    texts.add(b"two")?;
    texts.add_cut(b"", NO_ENDS)?;
    so_many!(texts, 5);
    cut_texts_in(&rt, alloc, &texts)
}

fn cut_texts_in<R: Abort>(rt: &R, alloc: Global, texts: &Texts) -> Result<(), Fail>
    requires { length texts.now ≤ 2 ^ 31 }
{
    let (interner, seat) = Interner::open(alloc, texts)?;
    let numbers = closed(interner, seat, texts)?;
    assert!(rt; numbers.as_slice() == [0, 1, 2, 3, 2].as_slice());
    Ok(())
}

// Text `i` is placed by one of two seats.
fn place_by(
    interner: &Interner,
    left: &mut InternSeat,
    right: &mut InternSeat,
    texts: &Texts,
    first: bool,
    i: usize,
)
    requires left { SitsAt interner.now left.old }
    requires right { SitsAt interner.now right.old }
    requires texts { texts.now ≡ interner.now.texts }
    ensures left { SitsAt interner.now left.new }
    ensures right { SitsAt interner.now right.new }
{
    if i < texts.len() {
        if first {
            place_at(interner, left, texts, i);
        } else {
            place_at(interner, right, texts, i);
        }
    }
}

// Two seats place three texts each: call n is the first seat's where the order's bit n is set.
fn number_by_two(alloc: Global, texts: &Texts, order: u32) -> Result<Vec<u32>, Fail>
    requires { length texts.now ≤ 2 ^ 31 }
{
    let (interner, mut left) = Interner::open(alloc, texts)?;
    let mut right = interner.split(&mut left);
    let mut low: usize = 0;
    for call in 0..6u32 {
        let first = (order >> call) % 2 == 1;
        let i = if first {
            low
        } else {
            (3 + call as usize).saturating_sub(low)
        };
        place_by(&interner, &mut left, &mut right, texts, first, i);
        low = low.wrapping_add(usize::from(first));
    }
    interner.join(&mut left, right);
    closed(interner, left, texts)
}

// How many bits are set.
fn count_of(order: u32) -> u32 {
    let mut count: u32 = 0;
    for call in 0..6u32 {
        count = count.wrapping_add((order >> call) % 2);
    }
    count
}

#[test]
fn two_seats_in_each_order_of_their_calls(rt: HostRuntime) -> Result<(), Fail> {
    let alloc = rt.alloc();
    let texts = texts_of(alloc, CROWDED)?;
    so_many!(texts, 6);
    let mut orders: u32 = 0;
    for order in 0..64 {
        if count_of(order) == 3 {
            let numbers = number_by_two(alloc, &texts, order)?;
            assert!(rt; numbers.as_slice() == [0, 1, 2, 3, 4, 0].as_slice());
            orders = orders.wrapping_add(1);
        }
    }
    assert_eq!(rt; orders, 20);
    Ok(())
}

// So many seats place all texts one after the other, each from another one on.
fn number_in_turn(alloc: Global, texts: &Texts, seats: usize) -> Result<Vec<u32>, Fail>
    requires { length texts.now ≤ 2 ^ 31 }
{
    let (interner, mut seat) = Interner::open(alloc, texts)?;
    for start in 0..seats {
        let mut other = interner.split(&mut seat);
        place_from(&interner, &mut other, texts, start);
        interner.join(&mut seat, other);
    }
    closed(interner, seat, texts)
}

// A seat places each text from one on, and round the end.
fn place_from(interner: &Interner, seat: &mut InternSeat, texts: &Texts, start: usize)
    requires seat { SitsAt interner.now seat.old }
    requires texts { texts.now ≡ interner.now.texts }
    ensures { SitsAt interner.now seat.new }
{
    for k in 0..texts.len() {
        let i = start.wrapping_add(k) % texts.len();
        place_at(interner, seat, texts, i);
    }
}

#[test]
fn many_seats_in_turn(rt: HostRuntime) -> Result<(), Fail> {
    let alloc = rt.alloc();
    let texts = texts_of(alloc, CROWDED)?;
    so_many!(texts, 6);
    for seats in [1, 2, 3, 64] {
        let numbers = number_in_turn(alloc, &texts, seats)?;
        assert!(rt; numbers.as_slice() == [0, 1, 2, 3, 4, 0].as_slice());
    }
    Ok(())
}

// A seat for each of so many workers.
fn seats_for(
    alloc: Global,
    interner: &Interner,
    seat: &mut InternSeat,
    count: usize,
) -> Result<Vec<InternSeat>, AllocError>
    requires { SitsAt interner.now seat.old }
    ensures sits { SitsAt interner.now seat.new }
    ensures count { IfOk result (λ seats. vec_len seats ≡ count) }
    ensures seated { IfOk result (λ seats. All (SitsAt interner.now) seats.items) }
{
    let mut seats = Vec::with_capacity(alloc, count)?;
    for worker in 0..count {
        seats.push(interner.split(seat))?;
    }
    Ok(seats)
}

// The seat after it has placed each text, from one on and round the end.
fn placed_from(interner: &Interner, mut seat: InternSeat, texts: &Texts, start: usize) -> InternSeat
    requires seat { SitsAt interner.now seat }
    requires texts { texts.now ≡ interner.now.texts }
    ensures { SitsAt interner.now result }
{
    place_from(interner, &mut seat, texts, start);
    seat
}

// Each seat places all texts in a thread of its own, each from another one on.
fn place_on_threads<R: Threads + Sync>(
    rt: &R,
    alloc: Global,
    interner: &Interner,
    texts: &Texts,
    cuts: &[Range<usize>],
    seats: Vec<InternSeat>,
) -> Result<Vec<InternSeat>, AllocError>
    requires texts { texts.now ≡ interner.now.texts }
    requires count { length cuts.now ≡ vec_len seats }
    requires most { vec_len seats ≤ 64 }
    requires seated { All (SitsAt interner.now) seats.items }
    ensures { IfOk result (λ seats. All (SitsAt interner.now) seats.items) }
{
    over_pieces(
        rt,
        alloc,
        &OpenGate,
        cuts,
        seats,
        |worker: u32, _piece: Range<usize>, seat: InternSeat| -> InternSeat
            requires seat { SitsAt interner.now seat }
            requires texts { texts.now ≡ interner.now.texts }
            ensures { SitsAt interner.entry.now result }
        { placed_from(interner, seat, texts, worker as usize) },
    )
}

// The seat learns what the others know.
fn join_all(interner: &Interner, seat: &mut InternSeat, others: Vec<InternSeat>)
    requires seat { SitsAt interner.now seat.old }
    requires others { All (SitsAt interner.now) others.items }
    ensures { SitsAt interner.now seat.new }
{
    for other in others {
        interner.join(seat, other);
    }
}

// So many workers place all texts at the same time.
fn number_on_threads<R: Threads + Sync>(
    rt: &R,
    alloc: Global,
    texts: &Texts,
    workers: u32,
) -> Result<Vec<u32>, Fail>
    requires few { length texts.now ≤ 2 ^ 31 }
    requires some { 1 ≤ workers }
    requires most { workers ≤ 64 }
{
    let (interner, mut seat) = Interner::open(alloc, texts)?;
    let cuts = pieces(alloc, workers as usize, workers)?;
    let seats = seats_for(alloc, &interner, &mut seat, cuts.len())?;
    let placed = place_on_threads(rt, alloc, &interner, texts, cuts.as_slice(), seats)?;
    join_all(&interner, &mut seat, placed);
    closed(interner, seat, texts)
}

#[test]
fn many_seats_on_threads(rt: HostRuntime) -> Result<(), Fail> {
    let alloc = rt.alloc();
    let texts = texts_of(alloc, CROWDED)?;
    so_many!(texts, 6);
    on_threads(&rt, alloc, &texts, 1)?;
    on_threads(&rt, alloc, &texts, 2)?;
    on_threads(&rt, alloc, &texts, 3)?;
    on_threads(&rt, alloc, &texts, 64)
}

fn on_threads<R: Abort + Threads + Sync>(
    rt: &R,
    alloc: Global,
    texts: &Texts,
    workers: u32,
) -> Result<(), Fail>
    requires few { length texts.now ≤ 2 ^ 31 }
    requires some { 1 ≤ workers }
    requires most { workers ≤ 64 }
{
    let numbers = number_on_threads(rt, alloc, texts, workers)?;
    assert!(rt;
        numbers.as_slice() == [0, 1, 2, 3, 4, 0].as_slice(),
        "{workers} workers"
    );
    Ok(())
}

/// So many texts that several workers number them, and how many of them are unequal.
const MANY: usize = 20_000;

const UNEQUAL: usize = 7_000;

// Many texts of two bytes each, one after the other, of which each comes again after so many unequal ones; and where they end.
fn made_texts(alloc: Global) -> Result<(Vec<u8>, Vec<u32>), AllocError> {
    let mut bytes = Vec::with_capacity(alloc, 2 * MANY)?;
    let mut ends = Vec::with_capacity(alloc, MANY)?;
    for i in 0..MANY {
        let text = i % UNEQUAL;
        bytes.push((text / 256) as u8)?;
        bytes.push((text % 256) as u8)?;
        ends.push((2 * i + 2) as u32)?;
    }
    Ok((bytes, ends))
}

// Whether the number of each of them is that of the first equal one.
fn are_firsts(numbers: &[u32]) -> bool {
    for i in 0..numbers.len() {
        if numbers[i] as usize != i % UNEQUAL {
            return false;
        }
    }
    numbers.len() == MANY
}

#[test]
fn many_texts_on_threads(rt: HostRuntime) -> Result<(), Fail> {
    let (bytes, ends) = made_texts(rt.alloc())?;
    many_texts_on_threads_in(&rt, rt.alloc(), bytes.as_slice(), ends.as_slice())
}

fn many_texts_on_threads_in<R: Abort + Threads + Sync>(
    rt: &R,
    alloc: Global,
    bytes: &[u8],
    ends: &[u32],
) -> Result<(), Fail> {
    let mut texts = Texts::empty(alloc);
    texts.add_cut(bytes, ends)?;
    so_many!(texts, MANY);
    for workers in [1, 2, 3, 64] {
        let numbers = number_texts(rt, alloc, &texts, workers, &OpenGate)?;
        assert!(rt; are_firsts(numbers.as_slice()), "{workers} workers");
    }
    Ok(())
}
