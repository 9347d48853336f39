//! Marks of sections that threads set at once, and the seats that they set them with.

ghost use Rattle.std.specs.Prelude.{◌≡◌, ◌<◌, ◌≤◌, ◌==◌, true, not, [], All, Contains, length, map, take, vec_capacity, IfErr, IfOk};
ghost use Rattle.std.specs.Slots.{slots_items, slots_len, IsFull};
ghost use Rattle.link_sections.specs.Edges.{ends_of};
ghost use Rattle.lk_tables.specs.Reach.{ends_at, IsReached};
ghost use Rattle.sec_gc.specs.Marks.{SitsAt, IsClosing, MayMark, first_seat, section_at, times, word_of};
ghost use Rattle.sec_gc.specs.Marks.{after_look, after_split, after_swap, joined, newcomer};

use crate::rule::{Key, Looking, Marking, Sharing, Swapping, View};
use atomic_table::{Closed, Seat, Table};
use link_sections::Edges;
use lk_base::SecNo;
use std::alloc::{AllocError, Global};
use std::marker::Model;

/// The marks, one for each section, which threads share by a `&`. It borrows the roots and the edges that it was opened for.
///
/// Nothing is said of who marks a section first, nor of an order between steps of seats that were not joined. No call waits for
/// another, and only `open` and `close` take memory.
#[derive(Drop)]
pub struct Marks<'a> {
    table: Table<(), View, Key<'a>, Marking, Global>,
    sections: u32,
    alloc: Global,
}

impl<'a> Model for Marks<'a> {
    ghost use Rattle.link_sections.specs.Edges.{ends_of};
    ghost use Rattle.sec_gc.specs.Marks.{MarksView};
    ghost use Rattle.sec_gc.specs.Rule.{IsTableFor};

    ghost Value = { MarksView };

    ghost view = { λ m. record { table = m.table.shared.table_id; roots = m.table.shared.key.roots.now; ends = ends_of m.table.shared.key.edges.now } };

    ghost invariant = { λ m. IsTableFor m.sections m.table.shared.table_id m.table.shared.key.roots.now (ends_of m.table.shared.key.edges.now) };
}

/// A seat at marks, for one thread at a time. What it has seen and won exists in proofs alone: it has no bytes, and to split or to join
/// seats copies nothing. What a seat that is dropped has marked stays marked, but no other seat knows of it. The shares of all seats are
/// the whole table, so a seat comes from [`Marks::open`] or from another seat.
#[derive(Drop)]
pub struct MarkSeat {
    seat: Seat<(), View>,
}

impl Model for MarkSeat {
    ghost use Rattle.sec_gc.specs.Marks.{SeatView};
    ghost use Rattle.sec_gc.specs.Rule.{IsSeated, seat_view};

    ghost Value = { SeatView };

    ghost view = { λ s. seat_view s.seat };

    ghost invariant = { λ s. IsSeated s.seat.me };
}

impl<'a> Marks<'a> {
    /// Marks of no section, with the first seat at them, which has the whole table as its share. The only error is out of memory.
    pub fn open(
        alloc: Global,
        roots: &'a [SecNo],
        edges: &'a Edges,
    ) -> Result<(Marks<'a>, MarkSeat), AllocError>
        requires { All (λ r. r < length (ends_of edges.now)) roots.now }
        ensures roots { IfOk result (λ r. r.0.roots ≡ roots.now) }
        ensures ends { IfOk result (λ r. r.0.ends ≡ ends_of edges.now) }
        ensures seat { IfOk result (λ r. r.1 ≡ first_seat r.0) }
    {
        let sections = edges.count() as u32;
        let key = Key { roots, edges };
        let row = vec![in alloc; 0u64; (sections as usize).max(1)]?;
        let (table, seat) = Table::of_words(alloc, row.as_slice(), &key)?;
        let marks = Marks {
            table,
            sections,
            alloc,
        };
        Ok((marks, MarkSeat { seat }))
    }

    /// Marks root `k`, by one atomic step, and answers whether it had no mark before. Each section is won so by at most one step of all
    /// seats.
    pub fn root(&self, seat: &mut MarkSeat, roots: &[SecNo], k: usize) -> bool
        requires seat { SitsAt self.now seat.old }
        requires roots { roots.now ≡ self.now.roots }
        requires place { k < length roots.now }
        ensures step { seat.new ≡ after_swap seat.old (section_at roots.now k) (word_of (not result)) }
        ensures once { result ≡ true → times (section_at roots.now k) seat.old.won ≡ 0 }
        ensures within { IsReached self.now.roots self.now.ends (section_at roots.now k) }
    {
        self.set(seat, roots[k]) == 0
    }

    /// Marks the section to which edge `k` of section `from` leads, by one atomic step, and answers whether it had no mark before. The
    /// seat has seen `from` marked.
    pub fn mark(&self, seat: &mut MarkSeat, edges: &Edges, from: SecNo, k: usize) -> bool
        requires seat { SitsAt self.now seat.old }
        requires edges { ends_of edges.now ≡ self.now.ends }
        requires seen { Contains seat.old.seen from }
        requires place { k < length (ends_at (ends_of edges.now) from) }
        ensures step { seat.new ≡ after_swap seat.old (section_at (ends_at (ends_of edges.now) from) k) (word_of (not result)) }
        ensures once { result ≡ true → times (section_at (ends_at (ends_of edges.now) from) k) seat.old.won ≡ 0 }
        ensures within { IsReached self.now.roots self.now.ends (section_at (ends_at (ends_of edges.now) from) k) }
    {
        self.set(seat, edges.ends(from)[k]) == 0
    }

    /// Whether a section is marked, by one atomic step that changes no mark. One that the seat has seen marked is.
    pub fn look(&self, seat: &mut MarkSeat, section: SecNo) -> bool
        requires seat { SitsAt self.now seat.old }
        requires section { section < length self.now.ends }
        ensures step { seat.new ≡ after_look seat.old section (word_of result) }
        ensures seen { Contains seat.old.seen section → result ≡ true }
        ensures within { result ≡ true → IsReached self.now.roots self.now.ends section }
    {
        self.word(seat, section) == 1
    }

    /// Marks a section, and answers the word as it was.
    fn set(&self, seat: &mut MarkSeat, section: SecNo) -> u64
        requires seat { SitsAt self.now seat.old }
        requires may { MayMark seat.old.roots seat.old.ends seat.old.seen section }
        ensures step { seat.new ≡ after_swap seat.old section result }
        ensures bit { result ≤ 1 }
        ensures once { result ≡ 0 → times section seat.old.won ≡ 0 }
        ensures within { IsReached seat.old.roots seat.old.ends section }
    {
        let shared = &self.table.shared;
        shared.swap::<Swapping>(&mut seat.seat, section as usize, 1)
    }

    /// The word of a section.
    fn word(&self, seat: &mut MarkSeat, section: SecNo) -> u64
        requires seat { SitsAt self.now seat.old }
        requires section { section < length self.now.ends }
        ensures step { seat.new ≡ after_look seat.old section result }
        ensures bit { result ≤ 1 }
        ensures seen { Contains seat.old.seen section → result ≡ 1 }
        ensures within { result ≡ 1 → IsReached seat.old.roots seat.old.ends section }
    {
        let shared = &self.table.shared;
        shared.load::<Looking>(&mut seat.seat, section as usize)
    }

    /// A second seat, which has seen what the first one has, has won nothing and made no step, and takes half of a part of the first
    /// one's share.
    pub fn split(&self, seat: &mut MarkSeat) -> MarkSeat
        requires { SitsAt self.now seat.old }
        ensures step { seat.new ≡ after_split seat.old }
        ensures split { result ≡ newcomer seat.old }
    {
        let shared = &self.table.shared;
        let other = shared.split_seat::<Sharing>(&mut seat.seat);
        MarkSeat { seat: other }
    }

    /// The seat takes what the other has seen and won, the other's steps after its own, and its share.
    pub fn join(&self, seat: &mut MarkSeat, other: MarkSeat)
        requires seat { SitsAt self.now seat.old }
        requires other { SitsAt self.now other }
        ensures { seat.new ≡ joined seat.old other }
    {
        let MarkSeat { seat: other } = other;
        let shared = &self.table.shared;
        shared.join_seat::<Sharing>(&mut seat.seat, other);
    }

    /// By section number, whether each is marked, by the steps of all seats, whether these were joined or not. If there is no memory for
    /// the list, the marks and the seat come back as they were.
    pub fn close(self, seat: MarkSeat) -> Result<Vec<bool>, (Marks<'a>, MarkSeat)>
        requires { SitsAt self seat }
        ensures ok { IfOk result (λ marks. IsClosing self.entry seat marks.items) }
        ensures err { IfErr result (λ r. (r.0 ≡ self.entry) × (r.1 ≡ seat)) }
    {
        let Ok(marked) = Vec::with_capacity(self.alloc, self.sections as usize) else {
            return Err((self, seat));
        };
        let Marks {
            table,
            sections,
            alloc: _,
        } = self;
        let MarkSeat { seat } = seat;
        let closed = table.close_with(seat);
        let marked = first_marks(&closed, sections as usize, marked);
        closed.free();
        Ok(marked)
    }
}

/// The marks of the first sections of a closed table, put into a list that has room for them.
fn first_marks(closed: &Closed<(), Global>, count: usize, mut marked: Vec<bool>) -> Vec<bool>
    requires full { IsFull closed.now.words }
    requires count { count ≤ slots_len closed.now.words }
    requires empty { marked.items ≡ [] }
    requires room { vec_capacity marked ≡ count }
    ensures { result.items ≡ map (λ word. word == 1) (take count (slots_items closed.now.words)) }
{
    for section in 0..count {
        marked.push_reserved(closed.word(section) == 1);
    }
    marked
}
