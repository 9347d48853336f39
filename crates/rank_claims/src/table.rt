//! The table of words and the seats at it.

ghost use Rattle.std.specs.Prelude.{◌≡◌, ◌<◌, ◌≤◌, [], length, take, vec_capacity, IfOk, IfErr};
ghost use Rattle.claim_core.specs.Events.{AllInRow};
ghost use Rattle.rank_claims.specs.Claims.{SitsAt, IsFound, IsClosing, offer_at, first_seat};
ghost use Rattle.rank_claims.specs.Claims.{after_claim, after_look, after_split, newcomer, joined};
ghost use Rattle.std.specs.Slots.{slots_items, slots_len, IsFull};

use crate::rule::{Claiming, Falling, Key, Looking, Sharing, View};
use atomic_table::{Closed, Seat, Table};
use claim_core::{Event, NONE};
use std::alloc::{AllocError, Global};
use std::marker::Model;

/// The words, which threads share by a `&`. It borrows the offers that it was opened for and keeps no copy of them.
///
/// Nothing is said of who comes first, nor of an order between steps of seats that were not joined. No call waits for
/// another, and only `open` and `close` take memory.
#[derive(Drop)]
pub struct Claims<'a> {
    table: Table<(), View, Key<'a>, Falling, Global>,
    words: u32,
    alloc: Global,
}

impl<'a> Model for Claims<'a> {
    ghost use Rattle.rank_claims.specs.Claims.{TableView};
    ghost use Rattle.rank_claims.specs.Rule.{IsTableFor};

    ghost Value = { TableView };

    ghost view = { λ c. record { table = c.table.shared.table_id; words = c.words; offers = c.table.shared.key.offers.now } };

    ghost invariant = { λ c. IsTableFor c.words c.table.shared.table_id c.table.shared.key.words c.table.shared.key.offers.now };
}

/// A seat at a table, for one thread at a time. What it knows exists in proofs alone: it has no bytes, and to split or
/// to join seats copies nothing. What a seat that is dropped has claimed stays claimed, but no other seat knows of it.
/// The shares of all seats are the whole table, so a seat comes from [`Claims::open`] or from another seat, and what a call
/// does to the share of the seat that it is given shows whether it made one.
#[derive(Drop)]
pub struct ClaimSeat {
    seat: Seat<(), View>,
}

impl Model for ClaimSeat {
    ghost use Rattle.rank_claims.specs.Claims.{SeatView};
    ghost use Rattle.rank_claims.specs.Rule.{seen, IsSeated};

    ghost Value = { SeatView };

    ghost view = { λ s. seen s.seat };

    ghost invariant = { λ s. IsSeated s.seat.me };
}

impl<'a> Claims<'a> {
    /// A table whose words are all `NONE`, with the first seat at it, which has the whole table as its share.
    pub fn open(
        alloc: Global,
        words: u32,
        offers: &'a [Event],
    ) -> Result<(Claims<'a>, ClaimSeat), AllocError>
        requires { AllInRow words offers.now }
        ensures words { IfOk result (λ r. r.0.words ≡ words) }
        ensures offers { IfOk result (λ r. r.0.offers ≡ offers.now) }
        ensures seat { IfOk result (λ r. r.1 ≡ first_seat r.0) }
    {
        let key = Key { words, offers };
        let row = vec![in alloc; NONE; (words as usize).max(1)]?;
        let (table, seat) = Table::of_words(alloc, row.as_slice(), &key)?;
        let claims = Claims {
            table,
            words,
            alloc,
        };
        Ok((claims, ClaimSeat { seat }))
    }

    /// Claims the offer at `i`, by one atomic step that lowers the offer's word to its rank if that is smaller, and
    /// answers the word as it was before.
    pub fn claim(&self, seat: &mut ClaimSeat, offers: &[Event], i: usize) -> u64
        requires seat { SitsAt self.now seat.old }
        requires offers { offers.now ≡ self.now.offers }
        requires place { i < length offers.now }
        ensures step { seat.new ≡ after_claim seat.old (offer_at offers.now i) result }
        ensures found { IsFound seat.old (offer_at offers.now i).word result }
    {
        let offer = offers[i];
        let shared = &self.table.shared;
        shared.fetch_min::<Claiming>(&mut seat.seat, offer.word as usize, offer.rank)
    }

    /// The word as it is, by one atomic step that changes none.
    pub fn least(&self, seat: &mut ClaimSeat, word: u32) -> u64
        requires seat { SitsAt self.now seat.old }
        requires word { word < self.now.words }
        ensures step { seat.new ≡ after_look seat.old word result }
        ensures found { IsFound seat.old word result }
    {
        let shared = &self.table.shared;
        shared.load::<Looking>(&mut seat.seat, word as usize)
    }

    /// A second seat, which knows what the first one knows, has made no step, and takes half of a part of the first one's share.
    pub fn split(&self, seat: &mut ClaimSeat) -> ClaimSeat
        requires { SitsAt self.now seat.old }
        ensures step { seat.new ≡ after_split seat.old }
        ensures split { result ≡ newcomer seat.old }
    {
        let shared = &self.table.shared;
        let other = shared.split_seat::<Sharing>(&mut seat.seat);
        ClaimSeat { seat: other }
    }

    /// The seat learns what the other knows, and takes the other's steps after its own, and its share.
    pub fn join(&self, seat: &mut ClaimSeat, other: ClaimSeat)
        requires seat { SitsAt self.now seat.old }
        requires other { SitsAt self.now other }
        ensures { seat.new ≡ joined seat.old other }
    {
        let ClaimSeat { seat: other } = other;
        let shared = &self.table.shared;
        shared.join_seat::<Sharing>(&mut seat.seat, other);
    }

    /// The words as the steps of all seats left them, whether these were joined or not. If there is no memory for the
    /// list, the table and the seat come back as they were.
    pub fn close(self, seat: ClaimSeat) -> Result<Vec<u64>, (Claims<'a>, ClaimSeat)>
        requires { SitsAt self seat }
        ensures ok { IfOk result (λ words. IsClosing self.entry seat words.items) }
        ensures err { IfErr result (λ r. (r.0 ≡ self.entry) × (r.1 ≡ seat)) }
    {
        let Ok(words) = Vec::with_capacity(self.alloc, self.words as usize) else {
            return Err((self, seat));
        };
        let Claims {
            table,
            words: count,
            alloc: _,
        } = self;
        let ClaimSeat { seat } = seat;
        let closed = table.close_with(seat);
        let words = first_words(&closed, count as usize, words);
        closed.free();
        Ok(words)
    }
}

// The first words of a closed table, put into a list that has room for them.
fn first_words(closed: &Closed<(), Global>, count: usize, mut row: Vec<u64>) -> Vec<u64>
    requires full { IsFull closed.now.words }
    requires count { count ≤ slots_len closed.now.words }
    requires empty { row.items ≡ [] }
    requires room { vec_capacity row ≡ count }
    ensures { result.items ≡ take count (slots_items closed.now.words) }
{
    for word in 0..count {
        row.push_reserved(closed.word(word));
    }
    row
}
