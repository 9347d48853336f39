//! A seat for each worker, and the seats of all joined again.

ghost use Rattle.std.specs.Prelude.{◌≡◌, ◌||◌, true, false, All, vec_len, IfOk};
ghost use Rattle.sec_gc.specs.Closing.{KeepsSeen};
ghost use Rattle.sec_gc.specs.Marks.{SitsAt};
ghost use Rattle.sec_gc.specs.Workers.{HasMore};

use crate::closing::Done;
use crate::marks::{MarkSeat, Marks};
use std::alloc::{AllocError, Global};

/// A seat for each of so many workers, each of which has seen what this one has.
pub fn seats_for(
    alloc: Global,
    marks: &Marks,
    seat: &mut MarkSeat,
    count: usize,
) -> Result<Vec<MarkSeat>, AllocError>
    requires { SitsAt marks.now seat.old }
    ensures sits { SitsAt marks.now seat.new }
    ensures seen { seat.new.seen ≡ seat.old.seen }
    ensures count { IfOk result (λ seats. vec_len seats ≡ count) }
    ensures seated { IfOk result (λ seats. All (SitsAt marks.now) seats.items) }
    ensures same { IfOk result (λ seats. All (λ other. other.seen ≡ seat.old.seen) seats.items) }
{
    let mut seats = Vec::with_capacity(alloc, count)?;
    for worker in 0..count {
        seats.push(marks.split(seat))?;
    }
    Ok(seats)
}

/// Joins the seats of all workers, and answers whether one of them found something missing.
pub fn join_all(marks: &Marks, seat: &mut MarkSeat, others: Vec<Done>) -> bool
    requires seat { SitsAt marks.now seat.old }
    requires others { All (λ done. SitsAt marks.now done.seat) others.items }
    ensures sits { SitsAt marks.now seat.new }
    ensures keeps { KeepsSeen seat.old.seen seat.new.seen }
    ensures kept { All (λ done. KeepsSeen done.seat.seen seat.new.seen) others.items }
    ensures some { result ≡ true → HasMore others.items }
    ensures none { result ≡ false → All (λ done. done.more ≡ false) others.items }
{
    let mut more = false;
    for done in others {
        let Done {
            seat: other,
            more: one,
        } = done;
        marks.join(seat, other);
        more = any_of(more, one);
    }
    more
}

/// Whether one of two is so.
pub fn any_of(one: bool, other: bool) -> bool
    ensures { result ≡ (one || other) }
{
    one || other
}
