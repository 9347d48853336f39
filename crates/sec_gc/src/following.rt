//! Marks of roots, and of what sections of a list lead to, which is added to it. What these calls leave out, for a refused push or a number
//! that is no task, the closing rounds do.

ghost use Rattle.std.specs.Prelude.{◌≡◌, ◌<◌, true, Contains, length};
ghost use Rattle.link_sections.specs.Edges.{ends_of};
ghost use Rattle.lk_tables.specs.Reach.{ends_at};
ghost use Rattle.sec_gc.specs.Closing.{KeepsSeen};
ghost use Rattle.sec_gc.specs.Marks.{SitsAt, section_at};

use crate::marks::{MarkSeat, Marks};
use link_sections::Edges;
use lk_base::SecNo;

/// Marks the roots.
pub fn mark_roots(marks: &Marks, seat: &mut MarkSeat, roots: &[SecNo])
    requires seat { SitsAt marks.now seat.old }
    requires roots { roots.now ≡ marks.now.roots }
    ensures seat { SitsAt marks.now seat.new }
    ensures rooted { KeepsSeen roots.now seat.new.seen }
{
    for k in 0..roots.len() {
        mark_root(marks, seat, roots, k);
    }
}

/// Marks a root.
fn mark_root(marks: &Marks, seat: &mut MarkSeat, roots: &[SecNo], k: usize)
    requires seat { SitsAt marks.now seat.old }
    requires roots { roots.now ≡ marks.now.roots }
    requires place { k < length roots.now }
    ensures seat { SitsAt marks.now seat.new }
    ensures keeps { KeepsSeen seat.old.seen seat.new.seen }
    ensures known { Contains seat.new.seen (section_at roots.now k) }
{
    marks.root(seat, roots, k);
}

/// Marks what a section leads to, and lists what had no mark; if the number is not that of a marked section, nothing.
pub fn expand(marks: &Marks, seat: &mut MarkSeat, edges: &Edges, from: SecNo, list: &mut Vec<SecNo>)
    requires seat { SitsAt marks.now seat.old }
    requires edges { ends_of edges.now ≡ marks.now.ends }
    ensures seat { SitsAt marks.now seat.new }
    ensures keeps { KeepsSeen seat.old.seen seat.new.seen }
{
    if !is_task(marks, seat, edges, from) {
        return;
    }
    for k in 0..edges.ends(from).len() {
        expand_end(marks, seat, edges, from, k, list);
    }
}

/// Whether a number is that of a marked section.
fn is_task(marks: &Marks, seat: &mut MarkSeat, edges: &Edges, number: SecNo) -> bool
    requires seat { SitsAt marks.now seat.old }
    requires edges { ends_of edges.now ≡ marks.now.ends }
    ensures seat { SitsAt marks.now seat.new }
    ensures keeps { KeepsSeen seat.old.seen seat.new.seen }
    ensures known { result ≡ true → Contains seat.new.seen number }
{
    if edges.count() <= number as usize {
        return false;
    }
    marks.look(seat, number)
}

/// Marks an end of a section, and lists it if it had no mark.
fn expand_end(
    marks: &Marks,
    seat: &mut MarkSeat,
    edges: &Edges,
    from: SecNo,
    k: usize,
    list: &mut Vec<SecNo>,
)
    requires seat { SitsAt marks.now seat.old }
    requires edges { ends_of edges.now ≡ marks.now.ends }
    requires from { Contains seat.old.seen from }
    requires place { k < length (ends_at (ends_of edges.now) from) }
    ensures seat { SitsAt marks.now seat.new }
    ensures keeps { KeepsSeen seat.old.seen seat.new.seen }
{
    let end = edges.ends(from)[k];
    if mark_new(marks, seat, edges, from, k, end) {
        let _ = list.push(end);
    }
}

/// Marks an end of a section if it has no mark, and answers whether it had none. A look first leaves what is marked already to the
/// caches of all workers.
fn mark_new(
    marks: &Marks,
    seat: &mut MarkSeat,
    edges: &Edges,
    from: SecNo,
    k: usize,
    end: SecNo,
) -> bool
    requires seat { SitsAt marks.now seat.old }
    requires edges { ends_of edges.now ≡ marks.now.ends }
    requires from { Contains seat.old.seen from }
    requires place { k < length (ends_at (ends_of edges.now) from) }
    requires end { end < length marks.now.ends }
    ensures seat { SitsAt marks.now seat.new }
    ensures keeps { KeepsSeen seat.old.seen seat.new.seen }
{
    if marks.look(seat, end) {
        return false;
    }
    marks.mark(seat, edges, from, k)
}
