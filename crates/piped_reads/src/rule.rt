//! The rule of the queue between the loader and the parsers.

ghost use Rattle.std.specs.Prelude.{◌≡◌, ℕ, ◌+◌, ◌≤◌, ⊤, [], ◌∷◌, ◌++◌, sum_by};
ghost use Rattle.piped_reads.specs.Rule.{hand, IsFair};

use crate::pieces::Piece;
use crossbeam_queue::RuledArrayQueue;
use crossbeam_queue::protocol::{Join, Lesson, Outcome, Protocol};
use std::collections::LinkedList;

/// What a pass of the queue has put, and what it has taken. No value of it is made.
pub struct Hand {
    pub put: LinkedList<Piece>,
    pub taken: LinkedList<Piece>,
}

/// The rule: what the loader has put is what all have taken and what the queue holds.
pub struct Fair;

impl Protocol<Piece, Hand> for Fair {
    ghost holds = { IsFair };

    ghost first = { hand [] [] };
}

/// A piece was put.
pub struct Put;

impl Outcome<Piece, Hand> for Put {
    ghost then = { λ v x w. w ≡ hand (v.put ++ x ∷ []) v.taken };
}

impl Lesson<Piece, Hand> for Put {
    ghost fact = { λ v items. ⊤ };
}

/// A piece was taken.
pub struct Taken;

impl Outcome<Piece, Hand> for Taken {
    ghost then = { λ v x w. w ≡ hand v.put (v.taken ++ x ∷ []) };
}

impl Lesson<Piece, Hand> for Taken {
    ghost fact = { λ v items. ⊤ };
}

/// What a parser took counts as taken by the loader, once it is joined.
pub struct Joined;

impl Join<Hand> for Joined {
    ghost both = { λ v w. hand v.put (v.taken ++ w.taken) };

    ghost spent = { hand [] [] };
}

/// No piece was taken more often than it was put.
pub struct Account;

impl Lesson<Piece, Hand> for Account {
    ghost use Rattle.piped_reads.specs.declared.pieces.Piece.{Piece};

    ghost fact = { λ v items. (weight : Piece → ℕ) → sum_by weight v.taken + sum_by weight items ≤ sum_by weight v.put };
}

/// The queue.
pub type Line = RuledArrayQueue<Piece, Hand, Fair>;
