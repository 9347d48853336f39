//! What a seat knows, as plain data that exists in proofs alone, and the rule that each step keeps.

use atomic_table::{Join, Play, Split, TableRule};
use link_sections::Edges;
use lk_base::SecNo;
use std::collections::LinkedList;

/// A step that a seat made, with the word that it found. No value of it is made: contracts speak of it.
pub enum OwnStep {
    /// A section was marked.
    Swapped(SecNo, u64),
    /// A look at a section.
    Looked(SecNo, u64),
    /// Another seat was split off it.
    SplitOff,
}

// What a seat knows. No value of it is made. A view that is not live was joined into another.
pub struct View {
    pub live: bool,
    pub roots: LinkedList<SecNo>,
    pub ends: LinkedList<LinkedList<SecNo>>,
    pub seen: LinkedList<SecNo>,
    pub won: LinkedList<SecNo>,
    pub steps: LinkedList<OwnStep>,
    pub share: LinkedList<u64>,
}

// What a table is given when it is made.
#[derive(Drop)]
pub struct Key<'a> {
    pub roots: &'a [SecNo],
    pub edges: &'a Edges,
}

// Only sections that are reached are marked, each is won once, and no seat comes but by a split.
pub struct Marking;

impl<'a> TableRule<(), View, Key<'a>> for Marking {
    ghost use Rattle.link_sections.specs.Edges.{ends_of};
    ghost use Rattle.sec_gc.specs.Rule.{Kept, founder};

    ghost holds = { λ key. Kept key.roots.now (ends_of key.edges.now) };

    ghost first = { λ key. founder key.roots.now (ends_of key.edges.now) };
}

// What a swap found.
pub struct Swapping;

impl Play<(), View> for Swapping {
    ghost use Rattle.sec_gc.specs.Rule.{TellsSwap};

    ghost then = { λ step before found after. TellsSwap step before found after };
}

// What a look found.
pub struct Looking;

impl Play<(), View> for Looking {
    ghost use Rattle.sec_gc.specs.Rule.{TellsLook};

    ghost then = { λ step before found after. TellsLook step before found after };
}

// A new seat has seen what the old one has, which counts the split as a step, and a seat takes all that a joined one has.
pub struct Sharing;

impl Split<View> for Sharing {
    ghost use Rattle.sec_gc.specs.Rule.{view_after_split, view_split};

    ghost left = { view_after_split };

    ghost right = { view_split };
}

impl Join<View> for Sharing {
    ghost use Rattle.sec_gc.specs.Rule.{view_joined, view_spent};

    ghost both = { view_joined };

    ghost spent = { view_spent };
}
