//! What a seat knows, as plain data that exists in proofs alone, and the rule that each step keeps.

use crate::texts::Texts;
use atomic_table::{Join, Play, Split, TableRule};
use std::collections::LinkedList;

/// A slot and a text's number. No value of it is made: contracts speak of it.
pub struct Pair {
    pub slot: u32,
    pub text: u32,
}

/// A step that a seat made, with the slot's word that it found. No value of it is made: contracts speak of it.
pub enum OwnStep {
    /// A look at a slot.
    Loaded(u32, u64),
    /// A try to fill a slot with a text.
    Tried(u32, u32, u64),
    /// An offer of a text's number to a slot that holds an equal text.
    Lowered(u32, u32, u64),
    /// Another seat was split off it.
    SplitOff,
}

// What a seat knows. No value of it is made. A view that is not live was joined into another.
pub struct View {
    pub live: bool,
    pub texts: LinkedList<LinkedList<u8>>,
    pub seen: LinkedList<Pair>,
    pub placed: LinkedList<Pair>,
    pub steps: LinkedList<OwnStep>,
    pub share: LinkedList<u64>,
}

// What a table is given when it is made.
#[derive(Drop)]
pub struct Key<'a> {
    pub slots: usize,
    pub texts: &'a Texts<'a>,
}

// Each slot is empty or holds a text in its place, and no seat comes but by a split.
pub struct Held;

impl<'a> TableRule<(), View, Key<'a>> for Held {
    ghost use Rattle.intern_race.specs.Rule.{Kept, founder};

    ghost holds = { λ key. Kept key.slots key.texts.now };

    ghost first = { λ key. founder key.texts.now };
}

// What a load found.
pub struct Looking;

impl Play<(), View> for Looking {
    ghost use Rattle.intern_race.specs.Rule.{TellsLoad};

    ghost then = { λ step before found after. TellsLoad step before found after };
}

// What a try to fill a slot found.
pub struct Filling;

impl Play<(), View> for Filling {
    ghost use Rattle.intern_race.specs.Rule.{TellsTry};

    ghost then = { λ step before found after. TellsTry step before found after };
}

// What an offer of a number found.
pub struct Lowering;

impl Play<(), View> for Lowering {
    ghost use Rattle.intern_race.specs.Rule.{TellsLower};

    ghost then = { λ step before found after. TellsLower step before found after };
}

// A load that leaves the view, and shows that what the seat knows was so at one moment.
pub struct Learning;

impl Play<(), View> for Learning {
    ghost use Rattle.intern_race.specs.Rule.{TellsApart};

    ghost then = { λ step before found after. TellsApart before after };
}

// A new seat knows what the old one knows, which counts the split as a step, and a seat learns what a joined one knew.
pub struct Sharing;

impl Split<View> for Sharing {
    ghost use Rattle.intern_race.specs.Rule.{view_after_split, view_split};

    ghost left = { view_after_split };

    ghost right = { view_split };
}

impl Join<View> for Sharing {
    ghost use Rattle.intern_race.specs.Rule.{view_joined, view_spent};

    ghost both = { view_joined };

    ghost spent = { view_spent };
}
