//! What a seat knows, as plain data that exists in proofs alone, and the rule that each step keeps.

use atomic_table::{Join, Play, Split, TableRule};
use claim_core::Event;
use std::collections::LinkedList;

/// A step that a seat made, with the number that it found at the word. No value of it is made: contracts speak of it.
pub enum OwnStep {
    /// A claim of an offer.
    Claimed(Event, u64),
    /// A look at a word.
    Read(u32, u64),
    /// Another seat was split off it.
    SplitOff,
}

// What a seat knows. No value of it is made. A view that is not live was joined into another.
pub struct View {
    pub live: bool,
    pub offers: LinkedList<Event>,
    pub known: LinkedList<u64>,
    pub steps: LinkedList<OwnStep>,
    pub share: LinkedList<u64>,
}

// What a table is given when it is made.
#[derive(Drop)]
pub struct Key<'a> {
    pub words: u32,
    pub offers: &'a [Event],
}

// The words only fall, and only to ranks on offer that a seat has claimed, and no seat comes but by a split.
pub struct Falling;

impl<'a> TableRule<(), View, Key<'a>> for Falling {
    ghost use Rattle.rank_claims.specs.Rule.{Kept, founder};

    ghost holds = { λ key. Kept key.words key.offers.now };

    ghost first = { λ key. founder key.words key.offers.now };
}

// What a claim found.
pub struct Claiming;

impl Play<(), View> for Claiming {
    ghost use Rattle.rank_claims.specs.Rule.{TellsClaim};

    ghost then = { λ step before found after. TellsClaim step before found after };
}

// What a look found.
pub struct Looking;

impl Play<(), View> for Looking {
    ghost use Rattle.rank_claims.specs.Rule.{TellsLook};

    ghost then = { λ step before found after. TellsLook step before found after };
}

// A new seat knows what the old one knows, which counts the split as a step, and a seat learns what a joined one knew.
pub struct Sharing;

impl Split<View> for Sharing {
    ghost use Rattle.rank_claims.specs.Rule.{view_after_split, view_split};

    ghost left = { view_after_split };

    ghost right = { view_split };
}

impl Join<View> for Sharing {
    ghost use Rattle.rank_claims.specs.Rule.{view_joined, view_spent};

    ghost both = { view_joined };

    ghost spent = { view_spent };
}
