//! What names are bound to.

ghost use Rattle.std.specs.Prelude.{map};
ghost use Rattle.std.specs.List.{All};
ghost use Rattle.std.specs.List.Sorted.{IsNonDecreasingBy};
ghost use Rattle.std.proofs.Props.{props};
ghost use Rattle.lk_tables.specs.declared.commons.BoundCommon.{BoundCommon};

use crate::commons::BoundCommon;

/// What each name of a link is bound to, and which sections were discarded with their groups.
#[derive(Debug, Drop)]
pub struct Binding {
    /// Of each section, by its number, whether it was discarded with its group.
    pub(crate) discarded: Vec<bool>,
    /// By the symbols' numbers the ranks that their names are bound to.
    pub(crate) ranks: Vec<u64>,
    /// The rank that the entry's name is bound to.
    pub(crate) entry: u64,
    /// For each file, in order of symbols, its COMMON symbols that get room.
    pub(crate) commons: Vec<Vec<BoundCommon>>,

    ghost ordered: { All (IsNonDecreasingBy (λ (c : BoundCommon). c.symbol)) (map (λ list. list.items) commons.items) } by { Prim.hlevel props },
    ghost numbered: { All (IsNonDecreasingBy (λ (c : BoundCommon). c.section)) (map (λ list. list.items) commons.items) } by { Prim.hlevel props },
}
