//! Pools of merged pieces, one for each kind of section that is merged.

ghost use Rattle.std.specs.Prelude.{◌<◌, ◌^◌, All};
ghost use Rattle.std.proofs.Props.{props};
ghost use Rattle.link_sections.specs.Pools.{AreInOrder, ArePiles, AreRising, part_rows, piece_lists, pool_bytes};

use crate::pieces::{Merged, PieceRows};
use lk_base::SecNo;

/// A pool: it stands at the place of its first section, and takes its name, flags and alignment from it.
#[derive(Clone, Copy, Debug, PartialEq, Eq)]
pub struct Pool {
    /// The number of its first section.
    pub first: SecNo,
    /// Its bytes, to the end of its last piece.
    pub size: u64,
}

/// The pools of a link, in the order of their first sections.
#[derive(Debug, Drop)]
pub struct Pools {
    pub(crate) pools: Vec<Pool>,
    /// By section number, those that are merged.
    pub(crate) merged: Vec<Option<Merged>>,
    /// `None` where nothing is merged.
    pub(crate) rows: Option<PieceRows>,

    ghost rising: { AreRising pools.items } by { Prim.hlevel props },
    ghost small: { pool_bytes pools.items < 2 ^ 60 } by { Prim.hlevel props },
    ghost ordered: { All AreInOrder (part_rows rows) } by { Prim.hlevel props },
    ghost piled: { ArePiles pools.items (piece_lists rows) } by { Prim.hlevel props },
}
