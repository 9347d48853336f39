//! What is read of pools.

ghost use Rattle.std.specs.Prelude.{◌≡◌, ◌<◌, ◌^◌, [], None, All, IfSome, length, option_map, slice_index_or};
ghost use Rattle.link_sections.specs.PoolViews.{is_merged, merged_at, merged_by, merged_of, merged_views, piece_rows, pool_list};
ghost use Rattle.link_sections.specs.declared.pools.Pool.{Pool};
ghost use Rattle.link_sections.specs.Pools.{AreInOrder, ArePiles, AreRising, IsPile, part_rows, pool_bytes};

use crate::pieces::{Merged, Part, Piece, PieceRows};
use crate::pools::{Pool, Pools};
use lk_base::SecNo;
use std::alloc::Global;

impl Pools {
    /// No pools: nothing is merged.
    #[tactic(auto, unfolding(crate::specs::PoolViews::merged_by))]
    pub fn none(alloc: Global) -> Pools
        ensures pools { pool_list result ≡ [] }
        ensures pieces { piece_rows result ≡ [] }
        ensures merged { merged_views result ≡ [] }
    {
        Pools {
            pools: Vec::new(alloc),
            merged: Vec::new(alloc),
            rows: None,
        }
    }

    /// Pools in the order of their first sections, by section number those that are merged, and the lists of their pieces and parts.
    pub fn of(pools: Vec<Pool>, merged: Vec<Option<Merged>>, rows: PieceRows) -> Pools
        requires rising { AreRising pools.items }
        requires small { pool_bytes pools.items < 2 ^ 60 }
        requires ordered { All AreInOrder rows.parts }
        requires piled { ArePiles pools.items rows.pieces }
        ensures pools { pool_list result ≡ pools.items }
        ensures pieces { piece_rows result ≡ rows.pieces }
        ensures merged { merged_views result ≡ merged_by rows.parts merged.items }
    {
        Pools {
            pools,
            merged,
            rows: Some(rows),
        }
    }

    /// The pools, in the order of their first sections.
    pub fn pools(&self) -> &[Pool]
        ensures value { result.now ≡ pool_list self.now }
        ensures rising { AreRising result.now }
        ensures small { pool_bytes result.now < 2 ^ 60 }
    {
        self.pools.as_slice()
    }

    /// The pieces of a pool, by number, in order of position; none past the last pool. None stands over another, and each lies in the pool.
    pub fn pieces(&self, pool: u32) -> &[Piece]
        ensures value { result.now ≡ slice_index_or (piece_rows self.now) pool [] }
        ensures piled { (d : Pool) → pool < length (pool_list self.now) → IsPile (slice_index_or (pool_list self.now) pool d) result.now }
    {
        match &self.rows {
            Some(rows) => rows.pieces.row(pool as usize),
            None => &[],
        }
    }

    /// Whether a section is merged, so that its bytes are those of its pool.
    #[tactic(auto, using(crate::proofs::MergedAt::is_merged_by))]
    pub fn is_merged(&self, section: SecNo) -> bool
        ensures { result ≡ is_merged (merged_views self.now) section }
    {
        self.entry(section).is_some()
    }

    /// Of a section that is merged the number of its pool, and its parts in order of offset.
    pub fn parts(&self, section: SecNo) -> Option<(u32, &[Part])>
        ensures value { option_map merged_of result ≡ merged_at (merged_views self.now) section }
        ensures ordered { IfSome result (λ of. AreInOrder of.1.now) }
    {
        let Some(merged) = self.entry(section) else {
            return None;
        };
        Some((merged.pool, self.row(merged.row)))
    }

    /// What is merged of a section.
    fn entry(&self, section: SecNo) -> Option<Merged>
        ensures { result ≡ slice_index_or self.now.merged.items section None }
    {
        match self.merged.get(section as usize) {
            Some(merged) => *merged,
            None => None,
        }
    }

    /// The parts of a list's number.
    fn row(&self, row: u32) -> &[Part]
        ensures value { result.now ≡ slice_index_or (part_rows self.now.rows) row [] }
        ensures ordered { AreInOrder result.now }
    {
        match &self.rows {
            Some(rows) => rows.parts.row(row as usize),
            None => &[],
        }
    }
}
