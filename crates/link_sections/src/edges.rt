//! Where each section leads.

ghost use Rattle.std.specs.Prelude.{◌≡◌, ◌<◌, ◌^◌, [], All, List, ℕ, length, map, slice_index_or, IfOk};
ghost use Rattle.std.proofs.Props.{props};

use flat_rows::Rows;
use lk_base::SecNo;
use std::alloc::{AllocError, Global};

/// Where each section leads, by section number: one list of ends for each, which are numbers of sections too. A clause sees the lists as
/// `ends_of`.
#[derive(Debug, Drop)]
pub struct Edges {
    rows: Rows<SecNo>,

    ghost within: { All (All (λ end. end < length rows)) rows } by { Prim.hlevel props },
    ghost few: { length rows < 2 ^ 32 } by { Prim.hlevel props },
}

impl Edges {
    ghost use Rattle.link_sections.specs.Edges.{ends_of};

    /// The edges of lists of ends, by section number: one list for each section, and each end is the number of one. The only error is
    /// out of memory.
    pub fn of(alloc: Global, lists: Vec<Vec<SecNo>>) -> Result<Edges, AllocError>
        requires within { All (λ (list : _). All (λ end. end < length lists.items) list.items) lists.items }
        requires few { length lists.items < 2 ^ 32 }
        ensures { IfOk result (λ edges. ends_of edges ≡ map (λ (list : _). list.items) lists.items) }
    {
        let mut rows = Rows::empty(alloc)?;
        for n in 0..lists.len() {
            rows.push(&lists[n])?;
        }
        Ok(Edges { rows })
    }

    /// The edges of lists of ends, by section number.
    pub fn from_rows(rows: Rows<SecNo>) -> Edges
        requires within { All (All (λ end. end < length rows)) rows }
        requires few { length rows < 2 ^ 32 }
        ensures { ends_of result ≡ rows }
    {
        Edges { rows }
    }

    /// The sections that a section leads to; none past the last number.
    pub fn ends(&self, section: SecNo) -> &[SecNo]
        ensures value { result.now ≡ slice_index_or (ends_of self.now) section [] }
        ensures within { All (λ end. end < length (ends_of self.now)) result.now }
    {
        self.rows.row(section as usize)
    }

    /// How many sections have a list.
    pub fn count(&self) -> usize
        ensures value { result ≡ length (ends_of self.now) }
        ensures few { result < 2 ^ 32 }
    {
        self.rows.count()
    }
}
