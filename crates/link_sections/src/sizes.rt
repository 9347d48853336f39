//! Where the sections of a link lose bytes, by section number.

ghost use Rattle.std.specs.Prelude.{◌≡◌, ◌↔◌, ℕ, true, slice_index_or, [], All};
ghost use Rattle.std.proofs.Props.{props};
ghost use Rattle.link_sections.specs.CutsView.{AreCuts};

use crate::cuts::Cut;
use flat_rows::Rows;
use lk_base::SecNo;

/// Where each section loses bytes, by its number: its cuts in order of offset, of which no two meet.
#[derive(Debug, Drop)]
pub struct Sizes {
    pub(crate) rows: Rows<Cut>,

    ghost sound: { All AreCuts rows } by { Prim.hlevel props },
}

impl Sizes {
    ghost use Rattle.link_sections.specs.SizesView.{cut_rows};

    /// The cuts of each section, by rows.
    pub fn of(rows: Rows<Cut>) -> Sizes
        requires { All AreCuts rows }
        ensures { cut_rows result ≡ rows }
    {
        Sizes { rows }
    }

    /// The cuts of a section, in order of offset; none past the last section.
    pub fn cuts(&self, section: SecNo) -> &[Cut]
        ensures value { result.now ≡ slice_index_or (cut_rows self.now) section [] }
        ensures sound { AreCuts result.now }
    {
        self.rows.row(section as usize)
    }

    /// Whether no section loses bytes.
    pub fn is_empty(&self) -> bool
        ensures { result ≡ true ↔ ((section : ℕ) → slice_index_or (cut_rows self.now) section [] ≡ []) }
    {
        self.rows.items().len() == 0
    }
}
