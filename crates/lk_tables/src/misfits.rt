//! A value that the field of its relocation does not take.

ghost use Rattle.std.specs.Prelude.{◌≡◌, Some, [], ◌∷◌};
ghost use Rattle.lk_tables.specs.Misfits as spec;

use crate::objects::Reloc;
use crate::section_places::SectionPlace;
use crate::walks::reloc_defect;
use lk_base::kinds::{ODD, RANGE};
use lk_base::{Defect, Misfit, low_bits};

/// The defect of a value that its field does not take.
pub fn misfit_defect(place: SectionPlace, reloc: &Reloc, v: i128, misfit: Misfit) -> Defect
    ensures { spec.misfit_defects place reloc.now v (Some misfit) ≡ result ∷ [] }
{
    let kind = match misfit {
        Misfit::Odd => ODD,
        Misfit::Range => RANGE,
    };
    reloc_defect(kind, place.file, place.index, reloc, low_bits(v))
}
