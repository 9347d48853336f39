//! A defect, with the section in which it was found: of several the one of the least section number counts.

ghost use Rattle.std.specs.Prelude.{◌≡◌};
ghost use Rattle.reloc_apply.specs.Founds as spec;

use lk_base::{Defect, SecNo};

/// A defect, and the number of the section in which it was found.
#[derive(Clone, Copy)]
pub struct Found {
    pub section: SecNo,
    pub defect: Defect,
}

/// Of two the one of the lesser section number.
#[tactic(auto, unfolding(crate::specs::Founds::earlier))]
pub fn earlier(found: Option<Found>, other: Option<Found>) -> Option<Found>
    ensures { result ≡ spec.earlier found other }
{
    let Some(first) = found else {
        return other;
    };
    let Some(second) = other else {
        return found;
    };
    if second.section < first.section {
        return other;
    }
    found
}
