//! Defects, and why a reader or a link stops.

ghost use Rattle.std.specs.Prelude.{◌≡◌};
ghost use Rattle.lk_base.specs.Defects.{linkwide};

use crate::kinds::DefectKind;
use crate::numbers::{FileNo, NO_FILE, SymNo};
use std::alloc::{AllocError, AllocFailed};

/// A defect of a link, as its line reports it. What a kind does not name is 0, and a defect of no file has `NO_FILE`.
#[derive(Clone, Copy, Debug, PartialEq, Eq)]
pub struct Defect {
    pub kind: DefectKind,
    pub file: FileNo,
    /// A section's index in its file.
    pub section: u32,
    /// An offset or a count, as the kind has it.
    pub place: u64,
    pub symbol: SymNo,
    /// One more number, as the kind has it.
    pub other: u64,
}

impl Defect {
    /// A defect of no file.
    pub fn linkwide(kind: DefectKind, place: u64, other: u64) -> Defect
        ensures { result ≡ linkwide kind place other }
    {
        Defect {
            kind,
            file: NO_FILE,
            section: 0,
            place,
            symbol: 0,
            other,
        }
    }
}

/// A defect as the reader of one file knows it: the file, and so the symbol's name, is the caller's to add.
#[derive(Clone, Copy, Debug, PartialEq, Eq)]
pub struct Flaw {
    pub kind: DefectKind,
    /// The section, 0 if it is of none.
    pub section: u32,
    /// Where, as the kind counts: a file offset or an offset in the section, in bytes, a count, or a symbol's index (docs/rules.md, "Defects").
    pub place: u64,
    /// What more there is to say, as the kind has it; 0 if there is nothing.
    pub other: u64,
}

/// Why a reader gives nothing.
#[derive(Clone, Copy, Debug, PartialEq, Eq)]
pub enum ReadFault {
    /// The bytes are not what they have to be.
    Bad(Flaw),
    /// Memory ran out.
    Memory,
}

/// Why a link gives nothing.
#[derive(Clone, Copy, Debug, PartialEq, Eq)]
pub enum LinkStop {
    /// The inputs have this defect.
    Defect(Defect),
    /// Memory ran out.
    Memory,
}

/// Why a value does not go into a relocation's field.
#[derive(Clone, Copy, Debug, PartialEq, Eq)]
pub enum Misfit {
    /// It is odd, and the field has no bit for that.
    Odd,
    /// It is out of the field's reach.
    Range,
}

impl From<Flaw> for ReadFault {
    ghost use Rattle.lk_base.specs.declared.defects.ReadFault.TheVariants.{Bad};

    ghost from_gives = { λ flaw fault. fault ≡ Bad flaw };

    fn from(flaw: Flaw) -> ReadFault {
        ReadFault::Bad(flaw)
    }
}

impl From<AllocError> for ReadFault {
    ghost use Rattle.lk_base.specs.declared.defects.ReadFault.TheVariants.{Memory};

    ghost from_gives = { λ _ fault. fault ≡ Memory };

    fn from(_error: AllocError) -> ReadFault {
        ReadFault::Memory
    }
}

impl<T: Drop> From<AllocFailed<T>> for ReadFault {
    ghost use Rattle.lk_base.specs.declared.defects.ReadFault.TheVariants.{Memory};

    ghost from_gives = { λ _ fault. fault ≡ Memory };

    fn from(_failed: AllocFailed<T>) -> ReadFault {
        ReadFault::Memory
    }
}

impl From<Defect> for LinkStop {
    ghost use Rattle.lk_base.specs.declared.defects.LinkStop.TheVariants.{Defect as StopsAt};

    ghost from_gives = { λ defect stop. stop ≡ StopsAt defect };

    fn from(defect: Defect) -> LinkStop {
        LinkStop::Defect(defect)
    }
}

impl From<AllocError> for LinkStop {
    ghost use Rattle.lk_base.specs.declared.defects.LinkStop.TheVariants.{Memory};

    ghost from_gives = { λ _ stop. stop ≡ Memory };

    fn from(_error: AllocError) -> LinkStop {
        LinkStop::Memory
    }
}

impl<T: Drop> From<AllocFailed<T>> for LinkStop {
    ghost use Rattle.lk_base.specs.declared.defects.LinkStop.TheVariants.{Memory};

    ghost from_gives = { λ _ stop. stop ≡ Memory };

    fn from(_failed: AllocFailed<T>) -> LinkStop {
        LinkStop::Memory
    }
}
