//! The upper parts, to which lower parts belong, in a list of their own (RISC-V ELF psABI, "Relocations"): a lower part finds its
//! own there by bisection, whatever else stands at its label.

ghost use Rattle.std.specs.Prelude.{◌≡◌, slice_index};

use crate::objects::Reloc;

/// The upper parts of all sections, by the sections' numbers.
#[derive(Debug, Drop)]
pub struct Uppers {
    /// Where the list of each section number starts among all, and after these how many there are.
    pub firsts: Vec<usize>,
    /// The upper parts of each section, in stable order of offset, one section after the other.
    pub list: Vec<Reloc>,
}

impl Uppers {
    /// Where the list of a section's number starts; 0 past the last.
    pub fn first_at(&self, section: usize) -> usize
        ensures { result ≡ slice_index self.now.firsts.items section }
    {
        match self.firsts.get(section) {
            Some(first) => *first,
            None => 0,
        }
    }
}
