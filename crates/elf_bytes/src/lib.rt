//! The bytes of files, written out from their fields, for worked examples: `object` builds those of an object from its sections and symbols,
//! `archive` those of an archive from its members, and `image` those of an executable.
#![tactic(auto)]

/// Numbers, each after its width in bytes.
macro_rules! numbers {
    ($($width:literal => $number:expr);+ $(;)?) => {
        [$(($number, $width)),+]
    };
}

mod abi;
mod archive;
mod image;
mod macros;
mod numbers;
mod object;

pub use archive::{ARCHIVE, Archive, Contents, Member, THIN, archive_of};
pub use image::{Image, Listed, image_of};
pub use object::{ELSEWHERE, NO_SECTION, Object, Reloc, Section, SectionLink, Symbol, object_of};
