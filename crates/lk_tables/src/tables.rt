//! The files of a link, by number: the objects and archives in the order of the command, each archive followed by its members.

ghost use Rattle.std.specs.Prelude.{◌≡◌, ◌+◌, ◌<◌, ◌^◌, map, length, IfSome};
ghost use Rattle.std.specs.List.{range_with_len};
ghost use Rattle.std.proofs.Props.{props};
ghost use Rattle.lk_tables.specs.FileView.{file_views};
ghost use Rattle.lk_tables.specs.Files.{AreFew, by_section, first_section, first_symbol};
ghost use Rattle.lk_tables.specs.NameNumbers.{NumbersNames, heads_alone};

use crate::files::File;
use crate::numbering::NameNumbers;
use lk_base::FileNo;
use std::alloc::Global;

/// The files of a link of which the heads are read; none takes part yet.
#[derive(Debug, Drop)]
pub struct Heads<'a> {
    pub(crate) alloc: Global,
    pub(crate) files: Vec<File<'a>>,
    /// The numbers of their names, once these are numbered.
    pub(crate) names: Option<NameNumbers>,

    ghost few: { length files.items < 2 ^ 24 } by { Prim.hlevel props },
    ghost numbered: { IfSome names (NumbersNames (heads_alone (file_views files.items))) } by { Prim.hlevel props },
}

/// The files of a link, with the bodies of those that take part. The bytes of the inputs are lent for `'a`, and none is copied. Symbols have
/// numbers in order of file and index. So have sections of the files that take part: in each file its own, and after them one for each of its
/// COMMON symbols.
#[derive(Debug, Drop)]
pub struct Tables<'a> {
    pub(crate) files: Vec<File<'a>>,
    /// The numbers of their names, where these were numbered.
    pub(crate) names: Option<NameNumbers>,
    /// The number of each file's first symbol, and after these how many there are.
    pub(crate) first_symbols: Vec<u32>,
    /// The number of each file's first section, and after these how many there are.
    pub(crate) first_sections: Vec<u32>,
    /// The file of each section number: so a number leads to its place without a search.
    pub(crate) section_files: Vec<FileNo>,

    ghost few: { AreFew (file_views files.items) } by { Prim.hlevel props },
    ghost symbols: { first_symbols.items ≡ map (first_symbol (file_views files.items)) (range_with_len 0 (length files.items + 1)) } by { Prim.hlevel props },
    ghost sections: { first_sections.items ≡ map (first_section (file_views files.items)) (range_with_len 0 (length files.items + 1)) } by { Prim.hlevel props },
    ghost owners: { section_files.items ≡ by_section (file_views files.items) (λ file index. file) } by { Prim.hlevel props },
    ghost numbered: { IfSome names (NumbersNames (heads_alone (file_views files.items))) } by { Prim.hlevel props },
}
