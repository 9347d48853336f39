//! Files, symbols and sections by their numbers.

ghost use Rattle.std.specs.Prelude.{◌≡◌, ◌+◌, ◌<◌, ◌≤◌, ◌^◌, length, is_some, IfSome};
ghost use Rattle.lk_tables.specs.FileView.{file_views};
ghost use Rattle.lk_tables.specs.Files.{AreFew, file_at, first_section, section_count, section_no, section_total, symbol_no, symbol_total};
ghost use Rattle.lk_tables.specs.NameNumbers.{NumbersNames, heads_alone};
ghost use Rattle.lk_tables.specs.Sites.{IsPlaceOf, place_of};
ghost use Rattle.lk_tables.specs.TablesView.{files_of, have_numbers};

use crate::files::File;
use crate::numbering::NameNumbers;
use crate::section_places::SectionPlace;
use crate::tables::Tables;
use lk_base::SecNo;

impl<'a> Tables<'a> {
    /// How many files there are.
    pub fn file_count(&self) -> usize
        ensures { result ≡ length (files_of self.now) }
    {
        self.files.len()
    }

    /// The files, by number.
    pub fn files(&self) -> &[File<'a>]
        ensures { file_views result.now ≡ files_of self.now }
    {
        self.files.as_slice()
    }

    /// The numbers of the files' names, if these are numbered.
    pub fn names(&self) -> Option<&NameNumbers>
        ensures some { is_some result ≡ have_numbers self.now }
        ensures numbers { IfSome result (λ names. NumbersNames (heads_alone (files_of self.now)) names.now) }
    {
        self.names.as_ref()
    }

    /// How many symbols the files have.
    pub fn symbol_count(&self) -> usize
        ensures { result ≡ symbol_total (files_of self.now) }
    {
        self.first_symbols[self.files.len()] as usize
    }

    /// The number of a symbol of a file: the symbols of all files have numbers in order.
    pub fn symbol_no(&self, file: usize, symbol: usize) -> usize
        requires file { file < length (files_of self.now) }
        requires symbol { symbol < 2 ^ 32 }
        ensures { result ≡ symbol_no (files_of self.now) file symbol }
    {
        self.first_symbols[file] as usize + symbol
    }

    /// How many section numbers there are: those of the sections of the files that take part, and after a file's own one for each of
    /// its COMMON symbols.
    pub fn section_count(&self) -> usize
        ensures { result ≡ section_total (files_of self.now) }
    {
        self.first_sections[self.files.len()] as usize
    }

    /// The number of a section of a file that takes part; an index from the file's section count on is that of a COMMON symbol. Index 0 of a file
    /// that takes no part gives the number of the next file's first section.
    pub fn section_no(&self, file: usize, section: usize) -> usize
        requires file { file < length (files_of self.now) }
        requires section { section < 2 ^ 32 }
        ensures { result ≡ section_no (files_of self.now) file section }
    {
        self.first_sections[file] as usize + section
    }

    /// The file and the index of a section's number. After the indexes of a file's own sections come those of its COMMON symbols.
    pub fn place_of(&self, section: SecNo) -> SectionPlace
        requires { section < section_total (files_of self.now) }
        ensures place { result ≡ place_of (files_of self.now) section }
        ensures law { IsPlaceOf (files_of self.now) section result }
    {
        let file = self.section_files[section as usize];
        SectionPlace {
            file,
            index: section - self.first_sections[file as usize],
        }
    }

    /// There are no more files, symbols and sections than a link has at most. Nothing is done while a program runs: the clause is all.
    pub fn prove_few(&self)
        ensures { AreFew (files_of self.now) }
    {}
}
