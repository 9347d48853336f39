//! A file that was loaded and read.

use ar_read::Member;
use lk_base::Flaw;
use lk_tables::Head;

/// The first flaw of a file.
#[derive(Clone, Copy, Debug, PartialEq, Eq)]
pub struct PipedFlaw {
    /// The place among the members of the one that has it, from 0; none where the file has it itself.
    pub member: Option<usize>,
    pub flaw: Flaw,
}

/// A file that was loaded, with what was read of it.
#[derive(Drop)]
pub struct PipedFile {
    /// Its bytes.
    pub bytes: Vec<u8>,
    /// The members of an archive, in order; none of another file. None where the archive itself has the flaw.
    pub members: Vec<Member>,
    /// The head of an object; of an archive one for each member, and none for one that is no ELF file. None at all where there is a flaw.
    pub heads: Vec<Option<Head>>,
    /// What is wrong with it, as the first: with the file, or with one of its members.
    pub flaw: Option<PipedFlaw>,
    /// Who read it: a parser by its number, from 1, or 0, who loads.
    pub by: u32,
}

/// Files that were loaded and read, in the order of their names.
#[derive(Drop)]
pub struct Piped {
    pub files: Vec<PipedFile>,
}

/// A file that was loaded and read, and the place of its name, from 0.
#[derive(Drop)]
pub struct Took {
    pub index: usize,
    pub file: PipedFile,
}
