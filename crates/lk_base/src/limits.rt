//! How much one link may read and make.

ghost use Rattle.std.specs.Prelude.{◌≡◌, ◌<◌, ◌≤◌, MatchResult};
ghost use Rattle.lk_base.specs.Defects.{count_defect, count_defects};
ghost use Rattle.lk_base.specs.Firsts.{Passes};
ghost use Rattle.lk_base.specs.Limits.{oversize, standard};

use crate::abi::FILE_MAX;
use crate::defects::{Defect, Flaw};
use crate::kinds::LIMIT;

/// The numbers up to which a link goes. A link of the command has the standard ones; smaller ones are for tests.
#[derive(Clone, Copy, Debug, PartialEq, Eq)]
pub struct Limits {
    /// Bytes of an input file.
    pub file: u64,
    /// File numbers.
    pub files: u64,
    /// Symbol entries of all files.
    pub symbols: u64,
    /// Section headers and common symbols of the live files.
    pub sections: u64,
    /// Mergeable pieces of the live files.
    pub pieces: u64,
    /// Output sections.
    pub outputs: u64,
    /// Bytes of the memory image, which has to have less; each other limit is the most that is allowed.
    pub image: u64,
}

impl Limits {
    /// The limits of each link that the command runs.
    pub fn standard() -> Limits
        ensures { result ≡ standard }
    {
        Limits {
            file: FILE_MAX,
            files: 0xff_ffff,
            symbols: 0x7fff_ffff,
            sections: 0x1000_0000,
            pieces: 0x7fff_ffff,
            outputs: 65_000,
            image: 0x8000_0000 - 0x10_0000,
        }
    }
}

/// Refuses a file of more bytes than the limit. Takes no memory.
pub fn check_file_size(len: u64, limits: &Limits) -> Result<(), Flaw>
    ensures { MatchResult result (λ _. len ≤ limits.now.file) (λ flaw. (limits.now.file < len) × (flaw ≡ oversize len)) }
{
    if len > limits.file {
        return Err(Flaw {
            kind: LIMIT,
            section: 0,
            place: len,
            other: 0,
        });
    }
    Ok(())
}

/// The defect of a link that has too many of something.
pub fn count_defect(count: u64) -> Defect
    ensures { result ≡ count_defect count }
{
    Defect::linkwide(LIMIT, count, 0)
}

/// Refuses a count that is above its limit. Takes no memory.
pub fn check_count(limit: u64, count: u64) -> Result<(), Defect>
    ensures { Passes result (count_defects limit count) }
{
    if limit < count {
        return Err(count_defect(count));
    }
    Ok(())
}
