//! Which members the symbols of a file pull.

ghost use Rattle.std.specs.Prelude.{◌≡◌, ◌<◌, ◌^◌, length, slice_index_or};
ghost use Rattle.claim_core.specs.Events.{none_of, after};
ghost use Rattle.lk_tables.specs.FileView.{file_views};
ghost use Rattle.lk_tables.specs.Files.{file_at, symbol_total};
ghost use Rattle.lk_tables.specs.NameNumbers.{NumbersNames, heads_alone};
ghost use Rattle.lk_tables.specs.Ranks.{no_rank};
ghost use Rattle.file_live.specs.Claims.{claims};
ghost use Rattle.file_live.specs.Live as spec;
ghost use Rattle.file_live.specs.Pulls.{pulled};

use crate::claims::MEMBER_CLASS;
use lk_base::FileNo;
use lk_base::abi::{STB_GLOBAL, STB_GNU_UNIQUE};
use lk_tables::{File, NO_RANK, NameNumbers, Place, Symbol, class_of_rank, file_of};

/// The member that a symbol pulls: it asks for its name, and the least claim on the name's number is of that member.
pub fn pulled_by(
    files: &[File],
    f: usize,
    i: usize,
    names: &NameNumbers,
    row: &[u64],
) -> Option<FileNo>
    requires file { f < length files.now }
    requires symbol { i < length (file_at (file_views files.now) f).head.symbols }
    requires names { NumbersNames (heads_alone (file_views files.now)) names.now }
    requires row { row.now ≡ after (none_of (symbol_total (file_views files.now))) (claims (file_views files.now)) }
    ensures { result ≡ pulled (file_views files.now) f i }
{
    if !is_asking(&files[f].symbol(i)) {
        return None;
    }
    let rank = rank_at(row, names.number(f, i));
    if class_of_rank(rank) != MEMBER_CLASS {
        return None;
    }
    Some(file_of(rank))
}

/// The rank that a row has for a word.
fn rank_at(row: &[u64], word: u32) -> u64
    ensures { result ≡ slice_index_or row.now word no_rank }
{
    match row.get(word as usize) {
        Some(rank) => *rank,
        None => NO_RANK,
    }
}

/// Whether a symbol asks for its name: it is not defined, and not weak.
fn is_asking(symbol: &Symbol) -> bool
    ensures { result ≡ spec.asks symbol.now }
{
    symbol.place == Place::Undef
        && (symbol.binding == STB_GLOBAL || symbol.binding == STB_GNU_UNIQUE)
}
