//! The rank of an offer as one number, in which claims race: its class, then its file, then its symbol. The least is the strongest.

ghost use Rattle.std.specs.Prelude.{◌≡◌, ◌<◌, ◌≤◌, ◌^◌};
ghost use Rattle.lk_tables.specs.Binding as spec;
ghost use Rattle.lk_tables.specs.Ranks as ranks;

use crate::heads::{Place, Symbol};
use crate::reading::is_common;
use lk_base::abi::{STB_LOCAL, STB_WEAK};
use lk_base::{FileNo, SymNo};

/// The rank of nobody.
pub const NO_RANK: u64 = 0xffff_ffff_ffff_ffff;

/// So many ranks has each class: those of 2^24 files with 2^32 symbols each.
const CLASS_RANKS: u64 = 0x100_0000_0000_0000;

/// So many ranks has each file in a class.
const FILE_RANKS: u64 = 0x1_0000_0000;

/// Whether a symbol offers its name: other files see it, and it is defined, or COMMON (System V gABI, "Symbol Table").
pub fn is_offer(symbol: &Symbol) -> bool
    ensures { result ≡ spec.is_offer symbol.now }
{
    symbol.binding != STB_LOCAL && symbol.place != Place::Undef
}

/// The class of an offer: 0 strong, 1 COMMON, 2 WEAK.
pub fn class_of(symbol: &Symbol) -> u64
    ensures class { result ≡ spec.class_of symbol.now }
    ensures most { result ≤ 2 }
{
    if is_common(symbol) {
        return 1;
    }
    if symbol.binding == STB_WEAK { 2 } else { 0 }
}

/// The rank of an offer of a class, by its file and its symbol: class * 2^56 + file * 2^32 + symbol. The least rank is the strongest offer.
pub fn rank_of(class: u64, file: usize, symbol: usize) -> u64
    requires class { class ≤ 4 }
    requires file { file < 2 ^ 24 }
    requires symbol { symbol < 2 ^ 31 }
    ensures { result ≡ ranks.rank_of class file symbol }
{
    class * CLASS_RANKS + file as u64 * FILE_RANKS + symbol as u64
}

/// The class of the linker's own symbols, to which a name is bound that no file offers.
const LINKER_CLASS: u64 = 4;

/// The rank of a symbol of the linker's own, by its number.
pub fn linker_rank(number: u32) -> u64
    requires { number < 2 ^ 31 }
    ensures { result ≡ ranks.linker_rank number }
{
    rank_of(LINKER_CLASS, 0, number as usize)
}

/// Whether a rank is that of a symbol of the linker's own.
pub fn is_linker_rank(rank: u64) -> bool
    ensures { result ≡ ranks.is_linker_rank rank }
{
    class_of_rank(rank) == LINKER_CLASS
}

/// The class of a rank.
pub fn class_of_rank(rank: u64) -> u64
    ensures { result ≡ ranks.class_of_rank rank }
{
    rank / CLASS_RANKS
}

/// The file of a rank.
pub fn file_of(rank: u64) -> FileNo
    ensures { result ≡ ranks.file_of rank }
{
    (rank % CLASS_RANKS / FILE_RANKS) as u32
}

/// The symbol of a rank.
pub fn symbol_of(rank: u64) -> SymNo
    ensures { result ≡ ranks.symbol_of_rank rank }
{
    (rank % FILE_RANKS) as u32
}
