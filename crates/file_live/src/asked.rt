//! The members that the names of the command ask for.

ghost use Rattle.std.specs.Prelude.{◌≡◌, ◌<◌, ◌^◌, length, option_to_list};
ghost use Rattle.lk_tables.specs.Binding.{least_rank};
ghost use Rattle.lk_tables.specs.FileView.{file_views};
ghost use Rattle.lk_tables.specs.Files.{symbol_total};
ghost use Rattle.file_live.specs.Live as spec;
ghost use Rattle.file_live.specs.Pulls.{asked_at, lists_of, member_for};

use crate::claims::{MEMBER_CLASS, early_class};
use lk_base::FileNo;
use lk_tables::{File, NO_RANK, class_of_rank, file_of, is_offer, rank_of};

/// The member for which a name asks, by the name's place among those that the command asks for.
pub fn asked_member(files: &[File], undefined: &[Vec<u8>], n: usize) -> Option<FileNo>
    requires files { length files.now < 2 ^ 24 }
    requires symbols { symbol_total (file_views files.now) < 2 ^ 31 }
    requires name { n < length undefined.now }
    ensures { option_to_list result ≡ asked_at (lists_of undefined.now) (file_views files.now) n }
{
    member_for(files, undefined[n].as_slice())
}

/// The member whose offer of a name is the first, if that is a member's.
#[tactic(auto, unfolding(crate::specs::Pulls::member_for))]
fn member_for(files: &[File], name: &[u8]) -> Option<FileNo>
    requires files { length files.now < 2 ^ 24 }
    requires symbols { symbol_total (file_views files.now) < 2 ^ 31 }
    ensures { result ≡ member_for (file_views files.now) name.now }
{
    let rank = early(files, name);
    if class_of_rank(rank) != MEMBER_CLASS {
        return None;
    }
    Some(file_of(rank))
}

/// The rank of the first offer of a name.
fn early(files: &[File], name: &[u8]) -> u64
    requires files { length files.now < 2 ^ 24 }
    requires symbols { symbol_total (file_views files.now) < 2 ^ 31 }
    ensures { result ≡ spec.early (file_views files.now) name.now }
{
    let mut least = NO_RANK;
    for f in 0..files.len() {
        least = least.min(early_in(files, f, name));
    }
    least
}

/// The rank of the first offer of a name by one file.
fn early_in(files: &[File], f: usize, name: &[u8]) -> u64
    requires file { f < length files.now }
    requires files { length files.now < 2 ^ 24 }
    requires symbols { symbol_total (file_views files.now) < 2 ^ 31 }
    ensures { result ≡ least_rank name.now (spec.early_offers_in (file_views files.now) f) }
{
    let mut least = NO_RANK;
    for i in 0..files[f].symbols().len() {
        least = least.min(early_at(files, f, i, name));
    }
    least
}

/// The rank of an offer of a name by one symbol, if it is one.
#[tactic(auto, unfolding(crate::specs::Live::early_offer_at, lk_tables::specs::Binding::least_rank))]
fn early_at(files: &[File], f: usize, i: usize, name: &[u8]) -> u64
    requires file { f < length files.now }
    requires files { length files.now < 2 ^ 24 }
    requires symbol { i < 2 ^ 31 }
    ensures { result ≡ least_rank name.now (spec.early_offer_at (file_views files.now) f i) }
{
    let file = &files[f];
    let symbol = file.symbol(i);
    if !is_offer(&symbol) {
        return NO_RANK;
    }
    if file.symbol_name(i) != name {
        return NO_RANK;
    }
    rank_of(early_class(file, &symbol), f, i)
}
