//! What the entry's name is bound to.

ghost use Rattle.std.specs.Prelude.{◌≡◌, List, Bool};
ghost use Rattle.lk_tables.specs.Binding.{bound_rank};
ghost use Rattle.lk_tables.specs.Files.{file_at, symbol_name};
ghost use Rattle.lk_tables.specs.Ranks as spec;
ghost use Rattle.lk_tables.specs.TablesView.{files_of};
ghost use Rattle.sym_resolve.specs.Claims.{claims};
ghost use Rattle.sym_resolve.specs.NamedOffers.{lesser_named, least_named};

use lk_base::{FileNo, SymNo};
use lk_tables::{NO_RANK, Tables, file_of, symbol_of};
use rank_claims::Offer;

/// The least rank that is on offer for a name, by one look at each offer.
pub fn rank_of_name(tables: &Tables, offers: &[Offer], name: &[u8]) -> u64
    ensures { (gone : List Bool) → offers.now ≡ claims (files_of tables.now) gone → result ≡ bound_rank (files_of tables.now) gone name.now }
{
    tables.prove_few();
    least_named(tables, offers, name)
}

// The least rank of the offers whose symbols have a name.
fn least_named(tables: &Tables, offers: &[Offer], name: &[u8]) -> u64
    ensures { result ≡ least_named (files_of tables.now) name.now spec.no_rank offers.now }
{
    let mut least = NO_RANK;
    for offer in offers {
        least = lesser_named(tables, name, least, offer.rank);
    }
    least
}

// The lesser of two ranks, if the symbol of the second has the name. Names are compared only if the rank is less.
fn lesser_named(tables: &Tables, name: &[u8], least: u64, rank: u64) -> u64
    ensures { result ≡ lesser_named (files_of tables.now) name.now least rank }
{
    if rank < least && offered_name(tables, rank) == name {
        return rank;
    }
    least
}

// The name of the symbol of a rank.
fn offered_name<'a>(tables: &Tables<'a>, rank: u64) -> &'a [u8]
    ensures { result.now ≡ symbol_name (file_at (files_of tables.now) (spec.file_of rank)) (spec.symbol_of_rank rank) }
{
    symbol_name(tables, file_of(rank), symbol_of(rank))
}

/// The name of a symbol of a file; none past the last file.
pub fn symbol_name<'a>(tables: &Tables<'a>, file: FileNo, symbol: SymNo) -> &'a [u8]
    ensures { result.now ≡ symbol_name (file_at (files_of tables.now) file) symbol }
{
    match tables.files().get(file as usize) {
        Some(file) => file.symbol_name(symbol as usize),
        None => b"",
    }
}
