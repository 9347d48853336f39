//! Symbols whose names are bound to others: each takes the address of the symbol that prevails (System V gABI, "Symbol Table").

ghost use Rattle.std.specs.Prelude.{◌≡◌, ◌<◌, length};
ghost use Rattle.lk_tables.specs.BoundNames.{IsBindingOf};
ghost use Rattle.lk_tables.specs.Targets.{rank_at};
ghost use Rattle.link_sections.specs.Links.{link_binding, link_files};
ghost use Rattle.symbol_addresses.specs.Prevailing as spec;
ghost use Rattle.symbol_addresses.specs.Sources.{addresses_of};

use crate::sources::{Sources, symbol_in};
use link_sections::{LaidLink, number_at};
use lk_base::{FileNo, SymNo};
use lk_tables::{NO_RANK, file_of, is_linker_rank, symbol_of};

/// The address of a symbol, found without a look at another symbol; 0 if its name is bound to one.
#[tactic(auto, unfolding(crate::specs::Prevailing::own_address))]
pub fn own_address(sources: &Sources, file: FileNo, symbol: SymNo) -> u64
    requires file { file < length (link_files sources.now.link) }
    ensures { result ≡ spec.own_address sources.now.link file symbol }
{
    let tables = sources.link.tables;
    let number = tables.symbol_no(file as usize, symbol as usize);
    if is_bound_away(sources.link.binding.rank_at(number), file, symbol) {
        return 0;
    }
    symbol_in(sources, file, symbol)
}

/// Gives each symbol that is bound to another the address of that one. `addresses` holds what [`own_address`] gives, by symbol number. This
/// is done in place, since what prevails has its own address before and after: a list of eight bytes a symbol is read, and no file.
pub fn take_addresses(link: &LaidLink, addresses: &mut [u64])
    requires bound { IsBindingOf (link_files link.now) (link_binding link.now) }
    requires own { addresses.old ≡ spec.own_addresses link.now }
    ensures { addresses.new ≡ addresses_of link.now }
{
    link.tables.prove_few();
    for symbol in 0..addresses.len() {
        let address = taken_address(link, addresses, symbol);
        addresses[symbol] = address;
    }
}

/// The address of a symbol of a number: that which stands at the number of the symbol to which its name is bound, if it is one of a file.
fn taken_address(link: &LaidLink, addresses: &[u64], symbol: usize) -> u64
    requires { spec.HasFile (link_files link.now) (rank_at (link_binding link.now) symbol) }
    ensures { result ≡ spec.taken_address (link_files link.now) (link_binding link.now) addresses.now symbol }
{
    let rank = link.binding.rank_at(symbol);
    if !is_file_rank(rank) {
        return number_at(addresses, symbol);
    }
    let number = link
        .tables
        .symbol_no(file_of(rank) as usize, symbol_of(rank) as usize);
    number_at(addresses, number)
}

/// Whether a rank is that of another symbol of a file.
fn is_bound_away(rank: u64, file: FileNo, symbol: SymNo) -> bool
    ensures { result ≡ spec.is_bound_away rank file symbol }
{
    is_file_rank(rank) && !(file_of(rank) == file && symbol_of(rank) == symbol)
}

/// Whether a rank is that of a symbol of a file.
fn is_file_rank(rank: u64) -> bool
    ensures { result ≡ spec.is_file_rank rank }
{
    rank != NO_RANK && !is_linker_rank(rank)
}
