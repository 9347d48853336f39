//! Symbols that prevail: of all that offer their name, the one to which it is bound (System V gABI, "Symbol Table").

ghost use Rattle.std.specs.Prelude.{◌≡◌, ℕ, ◌<◌, length, not, true};
ghost use Rattle.lk_tables.specs.Binding as bindings;
ghost use Rattle.lk_tables.specs.BindingView.{binding_view};
ghost use Rattle.lk_tables.specs.Files.{file_at, symbol_at, symbol_no};
ghost use Rattle.lk_tables.specs.Ranks as ranks;
ghost use Rattle.lk_tables.specs.TablesView.{files_of};
ghost use Rattle.lk_tables.specs.Targets.{bound, rank_at};
ghost use Rattle.sec_graph.specs.Prevailing as spec;

use lk_base::{FileNo, SymNo};
use lk_tables::{Binding, Bound, Place, Symbol, Tables, file_of, is_common, symbol_of};

/// Whether each symbol that prevails stands for something: its section was not discarded, or it is COMMON and got room. Where names are
/// bound to what offers them it is so; a binding may say otherwise. Each file's symbols are read in order, and no other file's with them.
pub fn prevailing_stand(tables: &Tables, binding: &Binding) -> bool
    ensures { result ≡ true → spec.PrevailingStand (files_of tables.now) (binding_view binding.now) }
{
    tables.prove_few();
    for file in 0..tables.file_count() {
        if !stand_in_file(tables, binding, file as u32) {
            return false;
        }
    }
    true
}

/// Whether each symbol of a file stands for something, if it prevails.
fn stand_in_file(tables: &Tables, binding: &Binding, file: FileNo) -> bool
    requires { file < length (files_of tables.now) }
    ensures { result ≡ true → (i : ℕ) → i < length (file_at (files_of tables.now) file).head.symbols → spec.StandsIfPrevailing (files_of tables.now) (binding_view binding.now) file i }
{
    tables.prove_few();
    let symbols = tables.file(file).symbols();
    for symbol in 0..symbols.len() {
        if !stands_if_prevailing(tables, binding, file, symbol as u32, &symbols[symbol]) {
            return false;
        }
    }
    true
}

/// Whether a symbol stands for something, if it prevails.
fn stands_if_prevailing(
    tables: &Tables,
    binding: &Binding,
    file: FileNo,
    symbol: SymNo,
    own: &Symbol,
) -> bool
    requires file { file < length (files_of tables.now) }
    requires own { own.now ≡ symbol_at (file_at (files_of tables.now) file) symbol }
    ensures { result ≡ true → spec.StandsIfPrevailing (files_of tables.now) (binding_view binding.now) file symbol }
{
    let rank = binding.rank_at(tables.symbol_no(file as usize, symbol as usize));
    if !names(rank, file, symbol) {
        return true;
    }
    if is_common(own) {
        return is_bound(tables, binding, file, symbol);
    }
    !is_discarded(tables, binding, file, own.place)
}

/// Whether a symbol of a file stands for something.
fn is_bound(tables: &Tables, binding: &Binding, file: FileNo, symbol: SymNo) -> bool
    ensures { result ≡ not (spec.is_nobody (bound (files_of tables.now) (binding_view binding.now) file symbol)) }
{
    binding.bound(tables, file, symbol) != Bound::Nobody
}

/// Whether a rank names a symbol of a file.
fn names(rank: u64, file: FileNo, symbol: SymNo) -> bool
    ensures { result ≡ spec.names rank file symbol }
{
    file_of(rank) == file && symbol_of(rank) == symbol
}

/// Whether what a rank names prevails.
pub fn is_prevailing(tables: &Tables, binding: &Binding, rank: u64) -> bool
    ensures { result ≡ true → rank_at (binding_view binding.now) (symbol_no (files_of tables.now) (ranks.file_of rank) (ranks.symbol_of_rank rank)) ≡ rank }
{
    let file = file_of(rank) as usize;
    if tables.file_count() <= file {
        return false;
    }
    binding.rank_at(tables.symbol_no(file, symbol_of(rank) as usize)) == rank
}

/// Whether a symbol of a file stands in a section that was discarded.
pub fn is_discarded(tables: &Tables, binding: &Binding, file: FileNo, place: Place) -> bool
    requires { file < length (files_of tables.now) }
    ensures { result ≡ bindings.is_discarded (files_of tables.now) (binding_view binding.now).discarded file place }
{
    match place {
        Place::Within(section) => {
            binding.is_discarded(tables.section_no(file as usize, section as usize))
        }
        _ => false,
    }
}
