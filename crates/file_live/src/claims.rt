//! The offers of all files as claims on the numbers of their names.

ghost use Rattle.std.specs.Prelude.{◌≡◌, ◌<◌, ◌≤◌, ◌^◌, ◌++◌, length, IfOk, OnOk};
ghost use Rattle.lk_tables.specs.FileView.{file_view, file_views};
ghost use Rattle.lk_tables.specs.Files.{symbol_total};
ghost use Rattle.lk_tables.specs.NameNumbers.{NumbersNames, heads_alone};
ghost use Rattle.file_live.specs.Claims.{claims, claims_in};
ghost use Rattle.file_live.specs.Live as spec;

use lk_tables::{File, NameNumbers, Symbol, class_of, is_offer, rank_of};
use rank_claims::Offer;
use std::alloc::{AllocError, Global};

/// The class of all offers of members: they come after those of the command's objects.
pub const MEMBER_CLASS: u64 = 3;

/// The offers of all files, in order of file and symbol: each is a claim on the number of its name.
pub fn claims_of(
    alloc: Global,
    files: &[File],
    names: &NameNumbers,
) -> Result<Vec<Offer>, AllocError>
    requires files { length files.now < 2 ^ 24 }
    requires symbols { symbol_total (file_views files.now) < 2 ^ 31 }
    requires names { NumbersNames (heads_alone (file_views files.now)) names.now }
    ensures { IfOk result (λ list. list.items ≡ claims (file_views files.now)) }
{
    let mut list = Vec::new(alloc);
    for f in 0..files.len() {
        push_claims(&mut list, files, f, names)?;
    }
    Ok(list)
}

/// The offers of one file.
fn push_claims(
    list: &mut Vec<Offer>,
    files: &[File],
    f: usize,
    names: &NameNumbers,
) -> Result<(), AllocError>
    requires file { f < length files.now }
    requires files { length files.now < 2 ^ 24 }
    requires symbols { symbol_total (file_views files.now) < 2 ^ 31 }
    requires names { NumbersNames (heads_alone (file_views files.now)) names.now }
    ensures { OnOk result (list.new.items ≡ list.old.items ++ claims_in (file_views files.now) f) }
{
    let file = &files[f];
    for i in 0..file.symbols().len() {
        let symbol = file.symbol(i);
        if is_offer(&symbol) {
            list.push(Offer {
                word: names.number(f, i),
                rank: rank_of(early_class(file, &symbol), f, i),
            })?;
        }
    }
    Ok(())
}

/// The class of an offer: a member's comes after all of objects.
pub fn early_class(file: &File, symbol: &Symbol) -> u64
    ensures class { result ≡ spec.early_class (file_view file.now) symbol.now }
    ensures most { result ≤ 3 }
{
    if file.is_member() {
        return MEMBER_CLASS;
    }
    class_of(symbol)
}
