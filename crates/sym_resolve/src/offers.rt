//! The offers of the files that take part, as claims on the words of their names.

ghost use Rattle.std.specs.Prelude.{◌≡◌, ◌<◌, ◌≤◌, ◌-◌, ◌++◌, ◌&&◌, not, length, flat_map, IfOk, OnOk};
ghost use Rattle.std.specs.List.{range_with_len};
ghost use Rattle.lk_tables.specs.Binding as spec;
ghost use Rattle.lk_tables.specs.Files.{file_at};
ghost use Rattle.lk_tables.specs.NameNumbers.{NumbersNames, heads_alone};
ghost use Rattle.lk_tables.specs.TablesView.{files_of};
ghost use Rattle.sym_resolve.specs.Claims.{claim_at, claims};
ghost use Rattle.sym_resolve.specs.Symbols.{in_file};
ghost use Rattle.work_split.specs.Pieces.{Tiles};
ghost use Rattle.work_split.specs.Runs.{IsRun};

use crate::counts::file;
use lk_base::LinkStop;
use lk_tables::{NameNumbers, Place, Symbol, Tables, class_of, is_offer, rank_of};
use rank_claims::Offer;
use std::alloc::{AllocError, Global};
use std::ops::Range;
use std::thread::Threads;
use work_split::{Gate, over_shares};

/// The offers of the files that take part, in order of file and symbol. The workers each list those of one piece of the files.
pub fn offers_of<R: Threads + Sync, G: Gate>(
    rt: &R,
    alloc: Global,
    tables: &Tables,
    names: &NameNumbers,
    discarded: &[bool],
    pieces: &[Range<usize>],
    gate: &G,
) -> Result<Vec<Offer>, AllocError>
    requires numbered { NumbersNames (heads_alone (files_of tables.now)) names.now }
    requires tiles { Tiles 0 (length (files_of tables.now)) pieces.now }
    requires most { length pieces.now ≤ 64 }
    ensures { IfOk result (λ offers. offers.items ≡ claims (files_of tables.now) discarded.now) }
{
    let listed = over_shares(
        rt,
        alloc,
        gate,
        pieces,
        |piece: Range<usize>| -> Result<Vec<Offer>, LinkStop>
            requires numbered { NumbersNames (heads_alone (files_of tables.now)) names.now }
            requires piece { piece.end ≤ length (files_of tables.now) }
            ensures { IsRun (in_file (files_of tables.entry.now) (claim_at (files_of tables.entry.now) discarded.entry.now)) piece result }
        { Ok(offers_in(alloc, tables, names, discarded, piece)?) },
    );
    match listed {
        Ok(offers) => Ok(offers),
        Err(_) => Err(AllocError),
    }
}

// The offers of a run of files.
fn offers_in(
    alloc: Global,
    tables: &Tables,
    names: &NameNumbers,
    discarded: &[bool],
    piece: Range<usize>,
) -> Result<Vec<Offer>, AllocError>
    requires numbered { NumbersNames (heads_alone (files_of tables.now)) names.now }
    requires piece { piece.end ≤ length (files_of tables.now) }
    ensures { IfOk result (λ offers. offers.items ≡ flat_map (in_file (files_of tables.now) (claim_at (files_of tables.now) discarded.now)) (range_with_len piece.start (piece.end - piece.start))) }
{
    let mut offers = Vec::new(alloc);
    for f in piece.start..piece.end {
        push_offers(&mut offers, tables, names, discarded, f)?;
    }
    Ok(offers)
}

// The offers of one file, if it takes part.
fn push_offers(
    offers: &mut Vec<Offer>,
    tables: &Tables,
    names: &NameNumbers,
    discarded: &[bool],
    f: usize,
) -> Result<(), AllocError>
    requires numbered { NumbersNames (heads_alone (files_of tables.now)) names.now }
    requires file { f < length (files_of tables.now) }
    ensures { OnOk result (offers.new.items ≡ offers.old.items ++ in_file (files_of tables.now) (claim_at (files_of tables.now) discarded.now) f) }
{
    tables.prove_few();
    let file = file(tables, f);
    if !file.is_live() {
        return Ok(());
    }
    for i in 0..file.symbols().len() {
        let symbol = file.symbol(i);
        if is_offered(tables, discarded, f, &symbol) {
            offers.push(Offer {
                word: names.number(f, i),
                rank: rank_of(class_of(&symbol), f, i),
            })?;
        }
    }
    Ok(())
}

// Whether a symbol of a file offers its name, and stands in no section that was discarded.
fn is_offered(tables: &Tables, discarded: &[bool], f: usize, symbol: &Symbol) -> bool
    requires { f < length (files_of tables.now) }
    ensures { result ≡ (spec.is_offer symbol.now && not (spec.is_discarded (files_of tables.now) discarded.now f symbol.now.place)) }
{
    is_offer(symbol) && !is_discarded(tables, discarded, f, symbol.place)
}

// Whether a symbol of a file stands in a section that was discarded.
fn is_discarded(tables: &Tables, discarded: &[bool], f: usize, place: Place) -> bool
    requires { f < length (files_of tables.now) }
    ensures { result ≡ spec.is_discarded (files_of tables.now) discarded.now f place }
{
    let Place::Within(section) = place else {
        return false;
    };
    match discarded.get(tables.section_no(f, section as usize)) {
        Some(gone) => *gone,
        None => false,
    }
}
