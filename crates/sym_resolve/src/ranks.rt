//! What each symbol's name is bound to.

ghost use Rattle.std.specs.Prelude.{◌≡◌, ◌<◌, ◌≤◌, ◌-◌, ◌++◌, length, map, flat_map, IfOk, OnOk};
ghost use Rattle.std.specs.List.{range_with_len};
ghost use Rattle.lk_tables.specs.Files.{by_symbol, file_at};
ghost use Rattle.lk_tables.specs.NameNumbers.{NumbersNames, heads_alone};
ghost use Rattle.lk_tables.specs.TablesView.{files_of};
ghost use Rattle.lk_tables.proofs.ByNumber.{symbol_row};
ghost use Rattle.sym_resolve.specs.Claims.{rank_at, rank_by};
ghost use Rattle.work_split.specs.Pieces.{Tiles};
ghost use Rattle.work_split.specs.Runs.{IsRun};

use crate::counts::file;
use lk_base::LinkStop;
use lk_tables::{NO_RANK, NameNumbers, Tables, is_visible};
use std::alloc::{AllocError, Global};
use std::ops::Range;
use std::thread::Threads;
use work_split::{Gate, over_shares};

/// By the symbols' numbers the ranks to which their names are bound, by the least rank of each word. The workers each fill in those
/// of one piece of the files.
pub fn ranks_of<R: Threads + Sync, G: Gate>(
    rt: &R,
    alloc: Global,
    tables: &Tables,
    names: &NameNumbers,
    least: &[u64],
    pieces: &[Range<usize>],
    gate: &G,
) -> Result<Vec<u64>, AllocError>
    requires numbered { NumbersNames (heads_alone (files_of tables.now)) names.now }
    requires tiles { Tiles 0 (length (files_of tables.now)) pieces.now }
    requires most { length pieces.now ≤ 64 }
    ensures { IfOk result (λ ranks. ranks.items ≡ by_symbol (files_of tables.now) (rank_by (files_of tables.now) least.now)) }
{
    let filled = over_shares(
        rt,
        alloc,
        gate,
        pieces,
        |piece: Range<usize>| -> Result<Vec<u64>, LinkStop>
            requires numbered { NumbersNames (heads_alone (files_of tables.now)) names.now }
            requires piece { piece.end ≤ length (files_of tables.now) }
            ensures { IsRun (symbol_row (files_of tables.entry.now) (rank_by (files_of tables.entry.now) least.entry.now)) piece result }
        { Ok(ranks_in(alloc, tables, names, least, piece)?) },
    );
    match filled {
        Ok(ranks) => Ok(ranks),
        Err(_) => Err(AllocError),
    }
}

// The ranks of a run of files.
fn ranks_in(
    alloc: Global,
    tables: &Tables,
    names: &NameNumbers,
    least: &[u64],
    piece: Range<usize>,
) -> Result<Vec<u64>, AllocError>
    requires numbered { NumbersNames (heads_alone (files_of tables.now)) names.now }
    requires piece { piece.end ≤ length (files_of tables.now) }
    ensures { IfOk result (λ ranks. ranks.items ≡ flat_map (symbol_row (files_of tables.now) (rank_by (files_of tables.now) least.now)) (range_with_len piece.start (piece.end - piece.start))) }
{
    let count = first_symbol(tables, piece.end).saturating_sub(first_symbol(tables, piece.start));
    let mut ranks = Vec::with_capacity(alloc, count)?;
    for f in piece.start..piece.end {
        push_ranks(&mut ranks, tables, names, least, f)?;
    }
    Ok(ranks)
}

// The number of a file's first symbol; past the last file, how many symbols there are.
fn first_symbol(tables: &Tables, f: usize) -> usize {
    if f < tables.file_count() {
        return tables.symbol_no(f, 0);
    }
    tables.symbol_count()
}

// The ranks of one file's symbols.
fn push_ranks(
    ranks: &mut Vec<u64>,
    tables: &Tables,
    names: &NameNumbers,
    least: &[u64],
    f: usize,
) -> Result<(), AllocError>
    requires numbered { NumbersNames (heads_alone (files_of tables.now)) names.now }
    requires file { f < length (files_of tables.now) }
    ensures { OnOk result (ranks.new.items ≡ ranks.old.items ++ symbol_row (files_of tables.now) (rank_by (files_of tables.now) least.now) f) }
{
    for i in 0..file(tables, f).symbols().len() {
        ranks.push(symbol_rank(tables, names, least, f, i))?;
    }
    Ok(())
}

/// The rank to which a symbol's name is bound; none for a local symbol, or if its file takes no part.
#[tactic(auto, unfolding(crate::specs::Claims::rank_by))]
pub fn symbol_rank(tables: &Tables, names: &NameNumbers, least: &[u64], f: usize, i: usize) -> u64
    requires numbered { NumbersNames (heads_alone (files_of tables.now)) names.now }
    requires file { f < length (files_of tables.now) }
    requires symbol { i < length (file_at (files_of tables.now) f).head.symbols }
    ensures { result ≡ rank_by (files_of tables.now) least.now f i }
{
    let file = file(tables, f);
    if !file.is_live() {
        return NO_RANK;
    }
    if !is_visible(&file.symbol(i)) {
        return NO_RANK;
    }
    rank_at(least, names.number(f, i))
}

/// The rank that a row has for a word.
pub fn rank_at(row: &[u64], word: u32) -> u64
    ensures { result ≡ rank_at row.now word }
{
    match row.get(word as usize) {
        Some(rank) => *rank,
        None => NO_RANK,
    }
}
