//! Symbols whose names no file offers.

ghost use Rattle.std.specs.Prelude.{◌≡◌, ◌<◌, ◌≤◌, ◌-◌, ◌++◌, ◌&&◌, ◌==◌, length, flat_map, IfOk, OnOk};
ghost use Rattle.std.specs.List.{range_with_len};
ghost use Rattle.lk_tables.specs.BindingView.{binding_view};
ghost use Rattle.lk_tables.specs.Files.{is_visible};
ghost use Rattle.lk_tables.specs.Ranks.{no_rank};
ghost use Rattle.lk_tables.specs.TablesView.{files_of};
ghost use Rattle.lk_tables.specs.Targets.{rank_at};
ghost use Rattle.sym_resolve.specs.Symbols.{in_file};
ghost use Rattle.sym_resolve.specs.Unbound.{all_unbound, unbound_at};
ghost use Rattle.work_split.specs.Pieces.{Tiles};
ghost use Rattle.work_split.specs.Runs.{IsRun};

use crate::counts::file;
use lk_base::{FileNo, LinkStop, SymNo};
use lk_tables::{Binding, NO_RANK, Symbol, Tables, is_visible};
use std::alloc::{AllocError, Global};
use std::ops::Range;
use std::thread::Threads;
use work_split::{Gate, over_shares};

/// A symbol of a file that takes part, which other files see and whose name no file offers.
#[derive(Clone, Copy)]
pub struct Unbound {
    pub file: FileNo,
    /// Its index in the file.
    pub symbol: SymNo,
    /// Its number in the link.
    pub number: usize,
}

/// All such symbols, in order of file and symbol. The workers each list those of one piece of the files.
pub fn unbound_of<R: Threads + Sync, G: Gate>(
    rt: &R,
    alloc: Global,
    tables: &Tables,
    binding: &Binding,
    pieces: &[Range<usize>],
    gate: &G,
) -> Result<Vec<Unbound>, AllocError>
    requires tiles { Tiles 0 (length (files_of tables.now)) pieces.now }
    requires most { length pieces.now ≤ 64 }
    ensures { IfOk result (λ unbound. unbound.items ≡ all_unbound (files_of tables.now) (binding_view binding.now)) }
{
    let listed = over_shares(
        rt,
        alloc,
        gate,
        pieces,
        |piece: Range<usize>| -> Result<Vec<Unbound>, LinkStop>
            requires piece { piece.end ≤ length (files_of tables.now) }
            ensures { IsRun (in_file (files_of tables.entry.now) (unbound_at (files_of tables.entry.now) (binding_view binding.entry.now))) piece result }
        { Ok(unbound_in(alloc, tables, binding, piece)?) },
    );
    match listed {
        Ok(unbound) => Ok(unbound),
        Err(_) => Err(AllocError),
    }
}

// The symbols of a run of files whose names nobody offers.
fn unbound_in(
    alloc: Global,
    tables: &Tables,
    binding: &Binding,
    piece: Range<usize>,
) -> Result<Vec<Unbound>, AllocError>
    requires piece { piece.end ≤ length (files_of tables.now) }
    ensures { IfOk result (λ unbound. unbound.items ≡ flat_map (in_file (files_of tables.now) (unbound_at (files_of tables.now) (binding_view binding.now))) (range_with_len piece.start (piece.end - piece.start))) }
{
    let mut unbound = Vec::new(alloc);
    for f in piece.start..piece.end {
        push_unbound(&mut unbound, tables, binding, f)?;
    }
    Ok(unbound)
}

// Adds the symbols of a file whose names nobody offers, if it takes part.
fn push_unbound(
    unbound: &mut Vec<Unbound>,
    tables: &Tables,
    binding: &Binding,
    f: usize,
) -> Result<(), AllocError>
    requires file { f < length (files_of tables.now) }
    ensures { OnOk result (unbound.new.items ≡ unbound.old.items ++ in_file (files_of tables.now) (unbound_at (files_of tables.now) (binding_view binding.now)) f) }
{
    tables.prove_few();
    let file = file(tables, f);
    if !file.is_live() {
        return Ok(());
    }
    for i in 0..file.symbols().len() {
        let number = tables.symbol_no(f, i);
        if is_unbound(binding, &file.symbol(i), number) {
            unbound.push(Unbound {
                file: f as u32,
                symbol: i as u32,
                number,
            })?;
        }
    }
    Ok(())
}

// Whether other files see a symbol, and its name is bound to nothing.
fn is_unbound(binding: &Binding, symbol: &Symbol, number: usize) -> bool
    ensures { result ≡ (is_visible symbol.now && rank_at (binding_view binding.now) number == no_rank) }
{
    is_visible(symbol) && binding.rank_at(number) == NO_RANK
}
