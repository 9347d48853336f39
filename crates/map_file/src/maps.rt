//! The whole text.

ghost use Rattle.std.specs.Prelude.{◌≡◌, ◌≤◌, ◌++◌, flat_map, IfOk, OnOk};
ghost use Rattle.map_file.specs.MapText.{symbol_line};
ghost use Rattle.map_file.specs.MapView.{map_in};
ghost use Rattle.symbol_table.specs.SymbolViews.{symbol_views};

use crate::blocks::push_outputs;
use crate::folded::folded_of;
use crate::left::{Left, push_left};
use crate::lines::{push_entry, push_symbol};
use crate::rooms::room_of;
use link_sections::View;
use std::alloc::{AllocError, Global};
use std::thread::Threads;
use symbol_table::{TableSymbol, table_symbols};
use work_split::Gate;

/// The map of a link: lines that end with a newline, as docs/formats.md lists them; addresses and numbers of bytes are 16 lower-case
/// hexadecimal digits, names are escaped as diagnostics show them. So many workers find the symbols. The only error is out of memory.
#[tactic(auto, unfolding(crate::specs::MapText::map_text))]
pub fn map_text<R: Threads + Sync, G: Gate>(
    rt: &R,
    alloc: Global,
    view: &View,
    workers: u32,
    gate: &G,
) -> Result<Vec<u8>, AllocError>
    requires some { 1 ≤ workers }
    requires most { workers ≤ 64 }
    ensures { IfOk result (λ text. text.items ≡ map_in view.now) }
{
    let symbols = table_symbols(rt, alloc, view, workers, gate)?;
    let folded = folded_of(alloc, view)?;
    let mut text = Vec::with_capacity(alloc, room_of(view, symbols.as_slice()))?;
    text.extend_from_slice(b"rvld map 1\n")?;
    push_entry(&mut text, view)?;
    push_outputs(&mut text, view, folded.as_slice())?;
    push_left(&mut text, view, Left::Dropped)?;
    push_left(&mut text, view, Left::Discarded)?;
    push_symbols(&mut text, symbols.as_slice())?;
    Ok(text)
}

/// Adds the lines of symbols.
fn push_symbols(text: &mut Vec<u8>, symbols: &[TableSymbol]) -> Result<(), AllocError>
    ensures { OnOk result (text.new.items ≡ text.old.items ++ flat_map symbol_line (symbol_views symbols.now)) }
{
    for symbol in symbols {
        push_symbol(text, symbol)?;
    }
    Ok(())
}
