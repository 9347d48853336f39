//! Entries in order of their names, each name once.

ghost use Rattle.std.specs.Prelude.{◌≡◌, ◌++◌, length, IfOk, None, OnOk};
ghost use Rattle.std.specs.List.Sorted.{IsSorted, IsStable};
ghost use Rattle.lk_tables.specs.LinkerSymbols.{text_if};
ghost use Rattle.symbol_table.specs.NameOrder.{by_name};
ghost use Rattle.symbol_table.specs.NamedViews.{name_cmp, named_views};
ghost use Rattle.symbol_table.specs.Repeats.{firsts_after, one_unless, repeats};
ghost use Rattle.symbol_table.specs.SymbolTable.{TableSymbol as Shown};
ghost use Rattle.symbol_table.specs.SymbolViews.{symbol_view, symbol_views};

use crate::named::Named;
use crate::symbols::TableSymbol;
use rayon::prelude::*;
use std::alloc::{AllocError, Global};
use std::thread::Threads;

/// Entries in order of their names; of those that have one name the first. What is lent is sorted where it stands. One worker sorts by itself;
/// more are as many as the machine has processors. The only error is out of memory; the lent entries are then in any order.
pub fn in_order<'a, R: Threads + Sync>(
    rt: &R,
    alloc: Global,
    list: &mut Vec<Named<'a>>,
    workers: u32,
) -> Result<Vec<TableSymbol<'a>>, AllocError>
    ensures { IfOk result (λ sorted. symbol_views sorted.items ≡ by_name (λ (t : Shown). t.name) (named_views list.old.items)) }
{
    sort(rt, alloc, list.as_mut_slice(), workers)?;
    firsts(alloc, list.as_slice())
}

/// Sorts entries by their names; those of one name stay in their order.
fn sort<R: Threads + Sync>(
    rt: &R,
    alloc: Global,
    list: &mut [Named],
    workers: u32,
) -> Result<(), AllocError>
    ensures len { length list.new ≡ length list.old }
    ensures sorted { OnOk result (IsSorted name_cmp list.new) }
    ensures stable { IsStable name_cmp list.old list.new }
{
    if workers == 1 {
        return list.sort(alloc);
    }
    par_sort(rt, alloc, list)
}

/// Of the entries of each name, which stand side by side, the first.
fn firsts<'a>(alloc: Global, list: &[Named<'a>]) -> Result<Vec<TableSymbol<'a>>, AllocError>
    ensures { IfOk result (λ firsts. symbol_views firsts.items ≡ firsts_after (λ (t : Shown). t.name) None (named_views list.now)) }
{
    let mut firsts = Vec::with_capacity(alloc, list.len())?;
    let mut before: Option<&[u8]> = None;
    for entry in list {
        let repeated = repeats(before, entry.symbol.name);
        push_unless(&mut firsts, repeated, &entry.symbol)?;
        before = Some(entry.symbol.name);
    }
    Ok(firsts)
}

/// Whether a name is that of the entry before.
fn repeats(before: Option<&[u8]>, name: &[u8]) -> bool
    ensures { result ≡ repeats (text_if before.entry) name.now }
{
    match before {
        Some(before) => before == name,
        None => false,
    }
}

/// Adds an entry, unless its name is repeated.
fn push_unless<'a>(
    list: &mut Vec<TableSymbol<'a>>,
    repeated: bool,
    symbol: &TableSymbol<'a>,
) -> Result<(), AllocError>
    ensures { OnOk result (symbol_views list.new.items ≡ symbol_views list.old.items ++ one_unless repeated (symbol_view symbol.now)) }
{
    if !repeated {
        list.push(*symbol)?;
    }
    Ok(())
}
