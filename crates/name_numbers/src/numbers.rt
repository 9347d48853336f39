//! The names of a link by number.

ghost use Rattle.std.specs.Prelude.{◌≡◌, ℕ, ◌<◌, ◌^◌, length, map, slice_index, IfOk};
ghost use Rattle.std.specs.List.{range_with_len};
ghost use Rattle.lk_tables.specs.FileView.{file_views};
ghost use Rattle.lk_tables.specs.Files.{symbol_total};
ghost use Rattle.lk_tables.specs.NameNumbers.{NumbersNames, heads_alone};
ghost use Rattle.name_numbers.specs.Keys.{followed};
ghost use Rattle.name_numbers.specs.Marks.{AreMarked};

use crate::keys::Keys;
use crate::listing::keys_of;
use crate::texts::number_cut;
use intern_race::Texts;
use lk_tables::{File, NameNumbers, first_symbols};
use rayon::prelude::*;
use std::alloc::{AllocError, Global};
use std::thread::Threads;
use work_split::Gate;

/// The numbers of fewer symbols are not worth threads.
const LEAST: usize = 262_144;

/// Numbers the names of all files' symbols, whether their files take part in the link or not: by symbol number, 0 for LOCAL ones. One worker
/// does all by itself; for more, threads are started if there are many names. The only error is out of memory.
pub fn number_names<R: Threads + Sync, G: Gate>(
    rt: &R,
    alloc: Global,
    files: &[File],
    workers: u32,
    gate: &G,
) -> Result<NameNumbers, AllocError>
    requires symbols { symbol_total (file_views files.now) < 2 ^ 31 }
    ensures { IfOk result (λ n. NumbersNames (heads_alone (file_views files.now)) n) }
{
    let starts = first_symbols(alloc, files)?;
    let listed = keys_of(rt, alloc, files, starts.as_slice(), workers)?;
    let Keys { texts, symbols } = listed.keys;
    let mut firsts = listed.firsts;
    let texts = Texts::of(alloc, texts);
    let indexes = number_cut(rt, alloc, &texts, workers, false, gate)?;
    mark_firsts(
        firsts.as_mut_slice(),
        symbols.as_slice(),
        indexes.as_slice(),
    );
    let numbers = follow(rt, alloc, firsts.as_slice(), workers)?;
    Ok(NameNumbers { starts, numbers })
}

/// Writes to the symbol of each key that of the first key with the same name, whose index is the number of the name's text.
fn mark_firsts(firsts: &mut [u32], symbols: &[u32], indexes: &[u32])
    requires wide { length indexes.now ≡ length symbols.now }
    requires indexes { (k : ℕ) → k < length symbols.now → slice_index indexes.now k < length symbols.now }
    requires symbols { (k : ℕ) → k < length symbols.now → slice_index symbols.now k < length firsts.old }
    requires rise { (j k : ℕ) → j < k → k < length symbols.now → slice_index symbols.now j < slice_index symbols.now k }
    ensures { AreMarked symbols.now indexes.now (length symbols.now) firsts.old firsts.new }
{
    for k in 0..symbols.len() {
        firsts[symbols[k] as usize] = symbols[indexes[k] as usize];
    }
}

/// By symbol, the number of its name: what stands at the first of its span.
fn follow<R: Threads + Sync>(
    rt: &R,
    alloc: Global,
    firsts: &[u32],
    workers: u32,
) -> Result<Vec<u32>, AllocError>
    ensures { IfOk result (λ list. list.items ≡ followed firsts.now) }
{
    if workers == 1 || firsts.len() < LEAST {
        return follow_by_one(alloc, firsts);
    }
    follow_by_all(rt, alloc, firsts)
}

/// By symbol, the number of its name, found by one worker.
fn follow_by_one(alloc: Global, firsts: &[u32]) -> Result<Vec<u32>, AllocError>
    ensures { IfOk result (λ list. list.items ≡ followed firsts.now) }
{
    let mut list = Vec::with_capacity(alloc, firsts.len())?;
    for s in 0..firsts.len() {
        list.push(followed_at(firsts, s))?;
    }
    Ok(list)
}

/// By symbol, the number of its name, found by all processors.
fn follow_by_all<R: Threads + Sync>(
    rt: &R,
    alloc: Global,
    firsts: &[u32],
) -> Result<Vec<u32>, AllocError>
    ensures { IfOk result (λ list. list.items ≡ followed firsts.now) }
{
    (0..firsts.len())
        .into_par_iter()
        .map(
            |s: usize| -> u32
                requires { s < length firsts.now }
                ensures { result ≡ slice_index firsts.entry.now (slice_index firsts.entry.now s) }
            { followed_at(firsts, s) },
        )
        .collect(rt, alloc)
}

/// The number of one symbol's name.
fn followed_at(firsts: &[u32], s: usize) -> u32
    requires { s < length firsts.now }
    ensures { result ≡ slice_index firsts.now (slice_index firsts.now s) }
{
    value_at(firsts, firsts[s] as usize)
}

/// A number of a list, 0 past its end.
fn value_at(list: &[u32], at: usize) -> u32
    ensures { result ≡ slice_index list.now at }
{
    match list.get(at) {
        Some(value) => *value,
        None => 0,
    }
}
