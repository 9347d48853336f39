//! The keys of a link, listed by several workers.

ghost use Rattle.std.specs.Prelude.{◌≡◌, ◌<◌, ◌≤◌, ◌+◌, ◌^◌, length, map, IfOk, OnOk};
ghost use Rattle.std.specs.List.{range_with_len};
ghost use Rattle.lk_tables.specs.FileView.{file_views};
ghost use Rattle.lk_tables.specs.Files.{first_symbol, symbol_total};
ghost use Rattle.name_numbers.specs.Columns.{AreKeys, AreRuns, IsJoin, Joins};
ghost use Rattle.name_numbers.specs.Keys.{firsts, keys};
ghost use Rattle.work_split.specs.Pieces.{Tiles};

use crate::keys::{Listed, keys_of_run, nothing_listed};
use lk_base::LinkStop;
use lk_tables::File;
use std::alloc::{AllocError, Global};
use std::ops::Range;
use std::thread::Threads;
use work_split::{OpenGate, over_shares, pieces_by_weight};

/// The names of fewer symbols are not worth threads.
const LEAST: usize = 8192;

/// So many workers list keys, if there are more.
const MOST: u32 = 64;

/// Lists the keys of all files. One worker lists them by itself; of more, each lists those of a run of files.
pub fn keys_of<'a, R: Threads + Sync>(
    rt: &R,
    alloc: Global,
    files: &[File<'a>],
    starts: &[u32],
    workers: u32,
) -> Result<Listed<'a>, AllocError>
    requires starts { starts.now ≡ map (first_symbol (file_views files.now)) (range_with_len 0 (length files.now + 1)) }
    requires symbols { symbol_total (file_views files.now) < 2 ^ 31 }
    ensures keys { IfOk result (λ listed. AreKeys (keys (file_views files.now)) listed.keys) }
    ensures firsts { IfOk result (λ listed. listed.firsts.items ≡ firsts (file_views files.now)) }
{
    let total = starts[files.len()] as usize;
    if workers == 1 || total < LEAST {
        return all_keys(alloc, files, starts);
    }
    let runs = runs_of(rt, alloc, files, starts, workers)?;
    let listed = join_runs(alloc, runs.as_slice(), total)?;
    Ok(listed)
}

/// Lists the keys of all files by one worker.
fn all_keys<'a>(alloc: Global, files: &[File<'a>], starts: &[u32]) -> Result<Listed<'a>, AllocError>
    requires starts { starts.now ≡ map (first_symbol (file_views files.now)) (range_with_len 0 (length files.now + 1)) }
    requires symbols { symbol_total (file_views files.now) < 2 ^ 31 }
    ensures keys { IfOk result (λ listed. AreKeys (keys (file_views files.now)) listed.keys) }
    ensures firsts { IfOk result (λ listed. listed.firsts.items ≡ firsts (file_views files.now)) }
{
    let listed = keys_of_run(alloc, files, starts, 0..files.len())?;
    Ok(listed)
}

/// The keys of all files, in runs of about as many symbols each, one for each worker.
fn runs_of<'a, R: Threads + Sync>(
    rt: &R,
    alloc: Global,
    files: &[File<'a>],
    starts: &[u32],
    workers: u32,
) -> Result<Vec<Listed<'a>>, AllocError>
    requires starts { starts.now ≡ map (first_symbol (file_views files.now)) (range_with_len 0 (length files.now + 1)) }
    requires symbols { symbol_total (file_views files.now) < 2 ^ 31 }
    ensures { IfOk result (λ runs. AreRuns (file_views files.now) 0 (length files.now) runs.items) }
{
    let pieces = pieces_of(alloc, files, workers)?;
    let listed = over_shares(
        rt,
        alloc,
        &OpenGate,
        pieces.as_slice(),
        |run: Range<usize>| -> Result<Vec<Listed>, LinkStop>
            requires starts { starts.now ≡ map (first_symbol (file_views files.now)) (range_with_len 0 (length files.now + 1)) }
            requires symbols { symbol_total (file_views files.now) < 2 ^ 31 }
            requires ordered { run.start ≤ run.end }
            requires within { run.end ≤ length files.now }
            ensures { IfOk result (λ runs. AreRuns (file_views files.entry.now) run.start run.end runs.items) }
        { Ok(one_run(alloc, files, starts, run)?) },
    );
    match listed {
        Ok(runs) => Ok(runs),
        Err(_) => Err(AllocError),
    }
}

/// The files cut into pieces of about as many symbols each.
fn pieces_of(alloc: Global, files: &[File], workers: u32) -> Result<Vec<Range<usize>>, AllocError>
    ensures tiles { IfOk result (λ pieces. Tiles 0 (length files.now) pieces.items) }
    ensures most { IfOk result (λ pieces. length pieces.items ≤ 64) }
{
    let mut counts = Vec::with_capacity(alloc, files.len())?;
    for f in 0..files.len() {
        counts.push(files[f].symbols().len() as u64)?;
    }
    pieces_by_weight(alloc, counts.as_slice(), workers.max(1).min(MOST))
}

/// The keys of a run of files, as a list of one.
fn one_run<'a>(
    alloc: Global,
    files: &[File<'a>],
    starts: &[u32],
    run: Range<usize>,
) -> Result<Vec<Listed<'a>>, AllocError>
    requires starts { starts.now ≡ map (first_symbol (file_views files.now)) (range_with_len 0 (length files.now + 1)) }
    requires symbols { symbol_total (file_views files.now) < 2 ^ 31 }
    requires ordered { run.start ≤ run.end }
    requires within { run.end ≤ length files.now }
    ensures { IfOk result (λ runs. AreRuns (file_views files.now) run.start run.end runs.items) }
{
    let mut runs = Vec::with_capacity(alloc, 1)?;
    runs.push(keys_of_run(alloc, files, starts, run)?)?;
    Ok(runs)
}

/// The keys of runs, one after the other; the files have so many symbols.
fn join_runs<'a>(
    alloc: Global,
    runs: &[Listed<'a>],
    symbols: usize,
) -> Result<Listed<'a>, AllocError>
    ensures { IfOk result (IsJoin runs.now) }
{
    let mut whole = nothing_listed(alloc, key_count(runs), symbols)?;
    for r in 0..runs.len() {
        join_run(&mut whole, &runs[r])?;
    }
    Ok(whole)
}

/// How many keys runs have.
fn key_count(runs: &[Listed]) -> usize {
    let mut count: usize = 0;
    for run in runs {
        count = count.saturating_add(run.keys.texts.len());
    }
    count
}

/// One run more.
fn join_run<'a>(whole: &mut Listed<'a>, run: &Listed<'a>) -> Result<(), AllocError>
    ensures { OnOk result (Joins run.now whole.old whole.new) }
{
    whole
        .keys
        .texts
        .extend_from_slice(run.keys.texts.as_slice())?;
    whole
        .keys
        .symbols
        .extend_from_slice(run.keys.symbols.as_slice())?;
    whole.firsts.extend_from_slice(run.firsts.as_slice())?;
    Ok(())
}
