//! Reading while loading.

ghost use Rattle.std.specs.Prelude.{◌≡◌, ℕ, ◌≤◌, ◌<◌, List, All, IsPermutation, [], map, string_bytes, length, IfOk};
ghost use Rattle.std.specs.Thread.{IsSync};
ghost use Rattle.std.specs.Global.{Vec as Buffer};
ghost use Rattle.crossbeam_queue.specs.Passes.{view, IsPassOf, IsSamePass};
ghost use Rattle.lk_depot.specs.Loading.{AfterLoads, AreContents};
ghost use Rattle.lk_depot.specs.Store.{Store};
ghost use Rattle.piped_reads.specs.Loads.{AfterPiped, AreGathered, AreOfLoaded, AreReadBelow, IsKept, IsShare, LoadsEnd, items_of, numbered};
ghost use Rattle.piped_reads.specs.Readings.{IsPiped};
ghost use Rattle.piped_reads.specs.Rule.{hand};

use crate::files::{Piped, PipedFile, Took};
use crate::loader::{Gathered, load_all};
use crate::parsers::{Share, parse_all};
use crate::pieces::Piece;
use crate::results::take_over;
use crate::rule::{Account, Hand, Joined, Line};
use crossbeam_queue::Pass;
use lk_depot::{Depot, LoadAllStop};
use std::alloc::{AllocError, Global};
use std::sync::Wait;
use std::sync::atomic::AtomicU64;
use std::thread::{Threads, join_mut};
use work_split::Gate;

/// How many pieces the queue holds.
const ROOM: usize = 8;

/// Adds what a parser has read, once it has ended.
fn take_in(line: &Line, gathered: &mut Gathered, share: Share, pass: &mut Pass<Piece, Hand>)
    requires queue { IsPassOf line.now pass.old × IsPassOf line.now share.pass }
    requires first { pass.old.id ≡ 0 }
    ensures queue { IsSamePass pass.old pass.new }
    ensures stop { gathered.new.stop ≡ gathered.old.stop }
    ensures gathered { (by most : ℕ) (before after : Store) (names : List (List ℕ)) → IsShare by (view share.pass).taken share.results.took.items → most < by
        → AreGathered most before after names (view pass.old).put (view pass.old).taken gathered.old.results.took.items gathered.old.stop
        → AreGathered by before after names (view pass.new).put (view pass.new).taken gathered.new.results.took.items gathered.new.stop }
{
    let Share {
        pass: theirs,
        results,
    } = share;
    line.absorb::<Joined>(pass, theirs);
    take_over(&mut gathered.results, results);
}

/// Starts the parsers up to number `left`, each in a thread of its own, and then loads in the caller's thread. A parser for which no thread can be
/// made runs after that, and finds that the loader is done.
#[cycle(starting)]
fn with_parsers<R: Threads + Wait + Sync, D: Depot, G: Gate>(
    rt: &R,
    alloc: Global,
    line: &Line,
    begun: &AtomicU64,
    gate: &G,
    left: u32,
    names: &[String],
    pass: &mut Pass<Piece, Hand>,
    depot: &mut D,
) -> Gathered
    requires queue { IsPassOf line.now pass.old }
    requires first { pass.old.id ≡ 0 }
    requires view { view pass.old ≡ hand [] [] }
    ensures queue { IsSamePass pass.old pass.new }
    ensures gathered { AreGathered left (D.store depot.old) (D.store depot.new) (map string_bytes names.now) (view pass.new).put (view pass.new).taken result.results.took.items result.stop }
{
    if left == 0 {
        return load_all(rt, alloc, line, begun, names, pass, depot);
    }
    let later = left - 1;
    let (share, mut gathered) = join_mut(
        rt,
        &mut || -> Share
            requires { IsSync R.row }
            ensures { IsPassOf line.entry.now result.pass × ((view result.pass).put ≡ []) × IsShare left (view result.pass).taken result.results.took.items }
        { parse_all(rt, alloc, line, begun, gate, left) },
        &mut || -> Gathered
            requires { IsSync R.row × IsPassOf line.now pass.now × (pass.now.id ≡ 0) × (view pass.now ≡ hand [] []) }
            ensures { IsSamePass pass.entry.now pass.exit.now × AreGathered later (D.store depot.entry.now) (D.store depot.exit.now) (map string_bytes names.entry.now) (view pass.exit.now).put (view pass.exit.now).taken result.results.took.items result.stop }
        { with_parsers(rt, alloc, line, begun, gate, later, names, pass, depot) },
    );
    take_in(line, &mut gathered, share, pass);
    gathered
}

/// The files of results that are in order.
fn files_of(alloc: Global, took: Vec<Took>) -> Result<Vec<PipedFile>, AllocError>
    ensures { IfOk result (λ files. took.items ≡ numbered 0 files.items) }
{
    let mut files = Vec::with_capacity(alloc, took.len())?;
    let mut at = 0;
    for one in took {
        let Took { index, file } = one;
        if index != at {
            return Err(AllocError);
        }
        files.push(file)?;
        at += 1;
    }
    Ok(files)
}

/// The files in the order of their names, if there is one result for each; else as if there were no memory for it.
fn in_order(alloc: Global, took: Vec<Took>, count: usize) -> Result<Vec<PipedFile>, AllocError>
    ensures { IfOk result (λ files. IsPermutation took.items (numbered 0 files.items) × (length files.items ≡ count)) }
{
    let mut took = took;
    took.sort_by_key(|one| one.index)?;
    let files = files_of(alloc, took)?;
    if files.len() != count {
        return Err(AllocError);
    }
    Ok(files)
}

/// Loads the files of these names and reads them meanwhile: of each that the loader put into the queue and whoever took it, or that the loader
/// read itself, there is one result at most.
fn read_loaded<R: Threads + Wait + Sync, D: Depot, G: Gate>(
    rt: &R,
    alloc: Global,
    line: &Line,
    names: &[String],
    workers: u32,
    gate: &G,
    pass: &mut Pass<Piece, Hand>,
    depot: &mut D,
) -> Gathered
    requires queue { IsPassOf line.now pass.old }
    requires first { pass.old.id ≡ 0 }
    requires view { view pass.old ≡ hand [] [] }
    ensures store { IsKept (D.store depot.old) (D.store depot.new) }
    ensures gathered { (buffers : List (Buffer ℕ)) × LoadsEnd (D.store depot.old) (D.store depot.new) (map string_bytes names.now) (items_of buffers) result.stop × AreOfLoaded workers buffers result.results.took.items }
{
    let begun = AtomicU64::new(0);
    let gathered = with_parsers(rt, alloc, line, &begun, gate, workers, names, pass, depot);
    line.learn_as::<Account>(pass);
    gathered
}

/// Loads the files of these names, one after another in the caller's thread, while up to so many parsers, each in a thread of its own, read those
/// that are there: the members of an archive, and the heads of objects.
///
/// Loaded files go to the parsers by a queue of eight; where it is full, and after the last load, the caller reads files too. A parser for which there
/// is no thread is left out. `gate` is called by each parser, by its number from 1, at 0 before and at 1 after each file.
///
/// The answer is the files in order, each with what is read of its bytes, or with its first flaw; or why they were not loaded, as
/// [`load_all`](lk_depot::load_all) has it: no load is made after one that gives no file. Of the store only the faults and the unread names change.
/// While nothing is there to read a parser tries again, so this is for few and slow files; a loader that shares the loads reads many quick ones sooner.
pub fn read_piped<R: Threads + Wait + Sync, D: Depot, G: Gate>(
    rt: &R,
    alloc: Global,
    depot: &mut D,
    names: &[String],
    workers: u32,
    gate: &G,
) -> Result<Piped, LoadAllStop>
    ensures loads { AfterPiped (D.store depot.old) (D.store depot.new) (map string_bytes names.now) result }
    ensures read { IfOk result (λ piped. All (λ (file : PipedFile). IsPiped file × (file.by ≤ workers)) piped.files.items) }
    ensures later { (D.store depot.old).faults ≤ (D.store depot.new).faults }
    ensures files { (D.store depot.new).files ≡ (D.store depot.old).files }
    ensures kinds { (D.store depot.new).kinds ≡ (D.store depot.old).kinds }
    ensures begun { (D.store depot.new).begun ≡ (D.store depot.old).begun }
{
    let Ok((line, mut pass)) = Line::ruled(alloc, ROOM) else {
        return Err(LoadAllStop::Memory);
    };
    let gathered = read_loaded(rt, alloc, &line, names, workers, gate, &mut pass, depot);
    let Gathered { results, stop } = gathered;
    if let Err(stop) = stop {
        return Err(stop);
    }
    if results.lacks {
        return Err(LoadAllStop::Memory);
    }
    let Ok(files) = in_order(alloc, results.took, names.len()) else {
        return Err(LoadAllStop::Memory);
    };
    Ok(Piped { files })
}
