//! The loader: it loads the files in order, puts them into the queue, and ends the parsers.

ghost use Rattle.std.specs.Prelude.{◌≡◌, ℕ, ◌++◌, ◌∷◌, [], All, map, string_bytes};
ghost use Rattle.crossbeam_queue.specs.Passes.{view, IsPassOf, IsSamePass};
ghost use Rattle.lk_depot.specs.Store.{Store};
ghost use Rattle.piped_reads.specs.Loads.{AreGathered, ArePut, GoesOn, IsBelow, IsKept, IsPutOrKept, end_marks};
ghost use Rattle.piped_reads.specs.Rule.{IsApart, hand};
ghost use Rattle.piped_reads.specs.declared.pieces.Piece.TheVariants.{End, Loaded};

use crate::parsers::CLOSED;
use crate::pieces::Piece;
use crate::results::{Results, add, no_results};
use crate::rule::{Hand, Line, Put, Taken};
use crossbeam_queue::Pass;
use lk_depot::{Depot, LoadAllStop, LoadStop};
use std::alloc::Global;
use std::sync::Wait;
use std::sync::atomic::{AtomicU64, Ordering};
use std::thread;

/// What the loader and the parsers leave.
pub struct Gathered {
    pub results: Results,
    /// Whether all files were loaded.
    pub stop: Result<(), LoadAllStop>,
}

/// Puts a file into the queue; where that is full the loader reads the file itself.
fn put_one<R: Wait>(
    rt: &R,
    alloc: Global,
    line: &Line,
    index: usize,
    bytes: Vec<u8>,
    results: &mut Results,
    pass: &mut Pass<Piece, Hand>,
)
    requires queue { IsPassOf line.now pass.old }
    requires first { pass.old.id ≡ 0 }
    requires below { All (IsBelow index) (view pass.old).put }
    ensures queue { IsSamePass pass.old pass.new }
    ensures taken { (view pass.new).taken ≡ (view pass.old).taken }
    ensures put { IsPutOrKept (Loaded index bytes) (view pass.old).put (view pass.new).put results.old.took.items results.new.took.items }
{
    match line.push_as::<Put, R>(rt, pass, Piece::Loaded { index, bytes }) {
        Ok(()) => {}
        Err(back) => add(alloc, results, back, 0),
    }
}

/// Loads the files in order and puts each into the queue; where that is full it reads the file at hand itself.
fn put_files<R: Wait, D: Depot>(
    rt: &R,
    alloc: Global,
    line: &Line,
    names: &[String],
    results: &mut Results,
    pass: &mut Pass<Piece, Hand>,
    depot: &mut D,
) -> Result<(), LoadAllStop>
    requires queue { IsPassOf line.now pass.old }
    requires first { pass.old.id ≡ 0 }
    requires view { view pass.old ≡ hand [] [] }
    requires results { results.old.took.items ≡ [] }
    ensures queue { IsSamePass pass.old pass.new }
    ensures taken { (view pass.new).taken ≡ [] }
    ensures put { (index : ℕ) × ArePut index (D.store depot.old) (D.store depot.new) (map string_bytes names.now) (view pass.new).put results.new.took.items result }
    ensures store { IsKept (D.store depot.old) (D.store depot.new) }
{
    for (index, name) in names.iter().enumerate() {
        let bytes = match depot.load(alloc, name.as_str()) {
            Ok(bytes) => bytes,
            Err(LoadStop::Absent) => return Err(LoadAllStop::Absent { index }),
            Err(LoadStop::Failed) => return Err(LoadAllStop::Failed { index }),
            Err(LoadStop::Memory) => return Err(LoadAllStop::Memory),
        };
        put_one(rt, alloc, line, index, bytes, results, pass);
    }
    Ok(())
}

/// Takes files and reads them, until a take finds none.
fn take_rest<R: Wait>(
    rt: &R,
    alloc: Global,
    line: &Line,
    results: &mut Results,
    pass: &mut Pass<Piece, Hand>,
)
    requires queue { IsPassOf line.now pass.old }
    ensures queue { IsSamePass pass.old pass.new }
    ensures put { (view pass.new).put ≡ (view pass.old).put }
    ensures takes { GoesOn 0 (view pass.old).taken (view pass.new).taken results.old.took.items results.new.took.items }
{
    for _ in rt.forever() {
        match line.pop_as::<Taken, R>(rt, pass) {
            None => break,
            Some(piece) => add(alloc, results, piece, 0),
        }
    }
}

/// Puts an end mark, and tries again while the queue is full.
fn put_end<R: Wait>(rt: &R, line: &Line, number: u32, pass: &mut Pass<Piece, Hand>)
    requires queue { IsPassOf line.now pass.old }
    requires first { pass.old.id ≡ 0 }
    requires fresh { All (λ piece. IsApart piece (End number)) (view pass.old).put }
    ensures queue { IsSamePass pass.old pass.new }
    ensures put { (view pass.new) ≡ hand ((view pass.old).put ++ End number ∷ []) (view pass.old).taken }
{
    for _ in rt.forever() {
        match line.push_as::<Put, R>(rt, pass, Piece::End { number }) {
            Ok(()) => return,
            Err(_) => thread::yield_now(),
        }
    }
    unreachable!()
}

/// Puts an end mark for each parser that has begun; one that begins later ends by itself.
fn end_parsers<R: Wait>(rt: &R, line: &Line, begun: &AtomicU64, pass: &mut Pass<Piece, Hand>)
    requires queue { IsPassOf line.now pass.old }
    requires first { pass.old.id ≡ 0 }
    requires files { (index : ℕ) × All (IsBelow index) (view pass.old).put }
    ensures queue { IsSamePass pass.old pass.new }
    ensures marks { (count : ℕ) × (view pass.new ≡ hand ((view pass.old).put ++ end_marks count) (view pass.old).taken) }
{
    let count = (begun.fetch_add(CLOSED, Ordering::SeqCst) % 0x1_0000_0000) as u32;
    for number in 0..count {
        put_end(rt, line, number, pass);
    }
}

/// Loads the files in order and puts them into the queue; then takes and reads what is left there, and ends the parsers. A load that gives no
/// file is the last one.
pub fn load_all<R: Wait, D: Depot>(
    rt: &R,
    alloc: Global,
    line: &Line,
    begun: &AtomicU64,
    names: &[String],
    pass: &mut Pass<Piece, Hand>,
    depot: &mut D,
) -> Gathered
    requires queue { IsPassOf line.now pass.old }
    requires first { pass.old.id ≡ 0 }
    requires view { view pass.old ≡ hand [] [] }
    ensures queue { IsSamePass pass.old pass.new }
    ensures gathered { AreGathered 0 (D.store depot.old) (D.store depot.new) (map string_bytes names.now) (view pass.new).put (view pass.new).taken result.results.took.items result.stop }
{
    let mut results = no_results(alloc);
    let stop = put_files(rt, alloc, line, names, &mut results, pass, depot);
    if stop.is_ok() {
        take_rest(rt, alloc, line, &mut results, pass);
    }
    end_parsers(rt, line, begun, pass);
    Gathered { results, stop }
}
