//! The parsers: threads that take files from the queue and read them.

ghost use Rattle.std.specs.Prelude.{◌≡◌, []};
ghost use Rattle.crossbeam_queue.specs.Passes.{view, IsPassOf, IsSamePass};
ghost use Rattle.piped_reads.specs.Loads.{GoesOn, IsShare};
ghost use Rattle.piped_reads.specs.Rule.{hand};

use crate::pieces::Piece;
use crate::results::{Results, add, is_end, no_results};
use crate::rule::{Hand, Line, Taken};
use crossbeam_queue::Pass;
use std::alloc::Global;
use std::sync::Wait;
use std::sync::atomic::{AtomicU64, Ordering};
use std::thread;
use work_split::Gate;

/// What is added to the count of parsers once no more may begin.
pub const CLOSED: u64 = 1 << 32;

/// What a parser leaves: its pass, and what it has read.
pub struct Share {
    pub pass: Pass<Piece, Hand>,
    pub results: Results,
}

/// Takes files and reads them, up to an end mark.
fn take_all<R: Wait, G: Gate>(
    rt: &R,
    alloc: Global,
    line: &Line,
    gate: &G,
    worker: u32,
    results: &mut Results,
    pass: &mut Pass<Piece, Hand>,
)
    requires queue { IsPassOf line.now pass.old }
    ensures queue { IsSamePass pass.old pass.new }
    ensures put { (view pass.new).put ≡ (view pass.old).put }
    ensures takes { GoesOn worker (view pass.old).taken (view pass.new).taken results.old.took.items results.new.took.items }
{
    for _ in rt.forever() {
        match line.pop_as::<Taken, R>(rt, pass) {
            None => thread::yield_now(),
            Some(piece) => {
                if is_end(&piece) {
                    break;
                }
                gate.at(worker, 0);
                add(alloc, results, piece, worker);
                gate.at(worker, 1);
            }
        }
    }
}

/// A parser, unless the loader is done already: then no end mark would come for it.
pub fn parse_all<R: Wait, G: Gate>(
    rt: &R,
    alloc: Global,
    line: &Line,
    begun: &AtomicU64,
    gate: &G,
    worker: u32,
) -> Share
    ensures queue { IsPassOf line.now result.pass }
    ensures put { (view result.pass).put ≡ [] }
    ensures share { IsShare worker (view result.pass).taken result.results.took.items }
{
    let mut pass = line.pass();
    let mut results = no_results(alloc);
    if begun.fetch_add(1, Ordering::SeqCst) >= CLOSED {
        return Share { pass, results };
    }
    take_all(rt, alloc, line, gate, worker, &mut results, &mut pass);
    Share { pass, results }
}
