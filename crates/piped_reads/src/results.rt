//! What one thread has read so far.

ghost use Rattle.std.specs.Prelude.{◌≡◌, ◌++◌, [], Bool, if◌then◌else◌};
ghost use Rattle.piped_reads.specs.Loads.{IsAdded};

use crate::files::Took;
use crate::pieces::Piece;
use crate::reading::read_file;
use std::alloc::Global;

/// What one thread has read.
#[derive(Drop)]
pub struct Results {
    pub took: Vec<Took>,
    /// Whether memory ran out meanwhile, so that something is left out.
    pub lacks: bool,
}

/// Nothing yet.
pub fn no_results(alloc: Global) -> Results
    ensures { result.took.items ≡ [] }
{
    Results {
        took: Vec::new(alloc),
        lacks: false,
    }
}

/// Reads the file of a piece, and adds what it is; an end mark has none. Where memory runs out that is noted.
pub fn add(alloc: Global, results: &mut Results, piece: Piece, by: u32)
    ensures { IsAdded piece by results.old.took.items results.new.took.items }
{
    let Piece::Loaded { index, bytes } = piece else {
        return;
    };
    let Ok(file) = read_file(alloc, bytes, by) else {
        results.lacks = true;
        return;
    };
    if results.took.push(Took { index, file }).is_err() {
        results.lacks = true;
    }
}

/// Adds what another thread has read, or notes that memory ran out.
pub fn take_over(results: &mut Results, more: Results)
    ensures { (added : Bool) × (results.new.took.items ≡ (if added then results.old.took.items ++ more.took.items else results.old.took.items)) }
{
    let Results { took, lacks } = more;
    let mut took = took;
    let fails = results.took.append(&mut took).is_err();
    results.lacks = results.lacks | lacks | fails;
}

/// Whether a piece is an end mark.
pub fn is_end(piece: &Piece) -> bool {
    match piece {
        Piece::Loaded { .. } => false,
        Piece::End { .. } => true,
    }
}
