//! The names of all files are numbered, once for all passes: where there are members before it is found which of these take part, and else beside
//! the bodies.

ghost use Rattle.std.specs.Prelude.{◌≡◌, ℕ, ◌<◌, ◌≤◌, ◌^◌, length, map, true, IfOk};
ghost use Rattle.std.specs.List.{range_with_len};
ghost use Rattle.lk_tables.specs.Files.{symbol_total};
ghost use Rattle.lk_tables.specs.FileView.{file_views};
ghost use Rattle.lk_tables.specs.NameNumbers.{NumbersNames, heads_alone};
ghost use Rattle.lk_tables.specs.TablesView.{are_numbered, files_of, have_numbers, heads_of};
ghost use Rattle.work_split.specs.Shares.{IsShare};
ghost use Rattle.link_passes.specs.Contents.{sources_of};
ghost use Rattle.link_passes.specs.Defects.{body_defects_at};
ghost use Rattle.link_passes.specs.Reading.{IsBodyAt, IsHeaded};
ghost use Rattle.link_passes.specs.Sources.{has_body, headed, source_at};

use crate::bodies::read_each;
use crate::records::Body;
use crate::sources::Source;
use lk_base::LinkStop;
use lk_tables::{File, Heads, NameNumbers, Tables};
use name_numbers::number_names;
use std::alloc::{AllocError, Global};
use std::thread::{Threads, join_mut};
use work_split::Gate;

/// The names of fewer symbols are not worth a thread.
const LEAST: usize = 4096;

/// Whether there is a member of an archive among the files of a link.
fn has_member(sources: &[Source]) -> bool {
    for at in 0..sources.len() {
        if sources[at].member {
            return true;
        }
    }
    false
}

/// Whether the files have so many symbols that their names are worth a thread.
fn are_many(files: &[File]) -> bool {
    let mut left = LEAST;
    for at in 0..files.len() {
        let count = files[at].symbols().len();
        if left <= count {
            return true;
        }
        left -= count;
    }
    false
}

/// Numbers the names of all files, once for all passes.
fn number<R: Threads + Sync, G: Gate>(
    rt: &R,
    alloc: Global,
    heads: &mut Heads,
    workers: u32,
    gate: &G,
) -> Result<(), AllocError>
    requires { symbol_total (heads_of heads.old) < 2 ^ 31 }
    ensures same { heads_of heads.new ≡ heads_of heads.old }
    ensures numbered { IfOk result (λ _. are_numbered heads.new ≡ true) }
{
    let names = number_names(rt, alloc, heads.files(), workers, gate)?;
    heads.keep_names(names);
    Ok(())
}

/// The numbers of the names of files, which came with them.
pub fn numbers_of<'t>(tables: &'t Tables) -> &'t NameNumbers
    requires { have_numbers tables.now ≡ true }
    ensures { NumbersNames (heads_alone (files_of tables.now)) result.now }
{
    tables.names().unwrap()
}

/// Numbers the names of all files if one of these is a member, since it is found by names which members take part.
pub fn number_for_members<R: Threads + Sync, G: Gate>(
    rt: &R,
    alloc: Global,
    sources: &[Source],
    heads: &mut Heads,
    workers: u32,
    gate: &G,
) -> Result<(), AllocError>
    requires { symbol_total (heads_of heads.old) < 2 ^ 31 }
    ensures { heads_of heads.new ≡ heads_of heads.old }
{
    if !has_member(sources) {
        return Ok(());
    }
    number(rt, alloc, heads, workers, gate)
}

/// Numbers the names of all files, which have no numbers yet, while the body of each file that takes part is read.
fn read_and_number<R: Threads + Sync, G: Gate>(
    rt: &R,
    alloc: Global,
    sources: &[Source],
    live: &[bool],
    heads: &mut Heads,
    workers: u32,
    gate: &G,
) -> Result<Vec<Option<Body>>, LinkStop>
    requires files { heads_of heads.old ≡ map (headed (sources_of sources.now)) (range_with_len 0 (length sources.now)) }
    requires live { length live.now ≡ length sources.now }
    requires heads { (f : ℕ) → f < length sources.now → has_body (sources_of sources.now) live.now f ≡ true → IsHeaded (source_at (sources_of sources.now) f).bytes }
    requires few { length sources.now < 2 ^ 24 }
    requires symbols { symbol_total (heads_of heads.old) < 2 ^ 31 }
    requires some { 1 ≤ workers }
    requires most { workers ≤ 64 }
    ensures share { IsShare (body_defects_at (sources_of sources.now) live.now) (IsBodyAt (sources_of sources.now) live.now) 0 (length sources.now) result }
    ensures same { heads_of heads.new ≡ heads_of heads.old }
    ensures numbered { IfOk result (λ _. are_numbered heads.new ≡ true) }
{
    let files = heads.files();
    let (names, bodies) = join_mut(
        rt,
        &mut || -> Result<NameNumbers, AllocError>
            requires { symbol_total (file_views files.now) < 2 ^ 31 }
            ensures { IfOk result (NumbersNames (heads_alone (file_views files.entry.now))) }
        { number_names(rt, alloc, files, workers, gate) },
        &mut || -> Result<Vec<Option<Body>>, LinkStop>
            requires { (file_views files.now ≡ map (headed (sources_of sources.now)) (range_with_len 0 (length sources.now))) × (length live.now ≡ length sources.now) × ((f : ℕ) → f < length sources.now → has_body (sources_of sources.now) live.now f ≡ true → IsHeaded (source_at (sources_of sources.now) f).bytes) × (length sources.now < 2 ^ 24) × (1 ≤ workers) × (workers ≤ 64) }
            ensures { IsShare (body_defects_at (sources_of sources.entry.now) live.entry.now) (IsBodyAt (sources_of sources.entry.now) live.entry.now) 0 (length sources.entry.now) result }
        { read_each(rt, alloc, sources, live, files, workers, gate) },
    );
    // A defect of a body is reported even where there is no memory for the names.
    let bodies = bodies?;
    heads.keep_names(names?);
    Ok(bodies)
}

/// Reads the body of each file that takes part, and numbers the names of all files if they have no numbers yet. With two workers or more, another
/// thread reads the bodies meanwhile if there are many names, since neither needs the other.
pub fn read_numbered<R: Threads + Sync, G: Gate>(
    rt: &R,
    alloc: Global,
    sources: &[Source],
    live: &[bool],
    heads: &mut Heads,
    workers: u32,
    gate: &G,
) -> Result<Vec<Option<Body>>, LinkStop>
    requires files { heads_of heads.old ≡ map (headed (sources_of sources.now)) (range_with_len 0 (length sources.now)) }
    requires live { length live.now ≡ length sources.now }
    requires heads { (f : ℕ) → f < length sources.now → has_body (sources_of sources.now) live.now f ≡ true → IsHeaded (source_at (sources_of sources.now) f).bytes }
    requires few { length sources.now < 2 ^ 24 }
    requires symbols { symbol_total (heads_of heads.old) < 2 ^ 31 }
    requires some { 1 ≤ workers }
    requires most { workers ≤ 64 }
    ensures share { IsShare (body_defects_at (sources_of sources.now) live.now) (IsBodyAt (sources_of sources.now) live.now) 0 (length sources.now) result }
    ensures same { heads_of heads.new ≡ heads_of heads.old }
    ensures numbered { IfOk result (λ _. are_numbered heads.new ≡ true) }
{
    if heads.names().is_some() {
        return read_each(rt, alloc, sources, live, heads.files(), workers, gate);
    }
    if 1 < workers && are_many(heads.files()) {
        return read_and_number(rt, alloc, sources, live, heads, workers, gate);
    }
    number(rt, alloc, heads, workers, gate)?;
    read_each(rt, alloc, sources, live, heads.files(), workers, gate)
}
