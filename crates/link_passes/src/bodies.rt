//! The second phase of a link: the body of each file that takes part is read with its unwind records, by the workers.

ghost use Rattle.std.specs.Prelude.{◌≡◌, ℕ, ◌<◌, ◌≤◌, ◌^◌, length, map, is_some, IfOk, IfSome, Ok, [], true, if◌then◌else◌};
ghost use Rattle.std.specs.List.{range_with_len};
ghost use Rattle.eh_frame.specs.FrameLaws.{ArePlain};
ghost use Rattle.lk_base.specs.declared.abi.TheConstants.{FILE_MAX};
ghost use Rattle.lk_base.specs.Firsts.{Goes};
ghost use Rattle.lk_base.specs.Limits.{IsWithinStandard};
ghost use Rattle.lk_tables.specs.Files.{symbol_total};
ghost use Rattle.lk_tables.specs.FileView.{file_view, file_views};
ghost use Rattle.lk_tables.specs.Frames.{AreListsWithin, all_lists, list_views};
ghost use Rattle.lk_tables.specs.Heads.{head_of, head_view};
ghost use Rattle.lk_tables.specs.TablesView.{files_of, have_numbers, heads_of};
ghost use Rattle.work_split.specs.Shares.{IsShare};
ghost use Rattle.link_command.specs.Command.{lists_of};
ghost use Rattle.link_passes.specs.Contents.{sources_of};
ghost use Rattle.link_passes.specs.Defects.{body_defects, body_defects_at, opening_defects};
ghost use Rattle.link_passes.specs.Reading.{IsBody, IsBodyAt, IsHeaded};
ghost use Rattle.link_passes.specs.Sources.{files_in, has_body, headed, heads_in, live_in, source_at};

use crate::heads::stop_for;
use crate::numbering::read_numbered;
use crate::records::{Body, number_records, read_whole, split_bodies};
use crate::sections::count_sections;
use crate::sources::Source;
use lk_base::{FileNo, Limits, LinkStop, SecNo, check_count};
use lk_tables::{File, Heads, Record, Tables};
use std::alloc::{AllocError, Global};
use std::ops::Range;
use std::thread::Threads;
use work_split::{Gate, over_shares, pieces_by_weight};

/// The body of a file, with its unwind records, if it is wanted.
#[tactic(auto, unfolding(crate::specs::Defects::body_defects))]
fn read_wanted(
    alloc: Global,
    file: &File,
    number: FileNo,
    wanted: bool,
) -> Result<Option<Body>, LinkStop>
    requires head { wanted ≡ true → head_of (file_view file.now).bytes ≡ Ok (file_view file.now).head }
    requires short { wanted ≡ true → length (file_view file.now).bytes ≤ FILE_MAX }
    ensures goes { Goes result (if wanted then body_defects (file_view file.now).bytes number else []) }
    ensures wanted { IfOk result (λ body. is_some body ≡ wanted) }
    ensures body { IfOk result (λ body. IfSome body (IsBody (file_view file.now))) }
{
    if !wanted {
        return Ok(None);
    }
    match read_whole(alloc, file) {
        Ok(body) => Ok(Some(body)),
        Err(fault) => Err(stop_for(number, &fault)),
    }
}

/// Whether the body of a file is read.
fn has_body(sources: &[Source], live: &[bool], at: usize) -> bool
    requires within { at < length sources.now }
    requires live { length live.now ≡ length sources.now }
    ensures { result ≡ has_body (sources_of sources.now) live.now at }
{
    live[at] && !sources[at].archive
}

/// Reads the bodies of the files of one piece that take part, in order.
fn read_piece(
    alloc: Global,
    sources: &[Source],
    live: &[bool],
    files: &[File],
    piece: Range<usize>,
) -> Result<Vec<Option<Body>>, LinkStop>
    requires files { file_views files.now ≡ map (headed (sources_of sources.now)) (range_with_len 0 (length sources.now)) }
    requires live { length live.now ≡ length sources.now }
    requires heads { (f : ℕ) → f < length sources.now → has_body (sources_of sources.now) live.now f ≡ true → IsHeaded (source_at (sources_of sources.now) f).bytes }
    requires few { length sources.now < 2 ^ 24 }
    requires ordered { piece.start ≤ piece.end }
    requires within { piece.end ≤ length sources.now }
    ensures { IsShare (body_defects_at (sources_of sources.now) live.now) (IsBodyAt (sources_of sources.now) live.now) piece.start piece.end result }
{
    let mut bodies = Vec::with_capacity(alloc, piece.end - piece.start)?;
    for at in piece.start..piece.end {
        let wanted = has_body(sources, live, at);
        let body = read_wanted(alloc, &files[at], at as u32, wanted)?;
        bodies.push(body)?;
    }
    Ok(bodies)
}

/// What the bodies weigh, by which the work is cut: their files' bytes.
fn weights_of(alloc: Global, sources: &[Source], live: &[bool]) -> Result<Vec<u64>, AllocError>
    requires { length live.now ≡ length sources.now }
    ensures { IfOk result (λ weights. length weights.items ≡ length sources.now) }
{
    let mut weights = Vec::with_capacity(alloc, sources.len())?;
    for at in 0..sources.len() {
        let weight = if has_body(sources, live, at) {
            sources[at].bytes.len() as u64
        } else {
            0
        };
        weights.push(weight)?;
    }
    Ok(weights)
}

/// Reads the body of each file that takes part.
pub fn read_each<R: Threads + Sync, G: Gate>(
    rt: &R,
    alloc: Global,
    sources: &[Source],
    live: &[bool],
    files: &[File],
    workers: u32,
    gate: &G,
) -> Result<Vec<Option<Body>>, LinkStop>
    requires files { file_views files.now ≡ map (headed (sources_of sources.now)) (range_with_len 0 (length sources.now)) }
    requires live { length live.now ≡ length sources.now }
    requires heads { (f : ℕ) → f < length sources.now → has_body (sources_of sources.now) live.now f ≡ true → IsHeaded (source_at (sources_of sources.now) f).bytes }
    requires few { length sources.now < 2 ^ 24 }
    requires some { 1 ≤ workers }
    requires most { workers ≤ 64 }
    ensures { IsShare (body_defects_at (sources_of sources.now) live.now) (IsBodyAt (sources_of sources.now) live.now) 0 (length sources.now) result }
{
    let weights = weights_of(alloc, sources, live)?;
    let cuts = pieces_by_weight(alloc, weights.as_slice(), workers)?;
    over_shares(
        rt,
        alloc,
        gate,
        cuts.as_slice(),
        |piece: Range<usize>| -> Result<Vec<Option<Body>>, LinkStop>
            requires files { file_views files.now ≡ map (headed (sources_of sources.now)) (range_with_len 0 (length sources.now)) }
            requires live { length live.now ≡ length sources.now }
            requires heads { (f : ℕ) → f < length sources.now → has_body (sources_of sources.now) live.now f ≡ true → IsHeaded (source_at (sources_of sources.now) f).bytes }
            requires few { length sources.now < 2 ^ 24 }
            requires ordered { piece.start ≤ piece.end }
            requires within { piece.end ≤ length sources.now }
            ensures { IsShare (body_defects_at (sources_of sources.entry.now) live.entry.now) (IsBodyAt (sources_of sources.entry.now) live.entry.now) piece.start piece.end result }
        { read_piece(alloc, sources, live, files, piece) },
    )
}

/// Reads the body of each file that takes part, with its unwind records, and counts the sections; the names of all files have numbers from then
/// on. Gives also, in order of section number, the unwind records of each section that has some. It answers the same whatever the number of workers.
#[tactic(auto, unfolding(crate::specs::Defects::opening_defects))]
pub fn read_bodies<'a, R: Threads + Sync, G: Gate>(
    rt: &R,
    alloc: Global,
    limits: &Limits,
    sources: &[Source],
    undefined: &[Vec<u8>],
    mut heads: Heads<'a>,
    live: &[bool],
    workers: u32,
    gate: &G,
) -> Result<(Tables<'a>, Vec<(SecNo, Vec<Record>)>), LinkStop>
    requires limits { IsWithinStandard limits.now }
    requires heads_are { heads_of heads ≡ heads_in (sources_of sources.now) }
    requires live { live.now ≡ live_in (lists_of undefined.now) (sources_of sources.now) }
    requires headed { (f : ℕ) → f < length sources.now → has_body (sources_of sources.now) live.now f ≡ true → IsHeaded (source_at (sources_of sources.now) f).bytes }
    requires symbols { symbol_total (heads_of heads) < 2 ^ 31 }
    requires some { 1 ≤ workers }
    requires most { workers ≤ 64 }
    ensures goes { Goes result (opening_defects limits.now (lists_of undefined.now) (sources_of sources.now)) }
    ensures tables { IfOk result (λ both. files_of both.0 ≡ files_in (lists_of undefined.now) (sources_of sources.now)) }
    ensures records { IfOk result (λ both. list_views both.1.items ≡ all_lists (files_of both.0)) }
    ensures within { IfOk result (λ both. AreListsWithin (files_of both.0) (all_lists (files_of both.0))) }
    ensures plain { IfOk result (λ both. ArePlain (all_lists (files_of both.0))) }
    ensures numbered { IfOk result (λ both. have_numbers both.0 ≡ true) }
{
    let bodies = read_numbered(rt, alloc, sources, live, &mut heads, workers, gate)?;
    let parts = split_bodies(alloc, bodies)?;
    let count = count_sections(heads.files(), parts.0.as_slice());
    if let Err(defect) = check_count(limits.sections, count) {
        return Err(LinkStop::Defect(defect));
    }
    let tables = Tables::of(alloc, heads, parts.0)?;
    let records = number_records(alloc, &tables, parts.1)?;
    Ok((tables, records))
}
