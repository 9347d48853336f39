//! The reading of all files: their heads, which of them take part, and the bodies of these.

ghost use Rattle.std.specs.Prelude.{◌≡◌, ◌<◌, ◌≤◌, ◌∷◌, [], true, IfOk, IfSome};
ghost use Rattle.eh_frame.specs.FrameLaws.{ArePlain};
ghost use Rattle.file_live.specs.Live.{IsLive};
ghost use Rattle.link_command.specs.Command.{lists_of};
ghost use Rattle.lk_base.specs.Firsts.{Goes};
ghost use Rattle.lk_base.specs.Limits.{IsWithinStandard};
ghost use Rattle.lk_tables.specs.Binding.{first_phase};
ghost use Rattle.lk_tables.specs.Frames.{AreListsWithin, all_lists, list_views};
ghost use Rattle.lk_tables.specs.TablesView.{files_of, have_numbers};
ghost use Rattle.link_passes.specs.Contents.{sources_of};
ghost use Rattle.link_passes.specs.Defects.{opening_defects, reading_defects};
ghost use Rattle.link_passes.specs.Known.{AreHeads};
ghost use Rattle.link_passes.specs.Sources.{files_in, heads_in, live_in, sources};
ghost use Rattle.link_passes.specs.Tables.{AreHeadsInside, AreInside};

use crate::bodies::read_bodies;
use crate::heads::read_heads;
use crate::numbering::number_for_members;
use crate::sources::Source;
use file_live::live;
use lk_base::{Limits, LinkStop, SecNo};
use lk_tables::{Head, Record, Tables};
use std::alloc::Global;
use std::thread::Threads;
use work_split::Gate;

/// Reads all files: their heads, and then the bodies of those that take part, with their unwind records, which are given too: in order of
/// section number those of each section that has some.
///
/// Stops at the first file by number, of as many as a link may have, that is an input too long, a broken archive or an object whose head is
/// broken; else where there are more files, or else more symbols, than a link may have; else at the first file whose body is broken; else where
/// there are more sections than a link may have. Or it is out of memory.
pub fn read_files<'a, R: Threads + Sync, G: Gate>(
    rt: &R,
    alloc: Global,
    limits: &Limits,
    sources: &[Source<'a>],
    undefined: &[Vec<u8>],
    workers: u32,
    gate: &G,
) -> Result<(Tables<'a>, Vec<(SecNo, Vec<Record>)>), LinkStop>
    requires limits { IsWithinStandard limits.now }
    requires some { 1 ≤ workers }
    requires most { workers ≤ 64 }
    ensures goes { Goes result (first_phase (reading_defects limits.now (sources_of sources.now) ∷ opening_defects limits.now (lists_of undefined.now) (sources_of sources.now) ∷ [])) }
    ensures tables { IfOk result (λ both. files_of both.0 ≡ files_in (lists_of undefined.now) (sources_of sources.now)) }
    ensures records { IfOk result (λ both. list_views both.1.items ≡ all_lists (files_of both.0)) }
    ensures within { IfOk result (λ both. AreListsWithin (files_of both.0) (all_lists (files_of both.0))) }
    ensures plain { IfOk result (λ both. ArePlain (all_lists (files_of both.0))) }
    ensures numbered { IfOk result (λ both. have_numbers both.0 ≡ true) }
    ensures taking_part { IfOk result (λ _. IsLive (lists_of undefined.now) (heads_in (sources_of sources.now)) (live_in (lists_of undefined.now) (sources_of sources.now))) }
    ensures inside { IfOk result (λ both. AreInside (files_of both.0)) }
    ensures heads_inside { IfOk result (λ both. AreHeadsInside (sources_of sources.now) (files_of both.0)) }
{
    read_files_after(rt, alloc, limits, sources, None, undefined, workers, gate)
}

/// Reads all files, unless their heads are `known` from an earlier reading: then their bodies alone.
pub fn read_files_after<'a, R: Threads + Sync, G: Gate>(
    rt: &R,
    alloc: Global,
    limits: &Limits,
    sources: &[Source<'a>],
    known: Option<Vec<Option<Head>>>,
    undefined: &[Vec<u8>],
    workers: u32,
    gate: &G,
) -> Result<(Tables<'a>, Vec<(SecNo, Vec<Record>)>), LinkStop>
    requires limits { IsWithinStandard limits.now }
    requires known { IfSome known (λ list. AreHeads (sources_of sources.now) list.items) }
    requires some { 1 ≤ workers }
    requires most { workers ≤ 64 }
    ensures goes { Goes result (first_phase (reading_defects limits.now (sources_of sources.now) ∷ opening_defects limits.now (lists_of undefined.now) (sources_of sources.now) ∷ [])) }
    ensures tables { IfOk result (λ both. files_of both.0 ≡ files_in (lists_of undefined.now) (sources_of sources.now)) }
    ensures records { IfOk result (λ both. list_views both.1.items ≡ all_lists (files_of both.0)) }
    ensures within { IfOk result (λ both. AreListsWithin (files_of both.0) (all_lists (files_of both.0))) }
    ensures plain { IfOk result (λ both. ArePlain (all_lists (files_of both.0))) }
    ensures numbered { IfOk result (λ both. have_numbers both.0 ≡ true) }
    ensures taking_part { IfOk result (λ _. IsLive (lists_of undefined.now) (heads_in (sources_of sources.now)) (live_in (lists_of undefined.now) (sources_of sources.now))) }
    ensures inside { IfOk result (λ both. AreInside (files_of both.0)) }
    ensures heads_inside { IfOk result (λ both. AreHeadsInside (sources_of sources.now) (files_of both.0)) }
{
    let mut heads = read_heads(rt, alloc, limits, sources, known, workers, gate)?;
    number_for_members(rt, alloc, sources, &mut heads, workers, gate)?;
    let live = live(rt, alloc, &heads, undefined, workers, gate)?;
    read_bodies(
        rt,
        alloc,
        limits,
        sources,
        undefined,
        heads,
        live.as_slice(),
        workers,
        gate,
    )
}
