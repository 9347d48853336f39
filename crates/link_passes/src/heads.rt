//! The first phase of a link: the head of each file is read, by the workers.

ghost use Rattle.std.specs.Prelude.{◌≡◌, ℕ, ◌<◌, ◌≤◌, ◌^◌, ◌+◌, All, length, flat_map, map, IfOk, IfSome};
ghost use Rattle.std.specs.List.{range_with_len};
ghost use Rattle.lk_base.specs.Firsts.{Goes};
ghost use Rattle.lk_base.specs.Limits.{IsWithinStandard};
ghost use Rattle.lk_tables.specs.Files.{symbol_total};
ghost use Rattle.lk_tables.specs.FileView.{file_view, file_views};
ghost use Rattle.lk_tables.specs.TablesView.{heads_of};
ghost use Rattle.work_split.specs.Shares.{EachFrom, IsShare};
ghost use Rattle.link_passes.specs.Contents.{source_view, sources_of};
ghost use Rattle.link_passes.specs.Defects.{defect_in, head_defects, head_defects_at, reading_defects};
ghost use Rattle.link_passes.specs.Known.{AreHeads};
ghost use Rattle.link_passes.specs.Reading.{HasFewSymbols, IsHeadAt, IsHeadOf};
ghost use Rattle.link_passes.specs.Sources.{headed, heads_in};
ghost use Rattle.link_passes.specs.Stops.{stop_for};

use crate::sources::Source;
use elf_read::read_head;
use lk_base::{Defect, FileNo, Flaw, Limits, LinkStop, ReadFault, check_count};
use lk_tables::{File, Head, Heads};
use std::alloc::{AllocError, Global};
use std::ops::Range;
use std::thread::Threads;
use work_split::{Gate, over_shares, pieces_by_weight};

/// A flaw of a file as a defect of the link.
pub fn defect_in(file: FileNo, flaw: &Flaw) -> Defect
    ensures { result ≡ defect_in file flaw.now }
{
    Defect {
        kind: flaw.kind,
        file,
        section: flaw.section,
        place: flaw.place,
        symbol: 0,
        other: flaw.other,
    }
}

/// Why the reader of a file gave nothing, as why the link does.
pub fn stop_for(file: FileNo, fault: &ReadFault) -> LinkStop
    ensures { result ≡ stop_for file fault.now }
{
    match fault {
        ReadFault::Bad(flaw) => LinkStop::Defect(defect_in(file, flaw)),
        ReadFault::Memory => LinkStop::Memory,
    }
}

/// The head of one file; an archive by itself has none.
#[tactic(auto, unfolding(crate::specs::Defects::head_defects))]
fn read_one(alloc: Global, source: &Source, file: FileNo) -> Result<Option<Head>, LinkStop>
    ensures goes { Goes result (head_defects (source_view source.now) file) }
    ensures head { IfOk result (IsHeadOf (source_view source.now)) }
{
    if let Some(flaw) = &source.flaw {
        return Err(LinkStop::Defect(defect_in(file, flaw)));
    }
    if source.archive {
        return Ok(None);
    }
    match read_head(alloc, source.bytes) {
        Ok(head) => Ok(Some(head)),
        Err(fault) => Err(stop_for(file, &fault)),
    }
}

/// Reads the heads of the files of one piece, in order.
fn read_piece(
    alloc: Global,
    sources: &[Source],
    piece: Range<usize>,
) -> Result<Vec<Option<Head>>, LinkStop>
    requires ordered { piece.start ≤ piece.end }
    requires within { piece.end ≤ length sources.now }
    requires few { piece.end < 2 ^ 24 }
    ensures { IsShare (head_defects_at (sources_of sources.now)) (IsHeadAt (sources_of sources.now)) piece.start piece.end result }
{
    let mut heads = Vec::with_capacity(alloc, piece.end - piece.start)?;
    for at in piece.start..piece.end {
        let head = read_one(alloc, &sources[at], at as u32)?;
        heads.push(head)?;
    }
    Ok(heads)
}

/// What the heads of the first `count` files weigh, by which the work is cut: their bytes.
fn weights_of(alloc: Global, sources: &[Source], count: usize) -> Result<Vec<u64>, AllocError>
    requires { count ≤ length sources.now }
    ensures { IfOk result (λ weights. length weights.items ≡ count) }
{
    let mut weights = Vec::with_capacity(alloc, count)?;
    for at in 0..count {
        weights.push(sources[at].bytes.len() as u64)?;
    }
    Ok(weights)
}

/// Reads the heads of the first `count` files.
fn read_first<R: Threads + Sync, G: Gate>(
    rt: &R,
    alloc: Global,
    sources: &[Source],
    count: usize,
    workers: u32,
    gate: &G,
) -> Result<Vec<Option<Head>>, LinkStop>
    requires count { count ≤ length sources.now }
    requires few { count < 2 ^ 24 }
    requires some { 1 ≤ workers }
    requires most { workers ≤ 64 }
    ensures { IsShare (head_defects_at (sources_of sources.now)) (IsHeadAt (sources_of sources.now)) 0 count result }
{
    let weights = weights_of(alloc, sources, count)?;
    let cuts = pieces_by_weight(alloc, weights.as_slice(), workers)?;
    over_shares(
        rt,
        alloc,
        gate,
        cuts.as_slice(),
        |piece: Range<usize>| -> Result<Vec<Option<Head>>, LinkStop>
            requires ordered { piece.start ≤ piece.end }
            requires within { piece.end ≤ length sources.now }
            requires few { piece.end < 2 ^ 24 }
            ensures { IsShare (head_defects_at (sources_of sources.entry.now)) (IsHeadAt (sources_of sources.entry.now)) piece.start piece.end result }
        { read_piece(alloc, sources, piece) },
    )
}

/// The heads of the first `count` files: those that were read before, if they are of as many, else they are read.
fn heads_for<R: Threads + Sync, G: Gate>(
    rt: &R,
    alloc: Global,
    sources: &[Source],
    known: Option<Vec<Option<Head>>>,
    count: usize,
    workers: u32,
    gate: &G,
) -> Result<Vec<Option<Head>>, LinkStop>
    requires count { count ≤ length sources.now }
    requires few { count < 2 ^ 24 }
    requires known { IfSome known (λ list. AreHeads (sources_of sources.now) list.items) }
    requires some { 1 ≤ workers }
    requires most { workers ≤ 64 }
    ensures { IsShare (head_defects_at (sources_of sources.now)) (IsHeadAt (sources_of sources.now)) 0 count result }
{
    if let Some(list) = known {
        if list.len() == count {
            return Ok(list);
        }
    }
    read_first(rt, alloc, sources, count, workers, gate)
}

/// The first files of a link with their heads.
fn gather<'a>(
    alloc: Global,
    sources: &[Source<'a>],
    list: Vec<Option<Head>>,
) -> Result<Heads<'a>, AllocError>
    requires count { length list.items ≤ length sources.now }
    requires few { length list.items < 2 ^ 24 }
    requires each { EachFrom (IsHeadAt (sources_of sources.now)) 0 (length list.items) list.items }
    ensures heads { IfOk result (λ heads. heads_of heads ≡ map (headed (sources_of sources.now)) (range_with_len 0 (length list.items))) }
    ensures few { IfOk result (λ heads. All HasFewSymbols (heads_of heads)) }
{
    let mut heads = Heads::empty(alloc);
    let mut at = 0;
    for head in list {
        let source = &sources[at];
        heads.add(source.bytes, head, source.member)?;
        at += 1;
    }
    Ok(heads)
}

/// How many symbols these files have.
fn count_symbols(files: &[File]) -> u64
    requires count { length files.now < 2 ^ 24 }
    requires few { All HasFewSymbols (file_views files.now) }
    ensures { result ≡ symbol_total (file_views files.now) }
{
    let mut total = 0;
    for index in 0..files.len() {
        total += files[index].symbols().len() as u64;
    }
    total
}

/// Reads the head of each file, unless these are `known` from an earlier reading. A link of more files than the limit has them as its defect, if
/// none of the first, up to the limit, has one. It answers the same whatever the number of workers.
#[tactic(auto, unfolding(crate::specs::Defects::reading_defects, crate::specs::Sources::heads_in))]
pub fn read_heads<'a, R: Threads + Sync, G: Gate>(
    rt: &R,
    alloc: Global,
    limits: &Limits,
    sources: &[Source<'a>],
    known: Option<Vec<Option<Head>>>,
    workers: u32,
    gate: &G,
) -> Result<Heads<'a>, LinkStop>
    requires limits { IsWithinStandard limits.now }
    requires known { IfSome known (λ list. AreHeads (sources_of sources.now) list.items) }
    requires some { 1 ≤ workers }
    requires most { workers ≤ 64 }
    ensures goes { Goes result (reading_defects limits.now (sources_of sources.now)) }
    ensures heads { IfOk result (λ heads. heads_of heads ≡ heads_in (sources_of sources.now)) }
    ensures few { IfOk result (λ heads. length sources.now ≤ limits.now.files) }
    ensures symbols { IfOk result (λ heads. symbol_total (heads_of heads) ≤ limits.now.symbols) }
{
    let count = (sources.len() as u64).min(limits.files);
    let list = heads_for(rt, alloc, sources, known, count as usize, workers, gate)?;
    if let Err(defect) = check_count(limits.files, sources.len() as u64) {
        return Err(LinkStop::Defect(defect));
    }
    let heads = gather(alloc, sources, list)?;
    if let Err(defect) = check_count(limits.symbols, count_symbols(heads.files())) {
        return Err(LinkStop::Defect(defect));
    }
    Ok(heads)
}
