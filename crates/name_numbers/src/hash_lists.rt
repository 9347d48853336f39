//! The hashes of texts, listed by several workers, and their tags.

ghost use Rattle.std.specs.Prelude.{◌≡◌, ◌<◌, ◌≤◌, ◌+◌, ◌-◌, ◌^◌, length, map, slice_index, IfOk, OnOk};
ghost use Rattle.std.specs.List.{range_with_len};
ghost use Rattle.intern_race.specs.Hash.{tag_of};
ghost use Rattle.intern_race.specs.Texts.{AreTags, tag_at};
ghost use Rattle.name_numbers.specs.Placed.{AreHashed, AreHashes, HasHashes};
ghost use Rattle.name_numbers.specs.Texts.{hash_at};
ghost use Rattle.work_split.specs.Pieces.{Tiles};
ghost use Rattle.work_split.specs.Tasks.{IsAt};

use crate::blocks::block_of;
use crate::hashing::push_hashes;
use intern_race::{Texts, tag_of};
use lk_base::LinkStop;
use std::alloc::{AllocError, Global};
use std::ops::Range;
use std::thread::Threads;
use work_split::{OpenGate, join, nothing_else, over_pieces};

/// The hashes of the texts of each piece, and the tags of all.
#[derive(Drop)]
pub struct Hashes {
    pub hashes: Vec<Result<Vec<u64>, LinkStop>>,
    pub tags: Vec<u8>,
}

/// The hashes of the next texts, from one on, and their tags after those of the texts before.
pub fn hash_block(
    texts: &Texts,
    hashes: &mut Vec<u64>,
    tags: &mut Vec<u8>,
    start: usize,
) -> Result<(), AllocError>
    requires start { start < length texts.now }
    requires few { length texts.now ≤ 2 ^ 31 }
    requires tags { tags.old.items ≡ map (tag_at texts.now) (range_with_len 0 start) }
    ensures some { OnOk result (0 < length hashes.new.items) }
    ensures most { OnOk result (length hashes.new.items ≤ 512) }
    ensures within { OnOk result (start + length hashes.new.items ≤ length texts.now) }
    ensures hashes { OnOk result (hashes.new.items ≡ map (hash_at texts.now) (range_with_len start (length hashes.new.items))) }
    ensures tags { OnOk result (tags.new.items ≡ map (tag_at texts.now) (range_with_len 0 (start + length hashes.new.items))) }
{
    hashes.clear();
    push_hashes(hashes, texts, start, block_of(texts.len() - start))?;
    for k in 0..hashes.len() {
        tags.push(tag_of(hashes[k]))?;
    }
    Ok(())
}

/// The hashes of all texts, by piece, and their tags.
pub fn hash_all<R: Threads + Sync>(
    rt: &R,
    alloc: Global,
    texts: &Texts,
    cuts: &[Range<usize>],
) -> Result<Hashes, AllocError>
    requires few { length texts.now ≤ 2 ^ 31 }
    requires tiles { Tiles 0 (length texts.now) cuts.now }
    requires most { length cuts.now ≤ 64 }
    ensures { IfOk result (AreHashed texts.now cuts.now) }
{
    let hashes = hash_pieces(rt, alloc, texts, cuts)?;
    let tags = tags_of(rt, alloc, texts, cuts, hashes.as_slice())?;
    Ok(Hashes { hashes, tags })
}

/// Each worker works out the hashes of the texts of its piece.
fn hash_pieces<R: Threads + Sync>(
    rt: &R,
    alloc: Global,
    texts: &Texts,
    cuts: &[Range<usize>],
) -> Result<Vec<Result<Vec<u64>, LinkStop>>, AllocError>
    requires few { length texts.now ≤ 2 ^ 31 }
    requires tiles { Tiles 0 (length texts.now) cuts.now }
    requires most { length cuts.now ≤ 64 }
    ensures { IfOk result (λ lists. AreHashes texts.now cuts.now lists.items) }
{
    let nothing = nothing_else(alloc, cuts.len())?;
    over_pieces(
        rt,
        alloc,
        &OpenGate,
        cuts,
        nothing,
        |_worker: u32, piece: Range<usize>, _nothing: ()| -> Result<Vec<u64>, LinkStop>
            requires ordered { piece.start ≤ piece.end }
            requires piece { piece.end ≤ length texts.now }
            requires few { length texts.now ≤ 2 ^ 31 }
            ensures { HasHashes texts.entry.now piece result }
        { Ok(hashes_of(alloc, texts, piece)?) },
    )
}

/// The hashes of the texts of one piece.
fn hashes_of(alloc: Global, texts: &Texts, piece: Range<usize>) -> Result<Vec<u64>, AllocError>
    requires ordered { piece.start ≤ piece.end }
    requires piece { piece.end ≤ length texts.now }
    requires few { length texts.now ≤ 2 ^ 31 }
    ensures { IfOk result (λ list. list.items ≡ map (hash_at texts.now) (range_with_len piece.start (piece.end - piece.start))) }
{
    let count = piece.end - piece.start;
    let mut list = Vec::with_capacity(alloc, count)?;
    push_hashes(&mut list, texts, piece.start, count)?;
    Ok(list)
}

/// The tags of all texts, if the hashes of each piece are known.
fn tags_of<R: Threads + Sync>(
    rt: &R,
    alloc: Global,
    texts: &Texts,
    cuts: &[Range<usize>],
    hashes: &[Result<Vec<u64>, LinkStop>],
) -> Result<Vec<u8>, AllocError>
    requires hashes { AreHashes texts.now cuts.now hashes.now }
    requires tiles { Tiles 0 (length texts.now) cuts.now }
    requires most { length cuts.now ≤ 64 }
    ensures { IfOk result (λ tags. AreTags texts.now tags.items) }
{
    let nothing = nothing_else(alloc, cuts.len())?;
    let shares = over_pieces(
        rt,
        alloc,
        &OpenGate,
        cuts,
        nothing,
        |worker: u32, piece: Range<usize>, _nothing: ()| -> Result<Vec<u8>, LinkStop>
            requires worker { worker < length hashes.now }
            requires hashes { (list : _) → IsAt hashes.now worker list → HasHashes texts.now piece list }
            ensures { IfOk result (λ list. list.items ≡ map (tag_at texts.entry.now) (range_with_len piece.start (piece.end - piece.start))) }
        { piece_tags(alloc, texts, piece, &hashes[worker as usize]) },
    )?;
    match join(alloc, shares) {
        Ok(tags) => Ok(tags),
        Err(_) => Err(AllocError),
    }
}

/// The tags of the texts of one piece, if their hashes are known.
fn piece_tags(
    alloc: Global,
    texts: &Texts,
    piece: Range<usize>,
    hashes: &Result<Vec<u64>, LinkStop>,
) -> Result<Vec<u8>, LinkStop>
    requires { HasHashes texts.now piece hashes.now }
    ensures { IfOk result (λ list. list.items ≡ map (tag_at texts.now) (range_with_len piece.start (piece.end - piece.start))) }
{
    let _ = texts;
    match hashes {
        Ok(list) => Ok(tags_by(alloc, list.as_slice())?),
        Err(_) => Err(LinkStop::Memory),
    }
}

/// The tags of texts that have these hashes.
fn tags_by(alloc: Global, hashes: &[u64]) -> Result<Vec<u8>, AllocError>
    ensures { IfOk result (λ list. list.items ≡ map (λ i. tag_of (slice_index hashes.now i)) (range_with_len 0 (length hashes.now))) }
{
    let mut list = Vec::with_capacity(alloc, hashes.len())?;
    for k in 0..hashes.len() {
        list.push(tag_of(hashes[k]))?;
    }
    Ok(list)
}
