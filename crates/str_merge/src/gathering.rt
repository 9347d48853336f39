//! The pieces of several sections, one after the other, read where the sections hold them.

ghost use Rattle.std.specs.Prelude.{◌≡◌, ◌+◌, ◌-◌, ◌<◌, ◌≤◌, ◌^◌, [], All, length, take, drop, slice_index_or, IfOk};
ghost use Rattle.str_merge.specs.Gathering.{IsFound, IsPlace, piece_at};
ghost use Rattle.str_merge.specs.Sites as spec;
ghost use Rattle.str_merge.specs.Sites.{cut_text, gathered, piece_lists, piece_of, pieces_of};
ghost use Rattle.str_merge.specs.Small.{IsNear};

use crate::cuts::Cut;
use intern_race::Texts;
use lk_tables::Span;
use std::alloc::{AllocError, Global};

/// Where the pieces of one of several sections begin.
#[derive(Clone, Copy, Debug)]
pub struct Place {
    /// The section's place among these.
    pub section: usize,
    /// How many pieces the sections before it have.
    pub before: usize,
}

/// The first section.
pub const START: Place = Place {
    section: 0,
    before: 0,
};

/// How many pieces these sections have.
pub fn count_of(cuts: &[Cut], members: &[u32]) -> usize
    requires members { All (λ i. i < length cuts.now) members.now }
    requires few { length (gathered (piece_lists cuts.now) members.now) < 2 ^ 31 }
    ensures { result ≡ length (gathered (piece_lists cuts.now) members.now) }
{
    let mut count: usize = 0;
    for n in 0..members.len() {
        count = sum_of(count, cut_at(cuts, members, n).ends.len());
    }
    count
}

/// One of these sections.
pub fn cut_at<'c, 'a>(cuts: &'c [Cut<'a>], members: &[u32], n: usize) -> &'c Cut<'a>
    requires members { All (λ i. i < length cuts.now) members.now }
    requires n { n < length members.now }
    ensures pieces { pieces_of result.now ≡ slice_index_or (piece_lists cuts.now) (slice_index_or members.now n 0) [] }
    ensures near { All IsNear cuts.now → IsNear result.now }
{
    &cuts[members[n] as usize]
}

/// Two counts together.
fn sum_of(count: usize, more: usize) -> usize
    requires { count + more < 2 ^ 31 }
    ensures { result ≡ count + more }
{
    count + more
}

/// Where piece `k` of a section begins that is cut at these ends.
fn start_of(ends: &[u32], k: usize) -> usize
    requires { k ≤ length ends.now }
    ensures value { result ≡ spec.start_of ends.now k }
    ensures most { result < 2 ^ 32 }
{
    if k == 0 {
        return 0;
    }
    ends[k - 1] as usize
}

/// The bytes of piece `k` of a section.
pub fn text_in<'a>(cut: &Cut<'a>, k: usize) -> &'a [u8]
    requires { k < length cut.now.ends.items }
    ensures value { result.now ≡ cut_text cut.now.bytes.now cut.now.ends.items k }
    ensures most { length result.now ≤ length cut.now.bytes.now }
{
    let ends = cut.ends.as_slice();
    part_of(cut.bytes, start_of(ends, k), ends[k] as usize)
}

/// The bytes from one on and before another.
fn part_of(bytes: &[u8], start: usize, end: usize) -> &[u8]
    ensures value { result.now ≡ take (end - start) (drop start bytes.now) }
    ensures most { length result.now ≤ length bytes.now }
{
    let end = end.min(bytes.len());
    let start = start.min(end);
    &bytes[start..end]
}

/// Where piece `k` of a section stands in its file.
fn span_in(cut: &Cut, k: usize) -> Span
    requires k { k < length cut.now.ends.items }
    requires near { IsNear cut.now }
    ensures { result ≡ (piece_of cut.now k).span }
{
    let start = start_of(cut.ends.as_slice(), k);
    let from = cut.whole.from + start as u64;
    Span {
        file: cut.whole.file,
        from,
        len: text_in(cut, k).len() as u64,
    }
}

/// The section of piece `i`.
fn find(cuts: &[Cut], members: &[u32], from: &Place, i: usize) -> Place
    requires members { All (λ m. m < length cuts.now) members.now }
    requires from { IsPlace (piece_lists cuts.now) members.now from.now }
    requires there { i < length (gathered (piece_lists cuts.now) members.now) }
    ensures { IsFound (piece_lists cuts.now) members.now i result }
{
    if i < from.before {
        return find_from(cuts, members, &START, i);
    }
    find_from(cuts, members, from, i)
}

/// The section of piece `i`, looked for from a section on whose pieces don't begin after it.
fn find_from(cuts: &[Cut], members: &[u32], from: &Place, i: usize) -> Place
    requires members { All (λ m. m < length cuts.now) members.now }
    requires from { IsPlace (piece_lists cuts.now) members.now from.now }
    requires order { from.now.before ≤ i }
    requires there { i < length (gathered (piece_lists cuts.now) members.now) }
    ensures { IsFound (piece_lists cuts.now) members.now i result }
{
    let mut before = from.before;
    for section in from.section..members.len() {
        let len = cut_at(cuts, members, section).ends.len();
        if i - before < len {
            return Place { section, before };
        }
        before += len;
    }
    unreachable!()
}

/// Where piece `i` stands in its file. Pieces that are asked for in order are found without a search.
pub fn span_at(cuts: &[Cut], members: &[u32], place: &mut Place, i: usize) -> Span
    requires members { All (λ m. m < length cuts.now) members.now }
    requires near { All IsNear cuts.now }
    requires place { IsPlace (piece_lists cuts.now) members.now place.old }
    requires there { i < length (gathered (piece_lists cuts.now) members.now) }
    ensures span { result ≡ (piece_at (gathered (piece_lists cuts.now) members.now) i).span }
    ensures place { IsPlace (piece_lists cuts.now) members.now place.new }
{
    let found = find(cuts, members, place, i);
    *place = found;
    span_in(cut_at(cuts, members, found.section), i - found.before)
}

/// The bytes of each piece of these sections, lent.
pub fn texts_of<'c>(
    alloc: Global,
    cuts: &'c [Cut<'c>],
    members: &[u32],
) -> Result<Texts<'c>, AllocError>
    requires { All (λ m. m < length cuts.now) members.now }
    ensures { IfOk result (λ texts. texts ≡ spec.texts_of (gathered (piece_lists cuts.now) members.now)) }
{
    let mut texts = Texts::empty(alloc);
    for n in 0..members.len() {
        let cut = cut_at(cuts, members, n);
        texts.add_cut(cut.bytes, cut.ends.as_slice())?;
    }
    Ok(texts)
}
