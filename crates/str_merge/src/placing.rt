//! Where the pieces of a pool stand.

ghost use Rattle.std.specs.Prelude.{◌≡◌, ◌+◌, ◌*◌, ◌<◌, ◌≤◌, ◌^◌, [], All, length, IfOk, OnOk};
ghost use Rattle.str_merge.specs.Gathering.{IsPlace};
ghost use Rattle.str_merge.specs.Orders.{firsts};
ghost use Rattle.str_merge.specs.Placing.{AddsPieces, IsPlaced};
ghost use Rattle.str_merge.specs.Sites.{gathered, piece_lists};
ghost use Rattle.str_merge.specs.Small.{IsNear};

use crate::cuts::Cut;
use crate::gathering::{Place, START, span_at};
use crate::orders::{block_of, empty_block, first_count, head, list_own};
use link_sections::Piece;
use lk_base::up;
use std::alloc::{AllocError, Global};

/// The distinct pieces of a pool, and its bytes.
#[derive(Debug, Drop)]
pub struct Placed {
    /// In order of position.
    pub pieces: Vec<Piece>,
    /// To the end of the last one.
    pub size: u64,
}

/// The distinct ones of the pieces of some sections, one after the other, each at a multiple of the alignment: those whose numbers are
/// their own indexes.
pub fn place_distinct(
    alloc: Global,
    cuts: &[Cut],
    members: &[u32],
    numbers: &[u32],
    align: u64,
) -> Result<Placed, AllocError>
    requires align { 1 ≤ align }
    requires most { align ≤ 2 ^ 20 }
    requires members { All (λ m. m < length cuts.now) members.now }
    requires near { All IsNear cuts.now }
    requires few { length numbers.now < 2 ^ 31 }
    requires wide { length numbers.now ≡ length (gathered (piece_lists cuts.now) members.now) }
    ensures { IfOk result (IsPlaced (gathered (piece_lists cuts.now) members.now) (firsts numbers.now) align) }
{
    let mut own = empty_block(alloc)?;
    let mut placed = none_placed(alloc, numbers)?;
    place_into(cuts, members, numbers, align, &mut own, &mut placed)?;
    Ok(placed)
}

/// No piece, and room for all distinct ones.
pub fn none_placed(alloc: Global, numbers: &[u32]) -> Result<Placed, AllocError>
    requires { length numbers.now < 2 ^ 31 }
    ensures pieces { IfOk result (λ placed. placed.pieces.items ≡ []) }
    ensures size { IfOk result (λ placed. placed.size ≡ 0) }
{
    let pieces = Vec::with_capacity(alloc, first_count(numbers))?;
    Ok(Placed { pieces, size: 0 })
}

/// Places the distinct pieces in a list that is lent and empty. It takes memory only if that has too little room. Blocks of elements are looked at one by
/// one, and `own` is what a block's distinct ones are listed in.
pub fn place_into(
    cuts: &[Cut],
    members: &[u32],
    numbers: &[u32],
    align: u64,
    own: &mut Vec<u32>,
    placed: &mut Placed,
) -> Result<(), AllocError>
    requires align { 1 ≤ align }
    requires most { align ≤ 2 ^ 20 }
    requires members { All (λ m. m < length cuts.now) members.now }
    requires near { All IsNear cuts.now }
    requires few { length numbers.now < 2 ^ 31 }
    requires wide { length numbers.now ≡ length (gathered (piece_lists cuts.now) members.now) }
    requires room { length own.old.items ≡ 512 }
    requires none { placed.old.pieces.items ≡ [] }
    requires start { placed.old.size ≡ 0 }
    ensures { OnOk result (IsPlaced (gathered (piece_lists cuts.now) members.now) (firsts numbers.now) align placed.new) }
{
    let mut place = START;
    let mut done = 0;
    while done < numbers.len() {
        let end = done + block_of(numbers.len() - done);
        let count = list_own(own, numbers, done, end);
        place_more(
            cuts,
            members,
            head(own.as_slice(), count),
            align,
            &mut place,
            placed,
        )?;
        done = end;
    }
    Ok(())
}

/// Places the pieces of these indexes after those that are placed.
fn place_more(
    cuts: &[Cut],
    members: &[u32],
    indexes: &[u32],
    align: u64,
    place: &mut Place,
    placed: &mut Placed,
) -> Result<(), AllocError>
    requires align { 1 ≤ align }
    requires most { align ≤ 2 ^ 20 }
    requires members { All (λ m. m < length cuts.now) members.now }
    requires near { All IsNear cuts.now }
    requires within { All (λ i. i < length (gathered (piece_lists cuts.now) members.now)) indexes.now }
    requires room { placed.old.size + length indexes.now * (2 ^ 31 + 2 ^ 20) < 2 ^ 63 }
    requires place { IsPlace (piece_lists cuts.now) members.now place.old }
    ensures placed { OnOk result (AddsPieces (gathered (piece_lists cuts.now) members.now) indexes.now align placed.old placed.new) }
    ensures most { OnOk result (placed.new.size ≤ placed.old.size + length indexes.now * (2 ^ 31 + 2 ^ 20)) }
    ensures place { OnOk result (IsPlace (piece_lists cuts.now) members.now place.new) }
{
    for n in 0..indexes.len() {
        let at = indexes[n] as usize;
        let position = up(placed.size, align);
        let text = span_at(cuts, members, place, at);
        placed.pieces.push(Piece { text, position })?;
        placed.size = end_of(position, text.len);
    }
    Ok(())
}

/// The end of a piece.
pub fn end_of(start: u64, len: u64) -> u64
    requires { start + len < 2 ^ 64 }
    ensures { result ≡ start + len }
{
    start + len
}
