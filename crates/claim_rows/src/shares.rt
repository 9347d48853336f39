//! The least rank on offer for each word: the workers claim their pieces of the offers by seats of one table, and the caller's seat closes it.

ghost use Rattle.std.specs.Prelude.{◌≡◌, ◌<◌, ◌≤◌, length, vec_len, All, IfOk, OnOk};
ghost use Rattle.claim_core.specs.Events.{none_of, after, AllInRow, EachIsLeast};
ghost use Rattle.rank_claims.specs.Claims.{SitsAt, HasClaimedEach};
ghost use Rattle.work_split.specs.Pieces.{Tiles};
ghost use Rattle.claim_rows.specs.Shares.{HasClaimedFrom, KeepsClaims, AreDone};

use rank_claims::{ClaimSeat, Claims, Offer};
use std::alloc::{AllocError, Global};
use std::ops::Range;
use std::thread::Threads;
use work_split::{Gate, over_pieces, pieces};

/// The least rank on offer for each word, or `NONE` if there is none, claimed by as many workers as there are, or
/// by one for each offer if there are fewer offers. It answers the same whatever the number of workers.
pub fn least_offers<R: Threads + Sync, G: Gate>(
    rt: &R,
    alloc: Global,
    gate: &G,
    workers: u32,
    words: u32,
    offers: &[Offer],
) -> Result<Vec<u64>, AllocError>
    requires some { 1 ≤ workers }
    requires most { workers ≤ 64 }
    requires row { AllInRow words offers.now }
    ensures count { IfOk result (λ row. length row.items ≡ words) }
    ensures least { IfOk result (λ row. EachIsLeast offers.now row.items) }
    ensures alone { IfOk result (λ row. row.items ≡ after (none_of words) offers.now) }
{
    let (claims, mut seat) = Claims::open(alloc, words, offers)?;
    claim_each(rt, alloc, gate, workers, &claims, &mut seat, offers)?;
    match claims.close(seat) {
        Ok(row) => Ok(row),
        Err(_) => Err(AllocError),
    }
}

/// The workers claim each offer, and the seat takes their steps: with it the table closes to the least offers.
pub fn claim_each<R: Threads + Sync, G: Gate>(
    rt: &R,
    alloc: Global,
    gate: &G,
    workers: u32,
    claims: &Claims,
    seat: &mut ClaimSeat,
    offers: &[Offer],
) -> Result<(), AllocError>
    requires some { 1 ≤ workers }
    requires most { workers ≤ 64 }
    requires seat { SitsAt claims.now seat.old }
    requires offers { offers.now ≡ claims.now.offers }
    ensures seat { SitsAt claims.now seat.new }
    ensures keeps { KeepsClaims seat.old.steps seat.new.steps }
    ensures claimed { OnOk result (HasClaimedEach offers.now seat.new.steps) }
{
    let cuts = pieces(alloc, offers.len(), workers)?;
    let seats = seats_for(alloc, claims, seat, cuts.len())?;
    let seats = claim_pieces(rt, alloc, gate, claims, offers, cuts.as_slice(), seats)?;
    join_all(claims, seat, seats);
    Ok(())
}

/// A seat for each worker.
fn seats_for(
    alloc: Global,
    claims: &Claims,
    seat: &mut ClaimSeat,
    count: usize,
) -> Result<Vec<ClaimSeat>, AllocError>
    requires { SitsAt claims.now seat.old }
    ensures sits { SitsAt claims.now seat.new }
    ensures keeps { KeepsClaims seat.old.steps seat.new.steps }
    ensures count { IfOk result (λ seats. vec_len seats ≡ count) }
    ensures seated { IfOk result (λ seats. All (SitsAt claims.now) seats.items) }
{
    let mut seats = Vec::with_capacity(alloc, count)?;
    for worker in 0..count {
        seats.push(claims.split(seat))?;
    }
    Ok(seats)
}

/// Each worker claims the offers of its piece.
fn claim_pieces<R: Threads + Sync, G: Gate>(
    rt: &R,
    alloc: Global,
    gate: &G,
    claims: &Claims,
    offers: &[Offer],
    cuts: &[Range<usize>],
    seats: Vec<ClaimSeat>,
) -> Result<Vec<ClaimSeat>, AllocError>
    requires offers { offers.now ≡ claims.now.offers }
    requires tiles { Tiles 0 (length offers.now) cuts.now }
    requires count { length cuts.now ≡ vec_len seats }
    requires most { vec_len seats ≤ 64 }
    requires seated { All (SitsAt claims.now) seats.items }
    ensures { IfOk result (λ done. AreDone claims.now offers.now cuts.now done.items) }
{
    over_pieces(
        rt,
        alloc,
        gate,
        cuts,
        seats,
        |_worker: u32, piece: Range<usize>, seat: ClaimSeat| -> ClaimSeat
            requires seated { SitsAt claims.now seat }
            requires offers { offers.now ≡ claims.now.offers }
            requires piece { piece.end ≤ length offers.now }
            ensures seated { SitsAt claims.entry.now result }
            ensures claimed { HasClaimedFrom offers.entry.now piece.start piece.end result.steps }
        { claim_piece(claims, seat, offers, piece) },
    )
}

/// Claims the offers of one piece.
fn claim_piece(
    claims: &Claims,
    mut seat: ClaimSeat,
    offers: &[Offer],
    piece: Range<usize>,
) -> ClaimSeat
    requires seated { SitsAt claims.now seat }
    requires offers { offers.now ≡ claims.now.offers }
    requires piece { piece.end ≤ length offers.now }
    ensures seated { SitsAt claims.now result }
    ensures claimed { HasClaimedFrom offers.now piece.start piece.end result.steps }
{
    for i in piece.start..piece.end {
        let _ = claims.claim(&mut seat, offers, i);
    }
    seat
}

/// The seat takes the other seats' steps.
fn join_all(claims: &Claims, seat: &mut ClaimSeat, others: Vec<ClaimSeat>)
    requires seat { SitsAt claims.now seat.old }
    requires others { All (SitsAt claims.now) others.items }
    ensures table { SitsAt claims.now seat.new }
    ensures keeps { KeepsClaims seat.old.steps seat.new.steps }
    ensures kept { All (λ other. KeepsClaims other.steps seat.new.steps) others.items }
{
    for other in others {
        claims.join(seat, other);
    }
}
