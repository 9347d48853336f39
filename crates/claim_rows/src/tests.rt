ghost use Rattle.std.specs.Prelude.{◌≤◌, IfOk};
ghost use Rattle.claim_core.specs.Events.{AllInRow};

use crate::least_offers;
use claim_core::{NONE, run};
use rank_claims::Offer;
use std::alloc::{AllocError, Global};
use std::process::Abort;
use std::test::Fail;
use std::thread::Threads;
use work_split::OpenGate;

const COMMON: Offer = Offer {
    word: 0,
    rank: 72057594037927939,
};

const WEAK: Offer = Offer {
    word: 0,
    rank: 144115192370823170,
};

#[test]
fn two_ranks_of_a_word(rt: HostRuntime) -> Result<(), Fail> {
    let offers = [WEAK, COMMON];
    for workers in 1..3 {
        let row = least_offers(&rt, rt.alloc(), &OpenGate, workers, 1, &offers)?;
        assert!(rt; row.as_slice() == [72057594037927939].as_slice());
    }
    let mut alone = [NONE];
    run(&mut alone, &offers);
    assert!(rt; alone == [72057594037927939]);
    Ok(())
}

#[test]
fn no_offers_and_no_words(rt: HostRuntime) -> Result<(), Fail> {
    let row = least_offers(&rt, rt.alloc(), &OpenGate, 4, 0, &[])?;
    assert!(rt; row.is_empty());
    let row = least_offers(&rt, rt.alloc(), &OpenGate, 4, 2, &[])?;
    assert!(rt; row.as_slice() == [NONE, NONE].as_slice());
    Ok(())
}

const WORDS: u32 = 10_000;

const OFFERS: usize = 100_000;

// The next number of a linear congruence.
fn next(number: u64) -> u64 {
    number
        .wrapping_mul(6364136223846793005)
        .wrapping_add(1442695040888963407)
}

fn made_offers(alloc: Global) -> Result<Vec<Offer>, AllocError>
    ensures { IfOk result (λ offers. AllInRow WORDS offers.items) }
{
    let mut offers = Vec::with_capacity(alloc, OFFERS)?;
    let mut number = 1;
    for _place in 0..OFFERS {
        number = next(number);
        let word = ((number >> 33) % u64::from(WORDS)) as u32;
        number = next(number);
        offers.push(Offer {
            word,
            rank: number >> 6,
        })?;
    }
    Ok(offers)
}

// One number for a row, each word weighed by its place.
fn digest(row: &[u64]) -> u64 {
    let mut sum: u64 = 0;
    for word in row {
        sum = sum.wrapping_mul(31).wrapping_add(*word);
    }
    sum
}

#[test]
fn any_number_of_workers_comes_to_the_same_row(rt: HostRuntime) -> Result<(), Fail> {
    let offers = made_offers(rt.alloc())?;
    let mut alone = vec![in rt.alloc(); NONE; WORDS as usize]?;
    run(alone.as_mut_slice(), offers.as_slice());
    // The digest was computed by another program.
    assert_eq!(rt; digest(alone.as_slice()), 12985001141070360694);
    for_workers(&rt, rt.alloc(), 1, &offers, &alone)?;
    for_workers(&rt, rt.alloc(), 2, &offers, &alone)?;
    for_workers(&rt, rt.alloc(), 4, &offers, &alone)?;
    for_workers(&rt, rt.alloc(), 8, &offers, &alone)?;
    for_workers(&rt, rt.alloc(), 64, &offers, &alone)?;
    Ok(())
}

fn for_workers<R: Abort + Threads + Sync>(
    rt: &R,
    alloc: Global,
    workers: u32,
    offers: &[Offer],
    alone: &[u64],
) -> Result<(), AllocError>
    requires some { 1 ≤ workers }
    requires most { workers ≤ 64 }
    requires row { AllInRow WORDS offers.now }
{
    let row = least_offers(rt, alloc, &OpenGate, workers, WORDS, offers)?;
    assert!(rt; row.as_slice() == alone, "{workers} workers");
    Ok(())
}
