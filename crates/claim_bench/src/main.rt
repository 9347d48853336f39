//! How long claims take: `claim_bench WORKERS WORDS OFFERS` lets so many workers claim so many offers on so many words,
//! and prints the claims, the nanoseconds that they took, and a number made of the closed table.
#![tactic(auto)]

ghost use Rattle.std.specs.Prelude.{◌<◌, ◌≤◌, ◌≡◌, IfOk, vec_len, length};
ghost use Rattle.claim_core.specs.Events.{AllInRow};

use claim_rows::claim_each;
use rank_claims::{Claims, Offer};
use std::alloc::{AllocError, Global};
use std::thread::Threads;
use std::time::Instant;
use std::{env, io};
use work_split::OpenGate;

/// Offers in turn on each word, with pseudo-random ranks.
fn offers_of(alloc: Global, words: u32, count: u32) -> Result<Vec<Offer>, AllocError>
    requires { 0 < words }
    ensures { IfOk result (λ offers. AllInRow words offers.items) }
{
    let mut offers = Vec::with_capacity(alloc, count as usize)?;
    for i in 0..count {
        let rank = u64::from(i).wrapping_mul(0x9e37_79b9_7f4a_7c15) >> 8;
        offers.push(Offer {
            word: i % words,
            rank,
        })?;
    }
    Ok(offers)
}

/// A number made of all words.
fn digest(row: &[u64]) -> u64 {
    let mut all = 0u64;
    for word in row {
        all = all.wrapping_mul(31).wrapping_add(*word);
    }
    all
}

/// The number at place `i` of the command, where it is one.
fn number_at(words: &[String], i: usize) -> Option<u32> {
    words.get(i)?.as_str().parse().ok()
}

fn main(rt: HostRuntime) -> io::Result<()> {
    let alloc = rt.alloc();
    let words: Vec<String> = env::args(&rt)?.collect(alloc)?;
    let words = words.as_slice();
    let (Some(workers), Some(row), Some(count)) = (
        number_at(words, 1),
        number_at(words, 2),
        number_at(words, 3),
    ) else {
        println!(rt; "claim_bench WORKERS WORDS OFFERS")?;
        return Ok(());
    };
    if workers < 1 || 64 < workers || row < 1 {
        println!(rt; "claim_bench WORKERS WORDS OFFERS")?;
        return Ok(());
    }
    let offers = offers_of(alloc, row, count)?;
    let (claims, mut seat) = Claims::open(alloc, row, &offers)?;
    let start = Instant::now(&rt)?;
    claim_each(&rt, alloc, &OpenGate, workers, &claims, &mut seat, &offers)?;
    let taken = start.elapsed(&rt)?.as_nanos();
    let Ok(closed) = claims.close(seat) else {
        return Err(io::Error::from(AllocError));
    };
    println!(rt;
        "claims {count} nanoseconds {taken} digest {}",
        digest(&closed)
    )?;
    Ok(())
}
