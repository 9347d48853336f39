//! The hashes of texts, worked out four at a time.

ghost use Rattle.std.specs.Prelude.{◌≡◌, ◌+◌, ◌≤◌, ◌^◌, ◌*◌, ◌%◌, ◌++◌, bit_xor, drop, length, map, OnOk};
ghost use Rattle.std.specs.List.{range_with_len};
ghost use Rattle.intern_race.specs.Hash.{hash_from, hash_of};
ghost use Rattle.name_numbers.specs.Texts.{hash_at};

use intern_race::{Texts, hash_of};
use std::alloc::AllocError;

/// The hash of no bytes, and the factor of each step (FNV-1a of 64 bits).
const START: u64 = 0xcbf2_9ce4_8422_2325;

const PRIME: u64 = 0x100_0000_01b3;

/// Adds the hashes of so many texts, from one on.
pub fn push_hashes(
    hashes: &mut Vec<u64>,
    texts: &Texts,
    start: usize,
    count: usize,
) -> Result<(), AllocError>
    requires within { start + count ≤ length texts.now }
    requires few { length texts.now ≤ 2 ^ 31 }
    ensures { OnOk result (hashes.new.items ≡ hashes.old.items ++ map (hash_at texts.now) (range_with_len start count)) }
{
    let fours = count / 4;
    for n in 0..fours {
        push_four(hashes, texts, start + 4 * n)?;
    }
    for k in 4 * fours..count {
        hashes.push(hash_of(texts.text(start + k)))?;
    }
    Ok(())
}

/// Adds those of four texts.
fn push_four(hashes: &mut Vec<u64>, texts: &Texts, i: usize) -> Result<(), AllocError>
    requires within { i + 4 ≤ length texts.now }
    requires few { length texts.now ≤ 2 ^ 31 }
    ensures { OnOk result (hashes.new.items ≡ hashes.old.items ++ map (hash_at texts.now) (range_with_len i 4)) }
{
    let (first, second, third, fourth) = texts.four(i);
    let (of_first, of_second, of_third, of_fourth) = hash_four(first, second, third, fourth);
    hashes.push(of_first)?;
    hashes.push(of_second)?;
    hashes.push(of_third)?;
    hashes.push(of_fourth)?;
    Ok(())
}

/// The hashes of four texts. The steps of one hash wait for each other, and those of four go on side by side.
#[tactic(auto, unfolding(intern_race::specs::Hash::hash_of))]
fn hash_four(a: &[u8], b: &[u8], c: &[u8], d: &[u8]) -> (u64, u64, u64, u64)
    ensures a { result.0 ≡ hash_of a.now }
    ensures b { result.1 ≡ hash_of b.now }
    ensures c { result.2 ≡ hash_of c.now }
    ensures d { result.3 ≡ hash_of d.now }
{
    let least = lesser(lesser(a.len(), b.len()), lesser(c.len(), d.len()));
    let mut of_a = START;
    let mut of_b = START;
    let mut of_c = START;
    let mut of_d = START;
    for k in 0..least {
        of_a = hash_after(of_a, a[k]);
        of_b = hash_after(of_b, b[k]);
        of_c = hash_after(of_c, c[k]);
        of_d = hash_after(of_d, d[k]);
    }
    (
        hash_rest(of_a, a, least),
        hash_rest(of_b, b, least),
        hash_rest(of_c, c, least),
        hash_rest(of_d, d, least),
    )
}

/// The lesser of two numbers.
fn lesser(a: usize, b: usize) -> usize
    ensures first { result ≤ a }
    ensures second { result ≤ b }
{
    if a <= b { a } else { b }
}

/// The hash of a text, where that of its bytes before one is known.
fn hash_rest(start: u64, text: &[u8], from: usize) -> u64
    requires { from ≤ length text.now }
    ensures { result ≡ hash_from start (drop from text.now) }
{
    let mut hash = start;
    for k in from..text.len() {
        hash = hash_after(hash, text[k]);
    }
    hash
}

/// The hash after one byte more.
fn hash_after(hash: u64, byte: u8) -> u64
    ensures { result ≡ (bit_xor hash byte * 0x100000001b3) % 2 ^ 64 }
{
    (hash ^ byte as u64).wrapping_mul(PRIME)
}
