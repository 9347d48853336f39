//! The least sizes of calls that allow their distances.

ghost use Rattle.std.specs.Prelude.{◌≡◌, ◌*◌, ◌<◌, ◌≤◌, ◌^◌, if◌then◌else◌, length, All, IfOk};
ghost use Rattle.relax.specs.Jumps as spec;

use crate::jumps::{Jump, Point};
use crate::settling::settle;
use std::alloc::{AllocError, Global};

/// The sizes after a round, and whether one rose.
#[derive(Drop)]
struct Round {
    sizes: Vec<u8>,
    rises: bool,
}

/// The sizes of calls, by number: those that allow all distances, and of all such the least of each call.
pub fn least_sizes(alloc: Global, jumps: &[Jump]) -> Result<Vec<u8>, AllocError>
    requires jumps { All (spec.IsJump (length jumps.now)) jumps.now }
    ensures safe { IfOk result (λ sizes. spec.AreSafe jumps.now sizes.items) }
    ensures least { IfOk result (λ sizes. spec.AreBelow jumps.now sizes.items) }
{
    let mut sizes = starts(alloc, jumps)?;
    loop {
        let next = next_round(alloc, jumps, sizes.as_slice())?;
        if !next.rises {
            return Ok(sizes);
        }
        sizes = next.sizes;
        settle(alloc, jumps, &mut sizes)?;
    }
}

/// The least size of each call.
fn starts(alloc: Global, jumps: &[Jump]) -> Result<Vec<u8>, AllocError>
    ensures { IfOk result (λ sizes. sizes.items ≡ spec.least_of jumps.now) }
{
    jumps.iter().map(|jump| jump.least).collect(alloc)
}

/// The sizes after a round: each that does not allow its distance is raised.
fn next_round(alloc: Global, jumps: &[Jump], sizes: &[u8]) -> Result<Round, AllocError>
    requires jumps { All (spec.IsJump (length jumps.now)) jumps.now }
    requires lawful { spec.AreLawful jumps.now sizes.now }
    ensures sizes { IfOk result (λ next. next.sizes.items ≡ spec.raised jumps.now sizes.now) }
    ensures rises { IfOk result (λ next. next.rises ≡ spec.some_rises jumps.now sizes.now (length jumps.now)) }
{
    let lost = lost_sums(alloc, sizes)?;
    let mut raised = Vec::with_capacity(alloc, sizes.len())?;
    let mut rises = false;
    for k in 0..jumps.len() {
        let allowed = allows(
            sizes[k],
            &jumps[k],
            bytes_of(&jumps[k], sizes, lost.as_slice()),
        );
        raised.push(raised_size(sizes[k], allowed))?;
        rises = rises | !allowed;
    }
    Ok(Round {
        sizes: raised,
        rises,
    })
}

/// The next size, if this one does not allow its distance.
pub fn raised_size(size: u8, allowed: bool) -> u8
    requires { size ≤ 8 }
    ensures { result ≡ (if allowed then size else 2 * size) }
{
    if allowed {
        return size;
    }
    2 * size
}

/// How many bytes the calls before each lose, and how many all lose.
pub fn lost_sums(alloc: Global, sizes: &[u8]) -> Result<Vec<u128>, AllocError>
    ensures { IfOk result (λ sums. sums.items ≡ spec.lost_sums sizes.now) }
{
    let mut sums = Vec::with_capacity(alloc, sizes.len().saturating_add(1))?;
    let mut sum: u128 = 0;
    for k in 0..sizes.len() {
        sums.push(sum)?;
        sum += 8_u8.saturating_sub(sizes[k]) as u128;
    }
    sums.push(sum)?;
    Ok(sums)
}

/// Whether a size allows a jump of so many bytes.
#[tactic(auto, unfolding(crate::specs::Jumps::allows))]
pub fn allows(size: u8, jump: &Jump, bytes: u128) -> bool
    ensures { result ≡ spec.allows size jump.now.forwards bytes }
{
    if size == 2 {
        return bytes <= if jump.forwards { 2_046 } else { 2_048 };
    }
    if size == 4 {
        return bytes <= if jump.forwards { 1_048_574 } else { 1_048_576 };
    }
    true
}

/// The bytes between the points of a jump.
#[tactic(auto, unfolding(crate::specs::Jumps::jump_bytes))]
pub fn bytes_of(jump: &Jump, sizes: &[u8], lost: &[u128]) -> u128
    requires jump { spec.IsJump (length sizes.now) jump.now }
    requires lost { lost.now ≡ spec.lost_sums sizes.now }
    ensures { result ≡ spec.jump_bytes sizes.now jump.now }
{
    let high = jump.high.place + lost_before(&jump.low, sizes, lost);
    let low = jump.low.place + lost_before(&jump.high, sizes, lost);
    high.saturating_sub(low)
}

/// How many bytes the calls before a point lose.
#[tactic(auto, unfolding(crate::specs::Jumps::lost_before))]
fn lost_before(point: &Point, sizes: &[u8], lost: &[u128]) -> u128
    requires within { point.now.call ≤ length sizes.now }
    requires lost { lost.now ≡ spec.lost_sums sizes.now }
    ensures value { result ≡ spec.lost_before sizes.now point.now }
    ensures few { result < 2 ^ 70 }
{
    let size = size_at(sizes, point.call);
    lost[point.call] + (point.depth.min(8) - point.depth.min(size as u64).min(8)) as u128
}

/// The size of a call; 8 past the last.
pub fn size_at(sizes: &[u8], call: usize) -> u8
    ensures { result ≡ spec.size_at sizes.now call }
{
    match sizes.get(call) {
        Some(size) => *size,
        None => 8,
    }
}
